//! Lists of packets, runs over the sockets of this machine, and one over a link that loses all.
use crate::fakes::Silence;
use commands::{ListFault, UdpLink, drop_list, loopback};
use rtpwire::{Datagram, MAX_DATAGRAM};
use runs::{Link, Tally};
use std::test::Fail;
use world::End;

/// One octet more than a datagram has.
const TOO_LONG: usize = MAX_DATAGRAM + 1;

#[test]
fn lists_that_are_read(rt: HostRuntime) -> Result<(), Fail> {
    let rows: [(&str, u32, &[u32]); 7] = [
        ("none", 5, &[]),
        ("none", 0, &[]),
        ("1,3", 5, &[1, 3]),
        ("0", 1, &[0]),
        ("0,1,2,3,4", 5, &[0, 1, 2, 3, 4]),
        ("9,10,99,100", 1000, &[9, 10, 99, 100]),
        ("4294967294", 4294967295, &[4294967294]),
    ];
    for (text, packets, numbers) in rows {
        match drop_list(rt.alloc(), text, packets) {
            Ok(list) => assert!(rt; list.as_slice() == numbers),
            Err(_) => return Err(Fail::new("the list should be read")),
        }
    }
    Ok(())
}

#[test]
fn lists_that_are_refused(rt: HostRuntime) -> Result<(), Fail> {
    let rows: [(&str, u32); 19] = [
        ("3,1", 5),
        ("1,1", 5),
        ("5", 5),
        ("0", 0),
        ("", 5),
        (",", 5),
        ("1,", 5),
        (",1", 5),
        ("1,,3", 5),
        ("01", 5),
        ("+1", 5),
        ("-1", 5),
        (" 1", 5),
        ("1, 3", 5),
        ("1;3", 5),
        ("4294967296", 4294967295),
        ("4294967295", 4294967295),
        ("none,1", 5),
        ("None", 5),
    ];
    for (text, packets) in rows {
        match drop_list(rt.alloc(), text, packets) {
            Err(fault) => assert_eq!(rt; fault, ListFault::BadList),
            Ok(_) => return Err(Fail::new("the list should be refused")),
        }
    }
    Ok(())
}

/// What is not put into the link is retransmitted over it.
#[test]
fn a_run_over_two_sockets(rt: HostRuntime) -> Result<(), Fail> {
    let mut link = UdpLink::open(&rt).map_err(|_| "the machine has two sockets")?;
    let list = drop_list(rt.alloc(), "1,3", 5).map_err(|_| "the list is right")?;
    let tally = loopback(rt.alloc(), &mut link, 5, &list).map_err(|_| "nothing fails")?;
    let expected = Tally {
        sent: 5,
        dropped: 2,
        repaired: 2,
        played: 5,
        gaps: 0,
    };
    assert!(rt; tally == expected);
    assert_eq!(rt; link.faults(), 0);
    Ok(())
}

/// Where nothing comes, nothing is repaired and nothing is played.
#[test]
fn a_run_over_silence(rt: HostRuntime) -> Result<(), Fail> {
    let mut link = Silence { faults: 0 };
    let list = drop_list(rt.alloc(), "1,3", 5).map_err(|_| "the list is right")?;
    let tally = loopback(rt.alloc(), &mut link, 5, &list).map_err(|_| "nothing fails")?;
    let expected = Tally {
        sent: 5,
        dropped: 2,
        repaired: 0,
        played: 0,
        gaps: 0,
    };
    assert!(rt; tally == expected);
    assert_eq!(rt; link.faults(), 0);
    Ok(())
}

/// Whether octets that are sent to one end come to another; none but these may.
fn comes(rt: &HostRuntime, to: End, at: End, octets: &[u8]) -> Result<bool, Fail> {
    let mut link = UdpLink::open(rt).map_err(|_| "the machine has two sockets")?;
    let mut came = Datagram::new();
    link.send(to, octets).map_err(|_| "it is sent")?;
    let is_there = link.recv(at, &mut came).map_err(|_| "no read fails")?;
    if is_there && came.as_slice() != octets {
        return Err(Fail::new("other octets came"));
    }
    Ok(is_there)
}

#[test]
fn datagrams_over_two_sockets(rt: HostRuntime) -> Result<(), Fail> {
    for end in [End::Sender, End::Receiver] {
        assert!(rt; comes(&rt, end, end, &[1, 2, 3])?);
        assert!(rt; comes(&rt, end, end, &[])?);
        assert!(rt; comes(&rt, end, end, &[7; MAX_DATAGRAM])?);
        // One that is too long is as one that did not come.
        assert!(rt; !comes(&rt, end, end, &[7; TOO_LONG])?);
    }
    assert!(rt; !comes(&rt, End::Sender, End::Receiver, &[7])?);
    Ok(())
}
