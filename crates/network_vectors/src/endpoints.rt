//! A receiving endpoint at jumps of the sequence number (RFC 3550, appendix A.1), packets that are all padding, and RTCP.
use crate::ends::Packet::{self, Media, Repair, These};
use crate::ends::{Does, config, media, wrong};
use endpoint::*;
use receiver::ReceiveFault;
use std::alloc::Global;
use std::test::Fail;
use stores::RingWindow;

/// An endpoint with the usual probation, over windows of 300 places.
fn endpoint(alloc: Global) -> Result<ReceivingEndpoint<RingWindow>, Fail> {
    match ReceivingEndpoint::new(alloc, config(100, 0, 20, 3)?, Probation::usual(), 300) {
        Ok(made) => Ok(made),
        Err(_) => Err(Fail::from("memory is ample")),
    }
}

/// Taken, as media or repaired, held back, restarted, control or refused.
fn letter(heard: Result<Heard, ReceiveFault>) -> u8 {
    match heard {
        Ok(Heard::Media(_)) => b't',
        Ok(Heard::Repair(_)) => b'p',
        Ok(Heard::HeldBack(_)) => b'h',
        Ok(Heard::Restarted(_)) => b'r',
        Ok(Heard::Control) => b'c',
        Err(_) => b'x',
    }
}

/// Hears packets with these numbers, and says what each was.
fn heard(alloc: Global, numbers: &[u16]) -> Result<Vec<u8>, Fail> {
    let mut endpoint = endpoint(alloc)?;
    let mut letters = Vec::new(alloc);
    for seq in numbers {
        letters.push(letter(endpoint.on_datagram(media(*seq, 0).as_slice(), 0)))?;
    }
    Ok(letters)
}

/// How often each letter is told where a packet with number 5000 is followed by so many old ones from 4000 on and then by
/// 5001: held back, restarted, and what that one was.
fn repeated(alloc: Global, count: u16) -> Result<(u32, u32, u8), Fail> {
    let mut endpoint = endpoint(alloc)?;
    let _ = endpoint.on_datagram(media(5000, 0).as_slice(), 0);
    let mut held = 0u32;
    let mut restarted = 0u32;
    for step in 0..count {
        let told = letter(endpoint.on_datagram(media(4000u16.wrapping_add(step), 0).as_slice(), 0));
        held = held.wrapping_add(u32::from(told == b'h'));
        restarted = restarted.wrapping_add(u32::from(told == b'r'));
    }
    Ok((
        held,
        restarted,
        letter(endpoint.on_datagram(media(5001, 0).as_slice(), 0)),
    ))
}

#[test]
fn jumps_of_the_number(rt: HostRuntime) -> Result<(), Fail> {
    let rows: [(&[u16], &[u8]); 8] = [
        (&[1, 2, 3, 20003, 20004, 20005], b"ttthrt"),
        (&[1, 2, 3, 16387, 4, 5], b"ttthtt"),
        (&[1, 2, 3, 3002], b"tttt"),
        (&[1, 2, 3, 3003], b"ttth"),
        (&[200, 101], b"tx"),
        (&[200, 100], b"th"),
        (&[1, 250, 100, 100], b"tttx"),
        (&[65535, 0, 30000, 20000, 20001], b"tthhr"),
    ];
    for (numbers, letters) in rows {
        assert_eq!(rt; heard(rt.alloc(), numbers)?.as_slice(), letters);
    }
    Ok(())
}

#[test]
fn old_packets_once_more(rt: HostRuntime) -> Result<(), Fail> {
    assert_eq!(rt; repeated(rt.alloc(), 200)?, (200, 0, b't'));
    assert_eq!(rt; repeated(rt.alloc(), 256)?, (255, 1, b't'));
    Ok(())
}

impl Does<(Packet, u8)> for ReceivingEndpoint<RingWindow> {
    fn does(&mut self, (packet, told): &(Packet, u8)) -> bool {
        letter(self.on_datagram(packet.octets().as_slice(), 0)) == *told
    }
}

/// The first packet that is something else, if one is, and how many places are missing. It has what is large, as whatever a test holds
/// costs its proof.
fn wrong_packet(alloc: Global, packets: &[(Packet, u8)]) -> Result<(Option<usize>, usize), Fail> {
    let mut endpoint = endpoint(alloc)?;
    let index = wrong(&mut endpoint, packets);
    Ok((index, endpoint.core().missing()))
}

#[test]
fn what_is_no_media(rt: HostRuntime) -> Result<(), Fail> {
    const PACKETS: &[(Packet, u8)] = &[
        (Media(7), b't'),
        (
            These(b"\xa0\x60\x00\x08\x00\x00\x00\x00\x11\x11\x11\x11\x00\x00\x03"),
            b't',
        ),
        (These(b"\x80\xc8\x00\x01\x11\x11\x11\x11"), b'c'),
        (These(b"\x80\x60\x00\x09"), b'x'),
        (Media(9), b't'),
    ];
    assert_eq!(rt; wrong_packet(rt.alloc(), PACKETS)?, (None, 0));
    Ok(())
}

/// RTCP is what has a packet type of 192 to 223; a datagram of one octet is none.
#[test]
fn the_bounds_of_control(rt: HostRuntime) {
    for (second, is_rtcp) in [(191, false), (192, true), (223, true), (224, false)] {
        assert_eq!(rt; is_control(&[0x80, second, 0, 0]), is_rtcp);
    }
    assert!(rt; !is_control(&[200]));
}

/// Between two packets that jumped comes what is no media of the session: another stream's packet, a retransmission, RTCP, and what
/// is cut. The two are still in sequence. Behind media that is believed they are not.
#[test]
fn what_leaves_what_is_held_back(rt: HostRuntime) -> Result<(), Fail> {
    const PACKETS: &[(Packet, u8)] = &[
        (Media(1), b't'),
        (Media(3), b't'),
        (Media(20000), b'h'),
        (Media(4), b't'),
        (Media(20001), b'h'),
        (
            These(b"\x80\x60\x00\x09\x00\x00\x00\x00\x99\x99\x99\x99"),
            b'x',
        ),
        (Repair(2), b'p'),
        (These(b"\x80\xc8\x00\x01\x11\x11\x11\x11"), b'c'),
        (These(b"\x80\x60\x00"), b'x'),
        (Media(20002), b'r'),
    ];
    assert_eq!(rt; wrong_packet(rt.alloc(), PACKETS)?.0, None);
    Ok(())
}
