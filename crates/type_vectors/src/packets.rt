//! Packets of a session with the pairs 96:97, 101:102 and 0:103, on the network and as the session of the first pair has them.
//! Behind a payload there stands the type of its media: 0x60, 0x65 or 0x00.
use payload_types::{Fitted, PayloadTypes, TypePair};
use rtpwire::{MAX_DATAGRAM, MAX_PAYLOAD};
use std::test::Fail;

fn types() -> Result<PayloadTypes, Fail> {
    let pairs = [
        TypePair {
            media: 96,
            repair: 97,
        },
        TypePair {
            media: 101,
            repair: 102,
        },
        TypePair {
            media: 0,
            repair: 103,
        },
    ];
    match PayloadTypes::new(&pairs) {
        Ok(types) => Ok(types),
        Err(_) => Err(Fail::from("the pairs")),
    }
}

/// On the network, and in the session.
const BOTH: [(&[u8], &[u8]); 7] = [
    // The first pair's type
    (
        b"\x80\x60\x00\x07\x00\x00\x00\xa0\x11\x11\x11\x11x",
        b"\x80\x60\x00\x07\x00\x00\x00\xa0\x11\x11\x11\x11x\x60",
    ),
    // Another one, with a marker
    (
        b"\x80\xe5\xff\xff\x80\x00\x00\xa0\x11\x11\x11\x11\x01\x02",
        b"\x80\xe0\xff\xff\x80\x00\x00\xa0\x11\x11\x11\x11\x01\x02\x65",
    ),
    // A static one, and no payload
    (
        b"\x80\x00\x00\x07\x00\x00\x00\xa0\x11\x11\x11\x11",
        b"\x80\x60\x00\x07\x00\x00\x00\xa0\x11\x11\x11\x11\x00",
    ),
    // A source, and a word of an extension
    (
        b"\x91\x65\x00\x07\x00\x00\x00\xa0\x11\x11\x11\x11\x33\x33\x33\x33\xbe\xde\x00\x01\x10\xaa\x00\x00\x05",
        b"\x91\x60\x00\x07\x00\x00\x00\xa0\x11\x11\x11\x11\x33\x33\x33\x33\xbe\xde\x00\x01\x10\xaa\x00\x00\x05\x65",
    ),
    // Retransmissions: of the first pair's
    (
        b"\x80\x61\x00\x01\x00\x00\x00\xa0\x22\x22\x22\x22\x00\x07x",
        b"\x80\x61\x00\x01\x00\x00\x00\xa0\x22\x22\x22\x22\x00\x07x\x60",
    ),
    // Of another pair's
    (
        b"\x80\xe6\x00\x01\x00\x00\x00\xa0\x22\x22\x22\x22\xff\xff\x01\x02",
        b"\x80\xe1\x00\x01\x00\x00\x00\xa0\x22\x22\x22\x22\xff\xff\x01\x02\x65",
    ),
    // Of an empty payload
    (
        b"\x80\x67\x00\x01\x00\x00\x00\xa0\x22\x22\x22\x22\x00\x07",
        b"\x80\x61\x00\x01\x00\x00\x00\xa0\x22\x22\x22\x22\x00\x07\x00",
    ),
];

/// What a packet is in the session that has padding on the network.
const PADDED: [(&[u8], &[u8]); 2] = [
    (
        b"\xa0\x65\x00\x07\x00\x00\x00\xa0\x11\x11\x11\x11\x05\x00\x00\x03",
        b"\x80\x60\x00\x07\x00\x00\x00\xa0\x11\x11\x11\x11\x05\x65",
    ),
    // All of it
    (
        b"\xa0\x65\x00\x07\x00\x00\x00\xa0\x11\x11\x11\x11\x00\x00\x00\x04",
        b"\x80\x60\x00\x07\x00\x00\x00\xa0\x11\x11\x11\x11\x65",
    ),
];

/// What stays as it is, both ways.
const OTHERS: [&[u8]; 7] = [
    // No packet: nothing, eleven octets, version 1, padding that counts nothing
    b"",
    b"\x80\x60\x00\x07\x00\x00\x00\xa0\x11\x11\x11",
    b"\x40\x60\x00\x07\x00\x00\x00\xa0\x11\x11\x11\x11x",
    b"\xa0\x60\x00\x07\x00\x00\x00\xa0\x11\x11\x11\x11x\x00",
    // RTCP: a receiver report, a generic NACK
    b"\x80\xc9\x00\x01\x33\x33\x33\x33",
    b"\x81\xcd\x00\x03\x33\x33\x33\x33\x11\x11\x11\x11\x00\x07\x00\x00",
    // A type of none
    b"\x80\x62\x00\x07\x00\x00\x00\xa0\x11\x11\x11\x11x",
];

/// Whether this came of it: octets at the front of the room, or the same word.
fn is_written(fitted: Fitted, out: &[u8], wanted: &[u8]) -> bool {
    match fitted {
        Fitted::Written(len) => out.get(..len) == Some(wanted),
        _ => false,
    }
}

#[test]
fn there_and_back(_rt: HostRuntime) -> Result<(), Fail> {
    let types = types()?;
    let mut out = [0xee; MAX_DATAGRAM];
    for (network, session) in BOTH {
        let there = types.into_session(network, &mut out);
        if !is_written(there, &out, session) {
            return Err(Fail::from("into the session"));
        }
        let back = types.out_of_session(session, &mut out);
        if !is_written(back, &out, network) {
            return Err(Fail::from("out of the session"));
        }
    }
    Ok(())
}

#[test]
fn padding_goes(_rt: HostRuntime) -> Result<(), Fail> {
    let types = types()?;
    let mut out = [0xee; MAX_DATAGRAM];
    for (network, session) in PADDED {
        let there = types.into_session(network, &mut out);
        if !is_written(there, &out, session) {
            return Err(Fail::from("padding"));
        }
    }
    Ok(())
}

#[test]
fn all_else_stays(_rt: HostRuntime) -> Result<(), Fail> {
    let types = types()?;
    let mut out = [0xee; MAX_DATAGRAM];
    for octets in OTHERS {
        let there = types.into_session(octets, &mut out) == Fitted::Same;
        let back = types.out_of_session(octets, &mut out) == Fitted::Same;
        if !there || !back {
            return Err(Fail::from("what is no packet of the session"));
        }
    }
    // What is under a type of retransmissions and names no original, padding alone among it
    let short = b"\x80\x66\x00\x01\x00\x00\x00\xa0\x22\x22\x22\x22\x07";
    let padding = b"\xa0\x66\x00\x01\x00\x00\x00\xa0\x22\x22\x22\x22\x00\x02";
    let is_short = types.into_session(short, &mut out) == Fitted::Same;
    let is_padding = types.into_session(padding, &mut out) == Fitted::Same;
    // A type of another pair, which the session has not
    let other = b"\x80\x65\x00\x07\x00\x00\x00\xa0\x11\x11\x11\x11x";
    let is_other = types.out_of_session(other, &mut out) == Fitted::Same;
    if is_short && is_padding && is_other {
        Ok(())
    } else {
        Err(Fail::from("what has no place in the session"))
    }
}

#[test]
fn no_type_is_made_up(_rt: HostRuntime) -> Result<(), Fail> {
    let types = types()?;
    let mut out = [0xee; MAX_DATAGRAM];
    let rows: [&[u8]; 5] = [
        // Nothing stands behind the payload; no type of media does, or that of retransmissions.
        b"\x80\x60\x00\x07\x00\x00\x00\xa0\x11\x11\x11\x11",
        b"\x80\x60\x00\x07\x00\x00\x00\xa0\x11\x11\x11\x11x\x62",
        b"\x80\x60\x00\x07\x00\x00\x00\xa0\x11\x11\x11\x11x\x66",
        // The same of retransmissions
        b"\x80\x61\x00\x01\x00\x00\x00\xa0\x22\x22\x22\x22\x00\x60",
        b"\x80\x61\x00\x01\x00\x00\x00\xa0\x22\x22\x22\x22\x00\x07\x62",
    ];
    for octets in rows {
        if types.out_of_session(octets, &mut out) != Fitted::NoType {
            return Err(Fail::from("what never entered"));
        }
    }
    Ok(())
}

/// What becomes of a packet whose front this is, with so many octets behind that.
fn entered(front: &[u8], count: usize) -> Result<Fitted, Fail> {
    let types = types()?;
    let mut octets = [0; MAX_DATAGRAM];
    let mut out = [0xee; MAX_DATAGRAM];
    let end = front.len().saturating_add(count);
    let (Some(head), Some(_)) = (octets.get_mut(..front.len()), front.get(..12)) else {
        return Err(Fail::from("the front"));
    };
    head.copy_from_slice(front);
    match octets.get(..end) {
        Some(packet) => Ok(types.into_session(packet, &mut out)),
        None => Err(Fail::from("the packet")),
    }
}

#[test]
fn a_type_takes_an_octet(_rt: HostRuntime) -> Result<(), Fail> {
    let media = b"\x80\x65\x00\x07\x00\x00\x00\xa0\x11\x11\x11\x11";
    let repair = b"\x80\x66\x00\x01\x00\x00\x00\xa0\x22\x22\x22\x22\x00\x07";
    let most = entered(media, MAX_PAYLOAD - 1)? == Fitted::Written(12 + MAX_PAYLOAD);
    let more = entered(media, MAX_PAYLOAD)? == Fitted::TooLong;
    let most_again = entered(repair, MAX_PAYLOAD - 1)? == Fitted::Written(14 + MAX_PAYLOAD);
    let more_again = entered(repair, MAX_PAYLOAD)? == Fitted::TooLong;
    // Seventeen words of an extension are one more than a content has.
    let sixteen = b"\x90\x65\x00\x07\x00\x00\x00\xa0\x11\x11\x11\x11\xbe\xde\x00\x10";
    let seventeen = b"\x90\x65\x00\x07\x00\x00\x00\xa0\x11\x11\x11\x11\xbe\xde\x00\x11";
    let words = entered(sixteen, 70)? == Fitted::Written(87)
        && entered(seventeen, 70)? == Fitted::TooLong;
    if most && more && most_again && more_again && words {
        Ok(())
    } else {
        Err(Fail::from("the longest"))
    }
}
