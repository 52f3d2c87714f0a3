//! What both endpoints count, over sessions in which each count rises.
use crate::ends::Packet::{self, Media, Repair, These};
use crate::ends::{config, session};
use endpoint::*;
use receiver::Played;
use rtpwire::{Carried, MAX_DATAGRAM, Words};
use sender::SenderConfig;
use std::alloc::Global;
use std::test::Fail;
use stores::{History, RingHistory, RingWindow};

/// A window of 300 places, a patience of 100.
fn receiving(alloc: Global) -> Result<ReceivingEndpoint<RingWindow>, Fail> {
    match ReceivingEndpoint::new(alloc, config(100, 0, 20, 3)?, Probation::usual(), 300) {
        Ok(made) => Ok(made),
        Err(_) => Err(Fail::from("memory is ample")),
    }
}

/// A history of 8, the first numbers 1 and 5, one retransmission of each packet.
fn sending(alloc: Global) -> Result<SendingEndpoint<RingHistory>, Fail> {
    let Ok(config) = SenderConfig::new(session()?, 1, 5, 1) else {
        return Err(Fail::from("a good configuration"));
    };
    match RingHistory::new(alloc, 8) {
        Ok(history) => Ok(SendingEndpoint::new(config, history)),
        Err(_) => Err(Fail::from("memory is ample")),
    }
}

/// Plays at this moment until it waits, by both ways of playing in turn.
fn play_all(endpoint: &mut ReceivingEndpoint<RingWindow>, now: u64) {
    for _ in 0..400 {
        endpoint.pass(now);
        if endpoint.play(now) == Played::Wait {
            return;
        }
    }
}

/// Hears these at this moment, whatever comes of it.
fn hears(endpoint: &mut ReceivingEndpoint<RingWindow>, packets: &[Packet], now: u64) {
    for packet in packets {
        let _ = endpoint.on_datagram(packet.octets().as_slice(), now);
    }
}

/// An endpoint that took three packets and a retransmission, asked for two places, and played what it could until moment 99.
fn asked(alloc: Global) -> Result<ReceivingEndpoint<RingWindow>, Fail> {
    let mut endpoint = receiving(alloc)?;
    hears(
        &mut endpoint,
        &[Media(10), Media(11), Media(14), Media(14)],
        0,
    );
    let _ = endpoint.ask_most(0, 1);
    let _ = endpoint.ask_most(0, 100);
    let _ = endpoint.ask_most(0, 100);
    hears(&mut endpoint, &[Repair(12)], 5);
    play_all(&mut endpoint, 99);
    Ok(endpoint)
}

fn asked_counts(alloc: Global) -> Result<ReceiveCounts, Fail> {
    Ok(asked(alloc)?.counts())
}

#[test]
fn what_is_taken_asked_and_played(rt: HostRuntime) -> Result<(), Fail> {
    assert_eq!(rt;
        asked_counts(rt.alloc())?,
        ReceiveCounts {
            media: 3,
            duplicate: 1,
            retransmissions: 1,
            played: 3,
            asks: 2,
            places_asked: 2,
            ..ReceiveCounts::default()
        }
    );
    Ok(())
}

/// What comes at moment 200: RTCP, a packet that is cut, one of another stream, one that is late, a retransmission from too far, a stray
/// one, and the next. Then two in sequence, and one that leaves the window behind.
const LATER: &[Packet] = &[
    These(b"\x80\xc8\x00\x01\x11\x11\x11\x11"),
    These(b"\x80\x60\x00"),
    These(b"\x80\x60\x00\x01\x00\x00\x00\x00\x99\x99\x99\x99"),
    Media(10),
    Repair(30000),
    Media(16000),
    Media(15),
    Media(30000),
    Media(30001),
    Media(30401),
];

fn later_counts(alloc: Global) -> Result<ReceiveCounts, Fail> {
    let mut endpoint = asked(alloc)?;
    play_all(&mut endpoint, 100);
    hears(&mut endpoint, LATER, 200);
    Ok(endpoint.counts())
}

#[test]
fn what_is_given_up_refused_and_held_back(rt: HostRuntime) -> Result<(), Fail> {
    assert_eq!(rt;
        later_counts(rt.alloc())?,
        ReceiveCounts {
            media: 5,
            retransmissions: 1,
            held_back: 2,
            restarts: 1,
            control: 1,
            duplicate: 1,
            late: 1,
            far: 1,
            refused: 2,
            overrun: 102,
            abandoned: 1,
            skipped: 29984,
            played: 4,
            gaps: 1,
            asks: 2,
            places_asked: 2,
        }
    );
    Ok(())
}

/// Sends a payload with so much padding, and says whether it could.
fn sends(endpoint: &mut SendingEndpoint<RingHistory>, payload: &[u8], padding: u8) -> bool {
    let mut out = [0; MAX_DATAGRAM];
    match Carried::of_fields(payload, 0, false, Words::Numbers(&[]), None) {
        Ok(carried) => matches!(
            endpoint.send_into(out.as_mut_slice(), &carried, padding),
            Ok(Ok(_))
        ),
        Err(_) => false,
    }
}

/// Whether there is a retransmission.
fn repairs(endpoint: &mut SendingEndpoint<RingHistory>) -> bool {
    let mut out = [0; MAX_DATAGRAM];
    matches!(endpoint.next_repair_into(out.as_mut_slice()), Ok(Some(_)))
}

/// Whether there is a retransmission, and one more.
fn repaired(endpoint: &mut SendingEndpoint<RingHistory>) -> (bool, bool) {
    (repairs(endpoint), repairs(endpoint))
}

/// Hears these, whatever comes of it.
fn is_told(endpoint: &mut SendingEndpoint<RingHistory>, datagrams: &[&[u8]]) {
    for octets in datagrams {
        let _ = endpoint.on_datagram(octets);
    }
}

/// A NACK for the numbers 1 and 500, which was never sent, and one for another media.
const SHARED: &[u8] =
    b"\x81\xcd\x00\x04\x33\x33\x33\x33\x11\x11\x11\x11\x00\x01\x00\x00\x01\xf4\x00\x00\x81\xcd\x00\x03\x77\x77\x77\x77\x55\x55\x55\x55\x00\x02\x00\x00";

/// A NACK for the number 1, and one for another media alone.
const ONE: &[u8] = b"\x81\xcd\x00\x03\x33\x33\x33\x33\x11\x11\x11\x11\x00\x01\x00\x00";

const OTHER: &[u8] = b"\x81\xcd\x00\x03\x77\x77\x77\x77\x55\x55\x55\x55\x00\x02\x00\x00";

/// RTP, a report, RTCP that is cut, and feedback.
const TOLD: &[&[u8]] = &[
    b"\x80\x60\x00\x07\x00\x00\x00\x00\x11\x11\x11\x11",
    b"\x80\xc9\x00\x01\x33\x33\x33\x33",
    b"\x80\xc9\x00",
    SHARED,
];

/// Which of three payloads are sent, whether there are retransmissions at two moments, and one more each time, and what is counted.
fn sent_counts(alloc: Global) -> Result<([bool; 3], [(bool, bool); 2], SendCounts), Fail> {
    let mut endpoint = sending(alloc)?;
    let sent = [
        sends(&mut endpoint, b"abc", 0),
        sends(&mut endpoint, b"hello", 4),
        sends(&mut endpoint, b"", 1),
    ];
    is_told(&mut endpoint, TOLD);
    let first = repaired(&mut endpoint);
    is_told(&mut endpoint, &[ONE, OTHER]);
    let _ = endpoint.mark_last();
    let second = repaired(&mut endpoint);
    Ok((sent, [first, second], endpoint.counts()))
}

#[test]
fn what_a_sending_endpoint_counts(rt: HostRuntime) -> Result<(), Fail> {
    let (sent, repaired, counts) = sent_counts(rt.alloc())?;
    assert_eq!(rt; sent, [true, true, false]);
    assert_eq!(rt; repaired, [(true, false), (true, false)]);
    assert_eq!(rt;
        counts,
        SendCounts {
            sent: 2,
            octets: 8,
            retransmissions: 2,
            nacks: 2,
            others: 1,
            numbers: 3,
            unknown: 1,
            exhausted: 1,
            media: 1,
            reports: 1,
            refused: 2,
        }
    );
    Ok(())
}
