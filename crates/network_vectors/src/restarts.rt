//! A stream that restarts, and packets that only look so (RFC 3550, appendix A.1): what a receiving endpoint plays then.
use crate::ends::{config, media};
use endpoint::{Heard, Probation, ReceivingEndpoint};
use receiver::{Played, ReceiveFault};
use std::alloc::Global;
use std::test::Fail;
use stores::RingWindow;

/// How many packets there are of each stream.
const EACH: u32 = 1000;

/// The timestamp of a packet that is of no stream. Those of the streams count from 0 on.
const STRAY: u32 = u32::MAX;

/// What an endpoint did.
#[derive(Clone, Copy, Debug, Default, PartialEq, Eq)]
struct Told {
    held_back: u32,
    restarted: u32,
    refused: u32,
    played: u32,
    strays: u32,
    gaps: u32,
    /// Packets that were neither played nor are still to come, by their timestamps.
    lost: u32,
}

/// An endpoint, what it did, and the timestamp of the next packet that is to be played.
#[derive(Drop)]
struct Ending {
    endpoint: ReceivingEndpoint<RingWindow>,
    next: u32,
    told: Told,
}

fn start(alloc: Global, probation: Probation) -> Result<Ending, Fail> {
    let config = config(100, 0, 20, 3)?;
    match ReceivingEndpoint::new(alloc, config, probation, 2048) {
        Ok(endpoint) => Ok(Ending {
            endpoint,
            next: 0,
            told: Told::default(),
        }),
        Err(_) => Err(Fail::from("memory is ample")),
    }
}

/// One more.
fn count(number: &mut u32) {
    *number = number.wrapping_add(1);
}

impl Ending {
    /// Counts what a datagram was.
    fn counts(&mut self, heard: Result<Heard, ReceiveFault>) {
        match heard {
            Ok(Heard::HeldBack(_)) => count(&mut self.told.held_back),
            Ok(Heard::Restarted(_)) => count(&mut self.told.restarted),
            Ok(Heard::Media(_) | Heard::Repair(_) | Heard::Control) => {}
            Err(_) => count(&mut self.told.refused),
        }
    }

    /// Counts a packet that is played.
    fn counts_played(&mut self, timestamp: u32) {
        if timestamp == STRAY {
            count(&mut self.told.strays);
            return;
        }
        count(&mut self.told.played);
        let passed = timestamp.wrapping_sub(self.next);
        self.told.lost = self.told.lost.wrapping_add(passed);
        self.next = timestamp.wrapping_add(1);
    }

    /// Plays until a play waits.
    fn plays(&mut self, now: u64) {
        for _ in 0..2 * EACH {
            match self.endpoint.play(now) {
                Played::Packet(_, content) => self.counts_played(content.timestamp),
                Played::Gap(_) => count(&mut self.told.gaps),
                Played::Wait => break,
            }
        }
    }

    /// Hears a packet at a moment, and plays.
    fn hears(&mut self, seq: u16, timestamp: u32, now: u64) {
        let heard = self
            .endpoint
            .on_datagram(media(seq, timestamp).as_slice(), now);
        self.counts(heard);
        self.plays(now);
    }
}

/// What comes of a stream of 1000 packets that goes on with 1000 more at a number that is so far from the next, a
/// packet each millisecond.
fn restarted(alloc: Global, first: u16, jump: u16) -> Result<Told, Fail> {
    let mut ending = start(alloc, Probation::usual())?;
    let mut seq = first;
    for index in 0..2 * EACH {
        if index == EACH {
            seq = seq.wrapping_add(jump);
        }
        ending.hears(seq, index, u64::from(index));
        seq = seq.wrapping_add(1);
    }
    ending.plays(10_000);
    Ok(ending.told)
}

/// A jump ahead is believed at its second packet, and one behind at its 256th, and none of the new stream is lost; a
/// thousand ahead is no jump, and what lies between is given up.
#[test]
fn a_stream_that_restarts(rt: HostRuntime) -> Result<(), Fail> {
    for (jump, held_back, restarted_once, gaps) in [
        (20000u16, 1, 1, 0),
        (16000, 1, 1, 0),
        (16000u16.wrapping_neg(), 255, 1, 0),
        (1000u16.wrapping_neg(), 255, 1, 0),
        (1000, 0, 0, 1000),
    ] {
        for first in [0u16, 30000, 64000, 65035] {
            let wanted = Told {
                held_back,
                restarted: restarted_once,
                played: 2 * EACH,
                gaps,
                ..Told::default()
            };
            assert_eq!(rt; restarted(rt.alloc(), first, jump)?, wanted);
        }
    }
    Ok(())
}

/// What comes of 40000 packets, a packet each millisecond, where a stray one comes behind the first 20000, from 16000 ahead.
fn strayed(alloc: Global, probation: Probation) -> Result<Told, Fail> {
    let mut ending = start(alloc, probation)?;
    for index in 0..40_000u32 {
        let seq = (index % 65536) as u16;
        ending.hears(seq, index, u64::from(index));
        if index == 19_999 {
            ending.hears(seq.wrapping_add(16_000), STRAY, u64::from(index));
        }
    }
    ending.plays(100_000);
    Ok(ending.told)
}

/// The stray packet is held back, and nothing is lost. One that is believed costs all that come up to its number.
#[test]
fn a_stray_packet(rt: HostRuntime) -> Result<(), Fail> {
    let kept = Told {
        held_back: 1,
        played: 40_000,
        ..Told::default()
    };
    assert_eq!(rt; strayed(rt.alloc(), Probation::usual())?, kept);
    let Ok(believing) = Probation::new(65535, 65535, 1, 1) else {
        return Err(Fail::from("a good probation"));
    };
    let overrun = Told {
        refused: 16_000,
        played: 24_000,
        strays: 1,
        gaps: 2047,
        lost: 16_000,
        ..Told::default()
    };
    assert_eq!(rt; strayed(rt.alloc(), believing)?, overrun);
    Ok(())
}

/// What comes of 200 packets of the past that come once more in their order, from 1000 below the highest, and of 200 current
/// ones: all of those behind the old ones, or each behind one.
fn repeated(alloc: Global, are_mixed: bool) -> Result<Told, Fail> {
    let mut ending = start(alloc, Probation::usual())?;
    for index in 0..EACH {
        ending.hears((index % 65536) as u16, index, 0);
    }
    for index in 0..200u32 {
        ending.hears((index % 65536) as u16, STRAY, 0);
        if are_mixed {
            let current = EACH.wrapping_add(index);
            ending.hears((current % 65536) as u16, current, 0);
        }
    }
    for index in 0..200u32 {
        if !are_mixed {
            let current = EACH.wrapping_add(index);
            ending.hears((current % 65536) as u16, current, 0);
        }
    }
    Ok(ending.told)
}

#[test]
fn old_packets_that_come_once_more(rt: HostRuntime) -> Result<(), Fail> {
    for are_mixed in [false, true] {
        let wanted = Told {
            held_back: 200,
            played: EACH + 200,
            ..Told::default()
        };
        assert_eq!(rt; repeated(rt.alloc(), are_mixed)?, wanted);
    }
    Ok(())
}
