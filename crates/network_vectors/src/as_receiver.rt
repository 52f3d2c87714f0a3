//! An endpoint without jumps, padding or RTCP answers as its receiver does.
use crate::ends::{Draws, config, media, receiver, repair};
use endpoint::{Heard, Probation, ReceiveCounts, ReceivingEndpoint};
use receiver::{ReceiveFault, Receiver, Taken};
use std::alloc::Global;
use std::test::Fail;
use stores::RingWindow;

/// A receiver, and an endpoint that is called as it is.
#[derive(Drop)]
struct Pair {
    alone: Receiver<RingWindow>,
    endpoint: ReceivingEndpoint<RingWindow>,
}

fn start(alloc: Global) -> Result<Pair, Fail> {
    let config = config(30, 3, 8, 2)?;
    match ReceivingEndpoint::new(alloc, config, Probation::usual(), 64) {
        Ok(endpoint) => Ok(Pair {
            alone: receiver(alloc, config, 64)?,
            endpoint,
        }),
        Err(_) => Err(Fail::from("memory is ample")),
    }
}

/// Whether a datagram was the same to both.
fn are_same(alone: Result<Taken, ReceiveFault>, heard: Result<Heard, ReceiveFault>) -> bool {
    match (alone, heard) {
        (Ok(taken), Ok(Heard::Media(as_media))) => taken == as_media,
        (Ok(taken), Ok(Heard::Repair(as_repair))) => taken == as_repair,
        (Err(fault), Err(as_fault)) => fault == as_fault,
        _ => false,
    }
}

impl Pair {
    /// Makes a drawn call of both, and says whether their answers are the same: a packet, a retransmission, an ask for few
    /// places or for all, or a play.
    fn answers_alike(&mut self, call: u64, seq: u16, now: u64) -> bool {
        match call {
            0..=7 => self.hears_alike(media(seq, 0).as_slice(), now),
            8..=9 => self.hears_alike(repair(seq, 0).as_slice(), now),
            10..=12 => self.alone.ask_most(now, 3) == self.endpoint.ask_most(now, 3),
            13..=15 => self.alone.ask(now) == self.endpoint.ask_most(now, 2000),
            _ => self.alone.play(now) == self.endpoint.play(now),
        }
    }

    fn hears_alike(&mut self, octets: &[u8], now: u64) -> bool {
        are_same(
            self.alone.on_media(octets, now),
            self.endpoint.on_datagram(octets, now),
        )
    }
}

/// How many of 3000 drawn calls are answered alike, also by the next moment, and what the endpoint counts then.
fn alike(alloc: Global) -> Result<(u32, ReceiveCounts), Fail> {
    let mut pair = start(alloc)?;
    let mut draws = Draws::new(7);
    let mut alike = 0u32;
    for step in 0..3000u64 {
        let seq = (step / 3 + draws.below(12)) % 65536;
        let now = (step * 2 + draws.below(9)).saturating_sub(4);
        let same = pair.answers_alike(draws.below(36), seq as u16, now);
        let next = pair.alone.next_moment() == pair.endpoint.core().next_moment();
        alike = alike.wrapping_add(u32::from(same && next));
    }
    Ok((alike, pair.endpoint.counts()))
}

#[test]
fn an_endpoint_without_jumps(rt: HostRuntime) -> Result<(), Fail> {
    let (alike, counts) = alike(rt.alloc())?;
    assert_eq!(rt; alike, 3000);
    // Each kind of answer was among them.
    let least = [
        counts.media,
        counts.retransmissions,
        counts.duplicate,
        counts.late,
        counts.played,
        counts.gaps,
        counts.asks,
    ];
    assert!(rt; least.iter().all(|count| *count > 20));
    assert_eq!(rt;
        (counts.held_back, counts.restarts, counts.control),
        (0, 0, 0)
    );
    Ok(())
}
