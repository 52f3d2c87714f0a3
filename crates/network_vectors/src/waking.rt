//! A loop that sleeps until a receiver's next moment does what one does that calls it each millisecond.
use crate::ends::{Draws, config, media, receiver, repair, writes};
use receiver::{Played, Receiver, ReceiverConfig};
use std::alloc::Global;
use std::test::Fail;
use stores::Window;

/// How many packets are sent, with the numbers from 65400 on, one each seven milliseconds.
const PACKETS: u16 = 200;

const FIRST: u16 = 65400;

/// The moment at which a session ends.
const END: u64 = 1600;

/// What comes: its moment, its index, and whether it is a retransmission.
type Arrival = (u64, u16, bool);

/// What comes of one packet: one in ten is lost, and of these three in four are retransmitted; one in ten is up to 80
/// milliseconds late, and one in ten comes twice.
fn carry(draws: &mut Draws, index: u16, arrivals: &mut Vec<Arrival>) -> Result<(), Fail> {
    let sent = u64::from(index).wrapping_mul(7);
    match draws.below(10) {
        0 => {
            if draws.below(4) > 0 {
                let behind = draws.below(90).wrapping_add(10);
                arrivals.push((sent.wrapping_add(behind), index, true))?;
            }
        }
        1 => arrivals.push((sent.wrapping_add(draws.below(80)), index, false))?,
        2 => {
            arrivals.push((sent, index, false))?;
            arrivals.push((sent.wrapping_add(draws.below(80)), index, false))?;
        }
        _ => arrivals.push((sent, index, false))?,
    }
    Ok(())
}

/// What comes of a session, in its order. The first and the last packet come in time.
fn carried(alloc: Global, seed: u64) -> Result<Vec<Arrival>, Fail> {
    let mut draws = Draws::new(seed);
    let mut arrivals = Vec::new(alloc);
    arrivals.push((0, 0, false))?;
    for index in 1..PACKETS.saturating_sub(1) {
        carry(&mut draws, index, &mut arrivals)?;
    }
    let last = PACKETS.saturating_sub(1);
    arrivals.push((u64::from(last).wrapping_mul(7), last, false))?;
    arrivals.sort()?;
    Ok(arrivals)
}

/// What a loop did: how often it called the receiver, how much it played, gave up and asked, and each of these in turn, as
/// octets.
#[derive(Drop)]
struct Done {
    calls: u64,
    packets: u32,
    gaps: u32,
    asks: u32,
    log: Vec<u8>,
}

/// Plays until a play waits.
fn plays<W: Window>(receiver: &mut Receiver<W>, now: u64, done: &mut Done) -> Result<(), Fail> {
    for _ in 0..=PACKETS {
        match receiver.play(now) {
            Played::Packet(place, content) => {
                done.packets = done.packets.wrapping_add(1);
                let place = place.value().to_be_bytes();
                writes(&mut done.log, now, b'p', place.as_slice())?;
                let timestamp = content.timestamp.to_be_bytes();
                writes(&mut done.log, now, b'c', timestamp.as_slice())?;
            }
            Played::Gap(place) => {
                done.gaps = done.gaps.wrapping_add(1);
                let place = place.value().to_be_bytes();
                writes(&mut done.log, now, b'g', place.as_slice())?;
            }
            Played::Wait => break,
        }
    }
    Ok(())
}

/// Plays, and asks until nothing is asked for.
fn calls<W: Window>(receiver: &mut Receiver<W>, now: u64, done: &mut Done) -> Result<(), Fail> {
    done.calls = done.calls.wrapping_add(1);
    plays(receiver, now, done)?;
    for _ in 0..=PACKETS {
        let Some(nack) = receiver.ask(now) else {
            break;
        };
        done.asks = done.asks.wrapping_add(1);
        writes(&mut done.log, now, b'a', nack.as_slice())?;
    }
    Ok(())
}

/// Calls a receiver at the moments from one on and before another: at each, or when it says.
fn waits<W: Window>(
    receiver: &mut Receiver<W>,
    (from, to): (u64, u64),
    sleeps: bool,
    done: &mut Done,
) -> Result<(), Fail> {
    for each in from..to {
        if !sleeps {
            calls(receiver, each, done)?;
            continue;
        }
        match receiver.next_moment() {
            Some(moment) if moment < to => calls(receiver, moment.max(from), done)?,
            _ => break,
        }
    }
    Ok(())
}

/// Hands a receiver what comes, and calls it between.
fn runs<W: Window>(
    alloc: Global,
    mut receiver: Receiver<W>,
    arrivals: &[Arrival],
    sleeps: bool,
) -> Result<Done, Fail> {
    let mut done = Done {
        calls: 0,
        packets: 0,
        gaps: 0,
        asks: 0,
        log: Vec::new(alloc),
    };
    let mut from = 0;
    for (at, index, is_again) in arrivals {
        waits(&mut receiver, (from, *at), sleeps, &mut done)?;
        from = *at;
        let seq = FIRST.wrapping_add(*index);
        let _heard = if *is_again {
            receiver.on_media(repair(seq, u32::from(*index)).as_slice(), *at)
        } else {
            receiver.on_media(media(seq, u32::from(*index)).as_slice(), *at)
        };
    }
    waits(&mut receiver, (from, END), sleeps, &mut done)?;
    Ok(done)
}

/// What the loop that polls does in a session, and the one that sleeps.
fn both(alloc: Global, config: ReceiverConfig, seed: u64) -> Result<(Done, Done), Fail> {
    let arrivals = carried(alloc, seed)?;
    let arrivals = arrivals.as_slice();
    let polled = runs(alloc, receiver(alloc, config, 256)?, arrivals, false)?;
    let slept = runs(alloc, receiver(alloc, config, 256)?, arrivals, true)?;
    Ok((polled, slept))
}

/// Each packet is played or given up, and both happen, and so do asks.
#[test]
fn a_loop_that_sleeps_does_what_one_does_that_polls(rt: HostRuntime) -> Result<(), Fail> {
    for (patience, delay, retry, asks) in [(60, 0, 20, 3), (60, 15, 7, 255), (60, 30, 20, 1)] {
        let config = config(patience, delay, retry, asks)?;
        for seed in 1..4 {
            let (polled, slept) = both(rt.alloc(), config, seed)?;
            let passed = polled.packets.wrapping_add(polled.gaps);
            assert_eq!(rt; passed, u32::from(PACKETS));
            assert!(rt; polled.packets > 150 && polled.gaps > 0 && polled.asks > 5);
            assert_eq!(rt; polled.calls, END);
            assert!(rt; slept.calls < END / 4);
            assert!(rt; slept.log.as_slice() == polled.log.as_slice());
        }
    }
    Ok(())
}
