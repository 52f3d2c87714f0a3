//! A delay before the first ask: what a network only reorders is not asked for, and what it loses is.
use crate::ends::{Draws, config, media, named, receiver};
use receiver::Receiver;
use std::alloc::Global;
use std::test::Fail;
use stores::Window;

/// How many packets are sent, with the numbers from 1 on, one each ten milliseconds.
const PACKETS: u16 = 1000;

/// How far behind its moment a packet comes that is reordered: behind the next three.
const DEPTH: u64 = 35;

/// How far behind it a few come: behind the next nine.
const DEEP: u64 = 95;

/// What a network does: so many of a hundred packets it loses, so many it reorders, and of forty of these one deep.
#[derive(Clone, Copy)]
struct Network {
    seed: u64,
    loses: u64,
    reorders: u64,
    is_deep: bool,
}

/// A packet that comes: its moment and its number.
type Arrival = (u64, u16);

/// What comes of the packets, in its order, and the numbers that are lost. The first and the last are sure to come in time.
fn carried(alloc: Global, network: Network) -> Result<(Vec<Arrival>, Vec<u16>), Fail> {
    let mut draws = Draws::new(network.seed);
    let mut arrivals = Vec::new(alloc);
    let mut lost = Vec::new(alloc);
    for seq in 1..=PACKETS {
        let sent = u64::from(seq).wrapping_mul(10);
        let drawn = draws.below(100);
        let is_last = seq == 1 || seq == PACKETS;
        if !is_last && drawn < network.loses {
            lost.push(seq)?;
        } else if !is_last && drawn >= 100u64.saturating_sub(network.reorders) {
            let is_deep = network.is_deep && draws.below(40) == 0;
            let behind = if is_deep { DEEP } else { DEPTH };
            arrivals.push((sent.wrapping_add(behind), seq))?;
        } else {
            arrivals.push((sent, seq))?;
        }
    }
    arrivals.sort()?;
    Ok((arrivals, lost))
}

/// Asks each five milliseconds from a moment on and before another, and keeps the numbers.
fn asks<W: Window>(
    alloc: Global,
    receiver: &mut Receiver<W>,
    (from, to): (u64, u64),
    asked: &mut Vec<u16>,
) -> Result<(), Fail> {
    for now in from..to {
        if now % 5 != 0 {
            continue;
        }
        if let Some(nack) = receiver.ask(now) {
            let numbers = named(alloc, nack.as_slice())?;
            asked.extend_from_slice(numbers.as_slice())?;
        }
    }
    Ok(())
}

/// The numbers that a receiver with this delay asks for, in their order, where each is asked for at most once.
fn asked(alloc: Global, arrivals: &[Arrival], delay: u64) -> Result<Vec<u16>, Fail> {
    let mut receiver = receiver(alloc, config(100_000, delay, 20, 1)?, 1024)?;
    let mut asked = Vec::new(alloc);
    let mut from = 0;
    for (at, seq) in arrivals {
        asks(alloc, &mut receiver, (from, *at), &mut asked)?;
        from = *at;
        if receiver.on_media(media(*seq, 0).as_slice(), *at).is_err() {
            return Err(Fail::from("the packet is taken"));
        }
    }
    asks(
        alloc,
        &mut receiver,
        (from, from.wrapping_add(200)),
        &mut asked,
    )?;
    asked.sort()?;
    Ok(asked)
}

/// Whether this number is asked for by what came: it has not come yet when the delay has passed since the first higher one
/// came.
fn is_overdue(arrivals: &[Arrival], number: u16, delay: u64) -> bool {
    let mut noticed: Option<u64> = None;
    for (at, seq) in arrivals {
        if *seq == number {
            return noticed.is_some_and(|moment| *at > moment.saturating_add(delay));
        }
        if *seq > number && noticed.is_none() {
            noticed = Some(*at);
        }
    }
    noticed.is_some()
}

/// The numbers that are to be asked for by what came.
fn overdue(alloc: Global, arrivals: &[Arrival], delay: u64) -> Result<Vec<u16>, Fail> {
    let mut numbers = Vec::new(alloc);
    for number in 1..=PACKETS {
        if is_overdue(arrivals, number, delay) {
            numbers.push(number)?;
        }
    }
    Ok(numbers)
}

/// The numbers that a receiver with this delay asks for, and whether these are the ones that are to be asked for.
fn asked_for(alloc: Global, arrivals: &[Arrival], delay: u64) -> Result<(Vec<u16>, bool), Fail> {
    let asked = asked(alloc, arrivals, delay)?;
    let is_so = overdue(alloc, arrivals, delay)?.as_slice() == asked.as_slice();
    Ok((asked, is_so))
}

/// What a network does to the packets, and how many are asked for without a delay, and with one above the depth.
#[derive(Clone, Copy)]
struct Seen {
    come: usize,
    lost: usize,
    hasty: usize,
    patient: usize,
    /// Those are asked for that are to be, by either.
    is_overdue: bool,
    /// All that is lost is asked for with the delay.
    are_lost_asked: bool,
}

fn see(alloc: Global, network: Network) -> Result<Seen, Fail> {
    let (arrivals, lost) = carried(alloc, network)?;
    let (hasty, is_hasty) = asked_for(alloc, arrivals.as_slice(), 0)?;
    let (patient, is_patient) = asked_for(alloc, arrivals.as_slice(), DEPTH)?;
    Ok(Seen {
        come: arrivals.len(),
        lost: lost.len(),
        hasty: hasty.len(),
        patient: patient.len(),
        is_overdue: is_hasty && is_patient,
        are_lost_asked: lost
            .iter()
            .all(|number| patient.as_slice().contains(number)),
    })
}

/// Of 1000 packets, of which about a hundred are reordered, none is asked for with a delay above the depth, and each that comes
/// behind a later one without a delay.
#[test]
fn what_is_only_reordered(rt: HostRuntime) -> Result<(), Fail> {
    for seed in 1..4 {
        let network = Network {
            seed,
            loses: 0,
            reorders: 10,
            is_deep: false,
        };
        let seen = see(rt.alloc(), network)?;
        assert_eq!(rt; (seen.come, seen.lost, seen.patient), (1000, 0, 0));
        assert!(rt; seen.hasty > 70 && seen.hasty < 130 && seen.is_overdue);
    }
    Ok(())
}

/// Where about a hundred are lost too, those are asked for and no others; and where a few come far behind, beyond the delay,
/// these alone are asked for besides, less than one for twenty of the lost.
#[test]
fn what_is_lost_and_what_is_reordered(rt: HostRuntime) -> Result<(), Fail> {
    let mut deep = 0usize;
    for (seed, is_deep) in [(1, false), (2, true), (3, true), (4, true)] {
        let network = Network {
            seed,
            loses: 10,
            reorders: 10,
            is_deep,
        };
        let seen = see(rt.alloc(), network)?;
        assert_eq!(rt; seen.come.wrapping_add(seen.lost), 1000);
        assert!(rt; seen.lost > 70 && seen.lost < 130);
        assert!(rt; seen.is_overdue && seen.are_lost_asked);
        let more = seen.patient.saturating_sub(seen.lost);
        assert!(rt; more <= seen.lost / 20 && (is_deep || more == 0));
        assert!(rt; seen.hasty > seen.lost.saturating_add(70));
        deep = deep.saturating_add(more);
    }
    assert!(rt; deep > 0);
    Ok(())
}
