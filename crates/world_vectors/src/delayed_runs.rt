//! Runs over a network that loses packets and reorders some, with a delay before the first ask and without.

use crate::long_runs::{Long, draw, plays_all, repairs, sends};
use crate::sessions::{config, does, world_of};
use std::alloc::Global;
use std::test::Fail;
use world::Event;

/// How many packets are sent, one each ten milliseconds.
const PACKETS: u64 = 300;

/// What becomes of a packet.
#[derive(Clone, Copy, PartialEq, Eq)]
enum Fate {
    Comes,
    Lost,
    /// It comes behind the next three.
    Late,
}

/// What becomes of each: of ten one is lost, and one comes late. The first and the last five come in time.
fn fates(alloc: Global, seed: u64) -> Result<Vec<Fate>, Fail> {
    let mut state = seed;
    let mut fates = Vec::new(alloc);
    for index in 0..PACKETS {
        let is_sure = index == 0 || PACKETS - index <= 5;
        fates.push(match draw(&mut state, 10) {
            0 if !is_sure => Fate::Lost,
            1 if !is_sure => Fate::Late,
            _ => Fate::Comes,
        })?;
    }
    Ok(fates)
}

/// Whether a packet has this fate.
fn is(fates: &[Fate], index: usize, fate: Fate) -> bool {
    fates.get(index) == Some(&fate)
}

/// Delivers the packet with this index, if it has this fate.
fn comes(
    world: &mut Long,
    (fates, sent): (&[Fate], &[u64]),
    index: usize,
    fate: Fate,
    now: u64,
) -> bool {
    if !is(fates, index, fate) {
        return true;
    }
    match sent.get(index) {
        Some(datagram) => does(world, &Event::Deliver(*datagram, now)),
        None => false,
    }
}

/// Sends all packets. After each the ones come that are to come then, a round mends what is due, and all is played that can
/// be: how many are played, each as the next.
fn runs(alloc: Global, world: &mut Long, fates: &[Fate]) -> Result<u64, Fail> {
    let mut sent = Vec::new(alloc);
    let mut next = 0;
    for index in 0..fates.len() {
        let now = (index as u64).wrapping_mul(10);
        sent.push(world.wire().len() as u64)?;
        let crossing = (fates, sent.as_slice());
        let is_good = sends(world, index as u64)
            && comes(world, crossing, index, Fate::Comes, now)
            && (index < 3 || comes(world, crossing, index - 3, Fate::Late, now))
            && world.settle(now).is_ok()
            && plays_all(world, &mut next, now);
        if !is_good {
            return Err(Fail::from("an event, or a play out of turn"));
        }
    }
    Ok(next)
}

/// How many packets are lost, and how many come late and behind one of the next two, by which they are missed.
fn counts(fates: &[Fate]) -> (u64, u64) {
    let mut lost = 0u64;
    let mut missed = 0u64;
    for index in 0..fates.len() {
        let is_passed = is(fates, index.wrapping_add(1), Fate::Comes)
            || is(fates, index.wrapping_add(2), Fate::Comes);
        if is(fates, index, Fate::Lost) {
            lost = lost.wrapping_add(1);
        } else if is(fates, index, Fate::Late) && is_passed {
            missed = missed.wrapping_add(1);
        }
    }
    (lost, missed)
}

/// All is played in its order. A packet that is late comes 20 milliseconds behind the first one that shows it missing at most, so
/// with a delay of 30 just what is lost is retransmitted, and without one what is late too.
#[test]
fn what_is_late_is_not_retransmitted(rt: HostRuntime) -> Result<(), Fail> {
    let config = config("config 65400 5 64 64 1000 500 3 3")?;
    for seed in 1..4 {
        let fates = fates(rt.alloc(), seed)?;
        let (lost, missed) = counts(fates.as_slice());
        assert!(rt; lost > 15 && missed > 10);
        for (delay, more) in [(30, 0), (0, missed)] {
            let mut world: Long = world_of(rt.alloc(), &config.with_delay(delay))?;
            let played = runs(rt.alloc(), &mut world, fates.as_slice())?;
            assert_eq!(rt; played, PACKETS);
            assert_eq!(rt; repairs(&world), lost.wrapping_add(more));
            assert!(rt; world.close());
        }
    }
    Ok(())
}
