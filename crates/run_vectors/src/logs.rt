//! Whole logs of runs, worked out by hand from the rules of such runs.

use crate::counter::Counter;
use crate::drives::{drive_five, new_world};
use crate::memory::MemoryLink;
use lines::push_entry;
use runs::{soak_config, soak_world};
use std::alloc::Global;
use std::test::Fail;
use stores::{History, ListHistory, ListWindow, RingHistory, RingWindow, Window};
use world::{Entry, World};

/// A log, a line for each entry, the oldest first, and the moments of those that have one.
struct Log {
    text: &'static str,
    moments: &'static [u64],
}

/// A run over a link: five packets, of which 1 and 3 are not put into it. The first sequence number is 65000, so packet 0 has
/// the place 130536. Behind the packets are three rounds at the moments 5, 6 and 7, of which the first mends both.
const DRIVEN: Log = Log {
    text: "\
sent 130536 0 8060fde8000000001111111100000000
taken 130536 0
sent 130537 1 8060fde9000000011111111100000001
sent 130538 2 8060fdea000000021111111100000002
taken 130538 0
sent 130539 3 8060fdeb000000031111111100000003
sent 130540 4 8060fdec000000041111111100000004
taken 130540 0
ask 5 81cd00033333333311111111fde90002
marked 2
repair 130537 6 806100000000000122222222fde900000001
taken 130537 0
repair 130539 7 806100010000000322222222fdeb00000003
taken 130539 0
repair none
ask none
repair none
ask none
repair none
play 130536 0 0 00000000 - -
play 130537 1 0 00000001 - -
play 130538 2 0 00000002 - -
play 130539 3 0 00000003 - -
play 130540 4 0 00000004 - -
wait
",
    moments: &[0, 2, 4, 5, 5, 5, 5, 6, 7, 7, 7, 7, 7, 7, 7],
};

/// A drawn run: five packets, of whose words 998 to 1002 the third, 1000, loses its packet at a loss of 1 in 1000. The first
/// sequence number is 60000, so packet 0 has the place 125536. What comes is delivered at the moment of its packet; at the
/// moment 4, that of the last one, are one round, which mends the lost packet, and the plays.
const DRAWN: Log = Log {
    text: "\
sent 125536 0 8060ea60000000001111111100000000
taken 125536 0
sent 125537 1 8060ea61000000011111111100000001
taken 125537 0
sent 125538 2 8060ea62000000021111111100000002
sent 125539 3 8060ea63000000031111111100000003
taken 125539 0
sent 125540 4 8060ea64000000041111111100000004
taken 125540 0
ask 5 81cd00033333333311111111ea620000
marked 1
ask none
repair 125538 6 806100000000000222222222ea6200000002
taken 125538 0
repair none
play 125536 0 0 00000000 - -
play 125537 1 0 00000001 - -
play 125538 2 0 00000002 - -
play 125539 3 0 00000003 - -
play 125540 4 0 00000004 - -
wait
",
    moments: &[0, 1, 3, 4, 4, 4, 4, 4, 4, 4, 4, 4, 4, 4],
};

fn moment_of(entry: &Entry) -> Option<u64> {
    match entry {
        Entry::Delivered { now, .. } => Some(*now),
        Entry::Injected { now, .. } => Some(*now),
        Entry::Asked { now, .. } => Some(*now),
        Entry::NoAsk { now } => Some(*now),
        Entry::Played { now, .. } => Some(*now),
        _ => None,
    }
}

/// Whether this is the log of a world.
fn is_log<H: History, W: Window>(
    alloc: Global,
    world: &World<H, W>,
    log: &Log,
) -> Result<bool, Fail> {
    let mut text = Vec::new(alloc);
    let mut moments = Vec::new(alloc);
    for entry in world.log() {
        push_entry(&mut text, entry, world.wire()).map_err(|_| "memory is ample")?;
        if let Some(moment) = moment_of(entry) {
            moments.push(moment).map_err(|_| "memory is ample")?;
        }
    }
    Ok(text.as_slice() == log.text.as_bytes() && moments.as_slice() == log.moments)
}

fn is_driven<H: History, W: Window>(alloc: Global) -> Result<bool, Fail> {
    let mut world = new_world::<H, W>(alloc)?;
    let mut link = MemoryLink::new(alloc, 0, false);
    drive_five(&mut link, &mut world).map_err(|_| "nothing fails")?;
    is_log(alloc, &world, &DRIVEN)
}

#[test]
fn the_log_of_a_run_over_a_link(rt: HostRuntime) -> Result<(), Fail> {
    assert!(rt; is_driven::<ListHistory, ListWindow>(rt.alloc())?);
    assert!(rt; is_driven::<RingHistory, RingWindow>(rt.alloc())?);
    Ok(())
}

fn is_drawn<H: History, W: Window>(alloc: Global) -> Result<bool, Fail> {
    let mut world = World::<H, W>::new(alloc, &soak_config()).map_err(|_| "memory is ample")?;
    let mut rng = Counter(998);
    soak_world(alloc, &mut world, &mut rng, 5, 1).map_err(|_| "memory is ample")?;
    is_log(alloc, &world, &DRAWN)
}

#[test]
fn the_log_of_a_drawn_run(rt: HostRuntime) -> Result<(), Fail> {
    assert!(rt; is_drawn::<ListHistory, ListWindow>(rt.alloc())?);
    assert!(rt; is_drawn::<RingHistory, RingWindow>(rt.alloc())?);
    Ok(())
}
