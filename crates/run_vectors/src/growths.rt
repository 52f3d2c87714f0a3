//! Growths that are refused: in `./check` tests/refuse.c refuses one allocation after the other of each test. With memory
//! back, a run comes to what it would have come to.
use crate::drives::{begins, drive_five, five_mended, new_world};
use crate::memory::MemoryLink;
use runs::{DriveFault, Link, Tally, soak_seed};
use std::alloc::Global;
use std::test::Fail;
use stores::{RingHistory, RingWindow};
use world::World;

type Ringed = World<RingHistory, RingWindow>;

/// A run of five packets, its answer, and how often its link failed.
fn run_five(alloc: Global) -> Result<(Ringed, Result<Tally, DriveFault>, u64), Fail> {
    let mut world: Ringed = new_world(alloc)?;
    let mut link = MemoryLink::new(alloc, 0, false);
    let result = drive_five(&mut link, &mut world);
    Ok((world, result, link.faults()))
}

/// The world of a run of five packets that was done whole: one growth is refused at most, so the second is.
fn whole_run(alloc: Global) -> Result<Ringed, Fail> {
    for _ in 0..2 {
        let (world, result, _) = run_five(alloc)?;
        if result == Ok(five_mended()) {
            return Ok(world);
        }
    }
    Err(Fail::new("memory is ample"))
}

/// Where a growth is refused the link is not blamed, but for one of its own, and the log is a beginning of the whole one's.
#[test]
fn refused_growth_in_a_run_over_a_link(rt: HostRuntime) -> Result<(), Fail> {
    let (world, result, faults) = run_five(rt.alloc())?;
    let whole = whole_run(rt.alloc())?;
    assert!(rt; begins(world.log(), whole.log()));
    match result {
        Ok(tally) => assert!(rt; tally == five_mended()),
        Err(DriveFault::Link) => assert_eq!(rt; faults, 1),
        Err(DriveFault::OutOfMemory) => assert_eq!(rt; faults, 0),
    }
    Ok(())
}

#[test]
fn refused_growth_in_a_drawn_run(rt: HostRuntime) -> Result<(), Fail> {
    let expected = Tally {
        sent: 300,
        dropped: 0,
        repaired: 0,
        played: 300,
        gaps: 0,
    };
    let mut result = soak_seed::<RingHistory, RingWindow>(rt.alloc(), 1, 300, 0);
    if result.is_err() {
        result = soak_seed::<RingHistory, RingWindow>(rt.alloc(), 1, 300, 0);
    }
    assert!(rt; result == Ok(expected));
    Ok(())
}
