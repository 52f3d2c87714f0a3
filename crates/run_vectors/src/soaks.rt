//! Drawn runs.
ghost use Rattle.std.specs.Prelude.{◌≤◌};

use crate::counter::Counter;
use rand_core::SeedableRng;
use rand_pcg::Lcg64Xsh32;
use runs::{Tally, run_config, soak, soak_seed, soak_world};
use std::alloc::Global;
use std::test::Fail;
use stores::{ListHistory, ListWindow, RingHistory, RingWindow};
use world::{Event, World, schedule};

/// Whether a run of 300 packets over lists, and one over rings, come to this.
fn comes_to(alloc: Global, loss: u32, expected: &Tally) -> Result<bool, Fail>
    requires { loss ≤ 1000 }
{
    let listed = soak_seed::<ListHistory, ListWindow>(alloc, 1, 300, loss);
    let ringed = soak_seed::<RingHistory, RingWindow>(alloc, 1, 300, loss);
    Ok(
        listed.map_err(|_| "memory is ample")? == *expected
            && ringed.map_err(|_| "memory is ample")? == *expected,
    )
}

#[test]
fn a_run_in_which_nothing_is_lost(rt: HostRuntime) -> Result<(), Fail> {
    let expected = Tally {
        sent: 300,
        dropped: 0,
        repaired: 0,
        played: 300,
        gaps: 0,
    };
    assert!(rt; comes_to(rt.alloc(), 0, &expected)?);
    Ok(())
}

#[test]
fn a_run_in_which_all_is_lost(rt: HostRuntime) -> Result<(), Fail> {
    let expected = Tally {
        sent: 300,
        dropped: 300,
        repaired: 0,
        played: 0,
        gaps: 0,
    };
    assert!(rt; comes_to(rt.alloc(), 1000, &expected)?);
    Ok(())
}

/// What the seed draws, it draws again, and from a generator that is made of it.
fn drawn(alloc: Global, seed: u64) -> Result<Tally, Fail> {
    let tally = soak_seed::<RingHistory, RingWindow>(alloc, seed, 600, 100).map_err(
        |_| "memory is ample",
    )?;
    let mut rng = Lcg64Xsh32::seed_from_u64(seed);
    let again = soak::<Lcg64Xsh32, ListHistory, ListWindow>(alloc, &mut rng, 600, 100).map_err(
        |_| "memory is ample",
    )?;
    if again != tally {
        return Err("a seed is not its generator".into());
    }
    Ok(tally)
}

/// What is lost is repaired, but for packets that are lost after all others of their block; and the seeds differ.
#[test]
fn runs_of_twenty_seeds(rt: HostRuntime) -> Result<(), Fail> {
    let first = drawn(rt.alloc(), 1)?;
    let mut differ = false;
    for seed in 1..21 {
        let tally = drawn(rt.alloc(), seed)?;
        assert_eq!(rt; tally.sent, 600);
        assert_eq!(rt; tally.gaps, 0);
        assert_eq!(rt;
            tally.sent.wrapping_sub(tally.played),
            tally.dropped.wrapping_sub(tally.repaired)
        );
        differ = differ || tally != first;
    }
    assert!(rt; differ);
    Ok(())
}

/// A run that shows how many packets a block has. The words are 999, 1000, .., so at a loss of 900 in 1000 packet 0 comes, 1
/// to 900 are lost, 901 to 1000 come, 1001 to 1900 are lost, 1901 to 2000 come, and 2001 to 2047 are lost.
///
/// The fourth block ends with packet 1023: the history, of 1024 packets, has all of 1 to 900, and they are repaired. The
/// eighth, from 1792 on, ends with 2047: the history then begins with 1024, so 1024 to 1900 are repaired, 877 packets, and
/// the receiver waits for 1001, which is not there any more. Shorter blocks repair more of them.
#[test]
fn a_run_that_shows_its_blocks(rt: HostRuntime) -> Result<(), Fail> {
    let expected = Tally {
        sent: 2048,
        dropped: 1847,
        repaired: 1777,
        played: 1001,
        gaps: 0,
    };
    let mut rng = Counter(999);
    let tally = soak::<Counter, RingHistory, RingWindow>(rt.alloc(), &mut rng, 2048, 900);
    assert!(rt; tally == Ok(expected));
    Ok(())
}

/// Three packets, of which the second is lost and given up once its patience has passed: a run of no packets tells what the
/// world's log came to before it.
#[test]
fn a_place_that_is_given_up(rt: HostRuntime) -> Result<(), Fail> {
    let expected = Tally {
        sent: 3,
        dropped: 0,
        repaired: 0,
        played: 2,
        gaps: 1,
    };
    let alloc = rt.alloc();
    let mut world = World::<RingHistory, RingWindow>::new(alloc, &run_config(1)).map_err(
        |_| "memory is ample",
    )?;
    let mut rng = Counter(999);
    let mut events = Vec::new(alloc);
    schedule(&mut rng, 0, 0, 3, 1, &mut events).map_err(|_| "memory is ample")?;
    for event in &events {
        let _ = world.step(event).map_err(|_| "memory is ample")?;
    }
    for _ in 0..3 {
        let _ = world
            .step(&Event::Play(1_000_002))
            .map_err(|_| "memory is ample")?;
    }
    let tally = soak_world(alloc, &mut world, &mut rng, 0, 0);
    assert!(rt; tally == Ok(expected));
    Ok(())
}
