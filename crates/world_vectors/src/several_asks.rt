//! Rounds of several asks, over lists and over rings.

use crate::sessions::{does, new_world, repeats};
use receiver::Played;
use std::alloc::Global;
use std::test::Fail;
use stores::{History, ListHistory, ListWindow, RingHistory, RingWindow, Window};
use world::{Entry, Event, World};

/// How many entries of a log are asks, retransmissions and packets that are played.
fn counts<H: History, W: Window>(world: &World<H, W>) -> (usize, usize, usize) {
    let asked = |entry: &&Entry| matches!(*entry, Entry::Asked { .. });
    let repaired = |entry: &&Entry| matches!(*entry, Entry::Repaired { .. });
    let played = |entry: &&Entry| {
        matches!(
            *entry,
            Entry::Played {
                played: Played::Packet(_, _),
                ..
            }
        )
    };
    (
        world.log().iter().filter(asked).count(),
        world.log().iter().filter(repaired).count(),
        world.log().iter().filter(played).count(),
    )
}

/// Delivers what came of so many sends: every 20th below an index is lost, and all from there on. The first and the last
/// come.
fn comes<H: History, W: Window>(world: &mut World<H, W>, sends: u64, from: u64) -> bool {
    for index in 0..sends {
        let is_end = index == 0 || sends.wrapping_sub(index) == 1;
        if is_end || index < from && index % 20 != 0 {
            if !does(world, &Event::Deliver(index, 0)) {
                return false;
            }
        }
    }
    true
}

/// How many entries a round has, and how many places are missing before and behind it.
fn mends<H: History, W: Window>(world: &mut World<H, W>) -> (usize, u64, usize) {
    let before = world.window().missing();
    let count = world.settle(0).unwrap_or(0);
    (before, count, world.window().missing())
}

/// Whether one round of so many events and so many asks mends so many places, after which all is played.
fn mends_all<H: History, W: Window>(
    alloc: Global,
    (sends, from): (u64, u64),
    (lost, asks, events): (usize, usize, u64),
) -> Result<bool, Fail> {
    let mut world = new_world::<H, W>(alloc, "config 1 5 4096 4096 100 20 3 2")?;
    Ok(
        repeats(&mut world, sends, "S 0 0 0 aa - -")
            && comes(&mut world, sends, from)
            && mends(&mut world) == (lost, events, 0)
            && repeats(&mut world, sends, "P 0")
            && counts(&world) == (asks, lost, sends as usize)
            && world.close(),
    )
}

/// An ask names at most 1088 places, by at most 64 pairs. 1500 lost packets in a row take two asks; 99 that lie 20 apart
/// take two; and these before 1199 in a row take three.
#[test]
fn rounds_of_several_asks(rt: HostRuntime) -> Result<(), Fail> {
    for (sends, counts) in [
        ((1502, 0), (1500, 2, 3006)),
        ((2001, 2001), (99, 2, 204)),
        ((3200, 2000), (1298, 3, 2604)),
    ] {
        assert!(rt; mends_all::<ListHistory, ListWindow>(rt.alloc(), sends, counts)?);
        assert!(rt; mends_all::<RingHistory, RingWindow>(rt.alloc(), sends, counts)?);
    }
    Ok(())
}
