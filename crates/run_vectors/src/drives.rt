//! Runs over a link in memory.
ghost use Rattle.std.specs.Prelude.{◌≡◌, IfOk};
ghost use Rattle.world.specs.World.{empty};

use crate::memory::MemoryLink;
use runs::{DriveFault, Link, Tally, Transfer, drive, run_config};
use std::alloc::Global;
use std::test::Fail;
use stores::{History, ListHistory, ListWindow, RingHistory, RingWindow, Window};
use world::{End, Entry, World};

/// A new world. One whose growth is refused is made again.
pub fn new_world<H: History, W: Window>(alloc: Global) -> Result<World<H, W>, Fail>
    ensures { IfOk result (λ world. world ≡ empty world.config) }
{
    let config = run_config(65000);
    if let Ok(made) = World::new(alloc, &config) {
        return Ok(made);
    }
    Ok(World::new(alloc, &config).map_err(|_| "memory is ample")?)
}

/// Five packets, of which two are not put into the link.
pub fn drive_five<H: History, W: Window>(
    link: &mut MemoryLink,
    world: &mut World<H, W>,
) -> Result<Tally, DriveFault>
    requires fresh { world.old ≡ empty world.old.config }
    requires working { link.old.faults ≡ 0 }
{
    drive(link, world, 5, &[1, 3])
}

/// What five packets come to over a link that loses nothing.
pub fn five_mended() -> Tally {
    Tally {
        sent: 5,
        dropped: 2,
        repaired: 2,
        played: 5,
        gaps: 0,
    }
}

/// Over a link that loses nothing, what was not put into it is repaired. The calls are 12, and the transfers of each put come
/// in pairs.
fn mends<H: History, W: Window>(alloc: Global) -> Result<bool, Fail> {
    let mut link = MemoryLink::new(alloc, 0, false);
    let mut world = new_world::<H, W>(alloc)?;
    let tally = drive_five(&mut link, &mut world).map_err(|_| "nothing fails")?;
    let ends = [
        End::Receiver,
        End::Receiver,
        End::Receiver,
        End::Sender,
        End::Receiver,
        End::Receiver,
    ];
    let mut told = link.told();
    for end in &ends {
        match told {
            [Transfer::Put(to, put), Transfer::Receipt(at, came), ..] => {
                if to != end || at != end || put != came {
                    return Ok(false);
                }
            }
            _ => return Ok(false),
        }
        told = &told[2..];
    }
    Ok(tally == five_mended() && link.calls() == 12 && told.is_empty())
}

#[test]
fn a_link_that_loses_nothing(rt: HostRuntime) -> Result<(), Fail> {
    assert!(rt; mends::<ListHistory, ListWindow>(rt.alloc())?);
    assert!(rt; mends::<RingHistory, RingWindow>(rt.alloc())?);
    Ok(())
}

/// Whether a list of entries is a beginning of another.
pub fn begins(entries: &[Entry], whole: &[Entry]) -> bool {
    entries.len() <= whole.len() && entries.iter().zip(whole).all(|(one, other)| one == other)
}

/// Where the link fails at a call, that is told, and the log is a beginning of that of a run in which nothing fails.
#[test]
fn a_link_that_fails(rt: HostRuntime) -> Result<(), Fail> {
    let mut whole = new_world::<RingHistory, RingWindow>(rt.alloc())?;
    let mut good = MemoryLink::new(rt.alloc(), 0, false);
    drive_five(&mut good, &mut whole).map_err(|_| "nothing fails")?;
    for failing in 1..13 {
        let mut world = new_world::<RingHistory, RingWindow>(rt.alloc())?;
        let mut link = MemoryLink::new(rt.alloc(), failing, false);
        let result = drive_five(&mut link, &mut world);
        assert!(rt; result == Err(DriveFault::Link));
        assert_eq!(rt; link.faults(), 1);
        assert_eq!(rt; link.calls(), failing);
        assert!(rt; begins(world.log(), whole.log()));
        assert!(rt; world.log().len() < whole.log().len());
    }
    Ok(())
}

#[test]
fn a_link_that_gives_nothing(rt: HostRuntime) -> Result<(), Fail> {
    let mut world = new_world::<RingHistory, RingWindow>(rt.alloc())?;
    let mut link = MemoryLink::new(rt.alloc(), 0, true);
    let tally = drive_five(&mut link, &mut world).map_err(|_| "nothing fails")?;
    let expected = Tally {
        sent: 5,
        dropped: 2,
        repaired: 0,
        played: 0,
        gaps: 0,
    };
    assert!(rt; tally == expected);
    Ok(())
}
