//! A run over a link, from a new world to its tally.
ghost use Rattle.std.specs.Prelude.{◌≡◌, ◌+◌, ◌-◌, ◌^◌, ◌<◌, All, IfOk, OnErr};
ghost use Rattle.std.specs.List.Sorted.{IsStrictlyIncreasing};
ghost use Rattle.runs.specs.Blame.{blame};
ghost use Rattle.commands.specs.Loopback.{StopsOverLink, RunsOverLink, loopback_config};

use runs::{DriveFault, Link, Tally, drive, run_config};
use std::alloc::Global;
use stores::{RingHistory, RingWindow};
use world::{Config, LeanWorld};

/// The configuration of the run.
fn loopback_config() -> Config
    ensures { result ≡ loopback_config }
{
    run_config(65000)
}

/// Sends so many packets over a link, mends the run, and answers what it came to; see [`drive`]. The link's count of
/// failures must be below 2^64 - 1, and `drop` rising, each below `packets`.
///
/// `Link`: the link failed. `OutOfMemory`: the allocator refused a growth.
pub fn loopback<L: Link>(
    alloc: Global,
    link: &mut L,
    packets: u32,
    drop: &[u32],
) -> Result<Tally, DriveFault>
    requires working { L.failed link.old < 2 ^ 64 - 1 }
    requires rising { IsStrictlyIncreasing drop.now }
    requires below { All (λ number. number < packets) drop.now }
    // The tally is that of the log of such a run, done to its end over this link.
    ensures counts { IfOk result (RunsOverLink packets drop.now (L.traffic link.old) (L.traffic link.new)) }
    // A beginning of such a run was done over it.
    ensures err { OnErr result (StopsOverLink packets drop.now (L.traffic link.old) (L.traffic link.new)) }
    // The link is blamed exactly where it failed.
    ensures blame { L.failed link.new ≡ L.failed link.old + blame result }
{
    let mut world = LeanWorld::<RingHistory, RingWindow>::empty(alloc, &loopback_config())?;
    drive(link, &mut world, packets, drop)
}
