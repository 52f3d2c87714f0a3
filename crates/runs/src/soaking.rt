//! A run of which a random generator loses packets.
ghost use Rattle.std.specs.Prelude.{◌≡◌, ◌+◌, ◌≤◌, ◌^◌, ◌<◌, ℕ, IfOk, OnOk, OnErr};
ghost use Rattle.rand_core.specs.Stream.{next_u32};
ghost use Rattle.rand_core.specs.Steps.{first_words};
ghost use Rattle.world.specs.Schedule.{after_words};
ghost use Rattle.runs.specs.Scene.{scene_of};
ghost use Rattle.runs.specs.Soak.{lost, seeded, IsBlock, IsSoak, Draws};
ghost use Rattle.runs.specs.Tally.{tally_of};

use crate::playing::play_all;
use crate::session::soak_config;
use crate::stepping::happen_all;
use crate::tally::Tally;
use rand_core::{Rng, SeedableRng};
use rand_pcg::Lcg64Xsh32;
use std::alloc::Global;
use stores::{History, OutOfMemory, Window};
use world::{LeanWorld, Log, Wire, World, schedule};

/// How many packets are sent before a world is settled.
const BLOCK: u32 = 256;

/// Sends so many packets, of which words of the generator lose some, and answers what that came to. The loss is in
/// thousandths, at most 1000.
///
/// The packets are done in blocks of 256, the last one with what is left. The packets of a block are sent, and each is
/// delivered unless its word loses it; then the world is settled by one undisturbed round, and the receiver plays until it
/// waits. `dropped` counts the packets that were lost.
///
/// `OutOfMemory`: the allocator refused a growth. The generator has moved on by the words that were drawn.
pub fn soak<R: Rng, H: History, W: Window>(
    alloc: Global,
    rng: &mut R,
    packets: u32,
    loss: u32,
) -> Result<Tally, OutOfMemory>
    requires { loss ≤ 1000 }
    // The tally is that of the log of such a run, for the words of the generator.
    ensures counts { IfOk result (λ tally. Draws loss packets (R.stream rng.old) tally) }
    // One word is drawn for each packet; where it stops, no more than that.
    ensures drawn { OnOk result (R.stream rng.new ≡ after_words packets (R.stream rng.old)) }
    ensures err { OnErr result ((count : ℕ) × (count ≤ packets) × (R.stream rng.new ≡ after_words count (R.stream rng.old))) }
{
    let mut world = LeanWorld::<H, W>::empty(alloc, &soak_config())?;
    soak_world(alloc, &mut world, rng, packets, loss)
}

/// The same in a world that is given, from where that stands: its packets are sent at the moments from 0 on.
///
/// `OutOfMemory`: the allocator refused a growth. The world then stands after a beginning of its events.
pub fn soak_world<R: Rng, H: History, W: Window, N: Wire, K: Log>(
    alloc: Global,
    world: &mut World<H, W, N, K>,
    rng: &mut R,
    packets: u32,
    loss: u32,
) -> Result<Tally, OutOfMemory>
    requires { loss ≤ 1000 }
    ensures run { OnOk result (IsSoak world.old.config loss 0 packets (R.stream rng.old) (scene_of world.old) (scene_of world.new)) }
    ensures tally { IfOk result (λ tally. tally ≡ tally_of (lost loss (first_words next_u32 packets (R.stream rng.old))) world.new.log) }
    ensures drawn { OnOk result (R.stream rng.new ≡ after_words packets (R.stream rng.old)) }
    ensures err { OnErr result ((count : ℕ) × (count ≤ packets) × (R.stream rng.new ≡ after_words count (R.stream rng.old))) }
    ensures config { world.new.config ≡ world.old.config }
{
    let mut dropped = 0;
    let mut done = 0;
    while done < packets {
        let size = BLOCK.min(packets - done);
        dropped += soak_block(alloc, world, rng, done, size, loss)?;
        done += size;
    }
    Ok(Tally::of(world.counts(), dropped))
}

/// Does one block of packets after `done` others, and answers how many of them were lost.
fn soak_block<R: Rng, H: History, W: Window, N: Wire, K: Log>(
    alloc: Global,
    world: &mut World<H, W, N, K>,
    rng: &mut R,
    done: u32,
    packets: u32,
    loss: u32,
) -> Result<u64, OutOfMemory>
    requires some { 0 < packets }
    requires few { packets ≤ 256 }
    requires loss { loss ≤ 1000 }
    requires fits { done + packets < 2 ^ 32 }
    ensures block { OnOk result (IsBlock world.old.config loss done (first_words next_u32 packets (R.stream rng.old)) (scene_of world.old) (scene_of world.new)) }
    ensures lost { IfOk result (λ count. count ≡ lost loss (first_words next_u32 packets (R.stream rng.old))) }
    ensures most { IfOk result (λ count. count ≤ packets) }
    ensures drawn { OnOk result (R.stream rng.new ≡ after_words packets (R.stream rng.old)) }
    ensures err { OnErr result ((count : ℕ) × (count ≤ packets) × (R.stream rng.new ≡ after_words count (R.stream rng.old))) }
    ensures config { world.new.config ≡ world.old.config }
{
    let first = world.datagrams();
    let mut events = Vec::new(alloc);
    schedule(rng, first, u64::from(done), packets, loss, &mut events)?;
    happen_all(world, &events)?;
    let now = u64::from(done) + u64::from(packets) - 1;
    world.settle(now)?;
    play_all(world, now)?;
    Ok(2 * u64::from(packets) - events.len() as u64)
}

/// The same over the generator that `Lcg64Xsh32` makes of a seed.
///
/// `OutOfMemory`: the allocator refused a growth.
pub fn soak_seed<H: History, W: Window>(
    alloc: Global,
    seed: u64,
    packets: u32,
    loss: u32,
) -> Result<Tally, OutOfMemory>
    requires { loss ≤ 1000 }
    ensures { IfOk result (λ tally. Draws loss packets (seeded seed) tally) }
{
    let mut rng = Lcg64Xsh32::seed_from_u64(seed);
    soak::<Lcg64Xsh32, H, W>(alloc, &mut rng, packets, loss)
}
