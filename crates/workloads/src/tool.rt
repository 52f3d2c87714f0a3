//! What the program `rtxtool` does: the log of a script, and runs of which drawn packets are lost.
use crate::digest::Digest;
use crate::script::{Script, Sink};
use crate::shape::Shape;
use crate::worlds::{add_log, add_wire};
use commands::{SimFault, sim_text};
use rand_core::SeedableRng;
use rand_pcg::Lcg64Xsh32;
use runs::{Tally, soak_seed, soak_world};
use std::alloc::Global;
use stores::{OutOfMemory, RingHistory, RingWindow};
use world::{Config, World};

/// The log of a drawn script with so many blocks of ten packets.
pub fn sim(alloc: Global, seed: u32, blocks: u64) -> Result<Digest, OutOfMemory> {
    let mut script = Script::new(alloc, seed, blocks)?;
    let mut sink = Sink::new(alloc)?;
    let end = match sim_text(alloc, &mut script, &mut sink) {
        Ok(count) => count,
        Err(SimFault::BadLine(number)) => number | 1 << 60,
        Err(_) => 2 << 60,
    };
    sink.finish();
    sink.digest.add(end);
    Ok(sink.digest)
}

/// So many runs of 10,000 packets, of which one in ten is lost. A tally is all that such a run answers, so one more run, of 1000 packets,
/// is made in a world that keeps its log and its wire, and all that these have of it is told.
pub fn soak(alloc: Global, seed: u32, runs: u64) -> Result<Digest, OutOfMemory> {
    let mut digest = Digest::EMPTY;
    for run in 0..runs {
        let seed = u64::from(seed) << 32 | run % (1 << 32);
        let tally = soak_seed::<RingHistory, RingWindow>(alloc, seed, 10_000, 100)?;
        add_tally(&mut digest, &tally);
    }
    soak_whole(alloc, &mut digest, u64::from(seed))?;
    Ok(digest)
}

/// A run in a world with histories and windows of 1024 places that asks at once and may ask and repeat three times.
fn soak_whole(alloc: Global, digest: &mut Digest, seed: u64) -> Result<(), OutOfMemory> {
    let Ok(session) = Shape::session() else {
        return Err(OutOfMemory);
    };
    let Ok(config) = Config::new(session, 60_000, 0, 1024, 1024, 1_000_000, 1, 3, 3) else {
        return Err(OutOfMemory);
    };
    let mut rng = Lcg64Xsh32::seed_from_u64(seed);
    let mut world = World::<RingHistory, RingWindow>::new(alloc, &config)?;
    let tally = soak_world(alloc, &mut world, &mut rng, 1000, 100)?;
    add_tally(digest, &tally);
    add_log(digest, world.log());
    add_wire(digest, world.wire());
    Ok(())
}

/// Adds what a run came to.
fn add_tally(digest: &mut Digest, tally: &Tally) {
    digest.add(tally.sent);
    digest.add(tally.dropped);
    digest.add(tally.repaired);
    digest.add(tally.played);
    digest.add(tally.gaps);
}
