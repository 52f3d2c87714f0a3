//! A datagram of the wire is handed to an end over a link.
ghost use Rattle.std.specs.Prelude.{◌≡◌, ◌+◌, ◌-◌, ◌^◌, ◌<◌, ℕ, List, [], ◌∷◌, ◌++◌, length, IfOk, OnOk, OnErr};
ghost use Rattle.arrayvec.specs.ArrayVec.{ArrayVec};
ghost use Rattle.world.specs.declared.event.Entry.{Entry as Logged};
ghost use Rattle.runs.specs.declared.link.Transfer.{Transfer};
ghost use Rattle.runs.specs.Scene.{scene_of};
ghost use Rattle.runs.specs.Blame.{blame};
ghost use Rattle.runs.specs.Traffic.{Grows};
ghost use Rattle.runs.specs.Exchange.{written_at, IsOnWire, Hands, IsHandOverBegun, Exchanges, IsInterrupted};

use crate::fault::DriveFault;
use crate::link::{Link, Transfer};
use crate::stepping::happen;
use rtpwire::Datagram;
use stores::{History, Window};
use world::{End, Entry, Event, Log, Wire, World};

/// The index of the datagram that the last event wrote on the wire, if it wrote one.
fn written_last<H: History, W: Window, N: Wire, K: Log>(world: &World<H, W, N, K>) -> Option<u64>
    ensures { (before : List Logged) (entry : Logged) → world.now.log ≡ before ++ entry ∷ [] → result ≡ written_at entry }
{
    match world.last() {
        Some(entry) => written_at(entry),
        None => None,
    }
}

/// The index of the datagram that an event wrote on the wire, if it wrote one.
fn written_at(entry: &Entry) -> Option<u64>
    ensures { result ≡ written_at entry.now }
{
    match entry {
        Entry::Sent { index, .. } => Some(*index),
        Entry::Repaired { index, .. } => Some(*index),
        Entry::Asked { index, .. } => Some(*index),
        _ => None,
    }
}

/// Does an event, and hands what it wrote to an end at the moment `now`. The answer is whether it wrote something.
pub(crate) fn exchange<L: Link, H: History, W: Window, N: Wire, K: Log>(
    link: &mut L,
    world: &mut World<H, W, N, K>,
    event: &Event,
    to: End,
    now: u64,
) -> Result<bool, DriveFault>
    requires working { L.failed link.old < 2 ^ 64 - 1 }
    ensures done { IfOk result (λ went. Exchanges world.old.config event.now to now (scene_of world.old) (L.traffic link.old) went (scene_of world.new) (L.traffic link.new)) }
    ensures err { OnErr result (IsInterrupted world.old.config event.now to (scene_of world.old) (L.traffic link.old) (scene_of world.new) (L.traffic link.new)) }
    ensures blame { L.failed link.new ≡ L.failed link.old + blame result }
    ensures config { world.new.config ≡ world.old.config }
{
    happen(world, event)?;
    match written_last(world) {
        Some(index) => {
            hand(link, world, to, index, now)?;
            Ok(true)
        }
        None => Ok(false),
    }
}

/// Hands the wire's datagram at an index to an end, and injects there what comes.
fn hand<L: Link, H: History, W: Window, N: Wire, K: Log>(
    link: &mut L,
    world: &mut World<H, W, N, K>,
    to: End,
    index: u64,
    now: u64,
) -> Result<(), DriveFault>
    requires there { index < length world.old.wire }
    requires working { L.failed link.old < 2 ^ 64 - 1 }
    ensures hands { OnOk result ((moved : List Transfer) × Hands world.old.config to index now (scene_of world.old) moved (scene_of world.new)
        × Grows (L.traffic link.old) moved (L.traffic link.new)) }
    ensures err { OnErr result ((begun : List Transfer) × IsHandOverBegun to index world.new.wire begun × Grows (L.traffic link.old) begun (L.traffic link.new)) }
    ensures same { OnErr result (world.new ≡ world.old) }
    ensures blame { L.failed link.new ≡ L.failed link.old + blame result }
    ensures config { world.new.config ≡ world.old.config }
{
    put(link, world, to, index)?;
    let mut octets = Datagram::new();
    if link.recv(to, &mut octets)? {
        happen(world, &Event::Inject(to, octets, now))?;
    }
    Ok(())
}

/// Puts the wire's datagram at an index into the link.
fn put<L: Link, H: History, W: Window, N: Wire, K: Log>(
    link: &mut L,
    world: &World<H, W, N, K>,
    to: End,
    index: u64,
) -> Result<(), DriveFault>
    requires there { index < length world.now.wire }
    requires working { L.failed link.old < 2 ^ 64 - 1 }
    ensures put { OnOk result ((datagram : ArrayVec ℕ) × IsOnWire world.now.wire index datagram
        × Grows (L.traffic link.old) (Transfer.Put to datagram ∷ []) (L.traffic link.new)) }
    ensures err { OnErr result ((begun : List Transfer) × IsHandOverBegun to index world.now.wire begun × Grows (L.traffic link.old) begun (L.traffic link.new)) }
    ensures blame { L.failed link.new ≡ L.failed link.old + blame result }
{
    let (_, octets) = world.datagram(index).unwrap();
    link.send(to, octets)?;
    Ok(())
}
