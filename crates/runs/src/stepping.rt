//! A world goes on by events.
ghost use Rattle.std.specs.Prelude.{◌≡◌, OnOk, OnErr};
ghost use Rattle.world.specs.declared.event.Entry.{Entry};
ghost use Rattle.runs.specs.Scene.{Happens, Does, scene_of};

use stores::{History, OutOfMemory, Window};
use world::{Event, Log, Wire, World};

/// Does one event.
pub(crate) fn happen<H: History, W: Window, N: Wire, K: Log>(
    world: &mut World<H, W, N, K>,
    event: &Event,
) -> Result<(), OutOfMemory>
    ensures happens { OnOk result ((entry : Entry) × Happens world.old.config (scene_of world.old) event.now entry (scene_of world.new)) }
    ensures config { world.new.config ≡ world.old.config }
    ensures err { OnErr result (world.new ≡ world.old) }
{
    world.happen(event)
}

/// Does these events, one after the other.
pub(crate) fn happen_all<H: History, W: Window, N: Wire, K: Log>(
    world: &mut World<H, W, N, K>,
    events: &[Event],
) -> Result<(), OutOfMemory>
    ensures does { OnOk result (Does world.old.config (scene_of world.old) events.now (scene_of world.new)) }
    ensures config { world.new.config ≡ world.old.config }
{
    for event in events {
        happen(world, event)?;
    }
    Ok(())
}
