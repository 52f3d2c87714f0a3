//! The receiver plays all that it can.
ghost use Rattle.std.specs.Prelude.{◌≡◌, ◌<◌, ℕ, true, length, IfOk, OnOk, OnErr};
ghost use Rattle.receiver.specs.declared.answer.Played.{Played};
ghost use Rattle.runs.specs.Scene.{Happens, scene_of};
ghost use Rattle.runs.specs.Playing.{goes, Plays, PlaysOut};

use crate::stepping::happen;
use receiver::Played;
use stores::{History, OutOfMemory, Window};
use world::{Entry, Event, Log, Wire, World};

/// The receiver plays at the moment `now` until it waits.
///
/// `OutOfMemory`: the log could not grow. The receiver has then played so far.
pub(crate) fn play_all<H: History, W: Window, N: Wire, K: Log>(
    world: &mut World<H, W, N, K>,
    now: u64,
) -> Result<(), OutOfMemory>
    ensures plays { OnOk result (PlaysOut world.old.config now (scene_of world.old) (scene_of world.new)) }
    ensures config { world.new.config ≡ world.old.config }
    ensures err { OnErr result ((count : ℕ) × Plays world.old.config now count (scene_of world.old) (scene_of world.new)) }
{
    // An event is as large as a datagram, so it is made once.
    let event = Event::Play(now);
    while play_once(world, &event, now)? {}
    Ok(())
}

/// The receiver plays once, by this event, and answers whether it did not wait.
fn play_once<H: History, W: Window, N: Wire, K: Log>(
    world: &mut World<H, W, N, K>,
    event: &Event,
    now: u64,
) -> Result<bool, OutOfMemory>
    requires { event.now ≡ Event.Play now }
    ensures played { IfOk result (λ went. (played : Played) × Happens world.old.config (scene_of world.old) (Event.Play now) (Entry.Played now played) (scene_of world.new)
        × (went ≡ goes played)) }
    // What did not wait took a place out of the window.
    ensures fewer { IfOk result (λ went. went ≡ true → length world.new.receiver.span.slots < length world.old.receiver.span.slots) }
    ensures config { world.new.config ≡ world.old.config }
    ensures err { OnErr result (world.new ≡ world.old) }
{
    happen(world, event)?;
    match world.last() {
        Some(
            Entry::Played {
                played: Played::Wait,
                ..
            },
        ) => Ok(false),
        _ => Ok(true),
    }
}
