//! When a receiver is to be called again.
ghost use Rattle.std.specs.Prelude.{◌≡◌, ◌↔◌, ◌^◌, ◌<◌, ℕ, Option, false};
ghost use Rattle.std.specs.Option.{option_map};
ghost use Rattle.stores.specs.Asking.{has_come};
ghost use Rattle.stores.specs.Lent.{slot_of};
ghost use Rattle.receiver.specs.Peeking.{is_ready};
ghost use Rattle.receiver.specs.Waking.{IsQuiet};
ghost use Rattle.receiver.specs.Window.{window_of};

use crate::config::ReceiverConfig;
use stores::{SlotRef, Window, sooner, window_by_place};

/// The least moment from which on a play of a window with this patience would not wait, or an ask would ask.
pub(crate) fn moment_of<W: Window>(
    window: &W,
    config: &ReceiverConfig,
    patience: u64,
) -> Option<u64>
    ensures { (learnt : Option ℕ) (now : ℕ) → now < 2 ^ 64 →
        IsQuiet (record config.now { patience = patience }) (window_of learnt (W.meaning window.now)) now ↔ (has_come result now ≡ false) }
{
    window_by_place();
    let play = ready_from(window.front(), patience);
    let ask = window.next_due(config.rule());
    sooner(play, ask)
}

/// The least moment from which on the slot at the front is to be passed.
fn ready_from(front: Option<SlotRef<'_>>, patience: u64) -> Option<u64>
    ensures { (now : ℕ) → now < 2 ^ 64 → is_ready patience now (option_map slot_of front.entry) ≡ has_come result now }
{
    match front {
        None => None,
        Some(SlotRef::Held(_)) => Some(0),
        Some(SlotRef::Missing { noticed, .. }) => noticed.checked_add(patience),
    }
}
