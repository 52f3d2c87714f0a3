//! Which marks of a sender's history lie above a place.
ghost use Rattle.std.specs.Prelude.{◌≡◌, ◌↔◌, ◌≤◌, ◌<◌, ℕ, true, Some, IsTrue};
ghost use Rattle.places.specs.Place.{number};
ghost use Rattle.stores.specs.declared.entry.HistoryEntry.{HistoryEntry};
ghost use Rattle.stores.specs.Past.{entry_at};

use places::Place;
use stores::{History, history_by_place};

/// Whether no entry of the history is marked above this place. It looks at each sequence number.
pub(crate) fn is_marked_up_to<H: History>(history: &H, highest: Place) -> bool
    ensures { IsTrue result ↔ ((q : ℕ) (entry : HistoryEntry) → entry_at (H.meaning history.now) q ≡ Some entry → entry.marked ≡ true → q ≤ highest) }
{
    for seq in 0..65536u32 {
        if !is_number_up_to(history, seq as u16, highest) {
            return false;
        }
    }
    true
}

/// Whether no entry with this sequence number is marked above the place.
fn is_number_up_to<H: History>(history: &H, seq: u16, highest: Place) -> bool
    ensures { IsTrue result ↔ ((q : ℕ) (entry : HistoryEntry) → number q ≡ seq → entry_at (H.meaning history.now) q ≡ Some entry → entry.marked ≡ true → q ≤ highest) }
{
    history_by_place();
    match history.find(seq) {
        None => true,
        Some(place) => place <= highest || !history.get(place).marked,
    }
}
