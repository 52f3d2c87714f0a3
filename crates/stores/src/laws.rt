//! Laws on what a store answers. This function computes nothing: its contract is the law, for callers that hold a
//! store of one type against a store of another.
ghost use Rattle.std.specs.Prelude.{◌≡◌, ℕ, Some, OnOk, OnErr, Result};
ghost use Rattle.rtpwire.specs.declared.content.Content.{Content};
ghost use Rattle.stores.specs.declared.slot.Slot.{Slot};
ghost use Rattle.stores.specs.declared.slot.PutFault.{PutFault};
ghost use Rattle.stores.specs.declared.entry.HistoryEntry.{HistoryEntry};
ghost use Rattle.stores.specs.Span.{Span, front_of, without_front};
ghost use Rattle.stores.specs.Put.{put_answer, after_put};
ghost use Rattle.stores.specs.Past.{Past, entry_at};

/// The same calls give the same answers: two windows of one meaning, whatever their types, answer a call with the
/// same arguments alike and have one meaning after it, and so do two histories.
///
/// The clauses of [`Window`](crate::Window) and [`History`](crate::History) are equations, so it is plain for the
/// calls that are not named here: each answer, and each meaning that a call leaves, is a function of the meaning
/// before and of the arguments.
pub fn answers_are_determined()
    // What `put` answers and leaves.
    ensures put { (old new other : Span) (place now : ℕ) (content : Content) (r s : Result ℕ PutFault)
        → r ≡ put_answer old place → OnOk r (new ≡ after_put old place content now) → OnErr r (new ≡ old)
        → s ≡ put_answer old place → OnOk s (other ≡ after_put old place content now) → OnErr s (other ≡ old)
        → (r ≡ s) × (new ≡ other) }
    // The slot that `take_front` takes, and what it leaves.
    ensures take_front { (old new other : Span) (x y : Slot)
        → front_of old ≡ Some x → new ≡ without_front old
        → front_of old ≡ Some y → other ≡ without_front old
        → (x ≡ y) × (new ≡ other) }
    // The entry that `get` shows.
    ensures get { (h : Past) (place : ℕ) (x y : HistoryEntry)
        → entry_at h place ≡ Some x → entry_at h place ≡ Some y → x ≡ y }
{}
