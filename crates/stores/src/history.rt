ghost use Rattle.std.specs.Prelude.{◌≡◌, ◌<◌, ◌≤◌, IfOk, Some, IsSome, IsSomeAnd};
ghost use Rattle.std.specs.Option.{ForSome};
ghost use Rattle.stores.specs.Past.{Past, IsPast, empty_past, next_of, entry_at, pushed, numbered, has_none_of_17, least_marked, marked_at, unmarked_at, CanBeRepeated, repeated_at};

use crate::entry::HistoryEntry;
use crate::memory::OutOfMemory;
use places::Place;
use rtpwire::{Carried, Content};
use std::alloc::Global;

/// A sender's history: the latest packets that were sent, one for each place, up to so many.
///
/// It takes memory in `new` alone, for all that it will ever keep, so no other call can meet a want of it.
/// Every call leaves its capacity as it is.
///
/// The contracts speak of a list of entries, the oldest first; [`history_by_place`](crate::history_by_place)
/// says what they mean for the entry of each place.
pub trait History: Drop {
    /// The history as its callers see it, however it is kept.
    ghost meaning: { Self → Past };

    /// A history without entries. It will have at most `capacity` of them, from 1 to 8192.
    ///
    /// `OutOfMemory`: the allocator refused the memory.
    fn new(alloc: Global, capacity: usize) -> Result<Self, OutOfMemory>
        requires nonzero { 0 < capacity }
        requires limit { capacity ≤ 8192 }
        ensures { IfOk result (λ history. meaning history ≡ empty_past capacity) };

    /// Adds what was sent at this place, neither repeated nor marked. A full history drops its
    /// oldest entry, with its mark. The place must be the one after the last entry's, unless there is none.
    fn push_from(&mut self, place: Place, carried: &Carried<'_>)
        requires { ForSome (next_of (meaning self.old)) (λ next. place ≡ next) }
        ensures { meaning self.new ≡ pushed (meaning self.old) place carried.now };

    /// The same with a content of the caller's own.
    fn push(&mut self, place: Place, content: Content)
        requires { ForSome (next_of (meaning self.old)) (λ next. place ≡ next) }
        ensures { meaning self.new ≡ pushed (meaning self.old) place content }
    {
        self.push_from(place, &Carried::of_content(&content));
    }

    /// The place of the entry with this sequence number, if there is one. No two entries have the same.
    fn find(&self, number: u16) -> Option<Place>
        ensures { result ≡ numbered (meaning self.now) number };

    /// Whether no entry has this sequence number or one of the 16 after it, modulo 65536: all that a pair of a NACK can name. It
    /// takes no longer than [`find`](History::find) does for one of them.
    fn has_none_of_17(&self, first: u16) -> bool
        ensures { result ≡ has_none_of_17 (meaning self.now) first };

    /// The entry of this place, which must be there.
    fn get(&self, place: Place) -> &HistoryEntry
        requires { IsSome (entry_at (meaning self.now) place) }
        ensures { entry_at (meaning self.now) place ≡ Some result.now };

    /// Marks the entry of this place, which must be there, to be retransmitted.
    fn mark(&mut self, place: Place)
        requires { IsSome (entry_at (meaning self.old) place) }
        ensures { meaning self.new ≡ marked_at (meaning self.old) place };

    /// Takes the mark of the entry of this place away, if it has one. The entry must be there.
    fn unmark(&mut self, place: Place)
        requires { IsSome (entry_at (meaning self.old) place) }
        ensures { meaning self.new ≡ unmarked_at (meaning self.old) place };

    /// The least place whose entry is marked.
    fn least_marked(&self) -> Option<Place>
        ensures { result ≡ least_marked (meaning self.now) };

    /// Counts a retransmission of the entry of this place, and takes its mark away. The entry must be there,
    /// and was repeated fewer than 255 times.
    fn count_repeat(&mut self, place: Place)
        requires { IsSomeAnd (entry_at (meaning self.old) place) CanBeRepeated }
        ensures { meaning self.new ≡ repeated_at (meaning self.old) place };

    /// What is true of every history.
    ghost is_past: { (history : Self) → IsPast (meaning history) };
}
