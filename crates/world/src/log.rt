//! What keeps the log of a world.
ghost use Rattle.std.specs.Prelude.{◌≡◌, ◌<◌, [], ◌∷◌, ◌++◌, List, OnOk, IsNone, IsSomeAnd, vec_len};
ghost use Rattle.std.specs.Vec.{vec_capacity};
ghost use Rattle.world.specs.declared.event.Entry.{Entry as Logged};
ghost use Rattle.world.specs.Counts.{counts_of};

use crate::counts::Counts;
use crate::event::Entry;
use std::alloc::Global;
use stores::OutOfMemory;

/// The log of a world: one entry for each event, the oldest first. Its last entry can be lent.
pub trait Log: Drop {
    /// The entries, the oldest first.
    ghost entries: { Self → List Logged };

    /// There is room for one more entry.
    ghost has_room: { Self → Type 0 };

    /// A log with no entry. It takes no memory.
    fn empty(alloc: Global) -> Self
        ensures { entries result ≡ [] };

    /// Makes room for one more entry.
    ///
    /// `OutOfMemory`: the log can not grow.
    fn make_room(&mut self) -> Result<(), OutOfMemory>
        ensures entries { entries self.new ≡ entries self.old }
        ensures room { OnOk result (has_room self.new) };

    /// Appends an entry. There is room.
    fn add(&mut self, entry: Entry)
        requires { has_room self.old }
        ensures { entries self.new ≡ entries self.old ++ entry ∷ [] };

    /// The last entry, if there is one.
    fn last_entry(&self) -> Option<&Entry>
        ensures some { (before : List Logged) (entry : Logged) → entries self.now ≡ before ++ entry ∷ [] → IsSomeAnd result (λ last. last.now ≡ entry) }
        ensures none { entries self.now ≡ [] → IsNone result };

    /// How many of its entries are of the kinds that are counted.
    fn counts(&self) -> Counts
        ensures { result ≡ counts_of (entries self.now) };
}

/// A log that keeps each entry, in a list that can be lent.
impl Log for Vec<Entry> {
    ghost entries = { λ log. log.items };

    ghost has_room = { λ log. vec_len log < vec_capacity log };

    fn empty(alloc: Global) -> Vec<Entry> {
        Vec::new(alloc)
    }

    fn make_room(&mut self) -> Result<(), OutOfMemory> {
        self.reserve(1)?;
        Ok(())
    }

    fn add(&mut self, entry: Entry) {
        self.push_reserved(entry);
    }

    fn last_entry(&self) -> Option<&Entry> {
        self.as_slice().last()
    }

    fn counts(&self) -> Counts {
        Counts::of(self.as_slice())
    }
}
