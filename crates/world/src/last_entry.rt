//! A log of which the last entry alone is kept.
ghost use Rattle.std.specs.Prelude.{◌≡◌};

use crate::counts::Counts;
use crate::event::Entry;
use crate::log::Log;
use crate::traces::EntryTrace;
use std::alloc::Global;
use std::marker::Model;
use stores::OutOfMemory;

/// A log that keeps its last entry, and how many entries it had of each kind that is counted. It takes no memory from the
/// allocator. It has at most 2^64 - 1 entries.
#[derive(Drop)]
pub struct LastEntry {
    last: Option<Entry>,
    count: u64,
    counts: Counts,
    trace: EntryTrace,
}

impl Model for LastEntry {
    ghost use Rattle.std.specs.Prelude.{◌≡◌, ◌-◌, List, length, slice_get};
    ghost use Rattle.world.specs.declared.event.Entry.{Entry as Logged};
    ghost use Rattle.world.specs.Counts.{counts_of};

    ghost Value = { List Logged };

    ghost view = { λ log. log.trace.items };

    ghost invariant = { λ log. (log.last ≡ slice_get log.trace.items (length log.trace.items - 1))
        × (log.count ≡ length log.trace.items) × (log.counts ≡ counts_of log.trace.items) };
}

impl Log for LastEntry {
    ghost use Rattle.std.specs.Prelude.{◌-◌, ◌<◌, ◌^◌, length};

    ghost entries = { λ log. log };

    ghost has_room = { λ log. length log < 2 ^ 64 - 1 };

    fn empty(_alloc: Global) -> LastEntry {
        LastEntry {
            last: None,
            count: 0,
            counts: Counts::none(),
            trace: EntryTrace::new(),
        }
    }

    fn make_room(&mut self) -> Result<(), OutOfMemory> {
        if self.count == u64::MAX {
            return Err(OutOfMemory);
        }
        Ok(())
    }

    fn add(&mut self, entry: Entry) {
        self.trace = EntryTrace::with(&self.trace, &entry);
        self.counts = self.counts.with(&entry);
        self.count += 1;
        self.last = Some(entry);
    }

    fn last_entry(&self) -> Option<&Entry> {
        self.last.as_ref()
    }

    fn counts(&self) -> Counts {
        self.counts
    }
}
