ghost use Rattle.std.specs.Prelude.{◌≡◌, ◌+◌, ◌-◌, ◌^◌, ◌<◌, ◌≤◌, IsSome, length, drop, slice_get};
ghost use Rattle.std.specs.Vec.{vec_capacity};
ghost use Rattle.places.specs.Place.{number};
ghost use Rattle.stores.specs.declared.entry.HistoryEntry.{HistoryEntry};
ghost use Rattle.stores.specs.Past.{IsRun, entry_of, first_place, is_of_17};

use crate::entry::HistoryEntry;
use crate::history::History;
use crate::memory::OutOfMemory;
use places::Place;
use rtpwire::{Carried, Content};
use std::alloc::Global;

/// A history in a plain list, whose memory is reserved once.
///
/// An entry is found by its index. Pushing into a full one moves the entries that stay, and `find` and
/// `least_marked` walk the entries.
#[derive(Debug, Drop)]
pub struct ListHistory {
    // The place of the oldest entry, where there is one.
    first: u64,
    entries: Vec<HistoryEntry>,
    capacity: usize,
    ghost reserved: { capacity ≤ vec_capacity entries },
    ghost room: { length entries.items ≤ capacity },
    ghost nonzero: { 0 < capacity },
    ghost limit: { capacity ≤ 8192 },
    ghost run: { IsRun first entries.items },
    ghost ends: { first + length entries.items ≤ 2 ^ 48 },
}

impl ListHistory {
    /// The index of the entry of this place, which must be there.
    fn index_of(&self, place: Place) -> usize
        requires { IsSome (entry_of self.now.entries.items place) }
        ensures within { result < length self.now.entries.items }
        ensures place { place ≡ self.now.first + result }
        ensures entry { slice_get self.now.entries.items result ≡ entry_of self.now.entries.items place }
    {
        (place.value() - self.first) as usize
    }

    /// The place of the first entry that has one of the 17 numbers from this one on.
    fn first_of_17(&self, first: u16) -> Option<Place>
        ensures { result ≡ first_place (λ (entry : HistoryEntry). is_of_17 first (number entry.place)) self.now.entries.items }
    {
        let entry = self
            .entries
            .iter()
            .find(|entry| entry.place.number().wrapping_sub(first) < 17)?;
        Some(entry.place)
    }
}

impl History for ListHistory {
    ghost use Rattle.std.specs.Prelude.{◌≡◌};
    ghost use Rattle.stores.specs.Past.{Past};
    ghost use Rattle.stores.specs.RunIsPast.{past_of_run};

    ghost meaning = { λ h. record { entries = h.entries.items; capacity = h.capacity } };

    ghost is_past = { λ h. past_of_run h.first h.entries.items h.capacity h.room h.nonzero h.limit h.run h.ends };

    fn new(alloc: Global, capacity: usize) -> Result<Self, OutOfMemory> {
        let entries = Vec::with_capacity(alloc, capacity)?;
        Ok(ListHistory {
            first: 0,
            entries,
            capacity,
        })
    }

    fn push_from(&mut self, place: Place, carried: &Carried<'_>) {
        make_room(&mut self.entries, self.capacity);
        self.first = place.value() - self.entries.len() as u64;
        self.entries.push_reserved(HistoryEntry {
            place,
            content: Content::of(carried),
            repeats: 0,
            marked: false,
        });
    }

    fn find(&self, number: u16) -> Option<Place> {
        let entry = self
            .entries
            .iter()
            .find(|entry| entry.place.number() == number)?;
        Some(entry.place)
    }

    fn has_none_of_17(&self, first: u16) -> bool {
        self.first_of_17(first).is_none()
    }

    fn get(&self, place: Place) -> &HistoryEntry {
        &self.entries[self.index_of(place)]
    }

    fn mark(&mut self, place: Place) {
        let index = self.index_of(place);
        self.entries[index].marked = true;
    }

    fn unmark(&mut self, place: Place) {
        let index = self.index_of(place);
        self.entries[index].marked = false;
    }

    fn least_marked(&self) -> Option<Place> {
        let entry = self.entries.iter().find(|entry| entry.marked)?;
        Some(entry.place)
    }

    fn count_repeat(&mut self, place: Place) {
        let index = self.index_of(place);
        let entry = &mut self.entries[index];
        entry.repeats += 1;
        entry.marked = false;
    }
}

/// Drops the oldest entry, if there are as many as there may be.
fn make_room(entries: &mut Vec<HistoryEntry>, capacity: usize)
    requires nonzero { 0 < capacity }
    requires room { length entries.old.items ≤ capacity }
    ensures items { entries.new.items ≡ drop (length entries.old.items + 1 - capacity) entries.old.items }
    ensures capacity { vec_capacity entries.new ≡ vec_capacity entries.old }
{
    if entries.len() == capacity {
        entries.remove(0);
    }
}
