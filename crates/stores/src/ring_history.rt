ghost use Rattle.std.specs.Prelude.{◌≡◌, ℕ, ◌+◌, ◌-◌, ◌/◌, ◌^◌, ◌<◌, ◌≤◌, true, false, IsSome, MatchOption, length, drop, slice_get};
ghost use Rattle.stores.specs.Past.{IsRun, entry_of};
ghost use Rattle.stores.specs.PastByPlace.{is_marked};
ghost use Rattle.stores.specs.Bits.{bits_of, HasNoneBelow, is_member, IsSetOf};

use crate::bits::Bits;
use crate::entries::Entries;
use crate::entry::HistoryEntry;
use crate::history::History;
use crate::memory::OutOfMemory;
use places::Place;
use rtpwire::Carried;
use std::alloc::Global;

/// A history in a ring, whose memory is reserved once.
///
/// No content moves: the newest entry is written over the oldest, where that goes. An entry is found by its place or its number without a look at any
/// other, and the least mark by a set of bits.
#[derive(Debug, Drop)]
pub struct RingHistory {
    // The place of the oldest entry, where there is one.
    first: u64,
    entries: Entries,
    // The marked entries, by how far they are from the oldest one.
    marks: Bits,
    // No entry below this one is marked, so the least mark is found without a walk over all that were taken away before.
    lowest: usize,
    ghost room: { length entries.items ≤ entries.capacity },
    ghost nonzero: { 0 < entries.capacity },
    ghost limit: { entries.capacity ≤ 8192 },
    ghost run: { IsRun first entries.items },
    ghost ends: { first + length entries.items ≤ 2 ^ 48 },
    ghost wide: { entries.capacity < bits_of marks.words.items },
    ghost exact: { length marks.words.items ≡ entries.capacity / 64 + 1 },
    ghost agree: { IsSetOf is_marked marks.words.items marks.front entries.items },
    ghost bounded: { lowest ≤ bits_of marks.words.items },
    ghost low: { HasNoneBelow marks.words.items marks.front lowest },
}

impl RingHistory {
    /// How far the entry of this place, which must be there, is from the oldest one.
    fn index_of(&self, place: Place) -> usize
        requires { IsSome (entry_of self.now.entries.items place) }
        ensures within { result < length self.now.entries.items }
        ensures place { place ≡ self.now.first + result }
        ensures entry { slice_get self.now.entries.items result ≡ entry_of self.now.entries.items place }
    {
        (place.value() - self.first) as usize
    }
}

impl History for RingHistory {
    ghost use Rattle.std.specs.Prelude.{◌≡◌};
    ghost use Rattle.stores.specs.Past.{Past};
    ghost use Rattle.stores.specs.RunIsPast.{past_of_run};

    ghost meaning = { λ h. record { entries = h.entries.items; capacity = h.entries.capacity } };

    ghost is_past = { λ h. past_of_run h.first h.entries.items h.entries.capacity h.room h.nonzero h.limit h.run h.ends };

    fn new(alloc: Global, capacity: usize) -> Result<Self, OutOfMemory> {
        let entries = Entries::new(alloc, capacity)?;
        let marks = Bits::new(alloc, capacity)?;
        Ok(RingHistory {
            first: 0,
            entries,
            marks,
            lowest: 0,
        })
    }

    fn push_from(&mut self, place: Place, carried: &Carried<'_>) {
        self.lowest = make_room(&self.entries, &mut self.marks, self.lowest);
        self.entries.push(place, carried);
        self.first = place.value() + 1 - self.entries.len() as u64;
    }

    fn find(&self, number: u16) -> Option<Place> {
        let ahead = number.wrapping_sub((self.first % 65536) as u16);
        if usize::from(ahead) < self.entries.len() {
            Place::new(self.first + u64::from(ahead))
        } else {
            None
        }
    }

    fn has_none_of_17(&self, first: u16) -> bool {
        let len = self.entries.len();
        if len == 0 {
            return true;
        }
        // How far the first number is ahead of the oldest entry's. The last one must not come round to that entry.
        let ahead = usize::from(first.wrapping_sub((self.first % 65536) as u16));
        if ahead < len {
            return false;
        }
        ahead < 65536 - 16
    }

    fn get(&self, place: Place) -> &HistoryEntry {
        self.entries.get(self.index_of(place))
    }

    fn mark(&mut self, place: Place) {
        let index = self.index_of(place);
        self.entries.mark(index);
        self.marks.set(index);
        self.lowest = self.lowest.min(index);
    }

    fn unmark(&mut self, place: Place) {
        let index = self.index_of(place);
        self.entries.unmark(index);
        self.marks.clear(index);
        self.lowest = raised(&self.marks, self.lowest);
    }

    fn least_marked(&self) -> Option<Place> {
        let index = least(&self.marks, self.lowest)?;
        Place::new(self.first + index as u64)
    }

    fn count_repeat(&mut self, place: Place) {
        let index = self.index_of(place);
        self.entries.count_repeat(index);
        self.marks.clear(index);
        self.lowest = raised(&self.marks, self.lowest);
    }
}

/// Takes the oldest entry's mark away, where a push drops that entry. It answers below which entry none is marked then.
fn make_room(entries: &Entries, marks: &mut Bits, lowest: usize) -> usize
    requires nonzero { 0 < entries.now.capacity }
    requires room { length entries.now.items ≤ entries.now.capacity }
    requires wide { entries.now.capacity < bits_of marks.old.words.items }
    requires agree { IsSetOf is_marked marks.old.words.items marks.old.front entries.now.items }
    requires bounded { lowest ≤ bits_of marks.old.words.items }
    requires low { HasNoneBelow marks.old.words.items marks.old.front lowest }
    ensures wide { length marks.new.words.items ≡ length marks.old.words.items }
    ensures agree { IsSetOf is_marked marks.new.words.items marks.new.front (drop (length entries.now.items + 1 - entries.now.capacity) entries.now.items) }
    ensures bounded { result ≤ lowest }
    ensures low { HasNoneBelow marks.new.words.items marks.new.front result }
{
    if entries.len() == entries.capacity() {
        marks.shift();
        lowest.saturating_sub(1)
    } else {
        lowest
    }
}

/// The least position of a set that has none below this one.
fn least(marks: &Bits, lowest: usize) -> Option<usize>
    requires bounded { lowest ≤ bits_of marks.now.words.items }
    requires low { HasNoneBelow marks.now.words.items marks.now.front lowest }
    ensures { MatchOption result
        ((p : ℕ) → p < bits_of marks.now.words.items → is_member marks.now.words.items marks.now.front p ≡ false)
        (λ first. (first < bits_of marks.now.words.items) × (is_member marks.now.words.items marks.now.front first ≡ true) × HasNoneBelow marks.now.words.items marks.now.front first) }
{
    marks.first(lowest, marks.bound())
}

/// Below which entry none is marked, found by a look at one word: where none is at all, below the bound; else up to the next one that is,
/// or the end of its word.
fn raised(marks: &Bits, lowest: usize) -> usize
    requires bounded { lowest ≤ bits_of marks.now.words.items }
    requires low { HasNoneBelow marks.now.words.items marks.now.front lowest }
    ensures bounded { result ≤ bits_of marks.now.words.items }
    ensures low { HasNoneBelow marks.now.words.items marks.now.front result }
{
    if marks.count() == 0 {
        return marks.bound();
    }
    if lowest >= marks.bound() {
        return lowest;
    }
    marks.first_in_run(lowest)
}
