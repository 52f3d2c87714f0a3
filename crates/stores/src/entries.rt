//! The entries of a ring history, which stay where they were first written.
ghost use Rattle.std.specs.Prelude.{◌≡◌, ◌+◌, ◌-◌, ◌<◌, ◌≤◌, [], ◌∷◌, ◌++◌, length, drop, slice_get, slice_set, IfOk, Some, IsSomeAnd};
ghost use Rattle.std.specs.Vec.{vec_capacity};
ghost use Rattle.circular_buffer.specs.Buffer.{buffer};
ghost use Rattle.stores.specs.Numbers.{AreNumbers};
ghost use Rattle.stores.specs.Entries.{AreEntries, entries_in};
ghost use Rattle.stores.specs.Past.{fresh, marked, unmarked, repeated, CanBeRepeated};

use crate::entry::HistoryEntry;
use crate::memory::OutOfMemory;
use crate::ring::append;
use circular_buffer::HeapCircularBuffer;
use places::Place;
use rtpwire::{Carried, Content};
use std::alloc::Global;
use std::marker::Model;

/// So many entries are looked at together, before they are written over: the memory of all of them comes in the time of one.
const AHEAD: u16 = 4;

/// Entries in a ring, whose memory is reserved once. Where there are as many as there may be, a new one is written over
/// the oldest. A contract sees them as a list, the oldest first.
///
/// What lies in the ring are their numbers: those are moved, and no entry is. A list of free numbers, as a ring window has
/// one, would be empty always, since an entry goes only where the next one takes its number.
#[derive(Debug, Drop)]
pub struct Entries {
    list: Vec<HistoryEntry>,
    // The entries' numbers in the list, that of the oldest first.
    order: HeapCircularBuffer<u16>,
    // What was last seen of the oldest entries, which are written over next. Nothing is told by it: they are looked at for their memory to be
    // fetched, several at once, as a write would wait for that of each.
    seen: usize,
}

impl Model for Entries {
    ghost use Rattle.std.specs.Vec.{vec_capacity};
    ghost use Rattle.circular_buffer.specs.Buffer.{Buffer, buffer};
    ghost use Rattle.stores.specs.declared.entry.HistoryEntry.{HistoryEntry};
    ghost use Rattle.stores.specs.Entries.{AreEntries, entries_in};

    ghost Value = { Buffer HistoryEntry };

    ghost view = { λ s. buffer (entries_in s.list.items s.order.items) s.order.capacity };

    ghost invariant = { λ s. AreEntries s.order s.list.items (vec_capacity s.list) };
}

impl Entries {
    /// No entries, and memory for so many.
    ///
    /// `OutOfMemory`: the allocator refused the memory.
    pub fn new(alloc: Global, capacity: usize) -> Result<Entries, OutOfMemory>
        requires nonzero { 0 < capacity }
        requires limit { capacity ≤ 8192 }
        ensures { IfOk result (λ entries. entries ≡ buffer [] capacity) }
    {
        let list = Vec::with_capacity(alloc, capacity)?;
        let order = HeapCircularBuffer::with_capacity(alloc, capacity)?;
        Ok(Entries {
            list,
            order,
            seen: 0,
        })
    }

    /// How many entries there are.
    pub fn len(&self) -> usize
        ensures len { result ≡ length self.now.items }
        ensures within { result ≤ self.now.capacity }
    {
        self.order.len()
    }

    /// How many there may be.
    pub fn capacity(&self) -> usize
        ensures { result ≡ self.now.capacity }
    {
        self.order.capacity()
    }

    /// The entry at this index, counted from the oldest.
    pub fn get(&self, index: usize) -> &HistoryEntry
        requires { index < length self.now.items }
        ensures { slice_get self.now.items index ≡ Some result.now }
    {
        let at = number_at(&self.order, index);
        &self.list[at]
    }

    /// Marks the entry at this index.
    pub fn mark(&mut self, index: usize)
        requires { index < length self.old.items }
        ensures { IsSomeAnd (slice_get self.old.items index)
            (λ entry. self.new ≡ buffer (slice_set self.old.items index (marked entry)) self.old.capacity) }
    {
        let at = number_at(&self.order, index);
        self.list[at].marked = true;
    }

    /// Takes the mark of the entry at this index away.
    pub fn unmark(&mut self, index: usize)
        requires { index < length self.old.items }
        ensures { IsSomeAnd (slice_get self.old.items index)
            (λ entry. self.new ≡ buffer (slice_set self.old.items index (unmarked entry)) self.old.capacity) }
    {
        let at = number_at(&self.order, index);
        self.list[at].marked = false;
    }

    /// Counts a retransmission of the entry at this index, and takes its mark away.
    pub fn count_repeat(&mut self, index: usize)
        requires within { index < length self.old.items }
        requires few { IsSomeAnd (slice_get self.old.items index) CanBeRepeated }
        ensures { IsSomeAnd (slice_get self.old.items index)
            (λ entry. self.new ≡ buffer (slice_set self.old.items index (repeated entry)) self.old.capacity) }
    {
        let at = number_at(&self.order, index);
        let entry = &mut self.list[at];
        entry.repeats += 1;
        entry.marked = false;
    }

    /// Adds the entry of a packet that was just sent. Where there are as many as there may be, it is written over the oldest.
    pub fn push(&mut self, place: Place, carried: &Carried<'_>)
        ensures { self.new ≡ buffer (drop (length self.old.items + 1 - self.old.capacity) self.old.items ++ fresh place carried.now ∷ []) self.old.capacity }
    {
        let number = free_number(&mut self.list, &mut self.order, place);
        append(&mut self.order, number);
        renew(&mut self.list[usize::from(number)], place, carried);
        self.seen = self.look_ahead(number);
    }

    /// Looks at the oldest entries, once for so many that are written. It stands behind the write of an entry, which then need not wait.
    fn look_ahead(&self, written: u16) -> usize {
        if written % AHEAD == 0 {
            self.seen_at(0) ^ self.seen_at(1) ^ self.seen_at(2) ^ self.seen_at(3)
        } else {
            self.seen
        }
    }

    /// How much the entry at this index holds, if there is one.
    fn seen_at(&self, index: usize) -> usize {
        if index < self.order.len() {
            lengths_of(self.get(index))
        } else {
            0
        }
    }
}

/// How much an entry holds, in no unit: it is looked at for its memory to be fetched.
fn lengths_of(entry: &HistoryEntry) -> usize {
    let content = &entry.content;
    let words = match &content.extension {
        Some(extension) => extension.words.len(),
        None => 0,
    };
    content.payload.len() ^ content.sources.len() ^ words
}

/// The number of the entry at this index.
fn number_at(order: &HeapCircularBuffer<u16>, index: usize) -> usize
    requires { index < length order.now.items }
    ensures { slice_get order.now.items index ≡ Some result }
{
    usize::from(*order.get(index).unwrap())
}

/// The number that the next entry gets: where the ring is full that of the oldest one, which goes, and else that of one more,
/// whose content is blanked here, as it is first used, and never again.
fn free_number(
    list: &mut Vec<HistoryEntry>,
    order: &mut HeapCircularBuffer<u16>,
    place: Place,
) -> u16
    requires { AreEntries order.old list.old.items (vec_capacity list.old) }
    ensures numbers { AreNumbers (order.new.items ++ result ∷ []) (length list.new.items) }
    ensures entries { entries_in list.new.items order.new.items ≡ drop (length order.old.items + 1 - order.old.capacity) (entries_in list.old.items order.old.items) }
    ensures room { length list.new.items ≤ order.old.capacity }
    ensures order_capacity { order.new.capacity ≡ order.old.capacity }
    ensures list_capacity { vec_capacity list.new ≡ vec_capacity list.old }
{
    if order.is_full() {
        return order.pop_front().unwrap();
    }
    let number = list.len() as u16;
    list.push_reserved(HistoryEntry {
        place,
        content: Content::blank(),
        repeats: 0,
        marked: false,
    });
    number
}

/// Makes it the entry of a packet that was just sent.
fn renew(entry: &mut HistoryEntry, place: Place, carried: &Carried<'_>)
    ensures { entry.new ≡ fresh place carried.now }
{
    entry.place = place;
    entry.content.fill(carried);
    entry.repeats = 0;
    entry.marked = false;
}
