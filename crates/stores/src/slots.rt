//! The slots of a ring window: a ring of small cells, and their contents in a pool.
ghost use Rattle.std.specs.Prelude.{◌≡◌, ℕ, ◌+◌, ◌^◌, ◌<◌, ◌≤◌, true, [], ◌∷◌, ◌++◌, length, take, drop, slice_get, slice_set, IfOk, Some, IsSomeAnd};
ghost use Rattle.std.specs.Option.{option_map};
ghost use Rattle.circular_buffer.specs.Buffer.{buffer};
ghost use Rattle.stores.specs.declared.cell.Cell.TheVariants.{Taken};
ghost use Rattle.stores.specs.declared.slot.Slot.TheVariants.{Held};
ghost use Rattle.stores.specs.Put.{noticed_at};
ghost use Rattle.stores.specs.Lent.{slot_of};
ghost use Rattle.std.specs.Vec.{vec_capacity};
ghost use Rattle.stores.specs.declared.ask_rule.AskRule.{AskRule};
ghost use Rattle.stores.specs.DueBy.{IsDueBy};
ghost use Rattle.stores.specs.Asking.{is_due, is_missing, has_come, CanBeAsked, asked_at};
ghost use Rattle.stores.specs.Pool.{freed, numbers_of, CanCellBeAsked, asked_cell};

use crate::ask_rule::{AskRule, DueBy};
use crate::cell::Cell;
use crate::memory::OutOfMemory;
use crate::pool::{fill_free, grow};
use crate::ring::append;
use crate::slot::{Slot, SlotRef};
use circular_buffer::HeapCircularBuffer;
use rtpwire::{Carried, Content};
use std::alloc::Global;
use std::marker::Model;

/// Slots in a ring, whose memory is reserved once. A contract sees them as the ring of whole slots that they stand for.
#[derive(Debug, Drop)]
pub struct Slots {
    cells: HeapCircularBuffer<Cell>,
    contents: Vec<Content>,
    // The numbers of the contents' buffers that no cell uses.
    free: Vec<u16>,
}

impl Model for Slots {
    ghost use Rattle.std.specs.Vec.{vec_capacity};
    ghost use Rattle.circular_buffer.specs.Buffer.{Buffer, buffer};
    ghost use Rattle.stores.specs.declared.slot.Slot.{Slot};
    ghost use Rattle.stores.specs.Pool.{slots_in, AreSlots};

    ghost Value = { Buffer Slot };

    ghost view = { λ s. buffer (slots_in s.contents.items s.cells.items) s.cells.capacity };

    ghost invariant = { λ s. AreSlots s.cells s.contents.items s.free.items (vec_capacity s.contents) (vec_capacity s.free) };
}

impl Slots {
    /// No slots, and memory for so many.
    ///
    /// `OutOfMemory`: the allocator refused the memory.
    pub fn new(alloc: Global, capacity: usize) -> Result<Slots, OutOfMemory>
        requires { capacity ≤ 8192 }
        ensures { IfOk result (λ slots. slots ≡ buffer [] capacity) }
    {
        let cells = HeapCircularBuffer::with_capacity(alloc, capacity)?;
        let contents = Vec::with_capacity(alloc, capacity)?;
        let free = Vec::with_capacity(alloc, capacity)?;
        Ok(Slots {
            cells,
            contents,
            free,
        })
    }

    /// How many slots there are.
    pub fn len(&self) -> usize
        ensures len { result ≡ length self.now.items }
        ensures within { result ≤ self.now.capacity }
    {
        self.cells.len()
    }

    /// How many there may be.
    pub fn capacity(&self) -> usize
        ensures { result ≡ self.now.capacity }
    {
        self.cells.capacity()
    }

    /// The slot at this index, counted from the front.
    pub fn get(&self, index: usize) -> Option<SlotRef<'_>>
        ensures { option_map slot_of result ≡ slice_get self.now.items index }
    {
        match self.cells.get(index)? {
            Cell::Taken(number) => { Some(SlotRef::Held(&self.contents[usize::from(*number)])) }
            Cell::Unseen {
                noticed,
                asks,
                last,
            } => Some(SlotRef::Missing {
                noticed: *noticed,
                asks: *asks,
                last: *last,
            }),
        }
    }

    /// Whether the place of the slot at this index is one of these that are due.
    pub fn is_due(&self, index: usize, by: DueBy) -> bool
        requires { index < length self.now.items }
        ensures { (now : ℕ) (rule : AskRule) → IsDueBy by now rule → result ≡ is_due now rule.delay rule.retry rule.asks (slice_get self.now.items index) }
    {
        self.cells.get(index).unwrap().is_due(by)
    }

    /// The moment from which on it is due by the rule, where nothing changes until then. None where there is no such moment.
    pub fn due_from(&self, index: usize, rule: AskRule) -> Option<u64>
        requires { index < length self.now.items }
        ensures { (now : ℕ) → now < 2 ^ 64 → is_due now rule.delay rule.retry rule.asks (slice_get self.now.items index) ≡ has_come result now }
    {
        self.cells.get(index).unwrap().due_from(rule)
    }

    /// Appends the slot of a place that was noticed to be missing now.
    pub fn append_missing(&mut self, now: u64)
        requires { length self.old.items < self.old.capacity }
        ensures { self.new ≡ buffer (self.old.items ++ noticed_at now ∷ []) self.old.capacity }
    {
        let cell = Cell::Unseen {
            noticed: now,
            asks: 0,
            last: 0,
        };
        append(&mut self.cells, cell);
    }

    /// Appends the slot of a place that is held.
    pub fn append_held(&mut self, carried: &Carried<'_>)
        requires { length self.old.items < self.old.capacity }
        ensures { self.new ≡ buffer (self.old.items ++ Held carried.now ∷ []) self.old.capacity }
    {
        grow(&mut self.contents, &mut self.free);
        let number = fill_free(&mut self.contents, &mut self.free, carried);
        append(&mut self.cells, Cell::Taken(number));
    }

    /// Makes the slot at this index, which is missing, one that is held.
    pub fn hold(&mut self, index: usize, carried: &Carried<'_>)
        requires { is_missing (slice_get self.old.items index) ≡ true }
        ensures { self.new ≡ buffer (slice_set self.old.items index (Held carried.now)) self.old.capacity }
    {
        grow(&mut self.contents, &mut self.free);
        let number = fill_free(&mut self.contents, &mut self.free, carried);
        *self.cells.get_mut(index).unwrap() = Cell::Taken(number);
    }

    /// Drops the first slot. The buffer of its content, if it has one, is the next one used.
    pub fn drop_first(&mut self)
        requires { 0 < length self.old.items }
        ensures { self.new ≡ buffer (drop 1 self.old.items) self.old.capacity }
    {
        free_first(&self.cells, &mut self.free);
        drop_first(&mut self.cells);
    }

    /// Drops so many of the first slots. The buffers of their contents, of those that have one, are the next ones used.
    pub fn drop_many(&mut self, count: usize)
        requires { count ≤ length self.old.items }
        ensures { self.new ≡ buffer (drop count self.old.items) self.old.capacity }
    {
        free_many(&self.cells, &mut self.free, count);
        drop_many(&mut self.cells, count);
    }

    /// Drops all slots. The buffers of their contents are made anew as they are used.
    pub fn clear(&mut self)
        ensures { self.new ≡ buffer [] self.old.capacity }
    {
        self.cells.clear();
        self.contents.clear();
        self.free.clear();
    }

    /// Takes the first slot out.
    pub fn take_first(&mut self) -> Slot
        requires { 0 < length self.old.items }
        ensures slot { slice_get self.old.items 0 ≡ Some result }
        ensures rest { self.new ≡ buffer (drop 1 self.old.items) self.old.capacity }
    {
        let slot = self.get(0).unwrap().to_slot();
        self.drop_first();
        slot
    }

    /// Counts one more ask for the slot at this index, made at the moment `now`.
    pub fn count_ask(&mut self, index: usize, now: u64)
        requires { IsSomeAnd (slice_get self.old.items index) CanBeAsked }
        ensures { self.new ≡ buffer (asked_at self.old.items index now (slice_get self.old.items index)) self.old.capacity }
    {
        ask_cell(self.cells.get_mut(index).unwrap(), now);
    }
}

/// Frees the buffer of the first cell, if it has one.
fn free_first(cells: &HeapCircularBuffer<Cell>, free: &mut Vec<u16>)
    requires { (n : ℕ) → slice_get cells.now.items 0 ≡ Some (Taken n) → length free.old.items < vec_capacity free.old }
    ensures free { free.new.items ≡ freed free.old.items (slice_get cells.now.items 0) }
    ensures capacity { vec_capacity free.new ≡ vec_capacity free.old }
{
    if let Some(cell) = cells.front() {
        free_cell(cell, free);
    }
}

/// Frees the buffers of the first cells, so many of them, where they have one.
fn free_many(cells: &HeapCircularBuffer<Cell>, free: &mut Vec<u16>, count: usize)
    requires there { count ≤ length cells.now.items }
    requires room { length free.old.items + length (numbers_of (take count cells.now.items)) ≤ vec_capacity free.old }
    ensures free { free.new.items ≡ free.old.items ++ numbers_of (take count cells.now.items) }
    ensures capacity { vec_capacity free.new ≡ vec_capacity free.old }
{
    'freed: for index in 0..count {
        free_cell(cells.get(index).unwrap(), free);
    }
}

/// Frees the buffer of a cell, if it has one.
fn free_cell(cell: &Cell, free: &mut Vec<u16>)
    requires { (n : ℕ) → cell.now ≡ Taken n → length free.old.items < vec_capacity free.old }
    ensures free { free.new.items ≡ freed free.old.items (Some cell.now) }
    ensures capacity { vec_capacity free.new ≡ vec_capacity free.old }
{
    if let Cell::Taken(number) = cell {
        free.push_reserved(*number);
    }
}

/// Counts one more ask for a place that was not taken, made at the moment `now`.
fn ask_cell(cell: &mut Cell, now: u64)
    requires { CanCellBeAsked cell.old }
    ensures { cell.new ≡ asked_cell now cell.old }
{
    if let Cell::Unseen { asks, last, .. } = cell {
        *asks += 1;
        *last = now;
    }
}

/// Drops the first cell of a ring that is not empty. It stays where it was in memory.
fn drop_first(ring: &mut HeapCircularBuffer<Cell>)
    requires { 0 < length ring.old.items }
    ensures items { ring.new.items ≡ drop 1 ring.old.items }
    ensures capacity { ring.new.capacity ≡ ring.old.capacity }
{
    ring.truncate_front(ring.len() - 1);
}

/// Drops so many of the first cells of a ring.
fn drop_many(ring: &mut HeapCircularBuffer<Cell>, count: usize)
    requires { count ≤ length ring.old.items }
    ensures items { ring.new.items ≡ drop count ring.old.items }
    ensures capacity { ring.new.capacity ≡ ring.old.capacity }
{
    ring.truncate_front(ring.len() - count);
}
