ghost use Rattle.std.specs.Prelude.{◌≡◌, ℕ, ◌+◌, ◌^◌, ◌<◌, ◌≤◌, ◌++◌, length, take, drop, replicate, slice_get, vec_len, Some};
ghost use Rattle.std.specs.Vec.{vec_capacity};
ghost use Rattle.std.specs.Option.{ForSome, ForNone};
ghost use Rattle.std.specs.List.{filter, range_with_len};
ghost use Rattle.stores.specs.Put.{noticed_at};
ghost use Rattle.stores.specs.ByPlace.{slot_from};
ghost use Rattle.stores.specs.Asking.{longest_ask, is_due, is_missing, has_come, any_below};

use crate::ask_rule::{AskRule, sooner};
use crate::memory::OutOfMemory;
use crate::slot::{PutFault, Slot, SlotRef};
use crate::spot::{Spot, spot_of};
use crate::window::{LONGEST_ASK, Window};
use arrayvec::ArrayVec;
use places::Place;
use rtpwire::{Carried, Content};
use std::alloc::Global;

/// A window in a plain list, whose memory is reserved once.
///
/// A place is found by its index. Taking out the front and overruns move the slots that stay.
#[derive(Debug, Drop)]
pub struct ListWindow {
    cursor: Option<u64>,
    slots: Vec<Slot>,
    capacity: usize,
    ghost reserved: { capacity ≤ vec_capacity slots },
    ghost room: { length slots.items ≤ capacity },
    ghost nonzero: { 0 < capacity },
    ghost limit: { capacity ≤ 8192 },
    ghost unstarted: { ForNone cursor (length slots.items ≡ 0) },
    ghost started: { ForSome cursor (λ k. (0 < k + length slots.items) × (k + length slots.items ≤ 2 ^ 48)) },
}

impl Window for ListWindow {
    ghost use Rattle.std.specs.Prelude.{◌≡◌};
    ghost use Rattle.stores.specs.Span.{Span};

    ghost meaning = { λ w. record { cursor = w.cursor; slots = w.slots.items; capacity = w.capacity } };

    ghost is_span = { λ w. record { room = w.room; nonzero = w.nonzero; limit = w.limit; unstarted = w.unstarted; started = w.started } };

    fn new(alloc: Global, capacity: usize) -> Result<Self, OutOfMemory> {
        let slots = Vec::with_capacity(alloc, capacity)?;
        Ok(ListWindow {
            cursor: None,
            slots,
            capacity,
        })
    }

    fn begin(&mut self, first: Place) -> bool {
        if self.cursor.is_some() || first.value() == 0 {
            return false;
        }
        self.cursor = Some(first.value());
        true
    }

    fn clear(&mut self) {
        self.cursor = None;
        self.slots.clear();
    }

    fn cursor(&self) -> Option<u64> {
        self.cursor
    }

    fn highest(&self) -> Option<Place> {
        let end = self.cursor? + self.slots.len() as u64;
        Place::new(end - 1)
    }

    fn put_from(&mut self, place: Place, carried: &Carried<'_>, now: u64) -> Result<u64, PutFault> {
        let place = place.value();
        let Some(cursor) = self.cursor else {
            self.cursor = Some(place);
            self.slots.push_reserved(Slot::Held(Content::of(carried)));
            return Ok(0);
        };
        match spot_of(cursor, self.slots.len(), self.capacity, place) {
            Spot::Below => Err(PutFault::Late),
            Spot::Within(index) => {
                let slot = &mut self.slots[index];
                match slot {
                    Slot::Held(_) => Err(PutFault::Duplicate),
                    Slot::Missing { .. } => {
                        *slot = Slot::Held(Content::of(carried));
                        Ok(0)
                    }
                }
            }
            Spot::Above { overrun, unseen } => {
                drop_front(&mut self.slots, overrun);
                add_missing(&mut self.slots, unseen, now);
                self.slots.push_reserved(Slot::Held(Content::of(carried)));
                self.cursor = Some(cursor + overrun);
                Ok(overrun)
            }
        }
    }

    fn front(&self) -> Option<SlotRef<'_>> {
        Some(SlotRef::of_slot(self.slots.first()?))
    }

    fn take_front(&mut self) -> Slot {
        let slot = self.slots.remove(0);
        if let Some(cursor) = self.cursor {
            self.cursor = Some(cursor + 1);
        }
        slot
    }

    fn drop_front(&mut self) {
        drop_front(&mut self.slots, 1);
        if let Some(cursor) = self.cursor {
            self.cursor = Some(cursor + 1);
        }
    }

    fn slot(&self, place: Place) -> Option<SlotRef<'_>> {
        let index = place.value().checked_sub(self.cursor?)?;
        Some(SlotRef::of_slot(self.slots.get(index as usize)?))
    }

    fn due_into(&self, due: &mut ArrayVec<Place, LONGEST_ASK>, now: u64, rule: AskRule) {
        match self.cursor {
            None => due.clear(),
            Some(cursor) => due_from(due, cursor, self.slots.as_slice(), now, rule),
        }
    }

    fn next_due(&self, rule: AskRule) -> Option<u64> {
        next_among(self.slots.as_slice(), rule)
    }

    fn count_ask(&mut self, place: Place, now: u64) {
        let Some(cursor) = self.cursor else {
            return;
        };
        let index = (place.value() - cursor) as usize;
        if let Slot::Missing { asks, last, .. } = &mut self.slots[index] {
            *asks += 1;
            *last = now;
        }
    }

    fn missing(&self) -> usize {
        count_missing(self.slots.as_slice())
    }
}

/// Finds the first due places of these slots, of which the first is that of the place `first`.
fn due_from(
    due: &mut ArrayVec<Place, LONGEST_ASK>,
    first: u64,
    slots: &[Slot],
    now: u64,
    rule: AskRule,
)
    requires { first + length slots.now ≤ 2 ^ 48 }
    ensures { due.new.items ≡ take longest_ask (filter (λ q. is_due now rule.delay rule.retry rule.asks (slot_from first slots.now q)) (range_with_len first (length slots.now))) }
{
    due.clear();
    for (index, slot) in slots.iter().enumerate() {
        if due.is_full() {
            return;
        }
        if slot.is_due(now, rule) {
            due.push(Place::new(first + index as u64).unwrap());
        }
    }
}

/// The least moment from which on one of these slots is due.
fn next_among(slots: &[Slot], rule: AskRule) -> Option<u64>
    ensures { (now : ℕ) → now < 2 ^ 64 → has_come result now ≡ any_below (λ i. is_due now rule.delay rule.retry rule.asks (slice_get slots.now i)) (length slots.now) }
{
    let mut least = None;
    for slot in slots {
        least = sooner(least, SlotRef::of_slot(slot).due_from(rule));
    }
    least
}

/// How many of these slots are missing.
fn count_missing(slots: &[Slot]) -> usize
    ensures { result ≡ length (filter (λ slot. is_missing (Some slot)) slots.now) }
{
    slots.iter().filter(|slot| slot.is_missing()).count()
}

/// Drops the first slots, as many as there are of so many.
fn drop_front(slots: &mut Vec<Slot>, count: u64)
    ensures items { slots.new.items ≡ drop count slots.old.items }
    ensures capacity { vec_capacity slots.new ≡ vec_capacity slots.old }
{
    let count = count.min(slots.len() as u64) as usize;
    slots.drain(..count);
}

/// Appends so many slots of places that were noticed to be missing now.
fn add_missing(slots: &mut Vec<Slot>, count: u64, now: u64)
    requires { vec_len slots.old + count ≤ vec_capacity slots.old }
    ensures items { slots.new.items ≡ slots.old.items ++ replicate count (noticed_at now) }
    ensures capacity { vec_capacity slots.new ≡ vec_capacity slots.old }
{
    'added: for _ in 0..count {
        slots.push_reserved(Slot::Missing {
            noticed: now,
            asks: 0,
            last: 0,
        });
    }
}
