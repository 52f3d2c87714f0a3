ghost use Rattle.std.specs.Prelude.{◌≡◌, ◌+◌, ◌/◌, ◌^◌, ◌<◌, ◌≤◌, ◌++◌, [], length, drop, take, replicate, IsSome, IsSomeAnd};
ghost use Rattle.std.specs.Option.{ForSome, ForNone};
ghost use Rattle.stores.specs.Span.{span_of};
ghost use Rattle.stores.specs.Asking.{longest_ask, due_places};
ghost use Rattle.stores.specs.declared.ask_rule.AskRule.{AskRule};
ghost use Rattle.stores.specs.Put.{noticed_at};
ghost use Rattle.stores.specs.Bits.{bits_of};
ghost use Rattle.stores.specs.Index.{IsIndex};
ghost use Rattle.stores.specs.Foreseen.{IsSoonest, Tells};
ghost use Rattle.stores.specs.Bound.{AreBounds};

use crate::ask_rule::AskRule;
use crate::bits::Bits;
use crate::due::blocks::{forget, note_missing};
use crate::due::bound::{Bound, has_come};
use crate::due::by_blocks::{Wanted, find_due, next_by_blocks};
use crate::due::counting::count_each;
use crate::due::foreseen::{Foreseen, Soonest, soonest_moment};
use crate::due::keeping::{beside, with_change, with_jump, without_front};
use crate::due::plain::{due_among, next_among};
use crate::memory::OutOfMemory;
use crate::slot::{PutFault, Slot, SlotRef};
use crate::slots::Slots;
use crate::spot::{Spot, spot_of};
use crate::window::{LONGEST_ASK, Window};
use arrayvec::ArrayVec;
use places::Place;
use rtpwire::Carried;
use std::alloc::Global;

/// A window in a ring, whose memory is reserved once.
///
/// Nothing moves when the front is taken out. A set of bits tells which places are missing, so `due` and
/// `missing` look at no other.
#[derive(Debug, Drop)]
pub struct RingWindow {
    cursor: Option<u64>,
    slots: Slots,
    // The missing places, by how far they are from the cursor.
    missing: Bits,
    // From when on the missing places of each word of those bits may be due by the rule below.
    bounds: Vec<Bound>,
    rule: AskRule,
    // What was found last of when a place is due, for as long as that can be told to hold.
    kept: Option<Foreseen>,
    ghost room: { length slots.items ≤ slots.capacity },
    ghost nonzero: { 0 < slots.capacity },
    ghost limit: { slots.capacity ≤ 8192 },
    ghost unstarted: { ForNone cursor (length slots.items ≡ 0) },
    ghost started: { ForSome cursor (λ k. (0 < k + length slots.items) × (k + length slots.items ≤ 2 ^ 48)) },
    ghost wide: { slots.capacity < bits_of missing.words.items },
    ghost exact: { length missing.words.items ≡ slots.capacity / 64 + 1 },
    ghost index: { IsIndex missing.words.items missing.front slots.items },
    ghost blocks: { length bounds.items ≡ length missing.words.items },
    ghost bound: { AreBounds rule bounds.items missing.front slots.items },
    ghost told: { ForSome kept (λ answer. Tells answer slots.items) },
}

impl RingWindow {
    /// What is kept, if it is by this rule.
    fn kept_by(&self, rule: AskRule) -> Option<Foreseen>
        ensures rule { ForSome result (λ answer. answer.rule ≡ rule) }
        ensures told { ForSome result (λ answer. Tells answer self.now.slots.items) }
    {
        let answer = self.kept?;
        if answer.rule == rule {
            Some(answer)
        } else {
            None
        }
    }

    /// Makes the bounds those by this rule. Where they were by another one, nothing is known of any block.
    fn follow(&mut self, rule: AskRule)
        ensures rule { self.new.rule ≡ rule }
        ensures cursor { self.new.cursor ≡ self.old.cursor }
        ensures slots { self.new.slots ≡ self.old.slots }
    {
        if self.rule != rule {
            forget(&mut self.bounds);
            self.rule = rule;
        }
    }

    /// The least moment from which on a slot is due by this rule, and such a slot.
    fn soonest(&self, rule: AskRule) -> Option<Soonest>
        ensures { IsSoonest rule result self.now.slots.items (length self.now.slots.items) }
    {
        if self.missing.count() == 0 {
            return None;
        }
        match self.kept_by(rule) {
            Some(answer) => answer.soonest,
            None if self.rule == rule => next_by_blocks(
                &self.slots,
                &self.missing,
                &self.bounds,
                rule,
            ),
            None => next_among(&self.slots, &self.missing, rule),
        }
    }
}

impl Window for RingWindow {
    ghost use Rattle.std.specs.Prelude.{◌≡◌};
    ghost use Rattle.stores.specs.Span.{Span};

    ghost meaning = { λ w. record { cursor = w.cursor; slots = w.slots.items; capacity = w.slots.capacity } };

    ghost is_span = { λ w. record { room = w.room; nonzero = w.nonzero; limit = w.limit; unstarted = w.unstarted; started = w.started } };

    fn new(alloc: Global, capacity: usize) -> Result<Self, OutOfMemory> {
        let slots = Slots::new(alloc, capacity)?;
        let missing = Bits::new(alloc, capacity)?;
        let bounds = vec![in alloc; Bound::UNKNOWN; capacity / 64 + 1]?;
        let rule = AskRule {
            delay: 0,
            retry: 0,
            asks: 0,
        };
        Ok(RingWindow {
            cursor: None,
            slots,
            missing,
            bounds,
            rule,
            kept: None,
        })
    }

    fn begin(&mut self, first: Place) -> bool {
        if self.cursor.is_some() || first.value() == 0 {
            return false;
        }
        self.cursor = Some(first.value());
        true
    }

    fn clear(&mut self) {
        self.cursor = None;
        self.slots.clear();
        self.missing.clear_all();
        self.kept = None;
    }

    fn cursor(&self) -> Option<u64> {
        self.cursor
    }

    fn highest(&self) -> Option<Place> {
        let end = self.cursor? + self.slots.len() as u64;
        Place::new(end - 1)
    }

    fn put_from(&mut self, place: Place, carried: &Carried<'_>, now: u64) -> Result<u64, PutFault> {
        let place = place.value();
        let Some(cursor) = self.cursor else {
            self.cursor = Some(place);
            self.slots.append_held(carried);
            return Ok(0);
        };
        match spot_of(cursor, self.slots.len(), self.slots.capacity(), place) {
            Spot::Below => Err(PutFault::Late),
            Spot::Within(index) => {
                if !self.missing.contains(index) {
                    return Err(PutFault::Duplicate);
                }
                self.kept = beside(self.kept, &self.slots, &self.missing, index);
                self.slots.hold(index, carried);
                self.missing.clear(index);
                self.kept = with_change(self.kept, &self.slots, index);
                Ok(0)
            }
            Spot::Above { overrun, unseen } => {
                self.kept = with_jump(self.kept, self.slots.len(), overrun, unseen, now);
                drop_front(&mut self.slots, &mut self.missing, &self.bounds, overrun);
                add_missing(
                    &mut self.slots,
                    &mut self.missing,
                    &mut self.bounds,
                    unseen,
                    now,
                    self.rule,
                );
                self.slots.append_held(carried);
                self.cursor = Some(cursor + overrun);
                Ok(overrun)
            }
        }
    }

    fn front(&self) -> Option<SlotRef<'_>> {
        self.slots.get(0)
    }

    fn take_front(&mut self) -> Slot {
        self.kept = without_front(self.kept, 1);
        let slot = self.slots.take_first();
        self.missing.shift();
        if let Some(cursor) = self.cursor {
            self.cursor = Some(cursor + 1);
        }
        slot
    }

    fn drop_front(&mut self) {
        self.kept = without_front(self.kept, 1);
        self.slots.drop_first();
        self.missing.shift();
        if let Some(cursor) = self.cursor {
            self.cursor = Some(cursor + 1);
        }
    }

    fn slot(&self, place: Place) -> Option<SlotRef<'_>> {
        let index = place.value().checked_sub(self.cursor?)?;
        self.slots.get(index as usize)
    }

    fn due_into(&self, due: &mut ArrayVec<Place, LONGEST_ASK>, now: u64, rule: AskRule) {
        match self.cursor {
            None => due.clear(),
            Some(cursor) => due_among(due, cursor, &self.slots, &self.missing, now, rule),
        }
    }

    fn find_due(&mut self, due: &mut [Place], now: u64, rule: AskRule) -> usize
        ensures due { take result due.new ≡ take (length due.old) (take longest_ask (due_places (span_of self.old.cursor self.old.slots) now rule.delay rule.retry rule.asks)) }
        ensures within { result ≤ length due.old }
        ensures len { length due.new ≡ length due.old }
        ensures same { span_of self.new.cursor self.new.slots ≡ span_of self.old.cursor self.old.slots }
        // What is found where none is due is kept, so that nothing is looked for until that changes.
        ensures kept { 0 < length due.old → IsSome self.old.cursor → result ≡ 0 → IsSomeAnd self.new.kept (λ answer. answer.rule ≡ rule) }
    {
        let Some(cursor) = self.cursor else {
            return 0;
        };
        self.follow(rule);
        let room = due.len().min(LONGEST_ASK);
        let (count, found) = find_due(
            &mut due[..room],
            cursor,
            &self.slots,
            &self.missing,
            &mut self.bounds,
            Wanted::new(now, rule),
        );
        self.kept = match found {
            Some(soonest) => Some(Foreseen { rule, soonest }),
            None => None,
        };
        count
    }

    fn next_due(&self, rule: AskRule) -> Option<u64> {
        soonest_moment(self.soonest(rule))
    }

    fn has_none_due(&self, now: u64, rule: AskRule) -> bool {
        match self.kept_by(rule) {
            Some(answer) => !has_come(soonest_moment(answer.soonest), now),
            None => false,
        }
    }

    fn count_ask(&mut self, place: Place, now: u64) {
        self.count_asks(&[place], now);
    }

    fn count_asks(&mut self, places: &[Place], now: u64) {
        let Some(cursor) = self.cursor else {
            return;
        };
        self.kept = None;
        count_each(
            cursor,
            &mut self.slots,
            &self.missing,
            &mut self.bounds,
            places,
            now,
            self.rule,
        );
    }

    fn missing(&self) -> usize {
        self.missing.count()
    }
}

/// Drops the first slots, as many as there are of so many.
fn drop_front(slots: &mut Slots, missing: &mut Bits, bounds: &Vec<Bound>, count: u64)
    requires room { length slots.old.items < bits_of missing.old.words.items }
    requires index { IsIndex missing.old.words.items missing.old.front slots.old.items }
    requires blocks { length bounds.now.items ≡ length missing.old.words.items }
    ensures items { slots.new.items ≡ drop count slots.old.items }
    ensures capacity { slots.new.capacity ≡ slots.old.capacity }
    ensures words { length missing.new.words.items ≡ length missing.old.words.items }
    ensures index { IsIndex missing.new.words.items missing.new.front slots.new.items }
    ensures bound { (rule : AskRule) → AreBounds rule bounds.now.items missing.old.front slots.old.items → AreBounds rule bounds.now.items missing.new.front slots.new.items }
{
    if count == 0 {
        return;
    }
    if count >= slots.len() as u64 {
        slots.clear();
        missing.clear_all();
        return;
    }
    slots.drop_many(count as usize);
    missing.shift_by(count as usize);
}

/// Appends so many slots of places that were noticed to be missing now.
fn add_missing(
    slots: &mut Slots,
    missing: &mut Bits,
    bounds: &mut Vec<Bound>,
    count: u64,
    now: u64,
    rule: AskRule,
)
    requires room { length slots.old.items + count ≤ slots.old.capacity }
    requires wide { slots.old.capacity < bits_of missing.old.words.items }
    requires index { IsIndex missing.old.words.items missing.old.front slots.old.items }
    requires blocks { length bounds.old.items ≡ length missing.old.words.items }
    requires bound { AreBounds rule bounds.old.items missing.old.front slots.old.items }
    ensures items { slots.new.items ≡ slots.old.items ++ replicate count (noticed_at now) }
    ensures capacity { slots.new.capacity ≡ slots.old.capacity }
    ensures words { length missing.new.words.items ≡ length missing.old.words.items }
    ensures index { IsIndex missing.new.words.items missing.new.front slots.new.items }
    ensures blocks { length bounds.new.items ≡ length bounds.old.items }
    ensures bound { AreBounds rule bounds.new.items missing.new.front slots.new.items }
{
    if count == 0 {
        return;
    }
    note_missing(slots, missing, bounds, count as usize, now, rule);
    missing.set_range(slots.len(), count as usize);
    'added: for _ in 0..count {
        slots.append_missing(now);
    }
}
