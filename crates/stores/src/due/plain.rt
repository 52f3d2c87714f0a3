//! Walks over the missing slots of a ring window that look at each, for a caller with any rule.
ghost use Rattle.std.specs.Prelude.{◌≡◌, ◌+◌, ◌^◌, ◌<◌, ◌≤◌, length, take};
ghost use Rattle.stores.specs.Asking.{longest_ask, is_missing};
ghost use Rattle.stores.specs.Bits.{bits_of, IsSetOf};
ghost use Rattle.stores.specs.Due.{due_from_first};
ghost use Rattle.stores.specs.Foreseen.{IsSoonest};

use crate::ask_rule::{AskRule, DueBy};
use crate::bits::Bits;
use crate::due::foreseen::Soonest;
use crate::slots::Slots;
use crate::window::LONGEST_ASK;
use arrayvec::ArrayVec;
use places::Place;

/// Finds the first due places of these slots, of which the first is that of the place `first`, by a look at each missing one.
pub fn due_among(
    due: &mut ArrayVec<Place, LONGEST_ASK>,
    first: u64,
    slots: &Slots,
    missing: &Bits,
    now: u64,
    rule: AskRule,
)
    requires places { first + length slots.now.items ≤ 2 ^ 48 }
    requires room { length slots.now.items < bits_of missing.now.words.items }
    requires index { IsSetOf is_missing missing.now.words.items missing.now.front slots.now.items }
    ensures { due.new.items ≡ take longest_ask (due_from_first now rule.delay rule.retry rule.asks first slots.now.items) }
{
    due.clear();
    let by = DueBy::new(now, rule);
    let until = slots.len();
    let mut index = 0;
    while let Some(found) = missing.first(index, until) {
        if due.is_full() {
            return;
        }
        if slots.is_due(found, by) {
            due.push(Place::new(first + found as u64).unwrap());
        }
        index = found + 1;
    }
}

/// The least moment from which on one of these slots is due, and such a slot, by a look at each missing one.
#[inline(never)]
pub fn next_among(slots: &Slots, missing: &Bits, rule: AskRule) -> Option<Soonest>
    requires room { length slots.now.items < bits_of missing.now.words.items }
    requires index { IsSetOf is_missing missing.now.words.items missing.now.front slots.now.items }
    ensures { IsSoonest rule result slots.now.items (length slots.now.items) }
{
    let until = slots.len();
    let mut least = None;
    let mut index = 0;
    while let Some(next) = missing.first(index, until) {
        let moment = slots.due_from(next, rule);
        least = Soonest::or(least, moment, next);
        index = next + 1;
    }
    least
}
