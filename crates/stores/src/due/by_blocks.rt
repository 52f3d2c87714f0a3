//! Walks over the missing slots of a ring window that pass over blocks of which no place can be due so soon.
ghost use Rattle.std.specs.Prelude.{◌≡◌, ℕ, ◌+◌, ◌-◌, ◌^◌, ◌<◌, ◌≤◌, ◌++◌, [], true, length, slice_get, take, Some, IfSome, IsSome, IsNone};
ghost use Rattle.stores.specs.Asking.{is_missing, has_come};
ghost use Rattle.stores.specs.Bits.{bits_of, IsSetOf};
ghost use Rattle.stores.specs.Block.{IsBlock};
ghost use Rattle.stores.specs.Bound.{AreBounds, IsDueFrom, IsBoundAt};
ghost use Rattle.stores.specs.Due.{due_rest, due_from_first};
ghost use Rattle.stores.specs.DueBy.{IsDueBy};
ghost use Rattle.stores.specs.Foreseen.{soonest_moment, due_by, IsSoonest};
ghost use Rattle.stores.specs.Ones.{HasEach, HasNoneFrom};

use crate::ask_rule::{AskRule, DueBy};
use crate::bits::Bits;
use crate::block::Block;
use crate::due::blocks::keep_bound;
use crate::due::bound::{Bound, has_come, is_no_sooner};
use crate::due::foreseen::{Soonest, soonest_moment};
use crate::ones::Ones;
use crate::slots::Slots;
use places::Place;

/// Which places an ask looks for.
#[derive(Clone, Copy, Debug, PartialEq, Eq)]
pub struct Wanted {
    now: u64,
    rule: AskRule,
    // Those that are due at that moment by that rule.
    by: DueBy,
    ghost moment: { now < 2 ^ 64 },
    ghost due: { IsDueBy by now rule },
}

impl Wanted {
    /// Those that are due at this moment by this rule.
    pub fn new(now: u64, rule: AskRule) -> Wanted
        ensures now { result.now ≡ now }
        ensures rule { result.rule ≡ rule }
    {
        Wanted {
            now,
            rule,
            by: DueBy::new(now, rule),
        }
    }
}

/// Puts the wanted places of these slots, of which the first is that of the place `first`, to the front of a slice, as many as it has room
/// for. It answers how many, and, where none is due, the least moment from which on one is, with such a slot. It looks at no block of which
/// no place can be due so soon, and keeps what it learns of the others.
#[inline(never)]
pub fn find_due(
    due: &mut [Place],
    first: u64,
    slots: &Slots,
    missing: &Bits,
    bounds: &mut Vec<Bound>,
    wanted: Wanted,
) -> (usize, Option<Option<Soonest>>)
    requires places { first + length slots.now.items ≤ 2 ^ 48 }
    requires room { length slots.now.items < bits_of missing.now.words.items }
    requires index { IsSetOf is_missing missing.now.words.items missing.now.front slots.now.items }
    requires blocks { length bounds.old.items ≡ length missing.now.words.items }
    requires bound { AreBounds wanted.rule bounds.old.items missing.now.front slots.now.items }
    ensures due { take result.0 due.new ≡ take (length due.old) (due_from_first wanted.now wanted.rule.delay wanted.rule.retry wanted.rule.asks first slots.now.items) }
    ensures within { result.0 ≤ length due.old }
    ensures len { length due.new ≡ length due.old }
    ensures found { IfSome result.1 (λ soonest. IsSoonest wanted.rule soonest slots.now.items (length slots.now.items)) }
    ensures known { 0 < length due.old → result.0 ≡ 0 → IsSome result.1 }
    ensures blocks { length bounds.new.items ≡ length bounds.old.items }
    ensures bound { AreBounds wanted.rule bounds.new.items missing.now.front slots.now.items }
{
    let until = slots.len();
    let mut count = 0;
    // The least moment of the blocks so far, and where such a block begins.
    let mut best = None;
    let mut at = 0;
    let mut block = missing.first_block();
    while block.start < until {
        let next = missing.next_block(block);
        if !missing.is_blank(block.word) {
            if count >= due.len() {
                return (count, None);
            }
            let end = next.start.min(until);
            let ones = missing.ones(block, end);
            let (more, soonest) = look_in(
                due, count, first, slots, missing, bounds, block, ones, end, wanted,
            );
            count = more;
            let Some(soonest) = soonest else {
                return (count, None);
            };
            if !is_no_sooner(soonest, best) {
                best = soonest;
                at = block.start;
            }
        }
        block = next;
    }
    if count != 0 {
        return (count, None);
    }
    let soonest = soonest_from(slots, missing, bounds, best, at, wanted.rule);
    (0, Some(soonest))
}

/// Puts the wanted places of this block, of which these are missing, up to below an end, behind the `count` that are there, as long as there
/// is room, and keeps what it learns. It answers how many there are then, and a moment before which none of the block is due, where it saw to
/// all of it.
fn look_in(
    due: &mut [Place],
    count: usize,
    first: u64,
    slots: &Slots,
    missing: &Bits,
    bounds: &mut Vec<Bound>,
    block: Block,
    ones: Ones,
    end: usize,
    wanted: Wanted,
) -> (usize, Option<Option<u64>>)
    requires fits { count < length due.old }
    requires places { first + length slots.now.items ≤ 2 ^ 48 }
    requires block { IsBlock (length missing.now.words.items) missing.now.front block }
    requires order { block.start < end }
    requires end { end ≤ length slots.now.items }
    requires near { end + block.bit ≤ block.start + 64 }
    requires far { (p : ℕ) → p < length slots.now.items → p + block.bit < block.start + 64 → p < end }
    requires room { length slots.now.items < bits_of missing.now.words.items }
    requires position { ones.position ≡ block.start }
    requires covers { HasEach ones (λ p. is_missing (slice_get slots.now.items p)) end }
    requires below { HasNoneFrom ones end }
    requires blocks { length bounds.old.items ≡ length missing.now.words.items }
    requires bound { AreBounds wanted.rule bounds.old.items missing.now.front slots.now.items }
    ensures all { IsSome result.1 → take result.0 due.new ++ due_rest wanted.now wanted.rule.delay wanted.rule.retry wanted.rule.asks first slots.now.items end
        ≡ take count due.old ++ due_rest wanted.now wanted.rule.delay wanted.rule.retry wanted.rule.asks first slots.now.items block.start }
    ensures none { IfSome result.1 (λ soonest. (p : ℕ) → block.start ≤ p → p < end → IsDueFrom wanted.rule soonest (slice_get slots.now.items p)) }
    ensures part { IsNone result.1 → (seen : ℕ) × (take result.0 due.new ++ due_rest wanted.now wanted.rule.delay wanted.rule.retry wanted.rule.asks first slots.now.items seen
        ≡ take count due.old ++ due_rest wanted.now wanted.rule.delay wanted.rule.retry wanted.rule.asks first slots.now.items block.start) × (result.0 ≡ length due.old) }
    ensures more { count ≤ result.0 }
    ensures within { result.0 ≤ length due.old }
    ensures len { length due.new ≡ length due.old }
    ensures blocks { length bounds.new.items ≡ length bounds.old.items }
    ensures bound { AreBounds wanted.rule bounds.new.items missing.now.front slots.now.items }
{
    if let Some(only) = ones.only() {
        let (count, soonest) = look_at(due, count, first, slots, only, wanted);
        return (count, Some(soonest));
    }
    let soonest = bounds[block.word].due_from();
    if !has_come(soonest, wanted.now) {
        return (count, Some(soonest));
    }
    let (count, seen, bound) = look(due, count, first, slots, ones, block.bit, end, wanted);
    if seen < end {
        return (count, None);
    }
    keep_bound(slots, missing, bounds, block, bound, wanted.rule);
    (count, Some(bound.due_from()))
}

/// The same for a place of which no other of its block is missing: to look at it costs no more than to read the block's bound, which stays as
/// it is.
fn look_at(
    due: &mut [Place],
    count: usize,
    first: u64,
    slots: &Slots,
    only: usize,
    wanted: Wanted,
) -> (usize, Option<u64>)
    requires fits { count < length due.old }
    requires places { first + length slots.now.items ≤ 2 ^ 48 }
    requires only { only < length slots.now.items }
    ensures all { take result.0 due.new ++ due_rest wanted.now wanted.rule.delay wanted.rule.retry wanted.rule.asks first slots.now.items (only + 1)
        ≡ take count due.old ++ due_rest wanted.now wanted.rule.delay wanted.rule.retry wanted.rule.asks first slots.now.items only }
    ensures none { IsDueFrom wanted.rule result.1 (slice_get slots.now.items only) }
    ensures more { count ≤ result.0 }
    ensures within { result.0 ≤ length due.old }
    ensures len { length due.new ≡ length due.old }
{
    if slots.is_due(only, wanted.by) {
        due[count] = Place::new(first + only as u64).unwrap();
        return (count + 1, Some(0));
    }
    (count, slots.due_from(only, wanted.rule))
}

/// The same for the places among these missing slots, which are of one block and end there; `bit` is that of the first position. It answers
/// how many there are then, up to where it looked, and from when on those that it looked at may be due.
fn look(
    due: &mut [Place],
    count: usize,
    first: u64,
    slots: &Slots,
    ones: Ones,
    bit: usize,
    end: usize,
    wanted: Wanted,
) -> (usize, usize, Bound)
    requires fits { count ≤ length due.old }
    requires places { first + length slots.now.items ≤ 2 ^ 48 }
    requires order { ones.position < end }
    requires end { end ≤ length slots.now.items }
    requires small { length slots.now.items < 2 ^ 32 }
    requires near { end + bit ≤ ones.position + 64 }
    requires covers { HasEach ones (λ p. is_missing (slice_get slots.now.items p)) end }
    requires below { HasNoneFrom ones end }
    ensures left { take result.0 due.new ++ due_rest wanted.now wanted.rule.delay wanted.rule.retry wanted.rule.asks first slots.now.items result.1
        ≡ take count due.old ++ due_rest wanted.now wanted.rule.delay wanted.rule.retry wanted.rule.asks first slots.now.items ones.position }
    ensures more { count ≤ result.0 }
    ensures within { result.0 ≤ length due.old }
    ensures len { length due.new ≡ length due.old }
    ensures full { result.1 < end → length due.old ≤ result.0 }
    ensures seen { result.1 ≤ end }
    ensures bound { (p : ℕ) → ones.position ≤ p → p < result.1 → IsBoundAt wanted.rule result.2 (bit + (p - ones.position)) (slice_get slots.now.items p) }
{
    let start = ones.position();
    let mut count = count;
    let mut bound = Bound::NONE;
    let mut left = ones;
    let mut index = start;
    while let Some(next) = left.next() {
        if count >= due.len() {
            return (count, index, bound);
        }
        if slots.is_due(next, wanted.by) {
            due[count] = Place::new(first + next as u64).unwrap();
            count += 1;
            bound.leave_out(bit + (next - start));
        } else {
            bound.meet(slots.due_from(next, wanted.rule));
        }
        index = next + 1;
    }
    (count, end, bound)
}

/// The least moment from which on one of these slots is due, and such a slot, where none is due before the moment `best`, which is that of
/// the block of the position `at`. Mostly one of that block is due just then, and no other block is looked at.
fn soonest_from(
    slots: &Slots,
    missing: &Bits,
    bounds: &Vec<Bound>,
    best: Option<u64>,
    at: usize,
    rule: AskRule,
) -> Option<Soonest>
    requires at { at ≤ length slots.now.items }
    requires room { length slots.now.items < bits_of missing.now.words.items }
    requires index { IsSetOf is_missing missing.now.words.items missing.now.front slots.now.items }
    requires blocks { length bounds.now.items ≡ length missing.now.words.items }
    requires bound { AreBounds rule bounds.now.items missing.now.front slots.now.items }
    requires none { (p : ℕ) → p < length slots.now.items → IsDueFrom rule best (slice_get slots.now.items p) }
    ensures { IsSoonest rule result slots.now.items (length slots.now.items) }
{
    let moment = best?;
    match due_just_from(slots, missing, at, moment, rule) {
        Some(index) => Some(Soonest { moment, index }),
        None => next_by_blocks(slots, missing, bounds, rule),
    }
}

/// A missing slot from the position `at` on, of its block, that is due from just this moment on.
fn due_just_from(
    slots: &Slots,
    missing: &Bits,
    at: usize,
    moment: u64,
    rule: AskRule,
) -> Option<usize>
    requires at { at ≤ length slots.now.items }
    requires room { length slots.now.items < bits_of missing.now.words.items }
    ensures { IfSome result (λ index. (now : ℕ) → now < 2 ^ 64 → due_by rule slots.now.items now index ≡ has_come (Some moment) now) }
{
    let end = slots.len();
    let mut left = missing.run(at);
    while let Some(found) = left.next() {
        if found >= end {
            return None;
        }
        if slots.due_from(found, rule) == Some(moment) {
            return Some(found);
        }
    }
    None
}

/// The least moment from which on one of these slots is due, and such a slot, without a look at blocks whose places come no sooner.
#[inline(never)]
pub fn next_by_blocks(
    slots: &Slots,
    missing: &Bits,
    bounds: &Vec<Bound>,
    rule: AskRule,
) -> Option<Soonest>
    requires room { length slots.now.items < bits_of missing.now.words.items }
    requires index { IsSetOf is_missing missing.now.words.items missing.now.front slots.now.items }
    requires blocks { length bounds.now.items ≡ length missing.now.words.items }
    requires bound { AreBounds rule bounds.now.items missing.now.front slots.now.items }
    ensures { IsSoonest rule result slots.now.items (length slots.now.items) }
{
    let until = slots.len();
    let mut least = None;
    let mut block = missing.first_block();
    while block.start < until {
        let next = missing.next_block(block);
        if !missing.is_blank(block.word) {
            let end = next.start.min(until);
            let ones = missing.ones(block, end);
            let soonest = bounds[block.word].due_from();
            least = next_if_sooner(least, slots, ones, soonest, end, rule);
        }
        block = next;
    }
    least
}

/// The least moment from which on one of the slots up to an end is due, and such a slot, where those before the first of these positions
/// have this one, and these are the missing ones of a block, of which none is due before the moment `soonest`. It looks at none of them
/// where that comes no sooner.
fn next_if_sooner(
    before: Option<Soonest>,
    slots: &Slots,
    ones: Ones,
    soonest: Option<u64>,
    end: usize,
    rule: AskRule,
) -> Option<Soonest>
    requires order { ones.position < end }
    requires end { end ≤ length slots.now.items }
    requires small { length slots.now.items < 2 ^ 32 }
    requires covers { HasEach ones (λ p. is_missing (slice_get slots.now.items p)) end }
    requires below { HasNoneFrom ones end }
    requires none { (p : ℕ) → ones.position ≤ p → p < end → IsDueFrom rule soonest (slice_get slots.now.items p) }
    requires before { IsSoonest rule before slots.now.items ones.position }
    ensures { IsSoonest rule result slots.now.items end }
{
    if is_no_sooner(soonest, soonest_moment(before)) {
        return before;
    }
    next_within(before, slots, ones, soonest, end, rule)
}

/// The same by a look at each, up to the first that is due from this moment on, before which none of the block is.
fn next_within(
    before: Option<Soonest>,
    slots: &Slots,
    ones: Ones,
    soonest: Option<u64>,
    end: usize,
    rule: AskRule,
) -> Option<Soonest>
    requires order { ones.position ≤ end }
    requires end { end ≤ length slots.now.items }
    requires small { length slots.now.items < 2 ^ 32 }
    requires covers { HasEach ones (λ p. is_missing (slice_get slots.now.items p)) end }
    requires below { HasNoneFrom ones end }
    requires before { IsSoonest rule before slots.now.items ones.position }
    requires sooner { (now : ℕ) → has_come (soonest_moment before) now ≡ true → has_come soonest now ≡ true }
    requires none { (p : ℕ) → ones.position ≤ p → p < end → IsDueFrom rule soonest (slice_get slots.now.items p) }
    ensures { IsSoonest rule result slots.now.items end }
{
    let mut least = before;
    let mut left = ones;
    while let Some(found) = left.next() {
        let moment = slots.due_from(found, rule);
        if moment == soonest {
            return Soonest::or(None, moment, found);
        }
        least = Soonest::or(least, moment, found);
    }
    least
}
