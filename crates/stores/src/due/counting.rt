//! Counts asks, and notes them in the bounds of blocks once for each block.
ghost use Rattle.std.specs.Prelude.{◌≡◌, ℕ, ◌<◌, ◌==◌, ◌||◌, List, length, slice_get, Some, IsSomeAnd};
ghost use Rattle.std.specs.Int.{bit_at};
ghost use Rattle.stores.specs.declared.ask_rule.AskRule.{AskRule};
ghost use Rattle.stores.specs.declared.slot.Slot.{Slot};
ghost use Rattle.stores.specs.Asking.{CanBeAsked, CanEachBeAsked, asked, asked_at, asked_each};
ghost use Rattle.stores.specs.Bits.{bits_of};
ghost use Rattle.stores.specs.Block.{word_of};
ghost use Rattle.stores.specs.Bound.{AreBounds, AreBoundsBut, AreDueFrom, IsTurned};
ghost use Rattle.stores.specs.ByPlace.{slot_at};
ghost use Rattle.stores.specs.Index.{IsIndex};
ghost use Rattle.stores.specs.Span.{span_of};

use crate::ask_rule::{AskRule, time_from};
use crate::bits::Bits;
use crate::due::bound::Bound;
use crate::slots::Slots;
use places::Place;

/// Counts one more ask for each of these places, one after the other, of slots of which the first is that of the place `first`. The
/// bounds are seen to once for each block.
#[inline(never)]
pub fn count_each(
    first: u64,
    slots: &mut Slots,
    missing: &Bits,
    bounds: &mut Vec<Bound>,
    places: &[Place],
    now: u64,
    rule: AskRule,
)
    requires askable { CanEachBeAsked (span_of (Some first) slots.old) places.now now }
    requires room { length slots.old.items < bits_of missing.now.words.items }
    requires index { IsIndex missing.now.words.items missing.now.front slots.old.items }
    requires blocks { length bounds.old.items ≡ length missing.now.words.items }
    requires bound { AreBounds rule bounds.old.items missing.now.front slots.old.items }
    ensures asked { span_of (Some first) slots.new ≡ asked_each (span_of (Some first) slots.old) places.now now }
    ensures len { length slots.new.items ≡ length slots.old.items }
    ensures capacity { slots.new.capacity ≡ slots.old.capacity }
    ensures index { IsIndex missing.now.words.items missing.now.front slots.new.items }
    ensures blocks { length bounds.new.items ≡ length bounds.old.items }
    ensures bound { AreBounds rule bounds.new.items missing.now.front slots.new.items }
{
    let again = time_from(rule, 0, 1, now);
    let mut asked = Asked {
        line: 0,
        word: 0,
        bits: 0,
    };
    for place in places {
        let index = ask_one(first, slots, *place, now);
        asked.turn_to(missing, bounds, index, again);
        asked.bits = with_bit(asked.bits, missing.bit_in_word(index));
    }
    note_asks(bounds, asked.word, asked.bits, again);
}

/// Counts one more ask for this place of slots of which the first is that of the place `first`, and answers which slot it has.
fn ask_one(first: u64, slots: &mut Slots, place: Place, now: u64) -> usize
    requires { IsSomeAnd (slot_at (span_of (Some first) slots.old) place) CanBeAsked }
    ensures asked { span_of (Some first) slots.new ≡ asked (span_of (Some first) slots.old) place now }
    ensures within { result < length slots.old.items }
    ensures askable { IsSomeAnd (slice_get slots.old.items result) CanBeAsked }
    ensures items { slots.new.items ≡ asked_at slots.old.items result now (slice_get slots.old.items result) }
    ensures capacity { slots.new.capacity ≡ slots.old.capacity }
{
    let index = (place.value() - first) as usize;
    slots.count_ask(index, now);
    index
}

/// The places of one block that were asked for, which its bound does not know so far.
#[derive(Drop)]
struct Asked {
    // The number of the word, as positions have it before they turn: the next place is mostly of the same.
    line: usize,
    word: usize,
    bits: u64,
}

impl Asked {
    /// Turns to the block of the position `index`. Where that is another one the places are noted.
    fn turn_to(&mut self, missing: &Bits, bounds: &mut Vec<Bound>, index: usize, again: Option<u64>)
        requires index { index < bits_of missing.now.words.items }
        requires turned { IsTurned self.old (length missing.now.words.items) }
        ensures word { self.new.word ≡ word_of (length missing.now.words.items) missing.now.front index }
        ensures turned { IsTurned self.new (length missing.now.words.items) }
        ensures blocks { length bounds.new.items ≡ length bounds.old.items }
        ensures bound { (rule : AskRule) (front : ℕ) (slots : List Slot) → AreBoundsBut self.old.word self.old.bits rule bounds.old.items front slots
            → AreDueFrom self.old.word self.old.bits rule again (length bounds.old.items) front slots → AreBoundsBut self.new.word self.new.bits rule bounds.new.items front slots }
        ensures asked { (rule : AskRule) (words front : ℕ) (slots : List Slot) → AreDueFrom self.old.word self.old.bits rule again words front slots
            → AreDueFrom self.new.word self.new.bits rule again words front slots }
    {
        let line = missing.line_of(index);
        if line == self.line {
            return;
        }
        note_asks(bounds, self.word, self.bits, again);
        self.line = line;
        self.word = missing.word_at(line);
        self.bits = 0;
    }
}

/// Notes that the places with these bits of the block of this word were asked for, of which each is due again from this moment on.
fn note_asks(bounds: &mut Vec<Bound>, word: usize, bits: u64, again: Option<u64>)
    ensures blocks { length bounds.new.items ≡ length bounds.old.items }
    ensures bound { (rule : AskRule) (front : ℕ) (slots : List Slot) → AreBoundsBut word bits rule bounds.old.items front slots → AreDueFrom word bits rule again (length bounds.old.items) front slots
        → AreBounds rule bounds.new.items front slots }
{
    if word < bounds.len() {
        bounds[word].take_in(bits, again);
    }
}

/// These bits, and this one.
fn with_bit(bits: u64, bit: usize) -> u64
    requires { bit < 64 }
    ensures { (b : ℕ) → (bit_at result b == 1) ≡ (b == bit || bit_at bits b == 1) }
{
    bits | 1 << bit
}
