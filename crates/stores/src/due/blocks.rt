//! From when on the blocks of a window's missing places may be due, one block for each word of the bits that tell which are missing.
ghost use Rattle.std.specs.Prelude.{◌≡◌, ℕ, ◌+◌, ◌-◌, ◌<◌, ◌≤◌, ◌++◌, true, List, length, replicate, slice_get};
ghost use Rattle.stores.specs.declared.ask_rule.AskRule.{AskRule};
ghost use Rattle.stores.specs.declared.slot.Slot.{Slot};
ghost use Rattle.stores.specs.Asking.{has_come, is_missing};
ghost use Rattle.stores.specs.Bits.{bits_of, IsSetOf};
ghost use Rattle.stores.specs.Block.{IsBlock, word_of};
ghost use Rattle.stores.specs.Bound.{AreBounds, IsBoundAt};
ghost use Rattle.stores.specs.Put.{noticed_at};

use crate::ask_rule::{AskRule, time_from};
use crate::bits::Bits;
use crate::block::Block;
use crate::due::bound::Bound;
use crate::slots::Slots;

/// Makes the bounds those of blocks of which nothing is known.
pub fn forget(bounds: &mut Vec<Bound>)
    ensures blocks { length bounds.new.items ≡ length bounds.old.items }
    ensures bound { (rule : AskRule) (front : ℕ) (slots : List Slot) → AreBounds rule bounds.new.items front slots }
{
    bounds.as_mut_slice().fill(Bound::UNKNOWN);
}

/// Makes the bounds those of the blocks once so many places more are missing, from now on, behind all slots.
pub fn note_missing(
    slots: &Slots,
    missing: &Bits,
    bounds: &mut Vec<Bound>,
    count: usize,
    now: u64,
    rule: AskRule,
)
    requires room { length slots.now.items + count ≤ bits_of missing.now.words.items }
    requires index { IsSetOf is_missing missing.now.words.items missing.now.front slots.now.items }
    requires blocks { length bounds.old.items ≡ length missing.now.words.items }
    requires bound { AreBounds rule bounds.old.items missing.now.front slots.now.items }
    ensures blocks { length bounds.new.items ≡ length bounds.old.items }
    ensures bound { AreBounds rule bounds.new.items missing.now.front (slots.now.items ++ replicate count (noticed_at now)) }
{
    let moment = time_from(rule, now, 0, 0);
    let end = slots.len() + count;
    let mut position = slots.len();
    while position < end {
        let word = missing.word_of(position);
        bounds[word] = noticed(slots, missing, bounds[word], word, moment);
        position = missing.run_end(position);
    }
}

/// What is known of the block of this word, of which this was known, once a further place of it is missing, which is due from this moment
/// on.
fn noticed(slots: &Slots, missing: &Bits, bound: Bound, word: usize, moment: Option<u64>) -> Bound
    requires word { word < length missing.now.words.items }
    requires room { length slots.now.items ≤ bits_of missing.now.words.items }
    requires index { IsSetOf is_missing missing.now.words.items missing.now.front slots.now.items }
    ensures from { (now : ℕ) → has_come moment now ≡ true → has_come result.from now ≡ true }
    ensures kept { (rule : AskRule) (p bit : ℕ) → p < length slots.now.items → word_of (length missing.now.words.items) missing.now.front p ≡ word
        → IsBoundAt rule bound bit (slice_get slots.now.items p) → IsBoundAt rule result bit (slice_get slots.now.items p) }
{
    // What was left of the places that had this word before goes, once none of them is missing.
    let mut bound = if missing.is_blank(word) {
        Bound::NONE
    } else {
        bound
    };
    bound.meet(moment);
    bound
}

/// Keeps what a look found of this block, where it saw all positions of its word.
pub fn keep_bound(
    slots: &Slots,
    missing: &Bits,
    bounds: &mut Vec<Bound>,
    block: Block,
    bound: Bound,
    rule: AskRule,
)
    requires block { IsBlock (length missing.now.words.items) missing.now.front block }
    requires within { block.start < length slots.now.items }
    requires room { length slots.now.items < bits_of missing.now.words.items }
    requires blocks { length bounds.old.items ≡ length missing.now.words.items }
    requires bound { AreBounds rule bounds.old.items missing.now.front slots.now.items }
    requires seen { (p : ℕ) → block.start ≤ p → p < length slots.now.items → p + block.bit < block.start + 64 → IsBoundAt rule bound (block.bit + (p - block.start)) (slice_get slots.now.items p) }
    ensures blocks { length bounds.new.items ≡ length bounds.old.items }
    ensures bound { AreBounds rule bounds.new.items missing.now.front slots.now.items }
{
    if missing.is_whole(block, slots.len()) {
        bounds[block.word] = bound;
    }
}
