//! A set of positions below a bound, in words of 64 bits.
ghost use Rattle.std.specs.Prelude.{◌≡◌, ℕ, ◌+◌, ◌-◌, ◌*◌, ◌/◌, ◌%◌, ◌<◌, ◌≤◌, ◌==◌, true, false, length, replicate, MatchOption, IfOk, IfSome, IsTrue, if◌then◌else◌, nat_lt};
ghost use Rattle.std.specs.Int.{bit_at};
ghost use Rattle.stores.specs.Bits.{is_set, bits_of, turned, is_member, size_of, is_between, set_from, members_below};
ghost use Rattle.stores.specs.Block.{bit_in_word, word_of};
ghost use Rattle.stores.specs.Block.{IsBlock};
ghost use Rattle.stores.specs.Ones.{HasEach, HasNoneFrom};

use crate::block::Block;
use crate::memory::OutOfMemory;
use crate::ones::Ones;
use std::alloc::Global;

/// A set of positions from 0 up to below a bound. [`shift`](Bits::shift) moves all of them down by one.
///
/// The bound is a multiple of 64. It takes memory in `new` alone.
#[derive(Debug, Drop)]
pub struct Bits {
    words: Vec<u64>,
    // The number of the bit that stands for position 0. The bit after the last one is the first one.
    front: usize,
    // How many positions the set has.
    count: usize,
    ghost limit: { length words.items ≤ 129 },
    ghost within: { front < bits_of words.items },
    ghost counted: { count ≡ size_of words.items },
}

impl Bits {
    /// An empty set of positions up to `top`, or some more.
    ///
    /// `OutOfMemory`: the allocator refused the memory.
    pub fn new(alloc: Global, top: usize) -> Result<Bits, OutOfMemory>
        requires { top ≤ 8192 }
        ensures empty { IfOk result (λ bits. (p : ℕ) → is_member bits.words.items bits.front p ≡ false) }
        ensures count { IfOk result (λ bits. size_of bits.words.items ≡ 0) }
        ensures words { IfOk result (λ bits. length bits.words.items ≡ top / 64 + 1) }
    {
        let words = vec![in alloc; 0; top / 64 + 1]?;
        Ok(Bits {
            words,
            front: 0,
            count: 0,
        })
    }

    /// The number of the bit that stands for this position, that of position 0 for the one after the last.
    fn bit_of(&self, position: usize) -> usize
        requires { position ≤ bits_of self.now.words.items }
        ensures bit { result ≡ turned (bits_of self.now.words.items) self.now.front position }
        ensures within { result < bits_of self.now.words.items }
    {
        let bit = self.front + position;
        let bound = 64 * self.words.len();
        if bit < bound { bit } else { bit - bound }
    }

    /// Whether the set has this position.
    pub fn contains(&self, position: usize) -> bool
        requires { position < bits_of self.now.words.items }
        ensures { result ≡ is_member self.now.words.items self.now.front position }
    {
        test_bit(self.words.as_slice(), self.bit_of(position))
    }

    /// Adds this position to the set.
    pub fn set(&mut self, position: usize)
        requires { position < bits_of self.old.words.items }
        ensures members { (p : ℕ) → p < bits_of self.old.words.items →
            is_member self.new.words.items self.new.front p ≡ (if p == position then true else is_member self.old.words.items self.old.front p) }
        ensures size { size_of self.new.words.items ≡ size_of self.old.words.items + (if is_member self.old.words.items self.old.front position then 0 else 1) }
        ensures words { length self.new.words.items ≡ length self.old.words.items }
    {
        let bit = self.bit_of(position);
        if !test_bit(self.words.as_slice(), bit) {
            set_bit(&mut self.words, bit);
            self.count += 1;
        }
    }

    /// Adds so many positions from this one on to the set, which has none of them, 64 at a time.
    pub fn set_range(&mut self, from: usize, count: usize)
        requires within { from + count ≤ bits_of self.old.words.items }
        requires none { (p : ℕ) → from ≤ p → p < from + count → is_member self.old.words.items self.old.front p ≡ false }
        ensures members { (p : ℕ) → p < bits_of self.old.words.items →
            is_member self.new.words.items self.new.front p
            ≡ (if is_between from (from + count) p then true else is_member self.old.words.items self.old.front p) }
        ensures size { size_of self.new.words.items ≡ size_of self.old.words.items + count }
        ensures words { length self.new.words.items ≡ length self.old.words.items }
        ensures front { self.new.front ≡ self.old.front }
    {
        let bound = 64 * self.words.len();
        let start = self.front + from;
        let end = start + count;
        set_bits(&mut self.words, start.min(bound), end.min(bound));
        set_bits(
            &mut self.words,
            start.saturating_sub(bound),
            end.saturating_sub(bound),
        );
        self.count += count;
    }

    /// Takes this position out of the set.
    pub fn clear(&mut self, position: usize)
        requires { position < bits_of self.old.words.items }
        ensures members { (p : ℕ) → p < bits_of self.old.words.items →
            is_member self.new.words.items self.new.front p ≡ (if p == position then false else is_member self.old.words.items self.old.front p) }
        ensures size { size_of self.new.words.items + (if is_member self.old.words.items self.old.front position then 1 else 0) ≡ size_of self.old.words.items }
        ensures words { length self.new.words.items ≡ length self.old.words.items }
        ensures front { self.new.front ≡ self.old.front }
    {
        let bit = self.bit_of(position);
        if test_bit(self.words.as_slice(), bit) {
            clear_bit(&mut self.words, bit);
            self.count -= 1;
        }
    }

    /// The least position of the set from one on, below an end. It passes 64 positions at a time where the set has none of them, and all
    /// at once where it is empty.
    pub fn first(&self, from: usize, end: usize) -> Option<usize>
        requires { end ≤ bits_of self.now.words.items }
        ensures { MatchOption result
            ((p : ℕ) → from ≤ p → p < end → is_member self.now.words.items self.now.front p ≡ false)
            (λ first. (from ≤ first) × (first < end) × (is_member self.now.words.items self.now.front first ≡ true)
            × ((p : ℕ) → from ≤ p → p < first → is_member self.now.words.items self.now.front p ≡ false)) }
    {
        if self.count == 0 {
            return None;
        }
        let words = self.words.as_slice();
        let above = 64 * words.len() - self.front;
        if from < above {
            let turn = self.front + end.min(above);
            if let Some(bit) = first_bit(words, self.front + from, turn) {
                return Some(bit - self.front);
            }
        }
        let bit = first_bit(words, from.saturating_sub(above), end.saturating_sub(above))?;
        Some(above + bit)
    }

    /// The number of the word that has the bit of this position.
    pub fn word_of(&self, position: usize) -> usize
        requires { position < bits_of self.now.words.items }
        ensures word { result ≡ word_of (length self.now.words.items) self.now.front position }
        ensures within { result < length self.now.words.items }
    {
        self.word_at(self.line_of(position))
    }

    /// The same before positions turn: behind the last word, numbers go on.
    pub fn line_of(&self, position: usize) -> usize
        requires { position < bits_of self.now.words.items }
        ensures { result ≡ (self.now.front + position) / 64 }
    {
        (self.front + position) / 64
    }

    /// The number of the word of such a line.
    pub fn word_at(&self, line: usize) -> usize
        ensures { result ≡ (if nat_lt line (length self.now.words.items) then line else line - length self.now.words.items) }
    {
        let count = self.words.len();
        if line < count { line } else { line - count }
    }

    /// The number of the bit of this position in its word.
    pub fn bit_in_word(&self, position: usize) -> usize
        requires { position < bits_of self.now.words.items }
        ensures bit { result ≡ bit_in_word (length self.now.words.items) self.now.front position }
        ensures within { result < 64 }
    {
        (self.front + position) % 64
    }

    /// Whether the set has no position whose bit is in this word.
    pub fn is_blank(&self, word: usize) -> bool
        requires { word < length self.now.words.items }
        ensures { IsTrue result → (p : ℕ) → word_of (length self.now.words.items) self.now.front p ≡ word → is_member self.now.words.items self.now.front p ≡ false }
    {
        self.words[word] == 0
    }

    /// The end of the positions from this one on whose bits are in its word.
    pub fn run_end(&self, position: usize) -> usize
        requires { position < bits_of self.now.words.items }
        ensures above { position < result }
        ensures within { result ≤ bits_of self.now.words.items }
        ensures run { (p : ℕ) → position ≤ p → p < result → word_of (length self.now.words.items) self.now.front p ≡ word_of (length self.now.words.items) self.now.front position }
        ensures near { result + turned (bits_of self.now.words.items) self.now.front position % 64 ≤ position + 64 }
        ensures far { (p : ℕ) → p < bits_of self.now.words.items → p + turned (bits_of self.now.words.items) self.now.front position % 64 < position + 64 → p < result }
    {
        let bound = 64 * self.words.len();
        let ahead = 64 - self.bit_of(position) % 64;
        bound.min(position + ahead)
    }

    /// The positions of the set among those of a run from this one on. In the word of position 0 it may give some above the bound too,
    /// for the bits of the first positions.
    pub fn run(&self, position: usize) -> Ones
        requires { position < bits_of self.now.words.items }
        ensures position { result.position ≡ position }
        ensures covers { (end : ℕ) → end ≤ bits_of self.now.words.items → end + turned (bits_of self.now.words.items) self.now.front position % 64 ≤ position + 64 →
            HasEach result (is_member self.now.words.items self.now.front) end }
    {
        let bit = self.bit_of(position);
        Ones::new(self.words[bit / 64] >> (bit % 64), position)
    }

    /// The block of position 0.
    pub fn first_block(&self) -> Block
        ensures block { IsBlock (length self.now.words.items) self.now.front result }
        ensures start { result.start ≡ 0 }
    {
        Block {
            word: self.front / 64,
            start: 0,
            bit: self.front % 64,
        }
    }

    /// The block behind this one.
    pub fn next_block(&self, block: Block) -> Block
        requires block { IsBlock (length self.now.words.items) self.now.front block }
        requires within { block.start < bits_of self.now.words.items }
        ensures block { IsBlock (length self.now.words.items) self.now.front result }
        ensures start { result.start + block.bit ≡ block.start + 64 }
    {
        let word = block.word + 1;
        Block {
            word: if word < self.words.len() { word } else { 0 },
            start: block.start + (64 - block.bit),
            bit: 0,
        }
    }

    /// The positions of the set in this block, below an end.
    pub fn ones(&self, block: Block, end: usize) -> Ones
        requires block { IsBlock (length self.now.words.items) self.now.front block }
        requires order { block.start < end }
        requires end { end ≤ bits_of self.now.words.items }
        requires near { end + block.bit ≤ block.start + 64 }
        ensures position { result.position ≡ block.start }
        ensures covers { HasEach result (is_member self.now.words.items self.now.front) end }
        ensures below { HasNoneFrom result end }
    {
        let rest = self.words[block.word] >> block.bit;
        Ones::new(rest & mask(0, end - block.start), block.start)
    }

    /// Whether all of the positions, of so many, whose bits are in this block's word are the block's. Else the first position and the last
    /// one are among them.
    pub fn is_whole(&self, block: Block, len: usize) -> bool
        requires block { IsBlock (length self.now.words.items) self.now.front block }
        requires within { block.start < len }
        requires len { len ≤ bits_of self.now.words.items }
        ensures { IsTrue result → (p : ℕ) → p < len → word_of (length self.now.words.items) self.now.front p ≡ block.word → (block.start ≤ p) × (p + block.bit < block.start + 64) }
    {
        let over = self.front % 64;
        over == 0 || block.word != self.front / 64 || len + over <= self.bound()
    }

    /// The least position of the set among those of a run from this one on, or where that run ends. It looks at one word.
    pub fn first_in_run(&self, position: usize) -> usize
        requires { position < bits_of self.now.words.items }
        ensures above { position ≤ result }
        ensures within { result ≤ bits_of self.now.words.items }
        ensures none { (p : ℕ) → position ≤ p → p < result → is_member self.now.words.items self.now.front p ≡ false }
    {
        let bit = self.bit_of(position);
        let end = (bit / 64 + 1) * 64;
        let first = match first_bit(self.words.as_slice(), bit, end) {
            Some(first) => first,
            None => end,
        };
        self.bound().min(position + (first - bit))
    }

    /// How many positions there are: the bound of all.
    pub fn bound(&self) -> usize
        ensures { result ≡ bits_of self.now.words.items }
    {
        64 * self.words.len()
    }

    /// Takes every position out of the set.
    pub fn clear_all(&mut self)
        ensures empty { (p : ℕ) → is_member self.new.words.items self.new.front p ≡ false }
        ensures count { size_of self.new.words.items ≡ 0 }
        ensures words { length self.new.words.items ≡ length self.old.words.items }
    {
        clear_words(&mut self.words);
        self.count = 0;
    }

    /// Takes position 0 out of the set, and moves every other position down by one.
    pub fn shift(&mut self)
        ensures members { (p : ℕ) → p < bits_of self.old.words.items →
            is_member self.new.words.items self.new.front p
            ≡ (if p + 1 == bits_of self.old.words.items then false else is_member self.old.words.items self.old.front (p + 1)) }
        ensures size { size_of self.new.words.items + (if is_member self.old.words.items self.old.front 0 then 1 else 0) ≡ size_of self.old.words.items }
        ensures words { length self.new.words.items ≡ length self.old.words.items }
        ensures front { self.new.front ≡ turned (bits_of self.old.words.items) self.old.front 1 }
    {
        self.clear(0);
        self.turn();
    }

    /// Takes so many of the first positions out of the set, 64 at a time, and moves every other position down by as many.
    pub fn shift_by(&mut self, count: usize)
        requires { count ≤ bits_of self.old.words.items }
        ensures members { (p : ℕ) → p < bits_of self.old.words.items →
            is_member self.new.words.items self.new.front p
            ≡ (if nat_lt (p + count) (bits_of self.old.words.items) then is_member self.old.words.items self.old.front (p + count) else false) }
        ensures size { size_of self.new.words.items + members_below self.old.words.items self.old.front count ≡ size_of self.old.words.items }
        ensures words { length self.new.words.items ≡ length self.old.words.items }
        ensures front { self.new.front ≡ turned (bits_of self.old.words.items) self.old.front count }
    {
        let bound = 64 * self.words.len();
        let end = self.front + count;
        let after = self.bit_of(count);
        let upper = clear_bits(&mut self.words, self.front, end.min(bound));
        let lower = clear_bits(&mut self.words, 0, end.saturating_sub(bound));
        self.count -= upper + lower;
        self.front = after;
    }

    /// Moves every position down by one, and position 0 up to below the bound.
    fn turn(&mut self)
        ensures members { (p : ℕ) → p < bits_of self.old.words.items →
            is_member self.new.words.items self.new.front p
            ≡ (if p + 1 == bits_of self.old.words.items then is_member self.old.words.items self.old.front 0 else is_member self.old.words.items self.old.front (p + 1)) }
        ensures words { self.new.words.items ≡ self.old.words.items }
        ensures front { self.new.front ≡ turned (bits_of self.old.words.items) self.old.front 1 }
    {
        self.front += 1;
        if self.front == 64 * self.words.len() {
            self.front = 0;
        }
    }

    /// How many positions the set has.
    pub fn count(&self) -> usize
        ensures { result ≡ size_of self.now.words.items }
    {
        self.count
    }
}

/// Whether the bit with this number is set.
fn test_bit(words: &[u64], bit: usize) -> bool
    requires { bit < bits_of words.now }
    ensures { result ≡ is_set words.now bit }
{
    words[bit / 64] >> (bit % 64) & 1 == 1
}

/// Sets the bit with this number.
fn set_bit(words: &mut Vec<u64>, bit: usize)
    requires { bit < bits_of words.old.items }
    ensures bits { (b : ℕ) → is_set words.new.items b ≡ (if b == bit then true else is_set words.old.items b) }
    ensures words { length words.new.items ≡ length words.old.items }
{
    words[bit / 64] |= 1 << (bit % 64);
}

/// Clears the bit with this number.
fn clear_bit(words: &mut Vec<u64>, bit: usize)
    requires { bit < bits_of words.old.items }
    ensures bits { (b : ℕ) → is_set words.new.items b ≡ (if b == bit then false else is_set words.old.items b) }
    ensures words { length words.new.items ≡ length words.old.items }
{
    words[bit / 64] &= !(1 << (bit % 64));
}

/// A word with the bits from `low` up to below `high`.
fn mask(low: usize, high: usize) -> u64
    requires some { low < high }
    requires limit { high ≤ 64 }
    ensures { (k : ℕ) → k < 64 → bit_at result k ≡ (if is_between low high k then 1 else 0) }
{
    u64::MAX << low & u64::MAX >> (64 - high)
}

/// Sets the bits from one number up to below another, word by word.
fn set_bits(words: &mut Vec<u64>, from: usize, end: usize)
    requires order { from ≤ end }
    requires within { end ≤ bits_of words.old.items }
    requires limit { length words.old.items ≤ 129 }
    ensures bits { (b : ℕ) → is_set words.new.items b ≡ (if is_between from end b then true else is_set words.old.items b) }
    ensures words { length words.new.items ≡ length words.old.items }
{
    let mut bit = from;
    while bit < end {
        let next = end.min((bit / 64 + 1) * 64);
        set_in_word(words, bit, next);
        bit = next;
    }
}

/// Sets the bits from one number up to below another, which are of one word.
fn set_in_word(words: &mut Vec<u64>, from: usize, end: usize)
    requires some { from < end }
    requires within { end ≤ bits_of words.old.items }
    requires word { end ≤ 64 * (from / 64) + 64 }
    ensures bits { (b : ℕ) → is_set words.new.items b ≡ (if is_between from end b then true else is_set words.old.items b) }
    ensures words { length words.new.items ≡ length words.old.items }
{
    let index = from / 64;
    words[index] |= mask(from % 64, end - 64 * index);
}

/// Clears the bits from one number up to below another, word by word. It answers how many of them were set.
fn clear_bits(words: &mut Vec<u64>, from: usize, end: usize) -> usize
    requires order { from ≤ end }
    requires within { end ≤ bits_of words.old.items }
    requires limit { length words.old.items ≤ 129 }
    ensures bits { (b : ℕ) → is_set words.new.items b ≡ (if is_between from end b then false else is_set words.old.items b) }
    ensures count { result ≡ set_from words.old.items from (end - from) }
    ensures words { length words.new.items ≡ length words.old.items }
{
    let mut bit = from;
    let mut cleared = 0;
    while bit < end {
        let next = end.min((bit / 64 + 1) * 64);
        cleared += clear_in_word(words, bit, next);
        bit = next;
    }
    cleared
}

/// Clears the bits from one number up to below another, which are of one word. It answers how many of them were set.
fn clear_in_word(words: &mut Vec<u64>, from: usize, end: usize) -> usize
    requires some { from < end }
    requires within { end ≤ bits_of words.old.items }
    requires word { end ≤ 64 * (from / 64) + 64 }
    ensures bits { (b : ℕ) → is_set words.new.items b ≡ (if is_between from end b then false else is_set words.old.items b) }
    ensures count { result ≡ set_from words.old.items from (end - from) }
    ensures words { length words.new.items ≡ length words.old.items }
{
    let index = from / 64;
    let mask = mask(from % 64, end - 64 * index);
    let word = words[index];
    words[index] = word & !mask;
    (word & mask).count_ones() as usize
}

/// Clears every bit.
fn clear_words(words: &mut Vec<u64>)
    ensures { words.new.items ≡ replicate (length words.old.items) 0 }
{
    words.as_mut_slice().fill(0);
}

/// The number of the first bit that is set, from one up to below an end.
fn first_bit(words: &[u64], from: usize, end: usize) -> Option<usize>
    requires end { end ≤ bits_of words.now }
    requires limit { length words.now ≤ 129 }
    ensures { MatchOption result
        ((b : ℕ) → from ≤ b → b < end → is_set words.now b ≡ false)
        (λ first. (from ≤ first) × (first < end) × (is_set words.now first ≡ true) × ((b : ℕ) → from ≤ b → b < first → is_set words.now b ≡ false)) }
{
    let mut bit = from;
    while bit < end {
        let rest = words[bit / 64] >> (bit % 64);
        if rest != 0 {
            let first = bit + rest.trailing_zeros() as usize;
            return if first < end { Some(first) } else { None };
        }
        bit = (bit / 64 + 1) * 64;
    }
    None
}
