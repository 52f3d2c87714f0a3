//! The words of a set's bits, by their positions.

/// A word of a set's bits, and the positions whose bits are in it, from one on: position 0, or that of the word's first bit.
#[derive(Clone, Copy, Debug, PartialEq, Eq)]
pub struct Block {
    pub word: usize,
    /// The first position.
    pub start: usize,
    /// The number of its bit in the word.
    pub bit: usize,
}
