//! What C lends to a call by a pointer that may be null: one value, or a number of them.
//!
//! An export puts a pointer that it was passed into a [`Lent`] or a [`LentSlice`], asks whether
//! anything lies there, and gets a reference to it. No other code of an export touches a pointer.
//!
//! Null is nothing at all, where a value was to lie. For values that lie one after another it
//! depends on their number. Null with the length 0 is a slice of none, as C passes an empty one.
//! Null with any other length is a slice that is missing. A pointer that is not null with the
//! length 0 is a slice of none too.
//!
//! What C must keep, and nothing here checks: a pointer that is not null points to as many values
//! of the type as are said, in one block, whole and set. While the call runs nothing else reads
//! or writes them. They begin fewer than 2^63 bytes into their block, and the values of a slice
//! take fewer than 2^63 bytes.

ghost use Rattle.std.specs.Prelude.{Option, List};

mod methods;

use std::marker::Model;

/// What lies where a pointer of C points, or nothing if it is null.
#[derive(Drop)]
pub struct Lent<T> {
    /// The pointer as C passed it.
    pub at: *mut T,
    /// The value that lies there, or none at null.
    pub ghost value: { Option T },
}

impl<T> Model for Lent<T> {
    ghost use Rattle.gozdrit.specs.Lying.{value_lies_at};

    ghost also_owns = { λ p. value_lies_at T.row p.at p.value };
}

/// The values that lie one after another where a pointer of C points, or nothing if it is null.
#[derive(Drop)]
pub struct LentSlice<T> {
    /// The pointer as C passed it.
    pub at: *mut T,
    /// How many values are to lie there.
    pub len: usize,
    /// The values that lie there. They are none at all where the pointer is null and `len` is
    /// not 0, and an empty list where `len` is 0.
    pub ghost items: { Option (List T) },
}

impl<T> Model for LentSlice<T> {
    ghost use Rattle.gozdrit.specs.Lying.{slice_lies_at};

    ghost also_owns = { λ s. slice_lies_at T.row s.at s.len s.items };
}
