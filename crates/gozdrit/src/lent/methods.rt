// Whether anything lies there, and a reference to it.
ghost use Rattle.std.specs.Prelude.{◌≡◌, Some, IsSome, is_none};
ghost use Rattle.std.specs.Borrow.{sem};
ghost use Rattle.gozdrit.specs.Lends.{LendsValue, LendsItems};

use crate::lent::{Lent, LentSlice};
use std::slice;

impl<T> Lent<T> {
    /// Whether nothing lies there.
    pub fn is_null(&mut self) -> bool
        ensures { (result ≡ is_none self.old.value) × (self.new ≡ self.old) }
    {
        self.at.is_null()
    }

    /// The value that lies there. What is written to it is written to C's memory.
    pub fn get(&mut self) -> &mut T
        requires { IsSome self.old.value }
        ensures* writes_back { sem 𝓛 (LendsValue T.row self.entry result) }
        ensures value { Some result.now ≡ self.old.value }
    {
        unsafe { &mut *self.at }
    }
}

impl<T> LentSlice<T> {
    /// Whether the pointer is null though values are to lie there. A slice of none is not missing.
    pub fn is_missing(&mut self) -> bool
        ensures answer { result ≡ is_none self.old.items }
        ensures unchanged { self.new ≡ self.old }
    {
        // Both are only read, so no branch is needed.
        self.at.is_null() & (self.len != 0)
    }

    /// The values that lie there, or an empty slice where the length is 0.
    pub fn get(&mut self) -> &mut [T]
        requires { IsSome self.old.items }
        ensures* writes_back { sem 𝓛 (LendsItems T.row self.entry result) }
        ensures value { Some result.now ≡ self.old.items }
    {
        // A slice of no values may begin anywhere but at null.
        let at = if self.at.is_null() {
            self as *mut LentSlice<T> as *mut T
        } else {
            self.at
        };
        unsafe { slice::from_raw_parts_mut(at, self.len) }
    }
}
