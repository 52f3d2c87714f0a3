// Whether anything lies there, a reference to it, and one to the octets behind it.
ghost use Rattle.std.specs.Prelude.{◌≡◌, length, Some, IsSome, is_none};
ghost use Rattle.std.specs.Borrow.{sem};
ghost use Rattle.gozdrit.specs.Lends.{LendsKnown, LendsRest};

use crate::sized::LentSized;
use std::slice;

impl<T> LentSized<T> {
    /// Whether nothing lies there.
    pub fn is_null(&mut self) -> bool
        ensures { (result ≡ is_none self.old.value) × (self.new ≡ self.old) }
    {
        self.at.is_null()
    }

    /// The value that lies there. What is written to it is written to C's memory.
    pub fn get(&mut self) -> &mut T
        requires { IsSome self.old.value }
        ensures* writes_back { sem 𝓛 (LendsKnown T.row self.entry result) }
        ensures value { Some result.now ≡ self.old.value }
    {
        unsafe { &mut *self.at }
    }

    /// The octets behind it, which are so many.
    pub fn rest(&mut self, len: usize) -> &mut [u8]
        requires there { IsSome self.old.value }
        requires whole { len ≡ length self.old.rest }
        ensures* writes_back { sem 𝓛 (LendsRest T.row self.entry result) }
        ensures value { result.now ≡ self.old.rest }
    {
        unsafe { slice::from_raw_parts_mut(self.at.add(1) as *mut u8, len) }
    }
}
