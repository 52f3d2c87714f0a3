//! A box taken apart: where its value lies, the heap that it lies on, and the right to free it.
ghost use Rattle.std.specs.Prelude.{◌≡◌};

use std::alloc::Global;
use std::marker::Model;

/// A value on the heap, by its address, and the heap.
pub struct Unboxed<T> {
    pub(crate) at: *mut T,
    pub(crate) heap: Global,
    pub ghost content: { T },
}

impl<T> Model for Unboxed<T> {
    ghost use Rattle.gozdrit.specs.Held.{boxed_at};

    ghost also_owns = { λ u. boxed_at T.row u.heap u.at u.content };
}

impl<T> Unboxed<T> {
    /// Takes a box apart.
    pub fn take_apart(whole: Box<T>) -> Unboxed<T>
    where
        T: Drop,
        ensures { result.content ≡ whole.value }
    {
        let (at, heap) = Box::into_raw_with_allocator(whole);
        Unboxed { at, heap }
    }

    /// Makes the box again.
    pub fn put_together(self) -> Box<T>
        ensures { result.value ≡ self.content }
    {
        let Unboxed { at, heap } = self;
        unsafe { Box::from_raw(heap, at) }
    }
}
