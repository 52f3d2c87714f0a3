//! A value on the heap, as C holds it: an address that C never follows.
ghost use Rattle.std.specs.Prelude.{Option};

mod methods;

use std::alloc::Global;
use std::marker::Model;

/// Owns a value by the address of its box, or owns nothing, as where all of it is zero. It is not `Drop`, so a value is never
/// lost.
#[repr(C)]
pub struct Handle<T> {
    at: *mut T,
    alloc: Global,
    held: bool,
    pub ghost inside: { Option T },
}

impl<T> Model for Handle<T> {
    ghost use Rattle.gozdrit.specs.Held.{held_at};

    ghost also_owns = { λ h. held_at T.row h.alloc h.at h.held h.inside };
}
