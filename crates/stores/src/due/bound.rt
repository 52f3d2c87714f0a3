//! From when on places of a block of missing places may be due, for a walk that looks at no block without need.
ghost use Rattle.std.specs.Prelude.{◌≡◌, ℕ, ◌<◌, ◌==◌, ◌||◌, false, true, Option, IsTrue, if◌then◌else◌};
ghost use Rattle.std.specs.Int.{bit_at};
ghost use Rattle.stores.specs.declared.ask_rule.AskRule.{AskRule};
ghost use Rattle.stores.specs.declared.slot.Slot.{Slot};
ghost use Rattle.stores.specs.Asking.{has_come};
ghost use Rattle.stores.specs.Bound.{IsDueFrom, IsBoundAt, leaves_out};

use crate::ask_rule::sooner;

/// From when on places of a block may be due by a rule. That may lie sooner than it has to, which costs a walk over the block and nothing
/// else.
#[derive(Clone, Copy, Debug, PartialEq, Eq)]
pub struct Bound {
    /// No place is due before this moment, but for those that are left out. None: none ever is.
    pub from: Option<u64>,
    /// The places that are left out, by the bits of the block: those that a look found due. Where they are then asked for, as is usual, the
    /// moment is exact, and the block need not be looked at again.
    pub without: u64,
}

impl Bound {
    /// That of a block where nothing is missing.
    pub const NONE: Bound = Bound {
        from: None,
        without: 0,
    };

    /// That of a block of which nothing is known.
    pub const UNKNOWN: Bound = Bound {
        from: Some(0),
        without: 0,
    };

    /// A place of the block is due from this moment on.
    pub fn meet(&mut self, moment: Option<u64>)
        ensures from { (now : ℕ) → has_come self.new.from now ≡ (has_come self.old.from now || has_come moment now) }
        ensures without { self.new.without ≡ self.old.without }
    {
        self.from = sooner(self.from, moment);
    }

    /// Leaves out the place with this bit.
    pub fn leave_out(&mut self, bit: usize)
        requires { bit < 64 }
        ensures from { self.new.from ≡ self.old.from }
        ensures without { (b : ℕ) → b < 64 → leaves_out self.new b ≡ (if b == bit then true else leaves_out self.old b) }
    {
        self.without |= 1 << bit;
    }

    /// The places with these bits are left out no more, and each is due from this moment on.
    pub fn take_in(&mut self, bits: u64, moment: Option<u64>)
        ensures from { (now : ℕ) → has_come self.new.from now ≡ (has_come self.old.from now || has_come moment now) }
        ensures without { (b : ℕ) → b < 64 → leaves_out self.new b ≡ (if bit_at bits b == 1 then false else leaves_out self.old b) }
    {
        // Where none is left out and another is due as soon, as with most asks, nothing has to be written.
        if self.without == 0 && is_no_sooner(moment, self.from) {
            return;
        }
        self.from = sooner(self.from, moment);
        self.without &= !bits;
    }

    /// The moment from which on a place of the block may be due: none is due before it.
    pub fn due_from(&self) -> Option<u64>
        ensures { (rule : AskRule) (slot : Option Slot) (bit : ℕ) → IsBoundAt rule self.now bit slot → IsDueFrom rule result slot }
    {
        if self.without != 0 {
            return Some(0);
        }
        self.from
    }
}

/// Whether a moment has come.
pub fn has_come(moment: Option<u64>, now: u64) -> bool
    ensures { result ≡ has_come moment now }
{
    match moment {
        Some(moment) => moment <= now,
        None => false,
    }
}

/// Whether one moment comes no sooner than another.
pub fn is_no_sooner(one: Option<u64>, other: Option<u64>) -> bool
    ensures later { IsTrue result → (now : ℕ) → has_come one now ≡ true → has_come other now ≡ true }
    ensures sooner { result ≡ false → (now : ℕ) → has_come other now ≡ true → has_come one now ≡ true }
{
    match (one, other) {
        (None, _) => true,
        (Some(one), Some(other)) => one >= other,
        (Some(_), None) => false,
    }
}
