ghost use Rattle.std.specs.Prelude.{◌≡◌};

use crate::ask_rule::{AskRule, is_time, time_from};
use rtpwire::Content;

/// What a window keeps for one place.
#[derive(Debug, Drop, PartialEq, Eq)]
pub enum Slot {
    /// The place was taken, with this content.
    Held(Content),
    /// The place was not taken so far, and a higher one was.
    Missing {
        /// The moment at which the place was noticed to be missing, in milliseconds.
        noticed: u64,
        /// How often it was asked for.
        asks: u8,
        /// The moment of the last ask, in milliseconds, and 0 before the first ask.
        last: u64,
    },
}

impl Slot {
    ghost use Rattle.std.specs.Prelude.{◌≡◌, Some};
    ghost use Rattle.stores.specs.Asking.{is_due, is_missing};

    /// Whether its place was not taken so far.
    pub fn is_missing(&self) -> bool
        ensures { result ≡ is_missing (Some self.now) }
    {
        matches!(self, Slot::Missing { .. })
    }

    /// Whether its place is to be asked for at the moment `now`: it is missing, and due by the rule.
    pub fn is_due(&self, now: u64, rule: AskRule) -> bool
        ensures { result ≡ is_due now rule.delay rule.retry rule.asks (Some self.now) }
    {
        SlotRef::of_slot(self).is_due(now, rule)
    }
}

/// A slot that a window lends: its content by reference, so that a window may keep contents as it likes.
#[derive(Clone, Copy, Debug, PartialEq, Eq)]
pub enum SlotRef<'a> {
    /// The place was taken, with this content.
    Held(&'a Content),
    /// The place was not taken so far, and a higher one was: the moment at which that was noticed, how often it was
    /// asked for, and the moment of the last ask, or 0, as [`Slot::Missing`] has them.
    Missing { noticed: u64, asks: u8, last: u64 },
}

impl<'a> SlotRef<'a> {
    ghost use Rattle.std.specs.Prelude.{◌≡◌, ◌^◌, ◌<◌, ℕ, Some};
    ghost use Rattle.stores.specs.Asking.{is_due, has_come};
    ghost use Rattle.stores.specs.Lent.{slot_of};

    /// The slot, lent.
    pub fn of_slot(slot: &'a Slot) -> SlotRef<'a>
        ensures { slot_of result ≡ slot.now }
    {
        match slot {
            Slot::Held(content) => SlotRef::Held(content),
            Slot::Missing {
                noticed,
                asks,
                last,
            } => SlotRef::Missing {
                noticed: *noticed,
                asks: *asks,
                last: *last,
            },
        }
    }

    /// Whether its place is to be asked for, as [`Slot::is_due`] says.
    pub fn is_due(&self, now: u64, rule: AskRule) -> bool
        ensures { result ≡ is_due now rule.delay rule.retry rule.asks (Some (slot_of self.now)) }
    {
        match self {
            SlotRef::Held(_) => false,
            SlotRef::Missing {
                noticed,
                asks,
                last,
            } => { *asks < rule.asks && is_time(now, rule, *noticed, *asks, *last) }
        }
    }

    /// The moment from which on its place is to be asked for, where nothing changes until then. None where there is no
    /// such moment.
    pub fn due_from(&self, rule: AskRule) -> Option<u64>
        ensures { (now : ℕ) → now < 2 ^ 64 → is_due now rule.delay rule.retry rule.asks (Some (slot_of self.now)) ≡ has_come result now }
    {
        match self {
            SlotRef::Missing {
                noticed,
                asks,
                last,
            } if *asks < rule.asks => time_from(rule, *noticed, *asks, *last),
            _ => None,
        }
    }

    /// The slot once more, as one of its own.
    pub fn to_slot(&self) -> Slot
        ensures { result ≡ slot_of self.now }
    {
        match self {
            SlotRef::Held(content) => Slot::Held(content.copy()),
            SlotRef::Missing {
                noticed,
                asks,
                last,
            } => Slot::Missing {
                noticed: *noticed,
                asks: *asks,
                last: *last,
            },
        }
    }
}

/// Why a window does not take a place.
#[derive(Clone, Copy, Debug, PartialEq, Eq, Hash)]
pub enum PutFault {
    /// Refusal 35: the place lies below the cursor, so it was played, given up or overrun, or lies before the first.
    Late,
    /// Refusal 36: the place is held already.
    Duplicate,
}

impl PutFault {
    ghost use Rattle.stores.specs.Fault.{put_number};

    /// Its refusal number.
    pub fn number(&self) -> u8
        ensures { result ≡ put_number self.now }
    {
        match self {
            PutFault::Late => 35,
            PutFault::Duplicate => 36,
        }
    }
}
