ghost use Rattle.std.specs.Prelude.{◌≡◌, ℕ, ◌^◌, ◌<◌, List, Some};
ghost use Rattle.rtpwire.specs.declared.content.Content.{Content};
ghost use Rattle.stores.specs.declared.ask_rule.AskRule.{AskRule};
ghost use Rattle.stores.specs.Asking.{is_due, has_come};
ghost use Rattle.stores.specs.DueBy.{IsDueBy};
ghost use Rattle.stores.specs.Pool.{slot_in};

use crate::ask_rule::{AskRule, DueBy, time_from};

/// What a ring window keeps for one place, beside the contents. It is small: a packet that jumps far ahead makes
/// thousands of them. The smallest fields stand first, beside what tells the variants apart.
#[derive(Clone, Copy, Debug, PartialEq, Eq)]
pub enum Cell {
    /// The place was taken, and its content lies in the buffer with this number.
    Taken(u16),
    /// The place was not taken so far: how often it was asked for, the moment at which that was noticed, and the
    /// moment of the last ask, or 0.
    Unseen { asks: u8, noticed: u64, last: u64 },
}

impl Cell {
    /// Whether its place is one of these that are due.
    pub fn is_due(&self, by: DueBy) -> bool
        ensures { (contents : List Content) (now : ℕ) (rule : AskRule) → IsDueBy by now rule → result ≡ is_due now rule.delay rule.retry rule.asks (Some (slot_in contents self.now)) }
    {
        match *self {
            Cell::Unseen {
                asks,
                noticed,
                last,
            } => by.has(noticed, asks, last),
            Cell::Taken(_) => false,
        }
    }

    /// The moment from which on it is, where nothing changes until then. None where there is no such moment.
    pub fn due_from(&self, rule: AskRule) -> Option<u64>
        ensures { (contents : List Content) (now : ℕ) → now < 2 ^ 64 → is_due now rule.delay rule.retry rule.asks (Some (slot_in contents self.now)) ≡ has_come result now }
    {
        match self {
            Cell::Unseen {
                asks,
                noticed,
                last,
            } if *asks < rule.asks => time_from(rule, *noticed, *asks, *last),
            _ => None,
        }
    }
}
