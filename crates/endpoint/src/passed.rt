//! What a play passes.
ghost use Rattle.std.specs.Prelude.{◌≡◌};
ghost use Rattle.receiver.specs.Peeking.{played_of};
ghost use Rattle.endpoint.specs.ReceiveCounts.{passed_by};

use places::Place;
use receiver::{Peeked, Played};

/// The place that a play passes, and whether it is played or given up.
#[derive(Clone, Copy, Debug, PartialEq, Eq)]
pub enum Passed {
    /// The next place is waited for.
    Nothing,
    /// Its packet is played.
    Packet(Place),
    /// It is given up.
    Gap(Place),
}

impl Passed {
    /// What a play passed.
    pub fn by(played: &Played) -> Passed
        ensures { result ≡ passed_by played.now }
    {
        match played {
            Played::Wait => Passed::Nothing,
            Played::Packet(place, _) => Passed::Packet(*place),
            Played::Gap(place) => Passed::Gap(*place),
        }
    }

    /// What a play passes whose answer was lent.
    pub fn lent(peeked: Peeked<'_>) -> Passed
        ensures { result ≡ passed_by (played_of peeked.entry) }
    {
        match peeked {
            Peeked::Wait => Passed::Nothing,
            Peeked::Packet(place, _) => Passed::Packet(place),
            Peeked::Gap(place) => Passed::Gap(place),
        }
    }
}
