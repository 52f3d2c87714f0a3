//! What a whole run came to.
ghost use Rattle.std.specs.Prelude.{◌≡◌, List};
ghost use Rattle.world.specs.declared.event.Entry.{Entry};
ghost use Rattle.world.specs.Counts.{counts_of};
ghost use Rattle.runs.specs.Tally.{tally_of};

use world::Counts;

/// What a run came to.
#[derive(Clone, Copy, Debug, PartialEq, Eq)]
pub struct Tally {
    /// How many packets the sender sent.
    pub sent: u64,
    /// How many of them were kept from the receiver on purpose.
    pub dropped: u64,
    /// How many retransmissions the sender made.
    pub repaired: u64,
    /// How many packets the receiver played.
    pub played: u64,
    /// How many places the receiver gave up.
    pub gaps: u64,
}

impl Tally {
    /// What a log comes to of which these are the counts, where so many packets were dropped.
    pub(crate) fn of(counts: Counts, dropped: u64) -> Tally
        ensures { (log : List Entry) → counts ≡ counts_of log → result ≡ tally_of dropped log }
    {
        Tally {
            sent: counts.sent,
            dropped,
            repaired: counts.repaired,
            played: counts.played,
            gaps: counts.gaps,
        }
    }
}
