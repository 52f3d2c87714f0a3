//! How many entries of a log are of a kind.
ghost use Rattle.std.specs.Prelude.{◌≡◌, ◌-◌, ◌<◌, ◌^◌, ◌++◌, [], ◌∷◌, List, length};
ghost use Rattle.world.specs.declared.event.Entry.{Entry as Logged};
ghost use Rattle.world.specs.Counts.{is_sent, is_repaired, is_played, is_gap, counts_of};

use crate::event::Entry;
use receiver::Played;

/// How many entries of a log are of the kinds that a run is summed up by.
#[derive(Clone, Copy, Debug, PartialEq, Eq)]
pub struct Counts {
    /// How many packets the sender sent.
    pub sent: u64,
    /// How many retransmissions the sender made.
    pub repaired: u64,
    /// How many packets the receiver played.
    pub played: u64,
    /// How many places the receiver gave up.
    pub gaps: u64,
}

impl Counts {
    /// Those of a log with no entry.
    pub(crate) fn none() -> Counts
        ensures { result ≡ counts_of [] }
    {
        Counts {
            sent: 0,
            repaired: 0,
            played: 0,
            gaps: 0,
        }
    }

    /// Those of a log.
    pub(crate) fn of(log: &[Entry]) -> Counts
        ensures { result ≡ counts_of log.now }
    {
        let mut counts = Counts::none();
        for entry in log {
            counts = counts.with(entry);
        }
        counts
    }

    /// Those of a log with one more entry. The log has fewer than 2^64 - 1 of them.
    pub(crate) fn with(self, entry: &Entry) -> Counts
        requires { (log : List Logged) × (self ≡ counts_of log) × (length log < 2 ^ 64 - 1) }
        ensures { (log : List Logged) → self ≡ counts_of log → result ≡ counts_of (log ++ entry.now ∷ []) }
    {
        Counts {
            sent: self.sent + u64::from(is_sent(entry)),
            repaired: self.repaired + u64::from(is_repaired(entry)),
            played: self.played + u64::from(is_played(entry)),
            gaps: self.gaps + u64::from(is_gap(entry)),
        }
    }
}

/// A packet was sent.
fn is_sent(entry: &Entry) -> bool
    ensures { result ≡ is_sent entry.now }
{
    matches!(entry, Entry::Sent { .. })
}

/// A packet was retransmitted.
fn is_repaired(entry: &Entry) -> bool
    ensures { result ≡ is_repaired entry.now }
{
    matches!(entry, Entry::Repaired { .. })
}

/// A packet was played.
fn is_played(entry: &Entry) -> bool
    ensures { result ≡ is_played entry.now }
{
    match entry {
        Entry::Played { played, .. } => matches!(played, Played::Packet(..)),
        _ => false,
    }
}

/// A place was given up.
fn is_gap(entry: &Entry) -> bool
    ensures { result ≡ is_gap entry.now }
{
    match entry {
        Entry::Played { played, .. } => matches!(played, Played::Gap(_)),
        _ => false,
    }
}
