//! What feedback asked for and was not retransmitted, and why: told seldom.
ghost use Rattle.std.specs.Prelude.{◌≡◌, ◌↔◌, ◌<◌, ◌≤◌, None, Some, true};
ghost use Rattle.gozdrit_relay.specs.Unmet.{told_at, unmet_since};

use lines::{Word, push_line};
use stores::OutOfMemory;

/// How long nothing is told after something was, in milliseconds.
const APART: u64 = 10_000;

/// How much was asked for and not retransmitted, by why.
#[derive(Clone, Copy, Debug, PartialEq, Eq)]
pub struct Unmet {
    /// Packets past their deadline.
    pub expired: u64,
    /// Numbers that the history has no packet of.
    pub unknown: u64,
    /// Packets that were retransmitted as often as may be.
    pub exhausted: u64,
    /// Packets that were passed over since more was asked for than may leave soon.
    pub crowded: u64,
    /// NACKs for other media, or of other reporters.
    pub others: u64,
}

impl Unmet {
    /// Nothing was asked for in vain.
    pub const NONE: Unmet = Unmet {
        expired: 0,
        unknown: 0,
        exhausted: 0,
        crowded: 0,
        others: 0,
    };

    /// What is more of each than before.
    fn since(&self, before: &Unmet) -> Unmet
        ensures { result ≡ unmet_since before.now self.now }
    {
        Unmet {
            expired: self.expired.saturating_sub(before.expired),
            unknown: self.unknown.saturating_sub(before.unknown),
            exhausted: self.exhausted.saturating_sub(before.exhausted),
            crowded: self.crowded.saturating_sub(before.crowded),
            others: self.others.saturating_sub(before.others),
        }
    }

    /// Pushes the line that tells it.
    pub fn push(&self, line: &mut Vec<u8>) -> Result<(), OutOfMemory> {
        push_line(
            line,
            &[
                Word::Text(b"not retransmitted:"),
                Word::Decimal(self.expired),
                Word::Text(b"too old,"),
                Word::Decimal(self.unknown),
                Word::Text(b"not in the history,"),
                Word::Decimal(self.exhausted),
                Word::Text(b"as often as may be,"),
                Word::Decimal(self.crowded),
                Word::Text(b"of more than may leave;"),
                Word::Decimal(self.others),
                Word::Text(b"NACKs were for others"),
            ],
        )
    }
}

/// What of it was told, and from when on more is.
#[derive(Clone, Copy, Debug, PartialEq, Eq)]
pub struct UnmetTold {
    told: Unmet,
    next: u64,
}

impl UnmetTold {
    /// Nothing was told so far.
    pub const NOTHING: UnmetTold = UnmetTold {
        told: Unmet::NONE,
        next: 0,
    };

    /// Whether all of so much was told.
    pub fn has_told(&self, unmet: &Unmet) -> bool
        ensures { result ≡ true ↔ (unmet.now ≡ self.now.told) }
    {
        *unmet == self.told
    }

    /// So much there is at the moment `now`. How much of that is to be told now, since it was not before.
    pub fn look(&mut self, unmet: &Unmet, now: u64) -> Option<Unmet>
        ensures soon { now < self.old.next → (result ≡ None) × (self.new ≡ self.old) }
        ensures same { unmet.now ≡ self.old.told → (result ≡ None) × (self.new ≡ self.old) }
        ensures told { self.old.next ≤ now → (unmet.now ≡ self.old.told → ⊥) → (result ≡ Some (unmet_since self.old.told unmet.now)) × (self.new ≡ told_at unmet.now now) }
    {
        if now < self.next || *unmet == self.told {
            return None;
        }
        let more = unmet.since(&self.told);
        self.told = *unmet;
        self.next = now.saturating_add(APART);
        Some(more)
    }
}
