//! How much of a stream is lost, and how much only late.
ghost use Rattle.std.specs.Prelude.{◌≡◌};
ghost use Rattle.timing.specs.Losses.{are_many, asks_for, both, lost_of, needless_at, none_lost, repaired_at, taken_at, tally_none, turned_at};

/// How long packets are counted together, in milliseconds; what was counted in the span before is known beside them.
const SPAN: u64 = 5000;

/// Of fewer that were lost no share is told.
const MANY: u64 = 4;

/// What came in one span.
#[derive(Clone, Copy, Debug, PartialEq, Eq)]
pub struct Tally {
    /// Packets that were taken: media, and retransmissions.
    pub taken: u64,
    /// Media that was missing when it came.
    pub late: u64,
    /// Retransmissions.
    pub repaired: u64,
    /// Of these, those that were measured.
    pub measured: u64,
    /// And of these, those whose media packet came behind them.
    pub needless: u64,
}

/// What of a stream was lost of late, as far as its receiver can tell: in the last five to ten seconds. A packet that is missing may be late
/// alone. Its place is asked for all the same, and then its retransmission is taken, and it comes behind that. How often it does is seen by those
/// that are measured, one at a time.
#[derive(Clone, Copy, Debug, PartialEq, Eq)]
pub struct Losses {
    recent: Tally,
    before: Tally,
    since: u64,
}

impl Tally {
    /// Nothing came.
    const NONE: Tally = Tally {
        taken: 0,
        late: 0,
        repaired: 0,
        measured: 0,
        needless: 0,
    };

    /// Both together.
    fn with(&self, other: &Tally) -> Tally
        ensures { result ≡ both self.now other.now }
    {
        Tally {
            taken: self.taken.saturating_add(other.taken),
            late: self.late.saturating_add(other.late),
            repaired: self.repaired.saturating_add(other.repaired),
            measured: self.measured.saturating_add(other.measured),
            needless: self.needless.saturating_add(other.needless),
        }
    }

    /// How many were lost: the share of the retransmissions that was not needless.
    fn lost(&self) -> u64
        ensures { result ≡ lost_of self.now }
    {
        let needed = self.measured.saturating_sub(self.needless);
        if self.measured == 0 {
            self.repaired
        } else {
            self.repaired.saturating_mul(needed) / self.measured
        }
    }

    /// Whether four were lost, and more than one in eight.
    fn are_many(&self) -> bool
        ensures { result ≡ are_many self.now }
    {
        let lost = self.lost();
        lost >= MANY && lost.saturating_mul(8) > self.taken
    }

    /// How many asks for one place are worth more than to wait for what may be late.
    fn asks(&self) -> Option<u64>
        ensures { result ≡ asks_for self.now }
    {
        if self.late.saturating_mul(16) <= self.taken {
            return None;
        }
        let lost = self.lost();
        Some(if lost.saturating_mul(1000) <= self.taken {
            0
        } else if lost.saturating_mul(32) <= self.taken {
            1
        } else if lost.saturating_mul(8) <= self.taken {
            2
        } else {
            3
        })
    }
}

impl Losses {
    /// Nothing came so far.
    pub fn new() -> Losses
        ensures { result ≡ none_lost }
    {
        Losses {
            recent: Tally::NONE,
            before: Tally::NONE,
            since: 0,
        }
    }

    /// A media packet was taken at the moment `now`, in milliseconds, and was missing before or was not.
    pub fn take(&mut self, is_late: bool, now: u64)
        ensures { self.new ≡ taken_at self.old is_late now }
    {
        *self = self.turned(now);
        self.recent.taken = self.recent.taken.saturating_add(1);
        if is_late {
            self.recent.late = self.recent.late.saturating_add(1);
        }
    }

    /// A retransmission was taken, of a place that is measured or is not.
    pub fn repair(&mut self, is_measured: bool, now: u64)
        ensures { self.new ≡ repaired_at self.old is_measured now }
    {
        *self = self.turned(now);
        self.recent.taken = self.recent.taken.saturating_add(1);
        self.recent.repaired = self.recent.repaired.saturating_add(1);
        if is_measured {
            self.recent.measured = self.recent.measured.saturating_add(1);
        }
    }

    /// The media packet of a place that was measured came behind its retransmission.
    pub fn be_needless(&mut self, now: u64)
        ensures { self.new ≡ needless_at self.old now }
    {
        *self = self.turned(now);
        self.recent.needless = self.recent.needless.saturating_add(1);
    }

    /// So many asks for one place are to fit into the time that there is, before it is waited for what may be late: none where hardly one in a
    /// thousand is lost, one where no more than one in 32 is, two up to one in eight, and else three. Then about one in a thousand stays lost, of
    /// as many as are asked for in time. None is told where no more than one in sixteen comes late: there asks for what is not lost cost little.
    pub fn asks(&self, now: u64) -> Option<u64>
        ensures { result ≡ asks_for (both (turned_at self.now now).recent (turned_at self.now now).before) }
    {
        let turned = self.turned(now);
        turned.recent.with(&turned.before).asks()
    }

    /// Whether many are lost: four, and more than one in eight. What has no answer by when one comes, on the mean, was lost more likely than not,
    /// then.
    pub fn are_many(&self, now: u64) -> bool
        ensures { result ≡ are_many (both (turned_at self.now now).recent (turned_at self.now now).before) }
    {
        let turned = self.turned(now);
        turned.recent.with(&turned.before).are_many()
    }

    /// What is remembered at the moment `now`.
    fn turned(&self, now: u64) -> Losses
        ensures { result ≡ turned_at self.now now }
    {
        let span = now.saturating_sub(self.since);
        if span < SPAN {
            *self
        } else {
            Losses {
                recent: Tally::NONE,
                before: if span < 2 * SPAN {
                    self.recent
                } else {
                    Tally::NONE
                },
                since: now,
            }
        }
    }
}
