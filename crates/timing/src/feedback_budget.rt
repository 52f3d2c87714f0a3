//! How much feedback may leave for an address.
ghost use Rattle.std.specs.Prelude.{◌≡◌};
ghost use Rattle.timing.specs.FeedbackBudget.{earned_by, nothing_earned, room_of, spent_by};

/// No more octets than these are saved up: as many as the longest NACK has.
const DEPTH: u64 = 268;

/// What comes earns one in so many of its octets, as RTCP has five per cent of a session's bandwidth (RFC 3550, section 6.2),
const SHARE: u64 = 20;

/// or so many if that is more, and it has them: a NACK that names one packet has 16. (Fifty packets of sound a second, of which three in ten are
/// lost, want some 800 octets of NACKs a second, each written twice.)
const LEAST: u64 = 24;

/// What may leave as feedback for an address: it is earned by what comes from there, so that nobody can have it sent to an address that sends
/// nothing (as RFC 9000, section 8.1, has it of an address that was not validated). It is a bucket, which what comes fills and what leaves empties,
/// and no more datagrams leave than came.
#[derive(Clone, Copy, Debug, PartialEq, Eq)]
pub struct FeedbackBudget {
    octets: u64,
    /// How many datagrams came more than left.
    datagrams: u64,
}

impl FeedbackBudget {
    /// Nothing came so far.
    pub fn new() -> FeedbackBudget
        ensures { result ≡ nothing_earned }
    {
        FeedbackBudget {
            octets: 0,
            datagrams: 0,
        }
    }

    /// A datagram of so many octets came from there, as UDP carried it.
    pub fn earn(&mut self, octets: usize)
        ensures { self.new ≡ earned_by self.old octets }
    {
        let octets = octets as u64;
        let earned = (octets / SHARE).max(LEAST).min(octets);
        self.octets = self.octets.saturating_add(earned).min(DEPTH);
        self.datagrams = self.datagrams.saturating_add(1);
    }

    /// How many octets the next datagram for it may have.
    pub fn room(&self) -> u64
        ensures { result ≡ room_of self.now }
    {
        if self.datagrams == 0 { 0 } else { self.octets }
    }

    /// A datagram of so many octets leaves for it.
    pub fn spend(&mut self, octets: usize)
        ensures { self.new ≡ spent_by self.old octets }
    {
        self.octets = self.octets.saturating_sub(octets as u64);
        self.datagrams = self.datagrams.saturating_sub(1);
    }
}
