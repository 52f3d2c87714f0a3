//! What an endpoint counts of the retransmissions that did not fit the time.
ghost use Rattle.std.specs.Prelude.{◌≡◌, ◌^◌, ◌<◌};
ghost use Rattle.endpoint.specs.ResendCounts.{count_verdict};

use crate::receive_counts::add;
use crate::resend_rule::Verdict;

/// How many retransmissions were wanted and not sent, by why, since the endpoint was made. Each count stays at 2^64 - 1
/// once it is there.
#[derive(Clone, Copy, Debug, Default, PartialEq, Eq)]
pub struct ResendCounts {
    /// The packet was retransmitted too short a while before.
    pub early: u64,
    /// The packet was past its deadline.
    pub expired: u64,
}

impl ResendCounts {
    /// Nothing was counted.
    pub(crate) const NONE: ResendCounts = ResendCounts {
        early: 0,
        expired: 0,
    };

    /// No count is greater than it can be. (It computes nothing.)
    pub(crate) fn have_64_bits(self)
        ensures { (self.early < 2 ^ 64) × (self.expired < 2 ^ 64) }
    {}

    /// Counts a packet that was passed over for this.
    pub(crate) fn count(&mut self, verdict: Verdict)
        ensures { self.new ≡ count_verdict verdict self.old }
    {
        match verdict {
            Verdict::Go => {}
            Verdict::Early => add(&mut self.early, 1),
            Verdict::Expired => add(&mut self.expired, 1),
        }
    }
}
