//! Until when what is retransmitted can be in time at the far side.
ghost use Rattle.std.specs.Prelude.{◌≡◌};
ghost use Rattle.relays.specs.FarLatency.{HearsLatency, HearsTold, deadline_at, deadline_by, gap_seen, untold};

use crate::latency_report::latency_in;
use endpoint::Told;
use fbwire::FeedbackFault;
use timing::Lately;

/// How much longer one packet may take than another, in milliseconds.
const LEEWAY: u64 = 500;

/// Gaps of the stream below this are within that leeway, in milliseconds.
const SHORT: u64 = 100;

/// What the far side told of its latency of late, and how far apart packets were sent: by both it is known how old a
/// packet may be to be of use there.
#[derive(Clone, Copy, Debug, PartialEq, Eq)]
pub struct FarLatency {
    told: Lately,
    gaps: Lately,
}

impl FarLatency {
    /// Nothing was told or sent so far.
    pub(crate) fn new() -> FarLatency
        ensures { result ≡ untold }
    {
        FarLatency {
            told: Lately::new(),
            gaps: Lately::new(),
        }
    }

    /// A datagram of the far side came at the moment `now`, and was heard so. What is no feedback for the session tells
    /// nothing.
    pub(crate) fn hear(&mut self, answer: &Result<Told, FeedbackFault>, octets: &[u8], now: u64)
        ensures { HearsLatency answer.now octets.now now self.old self.new }
    {
        if let Ok(Told::Feedback(_)) = answer {
            self.hear_feedback(octets, now);
        }
    }

    /// Feedback for the session came.
    fn hear_feedback(&mut self, octets: &[u8], now: u64)
        ensures { HearsTold octets.now now self.old self.new }
    {
        if let Some(latency) = latency_in(octets) {
            self.told.see(latency, now);
        }
    }

    /// A packet is sent at the moment `now`, and the one before was at the moment `last`.
    pub(crate) fn send(&mut self, last: Option<u64>, now: u64)
        ensures { self.new ≡ gap_seen last now self.old }
    {
        let Some(last) = last else {
            return;
        };
        let gap = now.saturating_sub(last);
        if gap >= SHORT {
            self.gaps.see(gap, now);
        }
    }

    /// How long ago a packet may have been sent to be of use at the far side, in milliseconds. None: nothing was told
    /// of late.
    pub(crate) fn deadline(&self, now: u64) -> Option<u64>
        ensures { result ≡ deadline_at self.now now }
    {
        deadline_by(self.told.greatest(now), self.gaps.greatest(now))
    }
}

/// The same of a latency, where packets were sent so far apart at most.
fn deadline_by(latency: u64, gap: u64) -> Option<u64>
    ensures { result ≡ deadline_by latency gap }
{
    if latency == 0 {
        return None;
    }
    let waited = latency.saturating_mul(9) / 4;
    Some(waited.saturating_add(gap.saturating_add(LEEWAY)))
}
