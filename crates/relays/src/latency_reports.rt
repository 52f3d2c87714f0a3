//! When the far side is told the latency.
ghost use Rattle.std.specs.Prelude.{◌≡◌, Some};
ghost use Rattle.relays.specs.LatencyReports.{is_due, reports_begun};

/// No more often than so is it told, in milliseconds.
const APART: u64 = 1000;

/// When the far side was told the latency last, where it is told at all.
#[derive(Clone, Copy, Debug, PartialEq, Eq)]
pub struct LatencyReports {
    last: Option<u64>,
}

impl LatencyReports {
    /// It was not told so far.
    pub(crate) fn new() -> LatencyReports
        ensures { result ≡ reports_begun }
    {
        LatencyReports { last: None }
    }

    /// It is told at the moment `now`.
    pub(crate) fn told(now: u64) -> LatencyReports
        ensures { result ≡ record { last = Some now } }
    {
        LatencyReports { last: Some(now) }
    }

    /// Whether it was not told for so long.
    pub(crate) fn is_due(&self, now: u64) -> bool
        ensures { result ≡ is_due self.now now }
    {
        match self.last {
            Some(last) => now.saturating_sub(last) >= APART,
            None => true,
        }
    }
}
