//! A silence in which packets were lost, and when they were sent.
ghost use Rattle.std.specs.Prelude.{◌≡◌, ◌<◌, ◌^◌};
ghost use Rattle.timing.specs.Silence.{is_long, lead_of};

use places::Place;

/// Nothing came between the packets of two places, and those of the places between them are missing.
#[derive(Clone, Copy, Debug, PartialEq, Eq)]
pub struct Silence {
    /// The place of the last packet before it.
    pub below: Place,
    /// The place of the first packet behind it.
    pub above: Place,
    /// How long it was, in milliseconds.
    pub length: u64,
    /// How many packets had come in one second at most, of late; 0 where that isn't known.
    pub peak: u64,
}

/// In a silence that tells something so many packets would have come, at the rate of its peak.
const LEAST_PACKETS: u64 = 4;

impl Silence {
    /// Whether it is so long that four packets would have come in it at the rate of its peak. In a shorter one a packet of a slow stream may
    /// be lost, and the next one be in time.
    pub fn is_long(&self) -> bool
        ensures { result ≡ is_long self.now }
    {
        self.length.saturating_mul(self.peak) >= LEAST_PACKETS * 1000
    }

    /// How long before its end the packet of a place that was lost in it was sent, in milliseconds: as the packets lie that were sent
    /// evenly over all of it, or at the rate of its peak right before its end, whichever is shorter. So a stream that paused was not
    /// sent in its pause. 0 for any other place, and where no peak is known.
    pub fn lead(&self, place: u64) -> u64
        ensures { result ≡ lead_of self.now place }
    {
        let (below, above) = (self.below.value(), self.above.value());
        if self.peak == 0 || place <= below || place >= above {
            return 0;
        }
        let behind = above - place;
        let evenly = self.length.saturating_mul(behind) / (above - below);
        evenly.min(behind * 1000 / self.peak)
    }
}
