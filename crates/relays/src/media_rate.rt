//! How fast media is forwarded.
ghost use Rattle.std.specs.Prelude.{◌≡◌};
ghost use Rattle.relays.specs.MediaRate.{measured_after, measured_at, unmeasured};

/// Over how long it is measured, in milliseconds. Of a stream that is silent for so long nothing is left.
const SECOND: u64 = 1000;

/// No media is as fast, in bits a second.
const FAST: u64 = 1 << 50;

/// The rate of media as it is measured: its octets with a weight each, which is one as they leave and falls by a thousandth each
/// millisecond. So it is the mean over about a second. Nothing is taken for granted.
#[derive(Clone, Copy, Debug, PartialEq, Eq)]
pub struct MediaRate {
    /// In bits a second.
    bits: u64,
    /// The moment at which the last packet left.
    last: Option<u64>,
}

impl MediaRate {
    /// Nothing was measured so far.
    pub fn new() -> MediaRate
        ensures { result ≡ unmeasured }
    {
        MediaRate {
            bits: 0,
            last: None,
        }
    }

    /// A packet of so many octets leaves at the moment `now`, in milliseconds.
    pub fn measure(&mut self, octets: usize, now: u64)
        ensures { self.new ≡ measured_after self.old octets now }
    {
        self.bits = self
            .bits_at(now)
            .saturating_add((octets as u64).saturating_mul(8));
        self.last = Some(now);
    }

    /// What is left at the moment `now` of what was measured, in bits a second.
    pub fn bits_at(&self, now: u64) -> u64
        ensures { result ≡ measured_at self.now now }
    {
        let Some(last) = self.last else {
            return 0;
        };
        // Most packets leave within the millisecond of the one before.
        if now <= last && self.bits < FAST {
            return self.bits;
        }
        let left = SECOND.saturating_sub(now.saturating_sub(last));
        self.bits.saturating_mul(left) / SECOND
    }

    /// The rate as the last packet left, in bits a second.
    pub fn bits(&self) -> u64
        ensures { result ≡ self.now.bits }
    {
        self.bits
    }
}
