//! When packets leave for a player that are held for it: each as long after it was sent as all others.
ghost use Rattle.std.specs.Prelude.{◌≡◌, None};
ghost use Rattle.timing.specs.Playout.{agrees, came_early, extended, heard_at, heard_odd, heard_usual, is_beyond, is_odd, ms_of, new_playout, odd_after, release_at, ticks_of};

use crate::lately::Lately;

/// The RTP time of the first packet, in ticks, so that others may lie before it.
const FIRST: u64 = 1 << 33;

/// An RTP timestamp, and how many ticks it stands for: it goes on where its 32 bits begin anew.
#[derive(Clone, Copy, Debug, PartialEq, Eq)]
pub struct Stamp {
    pub timestamp: u32,
    pub ticks: u64,
}

/// A packet is odd that comes by more than so many milliseconds earlier or later than all that came lately.
const ODD: u64 = 100;

/// So many odd packets in a row are believed, where they agree.
const STEP: u64 = 11;

/// Odd packets that came in a row and agree, of which none was believed.
#[derive(Clone, Copy, Debug, PartialEq, Eq)]
pub struct Odd {
    /// How early they came, in milliseconds.
    pub least: u64,
    pub most: u64,
    /// The ticks of the last one.
    pub ticks: u64,
    /// How many timestamps they had.
    pub count: u64,
}

/// The clock of a stream (RFC 3550, section 5.1) beside that of its receiver. Of the packets that came lately the one that came soonest
/// behind its timestamp shows how both lie to each other. So it follows one that goes faster or slower. What doesn't go with it is odd, as
/// a timestamp that somebody made up: it moves nothing, until eleven in a row agree that the stream's clock has made a step.
#[derive(Clone, Copy, Debug, PartialEq, Eq)]
pub struct Playout {
    /// The ticks of a second.
    rate: u32,
    /// The latest timestamp that came.
    latest: Option<Stamp>,
    /// The moment at which the first packet came, in milliseconds.
    start: u64,
    /// How early packets came, by their timestamps, in milliseconds; and the earliest of late.
    early: Lately,
    most: u64,
    /// What came since, and does not go with that.
    odd: Option<Odd>,
}

impl Playout {
    /// The clock of a stream with so many ticks a second, of which nothing came so far. 0 is taken for 1.
    pub fn new(rate: u32) -> Playout
        ensures { result ≡ new_playout rate }
    {
        Playout {
            rate,
            latest: None,
            start: 0,
            early: Lately::new(),
            most: 0,
            odd: None,
        }
    }

    /// The ticks of a second.
    pub fn rate(&self) -> u32
        ensures { result ≡ self.now.rate }
    {
        self.rate
    }

    /// A packet with this timestamp came as it was sent, at the moment `now`, in milliseconds.
    pub fn hear(&mut self, timestamp: u32, now: u64)
        ensures { self.new ≡ heard_at self.old timestamp now }
    {
        let stamp = Stamp {
            timestamp,
            ticks: self.ticks(timestamp),
        };
        if self.latest.is_none() {
            self.start = now;
        }
        let early = self.earliness(stamp.ticks, now);
        if self.is_odd(stamp.ticks, early) {
            self.hear_odd(stamp, early, now);
        } else {
            self.hear_usual(stamp, early, now);
        }
    }

    /// Whether a packet came by much earlier or later than those before it. One that came earlier than all is odd only where it lies far
    /// beyond the latest one, too: else the way has become shorter.
    fn is_odd(&self, ticks: u64, early: u64) -> bool
        ensures { result ≡ is_odd self.now ticks early }
    {
        if self.latest.is_none() {
            return false;
        }
        early.saturating_add(ODD) < self.most
            || self.most.saturating_add(ODD) < early && self.is_beyond(ticks)
    }

    /// Whether these ticks lie far beyond the latest ones.
    fn is_beyond(&self, ticks: u64) -> bool
        ensures { result ≡ is_beyond self.now.latest self.now.rate ticks }
    {
        match self.latest {
            Some(latest) => self.ms(latest.ticks).saturating_add(ODD) < self.ms(ticks),
            None => false,
        }
    }

    /// A packet came that goes with those before it.
    fn hear_usual(&mut self, stamp: Stamp, early: u64, now: u64)
        ensures { self.new ≡ heard_usual self.old stamp early now }
    {
        let is_later = match self.latest {
            Some(latest) => latest.ticks <= stamp.ticks,
            None => true,
        };
        if is_later {
            self.latest = Some(stamp);
        }
        self.early.see(early, now);
        self.most = self.early.greatest(now);
        self.odd = None;
    }

    /// An odd one came: the clock is as it was, or begins anew with those that agree.
    fn hear_odd(&mut self, stamp: Stamp, early: u64, now: u64)
        ensures { self.new ≡ heard_odd self.old stamp early now }
    {
        let odd = odd_after(self.odd, stamp.ticks, early);
        if odd.count < STEP {
            self.odd = Some(odd);
            return;
        }
        self.latest = Some(stamp);
        self.early = Lately::new();
        self.early.see(odd.most, now);
        self.most = odd.most;
        self.odd = None;
    }

    /// The moment at which a packet with this timestamp leaves, for a player that plays so long after what came soonest, in
    /// milliseconds. One far beyond the latest is not held.
    pub fn release(&self, timestamp: u32, latency: u64) -> u64
        ensures { result ≡ release_at self.now timestamp latency }
    {
        let ticks = self.ticks(timestamp);
        if self.is_beyond(ticks) {
            return 0;
        }
        let behind = self
            .start
            .saturating_add(latency)
            .saturating_add(self.ms(ticks));
        behind.saturating_sub(self.most)
    }

    /// How many ticks a timestamp stands for: those that are nearest to the latest one's.
    fn ticks(&self, timestamp: u32) -> u64
        ensures { result ≡ ticks_of self.now.latest timestamp }
    {
        match self.latest {
            Some(latest) => extended(&latest, timestamp),
            None => FIRST,
        }
    }

    /// So many ticks in milliseconds.
    fn ms(&self, ticks: u64) -> u64
        ensures { result ≡ ms_of self.now.rate ticks }
    {
        ticks.saturating_mul(1000) / u64::from(self.rate.max(1))
    }

    /// How early a packet came, by so many ticks, beside the first one; a constant is added to all.
    fn earliness(&self, ticks: u64, now: u64) -> u64
        ensures { result ≡ came_early self.now.rate self.now.start ticks now }
    {
        self.ms(ticks)
            .saturating_sub(now.saturating_sub(self.start))
    }
}

/// The ticks of a timestamp that are nearest to those of another one.
fn extended(latest: &Stamp, timestamp: u32) -> u64
    ensures { result ≡ extended latest.now timestamp }
{
    let ahead = timestamp.wrapping_sub(latest.timestamp);
    if ahead < 1 << 31 {
        latest.ticks.saturating_add(u64::from(ahead))
    } else {
        let behind = latest.timestamp.wrapping_sub(timestamp);
        latest.ticks.saturating_sub(u64::from(behind))
    }
}

/// The odd packets in a row, with one more.
fn odd_after(odd: Option<Odd>, ticks: u64, early: u64) -> Odd
    ensures { result ≡ odd_after odd ticks early }
{
    match odd {
        Some(odd) if agrees(&odd, early) => Odd {
            least: odd.least.min(early),
            most: odd.most.max(early),
            ticks,
            // Those of one timestamp came together.
            count: if odd.ticks == ticks {
                odd.count
            } else {
                odd.count.saturating_add(1)
            },
        },
        _ => Odd {
            least: early,
            most: early,
            ticks,
            count: 1,
        },
    }
}

/// Whether a packet came about as early as odd ones did.
fn agrees(odd: &Odd, early: u64) -> bool
    ensures { result ≡ agrees odd.now early }
{
    odd.most.max(early) <= odd.least.min(early).saturating_add(ODD)
}
