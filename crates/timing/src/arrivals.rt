//! How the packets of a stream came.
ghost use Rattle.std.specs.Prelude.{◌≡◌, None};
ghost use Rattle.std.specs.Option.{option_map};
ghost use Rattle.timing.specs.Arrivals.{none_came, came_at, counted, kept, is_over, restarted_at, lead_at};

use crate::lately::Lately;
use crate::silence::Silence;
use places::Place;

/// For how long packets are counted, in milliseconds.
const SECOND: u64 = 1000;

/// When the packets of a stream came: what tells when those were sent that were lost in a silence.
#[derive(Clone, Copy, Debug, PartialEq, Eq)]
pub struct Arrivals {
    /// The moment at which the highest packet came.
    last: Option<u64>,
    /// How many came since a moment, up to a second after it.
    count: u64,
    since: u64,
    /// The most that came in one second, of late.
    peak: Lately,
    /// The longest silence of which a place may still be missing.
    silence: Option<Silence>,
}

impl Arrivals {
    /// Nothing came so far.
    pub fn new() -> Arrivals
        ensures { result ≡ none_came }
    {
        Arrivals {
            last: None,
            count: 0,
            since: 0,
            peak: Lately::new(),
            silence: None,
        }
    }

    /// The media packet of a place came at the moment `now`, where the highest place was `highest`, and `cursor` the next one to play.
    /// A silence is told that was no shorter than `least`, nor than four of the stream's gaps ([`Silence::is_long`]). Moments and spans are in milliseconds.
    pub fn come(
        &mut self,
        highest: Option<Place>,
        cursor: Option<u64>,
        least: u64,
        place: Place,
        now: u64,
    )
        ensures { self.new ≡ came_at self.old highest cursor least place now }
    {
        self.count(now);
        let is_highest = match highest {
            Some(highest) => highest < place,
            None => true,
        };
        if is_highest {
            self.keep(highest, cursor, least, place, now);
            self.last = Some(now);
        }
    }

    /// The stream restarted at the moment `now`: all places are others.
    pub fn restart(&mut self, now: u64)
        ensures { self.new ≡ restarted_at self.old now }
    {
        self.last = Some(now);
        self.silence = None;
    }

    /// How long before it was noticed to be missing the packet of a place was sent, in milliseconds, as far as a silence tells it.
    pub fn lead(&self, place: u64) -> u64
        ensures { result ≡ lead_at self.now place }
    {
        match self.silence {
            Some(silence) => silence.lead(place),
            None => 0,
        }
    }

    /// Counts a packet.
    fn count(&mut self, now: u64)
        ensures { self.new ≡ counted self.old now }
    {
        if now.saturating_sub(self.since) < SECOND {
            self.count = self.count.saturating_add(1);
        } else {
            self.peak.see(self.count, now);
            self.count = 1;
            self.since = now;
        }
    }

    /// Keeps the silence that ended with the packet of a place, unless it was too short, or there was a longer one of which a place is
    /// still waited for.
    fn keep(
        &mut self,
        highest: Option<Place>,
        cursor: Option<u64>,
        least: u64,
        place: Place,
        now: u64,
    )
        ensures { self.new ≡ kept self.old highest cursor least place now }
    {
        let (Some(below), Some(last)) = (highest, self.last) else {
            return;
        };
        let silence = Silence {
            below,
            above: place,
            length: now.saturating_sub(last),
            peak: self.peak.greatest(now),
        };
        let is_kept = match self.silence {
            Some(old) => is_over(&old, cursor) || old.length <= silence.length,
            None => true,
        };
        if is_kept && silence.length >= least && silence.is_long() {
            self.silence = Some(silence);
        }
    }
}

/// Whether all places of a silence were passed, where `cursor` is the next one to play.
fn is_over(silence: &Silence, cursor: Option<u64>) -> bool
    ensures { result ≡ is_over silence.now cursor }
{
    match cursor {
        Some(cursor) => cursor >= silence.above.value(),
        None => true,
    }
}
