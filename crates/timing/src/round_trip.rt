//! How long a retransmission takes, and what follows from it.
ghost use Rattle.std.specs.Prelude.{◌≡◌};
ghost use Rattle.std.specs.Option.{option_map};
ghost use Rattle.timing.specs.Lately.{seen_at};
ghost use Rattle.timing.specs.RoundTrip.{smoothed_with, raised_with, probed, doubted, heard_at, heard_again, heard_original, copied_at, given_up_at, is_longer, longer_with, passed_at, forgotten, measured_none, time_of, least_of, queued_in, sure_at, unanswered_of};

use crate::lately::Lately;
use places::Place;

/// The longest time that is measured, in milliseconds: a minute.
pub(crate) const LONGEST: u64 = 60000;

/// So many measurements in doubt are passed over in a row. The next one counts.
const DOUBTS: u64 = 8;

/// So many places that were measured, and were given up without an answer, say nothing in a row. The next one counts. (Where three of ten packets are
/// lost each way, and each place is asked for once, three in a row have no answer in one of eight times; where one of ten is, in one of 150.)
const UNANSWERED: u64 = 2;

/// So many answers may come once more beside each second one. (A far side that answers one of two copies answers the other one, too, where a network
/// lays them far apart: 45 of 100 with 40 milliseconds of jitter, which are more than half and two of the first some for every second such path,
/// and more than half and eight for one in 25.)
const SPARE: u64 = 8;

/// A time and its variation, as they are smoothed.
#[derive(Clone, Copy, Debug, PartialEq, Eq)]
pub struct Smoothed {
    /// Eight times the time, in milliseconds.
    pub time: u64,
    /// Four times its variation.
    pub variation: u64,
}

/// A place whose retransmission is waited for.
#[derive(Clone, Copy, Debug, PartialEq, Eq)]
pub struct Probe {
    pub place: Place,
    /// The moment at which it was asked for, for the first time.
    pub asked: u64,
    /// The moment at which it was asked for again, if it was: which ask a retransmission answers is not known then.
    pub again: Option<u64>,
}

/// A place whose retransmission came while it was in doubt which ask that answers.
#[derive(Clone, Copy, Debug, PartialEq, Eq)]
pub struct Answered {
    pub place: Place,
    /// How long after the first ask it came, in milliseconds.
    pub time: u64,
    /// From which moment on one more retransmission answers another ask: the two asks lay farther apart than a network lays copies.
    pub from: u64,
}

/// How a round-trip time is measured: from the first ask for a place to its retransmission, one place at a time; and smoothed as
/// RFC 6298, section 2, has it. Where the place was asked for again the time is in doubt, and is passed over (section 3, Karn's
/// algorithm). But it is never too short: so each ninth one in a row counts, since else a time that is longer than what is waited
/// for was never found. Losses alone, even half of all, have so many in doubt once in 500 times.
///
/// **An answer that comes twice** ends the doubt: both asks were answered, so what came first answered the first one, and the second ask
/// was made before its answer could have come (as RFC 3708 and RFC 8985, section 6.2, have it of a retransmission that was spurious). That
/// is how a queue is seen that fills on the way. It counts at once, as a first measurement does, where it is longer than what was known.
///
/// **No answer at all**, for three places in a row that were given up meanwhile, says that one takes as long as the third was waited for, or
/// longer: else a time that is longer than what is waited for was never found, and each place was asked for as if it were short. RFC 6298, section 5.5,
/// backs its timer off at each that is lost. Where an answer came of late without doubt they do come in time, and what has none is lost.
///
/// The least of late of what was without doubt is what an answer takes where no queue is on its way. What the smoothed time has beyond twice that
/// is a queue: jitter seldom has so much. Times are in milliseconds.
#[derive(Clone, Copy, Debug, PartialEq, Eq)]
pub struct RoundTrip {
    probe: Option<Probe>,
    /// What came last while it was in doubt.
    answered: Option<Answered>,
    /// The place whose retransmission came last of those that were measured. It is asked for again, here, once a second one comes.
    repaired: Option<Probe>,
    /// None before the first measurement.
    smoothed: Option<Smoothed>,
    /// How many measurements in doubt were passed over since one counted.
    doubts: u64,
    /// How many places that were measured were given up without an answer since one came.
    unanswered: u64,
    /// By how much the least of late of those without doubt is below a minute.
    idle: Lately,
    /// How many were without doubt; and how many of their retransmissions came once more.
    once: u64,
    twice: u64,
    /// Whether these were more than half of those and eight, at any time.
    both: bool,
}

impl RoundTrip {
    /// Nothing was measured so far.
    pub fn new() -> RoundTrip
        ensures { result ≡ measured_none }
    {
        RoundTrip {
            probe: None,
            answered: None,
            repaired: None,
            smoothed: None,
            doubts: 0,
            unanswered: 0,
            idle: Lately::new(),
            once: 0,
            twice: 0,
            both: false,
        }
    }

    /// The place that is measured.
    pub fn place(&self) -> Option<Place>
        ensures { result ≡ option_map (λ p. p.place) self.now.probe }
    {
        match self.probe {
            Some(probe) => Some(probe.place),
            None => None,
        }
    }

    /// A place was asked for, for the first time, at the moment `now`.
    pub fn ask(&mut self, place: Place, now: u64)
        ensures { self.new ≡ probed self.old place now }
    {
        if self.probe.is_none() {
            self.probe = Some(Probe {
                place,
                asked: now,
                again: None,
            });
        }
    }

    /// The place that is measured was asked for again, at the moment `now`.
    pub fn doubt(&mut self, now: u64)
        ensures { self.new ≡ doubted self.old now }
    {
        if let Some(probe) = self.probe {
            if probe.again.is_none() {
                self.probe = Some(Probe {
                    again: Some(now),
                    ..probe
                });
            }
        }
    }

    /// A retransmission of a place was taken at the moment `now`. It answers whether that was a measurement.
    pub fn hear(&mut self, place: Place, now: u64) -> bool
        ensures { (result, self.new) ≡ heard_at self.old place now }
    {
        let Some(probe) = self.probe else {
            return false;
        };
        if probe.place != place {
            return false;
        }
        self.probe = None;
        self.repaired = Some(probe);
        self.unanswered = 0;
        let time = now.saturating_sub(probe.asked).min(LONGEST);
        match probe.again {
            Some(again) => {
                if self.doubts < DOUBTS {
                    self.doubts += 1;
                    self.answered = Some(Answered {
                        place,
                        time,
                        from: now.saturating_add(again.saturating_sub(probe.asked) / 2),
                    });
                    return false;
                }
            }
            None => self.be_sure(time, now),
        }
        self.smoothed = Some(smoothed_with(self.smoothed, time));
        self.doubts = 0;
        true
    }

    /// A measurement was without doubt.
    fn be_sure(&mut self, time: u64, now: u64)
        ensures { self.new ≡ sure_at self.old time now }
    {
        self.idle.see(LONGEST.saturating_sub(time), now);
        self.once = self.once.saturating_add(1);
    }

    /// One more retransmission of a place came at the moment `now`, and was refused. It answers whether that was a measurement: whether the
    /// place was asked for twice, and both asks were answered.
    pub fn hear_again(&mut self, place: Place, now: u64) -> bool
        ensures { (result, self.new) ≡ heard_again self.old place now }
    {
        self.count_copy(place, now);
        let Some(answered) = self.answered else {
            return false;
        };
        if answered.place != place || now < answered.from {
            return false;
        }
        self.answered = None;
        self.smoothed = Some(raised_with(self.smoothed, answered.time));
        self.doubts = 0;
        self.idle.see(LONGEST.saturating_sub(answered.time), now);
        true
    }

    /// Counts a retransmission that came once more, of a place that was asked for once: as where two copies of a NACK are answered.
    fn count_copy(&mut self, place: Place, now: u64)
        ensures { self.new ≡ copied_at self.old place now }
    {
        if let Some(repaired) = self.repaired {
            if repaired.again.is_none() && repaired.place == place {
                self.twice = self.twice.saturating_add(1);
                self.both = self.both || self.once / 2 + SPARE < self.twice;
                self.repaired = Some(Probe {
                    again: Some(now),
                    ..repaired
                });
            }
        }
    }

    /// The media packet of a place came at the moment `now`, and was refused, as a retransmission was taken before. It answers how long after the
    /// first ask that was, if this is the place that was measured last: it was not lost, but late.
    pub fn hear_original(&mut self, place: Place, now: u64) -> Option<u64>
        ensures { (result, self.new) ≡ heard_original self.old place now }
    {
        let Some(repaired) = self.repaired else {
            return None;
        };
        if repaired.place != place {
            return None;
        }
        self.repaired = None;
        Some(now.saturating_sub(repaired.asked))
    }

    /// All places are others: none is waited for any more.
    pub fn forget(&mut self)
        ensures { self.new ≡ forgotten self.old }
    {
        *self = RoundTrip {
            smoothed: self.smoothed,
            doubts: self.doubts,
            unanswered: self.unanswered,
            idle: self.idle,
            once: self.once,
            twice: self.twice,
            both: self.both,
            ..RoundTrip::new()
        };
    }

    /// A place was played, or is missing no longer, so nothing that is asked for is waited for there.
    pub fn pass(&mut self, place: Place)
        ensures { self.new ≡ passed_at self.old place }
    {
        if let Some(probe) = self.probe {
            if probe.place == place {
                self.probe = None;
            }
        }
    }

    /// A place was given up at the moment `now`. It answers whether that was a measurement: whether none was without doubt of late, and it is the
    /// third in a row of those that were measured to which no answer came, and was waited for longer than an answer was known to take.
    pub fn give_up(&mut self, place: Place, now: u64) -> bool
        ensures { (result, self.new) ≡ given_up_at self.old place now }
    {
        let Some(probe) = self.probe else {
            return false;
        };
        if place != probe.place {
            return false;
        }
        self.probe = None;
        let waited = now.saturating_sub(probe.asked).min(LONGEST);
        self.least(now) == LONGEST && self.lack_answer(waited)
    }

    /// The place that was measured was waited for so long, and no answer came.
    fn lack_answer(&mut self, waited: u64) -> bool
        ensures { (result, self.new) ≡ unanswered_of self.old waited }
    {
        if self.unanswered < UNANSWERED {
            self.unanswered += 1;
            return false;
        }
        self.unanswered = 0;
        let is_more = is_longer(&self.smoothed, waited);
        self.smoothed = longer_with(self.smoothed, waited);
        is_more
    }

    /// The smoothed time, in milliseconds, where it was measured.
    pub fn time(&self) -> Option<u64>
        ensures { result ≡ time_of self.now.smoothed }
    {
        let smoothed = self.smoothed?;
        Some(smoothed.time / 8)
    }

    /// The least of late of what was without doubt; a minute where none was.
    pub fn least(&self, now: u64) -> u64
        ensures { result ≡ least_of self.now now }
    {
        LONGEST.saturating_sub(self.idle.greatest(now))
    }

    /// How long an answer waits in a queue, as the smoothed time shows it.
    pub fn queued(&self, now: u64) -> u64
        ensures { result ≡ queued_in self.now now }
    {
        match self.time() {
            Some(time) => time.saturating_sub(2 * self.least(now)),
            None => 0,
        }
    }

    /// Whether the far side answers both of two copies of a NACK: of the places that were measured, and asked for once, more than half and eight
    /// were answered once more at some time.
    pub fn answers_both(&self) -> bool
        ensures { result ≡ self.now.both }
    {
        self.both
    }

    /// What is smoothed, where it was measured.
    pub fn smoothed(&self) -> Option<Smoothed>
        ensures { result ≡ self.now.smoothed }
    {
        self.smoothed
    }
}

/// What is smoothed, after a measurement.
fn smoothed_with(smoothed: Option<Smoothed>, time: u64) -> Smoothed
    ensures { result ≡ smoothed_with smoothed time }
{
    match smoothed {
        None => Smoothed {
            time: time.saturating_mul(8),
            variation: time.saturating_mul(2),
        },
        Some(old) => Smoothed {
            time: (old.time - old.time / 8).saturating_add(time),
            variation: (old.variation - old.variation / 4).saturating_add(time.abs_diff(
                old.time / 8,
            )),
        },
    }
}

/// Whether a measurement is longer than the time so far.
fn is_longer(smoothed: &Option<Smoothed>, time: u64) -> bool
    ensures { result ≡ is_longer smoothed.now time }
{
    match smoothed {
        Some(old) => old.time / 8 < time,
        None => true,
    }
}

/// What is smoothed, after one that begins it anew where it is longer, and else says nothing.
fn longer_with(smoothed: Option<Smoothed>, time: u64) -> Option<Smoothed>
    ensures { result ≡ longer_with smoothed time }
{
    if is_longer(&smoothed, time) {
        Some(smoothed_with(None, time))
    } else {
        smoothed
    }
}

/// What is smoothed, after a measurement that counts at once where it is longer than the time so far.
fn raised_with(smoothed: Option<Smoothed>, time: u64) -> Smoothed
    ensures { result ≡ raised_with smoothed time }
{
    match smoothed {
        Some(old) if time <= old.time / 8 => smoothed_with(smoothed, time),
        _ => smoothed_with(None, time),
    }
}
