//! What was measured of a path.
ghost use Rattle.std.specs.Prelude.{◌≡◌, IfSome, ◌<◌};
ghost use Rattle.timing.specs.Path.{asks_at, first_times, many_at, found_needless, new_path, path_repaired, path_seen, path_taken, idle_where, reordered, times_known, times_over, waited_for};

use crate::arrivals::Arrivals;
use crate::ask_times::{AskTimes, idle_answer, twice};
use crate::lately::Lately;
use crate::losses::Losses;
use crate::round_trip::{LONGEST, RoundTrip, Smoothed};
use places::Place;

/// From one ask to the next until the round-trip time was measured, in milliseconds.
const FIRST_RETRY: u64 = 40;

/// What was measured of a path: how long an answer takes, how far packets come behind later ones, when they came, and how many were lost.
#[derive(Clone, Copy, Debug, PartialEq, Eq)]
pub struct Path {
    pub trip: RoundTrip,
    /// How far packets came behind later ones, in milliseconds.
    pub reordering: Lately,
    pub arrivals: Arrivals,
    pub losses: Losses,
}

impl Path {
    /// A path of which nothing was measured.
    pub fn new() -> Path
        ensures { result ≡ new_path }
    {
        Path {
            trip: RoundTrip::new(),
            reordering: Lately::new(),
            arrivals: Arrivals::new(),
            losses: Losses::new(),
        }
    }

    /// A media packet was taken at the moment `now` that was not missing.
    pub fn take(&mut self, now: u64)
        ensures { self.new ≡ path_taken self.old now }
    {
        self.losses.take(false, now);
    }

    /// One was taken so long after it was noticed to be missing, in milliseconds. It answers whether that is more than was known.
    pub fn see(&mut self, late: u64, now: u64) -> bool
        ensures { (result, self.new) ≡ path_seen self.old late now }
    {
        self.losses.take(true, now);
        self.reorder(late, now)
    }

    /// A packet came so far behind later ones. It answers whether that is more than was known.
    fn reorder(&mut self, late: u64, now: u64) -> bool
        ensures { (result, self.new) ≡ reordered self.old late now }
    {
        let is_more = self.reordering.greatest(now) < late;
        self.reordering.see(late, now);
        is_more
    }

    /// A retransmission of a place was taken. It answers whether that was a measurement of the round-trip time.
    pub fn repair(&mut self, place: Place, now: u64) -> bool
        ensures { (result, self.new) ≡ path_repaired self.old place now }
    {
        self.losses.repair(self.trip.place() == Some(place), now);
        self.trip.hear(place, now)
    }

    /// The media packet of a place was refused, as one was taken before. Where that was the retransmission that was measured last, the packet was
    /// late by as long as it is since the first ask, at least. It answers whether that is more than was known.
    pub fn refuse(&mut self, place: Place, now: u64) -> bool
        ensures { (result, self.new) ≡ found_needless self.old place now }
    {
        let Some(late) = self.trip.hear_original(place, now) else {
            return false;
        };
        self.losses.be_needless(now);
        self.reorder(late, now)
    }

    /// The times of asks for a place that is waited for so long, in milliseconds, where a round-trip time was measured, or packets came behind
    /// later ones. A queue on the way takes its part of that. Reordering is waited for up to half of a round trip, and less where only so as many
    /// asks fit as [`Losses::asks`] has; but as far as it goes where that has none, if an ask still has its answer in time then.
    pub fn times(&self, patience: u64, now: u64) -> Option<AskTimes>
        ensures value { result ≡ times_over self.now patience now }
        ensures some_time { IfSome result (λ times. 0 < times.retry) }
    {
        let reordering = waited_for(self.reordering.greatest(now));
        match self.trip.smoothed() {
            Some(smoothed) => Some(self.times_known(&smoothed, patience, reordering, now)),
            None => first_times(patience, reordering),
        }
    }

    /// The same where a round-trip time was measured. Where hardly any packet comes late, asks lie as far apart as an answer takes mostly, and a
    /// queue that fills lays them farther apart; or as one takes on the mean, where many are lost. But two have their answers in time, where they have them over a path without a queue.
    fn times_known(&self, smoothed: &Smoothed, patience: u64, reordering: u64, now: u64) -> AskTimes
        ensures value { result ≡ times_known (asks_at self.now.losses now) (many_at self.now.losses now) smoothed.now self.now.trip patience reordering now }
        ensures some_time { 0 < result.retry }
    {
        let half = reordering.min(smoothed.time / 16);
        let Some(asks) = self.losses.asks(now) else {
            let idle = idle(self.trip.least(now), reordering);
            let answer = smoothed.answer_where(self.losses.are_many(now));
            let left = patience.saturating_sub(smoothed.answer() - answer);
            return AskTimes::fitting(twice(answer, idle, patience), left, half, 1);
        };
        let answer = smoothed.spacing(self.trip.least(now), reordering);
        let left = patience.saturating_sub(self.trip.queued(now));
        let waits = asks == 0 && reordering.saturating_add(answer) <= left;
        let fit = (left / answer.max(1)).max(1);
        AskTimes::fitting(
            answer,
            left,
            if waits { reordering } else { half },
            asks.max(1).min(fit),
        )
    }
}

/// The times of asks where no round-trip time was measured: what is late is waited for, where something was, up to half of the time.
fn first_times(patience: u64, reordering: u64) -> Option<AskTimes>
    ensures value { result ≡ first_times patience reordering }
    ensures some_time { IfSome result (λ times. 0 < times.retry) }
{
    if reordering == 0 {
        return None;
    }
    Some(AskTimes {
        delay: reordering.min(patience / 2),
        retry: FIRST_RETRY,
    })
}

/// How long an answer takes where no queue is on the way; 0 where none of late is known.
fn idle(least: u64, reordering: u64) -> u64
    ensures { result ≡ idle_where least reordering }
{
    if least == LONGEST {
        0
    } else {
        idle_answer(least, reordering)
    }
}

/// How long reordering is waited for that was seen to be so far: by a quarter longer, since the next packet may come a little later.
fn waited_for(extent: u64) -> u64
    ensures { result ≡ waited_for extent }
{
    extent.saturating_add(extent.saturating_add(3) / 4)
}
