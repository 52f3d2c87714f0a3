//! When missing places are asked for, so that as many asks as can be answered in time are made.
ghost use Rattle.std.specs.Prelude.{◌≡◌, ◌<◌, ◌≤◌};
ghost use Rattle.timing.specs.AskTimes.{answer_of, answer_where, ask_times, idle_answer, spacing_of, twice_of};

use crate::round_trip::Smoothed;

/// How long a receiver waits before it asks for a place that is missing, and before it asks again, in milliseconds.
#[derive(Clone, Copy, Debug, PartialEq, Eq)]
pub struct AskTimes {
    /// From the notice of a missing place to the first ask for it.
    pub delay: u64,
    /// From one ask to the next.
    pub retry: u64,
}

impl AskTimes {
    /// The times of asks for a place that is waited for so long, where an answer takes so long, packets come up to `reordering` behind later ones,
    /// and so many asks go before waiting for those.
    ///
    /// The first ask comes as soon as reordering allows, and no later than that so many asks have their answers in time. As many more are made as
    /// have their answers in time and lie no closer than what one takes; they are spread over the time that there is, so that
    /// an answer on its way is seldom asked for again. Where none has, none is made before the place is given up.
    pub fn fitting(answer: u64, patience: u64, reordering: u64, asks: u64) -> AskTimes
        ensures value { result ≡ ask_times answer patience reordering asks }
        ensures some_time { 0 < result.retry }
    {
        let spacing = answer.max(1);
        let delay = reordering.min(patience.saturating_sub(asks.saturating_mul(spacing)));
        let room = patience.saturating_sub(spacing).saturating_sub(delay);
        let more = room / spacing;
        AskTimes {
            delay,
            retry: if more == 0 {
                spacing.max(patience)
            } else {
                room / more
            },
        }
    }
}

impl Smoothed {
    /// How long a retransmission takes from its ask on, mostly, in milliseconds: the smoothed time, its variation, and five for timers.
    /// (RFC 6298, section 2, has four times the variation, for a timer that hardly ever runs out too soon. Here one more ask is worth an
    /// answer that comes twice.)
    pub fn answer(&self) -> u64
        ensures value { result ≡ answer_of self.now }
        ensures some_time { 0 < result }
    {
        (self.time / 8)
            .saturating_add(self.variation / 4)
            .saturating_add(5)
    }

    /// The same where no queue is on the way: no more than the least that it took of late, and what packets overtake each other by. A queue is
    /// left to the far side, which knows what it sent and when: a NACK more costs little, and what it retransmits in vain it may pass over.
    pub fn spacing(&self, least: u64, reordering: u64) -> u64
        ensures value { result ≡ spacing_of self.now least reordering }
        ensures some_time { 0 < result }
    {
        self.answer().min(idle_answer(least, reordering))
    }

    /// How long it takes mostly, or, where many are lost, on the mean: what has no answer by then was lost more likely than not, and the answer of one
    /// more ask is worth more than one that comes twice.
    pub fn answer_where(&self, many: bool) -> u64
        ensures value { result ≡ answer_where many self.now }
        ensures some_time { 0 < result }
        ensures sooner { result ≤ answer_of self.now }
    {
        if many {
            (self.time / 8).saturating_add(5)
        } else {
            self.answer()
        }
    }
}

/// How long an answer is taken to take where two asks are to have theirs in time: no more than half of the patience, unless one takes longer, `idle`,
/// with no queue on the way. What a full queue dropped is asked for again so, when that may have emptied, and the far side, which knows what it
/// sent and when, passes over what is asked for too soon.
pub(crate) fn twice(answer: u64, idle: u64, patience: u64) -> u64
    ensures { result ≡ twice_of answer idle patience }
{
    answer.min(idle.max(patience / 2))
}

/// How long an answer takes where no queue is on the way, by the least that one took of late, and by what packets overtake each other by.
pub(crate) fn idle_answer(least: u64, reordering: u64) -> u64
    ensures value { result ≡ idle_answer least reordering }
    ensures some_time { 0 < result }
{
    least.saturating_add(reordering).saturating_add(5)
}
