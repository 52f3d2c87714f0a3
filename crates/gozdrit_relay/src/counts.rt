//! What a run came to, in counts.
ghost use Rattle.std.specs.Prelude.{◌≡◌};
ghost use Rattle.gozdrit_relay.specs.Unmet.{is_for_others, lapsed_with};

use crate::hindrance::Hindrance;
use crate::unmet::Unmet;
use endpoint::{Heard, Kind, ResendCounts, Told};
use fbwire::FeedbackFault;
use receiver::ReceiveFault;
use relays::Note;
use sender::Shared;

/// What a relay did so far, by its notes.
#[derive(Clone, Copy, Debug, PartialEq, Eq)]
pub struct Counts {
    pub sent: u64,
    /// Datagrams of the application that are no packet of the stream, or that can't be sent.
    pub unsent: u64,
    /// Packets that feedback asked for, each as often as it was to be retransmitted.
    pub marked: u64,
    pub retransmitted: u64,
    /// Of what was to be retransmitted, what had been so too short a while before, and what was past its deadline.
    pub early: u64,
    pub expired: u64,
    /// What was passed over since more was asked for than may leave soon.
    pub crowded: u64,
    /// Media packets and retransmissions that were taken.
    pub taken: u64,
    /// Retransmissions among them.
    pub repaired: u64,
    pub played: u64,
    pub gaps: u64,
    /// Places that the window dropped for good to make room.
    pub overrun: u64,
    /// Places that a restart of the stream within a session left behind, neither played nor given up.
    pub abandoned: u64,
    /// Packets that a jump of the stream within a session passed over.
    pub skipped: u64,
    /// NACKs.
    pub asked: u64,
    /// Datagrams of the far side that were refused, but for the next two.
    pub refused: u64,
    /// Padding in the stream of the retransmissions, and retransmissions that no NACK asked for: a sender may probe with both.
    pub padding: u64,
    pub unasked: u64,
    /// Restarts of the stream within a session.
    pub restarts: u64,
    /// How often the far side was heard at another address within a session.
    pub moved: u64,
    /// Sessions that were learnt.
    pub sessions: u64,
    /// What did not fit the time in the sessions before.
    before: ResendCounts,
    /// Datagrams from an address that is not the far side's.
    pub stray: u64,
    /// Datagrams that were dropped for a trial.
    pub lost: u64,
    /// NACKs for other media or of other reporters, beside those of the session; and datagrams of nothing else, which are refused.
    pub others: u64,
    /// Of the numbers that feedback names, those that the history has no packet of, and those of packets that were retransmitted as often
    /// as may be.
    pub unknown: u64,
    pub exhausted: u64,
    /// Packets of another application than the one whose stream is sent on.
    pub strangers: u64,
    /// Datagrams that the system did not take, by why.
    pub full: u64,
    pub unreachable: u64,
    pub oversize: u64,
    pub rejected: u64,
    pub failed: u64,
    /// Datagrams of the network that have no right tag under the key, or whose sender did not answer, and datagrams that could not be
    /// protected.
    pub unauthenticated: u64,
    pub unprotected: u64,
    /// The smoothed round-trip time, in milliseconds, where it was measured.
    pub time: Option<u64>,
}

impl Counts {
    /// Nothing was done so far.
    pub const NONE: Counts = Counts {
        sent: 0,
        unsent: 0,
        marked: 0,
        retransmitted: 0,
        early: 0,
        expired: 0,
        crowded: 0,
        taken: 0,
        repaired: 0,
        played: 0,
        gaps: 0,
        overrun: 0,
        abandoned: 0,
        skipped: 0,
        asked: 0,
        refused: 0,
        padding: 0,
        unasked: 0,
        restarts: 0,
        moved: 0,
        sessions: 0,
        before: ResendCounts {
            early: 0,
            expired: 0,
        },
        stray: 0,
        lost: 0,
        others: 0,
        unknown: 0,
        exhausted: 0,
        strangers: 0,
        full: 0,
        unreachable: 0,
        oversize: 0,
        rejected: 0,
        failed: 0,
        unauthenticated: 0,
        unprotected: 0,
        time: None,
    };

    /// Counts what a relay did.
    pub fn count(&mut self, note: &Note) {
        match note {
            Note::Sent(_) => add(&mut self.sent, 1),
            Note::Unsent => add(&mut self.unsent, 1),
            Note::Told(Ok(Told::Feedback(shared))) => self.mark(shared),
            Note::Told(Ok(_)) => {}
            Note::Told(Err(fault)) => self.refuse_feedback(fault),
            Note::Stray => add(&mut self.stray, 1),
            Note::Retransmitted(_) => add(&mut self.retransmitted, 1),
            Note::PassedOver(passed) => self.lapse(passed),
            Note::Marked(_) => {}
            Note::Crowded(packets) => add(&mut self.crowded, *packets),
            Note::Heard(answer, kind) => self.hear(answer, *kind),
            Note::Moved(_, answer, kind) => {
                add(&mut self.moved, 1);
                self.hear(answer, *kind);
            }
            Note::Timed(time) => self.time = *time,
            Note::Began(..) => self.begin(),
            Note::Played(_) => add(&mut self.played, 1),
            Note::Gap(_) => add(&mut self.gaps, 1),
            Note::Asked | Note::AskedAgain => add(&mut self.asked, 1),
        }
    }

    fn mark(&mut self, shared: &Shared) {
        add(&mut self.marked, u64::from(shared.places));
        add(&mut self.others, u64::from(shared.others));
        add(&mut self.unknown, u64::from(shared.unknown));
        add(&mut self.exhausted, u64::from(shared.exhausted));
    }

    /// Feedback was refused: of this session, or for nothing that is.
    fn refuse_feedback(&mut self, fault: &FeedbackFault) {
        add(&mut self.refused, 1);
        if is_for_others(fault) {
            add(&mut self.others, 1);
        }
    }

    /// So many retransmissions of the session did not fit the time so far.
    fn lapse(&mut self, passed: &ResendCounts) {
        let lapsed = lapsed_with(&self.before, passed);
        self.early = lapsed.early;
        self.expired = lapsed.expired;
    }

    /// Another session begins, and what did not fit the time in those before stays.
    fn begin(&mut self) {
        add(&mut self.sessions, 1);
        self.before = ResendCounts {
            early: self.early,
            expired: self.expired,
        };
    }

    /// Whether anything was counted since but the stream as it flows: what was sent on, taken and played.
    pub fn tell_more_than_flow(&self, before: &Counts) -> bool {
        let still = Counts {
            sent: before.sent,
            taken: before.taken,
            played: before.played,
            time: before.time,
            ..*self
        };
        still != *before
    }

    /// What was asked for so far and not retransmitted.
    pub fn unmet(&self) -> Unmet {
        Unmet {
            expired: self.expired,
            unknown: self.unknown,
            exhausted: self.exhausted,
            crowded: self.crowded,
            others: self.others,
        }
    }

    fn hear(&mut self, answer: &Result<Heard, ReceiveFault>, kind: Kind) {
        match answer {
            Ok(Heard::Media(taken)) => {
                add(&mut self.taken, 1);
                add(&mut self.overrun, taken.overrun);
            }
            Ok(Heard::Repair(taken)) => {
                add(&mut self.taken, 1);
                add(&mut self.repaired, 1);
                add(&mut self.overrun, taken.overrun);
            }
            Ok(Heard::Restarted(restart)) => {
                add(&mut self.taken, u64::from(restart.held));
                add(&mut self.restarts, 1);
                add(&mut self.overrun, restart.taken.overrun);
                add(&mut self.abandoned, restart.abandoned);
                add(&mut self.skipped, u64::from(restart.skipped));
            }
            Ok(Heard::Control | Heard::HeldBack(_)) => {}
            Err(_) => self.refuse(kind),
        }
    }

    fn refuse(&mut self, kind: Kind) {
        match kind {
            Kind::Padding => add(&mut self.padding, 1),
            Kind::Unasked => add(&mut self.unasked, 1),
            Kind::Usual => add(&mut self.refused, 1),
        }
    }

    /// A datagram was dropped for a trial.
    pub fn lose(&mut self) {
        add(&mut self.lost, 1);
    }

    /// A packet of another application was turned away.
    pub fn turn_away(&mut self) {
        add(&mut self.strangers, 1);
    }

    /// The far side is at another address.
    pub fn move_far(&mut self) {
        add(&mut self.moved, 1);
    }

    /// A datagram of the network has no right tag under the key, or its sender did not answer.
    pub fn deny(&mut self) {
        add(&mut self.unauthenticated, 1);
    }

    /// A datagram could not be protected, and did not leave.
    pub fn withhold(&mut self) {
        add(&mut self.unprotected, 1);
    }

    /// The system did not take a datagram.
    pub fn fail(&mut self, hindrance: Hindrance) {
        let count = match hindrance {
            Hindrance::Full => &mut self.full,
            Hindrance::Unreachable => &mut self.unreachable,
            Hindrance::Oversize => &mut self.oversize,
            Hindrance::Rejected => &mut self.rejected,
            Hindrance::Other => &mut self.failed,
        };
        add(count, 1);
    }
}

/// What did not fit the time in the sessions before, and in the one there is.
fn lapsed_with(before: &ResendCounts, passed: &ResendCounts) -> ResendCounts
    ensures { result ≡ lapsed_with before.now passed.now }
{
    ResendCounts {
        early: before.early.saturating_add(passed.early),
        expired: before.expired.saturating_add(passed.expired),
    }
}

/// Whether feedback was refused since all of it is for other media, or of other reporters.
fn is_for_others(fault: &FeedbackFault) -> bool
    ensures { result ≡ is_for_others fault.now }
{
    matches!(
        fault,
        FeedbackFault::WrongMedia | FeedbackFault::WrongReporter
    )
}

/// Adds to a count, which stays at the greatest number.
fn add(count: &mut u64, more: u64) {
    *count = count.saturating_add(more);
}
