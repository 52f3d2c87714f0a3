//! What both ends counted, as C is told it.
ghost use Rattle.std.specs.Prelude.{◌≡◌};
ghost use Rattle.gozdrit.specs.Counted.{receiver_counts, probe_counts, sender_counts};

use endpoint::{KindCounts, ReceiveCounts, ResendCounts, SendCounts};

/// What a receiver counted: the counts of its endpoint.
#[repr(C)]
#[derive(Clone, Copy)]
pub struct ReceiverCounts {
    /// How many octets C's struct has.
    pub size: usize,
    pub media: u64,
    pub retransmissions: u64,
    pub held_back: u64,
    pub restarts: u64,
    pub rtcp: u64,
    pub duplicate: u64,
    pub late: u64,
    pub too_far: u64,
    pub refused: u64,
    pub overrun: u64,
    pub abandoned: u64,
    pub played: u64,
    pub gaps: u64,
    pub nacks: u64,
    pub nacked: u64,
}

/// What a receiver counted of the kinds of what came.
#[repr(C)]
#[derive(Clone, Copy)]
pub struct ProbeCounts {
    /// How many octets C's struct has.
    pub size: usize,
    pub padding: u64,
    pub unrequested: u64,
    pub duplicate: u64,
    pub late: u64,
    pub refused: u64,
}

/// What a sender counted: the counts of its endpoint.
#[repr(C)]
#[derive(Clone, Copy)]
pub struct SenderCounts {
    /// How many octets C's struct has.
    pub size: usize,
    pub sent: u64,
    pub octets: u64,
    pub retransmissions: u64,
    pub nacks: u64,
    pub other_nacks: u64,
    pub nacked: u64,
    pub not_in_history: u64,
    pub exhausted: u64,
    pub media: u64,
    pub reports: u64,
    pub refused: u64,
    pub early: u64,
    pub expired: u64,
}

impl ReceiverCounts {
    /// In a struct of this size.
    pub(crate) fn of(size: usize, counts: ReceiveCounts) -> ReceiverCounts
        ensures { result ≡ receiver_counts size counts }
    {
        ReceiverCounts {
            size,
            media: counts.media,
            retransmissions: counts.retransmissions,
            held_back: counts.held_back,
            restarts: counts.restarts,
            rtcp: counts.control,
            duplicate: counts.duplicate,
            late: counts.late,
            too_far: counts.far,
            refused: counts.refused,
            overrun: counts.overrun,
            abandoned: counts.abandoned,
            played: counts.played,
            gaps: counts.gaps,
            nacks: counts.asks,
            nacked: counts.places_asked,
        }
    }
}

impl ProbeCounts {
    /// In a struct of this size.
    pub(crate) fn of(size: usize, counts: KindCounts) -> ProbeCounts
        ensures { result ≡ probe_counts size counts }
    {
        ProbeCounts {
            size,
            padding: counts.padding,
            unrequested: counts.unasked,
            duplicate: counts.duplicate,
            late: counts.late,
            refused: counts.refused,
        }
    }
}

impl SenderCounts {
    /// In a struct of this size.
    pub(crate) fn of(size: usize, counts: SendCounts, passed: ResendCounts) -> SenderCounts
        ensures { result ≡ sender_counts size counts passed }
    {
        SenderCounts {
            size,
            sent: counts.sent,
            octets: counts.octets,
            retransmissions: counts.retransmissions,
            nacks: counts.nacks,
            other_nacks: counts.others,
            nacked: counts.numbers,
            not_in_history: counts.unknown,
            exhausted: counts.exhausted,
            media: counts.media,
            reports: counts.reports,
            refused: counts.refused,
            early: passed.early,
            expired: passed.expired,
        }
    }
}
