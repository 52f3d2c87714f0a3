//! What a datagram was to an end, as C is told it.
ghost use Rattle.std.specs.Prelude.{◌≡◌};
ghost use Rattle.gozdrit.specs.Heard.{received_fields, outcome_fields};

use endpoint::{Heard, Told};
use fbwire::FeedbackFault;
use receiver::ReceiveFault;

/// What a datagram was to a receiver. What its kind has no use for is 0.
#[repr(C)]
#[derive(Clone, Copy)]
pub struct ReceivedFields {
    /// How many octets C's struct has.
    pub size: usize,
    /// The extended sequence number of a packet that was taken.
    pub sequence: u64,
    /// How many places the window dropped for it.
    pub overrun: u64,
    /// How many places a restart left behind.
    pub abandoned: u64,
    /// How many packets are held back, or the stream restarted with.
    pub held_back: u32,
    /// 0 where it was not taken, for the reason `refusal`; 1 for media, 2 for a retransmission, 3 for RTCP, 4 for media that is
    /// held back, 5 for a restart.
    pub kind: u8,
    pub refusal: u8,
}

/// What a datagram was to a sender. What its kind has no use for is 0.
#[repr(C)]
#[derive(Clone, Copy)]
pub struct OutcomeFields {
    /// How many octets C's struct has.
    pub size: usize,
    /// How many packets are to be retransmitted that were not before.
    pub queued: u32,
    pub nacks: u32,
    pub other_nacks: u32,
    pub nacked: u32,
    pub not_in_history: u32,
    pub exhausted: u32,
    /// 0 where it was refused, for the reason `refusal`; 1 for RTP, 6 for RTCP without a NACK, 7 for a NACK of this session.
    pub kind: u8,
    pub refusal: u8,
}

impl ReceivedFields {
    const NOTHING: ReceivedFields = ReceivedFields {
        size: 0,
        sequence: 0,
        overrun: 0,
        abandoned: 0,
        held_back: 0,
        kind: 0,
        refusal: 0,
    };

    /// In a struct of this size.
    pub(crate) fn of(size: usize, answer: Result<Heard, ReceiveFault>) -> ReceivedFields
        ensures { result ≡ received_fields size answer }
    {
        match answer {
            Ok(Heard::Media(taken)) => ReceivedFields {
                size,
                kind: 1,
                sequence: taken.place.value(),
                overrun: taken.overrun,
                ..ReceivedFields::NOTHING
            },
            Ok(Heard::Repair(taken)) => ReceivedFields {
                size,
                kind: 2,
                sequence: taken.place.value(),
                overrun: taken.overrun,
                ..ReceivedFields::NOTHING
            },
            Ok(Heard::Control) => ReceivedFields {
                size,
                kind: 3,
                ..ReceivedFields::NOTHING
            },
            Ok(Heard::HeldBack(held)) => ReceivedFields {
                size,
                kind: 4,
                held_back: held,
                ..ReceivedFields::NOTHING
            },
            Ok(Heard::Restarted(restart)) => ReceivedFields {
                size,
                kind: 5,
                sequence: restart.taken.place.value(),
                overrun: restart.taken.overrun,
                abandoned: restart.abandoned,
                held_back: restart.held,
                refusal: 0,
            },
            Err(fault) => ReceivedFields {
                size,
                refusal: fault.number(),
                ..ReceivedFields::NOTHING
            },
        }
    }
}

impl OutcomeFields {
    const NOTHING: OutcomeFields = OutcomeFields {
        size: 0,
        queued: 0,
        nacks: 0,
        other_nacks: 0,
        nacked: 0,
        not_in_history: 0,
        exhausted: 0,
        kind: 0,
        refusal: 0,
    };

    /// In a struct of this size.
    pub(crate) fn of(size: usize, answer: Result<Told, FeedbackFault>) -> OutcomeFields
        ensures { result ≡ outcome_fields size answer }
    {
        match answer {
            Ok(Told::Media) => OutcomeFields {
                size,
                kind: 1,
                ..OutcomeFields::NOTHING
            },
            Ok(Told::Reports) => OutcomeFields {
                size,
                kind: 6,
                ..OutcomeFields::NOTHING
            },
            Ok(Told::Feedback(shared)) => OutcomeFields {
                size,
                queued: shared.places,
                nacks: shared.nacks,
                other_nacks: shared.others,
                nacked: shared.numbers,
                not_in_history: shared.unknown,
                exhausted: shared.exhausted,
                kind: 7,
                refusal: 0,
            },
            Err(fault) => OutcomeFields {
                size,
                refusal: fault.number(),
                ..OutcomeFields::NOTHING
            },
        }
    }
}
