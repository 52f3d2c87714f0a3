//! Configurations that serve where nothing else is known.
ghost use Rattle.std.specs.Prelude.{◌≡◌};
ghost use Rattle.gozdrit.specs.Defaults.{usual_receiver, usual_sender};

use crate::config::{ReceiverFields, SenderFields, SessionFields};
use endpoint::Probation;

/// A session that says nothing so far, and is refused as it is.
const NO_SESSION: SessionFields = SessionFields {
    media_ssrc: 0,
    rtx_ssrc: 0,
    receiver_ssrc: 0,
    media_payload_type: 0,
    rtx_payload_type: 0,
    any_media_payload_type: 0,
};

/// It waits 200 ms for a missing packet, and asks for it sixteen times at most, at times that follow the path: first after 20 ms, and
/// then each 40 ms, until a round trip was measured. A stream is silent after 200 ms.
pub(crate) fn receiver_defaults(size: usize) -> ReceiverFields
    ensures { result ≡ usual_receiver size }
{
    ReceiverFields {
        size,
        session: NO_SESSION,
        latency: 200,
        nack_interval: 0,
        window: 512,
        max_nacks: 16,
        learn_rtx_ssrc: 0,
        max_dropout: 0,
        max_misorder: Probation::MISORDER,
        min_sequential_ahead: Probation::AHEAD,
        min_sequential_behind: Probation::BEHIND,
        reorder_delay: 20,
        idle_after: Probation::SILENCE,
        adaptive: 0,
    }
}

/// It keeps 1024 packets, and retransmits each of them as often as a receiver by the defaults asks for it, but not twice within 10 ms.
pub(crate) fn sender_defaults(size: usize) -> SenderFields
    ensures { result ≡ usual_sender size }
{
    SenderFields {
        size,
        session: NO_SESSION,
        history: 1024,
        first_sequence: 0,
        rtx_first_sequence: 0,
        max_retransmissions: 16,
        any_reporter: 0,
        min_resend: 10,
        deadline: 0,
    }
}
