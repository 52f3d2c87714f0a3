ghost use Rattle.std.specs.Prelude.{◌≡◌, ◌↔◌, IfOk, IfErr, IsErr};
ghost use Rattle.receiver.specs.Streams.{known_to, stream_under, stream_of};
ghost use Rattle.receiver.specs.Heard.{Carries, IsTooShort};

use crate::config::ReceiverConfig;
use crate::fault::ReceiveFault;
use rtpwire::{RtpFault, RtpView, RtxView, Session};

/// The streams that go to a receiver: the media, and its retransmissions.
#[derive(Clone, Copy, Debug, PartialEq, Eq)]
pub enum Stream {
    /// Under the media SSRC and type.
    Media,
    /// Under the retransmission SSRC and type.
    Repair,
    /// Under this SSRC and the retransmission type, where the receiver is to learn the SSRC of its
    /// retransmissions and has not so far.
    Candidate(u32),
}

/// The SSRC of the retransmissions, if it is known, by what was learnt.
pub(crate) fn known_source(config: &ReceiverConfig, learnt: Option<u32>) -> Option<u32>
    ensures { result ≡ known_to config.now learnt }
{
    if config.learns() {
        learnt
    } else {
        Some(config.session().repair_ssrc())
    }
}

/// The stream of a packet, by its SSRC and then its payload type.
pub(crate) fn stream_of(
    config: &ReceiverConfig,
    learnt: Option<u32>,
    view: &RtpView<'_>,
) -> Result<Stream, ReceiveFault>
    ensures { result ≡ stream_of config.now.session (known_to config.now learnt) view.now }
{
    let session = config.session();
    let source = known_source(config, learnt);
    let Some(stream) = stream_under(&session, source, view.ssrc()) else {
        return Err(ReceiveFault::UnknownSource);
    };
    let payload_type = match stream {
        Stream::Media => session.media_type(),
        Stream::Repair | Stream::Candidate(_) => session.repair_type(),
    };
    if view.payload_type() == payload_type {
        Ok(stream)
    } else {
        Err(ReceiveFault::UnknownType)
    }
}

/// The stream of an SSRC, if it may be one's.
fn stream_under(session: &Session, source: Option<u32>, ssrc: u32) -> Option<Stream>
    ensures { result ≡ stream_under session.now source ssrc }
{
    if ssrc == session.media_ssrc() {
        return Some(Stream::Media);
    }
    match source {
        Some(known) if ssrc == known => Some(Stream::Repair),
        None if ssrc != session.receiver_ssrc() => Some(Stream::Candidate(ssrc)),
        _ => None,
    }
}

/// What a packet of a stream carries: the sequence number of the original packet, and its payload.
pub(crate) fn carried_in<'a>(
    stream: Stream,
    view: &RtpView<'a>,
) -> Result<(u16, &'a [u8]), RtpFault>
    ensures ok { IfOk result (λ carried. Carries stream view.now carried.0 (record view.now { payload = carried.1.now })) }
    ensures too_short { IsErr result ↔ IsTooShort stream view.now }
    ensures fault { IfErr result (λ fault. fault ≡ RtpFault.NoOsn) }
{
    match stream {
        Stream::Media => Ok((view.sequence(), view.payload())),
        Stream::Repair | Stream::Candidate(_) => {
            let repair = RtxView::read(view)?;
            Ok((repair.original(), repair.payload()))
        }
    }
}
