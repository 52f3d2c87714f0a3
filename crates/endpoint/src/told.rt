//! What a datagram was to a sending endpoint.
use sender::Shared;

/// What a datagram was: [`SendingEndpoint::on_datagram`](crate::SendingEndpoint::on_datagram) answers it.
#[derive(Clone, Copy, Debug, PartialEq, Eq)]
pub enum Told {
    /// RTP, which a sending endpoint has no use for.
    Media,
    /// RTCP without a generic NACK.
    Reports,
    /// RTCP with a generic NACK of this session.
    Feedback(Shared),
}
