//! What an application sends to a relay that is no RTP, where it is known what it is.
ghost use Rattle.std.specs.Prelude.{◌≡◌};
ghost use Rattle.gozdrit_relay.specs.TransportStream.{is_transport_stream};

use endpoint::is_control;

/// What it is.
#[derive(Clone, Copy, Debug, PartialEq, Eq)]
pub enum Foreign {
    /// RTCP, which has a port of its own (RFC 3550, section 11), or comes beside the media where both share one (RFC 5761).
    Control,
    /// MPEG-2 transport stream without RTP.
    TransportStream,
    /// Something else than that, where it is wanted.
    NoTransportStream,
}

/// What octets are that a relay before the network sent nowhere.
pub fn told_apart(octets: &[u8]) -> Option<Foreign> {
    if is_transport_stream(octets) {
        Some(Foreign::TransportStream)
    } else if is_control(octets) {
        Some(Foreign::Control)
    } else {
        None
    }
}

/// Whether octets are packets of a transport stream: of 188 octets each, of which the first is 0x47 (ISO/IEC 13818-1, section 2.4.3.2).
pub fn is_transport_stream(octets: &[u8]) -> bool
    ensures { result ≡ is_transport_stream octets.now }
{
    !octets.is_empty() && octets.len() % 188 == 0 && octets[0] == 0x47
}
