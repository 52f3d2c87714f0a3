//! RTP and RTCP on one port are told apart.
ghost use Rattle.std.specs.Prelude.{◌≡◌};
ghost use Rattle.endpoint.specs.Demultiplex.{is_control};

/// Whether a datagram is RTCP and no RTP (RFC 5761, section 4): its second octet, where RTCP has the packet type and RTP the
/// marker and the payload type, is 192 to 223. So a session on one port has no payload type of 64 to 95.
pub fn is_control(octets: &[u8]) -> bool
    ensures { result ≡ is_control octets.now }
{
    matches!(octets, [_, 192..=223, ..])
}
