//! Which media packet a datagram is.
ghost use Rattle.std.specs.Prelude.{◌≡◌, ℕ, List};
ghost use Rattle.rtpwire.specs.Rtp.{RtpSpells};
ghost use Rattle.endpoint.specs.Receiving.{IsMediaNumber, IsSpelledWhere, media_number_of};

use rtpwire::{RtpView, Session, spelling_is_determined};

/// The sequence number of the session's media packet that the octets are, if they are one, by the SSRC and the payload type.
/// A retransmission is none: its number is that of another stream, and it is never a jump.
pub fn media_number(session: &Session, octets: &[u8]) -> Option<u16>
    ensures number { IsMediaNumber session.now octets.now result }
    ensures spelled { IsSpelledWhere octets.now result }
{
    match RtpView::read(octets) {
        Ok(packet) => number_in(session, &packet),
        Err(_) => None,
    }
}

/// The same of a packet that was read.
pub(crate) fn number_in(session: &Session, packet: &RtpView<'_>) -> Option<u16>
    ensures number { (octets : List ℕ) → RtpSpells packet.now octets → IsMediaNumber session.now octets result }
    ensures spelled { (octets : List ℕ) → RtpSpells packet.now octets → IsSpelledWhere octets result }
{
    spelling_is_determined();
    number_of(session, packet)
}

/// The sequence number of a packet, if it is media of the session.
fn number_of(session: &Session, packet: &RtpView<'_>) -> Option<u16>
    ensures { result ≡ media_number_of session.now packet.now }
{
    if packet.ssrc() == session.media_ssrc() && packet.payload_type() == session.media_type() {
        Some(packet.sequence())
    } else {
        None
    }
}
