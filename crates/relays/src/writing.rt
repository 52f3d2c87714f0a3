//! What a receiving relay writes down: a packet for the player, and a NACK for the far side.
ghost use Rattle.std.specs.Prelude.{◌≡◌, ◌≤◌, length, take};
ghost use Rattle.rtpwire.specs.declared.limits.TheConstants.{MAX_DATAGRAM};
ghost use Rattle.rtpwire.specs.Content.{packet_of};
ghost use Rattle.rtpwire.specs.Rtp.{RtpSpells};

use rtpwire::{Carried, Content, Datagram, MAX_DATAGRAM, Session, media_len, write_media_into};

/// The same octets, which fit.
pub(crate) fn copy_of(octets: &[u8]) -> Datagram
    requires { length octets.now ≤ MAX_DATAGRAM }
    ensures { result.items ≡ octets.now }
{
    let mut copy = Datagram::new();
    copy.try_extend_from_slice(octets).unwrap();
    copy
}

/// Writes a packet for the player, and answers how many octets it has.
pub(crate) fn write(
    content: &Content,
    number: u16,
    session: &Session,
    ssrc: u32,
    out: &mut [u8],
) -> usize
    requires { length out.old ≡ MAX_DATAGRAM }
    ensures spells { RtpSpells (packet_of content.now 0 number session.now.media_type ssrc) (take result out.new) }
    ensures within { result ≤ MAX_DATAGRAM }
    ensures room { length out.new ≡ MAX_DATAGRAM }
{
    let carried = Carried::of_content(content);
    let len = media_len(&carried, 0);
    prove!(len <= out.len());
    write_media_into(out, &carried, 0, number, session.media_type(), ssrc)
}
