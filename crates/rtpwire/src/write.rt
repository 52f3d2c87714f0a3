//! Writing an RTP packet.
ghost use Rattle.std.specs.Prelude.{◌≡◌, ◌↔◌, ◌⊎◌, ℕ, ◌+◌, ◌*◌, ◌^◌, ◌<◌, ◌≤◌, ◌++◌, [], length, take, IfSome, IsSome, IsNone};
ghost use Rattle.rtpwire.specs.Buffer.{in_front};
ghost use Rattle.std.specs.Option.{option_map};
ghost use Rattle.rtpwire.specs.Carried.{words_of, extension_with};
ghost use Rattle.rtpwire.specs.Rtp.{RtpSpells, IsPacket, written, written_padding, fixed_header, header, extension_octets};
ghost use Rattle.rtpwire.specs.Content.{packet_of, extension_of};

use crate::carried::{Carried, Words};
use crate::content::{Content, Datagram};
use crate::fill::{fill_packet, fill_words};
use crate::first_octet::FirstOctet;
use crate::limits::{MAX_DATAGRAM, MAX_HEADER, MAX_PAYLOAD, MAX_WORDS};
use crate::octets::{push_octets, push_u16, push_words};
use crate::rtp::FIXED_HEADER;
use arrayvec::ArrayVec;
use byteorder::{ByteOrder, NetworkEndian};

/// A padding's octets before its count.
pub(crate) const ZEROS: [u8; 254] = [0; 254];

/// The media packet that carries a content, with so many octets of padding (0 for none).
///
/// It cannot fail: a datagram holds the largest. Padding needs a payload, and is zeros and its count (RFC 3550, section 5.1).
pub fn write_media(
    content: &Content,
    padding: u8,
    sequence: u16,
    payload_type: u8,
    ssrc: u32,
) -> Datagram
    requires payload_type { payload_type < 128 }
    requires padding { 0 < padding → 0 < length content.now.payload.items }
    ensures spells { RtpSpells (packet_of content.now padding sequence payload_type ssrc) result.items }
    ensures written { result.items ≡ written (packet_of content.now padding sequence payload_type ssrc) }
    ensures fits { length result.items ≤ MAX_HEADER + MAX_PAYLOAD + 255 }
{
    let mut out = Datagram::new();
    write_media_to(&mut out, content, padding, sequence, payload_type, ssrc);
    out
}

/// The same packet in a datagram that the caller lends, whatever it held. One that is lent again and again is blanked
/// once, when it is made, and not for each packet.
pub fn write_media_to(
    out: &mut Datagram,
    content: &Content,
    padding: u8,
    sequence: u16,
    payload_type: u8,
    ssrc: u32,
)
    requires payload_type { payload_type < 128 }
    requires padding { 0 < padding → 0 < length content.now.payload.items }
    ensures spells { RtpSpells (packet_of content.now padding sequence payload_type ssrc) out.new.items }
    ensures written { out.new.items ≡ written (packet_of content.now padding sequence payload_type ssrc) }
    ensures fits { length out.new.items ≤ MAX_HEADER + MAX_PAYLOAD + 255 }
{
    let content = Carried::of_content(content);
    content.is_bounded();
    out.clear();
    push_header(out, &content, padding, sequence, payload_type, ssrc);
    push_octets(out, content.payload());
    push_padding(out, padding);
}

/// The same packet at the front of a slice that has room for it, as [`media_len`] says. What lies behind stays. It
/// returns how many octets the packet has.
pub fn write_media_into(
    out: &mut [u8],
    content: &Carried<'_>,
    padding: u8,
    sequence: u16,
    payload_type: u8,
    ssrc: u32,
) -> usize
    requires payload_type { payload_type < 128 }
    requires padding { 0 < padding → 0 < length content.now.payload.items }
    requires room { length (written (packet_of content.now padding sequence payload_type ssrc)) ≤ length out.old }
    ensures written { out.new ≡ in_front (written (packet_of content.now padding sequence payload_type ssrc)) out.old }
    ensures len { result ≡ length (written (packet_of content.now padding sequence payload_type ssrc)) }
    ensures spells { RtpSpells (packet_of content.now padding sequence payload_type ssrc) (take result out.new) }
    ensures fits { result ≤ MAX_HEADER + MAX_PAYLOAD + 255 }
{
    content.is_bounded();
    if let Some(header) = plain_header(content, padding, sequence, payload_type, ssrc) {
        return fill_packet(out, &header, content.payload(), padding);
    }
    write_longer_into(out, content, padding, sequence, payload_type, ssrc)
}

/// The same for any content, in place: no header is built elsewhere and moved. It stands apart, as most packets have no use for it.
#[inline(never)]
fn write_longer_into(
    out: &mut [u8],
    content: &Carried<'_>,
    padding: u8,
    sequence: u16,
    payload_type: u8,
    ssrc: u32,
) -> usize
    requires payload_type { payload_type < 128 }
    requires room { length (written (packet_of content.now padding sequence payload_type ssrc)) ≤ length out.old }
    ensures written { out.new ≡ in_front (written (packet_of content.now padding sequence payload_type ssrc)) out.old }
    ensures len { result ≡ length (written (packet_of content.now padding sequence payload_type ssrc)) }
    ensures fits { result ≤ MAX_HEADER + MAX_PAYLOAD + 255 }
{
    content.is_bounded();
    let (front, behind) = out.split_at_mut(header_len(content));
    fill_header(front, content, padding, sequence, payload_type, ssrc);
    front.len() + fill_packet(behind, &[], content.payload(), padding)
}

/// Writes all that stands before a payload to a slice that is as long.
pub(crate) fn fill_header(
    out: &mut [u8],
    content: &Carried<'_>,
    padding: u8,
    sequence: u16,
    payload_type: u8,
    ssrc: u32,
)
    requires payload_type { payload_type < 128 }
    requires len { length out.old ≡ length (header (packet_of content.now padding sequence payload_type ssrc)) }
    ensures { out.new ≡ header (packet_of content.now padding sequence payload_type ssrc) }
{
    content.is_bounded();
    let fixed = fixed_octets(content, padding, sequence, payload_type, ssrc);
    let (front, behind) = out.split_at_mut(FIXED_HEADER);
    front.copy_from_slice(&fixed);
    let (sources, behind) = behind.split_at_mut(4 * content.sources().len());
    fill_words(sources, content.sources());
    fill_extension(behind, content.extension());
}

/// Writes an extension, if there is one, to a slice that is as long.
fn fill_extension(out: &mut [u8], extension: Option<(u16, Words<'_>)>)
    requires few { IfSome extension (λ e. length (words_of e.1) ≤ MAX_WORDS) }
    requires len { length out.old ≡ length (extension_octets (option_map extension_of (option_map extension_with extension))) }
    ensures { out.new ≡ extension_octets (option_map extension_of (option_map extension_with extension.entry)) }
{
    if let Some((profile, words)) = extension {
        let (front, behind) = out.split_at_mut(4);
        NetworkEndian::write_u16(front, profile);
        NetworkEndian::write_u16(&mut front[2..], words.len() as u16);
        fill_words(behind, words);
    }
}

/// All that stands before a payload where that is the fixed header alone: where there are neither sources nor a header
/// extension.
pub(crate) fn plain_header(
    content: &Carried<'_>,
    padding: u8,
    sequence: u16,
    payload_type: u8,
    ssrc: u32,
) -> Option<[u8; FIXED_HEADER]>
    requires payload_type { payload_type < 128 }
    ensures some { IfSome result (λ octets. octets ≡ header (packet_of content.now padding sequence payload_type ssrc)) }
    ensures none { IsNone result ↔ (0 < length content.now.sources.items) ⊎ IsSome content.now.extension }
{
    if content.sources().len() > 0 || content.extension().is_some() {
        return None;
    }
    Some(fixed_octets(content, padding, sequence, payload_type, ssrc))
}

/// How many octets the media packet that carries a content has, with so many octets of padding. A datagram has room for them.
pub fn media_len(content: &Carried<'_>, padding: u8) -> usize
    ensures len { (sequence payload_type ssrc : ℕ)
        → result ≡ length (written (packet_of content.now padding sequence payload_type ssrc)) }
    ensures fits { result ≤ MAX_HEADER + MAX_PAYLOAD + padding }
{
    content.is_bounded();
    header_len(content) + content.payload().len() + usize::from(padding)
}

/// How many octets stand before a payload.
pub(crate) fn header_len(content: &Carried<'_>) -> usize
    ensures len { (padding sequence payload_type ssrc : ℕ)
        → result ≡ length (header (packet_of content.now padding sequence payload_type ssrc)) }
    ensures fits { result ≤ MAX_HEADER }
{
    content.is_bounded();
    let extension = match content.extension() {
        Some((_, words)) => 4 + 4 * words.len(),
        None => 0,
    };
    12 + 4 * content.sources().len() + extension
}

/// Writes all that stands before a payload. Of the padding it only matters whether there is any.
pub(crate) fn push_header<const N: usize>(
    out: &mut ArrayVec<u8, N>,
    content: &Carried<'_>,
    padding: u8,
    sequence: u16,
    payload_type: u8,
    ssrc: u32,
)
    requires empty { out.old.items ≡ [] }
    requires room { MAX_HEADER ≤ N }
    requires payload_type { payload_type < 128 }
    ensures items { out.new.items ≡ header (packet_of content.now padding sequence payload_type ssrc) }
    ensures fits { length out.new.items ≤ MAX_HEADER }
    ensures packet { (0 < padding → 0 < length content.now.payload.items)
        → IsPacket (packet_of content.now padding sequence payload_type ssrc) }
{
    content.is_bounded();
    push_fixed_header(out, content, padding, sequence, payload_type, ssrc);
    push_words(out, content.sources());
    if let Some((profile, words)) = content.extension() {
        push_extension(out, profile, words);
    }
}

fn push_fixed_header<const N: usize>(
    out: &mut ArrayVec<u8, N>,
    content: &Carried<'_>,
    padding: u8,
    sequence: u16,
    payload_type: u8,
    ssrc: u32,
)
    requires empty { out.old.items ≡ [] }
    requires room { 12 ≤ N }
    requires payload_type { payload_type < 128 }
    ensures items { out.new.items ≡ fixed_header (packet_of content.now padding sequence payload_type ssrc) }
{
    let octets = fixed_octets(content, padding, sequence, payload_type, ssrc);
    push_octets(out, &octets);
}

/// The first twelve octets of a packet.
fn fixed_octets(
    content: &Carried<'_>,
    padding: u8,
    sequence: u16,
    payload_type: u8,
    ssrc: u32,
) -> [u8; FIXED_HEADER]
    requires payload_type { payload_type < 128 }
    ensures { result ≡ fixed_header (packet_of content.now padding sequence payload_type ssrc) }
{
    content.is_bounded();
    let is_extended = content.extension().is_some();
    let first = FirstOctet::new(padding > 0, is_extended, content.sources().len() as u8);
    let second = (u8::from(content.marker()) << 7) + payload_type;
    let mut octets = [0; FIXED_HEADER];
    octets[0] = first.0;
    octets[1] = second;
    NetworkEndian::write_u16(&mut octets[2..], sequence);
    NetworkEndian::write_u32(&mut octets[4..], content.timestamp());
    NetworkEndian::write_u32(&mut octets[8..], ssrc);
    octets
}

fn push_extension<const N: usize>(out: &mut ArrayVec<u8, N>, profile: u16, words: Words<'_>)
    requires room { length out.old.items + 4 + 4 * length (words_of words) ≤ N }
    requires count { length (words_of words) < 2 ^ 16 }
    ensures items { out.new.items ≡ out.old.items ++ extension_octets (Some (profile, words_of words.entry)) }
    ensures len { length out.new.items ≡ length out.old.items + 4 + 4 * length (words_of words.entry) }
{
    push_u16(out, profile);
    push_u16(out, words.len() as u16);
    push_words(out, words);
}

fn push_padding(out: &mut Datagram, padding: u8)
    requires { length out.old.items + padding ≤ MAX_DATAGRAM }
    ensures { out.new.items ≡ out.old.items ++ written_padding padding }
{
    if padding > 0 {
        push_octets(out, &ZEROS[..usize::from(padding) - 1]);
        push_octets(out, &[padding]);
    }
}
