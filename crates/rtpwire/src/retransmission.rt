//! Retransmissions: a packet that repeats an earlier one (RFC 4588, section 4).
ghost use Rattle.std.specs.Prelude.{◌≡◌, ◌↔◌, ◌⊎◌, ℕ, ◌^◌, ◌<◌, ◌≤◌, ◌+◌, ◌++◌, [], length, take, IfSome, IsSome, IsNone, IfOk, IfErr, IsErr};
ghost use Rattle.byteorder.specs.Endian.{big_bytes};
ghost use Rattle.rtpwire.specs.Buffer.{in_front};
ghost use Rattle.rtpwire.specs.Content.{packet_of};
ghost use Rattle.rtpwire.specs.Retransmission.{Repair, IsRepair, RepairSpells, repair_of, repair_packet};
ghost use Rattle.rtpwire.specs.Rtp.{IsPacket, header, written};

use crate::carried::Carried;
use crate::content::{Content, Datagram};
use crate::fault::RtpFault;
use crate::fill::{fill_front, fill_packet};
use crate::limits::{MAX_HEADER, MAX_PAYLOAD, MAX_REPAIR_HEADER};
use crate::octets::{push_octets, push_u16, u16_at};
use crate::rtp::{FIXED_HEADER, RtpView};
use crate::write::{header_len, plain_header, push_header};
use arrayvec::ArrayVec;
use byteorder::{ByteOrder, NetworkEndian};
use std::marker::Model;

/// A retransmission in the octets that spell it, which it borrows. Nothing is copied.
///
/// What it shares with its packet, as the timestamp, is read there or by [`Content::of_rtx`].
#[derive(Drop)]
pub struct RtxView<'a> {
    packet: RtpView<'a>,
    original: u16,
    payload: &'a [u8],
}

impl<'a> Model for RtxView<'a> {
    ghost use Rattle.rtpwire.specs.Retransmission.{Repair, IsRepair, repair_with};

    ghost Value = { Repair };

    ghost view = { λ v. repair_with v.packet v.original v.payload.now };

    ghost invariant = { λ v. IsRepair (repair_with v.packet v.original v.payload.now) v.packet };
}

impl<'a> RtxView<'a> {
    /// The retransmission that a packet is, or [`RtpFault::NoOsn`] where its payload has fewer than two
    /// octets. Padding is no payload, so that of a padded packet is left out.
    pub fn read(view: &RtpView<'a>) -> Result<RtxView<'a>, RtpFault>
        // What is read is in the packet so.
        ensures is { IfOk result (λ repair. IsRepair repair view.now) }
        // What is in the packet so is read.
        ensures only { (repair : Repair) → IsRepair repair view.now → result ≡ Ok repair }
        ensures no_osn { IsErr result ↔ (length view.now.payload < 2) }
        ensures fault { IfErr result (λ fault. fault ≡ RtpFault.NoOsn) }
    {
        let Some((original, payload)) = split_original(view.payload()) else {
            return Err(RtpFault::NoOsn);
        };
        Ok(RtxView {
            packet: view.copy(),
            original,
            payload,
        })
    }

    /// The sequence number of the original packet.
    pub fn original(&self) -> u16
        ensures { result ≡ self.now.original }
    {
        self.original
    }

    /// The original payload: what follows the original's number, without padding.
    pub fn payload(&self) -> &'a [u8]
        ensures { result.now ≡ self.now.packet.payload }
    {
        self.payload
    }

    /// The packet that it is, with the original's number in its payload.
    pub(crate) fn packet(&self) -> &RtpView<'a>
        ensures { self.now.packet ≡ record result.now { payload = self.now.packet.payload } }
    {
        &self.packet
    }
}

/// The original's number at the front of a retransmission's payload, and the original payload after it,
/// or nothing where there are fewer than two octets.
fn split_original(payload: &[u8]) -> Option<(u16, &[u8])>
    ensures some { IfSome result (λ parts. (parts.0 < 2 ^ 16)
        × (payload.now ≡ big_bytes 2 parts.0 ++ parts.1.now)) }
    ensures none { IsNone result ↔ (length payload.now < 2) }
{
    if payload.len() < 2 {
        return None;
    }
    Some((u16_at(payload, 0), &payload[2..]))
}

/// The retransmission of a content, whose original packet had this sequence number.
///
/// The sequence number, type and SSRC are those of the retransmission stream. It cannot fail: a datagram
/// holds the largest. It has no padding (RFC 4588, section 4).
pub fn write_repair(
    content: &Content,
    original: u16,
    sequence: u16,
    payload_type: u8,
    ssrc: u32,
) -> Datagram
    requires { payload_type < 128 }
    ensures spells { RepairSpells content.now original sequence payload_type ssrc result.items }
    ensures fits { length result.items ≤ MAX_HEADER + 2 + MAX_PAYLOAD }
{
    let mut out = Datagram::new();
    write_repair_to(&mut out, content, original, sequence, payload_type, ssrc);
    out
}

/// The same retransmission in a datagram that the caller lends, whatever it held.
pub fn write_repair_to(
    out: &mut Datagram,
    content: &Content,
    original: u16,
    sequence: u16,
    payload_type: u8,
    ssrc: u32,
)
    requires { payload_type < 128 }
    ensures spells { RepairSpells content.now original sequence payload_type ssrc out.new.items }
    ensures fits { length out.new.items ≤ MAX_HEADER + 2 + MAX_PAYLOAD }
{
    let content = Carried::of_content(content);
    content.is_bounded();
    out.clear();
    push_repair_header(out, &content, original, sequence, payload_type, ssrc);
    push_octets(out, content.payload());
}

/// The same retransmission at the front of a slice that has room for it, as [`repair_len`] says. What lies behind
/// stays. It returns how many octets the retransmission has.
pub fn write_repair_into(
    out: &mut [u8],
    content: &Carried<'_>,
    original: u16,
    sequence: u16,
    payload_type: u8,
    ssrc: u32,
) -> usize
    requires payload_type { payload_type < 128 }
    requires room { length (written (repair_packet (repair_of content.now original sequence payload_type ssrc))) ≤ length out.old }
    ensures written { out.new ≡ in_front (written (repair_packet (repair_of content.now original sequence payload_type ssrc))) out.old }
    ensures len { result ≡ length (written (repair_packet (repair_of content.now original sequence payload_type ssrc))) }
    ensures spells { RepairSpells content.now original sequence payload_type ssrc (take result out.new) }
    ensures fits { result ≤ MAX_HEADER + 2 + MAX_PAYLOAD }
{
    content.is_bounded();
    if let Some(header) = plain_repair_header(content, original, sequence, payload_type, ssrc) {
        return fill_packet(out, &header, content.payload(), 0);
    }
    write_longer_into(out, content, original, sequence, payload_type, ssrc)
}

/// The same for any content. It stands apart since it blanks room for the longest header, which a plain one, as most
/// are, has no use for.
#[inline(never)]
fn write_longer_into(
    out: &mut [u8],
    content: &Carried<'_>,
    original: u16,
    sequence: u16,
    payload_type: u8,
    ssrc: u32,
) -> usize
    requires payload_type { payload_type < 128 }
    requires room { length (written (repair_packet (repair_of content.now original sequence payload_type ssrc))) ≤ length out.old }
    ensures written { out.new ≡ in_front (written (repair_packet (repair_of content.now original sequence payload_type ssrc))) out.old }
    ensures len { result ≡ length (written (repair_packet (repair_of content.now original sequence payload_type ssrc))) }
    ensures fits { result ≤ MAX_HEADER + 2 + MAX_PAYLOAD }
{
    content.is_bounded();
    let mut header = ArrayVec::<u8, MAX_REPAIR_HEADER>::new();
    push_repair_header(&mut header, content, original, sequence, payload_type, ssrc);
    fill_packet(out, &header, content.payload(), 0)
}

/// All that stands before the original payload where that is the fixed header and the original's number alone: where
/// there are neither sources nor a header extension.
fn plain_repair_header(
    content: &Carried<'_>,
    original: u16,
    sequence: u16,
    payload_type: u8,
    ssrc: u32,
) -> Option<[u8; FIXED_HEADER + 2]>
    requires payload_type { payload_type < 128 }
    ensures some { IfSome result (λ octets. octets ≡ header (packet_of content.now 0 sequence payload_type ssrc) ++ big_bytes 2 original) }
    ensures none { IsNone result ↔ (0 < length content.now.sources.items) ⊎ IsSome content.now.extension }
{
    let header = plain_header(content, 0, sequence, payload_type, ssrc)?;
    let mut octets = [0; FIXED_HEADER + 2];
    fill_front(&mut octets, &header);
    NetworkEndian::write_u16(&mut octets[FIXED_HEADER..], original);
    Some(octets)
}

/// How many octets the retransmission of a content has. A datagram has room for them.
pub fn repair_len(content: &Carried<'_>) -> usize
    ensures len { (original sequence payload_type ssrc : ℕ)
        → result ≡ length (written (repair_packet (repair_of content.now original sequence payload_type ssrc))) }
    ensures fits { result ≤ MAX_HEADER + 2 + MAX_PAYLOAD }
{
    content.is_bounded();
    header_len(content) + 2 + content.payload().len()
}

/// Writes all that stands before the original payload: the header, and the original's number.
fn push_repair_header<const N: usize>(
    out: &mut ArrayVec<u8, N>,
    content: &Carried<'_>,
    original: u16,
    sequence: u16,
    payload_type: u8,
    ssrc: u32,
)
    requires empty { out.old.items ≡ [] }
    requires room { MAX_REPAIR_HEADER ≤ N }
    requires payload_type { payload_type < 128 }
    ensures items { out.new.items ≡ header (packet_of content.now 0 sequence payload_type ssrc) ++ big_bytes 2 original }
    ensures fits { length out.new.items ≤ MAX_REPAIR_HEADER }
    ensures packet { IsPacket (packet_of content.now 0 sequence payload_type ssrc) }
    ensures number { original < 2 ^ 16 }
{
    push_header(out, content, 0, sequence, payload_type, ssrc);
    push_u16(out, original);
}
