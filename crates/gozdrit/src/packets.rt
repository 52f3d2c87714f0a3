//! One RTP packet for C, read and written.
ghost use Rattle.std.specs.Prelude.{◌≡◌, ◌<◌, ◌≤◌, length};
ghost use Rattle.rtpwire.specs.Buffer.{in_front};
ghost use Rattle.rtpwire.specs.Content.{packet_of};
ghost use Rattle.rtpwire.specs.Rtp.{RtpSpells};
ghost use Rattle.gozdrit.specs.Packets.{AnswersRead, AnswersWrite, TellsPacket, octets_of, without_payload};

use crate::code::{BAD_TYPE, NO_ROOM, OK, PADDED_EMPTY, TOO_LARGE, TOO_LONG};
use crate::header::Header;
use rtpwire::{Carried, Content, RtpView, media_len, write_media_into};

/// An RTP packet, and where its payload lies.
#[repr(C)]
#[derive(Drop)]
pub struct PacketFields {
    /// Where the payload begins, in octets from the packet's first one, and how many octets it has.
    pub payload: usize,
    pub length: usize,
    pub header: Header,
    pub ssrc: u32,
    pub sequence: u16,
    pub payload_type: u8,
    /// How many octets of padding there are, their count included; 0 for none.
    pub padding: u8,
}

pub(crate) fn rtp_read(octets: &[u8], packet: &mut PacketFields) -> i32
    ensures { AnswersRead octets.now packet.old result packet.new }
{
    let view = match RtpView::read(octets) {
        Ok(view) => view,
        Err(fault) => return i32::from(fault.number()),
    };
    let Ok(carried) = Carried::with_payload(&view, &[]) else {
        return TOO_LONG;
    };
    tell_packet(octets, &view, &carried, packet);
    OK
}

/// Tells a packet that was read, whose header is lent as a content without a payload.
fn tell_packet(octets: &[u8], view: &RtpView<'_>, carried: &Carried<'_>, packet: &mut PacketFields)
    requires spelled { RtpSpells view.now octets.now }
    requires its { packet_of carried.now view.now.padding view.now.sequence view.now.payload_type view.now.ssrc ≡ without_payload view.now }
    ensures { TellsPacket view.now octets.now packet.old packet.new }
{
    packet.header.tell(&Content::of(carried));
    packet.ssrc = view.ssrc();
    packet.sequence = view.sequence();
    packet.payload_type = view.payload_type();
    packet.padding = view.padding();
    packet.length = view.payload().len();
    packet.payload = octets.len() - usize::from(packet.padding) - packet.length;
}

pub(crate) fn rtp_write(
    packet: &PacketFields,
    payload: &[u8],
    written: &mut usize,
    out: &mut [u8],
) -> i32
    ensures { AnswersWrite packet.now payload.now written.old out.old result written.new out.new }
{
    let Some(carried) = packet.header.carried(payload) else {
        return TOO_LARGE;
    };
    if out.len() < packet_len(packet, &carried) {
        return NO_ROOM;
    }
    if packet.payload_type > 127 {
        return BAD_TYPE;
    }
    if packet.padding > 0 && payload.is_empty() {
        return PADDED_EMPTY;
    }
    *written = write_to(out, packet, &carried);
    OK
}

/// How many octets a packet has.
fn packet_len(packet: &PacketFields, carried: &Carried<'_>) -> usize
    ensures { result ≡ length (octets_of packet.now carried.now) }
{
    media_len(carried, packet.padding)
}

/// Writes a packet to the front of a slice that has room for it, and answers how many octets it has.
fn write_to(out: &mut [u8], packet: &PacketFields, carried: &Carried<'_>) -> usize
    requires payload_type { packet.now.payload_type ≤ 127 }
    requires padding { 0 < packet.now.padding → 0 < length carried.now.payload.items }
    requires room { length (octets_of packet.now carried.now) ≤ length out.old }
    ensures len { result ≡ length (octets_of packet.now carried.now) }
    ensures written { out.new ≡ in_front (octets_of packet.now carried.now) out.old }
{
    write_media_into(
        out,
        carried,
        packet.padding,
        packet.sequence,
        packet.payload_type,
        packet.ssrc,
    )
}
