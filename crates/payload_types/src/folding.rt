//! Packets of several types as one session has them, and back.
ghost use Rattle.std.specs.Prelude.{◌≡◌, ◌<◌, ◌≤◌, ◌++◌, ℕ, true, false, List, [], ◌∷◌, length, Some, None, is_some, IfSome, IsNone, ◌↔◌};
ghost use Rattle.byteorder.specs.Endian.{big_bytes};
ghost use Rattle.rtpwire.specs.Rtp.{RtpPacket, RtpSpells};
ghost use Rattle.rtpwire.specs.declared.limits.TheConstants.{MAX_DATAGRAM, MAX_PAYLOAD};
ghost use Rattle.payload_types.specs.Folding.{FitsAs, IsPlain, IsWithin, before, in_session, is_media, is_of_session, keeping, kept_in, media_on, on_network, repair_on, under};
ghost use Rattle.payload_types.specs.Types.{pair_of_media};

use crate::types::PayloadTypes;
use arrayvec::ArrayVec;
use endpoint::without_padding;
use rtpwire::{
    Carried, MAX_PAYLOAD, RtpView, RtxView, media_len, push_octets, repair_len, write_media_into,
    write_repair_into,
};

/// What became of a datagram.
#[derive(Clone, Copy, Debug, PartialEq, Eq)]
pub enum Fitted {
    /// It is none of the session's packets, and stays as it is.
    Same,
    /// It is so many octets at the front of the room.
    Written(usize),
    /// It is one that the session can't hold: its payload has [`MAX_PAYLOAD`](rtpwire::MAX_PAYLOAD) octets or more, or its
    /// header extension is too long.
    TooLong,
    /// It is one of the session, and none of the types of the media stands behind its payload.
    NoType,
}

impl PayloadTypes {
    /// What came from the network, as the session below has it: a packet of its media or a retransmission, of any of the
    /// types, is one of the first pair's, with the type of its media as one octet more behind its payload, and without
    /// padding. All else stays as it is.
    pub fn into_session(&self, octets: &[u8], out: &mut [u8]) -> Fitted
        requires { length out.old ≡ MAX_DATAGRAM }
        ensures within { IsWithin MAX_DATAGRAM result }
        ensures other { (plain : List ℕ) → IsPlain octets.now plain → ((p : RtpPacket) → RtpSpells p plain → ⊥) → result ≡ Fitted.Same }
        ensures strange { (plain : List ℕ) (p : RtpPacket) → IsPlain octets.now plain → RtpSpells p plain → in_session self.now p ≡ None
            → result ≡ Fitted.Same }
        ensures kept { (plain : List ℕ) (p q : RtpPacket) → IsPlain octets.now plain → RtpSpells p plain → in_session self.now p ≡ Some q
            → FitsAs (is_some (pair_of_media self.now p.payload_type)) q result out.new }
    {
        match without_padding(octets) {
            Some(plain) => self.enter(plain.as_slice(), out),
            None => self.enter(octets, out),
        }
    }

    /// The same of octets that are no packet of padding alone.
    fn enter(&self, octets: &[u8], out: &mut [u8]) -> Fitted
        requires { length out.old ≡ MAX_DATAGRAM }
        ensures within { IsWithin MAX_DATAGRAM result }
        ensures other { ((p : RtpPacket) → RtpSpells p octets.now → ⊥) → result ≡ Fitted.Same }
        ensures strange { (p : RtpPacket) → RtpSpells p octets.now → in_session self.now p ≡ None → result ≡ Fitted.Same }
        ensures kept { (p q : RtpPacket) → RtpSpells p octets.now → in_session self.now p ≡ Some q
            → FitsAs (is_some (pair_of_media self.now p.payload_type)) q result out.new }
    {
        match RtpView::read(octets) {
            Ok(view) => self.enter_packet(&view, out),
            Err(_) => Fitted::Same,
        }
    }

    /// The same of a packet.
    fn enter_packet(&self, view: &RtpView<'_>, out: &mut [u8]) -> Fitted
        requires { length out.old ≡ MAX_DATAGRAM }
        ensures within { IsWithin MAX_DATAGRAM result }
        ensures strange { in_session self.now view.now ≡ None → result ≡ Fitted.Same }
        ensures kept { (q : RtpPacket) → in_session self.now view.now ≡ Some q
            → FitsAs (is_some (pair_of_media self.now view.now.payload_type)) q result out.new }
    {
        let payload_type = view.payload_type();
        let first = self.first();
        if let Some(pair) = self.of_media(payload_type) {
            return keep_media(view, first.media, pair.media, out);
        }
        match self.of_repair(payload_type) {
            Some(pair) => keep_repair(view, first.repair, pair.media, out),
            None => Fitted::Same,
        }
    }

    /// What leaves for the network, as the session below wrote it: a packet of its media or a retransmission has the type
    /// that stands behind its payload, or that of its retransmissions, and this octet goes. All else stays as it is.
    pub fn out_of_session(&self, octets: &[u8], out: &mut [u8]) -> Fitted
        requires { length out.old ≡ MAX_DATAGRAM }
        ensures within { IsWithin MAX_DATAGRAM result }
        ensures other { ((q : RtpPacket) → RtpSpells q octets.now → ⊥) → result ≡ Fitted.Same }
        ensures strange { (q : RtpPacket) → RtpSpells q octets.now → is_of_session self.now q ≡ false → result ≡ Fitted.Same }
        ensures restored { (p q : RtpPacket) → RtpSpells q octets.now → on_network self.now q ≡ Some p
            → FitsAs (is_media self.now q) p result out.new }
        ensures unknown { (q : RtpPacket) → RtpSpells q octets.now → is_of_session self.now q ≡ true → on_network self.now q ≡ None
            → result ≡ Fitted.NoType }
    {
        match RtpView::read(octets) {
            Ok(view) => self.leave_packet(&view, out),
            Err(_) => Fitted::Same,
        }
    }

    /// The same of a packet.
    fn leave_packet(&self, view: &RtpView<'_>, out: &mut [u8]) -> Fitted
        requires { length out.old ≡ MAX_DATAGRAM }
        ensures within { IsWithin MAX_DATAGRAM result }
        ensures strange { is_of_session self.now view.now ≡ false → result ≡ Fitted.Same }
        ensures restored { (p : RtpPacket) → on_network self.now view.now ≡ Some p → FitsAs (is_media self.now view.now) p result out.new }
        ensures unknown { is_of_session self.now view.now ≡ true → on_network self.now view.now ≡ None → result ≡ Fitted.NoType }
    {
        let payload_type = view.payload_type();
        let first = self.first();
        if payload_type == first.media {
            self.leave_media(view, out)
        } else if payload_type == first.repair {
            self.leave_repair(view, out)
        } else {
            Fitted::Same
        }
    }

    /// A packet of the session's media under the type that stands behind its payload.
    fn leave_media(&self, view: &RtpView<'_>, out: &mut [u8]) -> Fitted
        requires { length out.old ≡ MAX_DATAGRAM }
        ensures within { IsWithin MAX_DATAGRAM result }
        ensures restored { (p : RtpPacket) → media_on self.now view.now ≡ Some p → FitsAs true p result out.new }
        ensures unknown { media_on self.now view.now ≡ None → result ≡ Fitted.NoType }
    {
        let Some((media, payload)) = split_kept(view.payload()) else {
            return Fitted::NoType;
        };
        match self.of_media(media) {
            Some(pair) => write_media_as(view, payload, pair.media, out),
            None => Fitted::NoType,
        }
    }

    /// A retransmission under the type of those of the media whose type stands behind its payload.
    fn leave_repair(&self, view: &RtpView<'_>, out: &mut [u8]) -> Fitted
        requires { length out.old ≡ MAX_DATAGRAM }
        ensures within { IsWithin MAX_DATAGRAM result }
        ensures restored { (p : RtpPacket) → repair_on self.now view.now ≡ Some p → FitsAs false p result out.new }
        ensures unknown { repair_on self.now view.now ≡ None → result ≡ Fitted.NoType }
    {
        let Ok(repair) = RtxView::read(view) else {
            return Fitted::NoType;
        };
        let Some((media, payload)) = split_kept(repair.payload()) else {
            return Fitted::NoType;
        };
        match self.of_media(media) {
            Some(pair) => write_repair_as(view, repair.original(), payload, pair.repair, out),
            None => Fitted::NoType,
        }
    }
}

/// Writes a packet of the media under this type, with the type of its own behind its payload.
fn keep_media(view: &RtpView<'_>, payload_type: u8, media: u8, out: &mut [u8]) -> Fitted
    requires room { length out.old ≡ MAX_DATAGRAM }
    requires payload_type { payload_type < 128 }
    ensures within { IsWithin MAX_DATAGRAM result }
    ensures fits { FitsAs true (keeping payload_type media view.now) result out.new }
{
    let Some(payload) = kept(view.payload(), media) else {
        return Fitted::TooLong;
    };
    write_media_as(view, &payload, payload_type, out)
}

/// Writes a retransmission under this type, with the type of its media behind its payload. What names no original stays as it
/// is.
fn keep_repair(view: &RtpView<'_>, payload_type: u8, media: u8, out: &mut [u8]) -> Fitted
    requires room { length out.old ≡ MAX_DATAGRAM }
    requires payload_type { payload_type < 128 }
    ensures within { IsWithin MAX_DATAGRAM result }
    ensures strange { length view.now.payload < 2 → result ≡ Fitted.Same }
    ensures kept { 2 ≤ length view.now.payload → FitsAs false (keeping payload_type media view.now) result out.new }
{
    let Ok(repair) = RtxView::read(view) else {
        return Fitted::Same;
    };
    let Some(payload) = kept(repair.payload(), media) else {
        return Fitted::TooLong;
    };
    write_repair_as(view, repair.original(), &payload, payload_type, out)
}

/// A payload with a type behind it, where a session holds that.
fn kept(payload: &[u8], media: u8) -> Option<ArrayVec<u8, MAX_PAYLOAD>>
    ensures some { IfSome result (λ kept. kept.items ≡ payload.now ++ media ∷ []) }
    ensures none { IsNone result ↔ (MAX_PAYLOAD ≤ length payload.now) }
{
    if payload.len() >= MAX_PAYLOAD {
        return None;
    }
    let mut kept = ArrayVec::new();
    push_octets(&mut kept, payload);
    push_octets(&mut kept, &[media]);
    Some(kept)
}

/// The type that stands behind a payload, and what stands before it.
fn split_kept(payload: &[u8]) -> Option<(u8, &[u8])>
    ensures some { IfSome result (λ r. (r.0 ≡ kept_in payload.now) × (r.1.now ≡ before payload.now) × (0 < length payload.now)) }
    ensures none { IsNone result ↔ (length payload.now ≡ 0) }
{
    let last = payload.len().checked_sub(1)?;
    Some((payload[last], &payload[..last]))
}

/// Writes a packet of the media under this type, with this payload, without padding.
fn write_media_as(view: &RtpView<'_>, payload: &[u8], payload_type: u8, out: &mut [u8]) -> Fitted
    requires room { length out.old ≡ MAX_DATAGRAM }
    requires payload_type { payload_type < 128 }
    ensures within { IsWithin MAX_DATAGRAM result }
    ensures fits { FitsAs true (under payload_type payload.now view.now) result out.new }
{
    let Ok(carried) = Carried::with_payload(view, payload) else {
        return Fitted::TooLong;
    };
    let len = media_len(&carried, 0);
    prove!(len <= out.len());
    let len = write_media_into(out, &carried, 0, view.sequence(), payload_type, view.ssrc());
    Fitted::Written(len)
}

/// Writes a retransmission under this type, of an original with this number and payload.
fn write_repair_as(
    view: &RtpView<'_>,
    original: u16,
    payload: &[u8],
    payload_type: u8,
    out: &mut [u8],
) -> Fitted
    requires room { length out.old ≡ MAX_DATAGRAM }
    requires payload_type { payload_type < 128 }
    ensures within { IsWithin MAX_DATAGRAM result }
    ensures fits { FitsAs false (under payload_type (big_bytes 2 original ++ payload.now) view.now) result out.new }
{
    let Ok(carried) = Carried::with_payload(view, payload) else {
        return Fitted::TooLong;
    };
    let len = repair_len(&carried);
    prove!(len <= out.len());
    let (number, ssrc) = (view.sequence(), view.ssrc());
    let len = write_repair_into(out, &carried, original, number, payload_type, ssrc);
    Fitted::Written(len)
}
