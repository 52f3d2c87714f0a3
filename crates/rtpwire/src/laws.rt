//! Laws on what octets spell. These functions compute nothing: their contracts are the laws, for callers
//! of the readers and writers.
ghost use Rattle.std.specs.Prelude.{◌≡◌, ◌↔◌, ◌<◌, ◌≤◌, ◌+◌, ◌^◌, ℕ, List, [], ◌∷◌, ◌++◌, length, Some, None};
ghost use Rattle.rtpwire.specs.declared.content.Content.{Content};
ghost use Rattle.rtpwire.specs.declared.fault.RtpFault.{RtpFault};
ghost use Rattle.rtpwire.specs.Rtp.{RtpPacket, RtpSpells, IsPacket, AreOctets, unpadded, written};
ghost use Rattle.rtpwire.specs.RtpChecks.{rtp_fault};
ghost use Rattle.rtpwire.specs.RtpReading.{packet_in};
ghost use Rattle.rtpwire.specs.RtpOrder.{rtp_order};
ghost use Rattle.rtpwire.specs.FirstOf.{FirstOf};
ghost use Rattle.rtpwire.specs.Fault.{rtp_number};
ghost use Rattle.std.specs.Option.{option_map};
ghost use Rattle.rtpwire.specs.Content.{IsContent, IsTooLong, packet_of};
ghost use Rattle.rtpwire.specs.Retransmission.{Repair, IsRepair, RepairSpells, original_in, repair_of, repair_packet};
ghost use Rattle.rtpwire.specs.Framing.{IsDatagram, frame, Frames, IsRest, BeginsTooLong, Splits, Breaks};

use crate::content::Content;
use crate::octets::{are_octets, are_words, is_half_word, is_word};

/// Octets and packets determine each other as far as they can.
///
/// With what [`RtpView::read`](crate::RtpView::read) says, the second law is the round trip: what
/// [`write_media`](crate::write_media) writes is read back, its padding count included.
pub fn spelling_is_determined()
    // Octets spell at most one packet.
    ensures one { (p q : RtpPacket) (octets : List ℕ) → RtpSpells p octets → RtpSpells q octets → p ≡ q }
    // What is written spells the packet.
    ensures written { (p : RtpPacket) → IsPacket p → RtpSpells p (written p) }
    // What spells a packet is octets, and passes each check; so what a check refuses spells nothing.
    ensures are_octets { (p : RtpPacket) (octets : List ℕ) → RtpSpells p octets → AreOctets octets }
    ensures passes { (p : RtpPacket) (octets : List ℕ) → RtpSpells p octets → rtp_fault octets ≡ None }
    ensures refused { (p : RtpPacket) (octets : List ℕ) (fault : RtpFault)
        → rtp_fault octets ≡ Some fault → RtpSpells p octets → ⊥ }
    // Octets that pass each check spell the packet whose fields stand in them, and this packet is all that they spell.
    ensures seen { (octets : List ℕ) → AreOctets octets → rtp_fault octets ≡ None → RtpSpells (packet_in octets) octets }
    ensures only_seen { (p : RtpPacket) (octets : List ℕ) → RtpSpells p octets → packet_in octets ≡ p }
{}

/// The order in which octets are checked to be a packet.
pub fn checks_are_in_order()
    // The fault that decides has the number of the first check whose condition holds, and there is none where none does.
    ensures { (octets : List ℕ) → FirstOf (rtp_order octets) (option_map rtp_number (rtp_fault octets)) }
{}

/// What contents and the packets that carry them say of each other.
pub fn content_is_determined()
    // A packet carries at most one content, and its own numbers.
    ensures one { (c d : Content) (m n s t u v x y : ℕ)
        → packet_of c m s u x ≡ packet_of d n t v y
        → (c ≡ d) × (m ≡ n) × (s ≡ t) × (u ≡ v) × (x ≡ y) }
    // No packet that carries a content is too long for one.
    ensures held { (content : Content) (padding sequence payload_type ssrc : ℕ) → IsContent content
        → IsTooLong (packet_of content padding sequence payload_type ssrc) → ⊥ }
    // Each content can be carried, under any numbers that have room in a packet.
    ensures carried { (content : Content) (padding sequence payload_type ssrc : ℕ) → IsContent content
        → padding < 2 ^ 8 → (0 < padding → 0 < length content.payload.items)
        → sequence < 2 ^ 16 → payload_type < 128 → ssrc < 2 ^ 32
        → IsPacket (packet_of content padding sequence payload_type ssrc) }
{}

/// What every content holds: at most [`MAX_PAYLOAD`](crate::MAX_PAYLOAD) octets of payload,
/// [`MAX_SOURCES`](crate::MAX_SOURCES) sources and [`MAX_WORDS`](crate::MAX_WORDS) words of a header extension, and in each
/// no more than its type has room for. It computes nothing.
pub fn content_is_bounded(content: &Content)
    ensures { IsContent content.now }
{
    are_octets(&content.payload);
    is_word(content.timestamp);
    are_words(&content.sources);
    if let Some(extension) = &content.extension {
        is_half_word(extension.profile);
        are_words(&extension.words);
    }
}

/// Octets and retransmissions determine each other.
///
/// With what [`RtpView::read`](crate::RtpView::read) and [`RtxView::read`](crate::RtxView::read) say, the
/// fourth law is the round trip: what [`write_repair`](crate::write_repair) writes is read back.
pub fn repair_is_determined()
    // Octets spell the retransmission of at most one content, under one number of an original.
    ensures one { (c d : Content) (o p m n t u r s : ℕ) (octets : List ℕ)
        → RepairSpells c o m t r octets → RepairSpells d p n u s octets
        → (c ≡ d) × (o ≡ p) × (m ≡ n) × (t ≡ u) × (r ≡ s) }
    // A packet is one retransmission at most: with one number of an original, and one original payload.
    ensures one_packet { (r s : Repair) (packet : RtpPacket) → IsRepair r packet → IsRepair s packet → r ≡ s }
    // A retransmission has one spelling.
    ensures same { (content : Content) (original sequence payload_type ssrc : ℕ) (octets : List ℕ)
        → RepairSpells content original sequence payload_type ssrc octets
        → octets ≡ unpadded (repair_packet (repair_of content original sequence payload_type ssrc)) }
    // They spell it exactly where the packet that a reader finds in them is this retransmission.
    ensures read { (content : Content) (original sequence payload_type ssrc : ℕ) (octets : List ℕ)
        (packet : RtpPacket) → RtpSpells packet octets
        → (RepairSpells content original sequence payload_type ssrc octets
        ↔ IsRepair (repair_of content original sequence payload_type ssrc) packet) }
    // The packet of a retransmission has a payload: the two octets of the original's number at least.
    ensures long { (repair : Repair) (packet : RtpPacket) → IsRepair repair packet → 2 ≤ length packet.payload }
    // This number stands in them, and the original payload behind them.
    ensures number { (repair : Repair) (packet : RtpPacket) → IsRepair repair packet → original_in packet.payload ≡ repair.original }
    ensures rest { (repair : Repair) (packet : RtpPacket) → IsRepair repair packet → length packet.payload ≡ 2 + length repair.packet.payload }
{}

/// In whatever pieces a stream comes, its datagrams are the same.
///
/// What [`Deframer::feed`](crate::Deframer::feed) says of one piece, the last three laws say of the
/// stream so far. By the first three the stream alone determines its datagrams.
pub fn framing_is_determined()
    // A stream is the frames of one list of datagrams at most, and one rest.
    ensures one { (a b : List (List ℕ)) (r s stream : List ℕ)
        → Splits a r stream → Splits b s stream → (a ≡ b) × (r ≡ s) }
    // So it is where a length that no datagram has comes after them.
    ensures one_broken { (a b : List (List ℕ)) (stream : List ℕ) → Breaks a stream → Breaks b stream → a ≡ b }
    ensures apart { (a b : List (List ℕ)) (rest stream : List ℕ)
        → Splits a rest stream → Breaks b stream → ⊥ }
    // Frames are a stream of which nothing is left.
    ensures frames { (datagrams : List (List ℕ)) (octets : List ℕ)
        → Frames datagrams octets ↔ Splits datagrams [] octets }

    // One more frame became whole.
    ensures whole { (datagrams : List (List ℕ)) (datagram rest stream piece : List ℕ)
        → Splits datagrams rest stream → IsDatagram datagram → rest ++ piece ≡ frame datagram
        → Splits (datagrams ++ datagram ∷ []) [] (stream ++ piece) }
    // None did.
    ensures partial { (datagrams : List (List ℕ)) (rest stream piece : List ℕ)
        → Splits datagrams rest stream → IsRest (rest ++ piece)
        → Splits datagrams (rest ++ piece) (stream ++ piece) }
    // A length that no datagram has came.
    ensures too_long { (datagrams : List (List ℕ)) (rest stream piece : List ℕ)
        → Splits datagrams rest stream → BeginsTooLong (rest ++ piece)
        → Breaks datagrams (stream ++ piece) }
{}
