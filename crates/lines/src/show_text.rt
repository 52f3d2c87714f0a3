//! The text of a trace: one line for each datagram, by what its octets spell.
ghost use Rattle.std.specs.Prelude.{◌≡◌, ◌↔◌, ◌∷◌, ◌++◌, ℕ, List, IsTrue, map};
ghost use Rattle.std.specs.List.{flat_map};
ghost use Rattle.rtpwire.specs.Retransmission.{IsRepair};
ghost use Rattle.lines.specs.ContentText.{extension_text};
ghost use Rattle.lines.specs.Line.{behind_space, line_of};
ghost use Rattle.lines.specs.ShowText.{IsFeedback, Shows, ShowsPacket, header_words, rtp_line, rtx_line};
ghost use Rattle.lines.specs.Sink.{Pushes};
ghost use Rattle.lines.specs.WordText.{word_text};

use crate::content_text::source_octets;
use crate::line::{push_more, push_refused};
use crate::nack_text::push_nacks;
use crate::sink::Sink;
use crate::word::Word;
use arrayvec::ArrayVec;
use fbwire::Compound;
use rtpwire::{RtpView, RtxView};
use world::REPAIR_TYPE;

/// Pushes the line of a datagram of a trace, with its line feed: what its octets spell, or the number of the check for
/// which they are refused. Octets of any length are shown.
pub fn push_datagram<S: Sink>(sink: &mut S, octets: &[u8]) -> Result<(), S::Fault>
    ensures { (line : List ℕ) × Shows octets.now line × Pushes result (S.contents sink.old) (S.contents sink.new) line }
{
    if is_feedback(octets) {
        return match Compound::read(octets) {
            Ok(compound) => push_nacks(sink, compound.nacks()),
            Err(fault) => push_refused(sink, fault.number()),
        };
    }
    match RtpView::read(octets) {
        Ok(view) => push_view(sink, &view),
        Err(fault) => push_refused(sink, fault.number()),
    }
}

/// Whether a datagram is read as feedback: by its second octet, where an RTCP packet has its type.
fn is_feedback(octets: &[u8]) -> bool
    ensures { IsTrue result ↔ IsFeedback octets.now }
{
    octets.len() >= 2 && octets[1] >= 200 && octets[1] <= 206
}

/// Pushes the line of a packet: as a packet, or as a retransmission by its type.
fn push_view<S: Sink>(sink: &mut S, view: &RtpView<'_>) -> Result<(), S::Fault>
    ensures { (line : List ℕ) × ShowsPacket view.now line × Pushes result (S.contents sink.old) (S.contents sink.new) line }
{
    if view.payload_type() != REPAIR_TYPE {
        return push_rtp(sink, view);
    }
    match RtxView::read(view) {
        Ok(repair) => push_rtx(sink, view, &repair),
        Err(fault) => push_refused(sink, fault.number()),
    }
}

/// Pushes the line of a packet.
fn push_rtp<S: Sink>(sink: &mut S, view: &RtpView<'_>) -> Result<(), S::Fault>
    ensures { Pushes result (S.contents sink.old) (S.contents sink.new) (rtp_line view.now) }
{
    let sources = source_octets(&sources_in(view));
    let carried = [
        Word::Octets(view.payload()),
        Word::Octets(&sources),
        extension_word(view),
    ];
    push_packet(sink, b"rtp", view, &carried)
}

/// Pushes the line of a retransmission, which is in this packet.
fn push_rtx<S: Sink>(sink: &mut S, view: &RtpView<'_>, repair: &RtxView<'_>) -> Result<(), S::Fault>
    requires { IsRepair repair.now view.now }
    ensures { Pushes result (S.contents sink.old) (S.contents sink.new) (rtx_line repair.now) }
{
    let sources = source_octets(&sources_in(view));
    let carried = [
        Word::Decimal(u64::from(repair.original())),
        Word::Octets(repair.payload()),
        Word::Octets(&sources),
        extension_word(view),
    ];
    push_packet(sink, b"rtx", view, &carried)
}

/// Pushes the line of a packet: its kind, its header, and what it carries.
fn push_packet<S: Sink>(
    sink: &mut S,
    kind: &[u8],
    view: &RtpView<'_>,
    carried: &[Word<'_>],
) -> Result<(), S::Fault>
    ensures { Pushes result (S.contents sink.old) (S.contents sink.new)
        (line_of (kind.now ∷ header_words view.now ++ map word_text carried.now)) }
{
    sink.push(kind)?;
    push_header(sink, view)?;
    push_more(sink, carried)?;
    sink.push(b"\n")
}

/// Pushes the words of a packet's header, each behind a space.
fn push_header<S: Sink>(sink: &mut S, view: &RtpView<'_>) -> Result<(), S::Fault>
    ensures { Pushes result (S.contents sink.old) (S.contents sink.new) (flat_map behind_space (header_words view.now)) }
{
    let ssrc = view.ssrc().to_be_bytes();
    let words = [
        Word::Decimal(u64::from(view.payload_type())),
        Word::Decimal(u64::from(view.sequence())),
        Word::Octets(&ssrc),
        Word::Decimal(u64::from(view.timestamp())),
        Word::Marker(view.marker()),
        Word::Decimal(u64::from(view.padding())),
    ];
    push_more(sink, &words)
}

/// A packet's contributing sources, of which there are at most 15.
fn sources_in(view: &RtpView<'_>) -> ArrayVec<u32, 15>
    ensures { result.items ≡ view.now.sources }
{
    let mut sources = ArrayVec::new();
    for index in 0..view.source_count() {
        sources.push(view.source(index));
    }
    sources
}

/// A packet's header extension as a word.
fn extension_word<'a>(view: &RtpView<'a>) -> Word<'a>
    ensures { word_text result ≡ extension_text view.now.extension }
{
    match view.extension() {
        Some((profile, words)) => Word::Extension(profile, words),
        None => Word::Text(b"-"),
    }
}
