//! The text of a log: one line for each entry.
ghost use Rattle.std.specs.Prelude.{◌≡◌, ◌∷◌, [], ◌++◌, List, OnOk, codes};
ghost use Rattle.std.specs.Fmt.{decimal};
ghost use Rattle.world.specs.Answers.{Item};
ghost use Rattle.lines.specs.ContentText.{octets_text};
ghost use Rattle.lines.specs.LogText.{line_of, answer_line, content_words, played_line, entry_line, octets_at, written_octets};

use crate::content_text::{extension_octets, source_octets};
use crate::line::{push_line, push_refused};
use crate::word::Word;
use places::Place;
use receiver::Played;
use rtpwire::{Content, Datagram};
use stores::OutOfMemory;
use world::{Answer, Entry, Label};

/// Appends the line of an entry, with its line feed, where `wire` is the wire of the entry's world.
///
/// `OutOfMemory`: the text could not grow; it may have got a part of the line.
pub fn push_entry(
    line: &mut Vec<u8>,
    entry: &Entry,
    wire: &[(Label, Datagram)],
) -> Result<(), OutOfMemory>
    ensures { OnOk result (line.new.items ≡ line.old.items ++ entry_line wire.now entry.now) }
{
    let octets = match entry {
        Entry::Sent { index, .. } => octets_at(wire, *index),
        Entry::Repaired { index, .. } => octets_at(wire, *index),
        Entry::Asked { index, .. } => octets_at(wire, *index),
        _ => &[],
    };
    push_entry_octets(line, entry, octets)
}

/// The same where these are the octets of the datagram that the entry tells was put on the wire, and none where it tells of none.
///
/// `OutOfMemory`: the text could not grow; it may have got a part of the line.
pub fn push_entry_octets(
    line: &mut Vec<u8>,
    entry: &Entry,
    octets: &[u8],
) -> Result<(), OutOfMemory>
    ensures { OnOk result ((wire : List Item) → octets.now ≡ written_octets wire entry.now
        → line.new.items ≡ line.old.items ++ entry_line wire entry.now) }
{
    match entry {
        Entry::Sent { place, index, .. } => push_written(line, b"sent", *place, *index, octets),
        Entry::SendRefused(fault) => push_refused(line, fault.number()),
        Entry::Repaired { place, index } => push_written(line, b"repair", *place, *index, octets),
        Entry::NoRepair => push_line(line, &[Word::Text(b"repair"), Word::Text(b"none")]),
        Entry::Asked { index, .. } => push_asked(line, *index, octets),
        Entry::NoAsk { .. } => push_line(line, &[Word::Text(b"ask"), Word::Text(b"none")]),
        Entry::Nothing => push_line(line, &[Word::Text(b"nothing")]),
        Entry::Delivered { answer, .. } => push_answer(line, answer),
        Entry::Injected { answer, .. } => push_answer(line, answer),
        Entry::Played { played, .. } => push_played(line, played),
    }
}

/// The line of a datagram that the sender wrote for a place.
fn push_written<'a>(
    line: &mut Vec<u8>,
    kind: &'a [u8],
    place: Place,
    index: u64,
    octets: &'a [u8],
) -> Result<(), OutOfMemory>
    ensures { OnOk result (line.new.items ≡ line.old.items
        ++ line_of (kind.now ∷ decimal place ∷ decimal index ∷ octets_text octets.now ∷ [])) }
{
    let words = [
        Word::Text(kind),
        Word::Decimal(place.value()),
        Word::Decimal(index),
        Word::Octets(octets),
    ];
    push_line(line, &words)
}

fn push_asked(line: &mut Vec<u8>, index: u64, octets: &[u8]) -> Result<(), OutOfMemory>
    ensures { OnOk result (line.new.items ≡ line.old.items
        ++ line_of (codes "ask" ∷ decimal index ∷ octets_text octets.now ∷ [])) }
{
    let words = [
        Word::Text(b"ask"),
        Word::Decimal(index),
        Word::Octets(octets),
    ];
    push_line(line, &words)
}

/// The octets of the datagram at an index of the wire.
fn octets_at(wire: &[(Label, Datagram)], index: u64) -> &[u8]
    ensures { result.now ≡ octets_at wire.now index }
{
    match wire.get(index as usize) {
        Some((_, datagram)) => datagram.as_slice(),
        None => &[],
    }
}

fn push_answer(line: &mut Vec<u8>, answer: &Answer) -> Result<(), OutOfMemory>
    ensures { OnOk result (line.new.items ≡ line.old.items ++ answer_line answer.now) }
{
    match answer {
        Answer::Taken(taken) => {
            let place = Word::Decimal(taken.place.value());
            push_line(
                line,
                &[Word::Text(b"taken"), place, Word::Decimal(taken.overrun)],
            )
        }
        Answer::Refused(fault) => push_refused(line, fault.number()),
        Answer::Marked(marked) => {
            let places = Word::Decimal(u64::from(marked.places));
            push_line(line, &[Word::Text(b"marked"), places])
        }
        Answer::FeedbackRefused(fault) => push_refused(line, fault.number()),
    }
}

fn push_played(line: &mut Vec<u8>, played: &Played) -> Result<(), OutOfMemory>
    ensures { OnOk result (line.new.items ≡ line.old.items ++ played_line played.now) }
{
    match played {
        Played::Packet(place, content) => push_packet(line, *place, content),
        Played::Gap(place) => push_line(line, &[Word::Text(b"gap"), Word::Decimal(place.value())]),
        Played::Wait => push_line(line, &[Word::Text(b"wait")]),
    }
}

fn push_packet(line: &mut Vec<u8>, place: Place, content: &Content) -> Result<(), OutOfMemory>
    ensures { OnOk result (line.new.items ≡ line.old.items
        ++ line_of (codes "play" ∷ decimal place ∷ content_words content.now)) }
{
    let sources = source_octets(&content.sources);
    let extension = extension_octets(&content.extension);
    let words = [
        Word::Text(b"play"),
        Word::Decimal(place.value()),
        Word::Decimal(u64::from(content.timestamp)),
        Word::Marker(content.marker),
        Word::Octets(&content.payload),
        Word::Octets(&sources),
        Word::Octets(&extension),
    ];
    push_line(line, &words)
}
