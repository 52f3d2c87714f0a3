//! The lines of a script that follow the first: an event each.
ghost use Rattle.std.specs.Prelude.{◌≡◌};
ghost use Rattle.lines.specs.EventLine.{ask_of, delivery_of, end_of_word, event_of, injection_of, play_of, repair_of, send_of};
ghost use Rattle.lines.specs.Words.{words_left};

use crate::decimal::parse_decimal;
use crate::numbers::read_numbers;
use crate::octets::{parse_extension, parse_octets, parse_sources};
use crate::words::{LONGEST_LINE, cut};
use rtpwire::Content;
use world::{End, Event};

/// What a line says as an event line, if it is one.
pub fn parse_event(line: &[u8]) -> Option<Event>
    ensures { result ≡ event_of line.now }
{
    if line.len() > LONGEST_LINE {
        return None;
    }
    let (kind, rest) = cut(line);
    if kind == b"S".as_slice() {
        return send(rest);
    }
    if kind == b"R".as_slice() {
        return repair(rest);
    }
    if kind == b"A".as_slice() {
        return ask(rest);
    }
    if kind == b"D".as_slice() {
        return delivery(rest);
    }
    if kind == b"P".as_slice() {
        return play(rest);
    }
    if kind == b"I".as_slice() {
        return injection(rest);
    }
    None
}

/// `TIMESTAMP MARKER PADDING PAYLOAD CSRC EXT`.
#[tactic(auto, using(crate::proofs::EventLemmas::more_than_a_send))]
fn send(rest: Option<&[u8]>) -> Option<Event>
    ensures { result ≡ send_of (words_left rest.entry) }
{
    let (timestamp, rest) = cut(rest?);
    let (marker, rest) = cut(rest?);
    let (padding, rest) = cut(rest?);
    let (payload, rest) = cut(rest?);
    let (sources, rest) = cut(rest?);
    let (extension, rest) = cut(rest?);
    if rest.is_some() {
        return None;
    }
    let timestamp = parse_decimal(timestamp, 0xffff_ffff)?;
    let marker = parse_decimal(marker, 1)?;
    let padding = parse_decimal(padding, 255)?;
    let payload = parse_octets(payload)?;
    let sources = parse_sources(sources)?;
    let extension = parse_extension(extension)?;
    let content = Content {
        payload,
        timestamp: timestamp as u32,
        marker: marker == 1,
        sources,
        extension,
    };
    Some(Event::Send(content, padding as u8))
}

/// No word.
#[tactic(auto, using(crate::proofs::EventLemmas::more_than_a_repair))]
fn repair(rest: Option<&[u8]>) -> Option<Event>
    ensures { result ≡ repair_of (words_left rest.entry) }
{
    if rest.is_some() {
        return None;
    }
    Some(Event::Repair)
}

/// The least and the most of an index, and of a moment.
const ANY: (u64, u64) = (0, u64::MAX);

/// `NOW`.
fn ask(rest: Option<&[u8]>) -> Option<Event>
    ensures { result ≡ ask_of (words_left rest.entry) }
{
    let mut numbers = [0];
    if !read_numbers(rest, &[ANY], &mut numbers) {
        return None;
    }
    let [moment] = numbers;
    Some(Event::Ask(moment))
}

/// `INDEX NOW`.
fn delivery(rest: Option<&[u8]>) -> Option<Event>
    ensures { result ≡ delivery_of (words_left rest.entry) }
{
    let mut numbers = [0; 2];
    if !read_numbers(rest, &[ANY, ANY], &mut numbers) {
        return None;
    }
    let [index, moment] = numbers;
    Some(Event::Deliver(index, moment))
}

/// `NOW`.
fn play(rest: Option<&[u8]>) -> Option<Event>
    ensures { result ≡ play_of (words_left rest.entry) }
{
    let mut numbers = [0];
    if !read_numbers(rest, &[ANY], &mut numbers) {
        return None;
    }
    let [moment] = numbers;
    Some(Event::Play(moment))
}

/// `END OCTETS NOW`.
#[tactic(auto, using(crate::proofs::EventLemmas::more_than_an_injection))]
fn injection(rest: Option<&[u8]>) -> Option<Event>
    ensures { result ≡ injection_of (words_left rest.entry) }
{
    let (end, rest) = cut(rest?);
    let (octets, rest) = cut(rest?);
    let (now, rest) = cut(rest?);
    if rest.is_some() {
        return None;
    }
    let end = end_of(end)?;
    let datagram = parse_octets(octets)?;
    let moment = parse_decimal(now, u64::MAX)?;
    Some(Event::Inject(end, datagram, moment))
}

/// An end, by its letter.
fn end_of(word: &[u8]) -> Option<End>
    ensures { result ≡ end_of_word word.now }
{
    if word == b"r".as_slice() {
        return Some(End::Receiver);
    }
    if word == b"s".as_slice() {
        return Some(End::Sender);
    }
    None
}
