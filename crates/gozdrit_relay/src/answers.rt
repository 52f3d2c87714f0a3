//! What a client is answered.
ghost use Rattle.std.specs.Prelude.{◌≡◌, ◌++◌, IfOk, OnOk};
ghost use Rattle.gozdrit_relay.specs.Answers.{answer_text, fault_line, head_of, page_of, shown, visible, word_line};
ghost use Rattle.gozdrit_relay.specs.Stats.{stats_line};

use crate::asking::{Asked, front};
use crate::counts::Counts;
use crate::figures::{Figure, push_figures};
use crate::metrics::metrics_of;
use crate::standing::Standing;
use crate::stats::stats_text;
use crate::way::Way;
use lines::{Word, push_line};
use std::alloc::Global;
use stores::OutOfMemory;

/// How many octets of a request a fault names.
const NAMED: usize = 64;

/// The fields of an HTTP response, the length of its body last.
const FIELDS: &str =
    "\r\nConnection: close\r\nContent-Type: text/plain; version=0.0.4; charset=utf-8\r\nContent-Length:";

/// What an HTTP response ends its head with, behind the length of its body; and where a method is refused.
const END: &str = "\r\n\r";

const ALLOWED: &str = "\r\nAllow: GET\r\n\r";

/// What is told of a run.
#[derive(Clone, Copy)]
pub struct State<'a> {
    pub counts: &'a Counts,
    pub is_sender: bool,
    pub has_log: bool,
    pub standing: Standing,
    /// Where what leaves goes.
    pub way: Way,
}

/// The answer of a relay to what was asked for by these octets.
pub fn answer_of(
    alloc: Global,
    asked: Asked,
    octets: &[u8],
    state: State<'_>,
) -> Result<Vec<u8>, OutOfMemory> {
    let mut figures = state.counts.figures(alloc, state.is_sender)?;
    // Who has the run end is told its line of counts.
    if matches!(asked, Asked::Stats | Asked::Metrics) {
        state.standing.push(&mut figures)?;
    }
    let prefix = if state.is_sender {
        "gozdrit_send_"
    } else {
        "gozdrit_receive_"
    };
    answer(alloc, asked, octets, prefix, &figures)
}

/// The answer to what was asked for by these octets, with the figures of a run, and what the names of its metrics begin
/// with.
fn answer(
    alloc: Global,
    asked: Asked,
    octets: &[u8],
    prefix: &str,
    figures: &[Figure<'_>],
) -> Result<Vec<u8>, OutOfMemory>
    ensures { IfOk result (λ text. text.items ≡ answer_text asked octets.now prefix.now figures.now) }
{
    match asked {
        Asked::Stats => stats_line(alloc, figures),
        Asked::Stop => {
            let mut line = Vec::new(alloc);
            push_figures(alloc, &mut line, figures)?;
            Ok(line)
        }
        Asked::Metrics => {
            let body = metrics_of(alloc, prefix, figures)?;
            page(alloc, "200 OK", END, &body)
        }
        Asked::Reopen => word(alloc, "reopen"),
        Asked::To => word(alloc, "to"),
        Asked::Peer => word(alloc, "peer"),
        Asked::NoLog => fault(alloc, octets, "has no --log to open"),
        Asked::NoAddress => fault(alloc, octets, "says no address that can be sent to"),
        Asked::NoPeers => fault(alloc, octets, "lists no peers by their addresses"),
        Asked::Unknown => fault(alloc, octets, "is none of stats, to, peer, reopen and stop"),
        Asked::LongLine => fault(alloc, octets, "has more than 8192 octets"),
        Asked::LongHead => page(
            alloc,
            "431 Request Header Fields Too Large",
            END,
            b"too long\n",
        ),
        Asked::Malformed => page(alloc, "400 Bad Request", END, b"this is no HTTP\n"),
        Asked::NoPage => page(alloc, "404 Not Found", END, b"there is /metrics alone\n"),
        Asked::NoMethod => page(
            alloc,
            "405 Method Not Allowed",
            ALLOWED,
            b"there is GET alone\n",
        ),
    }
}

/// All figures as one line.
fn stats_line(alloc: Global, figures: &[Figure<'_>]) -> Result<Vec<u8>, OutOfMemory>
    ensures { IfOk result (λ text. text.items ≡ stats_line figures.now) }
{
    let mut line = stats_text(alloc, figures)?.into_bytes();
    line.push(b'\n')?;
    Ok(line)
}

/// The line of a request that is done: its first word.
fn word(alloc: Global, word: &str) -> Result<Vec<u8>, OutOfMemory>
    ensures { IfOk result (λ text. text.items ≡ word_line word.now) }
{
    let mut line = Vec::new(alloc);
    push_line(&mut line, &[Word::Text(word.as_bytes())])?;
    Ok(line)
}

/// The line of a request that is refused, with its beginning.
fn fault(alloc: Global, octets: &[u8], why: &str) -> Result<Vec<u8>, OutOfMemory>
    ensures { IfOk result (λ text. text.items ≡ fault_line octets.now why.now) }
{
    let named = shown(alloc, octets)?;
    let mut line = Vec::new(alloc);
    push_line(
        &mut line,
        &[
            Word::Text(b"fault request:"),
            Word::Text(&named),
            Word::Text(why.as_bytes()),
        ],
    )?;
    Ok(line)
}

/// The beginning of the first line, with a question mark for each octet that is no character of ASCII.
fn shown(alloc: Global, octets: &[u8]) -> Result<Vec<u8>, OutOfMemory>
    ensures { IfOk result (λ text. text.items ≡ shown octets.now) }
{
    let front = front(octets, NAMED);
    let mut text = Vec::new(alloc);
    for octet in front {
        if *octet == b'\n' {
            return Ok(text);
        }
        text.push(visible(*octet))?;
    }
    Ok(text)
}

/// An octet as it is shown.
fn visible(octet: u8) -> u8
    ensures { result ≡ visible octet }
{
    if octet >= b' ' && octet <= b'~' {
        octet
    } else {
        b'?'
    }
}

/// A page of HTTP (RFC 9112, section 4), behind which the connection ends.
fn page<'x>(
    alloc: Global,
    status: &'x str,
    end: &'x str,
    body: &[u8],
) -> Result<Vec<u8>, OutOfMemory>
    ensures { IfOk result (λ text. text.items ≡ page_of status.now end.now body.now) }
{
    let mut text = Vec::new(alloc);
    push_head(&mut text, status, FIELDS, body.len() as u64, end)?;
    text.extend_from_slice(body)?;
    Ok(text)
}

/// Pushes the head of a page: its status, its fields with the length of its body, and its end.
fn push_head<'x>(
    text: &mut Vec<u8>,
    status: &'x str,
    fields: &'x str,
    length: u64,
    end: &'x str,
) -> Result<(), OutOfMemory>
    ensures { OnOk result (text.new.items ≡ text.old.items ++ head_of status.now fields.now length end.now) }
{
    push_line(
        text,
        &[
            Word::Text(b"HTTP/1.1"),
            Word::Text(status.as_bytes()),
            Word::Text(fields.as_bytes()),
            Word::Decimal(length),
            Word::Text(end.as_bytes()),
        ],
    )
}
