//! What a client asks for, by what came of it so far: a line at the control socket, or the head of an HTTP request for
//! the metrics.
ghost use Rattle.std.specs.Prelude.{◌≡◌, ◌≤◌, ◌<◌, ◌⊎◌, ℕ, List, length, take, false, true};
ghost use Rattle.httparse.specs.Grammar.{HasNoRequest, NeverHasRequest, ReadsRequest, RequestHead};
ghost use Rattle.httparse.specs.Spans.{RequestExceeds};
ghost use Rattle.gozdrit_relay.specs.Asking.{asked_of_line, asked_of_page, asked_where, line_heard, unfinished};

use httparse::spans::{EMPTY_HEADER_SPAN, parse_request};
use httparse::{Error, Status};
use lines::find_byte;

/// How many octets a request has at most, its end included.
pub const LONGEST: usize = 8192;

/// How many fields the head of an HTTP request has at most.
const FIELDS: usize = 64;

/// What a request asks for.
#[derive(Clone, Copy, Debug, PartialEq, Eq)]
pub enum Asked {
    /// All counts.
    Stats,
    /// That the run ends.
    Stop,
    /// That the log goes on in the file that has its name now.
    Reopen,
    /// The same of a relay that has none.
    NoLog,
    /// That what leaves goes to another address.
    To,
    /// The same without an address that it can go to.
    NoAddress,
    /// That others may send a stream.
    Peer,
    /// The same without a list of them.
    NoPeers,
    /// A line that is none of these.
    Unknown,
    /// The metrics.
    Metrics,
    /// A page that there is not.
    NoPage,
    /// The metrics by another method than GET.
    NoMethod,
    /// What is no HTTP.
    Malformed,
    /// It is longer than may be, as a line or as a head.
    LongLine,
    LongHead,
}

/// What came of a client so far.
#[derive(Clone, Copy, Debug, PartialEq, Eq)]
pub enum Come {
    /// A whole request, or so much that it can't become one.
    Asks(Asked),
    /// The beginning of one, of which more may come.
    More,
    /// The beginning of one, and the client is gone.
    Gone,
}

/// What octets at the control socket ask for: the first line, where it has its end within 8192 octets.
pub fn hear_line(octets: &[u8], is_gone: bool) -> Come
    ensures { result ≡ line_heard octets.now is_gone }
{
    match find_byte(octets, b'\n') {
        Some(end) => Come::Asks(asked_of_line(&octets[..end])),
        None => unfinished(octets, is_gone, Asked::LongLine),
    }
}

/// What a line asks for.
fn asked_of_line(line: &[u8]) -> Asked
    ensures { result ≡ asked_of_line line.now }
{
    if line == b"stats".as_slice() {
        Asked::Stats
    } else if line == b"stop".as_slice() {
        Asked::Stop
    } else if line == b"reopen".as_slice() {
        Asked::Reopen
    } else if front(line, 3) == b"to ".as_slice() {
        Asked::To
    } else if front(line, 5) == b"peer ".as_slice() {
        Asked::Peer
    } else {
        Asked::Unknown
    }
}

/// The first octets of a slice, so many at most.
pub fn front(octets: &[u8], most: usize) -> &[u8]
    ensures { result.now ≡ take most octets.now }
{
    if octets.len() > most {
        &octets[..most]
    } else {
        octets
    }
}

/// What is asked of a relay that has a log, or none, by a line that says a change which can be made, or none.
pub fn asked_where(has_log: bool, has_change: bool, asked: Asked) -> Asked
    ensures { result ≡ asked_where has_log has_change asked }
{
    match asked {
        Asked::Reopen if !has_log => Asked::NoLog,
        Asked::To if !has_change => Asked::NoAddress,
        Asked::Peer if !has_change => Asked::NoPeers,
        _ => asked,
    }
}

/// A request that is not whole.
fn unfinished(octets: &[u8], is_gone: bool, long: Asked) -> Come
    ensures { result ≡ unfinished (length octets.now) is_gone long }
{
    if octets.len() >= LONGEST {
        Come::Asks(long)
    } else if is_gone {
        Come::Gone
    } else {
        Come::More
    }
}

/// What octets of HTTP ask for.
pub fn hear_head(octets: &[u8], is_gone: bool) -> Come
    ensures found { (head : RequestHead) (rest : List ℕ) → ReadsRequest octets.now head rest
        → length head.fields ≤ 64 → result ≡ Come.Asks (asked_of_page head.method head.target) }
    ensures more { result ≡ Come.More → HasNoRequest octets.now × (is_gone ≡ false) × (length octets.now < 8192) }
    ensures gone { result ≡ Come.Gone → HasNoRequest octets.now × (is_gone ≡ true) × (length octets.now < 8192) }
    ensures malformed { result ≡ Come.Asks Asked.Malformed → NeverHasRequest octets.now }
    ensures long { result ≡ Come.Asks Asked.LongHead → (8192 ≤ length octets.now) ⊎ RequestExceeds 64 octets.now }
{
    let mut fields = [EMPTY_HEADER_SPAN; FIELDS];
    match parse_request(octets, &mut fields) {
        Ok(Status::Complete(head)) => {
            let method = head.method.of(octets);
            let target = head.path.of(octets);
            Come::Asks(asked_of_page(method, target))
        }
        Ok(Status::Partial) => unfinished(octets, is_gone, Asked::LongHead),
        Err(Error::TooManyHeaders) => Come::Asks(Asked::LongHead),
        Err(_) => Come::Asks(Asked::Malformed),
    }
}

/// What a method and a target ask for.
fn asked_of_page(method: &[u8], target: &[u8]) -> Asked
    ensures { result ≡ asked_of_page method.now target.now }
{
    if target != b"/metrics".as_slice() {
        Asked::NoPage
    } else if method == b"GET".as_slice() {
        Asked::Metrics
    } else {
        Asked::NoMethod
    }
}
