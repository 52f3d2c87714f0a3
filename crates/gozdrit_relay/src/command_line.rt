//! What a command line asks for.
ghost use Rattle.std.specs.Prelude.{◌≤◌, ◌<◌, IfOk, IfSome};

use crate::fault::Fault;
use crate::journal;
use crate::keys::{AES_CM, NULL};
use crate::load::MOST_KEPT;
use crate::options::command;
use crate::session_types::session_types;
use crate::units::Form;
use clap::ArgMatches;
use clap::error::ErrorKind;
use endpoint::ResendRule;
use lines::parse_between;
use relays::Rate;
use srtp::Profile;
use std::alloc::Global;
use std::convert::AsStr;

/// What both relays are told.
#[derive(Clone, Copy)]
pub struct Options<'a> {
    pub listen: &'a str,
    pub to: &'a str,
    pub from: Option<&'a str>,
    /// Who may send a stream, as a list with commas; anybody where there is none.
    pub peers: Option<&'a str>,
    /// So many packets in sequence are a stream.
    pub stream: u64,
    pub ssrc: Option<u32>,
    pub rtx_ssrc: Option<u32>,
    pub media_type: Option<u8>,
    pub rtx_type: Option<u8>,
    /// The pairs of payload types, where there are several.
    pub types: Option<&'a str>,
    pub first: Option<u16>,
    pub packets: Option<u64>,
    pub seconds: Option<u64>,
    pub stats: Option<u64>,
    pub log: Option<&'a str>,
    pub log_form: journal::Form,
    /// Where the control socket is, and that of the metrics.
    pub control: Option<&'a str>,
    pub metrics: Option<&'a str>,
    /// So many of 1000 datagrams are dropped.
    pub loss: u32,
    pub seed: u64,
    /// So many octets the system is asked to keep for a socket, each way.
    pub socket_buffer: i32,
    /// Over how many networks what goes to a group goes.
    pub ttl: Option<u8>,
    /// Whether what the application sends, or what the player takes, is MPEG-TS without RTP.
    pub is_ts: bool,
    /// Where the key is by which what passes the network is protected, if it is, and how.
    pub key_file: Option<&'a str>,
    pub profile: Profile,
}

/// What a command line asks for.
#[derive(Clone, Copy)]
pub enum Choice<'a> {
    /// A relay before a network.
    Send {
        options: Options<'a>,
        rate: Rate,
        rule: ResendRule,
        /// Whether packets are retransmitted again no sooner than what is measured of the path says, nor than the rule does.
        follows: bool,
        history: usize,
        rtx_first: u16,
    },
    /// A relay behind a network.
    Receive {
        options: Options<'a>,
        latency: u64,
        window: usize,
        /// The RTP clock rate by which packets are held for the player, if they are.
        hold: Option<u32>,
        /// Whether a stream is heard under a key once its sender answered.
        challenges: bool,
    },
    /// A request of a relay that runs.
    Ctl {
        /// Where its control socket is.
        path: &'a str,
        request: &'a str,
        /// What stands behind it: an address or a list.
        value: Option<&'a str>,
    },
}

/// The greatest number of seconds, about thirty years.
const LONGEST: u64 = 1_000_000_000;

/// How much of the media's rate retransmissions have by default, in per cent.
const SHARE: u64 = 200;

/// How long after a retransmission feedback that names the packet again is passed over at least by default, in milliseconds: the other
/// relay sends each NACK twice.
const MIN_RESEND: u64 = 10;

/// How many packets in sequence are a stream by default.
const STREAM: u64 = 10;

/// How many octets the system is asked to keep for a socket by default: a tenth of a second at 400 megabits a
/// second, since it keeps twice as many for itself and takes 2304 of these for a packet of 1316.
const BUFFER: u64 = 4_194_304;

const LEAST_BUFFER: u64 = 4096;

const MOST_BUFFER: u64 = 1_073_741_824;

/// The greatest share.
const MOST_SHARE: u64 = 100_000;

/// Reads the words of a command line, of which the first is the program's name.
pub fn choose<'a, S: AsStr>(alloc: Global, words: &'a [S]) -> Result<Choice<'a>, Fault<'a>> {
    let Ok(command) = command(alloc) else {
        return Err(Fault::Memory);
    };
    match command.try_get_matches_from(words) {
        Ok(matches) => chosen(&matches),
        Err(error) => {
            if error.kind() == ErrorKind::OutOfMemory {
                Err(Fault::Memory)
            } else {
                Err(Fault::Line(error))
            }
        }
    }
}

/// The choice of a line that `clap` took.
fn chosen<'a>(matches: &ArgMatches<'a>) -> Result<Choice<'a>, Fault<'a>> {
    match matches.subcommand() {
        Some((name, inner)) => {
            if name == "send" {
                send(inner)
            } else if name == "ctl" {
                ctl(inner)
            } else {
                receive(inner)
            }
        }
        None => Err(Fault::Missing("help")),
    }
}

fn send<'a>(matches: &ArgMatches<'a>) -> Result<Choice<'a>, Fault<'a>> {
    let options = common(matches, "input")?;
    let min_resend = value(matches, "min-resend", Form::Time(0, u64::MAX))?;
    Ok(Choice::Send {
        options,
        rate: rate(matches)?,
        rule: ResendRule {
            min_resend: min_resend.unwrap_or(MIN_RESEND),
            deadline: value(matches, "deadline", Form::Time(0, u64::MAX))?,
        },
        follows: min_resend.is_none(),
        history: number(matches, "history", 1, MOST_KEPT)?.unwrap_or(MOST_KEPT) as usize,
        rtx_first: sixteen(matches, "rtx-first")?.unwrap_or(0),
    })
}

fn receive<'a>(matches: &ArgMatches<'a>) -> Result<Choice<'a>, Fault<'a>> {
    let options = common(matches, "output")?;
    Ok(Choice::Receive {
        options,
        latency: value(matches, "latency", Form::Time(0, u64::MAX))?.unwrap_or(200),
        window: number(matches, "window", 1, MOST_KEPT)?.unwrap_or(MOST_KEPT) as usize,
        hold: thirty_two(matches, "hold", 1)?,
        challenges: challenges(matches)?,
    })
}

fn ctl<'a>(matches: &ArgMatches<'a>) -> Result<Choice<'a>, Fault<'a>> {
    Ok(Choice::Ctl {
        path: matches.get_str("path").ok_or(Fault::Missing("path"))?,
        request: matches.get_str("request").ok_or(Fault::Missing("request"))?,
        value: matches.get_str("value"),
    })
}

/// The options of both, of which one has this name for what the stream is in.
fn common<'a>(matches: &ArgMatches<'a>, stream: &'a str) -> Result<Options<'a>, Fault<'a>> {
    let types = session_types(matches)?;
    Ok(Options {
        listen: matches.get_str("listen").ok_or(Fault::Missing("listen"))?,
        to: matches.get_str("to").ok_or(Fault::Missing("to"))?,
        from: matches.get_str("from"),
        peers: matches.get_str("peer"),
        stream: number(matches, "stream", 1, u64::MAX)?.unwrap_or(STREAM),
        ssrc: ssrc(matches, "ssrc")?,
        rtx_ssrc: ssrc(matches, "rtx-ssrc")?,
        media_type: types.media,
        rtx_type: types.repair,
        types: types.pairs,
        first: sixteen(matches, "first")?,
        packets: number(matches, "packets", 1, u64::MAX)?,
        seconds: value(matches, "seconds", Form::Seconds(1, LONGEST))?,
        stats: value(matches, "stats", Form::Seconds(1, LONGEST))?,
        log: matches.get_str("log"),
        log_form: log_form(matches)?,
        control: matches.get_str("control"),
        metrics: matches.get_str("metrics"),
        loss: value(matches, "loss", Form::Share(0, 1000))?
            .unwrap_or(0)
            .min(1000) as u32,
        seed: number(matches, "seed", 0, u64::MAX)?.unwrap_or(0),
        socket_buffer: value(
            matches,
            "socket-buffer",
            Form::Octets(LEAST_BUFFER, MOST_BUFFER),
        )?
        .unwrap_or(BUFFER)
        .min(MOST_BUFFER) as i32,
        ttl: number(matches, "ttl", 1, 255)?.map(|ttl| ttl.min(255) as u8),
        is_ts: is_ts(matches, stream)?,
        key_file: matches.get_str("key-file"),
        profile: profile(matches)?,
    })
}

/// The value of an option, as a number between these bounds, where it is given.
fn number<'a>(
    matches: &ArgMatches<'a>,
    id: &'a str,
    least: u64,
    most: u64,
) -> Result<Option<u64>, Fault<'a>>
    ensures within { IfOk result (λ value. IfSome value (λ number. number ≤ most)) }
{
    let Some(text) = matches.get_str(id) else {
        return Ok(None);
    };
    match parse_between(text.as_bytes(), least, most) {
        Some(number) => Ok(Some(number)),
        None => Err(Fault::Value(id, text, Form::Number(least, most))),
    }
}

/// The value of an option in this form, where it is given.
fn value<'a>(matches: &ArgMatches<'a>, id: &'a str, form: Form) -> Result<Option<u64>, Fault<'a>> {
    let Some(text) = matches.get_str(id) else {
        return Ok(None);
    };
    match form.read(text) {
        Some(number) => Ok(Some(number)),
        None => Err(Fault::Value(id, text, form)),
    }
}

/// How fast retransmissions leave: a share of the media's rate in per cent, or kilobits a second, of which 0 are no limit.
fn rate<'a>(matches: &ArgMatches<'a>) -> Result<Rate, Fault<'a>> {
    let Some(text) = matches.get_str("rate") else {
        return Ok(Rate::Percent(SHARE));
    };
    let form = Form::Rate(MOST_SHARE);
    let read = match text.as_bytes().split_last() {
        Some((b'%', digits)) => parse_between(digits, 1, MOST_SHARE).map(Rate::Percent),
        _ => form.read(text).map(kilobits),
    };
    read.ok_or(Fault::Value("rate", text, form))
}

fn kilobits(rate: u64) -> Rate {
    match rate {
        0 => Rate::Free,
        _ => Rate::Kilobits(rate),
    }
}

/// What the log has lines of.
fn log_form<'a>(matches: &ArgMatches<'a>) -> Result<journal::Form, Fault<'a>> {
    match matches.get_str("log-form") {
        None => Ok(journal::Form::Events),
        Some(text) if text == "events" => Ok(journal::Form::Events),
        Some(text) if text == "packets" => Ok(journal::Form::Packets),
        Some(text) => Err(Fault::Value("log-form", text, Form::Log)),
    }
}

/// Whether a stream is MPEG-TS without RTP.
fn is_ts<'a>(matches: &ArgMatches<'a>, id: &'a str) -> Result<bool, Fault<'a>> {
    match matches.get_str(id) {
        None => Ok(false),
        Some(text) if text == "rtp" => Ok(false),
        Some(text) if text == "ts" => Ok(true),
        Some(text) => Err(Fault::Value(id, text, Form::Stream)),
    }
}

/// How packets are protected under a key. Who names a profile and gives no key would have no protection, and not know.
fn profile<'a>(matches: &ArgMatches<'a>) -> Result<Profile, Fault<'a>> {
    match matches.get_str("profile") {
        None => Ok(Profile::Aes128CmHmacSha1),
        Some(_) if matches.get_str("key-file").is_none() => Err(Fault::Missing("key-file")),
        Some(text) if text == AES_CM => Ok(Profile::Aes128CmHmacSha1),
        Some(text) if text == NULL => Ok(Profile::NullHmacSha1),
        Some(text) => Err(Fault::Value("profile", text, Form::Profile)),
    }
}

/// Whether a stream's sender has to answer. Who says so and gives no key would be heard by anybody, and not know.
fn challenges<'a>(matches: &ArgMatches<'a>) -> Result<bool, Fault<'a>> {
    match matches.get_str("challenge") {
        None => Ok(true),
        Some(_) if matches.get_str("key-file").is_none() => Err(Fault::Missing("key-file")),
        Some(text) if text == "on" => Ok(true),
        Some(text) if text == "off" => Ok(false),
        Some(text) => Err(Fault::Value("challenge", text, Form::Challenge)),
    }
}

/// A sequence number.
fn sixteen<'a>(matches: &ArgMatches<'a>, id: &'a str) -> Result<Option<u16>, Fault<'a>> {
    match number(matches, id, 0, 65535)? {
        Some(number) => Ok(Some(number as u16)),
        None => Ok(None),
    }
}

/// A number of 32 bits from `least` on.
fn thirty_two<'a>(
    matches: &ArgMatches<'a>,
    id: &'a str,
    least: u64,
) -> Result<Option<u32>, Fault<'a>> {
    match number(matches, id, least, 4294967295)? {
        Some(number) => Ok(Some(number as u32)),
        None => Ok(None),
    }
}

/// An SSRC, by one to eight hexadecimal digits.
fn ssrc<'a>(matches: &ArgMatches<'a>, id: &'a str) -> Result<Option<u32>, Fault<'a>> {
    let Some(text) = matches.get_str(id) else {
        return Ok(None);
    };
    // A sign is none of the digits.
    if text.as_bytes().first() == Some(&b'+') {
        return Err(Fault::Value(id, text, Form::Ssrc));
    }
    match u32::from_str_radix(text, 16) {
        Ok(ssrc) => Ok(Some(ssrc)),
        Err(_) => Err(Fault::Value(id, text, Form::Ssrc)),
    }
}
