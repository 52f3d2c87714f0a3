//! Numbers of the command line, with the units that may stand behind them.
ghost use Rattle.std.specs.Prelude.{◌≤◌, IfSome};

use crate::keys::{AES_CM, NULL};
use lines::parse_between;
use std::fmt;
use std::fmt::Write;

/// What the value of an option is, with its bounds.
#[derive(Clone, Copy, Debug, PartialEq, Eq)]
pub enum Form {
    /// A number.
    Number(u64, u64),
    /// Milliseconds.
    Time(u64, u64),
    /// Seconds.
    Seconds(u64, u64),
    /// So many of a thousand.
    Share(u64, u64),
    /// Octets.
    Octets(u64, u64),
    /// Kilobits a second, or a share of the media's rate up to so much.
    Rate(u64),
    /// An SSRC.
    Ssrc,
    /// Payload types, with those of their retransmissions.
    Types,
    /// What a log has lines of.
    Log,
    /// What a stream is in.
    Stream,
    /// How packets are protected.
    Profile,
    /// Whether a sender has to answer.
    Challenge,
}

/// A number in tens of digits, with the unit that stands behind it: how much one of that is. What has no unit is in the form's own.
fn split<'a>(text: &'a str, units: &[(&'static str, u64)]) -> (&'a str, u64) {
    for unit in units {
        if let Some(digits) = text.strip_suffix(unit.0) {
            return (digits, unit.1);
        }
    }
    (text, 1)
}

/// So many of a unit, if that lies between these bounds.
fn measured(text: &str, units: &[(&'static str, u64)], least: u64, most: u64) -> Option<u64>
    ensures { IfSome result (λ number. (least ≤ number) × (number ≤ most)) }
{
    let (digits, size) = split(text, units);
    let count = parse_between(digits.as_bytes(), 0, most)?;
    let number = count.checked_mul(size)?;
    if number < least || number > most {
        return None;
    }
    Some(number)
}

impl Form {
    /// The number that a text of this form is, in the form's own unit. Of a rate it is that in kilobits a second, and an SSRC and a word are none.
    pub fn read(self, text: &str) -> Option<u64> {
        match self {
            Form::Number(least, most) => measured(text, &[], least, most),
            Form::Time(least, most) => measured(text, &[("ms", 1), ("s", 1000)], least, most),
            Form::Seconds(least, most) => measured(
                text,
                &[("s", 1), ("m", 60), ("h", 3600)],
                least,
                most,
            ),
            Form::Share(least, most) => measured(text, &[("%", 10)], least, most),
            Form::Octets(least, most) => measured(
                text,
                &[("KiB", 1024), ("MiB", 1_048_576)],
                least,
                most,
            ),
            Form::Rate(_) => measured(text, &[("k", 1), ("M", 1000)], 0, u64::MAX),
            Form::Ssrc | Form::Types | Form::Log | Form::Stream | Form::Profile | Form::Challenge =>
                None,
        }
    }
}

/// From the least one on, to the most where there are greater ones.
fn write_bounds<W: fmt::Write>(f: &mut fmt::Formatter<W>, least: u64, most: u64) -> fmt::Result {
    if most == u64::MAX {
        write!(f, "from {least} on")
    } else {
        write!(f, "from {least} to {most}")
    }
}

impl fmt::Display for Form {
    fn fmt<W: fmt::Write>(&self, f: &mut fmt::Formatter<W>) -> fmt::Result {
        match *self {
            Form::Number(least, most) => {
                f.write_str("a number ")?;
                write_bounds(f, least, most)
            }
            Form::Time(least, most) => {
                f.write_str("milliseconds ")?;
                write_bounds(f, least, most)?;
                f.write_str(", as 200, 200ms or 2s")
            }
            Form::Seconds(least, most) => {
                f.write_str("seconds ")?;
                write_bounds(f, least, most)?;
                f.write_str(", as 90, 90s, 5m or 2h")
            }
            Form::Share(least, most) => {
                f.write_str("so many of 1000 ")?;
                write_bounds(f, least, most)?;
                f.write_str(", as 100 or 10%")
            }
            Form::Octets(least, most) => {
                f.write_str("octets ")?;
                write_bounds(f, least, most)?;
                f.write_str(", as 65536, 64KiB or 4MiB")
            }
            Form::Rate(most) => write!(
                f,
                "kilobits a second, as 2000, 2000k or 2M, or a share from 1% to {most}%"
            ),
            Form::Ssrc => f.write_str("an SSRC, by one to eight hexadecimal digits"),
            Form::Types => f.write_str(
                "a payload type, or up to 16 pairs of one and that of its retransmissions, no type twice, as 96:97,101:102",
            ),
            Form::Log => f.write_str("events or packets"),
            Form::Stream => f.write_str("rtp or ts"),
            Form::Profile => write!(f, "{AES_CM} or {NULL}"),
            Form::Challenge => f.write_str("on or off"),
        }
    }
}
