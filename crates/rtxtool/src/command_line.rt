//! What a command line asks for.
ghost use Rattle.std.specs.Prelude.{◌≡◌, ◌≤◌, IfOk, IfErr, IfSome, map, option_map};
ghost use Rattle.clap.specs.Words.{all_of, first_of, found_of, rows_of, subcommand_rows_of};
ghost use Rattle.rtxtool.specs.CommandLine.{IsWithin, Misses, MissesIn, asked, asked_in, asked_of, loopback_in, number_in, pack_in, place_of, places_of, said_by, soak_in};

use crate::options::command;
use clap::error::ErrorKind;
use clap::{ArgMatches, Error};
use lines::parse_between;
use places::Place;
use std::alloc::{AllocError, Global};
use std::convert::AsStr;

/// What a command line asks for.
#[derive(Debug, Drop, PartialEq, Eq)]
pub enum Choice<'a> {
    /// To print the log of the script in this file.
    Sim(&'a str),
    /// To print the datagrams of the trace in this file.
    Show(&'a str),
    /// To print the feedback that asks for these places.
    Pack(Vec<Place>),
    /// To print the tally of a drawn run.
    Soak {
        seed: u64,
        packets: u32,
        /// So many packets of 1000 are lost.
        loss: u32,
    },
    /// To print the tally of a run over two sockets.
    Loopback {
        packets: u32,
        /// Which packets are dropped, as text.
        drop: &'a str,
    },
}

/// Why a command line asks for nothing that the program does.
#[derive(Debug, Drop, thiserror::Error)]
pub enum ChooseFault {
    /// `clap` refuses the line, or has the help or the version that it asks for: its text is for the user.
    #[error("{0}")]
    Line(Error),
    /// `clap` took the line, and a value is missing in it, or is no decimal between its bounds.
    #[error("fault value")]
    Value,
    /// The allocator refused a growth.
    #[error("out of memory")]
    OutOfMemory,
}

impl From<AllocError> for ChooseFault {
    ghost use Rattle.std.specs.Prelude.{◌≡◌};
    ghost use Rattle.rtxtool.specs.declared.command_line.ChooseFault.TheVariants as told;

    ghost from_gives = { λ _ fault. fault ≡ told.OutOfMemory };

    fn from(_want: AllocError) -> ChooseFault {
        ChooseFault::OutOfMemory
    }
}

/// Reads the words of a command line, of which the first is the program's name.
pub fn choose<'a, S: AsStr>(alloc: Global, words: &'a [S]) -> Result<Choice<'a>, ChooseFault>
    ensures ok { IfOk result (λ choice. asked (map S.text words.entry.now) ≡ Some (said_by choice)) }
    ensures err { IfErr result (Misses (map S.text words.entry.now)) }
    ensures within { IfOk result IsWithin }
{
    match command(alloc)?.try_get_matches_from(words) {
        Ok(matches) => chosen(alloc, &matches),
        Err(error) => {
            if error.kind() == ErrorKind::OutOfMemory {
                Err(ChooseFault::OutOfMemory)
            } else {
                Err(ChooseFault::Line(error))
            }
        }
    }
}

/// The choice of a line that `clap` took.
fn chosen<'a>(alloc: Global, matches: &ArgMatches<'a>) -> Result<Choice<'a>, ChooseFault>
    ensures ok { IfOk result (λ choice. asked_in (subcommand_rows_of matches.now) ≡ Some (said_by choice)) }
    ensures err { IfErr result (MissesIn (asked_in (subcommand_rows_of matches.now))) }
    ensures within { IfOk result IsWithin }
{
    match matches.subcommand() {
        Some((name, inner)) => choice_of(alloc, name, inner),
        None => Err(ChooseFault::Value),
    }
}

/// The choice of a subcommand.
fn choice_of<'a>(
    alloc: Global,
    name: &str,
    matches: &ArgMatches<'a>,
) -> Result<Choice<'a>, ChooseFault>
    ensures ok { IfOk result (λ choice. asked_of name.now (rows_of (found_of matches.now)) ≡ Some (said_by choice)) }
    ensures err { IfErr result (MissesIn (asked_of name.now (rows_of (found_of matches.now)))) }
    ensures within { IfOk result IsWithin }
{
    let choice = if name == "sim" {
        text(matches, "FILE").map(Choice::Sim)
    } else if name == "show" {
        text(matches, "FILE").map(Choice::Show)
    } else if name == "pack" {
        return pack(alloc, matches);
    } else if name == "soak" {
        soak(matches)
    } else if name == "loopback" {
        loopback(matches)
    } else {
        None
    };
    choice.ok_or(ChooseFault::Value)
}

/// The word of a value.
fn text<'a>(matches: &ArgMatches<'a>, id: &str) -> Option<&'a str>
    ensures { option_map (λ s. s.now) result ≡ first_of id.now (rows_of (found_of matches.now)) }
{
    matches.get_str(id)
}

fn soak<'a>(matches: &ArgMatches<'a>) -> Option<Choice<'a>>
    ensures value { option_map said_by result ≡ soak_in (rows_of (found_of matches.now)) }
    ensures within { IfSome result IsWithin }
{
    let seed = number(matches, "seed", 0, u64::MAX)?;
    let packets = number(matches, "packets", 1, 10000)?;
    let loss = number(matches, "loss", 0, 1000)?;
    Some(Choice::Soak {
        seed,
        packets: packets as u32,
        loss: loss as u32,
    })
}

fn loopback<'a>(matches: &ArgMatches<'a>) -> Option<Choice<'a>>
    ensures value { option_map said_by result ≡ loopback_in (rows_of (found_of matches.now)) }
    ensures within { IfSome result IsWithin }
{
    let packets = number(matches, "packets", 1, 1000)?;
    let drop = text(matches, "drop")?;
    Some(Choice::Loopback {
        packets: packets as u32,
        drop,
    })
}

/// The value of an option, as a number between these bounds.
fn number(matches: &ArgMatches, id: &str, least: u64, most: u64) -> Option<u64>
    ensures value { result ≡ number_in id.now least most (rows_of (found_of matches.now)) }
    ensures within { IfSome result (λ number. number ≤ most) }
{
    parse_between(text(matches, id)?.as_bytes(), least, most)
}

/// The greatest place.
const LAST: u64 = (1 << 48) - 1;

fn pack<'a>(alloc: Global, matches: &ArgMatches<'a>) -> Result<Choice<'a>, ChooseFault>
    ensures ok { IfOk result (λ choice. pack_in (rows_of (found_of matches.now)) ≡ Some (said_by choice)) }
    ensures err { IfErr result (MissesIn (pack_in (rows_of (found_of matches.now)))) }
    ensures within { IfOk result IsWithin }
{
    match texts(matches, "N") {
        Some(words) => Ok(Choice::Pack(places(alloc, words)?)),
        None => Err(ChooseFault::Value),
    }
}

/// The words of a value that has several.
fn texts<'m, 'a>(matches: &'m ArgMatches<'a>, id: &str) -> Option<&'m [&'a str]>
    ensures { option_map (λ s. map (λ v. v.now) s.now) result ≡ all_of id.now (rows_of (found_of matches.now)) }
{
    matches.get_strs(id)
}

/// The places that words write.
fn places(alloc: Global, words: &[&str]) -> Result<Vec<Place>, ChooseFault>
    ensures ok { IfOk result (λ places. places_of (map (λ s. s.now) words.now) ≡ Some places.items) }
    ensures err { IfErr result (MissesIn (places_of (map (λ s. s.now) words.now))) }
{
    let mut places = Vec::new(alloc);
    for word in words {
        let place = place(word).ok_or(ChooseFault::Value)?;
        if places.push(place).is_err() {
            return Err(ChooseFault::OutOfMemory);
        }
    }
    Ok(places)
}

/// The place that a word writes.
fn place(word: &str) -> Option<Place>
    ensures { result ≡ place_of word.now }
{
    Place::new(parse_between(word.as_bytes(), 0, LAST)?)
}
