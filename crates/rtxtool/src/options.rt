//! The command line that `clap` reads, with its help.
ghost use Rattle.std.specs.Prelude.{◌≡◌, IfOk, false};
ghost use Rattle.clap.specs.Words.{app_of, rule_of};
ghost use Rattle.rtxtool.specs.CommandLine.{bare_tool, drop_rule, file_rule, loopback, option_rule, pack, show, sim, soak, tool};

use crate::help;
use clap::{Arg, ArgAction, Command};
use std::alloc::{AllocError, Global};

/// The command line of the program.
pub fn command<'a>(alloc: Global) -> Result<Command<'a>, AllocError>
    ensures { IfOk result (λ command. app_of command ≡ tool) }
{
    bare(alloc)
        .subcommand(sim(alloc)?)?
        .subcommand(show(alloc)?)?
        .subcommand(pack(alloc)?)?
        .subcommand(soak(alloc)?)?
        .subcommand(loopback(alloc)?)
}

const VERSION: &str = "2.5.0";

/// The program without its subcommands.
fn bare<'a>(alloc: Global) -> Command<'a>
    ensures { app_of result ≡ bare_tool }
{
    Command::new(alloc, "rtxtool")
        .about(help::ABOUT)
        .after_help(help::TOOL)
        .version(VERSION)
        .subcommand_required(true)
}

fn sim<'a>(alloc: Global) -> Result<Command<'a>, AllocError>
    ensures { IfOk result (λ command. app_of command ≡ sim) }
{
    Command::new(alloc, "sim")
        .about("Reads a script and prints its log, a line for each event")
        .after_help(help::SIM)
        .arg(file(alloc, "A script; - is the standard input"))
}

fn show<'a>(alloc: Global) -> Result<Command<'a>, AllocError>
    ensures { IfOk result (λ command. app_of command ≡ show) }
{
    Command::new(alloc, "show")
        .about("Reads a trace and prints a line for each datagram")
        .after_help(help::SHOW)
        .arg(file(alloc, "A trace; - is the standard input"))
}

fn pack<'a>(alloc: Global) -> Result<Command<'a>, AllocError>
    ensures { IfOk result (λ command. app_of command ≡ pack) }
{
    let places = Arg::new(alloc, "N")
        .help(
            "A place, 0 to 281474976710655; they rise, and the last is less than 8192 above the first",
        )
        .required(true)
        .action(ArgAction::Append);
    Command::new(alloc, "pack")
        .about("Prints the NACK datagrams that ask for places")
        .after_help(help::PACK)
        .arg(places)
}

fn soak<'a>(alloc: Global) -> Result<Command<'a>, AllocError>
    ensures { IfOk result (λ command. app_of command ≡ soak) }
{
    Command::new(alloc, "soak")
        .about("Simulates a session in which drawn packets are lost, and prints its tally")
        .after_help(help::SOAK)
        .arg(option(
            alloc,
            "seed",
            "N",
            "The seed of the draws, 0 to 18446744073709551615",
        ))?
        .arg(option(
            alloc,
            "packets",
            "N",
            "How many packets are sent, 1 to 10000",
        ))?
        .arg(option(
            alloc,
            "loss",
            "PERMILLE",
            "So many of 1000 packets are lost, 0 to 1000",
        ))
}

fn loopback<'a>(alloc: Global) -> Result<Command<'a>, AllocError>
    ensures { IfOk result (λ command. app_of command ≡ loopback) }
{
    Command::new(alloc, "loopback")
        .about("Runs a session over two UDP sockets of this machine, and prints its tally")
        .after_help(help::LOOPBACK)
        .arg(option(
            alloc,
            "packets",
            "N",
            "How many packets are sent, 1 to 1000",
        ))?
        .arg(drop_list(alloc))
}

fn drop_list<'a>(alloc: Global) -> Arg<'a>
    ensures rule { rule_of result ≡ drop_rule }
    ensures local { result.global ≡ false }
{
    Arg::new(alloc, "drop")
        .long("drop")
        .value_name("LIST")
        .help("The packets that are dropped, as 1,3: rising numbers from 0 on, or none")
        .default_value("none")
        .action(ArgAction::Set)
}

/// FILE, one word, which has to be there.
fn file<'a>(alloc: Global, help: &'a str) -> Arg<'a>
    ensures rule { rule_of result ≡ file_rule }
    ensures local { result.global ≡ false }
{
    Arg::new(alloc, "FILE")
        .help(help)
        .required(true)
        .action(ArgAction::Set)
}

/// An option with a value, which has to be there.
fn option<'a>(alloc: Global, name: &'a str, value: &'a str, help: &'a str) -> Arg<'a>
    ensures rule { rule_of result ≡ option_rule name.entry.now }
    ensures local { result.global ≡ false }
{
    Arg::new(alloc, name)
        .long(name)
        .value_name(value)
        .help(help)
        .required(true)
        .action(ArgAction::Set)
}
