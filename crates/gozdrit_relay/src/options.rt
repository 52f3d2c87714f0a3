//! The command line that `clap` reads, with its help.
use crate::help;
use clap::{Arg, ArgAction, Command};
use std::alloc::{AllocError, Global};

const VERSION: &str = "2.5.0";

/// The command line of the program.
pub fn command<'a>(alloc: Global) -> Result<Command<'a>, AllocError> {
    Command::new(alloc, "gozdrit-relay")
        .about(help::ABOUT)
        .after_help(help::PROGRAM)
        .version(VERSION)
        .subcommand_required(true)
        .subcommand(send(alloc)?)?
        .subcommand(receive(alloc)?)?
        .subcommand(ctl(alloc)?)
}

fn send<'a>(alloc: Global) -> Result<Command<'a>, AllocError> {
    let command = Command::new(alloc, "send")
        .about(
            "Before the network: sends an application's stream, and answers NACKs with retransmissions",
        )
        .after_help(help::SEND)
        .arg(required(
            alloc,
            "listen",
            "ADDR:PORT",
            "Where the application's RTP comes to; fd:3 is a socket that is handed over",
        ))?
        .arg(required(alloc, "to", "HOST:PORT", "The far side: the other relay"))?
        .arg(option(
            alloc,
            "from",
            "ADDR:PORT",
            "Where the session leaves and feedback comes to; any by default",
        ))?
        .arg(option(
            alloc,
            "input",
            "FORM",
            "What the application sends: rtp, or ts for MPEG-TS without RTP; rtp by default",
        ))?;
    common(alloc, of_retransmissions(alloc, command)?)
}

/// When a packet is retransmitted, and for how long it may be.
fn of_retransmissions<'a>(alloc: Global, command: Command<'a>) -> Result<Command<'a>, AllocError> {
    command
        .arg(option(
            alloc,
            "rate",
            "KBIT|N%",
            "How fast retransmissions leave: kilobits a second, 0 for at once, or a share of the media's rate; 200% by default",
        ))?
        .arg(option(
            alloc,
            "min-resend",
            "MS",
            "How soon a packet is retransmitted again, in milliseconds; 10 by default, and longer where a queue is seen",
        ))?
        .arg(option(
            alloc,
            "deadline",
            "MS",
            "How old a packet may be to be retransmitted, in milliseconds; by default as old as is of use by the latency that the other relay tells",
        ))?
        .arg(option(
            alloc,
            "history",
            "N",
            "How many packets are kept to be retransmitted, 1 to 8192; 8192 by default",
        ))?
        .arg(option(
            alloc,
            "rtx-first",
            "N",
            "The first sequence number of the retransmissions; 0 by default",
        ))
}

fn receive<'a>(alloc: Global) -> Result<Command<'a>, AllocError> {
    let command = Command::new(alloc, "receive")
        .about("Behind the network: asks for what is lost, and plays the stream in its order")
        .after_help(help::RECEIVE)
        .arg(required(
            alloc,
            "listen",
            "ADDR:PORT",
            "Where the session comes to; fd:3 is a socket that is handed over",
        ))?
        .arg(required(alloc, "to", "HOST:PORT", "The player"))?
        .arg(option(
            alloc,
            "from",
            "ADDR:PORT",
            "Where what is played leaves; any by default",
        ))?
        .arg(option(
            alloc,
            "output",
            "FORM",
            "What the player takes: rtp, or ts for MPEG-TS without RTP; rtp by default",
        ))?
        .arg(option(
            alloc,
            "latency",
            "MS",
            "How long a missing packet is waited for, in milliseconds; 200 by default",
        ))?
        .arg(option(
            alloc,
            "window",
            "N",
            "How many packets are held, 1 to 8192; 8192 by default",
        ))?
        .arg(option(
            alloc,
            "hold",
            "HZ",
            "Has each packet leave at its RTP time and the latency, by this clock rate, as 90000; as soon as it may by default",
        ))?;
    common(alloc, of_challenge(alloc, command)?)
}

/// A client of a relay that runs.
fn ctl<'a>(alloc: Global) -> Result<Command<'a>, AllocError> {
    Command::new(alloc, "ctl")
        .about(
            "Asks a relay that runs how it does, has it send elsewhere or hear others, or has it stop",
        )
        .after_help(help::CTL)
        .arg(word(alloc, "path", "PATH", "What the relay's --control is"))?
        .arg(word(
            alloc,
            "request",
            "REQUEST",
            "stats: all counts, and how the relay stands, as JSON; to: what leaves goes elsewhere; peer: others may send a stream; reopen: the log is opened anew; stop: the run ends, with the last line of counts",
        ))?
        .arg(
            Arg::new(alloc, "value").value_name("VALUE").help(
                "Behind to: HOST:PORT; behind peer: addresses or names as --peer has them, or any",
            ),
        )
}

/// The options of both.
fn common<'a>(alloc: Global, command: Command<'a>) -> Result<Command<'a>, AllocError> {
    of_run(
        alloc,
        of_peers(alloc, of_key(alloc, of_session(alloc, command)?)?)?,
    )
}

/// What a session is, where it is not to be learnt.
fn of_session<'a>(alloc: Global, command: Command<'a>) -> Result<Command<'a>, AllocError> {
    command
        .arg(option(
            alloc,
            "ssrc",
            "HEX",
            "The SSRC of the media; learnt by default",
        ))?
        .arg(option(
            alloc,
            "rtx-ssrc",
            "HEX",
            "The SSRC of the retransmissions; the media's and one, or learnt",
        ))?
        .arg(option(
            alloc,
            "type",
            "N|N:R,..",
            "The payload type of the media, 0 to 127, or up to 16 pairs of one and that of its retransmissions, as 96:97,101:102; one is learnt by default",
        ))?
        .arg(option(
            alloc,
            "rtx-type",
            "N",
            "The payload type of the retransmissions, 96 to 127; the next one by default",
        ))?
        .arg(option(
            alloc,
            "first",
            "N",
            "The first sequence number of the media; learnt by default",
        ))
}

/// How what passes the network is protected.
fn of_key<'a>(alloc: Global, command: Command<'a>) -> Result<Command<'a>, AllocError> {
    command
        .arg(option(
            alloc,
            "key-file",
            "FILE",
            "Protects what passes the network by SRTP (RFC 3711): a file with a master key and a salt, 30 octets as base64 or hex",
        ))?
        .arg(option(
            alloc,
            "profile",
            "NAME",
            "With a key: SRTP_AES128_CM_HMAC_SHA1_80, or SRTP_NULL_HMAC_SHA1_80 for tags alone; the first by default",
        ))
}

/// Who has to answer before his stream is heard.
fn of_challenge<'a>(alloc: Global, command: Command<'a>) -> Result<Command<'a>, AllocError> {
    command.arg(option(
        alloc,
        "challenge",
        "on|off",
        "With a key: hears a stream once its sender answers, a relay, so that no recording is played; off for senders that don't; on by default",
    ))
}

/// Whose streams are heard.
fn of_peers<'a>(alloc: Global, command: Command<'a>) -> Result<Command<'a>, AllocError> {
    command
        .arg(option(
            alloc,
            "peer",
            "LIST",
            "Who may send a stream: addresses, names, either with a port, or prefixes as 192.0.2.0/24, with commas; anybody by default",
        ))?
        .arg(option(
            alloc,
            "stream",
            "N",
            "How many packets in sequence are a stream, to which a session falls whose sender has none; 10 by default",
        ))
}

/// When a run ends, and what it tells.
fn of_run<'a>(alloc: Global, command: Command<'a>) -> Result<Command<'a>, AllocError> {
    command
        .arg(option(
            alloc,
            "packets",
            "N",
            "Ends once there were so many packets, and none for two seconds",
        ))?
        .arg(option(alloc, "seconds", "N", "Ends after so many seconds"))?
        .arg(option(
            alloc,
            "stats",
            "SECONDS",
            "A line of counts each so many seconds; 1 where standard error is a terminal, else 60",
        ))?
        .arg(option(
            alloc,
            "log",
            "FILE",
            "A line for each event, behind what the file has",
        ))?
        .arg(option(
            alloc,
            "log-form",
            "FORM",
            "events: sessions, what is lost for good, and counts; packets: each packet with its octets; events by default",
        ))?
        .arg(option(
            alloc,
            "control",
            "PATH",
            "A Unix socket where gozdrit-relay ctl asks how it does, or has it stop",
        ))?
        .arg(option(
            alloc,
            "metrics",
            "ADDR:PORT",
            "Where GET /metrics has all counts, and how the relay stands, in Prometheus' text form",
        ))?
        .arg(option(
            alloc,
            "loss",
            "PERMILLE",
            "For trials: drops so many of 1000 datagrams that leave for the network",
        ))?
        .arg(option(alloc, "seed", "N", "The seed of these draws; 0 by default"))?
        .arg(option(
            alloc,
            "socket-buffer",
            "OCTETS",
            "How many octets the system is asked to keep for a socket, each way; 4MiB by default",
        ))?
        .arg(option(
            alloc,
            "ttl",
            "N",
            "Over how many networks what goes to a group of IPv4 goes, 1 to 255; 1 by default",
        ))
}

/// A word of the line, which has to be there.
fn word<'a>(alloc: Global, name: &'a str, value: &'a str, help: &'a str) -> Arg<'a> {
    Arg::new(alloc, name)
        .value_name(value)
        .help(help)
        .required(true)
}

/// An option with a value, which has to be there.
fn required<'a>(alloc: Global, name: &'a str, value: &'a str, help: &'a str) -> Arg<'a> {
    option(alloc, name, value, help).required(true)
}

/// An option with a value.
fn option<'a>(alloc: Global, name: &'a str, value: &'a str, help: &'a str) -> Arg<'a> {
    Arg::new(alloc, name)
        .long(name)
        .value_name(value)
        .help(help)
        .action(ArgAction::Set)
}
