//! What the program says where it could not do its work, and its exit status.
use crate::keys::KeyFault;
use crate::units::Form;
use std::io::{ErrorKind, Write};
use std::net::SocketAddr;

/// Why the program did not do its work.
#[derive(Debug, Drop)]
pub enum Fault<'a> {
    /// `clap` refuses the line, or has the help or the version that it asks for: its text is for the user.
    Line(clap::Error),
    /// The value of this option is not of its form.
    Value(&'a str, &'a str, Form),
    /// This option is wanted.
    Missing(&'a str),
    /// The types and SSRCs of the options are none of a session.
    Session,
    /// The types of the retransmissions are given twice.
    Paired(&'a str),
    /// Where a relay sends from and what it sends to have no addresses of one family.
    Families(&'a str, &'a str),
    /// What leaves comes back.
    Loop(&'a str, &'a str),
    /// What is sent to is no group.
    Group(&'a str),
    /// This is no peer.
    Peer(&'a str),
    /// With a key the SSRCs of a sender are drawn, and this option gives one.
    Drawn(&'a str),
    /// This file has no key, or others may read it.
    Key(&'a str, KeyFault),
    /// This address can't be found.
    Find(&'a str),
    /// This is no socket that was handed over.
    Handed(&'a str),
    /// A socket can't be had at this address.
    Bind(SocketAddr, ErrorKind),
    /// The control socket can't be had at this path, nor that of the metrics at this address.
    Control(&'a str, ErrorKind),
    Metrics(SocketAddr, ErrorKind),
    /// The relay whose control socket is at this path does not answer.
    Reach(&'a str, ErrorKind),
    /// This file can't be opened.
    Open(&'a str),
    /// This file did not take so many lines.
    Write(&'a str, u64),
    /// The clock or a socket answers errors.
    Outside,
    /// The allocator refused a growth.
    Memory,
}

/// Writes what there is to say of a fault, and answers the exit status, whatever the writer does: 1 for a relay that does
/// not answer, 2 for a command line, 3 for an address, a file or a socket, 4 for memory.
pub fn tell<W: Write>(fault: &Fault<'_>, error: &mut W) -> u8 {
    let _ = match fault {
        // It ends in a line feed of its own.
        Fault::Line(text) => write!(error, "{text}"),
        Fault::Value(option, value, form) => {
            writeln!(error, "fault value: --{option} {value}: {form}")
        }
        Fault::Missing(option) => writeln!(error, "fault value: --{option} is wanted"),
        Fault::Families(from, to) => writeln!(
            error,
            "fault value: --from {from} has no address of the family of --to {to}"
        ),
        Fault::Loop(listening, to) => writeln!(
            error,
            "fault value: --listen {listening} is where --to {to} sends"
        ),
        Fault::Group(to) => writeln!(error, "fault value: --ttl: --to {to} is no group of IPv4"),
        Fault::Session => writeln!(
            error,
            "fault value: the types, or the SSRCs, are those of no session"
        ),
        Fault::Paired(value) => writeln!(
            error,
            "fault value: --rtx-type {value}: the pairs of --type have the types of the retransmissions"
        ),
        Fault::Peer(word) => writeln!(
            error,
            "fault value: --peer: {word} is no address with a number of bits"
        ),
        Fault::Drawn(option) => writeln!(
            error,
            "fault value: --{option}: with --key-file each session has an SSRC that is drawn anew"
        ),
        Fault::Key(file, why) => writeln!(error, "fault value: --key-file {file}: {}", why.text()),
        Fault::Find(name) => writeln!(error, "can't find {name}"),
        Fault::Handed(word) => writeln!(
            error,
            "can't take --listen {word}: no socket of datagrams was handed over there"
        ),
        Fault::Bind(at, kind) => writeln!(error, "can't bind {at}: {}", reason(*kind)),
        Fault::Control(path, kind) => {
            writeln!(error, "can't bind --control {path}: {}", reason(*kind))
        }
        Fault::Metrics(at, kind) => writeln!(error, "can't bind --metrics {at}: {}", reason(*kind)),
        Fault::Reach(path, kind) => writeln!(error, "no answer at {path}: {}", silence(*kind)),
        Fault::Open(file) => writeln!(error, "can't open {file}"),
        Fault::Write(file, lost) => writeln!(error, "can't write {file}: {lost} lines are lost"),
        Fault::Outside => writeln!(error, "the clock or a socket failed"),
        Fault::Memory => writeln!(error, "out of memory"),
    };
    match fault {
        Fault::Line(_)
        | Fault::Value(..)
        | Fault::Missing(_)
        | Fault::Session
        | Fault::Paired(_)
        | Fault::Families(..)
        | Fault::Loop(..)
        | Fault::Group(_)
        | Fault::Peer(_)
        | Fault::Drawn(_)
        | Fault::Key(..) => 2,
        Fault::Reach(..) => 1,
        Fault::Memory => 4,
        _ => 3,
    }
}

/// Why a socket can't be had.
fn reason(kind: ErrorKind) -> &'static str {
    match kind {
        ErrorKind::AddrInUse => "in use",
        ErrorKind::AddrNotAvailable => "no address of this machine",
        ErrorKind::PermissionDenied => "not permitted",
        ErrorKind::NotFound => "there is no such folder",
        ErrorKind::InvalidInput => "too long for a socket's name",
        _ => "refused",
    }
}

/// Why a relay does not answer.
fn silence(kind: ErrorKind) -> &'static str {
    match kind {
        ErrorKind::NotFound => "there is no such file",
        ErrorKind::ConnectionRefused => "no relay listens there",
        ErrorKind::PermissionDenied => "not permitted",
        ErrorKind::TimedOut => "it took too long",
        ErrorKind::WouldBlock => "too many wait there",
        _ => "the connection broke",
    }
}
