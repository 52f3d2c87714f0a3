//! Traces that come in pieces, and readers and writers that fail in the midst of one.
use crate::fakes::{Giver, Taker};
use commands::{ShowFault, Stream, show_trace};
use rtpwire::{FrameFault, MAX_DATAGRAM};
use std::alloc::Global;
use std::test::Fail;

/// A media packet, a NACK and an empty datagram, each behind its length.
const TRACE: &[u8] = b"\x00\x0d\x80\xe0\x00\x01\x00\x00\x00\x64\x11\x11\x11\x11\xaa\
\x00\x10\x81\xcd\x00\x03\x33\x33\x33\x33\x11\x11\x11\x11\x00\x01\x00\x00\x00\x00";

/// The least length that no datagram has, in two octets.
const TOO_LONG: [u8; 2] = [
    ((MAX_DATAGRAM + 1) / 256) as u8,
    ((MAX_DATAGRAM + 1) % 256) as u8,
];

const LINES: &[u8] =
    b"rtp 96 1 11111111 100 1 0 aa - -\nnack 33333333 11111111 0001:0000\nrefused 1\n";

/// The lines of the first two.
const TWO: usize = LINES.len() - 10;

/// Shows octets that come in pieces of this size, to a writer that has room for so many; the reader fails at a call.
fn shown(
    alloc: Global,
    octets: &[u8],
    (piece, fails): (usize, usize),
    room: usize,
) -> (Result<u64, ShowFault>, Vec<u8>) {
    let mut input = Giver {
        octets,
        piece,
        fails,
    };
    let writer = Taker {
        taken: Vec::new(alloc),
        piece: 7,
        room,
        fails: true,
        flushes: true,
        calls: 0,
    };
    let mut output = Stream { writer };
    let outcome = show_trace(&mut input, &mut output);
    let Stream { writer } = output;
    let Taker { taken, .. } = writer;
    (outcome, taken)
}

#[test]
fn a_trace_in_pieces(rt: HostRuntime) -> Result<(), Fail> {
    for piece in 1..=TRACE.len() {
        let (outcome, lines) = shown(rt.alloc(), TRACE, (piece, 0), usize::MAX);
        assert_eq!(rt; outcome, Ok(3));
        assert_eq!(rt; lines.as_slice(), LINES);
    }
    Ok(())
}

#[test]
fn frames_that_are_refused(rt: HostRuntime) -> Result<(), Fail> {
    let cut = &TRACE[..TRACE.len() - 1];
    let (outcome, lines) = shown(rt.alloc(), cut, (9, 0), usize::MAX);
    assert_eq!(rt; outcome, Err(ShowFault::Frame(FrameFault::Truncated, 3)));
    assert_eq!(rt; lines.as_slice(), &LINES[..TWO]);
    let (outcome, lines) = shown(rt.alloc(), &TOO_LONG, (1, 0), usize::MAX);
    assert_eq!(rt; outcome, Err(ShowFault::Frame(FrameFault::FrameTooLong, 1)));
    assert!(rt; lines.is_empty());
    let (outcome, lines) = shown(rt.alloc(), b"", (1, 0), usize::MAX);
    assert_eq!(rt; outcome, Ok(0));
    assert!(rt; lines.is_empty());
    Ok(())
}

#[test]
fn a_reader_that_fails_at_each_call(rt: HostRuntime) -> Result<(), Fail> {
    for fails in 1..=TRACE.len() + 1 {
        let (outcome, lines) = shown(rt.alloc(), TRACE, (1, fails), usize::MAX);
        assert_eq!(rt; outcome, Err(ShowFault::Read));
        assert!(rt; LINES.starts_with(lines.as_slice()));
        assert_eq!(rt; lines.as_slice() == LINES, fails > TRACE.len());
    }
    Ok(())
}

#[test]
fn a_writer_that_fails_after_each_octet(rt: HostRuntime) -> Result<(), Fail> {
    for room in 0..LINES.len() {
        let (outcome, lines) = shown(rt.alloc(), TRACE, (11, 0), room);
        assert_eq!(rt; outcome, Err(ShowFault::Write));
        assert_eq!(rt; lines.as_slice(), &LINES[..room]);
    }
    Ok(())
}
