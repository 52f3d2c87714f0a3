//! Readers and writers that fail, that give little at a time, or that give much.
use crate::fakes::{Giver, LineGiver, Shower, Taker, ample};
use commands::{SimFault, sim_text};
use std::cell::Cell;
use std::io;
use std::io::{BufWriter, ErrorKind, Read};
use std::test::Fail;

const SCRIPT: &[u8] = b"config 1 5 8 8 100 20 3 2\nS 100 1 0 aa - -\nD 0 0\nD 7 0\nP 0\nP 0\n";

const LOG: &[u8] =
    b"sent 65537 0 80e000010000006411111111aa\ntaken 65537 0\nnothing\nplay 65537 100 1 aa - -\nwait\n";

/// What was printed where the reader fails at a call.
fn printed_where_reading_fails(
    rt: &HostRuntime,
    piece: usize,
    fails: usize,
) -> Result<Vec<u8>, Fail> {
    let mut input = Giver {
        octets: SCRIPT,
        piece,
        fails,
    };
    let mut output = Vec::new(rt.alloc());
    match sim_text(rt.alloc(), &mut input, &mut output) {
        Err(SimFault::Read) => Ok(output),
        _ => Err(Fail::new("the reader failed")),
    }
}

#[test]
fn a_reader_that_fails_at_each_call(rt: HostRuntime) -> Result<(), Fail> {
    for piece in [1, 10, 20] {
        // The call after the last piece would tell the end, and the one before it fails at the latest.
        let calls = SCRIPT.len() / piece + 1;
        let mut longest = 0;
        for fails in 1..=calls {
            let printed = printed_where_reading_fails(&rt, piece, fails)?;
            assert!(rt; LOG.starts_with(printed.as_slice()));
            assert!(rt; longest <= printed.len());
            longest = printed.len();
        }
    }
    Ok(())
}

/// Where the reader fails behind whole lines, the lines of all of them were printed.
#[test]
fn whole_lines_before_a_failing_reader(rt: HostRuntime) -> Result<(), Fail> {
    // After so many octets of the script so many octets of the log are due.
    for (read, printed) in [(26, 0), (43, 40), (49, 54), (55, 62), (59, 86), (63, 91)] {
        assert!(rt; SCRIPT[..read].ends_with(b"\n".as_slice()));
        let out = printed_where_reading_fails(&rt, 1, read + 1)?;
        assert_eq!(rt; out.as_slice(), &LOG[..printed]);
    }
    Ok(())
}

/// What is known is brought out before each read.
#[test]
fn a_script_that_comes_line_by_line(rt: HostRuntime) -> Result<(), Fail> {
    let shown = Cell::new(0);
    let mut input = LineGiver {
        octets: SCRIPT,
        shown: &shown,
        seen: Vec::new(rt.alloc()),
    };
    let mut output = Shower {
        taken: 0,
        shown: &shown,
    };
    assert_eq!(rt; sim_text(rt.alloc(), &mut input, &mut output), Ok(5));
    assert_eq!(rt;
        input.seen.as_slice(),
        [0, 0, 40, 54, 62, 86, 91].as_slice()
    );
    Ok(())
}

#[test]
fn a_writer_that_fails_after_each_octet(rt: HostRuntime) -> Result<(), Fail> {
    for room in 0..LOG.len() {
        for fails in [false, true] {
            let mut input = SCRIPT;
            let mut output = Taker {
                taken: Vec::new(rt.alloc()),
                piece: 3,
                room,
                fails,
                flushes: true,
                calls: 0,
            };
            let outcome = sim_text(rt.alloc(), &mut input, &mut output);
            assert_eq!(rt; outcome, Err(SimFault::Write));
            assert_eq!(rt; output.taken.as_slice(), &LOG[..room]);
        }
    }
    Ok(())
}

#[test]
fn a_writer_that_takes_one_octet_a_call(rt: HostRuntime) -> Result<(), Fail> {
    let mut input = SCRIPT;
    let mut output = Taker {
        taken: Vec::new(rt.alloc()),
        piece: 1,
        room: LOG.len(),
        fails: true,
        flushes: true,
        calls: 0,
    };
    assert_eq!(rt; sim_text(rt.alloc(), &mut input, &mut output), Ok(5));
    assert_eq!(rt; output.taken.as_slice(), LOG);
    Ok(())
}

/// A refused growth is told, and what is out is a beginning of the log. `./check` runs this over and over: tests/refuse.c
/// refuses one allocation after the other.
#[test]
fn a_refused_growth(rt: HostRuntime) -> Result<(), Fail> {
    let mut output = Taker {
        taken: Vec::with_capacity(rt.alloc(), LOG.len()).or_else(|_| Vec::with_capacity(
            rt.alloc(),
            LOG.len(),
        ))?,
        piece: 100,
        room: LOG.len(),
        fails: true,
        flushes: true,
        calls: 0,
    };
    let mut input = SCRIPT;
    match sim_text(rt.alloc(), &mut input, &mut output) {
        Ok(events) => assert_eq!(rt; (events, output.taken.as_slice()), (5, LOG)),
        Err(fault) => {
            assert_eq!(rt; fault, SimFault::OutOfMemory);
            assert!(rt; LOG.starts_with(output.taken.as_slice()));
        }
    }
    Ok(())
}

/// Gives the config line, then so many sends, then deliveries from near and from far.
#[derive(Drop)]
struct LongScript {
    lines: u64,
    at: u64,
}

const FAR: &[u8] = b"D 0 0\nD 16384 0\nD 49152 0\nD 16383 0\nD 0 0\n";

impl Read for LongScript {
    fn read(&mut self, buf: &mut [u8]) -> io::Result<usize> {
        let line = if self.at == 0 {
            b"config 1 5 8 8 100 20 3 2\n".as_slice()
        } else if self.at <= self.lines {
            b"S 0 0 0 - - -\n".as_slice()
        } else if self.at == self.lines.saturating_add(1) {
            FAR
        } else {
            b"".as_slice()
        };
        if line.len() > buf.len() {
            return Err(io::Error::from(ErrorKind::Other));
        }
        buf[..line.len()].copy_from_slice(line);
        self.at = self.at.saturating_add(1);
        Ok(line.len())
    }
}

#[test]
fn deliveries_from_far_away(rt: HostRuntime) -> Result<(), Fail> {
    let mut input = LongScript {
        lines: 49154,
        at: 0,
    };
    let mut output = Vec::new(rt.alloc());
    assert_eq!(rt; sim_text(rt.alloc(), &mut input, &mut output), Ok(49159));
    let end = b"taken 65537 0\nrefused 34\nrefused 34\ntaken 81920 16376\nrefused 35\n".as_slice();
    assert!(rt; output.as_slice().ends_with(end));
    assert!(rt;
        output.as_slice().starts_with(
            b"sent 65537 0 806000010000000011111111\nsent 65538 1 ".as_slice()
        )
    );
    let last = b"\nsent 114690 49153 8060c0020000000011111111\ntaken".as_slice();
    assert!(rt;
        output
            .as_slice()
            .windows(last.len())
            .any(|part| part == last)
    );
    Ok(())
}

/// A log goes out in large pieces, where its script comes in large ones.
#[test]
fn few_writes_for_many_lines(rt: HostRuntime) -> Result<(), Fail> {
    let mut script = b"config 1 5 8 8 100 20 3 2\n".to_vec(rt.alloc())?;
    for _ in 0..3000 {
        script.extend_from_slice(b"P 0\n")?;
    }
    let mut input = script.as_slice();
    let mut output = BufWriter::with_capacity(rt.alloc(), 65536, ample(rt.alloc()))?;
    let done = sim_text(rt.alloc(), &mut input, &mut output);
    assert_eq!(rt; done, Ok(3000));
    let (output, _) = output.into_parts();
    assert_eq!(rt; (output.taken.len(), output.calls), (15000, 1));
    Ok(())
}
