//! A trace in, a line for each datagram out.
ghost use Rattle.std.specs.Prelude.{◌≡◌, ◌<◌, ◌≤◌, length, take, IfOk, IfErr, IfSome, OnOk, false};
ghost use Rattle.std.specs.Io.KnownBytes.{IsAtEnd};
ghost use Rattle.rtpwire.specs.Framing.{IsRest};
ghost use Rattle.commands.specs.Reading.{IfBoth};
ghost use Rattle.commands.specs.Show.{IsShown, StopsIn};
ghost use Rattle.commands.specs.Showing.{GoesOn, StopsWithin};

use crate::output::{Stream, WriteFailed, flush};
use crate::pending::read_some;
use lines::push_datagram;
use rtpwire::{Deframer, FrameFault, framing_is_determined};
use std::io::{Read, Write};
use thiserror::Error;

/// Why a trace was not shown to its end.
#[derive(Clone, Copy, Debug, PartialEq, Eq, Error)]
pub enum ShowFault {
    /// The frame of this number, counted from 1, is cut off by the end of the trace (21), or is longer than a datagram
    /// may be (22).
    #[error("refused {number} frame {1}", number = .0.number())]
    Frame(FrameFault, u64),
    /// The reader failed.
    #[error("fault input")]
    Read,
    /// The writer failed, or took nothing.
    #[error("fault output")]
    Write,
}

/// How many octets a read asks for.
const PIECE: usize = 16384;

/// Reads a trace and writes a line for each datagram, as soon as all of it is there; answers the number of frames,
/// or 2^64 - 1 where there are more. It takes no memory. Before each read it flushes the writer.
///
/// `Frame`: the trace ends in the middle of a frame, or a frame is too long; the lines of all frames before it were
/// written. `Read`: the reader failed; the lines of the whole frames that it gave were written. `Write`: the writer
/// failed or took nothing; a beginning of the lines was written.
pub fn show_trace<R: Read, W: Write>(
    input: &mut R,
    output: &mut Stream<W>,
) -> Result<u64, ShowFault>
    ensures all_read { OnOk result (IsAtEnd (R.remaining input.new)) }
    ensures shown { IfOk result (λ count. IfSome (R.remaining input.old) (λ trace. IsShown count trace (W.contents output.old.writer) (W.contents output.new.writer))) }
    ensures stopped { IfErr result (λ fault. IfBoth (R.remaining input.old) (R.remaining input.new) (StopsIn fault (W.contents output.old.writer) (W.contents output.new.writer))) }
{
    let mut deframer = Deframer::new();
    let mut count = 0;
    let mut piece = [0; PIECE];
    for _ in 0..u64::MAX {
        if flush(&mut output.writer).is_err() {
            return Err(ShowFault::Write);
        }
        let Ok(size) = read_some(input, &mut piece) else {
            return Err(ShowFault::Read);
        };
        if size == 0 {
            return match deframer.finish() {
                Ok(()) => Ok(count),
                Err(fault) => Err(ShowFault::Frame(fault, count.saturating_add(1))),
            };
        }
        match show_piece(&mut deframer, &piece[..size], output, &mut count) {
            Ok(()) => {}
            Err(fault) => return Err(fault),
        }
    }
    // So many reads did not do: a reader that goes on for ever.
    Err(ShowFault::Read)
}

/// Shows the frames that become whole with a piece.
fn show_piece<W: Write>(
    deframer: &mut Deframer,
    piece: &[u8],
    output: &mut Stream<W>,
    count: &mut u64,
) -> Result<(), ShowFault>
    requires unfailed { deframer.old.has_failed ≡ false }
    requires rest { IsRest deframer.old.rest }
    ensures ok { OnOk result (GoesOn (W.contents output.old.writer) (W.contents output.new.writer) deframer.old.rest deframer.new.rest count.old count.new piece.now) }
    ensures unfailed { OnOk result (deframer.new.has_failed ≡ false) }
    ensures rest { OnOk result (IsRest deframer.new.rest) }
    ensures err { IfErr result (λ fault. StopsWithin fault (W.contents output.old.writer) (W.contents output.new.writer) deframer.old.rest count.old piece.now) }
{
    let mut done = 0;
    while done < piece.len() {
        match show_next(deframer, &piece[done..], output, count) {
            Ok(taken) => done += taken,
            Err(fault) => return Err(fault),
        }
    }
    Ok(())
}

/// Feeds a piece up to the end of the first frame that becomes whole, shows that, and answers how much it fed.
fn show_next<W: Write>(
    deframer: &mut Deframer,
    piece: &[u8],
    output: &mut Stream<W>,
    count: &mut u64,
) -> Result<usize, ShowFault>
    requires some { 0 < length piece.now }
    requires unfailed { deframer.old.has_failed ≡ false }
    requires rest { IsRest deframer.old.rest }
    ensures taken { IfOk result (λ taken. (0 < taken) × (taken ≤ length piece.now)) }
    ensures ok { IfOk result (λ taken. GoesOn (W.contents output.old.writer) (W.contents output.new.writer) deframer.old.rest deframer.new.rest count.old count.new (take taken piece.now)) }
    ensures unfailed { OnOk result (deframer.new.has_failed ≡ false) }
    ensures rest { OnOk result (IsRest deframer.new.rest) }
    ensures err { IfErr result (λ fault. StopsWithin fault (W.contents output.old.writer) (W.contents output.new.writer) deframer.old.rest count.old piece.now) }
{
    framing_is_determined();
    match deframer.feed(piece) {
        Ok((taken, None)) => Ok(taken),
        Ok((taken, Some(datagram))) => match push_datagram(output, &datagram) {
            Ok(()) => {
                *count = count.saturating_add(1);
                Ok(taken)
            }
            Err(WriteFailed) => Err(ShowFault::Write),
        },
        Err(fault) => Err(ShowFault::Frame(fault, count.saturating_add(1))),
    }
}
