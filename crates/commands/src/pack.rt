//! Places in, the feedback that asks for them out.
ghost use Rattle.std.specs.Prelude.{◌≡◌, IfErr, OnOk};
ghost use Rattle.commands.specs.Pack.{MayNotPack, WrotePacking};

use crate::output::{Stream, WriteFailed};
use fbwire::can_pack;
use lines::push_packing;
use places::Place;
use std::io::Write;
use thiserror::Error;

/// Why the feedback for places was not written.
#[derive(Clone, Copy, Debug, PartialEq, Eq, Error)]
pub enum PackFault {
    /// The places don't rise, or the last is 8192 or more above the first (63).
    #[error("refused 63")]
    NotRising,
    /// The writer failed, or took nothing.
    #[error("fault output")]
    Write,
}

/// Writes NACKs that ask for these places, a line each in hexadecimal digits, in the session of every script. No places
/// are no lines. It takes no memory.
///
/// `NotRising`: the places don't rise, or the last is 8192 or more above the first; nothing was written. `Write`: the
/// writer failed or took nothing; a beginning of the lines was written.
pub fn pack_text<W: Write>(places: &[Place], output: &mut Stream<W>) -> Result<(), PackFault>
    ensures ok { OnOk result (WrotePacking places.now (W.contents output.old.writer) (W.contents output.new.writer)) }
    ensures err { IfErr result (MayNotPack places.now (W.contents output.old.writer) (W.contents output.new.writer)) }
{
    if !can_pack(places) {
        return Err(PackFault::NotRising);
    }
    match push_packing(output, places) {
        Ok(()) => Ok(()),
        Err(WriteFailed) => Err(PackFault::Write),
    }
}
