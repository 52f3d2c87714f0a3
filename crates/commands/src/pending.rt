//! The octets of a script that were read and not yet taken: at most one line and one piece.
ghost use Rattle.std.specs.Prelude.{◌≡◌, ◌≤◌, ◌<◌, [], drop, take, length, IfOk, IfErr, OnOk, OnErr, true, false};
ghost use Rattle.std.specs.Io.KnownBytes.{Consumes, IsAtEnd, Keeps, prepend_known};
ghost use Rattle.commands.specs.Reading.{FailsToFill};

use crate::fault::SimFault;
use std::alloc::Global;
use std::io::{ErrorKind, Read};
use std::marker::Model;
use stores::OutOfMemory;

/// How many octets a read asks for.
const PIECE: usize = 65536;

/// Contracts see what is pending as the list of its octets.
#[derive(Drop)]
pub struct Pending {
    octets: Vec<u8>,
    /// How many of the octets were taken. They make room when the next piece is read.
    taken: usize,
    /// Where a piece is read.
    piece: Vec<u8>,
}

impl Model for Pending {
    ghost use Rattle.std.specs.Prelude.{◌≤◌, ◌<◌, List, ℕ, drop, vec_len};

    ghost Value = { List ℕ };

    ghost view = { λ p. drop p.taken p.octets.items };

    ghost invariant = { λ p. (p.taken ≤ vec_len p.octets) × (0 < vec_len p.piece) };
}

impl Pending {
    /// Nothing is pending at first.
    ///
    /// `OutOfMemory`: there was no room for a piece.
    pub fn new(alloc: Global) -> Result<Pending, OutOfMemory>
        ensures { IfOk result (λ pending. pending ≡ []) }
    {
        let piece = vec![in alloc; 0; PIECE]?;
        Ok(Pending {
            octets: Vec::new(alloc),
            taken: 0,
            piece,
        })
    }

    /// What is pending.
    pub fn octets(&self) -> &[u8]
        ensures { result.now ≡ self.now }
    {
        &self.octets[self.taken..]
    }

    /// Takes the first octets.
    pub fn skip(&mut self, count: usize)
        requires { count ≤ length self.old }
        ensures { self.new ≡ drop count self.old }
    {
        self.taken += count;
    }

    /// Reads one more piece, and tells whether there was one: else the input is at its end.
    ///
    /// `Read`: the reader failed, and nothing was read. `OutOfMemory`: there was no room for the piece.
    pub fn fill<R: Read>(&mut self, input: &mut R) -> Result<bool, SimFault>
        ensures keeps { OnOk result (Keeps (prepend_known self.old (R.remaining input.old)) (prepend_known self.new (R.remaining input.new))) }
        ensures more { IfOk result (λ more. more ≡ true → length self.old < length self.new) }
        ensures end { IfOk result (λ more. more ≡ false → IsAtEnd (R.remaining input.new)) }
        ensures same { IfOk result (λ more. more ≡ false → self.new ≡ self.old) }
        ensures err { IfErr result (λ fault. FailsToFill fault self.old (R.remaining input.old) (R.remaining input.new)) }
    {
        let rest = self.octets.len() - self.taken;
        self.octets.rotate_left(self.taken);
        self.octets.truncate(rest);
        self.taken = 0;
        let count = read_some(input, &mut self.piece)?;
        match self.octets.extend_from_slice(&self.piece[..count]) {
            Ok(()) => Ok(count > 0),
            Err(_) => Err(SimFault::OutOfMemory),
        }
    }
}

/// Reads once. A read that was interrupted has read nothing, and is tried again.
pub fn read_some<R: Read>(input: &mut R, piece: &mut [u8]) -> Result<usize, SimFault>
    ensures within { IfOk result (λ count. count ≤ length piece.new) }
    ensures ok { IfOk result (λ count. Consumes (R.remaining input.old) (R.remaining input.new) (take count piece.new)) }
    ensures end { IfOk result (λ count. count ≡ 0 → 0 < length piece.old → IsAtEnd (R.remaining input.new)) }
    ensures fault { IfErr result (λ fault. fault ≡ SimFault.Read) }
    ensures lost { OnErr result (Keeps (R.remaining input.old) (R.remaining input.new)) }
{
    for _ in 0..u64::MAX {
        match input.read(piece) {
            Ok(count) => return Ok(count),
            Err(e) => {
                if e.kind() != ErrorKind::Interrupted {
                    return Err(SimFault::Read);
                }
            }
        }
    }
    // So many reads did not do: a reader that is interrupted for ever.
    Err(SimFault::Read)
}
