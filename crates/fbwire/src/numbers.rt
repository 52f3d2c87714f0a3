//! The pairs of a generic NACK, and the sequence numbers that they name, one after another.
ghost use Rattle.std.specs.Prelude.{◌≡◌, ◌≤◌, length};
ghost use Rattle.std.specs.Iterator.{YieldsFirst, item_count};
ghost use Rattle.fbwire.specs.Nack.{masked_numbers, numbers_of};
ghost use Rattle.fbwire.specs.NackReading.{pair_in, pairs_in};

use crate::nack::Pair;
use byteorder::{ByteOrder, NetworkEndian};
use std::marker::Model;

/// How many octets a pair has.
const PAIR: usize = 4;

/// The pairs of a generic NACK, read from the octets one by one.
#[derive(Drop)]
pub struct Pairs<'a> {
    octets: &'a [u8],
}

impl<'a> Model for Pairs<'a> {
    ghost use Rattle.std.specs.Prelude.{List};
    ghost use Rattle.fbwire.specs.declared.nack.Pair.{Pair};
    ghost use Rattle.fbwire.specs.NackReading.{pairs_in};

    ghost Value = { List Pair };

    ghost view = { λ v. pairs_in v.octets.now };
}

impl<'a> Pairs<'a> {
    /// The pairs in these octets, four for each.
    pub(crate) fn new(octets: &'a [u8]) -> Pairs<'a>
        ensures { result ≡ pairs_in octets.now }
    {
        Pairs { octets }
    }
}

impl<'a> Iterator for Pairs<'a> {
    type Item = Pair;

    ghost next_gives = { YieldsFirst (λ s. s) };

    ghost remaining = { item_count (λ s. s) };

    fn next(&mut self) -> Option<Pair> {
        if self.octets.len() < PAIR {
            return None;
        }
        let pair = pair_of(self.octets);
        self.octets = &self.octets[PAIR..];
        Some(pair)
    }
}

/// The pair in the first four octets.
fn pair_of(octets: &[u8]) -> Pair
    requires { 4 ≤ length octets.now }
    ensures { result ≡ pair_in octets.now }
{
    Pair {
        pid: NetworkEndian::read_u16(octets),
        blp: NetworkEndian::read_u16(&octets[2..]),
    }
}

/// The sequence numbers that a generic NACK names, pair after pair: the PID, and then the numbers of the
/// set bits from bit 1 up (RFC 4585, section 6.2.1).
#[derive(Drop)]
pub struct Numbers<'a> {
    pairs: Pairs<'a>,
    pid: u16,
    mask: u16,
}

impl<'a> Model for Numbers<'a> {
    ghost use Rattle.std.specs.Prelude.{ℕ, List, ◌++◌};
    ghost use Rattle.fbwire.specs.Nack.{masked_numbers, numbers_of};

    ghost Value = { List ℕ };

    ghost view = { λ v. masked_numbers v.pid v.mask ++ numbers_of v.pairs };
}

impl<'a> Numbers<'a> {
    /// The numbers that these pairs name.
    #[tactic(auto, using(crate::proofs::Masks::nothing_before))]
    pub(crate) fn new(pairs: Pairs<'a>) -> Numbers<'a>
        ensures { result ≡ numbers_of pairs.entry }
    {
        Numbers {
            pairs,
            pid: 0,
            mask: 0,
        }
    }

    /// The numbers that the mask of a pair names, without its PID.
    pub(crate) fn masked(pair: Pair) -> Numbers<'a>
        ensures { result ≡ masked_numbers pair.pid pair.blp }
    {
        Numbers {
            pairs: Pairs::new(&[]),
            pid: pair.pid,
            mask: pair.blp,
        }
    }
}

impl<'a> Iterator for Numbers<'a> {
    type Item = u16;

    ghost next_gives = { YieldsFirst (λ s. s) };

    ghost remaining = { item_count (λ s. s) };

    #[tactic(auto, using(crate::proofs::Masks::bit_by_bit))]
    fn next(&mut self) -> Option<u16> {
        if self.mask == 0 {
            let pair = self.pairs.next()?;
            self.pid = pair.pid;
            self.mask = pair.blp;
            return Some(pair.pid);
        }
        let lowest = self.mask.trailing_zeros();
        self.mask &= !(1 << lowest);
        Some(self.pid.wrapping_add(lowest as u16 + 1))
    }
}
