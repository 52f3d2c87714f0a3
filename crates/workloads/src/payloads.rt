//! What the packets of a job carry.
ghost use Rattle.std.specs.Prelude.{◌≡◌, ◌≤◌, length};

use crate::draws::Draws;
use std::alloc::Global;
use stores::OutOfMemory;

/// From so many octets payloads are cut.
const POOL: usize = 65536;

/// The longest payload.
const LONGEST: usize = 1200;

/// How long the payloads of a stream are, in octets.
#[derive(Clone, Copy)]
pub struct Lengths {
    pub least: usize,
    pub most: usize,
    /// How many of eight packets have a length of their own; the others have the most octets.
    pub odd: u64,
}

/// Drawn octets from which each place's payload is cut.
#[derive(Drop)]
pub struct Payloads {
    pool: Vec<u8>,
}

impl Payloads {
    /// Drawn ones.
    pub fn new(alloc: Global, draws: &mut Draws) -> Result<Payloads, OutOfMemory> {
        let mut pool = vec![in alloc; 0; POOL + LONGEST]?;
        draws.fill(pool.as_mut_slice());
        Ok(Payloads { pool })
    }

    /// The payload of a place.
    pub fn of(&self, place: u64, lengths: &Lengths) -> &[u8] {
        let drawn = scattered(place);
        let most = lengths.most.min(LONGEST);
        let spread = most.saturating_sub(lengths.least) as u64;
        let less = if drawn >> 20 & 7 < lengths.odd && spread > 0 {
            (drawn >> 24) % spread
        } else {
            0
        };
        self.cut(drawn, most.saturating_sub(less as usize))
    }

    /// So many words of four octets for a place.
    pub fn words_of(&self, place: u64, count: usize) -> &[u8] {
        self.cut(scattered(place).rotate_left(7), 4 * count.min(15))
    }

    /// So many octets, from where this number says.
    fn cut(&self, drawn: u64, len: usize) -> &[u8] {
        let from = (drawn % 65536) as usize;
        match self.pool.get(from..from.saturating_add(len)) {
            Some(octets) => octets,
            None => &[],
        }
    }
}

/// A number for a place, such that those of places beside each other have nothing in common.
pub fn scattered(place: u64) -> u64 {
    place.wrapping_mul(0x9e37_79b9_7f4a_7c15) >> 16
}
