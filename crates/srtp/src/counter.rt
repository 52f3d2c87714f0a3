//! AES in counter mode (RFC 3711, section 4.1.1).
ghost use Rattle.std.specs.Prelude.{◌≡◌, ◌+◌, ◌*◌, ◌/◌, ◌%◌, ◌<◌, ◌≤◌, ◌^◌, ◌++◌, ℕ, List, length, take, drop, get_or};
ghost use Rattle.srtp.specs.Aes.{AreRoundKeys};
ghost use Rattle.srtp.specs.Octets.{xor_octets};
ghost use Rattle.srtp.specs.Lanes.{state_in};
ghost use Rattle.srtp.specs.Counter.{counter_base, counter_block, encrypted};

use crate::aes::{Aes128, BLOCK, BLOCKS};
use crate::lanes::{pack, unpack};
use crate::octets::xor_into;
use crate::rounds::STATES;
use byteorder::{ByteOrder, NetworkEndian};

/// How many octets a salt has.
pub const SALT: usize = 14;

/// The longest text: the 2^16 blocks that the counter has.
pub(crate) const MAX_TEXT: usize = 1 << 20;

/// How many octets of a text are encrypted at once.
const CHUNK: usize = BLOCK * BLOCKS * STATES;

/// Encrypts a text in place, or decrypts it, which is the same.
#[inline(never)]
pub(crate) fn encrypt(key: &Aes128, base: &[u8; SALT], text: &mut [u8])
    requires { length text.old ≤ 2 ^ 20 }
    ensures { (master : List ℕ) → AreRoundKeys key.now.keys master → text.new ≡ encrypted master base.now text.old }
{
    for j in 0..text.len().div_ceil(CHUNK) {
        let at = CHUNK * j;
        let len = CHUNK.min(text.len() - at);
        let mut states = counters(base, (BLOCKS * STATES * j) as u16);
        key.encrypt_lanes(&mut states);
        xor_at(text, at, &blocks(&states).as_flattened()[..len]);
    }
}

/// The lanes of sixteen blocks of the counter, from a number on.
fn counters(base: &[u8; SALT], n: u16) -> [[u64; 8]; STATES]
    requires { n + 16 ≤ 2 ^ 16 }
    ensures { (empty : List ℕ) (j b : ℕ) → j < 4 → b < 4
        → state_in (get_or result j empty) b ≡ counter_block base.now (n + 4 * j + b) }
{
    let mut states = [[0; 8]; STATES];
    for j in 0..STATES {
        let first = n + (BLOCKS * j) as u16;
        states[j] = pack(
            &counter_block(base, first),
            &counter_block(base, first + 1),
            &counter_block(base, first + 2),
            &counter_block(base, first + 3),
        );
    }
    states
}

/// The blocks in the lanes of states.
fn blocks(states: &[[u64; 8]; STATES]) -> [[u8; BLOCK]; BLOCKS * STATES]
    ensures { (none empty : List ℕ) (i : ℕ) → i < 16
        → get_or result i none ≡ state_in (get_or states.now (i / 4) empty) (i % 4) }
{
    let mut blocks = [[0; BLOCK]; BLOCKS * STATES];
    for j in 0..STATES {
        let [a, b, c, d] = unpack(&states[j]);
        blocks[BLOCKS * j] = a;
        blocks[BLOCKS * j + 1] = b;
        blocks[BLOCKS * j + 2] = c;
        blocks[BLOCKS * j + 3] = d;
    }
    blocks
}

/// Brings octets by exclusive or into a text from a place on.
fn xor_at(text: &mut [u8], at: usize, with: &[u8])
    requires { at + length with.now ≤ length text.old }
    ensures { text.new ≡ take at text.old ++ xor_octets (drop at text.old) with.now }
{
    xor_into(&mut text[at..], with);
}

/// A block of the counter.
fn counter_block(base: &[u8; SALT], j: u16) -> [u8; BLOCK]
    ensures { result ≡ counter_block base.now j }
{
    let mut block = [0; BLOCK];
    let (front, behind) = block.split_at_mut(SALT);
    front.copy_from_slice(base);
    NetworkEndian::write_u16(behind, j);
    block
}

/// What stands before the number of a block in the counter of a packet. Of the index the lowest 48 bits count.
pub(crate) fn counter_base(salt: &[u8; SALT], ssrc: u32, index: u64) -> [u8; SALT]
    ensures { result ≡ counter_base salt.now ssrc index }
{
    let mut base = *salt;
    let [a, b, c, d] = ssrc.to_be_bytes();
    let [_, _, e, f, g, h, i, j] = index.to_be_bytes();
    xor_into(&mut base, &[0, 0, 0, 0, a, b, c, d, e, f, g, h, i, j]);
    base
}
