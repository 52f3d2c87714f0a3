//! AES-128 encryption (FIPS 197, section 5), of sixteen blocks at once in lanes: no branch and no index depends on a
//! secret. What is encrypted of a packet of 1316 octets, 83 blocks, takes some 7 microseconds. Key expansion brings 40
//! octets through the S-box one by one.
ghost use Rattle.std.specs.Prelude.{◌≡◌, ◌<◌, ◌+◌, ℕ, List, length, get_or};
ghost use Rattle.srtp.specs.Octets.{xor_octets};
ghost use Rattle.srtp.specs.Field.{times_power};
ghost use Rattle.srtp.specs.Aes.{AreRoundKeys, sub_byte, word, changed_word, next_key};
ghost use Rattle.srtp.specs.Lanes.{state_in};

use crate::field::{inverse, xtime};
use crate::lanes::{pack, unpack};
use crate::rounds::{STATES, add_first_key, make_last_round, make_round};

/// How many octets a block has, and a key.
pub(crate) const BLOCK: usize = 16;

/// How many blocks stand in the lanes of eight words.
pub(crate) const BLOCKS: usize = 4;

/// How many round keys there are.
const KEYS: usize = 11;

/// A key of AES-128, expanded to its round keys, which stand in lanes too.
#[derive(Drop)]
pub struct Aes128 {
    keys: [[u8; BLOCK]; KEYS],
    lanes: [[u64; 8]; KEYS],
    ghost in_lanes: { (none empty : List ℕ) (r b : ℕ) → r < 11 → b < 4
        → state_in (get_or lanes r empty) b ≡ get_or keys r none },
}

impl Aes128 {
    ghost use Rattle.srtp.specs.Aes.{aes128};

    #[inline(never)]
    pub fn new(key: &[u8; BLOCK]) -> Aes128
        ensures { AreRoundKeys result.keys key.now }
    {
        let keys = round_keys(key);
        let lanes = keys_in_lanes(&keys);
        Aes128 { keys, lanes }
    }

    /// The block that the key makes of a block. Encrypts it in every lane, and takes one.
    pub fn encrypt(&self, block: &[u8; BLOCK]) -> [u8; BLOCK]
        ensures { (key : List ℕ) → AreRoundKeys self.now.keys key → result ≡ aes128 key block.now }
    {
        let mut states = [pack(block, block, block, block); STATES];
        self.encrypt_lanes(&mut states);
        let [made, _, _, _] = unpack(&states[0]);
        made
    }

    /// The blocks that the key makes of those in lanes, in their place.
    pub(crate) fn encrypt_lanes(&self, states: &mut [[u64; 8]; STATES])
        ensures { (key empty : List ℕ) (j b : ℕ) → AreRoundKeys self.now.keys key → j < 4 → b < 4
            → state_in (get_or states.new j empty) b ≡ aes128 key (state_in (get_or states.old j empty) b) }
    {
        add_first_key(states, &self.lanes[0]);
        for r in 1..KEYS - 1 {
            make_round(states, &self.lanes[r]);
        }
        make_last_round(states, &self.lanes[KEYS - 1]);
    }
}

/// The round keys of a key (section 5.2).
fn round_keys(key: &[u8; BLOCK]) -> [[u8; BLOCK]; KEYS]
    ensures { AreRoundKeys result key.now }
{
    let mut keys = [*key; KEYS];
    let mut round_key = *key;
    for r in 0..KEYS - 1 {
        round_key = next_key(&round_key, r as u8);
        keys[r + 1] = round_key;
    }
    keys
}

/// Each round key four times, for four blocks.
fn keys_in_lanes(keys: &[[u8; BLOCK]; KEYS]) -> [[u64; 8]; KEYS]
    ensures { (none empty : List ℕ) (r b : ℕ) → r < 11 → b < 4
        → state_in (get_or result r empty) b ≡ get_or keys.now r none }
{
    let mut lanes = [[0; 8]; KEYS];
    for r in 0..KEYS {
        let key = &keys[r];
        lanes[r] = pack(key, key, key, key);
    }
    lanes
}

/// An octet of the S-box (section 5.1.1).
#[inline(always)]
fn sub_byte(b: u8) -> u8
    ensures { result ≡ sub_byte b }
{
    let b = inverse(b);
    b ^ b.rotate_left(1) ^ b.rotate_left(2) ^ b.rotate_left(3) ^ b.rotate_left(4) ^ 0x63
}

/// The round key after one, which is round key `r` (section 5.2).
fn next_key(key: &[u8; BLOCK], r: u8) -> [u8; BLOCK]
    requires { r < 10 }
    ensures { result ≡ next_key key.now r }
{
    let [a0, a1, a2, a3] = xor_word(word(key, 0), changed_word(key, r));
    let [b0, b1, b2, b3] = xor_word(word(key, 1), [a0, a1, a2, a3]);
    let [c0, c1, c2, c3] = xor_word(word(key, 2), [b0, b1, b2, b3]);
    let [d0, d1, d2, d3] = xor_word(word(key, 3), [c0, c1, c2, c3]);
    [
        a0, a1, a2, a3, b0, b1, b2, b3, c0, c1, c2, c3, d0, d1, d2, d3,
    ]
}

/// Word i of a round key.
fn word(key: &[u8; BLOCK], i: usize) -> [u8; 4]
    requires { i < 4 }
    ensures { result ≡ word key.now i }
{
    [key[4 * i], key[4 * i + 1], key[4 * i + 2], key[4 * i + 3]]
}

/// `SubWord` of `RotWord` of a round key's last word, with the round's constant.
fn changed_word(key: &[u8; BLOCK], r: u8) -> [u8; 4]
    requires { r < 10 }
    ensures { result ≡ changed_word key.now r }
{
    [
        sub_byte(key[13]) ^ times_power(r),
        sub_byte(key[14]),
        sub_byte(key[15]),
        sub_byte(key[12]),
    ]
}

/// The power of x that is a round's constant.
fn times_power(r: u8) -> u8
    ensures { result ≡ times_power r 1 }
{
    let mut power = 1;
    for _step in 0..r {
        power = xtime(power);
    }
    power
}

fn xor_word(a: [u8; 4], b: [u8; 4]) -> [u8; 4]
    ensures { result ≡ xor_octets a b }
{
    let [a0, a1, a2, a3] = a;
    let [b0, b1, b2, b3] = b;
    [a0 ^ b0, a1 ^ b1, a2 ^ b2, a3 ^ b3]
}
