//! The rounds of AES (FIPS 197, section 5.1) on four states in the lanes of eight words, and on several times four.
ghost use Rattle.std.specs.Prelude.{◌≡◌, ◌<◌, ◌+◌, ◌*◌, ◌%◌, ◌^◌, ℕ, List, get_or, bit_xor, bit_and};
ghost use Rattle.std.specs.Int.{bit_at};
ghost use Rattle.srtp.specs.Octets.{xor_octets};
ghost use Rattle.srtp.specs.Field.{xtime};
ghost use Rattle.srtp.specs.Aes.{sub_bytes, shift_rows, mix_columns};
ghost use Rattle.srtp.specs.Lanes.{lane, state_in, swapped, row_shifted};

use crate::tower::{affine_of, inverse_8, to_tower};

/// How many times four states are encrypted at once. All take the same steps, so a compiler may take two words as one.
pub(crate) const STATES: usize = 4;

/// The bits of a mask, and those `by` above them, change places.
#[inline(always)]
fn swap(word: u64, mask: u64, by: u32) -> u64
    requires room { by < 64 }
    requires apart { bit_and mask (mask * 2 ^ by % 2 ^ 64) ≡ 0 }
    ensures { (m : ℕ) → m < 64 → bit_at result m ≡ bit_at word (swapped mask by m) }
{
    let moved = (word >> by ^ word) & mask;
    word ^ moved ^ moved << by
}

/// The 16 lanes of row r are turned by r columns: neighbours change places in rows 1 and 3, then what lies two apart.
#[inline(always)]
fn shift(word: u64) -> u64
    ensures { (m : ℕ) → m < 64 → bit_at result m ≡ bit_at word (row_shifted m) }
{
    swap(
        swap(word, 0x0f0f_0000_0f0f_0000, 4),
        0x000f_00ff_00f0_0000,
        8,
    )
}

/// Each lane has the octet of the lane `by` further.
#[inline(always)]
fn turn(words: &[u64; 8], by: u32) -> [u64; 8]
    requires some { 0 < by }
    requires room { by < 64 }
    ensures { (l : ℕ) → l < 64 → lane result l ≡ lane words.now ((l + by) % 64) }
{
    let [a, b, c, d, e, f, g, h] = *words;
    [
        a.rotate_right(by),
        b.rotate_right(by),
        c.rotate_right(by),
        d.rotate_right(by),
        e.rotate_right(by),
        f.rotate_right(by),
        g.rotate_right(by),
        h.rotate_right(by),
    ]
}

#[inline(always)]
fn sum(x: &[u64; 8], y: &[u64; 8]) -> [u64; 8]
    ensures { (l : ℕ) → lane result l ≡ bit_xor (lane x.now l) (lane y.now l) }
{
    let [a, b, c, d, e, f, g, h] = *x;
    let [i, j, k, l, m, n, o, p] = *y;
    [a ^ i, b ^ j, c ^ k, d ^ l, e ^ m, f ^ n, g ^ o, h ^ p]
}

/// The product by x.
#[inline(always)]
fn times_x(words: &[u64; 8]) -> [u64; 8]
    ensures { (l : ℕ) → lane result l ≡ xtime (lane words.now l) }
{
    let [a, b, c, d, e, f, g, top] = *words;
    [top, a ^ top, b, c ^ top, d ^ top, e, f, g]
}

/// Every octet goes through the S-box (section 5.1.1).
#[inline(always)]
fn sub_bytes(words: &[u64; 8]) -> [u64; 8]
    ensures { (b : ℕ) → b < 4 → state_in result b ≡ sub_bytes (state_in words.now b) }
{
    affine_of(inverse_8(to_tower(words)))
}

/// Rows are shifted (section 5.1.2).
#[inline(always)]
fn shift_rows(words: &[u64; 8]) -> [u64; 8]
    ensures { (b : ℕ) → b < 4 → state_in result b ≡ shift_rows (state_in words.now b) }
{
    let [a, b, c, d, e, f, g, h] = *words;
    [
        shift(a),
        shift(b),
        shift(c),
        shift(d),
        shift(e),
        shift(f),
        shift(g),
        shift(h),
    ]
}

/// Columns are mixed (section 5.1.3): an octet and the next one in the column times x, the next one, and the other two.
#[inline(always)]
fn mix_columns(words: &[u64; 8]) -> [u64; 8]
    ensures { (b : ℕ) → b < 4 → state_in result b ≡ mix_columns (state_in words.now b) }
{
    let next = turn(words, 16);
    let both = sum(words, &next);
    sum(&sum(&times_x(&both), &next), &turn(&both, 32))
}

/// A round key is added (section 5.1.4).
#[inline(always)]
fn add_round_key(words: &[u64; 8], key: &[u64; 8]) -> [u64; 8]
    ensures { (b : ℕ) → b < 4 → state_in result b ≡ xor_octets (state_in words.now b) (state_in key.now b) }
{
    sum(words, key)
}

/// The first round key is added to all states.
pub(crate) fn add_first_key(states: &mut [[u64; 8]; STATES], key: &[u64; 8])
    ensures { (empty : List ℕ) (j b : ℕ) → j < 4 → b < 4
        → let old = state_in (get_or states.old j empty) b in
        state_in (get_or states.new j empty) b ≡ xor_octets old (state_in key.now b) }
{
    // A copy, as in each round, so that a compiler sees that no word of the key is written over.
    let key = *key;
    for j in 0..STATES {
        states[j] = add_round_key(&states[j], &key);
    }
}

/// A round of all states.
pub(crate) fn make_round(states: &mut [[u64; 8]; STATES], key: &[u64; 8])
    ensures { (empty : List ℕ) (j b : ℕ) → j < 4 → b < 4
        → let old = state_in (get_or states.old j empty) b in
        state_in (get_or states.new j empty) b
        ≡ xor_octets (mix_columns (shift_rows (sub_bytes old))) (state_in key.now b) }
{
    let key = *key;
    for j in 0..STATES {
        let mixed = mix_columns(&shift_rows(&sub_bytes(&states[j])));
        states[j] = add_round_key(&mixed, &key);
    }
}

/// The last round of all states, which mixes no columns.
pub(crate) fn make_last_round(states: &mut [[u64; 8]; STATES], key: &[u64; 8])
    ensures { (empty : List ℕ) (j b : ℕ) → j < 4 → b < 4
        → let old = state_in (get_or states.old j empty) b in
        state_in (get_or states.new j empty) b ≡ xor_octets (shift_rows (sub_bytes old)) (state_in key.now b) }
{
    let key = *key;
    for j in 0..STATES {
        let shifted = shift_rows(&sub_bytes(&states[j]));
        states[j] = add_round_key(&shifted, &key);
    }
}
