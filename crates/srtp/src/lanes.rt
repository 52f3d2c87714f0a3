//! Four blocks in the lanes of eight words, and back.
ghost use Rattle.std.specs.Prelude.{◌≡◌, ◌<◌, ◌+◌, ◌-◌, ◌*◌, ◌/◌, ◌%◌, ◌^◌, ℕ, List, [], ◌∷◌, slice_index, get_or};
ghost use Rattle.std.specs.Int.{bit_at};
ghost use Rattle.srtp.specs.Lanes.{state_in, AreCrossed, AreTurned};

/// The places in an octet whose bit 0, bit 1 or bit 2 is 0.
const HALVES: [u64; 3] = [
    0x5555_5555_5555_5555,
    0x3333_3333_3333_3333,
    0x0f0f_0f0f_0f0f_0f0f,
];

/// Exchanges the bits of the first word at places that have bit `t` with the second word's at places that have it not.
#[inline(always)]
fn exchange(a: u64, b: u64, t: usize) -> [u64; 2]
    requires { t < 3 }
    ensures { (i m : ℕ) → i < 2 → m < 64 → bit_at (slice_index result i) m
        ≡ bit_at (slice_index (a ∷ b ∷ []) (bit_at m t)) (m - bit_at m t * 2 ^ t + i * 2 ^ t) }
{
    let by = 1u32 << t;
    let moved = (a >> by ^ b) & HALVES[t];
    [a ^ moved << by, b ^ moved]
}

/// Bit 0 of a bit's place and bit 0 of its word's number are exchanged.
#[inline(always)]
fn cross_0(words: &[u64; 8]) -> [u64; 8]
    ensures { AreCrossed 0 words.now result }
{
    let [a, b, c, d, e, f, g, h] = *words;
    let [a, b] = exchange(a, b, 0);
    let [c, d] = exchange(c, d, 0);
    let [e, f] = exchange(e, f, 0);
    let [g, h] = exchange(g, h, 0);
    [a, b, c, d, e, f, g, h]
}

/// The same of bit 1.
#[inline(always)]
fn cross_1(words: &[u64; 8]) -> [u64; 8]
    ensures { AreCrossed 1 words.now result }
{
    let [a, b, c, d, e, f, g, h] = *words;
    let [a, c] = exchange(a, c, 1);
    let [b, d] = exchange(b, d, 1);
    let [e, g] = exchange(e, g, 1);
    let [f, h] = exchange(f, h, 1);
    [a, b, c, d, e, f, g, h]
}

/// The same of bit 2.
#[inline(always)]
fn cross_2(words: &[u64; 8]) -> [u64; 8]
    ensures { AreCrossed 2 words.now result }
{
    let [a, b, c, d, e, f, g, h] = *words;
    let [a, e] = exchange(a, e, 2);
    let [b, f] = exchange(b, f, 2);
    let [c, g] = exchange(c, g, 2);
    let [d, h] = exchange(d, h, 2);
    [a, b, c, d, e, f, g, h]
}

/// A bit's place in its octet and its word's number are exchanged, octet by octet.
#[inline(always)]
fn turned(words: &[u64; 8]) -> [u64; 8]
    ensures { AreTurned words.now result }
{
    cross_2(&cross_1(&cross_0(words)))
}

/// Two columns of a block, 0 and 2 or 1 and 3: each octet of the first, and beside it that of the second.
#[inline(always)]
fn columns(block: &[u8; 16], c: usize) -> u64
    requires { c < 2 }
    ensures { (j k : ℕ) → j < 8 → k < 8
        → bit_at result (8 * j + k) ≡ bit_at (slice_index block.now (4 * c + j / 2 + 8 * (j % 2))) k }
{
    let at = 4 * c;
    u64::from_le_bytes([
        block[at],
        block[at + 8],
        block[at + 1],
        block[at + 9],
        block[at + 2],
        block[at + 10],
        block[at + 3],
        block[at + 11],
    ])
}

/// The block whose columns 0 and 2 stand in the first word, and 1 and 3 in the second.
#[inline(always)]
fn block_of(first: u64, second: u64) -> [u8; 16]
    ensures { (i k : ℕ) → i < 16 → k < 8
        → bit_at (slice_index result i) k
        ≡ bit_at (slice_index (first ∷ second ∷ []) (i / 4 % 2)) (8 * (2 * (i % 4) + i / 8) + k) }
{
    let [a0, c0, a1, c1, a2, c2, a3, c3] = first.to_le_bytes();
    let [b0, d0, b1, d1, b2, d2, b3, d3] = second.to_le_bytes();
    [
        a0, a1, a2, a3, b0, b1, b2, b3, c0, c1, c2, c3, d0, d1, d2, d3,
    ]
}

/// The lanes of four blocks.
#[inline(always)]
pub(crate) fn pack(
    first: &[u8; 16],
    second: &[u8; 16],
    third: &[u8; 16],
    fourth: &[u8; 16],
) -> [u64; 8]
    ensures { (b : ℕ) → b < 4
        → state_in result b ≡ get_or (first.now ∷ second.now ∷ third.now ∷ fourth.now ∷ []) b [] }
{
    turned(&[
        columns(first, 0),
        columns(second, 0),
        columns(third, 0),
        columns(fourth, 0),
        columns(first, 1),
        columns(second, 1),
        columns(third, 1),
        columns(fourth, 1),
    ])
}

/// The four blocks in the lanes.
#[inline(always)]
pub(crate) fn unpack(words: &[u64; 8]) -> [[u8; 16]; 4]
    ensures { (none : List ℕ) (b : ℕ) → b < 4 → get_or result b none ≡ state_in words.now b }
{
    let [a, b, c, d, e, f, g, h] = turned(words);
    [
        block_of(a, e),
        block_of(b, f),
        block_of(c, g),
        block_of(d, h),
    ]
}
