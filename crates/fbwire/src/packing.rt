//! Pairs for places that are missing, as few as name them.
ghost use Rattle.std.specs.Prelude.{◌≡◌, ◌↔◌, ◌<◌, ◌≤◌, ℕ, List, IsTrue, length, map};
ghost use Rattle.std.specs.List.Sorted.{IsStrictlyIncreasing};
ghost use Rattle.places.specs.Place.{number};
ghost use Rattle.fbwire.specs.Packing.{IsNarrow, IsPacking, NamesExactly};
ghost use Rattle.fbwire.specs.PackingSteps.{TakesFirst};

use crate::nack::Pair;
use arrayvec::ArrayVec;
use places::Place;

/// How far above its PID a pair names numbers: the bits of its mask.
const REACH: u64 = 16;

/// How far above the first place the last one is not. It is well below half a cycle of sequence numbers.
const SPAN: u64 = 8192;

/// Pairs for these places, and how many of the places they cover: all of them, or the longest beginning
/// that 64 pairs can name.
///
/// The places rise, and the last is less than 8192 above the first. The pairs name exactly the sequence
/// numbers of the places that they cover (RFC 4585, section 6.2.1), and no shorter list of pairs does. Each
/// starts at the first place that is not named yet. It takes no memory, and one pass over the places.
pub fn pack(places: &[Place]) -> (ArrayVec<Pair, 64>, usize)
    requires rising { IsStrictlyIncreasing places.now }
    requires narrow { IsNarrow places.now }
    ensures packing { IsPacking places.now result.0.items result.1 }

    // Of some places one is covered at least, by one pair at least.
    ensures some { 0 < length places.now → (0 < length result.0.items) × (0 < result.1) }
    // Some places are left only where all 64 pairs are made, and only where 64 pairs can't name all.
    ensures full { result.1 < length places.now → length result.0.items ≡ 64 }
    ensures whole { (others : List Pair) → length others ≤ 64 → NamesExactly others (map number places.now)
        → result.1 ≡ length places.now }
{
    let mut pairs = ArrayVec::new();
    let covered = pack_into(places, &mut pairs);
    (pairs, covered)
}

/// The same in a list that the caller lends, in the place of what it held.
pub fn pack_into(places: &[Place], pairs: &mut ArrayVec<Pair, 64>) -> usize
    requires rising { IsStrictlyIncreasing places.now }
    requires narrow { IsNarrow places.now }
    ensures packing { IsPacking places.now pairs.new.items result }
    ensures some { 0 < length places.now → (0 < length pairs.new.items) × (0 < result) }
    ensures full { result < length places.now → length pairs.new.items ≡ 64 }
    ensures whole { (ps : List Pair) → length ps ≤ 64 → NamesExactly ps (map number places.now) → result ≡ length places.now }
{
    pairs.clear();
    let mut covered = 0;
    while covered < places.len() && !pairs.is_full() {
        let (pair, count) = first_pair(&places[covered..]);
        pairs.push(pair);
        covered += count;
    }
    covered
}

/// Whether [`pack`] takes these places: they rise, and the last is less than 8192 above the first.
pub fn can_pack(places: &[Place]) -> bool
    ensures { IsTrue result ↔ (IsStrictlyIncreasing places.now × IsNarrow places.now) }
{
    for index in 1..places.len() {
        if places[index].value() <= places[index - 1].value() {
            return false;
        }
    }
    match (places.first(), places.last()) {
        (Some(first), Some(last)) => last.value() < first.value() + SPAN,
        _ => true,
    }
}

/// The pair that starts at the first of these places, and how many of them it names.
fn first_pair(places: &[Place]) -> (Pair, usize)
    requires some { 0 < length places.now }
    requires rising { IsStrictlyIncreasing places.now }
    ensures { TakesFirst places.now result.0 result.1 }
{
    let start = places[0];
    let mut blp = 0;
    let mut count = 1;
    while count < places.len() {
        let above = places[count].value() - start.value();
        if above > REACH {
            break;
        }
        blp |= 1 << (above - 1);
        count += 1;
    }
    let pair = Pair {
        pid: start.number(),
        blp,
    };
    (pair, count)
}

/// What a packing determines. It computes nothing: its contract is a law on the definitions, for callers of
/// [`pack`].
pub fn packing_is_determined()
    // Of the places there is at most one packing: these pairs, and so many places covered.
    ensures one { (places : List ℕ) (a b : List Pair) (m n : ℕ) → IsStrictlyIncreasing places → IsNarrow places
        → IsPacking places a m → IsPacking places b n → (a ≡ b) × (m ≡ n) }
{}
