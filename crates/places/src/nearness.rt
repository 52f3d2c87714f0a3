ghost use Rattle.std.specs.Prelude.{◌≡◌, ◌↔◌, ◌⊎◌, ℕ, ◌^◌, ◌<◌, IfOk};
ghost use Rattle.places.specs.Place.{number, reach, IsWithin, IsNear, IsFar, IsPastEnd};

use crate::place::Place;

/// How far from the highest place a packet may be: `MAX_DROPOUT` and `MAX_MISORDER` of RFC 3550, A.1.
const REACH: u16 = 16384;

/// Why a sequence number stands for no place.
#[derive(Clone, Copy, Debug, PartialEq, Eq, Hash)]
pub enum PlaceFault {
    /// No whole number with this sequence number is near the highest place.
    Far,
    /// The near one is below 0, or not below 2^48.
    PastEnd,
}

impl PlaceFault {
    ghost use Rattle.places.specs.Fault.{place_fault_number};

    /// Its refusal number.
    pub fn number(&self) -> u8
        ensures { result ≡ place_fault_number self.now }
    {
        match self {
            PlaceFault::Far => 34,
            PlaceFault::PastEnd => 39,
        }
    }
}

/// The one place near `highest` that has this sequence number.
///
/// The whole number less than 16384 away from `highest` is taken, above or below it. This is the rule of
/// RFC 3550, appendix A.1, with both of its bounds at 16384, without probation and without restart.
pub fn near(highest: Place, seq: u16) -> Result<Place, PlaceFault>
    ensures near { IfOk result (IsNear highest seq) }
    ensures is_place { IfOk result (λ place. place < 2 ^ 48) }
    ensures found { (place : ℕ) → place < 2 ^ 48 → IsNear highest seq place → result ≡ Ok place }
    ensures far { (result ≡ Err PlaceFault.Far) ↔ IsFar highest seq }
    ensures past_end { (result ≡ Err PlaceFault.PastEnd) ↔ IsPastEnd highest seq }
{
    let ahead = seq.wrapping_sub(highest.number());
    let behind = highest.number().wrapping_sub(seq);
    if ahead < REACH {
        Place::new(highest.value() + u64::from(ahead)).ok_or(PlaceFault::PastEnd)
    } else if behind < REACH {
        highest
            .value()
            .checked_sub(u64::from(behind))
            .and_then(Place::new)
            .ok_or(PlaceFault::PastEnd)
    } else {
        Err(PlaceFault::Far)
    }
}

/// What nearness determines. It computes nothing: its contract is a law on the definitions, for callers of [`near`].
pub fn near_is_determined()
    // At most one place is near, and it has the sequence number that it was found by.
    ensures one { (highest seq p q : ℕ) → IsNear highest seq p → IsNear highest seq q → p ≡ q }
    ensures has_number { (highest seq p : ℕ) → IsNear highest seq p → number p ≡ seq }

    // Each place within reach is found again from its number.
    ensures found_again { (highest p : ℕ) → IsWithin reach p highest → IsNear highest (number p) p }
    ensures within { (highest seq p : ℕ) → IsNear highest seq p → IsWithin reach p highest }

    // Of a near place, a number that is far, and one past the end, exactly one holds.
    ensures some { (highest seq : ℕ) → seq < 2 ^ 16
        → ((place : ℕ) × (place < 2 ^ 48) × IsNear highest seq place) ⊎ (IsFar highest seq ⊎ IsPastEnd highest seq) }
    ensures near_not_far { (highest seq place : ℕ) → IsNear highest seq place → IsFar highest seq → ⊥ }
    ensures near_not_past_end { (highest seq place : ℕ) → place < 2 ^ 48 → IsNear highest seq place → IsPastEnd highest seq → ⊥ }
    ensures far_not_past_end { (highest seq : ℕ) → IsFar highest seq → IsPastEnd highest seq → ⊥ }
{}
