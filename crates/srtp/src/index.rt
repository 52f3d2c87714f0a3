//! The index of an SRTP packet (RFC 3711, section 3.3.1).
ghost use Rattle.std.specs.Prelude.{◌≡◌, ◌<◌, ◌≤◌, ◌+◌, ◌^◌, ℕ};
ghost use Rattle.places.specs.Place.{IsNear};
ghost use Rattle.srtp.specs.Index.{guessed_index};

/// The index of a packet by its sequence number and the highest index so far, as appendix A guesses it: modulo 2^48, so that
/// a number from before the first index gives one at the end.
pub fn guess_index(highest: u64, seq: u16) -> u64
    requires { highest < 2 ^ 48 }
    ensures index { result ≡ guessed_index highest seq }
    ensures fits { result < 2 ^ 48 }
{
    let rollover = (highest >> 16) as u32;
    let last = (highest % 65536) as u16;
    let guess = if last < 32768 {
        if i32::from(seq) - i32::from(last) > 32768 {
            rollover.wrapping_sub(1)
        } else {
            rollover
        }
    } else if last - 32768 > seq {
        rollover.wrapping_add(1)
    } else {
        rollover
    };
    65536 * u64::from(guess) + u64::from(seq)
}

/// What the guess determines. It computes nothing: its contract is a law on the definitions, for callers of [`guess_index`].
pub fn guesses_are_places()
    // A place is the index, one cycle up. Wherever a number stands for a place near the highest one, and not for one from
    // before the first index, the guess is its index.
    ensures near { (highest seq place : ℕ) → highest < 2 ^ 48 → 65536 ≤ place → place < 2 ^ 48 + 65536
        → IsNear (highest + 65536) seq place → guessed_index highest seq + 65536 ≡ place }
{}
