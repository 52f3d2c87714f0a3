//! A NACK that leaves twice, so that the loss of one of both costs no time.
ghost use Rattle.std.specs.Prelude.{◌≡◌, ◌≤◌, length};
ghost use Rattle.gozdrit.specs.Again.{WritesCopy};

use arrayvec::ArrayVec;
use rtpwire::{TooShort, fill_front};

/// How many octets a NACK has at most: those of the headers, and four for each of 64 pairs (RFC 4585, section 6.2.1).
pub(crate) const MAX_NACK: usize = 268;

/// A NACK that left, and is to leave once more.
pub(crate) type Again = ArrayVec<u8, MAX_NACK>;

/// The same octets, which fit.
pub(crate) fn copy_of(octets: &[u8]) -> Again
    requires { length octets.now ≤ MAX_NACK }
    ensures { result.items ≡ octets.now }
{
    let mut copy = Again::new();
    copy.try_extend_from_slice(octets).unwrap();
    copy
}

/// Writes octets to the front of a slice, and answers how many they are.
pub(crate) fn write_copy(octets: &[u8], out: &mut [u8]) -> Result<usize, TooShort>
    ensures { WritesCopy octets.now out.old result out.new }
{
    let needed = octets.len();
    if out.len() < needed {
        return Err(TooShort { needed });
    }
    fill_front(out, octets);
    Ok(needed)
}
