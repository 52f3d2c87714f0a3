//! What lies behind the part of a struct that is known here.
ghost use Rattle.std.specs.Prelude.{◌≡◌, ◌↔◌, ◌-◌, ◌≤◌, ◌++◌, drop, IsSome, IsTrue, All, length, replicate};
ghost use Rattle.gozdrit.specs.Sizes.{SaysKnown, told_behind};

use crate::sized::LentSized;
use byteorder::{ByteOrder, LittleEndian};

/// Whether a struct of this size has all that is known of it, and says nothing else.
pub(crate) fn says_known<T>(lent: &mut LentSized<T>, size: usize, known: usize) -> bool
    requires there { IsSome lent.old.value }
    requires rest { length lent.old.rest ≡ size - known }
    ensures answer { IsTrue result ↔ SaysKnown known size lent.old.rest }
    ensures same { lent.new ≡ lent.old }
{
    size >= known && is_blank(lent.rest(size - known))
}

/// Whether all octets are 0.
fn is_blank(octets: &[u8]) -> bool
    ensures { IsTrue result ↔ All (λ octet. octet ≡ 0) octets.now }
{
    octets.iter().all(|octet| *octet == 0)
}

/// Blanks what lies behind a struct of this size.
pub(crate) fn blank<T>(lent: &mut LentSized<T>, size: usize, known: usize)
    requires there { IsSome lent.old.value }
    requires whole { known ≤ size }
    requires rest { length lent.old.rest ≡ size - known }
    ensures { lent.new ≡ record lent.old { rest = replicate (length lent.old.rest) 0 } }
{
    lent.rest(size - known).fill(0);
}

/// Tells a number in the first eight octets behind a struct of this size, if it has so many there.
pub(crate) fn tell_behind<T>(lent: &mut LentSized<T>, size: usize, known: usize, number: u64)
    requires there { IsSome lent.old.value }
    requires rest { length lent.old.rest ≡ size - known }
    ensures { lent.new ≡ record lent.old { rest = told_behind number lent.old.rest } }
{
    let len = size.saturating_sub(known);
    if len < 8 {
        return;
    }
    LittleEndian::write_u64(lent.rest(len), number);
}
