//! Whether a datagram goes on with the session, as what shows the far side at another address does.
ghost use Rattle.std.specs.Prelude.{◌≡◌};
ghost use Rattle.relays.specs.Moving.{is_next, next_of};

use places::Place;

/// Whether a number is one of the next ones: ahead of the highest place, by less than `reach`.
fn is_next(highest: Option<Place>, number: Option<u16>, reach: u16) -> bool
    ensures { result ≡ is_next highest number reach }
{
    match (highest, number) {
        (Some(highest), Some(number)) => {
            let ahead = number.wrapping_sub(highest.number());
            0 < ahead && ahead < reach
        }
        _ => false,
    }
}

/// The number, if it is one of the next ones.
pub(crate) fn next_of(highest: Option<Place>, number: Option<u16>, reach: u16) -> Option<u16>
    ensures { result ≡ next_of highest number reach }
{
    if is_next(highest, number, reach) {
        number
    } else {
        None
    }
}
