//! How far ahead a number is believed at once.
ghost use Rattle.std.specs.Prelude.{◌≡◌, ◌≤◌};
ghost use Rattle.relays.specs.ReceiveRelay.{dropout_of, probation_of};

use endpoint::Probation;

/// By how much less a number may lie ahead to be believed at once: 3000, or as many as a window keeps. A gap that a window bridges is
/// no restart.
pub(crate) fn dropout(capacity: usize) -> u16
    requires { capacity ≤ 8192 }
    ensures { result ≡ dropout_of capacity }
{
    (capacity as u16).max(Probation::DROPOUT)
}

/// When a jump is believed, over a window of this capacity.
pub(crate) fn probation(capacity: usize) -> Probation
    requires { capacity ≤ 8192 }
    ensures { result ≡ probation_of capacity }
{
    let made = Probation::new(
        dropout(capacity),
        Probation::MISORDER,
        Probation::AHEAD,
        Probation::BEHIND,
    );
    // It is refused for a number of 0 alone.
    made.unwrap_or(Probation::usual())
        .with_silence(Probation::SILENCE)
}
