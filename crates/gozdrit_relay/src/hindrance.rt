//! Why a datagram could not be sent.
ghost use Rattle.std.specs.Prelude.{◌≡◌};
ghost use Rattle.gozdrit_relay.specs.Hindrance.{hindered_by};

/// Why the system did not take a datagram.
#[derive(Clone, Copy, Debug, PartialEq, Eq)]
pub enum Hindrance {
    /// There is no room for what is to leave, or none at the interface.
    Full,
    /// There is no way to the address.
    Unreachable,
    /// The datagram is longer than the way to the address takes.
    Oversize,
    /// Nobody listens at the address.
    Rejected,
    /// Something else, as a filter that forbids it.
    Other,
}

/// What an error of the system says, by its number on Linux (errno(3)). One that is no number of the system is something else.
pub fn hindered_by(number: Option<i32>) -> Hindrance
    ensures { result ≡ hindered_by number }
{
    match number {
        Some(11 | 105) => Hindrance::Full,
        Some(100 | 101 | 113) => Hindrance::Unreachable,
        Some(90) => Hindrance::Oversize,
        Some(111) => Hindrance::Rejected,
        _ => Hindrance::Other,
    }
}
