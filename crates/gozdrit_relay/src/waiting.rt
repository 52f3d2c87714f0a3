//! Datagrams that found no room as they were to leave, and leave as soon as there is some.
ghost use Rattle.std.specs.Prelude.{◌≡◌};
ghost use Rattle.gozdrit_relay.specs.Waiting.{is_kept, waits_until};

use crate::hindrance::Hindrance;
use relays::Side;
use std::net::SocketAddr;

/// How many wait at a time at most.
const MOST: usize = 64;

/// How long one waits at most, in milliseconds.
const LONGEST: u64 = 100;

/// A datagram that waits.
#[derive(Debug, Drop)]
pub struct Waiting {
    pub side: Side,
    pub to: SocketAddr,
    pub octets: Vec<u8>,
    /// The moment up to which it is in time.
    pub until: u64,
}

/// Whether a datagram waits that the system did not take, beside so many others.
pub fn is_kept(hindrance: Hindrance, waiting: usize) -> bool
    ensures { result ≡ is_kept hindrance waiting }
{
    match hindrance {
        Hindrance::Full => waiting < MOST,
        _ => false,
    }
}

/// Up to which moment one waits that was to leave at the moment `now`.
pub fn waits_until(now: u64) -> u64
    ensures { result ≡ waits_until now }
{
    now.saturating_add(LONGEST)
}
