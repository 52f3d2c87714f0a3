//! The places for clients, and until when each is taken.
ghost use Rattle.std.specs.Prelude.{◌≡◌, ◌<◌, length, IfSome, IfNone};
ghost use Rattle.gozdrit_relay.specs.Seats.{end_of, first_end, is_over, IsLeast, rank, sooner};

/// The place for one more client: the first that is free, and where none is, that which ends first.
pub fn seat_for(until: &[Option<u64>]) -> Option<usize>
    ensures within { IfSome result (λ at. at < length until.now) }
    ensures least { IfSome result (λ at. IsLeast at until.now) }
    ensures none { IfNone result (length until.now ≡ 0) }
{
    let mut best = None;
    for at in 0..until.len() {
        best = match best {
            Some(other) if rank(until[other]) <= rank(until[at]) => Some(other),
            _ => Some(at),
        };
    }
    best
}

/// How soon a place may be given to another client: at once where it is free.
fn rank(until: Option<u64>) -> u128
    ensures { result ≡ rank until }
{
    match until {
        Some(until) => u128::from(until) + 1,
        None => 0,
    }
}

/// The moment at which the first of the places ends, where one is taken.
pub fn first_end(until: &[Option<u64>]) -> Option<u64>
    ensures { result ≡ first_end until.now }
{
    let mut first = None;
    for at in 0..until.len() {
        first = sooner(first, until[at]);
    }
    first
}

/// The sooner of two moments, of which each may be none.
pub fn sooner(one: Option<u64>, other: Option<u64>) -> Option<u64>
    ensures { result ≡ sooner one other }
{
    match (one, other) {
        (Some(one), Some(other)) => Some(one.min(other)),
        (Some(one), None) => Some(one),
        (None, other) => other,
    }
}

/// How long a client may take, in milliseconds.
const PATIENCE: u64 = 5000;

/// The moment at which the place of a client ends that came at the moment `now`.
pub fn end_of(now: u64) -> u64
    ensures { result ≡ end_of now }
{
    now.saturating_add(PATIENCE)
}

/// Whether a place ends at the moment `now`.
pub fn is_over(until: Option<u64>, now: u64) -> bool
    ensures { result ≡ is_over until now }
{
    match until {
        Some(until) => until <= now,
        None => false,
    }
}
