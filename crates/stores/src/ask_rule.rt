//! When a missing place is to be asked for, by the times that are known of it.
ghost use Rattle.std.specs.Prelude.{◌≡◌, ◌^◌, ◌<◌, ℕ, ◌||◌};
ghost use Rattle.stores.specs.Asking.{is_long_since, is_time, has_come};
ghost use Rattle.stores.specs.DueBy.{is_due_by, IsDueBy};

/// When missing places are to be asked for, and how often. Spans of time are in milliseconds.
#[derive(Clone, Copy, Debug, PartialEq, Eq)]
pub struct AskRule {
    /// How long a place is missing before it is asked for the first time, so that a packet that the network only
    /// reordered has time to come. With 0 it is asked for at once.
    pub delay: u64,
    /// How long until it is asked for again.
    pub retry: u64,
    /// How often it is asked for at most.
    pub asks: u8,
}

/// Whether so long has passed since a moment.
fn is_long_since(moment: u64, span: u64, now: u64) -> bool
    ensures { result ≡ is_long_since moment span now }
{
    now >= moment && now - moment >= span
}

/// Whether it is time to ask for a place that was noticed and asked for so.
pub(crate) fn is_time(now: u64, rule: AskRule, noticed: u64, asks: u8, last: u64) -> bool
    ensures { result ≡ is_time now rule.delay rule.retry noticed asks last }
{
    if asks == 0 {
        rule.delay == 0 || is_long_since(noticed, rule.delay, now)
    } else {
        is_long_since(last, rule.retry, now)
    }
}

/// The moment from which on it is time to ask for a place that was noticed and asked for so. None where that is past
/// the last moment.
pub(crate) fn time_from(rule: AskRule, noticed: u64, asks: u8, last: u64) -> Option<u64>
    ensures { (now : ℕ) → now < 2 ^ 64 → is_time now rule.delay rule.retry noticed asks last ≡ has_come result now }
{
    if asks > 0 {
        last.checked_add(rule.retry)
    } else if rule.delay == 0 {
        Some(0)
    } else {
        noticed.checked_add(rule.delay)
    }
}

/// Which places are due at some moment by a rule, so that a walk over many subtracts once.
#[derive(Clone, Copy, Debug, PartialEq, Eq)]
pub(crate) struct DueBy {
    // Those that were asked for fewer times,
    asks: u8,
    // noticed at this moment or sooner, or at none of which they may have been, where they were not asked for,
    first: Option<u64>,
    // and last asked for at this moment or sooner, where they were.
    again: u64,
}

impl DueBy {
    /// Those that are at this moment.
    pub(crate) fn new(now: u64, rule: AskRule) -> DueBy
        ensures { IsDueBy result now rule }
    {
        let first = if rule.delay == 0 {
            Some(u64::MAX)
        } else {
            now.checked_sub(rule.delay)
        };
        match now.checked_sub(rule.retry) {
            Some(again) => DueBy {
                asks: rule.asks,
                first,
                again,
            },
            // No ask was made so long ago.
            None => DueBy {
                asks: rule.asks.min(1),
                first,
                again: 0,
            },
        }
    }

    /// Whether a place is one of them that was noticed and asked for so.
    pub(crate) fn has(&self, noticed: u64, asks: u8, last: u64) -> bool
        ensures { result ≡ is_due_by self.now noticed asks last }
    {
        if asks >= self.asks {
            return false;
        }
        if asks > 0 {
            return last <= self.again;
        }
        match self.first {
            Some(first) => noticed <= first,
            None => false,
        }
    }
}

/// The sooner of two moments, of which either may never come.
pub fn sooner(one: Option<u64>, other: Option<u64>) -> Option<u64>
    ensures { (now : ℕ) → has_come result now ≡ (has_come one now || has_come other now) }
{
    match (one, other) {
        (Some(one), Some(other)) => Some(one.min(other)),
        (Some(moment), None) | (None, Some(moment)) => Some(moment),
        (None, None) => None,
    }
}
