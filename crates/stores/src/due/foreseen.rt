//! An answer that a window keeps.
ghost use Rattle.std.specs.Prelude.{◌≡◌, ℕ, ◌^◌, ◌<◌, ◌||◌, Bool};
ghost use Rattle.stores.specs.Asking.{has_come};
ghost use Rattle.stores.specs.Foreseen.{soonest_moment, Serves};

use crate::ask_rule::AskRule;

/// From when on a place is due by a rule, as it was found.
#[derive(Clone, Copy, Debug, PartialEq, Eq)]
pub struct Foreseen {
    pub rule: AskRule,
    /// None where no place ever is.
    pub soonest: Option<Soonest>,
}

/// The moment from which on some slot is due, with one that is due from then on.
#[derive(Clone, Copy, Debug, PartialEq, Eq)]
pub struct Soonest {
    pub moment: u64,
    /// Which slot that is, counted from the first one.
    pub index: usize,
}

impl Soonest {
    /// The sooner one of what was found so far and a slot that is due from this moment on.
    pub fn or(found: Option<Soonest>, moment: Option<u64>, index: usize) -> Option<Soonest>
        ensures sooner { (now : ℕ) → has_come (soonest_moment result) now ≡ (has_come (soonest_moment found) now || has_come moment now) }
        ensures serves { (due : ℕ → ℕ → Bool) → Serves due found → ((now : ℕ) → now < 2 ^ 64 → due now index ≡ has_come moment now) → Serves due result }
    {
        let Some(moment) = moment else {
            return found;
        };
        if let Some(found) = found {
            if found.moment <= moment {
                return Some(found);
            }
        }
        Some(Soonest { moment, index })
    }
}

/// The moment alone.
pub fn soonest_moment(soonest: Option<Soonest>) -> Option<u64>
    ensures { result ≡ soonest_moment soonest }
{
    Some(soonest?.moment)
}
