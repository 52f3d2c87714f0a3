//! What a receiver may ask for, where that is earned by what comes ([`timing::FeedbackBudget`]).
ghost use Rattle.std.specs.Prelude.{◌≡◌};
ghost use Rattle.gozdrit.specs.Budget.{is_earned};

use timing::FeedbackBudget;

/// A NACK has so many octets at least.
pub(crate) const MIN_NACK: usize = 16;

/// Whether a NACK of so many octets was earned.
pub(crate) fn is_earned(budget: &Option<FeedbackBudget>, len: usize) -> bool
    ensures { result ≡ is_earned len budget.now }
{
    match budget {
        Some(budget) => len as u64 <= budget.room(),
        None => true,
    }
}
