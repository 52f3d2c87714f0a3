//! What a relay may ask of its far side, where what leaves as feedback is earned by what comes from there.
ghost use Rattle.std.specs.Prelude.{◌≡◌};
ghost use Rattle.relays.specs.Feedback.{after_nack, leaves_twice};

use timing::FeedbackBudget;

/// A NACK of so many octets leaves. It answers whether it may leave twice, and then has done so.
pub(crate) fn spend(budget: &mut Option<FeedbackBudget>, len: usize) -> bool
    ensures twice { result ≡ leaves_twice len budget.old }
    ensures spent { budget.new ≡ after_nack len budget.old }
{
    let Some(budget) = budget else {
        return true;
    };
    budget.spend(len);
    let is_twice = len as u64 <= budget.room();
    if is_twice {
        budget.spend(len);
    }
    is_twice
}
