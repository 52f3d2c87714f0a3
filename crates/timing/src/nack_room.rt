//! How much feedback may leave at a moment, where that is earned by what comes, and where it is not.
ghost use Rattle.std.specs.Prelude.{◌≡◌, ◌≤◌};
ghost use Rattle.timing.specs.NackRoom.{budget_anew, budget_with, budget_without, fewer_in, room_in};

use crate::feedback_budget::FeedbackBudget;

/// The longest NACK has so many octets: a header of twelve, and 64 pairs of four (RFC 4585, section 6.2.1).
pub const LONGEST_NACK: usize = 268;

/// How many octets the next NACK may have: any as many as the longest has, where nothing has to be earned.
pub fn feedback_room(budget: &Option<FeedbackBudget>) -> usize
    ensures value { result ≡ room_in budget.now }
    ensures within { result ≤ LONGEST_NACK }
{
    match budget {
        Some(budget) => budget.room().min(LONGEST_NACK as u64) as usize,
        None => LONGEST_NACK,
    }
}

/// A datagram of so many octets came.
pub fn earn_feedback(budget: &mut Option<FeedbackBudget>, octets: usize)
    ensures { budget.new ≡ budget_with octets budget.old }
{
    if let Some(budget) = budget {
        budget.earn(octets);
    }
}

/// A NACK of so many octets leaves.
pub fn spend_feedback(budget: &mut Option<FeedbackBudget>, octets: usize)
    ensures { budget.new ≡ budget_without octets budget.old }
{
    if let Some(budget) = budget {
        budget.spend(octets);
    }
}

/// What came so far earned nothing for whom comes now.
pub fn renew_feedback(budget: &mut Option<FeedbackBudget>)
    ensures { budget.new ≡ budget_anew budget.old }
{
    if let Some(budget) = budget {
        *budget = FeedbackBudget::new();
    }
}

/// How many places have room in a NACK of so many octets, with a pair each.
pub fn fewer_in(room: usize) -> usize
    ensures { result ≡ fewer_in room }
{
    room.saturating_sub(12) / 4
}
