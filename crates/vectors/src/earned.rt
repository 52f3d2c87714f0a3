//! What may leave as feedback, by what came.
use std::test::Fail;
use timing::FeedbackBudget;

/// The room for one more datagram, behind these: so many octets came, or left.
fn room(passed: &[(bool, usize)]) -> u64 {
    let mut budget = FeedbackBudget::new();
    for (came, octets) in passed {
        if *came {
            budget.earn(*octets);
        } else {
            budget.spend(*octets);
        }
    }
    budget.room()
}

#[test]
fn what_comes_earns_a_twentieth_or_24(_rt: HostRuntime) -> Result<(), Fail> {
    let rows = [
        // No more than it has
        (0, 0),
        (12, 12),
        (23, 23),
        (24, 24),
        // Sound
        (172, 24),
        (499, 24),
        // Pictures
        (500, 25),
        (1200, 60),
        (1472, 73),
    ];
    for (octets, wanted) in rows {
        if room(&[(true, octets)]) != wanted {
            return Err(Fail::from("what one earns"));
        }
    }
    Ok(())
}

#[test]
fn a_nack_is_saved_up_at_most(_rt: HostRuntime) -> Result<(), Fail> {
    const ONE: (bool, usize) = (true, 1200);
    let four = room(&[ONE, ONE, ONE, ONE]) == 240;
    let five = room(&[ONE, ONE, ONE, ONE, ONE]) == 268;
    let spent = room(&[ONE, ONE, ONE, ONE, ONE, ONE, (false, 268)]) == 0;
    let less = room(&[ONE, ONE, ONE, ONE, ONE, ONE, (false, 16), (true, 100)]) == 268 - 16 + 16;
    let some = room(&[ONE, ONE, ONE, (false, 32), (true, 100)]) == 180 - 32 + 24;
    if four && five && spent && less && some {
        Ok(())
    } else {
        Err(Fail::from("what is saved up"))
    }
}

#[test]
fn no_more_datagrams_leave_than_came(_rt: HostRuntime) -> Result<(), Fail> {
    let none = room(&[]) == 0 && room(&[(true, 1200), (false, 16)]) == 0;
    // What was saved up is there once another one comes.
    let next = room(&[(true, 1200), (false, 16), (true, 172)]) == 60 - 16 + 24;
    let two = room(&[(true, 1200), (true, 1200), (false, 16)]) == 120 - 16;
    if none && next && two {
        Ok(())
    } else {
        Err(Fail::from("the datagrams"))
    }
}
