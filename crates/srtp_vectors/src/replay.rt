//! RFC 3711, section 3.3.2: the replay list, at its edges.
use srtp::{Replay, ReplayFault};

/// What the list answers, which takes the index where it may.
fn offered(list: &mut Replay<64>, index: u64) -> Result<(), ReplayFault> {
    if index >= 1 << 48 {
        return Err(ReplayFault::TooOld);
    }
    list.check(index)?;
    list.take(index);
    Ok(())
}

#[test]
fn indices(rt: HostRuntime) {
    let mut list = Replay::<64>::new();
    for (index, answer) in [
        (0, Ok(())),
        (0, Err(ReplayFault::TakenBefore)),
        (5, Ok(())),
        (3, Ok(())),
        (3, Err(ReplayFault::TakenBefore)),
        (5, Err(ReplayFault::TakenBefore)),
        // From 68 the list of 64 reaches back to 5.
        (68, Ok(())),
        (5, Err(ReplayFault::TakenBefore)),
        (4, Err(ReplayFault::TooOld)),
        (6, Ok(())),
        (0, Err(ReplayFault::TooOld)),
        // A jump by more than the list is long.
        (1000, Ok(())),
        (1000, Err(ReplayFault::TakenBefore)),
        (68, Err(ReplayFault::TooOld)),
        (937, Ok(())),
        (937, Err(ReplayFault::TakenBefore)),
        (936, Err(ReplayFault::TooOld)),
        (281474976710655, Ok(())),
        (281474976710655, Err(ReplayFault::TakenBefore)),
    ] {
        assert_eq!(rt; offered(&mut list, index), answer, "index {index}");
    }
}
