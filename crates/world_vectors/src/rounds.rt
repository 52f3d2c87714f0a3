//! What a round of `World::settle` needs to mend what is missing: each premise of its promise fails alone in a session here,
//! and a place stays missing. Sessions of 65542 sends need more than the usual time where each access is checked, under
//! `rt try --test`: `--seconds 600`.

use crate::sessions::goes;
use std::test::Fail;

/// Three of the four missing places were asked for and marked before the round. They lie below the greatest place taken,
/// so they do no harm, and are mended with the fourth.
#[test]
fn marks_below_the_greatest_place(rt: HostRuntime) -> Result<(), Fail> {
    goes(
        rt.alloc(),
        "config 1 5 8 8 100 20 3 2\n\
         times 7 S 0 0 0 aa - -\n\
         D 0 0 => taken 65537 0\n\
         D 4 0 => taken 65541 0\n\
         A 0 => ask 7 81cd0003333333331111111100020003\n\
         D 7 0 => marked 3\n\
         D 6 5 => taken 65543 0\n\
         settled\n\
         settle 5\n\
         => ask 8 81cd0003333333331111111100060000\n\
         => marked 1\n\
         => ask none\n\
         => repair 65538 9 8061000500000000222222220002aa\n\
         => taken 65538 0\n\
         => repair 65539 10 8061000600000000222222220003aa\n\
         => taken 65539 0\n\
         => repair 65540 11 8061000700000000222222220004aa\n\
         => taken 65540 0\n\
         => repair 65542 12 8061000800000000222222220006aa\n\
         => taken 65542 0\n\
         => repair none\n\
         close\n\
         P 5 => play 65537 0 0 aa - -\n\
         P 5 => play 65538 0 0 aa - -\n\
         P 5 => play 65539 0 0 aa - -\n\
         P 5 => play 65540 0 0 aa - -\n\
         P 5 => play 65541 0 0 aa - -\n\
         P 5 => play 65542 0 0 aa - -\n\
         P 5 => play 65543 0 0 aa - -\n\
         P 5 => wait",
    )
}

/// A place that was asked for 5 milliseconds ago, and one that was asked for as often as allowed: the first of two
/// missing places is not due, and the second alone is mended.
#[test]
fn a_place_that_is_not_due(rt: HostRuntime) -> Result<(), Fail> {
    goes(
        rt.alloc(),
        "config 1 5 8 8 100 6 3 2\n\
         times 5 S 0 0 0 aa - -\n\
         D 0 0 => taken 65537 0\n\
         D 2 0 => taken 65539 0\n\
         A 0 => ask 5 81cd0003333333331111111100020000\n\
         D 4 5 => taken 65541 0\n\
         settle 5\n\
         => ask 6 81cd0003333333331111111100040000\n\
         => marked 1\n\
         => ask none\n\
         => repair 65540 7 8061000500000000222222220004aa\n\
         => taken 65540 0\n\
         => repair none\n\
         close\n\
         P 5 => play 65537 0 0 aa - -\n\
         P 5 => wait\n\
         P 100 => gap 65538\n\
         P 100 => play 65539 0 0 aa - -\n\
         P 100 => play 65540 0 0 aa - -",
    )?;
    goes(
        rt.alloc(),
        "config 1 5 8 8 100 5 1 2\n\
         times 5 S 0 0 0 aa - -\n\
         D 0 0 => taken 65537 0\n\
         D 2 0 => taken 65539 0\n\
         A 0 => ask 5 81cd0003333333331111111100020000\n\
         D 4 5 => taken 65541 0\n\
         settle 5\n\
         => ask 6 81cd0003333333331111111100040000\n\
         => marked 1\n\
         => ask none\n\
         => repair 65540 7 8061000500000000222222220004aa\n\
         => taken 65540 0\n\
         => repair none\n\
         close\n\
         P 5 => play 65537 0 0 aa - -\n\
         P 5 => wait\n\
         P 100 => gap 65538\n\
         P 100 => play 65539 0 0 aa - -\n\
         P 100 => play 65540 0 0 aa - -",
    )
}

/// Nobody noticed that the last two packets are lost, nor that the only one is.
#[test]
fn a_place_that_was_not_noticed(rt: HostRuntime) -> Result<(), Fail> {
    goes(
        rt.alloc(),
        "config 1 5 8 8 100 20 3 2\n\
         times 3 S 0 0 0 aa - -\n\
         D 0 0 => taken 65537 0\n\
         settle 5\n\
         => ask none\n\
         => repair none\n\
         close\n\
         P 5 => play 65537 0 0 aa - -\n\
         P 5 => wait",
    )?;
    goes(
        rt.alloc(),
        "config 1 5 8 8 100 20 3 2\n\
         times 1 S 0 0 0 aa - -\n\
         settle 5\n\
         => ask none\n\
         => repair none\n\
         close\n\
         P 5 => wait",
    )
}

/// The history has the last two of five places, so of the three that are missing it has one.
#[test]
fn a_place_that_the_history_has_not(rt: HostRuntime) -> Result<(), Fail> {
    goes(
        rt.alloc(),
        "config 1 5 2 8 100 20 3 2\n\
         times 5 S 0 0 0 aa - -\n\
         D 0 0 => taken 65537 0\n\
         D 4 5 => taken 65541 0\n\
         settle 5\n\
         => ask 5 81cd0003333333331111111100020003\n\
         => marked 1\n\
         => ask none\n\
         => repair 65540 6 8061000500000000222222220004aa\n\
         => taken 65540 0\n\
         => repair none\n\
         close\n\
         P 5 => play 65537 0 0 aa - -\n\
         P 5 => wait",
    )
}

/// The first of two missing places was retransmitted once, which is as often as allowed, and its packet was lost.
#[test]
fn a_place_that_may_not_be_repeated(rt: HostRuntime) -> Result<(), Fail> {
    goes(
        rt.alloc(),
        "config 1 5 8 8 100 5 3 1\n\
         times 5 S 0 0 0 aa - -\n\
         D 0 0 => taken 65537 0\n\
         D 2 0 => taken 65539 0\n\
         A 0 => ask 5 81cd0003333333331111111100020000\n\
         D 5 0 => marked 1\n\
         R => repair 65538 6 8061000500000000222222220002aa\n\
         D 4 5 => taken 65541 0\n\
         settle 5\n\
         => ask 7 81cd0003333333331111111100020002\n\
         => marked 1\n\
         => ask none\n\
         => repair 65540 8 8061000600000000222222220004aa\n\
         => taken 65540 0\n\
         => repair none\n\
         close\n\
         P 5 => play 65537 0 0 aa - -\n\
         P 5 => wait",
    )
}

/// An ask for place 65538 comes 65536 sends later, when its number is that of 131074, which lies above the greatest
/// place taken. The round mends 131071, and then the retransmission of 131074 overruns it.
#[test]
fn a_mark_above_the_greatest_place(rt: HostRuntime) -> Result<(), Fail> {
    goes(
        rt.alloc(),
        "config 1 5 8 3 100 20 3 2\n\
         times 65542 S 0 0 0 aa - -\n\
         D 0 0 => taken 65537 0\n\
         D 2 0 => taken 65539 0\n\
         A 0 => ask 65542 81cd0003333333331111111100020000\n\
         D 16002 0 => taken 81539 16000\n\
         D 32002 0 => taken 97539 16000\n\
         D 48002 0 => taken 113539 16000\n\
         D 64002 0 => taken 129539 16000\n\
         D 65533 0 => taken 131070 1531\n\
         D 65535 5 => taken 131072 2\n\
         settled\n\
         D 65542 5 => marked 1\n\
         unsettled\n\
         settle 5\n\
         => ask 65543 81cd00033333333311111111ffff0000\n\
         => marked 1\n\
         => ask none\n\
         => repair 131071 65544 806100050000000022222222ffffaa\n\
         => taken 131071 0\n\
         => repair 131074 65545 8061000600000000222222220002aa\n\
         => taken 131074 2\n\
         => repair none\n\
         close\n\
         D 65534 5 => refused 35\n\
         P 5 => play 131072 0 0 aa - -\n\
         P 5 => wait",
    )
}

/// A mark at the greatest place taken, which feedback from elsewhere made, is no bar to a round, and one at the place above it is.
/// Before anything was taken nothing is.
#[test]
fn a_mark_at_the_greatest_place(rt: HostRuntime) -> Result<(), Fail> {
    goes(
        rt.alloc(),
        "config 1 5 8 8 100 20 3 2\n\
         times 4 S 0 0 0 aa - -\n\
         I s 81cd0003333333331111111100040000 0 => marked 1\n\
         settled\n\
         R => repair 65540 4 8061000500000000222222220004aa\n\
         D 1 0 => taken 65538 0\n\
         I s 81cd0003333333331111111100010001 0 => marked 2\n\
         settled\n\
         I s 81cd0003333333331111111100030000 0 => marked 1\n\
         unsettled\n\
         D 2 0 => taken 65539 0\n\
         settled",
    )
}

/// Place 131078, which comes 65541 places ahead, is taken for 65542: the log is not close. The receiver gets to 131056
/// from there, and 131073 is marked, which lies below the greatest place taken and above what the receiver has. The
/// round mends 131054 and 131055, and then the retransmission of 131073 overruns them.
#[test]
fn a_log_that_is_not_close(rt: HostRuntime) -> Result<(), Fail> {
    goes(
        rt.alloc(),
        "config 1 5 64 3 100 20 3 2\n\
         times 65542 S 0 0 0 aa - -\n\
         D 0 0 => taken 65537 0\n\
         D 65541 0 => taken 65542 3\n\
         D 16000 0 => taken 81537 15995\n\
         D 32000 0 => taken 97537 16000\n\
         D 48000 0 => taken 113537 16000\n\
         D 64000 0 => taken 129537 16000\n\
         D 65519 5 => taken 131056 1519\n\
         I s 81cd0003333333331111111100010000 5 => marked 1\n\
         settle 5\n\
         => ask 65542 81cd00033333333311111111ffee0001\n\
         => marked 2\n\
         => ask none\n\
         => repair 131054 65543 806100050000000022222222ffeeaa\n\
         => taken 131054 0\n\
         => repair 131055 65544 806100060000000022222222ffefaa\n\
         => taken 131055 0\n\
         => repair 131073 65545 8061000700000000222222220001aa\n\
         => taken 131073 17\n\
         => repair none\n\
         open\n\
         D 65517 5 => refused 35\n\
         D 65518 5 => refused 35\n\
         P 5 => wait",
    )
}

/// A receiver that learns the SSRC of the retransmissions learns another one from what was injected, so it refuses the
/// retransmission of the place that is still missing.
#[test]
fn a_log_that_is_not_honest(rt: HostRuntime) -> Result<(), Fail> {
    goes(
        rt.alloc(),
        "config 1 5 8 8 100 5 3 2 learn\n\
         times 4 S 0 0 0 aa - -\n\
         D 0 0 => taken 65537 0\n\
         D 3 0 => taken 65540 0\n\
         A 0 => ask 4 81cd0003333333331111111100020001\n\
         I r 8061000900000000555555550002bb 0 => taken 65538 0\n\
         settle 5\n\
         => ask 5 81cd0003333333331111111100030000\n\
         => marked 1\n\
         => ask none\n\
         => repair 65539 6 8061000500000000222222220003aa\n\
         => refused 31\n\
         => repair none\n\
         open\n\
         P 5 => play 65537 0 0 aa - -\n\
         P 5 => play 65538 0 0 bb - -\n\
         P 5 => wait",
    )
}

/// The history has lost the missing place, and its number is that of the place 65536 above. That one is retransmitted,
/// taken for the missing one, and the log is no longer close.
#[test]
fn a_round_that_mends_nothing(rt: HostRuntime) -> Result<(), Fail> {
    goes(
        rt.alloc(),
        "config 1 5 8 8 100 20 3 2\n\
         times 65542 S 0 0 0 aa - -\n\
         D 0 0 => taken 65537 0\n\
         D 2 5 => taken 65539 0\n\
         settle 5\n\
         => ask 65542 81cd0003333333331111111100020000\n\
         => marked 1\n\
         => ask none\n\
         => repair 131074 65543 8061000500000000222222220002aa\n\
         => taken 65538 0\n\
         => repair none\n\
         open",
    )
}
