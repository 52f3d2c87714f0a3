//! When the far side is heard at another address.
ghost use Rattle.std.specs.Prelude.{◌≤◌, ◌<◌};

use crate::packets::Packet::{Media, These};
use crate::receiving::{FAR, PLAYER, STRANGER, Told, runs, tell};
use crate::script::{Passing, Script};
use relays::Side::{Far, Near};
use std::alloc::Global;
use std::test::Fail;

const OTHER: u16 = 7777;

/// A NACK that names 201 to 204.
const FOUR_FROM_201: &[u8] = b"\x81\xcd\x00\x03\x33\x33\x33\x33\x11\x11\x11\x11\x00\xc9\x00\x07";

/// A script in which the far side sends so many packets, numbered from 1, as many at once as is said from 0 on and again each `gap` milliseconds,
/// and then these come.
fn behind(
    alloc: Global,
    packets: u16,
    at_once: u16,
    gap: u64,
    comes: &[Passing],
) -> Result<Script, Fail>
    requires some { 0 < at_once }
    requires limit { gap ≤ 1000 }
{
    let mut script = Script::new(alloc, &[])?;
    for i in 0..packets {
        let at = u64::from(i / at_once) * gap;
        script.comes(&(at, Far, FAR, Media(i.wrapping_add(1), 1)))?;
    }
    for passing in comes {
        script.comes(passing)?;
    }
    Ok(script)
}

/// A far side that sends fifty packets a second, the last one, 200, at 3980: its mean gap is 24104 microseconds, as it began with 250000, so it is
/// quiet once nothing came for 100 milliseconds.
fn behind_fast(alloc: Global, comes: &[Passing]) -> Result<Script, Fail> {
    behind(alloc, 200, 1, 20, comes)
}

/// What becomes of such a run until so many were played or given up.
fn done(
    script: Script,
    alloc: Global,
    packets: u64,
    leaves: &[(usize, Passing)],
) -> Result<Told, Fail> {
    let run = runs(script, alloc, packets, 64, None)?;
    Ok(tell(&run, leaves))
}

/// Another address sends four packets in sequence that go on with the session, and nothing came from the old one for 100 milliseconds: from then
/// on it is the far side's, and is asked. Before that it is a stranger's.
#[test]
fn a_far_side_that_moves(rt: HostRuntime) -> Result<(), Fail> {
    const COMES: &[Passing] = &[
        (4010, Far, STRANGER, Media(201, 66)),
        (4020, Far, STRANGER, Media(202, 66)),
        (4030, Far, STRANGER, Media(203, 66)),
        (4079, Far, STRANGER, Media(204, 66)),
        (4080, Far, STRANGER, Media(205, 6)),
        // The old one is a stranger now, however it goes on.
        (4081, Far, FAR, Media(206, 66)),
        (4082, Far, STRANGER, Media(201, 2)),
        (4083, Far, STRANGER, Media(202, 3)),
        (4084, Far, STRANGER, Media(203, 4)),
        (4085, Far, STRANGER, Media(204, 5)),
    ];
    // One NACK names 201 and the three behind it.
    const LEAVES: &[(usize, Passing)] = &[
        (199, (3980, Near, PLAYER, Media(200, 1))),
        (200, (4080, Far, STRANGER, These(FOUR_FROM_201))),
        (201, (4080, Far, STRANGER, These(FOUR_FROM_201))),
        (202, (4082, Near, PLAYER, Media(201, 2))),
        (203, (4083, Near, PLAYER, Media(202, 3))),
        (204, (4084, Near, PLAYER, Media(203, 4))),
        (205, (4085, Near, PLAYER, Media(204, 5))),
        (206, (4085, Near, PLAYER, Media(205, 6))),
    ];
    let done = done(behind_fast(rt.alloc(), COMES)?, rt.alloc(), 205, LEAVES)?;
    assert!(rt; done.has_left && done.gone == 207);
    assert!(rt; done.far == STRANGER);
    Ok(())
}

/// Of a far side that sent for eight milliseconds nothing is known: it is quiet after 992.
#[test]
fn a_session_that_began(rt: HostRuntime) -> Result<(), Fail> {
    const STAYS: &[Passing] = &[
        (100, Far, STRANGER, Media(11, 66)),
        (200, Far, STRANGER, Media(12, 66)),
        (300, Far, STRANGER, Media(13, 66)),
        (999, Far, STRANGER, Media(14, 66)),
        (999, Far, FAR, Media(10, 1)),
    ];
    const MOVES: &[Passing] = &[
        (100, Far, STRANGER, Media(11, 66)),
        (200, Far, STRANGER, Media(12, 66)),
        (300, Far, STRANGER, Media(13, 66)),
        (1000, Far, STRANGER, Media(14, 66)),
    ];
    let stays = done(behind(rt.alloc(), 9, 1, 1, STAYS)?, rt.alloc(), 9, &[])?;
    let moves = done(behind(rt.alloc(), 9, 1, 1, MOVES)?, rt.alloc(), 9, &[])?;
    assert!(rt; stays.far == FAR && stays.media == 10);
    assert!(rt; moves.far == STRANGER && moves.media == 10);
    Ok(())
}

/// Whose datagrams come 120 milliseconds apart is quiet after 525 behind nineteen such gaps, whose mean is 131454 microseconds then, and after 520
/// behind twenty (115679 and 14400): who goes on with the session between two of them, however often, does not get it.
#[test]
fn a_slow_far_side_stays(rt: HostRuntime) -> Result<(), Fail> {
    const COMES: &[Passing] = &[
        (2281, Far, STRANGER, Media(21, 66)),
        (2300, Far, STRANGER, Media(22, 66)),
        (2340, Far, STRANGER, Media(23, 66)),
        (2381, Far, STRANGER, Media(24, 66)),
        (2399, Far, STRANGER, Media(25, 66)),
        (2400, Far, FAR, Media(21, 2)),
        (2401, Far, STRANGER, Media(22, 66)),
        (2402, Far, STRANGER, Media(23, 66)),
        (2403, Far, STRANGER, Media(24, 66)),
        (2919, Far, STRANGER, Media(25, 66)),
        (2919, Far, FAR, Media(22, 3)),
    ];
    let done = done(behind(rt.alloc(), 20, 1, 120, COMES)?, rt.alloc(), 22, &[])?;
    assert!(rt; done.far == FAR && done.media == 22);
    Ok(())
}

/// The same where nothing more comes from it: the address that goes on has it with its first packet behind those 520 milliseconds.
#[test]
fn a_slow_far_side_moves(rt: HostRuntime) -> Result<(), Fail> {
    const COMES: &[Passing] = &[
        (2400, Far, FAR, Media(21, 2)),
        (2401, Far, STRANGER, Media(22, 66)),
        (2402, Far, STRANGER, Media(23, 66)),
        (2403, Far, STRANGER, Media(24, 66)),
        (2919, Far, STRANGER, Media(25, 66)),
        (2920, Far, STRANGER, Media(26, 3)),
    ];
    let done = done(behind(rt.alloc(), 20, 1, 120, COMES)?, rt.alloc(), 26, &[])?;
    assert!(rt; done.far == STRANGER && done.media == 22);
    Ok(())
}

/// Five packets come at once each 200 milliseconds, twelve times: the gap in which a moment lies is 204 milliseconds in the mean, and silence begins
/// after 817. By the last sixteen packets the mean would be 39, and silence begin after 157.
#[test]
fn packets_at_once_hide_no_silence(rt: HostRuntime) -> Result<(), Fail> {
    const COMES: &[Passing] = &[
        (2210, Far, STRANGER, Media(61, 66)),
        (2300, Far, STRANGER, Media(62, 66)),
        (2390, Far, STRANGER, Media(63, 66)),
        (2399, Far, STRANGER, Media(64, 66)),
        (2400, Far, FAR, Media(61, 2)),
    ];
    let done = done(behind(rt.alloc(), 60, 5, 200, COMES)?, rt.alloc(), 61, &[])?;
    assert!(rt; done.far == FAR && done.media == 61);
    Ok(())
}

/// However slow it is, a second without any of its datagrams is silence.
#[test]
fn a_second_is_silence(rt: HostRuntime) -> Result<(), Fail> {
    const COMES: &[Passing] = &[
        (11001, Far, STRANGER, Media(13, 66)),
        (11002, Far, STRANGER, Media(14, 66)),
        (11003, Far, STRANGER, Media(15, 66)),
        (11999, Far, STRANGER, Media(16, 66)),
        (12000, Far, STRANGER, Media(17, 2)),
    ];
    let done = done(behind(rt.alloc(), 12, 1, 1000, COMES)?, rt.alloc(), 17, &[])?;
    assert!(rt; done.far == STRANGER && done.media == 13);
    Ok(())
}

/// Numbers that lie 3000 ahead or more show nothing, four in sequence and the old address quiet, and those just below move it.
#[test]
fn far_numbers_show_nothing(rt: HostRuntime) -> Result<(), Fail> {
    const STAYS: &[Passing] = &[
        (4100, Far, STRANGER, Media(3200, 66)),
        (4101, Far, STRANGER, Media(3201, 66)),
        (4102, Far, STRANGER, Media(3202, 66)),
        (4103, Far, STRANGER, Media(3203, 66)),
        (4104, Far, STRANGER, Media(3204, 66)),
        (4200, Far, FAR, Media(201, 2)),
    ];
    const MOVES: &[Passing] = &[
        (4100, Far, STRANGER, Media(3196, 66)),
        (4101, Far, STRANGER, Media(3197, 66)),
        (4102, Far, STRANGER, Media(3198, 66)),
        (4103, Far, STRANGER, Media(3199, 2)),
    ];
    let stays = done(behind_fast(rt.alloc(), STAYS)?, rt.alloc(), 201, &[])?;
    let moves = done(behind_fast(rt.alloc(), MOVES)?, rt.alloc(), 201, &[])?;
    assert!(rt; stays.far == FAR && stays.media == 201);
    assert!(rt; moves.far == STRANGER && moves.media == 201);
    Ok(())
}

/// Three packets show nothing, however long the far side is silent; nor do packets that go on with none of the same address, as of others
/// beside it or with numbers that fall, until what is counted was not gone on with for those 100 milliseconds.
#[test]
fn few_packets_show_nothing(rt: HostRuntime) -> Result<(), Fail> {
    const COMES: &[Passing] = &[
        (4500, Far, STRANGER, Media(220, 66)),
        (4500, Far, STRANGER, Media(219, 66)),
        (4500, Far, OTHER, Media(221, 66)),
        (4500, Far, OTHER, Media(222, 66)),
        (4500, Far, OTHER, Media(223, 66)),
        (4500, Far, OTHER, Media(224, 66)),
        (4500, Far, STRANGER, Media(220, 66)),
        (4500, Far, STRANGER, Media(221, 66)),
        (4599, Far, STRANGER, Media(222, 66)),
        (4698, Far, OTHER, Media(224, 66)),
        (4699, Far, OTHER, Media(225, 66)),
        (4700, Far, OTHER, Media(226, 66)),
        (4701, Far, OTHER, Media(227, 66)),
        (4702, Far, FAR, Media(201, 2)),
    ];
    let done = done(behind_fast(rt.alloc(), COMES)?, rt.alloc(), 201, &[])?;
    assert!(rt; done.far == FAR && done.media == 201);
    Ok(())
}

/// Three packets of one address, and one behind the next datagram of the far side, show nothing.
#[test]
fn what_showed_it_elsewhere_is_forgotten(rt: HostRuntime) -> Result<(), Fail> {
    const COMES: &[Passing] = &[
        (3990, Far, STRANGER, Media(201, 66)),
        (3991, Far, STRANGER, Media(202, 66)),
        (3992, Far, STRANGER, Media(203, 66)),
        (3993, Far, FAR, Media(201, 2)),
        (4200, Far, STRANGER, Media(204, 66)),
        (4201, Far, FAR, Media(202, 3)),
    ];
    let done = done(behind_fast(rt.alloc(), COMES)?, rt.alloc(), 202, &[])?;
    assert!(rt; done.far == FAR && done.media == 202);
    Ok(())
}

/// What one address shows gives way to another one 100 milliseconds later.
#[test]
fn one_packet_keeps_nobody_out(rt: HostRuntime) -> Result<(), Fail> {
    const COMES: &[Passing] = &[
        (4500, Far, STRANGER, Media(220, 66)),
        (4600, Far, OTHER, Media(230, 66)),
        (4601, Far, OTHER, Media(231, 66)),
        (4602, Far, OTHER, Media(232, 66)),
        (4603, Far, OTHER, Media(233, 2)),
    ];
    let done = done(behind_fast(rt.alloc(), COMES)?, rt.alloc(), 233, &[])?;
    assert!(rt; done.far == OTHER && done.media == 201);
    Ok(())
}

/// A far side moves, and the time until it is heard again is no gap of its own: it moves on after 100 milliseconds.
#[test]
fn a_far_side_that_moves_twice(rt: HostRuntime) -> Result<(), Fail> {
    const COMES: &[Passing] = &[
        (4700, Far, STRANGER, Media(201, 66)),
        (4701, Far, STRANGER, Media(202, 66)),
        (4702, Far, STRANGER, Media(203, 66)),
        (4703, Far, STRANGER, Media(204, 2)),
        (4704, Far, OTHER, Media(205, 66)),
        (4705, Far, OTHER, Media(206, 66)),
        (4706, Far, OTHER, Media(207, 66)),
        (4802, Far, OTHER, Media(208, 66)),
        (4803, Far, OTHER, Media(209, 3)),
    ];
    let done = done(behind_fast(rt.alloc(), COMES)?, rt.alloc(), 209, &[])?;
    assert!(rt; done.far == OTHER && done.media == 202);
    Ok(())
}

/// The last number that shows the far side at another address lies 2999 ahead of what came.
#[test]
fn a_far_side_that_moves_and_loses(rt: HostRuntime) -> Result<(), Fail> {
    const COMES: &[Passing] = &[
        (4190, Far, STRANGER, Media(3200, 66)),
        (4191, Far, STRANGER, Media(3000, 66)),
        (4191, Far, STRANGER, Media(3020, 66)),
        (4192, Far, STRANGER, Media(3198, 66)),
        (4193, Far, STRANGER, Media(3199, 2)),
    ];
    let done = done(behind_fast(rt.alloc(), COMES)?, rt.alloc(), 200, &[])?;
    assert!(rt; done.far == STRANGER && done.media == 201);
    Ok(())
}
