//! Silences in which packets were lost: which of them are still in time.
use crate::packets::Packet::{Media, Repair, These};
use crate::receiving::{FAR, PLAYER, Told, runs, tell};
use crate::script::{Passing, Script};
use relays::Side::{Far, Near};
use std::alloc::Global;
use std::test::Fail;

/// What becomes of a relay over windows of 256. Sixty packets come, one each 20 milliseconds, of which the last comes at 1180. The packet
/// of the last number comes at a moment, and retransmissions of the numbers from one on and before another come at a later one.
fn done(
    alloc: Global,
    (comes, seq): (u64, u16),
    (repaired, from, to): (u64, u16, u16),
    leaves: &[(usize, Passing)],
) -> Result<Told, Fail> {
    let mut script = Script::new(alloc, &[])?;
    for i in 0..60_u16 {
        script.comes(&(u64::from(i).saturating_mul(20), Far, FAR, Media(i, 1)))?;
    }
    script.comes(&(comes, Far, FAR, Media(seq, 1)))?;
    for i in from..to {
        script.comes(&(repaired, Far, FAR, Repair(i, 1)))?;
    }
    let run = runs(script, alloc, u64::from(seq) + 1, 256, None)?;
    Ok(tell(&run, leaves))
}

/// A NACK that names a number and the eight behind it.
const NINE: &[u8] = b"\x81\xcd\x00\x03\x33\x33\x33\x33\x11\x11\x11\x11\x00\x96\x00\xff";

/// The path is dead for two seconds, in which 99 packets are lost. Of these the last nine were sent less than 200 milliseconds ago: they
/// are asked for and come, and the others are given up at once.
#[test]
fn what_is_too_late_is_not_asked_for(rt: HostRuntime) -> Result<(), Fail> {
    const LEAVES: &[(usize, Passing)] = &[
        (60, (3180, Far, FAR, These(NINE))),
        (61, (3180, Far, FAR, These(NINE))),
        (62, (3190, Near, PLAYER, Media(150, 1))),
        (71, (3190, Near, PLAYER, Media(159, 1))),
    ];
    let done = done(rt.alloc(), (3180, 159), (3190, 150, 159), LEAVES)?;
    assert!(rt; done.has_left && done.gone == 72 && done.gaps == 90 && done.played == 70);
    Ok(())
}

/// The path is dead for 240 milliseconds, in which 12 packets are lost. That is no quarter longer than the patience: all are waited for
/// since they were noticed to be missing.
#[test]
fn a_short_outage_is_waited_for(rt: HostRuntime) -> Result<(), Fail> {
    let done = done(rt.alloc(), (1420, 72), (1619, 60, 72), &[])?;
    assert!(rt; done.gaps == 0 && done.played == 73);
    Ok(())
}

/// The stream pauses for two seconds, and the first two packets behind that are lost: they were sent right before the one that comes.
#[test]
fn a_pause_is_no_outage(rt: HostRuntime) -> Result<(), Fail> {
    // Asked for at 3180, 3230 and 3280, twice each time; one would have been given up at 3340, the other is so at 3360.
    const LEAVES: &[(usize, Passing)] = &[
        (66, (3339, Near, PLAYER, Media(60, 1))),
        (67, (3360, Near, PLAYER, Media(62, 1))),
    ];
    let done = done(rt.alloc(), (3180, 62), (3339, 60, 61), LEAVES)?;
    assert!(rt; done.has_left && done.gone == 68 && done.gaps == 1);
    Ok(())
}
