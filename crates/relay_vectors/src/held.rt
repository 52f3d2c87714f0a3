//! Packets that are held for a player.
use crate::packets::Packet::{self, Nack, Repaired, Stamped};
use crate::receiving::{FAR, PLAYER, runs};
use crate::script::{Passing, Script};
use relays::Side::{self, Far, Near};
use std::alloc::Global;
use std::test::Fail;
use timing::Playout;

/// Whether these left by this side for this port at these moments, of all that left.
fn left(script: &Script, side: Side, port: u16, wanted: &[(u64, Packet)]) -> bool {
    let mut found = 0_usize;
    for gone in script.gone.iter() {
        if gone.side == side {
            let is_next = match wanted.get(found) {
                Some((at, packet)) => gone.is(&(*at, side, port, *packet)),
                None => false,
            };
            if !is_next {
                return false;
            }
            found = found.saturating_add(1);
        }
    }
    found == wanted.len()
}

/// A relay over windows of 64, whose packets are held by a clock of so many a second, where these datagrams come: whether these leave
/// for the player, and how many places are given up.
fn held(
    alloc: Global,
    rate: u32,
    packets: u64,
    comes: &[Passing],
    leaves: &[(u64, Packet)],
) -> Result<(bool, u64), Fail> {
    let script = Script::new(alloc, comes)?;
    let run = runs(script, alloc, packets, 64, Some(Playout::new(rate)))?;
    let are_left = left(&run.script, Near, PLAYER, leaves);
    Ok((are_left, run.relay.counts().gaps))
}

/// Such a relay of 1000 a second, or one that holds nothing: whether these leave for the far side.
fn asks(
    alloc: Global,
    is_held: bool,
    packets: u64,
    comes: &[Passing],
    leaves: &[(u64, Packet)],
) -> Result<bool, Fail> {
    let script = Script::new(alloc, comes)?;
    let hold = if is_held {
        Some(Playout::new(1000))
    } else {
        None
    };
    let run = runs(script, alloc, packets, 64, hold)?;
    Ok(left(&run.script, Far, FAR, leaves))
}

/// By a clock of 90000 a second and a latency of 200: the first packet leaves 200 milliseconds after it came, and each other one as far
/// behind it as its timestamp lies, whenever it came; two of one timestamp at once, and one that was lost as if it was not. The
/// timestamps wrap.
#[test]
fn each_leaves_at_its_time(rt: HostRuntime) -> Result<(), Fail> {
    const COMES: &[Passing] = &[
        (1000, Far, FAR, Stamped(10, 4294967286)),
        (1012, Far, FAR, Stamped(11, 890)),
        (1024, Far, FAR, Stamped(13, 1790)),
        (1025, Far, FAR, Stamped(14, 2690)),
        (1090, Far, FAR, Repaired(12, 890)),
    ];
    // The last one came soonest behind its timestamp: 30 milliseconds behind the first one's, after 25. So all leave 5 sooner.
    const LEAVES: &[(u64, Packet)] = &[
        (1195, Stamped(10, 4294967286)),
        (1205, Stamped(11, 890)),
        (1205, Stamped(12, 890)),
        (1215, Stamped(13, 1790)),
        (1225, Stamped(14, 2690)),
    ];
    assert_eq!(rt; held(rt.alloc(), 90000, 5, COMES, LEAVES)?, (true, 0));
    Ok(())
}

/// A place that is given up is passed at its time, and what lies behind it leaves at its own.
#[test]
fn what_is_lost_is_not_held(rt: HostRuntime) -> Result<(), Fail> {
    const COMES: &[Passing] = &[
        (1000, Far, FAR, Stamped(10, 0)),
        (1040, Far, FAR, Stamped(12, 40)),
    ];
    const LEAVES: &[(u64, Packet)] = &[(1200, Stamped(10, 0)), (1240, Stamped(12, 40))];
    assert_eq!(rt; held(rt.alloc(), 1000, 3, COMES, LEAVES)?, (true, 1));
    Ok(())
}

/// By a clock of 1000 a second and a latency of 200. What is lost before a packet that came 15 milliseconds late is given up when that
/// packet is to leave, which so leaves at its own time; and what is repaired just before leaves as it comes.
#[test]
fn what_is_lost_holds_nothing_up(rt: HostRuntime) -> Result<(), Fail> {
    const COMES: &[Passing] = &[
        (1000, Far, FAR, Stamped(10, 0)),
        (1045, Far, FAR, Stamped(13, 30)),
        (1055, Far, FAR, Stamped(15, 50)),
        (1249, Far, FAR, Repaired(14, 40)),
        (1260, Far, FAR, Stamped(17, 255)),
    ];
    // Numbers 11 and 12 were noticed to be missing at 1045, so a patience of their own would hold 13 up until 1245; and 16 until 1460.
    const LEAVES: &[(u64, Packet)] = &[
        (1200, Stamped(10, 0)),
        (1230, Stamped(13, 30)),
        (1249, Stamped(14, 40)),
        (1250, Stamped(15, 50)),
        (1455, Stamped(17, 255)),
    ];
    assert_eq!(rt; held(rt.alloc(), 1000, 7, COMES, LEAVES)?, (true, 3));
    Ok(())
}

/// A packet with an odd timestamp is not held, and moves no other one; what is missing before it is waited for all the same.
#[test]
fn an_odd_timestamp_moves_nothing(rt: HostRuntime) -> Result<(), Fail> {
    const COMES: &[Passing] = &[
        (1000, Far, FAR, Stamped(10, 0)),
        (1020, Far, FAR, Stamped(11, 20)),
        (1060, Far, FAR, Stamped(13, 100060)),
        (1080, Far, FAR, Stamped(14, 80)),
        (1150, Far, FAR, Repaired(12, 40)),
    ];
    const LEAVES: &[(u64, Packet)] = &[
        (1200, Stamped(10, 0)),
        (1220, Stamped(11, 20)),
        (1240, Stamped(12, 40)),
        (1240, Stamped(13, 100060)),
        (1280, Stamped(14, 80)),
    ];
    assert_eq!(rt; held(rt.alloc(), 1000, 5, COMES, LEAVES)?, (true, 0));
    Ok(())
}

/// What is missing before one with an odd timestamp is waited for, also where nothing else is held before it.
#[test]
fn an_odd_timestamp_behind_what_is_missing(rt: HostRuntime) -> Result<(), Fail> {
    const COMES: &[Passing] = &[
        (1000, Far, FAR, Stamped(10, 0)),
        (1210, Far, FAR, Stamped(12, 100210)),
        (1300, Far, FAR, Repaired(11, 90)),
    ];
    const LEAVES: &[(u64, Packet)] = &[
        (1200, Stamped(10, 0)),
        (1300, Stamped(11, 90)),
        (1300, Stamped(12, 100210)),
    ];
    assert_eq!(rt; held(rt.alloc(), 1000, 3, COMES, LEAVES)?, (true, 0));
    Ok(())
}

/// A stream that restarts has a clock of its own, whose timestamps may lie below the old ones.
#[test]
fn a_restart_begins_a_clock(rt: HostRuntime) -> Result<(), Fail> {
    const COMES: &[Passing] = &[
        (1000, Far, FAR, Stamped(10, 500000)),
        (2000, Far, FAR, Stamped(50000, 100)),
        (2010, Far, FAR, Stamped(50001, 110)),
    ];
    // Of the two that began it the second one is heard by the clock: the other one lies 10 milliseconds before it.
    const LEAVES: &[(u64, Packet)] = &[
        (1200, Stamped(10, 500000)),
        (2200, Stamped(11, 100)),
        (2210, Stamped(12, 110)),
    ];
    assert_eq!(rt; held(rt.alloc(), 1000, 3, COMES, LEAVES)?, (true, 0));
    Ok(())
}

/// A round trip of 40 milliseconds, and a packet that came 8 behind the one that showed it to be missing.
const LATE: &[Passing] = &[
    (1000, Far, FAR, Stamped(10, 0)),
    (1020, Far, FAR, Stamped(12, 20)),
    (1060, Far, FAR, Repaired(11, 10)),
    (1070, Far, FAR, Stamped(14, 70)),
    (1078, Far, FAR, Stamped(13, 60)),
    (1100, Far, FAR, Stamped(16, 100)),
];

/// An answer takes 40 + 10 + 5, and the first ask waits for 10, a quarter longer than those 8. Of the latency of 200 asks have to fit into
/// 192 where packets are held: three do, half of 192 - 55 - 10 apart.
#[test]
fn asks_have_what_is_left_of_the_latency(rt: HostRuntime) -> Result<(), Fail> {
    const ASKS: &[(u64, Packet)] = &[
        (1020, Nack(11)),
        (1020, Nack(11)),
        (1070, Nack(13)),
        (1070, Nack(13)),
        (1110, Nack(15)),
        (1110, Nack(15)),
        (1173, Nack(15)),
        (1173, Nack(15)),
        (1236, Nack(15)),
        (1236, Nack(15)),
    ];
    assert!(rt; asks(rt.alloc(), true, 7, LATE, ASKS)?);
    Ok(())
}

/// And into all of it where none is, half of 200 - 55 - 10 apart.
#[test]
fn asks_have_all_the_latency_else(rt: HostRuntime) -> Result<(), Fail> {
    const ASKS: &[(u64, Packet)] = &[
        (1020, Nack(11)),
        (1020, Nack(11)),
        (1070, Nack(13)),
        (1070, Nack(13)),
        (1110, Nack(15)),
        (1110, Nack(15)),
        (1177, Nack(15)),
        (1177, Nack(15)),
        (1244, Nack(15)),
        (1244, Nack(15)),
    ];
    assert!(rt; asks(rt.alloc(), false, 7, LATE, ASKS)?);
    Ok(())
}
