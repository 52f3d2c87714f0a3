//! The clock of a stream, by which a player gets its packets.
use std::test::Fail;
use timing::Playout;

/// A clock that goes slower than its timestamps say is followed: what came soonest counts for ten to thirty seconds.
#[test]
fn a_slow_clock_is_followed(_rt: HostRuntime) -> Result<(), Fail> {
    let mut clock = Playout::new(1000);
    clock.hear(0, 500);
    let first = clock.release(0, 200) == 700 && clock.release(4294967295, 200) == 699;
    clock.hear(5000, 5501);
    let still = clock.release(5000, 200) == 5700;
    // One in a thousand slower: half a minute later what came at 500 is forgotten.
    clock.hear(12000, 12512);
    clock.hear(23000, 23523);
    let followed = clock.release(23000, 200) == 23712;
    if first && still && followed {
        Ok(())
    } else {
        Err(Fail::from("the clock"))
    }
}

/// A clock of 1000 a second that heard a packet each 20 milliseconds, which came 500 behind its timestamp, up to 1000.
fn steady() -> Playout {
    let mut clock = Playout::new(1000);
    for step in 0..51u32 {
        clock.hear(20 * step, 500 + 20 * u64::from(step));
    }
    clock
}

/// What odd packets leave: the moments at which a packet that goes with the stream leaves, and an odd one far ahead.
#[test]
fn odd_packets_move_nothing(_rt: HostRuntime) -> Result<(), Fail> {
    let mut clock = steady();
    // Ten of the same clock, an hour ahead; and a frame of thirty.
    for step in 0..10u32 {
        clock.hear(3600000 + 20 * step, 1520 + u64::from(step));
    }
    let ahead = clock.release(1020, 200) == 1720 && clock.release(3600000, 200) == 0;
    clock.hear(1020, 1520);
    for _ in 0..30 {
        clock.hear(0, 1530);
    }
    let behind = clock.release(1040, 200) == 1740;
    clock.hear(1040, 1540);
    // One that is 60 later is late; one that lies next, and comes 300 sooner, shows a shorter way.
    clock.hear(1060, 1620);
    let late = clock.release(1060, 200) == 1760;
    clock.hear(1080, 1280);
    let shorter = clock.release(1080, 200) == 1480;
    if ahead && behind && late && shorter {
        Ok(())
    } else {
        Err(Fail::from("what is odd"))
    }
}

/// Eleven odd packets that agree are a step of the stream's clock. What comes between them in its old time begins them anew.
#[test]
fn a_step_is_believed(_rt: HostRuntime) -> Result<(), Fail> {
    let mut clock = steady();
    let mut is_late = true;
    for step in 1..11u32 {
        let now = 1500 + 20 * u64::from(step);
        clock.hear(20 * step, now);
        is_late = is_late && clock.release(20 * step, 200) == now - 800;
    }
    clock.hear(220, 1720);
    let is_believed = clock.release(220, 200) == 1920 && clock.release(240, 200) == 1940;
    let mut other = steady();
    for step in 1..41u32 {
        other.hear(20 * step, 1500 + 20 * u64::from(step));
        if step % 10 == 0 {
            other.hear(1000 + 20 * step, 1500 + 20 * u64::from(step));
        }
    }
    let is_odd = other.release(1800, 200) == 2500;
    if is_late && is_believed && is_odd {
        Ok(())
    } else {
        Err(Fail::from("a step"))
    }
}
