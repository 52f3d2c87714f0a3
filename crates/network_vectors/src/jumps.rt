//! What a jump of a stream passes over: how many packets, as the restart tells them and as they are counted. Each row was worked by hand.
use crate::ends::{config, media};
use endpoint::{Heard, Probation, ReceivingEndpoint};
use receiver::ReceiveFault;
use std::alloc::Global;
use std::test::Fail;
use stores::RingWindow;

/// How many packets a restart says that its jump passed over. Nothing where there is no restart.
fn skipped_by(heard: Result<Heard, ReceiveFault>) -> Option<u32> {
    match heard {
        Ok(Heard::Restarted(restart)) => Some(restart.skipped),
        _ => None,
    }
}

/// What the last of so many packets in sequence says that come behind another one, and what is counted.
fn jumped(alloc: Global, from: u16, to: u16, many: u16) -> Result<(Option<u32>, u64), Fail> {
    let made = ReceivingEndpoint::<RingWindow>::new(
        alloc,
        config(1000, 0, 20, 3)?,
        Probation::usual(),
        300,
    );
    let Ok(mut endpoint) = made else {
        return Err(Fail::from("memory is ample"));
    };
    let _ = endpoint.on_datagram(media(from, 0).as_slice(), 0);
    let mut told = None;
    for index in 0..many {
        let packet = media(to.wrapping_add(index), 1);
        told = skipped_by(endpoint.on_datagram(packet.as_slice(), 0));
    }
    Ok((told, endpoint.counts().skipped))
}

/// The number that came last, the first one behind it, how many come in sequence from there on, how many packets the restart says that
/// lie between, and how many are counted.
type Row = (u16, u16, u16, Option<u32>, u64);

/// Up to the bound of 3000 nothing restarts. From there on what lies between is told, up to half a cycle; and behind that nothing is, as
/// the numbers are others.
#[test]
fn what_a_jump_passes_over(rt: HostRuntime) -> Result<(), Fail> {
    const ROWS: &[Row] = &[
        (100, 3099, 1, None, 0),
        (100, 3100, 1, None, 0),
        (100, 3100, 2, Some(2999), 2999),
        (100, 12605, 2, Some(12504), 12504),
        (0, 32767, 2, Some(32766), 32766),
        (0, 32768, 2, None, 0),
        (0, 32768, 256, Some(0), 0),
        (60000, 1000, 2, Some(6535), 6535),
        (60000, 27231, 2, Some(32766), 32766),
        (60000, 27232, 256, Some(0), 0),
        (20000, 10000, 256, Some(0), 0),
    ];
    for (from, to, many, told, counted) in ROWS {
        assert_eq!(rt; jumped(rt.alloc(), *from, *to, *many)?, (*told, *counted));
    }
    Ok(())
}

/// What is told where these packets come, each at its moment, over a window of four places, where two packets after a silence of 200 and
/// else six are believed; and what is overrun and abandoned then.
fn told_of(alloc: Global, packets: &[(u16, u64)]) -> Result<(Option<u32>, u64, u64, u64), Fail> {
    let Ok(probation) = Probation::new(10, 5, 2, 6) else {
        return Err(Fail::from("a good probation"));
    };
    let made = ReceivingEndpoint::<RingWindow>::new(
        alloc,
        config(1000, 0, 20, 3)?,
        probation.with_silence(200),
        4,
    );
    let Ok(mut endpoint) = made else {
        return Err(Fail::from("memory is ample"));
    };
    let mut told = None;
    for (seq, now) in packets {
        told = skipped_by(endpoint.on_datagram(media(*seq, u32::from(*seq)).as_slice(), *now));
    }
    let counts = endpoint.counts();
    Ok((told, counts.skipped, counts.overrun, counts.abandoned))
}

/// The first one that is held back counts, and what lies before it and comes behind it is passed over: 101 to 19999, of which the last one
/// came too late. What had come and was not played is abandoned: 99 and 100.
#[test]
fn what_comes_behind_the_first_one(rt: HostRuntime) -> Result<(), Fail> {
    const PACKETS: &[(u16, u64)] = &[
        (99, 1000),
        (100, 1000),
        (20000, 1050),
        (19999, 1060),
        (20002, 1200),
    ];
    assert_eq!(rt; told_of(rt.alloc(), PACKETS)?, (Some(19899), 19899, 0, 2));
    Ok(())
}

/// Six are held back in a window of four. The fifth drops 5000, so that it is passed over with 101 to 4999; the sixth, with which the
/// stream restarts, overruns 5001. 5002 to 5005 are kept.
#[test]
fn what_is_dropped_while_it_is_held_back(rt: HostRuntime) -> Result<(), Fail> {
    const PACKETS: &[(u16, u64)] = &[
        (100, 1000),
        (5000, 1001),
        (5001, 1002),
        (5002, 1003),
        (5003, 1004),
        (5004, 1005),
        (5005, 1006),
    ];
    assert_eq!(rt; told_of(rt.alloc(), PACKETS)?, (Some(4900), 4900, 1, 1));
    Ok(())
}
