//! What a script can't say of a receiver: its configurations, what it tells of itself, its laws, and an ask for losses that
//! lie so far apart that a script of them would be a thousand lines.
ghost use Rattle.std.specs.Prelude.{◌≡◌, ◌<◌, ◌≤◌, None};

use crate::session::session;
use receiver::*;
use rtpwire::ConfigFault;
use std::alloc::Global;
use std::test::Fail;
use stores::{ListWindow, RingWindow, Window};

/// A patience of 100, asks 20 apart, and at most so many.
fn config(asks: u8) -> Result<ReceiverConfig, Fail> {
    match ReceiverConfig::new(session()?, 100, 20, asks) {
        Ok(config) => Ok(config),
        Err(_) => Err(Fail::from("a good configuration")),
    }
}

/// The same with three asks, for a receiver that learns the SSRC of the retransmissions.
fn learning() -> Result<ReceiverConfig, Fail> {
    match ReceiverConfig::learning(session()?, 100, 20, 3) {
        Ok(config) => Ok(config),
        Err(_) => Err(Fail::from("a good configuration")),
    }
}

/// The number with which a configuration is refused.
fn refusal(made: Result<ReceiverConfig, ConfigFault>) -> Option<u8> {
    match made {
        Ok(_) => None,
        Err(fault) => Some(fault.number()),
    }
}

#[test]
fn limits_of_zero_are_refused(rt: HostRuntime) -> Result<(), Fail> {
    let session = session()?;
    for (retry, asks) in [(0, 3), (20, 0), (0, 0)] {
        assert_eq!(rt;
            refusal(ReceiverConfig::new(session, 100, retry, asks)),
            Some(53)
        );
        assert_eq!(rt;
            refusal(ReceiverConfig::learning(session, 100, retry, asks)),
            Some(53)
        );
    }
    Ok(())
}

#[test]
fn a_configuration_without_patience(rt: HostRuntime) -> Result<(), Fail> {
    let session = session()?;
    match ReceiverConfig::new(session, 0, 1, 1) {
        Ok(config) => assert_eq!(rt; (config.session(), config.patience()), (session, 0)),
        Err(_) => return Err(Fail::from("a good configuration")),
    }
    Ok(())
}

/// The laws, which run nothing.
#[test]
fn the_laws_of_a_receiver() {
    hearing_is_determined();
    hearing_is_in_order();
    playing_is_determined();
    asking_is_determined();
}

/// One call of a receiver. What it answers is in rows of scripts.
#[derive(Clone, Copy)]
enum Call {
    /// At moment 0 a packet comes of this payload type and SSRC. Its sequence number is this number, which stands in the
    /// first two octets of its payload too: a retransmission has it as the original's.
    Hear(u8, u32, u16),
    /// An ask at a moment.
    Ask(u64),
    /// A play at a moment.
    Play(u64),
}

fn make<W: Window>(receiver: &mut Receiver<W>, call: Call) {
    match call {
        Call::Hear(payload_type, ssrc, number) => {
            let [high, low] = number.to_be_bytes();
            let [a, b, c, d] = ssrc.to_be_bytes();
            let octets = [
                0x80,
                payload_type,
                high,
                low,
                0,
                0,
                0,
                0,
                a,
                b,
                c,
                d,
                high,
                low,
            ];
            let _heard = receiver.on_media(&octets, 0);
        }
        Call::Ask(now) => {
            let _asked = receiver.ask(now);
        }
        Call::Play(now) => {
            let _played = receiver.play(now);
        }
    }
}

/// What a receiver tells of itself: how many places are missing, the next one to play once there is one, and the SSRC of the
/// retransmissions if it is known.
type Told = (usize, Option<u64>, Option<u32>);

/// The index of the first call behind which a new receiver doesn't tell so.
fn wrong<W: Window>(window: W, config: ReceiverConfig, calls: &[(Call, Told)]) -> Option<usize>
    requires { (W.meaning window).cursor ≡ None }
{
    let mut receiver = Receiver::new(config, window);
    for (index, (call, told)) in calls.iter().enumerate() {
        make(&mut receiver, *call);
        let tells = (
            receiver.missing(),
            receiver.window().cursor(),
            receiver.repair_source(),
        );
        if tells != *told {
            return Some(index);
        }
    }
    None
}

/// The same over a list, or over a ring, with so much room.
fn first_wrong(
    alloc: Global,
    room: usize,
    config: ReceiverConfig,
    calls: &[(Call, Told)],
) -> Result<Option<usize>, Fail>
    requires nonzero { 0 < room }
    requires limit { room ≤ 8192 }
{
    let (Ok(list), Ok(ring)) = (ListWindow::new(alloc, room), RingWindow::new(alloc, room)) else {
        return Err(Fail::from("memory is ample"));
    };
    Ok(wrong(list, config, calls).or(wrong(ring, config, calls)))
}

/// The SSRCs of the media, of the session's retransmissions, of the receiver, and of somebody else.
const MEDIA: u32 = 0x11111111;

const AGAIN: u32 = 0x22222222;

const OWN: u32 = 0x33333333;

const OTHER: u32 = 0x55555555;

#[test]
fn what_is_missing_and_comes_next(rt: HostRuntime) -> Result<(), Fail> {
    let calls = [
        (Call::Ask(0), (0, None, Some(AGAIN))),
        // Refused before the start: an unknown payload type, an unknown SSRC, and a retransmission.
        (Call::Hear(0x62, MEDIA, 1), (0, None, Some(AGAIN))),
        (Call::Hear(0x60, OTHER, 1), (0, None, Some(AGAIN))),
        (Call::Hear(0x61, AGAIN, 1), (0, None, Some(AGAIN))),
        (Call::Hear(0x60, MEDIA, 2), (0, Some(65538), Some(AGAIN))),
        // Late, and a duplicate.
        (Call::Hear(0x60, MEDIA, 1), (0, Some(65538), Some(AGAIN))),
        (Call::Hear(0x60, MEDIA, 2), (0, Some(65538), Some(AGAIN))),
        (Call::Hear(0x60, MEDIA, 4), (1, Some(65538), Some(AGAIN))),
        // A place that is asked for no more, after two asks, is missing still.
        (Call::Ask(0), (1, Some(65538), Some(AGAIN))),
        (Call::Ask(20), (1, Some(65538), Some(AGAIN))),
        (Call::Ask(40), (1, Some(65538), Some(AGAIN))),
        (Call::Play(0), (1, Some(65539), Some(AGAIN))),
        (Call::Play(99), (1, Some(65539), Some(AGAIN))),
        (Call::Play(100), (0, Some(65540), Some(AGAIN))),
        // A retransmission that is far, and one that is late.
        (
            Call::Hear(0x61, AGAIN, 16388),
            (0, Some(65540), Some(AGAIN)),
        ),
        (Call::Hear(0x61, AGAIN, 3), (0, Some(65540), Some(AGAIN))),
    ];
    assert_eq!(rt; first_wrong(rt.alloc(), 8, config(2)?, &calls)?, None);
    Ok(())
}

#[test]
fn how_many_of_a_run_are_missing(rt: HostRuntime) -> Result<(), Fail> {
    let calls = [
        (Call::Hear(0x60, MEDIA, 1), (0, Some(65537), Some(AGAIN))),
        (
            Call::Hear(0x60, MEDIA, 130),
            (128, Some(65537), Some(AGAIN)),
        ),
        (Call::Hear(0x60, MEDIA, 65), (127, Some(65537), Some(AGAIN))),
    ];
    assert_eq!(rt; first_wrong(rt.alloc(), 130, config(3)?, &calls)?, None);
    let calls = [
        (Call::Hear(0x60, MEDIA, 1), (0, Some(65537), Some(AGAIN))),
        (
            Call::Hear(0x60, MEDIA, 1102),
            (1100, Some(65537), Some(AGAIN)),
        ),
        (Call::Ask(0), (1100, Some(65537), Some(AGAIN))),
    ];
    assert_eq!(rt; first_wrong(rt.alloc(), 1200, config(3)?, &calls)?, None);
    Ok(())
}

#[test]
fn the_source_that_is_learnt(rt: HostRuntime) -> Result<(), Fail> {
    let calls = [
        (Call::Ask(0), (0, None, None)),
        (Call::Hear(0x61, OTHER, 2), (0, None, None)),
        (Call::Hear(0x60, MEDIA, 1), (0, Some(65537), None)),
        (Call::Hear(0x60, MEDIA, 3), (1, Some(65537), None)),
        // Not asked for so far; then asked for, and under the receiver's own SSRC.
        (Call::Hear(0x61, AGAIN, 2), (1, Some(65537), None)),
        (Call::Ask(0), (1, Some(65537), None)),
        (Call::Hear(0x60, OWN, 2), (1, Some(65537), None)),
        (Call::Hear(0x61, OWN, 2), (1, Some(65537), None)),
        (Call::Hear(0x62, OWN, 2), (1, Some(65537), None)),
        // Far, held, played, never noticed.
        (Call::Hear(0x61, OTHER, 16387), (1, Some(65537), None)),
        (Call::Hear(0x61, AGAIN, 1), (1, Some(65537), None)),
        (Call::Play(0), (1, Some(65538), None)),
        (Call::Hear(0x61, AGAIN, 1), (1, Some(65538), None)),
        (Call::Hear(0x61, OTHER, 4), (1, Some(65538), None)),
        // It is learnt, and stays when its place was played and another given up.
        (Call::Hear(0x61, OTHER, 2), (0, Some(65538), Some(OTHER))),
        (Call::Hear(0x60, MEDIA, 5), (1, Some(65538), Some(OTHER))),
        (Call::Play(0), (1, Some(65539), Some(OTHER))),
        (Call::Play(0), (1, Some(65540), Some(OTHER))),
        (Call::Play(100), (0, Some(65541), Some(OTHER))),
        (Call::Hear(0x61, AGAIN, 4), (0, Some(65541), Some(OTHER))),
    ];
    assert_eq!(rt; first_wrong(rt.alloc(), 8, learning()?, &calls)?, None);
    Ok(())
}

#[test]
fn the_sessions_own_source_is_learnt(rt: HostRuntime) -> Result<(), Fail> {
    let calls = [
        (Call::Hear(0x60, MEDIA, 1), (0, Some(65537), None)),
        (Call::Hear(0x60, MEDIA, 3), (1, Some(65537), None)),
        (Call::Ask(5), (1, Some(65537), None)),
        (Call::Hear(0x61, AGAIN, 2), (0, Some(65537), Some(AGAIN))),
        (Call::Hear(0x61, OTHER, 2), (0, Some(65537), Some(AGAIN))),
    ];
    assert_eq!(rt; first_wrong(rt.alloc(), 8, learning()?, &calls)?, None);
    Ok(())
}

/// How many octets an ask has at moment 0.
fn asked<W: Window>(receiver: &mut Receiver<W>) -> usize {
    match receiver.ask(0) {
        Some(datagram) => datagram.len(),
        None => 0,
    }
}

#[test]
fn what_the_pairs_do_not_cover_stays_due(rt: HostRuntime) -> Result<(), Fail> {
    let Ok(window) = RingWindow::new(rt.alloc(), 1200) else {
        return Err(Fail::from("memory is ample"));
    };
    let mut receiver = Receiver::new(config(3)?, window);
    for number in 1..=1200 {
        if number % 18 != 0 {
            make(&mut receiver, Call::Hear(0x60, MEDIA, number));
        }
    }
    // 66 places that take a pair each: 64 pairs, then 2, then none. A pair has four octets behind twelve.
    let lengths = [
        asked(&mut receiver),
        asked(&mut receiver),
        asked(&mut receiver),
    ];
    assert_eq!(rt; lengths, [12 + 4 * 64, 12 + 4 * 2, 0]);
    Ok(())
}

/// What a receiver lends, as it would be played.
fn lent<W: Window>(receiver: &Receiver<W>, now: u64) -> Played {
    match receiver.peek(now) {
        Peeked::Packet(place, content) => Played::Packet(place, content.copy()),
        Peeked::Gap(place) => Played::Gap(place),
        Peeked::Wait => Played::Wait,
    }
}

/// Hears packets with one missing at both, and plays at one what the other lends and passes.
#[test]
fn a_pass_is_a_play(rt: HostRuntime) -> Result<(), Fail> {
    let config = config(3)?;
    let (Ok(list), Ok(ring)) = (
        ListWindow::new(rt.alloc(), 4),
        RingWindow::new(rt.alloc(), 4),
    ) else {
        return Err(Fail::from("memory is ample"));
    };
    let mut plays = Receiver::new(config, list);
    let mut passes = Receiver::new(config, ring);
    for low in [1, 2, 4] {
        make(&mut plays, Call::Hear(0x60, MEDIA, low));
        make(&mut passes, Call::Hear(0x60, MEDIA, low));
    }
    for now in [0, 0, 0, 99, 100, 100, 100] {
        assert_eq!(rt; lent(&passes, now), plays.play(now));
        passes.pass(now);
        assert_eq!(rt; passes.window().cursor(), plays.window().cursor());
    }
    assert_eq!(rt; plays.window().cursor(), Some(65541));
    Ok(())
}
