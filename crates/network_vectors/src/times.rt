//! Times that are set while a session runs: what was noticed and asked for stays, and what comes of it follows them.
use crate::ends::{config, media, named, receiver};
use places::Place;
use receiver::{Played, Receiver};
use std::alloc::Global;
use std::test::Fail;
use stores::{RingWindow, SlotRef, Window};

/// A receiver with a patience of 100, no delay, and three asks 20 apart. It took the numbers 1, 3 and 5 at the moments 0, 10
/// and 30, asked for number 2 at moment 10, and played number 1.
fn asked_once(alloc: Global) -> Result<Receiver<RingWindow>, Fail> {
    let mut receiver = receiver(alloc, config(100, 0, 20, 3)?, 16)?;
    for (seq, now) in [(1, 0), (3, 10), (5, 30)] {
        if receiver.on_media(media(seq, 0).as_slice(), now).is_err() {
            return Err(Fail::from("the packet is taken"));
        }
        if (now == 10) != (now < 30 && receiver.ask(now).is_some()) {
            return Err(Fail::from("an ask at moment 10"));
        }
    }
    match receiver.play(30) {
        Played::Packet(..) => Ok(receiver),
        _ => Err(Fail::from("a play")),
    }
}

/// When the place of this number was noticed, how often it was asked for, and when last, where it is missing.
fn missing<W: Window>(receiver: &Receiver<W>, number: u64) -> Option<(u64, u8, u64)> {
    let place = Place::new(number.wrapping_add(65536))?;
    match receiver.window().slot(place) {
        Some(
            SlotRef::Missing {
                noticed,
                asks,
                last,
            },
        ) => Some((noticed, asks, last)),
        _ => None,
    }
}

/// When it asks from moment 30 on and before 120, and for which numbers.
fn asks<W: Window>(alloc: Global, receiver: &mut Receiver<W>) -> Result<Vec<(u64, u16)>, Fail> {
    let mut asks = Vec::new(alloc);
    for now in 30..120 {
        if let Some(nack) = receiver.ask(now) {
            for number in &named(alloc, nack.as_slice())? {
                asks.push((now, *number))?;
            }
        }
    }
    Ok(asks)
}

/// When it plays a place from moment 30 on and before 150, or gives it up.
fn plays<W: Window>(alloc: Global, receiver: &mut Receiver<W>) -> Result<Vec<(u64, bool)>, Fail> {
    let mut plays = Vec::new(alloc);
    for now in 30..150 {
        for _ in 0..5 {
            match receiver.play(now) {
                Played::Packet(..) => plays.push((now, true))?,
                Played::Gap(_) => plays.push((now, false))?,
                Played::Wait => break,
            }
        }
    }
    Ok(plays)
}

/// What comes of times that are set at moment 30. It is small, since whatever a test holds costs its proof.
#[derive(Drop)]
struct Changed {
    /// The number of the refusal, or 0.
    refusal: u8,
    /// Patience, delay and retry.
    times: (u64, u64, u64),
    /// What is missing, of the numbers 2 and 4.
    missing: [Option<(u64, u8, u64)>; 2],
    asks: Vec<(u64, u16)>,
    plays: Vec<(u64, bool)>,
}

/// Sets these times, and then asks or plays.
fn set(
    alloc: Global,
    (patience, delay, retry): (u64, u64, u64),
    is_played: bool,
) -> Result<Changed, Fail> {
    let mut receiver = asked_once(alloc)?;
    let refusal = match receiver.set_times(patience, delay, retry) {
        Ok(()) => 0,
        Err(fault) => fault.number(),
    };
    let now = receiver.config();
    let missing = [missing(&receiver, 2), missing(&receiver, 4)];
    let (asks, plays) = if is_played {
        (Vec::new(alloc), plays(alloc, &mut receiver)?)
    } else {
        (asks(alloc, &mut receiver)?, Vec::new(alloc))
    };
    Ok(Changed {
        refusal,
        times: (now.patience(), now.delay(), now.retry()),
        missing,
        asks,
        plays,
    })
}

/// Number 2 was asked for at moment 10, and is asked for twice more; number 4 was noticed at moment 30.
#[test]
fn a_retry_and_a_delay_that_are_set(rt: HostRuntime) -> Result<(), Fail> {
    let rows: [(u64, u64, &[(u64, u16)]); 4] = [
        (0, 20, &[(30, 2), (30, 4), (50, 2), (50, 4), (70, 4)]),
        (0, 50, &[(30, 4), (60, 2), (80, 4), (110, 2)]),
        (25, 50, &[(55, 4), (60, 2), (105, 4), (110, 2)]),
        (25, 20, &[(30, 2), (50, 2), (55, 4), (75, 4), (95, 4)]),
    ];
    for (delay, retry, wanted) in rows {
        let set = set(rt.alloc(), (100, delay, retry), false)?;
        assert_eq!(rt; (set.refusal, set.times), (0, (100, delay, retry)));
        assert_eq!(rt; set.missing, [Some((10, 1, 10)), Some((30, 0, 0))]);
        assert_eq!(rt; set.asks.as_slice(), wanted);
    }
    Ok(())
}

/// Numbers 2 and 4 are given up, and 3 and 5 are played behind them.
#[test]
fn a_patience_that_is_set(rt: HostRuntime) -> Result<(), Fail> {
    let rows: [(u64, &[(u64, bool)]); 4] = [
        (0, &[(30, false), (30, true), (30, false), (30, true)]),
        (15, &[(30, false), (30, true), (45, false), (45, true)]),
        (100, &[(110, false), (110, true), (130, false), (130, true)]),
        (1000, &[]),
    ];
    for (patience, wanted) in rows {
        let set = set(rt.alloc(), (patience, 0, 20), true)?;
        assert_eq!(rt; set.refusal, 0);
        assert_eq!(rt; set.plays.as_slice(), wanted);
    }
    Ok(())
}

/// It works as before.
#[test]
fn a_retry_of_nothing_is_refused(rt: HostRuntime) -> Result<(), Fail> {
    let set = set(rt.alloc(), (0, 0, 0), false)?;
    assert_eq!(rt; (set.refusal, set.times), (53, (100, 0, 20)));
    assert_eq!(rt; set.asks.len(), 5);
    Ok(())
}
