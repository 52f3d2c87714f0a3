//! An outage of 6000 packets, asked for by so many places an ask.
use crate::ends::{config, media, named, receiver};
use receiver::{Played, Receiver};
use std::alloc::Global;
use std::test::Fail;
use stores::Window;

/// The numbers 1 and 6002 come, and what lies between is lost.
const LOST: u64 = 6000;

/// One ask names so many places at most.
const LONGEST: usize = 1088;

/// Takes the two packets round the outage, at moment 0.
fn loses<W: Window>(receiver: &mut Receiver<W>) -> Result<(), Fail> {
    for seq in [1u16, 6002] {
        if receiver
            .on_media(media(seq, u32::from(seq)).as_slice(), 0)
            .is_err()
        {
            return Err(Fail::from("the packet is taken"));
        }
    }
    Ok(())
}

/// Asks for at most so many places: the first number and how many are named, which are to follow one on another.
fn asked<W: Window>(
    alloc: Global,
    receiver: &mut Receiver<W>,
    now: u64,
    most: usize,
) -> Result<(u16, usize), Fail> {
    let Some(nack) = receiver.ask_most(now, most) else {
        return Ok((0, 0));
    };
    let numbers = named(alloc, nack.as_slice())?;
    let first = numbers.first().copied().unwrap_or(0);
    let mut next = first;
    for number in &numbers {
        if *number != next {
            return Err(Fail::from("a hole"));
        }
        next = next.wrapping_add(1);
    }
    Ok((first, numbers.len()))
}

/// How many places are missing of an outage, and what is asked for at one moment, again and again for at most so many places, until
/// nothing is asked for, at most 6001 times.
fn asks_all(alloc: Global, most: usize) -> Result<(usize, Vec<(u16, usize)>), Fail> {
    let mut receiver = receiver(alloc, config(100, 0, 20, 3)?, 8192)?;
    loses(&mut receiver)?;
    let missing = receiver.missing();
    let mut all = Vec::new(alloc);
    for _ in 0..=LOST {
        let told = asked(alloc, &mut receiver, 0, most)?;
        if told.1 == 0 {
            break;
        }
        all.push(told)?;
    }
    Ok((missing, all))
}

/// At one moment each ask has as many places as are allowed, the last one what is left, and none comes twice.
#[test]
fn at_one_moment_all_are_asked_for_once(rt: HostRuntime) -> Result<(), Fail> {
    for (most, full, rest) in [
        (0, 0, 0),
        (7, 857, 1),
        (1000, 6, 0),
        (1087, 5, 565),
        (LONGEST, 5, 560),
        (5000, 5, 560),
    ] {
        let (missing, all) = asks_all(rt.alloc(), most)?;
        assert_eq!(rt; missing as u64, LOST);
        let each = most.min(LONGEST);
        let mut next = 2u64;
        for (index, (first, count)) in all.iter().enumerate() {
            let wanted = if index < full { each } else { rest };
            assert_eq!(rt; (u64::from(*first), *count), (next, wanted));
            next = next.wrapping_add(*count as u64);
        }
        assert_eq!(rt; all.len(), full + if rest > 0 { 1 } else { 0 });
    }
    Ok(())
}

/// What a loop came to that plays and asks each ten milliseconds.
#[derive(Clone, Copy, Debug, Default, PartialEq, Eq)]
struct Told {
    /// Asks, and the places that they name.
    asks: u64,
    places: u64,
    /// The moment of the last ask.
    last: u64,
    packets: u64,
    gaps: u64,
    /// The moment of the first gap.
    given_up: u64,
}

/// Plays until a play waits, and counts.
fn plays<W: Window>(receiver: &mut Receiver<W>, now: u64, told: &mut Told) {
    for _ in 0..=LOST.saturating_add(2) {
        match receiver.play(now) {
            Played::Packet(..) => told.packets = told.packets.wrapping_add(1),
            Played::Gap(_) => {
                if told.gaps == 0 {
                    told.given_up = now;
                }
                told.gaps = told.gaps.wrapping_add(1);
            }
            Played::Wait => break,
        }
    }
}

/// Plays and then asks for at most 500 places each ten milliseconds, for 1500 of them, where each place may be asked for so often.
fn runs(alloc: Global, asks: u8) -> Result<Told, Fail> {
    let mut told = Told::default();
    let mut receiver = receiver(alloc, config(1000, 0, 200, asks)?, 8192)?;
    loses(&mut receiver)?;
    for step in 0..150u64 {
        let now = step.wrapping_mul(10);
        plays(&mut receiver, now, &mut told);
        let (_, count) = asked(alloc, &mut receiver, now, 500)?;
        if count > 0 {
            if count != 500 {
                return Err(Fail::from("an ask of fewer"));
            }
            told.asks = told.asks.wrapping_add(1);
            told.places = told.places.wrapping_add(count as u64);
            told.last = now;
        }
    }
    Ok(told)
}

/// 12 asks of 500 places name all, 200 milliseconds behind the first come the second ones, and so on until the limit, or until
/// the patience has passed: all are given up then, and nothing is asked for.
#[test]
fn asks_until_patience_has_passed(rt: HostRuntime) -> Result<(), Fail> {
    for (limit, asks, last) in [(1, 12, 110), (3, 36, 510), (5, 60, 910), (255, 60, 910)] {
        let wanted = Told {
            asks,
            places: 500 * asks,
            last,
            packets: 2,
            gaps: LOST,
            given_up: 1000,
        };
        assert_eq!(rt; runs(rt.alloc(), limit)?, wanted);
    }
    Ok(())
}
