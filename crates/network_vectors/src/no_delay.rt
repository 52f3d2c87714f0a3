//! A receiver whose delay is 0 answers as one of which no delay was said.
use crate::ends::{Draws, media, receiver, repair, session, writes};
use receiver::{Played, Receiver, ReceiverConfig};
use std::alloc::Global;
use std::test::Fail;
use stores::Window;

/// Hears a packet or a retransmission.
fn hears<W: Window>(
    receiver: &mut Receiver<W>,
    (call, seq, now): (u64, u16, u64),
    log: &mut Vec<u8>,
) -> Result<(), Fail> {
    let heard = if call < 8 {
        receiver.on_media(media(seq, 0).as_slice(), now)
    } else {
        receiver.on_media(repair(seq, 0).as_slice(), now)
    };
    match heard {
        Ok(taken) => {
            writes(log, now, b't', taken.place.value().to_be_bytes().as_slice())?;
            writes(log, now, b'o', taken.overrun.to_be_bytes().as_slice())
        }
        Err(fault) => writes(log, now, b'x', [fault.number()].as_slice()),
    }
}

/// Makes a drawn call: a packet, a retransmission, an ask for few places or for all, or a play.
fn makes<W: Window>(
    receiver: &mut Receiver<W>,
    (call, seq, now): (u64, u16, u64),
    log: &mut Vec<u8>,
) -> Result<(), Fail> {
    match call {
        0..=9 => hears(receiver, (call, seq, now), log),
        10..=15 => {
            let most = if call < 13 { 3 } else { 2000 };
            match receiver.ask_most(now, most) {
                Some(nack) => writes(log, now, b'a', nack.as_slice()),
                None => writes(log, now, b'-', b"".as_slice()),
            }
        }
        _ => match receiver.play(now) {
            Played::Packet(place, _) => {
                writes(log, now, b'p', place.value().to_be_bytes().as_slice())
            }
            Played::Gap(place) => writes(log, now, b'g', place.value().to_be_bytes().as_slice()),
            Played::Wait => writes(log, now, b'w', b"".as_slice()),
        },
    }
}

/// What a receiver of this configuration answers to 3000 drawn calls, as octets. Numbers rise by and by, and moments mostly.
fn answers(alloc: Global, config: ReceiverConfig) -> Result<Vec<u8>, Fail> {
    let mut receiver = receiver(alloc, config, 64)?;
    let mut draws = Draws::new(7);
    let mut log = Vec::new(alloc);
    for step in 0..3000u64 {
        let seq = (step / 3 + draws.below(12)) % 65536;
        let now = (step * 2 + draws.below(9)).saturating_sub(4);
        makes(&mut receiver, (draws.below(24), seq as u16, now), &mut log)?;
        let next = receiver.next_moment().unwrap_or(u64::MAX);
        writes(&mut log, next, b'n', b"".as_slice())?;
    }
    Ok(log)
}

/// The same answers to the same calls; with a delay of a millisecond they are others.
#[test]
fn a_delay_of_nothing(rt: HostRuntime) -> Result<(), Fail> {
    let alloc = rt.alloc();
    let Ok(plain) = ReceiverConfig::new(session()?, 30, 8, 2) else {
        return Err(Fail::from("a good configuration"));
    };
    let today = answers(alloc, plain)?;
    for config in [plain.with_delay(0), plain.with_delay(9).with_delay(0)] {
        let same = answers(alloc, config)?;
        assert!(rt; same.as_slice() == today.as_slice());
    }
    let other = answers(alloc, plain.with_delay(1))?;
    assert!(rt; other.as_slice() != today.as_slice());
    Ok(())
}
