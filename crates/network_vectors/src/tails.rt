//! Losses at the two ends of a stream: the first packets, whose number was signalled, and the last ones before a sender falls
//! silent. No packet from below shows the first that they are missing, and none from above the last.
use crate::ends::{config, content, named, receiver, sender};
use receiver::{Played, Receiver};
use sender::Sender;
use std::alloc::Global;
use std::test::Fail;
use stores::{History, Window};

/// How many packets are sent.
const PACKETS: u32 = 9;

/// The first numbers of the streams: one goes past the wrap at its third packet.
const FIRSTS: [u16; 2] = [1, 65534];

/// Sends the packets, and hands over all but those with indices from one on and below another.
fn sends_all<H: History, W: Window>(
    sender: &mut Sender<H>,
    receiver: &mut Receiver<W>,
    (from, to): (u32, u32),
) -> Result<(), Fail> {
    for index in 0..PACKETS {
        let Ok((_, datagram)) = sender.send(content(index), 0) else {
            return Err(Fail::from("a place is left"));
        };
        let is_lost = from <= index && index < to;
        if !is_lost && receiver.on_media(datagram.as_slice(), 0).is_err() {
            return Err(Fail::from("the packet is taken"));
        }
    }
    Ok(())
}

/// Hands over the retransmissions that are due, and says how many are taken.
fn repairs<H: History, W: Window>(sender: &mut Sender<H>, receiver: &mut Receiver<W>) -> u32 {
    let mut taken = 0u32;
    for _ in 0..PACKETS {
        let Some((_, datagram)) = sender.next_repair() else {
            break;
        };
        if receiver.on_media(datagram.as_slice(), 0).is_ok() {
            taken = taken.wrapping_add(1);
        }
    }
    taken
}

/// Asks, and hands the NACK over: the numbers that are asked for.
fn asks<H: History, W: Window>(
    alloc: Global,
    sender: &mut Sender<H>,
    receiver: &mut Receiver<W>,
) -> Result<Vec<u16>, Fail> {
    let Some(nack) = receiver.ask(0) else {
        return Ok(Vec::new(alloc));
    };
    if sender.on_feedback(nack.as_slice()).is_err() {
        return Err(Fail::from("feedback is taken"));
    }
    named(alloc, nack.as_slice())
}

/// The indices of the packets that are played at moment 0, until a play waits. Each is to be at its place, where the one with
/// this index has this number and was the first.
fn played<W: Window>(
    alloc: Global,
    receiver: &mut Receiver<W>,
    (start, number): (u32, u16),
) -> Result<Vec<u32>, Fail> {
    let mut indices = Vec::new(alloc);
    for _ in 0..PACKETS {
        match receiver.play(0) {
            Played::Packet(place, played) => {
                let index = played.timestamp;
                let wanted = 65536u64
                    .wrapping_add(u64::from(number))
                    .wrapping_add(u64::from(index.wrapping_sub(start)));
                if place.value() != wanted || played != content(index) {
                    return Err(Fail::from("another content"));
                }
                indices.push(index)?;
            }
            Played::Gap(_) => return Err(Fail::from("a gap")),
            Played::Wait => break,
        }
    }
    Ok(indices)
}

/// What becomes of the first three where their number is signalled, or is not: how many are missing, the numbers that are
/// asked for, how many retransmissions are taken, and what is played.
fn first_are_lost(
    alloc: Global,
    first: u16,
    is_signalled: bool,
) -> Result<(usize, Vec<u16>, u32, Vec<u32>), Fail> {
    let mut sender = sender(alloc, first)?;
    let mut receiver = receiver(alloc, config(100, 0, 20, 3)?, 16)?;
    if is_signalled && receiver.begin(first).is_err() {
        return Err(Fail::from("nothing was taken"));
    }
    sends_all(&mut sender, &mut receiver, (0, 3))?;
    let missing = receiver.missing();
    let asked = asks(alloc, &mut sender, &mut receiver)?;
    let taken = repairs(&mut sender, &mut receiver);
    let start = if is_signalled { 0 } else { 3 };
    let number = first.wrapping_add(start);
    let played = played(alloc, &mut receiver, (u32::from(start), number))?;
    Ok((missing, asked, taken, played))
}

#[test]
fn the_first_three_are_lost_behind_a_signalled_number(rt: HostRuntime) -> Result<(), Fail> {
    for first in FIRSTS {
        let (missing, asked, taken, played) = first_are_lost(rt.alloc(), first, true)?;
        assert_eq!(rt; (missing, taken), (3, 3));
        let numbers = [first, first.wrapping_add(1), first.wrapping_add(2)];
        assert_eq!(rt; asked.as_slice(), numbers.as_slice());
        assert_eq!(rt; played.as_slice(), [0, 1, 2, 3, 4, 5, 6, 7, 8].as_slice());
    }
    Ok(())
}

#[test]
fn the_first_three_are_lost_and_nothing_is_signalled(rt: HostRuntime) -> Result<(), Fail> {
    for first in FIRSTS {
        let (missing, asked, taken, played) = first_are_lost(rt.alloc(), first, false)?;
        assert_eq!(rt; (missing, asked.len(), taken), (0, 0, 0));
        assert_eq!(rt; played.as_slice(), [3, 4, 5, 6, 7, 8].as_slice());
    }
    Ok(())
}

/// What becomes of the last three where the sender marks its last packet, or does not: how many retransmissions of it are
/// taken, how many are missing then, the numbers that are asked for, how many retransmissions of those are taken, and what is
/// played.
fn last_are_lost(
    alloc: Global,
    first: u16,
    is_marked: bool,
) -> Result<(u32, usize, Vec<u16>, u32, Vec<u32>), Fail> {
    let mut sender = sender(alloc, first)?;
    let mut receiver = receiver(alloc, config(100, 0, 20, 3)?, 16)?;
    sends_all(&mut sender, &mut receiver, (6, 9))?;
    if receiver.missing() != 0 || receiver.ask(0).is_some() {
        return Err(Fail::from("nothing is noticed"));
    }
    if is_marked && sender.mark_last().places != 1 {
        return Err(Fail::from("the last packet is marked"));
    }
    let shown = repairs(&mut sender, &mut receiver);
    let missing = receiver.missing();
    let asked = asks(alloc, &mut sender, &mut receiver)?;
    let taken = repairs(&mut sender, &mut receiver);
    let played = played(alloc, &mut receiver, (0, first))?;
    Ok((shown, missing, asked, taken, played))
}

#[test]
fn the_last_three_are_lost_and_the_last_is_marked(rt: HostRuntime) -> Result<(), Fail> {
    for first in FIRSTS {
        let (shown, missing, asked, taken, played) = last_are_lost(rt.alloc(), first, true)?;
        assert_eq!(rt; (shown, missing, taken), (1, 2, 2));
        let numbers = [first.wrapping_add(6), first.wrapping_add(7)];
        assert_eq!(rt; asked.as_slice(), numbers.as_slice());
        assert_eq!(rt; played.as_slice(), [0, 1, 2, 3, 4, 5, 6, 7, 8].as_slice());
    }
    Ok(())
}

#[test]
fn the_last_three_are_lost_and_nothing_is_marked(rt: HostRuntime) -> Result<(), Fail> {
    for first in FIRSTS {
        let (shown, missing, asked, taken, played) = last_are_lost(rt.alloc(), first, false)?;
        assert_eq!(rt; (shown, missing, asked.len(), taken), (0, 0, 0, 0));
        assert_eq!(rt; played.as_slice(), [0, 1, 2, 3, 4, 5].as_slice());
    }
    Ok(())
}
