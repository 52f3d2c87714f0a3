//! Both ends back to back, over a transport that drops, repeats and swaps.
use arrayvec::ArrayVec;
use places::Place;
use receiver::{Played, Receiver, ReceiverConfig};
use rtpwire::{Content, Datagram, Session};
use sender::{Sender, SenderConfig};
use std::alloc::Global;
use std::test::Fail;
use stores::{History, ListHistory, ListWindow, RingHistory, RingWindow, Window};

/// The first place that is sent; the 136th packet after it has the sequence number 0.
const FIRST: u64 = 130936;

/// How long until a missing place is asked for again, in milliseconds.
const RETRY: u64 = 20;

/// A content that its index tells from the others.
fn content(index: u32) -> Content {
    let mut payload = ArrayVec::new();
    payload.push((index % 251) as u8);
    Content {
        payload,
        timestamp: index,
        marker: index % 2 == 0,
        sources: ArrayVec::new(),
        extension: None,
    }
}

fn sender<H: History>(alloc: Global, session: Session) -> Result<Sender<H>, Fail> {
    let (Ok(config), Ok(history)) = (
        SenderConfig::new(session, 65400, 65500, 255),
        H::new(alloc, 512),
    ) else {
        return Err(Fail::from("good limits and ample memory"));
    };
    Ok(Sender::new(config, history))
}

fn receiver<W: Window>(alloc: Global, session: Session) -> Result<Receiver<W>, Fail> {
    let (Ok(config), Ok(window)) = (
        ReceiverConfig::new(session, 100000, RETRY, 255),
        W::new(alloc, 512),
    ) else {
        return Err(Fail::from("good limits and ample memory"));
    };
    Ok(Receiver::new(config, window))
}

/// The datagram of the next packet, which has the content of this index.
fn sent<H: History>(sender: &mut Sender<H>, index: u32) -> Result<Datagram, Fail> {
    match sender.send(content(index), 0) {
        Ok((_, datagram)) => Ok(datagram),
        Err(_) => Err(Fail::from("a place is left")),
    }
}

/// Sends three packets. The second is lost, the third comes before the first and once more after it, but those of
/// the very first three come in order.
fn sends_three<H: History, W: Window>(
    sender: &mut Sender<H>,
    receiver: &mut Receiver<W>,
    index: u32,
) -> Result<(), Fail> {
    let first = sent(sender, index)?;
    let _lost = sent(sender, index.saturating_add(1))?;
    let third = sent(sender, index.saturating_add(2))?;
    if index > 0 && receiver.on_media(third.as_slice(), 0).is_err() {
        return Err(Fail::from("the third is taken"));
    }
    if receiver.on_media(first.as_slice(), 0).is_err() {
        return Err(Fail::from("the first is taken"));
    }
    let _again = receiver.on_media(third.as_slice(), 0);
    Ok(())
}

/// Keeps a datagram, or hands it over and then the one that was kept.
fn later_first<W: Window>(
    receiver: &mut Receiver<W>,
    kept: &mut Option<Datagram>,
    datagram: Datagram,
    now: u64,
) {
    match kept.take() {
        None => *kept = Some(datagram),
        Some(before) => {
            let _later = receiver.on_media(datagram.as_slice(), now);
            let _earlier = receiver.on_media(before.as_slice(), now);
        }
    }
}

/// Hands over the retransmissions that are due: one of three is lost, not always the same, and the other two come
/// the later one first.
fn repairs<H: History, W: Window>(
    sender: &mut Sender<H>,
    receiver: &mut Receiver<W>,
    round: u64,
    now: u64,
) {
    let mut kept: Option<Datagram> = None;
    for turn in round..round.saturating_add(300) {
        let Some((_, datagram)) = sender.next_repair() else {
            break;
        };
        if turn % 3 != 0 {
            later_first(receiver, &mut kept, datagram, now);
        }
    }
    if let Some(last) = kept {
        let _last = receiver.on_media(last.as_slice(), now);
    }
}

/// Asks, and repairs what was asked for. Each second ask is lost, the others come twice.
fn asks<H: History, W: Window>(
    sender: &mut Sender<H>,
    receiver: &mut Receiver<W>,
    round: u64,
) -> Result<(), Fail> {
    let now = round.saturating_mul(RETRY);
    let Some(feedback) = receiver.ask(now) else {
        return Ok(());
    };
    if round % 2 == 0 {
        for _ in 0..2 {
            if sender.on_feedback(feedback.as_slice()).is_err() {
                return Err(Fail::from("feedback is taken"));
            }
        }
    }
    repairs(sender, receiver, round, now);
    Ok(())
}

/// Whether the next play gives the content of this index at its place.
fn plays<W: Window>(receiver: &mut Receiver<W>, index: u32) -> bool {
    match receiver.play(0) {
        Played::Packet(place, played) => {
            Place::new(FIRST + u64::from(index)) == Some(place) && played == content(index)
        }
        _ => false,
    }
}

/// How many of 300 contents are played, once and in order, before one is not.
fn played_in_order<W: Window>(receiver: &mut Receiver<W>) -> u32 {
    for index in 0..300 {
        if !plays(receiver, index) {
            return index;
        }
    }
    300
}

/// What becomes of 300 packets, of which each third one is lost: how many places are missing before the asks and behind
/// them, how many contents are played, and whether nothing is left then.
fn run<H: History, W: Window>(alloc: Global) -> Result<(usize, usize, u32, bool), Fail> {
    let Ok(session) = Session::new(0x11111111, 96, 0x22222222, 97, 0x33333333) else {
        return Err(Fail::from("a good session"));
    };
    let mut sender: Sender<H> = sender(alloc, session)?;
    let mut receiver: Receiver<W> = receiver(alloc, session)?;
    for index in 0..100 {
        sends_three(&mut sender, &mut receiver, 3 * index)?;
    }
    let before = receiver.missing();
    for round in 0..40 {
        asks(&mut sender, &mut receiver, round)?;
    }
    let behind = receiver.missing();
    let played = played_in_order(&mut receiver);
    Ok((before, behind, played, receiver.play(0) == Played::Wait))
}

#[test]
fn a_bad_transport_over_lists(rt: HostRuntime) -> Result<(), Fail> {
    assert_eq!(rt;
        run::<ListHistory, ListWindow>(rt.alloc())?,
        (100, 0, 300, true)
    );
    Ok(())
}

#[test]
fn a_bad_transport_over_rings(rt: HostRuntime) -> Result<(), Fail> {
    assert_eq!(rt;
        run::<RingHistory, RingWindow>(rt.alloc())?,
        (100, 0, 300, true)
    );
    Ok(())
}
