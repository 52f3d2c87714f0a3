//! Who lives: questions and answers as RFC 3611 spells them, whose answers count, how often one is asked, and what waits for an answer.
use liveness::{Answer, Living, Pending, PendingPackets, ReferenceTime, Sent, Source};
use std::net::{Ipv4Addr, SocketAddr};
use std::test::Fail;

/// The question of 1a2b3c4d with the number 01020304: block type 4, and a time whose middle bits that is (RFC 3611, section 4.4).
const QUESTION: &[u8] =
    b"\x80\xcf\x00\x04\x1a\x2b\x3c\x4d\x04\x00\x00\x02\x00\x00\x01\x02\x03\x04\x00\x00";

/// The answer of 00000007: block type 5, and a delay of nothing (RFC 3611, section 4.5); and that it is of the media 00000005, from the index
/// 0000000201ff on, by a packet that is an application's (RFC 3550, section 6.7).
const ANSWER: &[u8] =
    b"\x80\xcf\x00\x05\x00\x00\x00\x07\x05\x00\x00\x03\x1a\x2b\x3c\x4d\x01\x02\x03\x04\x00\x00\x00\x00\
    \x80\xcc\x00\x05\x00\x00\x00\x07Gozd\x00\x00\x00\x05\x00\x00\x00\x00\x00\x02\x01\xff";

fn living(rt: &HostRuntime) -> Result<Living, Fail> {
    let made = Living::new(rt.alloc(), 0x1a2b3c4d, 0x01020304);
    Ok(made.ok().ok_or("memory")?)
}

/// An answer of an SSRC to this receiver's number.
fn answer(ssrc: u32) -> [u8; 48] {
    let answer = Answer {
        ssrc,
        receiver: 0x1a2b3c4d,
        last: 0x01020304,
        delay: 0,
        media: 5,
        first: 0x201ff,
    };
    answer.write()
}

const fn source(ssrc: u32, first: u64) -> Source {
    Source {
        ssrc,
        media: 5,
        first,
    }
}

/// Changes the lowest bit of an octet.
fn change(octets: &mut [u8], at: usize) {
    if let Some(octet) = octets.get_mut(at) {
        *octet ^= 1;
    }
}

/// A question is a receiver's reference time, with whatever time, and nothing beside it.
#[test]
fn questions(rt: HostRuntime) -> Result<(), Fail> {
    let living = living(&rt)?;
    assert!(rt; living.question().write().as_slice() == QUESTION);
    let time = ReferenceTime {
        ssrc: 7,
        seconds: 0xabcd0102,
        fraction: 0x0304ffff,
    };
    assert!(rt; ReferenceTime::read(&time.write()) == Some(time));
    assert!(rt; time.middle() == 0x01020304);
    for at in [0, 1, 2, 3, 8, 9, 10, 11] {
        let mut octets = time.write();
        change(&mut octets, at);
        assert!(rt; ReferenceTime::read(&octets).is_none());
    }
    assert!(rt; ReferenceTime::read(&QUESTION[..19]).is_none());
    assert!(rt; ReferenceTime::read(ANSWER).is_none() && Answer::read(QUESTION).is_none());
    Ok(())
}

/// Only an answer to this receiver and its number counts, once for each SSRC; with another delay it does too.
#[test]
fn answers(rt: HostRuntime) -> Result<(), Fail> {
    let mut living = living(&rt)?;
    for at in [0, 1, 3, 8, 11, 12, 15, 16, 19, 24, 25, 27, 31, 32, 35] {
        let mut octets = answer(7);
        change(&mut octets, at);
        assert!(rt; living.hear(&octets).is_none() && !living.is_living(7));
    }
    assert!(rt; living.hear(&ANSWER[..47]).is_none() && living.hear(&ANSWER[..24]).is_none());
    assert!(rt; living.hear(ANSWER) == Some(source(7, 0x201ff)));
    assert!(rt; living.is_living(7) && !living.is_living(8));
    assert!(rt; living.source(7) == Some(source(7, 0x201ff)) && living.source(8).is_none());
    assert!(rt; living.hear(ANSWER).is_none());
    let mut late = answer(8);
    late[23] = 9;
    late[36] = 9;
    late[40] = 1;
    let told = Source {
        ssrc: 8,
        media: 0x9000005,
        first: 0x1000000000201ff,
    };
    assert!(rt; living.hear(&late) == Some(told));
    assert!(rt; living.source(8) == Some(told) && living.source(7) == Some(source(7, 0x201ff)));
    Ok(())
}

/// Sixteen are known. A seventeenth takes the place of the first, which answers anew.
#[test]
fn sixteen_are_known(rt: HostRuntime) -> Result<(), Fail> {
    let mut living = living(&rt)?;
    for ssrc in 0..16 {
        assert!(rt; living.hear(&answer(ssrc)) == Some(source(ssrc, 0x201ff)));
    }
    assert!(rt; living.is_living(0) && living.is_living(15));
    assert!(rt; living.hear(&answer(16)) == Some(source(16, 0x201ff)));
    assert!(rt; !living.is_living(0) && living.is_living(1) && living.is_living(16));
    assert!(rt; living.hear(&answer(0)) == Some(source(0, 0x201ff)));
    Ok(())
}

/// One SSRC is asked again a tenth of a second later, and another one at once.
#[test]
fn questions_are_apart(rt: HostRuntime) -> Result<(), Fail> {
    let mut living = living(&rt)?;
    assert!(rt; living.may_ask(7, 5) && !living.may_ask(7, 5) && !living.may_ask(7, 104));
    assert!(rt; living.may_ask(8, 5) && !living.may_ask(8, 104));
    assert!(rt; living.may_ask(7, 105) && !living.may_ask(7, 106));
    assert!(rt; living.may_ask(8, 105));
    Ok(())
}

/// An answer tells where a stream stood a second ago at least, of either SSRC, as each of its packets leaves.
#[test]
fn the_past(rt: HostRuntime) -> Result<(), Fail> {
    let mut sent = Sent::new();
    assert!(rt; sent.first(7) == 0);
    sent.leave(7, 60_000, 5000);
    assert!(rt; sent.first(7) == 60_000 && sent.first(8) == 0);
    // The first packet is no past for a second, nor is what left less than that ago.
    sent.leave(7, 60_400, 5999);
    sent.leave(8, 9, 5999);
    assert!(rt; sent.first(7) == 60_000 && sent.first(8) == 9);
    sent.leave(7, 60_401, 6000);
    assert!(rt; sent.first(7) == 60_000);
    sent.leave(7, 60_800, 6999);
    assert!(rt; sent.first(7) == 60_000);
    sent.leave(7, 60_801, 7000);
    assert!(rt; sent.first(7) == 60_401);
    // Behind a pause it is what left last before it.
    sent.leave(7, 61_000, 90_000);
    assert!(rt; sent.first(7) == 60_801 && sent.first(8) == 9);
    sent.leave(8, 10, 90_000);
    sent.leave(8, 11, 91_000);
    assert!(rt; sent.first(8) == 10);
    // Another session has other SSRCs: what began first is forgotten.
    sent.leave(11, 70, 91_001);
    assert!(rt; sent.first(11) == 70 && sent.first(8) == 10 && sent.first(7) == 0);
    Ok(())
}

/// A packet that came from 127.0.0.1 under an index that is its moment.
fn waiting(rt: &HostRuntime, ssrc: u32, octets: &[u8], moment: u64) -> Result<Pending, Fail> {
    let from = SocketAddr::from((Ipv4Addr::LOCALHOST, 7));
    let octets = octets.to_vec(rt.alloc()).ok().ok_or("memory")?;
    Ok(Pending {
        ssrc,
        index: moment,
        from,
        octets,
        moment,
    })
}

/// Whether the first one of an SSRC that waits has these octets.
fn takes(pending: &mut PendingPackets, ssrc: u32, octets: &[u8]) -> bool {
    match pending.take(&source(ssrc, 0)) {
        Some(one) => one.octets.as_slice() == octets,
        None => false,
    }
}

fn has(pending: &PendingPackets, ssrc: u32) -> bool {
    pending.has(&source(ssrc, 0))
}

/// What waits is given back by its SSRC, the first one first, with where it came from; behind a second it is not.
#[test]
fn what_waits(rt: HostRuntime) -> Result<(), Fail> {
    let mut pending = PendingPackets::new(rt.alloc());
    assert!(rt; pending.keep(waiting(&rt, 7, b"first", 0)?) == 0);
    assert!(rt; pending.keep(waiting(&rt, 8, b"second", 400)?) == 0);
    assert!(rt; pending.keep(waiting(&rt, 7, b"third", 999)?) == 0);
    assert!(rt; has(&pending, 7) && has(&pending, 8) && !has(&pending, 9));
    assert!(rt; pending.take(&source(9, 0)).is_none());
    let first = pending.take(&source(7, 0)).ok_or("the first one waits")?;
    assert!(rt; first.octets.as_slice() == b"first".as_slice());
    assert!(rt; first.ssrc == 7 && first.moment == 0);
    assert!(rt; first.from == SocketAddr::from((Ipv4Addr::LOCALHOST, 7)));
    assert!(rt; pending.keep(waiting(&rt, 9, b"", 1399)?) == 0 && has(&pending, 8));
    assert!(rt; pending.keep(waiting(&rt, 9, b"fifth", 1400)?) == 1 && !has(&pending, 8));
    assert!(rt; takes(&mut pending, 7, b"third") && !has(&pending, 7));
    assert!(rt; !takes(&mut pending, 7, b"") && takes(&mut pending, 9, b""));
    // Each one that waited for a second goes, and none behind one that did not, as where a clock stood still.
    assert!(rt; pending.keep(waiting(&rt, 9, b"sixth", 1400)?) == 0);
    assert!(rt; pending.keep(waiting(&rt, 9, b"seventh", 2400)?) == 2);
    assert!(rt; pending.keep(waiting(&rt, 9, b"eighth", 0)?) == 0);
    assert!(rt; takes(&mut pending, 9, b"seventh"));
    Ok(())
}

/// What is of the past of its SSRC is not given back, whatever stands behind it.
#[test]
fn the_past_waits_in_vain(rt: HostRuntime) -> Result<(), Fail> {
    let mut pending = PendingPackets::new(rt.alloc());
    for index in [99, 100, 98, 101] {
        assert!(rt; pending.keep(waiting(&rt, 7, b"x", index)?) == 0);
    }
    assert!(rt;
        pending.has(&source(7, 101)) && !pending.has(&source(7, 102)) && !pending.has(&source(8, 0))
    );
    for index in [100, 101] {
        let one = pending.take(&source(7, 100)).ok_or("it waits")?;
        assert!(rt; one.index == index);
    }
    assert!(rt; pending.take(&source(7, 100)).is_none() && pending.has(&source(7, 99)));
    Ok(())
}

/// Of 256 that wait the oldest one goes for one more.
#[test]
fn so_many_wait(rt: HostRuntime) -> Result<(), Fail> {
    let mut pending = PendingPackets::new(rt.alloc());
    for ssrc in 0..256 {
        assert!(rt; pending.keep(waiting(&rt, ssrc, b"x", 5)?) == 0);
    }
    assert!(rt; has(&pending, 0));
    assert!(rt; pending.keep(waiting(&rt, 256, b"x", 6)?) == 1);
    assert!(rt; !has(&pending, 0) && has(&pending, 1) && has(&pending, 256));
    Ok(())
}
