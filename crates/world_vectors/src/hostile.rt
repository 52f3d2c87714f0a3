//! Datagrams that a hostile peer makes of good ones: each proper beginning, and each change of one bit, at both ends.

use crate::both_stores::LOSS_ACROSS_THE_WRAP;
use crate::sessions::{config, does, goes_in, goes_through, new_world};
use lines::parse_event;
use rtpwire::Datagram;
use std::alloc::Global;
use std::test::Fail;
use stores::{RingHistory, RingWindow};
use world::{Answer, Config, End, Entry, Event, World, run};

/// The events of the session that come before an injection. The rest come after it.
const BEFORE: usize = 8;

/// Media packets, retransmissions and feedback, as events, of which some are refused as they are.
const DATAGRAMS: &str = "\
     I r 80e000010000006411111111aa 0\n\
     I r 80e1000500000064222222220001aa 0\n\
     I r 81cd0003333333331111111100010000 0\n\
     I r 80e0ffff0000006411111111aa 0\n\
     I r 80600000000000c811111111bb 0\n\
     I r 806000010000012c11111111cc 0\n\
     I r 81cd0003333333331111111100000000 0\n\
     I r 80610005000000c8222222220000bb 0\n\
     I r 81cd0003333333331111111100018000 0\n\
     I r 81cd000433333333111111110001000000120000 0\n\
     I r 81cd00033333333311111111ffff0001 0\n\
     I r 806000010000000011111111 0\n\
     I r 81cd0003333333331111111100020000 0\n\
     I r b1e00001000000641111111100000007beef000100000001aa000003 0\n\
     I r 91e10005000000642222222200000007beef0001000000010001aa 0\n\
     I r 81cd00023333333311111111 0\n\
     I r 806000010000000044444444 0\n\
     I r 806200010000000011111111 0\n\
     I r 806100050000000022222222 0\n\
     I r 8061000500000000222222220001 0\n\
     I r 8060000a00000000111111110102 0\n\
     I r 82600001000000001111111100000007 0\n\
     I r 90600001000000001111111100 0\n\
     I r a06000010000000011111111aabbff02 0\n\
     I r a16100050000000022222222000000070001bb01 0\n\
     I r 81cd0003333333331111111100010005 0\n\
     I r 81cd00033333333311111111ffff8001 0\n\
     I r 80c900013333333381cd0003333333331111111100010000 0\n\
     I r 81cd000333333333111111110001000081cd0003333333331111111100020000 0\n\
     I r 81cd000333333333111111110001000040c90000 0";

/// The datagrams of the session.
const OF_THE_SESSION: &str = "\
     I r 80e0ffff0000006411111111aa 0\n\
     I r 80600000000000c811111111bb 0\n\
     I r 806000010000012c11111111cc 0\n\
     I r 81cd0003333333331111111100000000 0\n\
     I r 80610005000000c8222222220000bb 0";

/// A world over rings.
type Attacked = World<RingHistory, RingWindow>;

/// The session's configuration and events, and a world after them.
#[derive(Drop)]
struct Session {
    config: Config,
    events: Vec<Event>,
    twin: Attacked,
}

/// Appends the event of a line of the session.
fn push_event(events: &mut Vec<Event>, line: &str) -> bool {
    match line.split_once(" => ") {
        Some((command, _)) => match parse_event(command.as_bytes()) {
            Some(event) => events.push(event).is_ok(),
            None => false,
        },
        None => false,
    }
}

fn started(alloc: Global) -> Result<Session, Fail> {
    let (first, rest) = LOSS_ACROSS_THE_WRAP
        .split_once('\n')
        .ok_or("more than one line")?;
    let mut events = Vec::new(alloc);
    for line in rest.lines() {
        if !push_event(&mut events, line) {
            return Err(Fail::from(line));
        }
    }
    Ok(Session {
        config: config(first)?,
        events,
        twin: goes_in(alloc, LOSS_ACROSS_THE_WRAP)?,
    })
}

/// The datagram of an injection.
fn datagram_of(line: &str) -> Result<Datagram, Fail> {
    match parse_event(line.as_bytes()) {
        Some(Event::Inject(_, datagram, _)) => Ok(datagram),
        _ => Err(Fail::from(line)),
    }
}

/// The number with which an answer refuses, or 0 where it takes.
fn number(answer: &Answer) -> u8 {
    match answer {
        Answer::Refused(fault) => fault.number(),
        Answer::FeedbackRefused(fault) => fault.number(),
        Answer::Taken(_) | Answer::Marked(_) => 0,
    }
}

/// Injects octets, and tells with which number they are refused, or 0. None where memory is short or they don't fit.
fn refusal(world: &mut Attacked, end: End, octets: &[u8]) -> Option<u8> {
    let Ok(datagram) = Datagram::try_from(octets) else {
        return None;
    };
    if !does(world, &Event::Inject(end, datagram, 6)) {
        return None;
    }
    match world.log().last() {
        Some(Entry::Injected { answer, .. }) => Some(number(answer)),
        _ => None,
    }
}

/// The world after the events that come before an injection.
fn attacked(alloc: Global, session: &Session) -> Option<Attacked> {
    let before = session.events.as_slice().get(..BEFORE)?;
    run(alloc, &session.config, before).ok()
}

/// Whether a session goes on behind a refusal as it does without it.
fn goes_on(world: &mut Attacked, session: &Session) -> bool {
    for event in session.events.iter().skip(BEFORE) {
        if !does(world, event) {
            return false;
        }
    }
    let goes_on = world.log().iter().skip(BEFORE + 1);
    goes_on.eq(session.twin.log().iter().skip(BEFORE))
}

/// Injects octets at an end in the middle of the session, and tells whether they are refused. None where they are, and the
/// session does not go on as it does without them.
fn refuses(alloc: Global, session: &Session, end: End, octets: &[u8]) -> Option<bool> {
    let mut world = attacked(alloc, session)?;
    if refusal(&mut world, end, octets)? == 0 {
        Some(false)
    } else if goes_on(&mut world, session) {
        Some(true)
    } else {
        None
    }
}

/// Whether the sender, and the receiver, refuse octets.
fn both_refuse(alloc: Global, session: &Session, octets: &[u8]) -> Option<(bool, bool)> {
    let sender = refuses(alloc, session, End::Sender, octets)?;
    let receiver = refuses(alloc, session, End::Receiver, octets)?;
    Some((sender, receiver))
}

/// Whether each beginning that is too short is refused.
fn refuse_beginnings(alloc: Global, session: &Session, octets: &[u8]) -> bool {
    for len in 0..octets.len() {
        match both_refuse(alloc, session, &octets[..len]) {
            Some((sender, receiver)) if (sender || len >= 16) && (receiver || len >= 12) => {}
            _ => return false,
        }
    }
    true
}

/// A packet of media has at least 12 octets, and feedback that asks for something 16.
#[test]
fn each_beginning(rt: HostRuntime) -> Result<(), Fail> {
    let session = started(rt.alloc())?;
    for line in DATAGRAMS.lines() {
        let datagram = datagram_of(line)?;
        assert!(rt;
            refuse_beginnings(rt.alloc(), &session, datagram.as_slice()),
            "{line}"
        );
    }
    Ok(())
}

/// Whether one end at least refuses a datagram, whichever bit of one of its octets is changed.
fn refuse_bits(alloc: Global, session: &Session, datagram: &mut Datagram, at: usize) -> bool {
    for bit in [1, 2, 4, 8, 16, 32, 64, 128] {
        flip(datagram.as_mut_slice(), at, bit);
        match both_refuse(alloc, session, datagram.as_slice()) {
            Some((sender, receiver)) if sender || receiver => {}
            _ => return false,
        }
        flip(datagram.as_mut_slice(), at, bit);
    }
    true
}

/// Changes bits of an octet.
fn flip(octets: &mut [u8], at: usize, bits: u8) {
    if let Some(octet) = octets.get_mut(at) {
        *octet ^= bits;
    }
}

/// None of these is both a packet of media and feedback.
#[test]
fn each_bit(rt: HostRuntime) -> Result<(), Fail> {
    let session = started(rt.alloc())?;
    for line in DATAGRAMS.lines() {
        let mut datagram = datagram_of(line)?;
        for at in 0..datagram.len() {
            assert!(rt;
                refuse_bits(rt.alloc(), &session, &mut datagram, at),
                "{line}"
            );
        }
    }
    Ok(())
}

/// Injects each beginning of at most 11 octets at both ends, and tells whether the receiver finds each too short, and
/// the sender refuses each.
fn finds_too_short(world: &mut Attacked, octets: &[u8]) -> bool {
    for len in 0..octets.len().min(12) {
        let part = &octets[..len];
        if refusal(world, End::Receiver, part) != Some(1) {
            return false;
        }
        match refusal(world, End::Sender, part) {
            Some(11) => {}
            Some(number) if number != 0 && len >= 4 => {}
            _ => return false,
        }
    }
    true
}

/// Beginnings of the session's own datagrams, after each of its events, change nothing.
#[test]
fn short_beginnings(rt: HostRuntime) -> Result<(), Fail> {
    let (first, rest) = LOSS_ACROSS_THE_WRAP
        .split_once('\n')
        .ok_or("more than one line")?;
    let mut world: Attacked = new_world(rt.alloc(), first)?;
    for line in rest.lines() {
        goes_through(rt.alloc(), &mut world, line)?;
        for line in OF_THE_SESSION.lines() {
            let datagram = datagram_of(line)?;
            assert!(rt; finds_too_short(&mut world, datagram.as_slice()), "{line}");
        }
    }
    Ok(())
}
