//! Retransmissions that fit the time: rows of moments, worked by hand.
use crate::ends::{Does, session, wrong};
use endpoint::*;
use rtpwire::{Carried, MAX_DATAGRAM, Words};
use sender::SenderConfig;
use std::alloc::Global;
use std::test::Fail;
use stores::RingHistory;

/// A history of 4, the first numbers 1 and 5, three retransmissions of each packet.
fn timely(
    alloc: Global,
    min_resend: u64,
    deadline: Option<u64>,
) -> Result<TimelyEndpoint<RingHistory>, Fail> {
    let Ok(config) = SenderConfig::new(session()?, 1, 5, 3) else {
        return Err(Fail::from("a good configuration"));
    };
    let rule = ResendRule {
        min_resend,
        deadline,
    };
    match TimelyEndpoint::new(alloc, config, rule, 4) {
        Ok(made) => Ok(made),
        Err(_) => Err(Fail::from("memory is ample")),
    }
}

/// What is done, or wanted.
#[derive(Clone, Copy)]
enum Step {
    /// A packet is sent, which has this number.
    Sends(u16),
    /// A NACK for the number 1 and, by the mask, for as many of the three after it as are said.
    Asks(u8),
    /// The last packet is marked.
    Marks,
    /// The number of what is retransmitted, and the octets that tell the retransmission's own number and this one.
    Resends(u16, [u8; 2]),
    /// Nothing is retransmitted.
    Waits,
    /// A slice of 16 octets is too short for what is retransmitted.
    IsShort,
    /// So many were passed over since they were too early, and so many since they were expired.
    Passed(u64, u64),
    /// So many retransmissions left, and so many were refused by the limit.
    Counted(u64, u64),
}

use Step::*;

/// The number of a packet that is sent.
fn sent(endpoint: &mut TimelyEndpoint<RingHistory>, now: u64) -> Option<u16> {
    let mut out = [0; MAX_DATAGRAM];
    match Carried::of_fields(b"abc", 0, false, Words::Numbers(&[]), None) {
        Ok(carried) => match endpoint.send_into(out.as_mut_slice(), &carried, 0, now) {
            Ok(Ok((place, _))) => Some(place.number()),
            _ => None,
        },
        Err(_) => None,
    }
}

/// The number that is retransmitted, and the octets that tell the retransmission's own and it.
fn resent(endpoint: &mut TimelyEndpoint<RingHistory>, now: u64) -> Option<(u16, [u8; 2])> {
    let mut out = [0; MAX_DATAGRAM];
    match endpoint.retransmit_into(out.as_mut_slice(), now) {
        Ok(Some((place, _))) => Some((place.number(), [out[3], out[13]])),
        _ => None,
    }
}

/// Hears a NACK.
fn asks(endpoint: &mut TimelyEndpoint<RingHistory>, mask: u8) {
    let nack = [
        0x81, 0xcd, 0, 3, 0x33, 0x33, 0x33, 0x33, 0x11, 0x11, 0x11, 0x11, 0, 1, 0, mask,
    ];
    let _ = endpoint.on_datagram(nack.as_slice());
}

impl Does<(u64, Step)> for TimelyEndpoint<RingHistory> {
    fn does(&mut self, (now, step): &(u64, Step)) -> bool {
        match *step {
            Sends(number) => sent(self, *now) == Some(number),
            Resends(number, octets) => resent(self, *now) == Some((number, octets)),
            Waits => resent(self, *now).is_none(),
            IsShort => self.retransmit_into([0; 16].as_mut_slice(), *now).is_err(),
            Passed(early, expired) => self.passed() == ResendCounts { early, expired },
            Counted(retransmissions, exhausted) => {
                let counts = self.endpoint().counts();
                counts.retransmissions == retransmissions && counts.exhausted == exhausted
            }
            Asks(mask) => {
                asks(self, mask);
                true
            }
            Marks => {
                let _ = self.mark_last();
                true
            }
        }
    }
}

/// The first step that goes wrong by a rule, if one does. It has what is large, as whatever a test holds costs its proof.
fn wrong_step(
    alloc: Global,
    min_resend: u64,
    deadline: Option<u64>,
    steps: &[(u64, Step)],
) -> Result<Option<usize>, Fail> {
    let mut endpoint = timely(alloc, min_resend, deadline)?;
    Ok(wrong(&mut endpoint, steps))
}

#[test]
fn not_again_so_soon(rt: HostRuntime) -> Result<(), Fail> {
    const STEPS: &[(u64, Step)] = &[
        (0, Sends(1)),
        (5, Asks(0)),
        (5, Resends(1, [5, 1])),
        // Its answer is on the way: 19 milliseconds later it still is, and 20 later it has had its time.
        (10, Asks(0)),
        (10, Waits),
        (10, Passed(1, 0)),
        (24, Asks(0)),
        (24, Waits),
        (25, Asks(0)),
        // The number of the retransmission is the next one, and the packet may go a third time.
        (25, Resends(1, [6, 1])),
        (45, Asks(0)),
        (45, Resends(1, [7, 1])),
        (65, Asks(0)),
        (65, Waits),
        (65, Passed(2, 0)),
        (65, Counted(3, 1)),
    ];
    assert_eq!(rt; wrong_step(rt.alloc(), 20, None, STEPS)?, None);
    Ok(())
}

#[test]
fn not_past_the_deadline(rt: HostRuntime) -> Result<(), Fail> {
    const STEPS: &[(u64, Step)] = &[
        (0, Sends(1)),
        (1, Sends(2)),
        (100, Asks(0)),
        (100, Resends(1, [5, 1])),
        // One millisecond later the first is past its deadline, and the second has still one to go.
        (101, Asks(1)),
        (101, Resends(2, [6, 2])),
        (101, Waits),
        (101, Passed(0, 1)),
        (102, Asks(1)),
        (102, Waits),
        (102, Passed(0, 3)),
    ];
    assert_eq!(rt; wrong_step(rt.alloc(), 0, Some(100), STEPS)?, None);
    Ok(())
}

#[test]
fn the_oldest_that_can_be_in_time(rt: HostRuntime) -> Result<(), Fail> {
    const STEPS: &[(u64, Step)] = &[
        (0, Sends(1)),
        (30, Sends(2)),
        (60, Sends(3)),
        (90, Sends(4)),
        (95, Asks(1)),
        (95, Resends(1, [5, 1])),
        (95, Resends(2, [6, 2])),
        // All four are asked for: the first is expired, though it was sent again too, the second is on its way.
        (110, Asks(7)),
        (110, Resends(3, [7, 3])),
        (110, Passed(1, 1)),
        (110, Resends(4, [8, 4])),
        (110, Waits),
        // A fifth packet takes the cell of the first, and has its own moments.
        (300, Sends(5)),
        (300, Marks),
        (300, Resends(5, [9, 5])),
        (319, Marks),
        (319, Waits),
        (319, Passed(2, 1)),
    ];
    assert_eq!(rt; wrong_step(rt.alloc(), 20, Some(100), STEPS)?, None);
    Ok(())
}

#[test]
fn with_no_rule_as_before(rt: HostRuntime) -> Result<(), Fail> {
    const STEPS: &[(u64, Step)] = &[
        (1000, Sends(1)),
        // Whatever the moment, also one before it was sent.
        (5, Asks(0)),
        (5, Resends(1, [5, 1])),
        (5, Asks(0)),
        (5, Resends(1, [6, 1])),
        (5, Asks(0)),
        (u64::MAX, Resends(1, [7, 1])),
        (5, Passed(0, 0)),
    ];
    let always = ResendRule::ALWAYS;
    assert_eq!(rt;
        wrong_step(rt.alloc(), always.min_resend, always.deadline, STEPS)?,
        None
    );
    Ok(())
}

#[test]
fn a_slice_that_is_too_short(rt: HostRuntime) -> Result<(), Fail> {
    const STEPS: &[(u64, Step)] = &[
        (0, Sends(1)),
        (50, Sends(2)),
        (101, Asks(1)),
        (101, IsShort),
        // What is expired was passed over, and what may go is still the next.
        (101, Passed(0, 1)),
        (101, Resends(2, [5, 2])),
    ];
    assert_eq!(rt; wrong_step(rt.alloc(), 20, Some(100), STEPS)?, None);
    Ok(())
}

/// A NACK of the session for the number 1 and, by the mask, for those behind it, by this reporter and for this media, each said by its last
/// octet.
fn nack(reporter: u8, media: u8, mask: u8) -> [u8; 16] {
    [
        0x81, 0xcd, 0, 3, 0x33, 0x33, 0x33, reporter, 0x11, 0x11, 0x11, media, 0, 1, 0, mask,
    ]
}

/// What such a NACK tells of an answer at a moment, where packets were sent at 0, 30 and 60.
fn told(
    endpoint: &TimelyEndpoint<RingHistory>,
    config: &SenderConfig,
    now: u64,
    reporter: u8,
    media: u8,
    mask: u8,
) -> Option<u64> {
    endpoint.answer_time(config, nack(reporter, media, mask).as_slice(), now)
}

#[test]
fn how_long_an_answer_takes(rt: HostRuntime) -> Result<(), Fail> {
    let mut endpoint = timely(rt.alloc(), 0, None)?;
    let Ok(config) = SenderConfig::new(session()?, 1, 5, 3) else {
        return Err(Fail::from("a good configuration"));
    };
    let are_sent = sent(&mut endpoint, 0) == Some(1)
        && sent(&mut endpoint, 30) == Some(2)
        && sent(&mut endpoint, 60) == Some(3);
    // The last one that is named is the first, the second, the third: the packet behind it was sent at 30, at 60, and is still to be sent.
    let by_the_last = told(&endpoint, &config, 95, 0x33, 0x11, 0) == Some(65)
        && told(&endpoint, &config, 95, 0x33, 0x11, 1) == Some(35)
        && told(&endpoint, &config, 95, 0x33, 0x11, 3).is_none();
    // Nobody else's, none of another stream, and nothing but feedback says so.
    let of_the_session = told(&endpoint, &config, 95, 0x34, 0x11, 0).is_none()
        && told(&endpoint, &config, 95, 0x33, 0x12, 0).is_none();
    // Nor does a datagram that is RTP by its second octet, as a whole NACK behind it.
    let mut behind = [0; 20];
    behind[0] = 0x80;
    behind[1] = 96;
    behind[4..].copy_from_slice(&nack(0x33, 0x11, 0));
    let of_media = endpoint
        .answer_time(&config, behind.as_slice(), 95)
        .is_none();
    behind[1] = 201;
    let of_reports = endpoint.answer_time(&config, behind.as_slice(), 95) == Some(65);
    // A packet that was named before says nothing, nor one that was retransmitted; the one behind it does.
    asks(&mut endpoint, 0);
    let named = told(&endpoint, &config, 96, 0x33, 0x11, 0).is_none()
        && told(&endpoint, &config, 96, 0x33, 0x11, 1) == Some(36);
    let is_resent = resent(&mut endpoint, 97) == Some((1, [5, 1]));
    let after = told(&endpoint, &config, 98, 0x33, 0x11, 0).is_none();
    assert!(rt;
        are_sent
            && by_the_last
            && of_the_session
            && of_media
            && of_reports
            && named
            && is_resent
            && after
    );
    Ok(())
}

/// The rule that holds where one has 10 milliseconds. An answer took ten, and then eight times 500: 12, 14, 16, 19, 22, 25, 29 and 33 are told,
/// of which what is above twice ten counts. A path takes five milliseconds for a retransmission at most, and so 30 for six, and an answer behind them 33.
#[test]
fn a_rule_that_follows(rt: HostRuntime) -> Result<(), Fail> {
    let mut endpoint = timely(rt.alloc(), 0, None)?;
    let Ok(config) = SenderConfig::new(session()?, 1, 5, 3) else {
        return Err(Fail::from("a good configuration"));
    };
    let rule = ResendRule {
        min_resend: 10,
        deadline: Some(300),
    };
    let (mut follows, mut fixed) = (ResendMeter::following(), ResendMeter::fixed());
    let are_sent = sent(&mut endpoint, 0) == Some(1) && sent(&mut endpoint, 30) == Some(2);
    follows.send(0);
    follows.send(30);
    follows.hear(&endpoint, &config, nack(0x33, 0x11, 0).as_slice(), 40);
    let without_queue = follows.rule(rule, 40) == rule;
    for _ in 0..8u8 {
        follows.hear(&endpoint, &config, nack(0x33, 0x11, 0).as_slice(), 530);
        fixed.hear(&endpoint, &config, nack(0x33, 0x11, 0).as_slice(), 530);
    }
    let queued = follows.rule(rule, 530)
        == ResendRule {
            min_resend: 13,
            deadline: Some(300),
        };
    for _ in 0..6u8 {
        follows.resend(530);
        fixed.resend(530);
    }
    let resent = follows.rule(rule, 530).min_resend == 63
        && follows.rule(rule, 543).min_resend == 50
        && follows.rule(rule, 544).min_resend == 13;
    assert!(rt; are_sent && without_queue && queued && resent && fixed.rule(rule, 530) == rule);
    Ok(())
}
