//! The latency that the relay behind a network tells, and what the one before it does by it. The report is a packet of
//! RTCP that an application defines (RFC 3550, section 6.7): subtype 1 and the type 204, four words, whose it is,
//! "Gozd", and milliseconds.
use crate::packets::Packet::{self, Media, Nack, These};
use crate::receiving::{FAR as FAR_SENDER, PLAYER, relay};
use crate::script::{Passing, Script};
use crate::sending::{APPLICATION, FAR, FIRST, NACK, SECOND, SENT_FIRST, SENT_SECOND, done_by};
use endpoint::ResendRule;
use relays::Side::{Far, Near};
use relays::{Rate, run};
use std::alloc::Global;
use std::test::Fail;

/// NACKs for 11, 12 and 22, and behind each a latency of 200.
const TOLD_11: Packet = These(
    b"\x81\xcd\x00\x03\x33\x33\x33\x33\x11\x11\x11\x11\x00\x0b\x00\x00\x81\xcc\x00\x03\x33\x33\x33\x33Gozd\x00\x00\x00\xc8",
);

const TOLD_12: Packet = These(
    b"\x81\xcd\x00\x03\x33\x33\x33\x33\x11\x11\x11\x11\x00\x0c\x00\x00\x81\xcc\x00\x03\x33\x33\x33\x33Gozd\x00\x00\x00\xc8",
);

const TOLD_22: Packet = These(
    b"\x81\xcd\x00\x03\x33\x33\x33\x33\x11\x11\x11\x11\x00\x16\x00\x00\x81\xcc\x00\x03\x33\x33\x33\x33Gozd\x00\x00\x00\xc8",
);

/// A NACK for 65535, behind which a latency of 40 is told.
const TELLS_40: Packet = These(
    b"\x81\xcd\x00\x03\x33\x33\x33\x33\x11\x11\x11\x11\xff\xff\x00\x00\x81\xcc\x00\x03\x33\x33\x33\x33Gozd\x00\x00\x00\x28",
);

/// The same under another subtype, under another name, and with something behind it: no latency is told.
const OTHER_SUBTYPE: Packet = These(
    b"\x81\xcd\x00\x03\x33\x33\x33\x33\x11\x11\x11\x11\xff\xff\x00\x00\x80\xcc\x00\x03\x33\x33\x33\x33Gozd\x00\x00\x00\x28",
);

const OTHER_NAME: Packet = These(
    b"\x81\xcd\x00\x03\x33\x33\x33\x33\x11\x11\x11\x11\xff\xff\x00\x00\x81\xcc\x00\x03\x33\x33\x33\x33Gozz\x00\x00\x00\x28",
);

const NOT_LAST: Packet = These(
    b"\x81\xcc\x00\x03\x33\x33\x33\x33Gozd\x00\x00\x00\x28\x81\xcd\x00\x03\x33\x33\x33\x33\x11\x11\x11\x11\xff\xff\x00\x00",
);

/// The same behind a NACK for other media, which is refused; and a latency of 0.
const OF_OTHERS: Packet = These(
    b"\x81\xcd\x00\x03\x33\x33\x33\x33\x11\x11\x11\x12\xff\xff\x00\x00\x81\xcc\x00\x03\x33\x33\x33\x33Gozd\x00\x00\x00\x28",
);

const TELLS_0: Packet = These(
    b"\x81\xcd\x00\x03\x33\x33\x33\x33\x11\x11\x11\x11\xff\xff\x00\x00\x81\xcc\x00\x03\x33\x33\x33\x33Gozd\x00\x00\x00\x00",
);

/// Whether of a relay that tells its latency these leave where those come, and nothing else, until so many were played
/// or given up; what leaves is earned, or it is not.
fn leaves(
    alloc: Global,
    packets: u64,
    is_earned: bool,
    comes: &[Passing],
    leaves: &[(usize, Passing)],
) -> Result<bool, Fail> {
    let mut script = Script::new(alloc, comes)?;
    let mut relay = relay(alloc, packets, 64, None)?;
    relay.report_latency();
    if is_earned {
        relay.earn_feedback();
    }
    if run(&mut script, &mut relay).is_err() {
        return Err(Fail::from("it ends by its bounds"));
    }
    Ok(script.has(leaves) && script.gone.len() == leaves.len())
}

/// The first NACK tells it, at 3, and its copy; those at 53 and 103 do not, nor does that at 1002. That at 1052 does.
#[test]
fn it_is_told_behind_a_nack_once_a_second(rt: HostRuntime) -> Result<(), Fail> {
    const COMES: &[Passing] = &[
        (1, Far, FAR_SENDER, Media(10, 1)),
        (3, Far, FAR_SENDER, Media(12, 3)),
        (120, Far, FAR_SENDER, Media(13, 4)),
        (300, Far, FAR_SENDER, Media(14, 5)),
        (500, Far, FAR_SENDER, Media(15, 6)),
        (700, Far, FAR_SENDER, Media(16, 7)),
        (900, Far, FAR_SENDER, Media(17, 8)),
        (902, Far, FAR_SENDER, Media(18, 9)),
        (904, Far, FAR_SENDER, Media(19, 10)),
        (906, Far, FAR_SENDER, Media(20, 11)),
        (908, Far, FAR_SENDER, Media(21, 12)),
        (1002, Far, FAR_SENDER, Media(23, 14)),
    ];
    const LEAVES: &[(usize, Passing)] = &[
        (0, (1, Near, PLAYER, Media(10, 1))),
        (1, (3, Far, FAR_SENDER, TOLD_11)),
        (2, (3, Far, FAR_SENDER, TOLD_11)),
        (3, (53, Far, FAR_SENDER, Nack(11))),
        (4, (53, Far, FAR_SENDER, Nack(11))),
        (5, (103, Far, FAR_SENDER, Nack(11))),
        (6, (103, Far, FAR_SENDER, Nack(11))),
        (7, (203, Near, PLAYER, Media(12, 3))),
        (8, (203, Near, PLAYER, Media(13, 4))),
        (9, (300, Near, PLAYER, Media(14, 5))),
        (10, (500, Near, PLAYER, Media(15, 6))),
        (11, (700, Near, PLAYER, Media(16, 7))),
        (12, (900, Near, PLAYER, Media(17, 8))),
        (13, (902, Near, PLAYER, Media(18, 9))),
        (14, (904, Near, PLAYER, Media(19, 10))),
        (15, (906, Near, PLAYER, Media(20, 11))),
        (16, (908, Near, PLAYER, Media(21, 12))),
        (17, (1002, Far, FAR_SENDER, Nack(22))),
        (18, (1002, Far, FAR_SENDER, Nack(22))),
        (19, (1052, Far, FAR_SENDER, TOLD_22)),
        (20, (1052, Far, FAR_SENDER, TOLD_22)),
        (21, (1102, Far, FAR_SENDER, Nack(22))),
        (22, (1102, Far, FAR_SENDER, Nack(22))),
        (23, (1202, Near, PLAYER, Media(23, 14))),
    ];
    assert!(rt; leaves(rt.alloc(), 14, false, COMES, LEAVES)?);
    Ok(())
}

/// In the 65 octets that five packets earn there is room for both twice.
#[test]
fn it_is_earned_as_a_nack_is(rt: HostRuntime) -> Result<(), Fail> {
    const COMES: &[Passing] = &[
        (1, Far, FAR_SENDER, Media(8, 1)),
        (1, Far, FAR_SENDER, Media(9, 1)),
        (1, Far, FAR_SENDER, Media(10, 1)),
        (2, Far, FAR_SENDER, Media(11, 2)),
        (3, Far, FAR_SENDER, Media(13, 4)),
    ];
    const LEAVES: &[(usize, Passing)] = &[
        (0, (1, Near, PLAYER, Media(8, 1))),
        (1, (1, Near, PLAYER, Media(9, 1))),
        (2, (1, Near, PLAYER, Media(10, 1))),
        (3, (2, Near, PLAYER, Media(11, 2))),
        (4, (3, Far, FAR_SENDER, TOLD_12)),
        (5, (3, Far, FAR_SENDER, TOLD_12)),
        (6, (203, Near, PLAYER, Media(13, 4))),
    ];
    assert!(rt; leaves(rt.alloc(), 6, true, COMES, LEAVES)?);
    Ok(())
}

/// In 52, of four, there is room for both once, and the NACK leaves twice without; at 53 there is room for one more.
#[test]
fn it_costs_no_copy(rt: HostRuntime) -> Result<(), Fail> {
    const COMES: &[Passing] = &[
        (1, Far, FAR_SENDER, Media(9, 1)),
        (1, Far, FAR_SENDER, Media(10, 1)),
        (2, Far, FAR_SENDER, Media(11, 2)),
        (3, Far, FAR_SENDER, Media(13, 4)),
    ];
    const LEAVES: &[(usize, Passing)] = &[
        (0, (1, Near, PLAYER, Media(9, 1))),
        (1, (1, Near, PLAYER, Media(10, 1))),
        (2, (2, Near, PLAYER, Media(11, 2))),
        (3, (3, Far, FAR_SENDER, Nack(12))),
        (4, (3, Far, FAR_SENDER, Nack(12))),
        (5, (53, Far, FAR_SENDER, Nack(12))),
        (6, (203, Near, PLAYER, Media(13, 4))),
    ];
    assert!(rt; leaves(rt.alloc(), 5, true, COMES, LEAVES)?);
    Ok(())
}

/// In the 26 of two packets a NACK has room, and what would be told behind it has not; nor has it in the 23 at 60.
#[test]
fn a_nack_has_room_first(rt: HostRuntime) -> Result<(), Fail> {
    const COMES: &[Passing] = &[
        (1, Far, FAR_SENDER, Media(10, 1)),
        (3, Far, FAR_SENDER, Media(12, 3)),
        (60, Far, FAR_SENDER, Media(13, 4)),
    ];
    const LEAVES: &[(usize, Passing)] = &[
        (0, (1, Near, PLAYER, Media(10, 1))),
        (1, (3, Far, FAR_SENDER, Nack(11))),
        (2, (60, Far, FAR_SENDER, Nack(11))),
        (3, (203, Near, PLAYER, Media(12, 3))),
        (4, (203, Near, PLAYER, Media(13, 4))),
    ];
    assert!(rt; leaves(rt.alloc(), 4, true, COMES, LEAVES)?);
    Ok(())
}

/// How many packets a sending relay passes over as too old, and how many leave; two are sent, at these moments, the
/// first is asked for at 400, as this says, and again at a last moment, by a rule of this deadline.
fn asked(
    alloc: Global,
    (first, second): (u64, u64),
    says: Packet,
    last: u64,
    deadline: Option<u64>,
) -> Result<(u64, usize), Fail> {
    let comes = [
        (first, Near, APPLICATION, FIRST),
        (second, Near, APPLICATION, SECOND),
        (400, Far, FAR, says),
        (last, Far, FAR, NACK),
    ];
    let rule = ResendRule {
        min_resend: 0,
        deadline,
    };
    let leaves = [
        (0, (first, Far, FAR, SENT_FIRST)),
        (1, (second, Far, FAR, SENT_SECOND)),
    ];
    let told = done_by(alloc, 2, Rate::Free, rule, &comes, &leaves)?;
    if !told.has_left {
        return Err(Fail::from("both are sent"));
    }
    Ok((told.expired, told.gone))
}

/// A latency of 40 makes 90, and half a second is for other delays: 590. Beside what is sent and asked for at 400 the
/// last packet leaves once more, as the stream falls silent.
#[test]
fn what_is_told_is_a_deadline(rt: HostRuntime) -> Result<(), Fail> {
    assert!(rt; asked(rt.alloc(), (0, 10), TELLS_40, 590, None)? == (0, 5));
    assert!(rt; asked(rt.alloc(), (0, 10), TELLS_40, 591, None)? == (1, 4));
    // A gap of 99 counts for nothing, and one of 100 for as much.
    assert!(rt; asked(rt.alloc(), (0, 99), TELLS_40, 591, None)? == (1, 4));
    assert!(rt; asked(rt.alloc(), (0, 100), TELLS_40, 690, None)? == (0, 5));
    assert!(rt; asked(rt.alloc(), (0, 100), TELLS_40, 691, None)? == (1, 4));
    Ok(())
}

/// Where none is told, each packet is retransmitted that the history has; where the rule has one, it is that.
#[test]
fn what_else_is_none(rt: HostRuntime) -> Result<(), Fail> {
    assert!(rt; asked(rt.alloc(), (0, 10), NACK, 1900, None)? == (0, 5));
    assert!(rt; asked(rt.alloc(), (0, 10), OTHER_SUBTYPE, 1900, None)? == (0, 5));
    assert!(rt; asked(rt.alloc(), (0, 10), OTHER_NAME, 1900, None)? == (0, 5));
    assert!(rt; asked(rt.alloc(), (0, 10), NOT_LAST, 1900, None)? == (0, 5));
    assert!(rt; asked(rt.alloc(), (0, 10), TELLS_0, 1900, None)? == (0, 5));
    // What is refused changes nothing, and marks nothing.
    assert!(rt; asked(rt.alloc(), (0, 10), OF_OTHERS, 1900, None)? == (0, 4));
    assert!(rt; asked(rt.alloc(), (0, 10), TELLS_40, 1900, Some(2000))? == (0, 5));
    assert!(rt; asked(rt.alloc(), (0, 10), TELLS_40, 500, Some(450))? == (1, 4));
    Ok(())
}
