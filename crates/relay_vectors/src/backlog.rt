//! What a relay before a network passes over, where more is asked for than may leave soon.
use crate::packets::Packet::{self, These};
use crate::script::Script;
use crate::sending::{ALL, APPLICATION, FAR, eighty, relay};
use endpoint::ResendRule;
use relays::Side::{Far, Near};
use relays::{Pace, Rate, run};
use std::alloc::Global;
use std::test::Fail;

/// A NACK for the last seventeen packets.
const SEVENTEEN: &[u8] = b"\x81\xcd\x00\x03\x33\x33\x33\x33\x11\x11\x11\x11\x00\x3e\xff\xff";

/// Whether these wanted moments, and numbers of packets that are repeated, are those of the datagrams that left from each of these on, and so many left.
fn leaves(
    script: &mut Script,
    alloc: Global,
    (rate, rule): (Rate, ResendRule),
    wanted: &[(usize, u64, u16)],
    many: usize,
) -> Result<bool, Fail> {
    let mut relay = relay(alloc, 80, Pace::new(rate), rule)?;
    if run(script, &mut relay).is_err() {
        return Err(Fail::from("it ends by its bounds"));
    }
    let mut are_right = script.gone.len() == many;
    for (index, moment, number) in wanted {
        are_right = are_right && repeats(script, *index, *moment, *number);
    }
    Ok(are_right)
}

/// This rate, and the rule that retransmits whatever is asked for.
fn by(rate: Rate) -> (Rate, ResendRule) {
    (rate, ResendRule::ALWAYS)
}

/// Whether a datagram left at this moment, and repeats the packet with this number (RFC 4588, section 4).
fn repeats(script: &Script, index: usize, moment: u64, number: u16) -> bool {
    match script.gone.get(index) {
        Some(gone) => gone.at == moment
            && gone.octets.get(12..14) == Some(&number.to_be_bytes()[..]),
        None => false,
    }
}

/// Eighty packets, numbered from 65535 on, of 1200 octets, of which their mean has 1193 for what eighths lose: 9544 bits. Each retransmission has 9616. The
/// history has the last 64, from 15 on.
/// At 48 kilobits a second they take 201 milliseconds each, and 9600 bits leave within 200: one packet. More is marked from 20 on, so a second later all
/// but the newest is passed over.
#[test]
fn what_stands_is_passed_over(rt: HostRuntime) -> Result<(), Fail> {
    const WANTED: &[(usize, u64, u16)] = &[
        (80, 20, 15),
        (81, 221, 16),
        (82, 422, 17),
        (83, 623, 18),
        (84, 824, 19),
        (85, 1025, 78),
    ];
    let mut script = eighty(rt.alloc(), &[20])?;
    let is_right = leaves(&mut script, rt.alloc(), by(Rate::Kilobits(48)), WANTED, 86)?;
    assert!(rt; is_right);
    Ok(())
}

/// At 480 they take 21, and 96,000 bits leave within 200: ten packets. Of the sixteen that are left at 1020, so many stay.
#[test]
fn as_much_stays_as_may_leave_soon(rt: HostRuntime) -> Result<(), Fail> {
    const WANTED: &[(usize, u64, u16)] = &[(127, 1007, 62), (128, 1028, 69), (137, 1217, 78)];
    let mut script = eighty(rt.alloc(), &[20])?;
    let is_right = leaves(
        &mut script,
        rt.alloc(),
        by(Rate::Kilobits(480)),
        WANTED,
        138,
    )?;
    assert!(rt; is_right);
    Ok(())
}

/// Eighty packets, of which seventeen are asked for at 20, more than may leave soon, and all at a moment.
fn twice(alloc: Global, moment: u64) -> Result<Script, Fail> {
    let mut script = eighty(alloc, &[])?;
    script.comes(&(20, Far, FAR, These(SEVENTEEN)))?;
    script.comes(&(moment, Far, FAR, These(ALL)))?;
    Ok(script)
}

/// Where more than may leave soon is asked for again a second later that stands, though all had left between; and a millisecond later it begins anew: so
/// 47 leave until the end at 2005, from the oldest on.
#[test]
fn what_comes_within_a_second_stands(rt: HostRuntime) -> Result<(), Fail> {
    const WANTED: &[(usize, u64, u16)] = &[(80, 20, 62), (96, 356, 78), (97, 1020, 69)];
    const ANEW: &[(usize, u64, u16)] = &[(96, 356, 78), (97, 1021, 15), (143, 1987, 61)];
    let mut script = twice(rt.alloc(), 1020)?;
    let stands = leaves(
        &mut script,
        rt.alloc(),
        by(Rate::Kilobits(480)),
        WANTED,
        107,
    )?;
    let mut script = twice(rt.alloc(), 1021)?;
    let anew = leaves(&mut script, rt.alloc(), by(Rate::Kilobits(480)), ANEW, 144)?;
    assert!(rt; stands && anew);
    Ok(())
}

/// Two are asked for at 20, more than may leave soon at 48 kilobits a second, and the last one leaves at 422, as the stream fell silent. At 1090 one is asked
/// for alone, more than a second later: what stood is forgotten. So from 1195 on, where two are marked again, since the stream fell silent once more, both
/// leave.
#[test]
fn what_stood_is_forgotten(rt: HostRuntime) -> Result<(), Fail> {
    const TWO: &[u8] = b"\x81\xcd\x00\x03\x33\x33\x33\x33\x11\x11\x11\x11\x00\x0f\x00\x01";
    const WANTED: &[(usize, u64, u16)] = &[
        (80, 20, 15),
        (81, 221, 16),
        (82, 422, 78),
        (83, 1090, 40),
        (85, 1291, 41),
        (86, 1492, 79),
    ];
    let mut script = eighty(rt.alloc(), &[])?;
    script.comes(&(20, Far, FAR, These(TWO)))?;
    script.comes(&(1090, Far, FAR, Packet::Nack(40)))?;
    script.comes(&(1095, Near, APPLICATION, Packet::Long(80)))?;
    script.comes(&(1100, Far, FAR, Packet::Nack(41)))?;
    let is_right = leaves(&mut script, rt.alloc(), by(Rate::Kilobits(48)), WANTED, 87)?;
    assert!(rt; is_right);
    Ok(())
}

/// By twice the media's rate 1,018,624 bits are saved up where feedback is heard at 20, of 768,000 that left at 5: all leave, and the last one again at 105.
/// 393,584 are left. At 800 the most is 419,584, and an eighth of it 52,448: 35 more leave 57,024, and 36 leave 47,408. The others were retransmitted
/// before, so they are passed over.
#[test]
fn nothing_goes_twice_where_little_is_left(rt: HostRuntime) -> Result<(), Fail> {
    const WANTED: &[(usize, u64, u16)] = &[
        (80, 20, 15),
        (144, 105, 78),
        (145, 800, 15),
        (180, 800, 50),
    ];
    let mut script = eighty(rt.alloc(), &[20, 800])?;
    let is_right = leaves(&mut script, rt.alloc(), by(Rate::Percent(200)), WANTED, 181)?;
    assert!(rt; is_right);
    Ok(())
}

/// Seventeen are asked for at 20, from the oldest on, and the last one leaves at 377, as the stream fell silent. Of all, which are asked for at 700, these
/// were retransmitted too short a while before: they are passed over, and so are no backlog. Sixteen have left at 1015, and 31 are marked at 1020: of ten
/// that stay the last one may not go either.
#[test]
fn what_is_passed_over_is_no_backlog(rt: HostRuntime) -> Result<(), Fail> {
    const OLDEST: &[u8] = b"\x81\xcd\x00\x03\x33\x33\x33\x33\x11\x11\x11\x11\x00\x0f\xff\xff";
    const WANTED: &[(usize, u64, u16)] = &[
        (80, 20, 15),
        (97, 377, 78),
        (98, 700, 32),
        (113, 1015, 47),
        (114, 1036, 69),
        (122, 1204, 77),
    ];
    let mut script = eighty(rt.alloc(), &[])?;
    script.comes(&(20, Far, FAR, These(OLDEST)))?;
    script.comes(&(700, Far, FAR, These(ALL)))?;
    let rule = ResendRule {
        min_resend: 5000,
        deadline: None,
    };
    let is_right = leaves(
        &mut script,
        rt.alloc(),
        (Rate::Kilobits(480), rule),
        WANTED,
        123,
    )?;
    assert!(rt; is_right);
    Ok(())
}
