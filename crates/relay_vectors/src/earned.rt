//! What a relay asks for where that is earned. A packet of 13 octets earns them all, and a NACK of one pair has 16.
use crate::packets::Packet::{Media, Nack, These};
use crate::receiving::{FAR, PLAYER, relay};
use crate::script::{Passing, Script};
use relays::Side::{Far, Near};
use relays::run;
use std::alloc::Global;
use std::test::Fail;

/// Another port.
const OTHER: u16 = 6007;

/// Whether of a relay over a window of 64 these leave where those come, and nothing else, until so many were played or given up.
fn leaves(
    alloc: Global,
    packets: u64,
    comes: &[Passing],
    leaves: &[(usize, Passing)],
) -> Result<bool, Fail> {
    let mut script = Script::new(alloc, comes)?;
    let mut relay = relay(alloc, packets, 64, None)?;
    relay.earn_feedback();
    if run(&mut script, &mut relay).is_err() {
        return Err(Fail::from("it ends by its bounds"));
    }
    Ok(script.has(leaves) && script.gone.len() == leaves.len())
}

#[test]
fn a_nack_leaves_once_and_waits_for_room(rt: HostRuntime) -> Result<(), Fail> {
    // 26 octets came until 3, so a NACK leaves there, and 10 are left: neither its copy has room, nor the next one at 53. At 60 that has.
    const COMES: &[Passing] = &[
        (1, Far, FAR, Media(10, 1)),
        (3, Far, FAR, Media(12, 3)),
        (60, Far, FAR, Media(13, 4)),
    ];
    const LEAVES: &[(usize, Passing)] = &[
        (0, (1, Near, PLAYER, Media(10, 1))),
        (1, (3, Far, FAR, Nack(11))),
        (2, (60, Far, FAR, Nack(11))),
        (3, (203, Near, PLAYER, Media(12, 3))),
        (4, (203, Near, PLAYER, Media(13, 4))),
    ];
    assert!(rt; leaves(rt.alloc(), 4, COMES, LEAVES)?);
    Ok(())
}

#[test]
fn both_copies_leave_where_there_is_room(rt: HostRuntime) -> Result<(), Fail> {
    // 39 octets came: two NACKs have 32.
    const COMES: &[Passing] = &[
        (1, Far, FAR, Media(10, 1)),
        (2, Far, FAR, Media(11, 2)),
        (3, Far, FAR, Media(13, 4)),
    ];
    const LEAVES: &[(usize, Passing)] = &[
        (0, (1, Near, PLAYER, Media(10, 1))),
        (1, (2, Near, PLAYER, Media(11, 2))),
        (2, (3, Far, FAR, Nack(12))),
        (3, (3, Far, FAR, Nack(12))),
        (4, (203, Near, PLAYER, Media(13, 4))),
    ];
    assert!(rt; leaves(rt.alloc(), 4, COMES, LEAVES)?);
    Ok(())
}

/// 59 places are missing, for which four pairs are needed: 28 octets.
#[test]
fn fewer_are_asked_for_where_all_have_no_room(rt: HostRuntime) -> Result<(), Fail> {
    // In 26 octets there is room for a pair for each of three places, which one pair names, and then in 23 for two.
    const COMES: &[Passing] = &[
        (1, Far, FAR, Media(10, 1)),
        (3, Far, FAR, Media(70, 3)),
        (5, Far, FAR, Media(71, 4)),
    ];
    const LEAVES: &[(usize, Passing)] = &[
        (0, (1, Near, PLAYER, Media(10, 1))),
        (
            1,
            (
                3,
                Far,
                FAR,
                These(b"\x81\xcd\x00\x03\x33\x33\x33\x33\x11\x11\x11\x11\x00\x0b\x00\x03"),
            ),
        ),
        (
            2,
            (
                5,
                Far,
                FAR,
                These(b"\x81\xcd\x00\x03\x33\x33\x33\x33\x11\x11\x11\x11\x00\x0e\x00\x01"),
            ),
        ),
        (3, (203, Near, PLAYER, Media(70, 3))),
        (4, (203, Near, PLAYER, Media(71, 4))),
    ];
    assert!(rt; leaves(rt.alloc(), 62, COMES, LEAVES)?);
    Ok(())
}

/// The far side goes on from another address, from which nothing came before.
#[test]
fn a_new_address_earns_anew(rt: HostRuntime) -> Result<(), Fail> {
    const COMES: &[Passing] = &[
        (1, Far, FAR, Media(10, 1)),
        (2, Far, FAR, Media(11, 2)),
        (3, Far, FAR, Media(13, 4)),
        // Three packets show it there, and are not heard; the fourth one is. The stream has three in a second at most, so no silence tells that those
        // are late, and they are missing since it came.
        (990, Far, OTHER, Media(14, 66)),
        (991, Far, OTHER, Media(15, 66)),
        (992, Far, OTHER, Media(16, 66)),
        (1001, Far, OTHER, Media(17, 5)),
        (1002, Far, OTHER, Media(19, 7)),
        (1010, Far, OTHER, Media(18, 6)),
    ];
    // What is due at 53 has no room in the seven octets that are left. What is due at 1001 has none in the 13 that came from there, and leaves once at
    // 1002: it has room in 26, and a copy would have in these and the seven. What is still due at 1042 has room in 23, and at 1082 in none.
    const LEAVES: &[(usize, Passing)] = &[
        (0, (1, Near, PLAYER, Media(10, 1))),
        (1, (2, Near, PLAYER, Media(11, 2))),
        (2, (3, Far, FAR, Nack(12))),
        (3, (3, Far, FAR, Nack(12))),
        (4, (203, Near, PLAYER, Media(13, 4))),
        (
            5,
            (
                1002,
                Far,
                OTHER,
                These(b"\x81\xcd\x00\x03\x33\x33\x33\x33\x11\x11\x11\x11\x00\x0e\x00\x0b"),
            ),
        ),
        (
            6,
            (
                1042,
                Far,
                OTHER,
                These(b"\x81\xcd\x00\x03\x33\x33\x33\x33\x11\x11\x11\x11\x00\x0e\x00\x03"),
            ),
        ),
        (7, (1201, Near, PLAYER, Media(17, 5))),
        (8, (1201, Near, PLAYER, Media(18, 6))),
        (9, (1201, Near, PLAYER, Media(19, 7))),
    ];
    assert!(rt; leaves(rt.alloc(), 10, COMES, LEAVES)?);
    Ok(())
}
