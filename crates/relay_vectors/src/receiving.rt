//! A relay behind a network.
ghost use Rattle.std.specs.Prelude.{◌<◌, ◌≤◌};

use crate::packets::Packet::{Media, Nack, Repair, These};
use crate::script::{Passing, Script, local};
use receiver::ReceiverConfig;
use relays::Side::{Far, Near};
use relays::{Bounds, Numbering, ReceiveRelay, run};
use rtpwire::Session;
use std::alloc::Global;
use std::test::Fail;
use stores::RingWindow;
use timing::Playout;

pub(crate) const FAR: u16 = 6005;

pub(crate) const PLAYER: u16 = 5006;

pub(crate) const STRANGER: u16 = 6666;

/// A relay that gives a place up after 200 milliseconds, until so many were played or given up, over windows of this capacity, whose
/// packets are held by this clock.
pub(crate) fn relay(
    alloc: Global,
    packets: u64,
    capacity: usize,
    hold: Option<Playout>,
) -> Result<ReceiveRelay<RingWindow>, Fail>
    requires some { 0 < capacity }
    requires limit { capacity ≤ 8192 }
{
    let Ok(session) = Session::with_any_media_type(0x11111111, 33, 0x22222222, 127, 0x33333333)
    else {
        return Err(Fail::from("a good session"));
    };
    let Ok(config) = ReceiverConfig::new(session, 200, 50, 3) else {
        return Err(Fail::from("a good configuration"));
    };
    let bounds = Bounds {
        packets: Some(packets),
        until: None,
    };
    let made = ReceiveRelay::new(
        alloc,
        config,
        capacity,
        local(FAR),
        local(PLAYER),
        Numbering::new(0x11111111),
        hold,
        bounds,
    );
    made.map_err(|_| Fail::from("memory is ample"))
}

/// A relay, and a script of what came to it and what left.
#[derive(Drop)]
pub(crate) struct Run {
    pub script: Script,
    pub relay: ReceiveRelay<RingWindow>,
}

/// Runs a relay by a script, until so many were played or given up, over windows of this capacity, by this clock.
pub(crate) fn runs(
    mut script: Script,
    alloc: Global,
    packets: u64,
    capacity: usize,
    hold: Option<Playout>,
) -> Result<Run, Fail>
    requires some { 0 < capacity }
    requires limit { capacity ≤ 8192 }
{
    let mut relay = relay(alloc, packets, capacity, hold)?;
    if run(&mut script, &mut relay).is_err() {
        return Err(Fail::from("it ends by its bounds"));
    }
    Ok(Run { script, relay })
}

/// What became of a run. It is small, since whatever a test holds costs its proof.
#[derive(Clone, Copy)]
pub(crate) struct Told {
    /// Whether what left has what is wanted, each under the number beside it.
    pub has_left: bool,
    /// How many datagrams left.
    pub gone: usize,
    /// The moment of the end.
    pub now: u64,
    /// The port of the far side, or 0 where that is on another machine.
    pub far: u16,
    pub media: u64,
    pub held_back: u64,
    pub played: u64,
    pub gaps: u64,
}

/// What became of a run, from which these are wanted to leave.
pub(crate) fn tell(run: &Run, leaves: &[(usize, Passing)]) -> Told {
    let counts = run.relay.counts();
    let far = run.relay.far();
    Told {
        has_left: run.script.has(leaves),
        gone: run.script.gone.len(),
        now: run.script.now,
        far: if far == local(far.port()) {
            far.port()
        } else {
            0
        },
        media: counts.media,
        held_back: counts.held_back,
        played: counts.played,
        gaps: counts.gaps,
    }
}

/// What becomes of a relay over windows of 64, which holds nothing, where these datagrams come.
fn done(
    alloc: Global,
    packets: u64,
    comes: &[Passing],
    leaves: &[(usize, Passing)],
) -> Result<Told, Fail> {
    let run = runs(Script::new(alloc, comes)?, alloc, packets, 64, None)?;
    Ok(tell(&run, leaves))
}

#[test]
fn a_lost_packet_is_asked_for_and_played_in_its_place(rt: HostRuntime) -> Result<(), Fail> {
    const COMES: &[Passing] = &[
        (1, Far, FAR, Media(65534, 1)),
        (2, Far, STRANGER, Media(65535, 66)),
        (3, Far, FAR, Media(0, 3)),
        (43, Far, FAR, Repair(65535, 2)),
    ];
    // Each NACK leaves twice.
    const LEAVES: &[(usize, Passing)] = &[
        (0, (1, Near, PLAYER, Media(65534, 1))),
        (1, (3, Far, FAR, Nack(65535))),
        (2, (3, Far, FAR, Nack(65535))),
        (3, (43, Near, PLAYER, Media(65535, 2))),
        (4, (43, Near, PLAYER, Media(0, 3))),
    ];
    let done = done(rt.alloc(), 3, COMES, LEAVES)?;
    assert!(rt; done.has_left && done.gone == 5 && done.now == 2043);
    Ok(())
}

#[test]
fn a_place_that_is_given_up_is_a_hole(rt: HostRuntime) -> Result<(), Fail> {
    const COMES: &[Passing] = &[(1, Far, FAR, Media(10, 1)), (3, Far, FAR, Media(12, 3))];
    // It was asked for at 3, 53, 103, twice each time, and given up at 203.
    const LEAVES: &[(usize, Passing)] = &[(7, (203, Near, PLAYER, Media(12, 3)))];
    let done = done(rt.alloc(), 3, COMES, LEAVES)?;
    assert!(rt; done.has_left && done.gone == 8);
    Ok(())
}

/// Two packets of new numbers are enough 200 milliseconds after the last one of the old numbers, and no sooner.
#[test]
fn numbers_go_on_where_a_stream_restarts(rt: HostRuntime) -> Result<(), Fail> {
    const COMES: &[Passing] = &[
        (1, Far, FAR, Media(10, 1)),
        (2, Far, FAR, Media(11, 2)),
        (3, Far, FAR, Media(50000, 3)),
        (201, Far, FAR, Media(50001, 4)),
        (202, Far, FAR, Media(50002, 5)),
    ];
    const LEAVES: &[(usize, Passing)] = &[
        (2, (202, Near, PLAYER, Media(12, 3))),
        (3, (202, Near, PLAYER, Media(13, 4))),
    ];
    let done = done(rt.alloc(), 4, COMES, LEAVES)?;
    assert!(rt; done.has_left);
    Ok(())
}

/// A stream that restarted behind, and whose 50002 left as 14, goes on at 60000: 9997 packets are lost, and 15 to 10011 are a hole.
#[test]
fn a_jump_ahead_is_a_hole(rt: HostRuntime) -> Result<(), Fail> {
    const COMES: &[Passing] = &[
        (1, Far, FAR, Media(10, 1)),
        (2, Far, FAR, Media(11, 2)),
        (3, Far, FAR, Media(50000, 3)),
        (201, Far, FAR, Media(50001, 4)),
        (202, Far, FAR, Media(50002, 5)),
        (203, Far, FAR, Media(60000, 6)),
        (402, Far, FAR, Media(60001, 7)),
    ];
    const LEAVES: &[(usize, Passing)] = &[
        (4, (202, Near, PLAYER, Media(14, 5))),
        (5, (402, Near, PLAYER, Media(10012, 6))),
        (6, (402, Near, PLAYER, Media(10013, 7))),
    ];
    let done = done(rt.alloc(), 7, COMES, LEAVES)?;
    assert!(rt; done.has_left && done.gone == 7 && done.gaps == 0);
    Ok(())
}

/// A packet came 10 milliseconds behind a later one: so what is missing is asked for after 13. Then a retransmission took 27: such an answer takes
/// 45 milliseconds with what packets overtake each other by, and asks lie a third of 200 - 45 - 13 apart, of which three are made.
#[test]
fn asks_follow_reordering_and_the_round_trip(rt: HostRuntime) -> Result<(), Fail> {
    const COMES: &[Passing] = &[
        (1, Far, FAR, Media(10, 1)),
        (3, Far, FAR, Media(12, 3)),
        (13, Far, FAR, Media(11, 2)),
        (20, Far, FAR, Media(14, 5)),
        (60, Far, FAR, Repair(13, 4)),
        (100, Far, FAR, Media(16, 7)),
    ];
    const LEAVES: &[(usize, Passing)] = &[
        (1, (3, Far, FAR, Nack(11))),
        (3, (13, Near, PLAYER, Media(11, 2))),
        (5, (33, Far, FAR, Nack(13))),
        (7, (60, Near, PLAYER, Media(13, 4))),
        (9, (113, Far, FAR, Nack(15))),
        (11, (160, Far, FAR, Nack(15))),
        (13, (207, Far, FAR, Nack(15))),
        (15, (300, Near, PLAYER, Media(16, 7))),
    ];
    let done = done(rt.alloc(), 7, COMES, LEAVES)?;
    assert!(rt; done.has_left && done.gone == 16);
    Ok(())
}

/// Three places are given up without an answer, each asked for three times, 50 milliseconds apart. So an answer takes 200 milliseconds at least,
/// and two asks are made of the fourth, half of the patience apart.
#[test]
fn places_that_are_given_up_without_an_answer_are_measured(rt: HostRuntime) -> Result<(), Fail> {
    const COMES: &[Passing] = &[
        (1, Far, FAR, Media(10, 1)),
        (3, Far, FAR, Media(12, 3)),
        (300, Far, FAR, Media(14, 5)),
        (600, Far, FAR, Media(16, 7)),
        (900, Far, FAR, Media(18, 9)),
    ];
    const LEAVES: &[(usize, Passing)] = &[
        (7, (203, Near, PLAYER, Media(12, 3))),
        (14, (500, Near, PLAYER, Media(14, 5))),
        (19, (700, Far, FAR, Nack(15))),
        (21, (800, Near, PLAYER, Media(16, 7))),
        (23, (900, Far, FAR, Nack(17))),
        (24, (1000, Far, FAR, Nack(17))),
        (26, (1100, Near, PLAYER, Media(18, 9))),
    ];
    let done = done(rt.alloc(), 9, COMES, LEAVES)?;
    assert!(rt; done.has_left && done.gone == 27);
    Ok(())
}

/// What does not go on with the session is a stranger's, however long the far side is silent.
#[test]
fn strangers_stay_strangers(rt: HostRuntime) -> Result<(), Fail> {
    const COMES: &[Passing] = &[
        (1, Far, STRANGER, Media(9, 66)),
        (2, Far, FAR, Media(10, 1)),
        (500, Far, STRANGER, Media(10, 66)),
        (500, Far, STRANGER, Media(9, 66)),
        (500, Far, STRANGER, Media(3010, 66)),
        // Of another SSRC, of another payload type, and a retransmission.
        (
            500,
            Far,
            STRANGER,
            These(b"\x80\x21\x00\x0b\x00\x00\x00\x42\x11\x11\x11\x12\x42"),
        ),
        (
            500,
            Far,
            STRANGER,
            These(b"\x80\x22\x00\x0b\x00\x00\x00\x42\x11\x11\x11\x11\x42"),
        ),
        (
            500,
            Far,
            STRANGER,
            These(b"\x80\x7f\x00\x07\x00\x00\x00\x02\x22\x22\x22\x22\x00\x0b\x42"),
        ),
        (510, Far, FAR, Media(11, 2)),
        (520, Far, FAR, Media(12, 3)),
    ];
    const LEAVES: &[(usize, Passing)] = &[
        (0, (2, Near, PLAYER, Media(10, 1))),
        (1, (510, Near, PLAYER, Media(11, 2))),
        (2, (520, Near, PLAYER, Media(12, 3))),
    ];
    let done = done(rt.alloc(), 3, COMES, LEAVES)?;
    assert!(rt; done.has_left && done.gone == 3);
    assert!(rt; done.far == FAR && done.media == 3);
    Ok(())
}

/// How much media is taken and how much held back over windows of this capacity, where the number behind 0 is this one.
fn taken(alloc: Global, capacity: usize, number: u16) -> Result<(u64, u64), Fail>
    requires some { 0 < capacity }
    requires limit { capacity ≤ 8192 }
{
    let comes = [(1, Far, FAR, Media(0, 1)), (2, Far, FAR, Media(number, 2))];
    let mut script = Script::new(alloc, &comes)?;
    let mut relay = relay(alloc, 1 + u64::from(number), capacity, None)?;
    let _ = run(&mut script, &mut relay);
    let counts = relay.counts();
    Ok((counts.media, counts.held_back))
}

/// Windows of 4096 places bridge a gap of 4095: it is no jump. One more is, which 3000 was with smaller windows.
#[test]
fn a_gap_that_a_window_bridges(rt: HostRuntime) -> Result<(), Fail> {
    for (capacity, number, is_gap) in [
        (4096, 4096, false),
        (4096, 4095, true),
        (64, 3000, false),
        (64, 2999, true),
    ] {
        let (media, held_back) = taken(rt.alloc(), capacity, number)?;
        assert!(rt; (media == 2) == is_gap && (held_back == 0) == is_gap);
    }
    Ok(())
}
