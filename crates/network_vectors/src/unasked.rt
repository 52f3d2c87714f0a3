//! What a peer's stack sends that nobody asked for: padding in the stream of the retransmissions, and retransmissions by which it
//! probes for bandwidth; and beside it answers to asks, which come late or twice.
ghost use Rattle.std.specs.Prelude.{◌<◌, ◌≤◌};

use crate::ends::Packet::{self, Media, Repair, These};
use crate::ends::{Does, config, media, wrong};
use endpoint::*;
use places::Place;
use std::alloc::Global;
use std::test::Fail;
use stores::RingWindow;

/// A window of so many places, and a ring of as many cells; a patience of 100.
fn asking(alloc: Global, room: usize) -> Result<AskingEndpoint<RingWindow>, Fail>
    requires nonzero { 0 < room }
    requires limit { room ≤ 8192 }
{
    match AskingEndpoint::new(alloc, config(100, 0, 20, 3)?, Probation::usual(), room) {
        Ok(made) => Ok(made),
        Err(_) => Err(Fail::from("memory is ample")),
    }
}

/// The number of the refusal, or 0, and the kind.
fn tells(endpoint: &mut AskingEndpoint<RingWindow>, octets: &[u8], now: u64) -> (u8, Kind) {
    match endpoint.on_datagram(octets, now) {
        (Ok(_), kind) => (0, kind),
        (Err(fault), kind) => (fault.number(), kind),
    }
}

/// Takes these media packets, and asks for what is missing then.
fn takes(endpoint: &mut AskingEndpoint<RingWindow>, numbers: &[u16], now: u64) {
    for seq in numbers {
        let _ = endpoint.on_datagram(media(*seq, 0).as_slice(), now);
    }
    let _ = endpoint.ask_most(now, 100);
}

/// What a NACK to the front of a slice names by a number and a mask, where it has 16 octets.
fn asked(endpoint: &mut AskingEndpoint<RingWindow>, now: u64) -> Option<[u8; 4]> {
    let mut out = [0; 268];
    match endpoint.ask_most_into(out.as_mut_slice(), now, 100) {
        Ok(Some(16)) => Some([out[12], out[13], out[14], out[15]]),
        _ => None,
    }
}

/// Plays so often at this moment, by both ways of playing in turn.
fn plays(endpoint: &mut AskingEndpoint<RingWindow>, pairs: u8, now: u64) {
    for _ in 0..pairs {
        endpoint.pass(now);
        let _ = endpoint.play(now);
    }
}

/// What is done, or wanted.
#[derive(Clone, Copy)]
enum Step {
    /// These media packets come, and what is missing then is asked for.
    Takes(&'static [u16]),
    /// Two plays, so often.
    Plays(u8),
    /// This packet comes: the number of the refusal, or 0, and the kind.
    Comes(Packet, u8, Kind),
    /// A NACK to the front of a slice, of 16 octets, of which these name what is asked for.
    Asks([u8; 4]),
    /// Whether it remembers that this place was asked for.
    Remembers(u16, bool),
    /// A restart by call.
    Restarts,
    /// Padding, unasked, late, duplicate and refused.
    Counted([u64; 5]),
    /// The same counts of the endpoint below: late, duplicate and refused.
    Below([u64; 3]),
    /// So many places were given up, and so often the stream restarted.
    Gaps(u64),
    Restarted(u64),
}

use Step::*;

/// Padding, unasked, late, duplicate and refused.
fn counted(endpoint: &AskingEndpoint<RingWindow>) -> [u64; 5] {
    let kinds = endpoint.kinds();
    [
        kinds.padding,
        kinds.unasked,
        kinds.late,
        kinds.duplicate,
        kinds.refused,
    ]
}

/// Late, duplicate and refused, of the endpoint below.
fn below(endpoint: &AskingEndpoint<RingWindow>) -> [u64; 3] {
    let counts = endpoint.endpoint().counts();
    [counts.late, counts.duplicate, counts.refused]
}

impl Does<(u64, Step)> for AskingEndpoint<RingWindow> {
    fn does(&mut self, (now, step): &(u64, Step)) -> bool {
        match *step {
            Takes(numbers) => takes(self, numbers, *now),
            Plays(pairs) => plays(self, pairs, *now),
            Restarts => self.restart(),
            Comes(packet, number, kind) => {
                return tells(self, packet.octets().as_slice(), *now) == (number, kind);
            }
            Asks(named) => return asked(self, *now) == Some(named),
            Remembers(seq, is_so) => return self.asked().remembers(Place::first(seq)) == is_so,
            Counted(counts) => return counted(self) == counts,
            Below(counts) => return below(self) == counts,
            Gaps(gaps) => return self.endpoint().counts().gaps == gaps,
            Restarted(restarts) => return self.endpoint().counts().restarts == restarts,
        }
        true
    }
}

/// Four octets of padding, and nothing before them, under the retransmissions' SSRC (RFC 3550, section 5.1).
const PROBE: &[u8] = b"\xa0\x61\x00\x05\x00\x00\x00\x00\x22\x22\x22\x22\x00\x00\x00\x04";

/// The same with an octet of payload, which is too few for the number of an original (RFC 4588, section 4).
const CUT: &[u8] = b"\xa0\x61\x00\x06\x00\x00\x00\x00\x22\x22\x22\x22\x09\x00\x00\x00\x04";

/// No padding, and no payload.
const EMPTY: &[u8] = b"\x80\x61\x00\x07\x00\x00\x00\x00\x22\x22\x22\x22";

/// Padding alone, as the media packet 11.
const PADDED: &[u8] = b"\xa0\x60\x00\x0b\x00\x00\x00\x00\x11\x11\x11\x11\x00\x00\x00\x04";

/// Padding alone, under an SSRC of no stream.
const STRANGE: &[u8] = b"\xa0\x61\x00\x05\x00\x00\x00\x00\x99\x99\x99\x99\x00\x00\x00\x04";

/// The first step that goes wrong over a window of so many places, if one does. It has what is large, as whatever a test holds costs
/// its proof.
fn wrong_step(alloc: Global, room: usize, steps: &[(u64, Step)]) -> Result<Option<usize>, Fail>
    requires nonzero { 0 < room }
    requires limit { room ≤ 8192 }
{
    let mut endpoint = asking(alloc, room)?;
    Ok(wrong(&mut endpoint, steps))
}

#[test]
fn padding_is_told(rt: HostRuntime) -> Result<(), Fail> {
    const STEPS: &[(u64, Step)] = &[
        (0, Comes(These(PROBE), 6, Kind::Padding)),
        (0, Comes(Media(10), 0, Kind::Usual)),
        (1, Comes(These(PROBE), 6, Kind::Padding)),
        (1, Comes(These(CUT), 6, Kind::Usual)),
        (1, Comes(These(EMPTY), 6, Kind::Usual)),
        (1, Comes(These(PADDED), 0, Kind::Usual)),
        (1, Comes(These(STRANGE), 31, Kind::Usual)),
        (1, Counted([2, 0, 0, 0, 3])),
        (1, Below([0, 0, 5])),
    ];
    assert_eq!(rt; wrong_step(rt.alloc(), 8, STEPS)?, None);
    Ok(())
}

#[test]
fn probes_with_old_packets(rt: HostRuntime) -> Result<(), Fail> {
    const STEPS: &[(u64, Step)] = &[
        (0, Takes(&[10, 11, 12])),
        (0, Plays(1)),
        // The first two were played, and the third is held.
        (1, Comes(Repair(10), 35, Kind::Unasked)),
        (1, Comes(Repair(11), 35, Kind::Unasked)),
        (1, Comes(Repair(12), 36, Kind::Unasked)),
        // Media that comes twice is what it always was.
        (1, Comes(Media(11), 35, Kind::Usual)),
        (1, Comes(Media(12), 36, Kind::Usual)),
        (1, Counted([0, 3, 1, 1, 0])),
        (1, Below([3, 2, 0])),
    ];
    assert_eq!(rt; wrong_step(rt.alloc(), 8, STEPS)?, None);
    Ok(())
}

#[test]
fn an_answer_after_the_gap(rt: HostRuntime) -> Result<(), Fail> {
    const STEPS: &[(u64, Step)] = &[
        (0, Takes(&[10, 12])),
        // 10 is played, 11 is given up once its patience is over, and 12 is played.
        (100, Plays(2)),
        (100, Gaps(1)),
        (101, Comes(Repair(11), 35, Kind::Usual)),
        (101, Comes(Repair(10), 35, Kind::Unasked)),
        (101, Counted([0, 1, 1, 0, 0])),
    ];
    assert_eq!(rt; wrong_step(rt.alloc(), 8, STEPS)?, None);
    Ok(())
}

#[test]
fn a_second_answer(rt: HostRuntime) -> Result<(), Fail> {
    const STEPS: &[(u64, Step)] = &[
        (0, Takes(&[10, 12])),
        (5, Comes(Repair(11), 0, Kind::Usual)),
        (6, Comes(Repair(11), 36, Kind::Usual)),
        (7, Plays(2)),
        (8, Comes(Repair(11), 35, Kind::Usual)),
        (8, Counted([0, 0, 1, 1, 0])),
    ];
    assert_eq!(rt; wrong_step(rt.alloc(), 8, STEPS)?, None);
    Ok(())
}

#[test]
fn a_cell_that_a_later_place_took(rt: HostRuntime) -> Result<(), Fail> {
    const STEPS: &[(u64, Step)] = &[
        (0, Takes(&[10, 12])),
        (100, Plays(2)),
        // 14 is asked for and then 17, whose cells are the third and the second; 11 has the fourth, until 19 takes it.
        (101, Takes(&[13, 15])),
        (101, Comes(Repair(11), 35, Kind::Usual)),
        (102, Takes(&[16])),
        (300, Plays(2)),
        (301, Takes(&[18])),
        (301, Comes(Repair(14), 35, Kind::Usual)),
        (500, Plays(2)),
        (501, Takes(&[20])),
        (501, Comes(Repair(11), 35, Kind::Unasked)),
        (501, Comes(Repair(14), 35, Kind::Usual)),
        (501, Comes(Repair(17), 35, Kind::Usual)),
        (501, Comes(Repair(19), 0, Kind::Usual)),
        (501, Comes(Repair(19), 36, Kind::Usual)),
    ];
    assert_eq!(rt; wrong_step(rt.alloc(), 4, STEPS)?, None);
    Ok(())
}

#[test]
fn an_ask_across_the_wrap(rt: HostRuntime) -> Result<(), Fail> {
    const STEPS: &[(u64, Step)] = &[
        (0, Comes(Media(65534), 0, Kind::Usual)),
        (0, Comes(Media(1), 0, Kind::Usual)),
        // It names 65535, and 0 by its mask.
        (0, Asks([255, 255, 0, 1])),
        (100, Plays(2)),
        (101, Comes(Repair(65535), 35, Kind::Usual)),
        (101, Comes(Repair(0), 35, Kind::Usual)),
        (101, Comes(Repair(65534), 35, Kind::Unasked)),
        (101, Comes(Repair(1), 35, Kind::Unasked)),
    ];
    assert_eq!(rt; wrong_step(rt.alloc(), 8, STEPS)?, None);
    Ok(())
}

#[test]
fn a_restart_forgets(rt: HostRuntime) -> Result<(), Fail> {
    const STEPS: &[(u64, Step)] = &[
        (0, Takes(&[10, 12])),
        (0, Restarts),
        (1, Takes(&[10, 11, 12])),
        (2, Comes(Repair(11), 36, Kind::Unasked)),
        // A stream that begins anew has its places anew too: two in sequence are enough ahead.
        (3, Takes(&[14])),
        (4, Takes(&[20000, 20001])),
        (4, Restarted(1)),
        (4, Remembers(13, false)),
    ];
    assert_eq!(rt; wrong_step(rt.alloc(), 8, STEPS)?, None);
    Ok(())
}
