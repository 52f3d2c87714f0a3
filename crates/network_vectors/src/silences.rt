//! A stream that restarts, by a probation with a silence: what is held back goes on with whatever lies near it, and is believed
//! sooner where the stream before is silent. Each row was worked by hand.
use crate::ends::{Does, config, media, repair, wrong};
use endpoint::{Heard, Probation, ReceivingEndpoint};
use receiver::{Played, ReceiveFault};
use std::alloc::Global;
use std::test::Fail;
use stores::RingWindow;

/// What a packet was.
#[derive(Clone, Copy, Debug, PartialEq, Eq)]
enum Was {
    Media,
    /// So many are held back.
    Held(u32),
    /// The stream restarts with so many, and so many places of the one before are gone.
    Restarted(u32, u64),
    Refused(u8),
    Else,
}

use Was::{Held, Media, Refused, Restarted};

fn told(heard: Result<Heard, ReceiveFault>) -> Was {
    match heard {
        Ok(Heard::Media(_)) => Media,
        Ok(Heard::HeldBack(held)) => Held(held),
        Ok(Heard::Restarted(restart)) => Restarted(restart.held, restart.abandoned),
        Ok(Heard::Repair(_) | Heard::Control) => Was::Else,
        Err(fault) => Refused(fault.number()),
    }
}

/// An endpoint that believes what lies up to 9 ahead and 4 behind, 2 packets after a silence, and else 4.
fn start(alloc: Global, silence: Option<u64>) -> Result<ReceivingEndpoint<RingWindow>, Fail> {
    let probation = match (Probation::new(10, 5, 2, 4), silence) {
        (Ok(probation), None) => probation,
        (Ok(probation), Some(silence)) => probation.with_silence(silence),
        (Err(_), _) => return Err(Fail::from("a good probation")),
    };
    match ReceivingEndpoint::new(alloc, config(1000, 0, 20, 3)?, probation, 64) {
        Ok(endpoint) => Ok(endpoint),
        Err(_) => Err(Fail::from("memory is ample")),
    }
}

/// A packet, by its number and moment, and what it is.
type Row = (u16, u64, Was);

impl Does<Row> for ReceivingEndpoint<RingWindow> {
    fn does(&mut self, (seq, now, was): &Row) -> bool {
        told(self.on_datagram(media(*seq, 0).as_slice(), *now)) == *was
    }
}

/// The place of the packet that a play gave, if it gave one.
fn place_of(played: Played) -> Option<u64> {
    match played {
        Played::Packet(place, _) => Some(place.value()),
        Played::Gap(_) | Played::Wait => None,
    }
}

/// Whether plays give these places, and then none.
fn plays(endpoint: &mut ReceivingEndpoint<RingWindow>, now: u64, places: &[u64]) -> bool {
    for place in places {
        if place_of(endpoint.play(now)) != Some(*place) {
            return false;
        }
    }
    place_of(endpoint.play(now)).is_none()
}

/// The first packet that is something else, if one is, and how many places are missing then. It has what is large, as whatever a test
/// holds costs its proof.
fn wrong_row(
    alloc: Global,
    silence: Option<u64>,
    rows: &[Row],
) -> Result<(Option<usize>, usize), Fail> {
    let mut endpoint = start(alloc, silence)?;
    let index = wrong(&mut endpoint, rows);
    Ok((index, endpoint.core().missing()))
}

/// The first packet that is something else, if one is, and whether plays give these places then.
fn wrong_or_played(
    alloc: Global,
    rows: &[Row],
    now: u64,
    places: &[u64],
) -> Result<(Option<usize>, bool), Fail> {
    let mut endpoint = start(alloc, Some(200))?;
    let index = wrong(&mut endpoint, rows);
    Ok((index, plays(&mut endpoint, now, places)))
}

/// Losses and reordering don't end what is held back, and a packet of the living stream does. Once nothing of that one was taken
/// for 200 milliseconds, two packets are enough.
#[test]
fn a_silence(rt: HostRuntime) -> Result<(), Fail> {
    const ROWS: &[Row] = &[
        (100, 1000, Media),
        (50000, 1010, Held(1)),
        (50002, 1020, Held(2)),
        (101, 1030, Media),
        (50003, 1040, Held(1)),
        (50005, 1229, Held(2)),
        (50004, 1230, Restarted(3, 2)),
        (50006, 1231, Media),
    ];
    let places = [115539, 115540, 115541, 115542];
    assert_eq!(rt;
        wrong_or_played(rt.alloc(), ROWS, 1231, &places)?,
        (None, true)
    );
    Ok(())
}

/// What two packets are that come half a second behind a stream of twenty-one, with the numbers of its second, which was lost and
/// repaired, and of its third, and with timestamps so far from theirs; and the next packet of the stream.
fn behind_a_pause(alloc: Global, shift: u32) -> Result<(Was, Was, Was), Fail> {
    let mut endpoint = start(alloc, Some(200))?;
    for seq in 100..121u16 {
        if seq != 101 {
            let _ = endpoint.on_datagram(media(seq, u32::from(seq)).as_slice(), 1000);
        }
    }
    let _ = endpoint.on_datagram(repair(101, 101).as_slice(), 1000);
    let one = media(101, 101u32.wrapping_add(shift));
    let other = media(102, 102u32.wrapping_add(shift));
    let one = told(endpoint.on_datagram(one.as_slice(), 1500));
    let other = told(endpoint.on_datagram(other.as_slice(), 1501));
    let next = told(endpoint.on_datagram(media(121, 121).as_slice(), 1502));
    Ok((one, other, next))
}

/// What was taken before begins nothing, however long nothing came. With another timestamp it is a stream that restarts.
#[test]
fn what_a_network_repeats(rt: HostRuntime) -> Result<(), Fail> {
    assert_eq!(rt;
        behind_a_pause(rt.alloc(), 0)?,
        (Refused(35), Refused(35), Media)
    );
    assert_eq!(rt;
        behind_a_pause(rt.alloc(), 1)?,
        (Held(1), Restarted(2, 21), Held(1))
    );
    Ok(())
}

/// The same packets by the rule in sequence: two are enough at any moment, and only if nothing comes between them.
#[test]
fn in_sequence(rt: HostRuntime) -> Result<(), Fail> {
    const ROWS: &[Row] = &[
        (100, 1000, Media),
        (20000, 1010, Held(1)),
        (20002, 1020, Held(1)),
        (101, 1030, Media),
        (20003, 1040, Held(1)),
        (20005, 1229, Held(1)),
        (20004, 5000, Held(1)),
        (20005, 5000, Restarted(2, 2)),
    ];
    assert_eq!(rt; wrong_row(rt.alloc(), None, ROWS)?.0, None);
    Ok(())
}

/// Without a silence four are wanted, ahead and behind alike, and the two that are missing among them are asked for.
#[test]
fn no_silence(rt: HostRuntime) -> Result<(), Fail> {
    for far in [20000u16, 60000] {
        let rows = [
            (100, 1000, Media),
            (far, 1001, Held(1)),
            (far.wrapping_add(2), 1002, Held(2)),
            (far.wrapping_add(3), 1003, Held(3)),
            (far.wrapping_add(5), 1004, Restarted(4, 1)),
        ];
        assert_eq!(rt; wrong_row(rt.alloc(), Some(200), &rows)?, (None, 2));
    }
    Ok(())
}

/// The number that lies 40000 places behind 0.
const OLD: u16 = 25536;

/// The first of 999 packets of a living stream, by its index, where it is something else, or where one of the two old ones before it is;
/// and how often the stream restarted.
fn disturbed(alloc: Global) -> Result<(Option<usize>, u64), Fail> {
    let mut endpoint = start(alloc, Some(200))?;
    let mut index = wrong(&mut endpoint, &[(0, 1000, Media)]);
    for seq in 1..1000u16 {
        let now = 1000 + u64::from(seq);
        let old = OLD.wrapping_add(seq);
        let _ = endpoint.play(now);
        let rows = [
            (old, now, Held(1)),
            (old.wrapping_add(1), now, Held(2)),
            (seq, now, Media),
        ];
        if index.is_none() && wrong(&mut endpoint, &rows).is_some() {
            index = Some(usize::from(seq));
        }
    }
    Ok((index, endpoint.counts().restarts))
}

/// Old packets that come once more, however many: each packet of the living stream ends what they began. Two of them in
/// sequence, which restart a stream by the other rule where they lie more than half a cycle behind, restart nothing.
#[test]
fn a_living_stream(rt: HostRuntime) -> Result<(), Fail> {
    const ROWS: &[Row] = &[
        (0, 1000, Media),
        (OLD, 1001, Held(1)),
        (OLD + 1, 1001, Restarted(2, 1)),
    ];
    assert_eq!(rt; disturbed(rt.alloc())?, (None, 0));
    assert_eq!(rt; wrong_row(rt.alloc(), None, ROWS)?.0, None);
    Ok(())
}

/// What is refused, by either receiver, ends nothing: a packet of the stream before that comes twice, and one of what is held back.
/// It is no sign of life either.
#[test]
fn refusals(rt: HostRuntime) -> Result<(), Fail> {
    const ROWS: &[Row] = &[
        (100, 1000, Media),
        (101, 1000, Media),
        (500, 1001, Held(1)),
        (101, 1150, Refused(36)),
        (502, 1151, Held(2)),
        (502, 1152, Refused(36)),
        (503, 1200, Restarted(3, 2)),
    ];
    assert_eq!(rt; wrong_row(rt.alloc(), Some(200), ROWS)?.0, None);
    Ok(())
}

/// What lies far from what is held back begins anew, and does so again.
#[test]
fn another_jump(rt: HostRuntime) -> Result<(), Fail> {
    const ROWS: &[Row] = &[
        (100, 1000, Media),
        (500, 1001, Held(1)),
        (502, 1002, Held(2)),
        (9000, 1003, Held(1)),
        (503, 1004, Held(1)),
        (504, 1200, Restarted(2, 1)),
    ];
    assert_eq!(rt; wrong_row(rt.alloc(), Some(200), ROWS)?.0, None);
    Ok(())
}

/// How many packets are held back, and after how many milliseconds the stream is heard again: 50 packets a second, of which every so
/// many are lost, and which start again so far from their old numbers.
fn heard_again(alloc: Global, jump: u16, lost: u32) -> Result<(u32, u64), Fail> {
    let probation = Probation::usual().with_silence(Probation::SILENCE);
    let made = ReceivingEndpoint::<RingWindow>::new(alloc, config(200, 0, 20, 3)?, probation, 512);
    let Ok(mut endpoint) = made else {
        return Err(Fail::from("memory is ample"));
    };
    for index in 0..600u32 {
        let jumped = if index < 500 { 0 } else { jump };
        let seq = ((index % 65536) as u16).wrapping_add(jumped);
        let now = u64::from(index) * 20;
        let is_lost = lost > 0 && index % lost == 0;
        if !is_lost {
            let was = told(endpoint.on_datagram(media(seq, index).as_slice(), now));
            if let Restarted(held, _) = was {
                return Ok((held, now.saturating_sub(499 * 20)));
            }
        }
        let _ = endpoint.play(now);
    }
    Err(Fail::from("not heard again"))
}

/// Ten packets and 200 milliseconds, ahead or behind; where one in five is lost eight packets, and where one in two is five, counted
/// from the last packet of the old numbers.
#[test]
fn a_stream_is_heard_again(rt: HostRuntime) -> Result<(), Fail> {
    for jump in [5000u16, 20000, 40000, 60000, 1000u16.wrapping_neg()] {
        assert_eq!(rt; heard_again(rt.alloc(), jump, 0)?, (10, 200));
        assert_eq!(rt; heard_again(rt.alloc(), jump, 5)?, (8, 200));
        assert_eq!(rt; heard_again(rt.alloc(), jump, 2)?, (5, 200));
    }
    Ok(())
}
