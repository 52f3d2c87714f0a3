//! Feedback that several senders share, reporters that are not known, and the last packet of a sender that falls silent.
use crate::ends::content;
use rtpwire::Session;
use sender::*;
use std::alloc::Global;
use std::test::Fail;
use stores::{History, RingHistory};

/// A sender of this media, whose receiver has this SSRC. Its first numbers are 1 and 5.
fn config(media: u32, receiver: u32, repeats: u8) -> Result<SenderConfig, Fail> {
    let Ok(session) = Session::new(media, 96, 0x22222222, 97, receiver) else {
        return Err(Fail::from("a good session"));
    };
    match SenderConfig::new(session, 1, 5, repeats) {
        Ok(config) => Ok(config),
        Err(_) => Err(Fail::from("a good configuration")),
    }
}

/// A sender that sent the numbers 1 to 3.
fn sent(alloc: Global, config: SenderConfig) -> Result<Sender<RingHistory>, Fail> {
    let Ok(history) = RingHistory::new(alloc, 8) else {
        return Err(Fail::from("memory is ample"));
    };
    let mut sender = Sender::new(config, history);
    for index in 0..3 {
        if sender.send(content(index), 0).is_err() {
            return Err(Fail::from("a send"));
        }
    }
    Ok(sender)
}

/// The number of the refusal, or 0, and then places, NACKs, others, numbers, unknown and exhausted ones.
type Told = (u8, [u32; 6]);

fn told<H: History>(sender: &mut Sender<H>, octets: &[u8]) -> Told {
    match sender.on_shared_feedback(octets) {
        Ok(shared) => {
            let counts = [
                shared.places,
                shared.nacks,
                shared.others,
                shared.numbers,
                shared.unknown,
                shared.exhausted,
            ];
            (0, counts)
        }
        Err(fault) => (fault.number(), [0; 6]),
    }
}

/// What comes to two senders, and what each answers.
type Row = (&'static [u8], Told, Told);

/// The index of the first datagram that one of the two senders of these configurations doesn't answer so, and whether each takes
/// another one by the call that is for it alone. It has what is large, as whatever a test holds costs its proof.
fn wrong(
    alloc: Global,
    first: SenderConfig,
    second: SenderConfig,
    rows: &[Row],
    alone: &[u8],
) -> Result<(Option<usize>, bool, bool), Fail> {
    let mut first = sent(alloc, first)?;
    let mut second = sent(alloc, second)?;
    let mut wrong = None;
    for (index, (octets, by_first, by_second)) in rows.iter().enumerate() {
        let is_so = told(&mut first, octets) == *by_first
            && told(&mut second, octets) == *by_second;
        if !is_so && wrong.is_none() {
            wrong = Some(index);
        }
    }
    Ok((
        wrong,
        first.on_feedback(alone).is_ok(),
        second.on_feedback(alone).is_ok(),
    ))
}

/// What is answered to what is refused.
const REFUSED: [u32; 6] = [0; 6];

/// A NACK for the number 1 of the media 0x11111111, from its receiver; and one for the numbers 2 and 3 of the media
/// 0x55555555, from the receiver of that.
const BOTH: &[u8] =
    b"\x81\xcd\x00\x03\x33\x33\x33\x33\x11\x11\x11\x11\x00\x01\x00\x00\x81\xcd\x00\x03\x77\x77\x77\x77\x55\x55\x55\x55\x00\x02\x00\x01";

/// The same with three octets behind them.
const CUT: &[u8] =
    b"\x81\xcd\x00\x03\x33\x33\x33\x33\x11\x11\x11\x11\x00\x01\x00\x00\x81\xcd\x00\x03\x77\x77\x77\x77\x55\x55\x55\x55\x00\x02\x00\x01\x80\xc9\x00";

/// A NACK for the number 2 of the media 0x11111111, from somebody else.
const STRANGER: &[u8] = b"\x81\xcd\x00\x03\x99\x99\x99\x99\x11\x11\x11\x11\x00\x02\x00\x00";

/// Somebody else's, before that for the other media and behind it.
const STRANGER_FIRST: &[u8] =
    b"\x81\xcd\x00\x03\x99\x99\x99\x99\x11\x11\x11\x11\x00\x02\x00\x00\x81\xcd\x00\x03\x77\x77\x77\x77\x55\x55\x55\x55\x00\x02\x00\x01";

const STRANGER_LAST: &[u8] =
    b"\x81\xcd\x00\x03\x77\x77\x77\x77\x55\x55\x55\x55\x00\x02\x00\x01\x81\xcd\x00\x03\x99\x99\x99\x99\x11\x11\x11\x11\x00\x02\x00\x00";

/// A NACK for the numbers 9, which was never sent, and 2.
const NEVER_SENT: &[u8] =
    b"\x81\xcd\x00\x04\x33\x33\x33\x33\x11\x11\x11\x11\x00\x09\x00\x00\x00\x02\x00\x00";

/// A NACK for the number 3.
const LAST: &[u8] = b"\x81\xcd\x00\x03\x33\x33\x33\x33\x11\x11\x11\x11\x00\x03\x00\x00";

#[test]
fn two_streams_in_one_datagram(rt: HostRuntime) -> Result<(), Fail> {
    const ROWS: &[Row] = &[
        (CUT, (11, REFUSED), (11, REFUSED)),
        (BOTH, (0, [1, 1, 1, 1, 0, 0]), (0, [2, 1, 1, 2, 0, 0])),
        // What is marked already is no place more.
        (BOTH, (0, [0, 1, 1, 1, 0, 0]), (0, [0, 1, 1, 2, 0, 0])),
        (STRANGER, (19, REFUSED), (18, REFUSED)),
        (STRANGER_FIRST, (19, REFUSED), (0, [0, 1, 1, 2, 0, 0])),
        (STRANGER_LAST, (18, REFUSED), (0, [0, 1, 1, 2, 0, 0])),
        (NEVER_SENT, (0, [1, 1, 0, 2, 1, 0]), (18, REFUSED)),
    ];
    let first = config(0x11111111, 0x33333333, 3)?;
    let second = config(0x55555555, 0x77777777, 3)?;
    let (wrong, ..) = wrong(rt.alloc(), first, second, ROWS, CUT)?;
    assert_eq!(rt; wrong, None);
    Ok(())
}

#[test]
fn a_reporter_that_is_not_known(rt: HostRuntime) -> Result<(), Fail> {
    const ROWS: &[Row] = &[
        (STRANGER, (0, [1, 1, 0, 1, 0, 0]), (19, REFUSED)),
        (STRANGER_LAST, (0, [0, 1, 1, 1, 0, 0]), (18, REFUSED)),
        (BOTH, (0, [1, 1, 1, 1, 0, 0]), (0, [1, 1, 1, 1, 0, 0])),
    ];
    let known = config(0x11111111, 0x33333333, 3)?;
    let any = known.with_any_reporter();
    let says = (known.any_reporter(), any.any_reporter(), any.repeats());
    assert_eq!(rt; says, (false, true, 3));
    let told = wrong(rt.alloc(), any, known, ROWS, STRANGER)?;
    assert_eq!(rt; told, (None, true, false));
    Ok(())
}

/// NACKs of pairs at the edges of the numbers 1 to 3: from 65520 and from 65521 on, the latter also without bit 16; from 4 and from 3 on; and from 65533 on.
const UP_TO_0: &[u8] = b"\x81\xcd\x00\x03\x33\x33\x33\x33\x11\x11\x11\x11\xff\xf0\xff\xff";

const UP_TO_1: &[u8] = b"\x81\xcd\x00\x03\x33\x33\x33\x33\x11\x11\x11\x11\xff\xf1\xff\xff";

const BUT_1: &[u8] = b"\x81\xcd\x00\x03\x33\x33\x33\x33\x11\x11\x11\x11\xff\xf1\x7f\xff";

const FROM_4: &[u8] = b"\x81\xcd\x00\x03\x33\x33\x33\x33\x11\x11\x11\x11\x00\x04\xff\xff";

const FROM_3: &[u8] = b"\x81\xcd\x00\x03\x33\x33\x33\x33\x11\x11\x11\x11\x00\x03\xff\xff";

const ROUND: &[u8] = b"\x81\xcd\x00\x03\x33\x33\x33\x33\x11\x11\x11\x11\xff\xfd\xff\xff";

/// A pair from 4 on, the number 3, and a pair of the number 32768 and that behind the next one.
const APART: &[u8] =
    b"\x81\xcd\x00\x05\x33\x33\x33\x33\x11\x11\x11\x11\x00\x04\xff\xff\x00\x03\x00\x00\x80\x00\x00\x02";

#[test]
fn pairs_at_the_edges(rt: HostRuntime) -> Result<(), Fail> {
    // The other sender's media is another one.
    const ROWS: &[Row] = &[
        (UP_TO_0, (0, [0, 1, 0, 17, 17, 0]), (18, REFUSED)),
        (BUT_1, (0, [0, 1, 0, 16, 16, 0]), (18, REFUSED)),
        (UP_TO_1, (0, [1, 1, 0, 17, 16, 0]), (18, REFUSED)),
        (FROM_4, (0, [0, 1, 0, 17, 17, 0]), (18, REFUSED)),
        (FROM_3, (0, [1, 1, 0, 17, 16, 0]), (18, REFUSED)),
        // 1 and 3 are marked already.
        (ROUND, (0, [1, 1, 0, 17, 14, 0]), (18, REFUSED)),
        (APART, (0, [0, 1, 0, 20, 19, 0]), (18, REFUSED)),
    ];
    let first = config(0x11111111, 0x33333333, 3)?;
    let second = config(0x55555555, 0x77777777, 3)?;
    let told = wrong(rt.alloc(), first, second, ROWS, FROM_4)?;
    assert_eq!(rt; told, (None, true, false));
    Ok(())
}

/// The place of the next retransmission.
fn repaired<H: History>(sender: &mut Sender<H>) -> Option<u64> {
    match sender.next_repair() {
        Some((place, _)) => Some(place.value()),
        None => None,
    }
}

/// Marks the last packet, and says how many places are marked by it.
fn marks<H: History>(sender: &mut Sender<H>) -> u32 {
    sender.mark_last().places
}

/// How many places are marked at a sender that sent nothing and, twice, at one that sent three packets and may retransmit each once.
/// Its retransmissions then, as the places of two. How many places are marked after that, and what it answers to a NACK.
fn limited(alloc: Global) -> Result<([u32; 3], [Option<u64>; 2], u32, Told), Fail> {
    let once = config(0x11111111, 0x33333333, 1)?;
    let Ok(history) = RingHistory::new(alloc, 8) else {
        return Err(Fail::from("memory is ample"));
    };
    let mut silent = Sender::new(once, history);
    let mut sender = sent(alloc, once)?;
    let before = [marks(&mut silent), marks(&mut sender), marks(&mut sender)];
    let repairs = [repaired(&mut sender), repaired(&mut sender)];
    let after = marks(&mut sender);
    Ok((before, repairs, after, told(&mut sender, LAST)))
}

#[test]
fn the_last_packet_and_the_limit(rt: HostRuntime) -> Result<(), Fail> {
    let (before, repairs, after, told) = limited(rt.alloc())?;
    assert_eq!(rt; before, [0, 1, 0]);
    assert_eq!(rt; repairs, [Some(65539), None]);
    assert_eq!(rt; (after, told), (0, (0, [0, 1, 0, 1, 0, 1])));
    Ok(())
}
