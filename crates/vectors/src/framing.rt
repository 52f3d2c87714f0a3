use rtpwire::*;
use std::test::Fail;

/// A media packet, a feedback packet and an empty datagram, each behind its length.
const TRACE: &[u8] =
    b"\x00\x0d\x80\xe0\x00\x01\x00\x00\x00\x64\x11\x11\x11\x11\xaa\x00\x10\x81\xcd\x00\x03\x33\x33\x33\x33\x11\x11\x11\x11\x00\x01\x00\x00\x00\x00";

const MEDIA: &[u8] = b"\x80\xe0\x00\x01\x00\x00\x00\x64\x11\x11\x11\x11\xaa";

/// The least length that no datagram has, in two octets.
const TOO_LONG: [u8; 2] = [
    ((MAX_DATAGRAM + 1) / 256) as u8,
    ((MAX_DATAGRAM + 1) % 256) as u8,
];

const FEEDBACK: &[u8] = b"\x81\xcd\x00\x03\x33\x33\x33\x33\x11\x11\x11\x11\x00\x01\x00\x00";

/// Feeds all of a piece, and adds the datagrams that become whole.
fn feed_all(
    deframer: &mut Deframer,
    piece: &[u8],
    datagrams: &mut Vec<Datagram>,
) -> Result<(), Fail> {
    let mut left = piece;
    for _ in 0..=piece.len() {
        let (taken, datagram) = deframer.feed(left)?;
        left = &left[taken..];
        match datagram {
            Some(datagram) => datagrams.push(datagram)?,
            None => return Ok(()),
        }
    }
    Ok(())
}

/// Whether these are the datagrams of the trace.
fn are_of_trace(datagrams: &[Datagram]) -> bool {
    datagrams.len() == 3
        && datagrams[0].as_slice() == MEDIA
        && datagrams[1].as_slice() == FEEDBACK
        && datagrams[2].is_empty()
}

#[test]
fn two_frames_octet_by_octet(rt: HostRuntime) -> Result<(), Fail> {
    let mut deframer = Deframer::new();
    deframer.finish()?;
    for (octet, datagram) in [
        (0, None),
        (0, Some(b"".as_slice())),
        (0, None),
        (1, None),
        (0xaa, Some(b"\xaa".as_slice())),
    ] {
        let (taken, found) = deframer.feed(&[octet])?;
        assert_eq!(rt; taken, 1);
        assert_eq!(rt; found.as_ref().map(|found| found.as_slice()), datagram);
    }
    deframer.finish()?;
    Ok(())
}

#[test]
fn a_trace_in_any_two_pieces(rt: HostRuntime) -> Result<(), Fail> {
    for cut in 0..=TRACE.len() {
        let mut deframer = Deframer::new();
        let mut datagrams = Vec::new(rt.alloc());
        feed_all(&mut deframer, &TRACE[..cut], &mut datagrams)?;
        feed_all(&mut deframer, &TRACE[cut..], &mut datagrams)?;
        deframer.finish()?;
        assert!(rt; are_of_trace(&datagrams), "{cut}");
    }
    Ok(())
}

#[test]
fn a_trace_in_single_octets(rt: HostRuntime) -> Result<(), Fail> {
    let mut deframer = Deframer::new();
    let mut datagrams = Vec::new(rt.alloc());
    for octet in TRACE {
        feed_all(&mut deframer, &[*octet], &mut datagrams)?;
    }
    deframer.finish()?;
    assert!(rt; are_of_trace(&datagrams));
    Ok(())
}

/// The law, which runs nothing.
#[test]
fn the_law_of_framing() {
    framing_is_determined();
}

/// The refusal number of feeding a piece, or 0 where it is taken.
fn refusal_of(deframer: &mut Deframer, piece: &[u8]) -> u8 {
    match deframer.feed(piece) {
        Ok(_) => 0,
        Err(fault) => fault.number(),
    }
}

/// The refusal number of ending here, or 0 where a stream may.
fn refusal_at_end(deframer: &Deframer) -> u8 {
    match deframer.finish() {
        Ok(()) => 0,
        Err(fault) => fault.number(),
    }
}

/// The refusal numbers of feeding a piece and of ending behind it.
fn refusals(deframer: &mut Deframer, piece: &[u8]) -> (u8, u8) {
    (refusal_of(deframer, piece), refusal_at_end(deframer))
}

#[test]
fn a_length_too_long(rt: HostRuntime) {
    let mut deframer = Deframer::new();
    for piece in [TOO_LONG.as_slice(), b"", b"\x00\x00"] {
        assert_eq!(rt; refusals(&mut deframer, piece), (22, 22));
    }
    let mut deframer = Deframer::new();
    for (octet, wanted) in [
        (TOO_LONG[0], (0, 21)),
        (TOO_LONG[1], (22, 22)),
        (0, (22, 22)),
    ] {
        assert_eq!(rt; refusals(&mut deframer, &[octet]), wanted);
    }
}

#[test]
fn more_after_an_end_in_a_frame(rt: HostRuntime) -> Result<(), Fail> {
    let mut deframer = Deframer::new();
    assert_eq!(rt; refusals(&mut deframer, b"\x00\x02\xaa"), (0, 21));
    let (taken, datagram) = deframer.feed(b"\xbb\xcc")?;
    let datagram = datagram.ok_or("a datagram")?;
    assert_eq!(rt; (taken, refusal_at_end(&deframer)), (1, 0));
    assert_eq!(rt; datagram.as_slice(), b"\xaa\xbb".as_slice());
    Ok(())
}

#[test]
fn frames_are_written(rt: HostRuntime) {
    assert_eq!(rt; write_frame(b"").as_slice(), b"\x00\x00".as_slice());
    assert_eq!(rt; write_frame(b"\xaa").as_slice(), b"\x00\x01\xaa".as_slice());
    assert_eq!(rt; MEDIA.len(), 13);
    assert_eq!(rt; write_frame(MEDIA).as_slice(), &TRACE[..15]);
}

/// The longest datagram, all of one octet.
fn longest() -> Datagram {
    let mut octets = Datagram::new();
    for _ in 0..MAX_DATAGRAM {
        let _ = octets.try_push(0xaa);
    }
    octets
}

#[test]
fn the_longest_frame(rt: HostRuntime) -> Result<(), Fail> {
    let longest = longest();
    let frame = write_frame(longest.as_slice());
    assert_eq!(rt; frame.len(), MAX_FRAME);
    let mut deframer = Deframer::new();
    let (taken, datagram) = deframer.feed(frame.as_slice())?;
    assert_eq!(rt; (longest.len(), taken), (MAX_DATAGRAM, MAX_FRAME));
    assert!(rt; datagram == Some(longest));
    Ok(())
}
