ghost use Rattle.std.specs.Prelude.{◌+◌, ◌≤◌, length};
ghost use Rattle.rtpwire.specs.declared.limits.TheConstants.{MAX_DATAGRAM};

use crate::contents::{largest, plain, with_extension};
use rtpwire::*;
use std::test::Fail;

const SSRC: u32 = 0x11111111;

/// One octet more than a content's payload has.
const TOO_LONG: usize = MAX_PAYLOAD + 1;

/// Twelve header octets that begin with this one, and what follows them.
fn after_header(first: u8, rest: &[u8]) -> Datagram
    requires { length rest.now + 12 ≤ MAX_DATAGRAM }
{
    let mut octets = Datagram::new();
    push_octets(&mut octets, &[first]);
    push_octets(&mut octets, b"\x60\x00\x01\x00\x00\x00\x00\x11\x11\x11\x11");
    push_octets(&mut octets, rest);
    octets
}

/// The media packet of a content under the number 1, or nothing where padding has no payload before it.
fn written(content: &Content, padding: u8) -> Datagram {
    if content.payload.is_empty() {
        Datagram::new()
    } else {
        write_media(content, padding, 1, 96, SSRC)
    }
}

#[test]
fn what_is_written(rt: HostRuntime) -> Result<(), Fail> {
    for (content, padding, row) in [
        (
            plain(b"\xaa", true, 100)?,
            0,
            b"\x80\xe0\x00\x01\x00\x00\x00\x64\x11\x11\x11\x11\xaa".as_slice(),
        ),
        (
            plain(b"\xaa\xbb", false, 0)?,
            2,
            b"\xa0\x60\x00\x01\x00\x00\x00\x00\x11\x11\x11\x11\xaa\xbb\x00\x02",
        ),
        (
            with_extension()?,
            3,
            b"\xb1\xe0\x00\x01\x00\x00\x00\x64\x11\x11\x11\x11\x00\x00\x00\x07\xbe\xef\x00\x01\x00\x00\x00\x01\xaa\x00\x00\x03",
        ),
    ] {
        assert_eq!(rt; written(&content, padding).as_slice(), row);
    }
    Ok(())
}

#[test]
fn a_packet_at_the_front_of_a_slice(rt: HostRuntime) -> Result<(), Fail> {
    let content = plain(b"\xaa\xbb", false, 0)?;
    let carried = Carried::of_content(&content);
    let mut out = [7; 20];
    if !carried.payload().is_empty() && media_len(&carried, 2) <= out.len() {
        assert_eq!(rt; write_media_into(&mut out, &carried, 2, 1, 96, SSRC), 16);
    }
    assert_eq!(rt;
        out.as_slice(),
        b"\xa0\x60\x00\x01\x00\x00\x00\x00\x11\x11\x11\x11\xaa\xbb\x00\x02\x07\x07\x07\x07".as_slice()
    );
    if repair_len(&carried) <= out.len() {
        assert_eq!(rt; write_repair_into(&mut out, &carried, 258, 1, 97, SSRC), 16);
    }
    assert_eq!(rt;
        out.as_slice(),
        b"\x80\x61\x00\x01\x00\x00\x00\x00\x11\x11\x11\x11\x01\x02\xaa\xbb\x07\x07\x07\x07".as_slice()
    );
    Ok(())
}

#[test]
fn the_largest_packet_is_read_back(rt: HostRuntime) -> Result<(), Fail> {
    let content = largest(false)?;
    assert_eq!(rt; content.payload.len(), MAX_PAYLOAD);
    let octets = write_media(&content, 255, 65535, 127, 0xffffffff);
    assert_eq!(rt; octets.len(), MAX_HEADER + MAX_PAYLOAD + 255);
    let view = RtpView::read(octets.as_slice())?;
    let numbers = (
        view.padding(),
        view.sequence(),
        view.payload_type(),
        view.ssrc(),
    );
    assert_eq!(rt; numbers, (255, 65535, 127, 0xffffffff));
    let read = Content::of_view(&view)?;
    assert!(rt; read == content && content.copy() == read);
    content_is_bounded(&read);
    Ok(())
}

/// The laws, which run nothing.
#[test]
fn the_laws_of_packets() {
    spelling_is_determined();
    content_is_determined();
}

/// How long the payload of a packet is, and the refusal number of its content, or 0 where it has one.
fn content_of(octets: &[u8]) -> Result<(usize, u8), Fail> {
    let view = RtpView::read(octets)?;
    let refusal = match Content::of_view(&view) {
        Ok(_) => 0,
        Err(fault) => fault.number(),
    };
    Ok((view.payload().len(), refusal))
}

#[test]
fn what_no_content_holds(rt: HostRuntime) -> Result<(), Fail> {
    let long = after_header(0x80, &[0; TOO_LONG]);
    assert_eq!(rt; content_of(long.as_slice())?, (TOO_LONG, 37));
    let mut words = [0; 72];
    words[3] = 17;
    let many = after_header(0x90, &words);
    assert_eq!(rt; content_of(many.as_slice())?, (0, 37));
    Ok(())
}

/// The refusal number of a session, or 0 where there is one.
fn refusal_of_session(made: Result<Session, ConfigFault>) -> u8 {
    match made {
        Ok(_) => 0,
        Err(fault) => fault.number(),
    }
}

#[test]
fn sessions_that_are_refused(rt: HostRuntime) {
    for (media, repair, receiver, refusal) in [
        ((1, 96), (2, 96), 3, 51),
        ((1, 95), (2, 97), 3, 51),
        ((1, 96), (2, 128), 3, 51),
        // The types come first.
        ((1, 96), (1, 96), 3, 51),
        ((1, 96), (1, 97), 2, 52),
        ((1, 96), (2, 97), 1, 52),
        ((1, 96), (2, 97), 2, 52),
    ] {
        let made = Session::new(media.0, media.1, repair.0, repair.1, receiver);
        assert_eq!(rt; refusal_of_session(made), refusal);
    }
}

#[test]
fn sessions_of_any_media_type(rt: HostRuntime) {
    for (media, repair, receiver, refusal) in [
        // MPEG-2 transport streams, and JPEG (RFC 3551, section 6).
        ((1, 33), (2, 97), 3, 0),
        ((1, 26), (2, 97), 3, 0),
        ((1, 0), (2, 96), 3, 0),
        ((1, 63), (2, 127), 3, 0),
        ((1, 64), (2, 97), 3, 51),
        // With the marker set 72 is 200, a sender report (RFC 3550, section 12.1).
        ((1, 72), (2, 97), 3, 51),
        ((1, 95), (2, 97), 3, 51),
        ((1, 96), (2, 97), 3, 0),
        ((1, 128), (2, 97), 3, 51),
        ((1, 33), (2, 33), 3, 51),
        ((1, 33), (2, 95), 3, 51),
        ((1, 97), (2, 97), 3, 51),
        // The types come first.
        ((1, 64), (1, 97), 3, 51),
        ((1, 33), (2, 97), 1, 52),
    ] {
        let made = Session::with_any_media_type(media.0, media.1, repair.0, repair.1, receiver);
        assert_eq!(rt; refusal_of_session(made), refusal);
    }
}

#[test]
fn a_session(rt: HostRuntime) -> Result<(), Fail> {
    let session = Session::new(1, 96, 2, 97, 3)?;
    let media = (session.media_ssrc(), session.media_type());
    let repair = (session.repair_ssrc(), session.repair_type());
    assert_eq!(rt;
        (media, repair, session.receiver_ssrc()),
        ((1, 96), (2, 97), 3)
    );
    assert!(rt; Session::with_any_media_type(1, 96, 2, 97, 3)? == session);
    assert_eq!(rt;
        Session::with_any_media_type(1, 33, 2, 97, 3)?.media_type(),
        33
    );
    Ok(())
}
