use crate::contents::{largest, plain, with_extension};
use rtpwire::*;
use std::test::Fail;

const MEDIA_SSRC: u32 = 0x11111111;

const REPAIR_SSRC: u32 = 0x22222222;

/// One octet more than a content's payload has.
const TOO_LONG: usize = MAX_PAYLOAD + 1;

#[test]
fn a_repair_is_written(rt: HostRuntime) -> Result<(), Fail> {
    let repair = write_repair(&plain(b"\xaa", true, 100)?, 1, 5, 97, REPAIR_SSRC);
    let row = b"\x80\xe1\x00\x05\x00\x00\x00\x64\x22\x22\x22\x22\x00\x01\xaa";
    assert_eq!(rt; repair.as_slice(), row.as_slice());

    let whole = write_repair(&with_extension()?, 1, 5, 97, REPAIR_SSRC);
    let row =
        b"\x91\xe1\x00\x05\x00\x00\x00\x64\x22\x22\x22\x22\x00\x00\x00\x07\xbe\xef\x00\x01\x00\x00\x00\x01\x00\x01\xaa";
    assert_eq!(rt; whole.as_slice(), row.as_slice());
    Ok(())
}

#[test]
fn the_padding_of_the_original_is_left_out(rt: HostRuntime) -> Result<(), Fail> {
    let content = with_extension()?;
    assert_eq!(rt; content.payload.len(), 1);
    let media = write_media(&content, 3, 1, 96, MEDIA_SSRC);
    let view = RtpView::read(media.as_slice())?;
    assert_eq!(rt; view.padding(), 3);
    let repair = write_repair(
        &Content::of_view(&view)?,
        view.sequence(),
        5,
        97,
        REPAIR_SSRC,
    );
    let row =
        b"\x91\xe1\x00\x05\x00\x00\x00\x64\x22\x22\x22\x22\x00\x00\x00\x07\xbe\xef\x00\x01\x00\x00\x00\x01\x00\x01\xaa";
    assert_eq!(rt; repair.as_slice(), row.as_slice());
    Ok(())
}

/// What a retransmission shows: its original number, its payload, and the content in it.
fn read(octets: &[u8]) -> Result<(u16, u8, Content), Fail> {
    let view = RtpView::read(octets)?;
    let repair = RtxView::read(&view)?;
    let content = Content::of_rtx(&repair)?;
    if content.payload.as_slice() != repair.payload() {
        return Err("one payload".into());
    }
    Ok((repair.original(), view.padding(), content))
}

#[test]
fn the_largest_repair_is_read_back(rt: HostRuntime) -> Result<(), Fail> {
    let content = largest(true)?;
    let octets = write_repair(&content, 65535, 0, 127, 0xffffffff);
    assert_eq!(rt; octets.len(), MAX_HEADER + 2 + MAX_PAYLOAD);
    let view = RtpView::read(octets.as_slice())?;
    let numbers = (view.sequence(), view.payload_type(), view.ssrc());
    assert_eq!(rt; numbers, (0, 127, 0xffffffff));
    assert!(rt; read(octets.as_slice())? == (65535, 0, content));
    Ok(())
}

/// The law, which runs nothing.
#[test]
fn the_law_of_repairs() {
    repair_is_determined();
}

#[test]
fn the_number_is_no_part_of_a_payload(rt: HostRuntime) -> Result<(), Fail> {
    for (size, refusal) in [(MAX_PAYLOAD, 0), (TOO_LONG, 37)] {
        assert!(rt; size <= TOO_LONG);
        let mut octets = Datagram::new();
        push_octets(
            &mut octets,
            b"\x80\x61\x00\x05\x00\x00\x00\x00\x22\x22\x22\x22\x00\x01",
        );
        push_octets(&mut octets, &[0xaa; TOO_LONG][..size]);
        let view = RtpView::read(octets.as_slice())?;
        let repair = RtxView::read(&view)?;
        let refused = Content::of_rtx(&repair).map_err(|fault| fault.number());
        assert_eq!(rt; refused.err().unwrap_or(0), refusal);
    }
    Ok(())
}
