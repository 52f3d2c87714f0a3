//! Places and the feedback that asks for them, to writers with much room and with little.
use crate::fakes::{Taker, ample};
use commands::{PackFault, Stream, pack_text};
use places::Place;
use std::alloc::Global;
use std::test::Fail;

/// The line of the places 1 and 17.
const LINE: &[u8] = b"81cd0003333333331111111100018000\n";

/// Packs places, to this writer.
fn packed(
    alloc: Global,
    values: &[u64],
    writer: Taker,
) -> Result<(Result<(), PackFault>, Vec<u8>), Fail> {
    let mut places = Vec::new(alloc);
    for value in values {
        places.push(Place::new(*value).ok_or("a place")?)?;
    }
    let mut output = Stream { writer };
    let outcome = pack_text(&places, &mut output);
    let Stream { writer } = output;
    let Taker { taken, .. } = writer;
    Ok((outcome, taken))
}

#[test]
fn places_that_rise(rt: HostRuntime) -> Result<(), Fail> {
    let (outcome, line) = packed(rt.alloc(), &[1, 17], ample(rt.alloc()))?;
    assert_eq!(rt; outcome, Ok(()));
    assert_eq!(rt; line.as_slice(), LINE);
    Ok(())
}

#[test]
fn places_that_do_not(rt: HostRuntime) -> Result<(), Fail> {
    let rows: [&[u64]; 3] = [&[5, 5], &[17, 1], &[0, 8192]];
    for values in rows {
        let (outcome, lines) = packed(rt.alloc(), values, ample(rt.alloc()))?;
        assert_eq!(rt; outcome, Err(PackFault::NotRising));
        assert!(rt; lines.is_empty());
    }
    Ok(())
}

#[test]
fn a_writer_that_fails_after_each_octet(rt: HostRuntime) -> Result<(), Fail> {
    for room in 0..LINE.len() {
        let mut writer = ample(rt.alloc());
        writer.piece = 7;
        writer.room = room;
        let (outcome, line) = packed(rt.alloc(), &[1, 17], writer)?;
        assert_eq!(rt; outcome, Err(PackFault::Write));
        assert_eq!(rt; line.as_slice(), &LINE[..room]);
    }
    Ok(())
}
