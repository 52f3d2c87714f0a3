//! Script lines that are as long as can be, and longer. The others are rows that the built program runs.

use arrayvec::ArrayVec;
use lines::{parse_config, parse_event};
use rtpwire::{Content, Datagram};
use std::alloc::{AllocError, Global};
use std::test::Fail;
use world::{End, Event};

/// A beginning, an octet many times, and an end.
fn line(
    alloc: Global,
    first: &[u8],
    (octet, times): (u8, usize),
    last: &[u8],
) -> Result<Vec<u8>, AllocError> {
    let mut line = Vec::new(alloc);
    line.extend_from_slice(first)?;
    for _ in 0..times {
        line.push(octet)?;
    }
    line.extend_from_slice(last)?;
    Ok(line)
}

/// Fills an array with an octet.
fn fill<const N: usize>(octets: &mut ArrayVec<u8, N>, octet: u8) {
    for _ in 0..N {
        let _ = octets.try_push(octet);
    }
}

#[test]
fn as_long_as_can_be(rt: HostRuntime) -> Result<(), Fail> {
    let alloc = rt.alloc();
    let payload = line(alloc, b"S 0 0 0 ", (b'f', 2400), b" - -")?;
    let mut says = Content {
        payload: ArrayVec::new(),
        timestamp: 0,
        marker: false,
        sources: ArrayVec::new(),
        extension: None,
    };
    fill(&mut says.payload, 0xff);
    assert!(rt; parse_event(&payload) == Some(Event::Send(says, 0)));
    let datagram = line(alloc, b"I r ", (b'1', 3200), b" 18446744073709551615")?;
    let mut octets = Datagram::new();
    fill(&mut octets, 0x11);
    let says = Event::Inject(End::Receiver, octets, u64::MAX);
    assert!(rt; parse_event(&datagram) == Some(says));
    Ok(())
}

#[test]
fn too_long(rt: HostRuntime) -> Result<(), Fail> {
    let alloc = rt.alloc();
    let lines = [
        line(alloc, b"S 0 0 0 ", (b'f', 2401), b" - -")?,
        line(alloc, b"S 0 0 0 ", (b'f', 2402), b" - -")?,
        line(alloc, b"S 0 0 0 - ", (b'0', 128), b" -")?,
        line(alloc, b"S 0 0 0 - - abcd", (b'0', 136), b"")?,
        line(alloc, b"I r ", (b'1', 3202), b" 0")?,
        line(alloc, b"I r ", (b'1', 4096 - 6), b" 0")?,
        line(alloc, b"I r ", (b'1', 4097 - 6), b" 0")?,
        line(alloc, b"P ", (b'0', 4096 - 2), b"")?,
        line(alloc, b"P ", (b'0', 4097 - 2), b"")?,
    ];
    for line in lines {
        assert_eq!(rt; parse_event(&line), None);
    }
    let config = line(alloc, b"config ", (b'0', 4090), b" 0 1 1 0 1 1 1")?;
    assert_eq!(rt; parse_config(&config), None);
    Ok(())
}
