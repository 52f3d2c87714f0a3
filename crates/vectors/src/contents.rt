//! Contents for the rows of media packets and of retransmissions.
use arrayvec::ArrayVec;
use rtpwire::*;
use std::test::Fail;

fn octets<const N: usize>(octets: &[u8]) -> Result<ArrayVec<u8, N>, Fail> {
    Ok(ArrayVec::try_from(octets).ok().ok_or("the octets fit")?)
}

fn words<const N: usize>(words: &[u32]) -> Result<ArrayVec<u32, N>, Fail> {
    Ok(ArrayVec::try_from(words).ok().ok_or("the words fit")?)
}

/// A content with this payload, marker and timestamp, and nothing else.
pub(crate) fn plain(payload: &[u8], marker: bool, timestamp: u32) -> Result<Content, Fail> {
    Ok(Content {
        payload: octets(payload)?,
        timestamp,
        marker,
        sources: ArrayVec::new(),
        extension: None,
    })
}

/// A content with this payload, these sources and an extension of these words.
fn extended(payload: &[u8], marker: bool, sources: &[u32], list: &[u32]) -> Result<Content, Fail> {
    let words = words(list)?;
    Ok(Content {
        payload: octets(payload)?,
        timestamp: 100,
        marker,
        sources: self::words(sources)?,
        extension: Some(Extension {
            profile: 0xbeef,
            words,
        }),
    })
}

/// A content with a payload of one octet, a source and an extension of one word.
pub(crate) fn with_extension() -> Result<Content, Fail> {
    extended(b"\xaa", true, &[7], &[1])
}

/// The largest content.
pub(crate) fn largest(marker: bool) -> Result<Content, Fail> {
    extended(
        &[0xaa; MAX_PAYLOAD],
        marker,
        &[7; MAX_SOURCES],
        &[9; MAX_WORDS],
    )
}
