//! What the packet of a number is.
use crate::payloads::{Payloads, scattered};
use crate::shape::Shape;
use rtpwire::{Carried, ContentFault, Words};

/// The profile of an extension whose elements have one octet before them (RFC 8285), as browsers send them.
const ONE_BYTE: u16 = 0xbede;

/// What the packet of this number carries, and how many octets of padding it has.
pub fn packet_of<'a>(
    payloads: &'a Payloads,
    shape: &Shape,
    number: u64,
) -> Result<(Carried<'a>, u8), ContentFault> {
    let (timestamp, is_last) = shape.timestamp_of(number);
    let content = shape.content_of(number);
    let payload = payloads.of(content, &shape.lengths);
    if !shape.is_called {
        let carried = Carried::of_fields(payload, timestamp, is_last, Words::Numbers(&[]), None)?;
        return Ok((carried, 0));
    }
    let drawn = scattered(content);
    let sources = Words::Octets(payloads.words_of(content, sources_by(drawn)));
    let words = 2 + (drawn >> 8) % 3;
    let extension = Words::Octets(payloads.words_of(content, words as usize));
    let carried = Carried::of_fields(
        payload,
        timestamp,
        is_last,
        sources,
        Some((ONE_BYTE, extension)),
    )?;
    Ok((carried, padding_by(drawn)))
}

/// How many sources a packet has: one of eight has some.
fn sources_by(drawn: u64) -> usize {
    if drawn >> 32 & 7 == 0 {
        1 + ((drawn >> 12) % 3) as usize
    } else {
        0
    }
}

/// How many octets of padding a packet has: one of sixteen has some.
fn padding_by(drawn: u64) -> u8 {
    if drawn >> 36 & 15 == 0 {
        (1 + (drawn >> 16) % 64) as u8
    } else {
        0
    }
}
