//! How much a packet, a content and a frame hold. RTP's own limits are wider (RFC 3550, section 5.1; RFC 4571,
//! section 2), but for that on sources: the others are this project's. They are said here alone: all that reads,
//! writes, keeps or promises names them, and what follows from them is computed here.

/// How many octets the payload of a content has at most. It is the one to change for larger payloads (`tools/limits`);
/// [`MAX_DATAGRAM`] and [`MAX_FRAME`] follow.
pub const MAX_PAYLOAD: usize = 1200;

/// How many contributing sources a packet has at most: their count has four bits (RFC 3550, section 5.1).
pub const MAX_SOURCES: usize = 15;

/// How many words of 32 bits the header extension of a content has at most.
pub const MAX_WORDS: usize = 16;

/// How many octets all that stands before a content's payload has at most: twelve, four for each source,
/// and four and the words of a header extension.
pub const MAX_HEADER: usize = 12 + 4 * MAX_SOURCES + 4 + 4 * MAX_WORDS;

/// How many octets all that stands before the original payload of a retransmission has at most: with the two of the
/// original's number.
pub(crate) const MAX_REPAIR_HEADER: usize = MAX_HEADER + 2;

/// How many octets the largest media packet has: with all that may stand before its payload, and 255 of padding.
const MAX_MEDIA: usize = MAX_HEADER + MAX_PAYLOAD + 255;

/// How many octets a datagram has at most: those of the largest media packet, rounded up to a multiple of 64.
pub const MAX_DATAGRAM: usize = (MAX_MEDIA + 63) / 64 * 64;

/// How many octets a datagram on a stream has at most: with the two of its length.
pub const MAX_FRAME: usize = MAX_DATAGRAM + 2;

// Each packet that is written fits into a datagram, and each datagram's length into the two octets before a frame.
const _: () = prove!(MAX_MEDIA <= MAX_DATAGRAM);

const _: () = prove!(MAX_REPAIR_HEADER + MAX_PAYLOAD <= MAX_DATAGRAM);

const _: () = prove!(MAX_DATAGRAM < 65536);
