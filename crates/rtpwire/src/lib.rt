//! RTP packets as octets (RFC 3550, section 5): read without a copy, and written. So are
//! retransmissions (RFC 4588, section 4) and datagrams on a stream (RFC 4571, section 2).
#![tactic(auto)]

mod carried;
mod content;
mod fault;
mod fill;
mod first_octet;
mod framing;
mod laws;
mod limits;
mod octets;
mod retransmission;
mod rtp;
mod session;
mod write;

pub use carried::{Carried, Words};
pub use content::{Content, Datagram, Extension};
pub use fault::{ConfigFault, ContentFault, FrameFault, RtpFault, TooShort};
pub use fill::fill_front;
pub use framing::{Deframer, write_frame};
pub use laws::{
    checks_are_in_order, content_is_bounded, content_is_determined, framing_is_determined,
    repair_is_determined, spelling_is_determined,
};
pub use limits::{MAX_DATAGRAM, MAX_FRAME, MAX_HEADER, MAX_PAYLOAD, MAX_SOURCES, MAX_WORDS};
pub use octets::{push_octets, push_u16, push_u32, u16_at, u32_at};
pub use retransmission::{RtxView, repair_len, write_repair, write_repair_into, write_repair_to};
pub use rtp::RtpView;
pub use session::Session;
pub use write::{media_len, write_media, write_media_into, write_media_to};
