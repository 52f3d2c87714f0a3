//! What a stream is in.
use crate::command_line::Options;
use crate::draws::drawn_start;
use crate::session_types::types_in;
use crate::transport_stream::{MP2T, Payloader};
use payload_types::PayloadTypes;
use rtpwire::MAX_PAYLOAD;

/// What the stream is in: on the side that is no network, and of which types it is.
#[derive(Drop)]
pub struct StreamForm {
    /// What makes RTP of MPEG-TS that an application sends without it, where it does.
    pub payloader: Option<Payloader>,
    /// Whether a player takes payloads alone.
    pub sends_payloads: bool,
    /// The payload types, where there are several.
    pub types: Option<PayloadTypes>,
}

impl StreamForm {
    /// What the options say, before a network or behind it.
    pub fn of(rt: &HostRuntime, options: &Options<'_>, is_sender: bool) -> StreamForm {
        let payloader = if options.is_ts && is_sender {
            let (ssrc, number) = drawn_start(rt);
            Some(Payloader {
                media_type: options.media_type.unwrap_or(MP2T),
                ssrc: options.ssrc.unwrap_or(ssrc),
                number: options.first.unwrap_or(number),
            })
        } else {
            None
        };
        StreamForm {
            payloader,
            sends_payloads: options.is_ts && !is_sender,
            types: options.types.and_then(types_in),
        }
    }
}

/// How many octets a payload has at most: one fewer where its type goes with it.
pub fn longest(has_types: bool) -> usize {
    MAX_PAYLOAD - usize::from(has_types)
}
