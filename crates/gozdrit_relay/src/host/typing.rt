//! Datagrams of a session with several payload types, as the relay's session of one has them, and back.
use super::Host;
use super::taking::fill;
use payload_types::{Fitted, PayloadTypes};
use relays::{Octets, OutsideFault, Side};
use rtpwire::MAX_DATAGRAM;
use std::net::SocketAddr;

impl Host<'_> {
    /// Has a datagram that came be as the relay's session has it.
    #[inline(never)]
    pub(super) fn enter_session(&self, room: &mut Octets) -> Result<(), OutsideFault> {
        let Some(types) = &self.types else {
            return Ok(());
        };
        let mut out = [0; MAX_DATAGRAM];
        match types.into_session(room, &mut out) {
            Fitted::Same => Ok(()),
            Fitted::Written(len) => fill(room, out.get(..len).unwrap_or(&[])),
            Fitted::TooLong => {
                lengthen(types, room);
                Ok(())
            }
            // Nothing that comes.
            Fitted::NoType => Ok(()),
        }
    }

    /// Sends a datagram of the relay's session under the types of the stream.
    #[inline(never)]
    pub(super) fn leave_session(&mut self, side: Side, to: SocketAddr, octets: &[u8]) {
        let Some(types) = &self.types else {
            return;
        };
        let mut out = [0; MAX_DATAGRAM];
        match types.out_of_session(octets, &mut out) {
            Fitted::Same => self.send_as_it_is(side, to, octets),
            Fitted::Written(len) => {
                if let Some(written) = out.get(..len) {
                    self.send_as_it_is(side, to, written);
                }
            }
            // Nothing that entered the session.
            Fitted::TooLong | Fitted::NoType => {}
        }
    }
}

/// Has a packet that no session can hold be one of the session's that is too long for it, so that the relay refuses it, and counts and tells that.
fn lengthen(types: &PayloadTypes, room: &mut Octets) {
    let first = types.first();
    if let Some(second) = room.get_mut(1) {
        let is_media = types.of_media(*second & 0x7f).is_some();
        let payload_type = if is_media { first.media } else { first.repair };
        *second = *second & 0x80 | payload_type;
    }
    let _ = room.try_push(0);
}
