//! Packets with a longer payload than this program was built for.
use endpoint::is_control;
use receiver::ReceiveFault;
use relays::Note;
use rtpwire::{MAX_PAYLOAD, RtpView};

/// Whether octets that came were left out, as a note has it, since they are a packet with a longer payload than this program carries.
pub fn is_too_long(note: &Note, octets: &[u8]) -> bool {
    is_left_out(note) && !is_control(octets) && payload_of(octets) > MAX_PAYLOAD
}

/// Whether a packet may have been too long for what a note says of it.
fn is_left_out(note: &Note) -> bool {
    match note {
        Note::Unsent => true,
        Note::Heard(Err(fault), _) | Note::Moved(_, Err(fault), _) => {
            matches!(fault, ReceiveFault::Content(_))
        }
        _ => false,
    }
}

/// How many octets the payload of a packet has. What is none has no payload.
fn payload_of(octets: &[u8]) -> usize {
    match RtpView::read(octets) {
        Ok(view) => view.payload().len(),
        Err(_) => 0,
    }
}
