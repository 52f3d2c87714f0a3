//! What a script can't say of a sender: its configurations, its laws, and a whole cycle of sequence numbers.
use crate::session::session;
use arrayvec::ArrayVec;
use rtpwire::Content;
use sender::*;
use std::test::Fail;
use stores::{History, RingHistory};

/// A sender of the first numbers 1 and 5.
fn config() -> Result<SenderConfig, Fail> {
    match SenderConfig::new(session()?, 1, 5, 3) {
        Ok(config) => Ok(config),
        Err(_) => Err(Fail::from("a good configuration")),
    }
}

#[test]
fn no_repeats_are_refused(rt: HostRuntime) -> Result<(), Fail> {
    match SenderConfig::new(session()?, 1, 5, 0) {
        Ok(_) => return Err(Fail::from("a refusal")),
        Err(fault) => assert_eq!(rt; fault.number(), 53),
    }
    Ok(())
}

#[test]
fn what_a_configuration_says(rt: HostRuntime) -> Result<(), Fail> {
    let session = session()?;
    match SenderConfig::new(session, 65535, 5, 1) {
        Ok(config) => {
            let says = (
                config.session(),
                config.first(),
                config.repair_first(),
                config.repeats(),
            );
            assert_eq!(rt; says, (session, 65535, 5, 1));
        }
        Err(_) => return Err(Fail::from("a good configuration")),
    }
    Ok(())
}

/// The laws, which run nothing.
#[test]
fn the_laws_of_a_sender() {
    sending_is_determined();
    sending_is_in_order();
    feedback_is_determined();
    feedback_is_in_order();
    shared_feedback_is_determined();
    shared_feedback_is_in_order();
    marking_the_last_is_feedback();
    any_reporter_is_heard();
    repairing_is_determined();
}

/// No run of a test gets to the last place.
#[test]
fn the_number_of_no_place_left(rt: HostRuntime) {
    assert_eq!(rt; SendFault::Exhausted.number(), 45);
}

/// Sends a content whose payload is aa, and tells whether it was sent.
fn sends<H: History>(sender: &mut Sender<H>) -> bool {
    let mut payload = ArrayVec::new();
    payload.push(0xaa);
    let content = Content {
        payload,
        timestamp: 0,
        marker: false,
        sources: ArrayVec::new(),
        extension: None,
    };
    sender.send(content, 0).is_ok()
}

/// How many packets a NACK for number 1 marks, if it is taken.
fn marks<H: History>(sender: &mut Sender<H>) -> Option<u32> {
    let nack = b"\x81\xcd\x00\x03\x33\x33\x33\x33\x11\x11\x11\x11\x00\x01\x00\x00";
    match sender.on_feedback(nack) {
        Ok(marked) => Some(marked.places),
        Err(_) => None,
    }
}

/// Whether this packet is retransmitted, that of this place.
fn repairs<H: History>(sender: &mut Sender<H>, place: u64, octets: &[u8]) -> bool {
    match sender.next_repair() {
        Some((repaired, datagram)) => repaired.value() == place && datagram.as_slice() == octets,
        None => false,
    }
}

/// A number of 16 bits names what has it now, one cycle later too.
#[test]
fn old_feedback_marks_a_later_packet(rt: HostRuntime) -> Result<(), Fail> {
    let Ok(history) = RingHistory::new(rt.alloc(), 8) else {
        return Err(Fail::from("memory is ample"));
    };
    let mut sender = Sender::new(config()?, history);
    let mut sent = true;
    for _ in 0..65536 {
        sent = sends(&mut sender) && sent;
    }
    assert!(rt; sent && marks(&mut sender) == Some(0));
    assert!(rt; sends(&mut sender) && marks(&mut sender) == Some(1));
    let again = b"\x80\x61\x00\x05\x00\x00\x00\x00\x22\x22\x22\x22\x00\x01\xaa";
    assert!(rt; repairs(&mut sender, 131073, again));
    Ok(())
}
