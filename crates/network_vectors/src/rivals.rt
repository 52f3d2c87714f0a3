//! Which SSRC the retransmissions have, where that is learnt: who repairs is learnt anew, where another one was learnt that repairs nothing.
use crate::ends::{media, repair, session};
use endpoint::{AskingEndpoint, Probation};
use receiver::ReceiverConfig;
use std::alloc::Global;
use std::test::Fail;
use stores::RingWindow;

/// A stranger, and the sender, by an octet of their SSRCs; and nobody.
const STRANGER: u8 = 0x66;

const SENDER: u8 = 0x22;

const NOBODY: u8 = 0;

/// What is done, or comes.
#[derive(Clone, Copy)]
enum Step {
    /// Media with this number.
    Takes(u16),
    /// What is missing is asked for.
    Asks,
    /// Of whom a retransmission comes, of which number, how it is answered, by the number of the refusal or 0, and who is learnt then.
    Comes(u8, u16, u8, u8),
    /// A restart by call.
    Restarts,
}

use Step::*;

/// One that learns, and took nothing.
fn learner(alloc: Global) -> Result<AskingEndpoint<RingWindow>, Fail> {
    let Ok(config) = ReceiverConfig::learning(session()?, 100, 20, 3) else {
        return Err(Fail::from("a good configuration"));
    };
    match AskingEndpoint::new(alloc, config, Probation::usual(), 64) {
        Ok(endpoint) => Ok(endpoint),
        Err(_) => Err(Fail::from("memory is ample")),
    }
}

/// The retransmission of a number under an SSRC of four such octets: the number of the refusal, or 0.
fn comes(endpoint: &mut AskingEndpoint<RingWindow>, source: u8, seq: u16) -> u8 {
    let mut octets = repair(seq, 0);
    octets[8] = source;
    octets[9] = source;
    octets[10] = source;
    octets[11] = source;
    match endpoint.on_datagram(octets.as_slice(), 1).0 {
        Ok(_) => 0,
        Err(fault) => fault.number(),
    }
}

/// An octet of the SSRC that was learnt.
fn learnt(endpoint: &AskingEndpoint<RingWindow>) -> u8 {
    match endpoint.endpoint().core().repair_source() {
        Some(source) => source.to_be_bytes()[0],
        None => NOBODY,
    }
}

/// Does a step, and whether it went as it says.
fn does(endpoint: &mut AskingEndpoint<RingWindow>, step: &Step) -> bool {
    match *step {
        Takes(seq) => endpoint.on_datagram(media(seq, 0).as_slice(), 1).0.is_ok(),
        Asks => endpoint.ask_most(1, 100).is_some(),
        Comes(source, seq, answer, after) => {
            comes(endpoint, source, seq) == answer && learnt(endpoint) == after
        }
        Restarts => {
            endpoint.restart();
            true
        }
    }
}

/// The first step that goes wrong, if one does. It has what is large, as whatever a test holds costs its proof.
fn wrong_step(alloc: Global, steps: &[Step]) -> Result<Option<usize>, Fail> {
    let mut endpoint = learner(alloc)?;
    for (index, step) in steps.iter().enumerate() {
        if !does(&mut endpoint, step) {
            return Ok(Some(index));
        }
    }
    Ok(None)
}

#[test]
fn who_repairs_is_learnt_anew(rt: HostRuntime) -> Result<(), Fail> {
    const STEPS: &[Step] = &[
        Takes(10),
        Takes(20),
        Asks,
        // A stranger is heard first. The second that the sender repairs has it fall, and the third is taken.
        Comes(STRANGER, 11, 0, STRANGER),
        Comes(SENDER, 12, 31, STRANGER),
        Comes(SENDER, 13, 31, NOBODY),
        Comes(SENDER, 12, 0, SENDER),
        // One of a stranger, and one of the sender that takes it back.
        Comes(STRANGER, 13, 31, SENDER),
        Comes(SENDER, 13, 0, SENDER),
        Comes(STRANGER, 14, 31, SENDER),
        Comes(SENDER, 14, 0, SENDER),
        // Two in a row have the sender fall, who is learnt anew at once.
        Comes(STRANGER, 15, 31, SENDER),
        Comes(STRANGER, 15, 31, NOBODY),
        Comes(SENDER, 15, 0, SENDER),
    ];
    assert_eq!(rt; wrong_step(rt.alloc(), STEPS)?, None);
    Ok(())
}

#[test]
fn what_was_not_asked_for(rt: HostRuntime) -> Result<(), Fail> {
    const STEPS: &[Step] = &[
        Takes(10),
        Takes(20),
        Asks,
        Takes(25),
        Comes(SENDER, 11, 0, SENDER),
        // What is missing and was not asked for, what is held, and what lies ahead has nobody fall, though often.
        Comes(STRANGER, 21, 31, SENDER),
        Comes(STRANGER, 22, 31, SENDER),
        Comes(STRANGER, 23, 31, SENDER),
        Comes(STRANGER, 11, 31, SENDER),
        Comes(STRANGER, 11, 31, SENDER),
        Comes(STRANGER, 26, 31, SENDER),
        Comes(STRANGER, 27, 31, SENDER),
        // One that was asked for is kept in mind over these.
        Comes(STRANGER, 12, 31, SENDER),
        Comes(STRANGER, 24, 31, SENDER),
        Comes(STRANGER, 12, 31, NOBODY),
    ];
    assert_eq!(rt; wrong_step(rt.alloc(), STEPS)?, None);
    Ok(())
}

#[test]
fn a_restart_forgets_who_was_in_doubt(rt: HostRuntime) -> Result<(), Fail> {
    const STEPS: &[Step] = &[
        Takes(10),
        Takes(20),
        Asks,
        Comes(SENDER, 11, 0, SENDER),
        Comes(STRANGER, 12, 31, SENDER),
        Restarts,
        Takes(10),
        Takes(20),
        Asks,
        Comes(SENDER, 11, 0, SENDER),
        Comes(STRANGER, 12, 31, SENDER),
        Comes(SENDER, 12, 0, SENDER),
    ];
    assert_eq!(rt; wrong_step(rt.alloc(), STEPS)?, None);
    Ok(())
}
