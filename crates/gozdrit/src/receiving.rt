//! The receiving end for C.
ghost use Rattle.std.specs.Prelude.{ℕ, List, ◌↔◌, IsTrue};
ghost use Rattle.gozdrit.specs.declared.sizes.TheConstants.{RECEIVER_CONFIG};
ghost use Rattle.gozdrit.specs.Sizes.{SaysKnown};
ghost use Rattle.gozdrit.specs.Freeing.{AnswersFree};
ghost use Rattle.gozdrit.specs.Receiving.{AnswersReceiverNew, AnswersReceive, AnswersPlay, AnswersNack, AnswersBegin, AnswersRestart, AnswersTimes, AnswersFollow, AnswersCopies, AnswersBudget};

use crate::answers::PlayedPacket;
use crate::code::{BAD_SIZE, HELD, NO_END, OK, OUT_OF_MEMORY};
use crate::config::{MAX_FOLLOWS, ReceiverFields};
use crate::following::MeteredReceiver;
use crate::handle::Handle;
use crate::heard::ReceivedFields;
use crate::playing::play_to;
use crate::sizes::{PLAYED, RECEIVED};
use endpoint::{AskingEndpoint, PathMeter};
use rtpwire::ConfigFault;
use std::alloc::Global;
use stores::Window;
use timing::{FeedbackBudget, renew_feedback};

/// What C holds of a receiver.
pub type ReceiverHandle = Handle<MeteredReceiver>;

/// `is_known` is whether the configuration's struct says nothing that is not known here.
pub(crate) fn receiver_new(
    alloc: Global,
    config: &ReceiverFields,
    is_known: bool,
    receiver: &mut ReceiverHandle,
) -> i32
    ensures { (rest : List ℕ) → IsTrue is_known ↔ SaysKnown RECEIVER_CONFIG config.now.size rest
        → AnswersReceiverNew config.now rest receiver.old.inside result receiver.new.inside }
{
    if receiver.is_held() {
        return HELD;
    }
    if !is_known {
        return BAD_SIZE;
    }
    let (made, probation) = match (config.config(), config.probation()) {
        (Ok(made), Ok(probation)) => (made, probation),
        (Err(fault), _) | (_, Err(fault)) => return i32::from(fault.number()),
    };
    let window = config.window as usize;
    let Ok(endpoint) = AskingEndpoint::new(alloc, made, probation, window) else {
        return OUT_OF_MEMORY;
    };
    let made = MeteredReceiver {
        endpoint,
        meter: PathMeter::new(),
        follows: config.following() != 0,
        by_sent: config.following() == MAX_FOLLOWS,
        copies: 0,
        again: None,
        budget: None,
    };
    let Ok(inside) = Box::new(alloc, made) else {
        return OUT_OF_MEMORY;
    };
    receiver.put(inside);
    OK
}

pub(crate) fn receiver_free(alloc: Global, receiver: &mut ReceiverHandle) -> i32
    ensures { AnswersFree receiver.old.inside result receiver.new.inside }
{
    if !receiver.is_held() {
        return NO_END;
    }
    drop(receiver.lift(alloc));
    OK
}

pub(crate) fn receive(
    receiver: &mut ReceiverHandle,
    octets: &[u8],
    now: u64,
    heard: &mut ReceivedFields,
) -> i32
    ensures { AnswersReceive receiver.old.inside octets.now now heard.old result receiver.new.inside heard.new }
{
    if !receiver.is_held() {
        return NO_END;
    }
    if heard.size < RECEIVED {
        return BAD_SIZE;
    }
    let answer = receiver.lend().on_datagram(octets, now);
    *heard = ReceivedFields::of(heard.size, answer);
    OK
}

pub(crate) fn play(
    receiver: &mut ReceiverHandle,
    now: u64,
    played: &mut PlayedPacket,
    payload: &mut [u8],
) -> i32
    ensures { AnswersPlay receiver.old.inside now played.old payload.old result receiver.new.inside played.new payload.new }
{
    if !receiver.is_held() {
        return NO_END;
    }
    if played.size < PLAYED {
        return BAD_SIZE;
    }
    play_to(receiver.lend(), now, played, payload)
}

pub(crate) fn nack(
    receiver: &mut ReceiverHandle,
    now: u64,
    most: usize,
    length: &mut usize,
    out: &mut [u8],
) -> i32
    ensures { AnswersNack receiver.old.inside now most length.old out.old result receiver.new.inside length.new out.new }
{
    if !receiver.is_held() {
        return NO_END;
    }
    match receiver.lend().ask_most_into(out, now, most) {
        Ok(Some(len)) => *length = len,
        Ok(None) => *length = 0,
        Err(short) => return i32::from(short.number()),
    }
    OK
}

pub(crate) fn begin(receiver: &mut ReceiverHandle, first: u16) -> i32
    ensures { AnswersBegin receiver.old.inside first result receiver.new.inside }
{
    if !receiver.is_held() {
        return NO_END;
    }
    match receiver.lend().endpoint.begin(first) {
        Ok(()) => OK,
        Err(fault) => i32::from(fault.number()),
    }
}

pub(crate) fn restart(receiver: &mut ReceiverHandle) -> i32
    ensures { AnswersRestart receiver.old.inside result receiver.new.inside }
{
    if !receiver.is_held() {
        return NO_END;
    }
    let inside = receiver.lend();
    inside.endpoint.restart();
    inside.meter.restart();
    inside.again = None;
    renew_feedback(&mut inside.budget);
    OK
}

pub(crate) fn set_times(receiver: &mut ReceiverHandle, patience: u64, delay: u64, retry: u64) -> i32
    ensures { AnswersTimes receiver.old.inside patience delay retry result receiver.new.inside }
{
    if !receiver.is_held() {
        return NO_END;
    }
    let inside = receiver.lend();
    match inside.endpoint.set_times(patience, delay, retry) {
        Ok(()) => {
            inside.meter.renew();
            OK
        }
        Err(fault) => i32::from(fault.number()),
    }
}

pub(crate) fn follow(receiver: &mut ReceiverHandle, follows: u8) -> i32
    ensures { AnswersFollow receiver.old.inside follows result receiver.new.inside }
{
    if !receiver.is_held() {
        return NO_END;
    }
    if follows > MAX_FOLLOWS {
        return i32::from(ConfigFault::BadLimit.number());
    }
    let inside = receiver.lend();
    inside.follows = follows != 0;
    inside.by_sent = follows == MAX_FOLLOWS;
    inside.meter.renew();
    OK
}

/// How often a NACK leaves at most.
const MAX_COPIES: u8 = 2;

pub(crate) fn set_copies(receiver: &mut ReceiverHandle, copies: u8) -> i32
    ensures { AnswersCopies receiver.old.inside copies result receiver.new.inside }
{
    if !receiver.is_held() {
        return NO_END;
    }
    if copies > MAX_COPIES {
        return i32::from(ConfigFault::BadLimit.number());
    }
    receiver.lend().copies = copies;
    OK
}

pub(crate) fn set_budget(receiver: &mut ReceiverHandle, earned: u8) -> i32
    ensures { AnswersBudget receiver.old.inside earned result receiver.new.inside }
{
    if !receiver.is_held() {
        return NO_END;
    }
    if earned > 1 {
        return i32::from(ConfigFault::BadLimit.number());
    }
    let receiver = receiver.lend();
    receiver.budget = if earned == 0 {
        None
    } else {
        Some(FeedbackBudget::new())
    };
    // What was asked for before is not asked for again: nothing that came since earned it.
    receiver.again = None;
    OK
}
