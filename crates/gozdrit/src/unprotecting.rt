//! What comes, its protection taken off for C.
ghost use Rattle.std.specs.Prelude.{◌≡◌, ◌≤◌, ◌^◌, length, OnErr};
ghost use Rattle.gozdrit.specs.Freeing.{AnswersFree};
ghost use Rattle.gozdrit.specs.Protection.{AnswersSrtpNew, AnswersUnprotect, IsNewInbound, Unprotects};
ghost use Rattle.endpoint.specs.Demultiplex.{is_control};

use crate::code::{BAD_KEY, HELD, NO_END, OK, OUT_OF_MEMORY, TOO_LARGE};
use crate::handle::Handle;
use crate::protecting::MAX_PROTECTED;
use crate::srtp_key::read_key;
use contexts::{ContextFault, Inbound};
use endpoint::is_control;
use std::alloc::Global;

/// What C holds of what takes the protection off datagrams.
pub type SrtpReceiverHandle = Handle<Inbound>;

pub(crate) fn srtp_receiver_new(
    alloc: Global,
    profile: u16,
    key: &[u8],
    receiver: &mut SrtpReceiverHandle,
) -> i32
    ensures { AnswersSrtpNew IsNewInbound profile key.now receiver.old.inside result receiver.new.inside }
{
    if receiver.is_held() {
        return HELD;
    }
    let Some((profile, master)) = read_key(profile, key) else {
        return BAD_KEY;
    };
    let Ok(made) = Inbound::new(alloc, profile, master) else {
        return OUT_OF_MEMORY;
    };
    let Ok(inside) = Box::new(alloc, made) else {
        return OUT_OF_MEMORY;
    };
    receiver.put(inside);
    OK
}

pub(crate) fn srtp_receiver_free(alloc: Global, receiver: &mut SrtpReceiverHandle) -> i32
    ensures { AnswersFree receiver.old.inside result receiver.new.inside }
{
    if !receiver.is_held() {
        return NO_END;
    }
    drop(receiver.lift(alloc));
    OK
}

pub(crate) fn unprotect(
    receiver: &mut SrtpReceiverHandle,
    octets: &mut [u8],
    now: u64,
    length: &mut usize,
) -> i32
    ensures { AnswersUnprotect receiver.old.inside octets.old length.old result receiver.new.inside octets.new length.new }
{
    if !receiver.is_held() {
        return NO_END;
    }
    if octets.len() > MAX_PROTECTED {
        return TOO_LARGE;
    }
    match open(receiver.lend(), octets, now) {
        Ok(len) => {
            *length = len;
            OK
        }
        Err(fault) => i32::from(fault.number()),
    }
}

/// Takes the protection off a datagram in place, and answers how many octets it has then.
fn open(inbound: &mut Inbound, octets: &mut [u8], now: u64) -> Result<usize, ContextFault>
    requires { length octets.old ≤ 2 ^ 20 }
    ensures unprotects { Unprotects (is_control octets.old) inbound.old octets.old result octets.new inbound.new }
    ensures err { OnErr result (octets.new ≡ octets.old) }
{
    if is_control(octets) {
        inbound.open_rtcp(octets)
    } else {
        inbound.open_rtp(octets, now)
    }
}
