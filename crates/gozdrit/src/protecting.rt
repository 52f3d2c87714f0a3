//! What leaves, protected for C.
ghost use Rattle.std.specs.Prelude.{◌≡◌, ◌≤◌, ◌^◌, length, OnErr};
ghost use Rattle.gozdrit.specs.Freeing.{AnswersFree};
ghost use Rattle.gozdrit.specs.Protection.{AnswersProtect, AnswersSrtpNew, IsNewOutbound, Protects, growth};

use crate::code::{BAD_KEY, HELD, NO_END, NO_ROOM, OK, OUT_OF_MEMORY, TOO_LARGE};
use crate::handle::Handle;
use crate::srtp_key::read_key;
use contexts::{ContextFault, Outbound};
use endpoint::is_control;
use srtp::{RTCP_GROWTH, TAG};
use std::alloc::Global;

/// How many octets a datagram has at most that is protected, or whose protection is taken off.
pub(crate) const MAX_PROTECTED: usize = 65535;

/// What C holds of what protects datagrams.
pub type SrtpSenderHandle = Handle<Outbound>;

pub(crate) fn srtp_sender_new(
    alloc: Global,
    profile: u16,
    key: &[u8],
    sender: &mut SrtpSenderHandle,
) -> i32
    ensures { AnswersSrtpNew IsNewOutbound profile key.now sender.old.inside result sender.new.inside }
{
    if sender.is_held() {
        return HELD;
    }
    let Some((profile, master)) = read_key(profile, key) else {
        return BAD_KEY;
    };
    let Ok(made) = Outbound::new(alloc, profile, master) else {
        return OUT_OF_MEMORY;
    };
    let Ok(inside) = Box::new(alloc, made) else {
        return OUT_OF_MEMORY;
    };
    sender.put(inside);
    OK
}

pub(crate) fn srtp_sender_free(alloc: Global, sender: &mut SrtpSenderHandle) -> i32
    ensures { AnswersFree sender.old.inside result sender.new.inside }
{
    if !sender.is_held() {
        return NO_END;
    }
    drop(sender.lift(alloc));
    OK
}

/// The datagram is the first `length` octets, and what is behind them is room.
pub(crate) fn protect(
    sender: &mut SrtpSenderHandle,
    octets: &mut [u8],
    length: usize,
    protected: &mut usize,
) -> i32
    ensures { AnswersProtect sender.old.inside octets.old length protected.old result sender.new.inside octets.new protected.new }
{
    if !sender.is_held() {
        return NO_END;
    }
    if length > MAX_PROTECTED {
        return TOO_LARGE;
    }
    if octets.len() < length {
        return NO_ROOM;
    }
    let is_rtcp = is_control(&octets[..length]);
    let whole = length + growth(is_rtcp);
    if octets.len() < whole {
        return NO_ROOM;
    }
    match seal(sender.lend(), is_rtcp, &mut octets[..whole]) {
        Ok(()) => {
            *protected = whole;
            OK
        }
        Err(fault) => i32::from(fault.number()),
    }
}

/// How many octets more a datagram has that is protected.
fn growth(is_rtcp: bool) -> usize
    ensures { result ≡ growth is_rtcp }
{
    if is_rtcp { RTCP_GROWTH } else { TAG }
}

/// Protects a datagram in place, behind which there is the room.
fn seal(outbound: &mut Outbound, is_rtcp: bool, packet: &mut [u8]) -> Result<(), ContextFault>
    requires room { growth is_rtcp ≤ length packet.old }
    requires len { length packet.old ≤ 2 ^ 20 }
    ensures protects { Protects is_rtcp outbound.old packet.old result packet.new outbound.new }
    ensures err { OnErr result (packet.new ≡ packet.old) }
{
    if is_rtcp {
        outbound.seal_rtcp(packet)
    } else {
        outbound.seal_rtp(packet)
    }
}
