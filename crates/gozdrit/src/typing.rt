//! Datagrams of a session with several payload types, for C.
ghost use Rattle.std.specs.Prelude.{◌≡◌, length};
ghost use Rattle.rtpwire.specs.declared.limits.TheConstants.{MAX_DATAGRAM};
ghost use Rattle.payload_types.specs.Folding.{IsWithin};
ghost use Rattle.gozdrit.specs.Typing.{AnswersTypes, Enters, Leaves, TellsFitted};

use crate::code::{NO_ROOM, NO_TYPE, OK, TOO_LONG};
use payload_types::{Fitted, PayloadTypes};
use rtpwire::MAX_DATAGRAM;

/// The datagram is the first `length` octets, and what is behind them is room.
pub(crate) fn types_enter(
    pairs: &[u8],
    octets: &mut [u8],
    length: usize,
    entered: &mut usize,
) -> i32
    ensures { AnswersTypes Enters pairs.now octets.old length entered.old result octets.new entered.new }
{
    let types = match PayloadTypes::of_octets(pairs) {
        Ok(types) => types,
        Err(fault) => return i32::from(fault.number()),
    };
    if octets.len() < length {
        return NO_ROOM;
    }
    let mut out = [0; MAX_DATAGRAM];
    let fitted = enter(&types, &octets[..length], &mut out);
    put(fitted, &out, octets, length, entered)
}

/// The same of one that leaves.
pub(crate) fn types_leave(pairs: &[u8], octets: &mut [u8], length: usize, left: &mut usize) -> i32
    ensures { AnswersTypes Leaves pairs.now octets.old length left.old result octets.new left.new }
{
    let types = match PayloadTypes::of_octets(pairs) {
        Ok(types) => types,
        Err(fault) => return i32::from(fault.number()),
    };
    if octets.len() < length {
        return NO_ROOM;
    }
    let mut out = [0; MAX_DATAGRAM];
    let fitted = leave(&types, &octets[..length], &mut out);
    put(fitted, &out, octets, length, left)
}

fn enter(types: &PayloadTypes, octets: &[u8], out: &mut [u8]) -> Fitted
    requires { length out.old ≡ MAX_DATAGRAM }
    ensures within { IsWithin MAX_DATAGRAM result }
    ensures enters { Enters types.now octets.now result out.new }
    ensures len { length out.new ≡ MAX_DATAGRAM }
{
    types.into_session(octets, out)
}

fn leave(types: &PayloadTypes, octets: &[u8], out: &mut [u8]) -> Fitted
    requires { length out.old ≡ MAX_DATAGRAM }
    ensures within { IsWithin MAX_DATAGRAM result }
    ensures leaves { Leaves types.now octets.now result out.new }
    ensures len { length out.new ≡ MAX_DATAGRAM }
{
    types.out_of_session(octets, out)
}

/// Puts what became of a datagram where it was, and tells how many octets it has then.
fn put(fitted: Fitted, out: &[u8], octets: &mut [u8], whole: usize, told: &mut usize) -> i32
    requires room { length out.now ≡ MAX_DATAGRAM }
    requires within { IsWithin MAX_DATAGRAM fitted }
    ensures { TellsFitted fitted whole out.now octets.old told.old result octets.new told.new }
{
    match fitted {
        Fitted::Same => {
            *told = whole;
            OK
        }
        Fitted::Written(len) => {
            if octets.len() < len {
                return NO_ROOM;
            }
            octets[..len].copy_from_slice(&out[..len]);
            *told = len;
            OK
        }
        Fitted::TooLong => TOO_LONG,
        Fitted::NoType => NO_TYPE,
    }
}
