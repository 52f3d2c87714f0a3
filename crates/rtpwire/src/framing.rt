//! Datagrams on a stream, each behind its length in two octets (RFC 4571, section 2).
ghost use Rattle.std.specs.Prelude.{◌≡◌, ◌≢◌, ◌↔◌, ◌⊎◌, ◌+◌, ◌<◌, ◌≤◌, ◌++◌, [], length, take, slice_index, false, IsTrue, IsErr, OnOk, OnErr, IfOk, IfErr, IfSome, IfNone};
ghost use Rattle.byteorder.specs.Endian.{big_number};
ghost use Rattle.rtpwire.specs.Framing.{IsDatagram, frame, IsRest, BeginsTooLong, DeframerState};

use crate::content::Datagram;
use crate::fault::FrameFault;
use crate::limits::{MAX_DATAGRAM, MAX_FRAME};
use crate::octets::{are_octets, push_octets, push_u16, u16_at};
use arrayvec::ArrayVec;
use std::marker::Model;

/// Takes the datagrams of a stream apart, in whatever pieces its octets come. It takes no memory.
#[derive(Drop)]
pub struct Deframer {
    held: ArrayVec<u8, MAX_FRAME>,
    has_failed: bool,
}

impl Model for Deframer {
    ghost use Rattle.rtpwire.specs.Framing.{DeframerState, IsRest};

    ghost Value = { DeframerState };

    ghost view = { λ d. record { rest = d.held.items; has_failed = d.has_failed } };

    ghost invariant = { λ d. IsRest d.held.items };
}

impl Deframer {
    /// A deframer at the start of a stream.
    pub fn new() -> Self
        ensures { result ≡ record { rest = []; has_failed = false } }
    {
        Deframer {
            held: ArrayVec::new(),
            has_failed: false,
        }
    }

    /// Takes octets of a stream's next piece: up to the end of the first frame that becomes whole, or
    /// all of the piece. It answers how many it took, and the datagram of that frame.
    ///
    /// [`FrameFault::FrameTooLong`] comes as soon as both octets of a length above
    /// [`MAX_DATAGRAM`](crate::MAX_DATAGRAM) were there, and from then on at every call.
    pub fn feed(&mut self, piece: &[u8]) -> Result<(usize, Option<Datagram>), FrameFault>
        // What was held and what was taken are the frame of the datagram, and nothing more is held.
        ensures whole { IfOk result (λ taken. IfSome taken.1 (λ datagram. IsDatagram datagram.items
            × (self.old.rest ++ take taken.0 piece.now ≡ frame datagram.items) × (self.new.rest ≡ []))) }
        // Or all of the piece was taken, and is held now too.
        ensures partial { IfOk result (λ taken. IfNone taken.1
            ((taken.0 ≡ length piece.now) × (self.new.rest ≡ self.old.rest ++ piece.now))) }
        ensures within { IfOk result (λ taken. taken.0 ≤ length piece.now) }
        ensures rest { IsRest self.new.rest }

        ensures too_long { IsErr result
            ↔ (IsTrue self.old.has_failed ⊎ BeginsTooLong (self.old.rest ++ piece.now)) }
        ensures fault { IfErr result (λ fault. fault ≡ FrameFault.FrameTooLong) }
        ensures failed { IsTrue self.new.has_failed ↔ IsErr result }
        ensures err { OnErr result (self.new.rest ≡ self.old.rest) }
    {
        if self.has_failed {
            return Err(FrameFault::FrameTooLong);
        }
        // Until both octets of a length are there, at least they are missing.
        let length = length_of(&self.held, piece).unwrap_or(0);
        if length > MAX_DATAGRAM {
            self.has_failed = true;
            return Err(FrameFault::FrameTooLong);
        }
        let missing = length + 2 - self.held.len();
        if piece.len() < missing {
            push_octets(&mut self.held, piece);
            return Ok((piece.len(), None));
        }
        push_octets(&mut self.held, &piece[..missing]);
        let datagram = datagram_of(&self.held);
        self.held.clear();
        Ok((missing, Some(datagram)))
    }

    /// Whether a stream may end here: [`FrameFault::Truncated`] in the middle of a frame, after which
    /// more may be fed, and [`FrameFault::FrameTooLong`] after that refusal.
    pub fn finish(&self) -> Result<(), FrameFault>
        ensures truncated { (result ≡ Err FrameFault.Truncated)
            ↔ ((self.now.has_failed ≡ false) × (self.now.rest ≢ [])) }
        ensures too_long { (result ≡ Err FrameFault.FrameTooLong) ↔ IsTrue self.now.has_failed }
        ensures ok { OnOk result ((self.now.has_failed ≡ false) × (self.now.rest ≡ [])) }
    {
        match (self.has_failed, self.held.is_empty()) {
            (true, _) => Err(FrameFault::FrameTooLong),
            (false, false) => Err(FrameFault::Truncated),
            (false, true) => Ok(()),
        }
    }
}

/// The datagram of a whole frame.
fn datagram_of(octets: &[u8]) -> Datagram
    requires counted { 2 ≤ length octets.now }
    requires fits { big_number 2 octets.now ≤ MAX_DATAGRAM }
    requires whole { length octets.now ≡ 2 + big_number 2 octets.now }
    ensures datagram { IsDatagram result.items }
    ensures frame { octets.now ≡ frame result.items }
{
    let mut datagram = Datagram::new();
    push_octets(&mut datagram, &octets[2..]);
    are_octets(&datagram);
    datagram
}

/// The length at the front of what is held and what comes, once both its octets are there.
fn length_of(held: &[u8], piece: &[u8]) -> Option<usize>
    ensures some { IfSome result (λ n. (n ≡ big_number 2 (held.now ++ piece.now))
        × (2 ≤ length held.now + length piece.now)) }
    ensures none { IfNone result (length held.now + length piece.now < 2) }
    ensures fits { IfSome result (λ n. n < 65536) }
{
    if held.len() + piece.len() < 2 {
        return None;
    }
    let octets = [octet_at(held, piece, 0), octet_at(held, piece, 1)];
    Some(usize::from(u16_at(&octets, 0)))
}

/// An octet of what is held and what comes after it.
fn octet_at(held: &[u8], piece: &[u8], index: usize) -> u8
    requires { index < length held.now + length piece.now }
    ensures { result ≡ slice_index (held.now ++ piece.now) index }
{
    if index < held.len() {
        held[index]
    } else {
        piece[index - held.len()]
    }
}

/// The frame of a datagram of at most [`MAX_DATAGRAM`](crate::MAX_DATAGRAM) octets.
pub fn write_frame(datagram: &[u8]) -> ArrayVec<u8, MAX_FRAME>
    requires { length datagram.now ≤ MAX_DATAGRAM }
    ensures datagram { IsDatagram datagram.now }
    ensures frame { result.items ≡ frame datagram.now }
{
    are_octets(datagram);
    let mut out = ArrayVec::new();
    push_u16(&mut out, datagram.len() as u16);
    push_octets(&mut out, datagram);
    out
}
