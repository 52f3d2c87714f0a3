//! A relay, as what carries its datagrams sees it.
ghost use Rattle.std.specs.Prelude.{◌≡◌, ◌≤◌, ℕ, Bool, List, Option, None, length, IfSome};
ghost use Rattle.rtpwire.specs.declared.limits.TheConstants.{MAX_DATAGRAM};
ghost use Rattle.std.specs.declared.net.socket_addr.SocketAddr.{SocketAddr};
ghost use Rattle.relays.specs.declared.outside.Side.{Side};
ghost use Rattle.relays.specs.declared.relay.Turn.{Turn};
ghost use Rattle.relays.specs.Passing.{IsWithin};
ghost use Rattle.relays.specs.Running.{RestsUntil};

use crate::outside::Side;
use endpoint::{Heard, Kind, ResendCounts, Told};
use fbwire::FeedbackFault;
use places::Place;
use receiver::ReceiveFault;
use rtpwire::{MAX_DATAGRAM, Session};
use sender::Marked;
use std::net::SocketAddr;

/// What a relay did.
#[derive(Clone, Copy, Debug, PartialEq, Eq)]
pub enum Note {
    /// A packet of the application was sent at this place.
    Sent(Place),
    /// A datagram of the application is no packet of the stream, or none that can be sent.
    Unsent,
    /// The sending endpoint heard a datagram of the far side.
    Told(Result<Told, FeedbackFault>),
    /// A datagram came from an address that is not the far side's, and was taken by nobody.
    Stray,
    /// The packet of this place was retransmitted.
    Retransmitted(Place),
    /// Nothing that was to be retransmitted fits the time, and it is passed over; with what was so far.
    PassedOver(ResendCounts),
    /// More was to be retransmitted than may leave soon, and so many packets of it, the oldest, are passed over.
    Crowded(u64),
    /// The stream fell silent, and its last packet is to be retransmitted.
    Marked(Marked),
    /// The receiving endpoint heard a datagram of the far side, of this kind.
    Heard(Result<Heard, ReceiveFault>, Kind),
    /// The far side is at another address from now on, and the receiving endpoint heard this datagram from there.
    Moved(SocketAddr, Result<Heard, ReceiveFault>, Kind),
    /// The receiving endpoint has other times. They follow this round-trip time, in milliseconds.
    Timed(Option<u64>),
    /// A session was learnt: its streams, the first sequence number of its media, and its far side.
    Began(Session, u16, SocketAddr),
    /// The packet of this place was played.
    Played(Place),
    /// This place was given up.
    Gap(Place),
    /// Missing places were asked for.
    Asked,
    /// The same NACK left a second time.
    AskedAgain,
}

/// A datagram that leaves: by which side, for which address, and how many octets it has.
#[derive(Clone, Copy, Debug, PartialEq, Eq)]
pub struct Departure {
    pub side: Side,
    pub to: SocketAddr,
    pub len: usize,
}

/// What a relay did, and the datagram that leaves because of it.
#[derive(Clone, Copy, Debug, PartialEq, Eq)]
pub struct Turn {
    pub note: Note,
    pub leaves: Option<Departure>,
}

/// Something was done, and nothing leaves because of it.
pub(crate) fn silent(note: Note) -> Turn
    ensures { result ≡ record { note = note; leaves = None } }
{
    Turn { note, leaves: None }
}

/// One direction of a session, between an application and a network.
pub trait Relay {
    /// What it does with octets that came to a side from an address at a moment, and the octets that are written then.
    ghost hears: { Self → Side → SocketAddr → List ℕ → ℕ → Turn → List ℕ → Self → Type 0 };

    /// What it does of its own at a moment, and the octets that are written then.
    ghost speaks: { Self → ℕ → Option Turn → List ℕ → Self → Type 0 };

    /// Whether it has done all that it was to do, at a moment.
    ghost done: { Self → ℕ → Bool };

    /// Takes the octets of a datagram that came to a side from an address at the moment `now`, in milliseconds. What leaves
    /// because of it stands at the front of `out`.
    fn hear(
        &mut self,
        side: Side,
        from: SocketAddr,
        octets: &[u8],
        now: u64,
        out: &mut [u8],
    ) -> Turn
        requires { length out.old ≡ MAX_DATAGRAM }
        ensures hears { hears self.old side from octets.now now result out.new self.new }
        ensures within { IsWithin result }
        ensures room { length out.new ≡ MAX_DATAGRAM };

    /// Does the next thing that is to be done at the moment `now`, in milliseconds. What leaves because of it stands at the
    /// front of `out`. None: there is nothing to do.
    fn speak(&mut self, now: u64, out: &mut [u8]) -> Option<Turn>
        requires { length out.old ≡ MAX_DATAGRAM }
        ensures speaks { speaks self.old now result out.new self.new }
        ensures within { IfSome result IsWithin }
        ensures room { length out.new ≡ MAX_DATAGRAM };

    /// The moment to call [`speak`](Relay::speak) again, in milliseconds, if nothing comes until then: before it there is nothing
    /// to do, and it is not done.
    fn next_moment(&self) -> Option<u64>
        ensures { RestsUntil speaks done self.now result };

    /// Whether it has done all that it was to do, at the moment `now`, in milliseconds.
    fn is_done(&self, now: u64) -> bool
        ensures { result ≡ done self.now now };
}
