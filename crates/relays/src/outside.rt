//! What a relay waits at and sends to.
ghost use Rattle.std.specs.Prelude.{◌≡◌, [], ◌∷◌, List, Option, IfOk, OnErr};
ghost use Rattle.relays.specs.declared.outside.Passage.{Passage};
ghost use Rattle.relays.specs.Passing.{Grows, met, met_failure};

use crate::relay::Turn;
use arrayvec::ArrayVec;
use rtpwire::MAX_DATAGRAM;
use std::net::SocketAddr;

/// One octet more than a datagram has at most: what comes longer is cut, and is refused as it fills this.
const ROOM: usize = MAX_DATAGRAM + 1;

/// The octets of a datagram that came.
pub type Octets = ArrayVec<u8, ROOM>;

/// The two sides that a relay stands between.
#[derive(Clone, Copy, Debug, PartialEq, Eq)]
pub enum Side {
    /// The application's: where a stream comes from, or where it is played.
    Near,
    /// The network's: where the other relay is.
    Far,
}

/// What passed between a relay and what is outside of it.
#[derive(Debug, Drop, PartialEq, Eq)]
pub enum Passage {
    /// A wait began, for no longer than until this moment. How it ended is what passed next.
    Waits(Option<u64>),
    /// These octets came to the socket of this side, from this address, at this moment.
    Came(Side, SocketAddr, Octets, u64),
    /// Nothing came until this moment.
    Idle(u64),
    /// A socket or the clock failed, and nothing came.
    Failed,
    /// These octets left by the socket of this side, for this address.
    Left(Side, SocketAddr, Octets),
}

/// The end of a wait.
#[derive(Clone, Copy, Debug, PartialEq, Eq)]
pub struct Meeting {
    /// The moment, in milliseconds.
    pub now: u64,
    /// Where a datagram came, and from where; None where nothing did.
    pub came: Option<(Side, SocketAddr)>,
}

/// What is outside can't be waited at any longer: a socket or the clock failed.
#[derive(Clone, Copy, Debug, PartialEq, Eq)]
pub struct OutsideFault;

/// The sockets of a relay, one a side, and its clock.
///
/// They may tell what passed, one list of it. Those that tell nothing are held to nothing there.
pub trait Outside {
    /// What passed, the oldest first, if that is told.
    ghost traffic: { Self → Option (List Passage) };

    /// Waits until a datagram comes, no longer than until the moment `until`, and puts its octets into `room`. It may end before.
    ///
    /// `OutsideFault`: nothing came, and a socket or the clock failed.
    fn wait(&mut self, until: Option<u64>, room: &mut Octets) -> Result<Meeting, OutsideFault>
        ensures met { IfOk result (λ meeting. Grows (traffic self.old) (met until meeting room.new) (traffic self.new)) }
        ensures failed { OnErr result (Grows (traffic self.old) (met_failure until) (traffic self.new)) };

    /// Hands octets over, to leave by the socket of a side for an address. Whether the network takes them is not known.
    fn send(&mut self, side: Side, to: SocketAddr, octets: &[u8])
        ensures { Grows (traffic self.old) (Passage.Left side to (record { items = octets.now }) ∷ []) (traffic self.new) };

    /// Is told what a relay did at a moment, with the octets that leave or, where none do, those that came.
    fn tell(&mut self, turn: &Turn, octets: &[u8], now: u64)
        ensures { Grows (traffic self.old) [] (traffic self.new) };
}
