//! What carries datagrams between the two ends of a world.
ghost use Rattle.std.specs.Prelude.{◌≡◌, ◌+◌, ◌-◌, ◌^◌, ◌<◌, ℕ, [], ◌∷◌, List, Option, IfOk, OnOk, OnErr};
ghost use Rattle.runs.specs.declared.link.Transfer.{Transfer};
ghost use Rattle.runs.specs.Traffic.{Grows, MayGrow, receipt};

use crate::fault::LinkFault;
use rtpwire::Datagram;
use world::End;

/// What a link did in a call that it served.
#[derive(Debug, Drop, PartialEq, Eq)]
pub enum Transfer {
    /// It took these octets, which are for this end.
    Put(End, Datagram),
    /// It gave these octets at this end.
    Receipt(End, Datagram),
    /// It had nothing for this end.
    Nothing(End),
}

/// A link between the two ends. It may lose, repeat or change what it carries, may fail in each call, and counts how often it
/// failed.
///
/// A link may tell its traffic, one list of what it took and what it gave. One that tells none is held to nothing there.
pub trait Link {
    /// How often it failed.
    ghost failed: { Self → ℕ };

    /// What it carried, the oldest first, if it tells that.
    ghost traffic: { Self → Option (List Transfer) };

    /// Takes octets that are for an end. The count of failures must be below 2^64 - 1.
    ///
    /// `LinkFault`: it failed. The octets may have been taken or not.
    fn send(&mut self, to: End, octets: &[u8]) -> Result<(), LinkFault>
        requires { failed self.old < 2 ^ 64 - 1 }
        ensures served { OnOk result (failed self.new ≡ failed self.old) }
        ensures fault { OnErr result (failed self.new ≡ failed self.old + 1) }
        ensures put { OnOk result (Grows (traffic self.old) (Transfer.Put to (record { items = octets.now }) ∷ []) (traffic self.new)) }
        ensures may { OnErr result (MayGrow (traffic self.old) (Transfer.Put to (record { items = octets.now })) (traffic self.new)) };

    /// Whether something came to an end; if so, its octets are what `into` holds afterwards. The count of failures must be
    /// below 2^64 - 1.
    ///
    /// `LinkFault`: it failed, and gave nothing.
    fn recv(&mut self, at: End, into: &mut Datagram) -> Result<bool, LinkFault>
        requires { failed self.old < 2 ^ 64 - 1 }
        ensures served { OnOk result (failed self.new ≡ failed self.old) }
        ensures fault { OnErr result (failed self.new ≡ failed self.old + 1) }
        ensures came { IfOk result (λ came. Grows (traffic self.old) (receipt came at into.new ∷ []) (traffic self.new)) }
        ensures nothing { OnErr result (Grows (traffic self.old) [] (traffic self.new)) };

    /// How often it failed.
    fn faults(&self) -> u64
        ensures { result ≡ failed self.now };
}
