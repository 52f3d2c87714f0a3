//! Who may send to a relay.
ghost use Rattle.std.specs.Prelude.{◌≡◌};
ghost use Rattle.std.specs.List.{list_any};
ghost use Rattle.relays.specs.Peers.{are_admitted, is_peer, number_of};

use std::marker::Model;
use std::net::{IpAddr, SocketAddr};

/// The number of ::ffff:0.0.0.0.
const MAPPED: u128 = 0xffff_0000_0000;

/// Those who may send: at addresses from one to another, by their numbers of 128 bits, and at one port or at any.
#[derive(Clone, Copy, Debug, PartialEq, Eq)]
pub struct Peer {
    pub least: u128,
    pub most: u128,
    pub port: Option<u16>,
}

impl Peer {
    /// Whether it may be who sends from an address.
    pub fn is_at(&self, from: &SocketAddr) -> bool
        ensures { result ≡ is_peer from.now self.now }
    {
        let number = number_of(from.ip());
        let is_of_port = match self.port {
            Some(port) => port == from.port(),
            None => true,
        };
        self.least <= number && number <= self.most && is_of_port
    }
}

/// The number of an address. That of an IPv4 one is the number of the IPv6 address that stands for it (RFC 4291, section 2.5.5.2).
pub fn number_of(ip: IpAddr) -> u128
    ensures { result ≡ number_of ip }
{
    match ip {
        IpAddr::V4(ip) => MAPPED + u128::from(ip.to_bits()),
        IpAddr::V6(ip) => ip.to_bits(),
    }
}

/// All who may send, or nobody in particular.
#[derive(Debug, Drop)]
pub struct Peers {
    list: Vec<Peer>,
}

impl Model for Peers {
    ghost use Rattle.std.specs.Prelude.{List};
    ghost use Rattle.relays.specs.declared.peers.Peer.{Peer};

    ghost Value = { List Peer };

    ghost view = { λ p. p.list.items };
}

impl Peers {
    /// These peers. Where there are none, anybody may send.
    pub fn new(list: Vec<Peer>) -> Peers
        ensures { result ≡ list.items }
    {
        Peers { list }
    }

    /// Whether one of them may be who sends from an address.
    pub fn admit(&self, from: &SocketAddr) -> bool
        ensures { result ≡ are_admitted self.now from.now }
    {
        self.list.is_empty() || is_any(&self.list, from)
    }
}

/// Whether one of these peers may be who sends from an address.
fn is_any(peers: &[Peer], from: &SocketAddr) -> bool
    ensures { result ≡ list_any (is_peer from.now) peers.now }
{
    let mut any = false;
    for peer in peers {
        any |= peer.is_at(from);
    }
    any
}
