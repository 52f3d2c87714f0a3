//! What a client changes of a relay that runs: where what leaves goes, and who may send a stream.
use crate::admission::peer_of;
use crate::asking::Asked;
use crate::way::Way;
use lines::find_byte;
use relays::Peers;
use std::alloc::Global;
use std::net::SocketAddr;
use std::str;

/// The word that stands for anybody.
pub const ANYBODY: &str = "any";

/// A change.
#[derive(Debug, Drop)]
pub enum Change {
    /// What leaves goes to this address.
    To(SocketAddr),
    /// These may send a stream; where there are none, anybody.
    Peers(Peers),
}

/// The change that a line asks for. None: it is of none, or says none that can be made.
pub fn change_of(alloc: Global, asked: Asked, octets: &[u8], way: &Way) -> Option<Change> {
    let words = words_of(octets)?;
    match asked {
        Asked::To => Some(Change::To(address_of(words, way)?)),
        Asked::Peer => Some(Change::Peers(listed(alloc, words)?)),
        _ => None,
    }
}

/// What the first line has behind its first blank.
fn words_of(octets: &[u8]) -> Option<&str> {
    let end = find_byte(octets, b'\n')?;
    let line = str::from_utf8(&octets[..end]).ok()?;
    let (_, words) = line.split_once(' ')?;
    Some(words)
}

/// An address that can be sent to.
fn address_of(word: &str, way: &Way) -> Option<SocketAddr> {
    let to = word.parse::<SocketAddr>().ok()?;
    if way.can_lead(to) { Some(to) } else { None }
}

/// The peers of a list of addresses, with commas between them.
fn listed(alloc: Global, list: &str) -> Option<Peers> {
    let mut peers = Vec::new(alloc);
    if list != ANYBODY {
        for word in list.split(',') {
            peers.push(peer_of(word)?).ok()?;
        }
    }
    Some(Peers::new(peers))
}
