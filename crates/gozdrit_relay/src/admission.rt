//! The peers that a command line names.
use crate::changes::ANYBODY;
use crate::fault::Fault;
use crate::names::looked_up;
use relays::{Peer, Peers, number_of};
use std::net::{IpAddr, SocketAddr};

/// How many bits the number of an address has, and that of an IPv4 one before its own.
const BITS: u32 = 128;

const MAPPED_BITS: u32 = 96;

/// The peers of a list, with commas between them; anybody where there is none.
///
/// Each is an address or a name, alone or with a port behind a colon, or an address with a slash and how many of its first bits
/// a peer has.
pub fn peers<'a>(rt: &HostRuntime, list: Option<&'a str>) -> Result<Peers, Fault<'a>> {
    let mut peers = Vec::new(rt.alloc());
    if let Some(list) = list {
        for word in list.split(',') {
            add(rt, &mut peers, word)?;
        }
    }
    Ok(Peers::new(peers))
}

/// Adds the peers of a word.
fn add<'a>(rt: &HostRuntime, peers: &mut Vec<Peer>, word: &'a str) -> Result<(), Fault<'a>> {
    if let Some(peer) = peer_of(word) {
        return push(peers, peer);
    }
    if word.contains('/') {
        return Err(Fault::Peer(word));
    }
    let has_port = word.contains(':');
    for address in &looked_up(rt, word, has_port)? {
        let port = if has_port { Some(address.port()) } else { None };
        push(peers, peer_at(address.ip(), port))?;
    }
    Ok(())
}

/// A list of peers, with the addresses of each name in its place. What is none of a peer stays as it is.
pub fn addresses_of<'a>(rt: &HostRuntime, list: &'a str) -> Result<String, Fault<'a>> {
    let mut text = String::new(rt.alloc());
    for word in list.split(',') {
        if peer_of(word).is_some() || word.contains('/') || word == ANYBODY {
            add_word(&mut text, word)?;
        } else {
            add_addresses(rt, &mut text, word)?;
        }
    }
    Ok(text)
}

/// Adds the addresses of a name to a list, with the port that it has.
fn add_addresses<'a>(rt: &HostRuntime, text: &mut String, name: &'a str) -> Result<(), Fault<'a>> {
    let has_port = name.contains(':');
    for address in &looked_up(rt, name, has_port)? {
        let shown = if has_port {
            format!(in rt.alloc(); "{address}")
        } else {
            format!(in rt.alloc(); "{}", address.ip())
        };
        add_word(text, &shown.map_err(|_| Fault::Memory)?)?;
    }
    Ok(())
}

/// Adds a word to a list.
fn add_word<'a>(text: &mut String, word: &str) -> Result<(), Fault<'a>> {
    if !text.is_empty() {
        text.push(',').map_err(|_| Fault::Memory)?;
    }
    text.push_str(word).map_err(|_| Fault::Memory)
}

/// The peer that a word says by its address. None: it has a name, or says none.
pub fn peer_of(word: &str) -> Option<Peer> {
    if let Some((address, bits)) = word.split_once('/') {
        return prefix(address, bits);
    }
    if let Ok(ip) = word.parse::<IpAddr>() {
        return Some(peer_at(ip, None));
    }
    let address = word.parse::<SocketAddr>().ok()?;
    Some(peer_at(address.ip(), Some(address.port())))
}

/// The peer at one address.
fn peer_at(ip: IpAddr, port: Option<u16>) -> Peer {
    let number = number_of(ip);
    Peer {
        least: number,
        most: number,
        port,
    }
}

fn push<'a>(peers: &mut Vec<Peer>, peer: Peer) -> Result<(), Fault<'a>> {
    match peers.push(peer) {
        Ok(()) => Ok(()),
        Err(_) => Err(Fault::Memory),
    }
}

/// Those whose addresses have the first bits of one, at any port.
fn prefix(address: &str, bits: &str) -> Option<Peer> {
    let ip = address.parse::<IpAddr>().ok()?;
    let bits = bits.parse::<u32>().ok()?;
    let before = if ip.is_ipv4() { MAPPED_BITS } else { 0 };
    if bits > BITS - before {
        return None;
    }
    let behind = mask(BITS - before - bits);
    let number = number_of(ip);
    Some(Peer {
        least: number & !behind,
        most: number | behind,
        port: None,
    })
}

/// So many bits, the lowest ones.
fn mask(bits: u32) -> u128 {
    match 1u128.checked_shl(bits) {
        Some(above) => above.wrapping_sub(1),
        None => u128::MAX,
    }
}
