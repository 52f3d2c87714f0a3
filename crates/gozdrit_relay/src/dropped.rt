//! How many datagrams that came to a socket found no room there, by the system's own tables (proc_pid_net(5)).
use hex::encode_upper;
use mio::net::UdpSocket;
use std::alloc::{AllocError, Global};
use std::fs;
use std::net::{IpAddr, SocketAddr};

/// The tables of the sockets of each family. A line has the address of a socket as its second word, and what it dropped as its last one.
const IPV4: &str = "/proc/self/net/udp";

const IPV6: &str = "/proc/self/net/udp6";

/// How many datagrams the system dropped that came to one of two sockets, where it tells of both. It looks through all sockets of the machine
/// for that, which takes some milliseconds where there are a thousand.
pub fn dropped(rt: &HostRuntime, one: &UdpSocket, other: &UdpSocket) -> Option<u64> {
    let (one, other) = (one.local_addr().ok()?, other.local_addr().ok()?);
    let table = table_of(rt, one)?;
    let count = dropped_at(rt.alloc(), &table, one)?;
    let more = if one.is_ipv4() == other.is_ipv4() {
        dropped_at(rt.alloc(), &table, other)?
    } else {
        dropped_at(rt.alloc(), &table_of(rt, other)?, other)?
    };
    Some(count.saturating_add(more))
}

/// The table that has a socket at an address.
fn table_of(rt: &HostRuntime, at: SocketAddr) -> Option<String> {
    fs::read_to_string(rt, if at.is_ipv4() { IPV4 } else { IPV6 }).ok()
}

/// What a table says of the socket at an address.
fn dropped_at(alloc: Global, table: &str, at: SocketAddr) -> Option<u64> {
    let name = name_of(alloc, at).ok()?;
    for line in table.lines() {
        let mut words = line.split_ascii_whitespace();
        let _number = words.next();
        if words.next() == Some(name.as_str()) {
            return words.last()?.parse::<u64>().ok();
        }
    }
    None
}

/// An address as these tables write it.
fn name_of(alloc: Global, at: SocketAddr) -> Result<String, AllocError> {
    let mut octets = Vec::new(alloc);
    match at.ip() {
        IpAddr::V4(ip) => push_words(&mut octets, &ip.octets())?,
        IpAddr::V6(ip) => push_words(&mut octets, &ip.octets())?,
    }
    let host = encode_upper(alloc, octets)?;
    let port = encode_upper(alloc, at.port().to_be_bytes())?;
    format!(in alloc; "{host}:{port}")
}

/// Each four octets of an address are written as the number that the machine reads there.
fn push_words(words: &mut Vec<u8>, octets: &[u8]) -> Result<(), AllocError> {
    for word in octets.chunks_exact(4) {
        if let [a, b, c, d] = *word {
            words.extend_from_slice(&u32::from_ne_bytes([a, b, c, d]).to_be_bytes())?;
        }
    }
    Ok(())
}
