//! The addresses that a command line names, and the sockets that are had at them.
use crate::fault::Fault;
use crate::names::looked_up;
use lines::parse_between;
use mio::net::UdpSocket;
use std::net::{IpAddr, Ipv4Addr, Ipv6Addr, SocketAddr};

/// All addresses of a host and a port. A port alone, or behind a star, is at any address of this machine.
pub fn found<'a>(rt: &HostRuntime, name: &'a str) -> Result<Vec<SocketAddr>, Fault<'a>> {
    if let Some(port) = port_of_any(name) {
        let any = [any_like(true, port), any_like(false, port)];
        return any.to_vec(rt.alloc()).map_err(|_| Fault::Memory);
    }
    looked_up(rt, name, true)
}

/// The port of a word that has nothing else, or a star before it.
fn port_of_any(word: &str) -> Option<u16> {
    let behind = word.strip_prefix('*').unwrap_or(word);
    let port = behind.strip_prefix(':')?;
    match parse_between(port.as_bytes(), 0, 65535) {
        Some(port) => Some(port as u16),
        None => None,
    }
}

/// Any address of this machine, of one family.
fn any_like(is_ipv4: bool, port: u16) -> SocketAddr {
    let ip = if is_ipv4 {
        IpAddr::V4(Ipv4Addr::UNSPECIFIED)
    } else {
        IpAddr::V6(Ipv6Addr::UNSPECIFIED)
    };
    SocketAddr::new(ip, port)
}

/// Which of some addresses is sent to: the first one that the system has a way to, or else the first one; of the families of those that are
/// sent from, where there are any.
pub fn toward(rt: &HostRuntime, found: &[SocketAddr], from: &[SocketAddr]) -> Option<SocketAddr> {
    let mut first = None;
    for to in found {
        if !from.is_empty() && !has_family(from, *to) {
            continue;
        }
        if is_on_a_way(rt, *to) {
            return Some(*to);
        }
        if first.is_none() {
            first = Some(*to);
        }
    }
    first
}

/// Whether one of some addresses has the family of another one.
fn has_family(found: &[SocketAddr], like: SocketAddr) -> bool {
    found.iter().any(|one| one.is_ipv4() == like.is_ipv4())
}

/// Whether the system has a way to an address.
fn is_on_a_way(rt: &HostRuntime, to: SocketAddr) -> bool {
    match UdpSocket::bind(rt, any_like(to.is_ipv4(), 0)) {
        Ok(socket) => socket.connect(to).is_ok(),
        Err(_) => false,
    }
}

/// A socket at the first of some addresses where one can be had.
pub fn bound<'a>(
    rt: &HostRuntime,
    found: &[SocketAddr],
    name: &'a str,
) -> Result<UdpSocket, Fault<'a>> {
    let mut fault = Fault::Find(name);
    for at in found {
        match UdpSocket::bind(rt, *at) {
            Ok(socket) => return Ok(socket),
            Err(e) => fault = Fault::Bind(*at, e.kind()),
        }
    }
    Err(fault)
}

/// A socket to send from to an address: at the first of some of its family, or at any where none is given.
pub fn leaving<'a>(
    rt: &HostRuntime,
    from: &[SocketAddr],
    to: SocketAddr,
    name: &'a str,
) -> Result<UdpSocket, Fault<'a>> {
    let mut fault = Fault::Find(name);
    if from.is_empty() {
        return bound(rt, &[any_like(to.is_ipv4(), 0)], name);
    }
    for at in from {
        if at.is_ipv4() != to.is_ipv4() {
            continue;
        }
        match UdpSocket::bind(rt, *at) {
            Ok(socket) => return Ok(socket),
            Err(e) => fault = Fault::Bind(*at, e.kind()),
        }
    }
    Err(fault)
}

/// Whether what is sent to an address comes to a socket that listens at another one: it is the same, or an address of this machine alone
/// where that listens at all of them.
pub fn is_loop(listening: SocketAddr, to: SocketAddr) -> bool {
    let at = listening.ip();
    let same = at == to.ip() || at.is_unspecified() && to.ip().is_loopback();
    same && listening.port() == to.port()
}
