//! Who started the program as a service is told that its sockets are open (sd_notify(3)).
use libc::net as c;
use os::FromRawFd;
use std::env;
use std::os::fd::OwnedFd;

/// What a socket's address has at most: two octets of its family, and its path.
const ROOM: usize = 128;

const LONGEST: usize = 107;

/// Tells that the relay listens, where somebody wants to know. Nothing waits for that, and nothing depends on it.
pub fn tell_ready(rt: &HostRuntime) {
    let Ok(path) = env::var(rt, "NOTIFY_SOCKET") else {
        return;
    };
    let Some(address) = address_of(path.as_bytes()) else {
        return;
    };
    let fd = unsafe { c::socket(c::AF_UNIX, c::SOCK_DGRAM, 0) };
    if fd < 0 {
        return;
    }
    let _socket = unsafe { OwnedFd::from_raw_fd(fd) };
    let len = path.len().min(LONGEST) as u32 + 2;
    let _told = unsafe {
        c::sendto(
            fd,
            b"READY=1",
            c::MSG_NOSIGNAL | c::MSG_DONTWAIT,
            &address,
            len,
        )
    };
}

/// The address of a socket of this machine, by its path (unix(7)): one without a file begins with an at sign, for which a zero stands.
fn address_of(path: &[u8]) -> Option<[u8; ROOM]> {
    if path.len() > LONGEST {
        return None;
    }
    let mut address = [0; ROOM];
    address[..2].copy_from_slice(&(c::AF_UNIX as u16).to_ne_bytes());
    address[2..2 + path.len()].copy_from_slice(path);
    match path.first() {
        Some(b'/') => Some(address),
        Some(b'@') => {
            address[2] = 0;
            Some(address)
        }
        _ => None,
    }
}
