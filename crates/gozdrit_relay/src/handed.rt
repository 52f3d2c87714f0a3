//! A socket that another process made and hands over, as systemd does by a socket unit (sd_listen_fds(3)): `--listen fd:3`.
use crate::fault::Fault;
use crate::sockets::is_stream;
use lines::parse_between;
use mio::net::UdpSocket;
use os::FromRawFd;
use std::net;

/// The first descriptor behind standard input, output and error. Nothing of this program's own is open when one is taken.
const FIRST: u64 = 3;

const LAST: u64 = 1_048_575;

/// The descriptor that a word names, where it names one.
pub fn descriptor(word: &str) -> Option<&str> {
    word.strip_prefix("fd:")
}

/// The socket under a descriptor.
pub fn handed<'a>(word: &'a str, number: &str) -> Result<UdpSocket, Fault<'a>> {
    let Some(fd) = parse_between(number.as_bytes(), FIRST, LAST) else {
        return Err(Fault::Handed(word));
    };
    let socket = unsafe { net::UdpSocket::from_raw_fd(fd as i32) };
    if socket.local_addr().is_err() || is_stream(&socket) || socket.set_nonblocking(true).is_err() {
        return Err(Fault::Handed(word));
    }
    Ok(UdpSocket::from_std(socket))
}
