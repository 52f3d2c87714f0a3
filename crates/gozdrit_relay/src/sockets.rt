//! How much the system keeps for a socket, of what came and is to be read, and of what is to leave.
ghost use Rattle.std.specs.Prelude.{◌≡◌, ◌↔◌, ◌⊎◌, ◌<◌, min, true};

use libc::net as c;
use mio::net::UdpSocket;
use std::os::fd::AsRawFd;

/// So many octets the system keeps for a socket.
#[derive(Clone, Copy, Debug, PartialEq, Eq)]
pub struct Kept {
    /// Of what came.
    pub come: u64,
    /// Of what is to leave.
    pub leave: u64,
}

impl Kept {
    /// The lesser of two each way.
    pub fn least(&self, other: &Kept) -> Kept
        ensures { result ≡ record { come = min self.now.come other.now.come; leave = min self.now.leave other.now.leave } }
    {
        Kept {
            come: self.come.min(other.come),
            leave: self.leave.min(other.leave),
        }
    }

    /// Whether it is less than so many octets, one way or the other.
    pub fn is_less_than(&self, octets: u64) -> bool
        ensures { result ≡ true ↔ ((self.now.come < octets) ⊎ (self.now.leave < octets)) }
    {
        self.come < octets || self.leave < octets
    }
}

/// Which of both an option of the system is of.
#[derive(Clone, Copy, Debug, PartialEq, Eq)]
enum Way {
    Come,
    Leave,
}

/// Asks the system to keep so many octets for a socket each way, and gives how many it keeps then. Where it refuses that, it keeps what it
/// kept before. None: it does not tell.
pub fn keep(socket: &UdpSocket, octets: i32) -> Option<Kept> {
    let value = padded(octets);
    ask(socket, Way::Come, &value);
    ask(socket, Way::Leave, &value);
    kept_for(socket)
}

/// How many octets the system keeps for a socket each way. None: it does not tell.
pub fn kept_for(socket: &UdpSocket) -> Option<Kept> {
    Some(Kept {
        come: told_of(socket, Way::Come)?,
        leave: told_of(socket, Way::Leave)?,
    })
}

/// Has what a socket sends to a group go over so many networks, and answers whether the system does.
pub fn reach(socket: &UdpSocket, networks: u8) -> bool {
    let fd = socket.as_raw_fd();
    let value = padded(i32::from(networks));
    unsafe { c::setsockopt(fd, c::IPPROTO_IP, c::IP_MULTICAST_TTL, &value, 4) == 0 }
}

/// Whether a socket is one of streams: no other one has an option of TCP.
pub fn is_stream<S: AsRawFd>(socket: &S) -> bool {
    let fd = socket.as_raw_fd();
    let mut value = [0; 16];
    let mut len = 4;
    unsafe { c::getsockopt(fd, c::IPPROTO_TCP, c::TCP_NODELAY, &mut value, &mut len) == 0 }
}

/// A number as the system reads it.
fn padded(octets: i32) -> [u8; 16] {
    let mut value = [0; 16];
    value[..4].copy_from_slice(&octets.to_ne_bytes());
    value
}

fn ask(socket: &UdpSocket, way: Way, value: &[u8; 16]) {
    let fd = socket.as_raw_fd();
    let _status = match way {
        Way::Come => unsafe { c::setsockopt(fd, c::SOL_SOCKET, c::SO_RCVBUF, value, 4) },
        Way::Leave => unsafe { c::setsockopt(fd, c::SOL_SOCKET, c::SO_SNDBUF, value, 4) },
    };
}

/// How many octets the system keeps: half of what it says, since it takes twice as much for its own books (socket(7)).
fn told_of(socket: &UdpSocket, way: Way) -> Option<u64> {
    let fd = socket.as_raw_fd();
    let mut value = [0; 16];
    let mut len = 4;
    let status = match way {
        Way::Come => unsafe {
            c::getsockopt(fd, c::SOL_SOCKET, c::SO_RCVBUF, &mut value, &mut len)
        },
        Way::Leave => unsafe {
            c::getsockopt(fd, c::SOL_SOCKET, c::SO_SNDBUF, &mut value, &mut len)
        },
    };
    if status != 0 {
        return None;
    }
    let told = u32::from_ne_bytes([value[0], value[1], value[2], value[3]]);
    Some(u64::from(told) / 2)
}
