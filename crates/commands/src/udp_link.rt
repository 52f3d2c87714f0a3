//! A link over two UDP sockets of this machine.
ghost use Rattle.std.specs.Prelude.{◌≡◌, ◌⊎◌, ◌↔◌, ◌≤◌, ◌+◌, ◌-◌, ◌^◌, ◌<◌, nat_le, length, IfOk, IfSome, IsTrue};
ghost use Rattle.rtpwire.specs.declared.limits.TheConstants.{MAX_DATAGRAM};

use rtpwire::{Datagram, MAX_DATAGRAM};
use runs::{Link, LinkFault};
use std::io;
use std::io::ErrorKind;
use std::net::{Net, UdpSocket};
use std::time::Duration;
use world::End;

/// One octet more than a datagram has at most: what comes longer is cut without a word, and then fills this.
const ROOM: usize = MAX_DATAGRAM + 1;

/// A socket for each end, which sends to the other's address. It tells no traffic.
#[derive(Drop)]
pub struct UdpLink {
    sender: UdpSocket,
    receiver: UdpSocket,
    faults: u64,
}

impl UdpLink {
    /// Opens both sockets, at addresses of 127.0.0.1 that the system chooses.
    ///
    /// `LinkFault`: the system refused one of them.
    pub fn open<R: Net>(net: &R) -> Result<UdpLink, LinkFault>
        ensures { IfOk result (λ link. link.faults ≡ 0) }
    {
        match pair(net) {
            Ok((sender, receiver)) => Ok(UdpLink {
                sender,
                receiver,
                faults: 0,
            }),
            Err(_) => Err(LinkFault),
        }
    }

    /// Counts a failure.
    fn fault(&mut self) -> LinkFault
        requires { self.old.faults < 2 ^ 64 - 1 }
        ensures { self.new.faults ≡ self.old.faults + 1 }
    {
        self.faults += 1;
        LinkFault
    }
}

/// Two sockets, each the other's peer. A read waits for a second at most.
fn pair<R: Net>(net: &R) -> io::Result<(UdpSocket, UdpSocket)> {
    let one = UdpSocket::bind(net, "127.0.0.1:0")?;
    let two = UdpSocket::bind(net, "127.0.0.1:0")?;
    one.connect(two.local_addr()?)?;
    two.connect(one.local_addr()?)?;
    one.set_read_timeout(Some(Duration::from_secs(1)))?;
    two.set_read_timeout(Some(Duration::from_secs(1)))?;
    Ok((one, two))
}

/// Sends a datagram, and tells whether the system took all of it. A call that was interrupted has sent nothing, and is
/// made again.
fn sends(socket: &UdpSocket, octets: &[u8]) -> bool {
    for _ in 0..u64::MAX {
        match socket.send(octets) {
            Ok(count) => return count == octets.len(),
            Err(e) => {
                if e.kind() != ErrorKind::Interrupted {
                    return false;
                }
            }
        }
    }
    // So many calls did not do: a socket that is interrupted for ever.
    false
}

/// Waits for a datagram, puts as much of it into `room` as that holds, and answers how much that is; or answers that
/// none came in time. A call that was interrupted has taken nothing, and is made again.
///
/// `LinkFault`: the system answered an error.
fn receive(socket: &UdpSocket, room: &mut [u8]) -> Result<Option<usize>, LinkFault>
    ensures { IfOk result (λ came. IfSome came (λ count. count ≤ length room.new)) }
{
    for _ in 0..u64::MAX {
        match socket.recv(room) {
            Ok(count) => return Ok(Some(count)),
            Err(e) => {
                let kind = e.kind();
                if is_timeout(kind) {
                    return Ok(None);
                }
                if kind != ErrorKind::Interrupted {
                    return Err(LinkFault);
                }
            }
        }
    }
    // So many calls did not do: a socket that is interrupted for ever.
    Err(LinkFault)
}

/// Whether an error says that nothing came in time. Systems differ in which of two they answer.
fn is_timeout(kind: ErrorKind) -> bool
    ensures { IsTrue result ↔ (kind ≡ ErrorKind.WouldBlock ⊎ kind ≡ ErrorKind.TimedOut) }
{
    matches!(kind, ErrorKind::WouldBlock | ErrorKind::TimedOut)
}

/// Puts a datagram into the place of what was there, and tells whether it is short enough.
fn take_over(octets: &[u8], into: &mut Datagram) -> bool
    ensures fits { result ≡ nat_le (length octets.now) MAX_DATAGRAM }
    ensures same { IsTrue result → into.new.items ≡ octets.now }
{
    into.clear();
    into.try_extend_from_slice(octets).is_ok()
}

impl Link for UdpLink {
    ghost use Rattle.std.specs.Prelude.{None};

    ghost failed = { λ link. link.faults };

    ghost traffic = { λ link. None };

    fn send(&mut self, to: End, octets: &[u8]) -> Result<(), LinkFault> {
        let from = match to {
            End::Receiver => &self.sender,
            End::Sender => &self.receiver,
        };
        if sends(from, octets) {
            Ok(())
        } else {
            Err(self.fault())
        }
    }

    fn recv(&mut self, at: End, into: &mut Datagram) -> Result<bool, LinkFault> {
        let socket = match at {
            End::Receiver => &self.receiver,
            End::Sender => &self.sender,
        };
        let mut room = [0; ROOM];
        match receive(socket, &mut room) {
            Ok(Some(count)) => Ok(take_over(&room[..count], into)),
            Ok(None) => Ok(false),
            Err(_) => Err(self.fault()),
        }
    }

    fn faults(&self) -> u64 {
        self.faults
    }
}
