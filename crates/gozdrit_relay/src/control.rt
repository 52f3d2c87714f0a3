//! The sockets where clients come to: that of the control at a path, and that of the metrics at an address.
use crate::addresses::found;
use crate::clients::Doors;
use crate::command_line::Options;
use crate::fault::Fault;
use mio::net::{TcpListener, UnixListener, UnixStream};
use std::fs::Files;
use std::io::ErrorKind;
use std::net::Net;
use std::os::fd::{AsFd, AsRawFd};
use std::os::unix::fs::FileTypeExt;
use std::os::unix::net;
use std::{fs, io};

/// Who may use the control socket: who runs the relay.
const MODE: u32 = 0o600;

/// How many clients may wait there to be let in.
const WAITING: i32 = 128;

/// The sockets that the options ask for.
pub fn doors<'a>(rt: &HostRuntime, options: &Options<'a>) -> Result<Doors, Fault<'a>> {
    let metrics = match options.metrics {
        Some(name) => Some(metrics(rt, name)?),
        None => None,
    };
    let control = match options.control {
        Some(path) => Some(control(rt, path)?),
        None => None,
    };
    Ok(Doors { control, metrics })
}

/// A socket for the metrics, at the first of an address's meanings where one can be had.
fn metrics<'a>(rt: &HostRuntime, name: &'a str) -> Result<TcpListener, Fault<'a>> {
    let mut fault = Fault::Find(name);
    for at in &found(rt, name)? {
        match TcpListener::bind(rt, *at) {
            Ok(listener) => return Ok(listener),
            Err(e) => fault = Fault::Metrics(*at, e.kind()),
        }
    }
    Err(fault)
}

/// A control socket at a path. What a relay left there that was ended by a signal makes way.
fn control<'a>(rt: &HostRuntime, path: &'a str) -> Result<UnixListener, Fault<'a>> {
    let first = listen(rt, path);
    let again = match first {
        Err(e) if e.kind() == ErrorKind::AddrInUse => {
            if !is_left(rt, path) {
                return Err(Fault::Control(path, ErrorKind::AddrInUse));
            }
            let _ = fs::remove_file(rt, path);
            listen(rt, path)
        }
        first => first,
    };
    again.map_err(|e| Fault::Control(path, e.kind()))
}

/// Listens at a path. The mode is that of the socket before it has a name, so nobody else can come to it at any moment.
fn listen(rt: &HostRuntime, path: &str) -> io::Result<UnixListener> {
    let fd = rt.unix_socket()?;
    if libc::fchmod(fd.as_raw_fd(), MODE) != 0 {
        return Err(io::Error::from(ErrorKind::PermissionDenied));
    }
    rt.bind_unix(fd.as_fd(), &net::SocketAddr::from_pathname(path)?)?;
    if libc::net::listen(fd.as_raw_fd(), WAITING) != 0 {
        return Err(io::Error::from(ErrorKind::Other));
    }
    let listener = net::UnixListener::from(fd);
    listener.set_nonblocking(true)?;
    Ok(UnixListener::from_std(listener))
}

/// Whether a socket stands at a path where nobody listens.
fn is_left(rt: &HostRuntime, path: &str) -> bool {
    let Ok(metadata) = fs::symlink_metadata(rt, path) else {
        return false;
    };
    if !metadata.file_type().is_socket() {
        return false;
    }
    match UnixStream::connect(rt, path) {
        Err(e) => e.kind() == ErrorKind::ConnectionRefused,
        Ok(_) => false,
    }
}
