//! The addresses of a name, for which the system is asked until it knows: where a machine starts no name server may answer yet.
ghost use Rattle.std.specs.Prelude.{◌≡◌};
ghost use Rattle.gozdrit_relay.specs.Names.{pause_after};

use crate::fault::Fault;
use mio::{Events, Poll};
use std::alloc::{AllocError, Global};
use std::io;
use std::io::{ErrorKind, Write};
use std::net::{SocketAddr, ToSocketAddrs};
use std::time::Duration;

/// How long is waited before the second time, and before each later one at most, in seconds.
const FIRST: u64 = 1;

const LONGEST: u64 = 32;

/// What the system says of a name that it can't tell for now (EAI_AGAIN of getaddrinfo(3)).
const FOR_NOW: &str = "Temporary failure in name resolution";

/// The addresses of a host, and of the port behind it where it has one. A name that there is not is refused at once.
pub fn looked_up<'a>(
    rt: &HostRuntime,
    name: &'a str,
    has_port: bool,
) -> Result<Vec<SocketAddr>, Fault<'a>> {
    let mut pause = FIRST;
    for _time in 0..u64::MAX {
        match ask(rt, name, has_port) {
            Ok(found) => return Ok(found),
            Err(e) if e.kind() == ErrorKind::OutOfMemory => return Err(Fault::Memory),
            Err(e) if is_for_now(rt.alloc(), &e) => {}
            Err(_) => break,
        }
        let _ = eprintln!(rt; "can't find {name} for now: tried again in {pause} s");
        if rest(rt, pause).is_err() {
            break;
        }
        pause = pause_after(pause);
    }
    Err(Fault::Find(name))
}

/// What the system answers.
fn ask(rt: &HostRuntime, name: &str, has_port: bool) -> io::Result<Vec<SocketAddr>> {
    let found = if has_port {
        name.to_socket_addrs(rt)?
    } else {
        (name, 0).to_socket_addrs(rt)?
    };
    Ok(found.collect::<Vec<SocketAddr>>(rt.alloc())?)
}

/// Whether the system may know more of a name later. It tells that by words alone.
fn is_for_now(alloc: Global, error: &io::Error) -> bool {
    match shown(alloc, error) {
        Ok(words) => words.ends_with(FOR_NOW),
        Err(_) => false,
    }
}

fn shown(alloc: Global, error: &io::Error) -> Result<String, AllocError> {
    format!(in alloc; "{error}")
}

/// How long is waited next, behind a pause of so many seconds.
fn pause_after(pause: u64) -> u64
    ensures { result ≡ pause_after pause }
{
    pause.saturating_mul(2).min(LONGEST)
}

/// Waits for so many seconds.
fn rest(rt: &HostRuntime, seconds: u64) -> io::Result<()> {
    let mut poll = Poll::new(rt)?;
    let mut events = Events::with_capacity(rt.alloc(), 1)?;
    poll.poll(&mut events, Some(Duration::from_secs(seconds)))
}
