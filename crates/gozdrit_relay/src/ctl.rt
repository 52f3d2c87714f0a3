//! The client of a relay's control socket.
use crate::addresses::found;
use crate::admission::addresses_of;
use crate::fault::Fault;
use mio::net::UnixStream;
use mio::{Events, Interest, Poll, Token};
use std::io;
use std::io::{ErrorKind, Read, Write};
use std::net::SocketAddr;
use std::time::{Duration, Instant};

/// How long a relay is waited for, in milliseconds: twice as long as it waits for a client.
const PATIENCE: u64 = 10_000;

/// What a refusal begins with.
const FAULT: &[u8] = b"fault ";

/// Asks the relay whose control socket is at a path, and prints what it answers. It answers whether that is no refusal. Names are looked up here,
/// so that the relay waits for none.
pub fn ask<'a>(
    rt: &HostRuntime,
    path: &'a str,
    request: &'a str,
    value: Option<&'a str>,
) -> Result<bool, Fault<'a>> {
    let answer = match value {
        None => told(rt, path, request)?,
        Some(name) if request == "to" => told_of_each(rt, path, &found(rt, name)?)?,
        Some(list) if request == "peer" => {
            let list = addresses_of(rt, list)?;
            told(rt, path, &line_of(rt, request, list.as_str())?)?
        }
        Some(value) => told(rt, path, &line_of(rt, request, value)?)?,
    };
    let _ = rt.stdout().write_all(&answer);
    Ok(!answer.starts_with(FAULT))
}

/// What a relay answers to the first of a name's addresses that it can send to, or to the last one.
fn told_of_each<'a>(
    rt: &HostRuntime,
    path: &'a str,
    found: &[SocketAddr],
) -> Result<Vec<u8>, Fault<'a>> {
    let mut answer = Vec::new(rt.alloc());
    for at in found {
        let line = format!(in rt.alloc(); "to {at}").map_err(|_| Fault::Memory)?;
        answer = told(rt, path, &line)?;
        if !answer.starts_with(FAULT) {
            break;
        }
    }
    Ok(answer)
}

/// What a relay answers to a line.
fn told<'a>(rt: &HostRuntime, path: &'a str, line: &str) -> Result<Vec<u8>, Fault<'a>> {
    match answer(rt, path, line) {
        Ok(answer) if answer.is_empty() => Err(Fault::Reach(path, ErrorKind::UnexpectedEof)),
        Ok(answer) => Ok(answer),
        Err(e) => Err(Fault::Reach(path, e.kind())),
    }
}

fn line_of<'a>(rt: &HostRuntime, request: &str, value: &str) -> Result<String, Fault<'a>> {
    format!(in rt.alloc(); "{request} {value}").map_err(|_| Fault::Memory)
}

/// All that a relay answers, until its connection ends.
fn answer(rt: &HostRuntime, path: &str, request: &str) -> io::Result<Vec<u8>> {
    let mut stream = UnixStream::connect(rt, path)?;
    let mut poll = Poll::new(rt)?;
    poll.registry()
        .register(&mut stream, Token(0), Interest::READABLE)?;
    let mut events = Events::with_capacity(rt.alloc(), 1)?;
    let line = format!(in rt.alloc(); "{request}\n")?;
    stream.write_all(line.as_bytes())?;
    let start = Instant::now(rt)?;
    let patience = Duration::from_millis(PATIENCE);
    let mut answer = Vec::new(rt.alloc());
    for _wait in 0..u64::MAX {
        if take(&mut stream, &mut answer)? {
            return Ok(answer);
        }
        let waited = start.elapsed(rt).unwrap_or(patience);
        let left = patience.saturating_sub(waited);
        if left.is_zero() {
            break;
        }
        poll.poll(&mut events, Some(left))?;
    }
    Err(io::Error::from(ErrorKind::TimedOut))
}

/// Takes what came of an answer, and tells whether that is all.
fn take(stream: &mut UnixStream, answer: &mut Vec<u8>) -> io::Result<bool> {
    let mut room = [0; 4096];
    for _read in 0..u64::MAX {
        match stream.read(&mut room) {
            Ok(0) => return Ok(true),
            Ok(count) => answer.extend_from_slice(&room[..count])?,
            Err(e) if e.kind() == ErrorKind::WouldBlock => return Ok(false),
            Err(e) if e.kind() == ErrorKind::Interrupted => {}
            // The relay has ended, or closed the connection with something of the request unread.
            Err(e) if e.kind() == ErrorKind::ConnectionReset => return Ok(true),
            Err(e) => return Err(e),
        }
    }
    Ok(true)
}
