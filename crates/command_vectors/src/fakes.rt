//! Readers, writers and a link that do as a test wants.
use rtpwire::Datagram;
use runs::{Link, LinkFault};
use std::alloc::Global;
use std::cell::Cell;
use std::io;
use std::io::{ErrorKind, Read, Write};
use world::End;

/// Gives its octets a few at a time, and fails at one call.
#[derive(Drop)]
pub struct Giver<'a> {
    pub octets: &'a [u8],
    /// How many octets a call gives at most.
    pub piece: usize,
    /// The calls until the one that fails, which is one of them; 0 for none.
    pub fails: usize,
}

impl Read for Giver<'_> {
    ghost use Rattle.std.specs.Prelude.{Some};

    ghost remaining = { λ r. Some r.octets.now };

    fn read(&mut self, buf: &mut [u8]) -> io::Result<usize> {
        if self.fails == 1 {
            return Err(io::Error::from(ErrorKind::ConnectionReset));
        }
        self.fails = self.fails.saturating_sub(1);
        let n = self.octets.len().min(buf.len()).min(self.piece.max(1));
        let (front, rest) = self.octets.split_at(n);
        buf[..n].copy_from_slice(front);
        self.octets = rest;
        Ok(n)
    }
}

/// Takes a few octets a call, so many in all, and then fails, or takes nothing.
#[derive(Drop)]
pub struct Taker {
    pub taken: Vec<u8>,
    /// How many octets a call takes at most.
    pub piece: usize,
    /// How many octets there is room for.
    pub room: usize,
    /// What a call answers where there is no room: an error, or else that it took nothing.
    pub fails: bool,
    /// Whether what was taken can be brought out.
    pub flushes: bool,
    /// How many calls there were.
    pub calls: usize,
}

impl Write for Taker {
    fn write(&mut self, buf: &[u8]) -> io::Result<usize> {
        self.calls = self.calls.saturating_add(1);
        let n = self.room.min(buf.len()).min(self.piece.max(1));
        if n == 0 && self.fails {
            return Err(io::Error::from(ErrorKind::StorageFull));
        }
        self.taken.extend_from_slice(&buf[..n])?;
        self.room -= n;
        Ok(n)
    }

    fn flush(&mut self) -> io::Result<()> {
        if self.flushes {
            Ok(())
        } else {
            Err(io::Error::from(ErrorKind::Other))
        }
    }
}

/// A writer with ample room.
pub fn ample(alloc: Global) -> Taker {
    Taker {
        taken: Vec::new(alloc),
        piece: usize::MAX,
        room: usize::MAX,
        fails: true,
        flushes: true,
        calls: 0,
    }
}

/// A link that loses all.
#[derive(Drop)]
pub struct Silence {
    pub faults: u64,
}

impl Link for Silence {
    ghost use Rattle.std.specs.Prelude.{None};

    ghost failed = { λ link. link.faults };

    ghost traffic = { λ link. None };

    fn send(&mut self, _to: End, _octets: &[u8]) -> Result<(), LinkFault> {
        Ok(())
    }

    fn recv(&mut self, _at: End, _into: &mut Datagram) -> Result<bool, LinkFault> {
        Ok(false)
    }

    fn faults(&self) -> u64 {
        self.faults
    }
}

/// Gives a line a call, and notes how much its writer had brought out by then.
#[derive(Drop)]
pub struct LineGiver<'a> {
    pub octets: &'a [u8],
    pub shown: &'a Cell<usize>,
    pub seen: Vec<usize>,
}

impl Read for LineGiver<'_> {
    fn read(&mut self, buf: &mut [u8]) -> io::Result<usize> {
        self.seen.push(self.shown.get())?;
        let line = match self.octets.iter().position(|x| *x == b'\n') {
            Some(at) => at.saturating_add(1),
            None => 0,
        };
        let n = line.min(buf.len()).min(self.octets.len());
        let (front, rest) = self.octets.split_at(n);
        buf[..n].copy_from_slice(front);
        self.octets = rest;
        Ok(n)
    }
}

/// Tells how much it has brought out.
#[derive(Drop)]
pub struct Shower<'a> {
    pub taken: usize,
    pub shown: &'a Cell<usize>,
}

impl Write for Shower<'_> {
    fn write(&mut self, buf: &[u8]) -> io::Result<usize> {
        self.taken = self.taken.saturating_add(buf.len());
        Ok(buf.len())
    }

    fn flush(&mut self) -> io::Result<()> {
        self.shown.set(self.taken);
        Ok(())
    }
}
