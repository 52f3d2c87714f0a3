//! A drawn script, line by line, and where its log goes.
use crate::digest::Digest;
use crate::draws::Draws;
use std::alloc::Global;
use std::io;
use std::io::{ErrorKind, Read, Write};
use stores::OutOfMemory;

/// So many digits payloads are cut from.
const POOL: usize = 65536;

/// The most digits of a payload.
const LONGEST: u32 = 2400;

/// How many packets are sent before they are delivered, asked for and played.
const BLOCK: u64 = 10;

/// A line of a script, short of its payload.
#[derive(Clone, Copy)]
enum Line {
    Config,
    /// The send of this number.
    Send(u64),
    /// This datagram of the wire is delivered at this moment.
    Deliver(u64, u64),
    Ask(u64),
    Retransmit,
    Play(u64),
    End,
}

/// Blocks of ten packets: they are sent, some are lost and others come out of order, the lost ones are asked for and
/// retransmitted, and all are played. So each line's datagram is known as it is written.
#[derive(Drop)]
pub struct Script {
    digits: Vec<u8>,
    draws: Draws,
    blocks: u64,
    has_begun: bool,
    /// Which block it is at, and which line of it.
    block: u64,
    line: u64,
    /// Which of the packets of this block are lost, a bit for each.
    lost: u32,
    /// How many datagrams lay on the wire as the block began.
    wire: u64,
    /// The line that is written, and how much of it went.
    text: Vec<u8>,
    gone: usize,
}

impl Script {
    /// The script of a seed with so many blocks.
    pub fn new(alloc: Global, seed: u32, blocks: u64) -> Result<Script, OutOfMemory> {
        let mut draws = Draws::new(seed);
        let mut digits = vec![in alloc; 0; POOL + LONGEST as usize]?;
        draws.fill(digits.as_mut_slice());
        for digit in digits.as_mut_slice() {
            *digit = hex(*digit % 16);
        }
        Ok(Script {
            digits,
            draws,
            blocks,
            has_begun: false,
            block: 0,
            line: 0,
            lost: 0,
            wire: 0,
            text: Vec::new(alloc),
            gone: 0,
        })
    }

    /// Which packets of the next block are lost: mostly none, and never the last one.
    fn lose(&mut self) {
        self.lost = 0;
        for packet in 0..9u32 {
            if self.draws.happens(50) {
                self.lost |= 1 << packet;
            }
        }
    }

    /// The next line, and what comes behind it.
    fn next(&mut self) -> Line {
        let count = u64::from(self.lost.count_ones());
        let asks = u64::from(count > 0);
        let now = self.block.saturating_mul(BLOCK);
        let line = self.line;
        self.line = line.saturating_add(1);
        let asked = line.saturating_sub(2 * BLOCK);
        let played = asked.saturating_sub(2 * asks).saturating_sub(2 * count);
        if line < BLOCK {
            Line::Send(now.saturating_add(line))
        } else if line < 2 * BLOCK {
            self.deliver(line - BLOCK, now)
        } else if asked < asks {
            Line::Ask(now)
        } else if asked < 2 * asks {
            Line::Deliver(self.wire.saturating_add(BLOCK), now)
        } else if asked < 2 * asks + 2 * count {
            let number = (asked - 2 * asks) / 2;
            if asked % 2 == 0 {
                Line::Retransmit
            } else {
                Line::Deliver(
                    self.wire.saturating_add(BLOCK + 1).saturating_add(number),
                    now,
                )
            }
        } else if played < BLOCK {
            Line::Play(now)
        } else {
            self.wire = self
                .wire
                .saturating_add(BLOCK)
                .saturating_add(asks)
                .saturating_add(count);
            self.block = self.block.saturating_add(1);
            self.line = 0;
            self.lose();
            Line::Play(now)
        }
    }

    /// The packet of this number is delivered, or if it is lost the last one of its block, which never is.
    fn deliver(&mut self, packet: u64, now: u64) -> Line {
        let is_lost = packet < 10 && self.lost >> (packet % 32) & 1 == 1;
        let which = if is_lost { BLOCK - 1 } else { packet };
        Line::Deliver(self.wire.saturating_add(which), now)
    }

    /// Writes the next line.
    fn write_next(&mut self) -> Result<(), OutOfMemory> {
        self.text.clear();
        self.gone = 0;
        let line = if !self.has_begun {
            self.has_begun = true;
            Line::Config
        } else if self.block >= self.blocks {
            Line::End
        } else {
            self.next()
        };
        match line {
            Line::Config => self.push(b"config 65000 1 1024 1024 1000 20 200 200")?,
            Line::Send(number) => self.write_send(number)?,
            Line::Deliver(datagram, now) => {
                self.push(b"D ")?;
                self.push_number(datagram)?;
                self.push(b" ")?;
                self.push_number(now)?;
            }
            Line::Ask(now) => {
                self.push(b"A ")?;
                self.push_number(now)?;
            }
            Line::Retransmit => self.push(b"R")?,
            Line::Play(now) => {
                self.push(b"P ")?;
                self.push_number(now)?;
            }
            Line::End => return Ok(()),
        }
        self.push(b"\n")
    }

    /// Writes a send with a drawn payload of 20 to 1200 octets.
    fn write_send(&mut self, number: u64) -> Result<(), OutOfMemory> {
        self.push(b"S ")?;
        self.push_number(number.wrapping_mul(3000) % (1 << 32))?;
        self.push(b" 1 0 ")?;
        let len = 40 + 2 * self.draws.below(LONGEST / 2 - 19) as usize;
        let from = 2 * self.draws.below(32768) as usize;
        match self.digits.get(from..from + len) {
            Some(digits) => self.text.extend_from_slice(digits)?,
            None => {}
        }
        self.push(b" - -")
    }

    /// Writes a text.
    fn push(&mut self, text: &[u8]) -> Result<(), OutOfMemory> {
        self.text.extend_from_slice(text)?;
        Ok(())
    }

    /// Writes a number in decimals.
    fn push_number(&mut self, number: u64) -> Result<(), OutOfMemory> {
        let mut digits = [0; 20];
        let mut rest = number;
        let mut from = 20;
        for at in 0..20usize {
            from = 19 - at;
            digits[from] = b'0' + (rest % 10) as u8;
            rest /= 10;
            if rest == 0 {
                break;
            }
        }
        self.text.extend_from_slice(&digits[from.min(20)..])?;
        Ok(())
    }
}

/// The digit of a number below 16.
fn hex(number: u8) -> u8 {
    if number < 10 {
        b'0' + number
    } else {
        b'a' + number.min(15) - 10
    }
}

impl Read for Script {
    fn read(&mut self, buf: &mut [u8]) -> io::Result<usize> {
        let mut done = 0;
        for _ in 0..u64::MAX {
            if done >= buf.len() {
                break;
            }
            if self.gone >= self.text.len() && self.write_next().is_err() {
                return Err(io::Error::from(ErrorKind::OutOfMemory));
            }
            let rest = self.text.get(self.gone..).unwrap_or(&[]);
            if rest.is_empty() {
                return Ok(done);
            }
            let count = rest.len().min(buf.len() - done);
            buf[done..done + count].copy_from_slice(&rest[..count]);
            self.gone = self.gone.saturating_add(count);
            done += count;
        }
        Ok(done.min(buf.len()))
    }
}

/// The digest of a text, however it is cut into pieces.
#[derive(Drop)]
pub struct Sink {
    held: Vec<u8>,
    pub digest: Digest,
}

impl Sink {
    /// That of no text.
    pub fn new(alloc: Global) -> Result<Sink, OutOfMemory> {
        Ok(Sink {
            held: Vec::with_capacity(alloc, POOL)?,
            digest: Digest::EMPTY,
        })
    }

    /// Adds what is held.
    pub fn finish(&mut self) {
        self.digest.add_octets(self.held.as_slice());
        self.held.clear();
    }
}

impl Write for Sink {
    fn write(&mut self, buf: &[u8]) -> io::Result<usize> {
        let count = buf.len().min(POOL.saturating_sub(self.held.len()));
        self.held.extend_from_slice(&buf[..count])?;
        if self.held.len() >= POOL {
            self.finish();
        }
        Ok(count)
    }

    fn flush(&mut self) -> io::Result<()> {
        Ok(())
    }
}
