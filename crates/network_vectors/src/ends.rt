//! One session's ends, its packets, and the draws of a network: what the rows of losses, restarts and times begin with.
ghost use Rattle.std.specs.Prelude.{◌<◌, ◌≤◌};

use arrayvec::ArrayVec;
use receiver::{Receiver, ReceiverConfig};
use rtpwire::{Content, Datagram, Session};
use sender::{Sender, SenderConfig};
use std::alloc::Global;
use std::test::Fail;
use stores::{History, RingHistory, RingWindow, Window};

pub(crate) fn session() -> Result<Session, Fail> {
    match Session::new(0x11111111, 96, 0x22222222, 97, 0x33333333) {
        Ok(session) => Ok(session),
        Err(_) => Err(Fail::from("a good session")),
    }
}

/// A receiver's configuration with these times and so many asks for each place.
pub(crate) fn config(
    patience: u64,
    delay: u64,
    retry: u64,
    asks: u8,
) -> Result<ReceiverConfig, Fail> {
    match ReceiverConfig::new(session()?, patience, retry, asks) {
        Ok(config) => Ok(config.with_delay(delay)),
        Err(_) => Err(Fail::from("a good configuration")),
    }
}

/// A new receiver over a ring with so much room.
pub(crate) fn receiver(
    alloc: Global,
    config: ReceiverConfig,
    room: usize,
) -> Result<Receiver<RingWindow>, Fail>
    requires nonzero { 0 < room }
    requires limit { room ≤ 8192 }
{
    match RingWindow::new(alloc, room) {
        Ok(window) => Ok(Receiver::new(config, window)),
        Err(_) => Err(Fail::from("memory is ample")),
    }
}

/// A new sender, whose first packet has this number. It repeats each packet up to three times.
pub(crate) fn sender(alloc: Global, first: u16) -> Result<Sender<RingHistory>, Fail> {
    let (Ok(config), Ok(history)) = (
        SenderConfig::new(session()?, first, 5, 3),
        RingHistory::new(alloc, 64),
    ) else {
        return Err(Fail::from("good limits and ample memory"));
    };
    Ok(Sender::new(config, history))
}

/// A content that its index tells from the others.
pub(crate) fn content(index: u32) -> Content {
    let mut payload = ArrayVec::new();
    payload.push((index % 251) as u8);
    Content {
        payload,
        timestamp: index,
        marker: index % 2 == 0,
        sources: ArrayVec::new(),
        extension: None,
    }
}

/// A media packet with this number and timestamp, and no payload.
pub(crate) fn media(seq: u16, timestamp: u32) -> [u8; 12] {
    let [high, low] = seq.to_be_bytes();
    let [a, b, c, d] = timestamp.to_be_bytes();
    [0x80, 96, high, low, a, b, c, d, 0x11, 0x11, 0x11, 0x11]
}

/// Its retransmission (RFC 4588, section 4).
pub(crate) fn repair(seq: u16, timestamp: u32) -> [u8; 14] {
    let [high, low] = seq.to_be_bytes();
    let [a, b, c, d] = timestamp.to_be_bytes();
    [
        0x80, 97, 0, 5, a, b, c, d, 0x22, 0x22, 0x22, 0x22, high, low,
    ]
}

/// A datagram of a row.
#[derive(Clone, Copy)]
pub(crate) enum Packet {
    /// Media with this number, of timestamp 0.
    Media(u16),
    /// Its retransmission.
    Repair(u16),
    /// These octets.
    These(&'static [u8]),
}

impl Packet {
    /// Its octets. What is longer than a datagram has none.
    pub(crate) fn octets(self) -> Datagram {
        let mut octets = Datagram::new();
        let _ = match self {
            Packet::Media(seq) => octets.try_extend_from_slice(&media(seq, 0)),
            Packet::Repair(seq) => octets.try_extend_from_slice(&repair(seq, 0)),
            Packet::These(these) => octets.try_extend_from_slice(these),
        };
        octets
    }
}

/// What goes by steps, each of which is done or is wanted to be so.
pub(crate) trait Does<S> {
    /// Does a step, and says whether what is wanted is so.
    fn does(&mut self, step: &S) -> bool;
}

/// The first step, by its index, at which something else is so than is wanted.
pub(crate) fn wrong<S, D: Does<S>>(it: &mut D, steps: &[S]) -> Option<usize> {
    for (index, step) in steps.iter().enumerate() {
        if !it.does(step) {
            return Some(index);
        }
    }
    None
}

/// The sequence numbers that a generic NACK names, read by hand (RFC 4585, section 6.2.1).
pub(crate) fn named(alloc: Global, nack: &[u8]) -> Result<Vec<u16>, Fail> {
    let mut numbers = Vec::new(alloc);
    for pair in nack.chunks_exact(4).skip(3) {
        let &[a, b, c, d] = pair else {
            return Err(Fail::from("four octets"));
        };
        let first = u16::from_be_bytes([a, b]);
        let mask = u16::from_be_bytes([c, d]);
        numbers.push(first)?;
        for bit in 0..16u16 {
            if (mask >> bit) & 1 == 1 {
                numbers.push(first.wrapping_add(bit).wrapping_add(1))?;
            }
        }
    }
    Ok(numbers)
}

/// Writes down what was answered or done: a moment, what kind it is, and its octets.
pub(crate) fn writes(log: &mut Vec<u8>, moment: u64, kind: u8, what: &[u8]) -> Result<(), Fail> {
    log.extend_from_slice(moment.to_be_bytes().as_slice())?;
    log.push(kind)?;
    log.extend_from_slice(what)?;
    Ok(())
}

/// A network's draws, by the upper bits of a linear congruential generator.
#[derive(Drop)]
pub(crate) struct Draws {
    state: u64,
}

impl Draws {
    pub(crate) fn new(seed: u64) -> Draws {
        Draws { state: seed }
    }

    /// A number below this one.
    pub(crate) fn below(&mut self, limit: u64) -> u64
        requires { 0 < limit }
        ensures { result < limit }
    {
        self.state = self
            .state
            .wrapping_mul(6364136223846793005)
            .wrapping_add(1442695040888963407);
        (self.state >> 33) % limit
    }
}
