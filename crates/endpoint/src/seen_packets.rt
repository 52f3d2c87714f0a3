//! Which packets were taken last.
ghost use Rattle.std.specs.Prelude.{◌≡◌, ◌%◌, ◌<◌, ℕ, length, IfOk};
ghost use Rattle.endpoint.specs.Seen.{is_repeat, none_seen, seen_after, timestamp_in, was_seen, with_packet};

use crate::heard::Heard;
use places::Place;
use receiver::ReceiveFault;
use rtpwire::u32_at;
use std::alloc::Global;
use std::marker::Model;
use stores::OutOfMemory;

/// So many sequence numbers are told apart: as many as the largest window has.
pub(crate) const SEEN: usize = 8192;

/// A packet that was taken, as its header names it.
#[derive(Clone, Copy, Debug, PartialEq, Eq)]
pub struct SeenPacket {
    pub number: u16,
    pub timestamp: u32,
}

/// The packets that were taken last, in a ring with a cell for each sequence number modulo the number of cells. It takes memory in
/// `new` alone. Contracts see it as the list of its cells.
///
/// A packet is remembered until another one with the same cell is taken, whatever restarts meanwhile.
#[derive(Debug, Drop)]
pub struct SeenPackets {
    cells: Vec<Option<SeenPacket>>,
}

impl Model for SeenPackets {
    ghost use Rattle.std.specs.Prelude.{◌<◌, List, Option, length};
    ghost use Rattle.endpoint.specs.declared.seen_packets.SeenPacket.{SeenPacket};

    ghost Value = { List (Option SeenPacket) };

    ghost view = { λ s. s.cells.items };

    ghost invariant = { λ s. 0 < length s.cells.items };
}

impl SeenPackets {
    /// A ring of so many cells that remembers nothing.
    ///
    /// `OutOfMemory`: the allocator refused the memory.
    pub(crate) fn new(alloc: Global, count: usize) -> Result<SeenPackets, OutOfMemory>
        requires { 0 < count }
        ensures { IfOk result (λ made. made ≡ none_seen count) }
    {
        let mut cells = Vec::with_capacity(alloc, count)?;
        'blank: for _ in 0..count {
            cells.push_reserved(None);
        }
        Ok(SeenPackets { cells })
    }

    /// Whether the packet with this sequence number and this timestamp is remembered.
    pub fn was_seen(&self, number: u16, timestamp: u32) -> bool
        ensures { result ≡ was_seen self.now number timestamp }
    {
        match self.cells[self.index_of(number)] {
            Some(seen) => seen.number == number && seen.timestamp == timestamp,
            None => false,
        }
    }

    /// Remembers what was taken, by the answer to a datagram: a retransmission as its original.
    pub(crate) fn hear(&mut self, answer: &Result<Heard, ReceiveFault>, octets: &[u8])
        ensures { self.new ≡ seen_after answer.now octets.now self.old }
    {
        match answer {
            Ok(Heard::Media(taken)) => self.keep(taken.place, octets),
            Ok(Heard::Repair(taken)) => self.keep(taken.place, octets),
            Ok(Heard::Restarted(restart)) => self.keep(restart.taken.place, octets),
            _ => {}
        }
    }

    /// Remembers the packet of this place with the timestamp in these octets.
    fn keep(&mut self, place: Place, octets: &[u8])
        ensures { self.new ≡ with_packet self.old (place % 65536) (timestamp_in octets.now) }
    {
        let number = place.number();
        let index = self.index_of(number);
        self.cells[index] = Some(SeenPacket {
            number,
            timestamp: timestamp_in(octets),
        });
    }

    /// The index of the cell of this sequence number.
    fn index_of(&self, number: u16) -> usize
        ensures index { result ≡ number % length self.now }
        ensures within { result < length self.now }
    {
        usize::from(number) % self.cells.len()
    }
}

/// The RTP timestamp of a packet with these octets (RFC 3550, section 5.1).
pub(crate) fn timestamp_in(octets: &[u8]) -> u32
    ensures { result ≡ timestamp_in octets.now }
{
    if octets.len() < 8 {
        0
    } else {
        u32_at(octets, 4)
    }
}

/// Whether a media packet with this number, as the octets spell it, was taken before.
pub(crate) fn is_repeat(seen: &SeenPackets, number: Option<u16>, octets: &[u8]) -> bool
    ensures { result ≡ is_repeat seen.now number octets.now }
{
    match number {
        Some(number) => seen.was_seen(number, timestamp_in(octets)),
        None => false,
    }
}
