//! Packets whose sender has still to answer: they are heard once he does, in their order.
ghost use Rattle.std.specs.Prelude.{◌≡◌, ◌<◌, ◌≤◌, [], length};
ghost use Rattle.std.specs.List.{list_any, position};
ghost use Rattle.liveness.specs.Pending.{DropsFirst, Expires, Keeps, MakesRoom, Takes, is_of};

use crate::living::Source;
use std::alloc::Global;
use std::net::SocketAddr;

/// How many are kept at most, and how long, in milliseconds.
const MOST: usize = 256;

const LONGEST: u64 = 1000;

/// A packet under an SSRC that did not answer so far, its index, where it came from, and at which moment, in
/// milliseconds.
#[derive(Drop)]
pub struct Pending {
    pub ssrc: u32,
    pub index: u64,
    pub from: SocketAddr,
    pub octets: Vec<u8>,
    pub moment: u64,
}

/// Packets that wait for an answer, in the order in which they came.
#[derive(Drop)]
pub struct PendingPackets {
    packets: Vec<Pending>,
    ghost bounded: { length packets.items ≤ 256 },
}

impl PendingPackets {
    /// None so far.
    pub fn new(alloc: Global) -> PendingPackets
        ensures { result.packets.items ≡ [] }
    {
        PendingPackets {
            packets: Vec::new(alloc),
        }
    }

    /// Has one more wait; those that waited for a second by its moment go, and the oldest one does where 256 wait. It
    /// answers how many no longer wait: these, and the one itself where there is no memory.
    pub fn keep(&mut self, one: Pending) -> u64
        ensures { Keeps self.old.packets.items one result self.new.packets.items }
    {
        let dropped = self.make_room(one.moment);
        match self.packets.push(one) {
            Ok(()) => dropped,
            Err(_) => dropped + 1,
        }
    }

    /// Those that waited for a second wait no longer, nor does the oldest one where 256 wait then. It answers how many
    /// that are.
    fn make_room(&mut self, now: u64) -> u64
        ensures room { length self.new.packets.items < 256 }
        ensures left { MakesRoom self.old.packets.items now result self.new.packets.items }
    {
        let dropped = self.expire(now);
        if self.packets.len() < MOST {
            return dropped;
        }
        self.packets.remove(0);
        dropped + 1
    }

    /// Those that waited for a second wait no longer. It answers how many that are.
    fn expire(&mut self, now: u64) -> u64
        ensures { Expires self.old.packets.items now result self.new.packets.items }
    {
        if self.drop_expired(now) {
            1 + self.expire(now)
        } else {
            0
        }
    }

    /// Drops the first one where it waited for a second, and answers whether it did.
    fn drop_expired(&mut self, now: u64) -> bool
        ensures { DropsFirst self.old.packets.items now result self.new.packets.items }
    {
        let Some(first) = self.packets.first() else {
            return false;
        };
        if now.saturating_sub(first.moment) < LONGEST {
            return false;
        }
        self.packets.remove(0);
        true
    }

    /// Whether a packet of an SSRC waits that is not of the past, as its answer tells.
    pub fn has(&self, source: &Source) -> bool
        ensures { result ≡ list_any (is_of source.now) self.now.packets.items }
    {
        self.packets.iter().any(|one| is_of(source, one))
    }

    /// The first such packet, which waits no longer.
    pub fn take(&mut self, source: &Source) -> Option<Pending>
        ensures { Takes self.old.packets.items source.now result self.new.packets.items }
    {
        let at = place_of(&self.packets, source)?;
        Some(self.packets.remove(at))
    }
}

/// Whether a packet is of an SSRC that answered, and not of its past.
fn is_of(source: &Source, one: &Pending) -> bool
    ensures { result ≡ is_of source.now one.now }
{
    one.ssrc == source.ssrc && one.index >= source.first
}

/// Where the first such packet stands.
fn place_of(packets: &[Pending], source: &Source) -> Option<usize>
    ensures { result ≡ position (is_of source.now) packets.now }
{
    packets.iter().position(|one| is_of(source, one))
}
