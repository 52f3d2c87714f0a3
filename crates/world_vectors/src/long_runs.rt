//! Runs of a hundred thousand packets and more. Where each access is checked, under `rt try --test`, they need more than the
//! usual time: `--seconds 600`.
ghost use Rattle.std.specs.Prelude.{◌<◌};

use crate::sessions::{does, new_world};
use arrayvec::ArrayVec;
use receiver::Played;
use rtpwire::Content;
use std::test::Fail;
use stores::{RingHistory, RingWindow};
use world::{Entry, Event, World};

const PACKETS: u64 = 100_000;

/// So many packets are sent before a round mends what is missing.
const BLOCK: u64 = 256;

pub(crate) type Long = World<RingHistory, RingWindow>;

/// Sends the empty content with a timestamp.
pub(crate) fn sends(world: &mut Long, timestamp: u64) -> bool {
    let content = Content {
        payload: ArrayVec::new(),
        timestamp: (timestamp % 0x1_0000_0000) as u32,
        marker: false,
        sources: ArrayVec::new(),
        extension: None,
    };
    does(world, &Event::Send(content, 0))
}

/// What a play gives: the place and the timestamp of a packet, or nothing.
#[derive(Clone, Copy, PartialEq, Eq)]
enum Next {
    Packet(u64, u64),
    Wait,
    Other,
}

fn plays(world: &mut Long, now: u64) -> Next {
    if !does(world, &Event::Play(now)) {
        return Next::Other;
    }
    match world.log().last() {
        Some(Entry::Played { played, .. }) => match played {
            Played::Packet(place, content) => {
                Next::Packet(place.value(), u64::from(content.timestamp))
            }
            Played::Wait => Next::Wait,
            Played::Gap(_) => Next::Other,
        },
        _ => Next::Other,
    }
}

/// A number below this one, by the upper bits of a linear congruential generator.
pub(crate) fn draw(state: &mut u64, limit: u64) -> u64
    requires { 0 < limit }
    ensures { result < limit }
{
    *state = state
        .wrapping_mul(6364136223846793005)
        .wrapping_add(1442695040888963407);
    (*state >> 33) % limit
}

/// Of ten packets it loses one, delivers one twice, and keeps one back until the next was delivered.
#[derive(Drop)]
struct Network {
    state: u64,
    kept_back: Option<u64>,
    lost: u64,
}

impl Network {
    /// How often the packet with an index comes, and which comes behind it. The first and the last are sure to come.
    fn carries(&mut self, index: u64, now: u64) -> (u64, Option<u64>) {
        let drawn = draw(&mut self.state, 10);
        let mut times = 1;
        if now != 0 && now != PACKETS - 1 {
            if drawn == 0 {
                self.lost = self.lost.wrapping_add(1);
                times = 0;
            } else if drawn == 1 {
                times = 2;
            } else if drawn == 2 && self.kept_back.is_none() {
                self.kept_back = Some(index);
                return (0, None);
            }
        }
        (times, self.kept_back.take())
    }
}

/// The packet that was kept back comes.
fn catches_up(world: &mut Long, late: Option<u64>, now: u64) -> bool {
    match late {
        Some(index) => does(world, &Event::Deliver(index, now)),
        None => true,
    }
}

/// Sends a packet whose timestamp is the moment.
fn crosses(world: &mut Long, network: &mut Network, now: u64) -> bool {
    let index = world.wire().len() as u64;
    if !sends(world, now) {
        return false;
    }
    let (times, late) = network.carries(index, now);
    for _ in 0..times {
        if !does(world, &Event::Deliver(index, now)) {
            return false;
        }
    }
    catches_up(world, late, now)
}

/// Plays until there is nothing to play. Each packet is to be the next.
pub(crate) fn plays_all(world: &mut Long, next: &mut u64, now: u64) -> bool {
    for _ in 0..PACKETS {
        match plays(world, now) {
            Next::Packet(_, timestamp) if timestamp == *next => *next = next.wrapping_add(1),
            Next::Wait => return true,
            _ => return false,
        }
    }
    true
}

/// A round mends what is missing, and it is played.
fn mends(world: &mut Long, next: &mut u64, now: u64) -> bool {
    world.settle(now).is_ok() && plays_all(world, next, now)
}

/// Sends all packets, and mends after each block.
fn runs(world: &mut Long, network: &mut Network, next: &mut u64) -> bool {
    for now in 0..PACKETS {
        if !crosses(world, network, now) {
            return false;
        }
        if now % BLOCK == BLOCK - 1 || now == PACKETS - 1 {
            let late = network.kept_back.take();
            if !catches_up(world, late, now) || !mends(world, next, now) {
                return false;
            }
        }
    }
    true
}

/// How many retransmissions a log has.
pub(crate) fn repairs(world: &Long) -> u64 {
    let repaired = |entry: &&Entry| matches!(*entry, Entry::Repaired { .. });
    world.log().iter().filter(repaired).count() as u64
}

/// A network that loses, repeats and swaps packets: every packet is played in its order, and of those that were lost each is
/// repaired once.
#[test]
fn a_long_run(rt: HostRuntime) -> Result<(), Fail> {
    let config = "config 60000 0 1024 1024 1000000 1 3 3";
    let mut world = new_world(rt.alloc(), config)?;
    let mut network = Network {
        state: 1,
        kept_back: None,
        lost: 0,
    };
    let mut next = 0;
    assert!(rt; runs(&mut world, &mut network, &mut next));
    assert!(rt; next == PACKETS && repairs(&world) == network.lost && world.close());
    Ok(())
}

/// Whether the last entry is that of the send with this index.
fn was_sent(world: &Long, wanted: u64) -> bool {
    match world.log().last() {
        Some(Entry::Sent { place, index, .. }) => {
            *index == wanted && place.value() == wanted.wrapping_add(125536)
        }
        _ => false,
    }
}

/// Whether the packet with this index is played, at the receiver's place, which is one cycle below the sender's.
fn plays_next(world: &mut Long, index: u64) -> bool {
    plays(world, index) == Next::Packet(index.wrapping_add(60000), index)
}

/// Whether two packets, the second of which comes first, are played in their order.
fn swaps(world: &mut Long, index: u64) -> bool {
    does(world, &Event::Deliver(index.wrapping_add(1), 0))
        && does(world, &Event::Deliver(index, 0))
        && plays_next(world, index)
        && plays_next(world, index.wrapping_add(1))
}

/// Sends a packet, and lets those come that are to come then.
fn goes_on(world: &mut Long, index: u64) -> bool {
    if !sends(world, index) || !was_sent(world, index) {
        false
    } else if index == 10000 {
        does(world, &Event::Deliver(index, 0)) && plays_next(world, index)
    } else {
        index < 10000 || index % 2 != 0 || swaps(world, index.wrapping_sub(1))
    }
}

/// 200000 sends from the place 125536 on, whose sequence numbers wrap three times, each with its index as timestamp. From
/// index 10000 on, which is place 135536 with the sequence number 4464 and so the receiver's place 70000, two at a time are
/// delivered the other way round, and played.
#[test]
fn many_wraps(rt: HostRuntime) -> Result<(), Fail> {
    let mut world = new_world(rt.alloc(), "config 60000 5 8 8 100 20 3 2")?;
    for index in 0..200000 {
        assert!(rt; goes_on(&mut world, index));
    }
    assert!(rt; world.close());
    Ok(())
}
