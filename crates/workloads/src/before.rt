//! A relay before a network, whose far side is a receiving endpoint in memory.
use crate::behind::local;
use crate::packets::packet_of;
use crate::path::{Batch, Path};
use crate::receiving::hear_all;
use crate::scene::Scene;
use crate::shape::Shape;
use crate::telling::{add_received, add_sent};
use crate::turns::{add_address, add_turn};
use endpoint::AskingEndpoint;
use relays::{
    Bounds, Meeting, Octets, Outside, OutsideFault, Pace, Rate, SendRelay, Side, Stream, Turn, run,
};
use rtpwire::{Carried, media_len, write_media_into};
use std::alloc::Global;
use std::net::SocketAddr;
use stores::{OutOfMemory, RingHistory, RingWindow};

/// What is outside of it: the application, the far side, and the paths there and back.
#[derive(Drop)]
struct Before {
    scene: Scene,
    shape: Shape,
    receiver: AskingEndpoint<RingWindow>,
    there: Path,
    back: Path,
    turn: u64,
    /// How many packets of the application came so far.
    sent: u64,
    /// The feedback of this turn: what was not told so far begins at this number and octet.
    batch: Batch,
    next: usize,
    from: usize,
    /// What reached the far side last.
    came: Batch,
    /// Whether memory was refused.
    failed: bool,
}

impl Before {
    /// Has the far side do all that happens in this turn, and begins the next one.
    fn go_on(&mut self) -> Result<(), OutOfMemory> {
        self.there
            .take(&mut self.scene.spare, self.turn, &mut self.came)?;
        hear_all(
            &mut self.receiver,
            &mut self.back,
            &mut self.scene,
            &self.came,
            &self.shape,
            self.turn,
        )?;
        self.turn = self.turn.saturating_add(1);
        self.back
            .take(&mut self.scene.spare, self.turn, &mut self.batch)?;
        self.next = 0;
        self.from = 0;
        Ok(())
    }

    /// Hands the next packet of the application over, and tells whether there is room for it.
    fn hand(&mut self, room: &mut Octets) -> bool {
        let number = (self.sent % 65536) as u16;
        let number = number.wrapping_add(self.shape.first);
        let len = match packet_of(&self.scene.payloads, &self.shape, self.sent) {
            Ok((carried, padding)) => write(&carried, padding, number, &mut self.scene.room),
            Err(_) => 0,
        };
        match self.scene.room.get(..len) {
            Some(packet) => room.try_extend_from_slice(packet).is_ok(),
            None => false,
        }
    }
}

/// Writes a packet of the application with this number, and answers how many octets it has: none where there is no payload or no room.
fn write(carried: &Carried<'_>, padding: u8, number: u16, out: &mut [u8]) -> usize {
    if carried.payload().is_empty() || media_len(carried, padding) > out.len() {
        return 0;
    }
    write_media_into(out, carried, padding, number, 96, 0x1111_1111)
}

impl Outside for Before {
    ghost use Rattle.std.specs.Prelude.{None};

    ghost traffic = { λ outside. None };

    fn wait(&mut self, until: Option<u64>, room: &mut Octets) -> Result<Meeting, OutsideFault> {
        self.scene.digest.add_some(until);
        let wanted = self.turn.saturating_mul(self.shape.packets);
        if self.next >= self.batch.len() && self.sent >= wanted && self.go_on().is_err() {
            return Err(OutsideFault);
        }
        if self.failed {
            return Err(OutsideFault);
        }
        let now = self.turn.saturating_mul(self.shape.turn);
        room.clear();
        if self.next < self.batch.len() {
            let datagram = self.batch.get(self.next, self.from);
            if room.try_extend_from_slice(datagram).is_err() {
                return Err(OutsideFault);
            }
            self.from = self.from.saturating_add(datagram.len());
            self.next += 1;
            return Ok(Meeting {
                now,
                came: Some((Side::Far, local(6004))),
            });
        }
        if !self.hand(room) {
            return Err(OutsideFault);
        }
        self.sent = self.sent.saturating_add(1);
        Ok(Meeting {
            now,
            came: Some((Side::Near, local(5004))),
        })
    }

    fn send(&mut self, side: Side, to: SocketAddr, octets: &[u8]) {
        add_address(&mut self.scene.digest, side, to);
        self.scene.digest.add_datagram(octets);
        let carried = self.there.carry(
            &mut self.scene.draws,
            &mut self.scene.spare,
            self.turn,
            octets,
        );
        self.failed = self.failed || carried.is_err();
    }

    fn tell(&mut self, turn: &Turn, octets: &[u8], now: u64) {
        add_turn(&mut self.scene.digest, turn, now);
        self.scene.digest.add(octets.len() as u64);
    }
}

/// Such a relay, for so many turns.
fn relay(alloc: Global, shape: &Shape, turns: u64) -> Result<SendRelay<RingHistory>, OutOfMemory> {
    let Ok(sending) = shape.sender() else {
        return Err(OutOfMemory);
    };
    SendRelay::new(
        alloc,
        sending,
        shape.rule(),
        shape.capacity.clamp(1, 8192),
        local(6004),
        Stream::new(0x1111_1111),
        Pace::new(Rate::Percent(100)),
        Bounds {
            packets: None,
            until: Some(turns.saturating_mul(shape.turn)),
        },
    )
}

/// Runs such a relay over this session until so many turns are over, and answers what is outside.
pub fn send(alloc: Global, scene: Scene, shape: Shape, turns: u64) -> Result<Scene, OutOfMemory> {
    let mut relay = relay(alloc, &shape, turns)?;
    let mut outside = Before {
        scene,
        shape,
        receiver: shape.receiving_end(alloc)?,
        there: Path::new(alloc, shape.there)?,
        back: Path::new(alloc, shape.back)?,
        turn: 0,
        sent: 0,
        batch: Batch::new(alloc),
        next: 0,
        from: 0,
        came: Batch::new(alloc),
        failed: false,
    };
    let ended = run(&mut outside, &mut relay);
    let digest = &mut outside.scene.digest;
    digest.add(u64::from(ended.is_ok()));
    add_sent(digest, &relay.counts(), &relay.passed());
    let receiver = &outside.receiver;
    let counts = receiver.endpoint().counts();
    add_received(&mut outside.scene.digest, &counts, &receiver.kinds());
    Ok(outside.scene)
}
