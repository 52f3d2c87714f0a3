//! A relay behind a network, whose far side is a sending endpoint in memory.
use crate::path::{Batch, Path};
use crate::scene::Scene;
use crate::sending::{hear_feedback, retransmit_all, send_media};
use crate::shape::Shape;
use crate::telling::{add_received, add_sent};
use crate::turns::{add_address, add_turn};
use endpoint::TimelyEndpoint;
use relays::{
    Bounds, Meeting, Numbering, Octets, Outside, OutsideFault, ReceiveRelay, Side, Turn, run,
};
use std::alloc::Global;
use std::net::{Ipv4Addr, SocketAddr};
use stores::{OutOfMemory, RingHistory, RingWindow};

/// What is outside of it: the far side, the paths there and back, and a player that compares what comes.
#[derive(Drop)]
struct Behind {
    scene: Scene,
    shape: Shape,
    sender: TimelyEndpoint<RingHistory>,
    there: Path,
    back: Path,
    turn: u64,
    batch: Batch,
    /// What came at this turn and was not told so far: its number in the batch, and where it begins.
    next: usize,
    from: usize,
    /// Whether memory was refused.
    failed: bool,
}

/// An address of this machine.
pub fn local(port: u16) -> SocketAddr {
    SocketAddr::from((Ipv4Addr::LOCALHOST, port))
}

impl Behind {
    /// Has the far side do all that happens in the next turn.
    fn go_on(&mut self) -> Result<(), OutOfMemory> {
        self.turn = self.turn.saturating_add(1);
        send_media(
            &mut self.sender,
            &mut self.there,
            &mut self.scene,
            &self.shape,
            self.turn,
        )?;
        self.back
            .take(&mut self.scene.spare, self.turn, &mut self.batch)?;
        hear_feedback(&mut self.sender, &self.batch, &mut self.scene.digest);
        retransmit_all(
            &mut self.sender,
            &mut self.there,
            &mut self.scene,
            &self.shape,
            self.turn,
        )?;
        self.there
            .take(&mut self.scene.spare, self.turn, &mut self.batch)?;
        self.next = 0;
        self.from = 0;
        Ok(())
    }
}

impl Outside for Behind {
    ghost use Rattle.std.specs.Prelude.{None};

    ghost traffic = { λ outside. None };

    fn wait(&mut self, until: Option<u64>, room: &mut Octets) -> Result<Meeting, OutsideFault> {
        self.scene.digest.add_some(until);
        if self.next >= self.batch.len() && self.go_on().is_err() {
            return Err(OutsideFault);
        }
        let now = self.turn.saturating_mul(self.shape.turn);
        if self.failed {
            return Err(OutsideFault);
        }
        if self.next >= self.batch.len() {
            return Ok(Meeting { now, came: None });
        }
        let datagram = self.batch.get(self.next, self.from);
        room.clear();
        if room.try_extend_from_slice(datagram).is_err() {
            return Err(OutsideFault);
        }
        self.from = self.from.saturating_add(datagram.len());
        self.next += 1;
        Ok(Meeting {
            now,
            came: Some((Side::Far, local(6004))),
        })
    }

    fn send(&mut self, side: Side, to: SocketAddr, octets: &[u8]) {
        add_address(&mut self.scene.digest, side, to);
        self.scene.digest.add_octets(octets);
        if side == Side::Far {
            let carried = self.back.carry(
                &mut self.scene.draws,
                &mut self.scene.spare,
                self.turn,
                octets,
            );
            self.failed = self.failed || carried.is_err();
        }
    }

    fn tell(&mut self, turn: &Turn, octets: &[u8], now: u64) {
        add_turn(&mut self.scene.digest, turn, now);
        self.scene.digest.add(octets.len() as u64);
    }
}

/// Such a relay, for so many turns.
fn relay(
    alloc: Global,
    shape: &Shape,
    turns: u64,
) -> Result<ReceiveRelay<RingWindow>, OutOfMemory> {
    let Ok(receiving) = shape.receiver() else {
        return Err(OutOfMemory);
    };
    ReceiveRelay::new(
        alloc,
        receiving,
        shape.capacity.clamp(1, 8192),
        local(6004),
        local(5004),
        Numbering::new(0x4444_4444),
        None,
        Bounds {
            packets: None,
            until: Some(turns.saturating_mul(shape.turn)),
        },
    )
}

/// Runs such a relay over this session until so many turns are over, and answers what is outside.
pub fn receive(
    alloc: Global,
    scene: Scene,
    shape: Shape,
    turns: u64,
) -> Result<Scene, OutOfMemory> {
    let mut relay = relay(alloc, &shape, turns)?;
    let mut outside = Behind {
        scene,
        shape,
        sender: shape.sending_end(alloc)?,
        there: Path::new(alloc, shape.there)?,
        back: Path::new(alloc, shape.back)?,
        turn: 0,
        batch: Batch::new(alloc),
        next: 0,
        from: 0,
        failed: false,
    };
    let ended = run(&mut outside, &mut relay);
    let digest = &mut outside.scene.digest;
    digest.add(u64::from(ended.is_ok()));
    add_received(digest, &relay.counts(), &relay.kinds());
    let sender = &outside.sender;
    let counts = sender.endpoint().counts();
    add_sent(&mut outside.scene.digest, &counts, &sender.passed());
    Ok(outside.scene)
}
