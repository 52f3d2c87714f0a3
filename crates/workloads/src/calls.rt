//! Sessions over paths in memory, by turns.
ghost use Rattle.std.specs.Prelude.{◌≤◌, ◌<◌};

use crate::digest::Digest;
use crate::path::{Batch, Path};
use crate::receiving::hear_all;
use crate::scene::Scene;
use crate::sending::{hear_feedback, retransmit_all, send_media};
use crate::shape::Shape;
use crate::telling::{add_received, add_sent};
use endpoint::{AskingEndpoint, TimelyEndpoint};
use std::alloc::Global;
use stores::{OutOfMemory, RingHistory, RingWindow};

/// Both ends of a session, and the paths between them.
#[derive(Drop)]
pub struct Call {
    shape: Shape,
    sender: TimelyEndpoint<RingHistory>,
    receiver: AskingEndpoint<RingWindow>,
    there: Path,
    back: Path,
}

impl Call {
    /// A session of this shape that did nothing so far.
    pub fn new(alloc: Global, shape: Shape) -> Result<Call, OutOfMemory> {
        Ok(Call {
            shape,
            sender: shape.sending_end(alloc)?,
            receiver: shape.receiving_end(alloc)?,
            there: Path::new(alloc, shape.there)?,
            back: Path::new(alloc, shape.back)?,
        })
    }

    /// Does all that happens in a turn.
    fn turn(&mut self, scene: &mut Scene, batch: &mut Batch, turn: u64) -> Result<(), OutOfMemory> {
        send_media(&mut self.sender, &mut self.there, scene, &self.shape, turn)?;
        self.back.take(&mut scene.spare, turn, batch)?;
        hear_feedback(&mut self.sender, batch, &mut scene.digest);
        retransmit_all(&mut self.sender, &mut self.there, scene, &self.shape, turn)?;
        self.there.take(&mut scene.spare, turn, batch)?;
        hear_all(
            &mut self.receiver,
            &mut self.back,
            scene,
            batch,
            &self.shape,
            turn,
        )
    }

    /// Adds what its ends counted.
    fn tell(&self, digest: &mut Digest) {
        let counts = self.receiver.endpoint().counts();
        add_received(digest, &counts, &self.receiver.kinds());
        let counts = self.sender.endpoint().counts();
        add_sent(digest, &counts, &self.sender.passed());
    }
}

/// Has sessions of these shapes go on side by side for so many turns.
pub fn hold(
    alloc: Global,
    mut scene: Scene,
    shapes: &[Shape],
    turns: u64,
) -> Result<Digest, OutOfMemory> {
    let mut calls = Vec::new(alloc);
    for shape in shapes {
        let number = calls.len();
        calls.push(Call::new(alloc, shape.with_packets(number))?)?;
    }
    let mut batch = Batch::new(alloc);
    for turn in 0..turns {
        for call in calls.as_mut_slice() {
            call.turn(&mut scene, &mut batch, turn)?;
        }
    }
    for call in calls.as_slice() {
        call.tell(&mut scene.digest);
    }
    Ok(scene.digest)
}
