//! What a sending endpoint does in a turn.
use crate::digest::Digest;
use crate::packets::packet_of;
use crate::path::{Batch, Path};
use crate::scene::Scene;
use crate::shape::Shape;
use crate::telling::add_told;
use endpoint::TimelyEndpoint;
use stores::{OutOfMemory, RingHistory};

/// Sends the packets of a turn.
pub fn send_media(
    sender: &mut TimelyEndpoint<RingHistory>,
    path: &mut Path,
    scene: &mut Scene,
    shape: &Shape,
    turn: u64,
) -> Result<(), OutOfMemory> {
    let first = shape.first_of(turn);
    for packet in 0..shape.packets_of(turn) {
        let number = first.saturating_add(packet);
        let len = send_one(sender, scene, shape, number, turn);
        if let Some(datagram) = scene.room.get(..len) {
            scene.digest.add_datagram(datagram);
            path.carry(&mut scene.draws, &mut scene.spare, turn, datagram)?;
        }
    }
    Ok(())
}

/// Sends the packet of this number, which lies in the scene's room then, and answers how many octets it has.
fn send_one(
    sender: &mut TimelyEndpoint<RingHistory>,
    scene: &mut Scene,
    shape: &Shape,
    number: u64,
    turn: u64,
) -> usize {
    let Ok((carried, padding)) = packet_of(&scene.payloads, shape, number) else {
        return 0;
    };
    let now = turn.saturating_mul(shape.turn);
    match sender.send_into(&mut scene.room, &carried, padding, now) {
        Ok(Ok((place, len))) => {
            scene.digest.add(place.value());
            len
        }
        _ => 0,
    }
}

/// Hears the feedback of a turn.
pub fn hear_feedback(sender: &mut TimelyEndpoint<RingHistory>, batch: &Batch, digest: &mut Digest) {
    let mut from: usize = 0;
    for number in 0..batch.len() {
        let datagram = batch.get(number, from);
        from = from.saturating_add(datagram.len());
        add_told(digest, &sender.on_datagram(datagram));
    }
}

/// Sends all retransmissions that may go.
pub fn retransmit_all(
    sender: &mut TimelyEndpoint<RingHistory>,
    path: &mut Path,
    scene: &mut Scene,
    shape: &Shape,
    turn: u64,
) -> Result<(), OutOfMemory> {
    let now = turn.saturating_mul(shape.turn);
    for _ in 0..8192 {
        let Ok(Some((place, len))) = sender.retransmit_into(&mut scene.room, now) else {
            return Ok(());
        };
        scene.digest.add(place.value());
        if let Some(datagram) = scene.room.get(..len) {
            scene.digest.add_datagram(datagram);
            path.carry(&mut scene.draws, &mut scene.spare, turn, datagram)?;
        }
    }
    Ok(())
}
