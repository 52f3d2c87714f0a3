//! What a receiving endpoint does with what comes, as an element of a pipeline does: after each datagram it plays all that it can,
//! asks for what is due, and sees when to wake again.
use crate::digest::Digest;
use crate::path::{Batch, Path};
use crate::scene::Scene;
use crate::shape::Shape;
use crate::telling::{add_content, add_heard};
use endpoint::AskingEndpoint;
use receiver::Peeked;
use stores::{OutOfMemory, RingWindow};

/// Hears the datagrams of a turn, and has the time of that turn pass.
pub fn hear_all(
    receiver: &mut AskingEndpoint<RingWindow>,
    back: &mut Path,
    scene: &mut Scene,
    batch: &Batch,
    shape: &Shape,
    turn: u64,
) -> Result<(), OutOfMemory> {
    let now = turn.saturating_mul(shape.turn);
    let mut from: usize = 0;
    for number in 0..batch.len() {
        let datagram = batch.get(number, from);
        from = from.saturating_add(datagram.len());
        let (answer, kind) = receiver.on_datagram(datagram, now);
        add_heard(&mut scene.digest, &answer, kind);
        go_on(receiver, back, scene, shape, turn)?;
    }
    if batch.len() == 0 {
        go_on(receiver, back, scene, shape, turn)?;
    }
    Ok(())
}

/// Plays, asks, and sees when to wake. In a call it asks only where the moment to wake has come.
fn go_on(
    receiver: &mut AskingEndpoint<RingWindow>,
    back: &mut Path,
    scene: &mut Scene,
    shape: &Shape,
    turn: u64,
) -> Result<(), OutOfMemory> {
    let now = turn.saturating_mul(shape.turn);
    play_all(receiver, &mut scene.digest, now);
    if shape.is_called {
        let next = receiver.endpoint().core().next_moment();
        if !has_come(next, now) {
            scene.digest.add_some(next);
            return Ok(());
        }
    }
    ask_all(receiver, back, scene, now, turn)?;
    let next = receiver.endpoint().core().next_moment();
    scene.digest.add_some(next);
    Ok(())
}

/// Whether a moment that is told has come.
fn has_come(moment: Option<u64>, now: u64) -> bool {
    match moment {
        Some(moment) => moment <= now,
        None => false,
    }
}

/// Plays all that can be played.
fn play_all(receiver: &mut AskingEndpoint<RingWindow>, digest: &mut Digest, now: u64) {
    for _ in 0..8192 {
        match receiver.endpoint().core().peek(now) {
            Peeked::Wait => return,
            Peeked::Gap(place) => {
                digest.add(1);
                digest.add(place.value());
            }
            Peeked::Packet(place, content) => {
                digest.add(2);
                digest.add(place.value());
                add_content(digest, content);
            }
        }
        receiver.pass(now);
    }
}

/// Asks for all that is due.
fn ask_all(
    receiver: &mut AskingEndpoint<RingWindow>,
    back: &mut Path,
    scene: &mut Scene,
    now: u64,
    turn: u64,
) -> Result<(), OutOfMemory> {
    let mut out = [0; 268];
    for _ in 0..64 {
        let Ok(Some(len)) = receiver.ask_most_into(&mut out, now, 1088) else {
            return Ok(());
        };
        if let Some(nack) = out.get(..len) {
            scene.digest.add_octets(nack);
            back.carry(&mut scene.draws, &mut scene.spare, turn, nack)?;
        }
    }
    Ok(())
}
