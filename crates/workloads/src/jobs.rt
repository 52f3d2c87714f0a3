//! The jobs over two ends: what sessions there are, and what the network does to them.
use crate::before::send;
use crate::behind::receive;
use crate::calls::hold;
use crate::digest::Digest;
use crate::path::Weather;
use crate::payloads::Lengths;
use crate::scene::Scene;
use crate::shape::{CLEAR, Shape};
use crate::tool::{sim, soak};
use std::alloc::Global;
use stores::OutOfMemory;

/// Video: most packets are as long as they may be, and one of eight is shorter, as the last of a frame.
const FULL: Lengths = Lengths {
    least: 100,
    most: 1200,
    odd: 1,
};

/// Video over a fair network: 10,000 packets a second of up to 1200 octets, 2 % lost, some late, some twice.
pub const VIDEO: Shape = Shape {
    capacity: 1024,
    turn: 1,
    packets: 10,
    every: 1,
    frame: 30,
    lengths: FULL,
    is_called: false,
    there: Weather {
        losses: 20,
        late: 20,
        jitter: 10,
        twice: 5,
        ..CLEAR
    },
    back: Weather {
        losses: 20,
        late: 20,
        jitter: 10,
        ..CLEAR
    },
    patience: 80,
    retry: 60,
    first: 0,
    content: 0,
};

/// Video at 40 Mbit/s over a bad one: a quarter is lost, in bursts of 20, and all of it for a second out of five.
pub const OUTAGE: Shape = Shape {
    capacity: 8192,
    turn: 1,
    packets: 4,
    every: 1,
    frame: 60,
    lengths: FULL,
    is_called: false,
    there: Weather {
        losses: 17,
        burst: 20,
        twice: 5,
        period: 5000,
        outage: 1000,
        ..CLEAR
    },
    back: Weather {
        losses: 100,
        ..CLEAR
    },
    patience: 1500,
    retry: 60,
    first: 0,
    content: 0,
};

/// A voice of 50 packets a second.
pub const VOICE: Shape = Shape {
    capacity: 64,
    turn: 20,
    packets: 1,
    every: 1,
    frame: 1,
    lengths: Lengths {
        least: 80,
        most: 160,
        odd: 1,
    },
    is_called: false,
    there: Weather {
        delay: 2,
        losses: 20,
        late: 20,
        jitter: 2,
        twice: 5,
        ..CLEAR
    },
    back: Weather { delay: 2, ..CLEAR },
    patience: 300,
    retry: 100,
    first: 0,
    content: 0,
};

/// The pictures of a call: 400 packets a second, over a network of which an answer takes 50 milliseconds.
pub const PICTURES: Shape = Shape {
    capacity: 1024,
    turn: 5,
    packets: 2,
    every: 1,
    frame: 14,
    lengths: Lengths {
        least: 200,
        most: 1200,
        odd: 8,
    },
    is_called: true,
    there: Weather {
        delay: 5,
        losses: 20,
        late: 20,
        jitter: 3,
        twice: 10,
        ..CLEAR
    },
    back: Weather {
        delay: 5,
        losses: 20,
        ..CLEAR
    },
    patience: 250,
    retry: 70,
    first: 0,
    content: 0,
};

/// Its sound: 50 packets a second.
pub const SOUND: Shape = Shape {
    capacity: 256,
    packets: 1,
    every: 4,
    frame: 1,
    lengths: Lengths {
        least: 40,
        most: 160,
        odd: 8,
    },
    ..PICTURES
};

/// A session with a window of 1024 places and one with 8192, for so many turns of a millisecond.
pub fn stream(alloc: Global, seed: u32, turns: u64) -> Result<Digest, OutOfMemory> {
    let wide = Shape {
        capacity: 8192,
        patience: 400,
        ..VIDEO
    };
    let scene = Scene::new(alloc, seed)?;
    hold(alloc, scene, &[VIDEO, wide], turns)
}

/// A session that is cut off again and again, for so many turns of a millisecond.
pub fn outage(alloc: Global, seed: u32, turns: u64) -> Result<Digest, OutOfMemory> {
    let scene = Scene::new(alloc, seed)?;
    hold(alloc, scene, &[OUTAGE], turns)
}

/// A thousand voices, for so many turns of 20 milliseconds.
pub fn audio(alloc: Global, seed: u32, turns: u64) -> Result<Digest, OutOfMemory> {
    let scene = Scene::new(alloc, seed)?;
    let mut shapes = Vec::new(alloc);
    for number in 0..1000usize {
        shapes.push(Shape {
            capacity: 64 << (number % 4),
            ..VOICE
        })?;
    }
    hold(alloc, scene, shapes.as_slice(), turns)
}

/// A call of thirty: pictures and sound by turns, for so many turns of five milliseconds.
pub fn call(alloc: Global, seed: u32, turns: u64) -> Result<Digest, OutOfMemory> {
    let scene = Scene::new(alloc, seed)?;
    let mut shapes = Vec::new(alloc);
    for _ in 0..15usize {
        shapes.push(PICTURES)?;
        shapes.push(SOUND)?;
    }
    hold(alloc, scene, shapes.as_slice(), turns)
}

/// Both relays over a session of video, each for so many turns of a millisecond.
pub fn relay(alloc: Global, seed: u32, turns: u64) -> Result<Digest, OutOfMemory> {
    let shape = Shape {
        packets: 4,
        patience: 200,
        ..VIDEO
    };
    let scene = Scene::new(alloc, seed)?;
    let scene = receive(alloc, scene, shape, turns)?;
    let scene = send(alloc, scene, shape, turns)?;
    Ok(scene.digest)
}

/// A little of each job, one after another.
fn all(alloc: Global, seed: u32, size: u64) -> Result<Digest, OutOfMemory> {
    let mut digest = Digest::EMPTY;
    digest.add(stream(alloc, seed, size)?.value());
    digest.add(outage(alloc, seed, size)?.value());
    digest.add(audio(alloc, seed, size)?.value());
    digest.add(call(alloc, seed, size)?.value());
    digest.add(relay(alloc, seed, size)?.value());
    digest.add(sim(alloc, seed, size)?.value());
    digest.add(soak(alloc, seed, 1)?.value());
    Ok(digest)
}

/// Does the job of this name, if there is one, and answers its digest.
pub fn does(alloc: Global, job: &str, seed: u32, size: u64) -> Result<Option<u64>, OutOfMemory> {
    let digest = match job {
        "stream" => stream(alloc, seed, size)?,
        "outage" => outage(alloc, seed, size)?,
        "audio" => audio(alloc, seed, size)?,
        "call" => call(alloc, seed, size)?,
        "relay" => relay(alloc, seed, size)?,
        "sim" => sim(alloc, seed, size)?,
        "soak" => soak(alloc, seed, size)?,
        "all" => all(alloc, seed, size)?,
        _ => return Ok(None),
    };
    Ok(Some(digest.value()))
}
