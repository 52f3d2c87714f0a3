//! What is drawn: which datagrams are dropped for a trial, and where a stream begins.
use rand_core::{Rng, SeedableRng};
use rand_pcg::Lcg64Xsh32;
use std::time::{Duration, SystemTime, UNIX_EPOCH};

/// The words of a generator drop so many of 1000 datagrams.
#[derive(Drop)]
pub struct Draws {
    rng: Lcg64Xsh32,
    /// Of 1000.
    loss: u32,
}

impl Draws {
    /// The draws of a seed. With the same one the same are dropped.
    pub fn new(seed: u64, loss: u32) -> Draws {
        Draws {
            rng: Lcg64Xsh32::seed_from_u64(seed),
            loss,
        }
    }

    /// Whether the next datagram is dropped.
    pub fn drops(&mut self) -> bool {
        self.loss > 0 && self.rng.next_u32() % 1000 < self.loss
    }
}

/// An SSRC and the first sequence number of a stream, drawn anew at each start (RFC 3550, sections 5.1 and 8.1): by the system's clock, since the
/// program is lent nothing that is more random.
pub fn drawn_start(rt: &HostRuntime) -> (u32, u16) {
    let since = match SystemTime::now(rt) {
        Ok(time) => time.duration_since(UNIX_EPOCH).unwrap_or(Duration::ZERO),
        Err(_) => Duration::ZERO,
    };
    let nanos = u64::from(since.subsec_nanos());
    let seed = since
        .as_secs()
        .wrapping_mul(1_000_000_000)
        .wrapping_add(nanos);
    let mut rng = Lcg64Xsh32::seed_from_u64(seed);
    (rng.next_u32(), (rng.next_u32() % 65536) as u16)
}
