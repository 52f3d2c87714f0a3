//! What all sessions of a job share.
use crate::digest::Digest;
use crate::draws::Draws;
use crate::path::Spare;
use crate::payloads::Payloads;
use rtpwire::MAX_DATAGRAM;
use std::alloc::Global;
use stores::OutOfMemory;

/// The draws of a job, what its packets carry, and the digest of all that came of it.
#[derive(Drop)]
pub struct Scene {
    pub draws: Draws,
    pub payloads: Payloads,
    pub digest: Digest,
    /// Room that its paths do not use.
    pub spare: Spare,
    /// Room for a datagram that sets out. It is blanked once.
    pub room: [u8; MAX_DATAGRAM],
}

impl Scene {
    /// That of a seed.
    pub fn new(alloc: Global, seed: u32) -> Result<Scene, OutOfMemory> {
        let mut draws = Draws::new(seed);
        let payloads = Payloads::new(alloc, &mut draws)?;
        Ok(Scene {
            draws,
            payloads,
            digest: Digest::EMPTY,
            spare: Spare::new(alloc),
            room: [0; MAX_DATAGRAM],
        })
    }
}
