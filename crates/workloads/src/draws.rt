//! Numbers that a seed draws.
ghost use Rattle.std.specs.Prelude.{◌<◌};

use rand_core::{Rng, SeedableRng};
use rand_pcg::Lcg64Xsh32;

/// The draws of a seed: with the same one all are the same.
#[derive(Drop)]
pub struct Draws {
    rng: Lcg64Xsh32,
}

impl Draws {
    /// The draws of this seed.
    pub fn new(seed: u32) -> Draws {
        Draws {
            rng: Lcg64Xsh32::seed_from_u64(u64::from(seed)),
        }
    }

    /// A number below a bound.
    pub fn below(&mut self, bound: u32) -> u32
        requires { 0 < bound }
        ensures { result < bound }
    {
        self.rng.next_u32() % bound
    }

    /// What happens so many times of 1000.
    pub fn happens(&mut self, per_mille: u32) -> bool {
        self.rng.next_u32() % 1000 < per_mille
    }

    /// So many octets.
    pub fn fill(&mut self, octets: &mut [u8]) {
        for octet in octets {
            *octet = (self.rng.next_u32() >> 24) as u8;
        }
    }
}
