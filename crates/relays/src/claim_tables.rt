//! What strangers claim a session by.
ghost use Rattle.std.specs.Prelude.{◌≡◌, IfOk, IsSome, true};
ghost use Rattle.std.specs.Map.{lookup};
ghost use Rattle.relays.specs.ClaimTables.{HasPlace, Moved, claim_of, keeps, no_tables, same};

use lru::LruCache;
use std::alloc::{AllocError, Global};
use std::net::SocketAddr;
use std::num::NonZeroUsize;

/// How many claims of one packet are kept.
const SINGLES: usize = 3072;

/// How many claims of two packets in sequence, and of more, are kept.
const RUNS: usize = 1024;

/// Who claims a session: an address, and an SSRC.
#[derive(Clone, Copy, Debug, PartialEq, Eq, Hash)]
pub struct Claimant {
    pub from: SocketAddr,
    pub ssrc: u32,
}

/// What a stranger sent.
#[derive(Clone, Copy, Debug, PartialEq, Eq)]
pub struct Claim {
    /// The number of its last packet in sequence.
    pub number: u16,
    /// The moment of its first packet, in milliseconds.
    pub since: u64,
    /// The moment of its last packet in sequence.
    pub last: u64,
    /// How many packets went on one with another.
    pub packets: u64,
    /// How many packets the sessions had taken when it began.
    pub held: u64,
}

/// The claims of the strangers that sent last. Those of one packet have a table of their own, so that a flood of them takes no other's place.
///
/// Keys are hashed by a seed that is fixed, since nothing random is at hand. Who picks addresses and SSRCs that are hashed alike has a look-up go
/// over the whole table at most, and that is short.
#[derive(Drop)]
pub struct ClaimTables {
    /// Claims of one packet, the latest first.
    singles: LruCache<Claimant, Claim>,
    /// Claims of two packets in sequence, and of more; those with the latest packet first.
    runs: LruCache<Claimant, Claim>,
}

impl ClaimTables {
    /// Nobody claims anything. Room is taken as claims come.
    ///
    /// `AllocError`: the allocator refused the memory.
    pub fn new(alloc: Global) -> Result<ClaimTables, AllocError>
        ensures { IfOk result (λ tables. tables ≡ no_tables) }
    {
        let singles = LruCache::sparse(alloc, NonZeroUsize::new(SINGLES).unwrap())?;
        let runs = LruCache::sparse(alloc, NonZeroUsize::new(RUNS).unwrap())?;
        Ok(ClaimTables { singles, runs })
    }

    /// What somebody claims.
    pub fn claim_of(&self, claimant: &Claimant) -> Option<Claim>
        ensures { result ≡ claim_of claimant.now self.now }
    {
        match self.runs.peek(claimant) {
            Some(claim) => Some(*claim),
            None => self.singles.peek(claimant).copied(),
        }
    }

    /// Keeps what somebody claims now, in the place of what it claimed before; where that is full, in that of the claim that has been without a
    /// packet in sequence for longest. It answers whether it did. Without memory for it nothing changes; what is kept there already needs none.
    pub fn keep(&mut self, claimant: Claimant, claim: Claim) -> bool
        ensures kept { self.new ≡ keeps result claimant claim self.old }
        ensures room { HasPlace claimant claim self.old → result ≡ true }
    {
        if claim.packets > 1 {
            move_to(&mut self.runs, &mut self.singles, claimant, claim)
        } else {
            move_to(&mut self.singles, &mut self.runs, claimant, claim)
        }
    }
}

/// Keeps a claim in one table, and no more in the other one. It answers whether it did. Without memory for it nothing changes.
fn move_to(
    to: &mut LruCache<Claimant, Claim>,
    from: &mut LruCache<Claimant, Claim>,
    claimant: Claimant,
    claim: Claim,
) -> bool
    ensures moved { Moved result claimant claim to.old from.old to.new from.new }
    ensures room { IsSome (lookup (same claimant) to.old.entries) → result ≡ true }
{
    if to.put(claimant, claim).is_err() {
        return false;
    }
    from.pop(&claimant);
    true
}
