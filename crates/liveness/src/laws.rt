//! What an answer tells. Nothing here computes.
ghost use Rattle.std.specs.Prelude.{◌≡◌, Contains, ◌⊎◌, ◌<◌, ◌^◌, ℕ, true, false, List, Option, Some};
ghost use Rattle.lru.specs.LruCache.{LruCache};
ghost use Rattle.liveness.specs.Living.{Answers, Hears, is_living, nobody_living, source_of, time_of};
ghost use Rattle.liveness.specs.Reports.{middle};
ghost use Rattle.liveness.specs.declared.living.Living.{Living};
ghost use Rattle.liveness.specs.declared.living.Source.{Source};

/// Nobody lives at the start; who answers does; and whoever lives behind a datagram did before it, or answered the
/// number by it. It computes nothing.
pub fn the_living_answered()
    ensures starts { (own number : ℕ) (asked : LruCache ℕ ℕ) (ssrc : ℕ) → is_living (nobody_living own number asked) ssrc ≡ false }
    ensures lives { (old new : Living) (octets : List ℕ) (source : Source) → Hears old octets (Some source) new
        → is_living new source.ssrc ≡ true }
    ensures answered { (old new : Living) (octets : List ℕ) (who : Option Source) (source : Source) → Hears old octets who new
        → Contains new.sources.items source → Contains old.sources.items source ⊎ Answers old octets source }
    // What is told of an SSRC is what one of those that answered told.
    ensures told { (sources : List Source) (ssrc : ℕ) (source : Source) → source_of sources ssrc ≡ Some source
        → Contains sources source × (source.ssrc ≡ ssrc) }
    // The question has the number where an answer repeats it.
    ensures asks { (own number : ℕ) → number < 2 ^ 32 → middle (time_of own number) ≡ number }
{}
