//! When a run ends by itself.
ghost use Rattle.std.specs.Prelude.{◌≡◌, ℕ};
ghost use Rattle.stores.specs.Asking.{has_come};
ghost use Rattle.relays.specs.Ending.{is_over};

use stores::sooner;

/// How long a relay goes on after the last packet that it was to send or play, in milliseconds: its far side may still ask.
const LINGER: u64 = 2000;

/// The bounds of a run. With none of them it goes on.
#[derive(Clone, Copy, Debug, PartialEq, Eq)]
pub struct Bounds {
    /// So many packets.
    pub packets: Option<u64>,
    /// Until this moment, in milliseconds.
    pub until: Option<u64>,
}

impl Bounds {
    /// The moment at which a run ends that sent or played so many packets, the last of them at the moment `last`.
    pub fn end(&self, packets: u64, last: Option<u64>) -> Option<u64>
        ensures { (now : ℕ) → has_come result now ≡ is_over self.now packets last now }
    {
        let done = match (self.packets, last) {
            (Some(most), Some(last)) if packets >= most => Some(last.saturating_add(LINGER)),
            _ => None,
        };
        sooner(done, self.until)
    }
}
