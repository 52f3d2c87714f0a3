//! The replay list (RFC 3711, section 3.3.2).
ghost use Rattle.std.specs.Prelude.{◌≡◌, ◌<◌, ◌≤◌, ◌^◌, ◌∷◌, [], ℕ, List};
ghost use Rattle.std.specs.Result.{result_err};
ghost use Rattle.srtp.specs.Replay.{Remembers, replay_fault};

/// Why an index is refused, in this order.
#[derive(Clone, Copy, Debug, PartialEq, Eq, Hash)]
pub enum ReplayFault {
    /// It lies further back from the highest index than the list reaches.
    TooOld,
    /// A packet with this index was taken before.
    TakenBefore,
}

/// Which of the last N indices were taken, the highest one among them: 64 at least.
///
/// Each index has a place of its own among N, by its remainder. What stands there is one more than the index that came last to it.
#[derive(Drop)]
pub struct Replay<const N: usize> {
    next: u64,
    places: [u64; N],
    ghost enough: { 64 ≤ N },
    ghost within: { next ≤ 2 ^ 48 },
}

impl<const N: usize> Replay<N> {
    /// The list before the first index.
    pub fn new() -> Replay<N>
        requires { 64 ≤ N }
        ensures { Remembers N result.next result.places [] }
    {
        Replay {
            next: 0,
            places: [0; N],
        }
    }

    /// Whether an index may be taken. It changes nothing.
    pub fn check(&self, index: u64) -> Result<(), ReplayFault>
        requires { index < 2 ^ 48 }
        ensures { (taken : List ℕ) → Remembers N self.now.next self.now.places taken → result_err result ≡ replay_fault N taken index }
    {
        if index < self.next.saturating_sub(N as u64) {
            Err(ReplayFault::TooOld)
        } else if self.places[(index % N as u64) as usize] == index + 1 {
            Err(ReplayFault::TakenBefore)
        } else {
            Ok(())
        }
    }

    /// Takes an index, which may lie anywhere.
    pub fn take(&mut self, index: u64)
        requires { index < 2 ^ 48 }
        ensures { (taken : List ℕ) → Remembers N self.old.next self.old.places taken
            → Remembers N self.new.next self.new.places (index ∷ taken) }
    {
        let at = (index % N as u64) as usize;
        self.places[at] = self.places[at].max(index + 1);
        self.next = self.next.max(index + 1);
    }

    /// One more than the highest index that was taken, or 0.
    pub fn next(&self) -> u64
        ensures next { result ≡ self.now.next }
        ensures within { result ≤ 2 ^ 48 }
    {
        self.next
    }
}
