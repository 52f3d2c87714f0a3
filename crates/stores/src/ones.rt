//! The positions of a set that are left of one word of its bits.
ghost use Rattle.std.specs.Prelude.{◌≡◌, ◌≢◌, ℕ, ◌+◌, ◌^◌, ◌<◌, ◌≤◌, Bool, false, MatchOption, IfSome};
ghost use Rattle.stores.specs.Ones.{HasEach, HasNoneFrom};

/// Positions from one on, of which none is 64 above it: those whose bits are set.
#[derive(Clone, Copy, Debug, PartialEq, Eq)]
pub struct Ones {
    // The lowest bit is that of the position.
    bits: u64,
    position: usize,
}

impl Ones {
    /// The positions from this one on by these bits.
    pub fn new(bits: u64, position: usize) -> Ones
        ensures bits { result.bits ≡ bits }
        ensures position { result.position ≡ position }
    {
        Ones { bits, position }
    }

    /// The position from which on they are.
    pub fn position(&self) -> usize
        ensures { result ≡ self.now.position }
    {
        self.position
    }

    /// The position, where there is just one.
    pub fn only(&self) -> Option<usize>
        requires { self.now.position < 2 ^ 32 }
        ensures found { IfSome result (λ found. self.now.position ≤ found) }
        ensures below { (end : ℕ) → HasNoneFrom self.now end → IfSome result (λ found. found < end) }
        ensures others { (test : ℕ → Bool) (end : ℕ) → HasEach self.now test end → IfSome result (λ found. (p : ℕ) → self.now.position ≤ p → p < end → p ≢ found → test p ≡ false) }
    {
        let mut rest = *self;
        let found = rest.next()?;
        if rest.bits != 0 {
            return None;
        }
        Some(found)
    }

    /// Takes the first position out.
    pub fn next(&mut self) -> Option<usize>
        requires { self.old.position < 2 ^ 32 }
        ensures none { (test : ℕ → Bool) (end : ℕ) → HasEach self.old test end → MatchOption result
            ((p : ℕ) → self.old.position ≤ p → p < end → test p ≡ false)
            (λ found. (p : ℕ) → self.old.position ≤ p → p < found → p < end → test p ≡ false) }
        ensures left { (test : ℕ → Bool) (end : ℕ) → HasEach self.old test end → HasEach self.new test end }
        ensures found { IfSome result (λ found. self.old.position ≤ found) }
        ensures position { IfSome result (λ found. self.new.position ≡ found + 1) }
        ensures below { (end : ℕ) → HasNoneFrom self.old end → IfSome result (λ found. found < end) }
        ensures kept { (end : ℕ) → HasNoneFrom self.old end → HasNoneFrom self.new end }
    {
        if self.bits == 0 {
            return None;
        }
        let ahead = self.bits.trailing_zeros();
        let found = self.position + ahead as usize;
        self.bits = self.bits >> ahead >> 1;
        self.position = found + 1;
        Some(found)
    }
}
