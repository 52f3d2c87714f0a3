//! What may come with each datagram, and is told seldom.

/// How long nothing is told after something was, in milliseconds.
const APART: u64 = 10_000;

/// How many datagrams of a kind came since that was told.
#[derive(Clone, Copy)]
pub struct Seldom {
    count: u64,
    /// The moment from which on it is told again.
    next: u64,
}

impl Seldom {
    /// None came so far.
    pub const NONE: Seldom = Seldom { count: 0, next: 0 };

    /// One came at the moment `now`. How many that are since some were told, where they are to be told now.
    pub fn come(&mut self, now: u64) -> Option<u64> {
        self.count = self.count.saturating_add(1);
        if now < self.next {
            return None;
        }
        self.next = now.saturating_add(APART);
        let count = self.count;
        self.count = 0;
        Some(count)
    }
}
