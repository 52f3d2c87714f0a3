//! The greatest of what was seen lately.
ghost use Rattle.std.specs.Prelude.{◌≡◌};
ghost use Rattle.timing.specs.Lately.{seen_none, seen_at, turned, greatest_at};

/// How long what was seen is remembered at least, in milliseconds; and three times as long at most.
const SPAN: u64 = 10000;

/// The greatest number that was seen in the last ten to thirty seconds, as of how far packets came behind later ones: RFC 8985,
/// section 6.2, has a window of reordering that is learnt, too.
#[derive(Clone, Copy, Debug, PartialEq, Eq)]
pub struct Lately {
    /// The greatest in the span that began at `since`.
    most: u64,
    /// The greatest in the span before.
    before: u64,
    since: u64,
}

impl Lately {
    /// Nothing was seen so far.
    pub fn new() -> Lately
        ensures { result ≡ seen_none }
    {
        Lately {
            most: 0,
            before: 0,
            since: 0,
        }
    }

    /// A number was seen at the moment `now`, in milliseconds.
    pub fn see(&mut self, number: u64, now: u64)
        ensures { self.new ≡ seen_at self.old number now }
    {
        *self = self.turned(now);
        self.most = self.most.max(number);
    }

    /// The greatest that is remembered at the moment `now`; 0 where none is.
    pub fn greatest(&self, now: u64) -> u64
        ensures { result ≡ greatest_at self.now now }
    {
        let turned = self.turned(now);
        turned.most.max(turned.before)
    }

    /// What is remembered at the moment `now`.
    fn turned(&self, now: u64) -> Lately
        ensures { result ≡ turned self.now now }
    {
        let span = now.saturating_sub(self.since);
        if span < SPAN {
            *self
        } else {
            Lately {
                most: 0,
                before: if span < 2 * SPAN { self.most } else { 0 },
                since: now,
            }
        }
    }
}
