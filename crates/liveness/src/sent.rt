//! How far a sender's packets had come a while ago, which its answers tell.
ghost use Rattle.std.specs.Prelude.{◌≡◌};
ghost use Rattle.liveness.specs.Sent.{first_in, left, marked, new_mark, nothing_sent};

/// What leaves is not of the past for so long at least, in milliseconds.
const RECENT: u64 = 1000;

/// Under which indices of RTP packets of an SSRC left: one a second ago at least, which then was the newest one, and
/// one at a moment, in milliseconds.
#[derive(Clone, Copy, Debug, PartialEq, Eq)]
pub struct Mark {
    pub ssrc: u32,
    pub older: u64,
    pub newer: u64,
    pub moment: u64,
}

impl Mark {
    /// The first packet of an SSRC left.
    fn new(ssrc: u32, index: u64, now: u64) -> Mark
        ensures { result ≡ new_mark ssrc index now }
    {
        Mark {
            ssrc,
            older: index,
            newer: index,
            moment: now,
        }
    }

    /// Another one left.
    fn leave(&mut self, index: u64, now: u64)
        ensures { self.new ≡ marked self.old index now }
    {
        if now.saturating_sub(self.moment) < RECENT {
            return;
        }
        self.older = self.newer;
        self.newer = index;
        self.moment = now;
    }
}

/// How far both SSRCs of a session had come a while ago, its media's and its retransmissions'.
#[derive(Clone, Copy, Debug, PartialEq, Eq)]
pub struct Sent {
    earlier: Mark,
    later: Mark,
}

impl Sent {
    /// Nothing left so far.
    pub fn new() -> Sent
        ensures { result ≡ nothing_sent }
    {
        let none = Mark::new(0, 0, 0);
        Sent {
            earlier: none,
            later: none,
        }
    }

    /// A packet of RTP leaves under an SSRC and an index, at a moment. Of three SSRCs the one that began first is
    /// forgotten.
    pub fn leave(&mut self, ssrc: u32, index: u64, now: u64)
        ensures { self.new ≡ left self.old ssrc index now }
    {
        if self.later.ssrc == ssrc {
            self.later.leave(index, now);
        } else if self.earlier.ssrc == ssrc {
            self.earlier.leave(index, now);
        } else {
            self.earlier = self.later;
            self.later = Mark::new(ssrc, index, now);
        }
    }

    /// The first index of an SSRC that is not of the past: what left within a second lies there or behind it. 0 of one
    /// that is not known.
    pub fn first(&self, ssrc: u32) -> u64
        ensures { result ≡ first_in self.now ssrc }
    {
        if self.later.ssrc == ssrc {
            self.later.older
        } else if self.earlier.ssrc == ssrc {
            self.earlier.older
        } else {
            0
        }
    }
}
