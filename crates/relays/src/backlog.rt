//! How much is marked to be retransmitted, beside what may leave of it soon.
ghost use Rattle.std.specs.Prelude.{◌≡◌, ◌^◌, ◌<◌, ℕ, false};
ghost use Rattle.stores.specs.Asking.{has_come};
ghost use Rattle.relays.specs.Backlog.{begun_at, emptied, gone, has_stood, is_beyond, kept_beside, less_by, marked_by, marked_more, measured_with, new_backlog, seen_at};

use endpoint::{ResendCounts, Told};
use fbwire::FeedbackFault;
use places::Place;

/// For how long more may be marked than may leave soon, in milliseconds, before the oldest of it is passed over; and for how long it has to be less
/// before that begins anew.
const STANDS: u64 = 1000;

/// How many packets are marked to be retransmitted, how long a packet is, and whether it stands: a burst is marked and leaves, and what never gets less makes
/// all that comes behind it too late (as in RFC 8289, section 3, which tells a queue that stands from one that a burst makes).
#[derive(Clone, Copy, Debug, PartialEq, Eq)]
pub struct Backlog {
    /// How many were marked, and neither retransmitted nor passed over since. What the history dropped meanwhile counts too, until nothing is
    /// marked.
    packets: u64,
    /// The mean octets of a packet, which each packet of media moves by an eighth.
    mean: u64,
    /// Since when feedback finds more than may leave soon, and when it did last.
    since: Option<u64>,
    last: u64,
}

impl Backlog {
    /// Nothing was marked or measured so far.
    pub(crate) fn new() -> Backlog
        ensures { result ≡ new_backlog }
    {
        Backlog {
            packets: 0,
            mean: 0,
            since: None,
            last: 0,
        }
    }

    /// A packet of media of so many octets leaves.
    pub(crate) fn measure(&mut self, octets: usize)
        ensures { self.new ≡ measured_with self.old octets }
    {
        self.mean = self.mean.saturating_mul(7).saturating_add(octets as u64) / 8;
    }

    /// So many packets more are marked.
    pub(crate) fn mark(&mut self, packets: u32)
        ensures { self.new ≡ marked_more self.old packets }
    {
        self.packets = self.packets.saturating_add(u64::from(packets));
    }

    /// Feedback is about to be heard, where this place is the next one that is marked.
    pub(crate) fn renew(&mut self, next: Option<Place>)
        ensures { self.new ≡ kept_beside next self.old }
    {
        if next.is_none() {
            self.clear();
        }
    }

    /// What was heard came to this.
    pub(crate) fn hear(&mut self, answer: &Result<Told, FeedbackFault>)
        ensures { self.new ≡ marked_by answer.now self.old }
    {
        if let Ok(Told::Feedback(shared)) = answer {
            self.mark(shared.places);
        }
    }

    /// Feedback was heard at the moment `now`, where so many bits may leave soon.
    pub(crate) fn see(&mut self, room: u64, now: u64)
        ensures { self.new ≡ seen_at self.old room now }
    {
        if self.is_beyond(room) {
            self.since = Some(self.begun_at(now));
            self.last = now;
        } else if now.saturating_sub(self.last) > STANDS {
            self.since = None;
        }
    }

    /// Since when it stands, where it does at the moment `now`.
    fn begun_at(&self, now: u64) -> u64
        ensures { result ≡ begun_at self.now.since self.now.last now }
    {
        match self.since {
            Some(since) if now.saturating_sub(self.last) <= STANDS => since,
            _ => now,
        }
    }

    /// Whether it stands for so long that the oldest of it is passed over.
    pub(crate) fn has_stood(&self, now: u64) -> bool
        ensures { result ≡ has_stood self.now.since now }
    {
        match self.since {
            Some(since) => now.saturating_sub(since) >= STANDS,
            None => false,
        }
    }

    /// From when on it does.
    pub(crate) fn stands_from(&self) -> Option<u64>
        ensures { (now : ℕ) → now < 2 ^ 64 → has_come result now ≡ false → has_stood self.now.since now ≡ false }
    {
        match self.since {
            Some(since) => Some(since.saturating_add(STANDS)),
            None => None,
        }
    }

    /// One packet was retransmitted, and what was passed over on the way to it came from one count to another.
    pub(crate) fn retransmit(&mut self, before: &ResendCounts, after: &ResendCounts)
        ensures { self.new ≡ less_by (gone before.now after.now) self.old }
    {
        self.pass(gone(before, after));
    }

    /// So many packets are not marked any more.
    pub(crate) fn pass(&mut self, packets: u64)
        ensures { self.new ≡ less_by packets self.old }
    {
        self.packets = self.packets.saturating_sub(packets);
    }

    /// Nothing is marked.
    pub(crate) fn clear(&mut self)
        ensures { self.new ≡ emptied self.old }
    {
        self.packets = 0;
    }

    /// Whether it is more than one packet, and more than so many bits.
    pub(crate) fn is_beyond(&self, room: u64) -> bool
        ensures { result ≡ is_beyond self.now room }
    {
        let bits = self.packets.saturating_mul(self.mean).saturating_mul(8);
        self.packets > 1 && bits > room
    }
}

/// How many packets are not marked any more once one was retransmitted: that one, and those that were passed over.
fn gone(before: &ResendCounts, after: &ResendCounts) -> u64
    ensures { result ≡ gone before.now after.now }
{
    let early = after.early.saturating_sub(before.early);
    let expired = after.expired.saturating_sub(before.expired);
    early.saturating_add(expired).saturating_add(1)
}
