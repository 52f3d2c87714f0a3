//! How fast retransmissions leave (RFC 4588, section 7: they share the rate of the session).
ghost use Rattle.std.specs.Prelude.{◌≡◌, ◌<◌, ◌-◌, ◌*◌, ◌^◌, ◌&&◌, ℕ, nat_le};
ghost use Rattle.stores.specs.Asking.{has_come};
ghost use Rattle.relays.specs.Pacing.{capped, depth_by, drain_beside, drain_of, earned_by, fallen, fast_of, is_free, is_little, is_open, is_scarce, kilobits_beside, least_by, most_beside, new_pace, opens_after, owed_at, paced_beside, room_by, room_of, saved_of, span_of};

use crate::media_rate::MediaRate;
use rtpwire::MAX_DATAGRAM;

/// So many bits may leave before any media has earned them, and are saved up beside media of any rate: 32 KiB.
const BURST: u64 = 262_144;

/// The bits of the longest datagram.
const LONGEST: u64 = 8 * MAX_DATAGRAM as u64;

/// No more bits leave at once, so that the usual buffer of a socket takes them: 64 KiB.
const LUMP: u64 = 524_288;

/// What is more leaves so many times as fast as the rate is,
const FAST: u64 = 8;

/// up to so many kilobits a second, or twice the rate.
const FASTEST: u64 = 64_000;

/// What may leave soon leaves within so many milliseconds, and within twice as many where nothing is saved up.
const SOON: u64 = 100;

/// How fast retransmissions may leave.
#[derive(Clone, Copy, Debug, PartialEq, Eq)]
pub enum Rate {
    /// As fast as they are asked for.
    Free,
    /// At so many kilobits a second, none before the one before it had its time.
    Kilobits(u64),
    /// In no second more than so many per cent of the media's octets, and 32 KiB, so that few that are lost never wait; and in all no more than half
    /// of that share, and 32 KiB. Each packet of media that leaves earns half of the share of its octets. What a second of it earns is saved up, and
    /// 32 KiB, and leaves as fast as a network takes it: behind an outage what fills a queue leaves before more media does.
    Percent(u64),
}

/// A rate of retransmissions, what left, and what was earned. Each retransmission spends its bits of what was earned, and pours them into a bucket, out
/// of which as many run each millisecond as a rate is in kilobits a second; the next one may leave where little enough is left in it. So what was
/// earned leaves fast, and not at once.
#[derive(Clone, Copy, Debug, PartialEq, Eq)]
pub struct Pace {
    rate: Rate,
    media: MediaRate,
    /// The bits that were earned and not spent.
    credit: u64,
    /// The bits in the bucket at the moment `since`, in milliseconds.
    owed: u64,
    since: u64,
}

impl Pace {
    /// Nothing left so far.
    pub fn new(rate: Rate) -> Pace
        ensures { result ≡ new_pace rate }
    {
        Pace {
            rate,
            media: MediaRate::new(),
            credit: BURST,
            owed: 0,
            since: 0,
        }
    }

    /// Whether a retransmission may leave at the moment `now`, in milliseconds.
    pub fn is_open(&self, now: u64) -> bool
        ensures { result ≡ is_open self.now now }
    {
        self.rate.is_free()
            || self.credit >= self.rate.least() && self.owed_at(now) <= self.rate.depth()
    }

    /// A retransmission of so many octets leaves at the moment `now`.
    pub fn spend(&mut self, octets: usize, now: u64)
        ensures { self.new ≡ opens_after self.old octets now }
    {
        let bits = (octets as u64).saturating_mul(8);
        self.credit = self.credit.saturating_sub(bits);
        self.owed = self.owed_at(now).saturating_add(bits);
        self.since = self.since.max(now);
    }

    /// A media packet of so many octets leaves at the moment `now`, and earns what retransmissions may have.
    pub fn measure(&mut self, octets: usize, now: u64)
        ensures { self.new ≡ paced_beside self.old octets now }
    {
        self.owed = self.owed_at(now);
        self.since = self.since.max(now);
        self.media.measure(octets, now);
        let earned = self.rate.earned((octets as u64).saturating_mul(8));
        let most = self.rate.most(self.media.bits());
        self.credit = self.credit.saturating_add(earned).min(most);
    }

    /// Feedback is heard at the moment `now`. What was saved up falls with the media's rate, so that a stream that has stopped leaves 32 KiB.
    pub fn fall(&mut self, now: u64)
        ensures { self.new ≡ fallen self.old now }
    {
        let most = self.rate.most(self.media.bits_at(now));
        self.credit = self.credit.min(most);
    }

    /// The moment from which on one may leave, in milliseconds. None: at no moment that is told, or not before media leaves.
    pub fn opens(&self) -> Option<u64>
        ensures { (now : ℕ) → now < 2 ^ 64 → has_come result now ≡ is_open self.now now }
    {
        if self.rate.is_free() {
            return Some(0);
        }
        if self.credit < self.rate.least() {
            return None;
        }
        runs_out(self.since, self.owed, self.rate.depth(), self.drain())
    }

    /// How many bits may leave soon where media goes on as it did: what is saved up, and what the rate has.
    pub fn room(&self) -> u64
        ensures { result ≡ room_of self.now }
    {
        self.rate.room(self.credit, self.media.bits())
    }

    /// Whether little is left at the moment `now` of what was saved up, so that it is for packets which were not retransmitted before.
    pub fn is_scarce(&self, now: u64) -> bool
        ensures { result ≡ is_scarce self.now now }
    {
        let bits = self.media.bits_at(now);
        self.rate.is_little(self.credit, self.rate.most(bits))
    }

    /// What is left in the bucket at the moment `now`.
    fn owed_at(&self, now: u64) -> u64
        ensures { result ≡ owed_at self.now now }
    {
        if self.owed == 0 {
            return 0;
        }
        let passed = now.saturating_sub(self.since);
        self.owed
            .saturating_sub(self.drain().saturating_mul(passed))
    }

    /// How much of it runs out each millisecond.
    fn drain(&self) -> u64
        ensures value { result ≡ drain_of self.now }
        ensures positive { 0 < result }
    {
        self.rate.drain(self.media.bits())
    }
}

impl Rate {
    fn is_free(&self) -> bool
        ensures { result ≡ is_free self.now }
    {
        match self {
            Rate::Free => true,
            _ => false,
        }
    }

    /// What media of so many bits earns.
    fn earned(&self, bits: u64) -> u64
        ensures value { result ≡ earned_by self.now bits }
        ensures small { result < 2 ^ 57 }
    {
        match self {
            Rate::Percent(share) => share.saturating_mul(bits) / 200,
            _ => 0,
        }
    }

    /// How much is saved up at most, beside media of so many bits a second.
    fn most(&self, bits: u64) -> u64
        ensures { result ≡ most_beside self.now bits }
    {
        BURST + self.earned(bits)
    }

    /// How much has to be saved up where one may leave.
    fn least(&self) -> u64
        ensures { result ≡ least_by self.now }
    {
        match self {
            Rate::Percent(_) => LONGEST,
            _ => 0,
        }
    }

    /// How many bits may leave soon, where so many are saved up, beside media of so many a second.
    fn room(&self, credit: u64, bits: u64) -> u64
        ensures { result ≡ room_by self.now credit bits }
    {
        match self {
            Rate::Free => u64::MAX,
            _ => {
                let later = self.kilobits(bits).saturating_mul(self.span());
                self.saved(credit).saturating_add(later)
            }
        }
    }

    /// How soon is soon, in milliseconds.
    fn span(&self) -> u64
        ensures { result ≡ span_of self.now }
    {
        match self {
            Rate::Kilobits(_) => 2 * SOON,
            _ => SOON,
        }
    }

    /// How much is saved up where that is earned.
    fn saved(&self, credit: u64) -> u64
        ensures { result ≡ saved_of self.now credit }
    {
        match self {
            Rate::Percent(_) => credit,
            _ => 0,
        }
    }

    /// Whether so much is little, where so much is the most.
    fn is_little(&self, credit: u64, most: u64) -> bool
        ensures { result ≡ is_little self.now credit most }
    {
        match self {
            Rate::Percent(_) => credit.saturating_mul(8) < most,
            _ => false,
        }
    }

    /// How much may be left in the bucket where one may leave.
    fn depth(&self) -> u64
        ensures { result ≡ depth_by self.now }
    {
        match self {
            Rate::Percent(_) => LUMP,
            _ => 0,
        }
    }

    /// The rate, in kilobits a second, beside media of so many bits a second.
    fn kilobits(&self, bits: u64) -> u64
        ensures value { result ≡ kilobits_beside self.now bits }
        ensures positive { 0 < result }
    {
        let kilobits = match self {
            Rate::Kilobits(kilobits) => *kilobits,
            _ => self.earned(bits) / 1000,
        };
        kilobits.max(1)
    }

    /// How much runs out of the bucket each millisecond, beside media of so many bits a second.
    fn drain(&self, bits: u64) -> u64
        ensures value { result ≡ drain_beside self.now bits }
        ensures positive { 0 < result }
    {
        let kilobits = self.kilobits(bits);
        match self {
            Rate::Percent(_) => fast(kilobits),
            _ => kilobits,
        }
    }
}

/// How fast leaves what was earned, by a rate of so many kilobits a second.
fn fast(kilobits: u64) -> u64
    requires { 0 < kilobits }
    ensures value { result ≡ fast_of kilobits }
    ensures positive { 0 < result }
{
    let twice = kilobits.saturating_mul(2);
    kilobits.saturating_mul(FAST).min(twice.max(FASTEST))
}

/// The moment from which on no more than so many bits are left of those that a bucket had, where so many kilobits run out each second. None: at no
/// moment that is told.
fn runs_out(since: u64, bits: u64, left: u64, kilobits: u64) -> Option<u64>
    requires { 0 < kilobits }
    ensures { (now : ℕ) → now < 2 ^ 64 → has_come result now ≡ nat_le (bits - capped (kilobits * (now - since))) left }
{
    let more = bits.saturating_sub(left);
    if more == 0 {
        return Some(0);
    }
    since.checked_add(time_of(more, kilobits))
}

/// How many milliseconds so many bits take.
#[tactic(auto, using(crate::proofs::Taking::takes))]
fn time_of(bits: u64, kilobits: u64) -> u64
    requires some { 0 < bits }
    requires moves { 0 < kilobits }
    ensures whole { (passed : ℕ) → nat_le result passed ≡ nat_le bits (kilobits * passed) }
    ensures positive { 0 < result }
{
    (bits - 1) / kilobits + 1
}
