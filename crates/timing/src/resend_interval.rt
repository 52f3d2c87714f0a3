//! How soon a sender may retransmit a packet again.
ghost use Rattle.std.specs.Prelude.{◌≡◌, ◌<◌};
ghost use Rattle.timing.specs.ResendInterval.{answered_after, first_resends, heard_after, interval_at, least_at, resent_at, sent_at};

use crate::lately::Lately;

/// A gap between packets counts up to so many milliseconds, so that a pause is no gap.
const PAUSE: u64 = 100;

/// The longest time of an answer that is told from longer ones, in milliseconds: a minute.
const LONGEST: u64 = 60_000;

/// Into so many parts a millisecond is divided, for gaps that are shorter.
const PARTS: u64 = 4096;

/// A path takes so long for a packet at most, in parts: five milliseconds. A stream of sound, or of small pictures, has longer gaps, and no path
/// that has room for so few packets alone.
const LONGEST_PACKET: u64 = 5 * PARTS;

/// How soon a packet that was retransmitted may be retransmitted again, as its sender sees it: what is asked for again while its answer waits
/// in a queue is passed over (RFC 6298 and RFC 8985 have it of TCP's segments). Two things tell of a queue.
///
/// - **A NACK that names a packet for the first time** comes as soon as a later packet shows its loss. How long before that the packet right
///   behind it was sent is a round trip over the path as it is now, with each queue on the way, and with what the receiver waits for reordering
///   (up to a round trip too: RFC 8985, section 6.2). A NACK may be late, as one before it was lost, so what is longer than before raises
///   it by an eighth at most (the gain of RFC 6298, section 2), and what is shorter counts at once. What it has beyond twice the least of
///   the last ten to thirty seconds is a queue: jitter and reordering alone seldom have so much.
/// - **What left together may fill a queue** before any NACK tells of it. A path that has room for the media alone takes as long for a
///   retransmission as lies between two packets of media, on the mean, and five milliseconds at most; while what it would still take is more than half of an answer long, an
///   answer may take so much longer than answers do. Of a few that left nothing is feared.
///
/// Moments and spans are in milliseconds.
#[derive(Clone, Copy, Debug, PartialEq, Eq)]
pub struct ResendInterval {
    /// How long a NACK comes after the packet behind the one that it names was sent.
    answer: Option<u64>,
    /// By how much the least of those of late is below a minute.
    idle: Lately,
    /// The mean gap between two packets of media, in parts.
    gap: u64,
    /// The moment at which the last one was sent.
    last: Option<u64>,
    /// The moment, in parts, until which a path with room for the media alone would take what was retransmitted.
    busy: u64,
}

impl ResendInterval {
    /// Nothing was sent so far.
    pub fn new() -> ResendInterval
        ensures { result ≡ first_resends }
    {
        ResendInterval {
            answer: None,
            idle: Lately::new(),
            gap: 0,
            last: None,
            busy: 0,
        }
    }

    /// A packet of media was sent at the moment `now`. The gap before it counts for a sixty-fourth of the mean.
    pub fn send(&mut self, now: u64)
        ensures { self.new ≡ sent_at self.old now }
    {
        if let Some(last) = self.last {
            let gap = now.saturating_sub(last).min(PAUSE);
            self.gap = if self.gap == 0 {
                gap * PARTS
            } else {
                (self.gap - self.gap / 64).saturating_add(gap * (PARTS / 64))
            };
        }
        self.last = Some(now);
    }

    /// A packet was retransmitted at the moment `now`.
    pub fn resend(&mut self, now: u64)
        ensures { self.new ≡ resent_at self.old now }
    {
        self.busy = self
            .busy
            .max(now.saturating_mul(PARTS))
            .saturating_add(self.gap.min(LONGEST_PACKET));
    }

    /// A NACK named a packet for the first time at the moment `now`, so long after the one right behind it was sent.
    pub fn hear(&mut self, answer: u64, now: u64)
        ensures { self.new ≡ heard_after self.old answer now }
    {
        self.answer = Some(answered_after(self.answer, answer));
        self.idle.see(LONGEST.saturating_sub(answer), now);
    }

    /// The least of what answers took of late; a minute where none did.
    fn least(&self, now: u64) -> u64
        ensures { result ≡ least_at self.now now }
    {
        LONGEST.saturating_sub(self.idle.greatest(now))
    }

    /// How long after its last retransmission a packet is not retransmitted again at the moment `now`: `least`, or longer.
    pub fn at(&self, least: u64, now: u64) -> u64
        ensures { result ≡ interval_at self.now least now }
    {
        let Some(answer) = self.answer else {
            return least;
        };
        let queued = self.busy.saturating_sub(now.saturating_mul(PARTS)) / PARTS;
        least.max(if answer < 2 * queued {
            answer.saturating_add(queued)
        } else {
            answer.saturating_sub(2 * self.least(now))
        })
    }
}

/// How long an answer takes, where one more took so long.
fn answered_after(answer: Option<u64>, took: u64) -> u64
    ensures { result ≡ answered_after answer took }
{
    match answer {
        None => took,
        Some(before) => took.min(before.saturating_add(before / 8).saturating_add(1)),
    }
}
