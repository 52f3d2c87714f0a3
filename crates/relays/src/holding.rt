//! How packets are held for a player.
ghost use Rattle.std.specs.Prelude.{◌≡◌};
ghost use Rattle.stores.specs.ByPlace.{slot_at};
ghost use Rattle.relays.specs.Holding.{asking_time, clock_after, release_by, stamp_from, stamp_in, timestamp_of, until_moment, wait_by};

use endpoint::Heard;
use places::Place;
use receiver::ReceiveFault;
use rtpwire::u32_at;
use stores::{SlotRef, Window};
use timing::Playout;

/// How many places are looked at for the packet behind a missing one.
const AHEAD: u8 = 64;

/// The RTP timestamp of a packet with these octets.
fn timestamp_of(octets: &[u8]) -> u32
    ensures { result ≡ timestamp_of octets.now }
{
    if octets.len() < 8 {
        0
    } else {
        u32_at(octets, 4)
    }
}

/// The clock hears when what came as it was sent, media, came. It begins anew where the stream restarts.
pub(crate) fn hear_clock(
    hold: &mut Option<Playout>,
    answer: &Result<Heard, ReceiveFault>,
    octets: &[u8],
    now: u64,
)
    ensures { hold.new ≡ clock_after answer.now (timestamp_of octets.now) now hold.old }
{
    let Some(clock) = *hold else {
        return;
    };
    let mut clock = clock;
    match answer {
        Ok(Heard::Media(_)) => {}
        Ok(Heard::Restarted(_)) => clock = Playout::new(clock.rate()),
        _ => return,
    }
    clock.hear(timestamp_of(octets), now);
    *hold = Some(clock);
}

/// The moment at which a packet with this timestamp leaves for a player with this latency: at once where none is held.
pub(crate) fn release(hold: &Option<Playout>, timestamp: u32, latency: u64) -> u64
    ensures { result ≡ release_by hold.now timestamp latency }
{
    match hold {
        Some(clock) => clock.release(timestamp, latency),
        None => 0,
    }
}

/// How much of this latency asks have to fit into, where packets came up to `late` behind later ones: where packets are held, a place is
/// given up by when it was sent, and the packet that showed it to be missing may itself have come so late.
pub(crate) fn asking_time(hold: &Option<Playout>, latency: u64, late: u64) -> u64
    ensures { result ≡ asking_time hold.now latency late }
{
    match hold {
        Some(_) => latency.saturating_sub(late),
        None => latency,
    }
}

/// How long the next place is waited for by the clock since it was noticed to be missing, with this latency: until the packet behind it
/// is to leave, which was sent after it. As long as the latency where none is held, none behind it among the next 64 places, or one that
/// was to leave before: its timestamp is odd, or it came later than the latency, and no repair could be in time for it.
pub(crate) fn wait<W: Window>(hold: &Option<Playout>, latency: u64, window: &W) -> u64
    ensures { result ≡ wait_by hold.now latency (W.meaning window.now) }
{
    let (Some(clock), Some(cursor)) = (hold, window.cursor()) else {
        return latency;
    };
    let Some(SlotRef::Missing { noticed, .. }) = window.front() else {
        return latency;
    };
    match stamp_from(window, AHEAD, cursor + 1) {
        Some(timestamp) => until(clock.release(timestamp, latency), latency, noticed),
        None => latency,
    }
}

/// How long it is until a moment, or the latency where that has passed.
fn until(moment: u64, latency: u64, noticed: u64) -> u64
    ensures { result ≡ until_moment moment latency noticed }
{
    if noticed < moment {
        moment - noticed
    } else {
        latency
    }
}

/// The timestamp of the first packet that is held from a place on, of the next `ahead` places.
#[tactic(auto, using(crate::proofs::Stamps::none_ahead, crate::proofs::Stamps::past_all, crate::proofs::Stamps::one_held, crate::proofs::Stamps::one_missing))]
fn stamp_from<W: Window>(window: &W, ahead: u8, place: u64) -> Option<u32>
    ensures { result ≡ stamp_from (W.meaning window.now) ahead place }
{
    if ahead == 0 {
        return None;
    }
    let here = Place::new(place)?;
    match stamp_at(window, here) {
        Some(timestamp) => Some(timestamp),
        None => stamp_from(window, ahead - 1, place + 1),
    }
}

/// The timestamp of what a place holds.
fn stamp_at<W: Window>(window: &W, place: Place) -> Option<u32>
    ensures { result ≡ stamp_in (slot_at (W.meaning window.now) place) }
{
    match window.slot(place) {
        Some(SlotRef::Held(content)) => Some(content.timestamp),
        _ => None,
    }
}
