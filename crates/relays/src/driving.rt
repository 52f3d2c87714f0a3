//! A relay runs.
ghost use Rattle.std.specs.Prelude.{◌≡◌, ℕ, List, false, true, None, length, IfOk, OnOk, OnErr};
ghost use Rattle.rtpwire.specs.declared.limits.TheConstants.{MAX_DATAGRAM};
ghost use Rattle.relays.specs.Passing.{Grows, IsWithin, left_by};
ghost use Rattle.relays.specs.Running.{Fails, Met, Ran};

use crate::outside::{Octets, Outside, OutsideFault};
use crate::relay::{Relay, Turn};
use rtpwire::MAX_DATAGRAM;

/// Runs a relay until it is done: whatever comes is handed to it, once and in order, and whatever it makes leaves, once and in
/// order. It waits only where there is nothing to do, and no longer than until there is.
///
/// `OutsideFault`: what is outside failed. What passed until then is whole.
pub fn run<O: Outside, R: Relay>(outside: &mut O, relay: &mut R) -> Result<(), OutsideFault>
    ensures ok { OnOk result (Ran R.hears R.speaks R.done false relay.old (O.traffic outside.old) relay.new (O.traffic outside.new)) }
    ensures err { OnErr result (Ran R.hears R.speaks R.done true relay.old (O.traffic outside.old) relay.new (O.traffic outside.new)) }
{
    let mut room = Octets::new();
    let mut out = [0; MAX_DATAGRAM];
    let mut now = 0;
    for _count in 0..u64::MAX {
        if let Some(turn) = relay.speak(now, &mut out) {
            deliver(outside, &turn, &[], &out, now);
            continue;
        }
        if relay.is_done(now) {
            return Ok(());
        }
        now = meet(outside, relay, &mut room, &mut out)?;
    }
    Ok(())
}

/// Waits until something comes or is to be done, and hands on what came. It answers the moment.
fn meet<O: Outside, R: Relay>(
    outside: &mut O,
    relay: &mut R,
    room: &mut Octets,
    out: &mut [u8],
) -> Result<u64, OutsideFault>
    requires { length out.old ≡ MAX_DATAGRAM }
    ensures ok { IfOk result (λ now. (old : R) (was : ℕ) (spoken : List ℕ) → R.speaks old was None spoken relay.old → R.done relay.old was ≡ false → Met R.hears R.speaks R.done old was (O.traffic outside.old) relay.new now (O.traffic outside.new)) }
    ensures err { OnErr result ((old : R) (was : ℕ) (spoken : List ℕ) → R.speaks old was None spoken relay.old → R.done relay.old was ≡ false → Fails R.speaks R.done old was (O.traffic outside.old) relay.new (O.traffic outside.new)) }
    ensures room { length out.new ≡ MAX_DATAGRAM }
{
    let meeting = outside.wait(relay.next_moment(), room)?;
    if let Some((side, from)) = meeting.came {
        let turn = relay.hear(side, from, room.as_slice(), meeting.now, out);
        deliver(outside, &turn, room.as_slice(), out, meeting.now);
    }
    Ok(meeting.now)
}

/// Sends what leaves, and tells what was done.
fn deliver<O: Outside>(outside: &mut O, turn: &Turn, came: &[u8], out: &[u8], now: u64)
    requires within { IsWithin turn.now }
    requires room { length out.now ≡ MAX_DATAGRAM }
    ensures { Grows (O.traffic outside.old) (left_by turn.now out.now) (O.traffic outside.new) }
{
    match turn.leaves {
        Some(departure) => {
            let octets = &out[..departure.len];
            outside.send(departure.side, departure.to, octets);
            outside.tell(turn, octets, now);
        }
        None => outside.tell(turn, came, now),
    }
}
