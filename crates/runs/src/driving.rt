//! A run over a link.
ghost use Rattle.std.specs.Prelude.{◌≡◌, ◌+◌, ◌-◌, ◌≤◌, ◌^◌, ◌<◌, ℕ, All, length, OnOk, OnErr, IfOk};
ghost use Rattle.std.specs.List.Sorted.{IsStrictlyIncreasing};
ghost use Rattle.world.specs.World.{empty, stand_of};
ghost use Rattle.runs.specs.Tally.{tally_of};
ghost use Rattle.runs.specs.Scene.{new_scene, scene_of};
ghost use Rattle.runs.specs.Blame.{blame};
ghost use Rattle.runs.specs.Marks.{Covers, first_kept};
ghost use Rattle.runs.specs.Drive.{Plan, sending, asking, repairing, playing, done, plan_of, round_from, send_from, moment_of, Reaches, StopsRun};

use crate::exchange::exchange;
use crate::fault::DriveFault;
use crate::link::Link;
use crate::playing::play_all;
use crate::stepping::happen;
use crate::tally::Tally;
use stores::{History, Window, history_by_place};
use world::{End, Event, Log, Wire, World, numbered_content};

/// How often the receiver asks, and the sender retransmits.
const ROUNDS: u64 = 3;

/// Sends so many packets over a link, has the receiver ask for what is missing and the sender retransmit it, plays, and
/// answers what that came to. The world must be new, the link's count of failures below 2^64 - 1, and `drop` rising, each
/// below `packets`.
///
/// 1. Packet `i`, counted from 0, is sent, and is put into the link for the receiver unless `i` is in `drop`. Then the link
///    is asked once for what came to the receiver, which is injected there at the moment `i`.
/// 2. Three rounds follow, `t` from 0 to 2, at the moment `packets + t`. The receiver asks. An ask is put into the link for
///    the sender, and what then comes to the sender is injected there. Then the sender retransmits until there is nothing
///    left to; each retransmission goes to the receiver as a packet does.
/// 3. The receiver plays at the moment `packets + 2` until it waits.
///
/// `Link`: the link failed. `OutOfMemory`: the allocator refused a growth. The world then stands after a beginning of
/// its events, each of them whole; a datagram whose sending failed may be out or not.
pub fn drive<L: Link, H: History, W: Window, N: Wire, K: Log>(
    link: &mut L,
    world: &mut World<H, W, N, K>,
    packets: u32,
    drop: &[u32],
) -> Result<Tally, DriveFault>
    requires fresh { world.old ≡ empty world.old.config }
    requires working { L.failed link.old < 2 ^ 64 - 1 }
    requires rising { IsStrictlyIncreasing drop.now }
    requires below { All (λ number. number < packets) drop.now }
    // The run was done from its first packet to its end, and the tally is that of its log.
    ensures done { OnOk result (Reaches world.old.config (plan_of packets drop.now) (send_from (plan_of packets drop.now) 0)
        (new_scene world.old.config) (L.traffic link.old) done (scene_of world.new) (L.traffic link.new)) }
    ensures tally { IfOk result (λ tally. tally ≡ tally_of (length drop.now) world.new.log) }
    // A beginning of it was done.
    ensures err { OnErr result (StopsRun world.old.config (plan_of packets drop.now) (send_from (plan_of packets drop.now) 0)
        (new_scene world.old.config) (L.traffic link.old) (scene_of world.new) (L.traffic link.new)) }
    // The link is blamed exactly where it failed.
    ensures blame { L.failed link.new ≡ L.failed link.old + blame result }
    ensures config { world.new.config ≡ world.old.config }
{
    send_and_mend(link, world, packets, drop)?;
    play_all(world, u64::from(packets) + 2)?;
    Ok(Tally::of(world.counts(), drop.len() as u64))
}

/// Does all that goes over the link.
fn send_and_mend<L: Link, H: History, W: Window, N: Wire, K: Log>(
    link: &mut L,
    world: &mut World<H, W, N, K>,
    packets: u32,
    drop: &[u32],
) -> Result<(), DriveFault>
    requires working { L.failed link.old < 2 ^ 64 - 1 }
    ensures done { OnOk result (Reaches world.old.config (plan_of packets drop.now) (send_from (plan_of packets drop.now) 0)
        (scene_of world.old) (L.traffic link.old) playing (scene_of world.new) (L.traffic link.new)) }
    ensures err { OnErr result (StopsRun world.old.config (plan_of packets drop.now) (send_from (plan_of packets drop.now) 0)
        (scene_of world.old) (L.traffic link.old) (scene_of world.new) (L.traffic link.new)) }
    ensures blame { L.failed link.new ≡ L.failed link.old + blame result }
    ensures config { world.new.config ≡ world.old.config }
{
    send_all(link, world, packets, drop)?;
    mend(link, world, packets)
}

/// Sends the packets.
fn send_all<L: Link, H: History, W: Window, N: Wire, K: Log>(
    link: &mut L,
    world: &mut World<H, W, N, K>,
    packets: u32,
    drop: &[u32],
) -> Result<(), DriveFault>
    requires working { L.failed link.old < 2 ^ 64 - 1 }
    ensures done { OnOk result (Reaches world.old.config (plan_of packets drop.now) (send_from (plan_of packets drop.now) 0)
        (scene_of world.old) (L.traffic link.old) (round_from 0) (scene_of world.new) (L.traffic link.new)) }
    ensures err { OnErr result (StopsRun world.old.config (plan_of packets drop.now) (send_from (plan_of packets drop.now) 0)
        (scene_of world.old) (L.traffic link.old) (scene_of world.new) (L.traffic link.new)) }
    ensures blame { L.failed link.new ≡ L.failed link.old + blame result }
    ensures config { world.new.config ≡ world.old.config }
{
    for number in 0..packets {
        send_one(link, world, number, drop)?;
    }
    Ok(())
}

/// Sends the packet of this number.
fn send_one<L: Link, H: History, W: Window, N: Wire, K: Log>(
    link: &mut L,
    world: &mut World<H, W, N, K>,
    number: u32,
    drop: &[u32],
) -> Result<(), DriveFault>
    requires working { L.failed link.old < 2 ^ 64 - 1 }
    ensures done { OnOk result ((packets : ℕ) → Reaches world.old.config (plan_of packets drop.now) (sending number)
        (scene_of world.old) (L.traffic link.old) (send_from (plan_of packets drop.now) (number + 1)) (scene_of world.new) (L.traffic link.new)) }
    ensures err { OnErr result ((packets : ℕ) → StopsRun world.old.config (plan_of packets drop.now) (sending number)
        (scene_of world.old) (L.traffic link.old) (scene_of world.new) (L.traffic link.new)) }
    ensures blame { L.failed link.new ≡ L.failed link.old + blame result }
    ensures config { world.new.config ≡ world.old.config }
{
    let moment = u64::from(number);
    let event = Event::Send(numbered_content(moment), 0);
    if drop.contains(&number) {
        happen(world, &event)?;
    } else {
        exchange(link, world, &event, End::Receiver, moment)?;
    }
    Ok(())
}

/// Does the rounds after so many packets.
fn mend<L: Link, H: History, W: Window, N: Wire, K: Log>(
    link: &mut L,
    world: &mut World<H, W, N, K>,
    packets: u32,
) -> Result<(), DriveFault>
    requires working { L.failed link.old < 2 ^ 64 - 1 }
    ensures done { OnOk result ((plan : Plan) → plan.packets ≡ packets → Reaches world.old.config plan (round_from 0)
        (scene_of world.old) (L.traffic link.old) playing (scene_of world.new) (L.traffic link.new)) }
    ensures err { OnErr result ((plan : Plan) → plan.packets ≡ packets → StopsRun world.old.config plan (round_from 0)
        (scene_of world.old) (L.traffic link.old) (scene_of world.new) (L.traffic link.new)) }
    ensures blame { L.failed link.new ≡ L.failed link.old + blame result }
    ensures config { world.new.config ≡ world.old.config }
{
    for round in 0..ROUNDS {
        mend_once(link, world, u64::from(packets) + round)?;
    }
    Ok(())
}

/// Does the round of this moment.
fn mend_once<L: Link, H: History, W: Window, N: Wire, K: Log>(
    link: &mut L,
    world: &mut World<H, W, N, K>,
    now: u64,
) -> Result<(), DriveFault>
    requires working { L.failed link.old < 2 ^ 64 - 1 }
    ensures done { OnOk result ((plan : Plan) (round : ℕ) → moment_of plan round ≡ now → Reaches world.old.config plan (asking round)
        (scene_of world.old) (L.traffic link.old) (round_from (round + 1)) (scene_of world.new) (L.traffic link.new)) }
    ensures err { OnErr result ((plan : Plan) (round : ℕ) → moment_of plan round ≡ now → StopsRun world.old.config plan (asking round)
        (scene_of world.old) (L.traffic link.old) (scene_of world.new) (L.traffic link.new)) }
    ensures blame { L.failed link.new ≡ L.failed link.old + blame result }
    ensures config { world.new.config ≡ world.old.config }
{
    exchange(link, world, &Event::Ask(now), End::Sender, now)?;
    repair_all(link, world, now)
}

/// Retransmits until there is nothing left to.
fn repair_all<L: Link, H: History, W: Window, N: Wire, K: Log>(
    link: &mut L,
    world: &mut World<H, W, N, K>,
    now: u64,
) -> Result<(), DriveFault>
    requires working { L.failed link.old < 2 ^ 64 - 1 }
    ensures done { OnOk result ((plan : Plan) (round : ℕ) → moment_of plan round ≡ now → Reaches world.old.config plan (repairing round)
        (scene_of world.old) (L.traffic link.old) (round_from (round + 1)) (scene_of world.new) (L.traffic link.new)) }
    ensures err { OnErr result ((plan : Plan) (round : ℕ) → moment_of plan round ≡ now → StopsRun world.old.config plan (repairing round)
        (scene_of world.old) (L.traffic link.old) (scene_of world.new) (L.traffic link.new)) }
    ensures blame { L.failed link.new ≡ L.failed link.old + blame result }
    ensures config { world.new.config ≡ world.old.config }
{
    keeps_places(world);
    while exchange(link, world, &Event::Repair, End::Receiver, now)? {}
    Ok(())
}

/// The places that the sender keeps are some in a row, and no more than its history has room for. This computes nothing.
fn keeps_places<H: History, W: Window, N: Wire, K: Log>(world: &World<H, W, N, K>)
    ensures { Covers (first_kept world.now.sender.past) world.now.sender.past.capacity (stand_of world.now).sender }
{
    history_by_place();
    let _ = world.history();
}
