//! Laws on logs. These functions compute nothing: their contracts are the laws.
ghost use Rattle.std.specs.Prelude.{◌≡◌, ◌↔◌, ◌⊎◌, ◌+◌, ◌-◌, ◌<◌, ◌≤◌, ◌++◌, [], ◌∷◌, ℕ, true, List, Option, Some, IsSomeAnd, reverse, length, slice_get, map, count_by};
ghost use Rattle.std.specs.List.Sorted.{IsStrictlyIncreasing};
ghost use Rattle.arrayvec.specs.ArrayVec.{ArrayVec};
ghost use Rattle.places.specs.Among.{is_among};
ghost use Rattle.fbwire.specs.Packing.{IsPacking, IsNarrow};
ghost use Rattle.rtpwire.specs.declared.content.Content.{Content};
ghost use Rattle.fbwire.specs.declared.fault.FeedbackFault.{FeedbackFault};
ghost use Rattle.fbwire.specs.declared.nack.Pair.{Pair};
ghost use Rattle.receiver.specs.declared.fault.ReceiveFault.{ReceiveFault};
ghost use Rattle.receiver.specs.Fault.{receive_number};
ghost use Rattle.world.specs.declared.event.Label.{Label};
ghost use Rattle.world.specs.declared.event.Event.{Event};
ghost use Rattle.world.specs.declared.event.Entry.{Entry};
ghost use Rattle.world.specs.Config.{Config, IsConfig};
ghost use Rattle.world.specs.Answers.{Item, WorldState, Answers};
ghost use Rattle.world.specs.Reading.{contents, WasSent, repairs_of, IsRising, IsFinal, IsStrictlyRising, IsGone, IsLeftOut};
ghost use Rattle.world.specs.Wire.{IsFaithful, SpellsLabel, size_of, is_repair_of};
ghost use Rattle.world.specs.Close.{IsCloseTo, IsClose, IsHonest, IsUninjected};
ghost use Rattle.world.specs.PlaceRun.{PlaceWorld, PlaceRun, label_of};
ghost use Rattle.world.specs.Reach.{highest_taken, shift_of};
ghost use Rattle.world.specs.Good.{IsGood, KeepsPromises, PlaysRightly, MayAsk, MayPlay};
ghost use Rattle.receiver.specs.declared.answer.Played.{Played as Play_answer};
ghost use Rattle.world.specs.World.{IsLogged, stand_of};
ghost use Rattle.world.specs.Round.{Adds, IsRound, IsMarkedUpTo, IsAwaited, IsMendable, IsMended};

use crate::event::{Answer, Entry, Label};
use crate::log::Log;
use crate::wire::Wire;
use crate::world::World;
use fbwire::{compound_is_determined, nack_is_determined, packing_is_determined};
use receiver::{asking_is_determined, hearing_is_determined, playing_is_determined};
use rtpwire::repair_is_determined;
use sender::{feedback_is_determined, repairing_is_determined, sending_is_determined};
use stores::{History, Window};

/// Whatever events a log answers, and whatever octets a peer injected: what is played or given up rises place
/// by place, no place is played twice, and a place that was given up or overrun is never played later.
pub fn logs_are_in_order()
    ensures rising { (c : Config) (events : List Event) (past : List Entry) (end : WorldState) → Answers c events past end → IsRising c past }
    ensures finals { (c : Config) (events : List Event) (past : List Entry) (end : WorldState) → Answers c events past end → IsFinal past }
    ensures strictly { (c : Config) (events : List Event) (past : List Entry) (end : WorldState) → Answers c events past end → IsStrictlyRising past }
    // Those that were given up or overrun are exactly the places that the cursor passed and that were not played.
    ensures gone { (c : Config) (events : List Event) (past : List Entry) (end : WorldState) → Answers c events past end → (place : ℕ) → IsGone past place ↔ IsLeftOut past place }
{
    hearing_is_determined();
}

/// Whatever events a log answers, and whatever octets a peer injected: each datagram on the wire has the label and the
/// index that the log tells, and spells what its label says. A media packet is what was sent at its place, and so is
/// each retransmission, of one of the last places; feedback is the fewest pairs for places in rising order, or for a
/// beginning of them. (That these were due is said by the answers, not by this law.)
pub fn wires_are_faithful()
    ensures faithful { (c : Config) → IsConfig c → (events : List Event) (past : List Entry) (end : WorldState) → Answers c events past end → IsFaithful c past end.wire }
    // The same for one datagram: its octets spell what its label says.
    ensures spelled { (c : Config) (past : List Entry) (wire : List Item) (i : ℕ) (item : Item)
        → IsFaithful c past wire → slice_get wire i ≡ Some item → SpellsLabel c past item.0 item.1.items }
    // An ask is the packing of places in rising order, 1088 at most.
    ensures packed { (c : Config) (past : List Entry) (wire : List Item) (i : ℕ) (pairs : ArrayVec Pair) (datagram : ArrayVec ℕ)
        → IsFaithful c past wire → slice_get wire i ≡ Some (Label.Feedback pairs, datagram)
        → (places : List ℕ) × (covered : ℕ) × IsStrictlyIncreasing places × (length places ≤ 1088) × IsNarrow places × IsPacking places pairs.items covered }
    // What is retransmitted is among the last that were sent by then, so many as the history keeps.
    ensures recent { (c : Config) → IsConfig c → (events : List Event) (past : List Entry) (end : WorldState) → Answers c events past end
        → (later before : List Entry) (place index : ℕ) → past ≡ later ++ Entry.Repaired place index ∷ before
        → let next = 65536 + c.first + length (contents before) in (place < next) × (next ≤ place + c.history) }
{
    compound_is_determined();
    nack_is_determined();
    feedback_is_determined();
}

/// A log, the labels of its wire and the lengths of the datagrams determine each octet of the wire: of two wires that are faithful to one
/// log there is no other difference. (No entry tells how long a packet's padding is.) And a log tells how often a place was
/// retransmitted exactly as the labels do.
pub fn wires_are_determined()
    ensures one { (c : Config) (past : List Entry) (one other : List Item) → IsFaithful c past one → IsFaithful c past other
        → map label_of one ≡ map label_of other → map size_of one ≡ map size_of other → one ≡ other }
    ensures repairs { (c : Config) (past : List Entry) (wire : List Item) (place : ℕ) → IsFaithful c past wire
        → repairs_of place past ≡ count_by (is_repair_of place) (map label_of wire) }
{
    repair_is_determined();
    nack_is_determined();
}

/// Whatever events a log answers, and whatever octets a peer injected: no place is retransmitted more often than the
/// configuration allows.
pub fn repeats_are_limited()
    ensures { (c : Config) (events : List Event) (past : List Entry) (end : WorldState) → Answers c events past end → (place : ℕ) → repairs_of place past ≤ c.repeats }
{
    compound_is_determined();
    feedback_is_determined();
}

/// Whatever events a log answers, if it is close and honest it is good, and so is each beginning of it that is, which
/// answers as many of the first events. It is a run over places that leaves both ends as they are; each packet played
/// is what was sent at its place, and had come; each gap and each wait has its cause; no packet is refused but for
/// coming before the start, from too far, too late, twice, or where its SSRC is to be learnt unasked, and no feedback
/// is refused. What is injected at the sender makes no difference.
pub fn logs_are_good()
    ensures good { (c : Config) → IsConfig c → (events : List Event) (past : List Entry) (end : WorldState) → Answers c events past end → IsClose past → IsHonest past → IsGood c past end }
    ensures beginnings { (c : Config) → IsConfig c → (events : List Event) (log : List Entry) (end : WorldState) → Answers c events (reverse log) end → PlaysRightly c log end }
{
    compound_is_determined();
    nack_is_determined();
    hearing_is_determined();
    feedback_is_determined();
}

/// All of these at once, of a log with the oldest entry first.
pub(crate) fn logs_keep_promises()
    ensures { (c : Config) → IsConfig c → (log : List Entry) (end : WorldState) → IsLogged c log end → KeepsPromises c log end }
{
    logs_are_in_order();
    wires_are_faithful();
    repeats_are_limited();
    logs_are_good();
}

/// One undisturbed round mends: where a log is close and honest, and no place is marked above the greatest one taken,
/// each place of the sender's is held afterwards, with what was sent there, that was missing and due, that the history has, and that
/// may be retransmitted once more. The log stays close. A receiver that learns its SSRC is no exception.
pub fn rounds_mend()
    ensures mended { (c : Config) → IsConfig c → (before : List Event) (past : List Entry) (old : WorldState) → Answers c before past old → IsClose past → IsHonest past
        → IsMarkedUpTo (highest_taken past) old.sender → (now : ℕ) (events : List Event) (added : List Entry) (new : WorldState) → IsRound now added → Adds c old events added new
        → (place : ℕ) → IsMendable c (shift_of past) old place now → IsMended c (added ++ past) new place × IsClose (added ++ past) }
    // So the receiver has it: the content that was sent at such a place, where its own place lies the shift below.
    ensures held { (c : Config) → IsConfig c → (before : List Event) (past : List Entry) (old : WorldState) → Answers c before past old → IsClose past → IsHonest past
        → IsMarkedUpTo (highest_taken past) old.sender → (now : ℕ) (events : List Event) (added : List Entry) (new : WorldState) → IsRound now added → Adds c old events added new
        → (place : ℕ) → IsMendable c (shift_of past) old place now → IsSomeAnd new.receiver (λ window. (content : Content)
        × (window.held (place - shift_of (added ++ past)) ≡ Some content) × WasSent c (added ++ past) place content) }
    // No other place that was missing and due is mended by a round that leaves the log close.
    ensures only { (c : Config) → IsConfig c → (before : List Event) (past : List Entry) (old : WorldState) → Answers c before past old → IsClose past → IsHonest past
        → (now : ℕ) (events : List Event) (added : List Entry) (new : WorldState) → IsRound now added → Adds c old events added new → IsClose (added ++ past)
        → (place : ℕ) → IsAwaited c (shift_of past) old place now → IsMended c (added ++ past) new place → IsMendable c (shift_of past) old place now }
{
    compound_is_determined();
    nack_is_determined();
    hearing_is_determined();
    feedback_is_determined();
}

/// A configuration and a list of events determine the rest: at most one log answers them, with one wire and one
/// state of both ends.
pub fn answers_are_determined()
    ensures log { (c : Config) (events : List Event) (one other : List Entry) (end stop : WorldState) → Answers c events one end → Answers c events other stop → one ≡ other }
    ensures wire { (c : Config) (events : List Event) (one other : List Entry) (end stop : WorldState) → Answers c events one end → Answers c events other stop → end.wire ≡ stop.wire }
    ensures end { (c : Config) (events : List Event) (one other : List Entry) (end stop : WorldState) → Answers c events one end → Answers c events other stop → end ≡ stop }
{
    nack_is_determined();
    sending_is_determined();
    repairing_is_determined();
    feedback_is_determined();
    hearing_is_determined();
    asking_is_determined();
    playing_is_determined();
}

/// Over whatever stores two worlds keep their contents: with one configuration and the same events they have one log and
/// one wire.
pub fn stores_make_no_difference<H: History, W: Window, I: History, V: Window>(
    one: &World<H, W>,
    other: &World<I, V>,
)
    ensures { one.now.config ≡ other.now.config → (events : List Event) → Answers one.now.config events (reverse one.now.log) (stand_of one.now)
        → Answers other.now.config events (reverse other.now.log) (stand_of other.now) → (one.now.log ≡ other.now.log) × (one.now.wire ≡ other.now.wire) }
{
    answers_are_determined();
}

/// Whatever two worlds keep of their wires and their logs, and over whatever stores: with one configuration and the same
/// events they have one log, one wire and one state of both ends. So a lean world answers as one that keeps lists.
pub fn keeping_makes_no_difference<
    H: History,
    W: Window,
    N: Wire,
    L: Log,
    I: History,
    V: Window,
    M: Wire,
    K: Log,
>(one: &World<H, W, N, L>, other: &World<I, V, M, K>)
    ensures { one.now.config ≡ other.now.config → (events : List Event) → Answers one.now.config events (reverse one.now.log) (stand_of one.now)
        → Answers other.now.config events (reverse other.now.log) (stand_of other.now)
        → (one.now.log ≡ other.now.log) × (one.now.wire ≡ other.now.wire) × (stand_of one.now ≡ stand_of other.now) }
{
    answers_are_determined();
}

/// The log before a play determines what it answers: at most one answer is in order, right and justified.
pub fn plays_are_determined()
    ensures { (c : Config) (past : List Entry) (now : ℕ) (one other : Play_answer) → MayPlay c past now one → MayPlay c past now other → one ≡ other }
{}

/// The log before an ask, and the labels on the wire, determine what it asks for: at most one list of pairs has its cause, or none has.
pub fn asks_are_determined()
    ensures { (c : Config) (labels : List Label) (past : List Entry) (now : ℕ) (one other : Option (List Pair))
        → MayAsk c labels past now one → MayAsk c labels past now other → one ≡ other }
{
    packing_is_determined();
}

/// What a delivery in a close and honest log may be refused with, entry by entry.
pub fn refusals_are_few()
    // A packet: it came before the start (33), from too far (34), too late (35) or twice (36), or at a receiver that learns unasked (38).
    ensures packets { (c : Config) → IsConfig c → (events : List Event) (past : List Entry) (end : WorldState) → Answers c events past end → IsClose past → IsHonest past
        → (later before : List Entry) (index : ℕ) (label : Label) (now : ℕ) (fault : ReceiveFault) → past ≡ later ++ Entry.Delivered index label now (Answer.Refused fault) ∷ before
        → (is_among (33 ∷ 34 ∷ 35 ∷ 36 ∷ []) (receive_number fault) ≡ true) ⊎ ((receive_number fault ≡ 38) × (c.receiver.learns ≡ true)) }
    // Feedback: by nothing.
    ensures feedback { (c : Config) → IsConfig c → (events : List Event) (past : List Entry) (end : WorldState) → Answers c events past end → IsClose past → IsHonest past
        → (later before : List Entry) (index : ℕ) (label : Label) (now : ℕ) (fault : FeedbackFault) → past ≡ later ++ Entry.Delivered index label now (Answer.FeedbackRefused fault) ∷ before → ⊥ }
{
    logs_are_good();
}

/// A packet is close where it lies less than 49153 above or below the greatest place taken before it, and nowhere else.
pub fn closeness_is_a_distance()
    ensures { (highest place : ℕ) → IsCloseTo (Some highest) (Some place) ↔ ((place < highest + 49153) × (highest < place + 49153)) }
{}

/// Without injections a log determines what it leaves: it is a run over places to at most one end, which has one sender, one
/// receiver and the labels of one wire. (What is injected at the sender may mark for any numbers, and no entry tells which.)
pub fn runs_are_determined()
    ensures { (c : Config) (past : List Entry) → IsUninjected past → (one other : PlaceWorld) → PlaceRun c past one → PlaceRun c past other → one ≡ other }
{
    compound_is_determined();
    packing_is_determined();
    playing_is_determined();
}
