//! Laws on what an endpoint that knows what it asked for is over all its calls. These functions compute nothing: their contracts
//! are the laws.
ghost use Rattle.std.specs.Prelude.{◌≡◌, ◌≢◌, ◌+◌, ◌%◌, ◌<◌, ◌≤◌, ℕ, List, None, Result, Some, Ok, Err, true, false};
ghost use Rattle.std.specs.List.{sum_by};
ghost use Rattle.places.specs.Among.{is_among};
ghost use Rattle.places.specs.Place.{number};
ghost use Rattle.rtpwire.specs.declared.fault.RtpFault.TheVariants as rtp;
ghost use Rattle.rtpwire.specs.Rtp.{RtpPacket, RtpSpells};
ghost use Rattle.stores.specs.declared.slot.PutFault.{PutFault};
ghost use Rattle.stores.specs.Span.{highest_of};
ghost use Rattle.receiver.specs.Config.{Config};
ghost use Rattle.receiver.specs.Receiver.{state_of};
ghost use Rattle.receiver.specs.Streams.{source_of, stream_of};
ghost use Rattle.receiver.specs.declared.fault.ReceiveFault.{ReceiveFault};
ghost use Rattle.receiver.specs.declared.fault.ReceiveFault.TheVariants as refused;
ghost use Rattle.receiver.specs.declared.stream.Stream.TheVariants as streams;
ghost use Rattle.endpoint.specs.declared.heard.Heard.{Heard};
ghost use Rattle.endpoint.specs.declared.kind.Kind.{Kind};
ghost use Rattle.endpoint.specs.declared.kind.Kind.TheVariants as kinds;
ghost use Rattle.endpoint.specs.declared.probation.Probation.{Probation};
ghost use Rattle.endpoint.specs.Asked.{asked_at, is_place, remembers};
ghost use Rattle.endpoint.specs.Counts.{IsInFull, more};
ghost use Rattle.endpoint.specs.Demultiplex.{is_control};
ghost use Rattle.endpoint.specs.Kinds.{IsRepairOf};
ghost use Rattle.endpoint.specs.Padding.{IsStripped};
ghost use Rattle.endpoint.specs.Rivals.{WouldRepair};
ghost use Rattle.receiver.specs.declared.answer.Taken.{Taken};
ghost use Rattle.endpoint.specs.declared.heard.Heard.TheVariants as heard;
ghost use Rattle.endpoint.specs.AskingRuns.{Asking, Event, HearStep, RunsOver, first_with, in_turn, named, padding_in, unasked_in, usual_as, usual_else};

use places::near_is_determined;
use rtpwire::{repair_is_determined, spelling_is_determined};

/// What an endpoint remembers is what its NACKs named.
pub fn what_was_asked_is_remembered()
    // Whatever was called: a place is remembered exactly where it is the newest of its cell that a NACK named since the last restart.
    ensures remembers { (c : Config) (capacity : ℕ) (p : Probation) → 0 < capacity → (events : List Event) (a : Asking) → RunsOver c capacity p events a
        → (q : ℕ) → remembers a.cells q ≡ is_place (first_with capacity (q % capacity) (named events)) q }
    // So each place is that the last NACK named, if no two of them have one cell; places of a window never do.
    ensures newest { (capacity : ℕ) (places before : List ℕ) (q : ℕ) → is_among places q ≡ true
        → ((r : ℕ) → is_among places r ≡ true → r % capacity ≡ q % capacity → r ≡ q) → first_with capacity (q % capacity) (in_turn places before) ≡ Some q }
    // A number names the place that has it, if that lies less than a cycle below the highest.
    ensures found { (highest q : ℕ) → q ≤ highest → highest < q + 65536 → asked_at highest (number q) ≡ q }
{}

/// Of which kind a datagram is.
pub fn kinds_are_told()
    // A retransmission that is late, or double, of a place that no NACK named since the last restart is unasked, and counted as that alone.
    ensures unasked { (c : Config) (capacity : ℕ) (p : Probation) → 0 < capacity → (before : List Event) (old : Asking) → RunsOver c capacity p before old
        → (octets : List ℕ) (fault : PutFault) (kind : Kind) (new : Asking) → HearStep p octets (Err (refused.Put fault)) kind old new
        → (highest q : ℕ) → highest_of old.ends.core.span ≡ Some highest → IsRepairOf old.ends.core.config.session highest octets q → is_among (named before) q ≡ false
        → (kind ≡ kinds.Unasked) × (new.kinds ≡ record old.kinds { unasked = more old.kinds.unasked 1 }) }
    // One of a place that is the newest of its cell that was named is usual, so it is never counted as unasked.
    ensures answers { (c : Config) (capacity : ℕ) (p : Probation) → 0 < capacity → (before : List Event) (old : Asking) → RunsOver c capacity p before old
        → (octets : List ℕ) (fault : PutFault) (kind : Kind) (new : Asking) → HearStep p octets (Err (refused.Put fault)) kind old new
        → (highest q : ℕ) → highest_of old.ends.core.span ≡ Some highest → IsRepairOf old.ends.core.config.session highest octets q
        → first_with capacity (q % capacity) (named before) ≡ Some q → kind ≡ kinds.Usual }
    // Media that is late, or double, is usual.
    ensures media { (p : Probation) (octets : List ℕ) (fault : PutFault) (kind : Kind) (old new : Asking) → HearStep p octets (Err (refused.Put fault)) kind old new
        → (packet : RtpPacket) → RtpSpells packet octets → packet.payload_type ≢ old.ends.core.config.session.repair_type → kind ≡ kinds.Usual }
    // A packet of the retransmissions' stream that is all padding is told as padding, whatever the endpoint holds.
    ensures padding { (p : Probation) (octets plain : List ℕ) (answer : Result Heard ReceiveFault) (kind : Kind) (old new : Asking) → HearStep p octets answer kind old new
        → is_control octets ≡ false → IsStripped octets plain → (packet : RtpPacket) → RtpSpells packet plain
        → stream_of old.ends.core.config.session (source_of old.ends.core.config (state_of old.ends.core)) packet ≡ Ok streams.Repair
        → (answer ≡ Err (refused.Rtp rtp.NoOsn)) × (kind ≡ kinds.Padding) × (new.kinds ≡ record old.kinds { padding = more old.kinds.padding 1 }) }
    // Each count is how many were told so: 2^64 - 1 where that would be more.
    ensures counted { (c : Config) (capacity : ℕ) (p : Probation) (events : List Event) (a : Asking) → RunsOver c capacity p events a
        → IsInFull a.kinds.padding (sum_by padding_in events) × IsInFull a.kinds.unasked (sum_by unasked_in events)
        × IsInFull a.kinds.late (sum_by (usual_as 35) events) × IsInFull a.kinds.duplicate (sum_by (usual_as 36) events) × IsInFull a.kinds.refused (sum_by usual_else events) }
{
    spelling_is_determined();
    repair_is_determined();
    near_is_determined();
}

/// When the SSRC of the retransmissions that was learnt falls.
pub fn a_source_falls_to_one_that_repairs()
    // Two datagrams in a row that are refused for their SSRC, and would have repaired what was asked for, have it learnt anew.
    ensures two { (p : Probation) (a b : Kind) (old mid new : Asking) (first second : List ℕ)
        → HearStep p first (Err refused.UnknownSource) a old mid → HearStep p second (Err refused.UnknownSource) b mid new
        → old.doubted ≡ false → WouldRepair old.ends.core first → WouldRepair mid.ends.core second → new.ends.core.learnt ≡ None }
    // One alone changes no receiver,
    ensures one { (p : Probation) (kind : Kind) (old new : Asking) (octets : List ℕ) → HearStep p octets (Err refused.UnknownSource) kind old new
        → old.doubted ≡ false → new.ends.core ≡ old.ends.core }
    // and a retransmission that is taken takes it back.
    ensures repaired { (p : Probation) (kind : Kind) (old new : Asking) (octets : List ℕ) (taken : Taken) → HearStep p octets (Ok (heard.Repair taken)) kind old new
        → new.doubted ≡ false }
{
    spelling_is_determined();
    repair_is_determined();
    near_is_determined();
}
