//! Laws on what an endpoint is over all its calls. These functions compute nothing: their contracts are the laws.
ghost use Rattle.std.specs.Prelude.{◌≡◌, ◌∷◌, ◌⊎◌, ◌+◌, ◌%◌, ◌<◌, ℕ, true, List, length, Option, Some, Result, Err};
ghost use Rattle.std.specs.List.{sum_by};
ghost use Rattle.receiver.specs.Config.{Config};
ghost use Rattle.endpoint.specs.declared.probation.Probation.{Probation};
ghost use Rattle.endpoint.specs.Counts.{IsInFull};
ghost use Rattle.receiver.specs.declared.fault.ReceiveFault.{ReceiveFault};
ghost use Rattle.endpoint.specs.declared.heard.Heard.{Heard};
ghost use Rattle.endpoint.specs.Events.{Event, Endpoint, RunsOver, heard};
ghost use Rattle.endpoint.specs.OneStream.{IsOneStream, passed_in, start_of};
ghost use Rattle.endpoint.specs.Receiving.{Believes, Ends, HearsPacket, kept_in, media_number_of};
ghost use Rattle.endpoint.specs.declared.seen_packets.SeenPacket.{SeenPacket};
ghost use Rattle.endpoint.specs.Seen.{was_seen, with_packet};
ghost use Rattle.endpoint.specs.SeenRuns.{seen_of};
ghost use Rattle.endpoint.specs.Silence.{IsFounded};
ghost use Rattle.places.specs.Place.{IsNear};
ghost use Rattle.rtpwire.specs.Rtp.{RtpPacket, RtpSpells};
ghost use Rattle.stores.specs.declared.slot.Slot.TheVariants.{Missing};
ghost use Rattle.stores.specs.declared.slot.PutFault.TheVariants.{Late};
ghost use Rattle.receiver.specs.declared.fault.ReceiveFault.TheVariants as refused;
ghost use Rattle.stores.specs.ByPlace.{slot_at};
ghost use Rattle.stores.specs.Span.{highest_of};
ghost use Rattle.endpoint.specs.Tally.{tally, media_in, repairs_in, held_in, restarts_in, control_in, refused_as, refused_else, overrun_in, abandoned_in, skipped_in, played_in, gaps_in, asks_in, places_in};
ghost use Rattle.endpoint.specs.Ledger.{Reached, ledger};
ghost use Rattle.endpoint.specs.declared.send_counts.SendCounts.{SendCounts};
ghost use Rattle.endpoint.specs.SendTally as sending;

/// The counts of a receiving endpoint are exact.
pub fn counts_are_exact()
    // Whatever was called, each is the number of the answers that it counts, or the sum of what they say.
    ensures { (c : Config) (capacity : ℕ) (p : Probation) (events : List Event) (e : Endpoint) → RunsOver c capacity p events e → e.counts ≡ tally events }
{}

/// So are those of a sending endpoint.
pub fn sending_counts_are_exact()
    ensures { (events : List sending.Event) (counts : SendCounts) → sending.RunsOver events counts → counts ≡ sending.tally events }
{}

/// No count of an endpoint is cut off below 2^64, and none goes on from there.
pub fn counts_are_in_full()
    ensures receiving { (events : List Event) → let t = tally events in
        IsInFull t.media (sum_by media_in events) × IsInFull t.retransmissions (sum_by repairs_in events)
        × IsInFull t.held_back (sum_by held_in events) × IsInFull t.restarts (sum_by restarts_in events)
        × IsInFull t.control (sum_by control_in events) × IsInFull t.duplicate (sum_by (refused_as 36) events)
        × IsInFull t.late (sum_by (refused_as 35) events) × IsInFull t.far (sum_by (refused_as 34) events)
        × IsInFull t.refused (sum_by refused_else events) × IsInFull t.overrun (sum_by overrun_in events)
        × IsInFull t.abandoned (sum_by abandoned_in events) × IsInFull t.skipped (sum_by skipped_in events)
        × IsInFull t.played (sum_by played_in events) × IsInFull t.gaps (sum_by gaps_in events) × IsInFull t.asks (sum_by asks_in events)
        × IsInFull t.places_asked (sum_by places_in events) }
    ensures sending { (events : List sending.Event) → let t = sending.tally events in
        IsInFull t.sent (sum_by sending.sent_in events) × IsInFull t.octets (sum_by sending.octets_in events)
        × IsInFull t.retransmissions (sum_by sending.repairs_in events) × IsInFull t.nacks (sum_by sending.nacks_in events)
        × IsInFull t.others (sum_by sending.others_in events) × IsInFull t.numbers (sum_by sending.numbers_in events)
        × IsInFull t.unknown (sum_by sending.unknown_in events) × IsInFull t.exhausted (sum_by sending.exhausted_in events)
        × IsInFull t.media (sum_by sending.media_in events) × IsInFull t.reports (sum_by sending.reports_in events)
        × IsInFull t.refused (sum_by sending.refused_in events) }
{}

/// Every packet of a stream is in a count.
pub fn every_number_is_counted()
    // Whatever was called, as long as the stream goes on, over jumps too: each number from the first one to the highest is of a packet
    // that was played, given up, dropped to make room, left behind by a restart or passed over by its jump; or it is kept. So what a
    // network loses for good is in the counts of gaps, overrun, abandoned and skipped.
    ensures { (c : Config) (capacity : ℕ) (p : Probation) (events : List Event) (e : Endpoint) → RunsOver c capacity p events e → IsOneStream events
        → (first highest : ℕ) → start_of events ≡ Some first → highest_of e.ends.core.span ≡ Some highest
        → (highest + 1) % 65536 ≡ (first + sum_by passed_in events + kept_in e.ends.core.span) % 65536 }
{}

/// What an endpoint believes is all that its receiver knows.
pub fn core_has_what_is_believed()
    // Whatever was called: the receiver is one that took exactly the packets which were believed since the last restart, those
    // that were held back for it included, in the order in which they came, between the plays and asks since then. So what each
    // call of a receiver promises holds from there on.
    ensures { (c : Config) (capacity : ℕ) (p : Probation) (events : List Event) (e : Endpoint)
        → RunsOver c capacity p events e → Reached capacity (ledger events).core e.ends.core }
{}

/// When a stream restarts, by a probation with a silence.
pub fn restarts_are_founded()
    // Whatever was called: a stream that had jumped restarts with `behind` packets, or with `ahead` of them where for that long no
    // media packet was taken, of which the answers tell; and it is held back for no longer.
    ensures { (c : Config) (capacity : ℕ) (p : Probation) (span : ℕ) → p.silence ≡ Some span
        → (before : List Event) (octets : List ℕ) (now : ℕ) (answer : Result Heard ReceiveFault) (e : Endpoint)
        → RunsOver c capacity p (heard octets now answer ∷ before) e → IsFounded p span before now answer }
{}

/// What is waited for is no jump.
pub fn awaited_media_is_believed()
    // Media of the session whose place is missing is handed to the receiver that has what is believed, however far behind the highest
    // place it lies: it is not held back, and nothing restarts.
    ensures { (p : Probation) (seen : List (Option SeenPacket)) (old new : Ends) (packet : RtpPacket) (octets : List ℕ) (now : ℕ) (answer : Result Heard ReceiveFault)
        → HearsPacket p seen old octets now answer new → RtpSpells packet octets → media_number_of old.core.config.session packet ≡ Some packet.sequence
        → (highest place noticed asks last : ℕ) → highest_of old.core.span ≡ Some highest → IsNear highest packet.sequence place
        → slot_at old.core.span place ≡ Some (Missing noticed asks last)
        → Believes p old (Some packet.sequence) octets now answer new }
{}

/// What a network repeats begins nothing.
pub fn repeats_begin_nothing()
    // Media whose number and timestamp are those of a packet that is remembered is handed to the receiver that has what is believed, or is
    // refused as late (35) and changes nothing: it is not held back, and nothing restarts.
    ensures nothing { (p : Probation) (seen : List (Option SeenPacket)) (old new : Ends) (packet : RtpPacket) (octets : List ℕ) (now : ℕ) (answer : Result Heard ReceiveFault)
        → HearsPacket p seen old octets now answer new → RtpSpells packet octets → media_number_of old.core.config.session packet ≡ Some packet.sequence
        → was_seen seen packet.sequence packet.timestamp ≡ true
        → Believes p old (Some packet.sequence) octets now answer new ⊎ ((answer ≡ Err (refused.Put Late)) × (new ≡ old)) }
    // Whatever was called: what is remembered is what was taken, restarts and all.
    ensures remembered { (c : Config) (capacity : ℕ) (p : Probation) (events : List Event) (e : Endpoint) → RunsOver c capacity p events e → e.seen ≡ seen_of events }
    // A packet is remembered as it is taken, and until one is whose number lies a multiple of the ring's cells from its own.
    ensures kept { (cells : List (Option SeenPacket)) (number timestamp : ℕ) → 0 < length cells → was_seen (with_packet cells number timestamp) number timestamp ≡ true }
    ensures others { (cells : List (Option SeenPacket)) (number timestamp other stamp : ℕ) → (number % length cells ≡ other % length cells → ⊥)
        → was_seen (with_packet cells number timestamp) other stamp ≡ was_seen cells other stamp }
{}
