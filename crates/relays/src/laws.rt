//! Laws of a pace, of the player's numbers, of who keeps a session, of where its far side is, and of the latency that
//! it tells. These functions compute nothing: their contracts are the laws.
ghost use Rattle.std.specs.Prelude.{◌≡◌, ◌+◌, ◌-◌, ◌*◌, ◌/◌, ◌%◌, ◌<◌, ◌≤◌, ◌∷◌, ◌++◌, ℕ, List, Option, Ok, Some, false, true, max, sum};
ghost use Rattle.endpoint.specs.declared.heard.Heard.TheVariants.{Restarted};
ghost use Rattle.endpoint.specs.declared.heard.Restart.{Restart};
ghost use Rattle.relays.specs.Claims.{answer, falls_in, taken_beside, taken_of};
ghost use Rattle.relays.specs.FarSide.{AreApart, heard_all, quiet_for};
ghost use Rattle.relays.specs.LatencyReport.{IsReport, TellsLatency, report_octets};
ghost use Rattle.relays.specs.declared.latency_report.LatencyReport.{LatencyReport};
ghost use Rattle.relays.specs.Numbering.{numbered, numbered_after};
ghost use Rattle.relays.specs.ReceiveRelay.{numbering_after};
ghost use Rattle.relays.specs.declared.claim_tables.Claim.{Claim};
ghost use Rattle.relays.specs.declared.claims.Claims.{Claims};
ghost use Rattle.relays.specs.declared.numbering.Numbering.{Numbering};
ghost use Rattle.rtpwire.specs.declared.limits.TheConstants.{MAX_DATAGRAM};
ghost use Rattle.relays.specs.declared.pace.Pace.{Pace};
ghost use Rattle.std.specs.declared.net.socket_addr.SocketAddr.{SocketAddr};
ghost use Rattle.relays.specs.declared.pace.Rate.TheVariants.{Kilobits, Percent};
ghost use Rattle.relays.specs.Pacing.{depth_by, is_free, is_open, new_pace, owed_at};
ghost use Rattle.relays.specs.Paced.{AreBetween, DrainsUpTo, IsSilentAt, MayLeave, Step, heard, after_all, octets_repaired, octets_sent, pace_after};

/// A pace is kept. No retransmission is longer than a datagram is.
#[tactic(auto, using(crate::proofs::Keeping::in_a_span, crate::proofs::Keeping::in_all, crate::proofs::Keeping::falls, crate::proofs::Keeping::silent_leaves, crate::proofs::Keeping::keeps, crate::proofs::Keeping::keeps_kilobits))]
pub fn pace_is_kept()
    // By a share no more is retransmitted in any span than was saved up at its beginning, and half of the share of the
    // media that leaves in it.
    ensures span { (share : ℕ) (p : Pace) (steps : List Step) → p.rate ≡ Percent share → MayLeave p steps
        → octets_repaired steps * 8 ≤ p.credit + share * (octets_sent steps * 8) / 200 }
    // In all it is no more than 32 KiB, and half of the share of all media.
    ensures all { (share : ℕ) (steps : List Step) → MayLeave (new_pace (Percent share)) steps
        → octets_repaired steps * 8 ≤ 262144 + share * (octets_sent steps * 8) / 200 }
    // In a second, before which no more than so many bits a second were measured, and in which no more of media leave,
    // it is no more than the share of these, and 32 KiB.
    ensures second { (share bits : ℕ) (before steps : List Step) → let p = pace_after (new_pace (Percent share)) before in
        p.media.bits ≤ bits → octets_sent steps * 8 ≤ bits → MayLeave p steps → octets_repaired steps * 8 ≤ 262144 + share * bits / 100 }
    // Where no media left for a second as feedback is heard, 32 KiB are saved up at most,
    ensures falls { (share now : ℕ) (before : List Step) → IsSilentAt now before → (pace_after (new_pace (Percent share)) (heard now ∷ before)).credit ≤ 262144 }
    // and no more is retransmitted until media leaves, whatever is heard.
    ensures silent { (share now : ℕ) (before steps : List Step) → IsSilentAt now before → let p = pace_after (new_pace (Percent share)) (heard now ∷ before) in
        MayLeave p steps → octets_sent steps ≡ 0 → octets_repaired steps * 8 ≤ 262144 }
    // Between two moments it is no more than may leave at once, what the greatest rate lets run out in that time, and
    // one datagram;
    ensures any { (start end most : ℕ) (p : Pace) (steps : List Step)
        → is_free p.rate ≡ false → p.since ≤ end → AreBetween start end steps → DrainsUpTo most p steps → MayLeave p steps
        → octets_repaired steps * 8 ≤ depth_by p.rate + most * (end - start) + MAX_DATAGRAM * 8 }
    // by kilobits a second what these let leave in that time, and one datagram.
    ensures kilobits { (start end kilobits : ℕ) (p : Pace) (steps : List Step)
        → p.rate ≡ Kilobits kilobits → p.since ≤ end → AreBetween start end steps → MayLeave p steps
        → octets_repaired steps * 8 ≤ max kilobits 1 * (end - start) + MAX_DATAGRAM * 8 }
{}

/// What few packets lose is retransmitted at once.
#[tactic(auto, using(crate::proofs::Keeping::stays_open))]
pub fn bursts_leave_at_once()
    // Where the bucket is empty the pace stays open at that moment until more than 64 KiB has left, or less than a
    // datagram is saved up.
    ensures { (share : ℕ) (p : Pace) (now : ℕ) (octets : List ℕ) → p.rate ≡ Percent share → owed_at p now ≡ 0 → sum octets * 8 ≤ 524288
        → sum octets * 8 + MAX_DATAGRAM * 8 ≤ p.credit → is_open (after_all p now octets) now ≡ true }
{}

/// A far side that sends seldom is waited for.
#[tactic(auto, using(crate::proofs::Slow::waited_for))]
pub fn four_gaps_are_waited_for()
    // Where its datagrams came from one address so many milliseconds apart at least, up to 250, it is not quiet before
    // four times as many.
    ensures { (at : SocketAddr) (gap : ℕ) (moments : List ℕ) → gap ≤ 250 → AreApart gap moments → 4 * gap ≤ quiet_for (heard_all at moments) }
{}

/// What a jump passes over is a hole, and other numbers leave none.
pub fn jumps_are_holes()
    // Where a stream jumps ahead, the number of the next packet lies as far ahead of that of the last one as its place
    // does: by what was left behind, given up, overrun or passed over between them, and one.
    ensures ahead { (n : Numbering) (restart : Restart) (last place hole : ℕ) → 0 < restart.skipped → place % 65536 ≡ (last + 1 + hole) % 65536
        → numbered (numbering_after (Ok (Restarted restart)) (numbered_after n last)) place ≡ (numbered n last + 1 + hole) % 65536 }
    // Where it restarts behind, it is the next one.
    ensures behind { (n : Numbering) (restart : Restart) (last place : ℕ) → restart.skipped ≡ 0
        → numbered (numbering_after (Ok (Restarted restart)) (numbered_after n last)) place ≡ (numbered n last + 1) % 65536 }
{}

/// A session whose sender has had a stream in it, and two packets in every second since a stranger's claim began, does
/// not fall to that stranger, whatever it sends.
#[tactic(auto, using(crate::proofs::Claiming::falls_not))]
pub fn two_in_each_second_are_enough()
    ensures { (c : Claims) (claim : Claim) (number now : ℕ) → c.stream ≤ taken_of c → 2 * ((now - claim.since) / 1000) ≤ taken_beside c claim
        → falls_in (answer c (Some claim) number now) ≡ false }
{}

/// What is told behind a NACK, or behind whatever else, is read there.
#[tactic(auto, using(crate::proofs::Telling::told_is_read))]
pub fn what_is_told_is_read()
    ensures { (before : List ℕ) (report : LatencyReport) (answer : Option ℕ) → IsReport report → TellsLatency (before ++ report_octets report) answer
        → answer ≡ Some report.latency }
{}
