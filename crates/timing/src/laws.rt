//! Laws on what is measured of a path and on the times of asks. These functions compute nothing: their contracts are the laws.
ghost use Rattle.std.specs.Prelude.{◌≡◌, ◌↔◌, ◌<◌, ◌≤◌, ◌+◌, ◌-◌, ◌*◌, ◌/◌, ◌^◌, ◌∷◌, [], ◌⊎◌, ℕ, Bool, List, length, max, min, Option, Some, None, false, true, IsSomeAnd};
ghost use Rattle.timing.specs.declared.arrivals.Arrivals.{Arrivals};
ghost use Rattle.timing.specs.declared.feedback_budget.FeedbackBudget.{FeedbackBudget};
ghost use Rattle.timing.specs.declared.losses.Tally.{Tally};
ghost use Rattle.timing.specs.declared.round_trip.Probe.{Probe};
ghost use Rattle.timing.specs.declared.round_trip.RoundTrip.{RoundTrip};
ghost use Rattle.timing.specs.declared.round_trip.Smoothed.{Smoothed};
ghost use Rattle.timing.specs.declared.playout.Playout.{Playout};
ghost use Rattle.timing.specs.declared.resend_interval.ResendInterval.{ResendInterval};
ghost use Rattle.timing.specs.declared.silence.Silence.{Silence};
ghost use Rattle.timing.specs.AskTimes.{answer_of, answer_where, ask_times, twice_of};
ghost use Rattle.timing.specs.FeedbackBudget.{Passed, HadRoom, budget_after, many_came, many_left, nothing_earned, octets_came, octets_left, worth_came};
ghost use Rattle.timing.specs.NackRoom.{fewer_in};
ghost use Rattle.timing.specs.Lately.{greatest_at};
ghost use Rattle.timing.specs.Losses.{are_many, asks_for, asks_where, lost_of};
ghost use Rattle.timing.specs.Playout.{AllOdd, heard_all, heard_at, is_beyond, ms_of, release_at, ticks_of};
ghost use Rattle.timing.specs.ResendInterval.{answers_heard, heard_after, interval_at, least_at, packet_time, resent_at, resent_many, TakeAtLeast};
ghost use Rattle.timing.specs.RoundTrip.{doubted, given_up_at, heard_again, heard_at as taken_at, least_of, probed};
ghost use Rattle.timing.specs.Arrivals.{longer};
ghost use Rattle.timing.specs.Silence.{lead_of};
ghost use Rattle.timing.specs.Sightings.{Sighting, seen_of, IsInOrder, AreWithin, AreLatelyWithin};

/// Of asks for one place, whose patience is counted from the notice that it is missing: the first is made after the delay, and each of
/// the others after the retry.
#[tactic(auto, using(crate::proofs::Spread::apart, crate::proofs::Spread::early, crate::proofs::Spread::no_later, crate::proofs::Spread::at_once, crate::proofs::Spread::as_many, crate::proofs::Spread::not_late))]
pub fn asks_fit_the_time()
    // No ask lies closer to the one before than its answer takes, mostly.
    ensures apart { (answer patience reordering asks : ℕ) → answer ≤ (ask_times answer patience reordering asks).retry }
    // The first is made as soon as reordering allows, if so many asks then have their answers in time, and never later than that.
    ensures early { (answer patience reordering asks : ℕ) → 0 < answer → patience < 2 ^ 64 → reordering + asks * answer ≤ patience
        → (ask_times answer patience reordering asks).delay ≡ reordering }
    ensures no_later { (answer patience reordering asks : ℕ) → patience < 2 ^ 64 → asks * answer ≤ patience
        → (ask_times answer patience reordering asks).delay + asks * answer ≤ patience }
    // Where not so many fit, it is made at once, unless there is nothing to wait for.
    ensures at_once { (answer patience reordering asks : ℕ) → patience < 2 ^ 64 → patience ≤ asks * answer → (ask_times answer patience reordering asks).delay ≡ 0 }
    // However many more would have their answers in time as close together as may be, so many have them as they are.
    ensures as_many { (answer patience reordering asks more : ℕ) → 0 < answer → let t = ask_times answer patience reordering asks in
        t.delay + more * answer + answer ≤ patience → t.delay + more * t.retry + answer ≤ patience }
    // An ask whose answer would come too late is not made while the place is waited for; rounding may take as many milliseconds as there
    // were asks before.
    ensures not_late { (answer patience reordering asks more : ℕ) → 0 < answer → 0 < asks → patience < 2 ^ 64 → let t = ask_times answer patience reordering asks in
        answer ≤ patience → (t.delay + more * t.retry + answer ≤ patience) ⊎ (patience ≤ t.delay + more * t.retry + more) }
{}

/// Of a round trip that is longer than the time between asks, as where a queue fills on the way.
#[tactic(auto, using(crate::proofs::Twice::found))]
pub fn answers_that_come_twice_are_measured()
    // Where a place was asked for twice, and both asks were answered, half of what lay between them apart or more: the first answer says
    // nothing, and the second one that an answer takes no less, mostly, than the first one took from the first ask on.
    ensures { (trip : RoundTrip) (place asked again came twice : ℕ)
        → trip.probe ≡ None → trip.doubts < 8 → asked ≤ came → came ≤ asked + 60000 → came + (again - asked) / 2 ≤ twice → twice < 2 ^ 64
        → let waited = doubted (probed trip place asked) again in
        let first = taken_at waited place came in
        let second = heard_again first.1 place twice in
        (first.0 ≡ false) × (second.0 ≡ true) × IsSomeAnd second.1.smoothed (λ s. came ≤ asked + answer_of s) }
{}

/// Of asks over a path on which a queue seems to take more time than there is for two.
#[tactic(auto, using(crate::proofs::TwoAsks::fit, crate::proofs::TwoAsks::no_longer, crate::proofs::TwoAsks::usual, crate::proofs::TwoAsks::idle_at_least, crate::proofs::TwoAsks::some_time, crate::proofs::TwoAsks::no_less, crate::proofs::TwoAsks::sooner))]
pub fn places_are_asked_for_twice()
    // The second ask has its answer in time, where an answer takes so long with no queue on the way that two have.
    ensures twice { (answer idle patience : ℕ) → 0 < answer → 2 ≤ patience → patience < 2 ^ 64 → 2 * idle ≤ patience
        → (ask_times (twice_of answer idle patience) patience 0 1).retry + twice_of answer idle patience ≤ patience }
    // An answer is taken for no longer than it seems to take, and for no shorter where that is in time twice,
    ensures no_longer { (answer idle patience : ℕ) → twice_of answer idle patience ≤ answer }
    ensures usual { (answer idle patience : ℕ) → 2 * answer ≤ patience → twice_of answer idle patience ≡ answer }
    // nor for shorter than it takes with no queue on the way.
    ensures least { (answer idle patience : ℕ) → idle ≤ answer → idle ≤ twice_of answer idle patience }
    // It seems to take some time, and no less than the smoothed time, but for less than a millisecond of that; and where many are lost no more than
    // where few are.
    ensures some { (many : Bool) (s : Smoothed) → 0 < answer_where many s }
    ensures smoothed { (many : Bool) (s : Smoothed) → s.time < 2 ^ 64 → s.time / 8 ≤ answer_where many s }
    ensures many { (s : Smoothed) → answer_where true s ≤ answer_where false s }
{}

/// Of places that are measured, and given up without an answer.
#[tactic(auto, using(crate::proofs::Unanswered::says_nothing, crate::proofs::Unanswered::say_nothing, crate::proofs::Unanswered::says))]
pub fn answers_that_never_come_are_measured()
    // They say nothing where an answer came of late without doubt.
    ensures known { (t : RoundTrip) (p : Probe) (now : ℕ) → t.probe ≡ Some p → least_of t now < 60000
        → given_up_at t p.place now ≡ (false, record t { probe = None }) }
    // Else two in a row say nothing,
    ensures two { (t : RoundTrip) (p : Probe) (now : ℕ) → t.probe ≡ Some p → 60000 ≤ least_of t now → t.unanswered < 2
        → given_up_at t p.place now ≡ (false, record t { probe = None; unanswered = t.unanswered + 1 }) }
    // and the third says that an answer takes as long as that was waited for, or longer, mostly.
    ensures third { (t : RoundTrip) (p : Probe) (now : ℕ) → t.probe ≡ Some p → 60000 ≤ least_of t now → t.unanswered ≡ 2
        → let after = given_up_at t p.place now in (after.1.unanswered ≡ 0) × IsSomeAnd after.1.smoothed (λ s. min (now - p.asked) 60000 ≤ answer_of s) }
{}

/// Of how many asks go before waiting for what may be late, by what of so many packets was lost.
#[tactic(auto, using(crate::proofs::Few::stay_lost, crate::proofs::Few::no_more, crate::proofs::Few::all_needless, crate::proofs::Few::all_needed, crate::proofs::Few::many))]
pub fn few_stay_lost()
    // Where each ask, or its answer, is lost as often as a packet is, no more than one in 512 stays lost behind so many asks, if they are no more than
    // two; three are made where more is lost.
    ensures few { (lost taken : ℕ) → taken + 1 < 2 ^ 64 → asks_where lost taken < 3 → lost ^ (asks_where lost taken + 1) * 512 ≤ taken ^ (asks_where lost taken + 1) }
    ensures three { (lost taken : ℕ) → asks_where lost taken ≤ 3 }
    // None goes first where nothing is lost, though much comes late; and none is told where hardly anything does.
    ensures none { (t : Tally) → t.repaired ≡ 0 → t.taken < t.late * 16 → t.late * 16 < 2 ^ 64 → asks_for t ≡ Some 0 }
    ensures usual { (t : Tally) → t.late * 16 ≤ t.taken → asks_for t ≡ None }
    // What came behind its retransmission was not lost.
    ensures needless { (t : Tally) → 0 < t.measured → t.measured ≤ t.needless → lost_of t ≡ 0 }
    // Many are lost where four are, and more than one in eight.
    ensures many { (t : Tally) → lost_of t * 8 < 2 ^ 64 → (are_many t ≡ true) ↔ ((4 ≤ lost_of t) × (t.taken < lost_of t * 8)) }
    ensures needed { (t : Tally) → t.needless ≡ 0 → t.repaired * t.measured < 2 ^ 64 → lost_of t ≡ t.repaired }
{}

/// Of what leaves as feedback for an address, each datagram where there is room for it.
#[tactic(auto, using(crate::proofs::Earned::in_all, crate::proofs::Earned::many, crate::proofs::Earned::in_a_span, crate::proofs::Earned::saved_up))]
pub fn feedback_is_earned()
    // In all no more octets leave for it than came from there,
    ensures octets { (passed : List Passed) → HadRoom nothing_earned passed → octets_left passed ≤ octets_came passed }
    // and no more datagrams.
    ensures datagrams { (passed : List Passed) → HadRoom nothing_earned passed → many_left passed ≤ many_came passed }
    // In any span of that no more than what came in it earned, and the longest NACK has.
    ensures span { (b : FeedbackBudget) (passed : List Passed) → b.octets ≤ 268 → HadRoom b passed → octets_left passed ≤ worth_came passed + 268 }
    ensures saved { (passed : List Passed) → (budget_after nothing_earned passed).octets ≤ 268 }
    // As many places have room in so many octets, a pair each, as are asked for then, and one more has not.
    ensures fewer { (room : ℕ) → 12 ≤ room → (12 + 4 * fewer_in room ≤ room) × (room < 12 + 4 * (fewer_in room + 1)) }
{}

/// Of the greatest of what was seen, at moments that don't fall.
#[tactic(auto, using(crate::proofs::Sightings::are_remembered, crate::proofs::Sightings::are_forgotten))]
pub fn the_greatest_is_of_late()
    // All of the last ten seconds is remembered.
    ensures remembered { (list : List Sighting) (now : ℕ) → IsInOrder list now → AreWithin list (greatest_at (seen_of list) now) now }
    // And nothing beyond the last thirty.
    ensures forgotten { (list : List Sighting) (most now : ℕ) → IsInOrder list now → AreLatelyWithin list most now → greatest_at (seen_of list) now ≤ most }
{}

/// Of when packets were sent that were lost in a silence.
#[tactic(auto, using(crate::proofs::Leads::none_before, crate::proofs::Leads::in_order, crate::proofs::Leads::few, crate::proofs::Leads::no_slower))]
pub fn losses_were_sent_in_order()
    // None was sent before the silence began.
    ensures none_before { (s : Silence) (place : ℕ) → lead_of s place ≤ s.length }
    // Each was sent no later than those behind it.
    ensures in_order { (s : Silence) (place later : ℕ) → s.below < place → place ≤ later → lead_of s later ≤ lead_of s place }
    // A silence in which fewer than four packets would have come at the peak's rate tells nothing: a packet of a slow stream may be lost in it.
    ensures few { (a : Arrivals) (cursor : Option ℕ) (least : ℕ) (s : Silence) → s.length * s.peak < 4000 → longer a cursor least s ≡ a }
    // At the peak's rate no more packets are sent from then on than there were: so a pause of the stream is not taken for its packets.
    ensures no_slower { (s : Silence) (place : ℕ) → place < s.above → lead_of s place * s.peak ≤ (s.above - place) * 1000 }
{}

/// Of packets that are held for a player.
#[tactic(auto, using(crate::proofs::Held::no_longer, crate::proofs::Held::apart, crate::proofs::Held::ten_move_nothing))]
pub fn packets_leave_as_they_were_sent()
    // None is held for longer than the latency behind the moment at which it came.
    ensures no_longer { (p : Playout) (timestamp latency now : ℕ) → p.start ≤ now → release_at (heard_at p timestamp now) timestamp latency ≤ now + latency }
    // Between two packets there is as much time as between their timestamps, where neither lies far beyond the latest.
    ensures apart { (p : Playout) (one other latency : ℕ) → let at : ℕ → ℕ = λ t. ms_of p.rate (ticks_of p.latest t) in
        is_beyond p.latest p.rate (ticks_of p.latest one) ≡ false → is_beyond p.latest p.rate (ticks_of p.latest other) ≡ false →
        p.most ≤ at one → p.most ≤ at other → p.start + latency + at one < 2 ^ 64 → p.start + latency + at other < 2 ^ 64 →
        release_at p one latency + at other ≡ release_at p other latency + at one }
    // Ten odd packets in a row, with whatever timestamps and whenever they come, move no packet's moment.
    ensures unmoved { (p : Playout) (packets : List (ℕ × ℕ)) (timestamp latency : ℕ) → p.odd ≡ None → AllOdd p packets → length packets ≤ 10
        → release_at (heard_all p packets) timestamp latency ≡ release_at p timestamp latency }
{}

/// Of how soon a packet is retransmitted again.
#[tactic(auto, using(crate::proofs::Resends::least_is, crate::proofs::Resends::at_once, crate::proofs::Resends::beyond, crate::proofs::Resends::free))]
pub fn answers_are_waited_for()
    // Never sooner than it may be.
    ensures least { (r : ResendInterval) (least now : ℕ) → least ≤ interval_at r least now }
    // And no later where no queue is seen, and what was retransmitted would have been taken.
    ensures free { (r : ResendInterval) (answer least now : ℕ) → r.answer ≡ Some answer → answer ≤ 2 * least_at r now → r.busy ≤ now * 4096 → now * 4096 < 2 ^ 64
        → interval_at r least now ≡ least }
    // What an answer takes beyond twice the least of late is waited for.
    ensures beyond { (r : ResendInterval) (answer least now : ℕ) → r.answer ≡ Some answer → answer < 2 ^ 64 → answer ≤ 2 * least_at r now + interval_at r least now }
    // An answer that took less counts at once.
    ensures at_once { (r : ResendInterval) (took now : ℕ) → IsSomeAnd (heard_after r took now).answer (λ answer. answer ≤ took) }
    // Eight answers in a row that took longer, as over a queue that fills, double what an answer is known to take, or raise it to what they took.
    ensures doubled { (r : ResendInterval) (before longer : ℕ) (a b c d e f g h : ℕ × ℕ) → r.answer ≡ Some before → longer < 2 ^ 64
        → TakeAtLeast (a ∷ b ∷ c ∷ d ∷ e ∷ f ∷ g ∷ h ∷ []) longer
        → IsSomeAnd (answers_heard r (a ∷ b ∷ c ∷ d ∷ e ∷ f ∷ g ∷ h ∷ [])).answer (λ after. min longer (2 * before) ≤ after) }
    // Behind packets that left at once, which the path takes longer for than half of an answer, it is that and an answer.
    ensures behind { (r : ResendInterval) (answer now many least : ℕ) → r.answer ≡ Some answer → now * 4096 + many * packet_time r < 2 ^ 64
        → answer < 2 * (many * packet_time r / 4096) → answer + many * packet_time r / 4096 < 2 ^ 64
        → answer + many * packet_time r / 4096 ≤ interval_at (resent_many r now many) least now }
    // It takes no longer for each than lies between two packets of media, on the mean, nor than five milliseconds.
    ensures brief { (r : ResendInterval) (now : ℕ) → (resent_at r now).busy ≤ max r.busy (now * 4096) + min r.gap (5 * 4096) }
{}
