//! Laws on what an endpoint that knows the time is over all its calls. These functions compute nothing: their contracts are the
//! laws.
ghost use Rattle.std.specs.Prelude.{◌≡◌, ◌^◌, ◌<◌, ◌∷◌, ℕ, List, Option, Result, Some, None, Ok, true, IsSome, IsSomeAnd};
ghost use Rattle.std.specs.List.{sum_by};
ghost use Rattle.rtpwire.specs.declared.fault.TooShort.{TooShort};
ghost use Rattle.rtpwire.specs.Session.{Streams};
ghost use Rattle.stores.specs.PastByPlace.{is_marked};
ghost use Rattle.sender.specs.Config.{Config};
ghost use Rattle.sender.specs.History.{SenderState};
ghost use Rattle.sender.specs.Repairing.{RepairsInto};
ghost use Rattle.sender.specs.Sender.{state_of};
ghost use Rattle.endpoint.specs.declared.resend_counts.ResendCounts.{ResendCounts};
ghost use Rattle.endpoint.specs.declared.resend_rule.ResendRule.{ResendRule};
ghost use Rattle.endpoint.specs.declared.resend_rule.Times.{Times};
ghost use Rattle.endpoint.specs.declared.resend_rule.Verdict.TheVariants as verdicts;
ghost use Rattle.endpoint.specs.Counts.{IsInFull};
ghost use Rattle.endpoint.specs.Moments.{times_at};
ghost use Rattle.endpoint.specs.Passing.{Retransmits};
ghost use Rattle.endpoint.specs.Resending.{always, verdict, IsInTime};
ghost use Rattle.endpoint.specs.TimelyRuns.{Event, Timely, ResendStep, RunsOver, IsOutOfTime, times_of, early_in, expired_in};

use sender::shared_feedback_is_determined;

/// What is retransmitted is in time, and what is passed over is not, by the moments that the calls told.
pub fn retransmissions_are_in_time()
    // Whatever was called: the ring has the moments of each packet that the history has.
    ensures kept { (c : Config) (capacity : ℕ) → 0 < capacity → (events : List Event) (t : Timely) → RunsOver c capacity events t
        → (q : ℕ) → IsSome ((state_of t.core).entries q) → times_of q events ≡ Some (times_at t.cells q) }
    // A packet that is retransmitted is not past the deadline, and was not retransmitted within the span before, that the rule of this call
    // has, whatever those of the calls before had.
    ensures goes { (c : Config) (capacity : ℕ) (rule : ResendRule) → 0 < capacity → (before : List Event) (old : Timely) → RunsOver c capacity before old
        → (now early expired : ℕ) (packet : ℕ × ℕ) (new : Timely) → ResendStep rule now early expired (Ok (Some packet)) old new
        → IsSomeAnd (times_of packet.0 before) (λ times. IsInTime rule times now) }
    // Where there is no retransmission, each packet that was marked is past its deadline, or was retransmitted within the span.
    ensures none { (c : Config) (capacity : ℕ) (rule : ResendRule) → 0 < capacity → (before : List Event) (old : Timely) → RunsOver c capacity before old
        → (now early expired : ℕ) (new : Timely) → ResendStep rule now early expired (Ok None) old new
        → (q : ℕ) → is_marked ((state_of old.core).entries q) ≡ true → IsSomeAnd (times_of q before) (λ times. IsOutOfTime rule times now) }
    // Where there is one, so is each that was marked below it: the oldest that can be in time goes first.
    ensures below { (c : Config) (capacity : ℕ) (rule : ResendRule) → 0 < capacity → (before : List Event) (old : Timely) → RunsOver c capacity before old
        → (now early expired : ℕ) (packet : ℕ × ℕ) (new : Timely) → ResendStep rule now early expired (Ok (Some packet)) old new
        → (q : ℕ) → q < packet.0 → is_marked ((state_of old.core).entries q) ≡ true → IsSomeAnd (times_of q before) (λ times. IsOutOfTime rule times now) }
    // And what lies above it stays as it was, its mark too.
    ensures above { (c : Config) (capacity : ℕ) (rule : ResendRule) → 0 < capacity → (before : List Event) (old : Timely) → RunsOver c capacity before old
        → (now early expired : ℕ) (packet : ℕ × ℕ) (new : Timely) → ResendStep rule now early expired (Ok (Some packet)) old new
        → (q : ℕ) → packet.0 < q → (state_of new.core).entries q ≡ (state_of old.core).entries q }
    // What was passed over is counted, by why: as many as the calls passed over, or 2^64 - 1 where that would be more.
    ensures counted { (c : Config) (capacity : ℕ) (events : List Event) (t : Timely) → RunsOver c capacity events t
        → IsInFull t.passed.early (sum_by early_in events) × IsInFull t.passed.expired (sum_by expired_in events) }
    // By the rule that lets each go, each may go at any moment, so retransmitting is what it is without a rule.
    ensures always { (times : Times) (now : ℕ) → verdict always times now ≡ verdicts.Go }
    ensures as_before { (cells : List Times) (s : Streams) (now : ℕ) (old : SenderState) (passed : ResendCounts) (out : List ℕ) (answer : Result (Option (ℕ × ℕ)) TooShort) (out' : List ℕ) (new : SenderState) (passed' : ResendCounts)
        → passed.early < 2 ^ 64 → passed.expired < 2 ^ 64 → Retransmits always cells s now old passed out answer out' new passed'
        → RepairsInto s old out answer out' new × (passed'.early ≡ passed.early) × (passed'.expired ≡ passed.expired) }
{
    shared_feedback_is_determined();
}
