//! Laws on the configurations that C says, field by field. These functions compute nothing: their contracts are the laws.
ghost use Rattle.std.specs.Prelude.{◌≡◌, ◌↔◌, ℕ, ◌+◌, ◌/◌, ◌<◌, ◌≤◌, true, false, List, [], ◌∷◌, ◌++◌, length, min, replicate, take, Option, Some, None, Result, Ok};
ghost use Rattle.rtpwire.specs.declared.fault.TooShort.{TooShort};
ghost use Rattle.gozdrit.specs.declared.config.SessionFields.{SessionFields};
ghost use Rattle.gozdrit.specs.declared.config.SenderFields.{SenderFields};
ghost use Rattle.gozdrit.specs.declared.config.ReceiverFields.{ReceiverFields};
ghost use Rattle.gozdrit.specs.Config.{streams_of, sender_config, receiver_config, probation_of, rule_of};
ghost use Rattle.timing.specs.FeedbackBudget.{room_of};
ghost use Rattle.timing.specs.declared.feedback_budget.FeedbackBudget.{FeedbackBudget};
ghost use Rattle.timing.specs.NackRoom.{budget_without, fewer_in, room_in};
ghost use Rattle.gozdrit.specs.Budget.{is_earned};
ghost use Rattle.gozdrit.specs.Ends.{Receiver, Sender};
ghost use Rattle.gozdrit.specs.Following.{AsksEarned, AsksFront, AsksNext, leaves_twice};
ghost use Rattle.gozdrit.specs.Sending.{IsNewSender, rule_now, set_to, told_at};
ghost use Rattle.endpoint.specs.ResendMetering.{meter_fixed, meter_following};
ghost use Rattle.endpoint.specs.Resending.{always};
ghost use Rattle.gozdrit.specs.Receiving.{new_receiver};
ghost use Rattle.gozdrit.specs.Sizes.{SaysKnown};
ghost use Rattle.gozdrit.specs.declared.sizes.TheConstants.{RECEIVER_CONFIG, SENDER_CONFIG};

/// Each field of a struct of C's is the one of the configuration that it is named after.
pub fn fields_say_configurations()
    ensures session { (s : SessionFields) → let t = streams_of s in
        (t.media_ssrc ≡ s.media_ssrc) × (t.media_type ≡ s.media_payload_type) × (t.repair_ssrc ≡ s.rtx_ssrc)
        × (t.repair_type ≡ s.rtx_payload_type) × (t.receiver_ssrc ≡ s.receiver_ssrc) }
    ensures sender { (f : SenderFields) → let c = sender_config f in
        (c.session ≡ streams_of f.session) × (c.first ≡ f.first_sequence) × (c.repair_first ≡ f.rtx_first_sequence) × (c.repeats ≡ f.max_retransmissions) }
    ensures receiver { (f : ReceiverFields) → let c = receiver_config f in
        (c.session ≡ streams_of f.session) × (c.patience ≡ f.latency) × (c.delay ≡ f.reorder_delay) × (c.asks ≡ f.max_nacks) }
    ensures interval { (f : ReceiverFields) → 0 < f.nack_interval → (receiver_config f).retry ≡ f.nack_interval }
    ensures usual_interval { (f : ReceiverFields) → f.nack_interval ≡ 0 → (receiver_config f).retry ≡ 40 }
    // What is true or false is false where the field is 0, and true at every other number.
    ensures any_reporter { (f : SenderFields) → ((sender_config f).any_reporter ≡ false) ↔ (f.any_reporter ≡ 0) }
    ensures learns { (f : ReceiverFields) → ((receiver_config f).learns ≡ false) ↔ (f.learn_rtx_ssrc ≡ 0) }
    ensures min_resend { (f : SenderFields) → (rule_of f).min_resend ≡ f.min_resend }
    ensures deadline { (f : SenderFields) → 0 < f.deadline → (rule_of f).deadline ≡ Some f.deadline }
    ensures no_deadline { (f : SenderFields) → f.deadline ≡ 0 → (rule_of f).deadline ≡ None }
    // A number of the probation is the field's, and the usual one where that is 0.
    ensures probation { (f : ReceiverFields) → 0 < f.max_dropout → 0 < f.max_misorder → 0 < f.min_sequential_ahead → 0 < f.min_sequential_behind → let p = probation_of f in
        (p.dropout ≡ f.max_dropout) × (p.misorder ≡ f.max_misorder) × (p.ahead ≡ f.min_sequential_ahead) × (p.behind ≡ f.min_sequential_behind) }
    ensures usual_dropout { (f : ReceiverFields) → f.max_dropout ≡ 0 → f.window ≤ 3000 → (probation_of f).dropout ≡ 3000 }
    ensures wide_dropout { (f : ReceiverFields) → f.max_dropout ≡ 0 → 3000 ≤ f.window → f.window ≤ 8192 → (probation_of f).dropout ≡ f.window }
    ensures usual_misorder { (f : ReceiverFields) → f.max_misorder ≡ 0 → (probation_of f).misorder ≡ 100 }
    ensures usual_ahead { (f : ReceiverFields) → f.min_sequential_ahead ≡ 0 → (probation_of f).ahead ≡ 2 }
    ensures usual_behind { (f : ReceiverFields) → f.min_sequential_behind ≡ 0 → (probation_of f).behind ≡ 256 }
    ensures silence { (f : ReceiverFields) → 0 < f.idle_after → (probation_of f).silence ≡ Some f.idle_after }
    ensures in_sequence { (f : ReceiverFields) → f.idle_after ≡ 0 → (probation_of f).silence ≡ None }
{}

/// A new end is configured so, and keeps as many packets or places as the struct says.
pub fn new_ends_are_as_configured()
    ensures sender { (f : SenderFields) (s : Sender) → IsNewSender f s →
        (s.endpoint.endpoint.core.config ≡ sender_config f) × (s.endpoint.endpoint.core.past.capacity ≡ f.history) × (s.endpoint.rule ≡ rule_of f) }
    // Until it is told a moment each retransmission goes. Then its rule is the one that was configured, until something was measured; it
    // follows the path, or holds, as is said, and follows it where nothing is.
    ensures untold { (f : SenderFields) (s : Sender) → IsNewSender f s → rule_now s ≡ always }
    ensures rule_now { (f : SenderFields) (s : Sender) (now : ℕ) → IsNewSender f s → rule_now (told_at s now) ≡ rule_of f }
    ensures told_follows { (f : SenderFields) (s : Sender) (now : ℕ) → IsNewSender f s → (told_at s now).meter ≡ meter_following }
    ensures set_holds { (s : Sender) (now : ℕ) → (told_at (set_to false s) now).meter ≡ meter_fixed }
    ensures set_follows { (s : Sender) (now : ℕ) → (told_at (set_to true s) now).meter ≡ meter_following }
    ensures receiver { (f : ReceiverFields) → let r = (new_receiver f).endpoint in
        (r.endpoint.core.config ≡ receiver_config f) × (r.endpoint.core.span.capacity ≡ f.window)
        × (r.endpoint.spare.config ≡ receiver_config f) × (r.endpoint.spare.span.capacity ≡ f.window) × (r.endpoint.probation ≡ probation_of f)
        × (length r.asked ≡ f.window) }
    // Where a time between two NACKs is said, it follows the path by what is said alone; and where none is, it follows the path.
    ensures follows { (f : ReceiverFields) → 0 < f.nack_interval → ((new_receiver f).follows ≡ false) ↔ (f.adaptive ≡ 0) }
    ensures by_sent { (f : ReceiverFields) → 0 < f.nack_interval → ((new_receiver f).by_sent ≡ true) ↔ (f.adaptive ≡ 2) }
    ensures usual_follows { (f : ReceiverFields) → f.nack_interval ≡ 0 → (new_receiver f).follows ≡ true }
    ensures usual_by_sent { (f : ReceiverFields) → f.nack_interval ≡ 0 → f.adaptive ≡ 0 → (new_receiver f).by_sent ≡ true }
    ensures said_by_sent { (f : ReceiverFields) → f.nack_interval ≡ 0 → 0 < f.adaptive → ((new_receiver f).by_sent ≡ true) ↔ (f.adaptive ≡ 2) }
    // Its NACKs leave twice where it follows the path.
    ensures copies { (f : ReceiverFields) → leaves_twice (new_receiver f) ≡ (new_receiver f).follows }
{}

/// A configuration of version 2.0 is known here, and a longer one where all behind it is blank; a shorter one, or one that says more, is not.
pub fn longer_configurations_say_no_more()
    ensures sender { SaysKnown SENDER_CONFIG 56 [] }
    ensures receiver { SaysKnown RECEIVER_CONFIG 80 [] }
    ensures longer { (known more : ℕ) → SaysKnown known (known + more) (replicate more 0) }
    ensures shorter { (known size : ℕ) (rest : List ℕ) → size < known → SaysKnown known size rest → ⊥ }
    ensures says_more { (known size octet : ℕ) (before after : List ℕ) → 0 < octet → SaysKnown known size (before ++ octet ∷ after) → ⊥ }
{}

/// A NACK that leaves twice leaves the second time with the octets of the first time, whenever that is, and no third time, where both are
/// earned, as they are where nothing has to be. What it names is asked for once, and counted once.
pub fn nacks_leave_twice()
    ensures second { (r mid after : Receiver) (now later most next_most len : ℕ) (out out' next next' : List ℕ) (answer : Result (Option ℕ) TooShort) → r.again ≡ None → is_earned len (budget_without len r.budget) ≡ true → leaves_twice r ≡ true
        → AsksNext r.again r now most out (Ok (Some len)) out' mid → len ≤ length next → AsksNext mid.again mid later next_most next answer next' after
        → (answer ≡ Ok (Some len)) × (take len next' ≡ take len out') × (after ≡ record mid { again = None }) }
    ensures once { (r mid : Receiver) (now most : ℕ) (out out' : List ℕ) (answer : Result (Option ℕ) TooShort) → r.again ≡ None → leaves_twice r ≡ false
        → AsksNext r.again r now most out answer out' mid → mid.again ≡ None }
    // By what is set, or else by whether the times of asks follow the path and the far side answers one of both.
    ensures set_once { (r : Receiver) → r.copies ≡ 1 → leaves_twice r ≡ false }
    ensures set_twice { (r : Receiver) → r.copies ≡ 2 → leaves_twice r ≡ true }
    ensures unset { (r : Receiver) → r.copies ≡ 0 → (leaves_twice r ≡ true)
        ↔ ((r.follows ≡ true) × (r.meter.path.trip.both ≡ false)) }
{}

/// Where NACKs are to be earned, none leaves that was not: it has no more octets than a budget of what came has room for.
pub fn nacks_are_earned()
    ensures within { (b : FeedbackBudget) (r mid : Receiver) (now most len : ℕ) (out out' : List ℕ) → r.again ≡ None → r.budget ≡ Some b
        → AsksNext r.again r now most out (Ok (Some len)) out' mid → len ≤ room_of b }
    // And what is due is asked for, as soon as one place has room.
    ensures asked { (b : FeedbackBudget) (r mid : Receiver) (now most : ℕ) (out out' : List ℕ) (answer : Result (Option ℕ) TooShort) → let room = room_in (Some b) in
        0 < fewer_in room → AsksEarned (Some b) r now most out answer out' mid → AsksFront (min (length out) room) (min most (fewer_in room)) r now out answer out' mid }
{}
