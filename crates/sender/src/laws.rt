//! Laws on what a sender answers. These functions compute nothing: their contracts are the laws, for callers that
//! speak of places and contents alone.
ghost use Rattle.std.specs.Prelude.{◌≡◌, ◌≢◌, ◌↔◌, ◌-◌, ◌^◌, ◌<◌, ℕ, IsTrue, IsSome, List, [], ◌∷◌, slice_index, All, Option, Result, Ok, Err, length, true};
ghost use Rattle.std.specs.Option.{option_map};
ghost use Rattle.std.specs.Result.{result_err};
ghost use Rattle.arrayvec.specs.ArrayVec.{ArrayVec};
ghost use Rattle.places.specs.Place.{number};
ghost use Rattle.rtpwire.specs.declared.content.Content.{Content};
ghost use Rattle.rtpwire.specs.FirstOf.{FirstOf};
ghost use Rattle.rtpwire.specs.Session.{Streams};
ghost use Rattle.stores.specs.declared.entry.HistoryEntry.{HistoryEntry};
ghost use Rattle.stores.specs.PastByPlace.{is_marked};
ghost use Rattle.fbwire.specs.declared.fault.FeedbackFault.{FeedbackFault};
ghost use Rattle.fbwire.specs.declared.fault.FeedbackFault.TheVariants.{WrongReporter};
ghost use Rattle.fbwire.specs.Fault.{feedback_number};
ghost use Rattle.fbwire.specs.Nack.{Nack, NackSpells, Names};
ghost use Rattle.fbwire.specs.Compound.{CompoundSpells};
ghost use Rattle.sender.specs.declared.answer.Marked.{Marked};
ghost use Rattle.sender.specs.declared.answer.Shared.{Shared};
ghost use Rattle.sender.specs.declared.fault.SendFault.{SendFault};
ghost use Rattle.sender.specs.Config.{Config};
ghost use Rattle.sender.specs.Fault.{send_number};
ghost use Rattle.sender.specs.Order.{send_order, feedback_order, shared_order};
ghost use Rattle.sender.specs.History.{SenderState, Marks, PassesOver, Repairs};
ghost use Rattle.sender.specs.Sending.{SendsAny};
ghost use Rattle.sender.specs.Feedback.{HearsFeedback, MarksAlone, MarksOrRefuses, is_ours};
ghost use Rattle.sender.specs.Shared.{HearsShared, SharesAlone, marked_of, our_numbers};
ghost use Rattle.sender.specs.InFull.{CountsInFull};
ghost use Rattle.sender.specs.Tail.{MarksLast};
ghost use Rattle.sender.specs.Repairing.{RepairsAny};
ghost use Rattle.sender.specs.Passing.{PassesAny};

use fbwire::compound_is_determined;
use rtpwire::repair_is_determined;

/// What a sender answers to a content: the content, the padding and the sender before determine the answer, its
/// datagram too, and the sender after.
pub fn sending_is_determined()
    ensures { (s : Streams) (room : ℕ) (old : SenderState) (content : Content) (padding : ℕ) (x y : Result (ℕ × ArrayVec ℕ) SendFault) (v w : SenderState)
        → SendsAny s room old content padding x v → SendsAny s room old content padding y w → (x ≡ y) × (v ≡ w) }
{}

/// The order in which a sender checks a content: a refusal has the number of the first check whose condition holds, and
/// what is sent passes all of them.
pub fn sending_is_in_order()
    ensures { (s : Streams) (room : ℕ) (old : SenderState) (content : Content) (padding : ℕ) (answer : Result (ℕ × ArrayVec ℕ) SendFault) (new : SenderState)
        → SendsAny s room old content padding answer new
        → FirstOf (send_order old content padding) (option_map send_number (result_err answer)) }
{}

/// The order in which a sender checks a feedback datagram: all its octets, and then NACK by NACK. A refusal has the number
/// of the first check whose condition holds, and what is taken passes all of them.
pub fn feedback_is_in_order()
    ensures { (c : Config) (old : SenderState) (octets : List ℕ) (answer : Result Marked FeedbackFault) (new : SenderState)
        → ((i : ℕ) → slice_index octets i < 2 ^ 8) → HearsFeedback c old octets answer new
        → FirstOf (feedback_order c octets) (option_map feedback_number (result_err answer)) }
{
    compound_is_determined();
}

/// What a sender answers to feedback.
pub fn feedback_is_determined()
    // The octets and the sender before determine the answer and the sender after.
    ensures one { (c : Config) (old : SenderState) (octets : List ℕ) (x y : Result Marked FeedbackFault) (v w : SenderState)
        → HearsFeedback c old octets x v → HearsFeedback c old octets y w → (x ≡ y) × (v ≡ w) }
    // The octets of one NACK from the session's receiver on its media mark for the numbers that it names.
    ensures alone { (c : Config) (old : SenderState) (octets : List ℕ) (answer : Result Marked FeedbackFault) (new : SenderState) (nack : Nack)
        → NackSpells nack octets → nack.media ≡ c.session.media_ssrc → nack.reporter ≡ c.session.receiver_ssrc
        → HearsFeedback c old octets answer new → MarksAlone c old nack answer new }
    // Whatever the octets: the sender marks for the numbers of some NACKs, or refuses and is as it was.
    ensures any { (c : Config) (old : SenderState) (octets : List ℕ) (answer : Result Marked FeedbackFault) (new : SenderState)
        → HearsFeedback c old octets answer new → MarksOrRefuses c old answer new }
{
    compound_is_determined();
}

/// What a sender answers to feedback that other senders may share.
pub fn shared_feedback_is_determined()
    // The octets and the sender before determine the answer, with its counts, and the sender after.
    ensures one { (c : Config) (old : SenderState) (octets : List ℕ) (x y : Result Shared FeedbackFault) (v w : SenderState)
        → HearsShared c old octets x v → HearsShared c old octets y w → (x ≡ y) × (v ≡ w) }
    // Where each NACK that the octets spell is of this session, it does what feedback for this session alone does; octets
    // that spell no NACKs are refused alike.
    ensures same { (c : Config) (old : SenderState) (octets : List ℕ) (x : Result Shared FeedbackFault) (y : Result Marked FeedbackFault) (v w : SenderState)
        → ((nacks : List Nack) → CompoundSpells nacks octets → All (λ (nack : Nack). IsTrue (is_ours c nack)) nacks)
        → HearsShared c old octets x v → HearsFeedback c old octets y w → (marked_of x ≡ y) × (v ≡ w) }
    // The octets of one NACK from the session's receiver on its media mark for the numbers that it names.
    ensures alone { (c : Config) (old : SenderState) (octets : List ℕ) (answer : Result Shared FeedbackFault) (new : SenderState) (nack : Nack)
        → NackSpells nack octets → nack.media ≡ c.session.media_ssrc → nack.reporter ≡ c.session.receiver_ssrc
        → HearsShared c old octets answer new → SharesAlone c old nack 0 answer new }
    // Two NACKs in one datagram, each for a sender of its own: each sender marks for the numbers of its own, and passes
    // over the other.
    ensures two { (c d : Config) (old before : SenderState) (octets : List ℕ) (x y : Result Shared FeedbackFault) (new after : SenderState) (a b : Nack)
        → CompoundSpells (a ∷ b ∷ []) octets → c.session.media_ssrc ≢ d.session.media_ssrc
        → a.media ≡ c.session.media_ssrc → a.reporter ≡ c.session.receiver_ssrc
        → b.media ≡ d.session.media_ssrc → b.reporter ≡ d.session.receiver_ssrc
        → HearsShared c old octets x new → HearsShared d before octets y after
        → SharesAlone c old a 1 x new × SharesAlone d before b 1 y after }
    // Whatever the octets: the sender marks for the numbers of some NACKs, or refuses and is as it was.
    ensures any { (c : Config) (old : SenderState) (octets : List ℕ) (answer : Result Shared FeedbackFault) (new : SenderState)
        → HearsShared c old octets answer new → MarksOrRefuses c old (marked_of answer) new }
    // Of fewer than 2^29 octets, half a gigabyte, no count is cut off.
    ensures whole { (c : Config) (octets : List ℕ) (nacks : List Nack) → CompoundSpells nacks octets → length octets < 2 ^ 29
        → (length nacks < 2 ^ 32) × (length (our_numbers c nacks) < 2 ^ 32) }
    // So each count of an answer to them is the length of a list of what it counts.
    ensures in_full { (c : Config) (old : SenderState) (octets : List ℕ) (nacks : List Nack) (shared : Shared) (new : SenderState)
        → CompoundSpells nacks octets → length octets < 2 ^ 29 → HearsShared c old octets (Ok shared) new → CountsInFull c old nacks shared }
{
    compound_is_determined();
}

/// The order in which a sender checks a feedback datagram that other senders may share: all its octets, and then whether
/// one of its NACKs is of the session; where none is, the first one decides. A refusal has the number of the first check
/// whose condition holds, and what is taken passes all of them.
pub fn shared_feedback_is_in_order()
    ensures { (c : Config) (old : SenderState) (octets : List ℕ) (answer : Result Shared FeedbackFault) (new : SenderState)
        → ((i : ℕ) → slice_index octets i < 2 ^ 8) → HearsShared c old octets answer new
        → FirstOf (shared_order c octets) (option_map feedback_number (result_err answer)) }
{
    compound_is_determined();
}

/// A sender that takes each reporter as the session's receiver never answers 19.
pub fn any_reporter_is_heard()
    ensures alone { (c : Config) (old : SenderState) (octets : List ℕ) (answer : Result Marked FeedbackFault) (new : SenderState)
        → c.any_reporter ≡ true → HearsFeedback c old octets answer new → answer ≢ Err WrongReporter }
    ensures shared { (c : Config) (old : SenderState) (octets : List ℕ) (answer : Result Shared FeedbackFault) (new : SenderState)
        → c.any_reporter ≡ true → HearsShared c old octets answer new → answer ≢ Err WrongReporter }
{
    compound_is_determined();
}

/// What [`Sender::mark_last`](crate::Sender::mark_last) leaves and answers is what feedback would: the octets of one NACK,
/// from the session's receiver on its media, that names the newest entry's number alone.
pub fn marking_the_last_is_feedback()
    ensures { (c : Config) (old : SenderState) (octets : List ℕ) (nack : Nack) (answer : Result Marked FeedbackFault) (new : SenderState) (marked : Marked) (after : SenderState)
        → NackSpells nack octets → nack.media ≡ c.session.media_ssrc → nack.reporter ≡ c.session.receiver_ssrc
        → ((n : ℕ) → Names nack.pairs n ↔ (n ≡ number (old.next - 1)))
        → HearsFeedback c old octets answer new → MarksLast c.repeats old marked after
        → (answer ≡ Ok marked) × (new ≡ after) }
{
    compound_is_determined();
}

/// What a sender retransmits: the sender before determines it, its datagram too, and the sender after.
pub fn repairing_is_determined()
    ensures { (s : Streams) (old : SenderState) (x y : Option (ℕ × ArrayVec ℕ)) (v w : SenderState)
        → RepairsAny s old x v → RepairsAny s old y w → (x ≡ y) × (v ≡ w) }
{
    repair_is_determined();
}

/// What passing over a retransmission leaves, against the calls that it stands beside.
pub fn passing_is_determined()
    // The sender before determines which place is passed over, and the sender after.
    ensures one { (old : SenderState) (x y : Option ℕ) (v w : SenderState) → PassesAny old x v → PassesAny old y w → (x ≡ y) × (v ≡ w) }
    // It is the place that would be retransmitted. Of every other place both leave the same.
    ensures same { (old v w : SenderState) (p q : ℕ) (e f : HistoryEntry) → Repairs old p e v → PassesOver old q f w
        → (p ≡ q) × (e ≡ f) × ((k : ℕ) → k ≢ p → v.entries k ≡ w.entries k) }
    // What is still marked lies above it, and was marked: the next least is next.
    ensures above { (old new : SenderState) (p : ℕ) (e : HistoryEntry) → PassesOver old p e new
        → (q : ℕ) → is_marked (new.entries q) ≡ true → (p < q) × (is_marked (old.entries q) ≡ true) }
    // Feedback that names its number again, which no other entry has, leaves the sender as if it had not been passed over.
    ensures again { (repeats : ℕ) (old between new : SenderState) (p count : ℕ) (e : HistoryEntry) → PassesOver old p e between → e.repeats < repeats
        → ((q : ℕ) → IsSome (old.entries q) → number q ≡ number p → q ≡ p) → Marks repeats (λ n. n ≡ number p) between count new → new ≡ old }
{}
