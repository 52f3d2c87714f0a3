//! Laws on what a receiver answers. These functions compute nothing: their contracts are the laws, for callers that
//! speak of places and contents alone.
ghost use Rattle.std.specs.Prelude.{◌≡◌, ◌↔◌, ℕ, ◌+◌, ◌-◌, ◌^◌, ◌<◌, ◌≤◌, ◌==◌, ◌||◌, ◌&&◌, false, nat_lt, nat_le, List, Option, Some, None, Result, Ok};
ghost use Rattle.std.specs.Option.{option_map};
ghost use Rattle.std.specs.Result.{result_err};
ghost use Rattle.arrayvec.specs.ArrayVec.{ArrayVec};
ghost use Rattle.rtpwire.specs.declared.content.Content.{Content};
ghost use Rattle.rtpwire.specs.Rtp.{RtpSpells};
ghost use Rattle.rtpwire.specs.FirstOf.{FirstOf};
ghost use Rattle.rtpwire.specs.Content.{IsTooLong, packet_of};
ghost use Rattle.rtpwire.specs.Retransmission.{RepairSpells, repair_packet, repair_of};
ghost use Rattle.receiver.specs.declared.answer.Taken.{Taken};
ghost use Rattle.receiver.specs.declared.answer.Played.{Played};
ghost use Rattle.receiver.specs.declared.fault.ReceiveFault.{ReceiveFault};
ghost use Rattle.receiver.specs.Config.{Config};
ghost use Rattle.receiver.specs.Window.{Missed, ReceiverState, Begins, PlaysAny};
ghost use Rattle.stores.specs.Asking.{longest_ask};
ghost use Rattle.receiver.specs.Asks.{is_due, AsksAny, AsksMost};
ghost use Rattle.receiver.specs.Streams.{stream_of, source_of};
ghost use Rattle.receiver.specs.Fault.{receive_number};
ghost use Rattle.receiver.specs.Order.{hearing_order};
ghost use Rattle.receiver.specs.Heard.{Hears, TakesNumber, TakesOrRefuses};

use crate::stream::Stream;
use fbwire::packing_is_determined;
use places::near_is_determined;
use rtpwire::{
    checks_are_in_order, content_is_determined, repair_is_determined, spelling_is_determined,
};

/// What a receiver answers to a datagram.
pub fn hearing_is_determined()
    // The octets, the moment and the receiver before determine the answer and the receiver after.
    ensures one { (room : ℕ) (c : Config) (old : Option ReceiverState) (octets : List ℕ) (now : ℕ) (r s : Result Taken ReceiveFault) (v w : Option ReceiverState)
        → Hears room c old octets now r v → Hears room c old octets now s w → (r ≡ s) × (v ≡ w) }
    // Octets that spell a media packet of the session are answered as the content that it carries, by its
    // sequence number, if a content holds what it carries.
    ensures media { (room : ℕ) (c : Config) (old : Option ReceiverState) (octets : List ℕ) (now : ℕ) (answer : Result Taken ReceiveFault) (new : Option ReceiverState)
        (content : Content) (padding seq : ℕ)
        → RtpSpells (packet_of content padding seq c.session.media_type c.session.media_ssrc) octets
        → (IsTooLong (packet_of content padding seq c.session.media_type c.session.media_ssrc) → ⊥)
        → Hears room c old octets now answer new → TakesNumber room Stream.Media old seq content now answer new }
    // Octets that spell a retransmission are answered as the content that it carries, by its original sequence
    // number, if a content holds that.
    ensures repair { (room : ℕ) (c : Config) (old : Option ReceiverState) (octets : List ℕ) (now : ℕ) (answer : Result Taken ReceiveFault) (new : Option ReceiverState)
        (content : Content) (original sequence payload_type ssrc : ℕ) (stream : Stream)
        → RepairSpells content original sequence payload_type ssrc octets
        → (IsTooLong (packet_of content 0 sequence payload_type ssrc) → ⊥)
        → stream_of c.session (source_of c old) (repair_packet (repair_of content original sequence payload_type ssrc)) ≡ Ok stream
        → (stream ≡ Stream.Media → ⊥)
        → Hears room c old octets now answer new → TakesNumber room stream old original content now answer new }
    // Whatever the octets: the receiver takes the content that they spell, or refuses it and is as it was.
    ensures any { (room : ℕ) (c : Config) (old : Option ReceiverState) (octets : List ℕ) (now : ℕ) (answer : Result Taken ReceiveFault) (new : Option ReceiverState)
        → Hears room c old octets now answer new → TakesOrRefuses room c old octets now answer new }
{
    spelling_is_determined();
    content_is_determined();
    repair_is_determined();
    near_is_determined();
}

/// The order in which a receiver checks a datagram.
pub fn hearing_is_in_order()
    // A refusal has the number of the first check whose condition holds, and what is taken passes all of them.
    ensures { (room : ℕ) (c : Config) (old : Option ReceiverState) (octets : List ℕ) (now : ℕ) (answer : Result Taken ReceiveFault) (new : Option ReceiverState)
        → Hears room c old octets now answer new → FirstOf (hearing_order c old octets) (option_map receive_number (result_err answer)) }
{
    checks_are_in_order();
    spelling_is_determined();
    repair_is_determined();
}

/// What a receiver plays: the moment and the receiver before determine it, and the receiver after.
pub fn playing_is_determined()
    ensures { (patience now : ℕ) (old : Option ReceiverState) (r s : Played) (v w : Option ReceiverState)
        → PlaysAny patience old now r v → PlaysAny patience old now s w → (r ≡ s) × (v ≡ w) }
{}

/// What a receiver asks for: the moment and the receiver before determine it, and the receiver after.
pub fn asking_is_determined()
    ensures { (c : Config) (now : ℕ) (old : Option ReceiverState) (r s : Option (ArrayVec ℕ)) (v w : Option ReceiverState)
        → AsksAny c old now r v → AsksAny c old now s w → (r ≡ s) × (v ≡ w) }
{
    packing_is_determined();
}

/// What an ask for at most so many places is to an ask.
pub fn asking_most_is_asking()
    // The moment, the number and the receiver before determine the answer, and the receiver after.
    ensures one { (c : Config) (now most : ℕ) (old : Option ReceiverState) (r s : Option (ArrayVec ℕ)) (v w : Option ReceiverState)
        → AsksMost c old now most r v → AsksMost c old now most s w → (r ≡ s) × (v ≡ w) }
    // For as many places as one ask looks at, or more, it is that ask.
    ensures all { (c : Config) (now most : ℕ) (old : Option ReceiverState) (answer : Option (ArrayVec ℕ)) (new : Option ReceiverState)
        → longest_ask ≤ most → AsksMost c old now most answer new ↔ AsksAny c old now answer new }
    // For one place or more it asks for nothing exactly where no place is due.
    ensures none { (c : Config) (now most : ℕ) (old : ReceiverState) (answer : Option (ArrayVec ℕ)) (new : Option ReceiverState)
        → 0 < most → AsksMost c (Some old) now most answer new → (answer ≡ None) ↔ ((k : ℕ) → is_due now c.delay c.retry c.asks (old.missing k) ≡ false) }
{
    packing_is_determined();
}

/// Without a delay, whenever a missing place was noticed, its first ask is due at once: the rule of a receiver that knows of
/// no delay, said by differences of moments.
pub fn no_delay_is_none()
    ensures { (now retry limit : ℕ) (m : Missed)
        → is_due now 0 retry limit (Some m) ≡ (nat_lt m.asks limit && (m.asks == 0 || (nat_le m.last now && nat_le retry (now - m.last)))) }
{}

/// A receiver that began at the number of the first packet and takes that packet is one that the packet started.
pub fn beginning_is_a_start()
    ensures { (room seq now : ℕ) (content : Content) (begun : ReceiverState) (answer : Result Taken ReceiveFault) (new : Option ReceiverState)
        → 0 < room → seq < 2 ^ 16 → Begins (65536 + seq) begun
        → TakesNumber room Stream.Media (Some begun) seq content now answer new → TakesNumber room Stream.Media None seq content now answer new }
{
    near_is_determined();
}
