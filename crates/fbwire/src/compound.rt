//! Reading a compound datagram.
ghost use Rattle.std.specs.Prelude.{◌≡◌, ◌↔◌, ◌⊎◌, ◌<◌, ◌≤◌, ◌*◌, ◌^◌, ℕ, Result, slice_index, Contains, List, [], ◌∷◌, None, length, IfOk, IfErr, MatchResult, MatchOption};
ghost use Rattle.std.specs.Iterator.{YieldsFirst, item_count};
ghost use Rattle.std.specs.List.{flat_map};
ghost use Rattle.std.specs.Option.{option_map};
ghost use Rattle.std.specs.Result.{result_err};
ghost use Rattle.rtpwire.specs.FirstOf.{FirstOf};
ghost use Rattle.fbwire.specs.declared.fault.FeedbackFault.{FeedbackFault};
ghost use Rattle.fbwire.specs.Fault.{feedback_number};
ghost use Rattle.fbwire.specs.Nack.{Nack, NackSpells, Names, numbers_of};
ghost use Rattle.fbwire.specs.Compound.{CompoundSpells, NacksName};
ghost use Rattle.fbwire.specs.CompoundChecks.{IsRefused};
ghost use Rattle.fbwire.specs.CompoundReading.{nacks_in};
ghost use Rattle.fbwire.specs.Order.{compound_order};
ghost use Rattle.fbwire.specs.CompoundWalk.{CanWalk};

use crate::fault::FeedbackFault;
use crate::header::{RTPFB, is_nack};
use crate::nack::NackView;
use crate::packets::Packets;
use std::marker::Model;

/// A compound datagram with one generic NACK or more, in the octets that spell it, which it borrows.
/// Nothing is copied.
#[derive(Drop)]
pub struct Compound<'a> {
    octets: &'a [u8],
}

impl<'a> Model for Compound<'a> {
    ghost use Rattle.std.specs.Prelude.{List};
    ghost use Rattle.fbwire.specs.Nack.{Nack};
    ghost use Rattle.fbwire.specs.Compound.{CompoundSpells};
    ghost use Rattle.fbwire.specs.CompoundReading.{nacks_in};

    ghost Value = { List Nack };

    ghost view = { λ v. nacks_in v.octets.now };

    ghost invariant = { λ v. CompoundSpells (nacks_in v.octets.now) v.octets.now };
}

/// The generic NACKs of a compound datagram, one after another.
#[derive(Drop)]
pub struct Nacks<'a> {
    octets: &'a [u8],
}

impl<'a> Model for Nacks<'a> {
    ghost use Rattle.std.specs.Prelude.{List};
    ghost use Rattle.fbwire.specs.Nack.{Nack};
    ghost use Rattle.fbwire.specs.CompoundReading.{nacks_in};
    ghost use Rattle.fbwire.specs.CompoundWalk.{CanWalk};

    ghost Value = { List Nack };

    ghost view = { λ v. nacks_in v.octets.now };

    ghost invariant = { λ v. CanWalk v.octets.now };
}

impl<'a> Compound<'a> {
    /// The compound datagram that the octets spell (RFC 3550, section 6.1). A slice of any length is read.
    ///
    /// Packets other than generic NACKs are skipped by their length; their padding and contents are not
    /// looked at, and no report need come first (RFC 5506).
    ///
    /// The first packet with a fault decides, and within a packet the first of these checks:
    /// [`FeedbackFault::Short`] where fewer than four octets are left, `Version`, for a NACK `Padded`,
    /// `Length` where the packet passes the end, and for a NACK `Short` under twelve octets and `Empty`
    /// without a pair. After packets without a fault, none of them a NACK, it is `NotRtpfb` where no packet
    /// is transport layer feedback, and else `NotNack`. No octets are `Short`.
    pub fn read(octets: &'a [u8]) -> Result<Compound<'a>, FeedbackFault>
        // What is read is spelled so.
        ensures spelled { IfOk result (λ nacks. CompoundSpells nacks octets.now) }
        // What is spelled so is read.
        ensures only { (nacks : List Nack) → CompoundSpells nacks octets.now → result ≡ Ok nacks }
        // Each refusal is the fault that decides.
        ensures fault { IfErr result (IsRefused octets.now) }
        ensures order { FirstOf (compound_order octets.now) (option_map feedback_number (result_err result)) }
    {
        walked(octets)
    }

    /// Its NACKs, in order: one or more.
    pub fn nacks(&self) -> Nacks<'a>
        ensures value { result ≡ self.now }
        ensures some { 0 < length self.now }
    {
        Nacks {
            octets: self.octets,
        }
    }
}

impl<'a> Iterator for Nacks<'a> {
    type Item = NackView<'a>;

    ghost next_gives = { YieldsFirst (λ s. s) };

    ghost remaining = { item_count (λ s. s) };

    fn next(&mut self) -> Option<NackView<'a>> {
        let (nack, rest) = next_nack(self.octets)?;
        self.octets = rest;
        Some(nack)
    }
}

/// The datagram, once the walk over its packets has come to the end.
fn walked(octets: &[u8]) -> Result<Compound<'_>, FeedbackFault>
    ensures { MatchResult result (λ nacks. CompoundSpells nacks octets.now) (IsRefused octets.now) }
{
    if octets.is_empty() {
        return Err(FeedbackFault::Short);
    }
    let mut packets = Packets { octets };
    let mut has_nack = false;
    let mut has_feedback = false;
    while let Some(packet) = packets.next() {
        let packet = packet?;
        has_nack |= is_nack(packet);
        has_feedback |= packet[1] == RTPFB;
    }
    if has_nack {
        Ok(Compound { octets })
    } else if has_feedback {
        Err(FeedbackFault::NotNack)
    } else {
        Err(FeedbackFault::NotRtpfb)
    }
}

/// The first NACK of these packets, and the octets after it.
fn next_nack(octets: &[u8]) -> Option<(NackView<'_>, &[u8])>
    requires { CanWalk octets.now }
    ensures { MatchOption result
        (nacks_in octets.now ≡ [])
        (λ found. (nacks_in octets.now ≡ found.0 ∷ nacks_in found.1.now) × CanWalk found.1.now) }
{
    let mut packets = Packets { octets };
    while let Some(packet) = packets.next() {
        // A datagram that was read has no fault.
        let Ok(packet) = packet else {
            return None;
        };
        if is_nack(packet) {
            return Some((NackView::of_checked(packet), packets.octets));
        }
    }
    None
}

/// What the octets of a compound datagram determine, and what its NACKs name. It computes nothing: its
/// contract is a law on the definitions, for callers of [`Compound::read`] and [`write_nack`](crate::write_nack).
pub fn compound_is_determined()
    // Octets spell at most one list of NACKs.
    ensures one_list { (octets : List ℕ) (a b : List Nack) → CompoundSpells a octets → CompoundSpells b octets → a ≡ b }

    // They are refused for at most one fault, and not where they spell NACKs.
    ensures one_fault { (octets : List ℕ) (a b : FeedbackFault) → IsRefused octets a → IsRefused octets b → a ≡ b }
    ensures not_both { (octets : List ℕ) (nacks : List Nack) (a : FeedbackFault) → CompoundSpells nacks octets → IsRefused octets a → ⊥ }

    // The refusal has the number of the first check whose condition holds, and a datagram that is read passes all.
    ensures order { (octets : List ℕ) (answer : Result (List Nack) FeedbackFault) → ((i : ℕ) → slice_index octets i < 2 ^ 8)
        → MatchResult answer (λ nacks. CompoundSpells nacks octets) (IsRefused octets)
        → FirstOf (compound_order octets) (option_map feedback_number (result_err answer)) }

    // The NACKs that they spell are those that a reader sees in them.
    ensures seen { (octets : List ℕ) (nacks : List Nack) → CompoundSpells nacks octets → nacks_in octets ≡ nacks }

    // The octets of one NACK are a datagram with this NACK, and no other.
    ensures alone { (nack : Nack) (octets : List ℕ) → NackSpells nack octets → CompoundSpells (nack ∷ []) octets }

    // A list of NACKs names the numbers that one of them names.
    ensures names { (nacks : List Nack) (number : ℕ) → NacksName nacks number
        ↔ ((nack : Nack) × Contains nacks nack × Names nack.pairs number) }

    // It names a number, or it does not: which of the two can be told.
    ensures decided { (nacks : List Nack) (number : ℕ) → NacksName nacks number ⊎ (NacksName nacks number → ⊥) }

    // A NACK has 16 octets at least, and four octets name at most 17 numbers.
    ensures few { (octets : List ℕ) (nacks : List Nack) → CompoundSpells nacks octets
        → (16 * length nacks ≤ length octets) × (4 * length (flat_map (λ (nack : Nack). numbers_of nack.pairs) nacks) ≤ 17 * length octets) }

    // No reader answers 18 or 19.
    ensures reader { (octets : List ℕ) (fault : FeedbackFault) → IsRefused octets fault → feedback_number fault < 18 }
{}
