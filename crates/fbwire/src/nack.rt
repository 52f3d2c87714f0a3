//! Reading and writing a generic NACK.
ghost use Rattle.std.specs.Prelude.{◌≡◌, ◌<◌, ◌≤◌, ◌+◌, ◌*◌, ◌++◌, All, ◌↔◌, ℕ, List, [], Contains, None, length, take, IfOk, IfErr, MatchResult};
ghost use Rattle.std.specs.List.{flat_map};
ghost use Rattle.std.specs.Option.{option_map};
ghost use Rattle.std.specs.Result.{result_err};
ghost use Rattle.rtpwire.specs.Buffer.{in_front};
ghost use Rattle.rtpwire.specs.FirstOf.{FirstOf};
ghost use Rattle.fbwire.specs.Nack.{IsPair, Nack, NackSpells, Names, masked_numbers, pair_numbers, numbers_of, nack_octets, pair_octets};
ghost use Rattle.fbwire.specs.Fault.{feedback_number};
ghost use Rattle.fbwire.specs.Order.{nack_order};
ghost use Rattle.fbwire.specs.NackChecks.{nack_fault};
ghost use Rattle.fbwire.specs.NackReading.{nack_in};

use crate::fault::FeedbackFault;
use crate::header::{FirstOctet, GENERIC_NACK, RTPFB, length_of};
use crate::numbers::{Numbers, Pairs};
use arrayvec::ArrayVec;
use byteorder::{ByteOrder, NetworkEndian};
use rtpwire::{Datagram, fill_front, push_octets, push_u16, push_u32};
use std::marker::Model;

/// How many octets come before the pairs.
pub(crate) const HEADER: usize = 12;

/// How many octets a NACK of 64 pairs has.
const MAX_WRITTEN: usize = HEADER + 4 * 64;

/// A packet identifier and a bitmask of the lost packets that follow it (RFC 4585, section 6.2.1).
///
/// It names the sequence number `pid` and, for each set bit i of `blp`, counted from 1 at the least
/// significant to 16, the number `pid` + i modulo 65536.
#[derive(Clone, Copy, Debug, Default, PartialEq, Eq, Hash)]
pub struct Pair {
    /// The sequence number of a lost packet.
    pub pid: u16,
    /// A bit for each of the 16 packets after it.
    pub blp: u16,
}

impl Pair {
    /// How many sequence numbers it names, from 1 to 17.
    pub fn count(self) -> u32
        ensures { result ≡ length (pair_numbers self) }
    {
        1 + self.blp.count_ones()
    }

    /// Those that it names beside the PID, from bit 1 up.
    pub fn masked(self) -> Numbers<'static>
        ensures { result ≡ masked_numbers self.pid self.blp }
    {
        Numbers::masked(self)
    }
}

/// A generic NACK in the octets that spell it, which it borrows. Nothing is copied.
#[derive(Drop)]
pub struct NackView<'a> {
    octets: &'a [u8],
}

impl<'a> Model for NackView<'a> {
    ghost use Rattle.std.specs.Prelude.{◌≡◌, None};
    ghost use Rattle.fbwire.specs.Nack.{Nack};
    ghost use Rattle.fbwire.specs.NackReading.{nack_in};
    ghost use Rattle.fbwire.specs.NackChecks.{nack_fault};

    ghost Value = { Nack };

    ghost view = { λ v. nack_in v.octets.now };

    ghost invariant = { λ v. nack_fault v.octets.now ≡ None };
}

impl<'a> NackView<'a> {
    /// The NACK that the octets spell, all of them. A slice of any length is read, and any number of pairs.
    ///
    /// The checks, in this order (RFC 4585, sections 6.1 and 6.2.1): [`FeedbackFault::Short`] under twelve
    /// octets, `Version`, `Padded`, `NotRtpfb`, `NotNack`, `Length` where the length field does not give the
    /// length of the slice, and `Empty` without a pair.
    pub fn read(octets: &'a [u8]) -> Result<NackView<'a>, FeedbackFault>
        // What is read is spelled so.
        ensures spelled { IfOk result (λ nack. NackSpells nack octets.now) }
        // What is spelled so is read.
        ensures only { (nack : Nack) → NackSpells nack octets.now → result ≡ Ok nack }
        // Each refusal is the first check that fails.
        ensures fault { IfErr result (λ fault. nack_fault octets.now ≡ Some fault) }
        ensures order { FirstOf (nack_order octets.now) (option_map feedback_number (result_err result)) }
    {
        checked(octets)
    }

    /// The NACK that octets spell which have passed the checks.
    pub(crate) fn of_checked(octets: &'a [u8]) -> NackView<'a>
        requires { nack_fault octets.now ≡ None }
        ensures { result ≡ nack_in octets.now }
    {
        NackView { octets }
    }

    /// The SSRC of the packet's sender, who asks.
    pub fn reporter(&self) -> u32
        ensures { result ≡ self.now.reporter }
    {
        NetworkEndian::read_u32(&self.octets[4..])
    }

    /// The SSRC of the media source, which is asked.
    pub fn media(&self) -> u32
        ensures { result ≡ self.now.media }
    {
        NetworkEndian::read_u32(&self.octets[8..])
    }

    /// Its pairs, in order.
    pub fn pairs(&self) -> Pairs<'a>
        ensures { result ≡ self.now.pairs }
    {
        Pairs::new(&self.octets[HEADER..])
    }

    /// The sequence numbers that it names: for each pair the PID, and then those of its set bits from
    /// bit 1 up.
    pub fn numbers(&self) -> Numbers<'a>
        ensures { result ≡ numbers_of self.now.pairs }
    {
        Numbers::new(self.pairs())
    }
}

/// The NACK at the places where its fields are, once the checks have passed.
fn checked(octets: &[u8]) -> Result<NackView<'_>, FeedbackFault>
    ensures { MatchResult result
        (λ nack. (nack_fault octets.now ≡ None) × (nack ≡ nack_in octets.now))
        (λ fault. nack_fault octets.now ≡ Some fault) }
{
    if octets.len() < HEADER {
        return Err(FeedbackFault::Short);
    }
    let first = FirstOctet(octets[0]);
    if first.version() != 2 {
        return Err(FeedbackFault::Version);
    }
    if first.is_padded() {
        return Err(FeedbackFault::Padded);
    }
    if octets[1] != RTPFB {
        return Err(FeedbackFault::NotRtpfb);
    }
    if first.message_type() != GENERIC_NACK {
        return Err(FeedbackFault::NotNack);
    }
    if octets.len() != length_of(octets) {
        return Err(FeedbackFault::Length);
    }
    if octets.len() == HEADER {
        return Err(FeedbackFault::Empty);
    }
    Ok(NackView { octets })
}

/// The one spelling of a generic NACK that names these pairs, from one to 64.
///
/// `reporter` is the SSRC of the packet's sender, and `media` that of the media source (RFC 4585,
/// sections 6.1 and 6.2.1).
pub fn write_nack(reporter: u32, media: u32, pairs: &[Pair]) -> Datagram
    requires some { 0 < length pairs.now }
    requires room { length pairs.now ≤ 64 }
    ensures { NackSpells (record { reporter = reporter; media = media; pairs = pairs.now }) result.items }
{
    let mut out = Datagram::new();
    push_nack(&mut out, reporter, media, pairs);
    out
}

/// The same spelling at the front of a slice that has room for it: twelve octets, and four for each pair. What lies
/// behind stays. It returns how many octets the NACK has.
pub fn write_nack_into(out: &mut [u8], reporter: u32, media: u32, pairs: &[Pair]) -> usize
    requires some { 0 < length pairs.now }
    requires count { length pairs.now ≤ 64 }
    requires room { 12 + 4 * length pairs.now ≤ length out.old }
    ensures written { out.new ≡ in_front (nack_octets (record { reporter = reporter; media = media; pairs = pairs.now })) out.old }
    ensures len { result ≡ 12 + 4 * length pairs.now }
    ensures spells { NackSpells (record { reporter = reporter; media = media; pairs = pairs.now }) (take result out.new) }
{
    let mut octets = ArrayVec::<u8, MAX_WRITTEN>::new();
    push_nack(&mut octets, reporter, media, pairs);
    fill_front(out, &octets);
    octets.len()
}

/// Writes a NACK of one to 64 pairs, for which there is room.
fn push_nack<const N: usize>(out: &mut ArrayVec<u8, N>, reporter: u32, media: u32, pairs: &[Pair])
    requires empty { out.old.items ≡ [] }
    requires some { 0 < length pairs.now }
    requires count { length pairs.now ≤ 64 }
    requires room { 12 + 4 * length pairs.now ≤ N }
    ensures spells { NackSpells (record { reporter = reporter; media = media; pairs = pairs.now }) out.new.items }
    ensures len { length out.new.items ≡ 12 + 4 * length pairs.now }
{
    push_octets(out, &[FirstOctet::new(GENERIC_NACK).0, RTPFB]);
    push_u16(out, 2 + pairs.len() as u16);
    push_u32(out, reporter);
    push_u32(out, media);
    push_pairs(out, pairs);
}

/// Appends pairs, for which there is room: four octets each.
fn push_pairs<const N: usize>(out: &mut ArrayVec<u8, N>, pairs: &[Pair])
    requires { length out.old.items + 4 * length pairs.now ≤ N }
    ensures written { out.new.items ≡ out.old.items ++ flat_map pair_octets pairs.now }
    ensures len { length out.new.items ≡ length out.old.items + 4 * length pairs.now }
    ensures fit { All IsPair pairs.now }
{
    for pair in pairs {
        push_pair(out, *pair);
    }
}

/// Appends a pair, for which there is room.
fn push_pair<const N: usize>(out: &mut ArrayVec<u8, N>, pair: Pair)
    requires { length out.old.items + 4 ≤ N }
    ensures written { out.new.items ≡ out.old.items ++ pair_octets pair }
    ensures fits { IsPair pair }
{
    push_u16(out, pair.pid);
    push_u16(out, pair.blp);
}

/// What the octets of a generic NACK determine. It computes nothing: its contract is a law on the
/// definitions, for callers of [`NackView::read`] and [`write_nack`].
pub fn nack_is_determined()
    // What is written is read again: octets that spell a NACK pass each check, and show this NACK.
    ensures passes { (nack : Nack) (octets : List ℕ) → NackSpells nack octets → nack_fault octets ≡ None }
    ensures read_back { (nack : Nack) (octets : List ℕ) → NackSpells nack octets → nack_in octets ≡ nack }

    // Octets spell at most one NACK, and a NACK has one spelling.
    ensures one_nack { (octets : List ℕ) (a b : Nack) → NackSpells a octets → NackSpells b octets → a ≡ b }
    ensures one_spelling { (nack : Nack) (a b : List ℕ) → NackSpells nack a → NackSpells nack b → a ≡ b }

    // The fault that decides has the number of the first check whose condition holds, and there is none where none does.
    ensures order { (octets : List ℕ) → FirstOf (nack_order octets) (option_map feedback_number (nack_fault octets)) }

    // The set that pairs name has the members of the list that they name.
    ensures names { (pairs : List Pair) (number : ℕ) → Names pairs number ↔ Contains (numbers_of pairs) number }
{}
