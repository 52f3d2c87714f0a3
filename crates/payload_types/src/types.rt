//! Which payload types a session has.
ghost use Rattle.std.specs.Prelude.{◌≡◌, ◌↔◌, ◌<◌, ◌≤◌, ◌+◌, ◌*◌, ◌++◌, IfOk, IfSome, IsTrue, None, length};
ghost use Rattle.std.specs.List.{list_any};
ghost use Rattle.std.specs.Option.{option_map};
ghost use Rattle.std.specs.Result.{result_err};
ghost use Rattle.rtpwire.specs.FirstOf.{FirstOf};
ghost use Rattle.payload_types.specs.Fault.{types_number};
ghost use Rattle.payload_types.specs.Types.{AreTypes, IsFirst, are_apart, has_type, is_wrong, octets_order, pairs_of, pair_of_media, pair_of_repair, types_order};

use crate::fault::TypesFault;
use arrayvec::ArrayVec;
use std::marker::Model;

/// How many pairs a session has at most.
pub const MAX_TYPES: usize = 16;

/// A payload type of the media, and that of its retransmissions (`apt`; RFC 4588, section 8.6).
#[derive(Clone, Copy, Debug, Default, PartialEq, Eq)]
pub struct TypePair {
    pub media: u8,
    pub repair: u8,
}

/// The payload types that a session has under one SSRC, with those of their retransmissions. The first pair is that of
/// the session below, which knows no other.
#[derive(Debug, Drop)]
pub struct PayloadTypes {
    pub(crate) first: TypePair,
    pub(crate) others: ArrayVec<TypePair, MAX_TYPES>,
}

impl Model for PayloadTypes {
    ghost use Rattle.std.specs.Prelude.{List, ◌∷◌};
    ghost use Rattle.payload_types.specs.Types.{AreTypes};
    ghost use Rattle.payload_types.specs.declared.types.TypePair.{TypePair};

    ghost Value = { List TypePair };

    ghost view = { λ t. t.first ∷ t.others.items };

    ghost invariant = { λ t. AreTypes (t.first ∷ t.others.items) };
}

impl PayloadTypes {
    /// These pairs, of which the first one is that of the session below. They are refused where there is none or there are
    /// more than sixteen; else where a type of the media is in 64 to 95 or above 127, or one of the retransmissions is not
    /// in 96 to 127; else where a type stands twice.
    pub fn new(pairs: &[TypePair]) -> Result<PayloadTypes, TypesFault>
        ensures ok { IfOk result (λ types. types ≡ pairs.now) }
        ensures order { FirstOf (types_order pairs.now) (option_map types_number (result_err result)) }
    {
        if let Some(fault) = fault_of(pairs) {
            return Err(fault);
        }
        let mut others = ArrayVec::new();
        others.try_extend_from_slice(&pairs[1..]).unwrap();
        Ok(PayloadTypes {
            first: pairs[0],
            others,
        })
    }

    /// The pairs that octets are, two each: a type of the media, and that of its retransmissions. They are refused as
    /// [`PayloadTypes::new`] refuses pairs, and as none where one octet is left over.
    pub fn of_octets(octets: &[u8]) -> Result<PayloadTypes, TypesFault>
        ensures ok { IfOk result (λ types. types ≡ pairs_of octets.now) }
        ensures order { FirstOf (octets_order octets.now) (option_map types_number (result_err result)) }
    {
        if octets.len() % 2 == 1 {
            return Err(TypesFault::Count);
        }
        if octets.len() > 2 * MAX_TYPES {
            return Err(TypesFault::Count);
        }
        let mut pairs = ArrayVec::<TypePair, MAX_TYPES>::new();
        push_pairs(octets, &mut pairs);
        PayloadTypes::new(&pairs)
    }

    /// The pair of the session below.
    pub fn first(&self) -> TypePair
        ensures first { IsFirst self.now result }
        ensures fits { (result.media < 128) × (result.repair < 128) }
    {
        self.first
    }

    /// How many pairs there are.
    pub fn count(&self) -> usize
        ensures { result ≡ length self.now }
    {
        1 + self.others.len()
    }

    /// The pair whose media have this type.
    pub fn of_media(&self, media: u8) -> Option<TypePair>
        ensures pair { result ≡ pair_of_media self.now media }
        ensures fits { IfSome result (λ pair. (pair.media < 128) × (pair.repair < 128)) }
    {
        if self.first.media == media {
            return Some(self.first);
        }
        pair_of_media(&self.others, media)
    }

    /// The pair whose retransmissions have this type.
    pub fn of_repair(&self, repair: u8) -> Option<TypePair>
        ensures pair { result ≡ pair_of_repair self.now repair }
        ensures fits { IfSome result (λ pair. (pair.media < 128) × (pair.repair < 128)) }
    {
        if self.first.repair == repair {
            return Some(self.first);
        }
        pair_of_repair(&self.others, repair)
    }
}

/// Appends the pairs that octets are, two each.
fn push_pairs(octets: &[u8], pairs: &mut ArrayVec<TypePair, MAX_TYPES>)
    requires { 2 * length pairs.old.items + length octets.now ≤ 2 * MAX_TYPES }
    ensures items { pairs.new.items ≡ pairs.old.items ++ pairs_of octets.now }
{
    if let [media, repair, more @ ..] = octets {
        pairs.push(TypePair {
            media: *media,
            repair: *repair,
        });
        push_pairs(more, pairs);
    }
}

/// The first check that pairs fail.
fn fault_of(pairs: &[TypePair]) -> Option<TypesFault>
    ensures order { FirstOf (types_order pairs.now) (option_map types_number result) }
    ensures right { result ≡ None → AreTypes pairs.now }
{
    if !is_count(pairs.len()) {
        Some(TypesFault::Count)
    } else if are_wrong(pairs) {
        Some(TypesFault::BadType)
    } else if !are_apart(pairs) {
        Some(TypesFault::SameType)
    } else {
        None
    }
}

/// Whether a session may have so many pairs.
fn is_count(count: usize) -> bool
    ensures { IsTrue result ↔ ((0 < count) × (count ≤ MAX_TYPES)) }
{
    count > 0 && count <= MAX_TYPES
}

/// Whether a pair has a type that a session can't have.
fn are_wrong(pairs: &[TypePair]) -> bool
    ensures { result ≡ list_any is_wrong pairs.now }
{
    pairs.iter().any(|pair| is_wrong(pair))
}

/// Whether it has one itself.
fn is_wrong(pair: &TypePair) -> bool
    ensures { result ≡ is_wrong pair.now }
{
    (64..=95).contains(&pair.media) || pair.media > 127 || !(96..=127).contains(&pair.repair)
}

/// Whether no type stands twice.
fn are_apart(pairs: &[TypePair]) -> bool
    ensures { result ≡ are_apart pairs.now }
{
    let Some((pair, more)) = pairs.split_first() else {
        return true;
    };
    pair.media != pair.repair
        && !have_type(more, pair.media)
        && !have_type(more, pair.repair)
        && are_apart(more)
}

/// Whether one of these pairs has a type.
fn have_type(pairs: &[TypePair], payload_type: u8) -> bool
    ensures { result ≡ list_any (has_type payload_type) pairs.now }
{
    pairs.iter().any(|pair| pair.media == payload_type || pair.repair == payload_type)
}

/// The first of these pairs whose media have a type.
fn pair_of_media(pairs: &[TypePair], media: u8) -> Option<TypePair>
    ensures { result ≡ pair_of_media pairs.now media }
{
    let (pair, more) = pairs.split_first()?;
    if pair.media == media {
        Some(*pair)
    } else {
        pair_of_media(more, media)
    }
}

/// The first of these pairs whose retransmissions have a type.
fn pair_of_repair(pairs: &[TypePair], repair: u8) -> Option<TypePair>
    ensures { result ≡ pair_of_repair pairs.now repair }
{
    let (pair, more) = pairs.split_first()?;
    if pair.repair == repair {
        Some(*pair)
    } else {
        pair_of_repair(more, repair)
    }
}
