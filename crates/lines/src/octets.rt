//! Octets, 32-bit words and header extensions, written in hexadecimal.
ghost use Rattle.std.specs.Prelude.{◌≡◌, ◌≤◌, ◌*◌, length};
ghost use Rattle.std.specs.Option.{option_map};
ghost use Rattle.lines.specs.Octets.{extension_of_word, octets_up_to, sources_of_word, vector_of, whole_words};

use arrayvec::ArrayVec;
use byteorder::{ByteOrder, NetworkEndian};
use rtpwire::Extension;

/// The octets that a word writes in hexadecimal, at most `N`; none are written `-`.
#[tactic(auto, using(crate::proofs::OctetLemmas::a_long_word))]
pub fn parse_octets<const N: usize>(word: &[u8]) -> Option<ArrayVec<u8, N>>
    ensures { result ≡ option_map vector_of (octets_up_to N word.now) }
{
    if word == b"-".as_slice() {
        return Some(ArrayVec::new());
    }
    if word.is_empty() {
        return None;
    }
    if word.len() / 2 > N {
        return None;
    }
    let mut room = [0; N];
    let octets = &mut room[..word.len() / 2];
    hex::decode_to_slice(word, octets).ok()?;
    ArrayVec::try_from(&*octets).ok()
}

/// The identifiers that a word writes, 8 digits each and at most 15; none are written `-`.
pub fn parse_sources(word: &[u8]) -> Option<ArrayVec<u32, 15>>
    ensures { result ≡ option_map vector_of (sources_of_word word.now) }
{
    let octets = parse_octets::<60>(word)?;
    words_in(octets.as_slice())
}

/// What a word says of a header extension: none is written `-`, and one as the profile's 4 digits and 8
/// for each of at most 16 words.
pub fn parse_extension(word: &[u8]) -> Option<Option<Extension>>
    ensures { result ≡ extension_of_word word.now }
{
    if word == b"-".as_slice() {
        return Some(None);
    }
    let octets = parse_octets::<66>(word)?;
    let octets = octets.as_slice();
    if octets.len() < 2 {
        return None;
    }
    let profile = NetworkEndian::read_u16(octets);
    let words = words_in(&octets[2..])?;
    Some(Some(Extension { profile, words }))
}

/// Octets as words of 32 bits, if nothing is left over.
#[tactic(auto, using(crate::proofs::OctetLemmas::words_read))]
fn words_in<const N: usize>(octets: &[u8]) -> Option<ArrayVec<u32, N>>
    requires { length octets.now ≤ 4 * N }
    ensures { result ≡ option_map vector_of (whole_words octets.now) }
{
    if octets.len() % 4 != 0 {
        return None;
    }
    let mut room = [0; N];
    let words = &mut room[..octets.len() / 4];
    NetworkEndian::read_u32_into(octets, words);
    ArrayVec::try_from(&*words).ok()
}
