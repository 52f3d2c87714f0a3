//! Numbers in network order, as they are read and written.
ghost use Rattle.std.specs.Prelude.{◌≡◌, ◌+◌, ◌*◌, ◌<◌, ◌≤◌, ◌^◌, ◌++◌, length, drop};
ghost use Rattle.byteorder.specs.Endian.{big_bytes, big_number};
ghost use Rattle.rtpwire.specs.Carried.{words_of};
ghost use Rattle.rtpwire.specs.Rtp.{AreOctets, AreWords, word_octets};

use crate::carried::Words;
use arrayvec::ArrayVec;
use byteorder::{ByteOrder, NetworkEndian};

/// The number of 16 bits in network order at this place.
pub fn u16_at(octets: &[u8], at: usize) -> u16
    requires { at + 2 ≤ length octets.now }
    ensures { result ≡ big_number 2 (drop at octets.now) }
{
    NetworkEndian::read_u16(&octets[at..])
}

/// The number of 32 bits in network order at this place.
pub fn u32_at(octets: &[u8], at: usize) -> u32
    requires { at + 4 ≤ length octets.now }
    ensures { result ≡ big_number 4 (drop at octets.now) }
{
    NetworkEndian::read_u32(&octets[at..])
}

/// Appends octets, for which there is room.
pub fn push_octets<const N: usize>(out: &mut ArrayVec<u8, N>, octets: &[u8])
    requires { length out.old.items + length octets.now ≤ N }
    ensures { out.new.items ≡ out.old.items ++ octets.now }
{
    out.try_extend_from_slice(octets).unwrap();
}

/// Appends a number of 16 bits in network order. There is room for its two octets.
pub fn push_u16<const N: usize>(out: &mut ArrayVec<u8, N>, number: u16)
    requires { length out.old.items + 2 ≤ N }
    ensures { out.new.items ≡ out.old.items ++ big_bytes 2 number }
{
    let mut octets = [0; 2];
    NetworkEndian::write_u16(&mut octets, number);
    push_octets(out, &octets);
}

/// Appends a number of 32 bits in network order. There is room for its four octets.
pub fn push_u32<const N: usize>(out: &mut ArrayVec<u8, N>, number: u32)
    requires { length out.old.items + 4 ≤ N }
    ensures { out.new.items ≡ out.old.items ++ big_bytes 4 number }
{
    let mut octets = [0; 4];
    NetworkEndian::write_u32(&mut octets, number);
    push_octets(out, &octets);
}

/// Appends words of 32 bits in network order. There is room for four octets each.
pub(crate) fn push_words<const N: usize>(out: &mut ArrayVec<u8, N>, words: Words<'_>)
    requires { length out.old.items + 4 * length (words_of words) ≤ N }
    ensures items { out.new.items ≡ out.old.items ++ word_octets (words_of words.entry) }
    ensures len { length out.new.items ≡ length out.old.items + 4 * length (words_of words.entry) }
{
    match words {
        Words::Numbers(numbers) => push_numbers(out, numbers),
        // They are in network order as they are.
        Words::Octets(octets) => {
            are_octets(octets);
            push_octets(out, &octets[..octets.len() / 4 * 4]);
        }
    }
}

pub(crate) fn push_numbers<const N: usize>(out: &mut ArrayVec<u8, N>, numbers: &[u32])
    requires { length out.old.items + 4 * length numbers.now ≤ N }
    ensures items { out.new.items ≡ out.old.items ++ word_octets numbers.now }
    ensures len { length out.new.items ≡ length out.old.items + 4 * length numbers.now }
{
    for number in numbers {
        push_u32(out, *number);
    }
}

/// What each slice of octets holds. It computes nothing.
pub(crate) fn are_octets(octets: &[u8])
    ensures { AreOctets octets.now }
{}

/// What each slice of words of 32 bits holds. It computes nothing.
pub(crate) fn are_words(words: &[u32])
    ensures { AreWords words.now }
{}

/// What each number of 16 bits is. It computes nothing.
pub(crate) fn is_half_word(number: u16)
    ensures { number < 2 ^ 16 }
{}

/// What each number of 32 bits is. It computes nothing.
pub(crate) fn is_word(number: u32)
    ensures { number < 2 ^ 32 }
{}
