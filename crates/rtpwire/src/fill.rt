//! Writing to the front of a slice that has room.
ghost use Rattle.std.specs.Prelude.{◌≡◌, ◌+◌, ◌*◌, ◌/◌, ◌≤◌, ◌++◌, length};
ghost use Rattle.rtpwire.specs.Buffer.{in_front};
ghost use Rattle.rtpwire.specs.Carried.{words_of};
ghost use Rattle.rtpwire.specs.RtpReading.{words_at};
ghost use Rattle.rtpwire.specs.Rtp.{word_octets, written_padding};

use crate::carried::Words;
use crate::limits::MAX_WORDS;
use crate::octets::{are_octets, push_numbers};
use crate::write::ZEROS;
use arrayvec::ArrayVec;

/// How many octets the most words have.
const WORDS: usize = 4 * MAX_WORDS;

/// Writes items to the front of a slice that has room for them. What lies behind stays.
pub fn fill_front<T: Copy + Drop>(out: &mut [T], items: &[T])
    requires { length items.now ≤ length out.old }
    ensures { out.new ≡ in_front items.now out.old }
{
    let (front, _behind) = out.split_at_mut(items.len());
    front.copy_from_slice(items);
}

/// Writes a packet to the front of a slice that has room for it: its header, its payload and so many octets of padding.
/// It returns how many octets that were.
pub(crate) fn fill_packet(out: &mut [u8], header: &[u8], payload: &[u8], padding: u8) -> usize
    requires { length header.now + length payload.now + padding ≤ length out.old }
    ensures written { out.new ≡ in_front (header.now ++ payload.now ++ written_padding padding) out.old }
    ensures len { result ≡ length header.now + length payload.now + padding }
{
    let (front, behind) = out.split_at_mut(header.len());
    front.copy_from_slice(header);
    let (middle, behind) = behind.split_at_mut(payload.len());
    middle.copy_from_slice(payload);
    fill_padding(behind, padding);
    header.len() + payload.len() + usize::from(padding)
}

fn fill_padding(out: &mut [u8], padding: u8)
    requires { padding ≤ length out.old }
    ensures { out.new ≡ in_front (written_padding padding) out.old }
{
    if padding > 0 {
        let before = usize::from(padding) - 1;
        fill_front(out, &ZEROS[..before]);
        out[before] = padding;
    }
}

/// Writes words of 32 bits in network order to a slice that is as long.
pub(crate) fn fill_words(out: &mut [u8], words: Words<'_>)
    requires few { length (words_of words) ≤ MAX_WORDS }
    requires len { length out.old ≡ 4 * length (words_of words) }
    ensures { out.new ≡ word_octets (words_of words.entry) }
{
    match words {
        Words::Numbers(numbers) => fill_numbers(out, numbers),
        // They are in network order as they are.
        Words::Octets(octets) => fill_octets(out, octets),
    }
}

fn fill_octets(out: &mut [u8], octets: &[u8])
    requires { length out.old ≡ 4 * length (words_at (length octets.now / 4) octets.now) }
    ensures { out.new ≡ word_octets (words_at (length octets.now / 4) octets.now) }
{
    are_octets(octets);
    out.copy_from_slice(&octets[..octets.len() / 4 * 4]);
}

fn fill_numbers(out: &mut [u8], numbers: &[u32])
    requires few { length numbers.now ≤ MAX_WORDS }
    requires len { length out.old ≡ 4 * length numbers.now }
    ensures { out.new ≡ word_octets numbers.now }
{
    let mut octets = ArrayVec::<u8, WORDS>::new();
    push_numbers(&mut octets, numbers);
    out.copy_from_slice(&octets);
}
