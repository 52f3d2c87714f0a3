//! The words of a line.
ghost use Rattle.std.specs.Prelude.{◌++◌, ◌≤◌, length};
ghost use Rattle.std.specs.Fmt.{decimal};
ghost use Rattle.byteorder.specs.Endian.{big_bytes};
ghost use Rattle.hex.specs.Hex.{encode_lower};
ghost use Rattle.lines.specs.Sink.{Pushes};
ghost use Rattle.lines.specs.WordText.{word_text};

use crate::sink::Sink;
use itoa::Buffer;

/// A word of a line, by what it says.
#[derive(Clone, Copy)]
pub enum Word<'a> {
    /// This text.
    Text(&'a [u8]),
    /// A number in decimal digits.
    Decimal(u64),
    /// A marker bit.
    Marker(bool),
    /// Octets by two hexadecimal digits each, or a dash for none.
    Octets(&'a [u8]),
    /// A header extension: four hexadecimal digits of what the profile defines, and two for each octet of its
    /// words.
    Extension(u16, &'a [u8]),
}

/// How many octets are turned to digits at once.
const PIECE: usize = 64;

/// Pushes a word.
pub(crate) fn push_word<S: Sink>(sink: &mut S, word: Word<'_>) -> Result<(), S::Fault>
    ensures { Pushes result (S.contents sink.old) (S.contents sink.new) (word_text word.entry) }
{
    match word {
        Word::Text(text) => sink.push(text),
        Word::Decimal(number) => push_decimal(sink, number),
        Word::Marker(false) => sink.push(b"0"),
        Word::Marker(true) => sink.push(b"1"),
        Word::Octets([]) => sink.push(b"-"),
        Word::Octets(octets) => push_hex(sink, octets),
        Word::Extension(profile, words) => push_extension(sink, profile, words),
    }
}

/// Pushes a header extension: what the profile defines, and the octets of its words.
fn push_extension<S: Sink>(sink: &mut S, profile: u16, words: &[u8]) -> Result<(), S::Fault>
    ensures { Pushes result (S.contents sink.old) (S.contents sink.new) (encode_lower (big_bytes 2 profile ++ words.now)) }
{
    push_hex(sink, &profile.to_be_bytes())?;
    push_hex(sink, words)
}

/// Pushes a number in decimal digits.
fn push_decimal<S: Sink>(sink: &mut S, number: u64) -> Result<(), S::Fault>
    ensures { Pushes result (S.contents sink.old) (S.contents sink.new) (decimal number) }
{
    let mut digits = Buffer::new();
    sink.push(digits.format(number).as_bytes())
}

/// Pushes octets by two hexadecimal digits each. It takes no memory, however many there are.
fn push_hex<S: Sink>(sink: &mut S, octets: &[u8]) -> Result<(), S::Fault>
    ensures { Pushes result (S.contents sink.old) (S.contents sink.new) (encode_lower octets.now) }
{
    for piece in octets.chunks(PIECE) {
        push_digits(sink, piece)?;
    }
    Ok(())
}

/// Pushes a few octets by two hexadecimal digits each.
fn push_digits<S: Sink>(sink: &mut S, octets: &[u8]) -> Result<(), S::Fault>
    requires { length octets.now ≤ PIECE }
    ensures { Pushes result (S.contents sink.old) (S.contents sink.new) (encode_lower octets.now) }
{
    let mut room = [0; 2 * PIECE];
    let digits = &mut room[..2 * octets.len()];
    hex::encode_to_slice(octets, digits).unwrap();
    sink.push(digits)
}
