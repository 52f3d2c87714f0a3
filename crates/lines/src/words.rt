//! The words of a line.
ghost use Rattle.std.specs.Prelude.{◌≡◌, ◌≢◌, ◌+◌, ◌<◌, ◌∷◌, [], ◌++◌, take, drop, length, All, IfSome, IfNone};
ghost use Rattle.lines.specs.Words.{words_left, words_of};

use memchr::memchr;

/// The longest line, in octets, without its line feed.
pub const LONGEST_LINE: usize = 4096;

/// Where an octet stands first in a text.
pub fn find_byte(text: &[u8], byte: u8) -> Option<usize>
    ensures inside { IfSome result (λ at. at < length text.now) }
    ensures parts { IfSome result (λ at. text.now ≡ take at text.now ++ byte ∷ drop (at + 1) text.now) }
    ensures first { IfSome result (λ at. All (λ x. x ≢ byte) (take at text.now)) }
    ensures absent { IfNone result (All (λ x. x ≢ byte) text.now) }
{
    memchr(byte, text)
}

/// The first word of a line, and what follows the space that ends it.
pub fn cut(line: &[u8]) -> (&[u8], Option<&[u8]>)
    ensures { words_of line.now ≡ result.0.now ∷ words_left result.1 }
{
    match find_byte(line, b' ') {
        Some(at) => (&line[..at], Some(&line[at + 1..])),
        None => (line, None),
    }
}
