//! Which packets of a run are dropped, as text.
ghost use Rattle.std.specs.Prelude.{◌≡◌, ◌+◌, ◌<◌, ◌∷◌, All, IfErr, IfOk, IfSome, IsSome, MatchOption, None, Some, is_some, length, option_map};
ghost use Rattle.std.specs.List.Sorted.{IsStrictlyIncreasing};
ghost use Rattle.commands.specs.DropList.{IsRefused, decimal_from, drops_of, pieces_left, pieces_of, rising_from};

use lines::{find_byte, parse_between};
use std::alloc::{AllocError, Global};
use thiserror::Error;

/// Why a text lists no packets.
#[derive(Clone, Copy, Debug, PartialEq, Eq, Error)]
pub enum ListFault {
    /// It is neither `none` nor rising decimals below the number of packets, joined by commas (62).
    #[error("refused 62")]
    BadList,
    /// The allocator refused a growth.
    #[error("out of memory")]
    OutOfMemory,
}

impl From<AllocError> for ListFault {
    ghost use Rattle.std.specs.Prelude.{◌≡◌};
    ghost use Rattle.commands.specs.declared.drops.ListFault.TheVariants as told;

    ghost from_gives = { λ _ fault. fault ≡ told.OutOfMemory };

    fn from(_want: AllocError) -> ListFault {
        ListFault::OutOfMemory
    }
}

/// Reads which of so many packets, counted from 0, are dropped: `none`, or rising decimals joined by commas.
///
/// `BadList`: the text is not so; no memory was asked for. `OutOfMemory`: it is, and the allocator refused a growth.
pub fn drop_list(alloc: Global, text: &str, packets: u32) -> Result<Vec<u32>, ListFault>
    ensures ok { IfOk result (λ list. drops_of text.now packets ≡ Some list.items) }
    ensures rising { IfOk result (λ list. IsStrictlyIncreasing list.items) }
    ensures below { IfOk result (λ list. All (λ number. number < packets) list.items) }
    ensures err { IfErr result (IsRefused (drops_of text.now packets)) }
{
    if text == "none" {
        return Ok(Vec::new(alloc));
    }
    let text = text.as_bytes();
    if !is_list(text, packets) {
        return Err(ListFault::BadList);
    }
    Ok(numbers(alloc, text, packets)?)
}

/// Whether a text is rising decimals below a number, joined by commas.
fn is_list(text: &[u8], packets: u32) -> bool
    ensures { result ≡ is_some (rising_from 0 packets (pieces_of text.now)) }
{
    let mut least = 0;
    let mut left = Some(text);
    while let Some(rest) = left {
        match next(rest, least, packets) {
            Some((number, more)) => {
                least = number + 1;
                left = more;
            }
            None => return false,
        }
    }
    true
}

/// The numbers of a text that was found to be such a list.
fn numbers(alloc: Global, text: &[u8], packets: u32) -> Result<Vec<u32>, AllocError>
    requires { IsSome (rising_from 0 packets (pieces_of text.now)) }
    ensures { IfOk result (λ list. rising_from 0 packets (pieces_of text.now) ≡ Some list.items) }
{
    let mut list = Vec::new(alloc);
    let mut least = 0;
    let mut left = Some(text);
    while let Some(rest) = left {
        let (number, more) = next(rest, least, packets).unwrap();
        list.push(number)?;
        least = number + 1;
        left = more;
    }
    Ok(list)
}

/// The first number of a list, which is to be at least `least` and below `packets`, and what follows the comma after it.
fn next(text: &[u8], least: u32, packets: u32) -> Option<(u32, Option<&[u8]>)>
    ensures first { MatchOption result
        (rising_from least packets (pieces_of text.now) ≡ None)
        (λ found. rising_from least packets (pieces_of text.now) ≡ option_map (λ more. found.0 ∷ more) (rising_from (found.0 + 1) packets (pieces_left found.1))) }
    ensures below { IfSome result (λ found. found.0 < packets) }
    ensures shorter { IfSome result (λ found. IfSome found.1 (λ more. length more.now < length text.now)) }
{
    let (word, more) = cut(text);
    let number = number_from(word, least, packets)?;
    Some((number, more))
}

/// What stands before the first comma of a text, and what follows it.
fn cut(text: &[u8]) -> (&[u8], Option<&[u8]>)
    ensures pieces { pieces_of text.now ≡ result.0.now ∷ pieces_left result.1 }
    ensures shorter { IfSome result.1 (λ more. length more.now < length text.now) }
{
    match find_byte(text, b',') {
        Some(at) => (&text[..at], Some(&text[at + 1..])),
        None => (text, None),
    }
}

/// The number that a word writes, if it is at least `least` and below `bound`.
fn number_from(word: &[u8], least: u32, bound: u32) -> Option<u32>
    ensures value { result ≡ decimal_from least bound word.now }
    ensures below { IfSome result (λ number. number < bound) }
{
    match parse_between(word, u64::from(least), u64::from(bound)) {
        Some(number) if number < u64::from(bound) => Some(number as u32),
        _ => None,
    }
}
