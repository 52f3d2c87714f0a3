//! Words that are numbers, each between its bounds.
ghost use Rattle.std.specs.Prelude.{◌≡◌, ◌≤◌, IfSome, IsTrue, Some, None, false, length};
ghost use Rattle.lines.specs.Numbers.{numbers_between, numbers_first};
ghost use Rattle.lines.specs.NumberSteps.{TakesNumber};
ghost use Rattle.lines.specs.Decimal.{decimal_between};
ghost use Rattle.lines.specs.Words.{words_left};

use crate::decimal::parse_decimal;
use crate::words::cut;

/// Reads the words that are left as numbers, each between its bounds, and tells whether they were just that.
#[tactic(auto, using(crate::proofs::NumberLemmas::numbers_between_left))]
pub(crate) fn read_numbers(rest: Option<&[u8]>, bounds: &[(u64, u64)], numbers: &mut [u64]) -> bool
    requires { length numbers.old ≡ length bounds.now }
    ensures all { IsTrue result → numbers_between bounds.now (words_left rest.entry) ≡ Some numbers.new }
    ensures none { result ≡ false → numbers_between bounds.now (words_left rest.entry) ≡ None }
{
    let mut left = rest;
    take_numbers(&mut left, bounds, numbers) && left.is_none()
}

/// Takes the first of the words that are left as numbers, one between each of these bounds, and tells whether
/// they were that.
pub(crate) fn take_numbers(
    left: &mut Option<&[u8]>,
    bounds: &[(u64, u64)],
    numbers: &mut [u64],
) -> bool
    requires { length numbers.old ≡ length bounds.now }
    ensures all { IsTrue result → numbers_first bounds.now (words_left left.old) ≡ Some (numbers.new, words_left left.new) }
    ensures none { result ≡ false → numbers_first bounds.now (words_left left.old) ≡ None }
{
    for (i, (least, most)) in bounds.iter().enumerate() {
        match next_number(left, *least, *most) {
            Some(number) => numbers[i] = number,
            None => return false,
        }
    }
    true
}

/// The next of the words that are left, as a number between these bounds.
fn next_number(left: &mut Option<&[u8]>, least: u64, most: u64) -> Option<u64>
    ensures { TakesNumber left.old left.new least most result }
{
    let (word, more) = cut((*left)?);
    let number = parse_between(word, least, most)?;
    *left = more;
    Some(number)
}

/// The number that a word writes, if it lies between these bounds. A sign or a leading zero is refused.
pub fn parse_between(word: &[u8], least: u64, most: u64) -> Option<u64>
    ensures value { result ≡ decimal_between least most word.now }
    ensures within { IfSome result (λ number. (least ≤ number) × (number ≤ most)) }
{
    match parse_decimal(word, most) {
        Some(number) if number >= least => Some(number),
        _ => None,
    }
}
