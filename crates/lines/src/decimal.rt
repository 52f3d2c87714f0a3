//! Decimals.
ghost use Rattle.std.specs.Prelude.{◌≡◌, ◌≤◌, IfSome};
ghost use Rattle.std.specs.Char.{is_ascii_digit};
ghost use Rattle.std.specs.List.{list_all};
ghost use Rattle.lines.specs.Decimal.{decimal_up_to, is_decimal};

/// The number that a word writes, if it is at most `most`. A sign or a leading zero is refused.
pub fn parse_decimal(word: &[u8], most: u64) -> Option<u64>
    ensures value { result ≡ decimal_up_to most word.now }
    ensures limit { IfSome result (λ number. number ≤ most) }
{
    if !is_decimal(word) {
        return None;
    }
    match str::from_utf8(word) {
        Ok(text) => match text.parse::<u64>() {
            Ok(number) if number <= most => Some(number),
            _ => None,
        },
        Err(_) => None,
    }
}

/// Whether a word is `0`, or digits that do not begin with 0.
fn is_decimal(word: &[u8]) -> bool
    ensures { result ≡ is_decimal word.now }
{
    match word {
        [] => false,
        [digit] => digit.is_ascii_digit(),
        [first, _, ..] => *first != b'0' && is_digits(word),
    }
}

fn is_digits(word: &[u8]) -> bool
    ensures { result ≡ list_all is_ascii_digit word.now }
{
    word.iter().all(|byte| byte.is_ascii_digit())
}
