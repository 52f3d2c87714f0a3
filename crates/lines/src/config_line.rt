//! The first line of a script: `config FIRST RFIRST HISTORY WINDOW PATIENCE RETRY ASKS REPEATS`, and `learn`
//! behind them where the receiver is to learn the SSRC of the retransmissions.
ghost use Rattle.std.specs.Prelude.{◌≡◌};
ghost use Rattle.lines.specs.ConfigLine.{config_bounds, config_of, config_with, learns_of};
ghost use Rattle.lines.specs.NumberSteps.{AreWithin};
ghost use Rattle.lines.specs.Words.{words_left};

use crate::numbers::take_numbers;
use crate::words::{LONGEST_LINE, cut};
use world::{Config, trial_session};

/// The least and the most of each number, in the line's order.
const BOUNDS: [(u64, u64); 8] = [
    (0, 65535),
    (0, 65535),
    (1, 8192),
    (1, 8192),
    (0, u64::MAX),
    (1, u64::MAX),
    (1, 255),
    (1, 255),
];

/// What a line says as a config line, if it is one.
pub fn parse_config(line: &[u8]) -> Option<Config>
    ensures { result ≡ config_of line.now }
{
    if line.len() > LONGEST_LINE {
        return None;
    }
    let (kind, rest) = cut(line);
    if kind != b"config".as_slice() {
        return None;
    }
    let mut left = rest;
    let mut numbers = [0; 8];
    if !take_numbers(&mut left, &BOUNDS, &mut numbers) {
        return None;
    }
    let learns = learns_of(left)?;
    config_with(&numbers, learns)
}

/// Whether the receiver learns, by the words that are left behind the numbers: none, or `learn`.
#[tactic(auto, using(crate::proofs::ConfigLemmas::more_than_learn))]
fn learns_of(left: Option<&[u8]>) -> Option<bool>
    ensures { result ≡ learns_of (words_left left.entry) }
{
    let Some(left) = left else {
        return Some(false);
    };
    let (word, more) = cut(left);
    if more.is_some() || word != b"learn".as_slice() {
        return None;
    }
    Some(true)
}

/// A configuration of numbers that are between their bounds.
fn config_with(numbers: &[u64; 8], learns: bool) -> Option<Config>
    requires { AreWithin config_bounds numbers.now }
    ensures { result ≡ config_with numbers.now learns }
{
    let [
        first,
        repair_first,
        history,
        window,
        patience,
        retry,
        asks,
        repeats,
    ] = *numbers;
    let session = trial_session();
    let (first, repair_first) = (first as u16, repair_first as u16);
    let (history, window) = (history as usize, window as usize);
    let (asks, repeats) = (asks as u8, repeats as u8);
    let made = if learns {
        Config::learning(
            session,
            first,
            repair_first,
            history,
            window,
            patience,
            retry,
            asks,
            repeats,
        )
    } else {
        Config::new(
            session,
            first,
            repair_first,
            history,
            window,
            patience,
            retry,
            asks,
            repeats,
        )
    };
    made.ok()
}
