//! What is counted of feedback that several senders share, before anything is marked for it.
ghost use Rattle.std.specs.Prelude.{◌≡◌, [], ◌∷◌};
ghost use Rattle.fbwire.specs.Nack.{pair_numbers, numbers_of};
ghost use Rattle.sender.specs.Counting.{CountsNumbers, CountsNacks, AddsUp};

use crate::answer::Shared;
use crate::config::SenderConfig;
use crate::marking::is_ours;
use fbwire::{NackView, Nacks, Numbers, Pair, Pairs};
use stores::{History, history_by_place};

/// Nothing was counted.
const NONE: Shared = Shared {
    places: 0,
    nacks: 0,
    others: 0,
    numbers: 0,
    unknown: 0,
    exhausted: 0,
};

/// What the NACKs of this session name, by the history as it is, and how many others there are. Nothing is marked, and
/// `places` is 0.
pub(crate) fn count_nacks<H: History>(
    history: &H,
    nacks: Nacks<'_>,
    config: &SenderConfig,
) -> Shared
    ensures { CountsNacks config.now (H.meaning history.now) nacks.entry result }
{
    let mut shared = NONE;
    for nack in nacks {
        shared = sum(shared, count_nack(history, &nack, config));
    }
    shared
}

/// One NACK's counts.
fn count_nack<H: History>(history: &H, nack: &NackView<'_>, config: &SenderConfig) -> Shared
    ensures { CountsNacks config.now (H.meaning history.now) (nack.now ∷ []) result }
{
    if !is_ours(nack, config) {
        return Shared { others: 1, ..NONE };
    }
    let named = count_pairs(history, nack.pairs(), config.repeats());
    Shared { nacks: 1, ..named }
}

/// The counts of the numbers that pairs name.
fn count_pairs<H: History>(history: &H, pairs: Pairs<'_>, repeats: u8) -> Shared
    ensures { CountsNumbers repeats (H.meaning history.now) (numbers_of pairs.entry) result }
{
    let mut shared = NONE;
    for pair in pairs {
        shared = sum(shared, count_pair(history, pair, repeats));
    }
    shared
}

/// One pair's counts. Where the history has nothing that a pair from this PID on can name, its numbers are counted together: whoever
/// names what is not kept is to have it cheap.
fn count_pair<H: History>(history: &H, pair: Pair, repeats: u8) -> Shared
    ensures { CountsNumbers repeats (H.meaning history.now) (pair_numbers pair) result }
{
    history_by_place();
    if history.has_none_of_17(pair.pid) {
        let count = pair.count();
        return Shared {
            numbers: count,
            unknown: count,
            ..NONE
        };
    }
    let first = count_number(history, pair.pid, repeats);
    sum(first, count_numbers(history, pair.masked(), repeats))
}

/// The counts of numbers, one by one.
fn count_numbers<H: History>(history: &H, numbers: Numbers<'_>, repeats: u8) -> Shared
    ensures { CountsNumbers repeats (H.meaning history.now) numbers.entry result }
{
    let mut shared = NONE;
    for number in numbers {
        shared = sum(shared, count_number(history, number, repeats));
    }
    shared
}

/// One number's counts: whether an entry has it, and whether that was retransmitted as often as it may be.
fn count_number<H: History>(history: &H, number: u16, repeats: u8) -> Shared
    ensures { CountsNumbers repeats (H.meaning history.now) (number ∷ []) result }
{
    history_by_place();
    let one = Shared { numbers: 1, ..NONE };
    let Some(place) = history.find(number) else {
        return Shared { unknown: 1, ..one };
    };
    if history.get(place).repeats >= repeats {
        return Shared {
            exhausted: 1,
            ..one
        };
    }
    one
}

/// Both counts together.
fn sum(x: Shared, y: Shared) -> Shared
    ensures { AddsUp x y result }
{
    Shared {
        places: x.places.saturating_add(y.places),
        nacks: x.nacks.saturating_add(y.nacks),
        others: x.others.saturating_add(y.others),
        numbers: x.numbers.saturating_add(y.numbers),
        unknown: x.unknown.saturating_add(y.unknown),
        exhausted: x.exhausted.saturating_add(y.exhausted),
    }
}
