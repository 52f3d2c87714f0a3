//! What feedback does to a history.
ghost use Rattle.std.specs.Prelude.{◌≡◌, ℕ, ◌≤◌, ◌<◌, [], ◌∷◌, length, None, Some, Ok, Err, MatchResult, IsFalse, if◌then◌else◌};
ghost use Rattle.fbwire.specs.Nack.{pair_numbers, numbers_of};
ghost use Rattle.sender.specs.Feedback as feedback;
ghost use Rattle.sender.specs.Feedback.{first_wrong, wrong_with};
ghost use Rattle.sender.specs.Shared.{ours, our_numbers, first_fault};
ghost use Rattle.sender.specs.Marking.{MarksNumbers};

use crate::config::SenderConfig;
use fbwire::{FeedbackFault, NackView, Nacks, Numbers, Pair, Pairs};
use stores::{History, history_by_place};

/// Whether a NACK is from this session's receiver, on its media; else what is wrong with it.
pub(crate) fn is_of_session(nack: &NackView<'_>, config: &SenderConfig) -> Result<(), FeedbackFault>
    ensures { MatchResult result (λ _. wrong_with config.now nack.now ≡ None) (λ fault. wrong_with config.now nack.now ≡ Some fault) }
{
    let session = config.session();
    if nack.media() != session.media_ssrc() {
        return Err(FeedbackFault::WrongMedia);
    }
    if !config.any_reporter() && nack.reporter() != session.receiver_ssrc() {
        return Err(FeedbackFault::WrongReporter);
    }
    Ok(())
}

/// Whether a NACK is of this session.
pub(crate) fn is_ours(nack: &NackView<'_>, config: &SenderConfig) -> bool
    ensures { result ≡ feedback.is_ours config.now nack.now }
{
    is_of_session(nack, config).is_ok()
}

/// Whether each NACK is from this session's receiver, on its media. The first one that is not decides.
pub(crate) fn are_of_session(nacks: Nacks<'_>, config: &SenderConfig) -> Result<(), FeedbackFault>
    ensures { MatchResult result (λ _. first_wrong config.now nacks.entry ≡ None) (λ fault. first_wrong config.now nacks.entry ≡ Some fault) }
{
    for nack in nacks {
        is_of_session(&nack, config)?;
    }
    Ok(())
}

/// Whether some NACK, of one or more, is of this session. Where none is, the first one decides.
pub(crate) fn one_is_of_session(
    nacks: Nacks<'_>,
    config: &SenderConfig,
) -> Result<(), FeedbackFault>
    requires { 0 < length nacks }
    ensures { MatchResult result
        (λ _. 0 < length (ours config.now nacks.entry))
        (λ fault. (ours config.now nacks.entry ≡ []) × (first_fault config.now nacks.entry ≡ Some fault)) }
{
    let mut later = nacks;
    let Some(first) = later.next() else {
        return Ok(());
    };
    let Err(fault) = is_of_session(&first, config) else {
        return Ok(());
    };
    for nack in later {
        if is_ours(&nack, config) {
            return Ok(());
        }
    }
    Err(fault)
}

/// Marks for the numbers of those NACKs that are of this session, and counts the entries that became marked.
pub(crate) fn mark_nacks<H: History>(
    history: &mut H,
    nacks: Nacks<'_>,
    config: &SenderConfig,
) -> u32
    ensures { MarksNumbers config.now.repeats (our_numbers config.now nacks.entry) (H.meaning history.old) result (H.meaning history.new) }
{
    let mut count = 0;
    for nack in nacks {
        count += mark_nack(history, &nack, config);
    }
    count
}

/// Marks for the numbers of a NACK, if it is of this session.
fn mark_nack<H: History>(history: &mut H, nack: &NackView<'_>, config: &SenderConfig) -> u32
    ensures marks { MarksNumbers config.now.repeats (our_numbers config.now (nack.now ∷ [])) (H.meaning history.old) result (H.meaning history.new) }
    ensures few { result ≤ 8192 }
{
    if !is_ours(nack, config) {
        return 0;
    }
    mark_pairs(history, nack.pairs(), config.repeats())
}

/// Marks for the numbers that pairs name.
fn mark_pairs<H: History>(history: &mut H, pairs: Pairs<'_>, repeats: u8) -> u32
    ensures marks { MarksNumbers repeats (numbers_of pairs.entry) (H.meaning history.old) result (H.meaning history.new) }
    ensures few { result ≤ 8192 }
{
    let mut count = 0;
    for pair in pairs {
        count += mark_pair(history, pair, repeats);
    }
    count
}

/// Marks for the numbers of one pair. There is nothing to mark where the history has nothing that a pair from this PID on can name.
fn mark_pair<H: History>(history: &mut H, pair: Pair, repeats: u8) -> u32
    ensures marks { MarksNumbers repeats (pair_numbers pair) (H.meaning history.old) result (H.meaning history.new) }
    ensures few { result ≤ 8192 }
{
    history_by_place();
    if history.has_none_of_17(pair.pid) {
        return 0;
    }
    let first = u32::from(mark_number(history, pair.pid, repeats));
    first + mark_numbers(history, pair.masked(), repeats)
}

/// Marks for numbers, one by one.
fn mark_numbers<H: History>(history: &mut H, numbers: Numbers<'_>, repeats: u8) -> u32
    ensures marks { MarksNumbers repeats numbers.entry (H.meaning history.old) result (H.meaning history.new) }
    ensures few { result ≤ 8192 }
{
    let mut count = 0;
    for number in numbers {
        count += u32::from(mark_number(history, number, repeats));
    }
    count
}

/// Marks the entry with this number, if there is one, it is not marked, and its repeats are below the limit.
pub(crate) fn mark_number<H: History>(history: &mut H, number: u16, repeats: u8) -> bool
    ensures marks { MarksNumbers repeats (number ∷ []) (H.meaning history.old) (if result then 1 else 0) (H.meaning history.new) }
    ensures same { IsFalse result → H.meaning history.new ≡ H.meaning history.old }
{
    history_by_place();
    let Some(place) = history.find(number) else {
        return false;
    };
    let entry = history.get(place);
    if entry.marked || entry.repeats >= repeats {
        return false;
    }
    history.mark(place);
    true
}
