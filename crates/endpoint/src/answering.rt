//! How long an answer takes, as a sender sees it by the feedback that comes.
ghost use Rattle.std.specs.Prelude.{◌≡◌, IsSome, None};
ghost use Rattle.fbwire.specs.Nack.{numbers_of};
ghost use Rattle.stores.specs.Past.{entry_at};
ghost use Rattle.sender.specs.Feedback.{is_ours};
ghost use Rattle.endpoint.specs.Answering.{ReadsAnswer, TellsAnswer, answer_by, is_untouched, last_in, last_named, last_of, last_pair};

use crate::demultiplex::is_control;
use crate::moments::Moments;
use fbwire::{Compound, NackView, Nacks, Numbers, Pair, Pairs};
use places::Place;
use sender::{Sender, SenderConfig};
use stores::{History, history_by_place};

/// How long ago the packet was sent that lies right behind the one that feedback names last, where that is named for the first time.
pub(crate) fn answer_time<H: History>(
    sender: &Sender<H>,
    config: &SenderConfig,
    moments: &Moments,
    octets: &[u8],
    now: u64,
) -> Option<u64>
    ensures { TellsAnswer config.now sender.now.past moments.now octets.now now result }
{
    if !is_control(octets) {
        return None;
    }
    read_answer(sender, config, moments, octets, now)
}

/// The same of a datagram with RTCP.
fn read_answer<H: History>(
    sender: &Sender<H>,
    config: &SenderConfig,
    moments: &Moments,
    octets: &[u8],
    now: u64,
) -> Option<u64>
    ensures { ReadsAnswer config.now sender.now.past moments.now octets.now now result }
{
    let Ok(compound) = Compound::read(octets) else {
        return None;
    };
    let number = last_named(compound.nacks(), config);
    since_named(sender.history(), moments, number, now)
}

/// The same by the number that is named last, if one is.
fn since_named<H: History>(
    history: &H,
    moments: &Moments,
    number: Option<u16>,
    now: u64,
) -> Option<u64>
    ensures { result ≡ answer_by number (H.meaning history.now) moments.now now }
{
    history_by_place();
    let number = number?;
    let place = history.find(number)?;
    if !is_untouched(history, place) {
        return None;
    }
    let behind = history.find(number.wrapping_add(1))?;
    Some(now.saturating_sub(moments.times(behind).sent))
}

/// Whether the packet of a place was neither named nor retransmitted so far.
fn is_untouched<H: History>(history: &H, place: Place) -> bool
    requires { IsSome (entry_at (H.meaning history.now) place) }
    ensures { result ≡ is_untouched (entry_at (H.meaning history.now) place) }
{
    let entry = history.get(place);
    !entry.marked && entry.repeats == 0
}

/// The number that the NACKs of this session name last.
fn last_named(nacks: Nacks<'_>, config: &SenderConfig) -> Option<u16>
    ensures { result ≡ last_named config.now None nacks.entry }
{
    let mut last = None;
    for nack in nacks {
        last = last_in(&nack, config, last);
    }
    last
}

/// The same of one NACK, which another one may precede.
fn last_in(nack: &NackView<'_>, config: &SenderConfig, before: Option<u16>) -> Option<u16>
    ensures { result ≡ last_in config.now before nack.now }
{
    if is_ours(nack, config) {
        last_of_pairs(nack.pairs(), before)
    } else {
        before
    }
}

/// The number that pairs name last: one of the last pair.
fn last_of_pairs(pairs: Pairs<'_>, before: Option<u16>) -> Option<u16>
    ensures { result ≡ last_of before (numbers_of pairs.entry) }
{
    match last_pair(pairs) {
        Some(pair) => last_of(pair.masked(), Some(pair.pid)),
        None => before,
    }
}

/// The last pair.
fn last_pair(pairs: Pairs<'_>) -> Option<Pair>
    ensures { result ≡ last_pair None pairs.entry }
{
    let mut last = None;
    for pair in pairs {
        last = Some(pair);
    }
    last
}

/// The last of some numbers.
fn last_of(numbers: Numbers<'_>, before: Option<u16>) -> Option<u16>
    ensures { result ≡ last_of before numbers.entry }
{
    let mut last = before;
    for number in numbers {
        last = Some(number);
    }
    last
}

/// Whether a NACK is of this session, as a sender has it.
fn is_ours(nack: &NackView<'_>, config: &SenderConfig) -> bool
    ensures { result ≡ is_ours config.now nack.now }
{
    let session = config.session();
    nack.media() == session.media_ssrc()
        && (config.any_reporter() || nack.reporter() == session.receiver_ssrc())
}
