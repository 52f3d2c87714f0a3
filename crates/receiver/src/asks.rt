//! What a receiver asks for.
ghost use Rattle.std.specs.Prelude.{◌≡◌, ℕ, ◌≤◌, length, min, Option, None, IsNone, IsTrue, IsOk, Ok, OnErr};
ghost use Rattle.std.specs.List.Sorted.{IsStrictlyIncreasing};
ghost use Rattle.stores.specs.ByPlace.{slot_at};
ghost use Rattle.stores.specs.Asking.{longest_ask, due_places, missing_places, is_due};
ghost use Rattle.stores.specs.PlaceLists.{Lists};
ghost use Rattle.receiver.specs.Asks.{AsksAny, AsksInto, AsksMost, AsksMostInto, CountsMissing};
ghost use Rattle.receiver.specs.Counted.{CanAllBeAsked, CountsAsks, AnswersPairs};
ghost use Rattle.receiver.specs.Window.{window_of};

use crate::config::ReceiverConfig;
use arrayvec::ArrayVec;
use fbwire::{Pair, pack_into, write_nack, write_nack_into};
use places::Place;
use rtpwire::{Datagram, TooShort};
use stores::{LONGEST_ASK, Window, window_by_place};

/// For how many missing places an ask blanks room: blanking it for as many as an ask can look at takes longer than most asks.
const FEW: usize = 128;

/// Asks for the due places of a window, as many as one ask looks at.
pub(crate) fn ask_all<W: Window>(
    window: &mut W,
    config: &ReceiverConfig,
    now: u64,
) -> Option<Datagram>
    ensures asks { (learnt : Option ℕ) → AsksAny config.now (window_of learnt (W.meaning window.old)) now result (window_of learnt (W.meaning window.new)) }
    ensures none { IsNone result → W.meaning window.new ≡ W.meaning window.old }
    ensures started { (W.meaning window.new).cursor ≡ (W.meaning window.old).cursor }
    ensures capacity { (W.meaning window.new).capacity ≡ (W.meaning window.old).capacity }
{
    ask_from(window, config, now, LONGEST_ASK)
}

/// The same at the front of a slice.
pub(crate) fn ask_all_into<W: Window>(
    window: &mut W,
    config: &ReceiverConfig,
    now: u64,
    out: &mut [u8],
) -> Result<Option<usize>, TooShort>
    ensures asks { (learnt : Option ℕ) → AsksInto config.now (window_of learnt (W.meaning window.old)) now out.old result out.new (window_of learnt (W.meaning window.new)) }
    ensures enough { 268 ≤ length out.old → IsOk result }
    ensures err { OnErr result (W.meaning window.new ≡ W.meaning window.old) }
    ensures none { result ≡ Ok None → W.meaning window.new ≡ W.meaning window.old }
    ensures started { (W.meaning window.new).cursor ≡ (W.meaning window.old).cursor }
    ensures capacity { (W.meaning window.new).capacity ≡ (W.meaning window.old).capacity }
{
    ask_into_from(window, config, now, LONGEST_ASK, out)
}

/// Asks for the due places of a window, at most so many.
pub(crate) fn ask_from<W: Window>(
    window: &mut W,
    config: &ReceiverConfig,
    now: u64,
    most: usize,
) -> Option<Datagram>
    ensures asks { (learnt : Option ℕ) → AsksMost config.now (window_of learnt (W.meaning window.old)) now most result (window_of learnt (W.meaning window.new)) }
    ensures none { IsNone result → W.meaning window.new ≡ W.meaning window.old }
    ensures started { (W.meaning window.new).cursor ≡ (W.meaning window.old).cursor }
    ensures capacity { (W.meaning window.new).capacity ≡ (W.meaning window.old).capacity }
{
    if asks_nothing(window, config, now) {
        return None;
    }
    if window.missing() <= FEW {
        return ask_due(window, config, now, most, &mut [Place::default(); FEW]);
    }
    ask_due(
        window,
        config,
        now,
        most,
        &mut [Place::default(); LONGEST_ASK],
    )
}

/// The same once something is seen to be due, or may be, in room for those that are.
fn ask_due<W: Window>(
    window: &mut W,
    config: &ReceiverConfig,
    now: u64,
    most: usize,
    due: &mut [Place],
) -> Option<Datagram>
    requires room { min longest_ask (length (missing_places (W.meaning window.old))) ≤ length due.old }
    ensures asks { (learnt : Option ℕ) → AsksMost config.now (window_of learnt (W.meaning window.old)) now most result (window_of learnt (W.meaning window.new)) }
    ensures none { IsNone result → W.meaning window.new ≡ W.meaning window.old }
    ensures started { (W.meaning window.new).cursor ≡ (W.meaning window.old).cursor }
    ensures capacity { (W.meaning window.new).capacity ≡ (W.meaning window.old).capacity }
{
    let mut pairs = ArrayVec::new();
    let count = pairs_due(window, config, now, most, due, &mut pairs);
    if count == 0 {
        return None;
    }
    count_asks(window, &due[..count], now);
    let session = config.session();
    Some(write_nack(
        session.receiver_ssrc(),
        session.media_ssrc(),
        pairs.as_slice(),
    ))
}

/// Asks for the due places of a window, at most so many, at the front of a slice.
pub(crate) fn ask_into_from<W: Window>(
    window: &mut W,
    config: &ReceiverConfig,
    now: u64,
    most: usize,
    out: &mut [u8],
) -> Result<Option<usize>, TooShort>
    ensures asks { (learnt : Option ℕ) → AsksMostInto config.now (window_of learnt (W.meaning window.old)) now most out.old result out.new (window_of learnt (W.meaning window.new)) }
    ensures enough { 268 ≤ length out.old → IsOk result }
    ensures err { OnErr result (W.meaning window.new ≡ W.meaning window.old) }
    ensures none { result ≡ Ok None → W.meaning window.new ≡ W.meaning window.old }
    ensures started { (W.meaning window.new).cursor ≡ (W.meaning window.old).cursor }
    ensures capacity { (W.meaning window.new).capacity ≡ (W.meaning window.old).capacity }
{
    if asks_nothing(window, config, now) {
        return Ok(None);
    }
    if window.missing() <= FEW {
        return ask_due_into(window, config, now, most, &mut [Place::default(); FEW], out);
    }
    ask_due_into(
        window,
        config,
        now,
        most,
        &mut [Place::default(); LONGEST_ASK],
        out,
    )
}

/// The same once something is seen to be due, or may be, in room for those that are.
fn ask_due_into<W: Window>(
    window: &mut W,
    config: &ReceiverConfig,
    now: u64,
    most: usize,
    due: &mut [Place],
    out: &mut [u8],
) -> Result<Option<usize>, TooShort>
    requires room { min longest_ask (length (missing_places (W.meaning window.old))) ≤ length due.old }
    ensures asks { (learnt : Option ℕ) → AsksMostInto config.now (window_of learnt (W.meaning window.old)) now most out.old result out.new (window_of learnt (W.meaning window.new)) }
    ensures enough { 268 ≤ length out.old → IsOk result }
    ensures err { OnErr result (W.meaning window.new ≡ W.meaning window.old) }
    ensures none { result ≡ Ok None → W.meaning window.new ≡ W.meaning window.old }
    ensures started { (W.meaning window.new).cursor ≡ (W.meaning window.old).cursor }
    ensures capacity { (W.meaning window.new).capacity ≡ (W.meaning window.old).capacity }
{
    let mut pairs = ArrayVec::new();
    let count = pairs_due(window, config, now, most, due, &mut pairs);
    if count == 0 {
        return Ok(None);
    }
    let needed = 12 + 4 * pairs.len();
    if out.len() < needed {
        return Err(TooShort { needed });
    }
    let covered = &due[..count];
    count_asks(window, covered, now);
    let session = config.session();
    let reporter = session.receiver_ssrc();
    let media = session.media_ssrc();
    let len = write_nack_into(out, reporter, media, pairs.as_slice());
    Ok(Some(len))
}

/// Whether it is plain that no place is due; false tells nothing. Most asks end here, and blank no room for due places.
fn asks_nothing<W: Window>(window: &W, config: &ReceiverConfig, now: u64) -> bool
    ensures { IsTrue result → (most : ℕ) (learnt : Option ℕ) → AsksMost config.now (window_of learnt (W.meaning window.now)) now most None (window_of learnt (W.meaning window.now)) }
{
    window_by_place();
    if window.missing() == 0 {
        return true;
    }
    window.has_none_due(now, config.rule())
}

/// Finds the due places of a window, at most so many and as many as one ask looks at, in room for those that are, and packs them into pairs.
/// It answers how many places they cover, which is 0 where none is due.
fn pairs_due<W: Window>(
    window: &mut W,
    config: &ReceiverConfig,
    now: u64,
    most: usize,
    due: &mut [Place],
    pairs: &mut ArrayVec<Pair, 64>,
) -> usize
    requires room { min longest_ask (length (missing_places (W.meaning window.old))) ≤ length due.old }
    ensures found { AnswersPairs (W.meaning window.old) now config.now.delay config.now.retry config.now.asks most pairs.new.items result due.new }
    ensures lists { Lists (due_places (W.meaning window.old) now config.now.delay config.now.retry config.now.asks)
        (λ q. is_due now config.now.delay config.now.retry config.now.asks (slot_at (W.meaning window.old) q)) }
    ensures same { W.meaning window.new ≡ W.meaning window.old }
{
    window_by_place();
    let room = most.min(due.len());
    let found = window.find_due(&mut due[..room], now, config.rule());
    pack_into(&due[..found], pairs)
}

/// Counts one ask for each of these places, made at the moment `now`.
fn count_asks<W: Window>(window: &mut W, places: &[Place], now: u64)
    requires rising { IsStrictlyIncreasing places.now }
    requires askable { CanAllBeAsked (W.meaning window.old) places.now }
    ensures { CountsAsks (W.meaning window.old) (W.meaning window.new) places.now now }
{
    window_by_place();
    window.count_asks(places, now);
}

/// How many places of a window are missing.
pub(crate) fn missing_in<W: Window>(window: &W) -> usize
    ensures { (learnt : Option ℕ) → CountsMissing (window_of learnt (W.meaning window.now)) result }
{
    window_by_place();
    window.missing()
}
