//! Hearing a packet: one that is believed goes to the receiver, and one that is not is held back.
ghost use Rattle.std.specs.Prelude.{◌≡◌, ℕ, List, None, Ok};
ghost use Rattle.rtpwire.specs.Rtp.{RtpSpells};
ghost use Rattle.receiver.specs.Receiver.{Receiving};
ghost use Rattle.stores.specs.Span.{highest_of};
ghost use Rattle.endpoint.specs.Receiving.{ends_of, Handed, AfterHeld, Believes, HearsWanted, HoldsBack, as_heard, follows, is_awaited, kept_in, none_held, run_after, run_before, run_refused, skipped_at, skipped_by, spare_before, wanted_at};

use crate::asked_places::asked_at;
use crate::heard::{Heard, Restart};
use crate::probation::Probation;
use places::Place;
use receiver::{ReceiveFault, Receiver, Taken};
use rtpwire::RtpView;
use std::mem;
use stores::{SlotRef, Window};

/// A number that lies so far ahead of another one, or farther, lies behind it.
const HALF_CYCLE: u16 = 32768;

/// Packets that are held back: how many, how many are wanted, and which number is the next in sequence; and the moment at which
/// a media packet was last taken.
#[derive(Clone, Copy, Debug, PartialEq, Eq)]
pub struct Run {
    pub count: u16,
    pub wanted: u16,
    pub next: u16,
    pub last: u64,
}

impl Run {
    /// Nothing is held back, and no media was taken.
    pub(crate) const NONE: Run = Run {
        count: 0,
        wanted: 0,
        next: 0,
        last: 0,
    };

    /// Nothing is held back, and media was last taken at this moment.
    fn none_held(last: u64) -> Run
        ensures { result ≡ none_held last }
    {
        Run { last, ..Run::NONE }
    }

    /// What a refusal leaves of it.
    fn refused(self, probation: &Probation) -> Run
        ensures { result ≡ run_refused probation.now.silence self }
    {
        if probation.is_in_sequence() {
            Run::none_held(self.last)
        } else {
            self
        }
    }

    /// What the answer to a packet that was believed leaves of it. Media that is taken ends what is held back.
    fn after(
        self,
        probation: &Probation,
        number: Option<u16>,
        taken: &Result<Taken, ReceiveFault>,
        now: u64,
    ) -> Run
        ensures { result ≡ run_after probation.now.silence number taken.now now self }
    {
        match (number, taken) {
            (None, _) => self,
            (Some(_), Ok(_)) => Run::none_held(now),
            (Some(_), Err(_)) => self.refused(probation),
        }
    }

    /// Whether the packet with this number goes on with what is held back, of which this is the highest place.
    fn is_followed_by(&self, probation: &Probation, highest: Option<Place>, seq: u16) -> bool
        ensures { result ≡ follows probation.now self.now highest seq }
    {
        self.count > 0 && probation.goes_on(highest, self.next, seq)
    }
}

/// How many are wanted before a media packet with this number is believed.
pub(crate) fn wanted_at<W: Window>(
    core: &Receiver<W>,
    probation: &Probation,
    number: Option<u16>,
) -> u16
    ensures { result ≡ wanted_at probation.now core.now.span number }
{
    let window = core.window();
    match (window.highest(), number) {
        (Some(highest), Some(seq)) => {
            let wanted = probation.wanted(highest, seq);
            // Most have not jumped, and nothing is looked up for them.
            if wanted > 0 && is_awaited(window, highest, seq) {
                0
            } else {
                wanted
            }
        }
        _ => 0,
    }
}

/// Whether the place with this number that lies nearest behind the highest one is missing.
fn is_awaited<W: Window>(window: &W, highest: Place, seq: u16) -> bool
    ensures { result ≡ is_awaited (W.meaning window.now) highest seq }
{
    matches!(
        window.slot(asked_at(highest, seq)),
        Some(SlotRef::Missing { .. })
    )
}

/// Hears a packet of which so many are wanted. `number` is its sequence number if it is media.
pub(crate) fn hear_wanted<W: Window>(
    core: &mut Receiver<W>,
    spare: &mut Receiver<W>,
    run: &mut Run,
    probation: &Probation,
    wanted: u16,
    number: Option<u16>,
    packet: &RtpView<'_>,
    now: u64,
) -> Result<Heard, ReceiveFault>
    ensures { (octets : List ℕ) → RtpSpells packet.now octets
        → HearsWanted probation.now (ends_of core.old spare.old run.old) wanted number octets now result (ends_of core.new spare.new run.new) }
{
    match number {
        Some(seq) if wanted > 0 => {
            hold_back(core, spare, run, probation, wanted, seq, packet, now)
        }
        _ => believe(core, run, probation, number, packet, now),
    }
}

/// Hears octets that are no packet: the receiver refuses them, and says why.
pub(crate) fn hear_unread<W: Window>(
    core: &mut Receiver<W>,
    octets: &[u8],
    now: u64,
) -> Result<Heard, ReceiveFault>
    ensures { (probation : Probation) (spare : Receiving) (run : Run) → Believes probation (ends_of core.old spare run) None octets.now now result (ends_of core.new spare run) }
{
    match core.on_media(octets, now) {
        Ok(taken) => Ok(Heard::Repair(taken)),
        Err(fault) => Err(fault),
    }
}

/// Hears a packet that is believed. If it is media that is taken, what is held back is not.
fn believe<W: Window>(
    core: &mut Receiver<W>,
    run: &mut Run,
    probation: &Probation,
    number: Option<u16>,
    packet: &RtpView<'_>,
    now: u64,
) -> Result<Heard, ReceiveFault>
    ensures { (octets : List ℕ) → RtpSpells packet.now octets
        → (spare : Receiving) → Believes probation.now (ends_of core.old spare run.old) number octets now result (ends_of core.new spare run.new) }
{
    let taken = hand(core, packet, now);
    *run = run.after(probation, number, &taken, now);
    as_heard(number, taken)
}

/// The answer of a receiver as the endpoint's: what it took is media, or else a retransmission.
fn as_heard(number: Option<u16>, taken: Result<Taken, ReceiveFault>) -> Result<Heard, ReceiveFault>
    ensures { result ≡ as_heard number taken }
{
    match taken {
        Ok(taken) if number.is_some() => Ok(Heard::Media(taken)),
        Ok(taken) => Ok(Heard::Repair(taken)),
        Err(fault) => Err(fault),
    }
}

/// Hands a receiver a packet.
fn hand<W: Window>(
    receiver: &mut Receiver<W>,
    packet: &RtpView<'_>,
    now: u64,
) -> Result<Taken, ReceiveFault>
    ensures { (octets : List ℕ) → RtpSpells packet.now octets → Handed receiver.old octets now result receiver.new }
{
    receiver.on_packet(packet, now)
}

/// Hears a packet that is not believed: the spare receiver is handed it.
fn hold_back<W: Window>(
    core: &mut Receiver<W>,
    spare: &mut Receiver<W>,
    run: &mut Run,
    probation: &Probation,
    wanted: u16,
    seq: u16,
    packet: &RtpView<'_>,
    now: u64,
) -> Result<Heard, ReceiveFault>
    ensures { (octets : List ℕ) → RtpSpells packet.now octets
        → HoldsBack probation.now (ends_of core.old spare.old run.old) wanted seq octets now result (ends_of core.new spare.new run.new) }
{
    begin_unless_followed(spare, run, probation, wanted, seq);
    match hand(spare, packet, now) {
        Err(fault) => {
            *run = run.refused(probation);
            Err(fault)
        }
        Ok(taken) => Ok(count_held(core, spare, run, probation, seq, taken, now)),
    }
}

/// What is held back before the packet with this number: the same, where that goes on with it, or nothing.
fn begin_unless_followed<W: Window>(
    spare: &mut Receiver<W>,
    run: &mut Run,
    probation: &Probation,
    wanted: u16,
    seq: u16,
)
    ensures spare { spare.new ≡ spare_before probation.now spare.old run.old seq }
    ensures run { run.new ≡ run_before probation.now run.old (highest_of spare.old.span) wanted seq }
{
    if !run.is_followed_by(probation, spare.window().highest(), seq) {
        spare.restart();
        *run = Run {
            count: 0,
            wanted: probation.wanted_of_run(wanted),
            next: seq,
            last: run.last,
        };
    }
}

/// Counts a packet that the spare receiver took: it is one more that is held back, or the last that was wanted.
fn count_held<W: Window>(
    core: &mut Receiver<W>,
    spare: &mut Receiver<W>,
    run: &mut Run,
    probation: &Probation,
    seq: u16,
    taken: Taken,
    now: u64,
) -> Heard
    ensures { AfterHeld probation.now (ends_of core.old spare.old run.old) spare.old run.old seq now (Ok taken) (Ok result) (ends_of core.new spare.new run.new) }
{
    let held = u32::from(run.count) + 1;
    if held < u32::from(probation.wanted_now(run.wanted, run.last, now)) {
        run.count += 1;
        run.next = seq.wrapping_add(1);
        return Heard::HeldBack(held);
    }
    let abandoned = kept_in(core);
    let skipped = skipped_over(core, spare, taken.overrun);
    mem::swap(core, spare);
    *run = Run::none_held(now);
    Heard::Restarted(Restart {
        taken,
        held,
        skipped,
        abandoned,
    })
}

/// How many numbers lie between the highest place of one receiver and the first one that another kept before its last packet, which
/// dropped so many.
fn skipped_over<W: Window>(before: &Receiver<W>, after: &Receiver<W>, overrun: u64) -> u32
    ensures { result ≡ skipped_at (highest_of before.now.span) after.now.span.cursor overrun }
{
    match (before.window().highest(), after.window().cursor()) {
        (Some(highest), Some(cursor)) => {
            let first = cursor.saturating_sub(overrun);
            skipped_by(((first % 65536) as u16).wrapping_sub(highest.number()))
        }
        _ => 0,
    }
}

/// How many numbers lie between one and another that lies so far ahead of it, modulo 65536.
fn skipped_by(distance: u16) -> u32
    ensures { result ≡ skipped_by distance }
{
    if distance < HALF_CYCLE {
        u32::from(distance.saturating_sub(1))
    } else {
        0
    }
}

/// How many places a receiver keeps, held or missing: from the next one to play up to the highest one.
fn kept_in<W: Window>(receiver: &Receiver<W>) -> u64
    ensures { result ≡ kept_in receiver.now.span }
{
    let window = receiver.window();
    match (window.cursor(), window.highest()) {
        (Some(cursor), Some(highest)) => highest.value() + 1 - cursor,
        _ => 0,
    }
}
