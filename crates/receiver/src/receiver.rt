//! The receiving end.
ghost use Rattle.std.specs.Prelude.{◌≡◌, ◌↔◌, ◌+◌, ◌^◌, ◌<◌, ◌≤◌, false, ℕ, List, length, Option, None, IsNone, IsSomeAnd, IsTrue, IsOk, Ok, Err, OnOk, OnErr};
ghost use Rattle.std.specs.Option.{option_map};
ghost use Rattle.std.specs.Result.{result_err};
ghost use Rattle.rtpwire.specs.FirstOf.{FirstOf};
ghost use Rattle.rtpwire.specs.Rtp.{RtpSpells};
ghost use Rattle.stores.specs.ByPlace.{slot_at};
ghost use Rattle.stores.specs.Asking.{has_come};
ghost use Rattle.receiver.specs.Asks.{AsksAny, AsksInto, AsksMost, AsksMostInto, CountsMissing, AsksWithin};
ghost use Rattle.receiver.specs.Waking.{IsQuiet};
ghost use Rattle.receiver.specs.Window.{window_of, missed_in, Begins, PlaysAny};
ghost use Rattle.receiver.specs.Streams.{source_of};
ghost use Rattle.receiver.specs.Heard.{Hears, WasAsked};
ghost use Rattle.receiver.specs.Fault.{receive_number};
ghost use Rattle.receiver.specs.Order.{hearing_order};
ghost use Rattle.receiver.specs.Finding.{FindsPlace};
ghost use Rattle.receiver.specs.Receiver.{state_of, begun, restarted, unlearnt, with_times, IsUnlearnt, Stays};
ghost use Rattle.receiver.specs.Peeking.{played_of, is_ready, play_of, passed, receiver_passed};
ghost use Rattle.stores.specs.Lent.{slot_of};

use crate::answer::{Peeked, Played, Taken};
use crate::asks::{ask_all, ask_all_into, ask_from, ask_into_from, missing_in};
use crate::config::ReceiverConfig;
use crate::fault::{HasStarted, ReceiveFault};
use crate::laws::hearing_is_in_order;
use crate::stream::{Stream, carried_in, known_source, stream_of};
use crate::waking::moment_of;
use places::{Place, near};
use rtpwire::{Carried, ConfigFault, Datagram, RtpView, TooShort};
use std::marker::Model;
use stores::{Slot, SlotRef, Window, window_by_place};

/// The receiving end of a session, over any window: it takes packets in any order, asks for those that are
/// missing, and plays their contents in the order of their places. No call takes memory: the window has it from the start.
#[derive(Drop)]
pub struct Receiver<W: Window> {
    config: ReceiverConfig,
    window: W,
    learnt: Option<u32>,
}

impl<W: Window> Model for Receiver<W> {
    ghost use Rattle.receiver.specs.Receiver.{Receiving, IsReceiving};

    ghost Value = { Receiving };

    ghost view = { λ r. record { config = r.config; span = W.meaning r.window; learnt = r.learnt } };

    ghost invariant = { λ r. IsReceiving (record { config = r.config; span = W.meaning r.window; learnt = r.learnt }) };
}

impl<W: Window> Receiver<W> {
    /// A receiver that took nothing so far, over a window that was not started. The window decides how
    /// many places it keeps.
    pub fn new(config: ReceiverConfig, window: W) -> Receiver<W>
        requires { (W.meaning window).cursor ≡ None }
        ensures { result ≡ record { config = config; span = W.meaning window; learnt = None } }
    {
        Receiver {
            config,
            window,
            learnt: None,
        }
    }

    /// Takes a datagram at the moment `now`, in milliseconds. It may be called at any time, with any
    /// octets, and moments need not rise. The answer is the place that was taken, and how many places
    /// the window passed unplayed for it.
    ///
    /// The first media packet starts a receiver that did not [`begin`](Receiver::begin), one cycle of 65536 above its
    /// sequence number. A later one has the place of its sequence number that is nearest to the highest place so far. A
    /// retransmission (RFC 4588, section 4) has that of its original sequence number, and is taken as the
    /// media packet of that place would have been; it starts no receiver.
    ///
    /// A receiver that learns takes as a retransmission what it asked for, under any SSRC but the media's
    /// and its own, until it took one: that SSRC is then the one of the retransmissions until it restarts.
    ///
    /// The refusals, in the order of the checks; after each the receiver is as it was:
    ///
    /// - `Rtp` (1 to 5): the octets are no RTP packet.
    /// - `UnknownSource` (31): the SSRC is neither that of the media nor that of the retransmissions; where
    ///   the latter is not learnt yet, it is the receiver's own.
    /// - `UnknownType` (32): the payload type is not that of the SSRC's stream.
    /// - `Rtp` (6): the packet is a retransmission, and its payload has no original sequence number.
    /// - `Content` (37): the original payload has more than [`MAX_PAYLOAD`](rtpwire::MAX_PAYLOAD) octets, or the extension
    ///   more than [`MAX_WORDS`](rtpwire::MAX_WORDS) words.
    /// - `NotStarted` (33): the packet is a retransmission, and the receiver took no media packet and did not begin.
    /// - `Place` (34, 39): the sequence number is too far from that of the highest place, or stands for
    ///   no place from 0 to 2^48 - 1.
    /// - `Unasked` (38): the SSRC is to be learnt, and the place is not one that is missing and was asked
    ///   for.
    /// - `Put` (35, 36): the place lies below the next one to play, or is held already.
    pub fn on_media(&mut self, octets: &[u8], now: u64) -> Result<Taken, ReceiveFault>
        ensures hears { Hears self.old.span.capacity self.old.config (state_of self.old) octets.now now result (state_of self.new) }
        ensures order { FirstOf (hearing_order self.old.config (state_of self.old) octets.now) (option_map receive_number (result_err result)) }
        ensures err { OnErr result (self.new ≡ self.old) }
        ensures stays { Stays self.old self.new }
    {
        hearing_is_in_order();
        hear(
            &mut self.window,
            &mut self.learnt,
            &self.config,
            octets,
            now,
        )
    }

    /// The same of a packet, for a caller that has read it: what [`on_media`](Receiver::on_media) answers to octets that spell it.
    pub fn on_packet(&mut self, packet: &RtpView<'_>, now: u64) -> Result<Taken, ReceiveFault>
        ensures hears { (octets : List ℕ) → RtpSpells packet.now octets → Hears self.old.span.capacity self.old.config (state_of self.old) octets now result (state_of self.new) }
        ensures err { OnErr result (self.new ≡ self.old) }
        ensures stays { Stays self.old self.new }
    {
        // Its octets are a witness that there are some.
        let _ = packet.octets();
        hear_packet(
            &mut self.window,
            &mut self.learnt,
            &self.config,
            packet,
            now,
        )
    }

    /// Forgets the SSRC of the retransmissions, where it was learnt: so the next one that repairs what was asked for is learnt anew. All
    /// else stays.
    pub fn forget_source(&mut self)
        ensures forgets { self.new ≡ unlearnt self.old }
        ensures stays { Stays self.old self.new }
    {
        self.learnt = None;
    }

    /// The SSRC of the retransmissions: the session's, or the one that was learnt, where the receiver
    /// learns it, and None until it has.
    pub fn repair_source(&self) -> Option<u32>
        ensures { result ≡ source_of self.now.config (state_of self.now) }
    {
        known_source(&self.config, self.learnt)
    }

    /// Plays the next place at the moment `now`, in milliseconds, or gives it up, or waits. It may be
    /// called at any time, and moments need not rise.
    ///
    /// A place that is held is played. One that is missing is given up once the patience has passed since
    /// it was noticed; at a moment before that it waits. Where nothing is kept it waits as well. A place
    /// that was played or given up is passed, and a wait leaves the receiver as it was.
    pub fn play(&mut self, now: u64) -> Played
        ensures plays { PlaysAny self.old.config.patience (state_of self.old) now result (state_of self.new) }
        ensures wait { result ≡ Played.Wait → self.new ≡ self.old }
        ensures stays { Stays self.old self.new }
    {
        let patience = self.config.patience();
        play_from(&mut self.window, patience, now)
    }

    /// What [`play`](Receiver::play) would give at the moment `now`, lent, so that a caller copies a content from where it
    /// lies. The receiver stays as it is: [`pass`](Receiver::pass) at the same moment is the second step of the play.
    pub fn peek(&self, now: u64) -> Peeked<'_>
        ensures answer { played_of result ≡ play_of self.now.config.patience now self.now.span }
        ensures plays { PlaysAny self.now.config.patience (state_of self.now) now (played_of result) (state_of (receiver_passed (played_of result) self.now)) }
    {
        self.peek_within(self.config.patience(), now)
    }

    /// [`peek`](Receiver::peek) with this patience, in milliseconds, in the place of the configured one: for a caller that knows of the
    /// next place that less of it is left, as since its packet was sent long before it was noticed to be missing.
    /// [`pass_within`](Receiver::pass_within) is its second step.
    pub fn peek_within(&self, patience: u64, now: u64) -> Peeked<'_>
        ensures answer { played_of result ≡ play_of patience now self.now.span }
        ensures plays { PlaysAny patience (state_of self.now) now (played_of result) (state_of (receiver_passed (played_of result) self.now)) }
    {
        peek_at(&self.window, patience, now)
    }

    /// Passes what [`peek`](Receiver::peek) lends at the moment `now`, in milliseconds: it leaves the receiver as
    /// [`play`](Receiver::play) at that moment would, and moves no content.
    pub fn pass(&mut self, now: u64)
        ensures passes { self.new ≡ receiver_passed (play_of self.old.config.patience now self.old.span) self.old }
        ensures plays { PlaysAny self.old.config.patience (state_of self.old) now (play_of self.old.config.patience now self.old.span) (state_of self.new) }
        ensures stays { Stays self.old self.new }
    {
        let patience = self.config.patience();
        self.pass_within(patience, now);
    }

    /// Passes what [`peek_within`](Receiver::peek_within) lends for this patience at the moment `now`.
    pub fn pass_within(&mut self, patience: u64, now: u64)
        ensures passes { self.new ≡ receiver_passed (play_of patience now self.old.span) self.old }
        ensures plays { PlaysAny patience (state_of self.old) now (play_of patience now self.old.span) (state_of self.new) }
        ensures stays { Stays self.old self.new }
    {
        pass_from(&mut self.window, patience, now);
    }

    /// Asks for missing places at the moment `now`, in milliseconds. It may be called at any time, and
    /// moments need not rise. The answer is the datagram of a generic NACK (RFC 4585, section 6.2.1), from
    /// the session's receiver to its media source, and None where no place is due: nothing changes then.
    ///
    /// A place is due that is missing, was asked for fewer times than the configured limit, and either never, and was
    /// noticed at least the configured delay before `now` (with a delay of 0 whenever it was), or last at least `retry`
    /// milliseconds before `now`. The first
    /// [`LONGEST_ASK`](stores::LONGEST_ASK) of them, or all, are packed into at most 64 pairs. Each place that
    /// the pairs cover was then asked for once more, last at `now`; one that they do not cover stays due, so a
    /// caller asks again until the answer is None.
    pub fn ask(&mut self, now: u64) -> Option<Datagram>
        ensures asks { AsksAny self.old.config (state_of self.old) now result (state_of self.new) }
        ensures none { IsNone result → self.new ≡ self.old }
        ensures stays { Stays self.old self.new }
    {
        ask_all(&mut self.window, &self.config, now)
    }

    /// The same for at most `most` places: the first so many of those that are due, as if no other were. After an outage
    /// thousands of places are due, more than the way back may carry at once; the others stay due. One ask names at most
    /// [`LONGEST_ASK`](stores::LONGEST_ASK) places, so with as many or more it is [`ask`](Receiver::ask), and with 0 nothing is asked.
    pub fn ask_most(&mut self, now: u64, most: usize) -> Option<Datagram>
        ensures asks { AsksMost self.old.config (state_of self.old) now most result (state_of self.new) }
        ensures none { IsNone result → self.new ≡ self.old }
        ensures stays { Stays self.old self.new }
    {
        ask_from(&mut self.window, &self.config, now, most)
    }

    /// The same with the NACK at the front of a slice, whose rest stays. The answer is how many octets it has: twelve, and
    /// four for each pair, so at most 268.
    ///
    /// `TooShort` (75): the slice is shorter than this NACK; one of 268 octets never is. The slice and the receiver are then as they were.
    pub fn ask_into(&mut self, out: &mut [u8], now: u64) -> Result<Option<usize>, TooShort>
        ensures asks { AsksInto self.old.config (state_of self.old) now out.old result out.new (state_of self.new) }
        ensures enough { 268 ≤ length out.old → IsOk result }
        ensures err { OnErr result (self.new ≡ self.old) }
        ensures none { result ≡ Ok None → self.new ≡ self.old }
        ensures stays { Stays self.old self.new }
    {
        ask_all_into(&mut self.window, &self.config, now, out)
    }

    /// [`ask_most`](Receiver::ask_most) with the NACK at the front of a slice, as [`ask_into`](Receiver::ask_into) has it.
    ///
    /// `TooShort` (75): the slice is shorter than this NACK; one of 268 octets never is. The slice and the receiver are then as they were.
    pub fn ask_most_into(
        &mut self,
        out: &mut [u8],
        now: u64,
        most: usize,
    ) -> Result<Option<usize>, TooShort>
        ensures asks { AsksMostInto self.old.config (state_of self.old) now most out.old result out.new (state_of self.new) }
        ensures enough { 268 ≤ length out.old → IsOk result }
        ensures err { OnErr result (self.new ≡ self.old) }
        ensures none { result ≡ Ok None → self.new ≡ self.old }
        ensures stays { Stays self.old self.new }
    {
        ask_into_from(&mut self.window, &self.config, now, most, out)
    }

    /// The moment to call again, in milliseconds, if nothing comes until then: the least from which on
    /// [`play`](Receiver::play) would not wait or [`ask`](Receiver::ask) would ask. At each moment one of the two does
    /// something exactly if that moment has come. It may lie in the past, or be 0: then one of them does something at once. None:
    /// neither does anything at any moment, until something is taken or the times are set anew
    /// ([`set_times`](Receiver::set_times)).
    pub fn next_moment(&self) -> Option<u64>
        ensures { (m : ℕ) → m < 2 ^ 64 → IsQuiet self.now.config (state_of self.now) m ↔ (has_come result m ≡ false) }
    {
        self.next_moment_within(self.config.patience())
    }

    /// [`next_moment`](Receiver::next_moment) for a caller that plays with this patience ([`peek_within`](Receiver::peek_within)).
    pub fn next_moment_within(&self, patience: u64) -> Option<u64>
        ensures { (m : ℕ) → m < 2 ^ 64 → IsQuiet (record self.now.config { patience = patience }) (state_of self.now) m ↔ (has_come result m ≡ false) }
    {
        moment_of(&self.window, &self.config, patience)
    }

    /// Begins at a sequence number that was signalled for the first packet, before any came: the next place to play is the
    /// one a packet with that number would have started the receiver at, one cycle of 65536 above the number. So what is lost
    /// or late of the first packets is missing as any other, as soon as a later one is taken.
    ///
    /// `HasStarted` (40): a packet was taken already, or it began before. The receiver is then as it was.
    pub fn begin(&mut self, first: u16) -> Result<(), HasStarted>
        ensures begins { OnOk result (IsSomeAnd (state_of self.new) (Begins (65536 + first))) }
        ensures ok { OnOk result (self.new ≡ begun self.old (65536 + first)) }
        ensures unstarted { IsOk result ↔ (state_of self.old ≡ None) }
        ensures err { OnErr result (self.new ≡ self.old) }
        ensures stays { Stays self.old self.new }
    {
        if self.window.begin(Place::first(first)) {
            Ok(())
        } else {
            Err(HasStarted)
        }
    }

    /// Makes it a receiver that took nothing, as [`new`](Receiver::new) does, with the same memory: what it held and missed
    /// is gone, and an SSRC that it learnt too.
    pub fn restart(&mut self)
        ensures { self.new ≡ restarted self.old }
    {
        self.forget_source();
        self.window.clear();
    }

    /// Sets its times, in milliseconds: the patience, the delay before the first ask, and how long until a place is asked
    /// for again. So they can follow a round-trip time. When places were noticed and last asked for stays as it is.
    ///
    /// `BadLimit` (53): `retry` is 0. The receiver is then as it was.
    pub fn set_times(&mut self, patience: u64, delay: u64, retry: u64) -> Result<(), ConfigFault>
        ensures sets { OnOk result (self.new ≡ with_times self.old patience delay retry) }
        ensures succeeds { IsOk result ↔ (0 < retry) }
        ensures bad_limit { OnErr result (result ≡ Err ConfigFault.BadLimit) }
        ensures err { OnErr result (self.new ≡ self.old) }
    {
        self.config = self.config.with_times(patience, delay, retry)?;
        Ok(())
    }

    /// How it works now.
    pub fn config(&self) -> ReceiverConfig
        ensures { result ≡ self.now.config }
    {
        self.config
    }

    /// How many places are missing: from the next one to play up to the highest one that was taken, those that
    /// are not held.
    pub fn missing(&self) -> usize
        ensures { CountsMissing (state_of self.now) result }
    {
        missing_in(&self.window)
    }

    /// Its window, to see what it holds and misses. No place of it was asked for more often than the
    /// configuration says.
    pub fn window(&self) -> &W
        ensures span { W.meaning result.now ≡ self.now.span }
        ensures limit { AsksWithin self.now.config.asks (state_of self.now) }
    {
        &self.window
    }
}

/// Hears a datagram: the packet that it is.
fn hear<W: Window>(
    window: &mut W,
    learnt: &mut Option<u32>,
    config: &ReceiverConfig,
    octets: &[u8],
    now: u64,
) -> Result<Taken, ReceiveFault>
    requires { IsUnlearnt (W.meaning window.old) learnt.old }
    ensures hears { Hears (W.meaning window.old).capacity config.now (window_of learnt.old (W.meaning window.old)) octets.now now result (window_of learnt.new (W.meaning window.new)) }
    ensures err { OnErr result (W.meaning window.new ≡ W.meaning window.old) }
    ensures err_learnt { OnErr result (learnt.new ≡ learnt.old) }
    ensures unlearnt { IsUnlearnt (W.meaning window.new) learnt.new }
    ensures capacity { (W.meaning window.new).capacity ≡ (W.meaning window.old).capacity }
{
    let packet = RtpView::read(octets)?;
    hear_packet(window, learnt, config, &packet, now)
}

/// Hears a packet: its stream, what it carries, and then the place of that.
fn hear_packet<W: Window>(
    window: &mut W,
    learnt: &mut Option<u32>,
    config: &ReceiverConfig,
    packet: &RtpView<'_>,
    now: u64,
) -> Result<Taken, ReceiveFault>
    requires { IsUnlearnt (W.meaning window.old) learnt.old }
    ensures hears { (octets : List ℕ) → RtpSpells packet.now octets
        → Hears (W.meaning window.old).capacity config.now (window_of learnt.old (W.meaning window.old)) octets now result (window_of learnt.new (W.meaning window.new)) }
    ensures err { OnErr result (W.meaning window.new ≡ W.meaning window.old) }
    ensures err_learnt { OnErr result (learnt.new ≡ learnt.old) }
    ensures unlearnt { IsUnlearnt (W.meaning window.new) learnt.new }
    ensures capacity { (W.meaning window.new).capacity ≡ (W.meaning window.old).capacity }
{
    window_by_place();
    let stream = stream_of(config, *learnt, packet)?;
    let (seq, payload) = carried_in(stream, packet)?;
    // What is carried is copied by the window alone, once the place is taken.
    let content = Carried::with_payload(packet, payload)?;
    let place = place_for(window, stream, seq)?;
    let overrun = window.put_from(place, &content, now)?;
    if let Stream::Candidate(ssrc) = stream {
        *learnt = Some(ssrc);
    }
    Ok(Taken { place, overrun })
}

/// The place of an original packet by its sequence number, if a packet of this stream may have it.
fn place_for<W: Window>(window: &W, stream: Stream, seq: u16) -> Result<Place, ReceiveFault>
    ensures { (learnt : Option ℕ) → FindsPlace stream (window_of learnt (W.meaning window.now)) seq result }
{
    let Some(highest) = window.highest() else {
        return match stream {
            Stream::Media => Ok(Place::first(seq)),
            Stream::Repair | Stream::Candidate(_) => Err(ReceiveFault::NotStarted),
        };
    };
    let place = near(highest, seq)?;
    match stream {
        Stream::Candidate(_) if !was_asked(window, place) => Err(ReceiveFault::Unasked),
        Stream::Media | Stream::Repair | Stream::Candidate(_) => Ok(place),
    }
}

/// Whether this place is missing and was asked for.
fn was_asked<W: Window>(window: &W, place: Place) -> bool
    ensures { IsTrue result ↔ WasAsked (missed_in (slot_at (W.meaning window.now) place)) }
{
    matches!(window.slot(place), Some(SlotRef::Missing { asks, .. }) if asks > 0)
}

/// Plays from a window.
fn play_from<W: Window>(window: &mut W, patience: u64, now: u64) -> Played
    ensures plays { (learnt : Option ℕ) → PlaysAny patience (window_of learnt (W.meaning window.old)) now result (window_of learnt (W.meaning window.new)) }
    ensures wait { result ≡ Played.Wait → W.meaning window.new ≡ W.meaning window.old }
    ensures started { (W.meaning window.new).cursor ≡ None → (W.meaning window.old).cursor ≡ None }
    ensures capacity { (W.meaning window.new).capacity ≡ (W.meaning window.old).capacity }
{
    let Some(cursor) = window.cursor() else {
        return Played::Wait;
    };
    if !is_ready(window.front(), patience, now) {
        return Played::Wait;
    }
    let place = Place::new(cursor).unwrap();
    match window.take_front() {
        Slot::Held(content) => Played::Packet(place, content),
        Slot::Missing { .. } => Played::Gap(place),
    }
}

/// Whether the slot at the front is to be passed: it is held, or its patience has passed.
fn is_ready(front: Option<SlotRef<'_>>, patience: u64, now: u64) -> bool
    ensures { result ≡ is_ready patience now (option_map slot_of front.entry) }
{
    match front {
        None => false,
        Some(SlotRef::Held(_)) => true,
        Some(SlotRef::Missing { noticed, .. }) => now >= noticed && now - noticed >= patience,
    }
}

/// What a play of a window would give, lent.
fn peek_at<W: Window>(window: &W, patience: u64, now: u64) -> Peeked<'_>
    ensures answer { played_of result ≡ play_of patience now (W.meaning window.now) }
    ensures plays { (learnt : Option ℕ) → PlaysAny patience (window_of learnt (W.meaning window.now)) now (played_of result) (window_of learnt (passed (played_of result) (W.meaning window.now))) }
{
    let Some(cursor) = window.cursor() else {
        return Peeked::Wait;
    };
    let front = window.front();
    if !is_ready(front, patience, now) {
        return Peeked::Wait;
    }
    let place = Place::new(cursor).unwrap();
    match front {
        Some(SlotRef::Held(content)) => Peeked::Packet(place, content),
        _ => Peeked::Gap(place),
    }
}

/// Passes what a play of a window would give.
fn pass_from<W: Window>(window: &mut W, patience: u64, now: u64)
    ensures passes { W.meaning window.new ≡ passed (play_of patience now (W.meaning window.old)) (W.meaning window.old) }
    ensures plays { (learnt : Option ℕ) → PlaysAny patience (window_of learnt (W.meaning window.old)) now (play_of patience now (W.meaning window.old)) (window_of learnt (W.meaning window.new)) }
    ensures started { (W.meaning window.new).cursor ≡ None → (W.meaning window.old).cursor ≡ None }
    ensures capacity { (W.meaning window.new).capacity ≡ (W.meaning window.old).capacity }
{
    match peek_at(window, patience, now) {
        Peeked::Wait => {}
        Peeked::Packet(..) | Peeked::Gap(_) => window.drop_front(),
    }
}
