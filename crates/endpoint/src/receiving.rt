//! The receiving endpoint.
ghost use Rattle.std.specs.Prelude.{◌≡◌, ◌↔◌, ◌+◌, ◌<◌, ◌≤◌, ◌&&◌, nat_lt, ℕ, length, None, Ok, Err, IsOk, IsNone, IfOk, OnOk, OnErr};
ghost use Rattle.rtpwire.specs.Rtp.{RtpSpells};
ghost use Rattle.receiver.specs.Asks.{AsksMost, AsksMostInto};
ghost use Rattle.receiver.specs.Peeking.{play_of, receiver_passed};
ghost use Rattle.receiver.specs.Receiver.{Stays, begun, restarted, state_of, unlearnt, with_times};
ghost use Rattle.receiver.specs.Window.{PlaysAny};
ghost use Rattle.endpoint.specs.Receiving.{ends_of, fresh, HearsDatagram, HearsPacket, no_run};
ghost use Rattle.endpoint.specs.ReceiveCounts.{count_heard, count_passed, count_played, CountsAsk, CountsAskInto, no_counts};
ghost use Rattle.endpoint.specs.Seen.{is_repeat, none_seen, seen_after};

use crate::asking::places_in;
use crate::demultiplex::is_control;
use crate::heard::Heard;
use crate::holding::{Run, hear_unread, hear_wanted, wanted_at};
use crate::judging::number_in;
use crate::padding::without_padding;
use crate::passed::Passed;
use crate::probation::Probation;
use crate::receive_counts::ReceiveCounts;
use crate::seen_packets::{SEEN, SeenPackets, is_repeat};
use receiver::{HasStarted, Played, ReceiveFault, Receiver, ReceiverConfig};
use rtpwire::{ConfigFault, Datagram, RtpView, TooShort};
use std::alloc::Global;
use stores::{OutOfMemory, PutFault, Window};

/// The receiving end of a session as a network wants it: it is handed every datagram that comes from the far side, believes a
/// jump of the sequence number only after a [`Probation`], restarts then, and counts. All that it hands the receiver below since
/// the last restart is what was believed, so what each call of a [`Receiver`] promises holds from there on.
///
/// It keeps two receivers over windows of one size. What is held back goes to the spare one, which takes the place of the other
/// once it is believed; so nothing of it is lost, and no call takes memory.
#[derive(Drop)]
pub struct ReceivingEndpoint<W: Window> {
    core: Receiver<W>,
    spare: Receiver<W>,
    probation: Probation,
    run: Run,
    counts: ReceiveCounts,
    /// What was taken, so that what a network repeats begins nothing.
    seen: SeenPackets,
}

impl<W: Window> ReceivingEndpoint<W> {
    /// An endpoint that took nothing so far. Its windows keep up to `capacity` places each, from 1 to 8192 of them.
    ///
    /// `OutOfMemory`: the allocator refused the memory.
    pub fn new(
        alloc: Global,
        config: ReceiverConfig,
        probation: Probation,
        capacity: usize,
    ) -> Result<ReceivingEndpoint<W>, OutOfMemory>
        requires nonzero { 0 < capacity }
        requires limit { capacity ≤ 8192 }
        ensures { IfOk result (λ made. (made.core ≡ fresh config capacity) × (made.spare ≡ fresh config capacity) × (made.probation ≡ probation) × (made.run ≡ no_run) × (made.counts ≡ no_counts) × (made.seen ≡ none_seen 8192)) }
    {
        let core = Receiver::new(config, W::new(alloc, capacity)?);
        let spare = Receiver::new(config, W::new(alloc, capacity)?);
        let seen = SeenPackets::new(alloc, SEEN)?;
        Ok(ReceivingEndpoint {
            core,
            spare,
            probation,
            run: Run::NONE,
            counts: ReceiveCounts::NONE,
            seen,
        })
    }

    /// Takes any datagram of the far side at the moment `now`, in milliseconds.
    ///
    /// RTCP is passed over (RFC 5761). A packet that is all padding is taken as one with an empty payload. A media packet whose
    /// sequence number has jumped is held back, until as many have come as its [`Probation`] wants; but where a packet with its number and
    /// its timestamp was taken before, of the last 8192, it is refused as late (35), and begins nothing. One that is believed, and taken,
    /// ends what was held back. The refusals are those of [`Receiver::on_media`]; they change nothing but the counts and what is held
    /// back: in sequence a media packet of the session that is refused ends it, and by the stream only one that lies far from it.
    pub fn on_datagram(&mut self, octets: &[u8], now: u64) -> Result<Heard, ReceiveFault>
        ensures hears { HearsDatagram self.old.probation self.old.seen (ends_of self.old.core self.old.spare self.old.run) octets.now now result (ends_of self.new.core self.new.spare self.new.run) }
        ensures probation { self.new.probation ≡ self.old.probation }
        ensures counts { self.new.counts ≡ count_heard result self.old.counts }
        ensures seen { self.new.seen ≡ seen_after result octets.now self.old.seen }
    {
        let answer = self.hear_datagram(octets, now);
        self.counts.hear(&answer);
        self.seen.hear(&answer, octets);
        answer
    }

    /// Hears a datagram, and counts nothing.
    fn hear_datagram(&mut self, octets: &[u8], now: u64) -> Result<Heard, ReceiveFault>
        ensures hears { HearsDatagram self.old.probation self.old.seen (ends_of self.old.core self.old.spare self.old.run) octets.now now result (ends_of self.new.core self.new.spare self.new.run) }
        ensures probation { self.new.probation ≡ self.old.probation }
        ensures counts { self.new.counts ≡ self.old.counts }
        ensures seen { self.new.seen ≡ self.old.seen }
    {
        if is_control(octets) {
            return Ok(Heard::Control);
        }
        match without_padding(octets) {
            Some(plain) => self.hear_packet(plain.as_slice(), now),
            None => self.hear_packet(octets, now),
        }
    }

    /// Hears a packet.
    fn hear_packet(&mut self, octets: &[u8], now: u64) -> Result<Heard, ReceiveFault>
        ensures hears { HearsPacket self.old.probation self.old.seen (ends_of self.old.core self.old.spare self.old.run) octets.now now result (ends_of self.new.core self.new.spare self.new.run) }
        ensures probation { self.new.probation ≡ self.old.probation }
        ensures counts { self.new.counts ≡ self.old.counts }
        ensures seen { self.new.seen ≡ self.old.seen }
    {
        match RtpView::read(octets) {
            Ok(packet) => self.hear_read(&packet, octets, now),
            Err(_) => hear_unread(&mut self.core, octets, now),
        }
    }

    /// The same of octets that were read as this packet.
    fn hear_read(
        &mut self,
        packet: &RtpView<'_>,
        octets: &[u8],
        now: u64,
    ) -> Result<Heard, ReceiveFault>
        requires { RtpSpells packet.now octets.now }
        ensures hears { HearsPacket self.old.probation self.old.seen (ends_of self.old.core self.old.spare self.old.run) octets.now now result (ends_of self.new.core self.new.spare self.new.run) }
        ensures probation { self.new.probation ≡ self.old.probation }
        ensures counts { self.new.counts ≡ self.old.counts }
        ensures seen { self.new.seen ≡ self.old.seen }
    {
        let session = self.core.config().session();
        let number = number_in(&session, packet);
        let wanted = wanted_at(&self.core, &self.probation, number);
        if is_held_repeat(&self.seen, wanted, number, octets) {
            return Err(ReceiveFault::Put(PutFault::Late));
        }
        hear_wanted(
            &mut self.core,
            &mut self.spare,
            &mut self.run,
            &self.probation,
            wanted,
            number,
            packet,
            now,
        )
    }

    /// The receiver that it hands what it believes: to ask when to call again ([`Receiver::next_moment`]), what a play would give
    /// ([`Receiver::peek`]), and what is missing.
    pub fn core(&self) -> &Receiver<W>
        ensures { result.now ≡ self.now.core }
    {
        &self.core
    }

    /// What it answered so far.
    pub fn counts(&self) -> ReceiveCounts
        ensures { result ≡ self.now.counts }
    {
        self.counts
    }

    /// [`Receiver::play`] of what was believed.
    pub fn play(&mut self, now: u64) -> Played
        ensures plays { PlaysAny self.old.core.config.patience (state_of self.old.core) now result (state_of self.new.core) }
        ensures wait { result ≡ Played.Wait → self.new.core ≡ self.old.core }
        ensures stays { Stays self.old.core self.new.core }
        ensures counts { self.new.counts ≡ count_played result self.old.counts }
        ensures rest { self.new ≡ record self.old { core = self.new.core; counts = self.new.counts } }
    {
        let played = self.core.play(now);
        self.counts.pass(Passed::by(&played));
        played
    }

    /// [`Receiver::pass`] of what [`core`](ReceivingEndpoint::core) lent.
    pub fn pass(&mut self, now: u64)
        ensures passes { self.new.core ≡ receiver_passed (play_of self.old.core.config.patience now self.old.core.span) self.old.core }
        ensures plays { PlaysAny self.old.core.config.patience (state_of self.old.core) now (play_of self.old.core.config.patience now self.old.core.span) (state_of self.new.core) }
        ensures stays { Stays self.old.core self.new.core }
        ensures counts { self.new.counts ≡ count_played (play_of self.old.core.config.patience now self.old.core.span) self.old.counts }
        ensures rest { self.new ≡ record self.old { core = self.new.core; counts = self.new.counts } }
    {
        let patience = self.core.config().patience();
        self.pass_within(patience, now);
    }

    /// [`Receiver::pass_within`] of what [`core`](ReceivingEndpoint::core) lent.
    pub fn pass_within(&mut self, patience: u64, now: u64)
        ensures passes { self.new.core ≡ receiver_passed (play_of patience now self.old.core.span) self.old.core }
        ensures plays { PlaysAny patience (state_of self.old.core) now (play_of patience now self.old.core.span) (state_of self.new.core) }
        ensures stays { Stays self.old.core self.new.core }
        ensures counts { self.new.counts ≡ count_played (play_of patience now self.old.core.span) self.old.counts }
        ensures rest { self.new ≡ record self.old { core = self.new.core; counts = self.new.counts } }
    {
        let passed = Passed::lent(self.core.peek_within(patience, now));
        self.pass_known(passed, patience, now);
    }

    /// [`pass_within`](ReceivingEndpoint::pass_within), for whoever was lent what it passes: that is counted as the caller says.
    pub fn pass_known(&mut self, passed: Passed, patience: u64, now: u64)
        ensures passes { self.new.core ≡ receiver_passed (play_of patience now self.old.core.span) self.old.core }
        ensures plays { PlaysAny patience (state_of self.old.core) now (play_of patience now self.old.core.span) (state_of self.new.core) }
        ensures stays { Stays self.old.core self.new.core }
        ensures counts { self.new.counts ≡ count_passed passed self.old.counts }
        ensures rest { self.new ≡ record self.old { core = self.new.core; counts = self.new.counts } }
    {
        self.counts.pass(passed);
        self.core.pass_within(patience, now);
    }

    /// [`Receiver::ask_most`] of what was believed.
    pub fn ask_most(&mut self, now: u64, most: usize) -> Option<Datagram>
        ensures asks { AsksMost self.old.core.config (state_of self.old.core) now most result (state_of self.new.core) }
        ensures none { IsNone result → self.new.core ≡ self.old.core }
        ensures stays { Stays self.old.core self.new.core }
        ensures counts { CountsAsk result self.old.counts self.new.counts }
        ensures rest { self.new ≡ record self.old { core = self.new.core; counts = self.new.counts } }
    {
        let asked = self.core.ask_most(now, most);
        if let Some(nack) = &asked {
            self.counts.ask(places_in(nack.as_slice()));
        }
        asked
    }

    /// [`Receiver::ask_most_into`] of what was believed.
    ///
    /// `TooShort` (75): the slice is shorter than this NACK; one of 268 octets never is. The slice and the endpoint are then as they were.
    pub fn ask_most_into(
        &mut self,
        out: &mut [u8],
        now: u64,
        most: usize,
    ) -> Result<Option<usize>, TooShort>
        ensures asks { AsksMostInto self.old.core.config (state_of self.old.core) now most out.old result out.new (state_of self.new.core) }
        ensures enough { 268 ≤ length out.old → IsOk result }
        ensures err { OnErr result (self.new.core ≡ self.old.core) }
        ensures none { result ≡ Ok None → self.new.core ≡ self.old.core }
        ensures stays { Stays self.old.core self.new.core }
        ensures counts { CountsAskInto out.new result self.old.counts self.new.counts }
        ensures rest { self.new ≡ record self.old { core = self.new.core; counts = self.new.counts } }
    {
        let asked = self.core.ask_most_into(out, now, most);
        if let Ok(Some(len)) = asked {
            self.counts.ask(places_in(&out[..len]));
        }
        asked
    }

    /// [`Receiver::begin`], before any packet came.
    ///
    /// `HasStarted` (40): a packet was taken already, or it began before. The endpoint is then as it was.
    pub fn begin(&mut self, first: u16) -> Result<(), HasStarted>
        ensures ok { OnOk result (self.new.core ≡ begun self.old.core (65536 + first)) }
        ensures unstarted { IsOk result ↔ (state_of self.old.core ≡ None) }
        ensures err { OnErr result (self.new ≡ self.old) }
        ensures rest { self.new ≡ record self.old { core = self.new.core } }
    {
        self.core.begin(first)
    }

    /// Makes it one that took nothing, with the same memory. The counts go on.
    pub fn restart(&mut self)
        ensures core { self.new.core ≡ restarted self.old.core }
        ensures run { self.new.run ≡ no_run }
        ensures rest { self.new ≡ record self.old { core = self.new.core; run = self.new.run } }
    {
        self.core.restart();
        self.run = Run::NONE;
    }

    /// [`Receiver::forget_source`] of what was believed.
    pub fn forget_source(&mut self)
        ensures core { self.new.core ≡ unlearnt self.old.core }
        ensures rest { self.new ≡ record self.old { core = self.new.core } }
    {
        self.core.forget_source();
    }

    /// [`Receiver::set_times`], for what is held back too.
    ///
    /// `BadLimit` (53): `retry` is 0. The endpoint is then as it was.
    pub fn set_times(&mut self, patience: u64, delay: u64, retry: u64) -> Result<(), ConfigFault>
        ensures core { OnOk result (self.new.core ≡ with_times self.old.core patience delay retry) }
        ensures spare { OnOk result (self.new.spare ≡ with_times self.old.spare patience delay retry) }
        ensures succeeds { IsOk result ↔ (0 < retry) }
        ensures bad_limit { OnErr result (result ≡ Err ConfigFault.BadLimit) }
        ensures err { OnErr result (self.new ≡ self.old) }
        ensures rest { self.new ≡ record self.old { core = self.new.core; spare = self.new.spare } }
    {
        self.core.set_times(patience, delay, retry)?;
        self.spare.set_times(patience, delay, retry)
    }
}

/// Whether a packet would be held back, as so many of them are wanted, and was taken before.
fn is_held_repeat(seen: &SeenPackets, wanted: u16, number: Option<u16>, octets: &[u8]) -> bool
    ensures { result ≡ (nat_lt 0 wanted && is_repeat seen.now number octets.now) }
{
    wanted > 0 && is_repeat(seen, number, octets)
}
