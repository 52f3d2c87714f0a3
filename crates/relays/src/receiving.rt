//! The relay behind a network that loses.
ghost use Rattle.std.specs.Prelude.{◌≡◌, ◌↔◌, ◌+◌, ◌^◌, ◌≤◌, ◌<◌, ℕ, List, false, length, None, Some, IfSome, IfOk, IsOk, OnErr, OnOk, take, true};
ghost use Rattle.receiver.specs.declared.answer.Played.TheVariants.{Gap, Packet, Wait};
ghost use Rattle.receiver.specs.Peeking.{play_of};
ghost use Rattle.rtpwire.specs.declared.content.Content.{Content};
ghost use Rattle.relays.specs.declared.relay.Note.TheVariants as note;
ghost use Rattle.rtpwire.specs.declared.limits.TheConstants.{MAX_DATAGRAM};
ghost use Rattle.rtpwire.specs.Rtp.{RtpSpells};
ghost use Rattle.rtpwire.specs.Content.{packet_of};
ghost use Rattle.receiver.specs.Receiver.{begun, state_of};
ghost use Rattle.endpoint.specs.ReceiveCounts.{passed_by};
ghost use Rattle.stores.specs.Asking.{has_come};
ghost use Rattle.timing.specs.FeedbackBudget.{nothing_earned};
ghost use Rattle.timing.specs.NackRoom.{budget_anew};
ghost use Rattle.relays.specs.LatencyReports.{reports_begun};
ghost use Rattle.relays.specs.Passing.{IsWithin};
ghost use Rattle.relays.specs.ReceiveRelay.{GoesOn, HearsElsewhere, HearsFar, HearsFrom, MayShow, Moves, is_done, led, moved, new_receive_side, next_play, NothingAsked, numbering_after, passes, patience_left, PlaysOut, SpeaksAs};

mod asking;

use crate::bounds::Bounds;
use crate::dropout::{dropout, probation};
use crate::far_side::FarSide;
use crate::holding::{asking_time, hear_clock, release, wait};
use crate::latency_reports::LatencyReports;
use crate::moving::next_of;
use crate::numbering::Numbering;
use crate::outside::Side;
use crate::relay::{Departure, Note, Relay, Turn, silent};
use crate::writing::write;
use endpoint::{
    AskingEndpoint, Heard, Kind, KindCounts, Passed, PathMeter, ReceiveCounts, Standing,
    media_number,
};
use places::Place;
use receiver::{HasStarted, Peeked, ReceiveFault, Receiver, ReceiverConfig};
use rtpwire::{Datagram, Session};
use std::alloc::Global;
use std::marker::Model;
use std::net::SocketAddr;
use stores::{OutOfMemory, SlotRef, Window, sooner};
use timing::{FeedbackBudget, Playout, earn_feedback, renew_feedback};

/// It takes a session from a network, asks the far side for what is lost, and hands what is played to a player as RTP of one SSRC,
/// whose sequence numbers have holes only where places were given up or overrun, or a jump of the stream passed over them. How long it
/// waits before it asks, and asks again, follows what it measures of the path. Each NACK leaves twice.
#[derive(Drop)]
pub struct ReceiveRelay<W: Window> {
    endpoint: AskingEndpoint<W>,
    /// Where the far side is, and what shows it at another address.
    far: FarSide,
    /// By how much less a number may lie ahead that shows the far side at another address.
    reach: u16,
    player: SocketAddr,
    numbering: Numbering,
    /// The clock by which packets are held for the player, if they are.
    hold: Option<Playout>,
    /// What it measures of the path, for the times of its asks to follow.
    meter: PathMeter,
    /// The moment of the last play.
    last: Option<u64>,
    /// The NACK that left last, where it is still to leave a second time.
    copy: Option<Datagram>,
    /// What may leave for the far side, where that is earned by what comes from there.
    budget: Option<FeedbackBudget>,
    /// When it told the far side the latency, if it does.
    reports: Option<LatencyReports>,
    bounds: Bounds,
}

impl<W: Window> Model for ReceiveRelay<W> {
    ghost use Rattle.relays.specs.ReceiveRelay.{ReceiveSide};

    ghost Value = { ReceiveSide };

    ghost view = { λ r. record { core = r.endpoint.endpoint.core; spare = r.endpoint.endpoint.spare; run = r.endpoint.endpoint.run; probation = r.endpoint.endpoint.probation; counts = r.endpoint.endpoint.counts; asked = r.endpoint.asked; kinds = r.endpoint.kinds; doubted = r.endpoint.doubted; seen = r.endpoint.endpoint.seen; far = r.far; reach = r.reach; player = r.player; numbering = r.numbering; hold = r.hold; meter = r.meter; last = r.last; copy = r.copy; budget = r.budget; reports = r.reports; bounds = r.bounds } };
}

impl<W: Window> ReceiveRelay<W> {
    /// A relay from a far side to a player that took nothing so far. Its windows keep up to `capacity` places each, from 1 to 8192
    /// of them. The player's sequence numbers go on from `numbering`. By a clock to `hold` packets they leave for the player as long
    /// after they were sent as the patience is, and without one as soon as all before them did.
    ///
    /// `OutOfMemory`: the allocator refused the memory.
    pub fn new(
        alloc: Global,
        config: ReceiverConfig,
        capacity: usize,
        far: SocketAddr,
        player: SocketAddr,
        numbering: Numbering,
        hold: Option<Playout>,
        bounds: Bounds,
    ) -> Result<ReceiveRelay<W>, OutOfMemory>
        requires nonzero { 0 < capacity }
        requires limit { capacity ≤ 8192 }
        ensures { IfOk result (λ made. made ≡ new_receive_side config capacity far player numbering hold bounds) }
    {
        Ok(ReceiveRelay {
            endpoint: AskingEndpoint::new(alloc, config, probation(capacity), capacity)?,
            far: FarSide::new(far),
            reach: dropout(capacity),
            player,
            numbering,
            hold,
            meter: PathMeter::new(),
            last: None,
            copy: None,
            budget: None,
            reports: None,
            bounds,
        })
    }

    /// What leaves for the far side is earned by what comes from there, from now on: so nobody can have it ask an address that sends nothing.
    pub fn earn_feedback(&mut self)
        ensures { self.new ≡ record self.old { budget = Some nothing_earned } }
    {
        self.budget = Some(FeedbackBudget::new());
    }

    /// The far side is told the latency from now on, behind NACKs: so it retransmits nothing that comes too late.
    pub fn report_latency(&mut self)
        ensures { self.new ≡ record self.old { reports = Some reports_begun } }
    {
        self.reports = Some(LatencyReports::new());
    }

    /// What its endpoint answered so far.
    pub fn counts(&self) -> ReceiveCounts
        ensures { result ≡ self.now.counts }
    {
        self.endpoint.endpoint().counts()
    }

    /// Of which kind that was.
    pub fn kinds(&self) -> KindCounts
        ensures { result ≡ self.now.kinds }
    {
        self.endpoint.kinds()
    }

    /// The receiver that has what it believes.
    fn core(&self) -> &Receiver<W>
        ensures { result.now ≡ self.now.core }
    {
        self.endpoint.endpoint().core()
    }

    /// The sequence numbers of what is played, for a relay that comes after this one.
    pub fn numbering(&self) -> Numbering
        ensures { result ≡ self.now.numbering }
    {
        self.numbering
    }

    /// The moment at which it ends by its bounds.
    fn end(&self) -> Option<u64>
        ensures { (now : ℕ) → has_come result now ≡ is_done self.now now }
    {
        let counts = self.counts();
        self.bounds
            .end(counts.played.saturating_add(counts.gaps), self.last)
    }

    /// How long the next place to play is waited for since it was noticed to be missing.
    fn patience_left(&self) -> u64
        ensures { result ≡ patience_left self.now }
    {
        let core = self.core();
        let latency = core.config().patience();
        self.meter
            .patience_left(core)
            .min(wait(&self.hold, latency, core.window()))
    }

    /// The same where the next place is missing, and else nothing, as what has come is not waited for.
    fn patience_here(&self) -> u64
        ensures { (now : ℕ) → play_of result now self.now.core.span ≡ play_of (patience_left self.now) now self.now.core.span }
    {
        match self.core().window().front() {
            Some(SlotRef::Missing { .. }) => self.patience_left(),
            _ => 0,
        }
    }

    /// From when on something is to be played: the next place is given up then if it is missing, and leaves if it is held.
    fn front_moment(&self) -> Option<u64>
        ensures { (now : ℕ) → now < 2 ^ 64 → has_come result now ≡ false → next_play self.now now ≡ Wait }
    {
        let core = self.core();
        match core.window().front()? {
            SlotRef::Held(content) => Some(release(
                &self.hold,
                content.timestamp,
                core.config().patience(),
            )),
            SlotRef::Missing { noticed, .. } => {
                Some(noticed.saturating_add(self.patience_left()))
            }
        }
    }

    /// From when on something is to be played or asked for.
    fn own_moment(&self) -> Option<u64>
        ensures plays { (now : ℕ) → now < 2 ^ 64 → has_come result now ≡ false → next_play self.now now ≡ Wait }
        ensures asks { (now : ℕ) → now < 2 ^ 64 → has_come result now ≡ false → NothingAsked self.now now }
    {
        sooner(self.front_moment(), self.ask_moment())
    }

    /// Has the stream begin with this sequence number: so what is lost before the first packet that comes is asked for too.
    ///
    /// `HasStarted` (40): a packet was taken already, or it began before. The relay is then as it was.
    pub fn begin(&mut self, first: u16) -> Result<(), HasStarted>
        ensures ok { OnOk result (self.new ≡ record self.old { core = begun self.old.core (65536 + first) }) }
        ensures unstarted { IsOk result ↔ (state_of self.old.core ≡ None) }
        ensures err { OnErr result (self.new ≡ self.old) }
    {
        self.endpoint.begin(first)
    }

    /// The address of the far side.
    pub fn far(&self) -> SocketAddr
        ensures { result ≡ self.now.far.at }
    {
        self.far.at()
    }

    /// The session that it takes.
    pub fn session(&self) -> Session
        ensures { result ≡ self.now.core.config.session }
    {
        self.core().config().session()
    }

    /// Hears a datagram at the far side's socket.
    fn hear_far(&mut self, from: SocketAddr, octets: &[u8], now: u64) -> Turn
        ensures hears { HearsFar self.old from octets.now now result.note result.leaves self.new }
        ensures within { IsWithin result }
    {
        if from == self.far.at() {
            let (answer, kind) = self.hear_session(from, octets, now);
            return silent(Note::Heard(answer, kind));
        }
        self.hear_elsewhere(from, octets, now)
    }

    /// Hears a datagram from another address than the far side's.
    fn hear_elsewhere(&mut self, from: SocketAddr, octets: &[u8], now: u64) -> Turn
        ensures hears { HearsElsewhere self.old from octets.now now result.note result.leaves self.new }
        ensures within { IsWithin result }
    {
        if !self.moves(from, octets, now) {
            return silent(Note::Stray);
        }
        self.move_away();
        let (answer, kind) = self.hear_session(from, octets, now);
        Turn {
            note: Note::Moved(from, answer, kind),
            leaves: None,
        }
    }

    /// Whether a datagram from another address than the far side's shows, with those that came from there before, that it is there now.
    fn moves(&mut self, from: SocketAddr, octets: &[u8], now: u64) -> bool
        ensures moves { Moves self.old from octets.now now result self.new.far }
        ensures rest { self.new ≡ record self.old { far = self.new.far } }
    {
        match self.next_number(octets) {
            Some(number) => self.far.show(from, number, now),
            None => false,
        }
    }

    /// The far side is at another address.
    fn move_away(&mut self)
        ensures { self.new ≡ moved self.old self.old.far }
    {
        self.far.leave();
        self.ask_anew();
    }

    /// What was asked for is asked for no second time, and nothing was earned yet.
    fn ask_anew(&mut self)
        ensures { self.new ≡ record self.old { copy = None; budget = budget_anew self.old.budget } }
    {
        self.copy = None;
        renew_feedback(&mut self.budget);
    }

    /// From now on the far side is at this address, as whoever carries its datagrams knows by other means than by what came from there.
    pub fn lead(&mut self, far: SocketAddr)
        ensures { self.new ≡ led self.old far }
    {
        self.far = FarSide::new(far);
        self.ask_anew();
    }

    /// Hears a datagram of the far side, which is at this address, and measures the path by it.
    fn hear_session(
        &mut self,
        from: SocketAddr,
        octets: &[u8],
        now: u64,
    ) -> (Result<Heard, ReceiveFault>, Kind)
        ensures { HearsFrom self.old from octets.now now result.0 result.1 self.new }
    {
        let standing = Standing::before(self.core(), octets);
        self.far.hear(from, now);
        earn_feedback(&mut self.budget, octets.len());
        let (answer, kind) = self.endpoint.on_datagram(octets, now);
        renumber(&mut self.numbering, &answer);
        hear_clock(&mut self.hold, &answer, octets, now);
        self.meter.hear(&answer, &standing, now);
        (answer, kind)
    }

    /// Whether a datagram may show the far side at another address than its own: it goes on with the session, and nothing comes from there.
    pub fn may_show(&self, octets: &[u8], now: u64) -> bool
        ensures { MayShow self.now octets.now now result }
    {
        self.far.is_quiet(now) && self.next_number(octets).is_some()
    }

    /// The number of a datagram that goes on with the session: of a media packet of it, and one of the next.
    fn next_number(&self, octets: &[u8]) -> Option<u16>
        ensures { GoesOn self.now octets.now result }
    {
        let core = self.core();
        let number = media_number(&core.config().session(), octets);
        next_of(core.window().highest(), number, self.reach)
    }

    /// Has the times follow what was measured.
    fn set_times(&mut self, now: u64) -> Turn
        requires { self.old.meter.is_new ≡ true }
        ensures sets { (out : List ℕ) → SpeaksAs self.old now result.note result.leaves out self.new }
        ensures within { IsWithin result }
    {
        let late = self.meter.path().reordering.greatest(now);
        let within = asking_time(&self.hold, self.core().config().patience(), late);
        self.meter.follow(&mut self.endpoint, within, now);
        silent(Note::Timed(self.meter.path().trip.time()))
    }

    /// Plays, and writes what goes to the player; or gives the next place up, if it is missing and its packet was sent too long ago.
    fn play(&mut self, now: u64, out: &mut [u8]) -> Option<Turn>
        requires { length out.old ≡ MAX_DATAGRAM }
        ensures some { IfSome result (λ turn. PlaysOut (next_play self.old now) self.old now turn.note turn.leaves out.new self.new) }
        ensures none { result ≡ None → next_play self.old now ≡ Wait }
        ensures same { result ≡ None → self.new ≡ self.old }
        ensures within { IfSome result IsWithin }
        ensures room { length out.new ≡ MAX_DATAGRAM }
    {
        let left = self.patience_here();
        match self.endpoint.endpoint().core().peek_within(left, now) {
            Peeked::Wait => None,
            Peeked::Gap(place) => {
                self.pass(Passed::Gap(place), left, now);
                self.meter.give_up(place, now);
                Some(silent(Note::Gap(place)))
            }
            Peeked::Packet(place, content) => {
                let config = self.endpoint.endpoint().core().config();
                let patience = config.patience();
                if now < release(&self.hold, content.timestamp, patience) {
                    return None;
                }
                let session = config.session();
                let len = write(
                    content,
                    self.numbering.number(place),
                    &session,
                    self.numbering.ssrc(),
                    out,
                );
                self.pass(Passed::Packet(place), left, now);
                self.meter.pass(place);
                self.numbering.play(place);
                Some(Turn {
                    note: Note::Played(place),
                    leaves: Some(Departure {
                        side: Side::Near,
                        to: self.player,
                        len,
                    }),
                })
            }
        }
    }

    /// Passes what a play with this patience does.
    fn pass(&mut self, passed: Passed, patience: u64, now: u64)
        requires { passed ≡ passed_by (play_of patience now self.old.core.span) }
        ensures { self.new ≡ passes self.old (play_of patience now self.old.core.span) now }
    {
        self.endpoint.pass_known(passed, patience, now);
        self.last = Some(now);
    }
}

/// Where a stream restarts with other numbers, those of what is played go on. What a jump ahead passed over is a hole.
fn renumber(numbering: &mut Numbering, answer: &Result<Heard, ReceiveFault>)
    ensures { numbering.new ≡ numbering_after answer.now numbering.old }
{
    if let Ok(Heard::Restarted(restart)) = answer {
        if restart.skipped == 0 {
            numbering.restart();
        }
    }
}

impl<W: Window> Relay for ReceiveRelay<W> {
    ghost use Rattle.relays.specs.ReceiveRelay.{Hears, Speaks, is_done};

    ghost hears = { λ old side from octets now turn out new. Hears old side from octets now turn out new };

    ghost speaks = { λ old now turn out new. Speaks old now turn out new };

    ghost done = { λ relay now. is_done relay now };

    fn hear(
        &mut self,
        side: Side,
        from: SocketAddr,
        octets: &[u8],
        now: u64,
        _out: &mut [u8],
    ) -> Turn {
        match side {
            Side::Near => silent(Note::Stray),
            Side::Far => self.hear_far(from, octets, now),
        }
    }

    fn speak(&mut self, now: u64, out: &mut [u8]) -> Option<Turn> {
        if self.meter.is_new() {
            return Some(self.set_times(now));
        }
        if let Some(turn) = self.play(now, out) {
            return Some(turn);
        }
        if let Some(turn) = self.ask_again(out) {
            return Some(turn);
        }
        self.ask(now, out)
    }

    fn next_moment(&self) -> Option<u64> {
        if self.meter.is_new() || self.copy.is_some() {
            return Some(0);
        }
        sooner(self.own_moment(), self.end())
    }

    fn is_done(&self, now: u64) -> bool {
        match self.end() {
            Some(end) => now >= end,
            None => false,
        }
    }
}
