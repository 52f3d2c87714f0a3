//! The relay before a network that loses.
ghost use Rattle.std.specs.Prelude.{◌≡◌, ◌<◌, ◌≤◌, ◌-◌, ◌^◌, ℕ, length, None, IfOk, IfSome, false, true};
ghost use Rattle.rtpwire.specs.declared.limits.TheConstants.{MAX_DATAGRAM};
ghost use Rattle.sender.specs.History.{NoneMarked};
ghost use Rattle.sender.specs.Sender.{new_sending, state_of};
ghost use Rattle.stores.specs.Past.{empty_past};
ghost use Rattle.stores.specs.Asking.{has_come};
ghost use Rattle.endpoint.specs.ResendMetering.{meter_following};
ghost use Rattle.relays.specs.Backlog.{is_beyond, less_by};
ghost use Rattle.relays.specs.Passing.{IsWithin};
ghost use Rattle.relays.specs.SendRelay.{CarriesNothing, Forwards, HearsFar, IsCarried, is_done, is_kept_from, IsOfStream, is_tail_at, LeavesOut, new_send_side, NotCrowded, NothingOpen, once_where, PassesLeast, rule_at, rule_in_time, SpeaksAs};

use crate::backlog::Backlog;
use crate::bounds::Bounds;
use crate::far_latency::FarLatency;
use crate::outside::Side;
use crate::pace::Pace;
use crate::relay::{Departure, Note, Relay, Turn, silent};
use crate::stream::Stream;
use endpoint::{ResendCounts, ResendMeter, ResendRule, SendCounts, TimelyEndpoint};
use rtpwire::{Carried, MAX_DATAGRAM, RtpView, Session};
use sender::SenderConfig;
use std::alloc::Global;
use std::marker::Model;
use std::net::SocketAddr;
use stores::{History, OutOfMemory, sooner};

/// How long a stream is silent before its last packet is retransmitted, in milliseconds.
const SILENT: u64 = 100;

/// It takes the packets of a stream from an application and sends them as the media of a session, and answers the feedback of the
/// far side with the retransmissions that fit the time. A stream that falls silent has its last packet retransmitted once, so that the far side notices
/// what it lacks below it.
#[derive(Drop)]
pub struct SendRelay<H: History> {
    endpoint: TimelyEndpoint<H>,
    config: SenderConfig,
    /// What it measures of the path, by which no packet is retransmitted again while its answer may wait in a queue.
    meter: ResendMeter,
    far: SocketAddr,
    stream: Stream,
    pace: Pace,
    /// How much is marked.
    backlog: Backlog,
    /// Whether the last packet is still to be retransmitted, once the stream falls silent.
    tail: bool,
    /// How old a packet may be that the far side still has use for.
    latency: FarLatency,
    /// Whether a packet may be marked. It is so after whatever may mark one, until none is found.
    is_pending: bool,
    bounds: Bounds,
}

impl<H: History> Model for SendRelay<H> {
    ghost use Rattle.std.specs.Prelude.{◌≡◌, false};
    ghost use Rattle.sender.specs.Sender.{state_of};
    ghost use Rattle.sender.specs.History.{NoneMarked};
    ghost use Rattle.relays.specs.SendRelay.{SendSide};

    ghost Value = { SendSide };

    ghost view = { λ r. record { core = r.endpoint.endpoint.core; counts = r.endpoint.endpoint.counts; rule = r.endpoint.rule; moments = r.endpoint.moments; passed = r.endpoint.passed; meter = r.meter; far = r.far; stream = r.stream; pace = r.pace; backlog = r.backlog; tail = r.tail; latency = r.latency; bounds = r.bounds } };

    ghost invariant = { λ r. (r.config ≡ r.endpoint.endpoint.core.config) × (r.is_pending ≡ false → NoneMarked (state_of r.endpoint.endpoint.core)) };
}

impl<H: History> SendRelay<H> {
    /// A relay to a far side that sent nothing so far, for this stream of the application. It keeps up to `capacity` packets, from 1
    /// to 8192 of them, and retransmits by this rule as it is, at this pace.
    ///
    /// `OutOfMemory`: the allocator refused the memory.
    pub fn new(
        alloc: Global,
        config: SenderConfig,
        rule: ResendRule,
        capacity: usize,
        far: SocketAddr,
        stream: Stream,
        pace: Pace,
        bounds: Bounds,
    ) -> Result<SendRelay<H>, OutOfMemory>
        requires nonzero { 0 < capacity }
        requires limit { capacity ≤ 8192 }
        ensures { IfOk result (λ made. (made ≡ new_send_side (new_sending config (empty_past capacity)) rule made.moments far stream pace bounds) × (length made.moments ≡ capacity)) }
    {
        Ok(SendRelay {
            endpoint: TimelyEndpoint::new(alloc, config, rule, capacity)?,
            config,
            meter: ResendMeter::fixed(),
            far,
            stream,
            pace,
            backlog: Backlog::new(),
            tail: false,
            latency: FarLatency::new(),
            is_pending: true,
            bounds,
        })
    }

    /// It measures the path from now on, and retransmits packets again no sooner than what it measures says, nor than its rule does.
    pub fn follow(&mut self)
        ensures { self.new ≡ record self.old { meter = meter_following } }
    {
        self.meter = ResendMeter::following();
    }

    /// What its endpoint did so far.
    pub fn counts(&self) -> SendCounts
        ensures { result ≡ self.now.counts }
    {
        self.endpoint.endpoint().counts()
    }

    /// The retransmissions that did not fit the time so far.
    pub fn passed(&self) -> ResendCounts
        ensures { result ≡ self.now.passed }
    {
        self.endpoint.passed()
    }

    /// Whether a packet from an address, of this SSRC and payload type, is one of its stream at the moment `now`, or of one that takes its
    /// place.
    pub fn is_of(&self, from: SocketAddr, ssrc: u32, payload_type: u8, now: u64) -> bool
        ensures { IsOfStream self.now from ssrc payload_type now result }
    {
        let of_stream = self.stream.follows(from, ssrc, now);
        payload_type == self.config.session().media_type() && of_stream
    }

    /// Whether its stream is bound to another SSRC.
    pub fn is_kept_from(&self, ssrc: u32) -> bool
        ensures { result ≡ is_kept_from self.now ssrc }
    {
        self.stream.keeps_out(ssrc)
    }

    /// Sends a datagram of the application, if it is a packet of the stream.
    fn forward(&mut self, from: SocketAddr, octets: &[u8], now: u64, out: &mut [u8]) -> Turn
        requires { length out.old ≡ MAX_DATAGRAM }
        ensures forwards { Forwards self.old from octets.now now result.note result.leaves out.new self.new }
        ensures within { IsWithin result }
        ensures room { length out.new ≡ MAX_DATAGRAM }
    {
        let session = self.config.session();
        let Some((ssrc, carried)) = carried(&session, &self.stream, from, octets, now) else {
            return silent(Note::Unsent);
        };
        let Ok(Ok((place, len))) = self.endpoint.send_into(out, &carried, 0, now) else {
            return silent(Note::Unsent);
        };
        self.latency.send(self.stream.last(), now);
        self.stream.follow(from, ssrc, now);
        self.pace.measure(len, now);
        self.backlog.measure(len);
        self.meter.send(now);
        self.tail = true;
        Turn {
            note: Note::Sent(place),
            leaves: Some(Departure {
                side: Side::Far,
                to: self.far,
                len,
            }),
        }
    }

    /// Hears a datagram at the far side's socket, and measures the path by it. What retransmissions may have falls with the media's rate.
    fn hear_far(&mut self, from: SocketAddr, octets: &[u8], now: u64) -> Turn
        ensures hears { HearsFar self.old from octets.now now result.note result.leaves self.new }
        ensures within { IsWithin result }
    {
        if from != self.far {
            return silent(Note::Stray);
        }
        self.meter.hear(&self.endpoint, &self.config, octets, now);
        self.pace.fall(now);
        self.backlog.renew(self.endpoint.endpoint().next_marked());
        self.is_pending = true;
        let answer = self.endpoint.on_datagram(octets);
        self.backlog.hear(&answer);
        self.latency.hear(&answer, octets, now);
        self.backlog.see(self.pace.room(), now);
        silent(Note::Told(answer))
    }

    /// Passes over what is marked beyond what may leave soon, the oldest first, where that stands: it would make all the rest too late, and a receiver
    /// that still waits for it asks again. It answers how many packets those are.
    fn leave_out(&mut self, now: u64) -> u64
        ensures some { 0 < result → LeavesOut self.old now result self.new }
        ensures none { result ≡ 0 → NotCrowded self.old now }
        ensures same { result ≡ 0 → self.new ≡ self.old }
    {
        if !self.is_pending || !self.backlog.has_stood(now) {
            return 0;
        }
        let room = self.pace.room();
        let packets = pass_beyond(&mut self.endpoint, &mut self.backlog, room);
        if packets == 0 && self.backlog.is_beyond(room) {
            self.is_pending = false;
        }
        packets
    }

    /// The rule of retransmissions at the moment `now`. Where little is left of what was saved up it is for packets that were not retransmitted before:
    /// so whoever asks for all of them again and again keeps none of them back.
    fn rule(&self, now: u64) -> ResendRule
        ensures { result ≡ rule_at self.now now }
    {
        let rule = self.meter.rule(self.rule_in_time(now), now);
        once_where(self.pace.is_scarce(now), rule)
    }

    /// Its own rule; and where that has no deadline, the one that is known of the far side.
    fn rule_in_time(&self, now: u64) -> ResendRule
        ensures { result ≡ rule_in_time self.now now }
    {
        let rule = self.endpoint.rule();
        match rule.deadline {
            Some(_) => rule,
            None => ResendRule {
                deadline: self.latency.deadline(now),
                ..rule
            },
        }
    }

    /// Retransmits the least packet that is marked and fits the time, if the pace lets it leave, and passes over what does not fit.
    fn retransmit(&mut self, now: u64, out: &mut [u8]) -> Option<Turn>
        requires { length out.old ≡ MAX_DATAGRAM }
        ensures some { IfSome result (λ turn. NotCrowded self.old now → SpeaksAs self.old now turn.note turn.leaves out.new self.new) }
        ensures none { result ≡ None → NothingOpen self.old now }
        ensures same { result ≡ None → self.new ≡ self.old }
        ensures within { IfSome result IsWithin }
        ensures room { length out.new ≡ MAX_DATAGRAM }
    {
        if !self.is_pending {
            return None;
        }
        let Some(_) = self.endpoint.endpoint().next_marked() else {
            self.is_pending = false;
            return None;
        };
        if !self.pace.is_open(now) {
            return None;
        }
        let (rule, before) = (self.rule(now), self.endpoint.passed());
        match self.endpoint.retransmit_by(rule, out, now) {
            Ok(Some((place, len))) => {
                self.backlog.retransmit(&before, &self.endpoint.passed());
                self.pace.spend(len, now);
                self.meter.resend(now);
                Some(Turn {
                    note: Note::Retransmitted(place),
                    leaves: Some(Departure {
                        side: Side::Far,
                        to: self.far,
                        len,
                    }),
                })
            }
            Ok(None) => {
                self.backlog.clear();
                Some(Turn {
                    note: Note::PassedOver(self.endpoint.passed()),
                    leaves: None,
                })
            }
            Err(_) => None,
        }
    }

    /// Whether the last packet is to be retransmitted at the moment `now`.
    fn is_tail_at(&self, now: u64) -> bool
        ensures { result ≡ is_tail_at self.now now }
    {
        match self.stream.last() {
            Some(last) => self.tail && now.saturating_sub(last) >= SILENT,
            None => false,
        }
    }

    /// From when on the last packet is to be retransmitted.
    fn tail_moment(&self) -> Option<u64>
        ensures { (now : ℕ) → now < 2 ^ 64 → has_come result now ≡ false → is_tail_at self.now now ≡ false }
    {
        match self.stream.last() {
            Some(last) if self.tail => Some(last.saturating_add(SILENT)),
            _ => None,
        }
    }

    /// From when on a packet that is marked may leave, if one may be.
    fn marked_moment(&self) -> Option<u64>
        ensures { (now : ℕ) → now < 2 ^ 64 → has_come result now ≡ false → NothingOpen self.now now }
    {
        if self.is_pending {
            self.pace.opens()
        } else {
            None
        }
    }

    /// From when on more is marked than may leave soon.
    fn crowded_moment(&self) -> Option<u64>
        ensures { (now : ℕ) → now < 2 ^ 64 → has_come result now ≡ false → NotCrowded self.now now }
    {
        if self.is_pending && self.backlog.is_beyond(self.pace.room()) {
            self.backlog.stands_from()
        } else {
            None
        }
    }

    /// The moment at which it ends by its bounds.
    fn end(&self) -> Option<u64>
        ensures { (now : ℕ) → has_come result now ≡ is_done self.now now }
    {
        self.bounds.end(self.counts().sent, self.stream.last())
    }
}

/// Passes over the least marked packets as long as more is marked than has so much room. It answers how many those are.
fn pass_beyond<H: History>(
    endpoint: &mut TimelyEndpoint<H>,
    backlog: &mut Backlog,
    room: u64,
) -> u64
    ensures passes { PassesLeast result (state_of endpoint.old.endpoint.core) (state_of endpoint.new.endpoint.core) }
    ensures needed { 0 < result → is_beyond (less_by (result - 1) backlog.old) room ≡ true }
    ensures enough { is_beyond backlog.new room ≡ true → NoneMarked (state_of endpoint.new.endpoint.core) }
    ensures backlog { backlog.new ≡ less_by result backlog.old }
    ensures config { endpoint.new.endpoint.core.config ≡ endpoint.old.endpoint.core.config }
    ensures capacity { endpoint.new.endpoint.core.past.capacity ≡ endpoint.old.endpoint.core.past.capacity }
    ensures counts { endpoint.new.endpoint.counts ≡ endpoint.old.endpoint.counts }
    ensures moments { endpoint.new.moments ≡ endpoint.old.moments }
    ensures rule { endpoint.new.rule ≡ endpoint.old.rule }
    ensures passed { endpoint.new.passed ≡ endpoint.old.passed }
    ensures none { result ≡ 0 → endpoint.new ≡ endpoint.old }
{
    let mut count = 0;
    while backlog.is_beyond(room) {
        let Some(_) = endpoint.pass_repair() else {
            return count;
        };
        backlog.pass(1);
        count += 1;
    }
    count
}

/// A rule, or the one by which nothing goes a second time.
fn once_where(is_scarce: bool, rule: ResendRule) -> ResendRule
    ensures { result ≡ once_where is_scarce rule }
{
    if is_scarce {
        ResendRule {
            min_resend: u64::MAX,
            ..rule
        }
    } else {
        rule
    }
}

/// The SSRC and what is carried of a datagram of the application, if it is a packet of the stream.
fn carried<'a>(
    session: &Session,
    stream: &Stream,
    from: SocketAddr,
    octets: &'a [u8],
    now: u64,
) -> Option<(u32, Carried<'a>)>
    ensures some { IfSome result (λ c. IsCarried session.now stream.now from octets.now now c.0 c.1) }
    ensures none { result ≡ None → CarriesNothing session.now stream.now from octets.now now }
{
    let Ok(view) = RtpView::read(octets) else {
        return None;
    };
    let ssrc = view.ssrc();
    if view.payload_type() != session.media_type() {
        return None;
    }
    if !stream.follows(from, ssrc, now) {
        return None;
    }
    match Carried::with_payload(&view, view.payload()) {
        Ok(carried) => Some((ssrc, carried)),
        Err(_) => None,
    }
}

impl<H: History> Relay for SendRelay<H> {
    ghost use Rattle.relays.specs.SendRelay.{Hears, Speaks, is_done};

    ghost hears = { λ old side from octets now turn out new. Hears old side from octets now turn out new };

    ghost speaks = { λ old now turn out new. Speaks old now turn out new };

    ghost done = { λ relay now. is_done relay now };

    fn hear(
        &mut self,
        side: Side,
        from: SocketAddr,
        octets: &[u8],
        now: u64,
        out: &mut [u8],
    ) -> Turn {
        match side {
            Side::Near => self.forward(from, octets, now, out),
            Side::Far => self.hear_far(from, octets, now),
        }
    }

    fn speak(&mut self, now: u64, out: &mut [u8]) -> Option<Turn> {
        let left_out = self.leave_out(now);
        if left_out > 0 {
            return Some(silent(Note::Crowded(left_out)));
        }
        if let Some(turn) = self.retransmit(now, out) {
            return Some(turn);
        }
        if !self.is_tail_at(now) {
            return None;
        }
        self.tail = false;
        self.is_pending = true;
        let marked = self.endpoint.mark_last();
        self.backlog.mark(marked.places);
        Some(silent(Note::Marked(marked)))
    }

    fn next_moment(&self) -> Option<u64> {
        let marked = sooner(self.crowded_moment(), self.marked_moment());
        let own = sooner(self.tail_moment(), marked);
        sooner(own, self.end())
    }

    fn is_done(&self, now: u64) -> bool {
        match self.end() {
            Some(end) => now >= end,
            None => false,
        }
    }
}
