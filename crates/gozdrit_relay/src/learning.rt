//! How a session is learnt from its first packet.
ghost use Rattle.std.specs.Prelude.{◌≡◌, ◌<◌, false, Some, IfSome};
ghost use Rattle.relays.specs.declared.outside.Side.TheVariants.{Near, Far};
ghost use Rattle.rtpwire.specs.Rtp.{RtpPacket, RtpSpells};
ghost use Rattle.endpoint.specs.Demultiplex.{is_control};
ghost use Rattle.relays.specs.Following.{new_stream};
ghost use Rattle.gozdrit_relay.specs.Learning.{BeginsAs, IsBelieved, IsOfReceiver, ReceiveBegins, ReceiveBeginsOf, SendBegins, SendBeginsOf, bounds_left, config_for, first_retry, followed_if, held_by, IsOfSender, is_bound, numbering_for, played_before, sent_before};

use crate::learners::{ReceiveLearner, SendLearner};
use crate::machine::{Beginning, Learner, Learnt};
use endpoint::is_control;
use receiver::ReceiverConfig;
use relays::{Bounds, Note, Numbering, Pace, ReceiveRelay, SendRelay, Side, Stream};
use rtpwire::{RtpView, Session};
use sender::SenderConfig;
use std::net::SocketAddr;
use stores::{History, OutOfMemory, Window};
use timing::Playout;

/// How often a packet is retransmitted, and a place asked for, at most: as often as can be, since the patience and the pace bound both.
/// With a long latency and a short round trip 32 times were over long before the patience was.
const MOST: u8 = 255;

/// How long a retransmission is waited for at least and at most until the round-trip time is known, in milliseconds.
const LEAST_RETRY: u64 = 20;

const RETRY: u64 = 250;

/// How late a packet may be before it is asked for, until then, in milliseconds.
const LATE: u64 = 20;

/// The RTP packet of a datagram, if it is one.
fn packet_in(octets: &[u8]) -> Option<RtpView<'_>>
    ensures some { IfSome result (λ packet. (is_control octets.now ≡ false) × RtpSpells packet octets.now) }
    ensures only { (packet : RtpPacket) → is_control octets.now ≡ false → RtpSpells packet octets.now → result ≡ Some packet }
{
    if is_control(octets) {
        return None;
    }
    match RtpView::read(octets) {
        Ok(view) => Some(view),
        Err(_) => None,
    }
}

/// What bounds leave for a session after others that had so many packets.
fn bounds_left(bounds: Bounds, passed: u64) -> Bounds
    ensures { result ≡ bounds_left bounds passed }
{
    Bounds {
        packets: match bounds.packets {
            Some(most) => Some(most.saturating_sub(passed)),
            None => None,
        },
        until: bounds.until,
    }
}

/// Whether a packet from an address is of the session that a relay has, or one that its stream keeps out.
fn is_of_sender<H: History>(
    before: &Option<SendRelay<H>>,
    from: SocketAddr,
    view: &RtpView<'_>,
    now: u64,
) -> bool
    ensures { IsOfSender before.now from view.now now result }
{
    match before {
        Some(relay) => {
            let is_of = relay.is_of(from, view.ssrc(), view.payload_type(), now);
            is_of | relay.is_kept_from(view.ssrc())
        }
        None => false,
    }
}

/// The stream of an application under this SSRC, which is bound to it where an option gives it.
fn stream_of(given: Option<u32>, ssrc: u32) -> Stream
    ensures { result ≡ new_stream ssrc (is_bound given ssrc) }
{
    match given {
        Some(wanted) if wanted == ssrc => Stream::bound(ssrc),
        _ => Stream::new(ssrc),
    }
}

/// How many packets sessions sent, with that of this relay.
fn sent_before<H: History>(before: &Option<SendRelay<H>>, passed: u64) -> u64
    ensures { result ≡ sent_before before.now passed }
{
    match before {
        Some(relay) => passed.saturating_add(relay.counts().sent),
        None => passed,
    }
}

impl SendLearner {
    /// Which session a datagram from an address may begin beside that of a relay.
    fn heard<H: History>(
        &self,
        from: SocketAddr,
        octets: &[u8],
        before: &Option<SendRelay<H>>,
        now: u64,
    ) -> Option<Beginning>
        ensures { SendBegins self.now Near from octets.now before.now now result }
    {
        match packet_in(octets) {
            Some(view) => self.of_packet(&view, from, before, now),
            None => None,
        }
    }

    /// Which one a packet may begin.
    fn of_packet<H: History>(
        &self,
        view: &RtpView<'_>,
        from: SocketAddr,
        before: &Option<SendRelay<H>>,
        now: u64,
    ) -> Option<Beginning>
        ensures { SendBeginsOf self.now from before.now now view.now result }
    {
        if is_of_sender(before, from, view, now) {
            return None;
        }
        let ssrc = self.known.ssrc.unwrap_or(view.ssrc());
        self.known.beginning(view, ssrc)
    }
}

/// Has a relay follow the path, if it is to.
fn follow<H: History>(relay: &mut SendRelay<H>, follows: bool)
    ensures { relay.new ≡ followed_if follows relay.old }
{
    if follows {
        relay.follow();
    }
}

impl<H: History> Learner<SendRelay<H>> for SendLearner {
    ghost use Rattle.relays.specs.declared.outside.Side.TheVariants.{Near};
    ghost use Rattle.std.specs.Prelude.{◌≡◌};
    ghost use Rattle.gozdrit_relay.specs.Learning.{SendBegins, SendMakes};

    ghost listens = { λ learner. Near };

    ghost begins = { λ learner side from octets before now beginning. SendBegins learner side from octets before now beginning };

    ghost makes = { λ learner beginning from before relay note new. SendMakes learner beginning before relay note new };

    ghost leads = { λ relay far led. led ≡ relay };

    fn side(&self) -> Side {
        Side::Near
    }

    fn beginning(
        &self,
        side: Side,
        from: SocketAddr,
        octets: &[u8],
        before: &Option<SendRelay<H>>,
        now: u64,
    ) -> Option<Beginning> {
        match side {
            Side::Near => self.heard(from, octets, before, now),
            Side::Far => None,
        }
    }

    fn make(
        &mut self,
        beginning: &Beginning,
        _from: SocketAddr,
        before: &Option<SendRelay<H>>,
    ) -> Result<Learnt<SendRelay<H>>, OutOfMemory> {
        let first = self.first.unwrap_or(beginning.number);
        let config = SenderConfig::new(beginning.session, first, self.rtx_first, MOST).unwrap();
        let passed = sent_before(before, self.passed);
        let mut relay = SendRelay::new(
            self.alloc,
            config.with_any_reporter(),
            self.rule,
            self.history,
            self.far,
            stream_of(self.known.ssrc, beginning.ssrc),
            Pace::new(self.rate),
            bounds_left(self.bounds, passed),
        )?;
        follow(&mut relay, self.follows);
        self.passed = passed;
        self.known = self.known.renewed(self.renews);
        Ok(Learnt {
            relay,
            note: Note::Began(beginning.session, first, self.far),
        })
    }

    fn lead(_relay: &mut SendRelay<H>, _far: SocketAddr) {}
}

impl ReceiveLearner {
    /// Which session a datagram from an address may begin beside that of a relay.
    fn heard<W: Window>(
        &self,
        from: SocketAddr,
        octets: &[u8],
        before: &Option<ReceiveRelay<W>>,
        now: u64,
    ) -> Option<Beginning>
        ensures { ReceiveBegins self.now Far from octets.now before.now now result }
    {
        match packet_in(octets) {
            Some(view) => self.of_packet(&view, from, octets, before, now),
            None => None,
        }
    }

    /// Which one a packet may begin that these octets are.
    fn of_packet<W: Window>(
        &self,
        view: &RtpView<'_>,
        from: SocketAddr,
        octets: &[u8],
        before: &Option<ReceiveRelay<W>>,
        now: u64,
    ) -> Option<Beginning>
        ensures { ReceiveBeginsOf self.now from octets.now before.now now view.now result }
    {
        let is_of = is_believed(before, view, from, octets, now);
        self.beside(is_of, view)
    }

    /// Which one a packet may begin that is of the session there is, or is not.
    fn beside(&self, is_of: bool, view: &RtpView<'_>) -> Option<Beginning>
        ensures { BeginsAs is_of self.now.known view.now result }
    {
        let ssrc = view.ssrc();
        let is_wanted = self.known.ssrc.unwrap_or(ssrc) == ssrc;
        if is_of || !is_wanted {
            return None;
        }
        self.known.beginning(view, ssrc)
    }

    /// How the receiver of a session works.
    fn config(&self, session: Session) -> ReceiverConfig
        ensures { result ≡ config_for self.now session }
    {
        let retry = first_retry(self.latency);
        let made = match self.known.rtx_ssrc {
            Some(_) => ReceiverConfig::new(session, self.latency, retry, MOST),
            None => ReceiverConfig::learning(session, self.latency, retry, MOST),
        };
        made.unwrap().with_delay(LATE)
    }
}

/// How long a retransmission is waited for until the round-trip time is known, in milliseconds: four asks fit into a latency of a second and
/// less, so that the loss of one of them, or of its answer, costs no packet.
fn first_retry(latency: u64) -> u64
    ensures value { result ≡ first_retry latency }
    ensures some_time { 0 < result }
{
    (latency / 4).max(LEAST_RETRY).min(RETRY)
}

/// Whether a packet from an address is one of the session that a relay has, by what it says and where it comes from.
fn is_of_receiver<W: Window>(relay: &ReceiveRelay<W>, view: &RtpView<'_>, from: SocketAddr) -> bool
    ensures { IsOfReceiver relay.now view.now from result }
{
    let session = relay.session();
    let is_far = from == relay.far();
    is_far && (view.ssrc() == session.media_ssrc() || view.payload_type() == session.repair_type())
}

/// Whether a packet is of the session that a relay has, or may show its far side at another address.
fn is_believed<W: Window>(
    before: &Option<ReceiveRelay<W>>,
    view: &RtpView<'_>,
    from: SocketAddr,
    octets: &[u8],
    now: u64,
) -> bool
    ensures { IsBelieved before.now view.now from octets.now now result }
{
    match before {
        Some(relay) => {
            let is_of = is_of_receiver(relay, view, from);
            let shows = relay.may_show(octets, now);
            is_of | shows
        }
        None => false,
    }
}

/// How many packets sessions played or gave up, with that of this relay.
fn played_before<W: Window>(before: &Option<ReceiveRelay<W>>, passed: u64) -> u64
    ensures { result ≡ played_before before.now passed }
{
    match before {
        Some(relay) => {
            let counts = relay.counts();
            passed
                .saturating_add(counts.played)
                .saturating_add(counts.gaps)
        }
        None => passed,
    }
}

/// The numbers that a player sees of a session under this SSRC: they go on from those of the one before.
fn numbering_for<W: Window>(before: &Option<ReceiveRelay<W>>, ssrc: u32) -> Numbering
    ensures { result ≡ numbering_for before.now ssrc }
{
    match before {
        Some(relay) => {
            let mut numbering = relay.numbering();
            numbering.restart();
            numbering
        }
        None => Numbering::new(ssrc),
    }
}

/// The clock by which packets are held, at this rate.
fn held_by(rate: Option<u32>) -> Option<Playout>
    ensures { result ≡ held_by rate }
{
    match rate {
        Some(rate) => Some(Playout::new(rate)),
        None => None,
    }
}

impl<W: Window> Learner<ReceiveRelay<W>> for ReceiveLearner {
    ghost use Rattle.relays.specs.declared.outside.Side.TheVariants.{Far};
    ghost use Rattle.std.specs.Prelude.{◌≡◌};
    ghost use Rattle.relays.specs.ReceiveRelay.{led};
    ghost use Rattle.gozdrit_relay.specs.Learning.{ReceiveBegins, ReceiveMakes};

    ghost listens = { λ learner. Far };

    ghost begins = { λ learner side from octets before now beginning. ReceiveBegins learner side from octets before now beginning };

    ghost makes = { λ learner beginning from before relay note new. ReceiveMakes learner beginning from before relay note new };

    ghost leads = { λ relay far after. after ≡ led relay far };

    fn side(&self) -> Side {
        Side::Far
    }

    fn beginning(
        &self,
        side: Side,
        from: SocketAddr,
        octets: &[u8],
        before: &Option<ReceiveRelay<W>>,
        now: u64,
    ) -> Option<Beginning> {
        match side {
            Side::Near => None,
            Side::Far => self.heard(from, octets, before, now),
        }
    }

    fn make(
        &mut self,
        beginning: &Beginning,
        from: SocketAddr,
        before: &Option<ReceiveRelay<W>>,
    ) -> Result<Learnt<ReceiveRelay<W>>, OutOfMemory> {
        let passed = played_before(before, self.passed);
        let mut relay = ReceiveRelay::new(
            self.alloc,
            self.config(beginning.session),
            self.window,
            from,
            self.player,
            numbering_for(before, beginning.ssrc),
            held_by(self.hold),
            bounds_left(self.bounds, passed),
        )?;
        relay.earn_feedback();
        relay.report_latency();
        if let (Some(first), None) = (self.first, before) {
            let _ = relay.begin(first);
        }
        self.passed = passed;
        Ok(Learnt {
            relay,
            note: Note::Began(
                beginning.session,
                self.first.unwrap_or(beginning.number),
                from,
            ),
        })
    }

    fn lead(relay: &mut ReceiveRelay<W>, far: SocketAddr) {
        relay.lead(far);
    }
}
