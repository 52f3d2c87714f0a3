//! The sending end for C.
ghost use Rattle.std.specs.Prelude.{◌≡◌, ℕ, List, ◌↔◌, IsTrue};
ghost use Rattle.gozdrit.specs.declared.sizes.TheConstants.{SENDER_CONFIG};
ghost use Rattle.gozdrit.specs.Sizes.{SaysKnown};
ghost use Rattle.gozdrit.specs.Freeing.{AnswersFree};
ghost use Rattle.gozdrit.specs.Sending.{AnswersAdapt, AnswersSenderNew, AnswersSend, AnswersFeedback, AnswersRetransmit, AnswersMarkLast, AnswersTime, RetransmitsTo, measured_resend, rule_now, set_to, told_at};

use crate::answers::SentPacket;
use crate::code::{BAD_SIZE, HELD, NO_END, NO_ROOM, OK, OUT_OF_MEMORY, TOO_LARGE};
use crate::config::SenderFields;
use crate::handle::Handle;
use crate::header::Header;
use crate::heard::OutcomeFields;
use crate::sizes::{OUTCOME, SENT};
use endpoint::{ResendMeter, ResendRule, TimelyEndpoint};
use places::Place;
use rtpwire::{ConfigFault, MAX_DATAGRAM, TooShort};
use sender::SenderConfig;
use std::alloc::Global;
use stores::RingHistory;

/// A sender, how it was configured, what it measures of the path, where its rule follows that, and the moment that it was told last. Until it
/// was told one, each retransmission goes; from then on its rule follows the path, unless that was set otherwise.
#[derive(Drop)]
pub struct TimedSender {
    pub(crate) endpoint: TimelyEndpoint<RingHistory>,
    pub(crate) config: SenderConfig,
    pub(crate) meter: ResendMeter,
    pub(crate) now: u64,
    pub(crate) is_told: bool,
    /// Whether it was said if the rule follows.
    pub(crate) is_set: bool,
}

impl TimedSender {
    /// The rule in force.
    fn rule(&self) -> ResendRule
        ensures { result ≡ rule_now self.entry.now }
    {
        if self.is_told {
            self.meter.rule(self.endpoint.rule(), self.now)
        } else {
            ResendRule::ALWAYS
        }
    }

    /// Tells the moment.
    fn tell(&mut self, now: u64)
        ensures { self.new ≡ told_at self.old now }
    {
        if !self.is_told && !self.is_set {
            self.meter = ResendMeter::following();
        }
        self.is_told = true;
        self.now = now;
    }

    /// Has the rule follow the path from now on, or hold as it was configured.
    fn set(&mut self, follows: bool)
        ensures { self.new ≡ set_to follows self.old }
    {
        self.meter = if follows {
            ResendMeter::following()
        } else {
            ResendMeter::fixed()
        };
        self.is_set = true;
    }
}

/// What C holds of a sender.
pub type SenderHandle = Handle<TimedSender>;

/// `is_known` is whether the configuration's struct says nothing that is not known here.
pub(crate) fn sender_new(
    alloc: Global,
    config: &SenderFields,
    is_known: bool,
    sender: &mut SenderHandle,
) -> i32
    ensures { (rest : List ℕ) → IsTrue is_known ↔ SaysKnown SENDER_CONFIG config.now.size rest
        → AnswersSenderNew config.now rest sender.old.inside result sender.new.inside }
{
    if sender.is_held() {
        return HELD;
    }
    if !is_known {
        return BAD_SIZE;
    }
    let made = match config.config() {
        Ok(made) => made,
        Err(fault) => return i32::from(fault.number()),
    };
    let Ok(endpoint) = TimelyEndpoint::new(alloc, made, config.rule(), config.history as usize)
    else {
        return OUT_OF_MEMORY;
    };
    let timed = TimedSender {
        endpoint,
        config: made,
        meter: ResendMeter::fixed(),
        now: 0,
        is_told: false,
        is_set: false,
    };
    let Ok(inside) = Box::new(alloc, timed) else {
        return OUT_OF_MEMORY;
    };
    sender.put(inside);
    OK
}

pub(crate) fn sender_free(alloc: Global, sender: &mut SenderHandle) -> i32
    ensures { AnswersFree sender.old.inside result sender.new.inside }
{
    if !sender.is_held() {
        return NO_END;
    }
    drop(sender.lift(alloc));
    OK
}

pub(crate) fn send(
    sender: &mut SenderHandle,
    header: &Header,
    payload: &[u8],
    padding: u8,
    sent: &mut SentPacket,
    out: &mut [u8],
) -> i32
    ensures { AnswersSend sender.old.inside header.now payload.now padding sent.old out.old result sender.new.inside sent.new out.new }
{
    if !sender.is_held() {
        return NO_END;
    }
    if sent.size < SENT {
        return BAD_SIZE;
    }
    let Some(carried) = header.carried(payload) else {
        return TOO_LARGE;
    };
    let sender = sender.lend();
    let now = sender.now;
    match sender.endpoint.send_into(out, &carried, padding, now) {
        Ok(Ok((place, length))) => {
            sender.meter.send(now);
            sent.tell(place, length);
            OK
        }
        Ok(Err(fault)) => i32::from(fault.number()),
        Err(short) => i32::from(short.number()),
    }
}

pub(crate) fn feedback(sender: &mut SenderHandle, octets: &[u8], told: &mut OutcomeFields) -> i32
    ensures { AnswersFeedback sender.old.inside octets.now told.old result sender.new.inside told.new }
{
    if !sender.is_held() {
        return NO_END;
    }
    if told.size < OUTCOME {
        return BAD_SIZE;
    }
    let sender = sender.lend();
    sender
        .meter
        .hear(&sender.endpoint, &sender.config, octets, sender.now);
    *told = OutcomeFields::of(told.size, sender.endpoint.on_datagram(octets));
    OK
}

pub(crate) fn retransmit(sender: &mut SenderHandle, sent: &mut SentPacket, out: &mut [u8]) -> i32
    ensures { AnswersRetransmit sender.old.inside sent.old out.old result sender.new.inside sent.new out.new }
{
    if !sender.is_held() {
        return NO_END;
    }
    if sent.size < SENT {
        return BAD_SIZE;
    }
    retransmit_to(sender.lend(), sent, out)
}

/// Retransmits, and tells what. Where a rule may pass packets over there has to be room for any, so that a refusal passes over none.
fn retransmit_to(sender: &mut TimedSender, sent: &mut SentPacket, out: &mut [u8]) -> i32
    ensures { RetransmitsTo sender.old sent.old out.old result sender.new sent.new out.new }
{
    let now = sender.now;
    let rule = sender.rule();
    if !rule.is_always() && out.len() < MAX_DATAGRAM {
        return NO_ROOM;
    }
    let answer = sender.endpoint.retransmit_by(rule, out, now);
    measure_resend(&mut sender.meter, &answer, now);
    match answer {
        Ok(Some((place, length))) => sent.tell(place, length),
        Ok(None) => sent.length = 0,
        Err(short) => return i32::from(short.number()),
    }
    OK
}

/// What was retransmitted is measured.
fn measure_resend(
    meter: &mut ResendMeter,
    answer: &Result<Option<(Place, usize)>, TooShort>,
    now: u64,
)
    ensures { meter.new ≡ measured_resend answer.now now meter.old }
{
    if let Ok(Some(_)) = answer {
        meter.resend(now);
    }
}

/// Has the rule follow the path from now on, or hold as it was configured.
pub(crate) fn adapt(sender: &mut SenderHandle, adaptive: u8) -> i32
    ensures { AnswersAdapt sender.old.inside adaptive result sender.new.inside }
{
    if !sender.is_held() {
        return NO_END;
    }
    if adaptive > 1 {
        return i32::from(ConfigFault::BadLimit.number());
    }
    sender.lend().set(adaptive == 1);
    OK
}

pub(crate) fn tell_time(sender: &mut SenderHandle, now: u64) -> i32
    ensures { AnswersTime sender.old.inside now result sender.new.inside }
{
    if !sender.is_held() {
        return NO_END;
    }
    sender.lend().tell(now);
    OK
}

pub(crate) fn mark_last(sender: &mut SenderHandle, marked: &mut u32) -> i32
    ensures { AnswersMarkLast sender.old.inside marked.old result sender.new.inside marked.new }
{
    if !sender.is_held() {
        return NO_END;
    }
    *marked = sender.lend().endpoint.mark_last().places;
    OK
}
