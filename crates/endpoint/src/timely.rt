//! The sending endpoint that knows the time.
ghost use Rattle.std.specs.Prelude.{◌≡◌, ◌<◌, ◌≤◌, None, Ok, IsOk, IfOk, OnErr, length, []};
ghost use Rattle.rtpwire.specs.declared.limits.TheConstants.{MAX_DATAGRAM};
ghost use Rattle.stores.specs.Past.{empty_past};
ghost use Rattle.sender.specs.Passing.{PassesAny};
ghost use Rattle.sender.specs.Repairing.{RepairsInto};
ghost use Rattle.sender.specs.Sender.{Stays, new_sending, state_of};
ghost use Rattle.sender.specs.Sending.{SendsInto};
ghost use Rattle.sender.specs.Tail.{MarksLast};
ghost use Rattle.endpoint.specs.Answering.{TellsAnswer};
ghost use Rattle.endpoint.specs.Demultiplex.{is_control};
ghost use Rattle.endpoint.specs.Moments.{told_sent, told_resent};
ghost use Rattle.endpoint.specs.Passing.{PassesWhatMayNot, Retransmits};
ghost use Rattle.endpoint.specs.ResendCounts.{none_passed};
ghost use Rattle.endpoint.specs.Resending.{always};
ghost use Rattle.endpoint.specs.SendCounts.{count_told, no_counts};
ghost use Rattle.endpoint.specs.Sending.{CountsSent, CountsRepaired, TellsKind};

use crate::answering::answer_time;
use crate::moments::Moments;
use crate::resend_counts::ResendCounts;
use crate::resend_rule::{ResendRule, Times, Verdict};
use crate::sending::SendingEndpoint;
use crate::told::Told;
use fbwire::FeedbackFault;
use places::Place;
use rtpwire::{Carried, TooShort};
use sender::{Marked, SendFault, SenderConfig};
use std::alloc::Global;
use stores::{History, OutOfMemory};

/// A [`SendingEndpoint`] that retransmits what fits the time alone, by a [`ResendRule`]: nothing again too soon after its
/// last retransmission, and nothing past its deadline. It keeps the moments of as many packets as its history has.
///
/// The moments that it is told are its caller's, in milliseconds, of a clock that only goes forward. No call but `new` takes
/// memory.
#[derive(Drop)]
pub struct TimelyEndpoint<H: History> {
    endpoint: SendingEndpoint<H>,
    rule: ResendRule,
    moments: Moments,
    passed: ResendCounts,
}

impl<H: History> TimelyEndpoint<H> {
    /// An endpoint that sent nothing so far. Its history keeps up to `capacity` packets, from 1 to 8192 of them.
    ///
    /// `OutOfMemory`: the allocator refused the memory.
    pub fn new(
        alloc: Global,
        config: SenderConfig,
        rule: ResendRule,
        capacity: usize,
    ) -> Result<TimelyEndpoint<H>, OutOfMemory>
        requires nonzero { 0 < capacity }
        requires limit { capacity ≤ 8192 }
        ensures { IfOk result (λ made. (made.endpoint.core ≡ new_sending config (empty_past capacity)) × (made.endpoint.counts ≡ no_counts)
            × (made.rule ≡ rule) × (length made.moments ≡ capacity) × (made.passed ≡ none_passed)) }
    {
        let history = H::new(alloc, capacity)?;
        let moments = Moments::new(alloc, capacity)?;
        Ok(TimelyEndpoint {
            endpoint: SendingEndpoint::new(config, history),
            rule,
            moments,
            passed: ResendCounts::NONE,
        })
    }

    /// [`SendingEndpoint::send_into`] at the moment `now`.
    ///
    /// `TooShort` (75), and the refusals of `Sender::send`. After each the slice and the endpoint are as they were.
    pub fn send_into(
        &mut self,
        out: &mut [u8],
        carried: &Carried<'_>,
        padding: u8,
        now: u64,
    ) -> Result<Result<(Place, usize), SendFault>, TooShort>
        ensures sends { SendsInto self.old.endpoint.core.config.session self.old.endpoint.core.past.capacity (state_of self.old.endpoint.core) carried.now padding out.old result out.new (state_of self.new.endpoint.core) }
        ensures err { OnErr result (self.new.endpoint.core ≡ self.old.endpoint.core) }
        ensures enough { MAX_DATAGRAM ≤ length out.old → IsOk result }
        ensures refused { IfOk result (λ answer. OnErr answer (self.new.endpoint.core ≡ self.old.endpoint.core)) }
        ensures stays { Stays self.old.endpoint.core self.new.endpoint.core }
        ensures counts { CountsSent carried.now result self.old.endpoint.counts self.new.endpoint.counts }
        ensures moments { self.new.moments ≡ told_sent result now self.old.moments }
        ensures rule { self.new.rule ≡ self.old.rule }
        ensures passed { self.new.passed ≡ self.old.passed }
    {
        let answer = self.endpoint.send_into(out, carried, padding);
        tell_sent(&mut self.moments, &answer, now);
        answer
    }

    /// [`SendingEndpoint::on_datagram`]. What feedback names is marked whatever the time, and passed over when its turn comes.
    ///
    /// The refusals are those, and change nothing but the counts.
    pub fn on_datagram(&mut self, octets: &[u8]) -> Result<Told, FeedbackFault>
        ensures tells { TellsKind (is_control octets.now) self.old.endpoint.core octets.now result self.new.endpoint.core }
        ensures counts { self.new.endpoint.counts ≡ count_told result self.old.endpoint.counts }
        ensures moments { self.new.moments ≡ self.old.moments }
        ensures rule { self.new.rule ≡ self.old.rule }
        ensures passed { self.new.passed ≡ self.old.passed }
    {
        self.endpoint.on_datagram(octets)
    }

    /// The next retransmission at the moment `now`, if there is one, as [`SendingEndpoint::next_repair_into`] writes it: that of
    /// the least marked place that may go by the rule. The marked places below it, which may not, or all of them where none may,
    /// lose their marks and are counted; they take no number of the retransmissions, count no repeat, and may be named again.
    ///
    /// By [`ResendRule::ALWAYS`] it is `next_repair_into` itself.
    ///
    /// `TooShort` (75): the slice is shorter than this retransmission. The slice is then as it was, and the retransmission is
    /// still the next; what may not go was passed over.
    pub fn retransmit_into(
        &mut self,
        out: &mut [u8],
        now: u64,
    ) -> Result<Option<(Place, usize)>, TooShort>
        ensures retransmits { Retransmits self.old.rule self.old.moments self.old.endpoint.core.config.session now (state_of self.old.endpoint.core) self.old.passed out.old result out.new (state_of self.new.endpoint.core) self.new.passed }
        ensures enough { MAX_DATAGRAM ≤ length out.old → IsOk result }
        ensures stays { Stays self.old.endpoint.core self.new.endpoint.core }
        ensures counts { CountsRepaired result self.old.endpoint.counts self.new.endpoint.counts }
        ensures moments { self.new.moments ≡ told_resent result now self.old.moments }
        ensures rule { self.new.rule ≡ self.old.rule }
        ensures plain { self.old.rule ≡ always → RepairsInto self.old.endpoint.core.config.session (state_of self.old.endpoint.core) out.old result out.new (state_of self.new.endpoint.core) }
        ensures plain_none { self.old.rule ≡ always → result ≡ Ok None → self.new.endpoint.core ≡ self.old.endpoint.core }
        ensures plain_err { self.old.rule ≡ always → OnErr result (self.new ≡ self.old) }
        ensures plain_passed { self.old.rule ≡ always → self.new.passed ≡ self.old.passed }
    {
        let rule = self.rule;
        self.retransmit_by(rule, out, now)
    }

    /// [`retransmit_into`](TimelyEndpoint::retransmit_into) by another rule than its own, for this call: by one that follows the path.
    pub fn retransmit_by(
        &mut self,
        rule: ResendRule,
        out: &mut [u8],
        now: u64,
    ) -> Result<Option<(Place, usize)>, TooShort>
        ensures retransmits { Retransmits rule self.old.moments self.old.endpoint.core.config.session now (state_of self.old.endpoint.core) self.old.passed out.old result out.new (state_of self.new.endpoint.core) self.new.passed }
        ensures enough { MAX_DATAGRAM ≤ length out.old → IsOk result }
        ensures stays { Stays self.old.endpoint.core self.new.endpoint.core }
        ensures counts { CountsRepaired result self.old.endpoint.counts self.new.endpoint.counts }
        ensures moments { self.new.moments ≡ told_resent result now self.old.moments }
        ensures rule { self.new.rule ≡ self.old.rule }
        ensures plain { rule ≡ always → RepairsInto self.old.endpoint.core.config.session (state_of self.old.endpoint.core) out.old result out.new (state_of self.new.endpoint.core) }
        ensures plain_none { rule ≡ always → result ≡ Ok None → self.new.endpoint.core ≡ self.old.endpoint.core }
        ensures plain_err { rule ≡ always → OnErr result (self.new ≡ self.old) }
        ensures plain_passed { rule ≡ always → self.new.passed ≡ self.old.passed }
    {
        pass_by(
            &mut self.endpoint,
            &mut self.passed,
            &self.moments,
            rule,
            now,
        );
        let answer = self.endpoint.next_repair_into(out);
        tell_resent(&mut self.moments, &answer, now);
        answer
    }

    /// How long an answer takes, in milliseconds, as a datagram says that came at the moment `now`, and which is still to be heard: how long
    /// ago the packet was sent that lies right behind the one that its NACKs of this session name last. A receiver names the newest loss
    /// last, and as soon as that packet shows it. None where that was named or retransmitted before, or the history lacks one of the
    /// two, and of what is no feedback for the session of this configuration, which is the endpoint's own.
    pub fn answer_time(&self, config: &SenderConfig, octets: &[u8], now: u64) -> Option<u64>
        ensures { TellsAnswer config.now self.now.endpoint.core.past self.now.moments octets.now now result }
    {
        answer_time(self.endpoint.core(), config, &self.moments, octets, now)
    }

    /// [`SendingEndpoint::pass_repair`]: passes over the least marked place, whatever the rule. Nothing is counted. It is for a caller that can't
    /// retransmit all that is marked.
    pub fn pass_repair(&mut self) -> Option<Place>
        ensures passes { PassesAny (state_of self.old.endpoint.core) result (state_of self.new.endpoint.core) }
        ensures none { result ≡ None → self.new ≡ self.old }
        ensures stays { Stays self.old.endpoint.core self.new.endpoint.core }
        ensures counts { self.new.endpoint.counts ≡ self.old.endpoint.counts }
        ensures moments { self.new.moments ≡ self.old.moments }
        ensures rule { self.new.rule ≡ self.old.rule }
        ensures passed { self.new.passed ≡ self.old.passed }
    {
        self.endpoint.pass_repair()
    }

    /// [`SendingEndpoint::mark_last`]: for a sender that falls silent.
    pub fn mark_last(&mut self) -> Marked
        ensures marks { MarksLast self.old.endpoint.core.config.repeats (state_of self.old.endpoint.core) result (state_of self.new.endpoint.core) }
        ensures none { result.places ≡ 0 → self.new.endpoint.core ≡ self.old.endpoint.core }
        ensures stays { Stays self.old.endpoint.core self.new.endpoint.core }
        ensures counts { self.new.endpoint.counts ≡ self.old.endpoint.counts }
        ensures moments { self.new.moments ≡ self.old.moments }
        ensures rule { self.new.rule ≡ self.old.rule }
        ensures passed { self.new.passed ≡ self.old.passed }
    {
        self.endpoint.mark_last()
    }

    /// The endpoint below.
    pub fn endpoint(&self) -> &SendingEndpoint<H>
        ensures { result.now ≡ self.now.endpoint }
    {
        &self.endpoint
    }

    /// Its rule.
    pub fn rule(&self) -> ResendRule
        ensures { result ≡ self.now.rule }
    {
        self.rule
    }

    /// What it passed over so far.
    pub fn passed(&self) -> ResendCounts
        ensures { result ≡ self.now.passed }
    {
        self.passed
    }
}

/// Passes over what may not go by the rule, and over nothing by the one that lets each go.
fn pass_by<H: History>(
    endpoint: &mut SendingEndpoint<H>,
    passed: &mut ResendCounts,
    moments: &Moments,
    rule: ResendRule,
    now: u64,
)
    ensures passes { PassesWhatMayNot rule moments.now now (state_of endpoint.old.core) passed.old (state_of endpoint.new.core) passed.new }
    ensures config { endpoint.new.core.config ≡ endpoint.old.core.config }
    ensures capacity { endpoint.new.core.past.capacity ≡ endpoint.old.core.past.capacity }
    ensures counts { endpoint.new.counts ≡ endpoint.old.counts }
    ensures plain { rule ≡ always → (endpoint.new ≡ endpoint.old) × (passed.new ≡ passed.old) }
{
    (*passed).have_64_bits();
    if rule.is_always() {
        return;
    }
    pass_over(endpoint, passed, moments, rule, now);
}

/// Passes over the marked places that may not go at the moment `now`, up to the first that may.
fn pass_over<H: History>(
    endpoint: &mut SendingEndpoint<H>,
    passed: &mut ResendCounts,
    moments: &Moments,
    rule: ResendRule,
    now: u64,
)
    ensures passes { PassesWhatMayNot rule moments.now now (state_of endpoint.old.core) passed.old (state_of endpoint.new.core) passed.new }
    ensures config { endpoint.new.core.config ≡ endpoint.old.core.config }
    ensures capacity { endpoint.new.core.past.capacity ≡ endpoint.old.core.past.capacity }
    ensures counts { endpoint.new.counts ≡ endpoint.old.counts }
{
    let _before = *passed;
    let mut from: u64 = 0;
    while let Some(place) = endpoint.next_marked() {
        let verdict = rule.verdict(moments.times(place), now);
        if verdict == Verdict::Go {
            return;
        }
        let _ = endpoint.pass_repair();
        passed.count(verdict);
        from = place.value() + 1;
    }
}

/// Tells the moment of a packet that was sent.
fn tell_sent(
    moments: &mut Moments,
    answer: &Result<Result<(Place, usize), SendFault>, TooShort>,
    now: u64,
)
    ensures { moments.new ≡ told_sent answer.now now moments.old }
{
    if let Ok(Ok((place, _))) = answer {
        moments.tell(
            *place,
            Times {
                sent: now,
                resent: None,
            },
        );
    }
}

/// Tells the moment of a retransmission.
fn tell_resent(moments: &mut Moments, answer: &Result<Option<(Place, usize)>, TooShort>, now: u64)
    ensures { moments.new ≡ told_resent answer.now now moments.old }
{
    if let Ok(Some((place, _))) = answer {
        let times = moments.times(*place);
        moments.tell(
            *place,
            Times {
                sent: times.sent,
                resent: Some(now),
            },
        );
    }
}
