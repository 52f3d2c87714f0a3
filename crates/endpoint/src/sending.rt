//! The sending endpoint.
ghost use Rattle.std.specs.Prelude.{◌≡◌, ◌≤◌, None, Ok, IsOk, IfOk, OnErr, length, []};
ghost use Rattle.rtpwire.specs.declared.limits.TheConstants.{MAX_DATAGRAM};
ghost use Rattle.sender.specs.Sender.{Stays, new_sending, state_of};
ghost use Rattle.sender.specs.Sending.{SendsInto};
ghost use Rattle.sender.specs.Passing.{IsNextAny, PassesAny};
ghost use Rattle.sender.specs.Repairing.{RepairsInto};
ghost use Rattle.sender.specs.Tail.{MarksLast};
ghost use Rattle.endpoint.specs.Demultiplex.{is_control};
ghost use Rattle.endpoint.specs.Sending.{CountsSent, CountsRepaired, HandedFeedback, HearsControl, TellsKind};
ghost use Rattle.endpoint.specs.SendCounts.{count_told, no_counts};

use crate::demultiplex::is_control;
use crate::send_counts::SendCounts;
use crate::told::Told;
use fbwire::FeedbackFault;
use places::Place;
use rtpwire::{Carried, TooShort};
use sender::{Marked, SendFault, Sender, SenderConfig, Shared};
use stores::History;

/// The sending end of a session as a network wants it: it is handed every datagram that comes from the far side, and counts.
#[derive(Drop)]
pub struct SendingEndpoint<H: History> {
    core: Sender<H>,
    counts: SendCounts,
}

impl<H: History> SendingEndpoint<H> {
    /// An endpoint that sent nothing so far, over a history without entries. The history decides how many packets it keeps.
    pub fn new(config: SenderConfig, history: H) -> SendingEndpoint<H>
        requires { (H.meaning history).entries ≡ [] }
        ensures core { result.core ≡ new_sending config (H.meaning history) }
        ensures counts { result.counts ≡ no_counts }
    {
        SendingEndpoint {
            core: Sender::new(config, history),
            counts: SendCounts::NONE,
        }
    }

    /// [`Sender::send_into`], counted.
    ///
    /// `TooShort` (75), and the refusals of [`Sender::send`]. After each the slice and the endpoint are as they were.
    pub fn send_into(
        &mut self,
        out: &mut [u8],
        carried: &Carried<'_>,
        padding: u8,
    ) -> Result<Result<(Place, usize), SendFault>, TooShort>
        ensures sends { SendsInto self.old.core.config.session self.old.core.past.capacity (state_of self.old.core) carried.now padding out.old result out.new (state_of self.new.core) }
        ensures err { OnErr result (self.new.core ≡ self.old.core) }
        ensures enough { MAX_DATAGRAM ≤ length out.old → IsOk result }
        ensures refused { IfOk result (λ answer. OnErr answer (self.new.core ≡ self.old.core)) }
        ensures stays { Stays self.old.core self.new.core }
        ensures counts { CountsSent carried.now result self.old.counts self.new.counts }
    {
        let answer = self.core.send_into(out, carried, padding);
        if let Ok(Ok(_)) = &answer {
            self.counts.send(carried.payload().len() as u64);
        }
        answer
    }

    /// Takes any datagram of the far side.
    ///
    /// RTP is passed over (RFC 5761), and RTCP without a generic NACK too. Feedback may be shared with other senders, as
    /// [`Sender::on_shared_feedback`] says, and the refusals are those but 14 and 15. They change nothing but the counts.
    pub fn on_datagram(&mut self, octets: &[u8]) -> Result<Told, FeedbackFault>
        ensures tells { TellsKind (is_control octets.now) self.old.core octets.now result self.new.core }
        ensures counts { self.new.counts ≡ count_told result self.old.counts }
    {
        let answer = if is_control(octets) {
            hear_control(&mut self.core, octets)
        } else {
            Ok(Told::Media)
        };
        self.counts.hear(answer);
        answer
    }

    /// [`Sender::next_repair_into`], counted.
    ///
    /// `TooShort` (75): the slice is shorter than this retransmission. The slice and the endpoint are then as they were.
    pub fn next_repair_into(&mut self, out: &mut [u8]) -> Result<Option<(Place, usize)>, TooShort>
        ensures repairs { RepairsInto self.old.core.config.session (state_of self.old.core) out.old result out.new (state_of self.new.core) }
        ensures enough { MAX_DATAGRAM ≤ length out.old → IsOk result }
        ensures err { OnErr result (self.new.core ≡ self.old.core) }
        ensures none { result ≡ Ok None → self.new.core ≡ self.old.core }
        ensures stays { Stays self.old.core self.new.core }
        ensures counts { CountsRepaired result self.old.counts self.new.counts }
    {
        let answer = self.core.next_repair_into(out);
        if let Ok(Some(_)) = &answer {
            self.counts.repair();
        }
        answer
    }

    /// [`Sender::next_marked`]: the place that [`next_repair_into`](SendingEndpoint::next_repair_into) would retransmit.
    pub fn next_marked(&self) -> Option<Place>
        ensures { IsNextAny (state_of self.now.core) result }
    {
        self.core.next_marked()
    }

    /// [`Sender::pass_repair`]: passes over what it would retransmit. Nothing is counted.
    pub fn pass_repair(&mut self) -> Option<Place>
        ensures passes { PassesAny (state_of self.old.core) result (state_of self.new.core) }
        ensures none { result ≡ None → self.new.core ≡ self.old.core }
        ensures stays { Stays self.old.core self.new.core }
        ensures counts { self.new.counts ≡ self.old.counts }
    {
        self.core.pass_repair()
    }

    /// [`Sender::mark_last`]: for a sender that falls silent.
    pub fn mark_last(&mut self) -> Marked
        ensures marks { MarksLast self.old.core.config.repeats (state_of self.old.core) result (state_of self.new.core) }
        ensures none { result.places ≡ 0 → self.new.core ≡ self.old.core }
        ensures stays { Stays self.old.core self.new.core }
        ensures counts { self.new.counts ≡ self.old.counts }
    {
        self.core.mark_last()
    }

    /// The sender below.
    pub fn core(&self) -> &Sender<H>
        ensures { result.now ≡ self.now.core }
    {
        &self.core
    }

    /// What it did so far.
    pub fn counts(&self) -> SendCounts
        ensures { result ≡ self.now.counts }
    {
        self.counts
    }
}

/// Hears a datagram with RTCP.
fn hear_control<H: History>(sender: &mut Sender<H>, octets: &[u8]) -> Result<Told, FeedbackFault>
    ensures { HearsControl sender.old octets.now result sender.new }
{
    match hand_feedback(sender, octets) {
        Ok(shared) => Ok(Told::Feedback(shared)),
        Err(FeedbackFault::NotRtpfb | FeedbackFault::NotNack) => Ok(Told::Reports),
        Err(fault) => Err(fault),
    }
}

/// Hands a sender a datagram with RTCP.
fn hand_feedback<H: History>(sender: &mut Sender<H>, octets: &[u8]) -> Result<Shared, FeedbackFault>
    ensures { HandedFeedback sender.old octets.now result sender.new }
{
    sender.on_shared_feedback(octets)
}
