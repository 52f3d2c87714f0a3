//! The receiving endpoint that knows what it asked for.
ghost use Rattle.std.specs.Prelude.{◌≡◌, ◌↔◌, ◌+◌, ◌<◌, ◌≤◌, length, false, None, Ok, Err, IsOk, IsNone, IfOk, OnOk, OnErr};
ghost use Rattle.stores.specs.Span.{highest_of};
ghost use Rattle.receiver.specs.Asks.{AsksMost, AsksMostInto};
ghost use Rattle.receiver.specs.Peeking.{play_of, receiver_passed};
ghost use Rattle.receiver.specs.Receiver.{Stays, begun, restarted, state_of, with_times};
ghost use Rattle.receiver.specs.Window.{PlaysAny};
ghost use Rattle.endpoint.specs.Asked.{RemembersAsk, RemembersAskInto, kept_after, none_asked};
ghost use Rattle.endpoint.specs.Kinds.{IsKind, count_kind, no_kinds};
ghost use Rattle.endpoint.specs.Receiving.{ends_of, fresh, no_run};
ghost use Rattle.endpoint.specs.ReceiveCounts.{count_heard, count_passed, count_played, CountsAsk, CountsAskInto, no_counts};
ghost use Rattle.endpoint.specs.Rivals.{Doubts, HearsWeighed, Weighs};
ghost use Rattle.endpoint.specs.Seen.{none_seen, seen_after};

use crate::asked_places::AskedPlaces;
use crate::heard::Heard;
use crate::kind::{Kind, kind_of};
use crate::kind_counts::KindCounts;
use crate::passed::Passed;
use crate::probation::Probation;
use crate::receiving::ReceivingEndpoint;
use crate::rivals::would_repair;
use receiver::{HasStarted, Played, ReceiveFault, ReceiverConfig};
use rtpwire::{ConfigFault, Datagram, TooShort};
use std::alloc::Global;
use stores::{OutOfMemory, Window};

/// A [`ReceivingEndpoint`] that tells what answers no ask of its own as what it is ([`Kind`]), and counts that apart
/// ([`KindCounts`]). It remembers as many of the places that it asked for last as its window keeps ([`AskedPlaces`]), and forgets
/// them when the stream restarts. What it answers is what the endpoint below answers. No call but `new` takes memory.
///
/// **Where the SSRC of the retransmissions is learnt**, the one that was learnt falls to another one that repairs: after two datagrams in a row
/// that were refused for their SSRC (31), and would have repaired places that were asked for, the next one is learnt anew. So a stranger who is
/// heard first is heard for so long alone. A retransmission that is taken meanwhile shows that the SSRC is right.
#[derive(Drop)]
pub struct AskingEndpoint<W: Window> {
    endpoint: ReceivingEndpoint<W>,
    asked: AskedPlaces,
    kinds: KindCounts,
    /// Whether the last that was refused for its SSRC, and would have repaired, came since a retransmission was taken.
    doubted: bool,
}

impl<W: Window> AskingEndpoint<W> {
    /// An endpoint that took nothing so far, as [`ReceivingEndpoint::new`] makes it.
    ///
    /// `OutOfMemory`: the allocator refused the memory.
    pub fn new(
        alloc: Global,
        config: ReceiverConfig,
        probation: Probation,
        capacity: usize,
    ) -> Result<AskingEndpoint<W>, OutOfMemory>
        requires nonzero { 0 < capacity }
        requires limit { capacity ≤ 8192 }
        ensures { IfOk result (λ made. (made.endpoint.core ≡ fresh config capacity) × (made.endpoint.spare ≡ fresh config capacity) × (made.endpoint.probation ≡ probation)
            × (made.endpoint.run ≡ no_run) × (made.endpoint.counts ≡ no_counts) × (made.endpoint.seen ≡ none_seen 8192) × (made.asked ≡ none_asked capacity) × (made.kinds ≡ no_kinds) × (made.doubted ≡ false)) }
    {
        let endpoint = ReceivingEndpoint::new(alloc, config, probation, capacity)?;
        let asked = AskedPlaces::new(alloc, capacity)?;
        Ok(AskingEndpoint {
            endpoint,
            asked,
            kinds: KindCounts::NONE,
            doubted: false,
        })
    }

    /// [`ReceivingEndpoint::on_datagram`], and of which kind the datagram was.
    ///
    /// The refusals are those.
    pub fn on_datagram(&mut self, octets: &[u8], now: u64) -> (Result<Heard, ReceiveFault>, Kind)
        ensures hears { HearsWeighed self.old.endpoint.probation self.old.endpoint.seen (ends_of self.old.endpoint.core self.old.endpoint.spare self.old.endpoint.run) self.old.doubted octets.now now result.0
            (ends_of self.new.endpoint.core self.new.endpoint.spare self.new.endpoint.run) self.new.doubted }
        ensures probation { self.new.endpoint.probation ≡ self.old.endpoint.probation }
        ensures counts { self.new.endpoint.counts ≡ count_heard result.0 self.old.endpoint.counts }
        ensures seen { self.new.endpoint.seen ≡ seen_after result.0 octets.now self.old.endpoint.seen }
        ensures kind { IsKind self.old.asked self.old.endpoint.core.config.session (highest_of self.old.endpoint.core.span) octets.now result.0 result.1 }
        ensures asked { self.new.asked ≡ kept_after result.0 self.old.asked }
        ensures kinds { self.new.kinds ≡ count_kind result.1 result.0 self.old.kinds }
    {
        let core = self.endpoint.core();
        let session = core.config().session();
        let highest = core.window().highest();
        let answer = self.endpoint.on_datagram(octets, now);
        let kind = kind_of(&self.asked, &session, highest, octets, &answer);
        self.kinds.count(kind, &answer);
        keep_after(&mut self.asked, &answer);
        self.weigh(octets, &answer);
        (answer, kind)
    }

    /// Weighs whether the SSRC that was learnt is the one of the retransmissions, by the answer to a datagram.
    fn weigh(&mut self, octets: &[u8], answer: &Result<Heard, ReceiveFault>)
        ensures weighs { Weighs self.old.doubted octets.now answer.now self.old.endpoint.core self.new.doubted self.new.endpoint.core }
        ensures rest { self.new ≡ record self.old { endpoint = record self.old.endpoint { core = self.new.endpoint.core }; doubted = self.new.doubted } }
    {
        match answer {
            Ok(Heard::Repair(_)) | Ok(Heard::Restarted(_)) => self.doubted = false,
            Err(ReceiveFault::UnknownSource) => self.doubt(octets),
            _ => {}
        }
    }

    /// A datagram was refused for its SSRC. By itself, as none of the session is.
    #[inline(never)]
    fn doubt(&mut self, octets: &[u8])
        ensures doubts { Doubts self.old.doubted octets.now self.old.endpoint.core self.new.doubted self.new.endpoint.core }
        ensures rest { self.new ≡ record self.old { endpoint = record self.old.endpoint { core = self.new.endpoint.core }; doubted = self.new.doubted } }
    {
        if would_repair(self.endpoint.core(), octets) {
            if self.doubted {
                self.endpoint.forget_source();
            }
            self.doubted = !self.doubted;
        }
    }

    /// [`ReceivingEndpoint::play`].
    pub fn play(&mut self, now: u64) -> Played
        ensures plays { PlaysAny self.old.endpoint.core.config.patience (state_of self.old.endpoint.core) now result (state_of self.new.endpoint.core) }
        ensures wait { result ≡ Played.Wait → self.new.endpoint.core ≡ self.old.endpoint.core }
        ensures stays { Stays self.old.endpoint.core self.new.endpoint.core }
        ensures counts { self.new.endpoint.counts ≡ count_played result self.old.endpoint.counts }
        ensures rest { self.new ≡ record self.old { endpoint = record self.old.endpoint { core = self.new.endpoint.core; counts = self.new.endpoint.counts } } }
    {
        self.endpoint.play(now)
    }

    /// [`ReceivingEndpoint::pass`].
    pub fn pass(&mut self, now: u64)
        ensures passes { self.new.endpoint.core ≡ receiver_passed (play_of self.old.endpoint.core.config.patience now self.old.endpoint.core.span) self.old.endpoint.core }
        ensures plays { PlaysAny self.old.endpoint.core.config.patience (state_of self.old.endpoint.core) now (play_of self.old.endpoint.core.config.patience now self.old.endpoint.core.span) (state_of self.new.endpoint.core) }
        ensures stays { Stays self.old.endpoint.core self.new.endpoint.core }
        ensures counts { self.new.endpoint.counts ≡ count_played (play_of self.old.endpoint.core.config.patience now self.old.endpoint.core.span) self.old.endpoint.counts }
        ensures rest { self.new ≡ record self.old { endpoint = record self.old.endpoint { core = self.new.endpoint.core; counts = self.new.endpoint.counts } } }
    {
        self.endpoint.pass(now);
    }

    /// [`ReceivingEndpoint::pass_within`].
    pub fn pass_within(&mut self, patience: u64, now: u64)
        ensures passes { self.new.endpoint.core ≡ receiver_passed (play_of patience now self.old.endpoint.core.span) self.old.endpoint.core }
        ensures plays { PlaysAny patience (state_of self.old.endpoint.core) now (play_of patience now self.old.endpoint.core.span) (state_of self.new.endpoint.core) }
        ensures stays { Stays self.old.endpoint.core self.new.endpoint.core }
        ensures counts { self.new.endpoint.counts ≡ count_played (play_of patience now self.old.endpoint.core.span) self.old.endpoint.counts }
        ensures rest { self.new ≡ record self.old { endpoint = record self.old.endpoint { core = self.new.endpoint.core; counts = self.new.endpoint.counts } } }
    {
        self.endpoint.pass_within(patience, now);
    }

    /// [`ReceivingEndpoint::pass_known`].
    pub fn pass_known(&mut self, passed: Passed, patience: u64, now: u64)
        ensures passes { self.new.endpoint.core ≡ receiver_passed (play_of patience now self.old.endpoint.core.span) self.old.endpoint.core }
        ensures plays { PlaysAny patience (state_of self.old.endpoint.core) now (play_of patience now self.old.endpoint.core.span) (state_of self.new.endpoint.core) }
        ensures stays { Stays self.old.endpoint.core self.new.endpoint.core }
        ensures counts { self.new.endpoint.counts ≡ count_passed passed self.old.endpoint.counts }
        ensures rest { self.new ≡ record self.old { endpoint = record self.old.endpoint { core = self.new.endpoint.core; counts = self.new.endpoint.counts } } }
    {
        self.endpoint.pass_known(passed, patience, now);
    }

    /// [`ReceivingEndpoint::ask_most`]. The places that the NACK names are remembered.
    pub fn ask_most(&mut self, now: u64, most: usize) -> Option<Datagram>
        ensures asks { AsksMost self.old.endpoint.core.config (state_of self.old.endpoint.core) now most result (state_of self.new.endpoint.core) }
        ensures none { IsNone result → self.new.endpoint.core ≡ self.old.endpoint.core }
        ensures stays { Stays self.old.endpoint.core self.new.endpoint.core }
        ensures counts { CountsAsk result self.old.endpoint.counts self.new.endpoint.counts }
        ensures asked { RemembersAsk (highest_of self.old.endpoint.core.span) result self.old.asked self.new.asked }
        ensures rest { self.new ≡ record self.old { endpoint = record self.old.endpoint { core = self.new.endpoint.core; counts = self.new.endpoint.counts }; asked = self.new.asked } }
    {
        let highest = self.endpoint.core().window().highest();
        let nack = self.endpoint.ask_most(now, most);
        if let (Some(highest), Some(nack)) = (highest, &nack) {
            self.asked.hear_nack(highest, nack.as_slice());
        }
        nack
    }

    /// [`ReceivingEndpoint::ask_most_into`]. The places that the NACK names are remembered.
    ///
    /// `TooShort` (75): the slice is shorter than this NACK; one of 268 octets never is. The slice and the endpoint are then as they were.
    pub fn ask_most_into(
        &mut self,
        out: &mut [u8],
        now: u64,
        most: usize,
    ) -> Result<Option<usize>, TooShort>
        ensures asks { AsksMostInto self.old.endpoint.core.config (state_of self.old.endpoint.core) now most out.old result out.new (state_of self.new.endpoint.core) }
        ensures enough { 268 ≤ length out.old → IsOk result }
        ensures err { OnErr result (self.new.endpoint.core ≡ self.old.endpoint.core) }
        ensures none { result ≡ Ok None → self.new.endpoint.core ≡ self.old.endpoint.core }
        ensures stays { Stays self.old.endpoint.core self.new.endpoint.core }
        ensures counts { CountsAskInto out.new result self.old.endpoint.counts self.new.endpoint.counts }
        ensures asked { RemembersAskInto (highest_of self.old.endpoint.core.span) out.new result self.old.asked self.new.asked }
        ensures rest { self.new ≡ record self.old { endpoint = record self.old.endpoint { core = self.new.endpoint.core; counts = self.new.endpoint.counts }; asked = self.new.asked } }
    {
        let highest = self.endpoint.core().window().highest();
        let nack = self.endpoint.ask_most_into(out, now, most);
        if let (Some(highest), Ok(Some(len))) = (highest, nack) {
            self.asked.hear_nack(highest, &out[..len]);
        }
        nack
    }

    /// [`ReceivingEndpoint::begin`].
    ///
    /// `HasStarted` (40): a packet was taken already, or it began before. The endpoint is then as it was.
    pub fn begin(&mut self, first: u16) -> Result<(), HasStarted>
        ensures ok { OnOk result (self.new.endpoint.core ≡ begun self.old.endpoint.core (65536 + first)) }
        ensures unstarted { IsOk result ↔ (state_of self.old.endpoint.core ≡ None) }
        ensures err { OnErr result (self.new ≡ self.old) }
        ensures rest { self.new ≡ record self.old { endpoint = record self.old.endpoint { core = self.new.endpoint.core } } }
    {
        self.endpoint.begin(first)
    }

    /// [`ReceivingEndpoint::restart`]. All places are forgotten; the counts go on.
    pub fn restart(&mut self)
        ensures core { self.new.endpoint.core ≡ restarted self.old.endpoint.core }
        ensures run { self.new.endpoint.run ≡ no_run }
        ensures asked { self.new.asked ≡ none_asked (length self.old.asked) }
        ensures doubted { self.new.doubted ≡ false }
        ensures rest { self.new ≡ record self.old { endpoint = record self.old.endpoint { core = self.new.endpoint.core; run = self.new.endpoint.run }; asked = self.new.asked; doubted = self.new.doubted } }
    {
        self.endpoint.restart();
        self.asked.forget();
        self.doubted = false;
    }

    /// [`ReceivingEndpoint::set_times`].
    ///
    /// `BadLimit` (53): `retry` is 0. The endpoint is then as it was.
    pub fn set_times(&mut self, patience: u64, delay: u64, retry: u64) -> Result<(), ConfigFault>
        ensures core { OnOk result (self.new.endpoint.core ≡ with_times self.old.endpoint.core patience delay retry) }
        ensures spare { OnOk result (self.new.endpoint.spare ≡ with_times self.old.endpoint.spare patience delay retry) }
        ensures succeeds { IsOk result ↔ (0 < retry) }
        ensures bad_limit { OnErr result (result ≡ Err ConfigFault.BadLimit) }
        ensures err { OnErr result (self.new ≡ self.old) }
        ensures rest { self.new ≡ record self.old { endpoint = record self.old.endpoint { core = self.new.endpoint.core; spare = self.new.endpoint.spare } } }
    {
        self.endpoint.set_times(patience, delay, retry)
    }

    /// The endpoint below, for what it counts, and for its receiver.
    pub fn endpoint(&self) -> &ReceivingEndpoint<W>
        ensures { result.now ≡ self.now.endpoint }
    {
        &self.endpoint
    }

    /// The places that it asked for, as far as it remembers.
    pub fn asked(&self) -> &AskedPlaces
        ensures { result.now ≡ self.now.asked }
    {
        &self.asked
    }

    /// How many datagrams were of which kind so far.
    pub fn kinds(&self) -> KindCounts
        ensures { result ≡ self.now.kinds }
    {
        self.kinds
    }
}

/// Forgets all places where the stream has restarted.
fn keep_after(asked: &mut AskedPlaces, answer: &Result<Heard, ReceiveFault>)
    ensures { asked.new ≡ kept_after answer.now asked.old }
{
    if let Ok(Heard::Restarted(_)) = answer {
        asked.forget();
    }
}
