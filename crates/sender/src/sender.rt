//! The sending end.
ghost use Rattle.std.specs.Prelude.{◌≡◌, ℕ, ◌^◌, ◌<◌, ◌≤◌, [], length, None, IsOk, IfOk, OnErr, MatchOption, MatchResult};
ghost use Rattle.rtpwire.specs.declared.limits.TheConstants.{MAX_DATAGRAM};
ghost use Rattle.rtpwire.specs.Session.{Streams};
ghost use Rattle.stores.specs.declared.entry.HistoryEntry.{HistoryEntry};
ghost use Rattle.sender.specs.History.{Sends, Repairs, PassesOver, IsLeastMarked, NoneMarked, new_history};
ghost use Rattle.sender.specs.Sender.{Sending, IsSending, Stays, new_sending, state_of};
ghost use Rattle.sender.specs.Sending.{CanBePadded, SendsAny, SendsInto, sent_in};
ghost use Rattle.sender.specs.Feedback.{HearsFeedback};
ghost use Rattle.sender.specs.Shared.{HearsShared};
ghost use Rattle.sender.specs.Tail.{MarksLast};
ghost use Rattle.sender.specs.Repairing.{RepairsAny, RepairsInto, repaired_in};
ghost use Rattle.sender.specs.Passing.{IsNextAny, PassesAny};

use crate::answer::{Marked, Shared};
use crate::config::SenderConfig;
use crate::counting::count_nacks;
use crate::fault::SendFault;
use crate::marking::{are_of_session, mark_nacks, mark_number, one_is_of_session};
use fbwire::{Compound, FeedbackFault, nack_is_determined};
use places::Place;
use rtpwire::{
    Carried, Content, Datagram, TooShort, content_is_bounded, content_is_determined, media_len,
    repair_len, write_media_into, write_media_to, write_repair_into, write_repair_to,
};
use std::marker::Model;
use stores::{History, HistoryEntry, history_by_place};

/// The sending end of a session, over any history: it gives each content the next place, writes its packet and
/// keeps it, and retransmits what feedback asks for. No call takes memory: the history has it from the start.
#[derive(Drop)]
pub struct Sender<H: History> {
    config: SenderConfig,
    /// The next place, or 2^48 where there is none left.
    next: u64,
    /// The sequence number of the next retransmission.
    repair: u16,
    history: H,
}

impl<H: History> Model for Sender<H> {
    ghost use Rattle.sender.specs.History.{new_history};
    ghost use Rattle.sender.specs.Sender.{Sending, IsSending};

    ghost Value = { Sending };

    ghost view = { λ s. record { config = s.config; next = s.next; repair = s.repair; past = H.meaning s.history } };

    ghost invariant = { λ s. IsSending (record { config = s.config; next = s.next; repair = s.repair; past = H.meaning s.history }) };
}

impl<H: History> Sender<H> {
    /// A sender that sent nothing so far, over a history without entries. The history decides how many packets
    /// it keeps.
    pub fn new(config: SenderConfig, history: H) -> Sender<H>
        requires { (H.meaning history).entries ≡ [] }
        ensures value { result ≡ new_sending config (H.meaning history) }
        ensures state { state_of result ≡ new_history config.first config.repair_first }
    {
        let _repeats = config.repeats();
        Sender {
            config,
            next: Place::first(config.first()).value(),
            repair: config.repair_first(),
            history,
        }
    }

    /// Sends a content, with so many octets of padding, the count included, and 0 for none. The answer is its
    /// place and its packet; the history keeps the content, and a full one drops its oldest.
    ///
    /// The first place is one cycle of 65536 above the first sequence number, and each later send has the
    /// next one.
    ///
    /// The refusals, in the order of the checks; after each the sender is as it was:
    ///
    /// - `PaddedEmpty` (44): padding is wanted, and the payload is empty.
    /// - `Exhausted` (45): there is no place left.
    pub fn send(&mut self, content: Content, padding: u8) -> Result<(Place, Datagram), SendFault>
        ensures sends { SendsAny self.old.config.session self.old.past.capacity (state_of self.old) content padding result (state_of self.new) }
        ensures err { OnErr result (self.new ≡ self.old) }
        ensures stays { Stays self.old self.new }
    {
        let mut out = Datagram::new();
        match self.send_to(&mut out, content, padding) {
            Ok(place) => Ok((place, out)),
            Err(fault) => Err(fault),
        }
    }

    /// The same with a datagram that the caller lends for the packet, whatever it held. A datagram is blanked when
    /// it is made, so one that is lent again and again saves that. After a refusal it is as it was.
    pub fn send_to(
        &mut self,
        out: &mut Datagram,
        content: Content,
        padding: u8,
    ) -> Result<Place, SendFault>
        ensures sends { SendsAny self.old.config.session self.old.past.capacity (state_of self.old) content padding (sent_in out.new result) (state_of self.new) }
        ensures lent { OnErr result (out.new ≡ out.old) }
        ensures err { OnErr result (self.new ≡ self.old) }
        ensures stays { Stays self.old self.new }
    {
        let carried = Carried::of_content(&content);
        let place = match self.place_for(&carried, padding) {
            Ok(place) => place,
            Err(fault) => return Err(fault),
        };
        content_is_bounded(&content);
        content_is_determined();
        let session = self.config.session();
        write_media_to(
            out,
            &content,
            padding,
            place.number(),
            session.media_type(),
            session.media_ssrc(),
        );
        self.keep(place, &carried);
        Ok(place)
    }

    /// The same of what is carried, with the packet at the front of a slice, whose rest stays. The answer is the place
    /// and how many octets the packet has. Nothing is copied but to the slice and to the history.
    ///
    /// `TooShort` (75): the slice is shorter than this packet, as [`media_len`] says; one of
    /// [`MAX_DATAGRAM`](rtpwire::MAX_DATAGRAM) octets never is. It comes before the other refusals. After each the slice
    /// and the sender are as they were.
    pub fn send_into(
        &mut self,
        out: &mut [u8],
        carried: &Carried<'_>,
        padding: u8,
    ) -> Result<Result<(Place, usize), SendFault>, TooShort>
        ensures sends { SendsInto self.old.config.session self.old.past.capacity (state_of self.old) carried.now padding out.old result out.new (state_of self.new) }
        ensures err { OnErr result (self.new ≡ self.old) }
        ensures enough { MAX_DATAGRAM ≤ length out.old → IsOk result }
        ensures refused { IfOk result (λ answer. OnErr answer (self.new ≡ self.old)) }
        ensures stays { Stays self.old self.new }
    {
        let session = self.config.session();
        let needed = media_len(carried, padding);
        if out.len() < needed {
            return Err(TooShort { needed });
        }
        let place = match self.place_for(carried, padding) {
            Ok(place) => place,
            Err(fault) => return Ok(Err(fault)),
        };
        carried.is_bounded();
        content_is_determined();
        let len = write_media_into(
            out,
            carried,
            padding,
            place.number(),
            session.media_type(),
            session.media_ssrc(),
        );
        self.keep(place, carried);
        Ok(Ok((place, len)))
    }

    /// The place that a content gets, or why it is not sent.
    fn place_for(&self, carried: &Carried<'_>, padding: u8) -> Result<Place, SendFault>
        ensures { MatchResult result
            (λ place. (place ≡ self.now.next) × (place < 2 ^ 48) × CanBePadded carried.now padding)
            (λ fault. (s : Streams) (room : ℕ) → SendsAny s room (state_of self.now) carried.now padding (Err fault) (state_of self.now)) }
    {
        if padding > 0 && carried.payload().is_empty() {
            return Err(SendFault::PaddedEmpty);
        }
        match Place::new(self.next) {
            Some(place) => Ok(place),
            None => Err(SendFault::Exhausted),
        }
    }

    /// Keeps what was sent at the next place.
    fn keep(&mut self, place: Place, carried: &Carried<'_>)
        requires next { place ≡ self.old.next }
        requires fits { place < 2 ^ 48 }
        ensures sends { Sends self.old.past.capacity (state_of self.old) carried.now (state_of self.new) }
        ensures stays { Stays self.old self.new }
    {
        history_by_place();
        self.next += 1;
        self.history.push_from(place, carried);
    }

    /// Takes a feedback datagram. It may be called at any time, with any octets. The answer is how many packets
    /// are to be retransmitted that were not before.
    ///
    /// A NACK names sequence numbers (RFC 4585, section 6.2.1). The entry of the history that has such a number
    /// now is marked, unless it was retransmitted as often as it may be. So old feedback may mark a later packet.
    ///
    /// The refusals, in the order of the checks; all are made before anything is marked, and after each the
    /// sender is as it was:
    ///
    /// - 11 to 17: the octets are no compound datagram with a generic NACK, as [`Compound::read`] says.
    /// - `WrongMedia` (18), `WrongReporter` (19): a NACK is for another source than the session's media, or else
    ///   from another reporter than its receiver. The first such NACK decides. A sender that takes any reporter
    ///   ([`SenderConfig::with_any_reporter`]) never answers 19.
    pub fn on_feedback(&mut self, octets: &[u8]) -> Result<Marked, FeedbackFault>
        ensures hears { HearsFeedback self.old.config (state_of self.old) octets.now result (state_of self.new) }
        ensures err { OnErr result (self.new ≡ self.old) }
        ensures stays { Stays self.old self.new }
    {
        history_by_place();
        nack_is_determined();
        let config = self.config;
        let compound = Compound::read(octets)?;
        are_of_session(compound.nacks(), &config)?;
        let places = mark_nacks(&mut self.history, compound.nacks(), &config);
        Ok(Marked { places })
    }

    /// Takes a feedback datagram that other senders may share: its NACKs may be for several media, and from several
    /// reporters (RFC 3550, section 6.1). Those of this session, for its media and from its receiver, mark as in
    /// [`on_feedback`](Sender::on_feedback); the others are passed over. The answer tells both, and what the history
    /// has of the numbers that are named, as it was before.
    ///
    /// The refusals, in the order of the checks; after each the sender is as it was:
    ///
    /// - 11 to 17: the octets are no compound datagram with a generic NACK, as [`Compound::read`] says.
    /// - `WrongMedia` (18), `WrongReporter` (19): no NACK is of this session. The first NACK decides.
    pub fn on_shared_feedback(&mut self, octets: &[u8]) -> Result<Shared, FeedbackFault>
        ensures hears { HearsShared self.old.config (state_of self.old) octets.now result (state_of self.new) }
        ensures err { OnErr result (self.new ≡ self.old) }
        ensures stays { Stays self.old self.new }
    {
        history_by_place();
        nack_is_determined();
        let config = self.config;
        let compound = Compound::read(octets)?;
        one_is_of_session(compound.nacks(), &config)?;
        let counted = count_nacks(&self.history, compound.nacks(), &config);
        let places = mark_nacks(&mut self.history, compound.nacks(), &config);
        Ok(Shared { places, ..counted })
    }

    /// Marks the last packet that was sent, as feedback that names its sequence number would: unless it is marked
    /// already, or was retransmitted as often as it may be. The answer counts it, or is 0; where nothing was sent it
    /// is 0 too. With 0 the sender is as it was.
    ///
    /// It is for a sender that falls silent. A receiver notices a loss by a packet from above it, so it knows nothing
    /// of the packets that were lost at the end; the last one, retransmitted, shows it all of them.
    pub fn mark_last(&mut self) -> Marked
        ensures marks { MarksLast self.old.config.repeats (state_of self.old) result (state_of self.new) }
        ensures none { result.places ≡ 0 → self.new ≡ self.old }
        ensures stays { Stays self.old self.new }
    {
        history_by_place();
        let Some(last) = Place::new(self.next.saturating_sub(1)) else {
            return Marked { places: 0 };
        };
        let marked = mark_number(&mut self.history, last.number(), self.config.repeats());
        Marked {
            places: u32::from(marked),
        }
    }

    /// The next retransmission and its place, if a packet is to be retransmitted: that of the least place
    /// (RFC 4588, section 4). It may be called at any time. Without one the sender is as it was.
    ///
    /// The retransmissions are numbered one after another, modulo 65536, whatever they repeat.
    pub fn next_repair(&mut self) -> Option<(Place, Datagram)>
        ensures repairs { RepairsAny self.old.config.session (state_of self.old) result (state_of self.new) }
        ensures none { result ≡ None → self.new ≡ self.old }
        ensures stays { Stays self.old self.new }
    {
        let mut out = Datagram::new();
        match self.next_repair_to(&mut out) {
            Some(place) => Some((place, out)),
            None => None,
        }
    }

    /// The same with a datagram that the caller lends for the retransmission, whatever it held. Without one it is as
    /// it was.
    pub fn next_repair_to(&mut self, out: &mut Datagram) -> Option<Place>
        ensures repairs { RepairsAny self.old.config.session (state_of self.old) (repaired_in out.new result) (state_of self.new) }
        ensures lent { result ≡ None → out.new ≡ out.old }
        ensures none { result ≡ None → self.new ≡ self.old }
        ensures stays { Stays self.old self.new }
    {
        let Some((place, entry)) = self.next_entry() else {
            return None;
        };
        let session = self.config.session();
        write_repair_to(
            out,
            &entry.content,
            place.number(),
            self.repair,
            session.repair_type(),
            session.repair_ssrc(),
        );
        self.count_repair(place);
        Some(place)
    }

    /// The same with the retransmission at the front of a slice, whose rest stays. The answer is its place and how many
    /// octets it has.
    ///
    /// `TooShort` (75): the slice is shorter than this retransmission, as [`repair_len`] says; one of
    /// [`MAX_DATAGRAM`](rtpwire::MAX_DATAGRAM) octets never is. The slice and the sender are then as they were.
    pub fn next_repair_into(&mut self, out: &mut [u8]) -> Result<Option<(Place, usize)>, TooShort>
        ensures repairs { RepairsInto self.old.config.session (state_of self.old) out.old result out.new (state_of self.new) }
        ensures enough { MAX_DATAGRAM ≤ length out.old → IsOk result }
        ensures err { OnErr result (self.new ≡ self.old) }
        ensures none { result ≡ Ok None → self.new ≡ self.old }
        ensures stays { Stays self.old self.new }
    {
        let Some((place, entry)) = self.next_entry() else {
            return Ok(None);
        };
        let session = self.config.session();
        let content = Carried::of_content(&entry.content);
        let needed = repair_len(&content);
        if out.len() < needed {
            return Err(TooShort { needed });
        }
        let (original, ssrc) = (place.number(), session.repair_ssrc());
        let len = write_repair_into(
            out,
            &content,
            original,
            self.repair,
            session.repair_type(),
            ssrc,
        );
        self.count_repair(place);
        Ok(Some((place, len)))
    }

    /// The place that [`next_repair`](Sender::next_repair) would retransmit: the least one that is marked, if there is one.
    pub fn next_marked(&self) -> Option<Place>
        ensures { IsNextAny (state_of self.now) result }
    {
        match self.next_entry() {
            Some((place, _)) => Some(place),
            None => None,
        }
    }

    /// Passes over what [`next_repair`](Sender::next_repair) would retransmit: the mark of the least marked place is taken
    /// away, and nothing else changes. So it takes no number of the retransmissions and counts no repeat, and feedback that
    /// names the packet later marks it again. The answer is the place. Without a marked one the sender is as it was.
    ///
    /// It is for a caller that knows the time: a retransmission that is on its way already, or would come too late, is none
    /// to be sent.
    pub fn pass_repair(&mut self) -> Option<Place>
        ensures passes { PassesAny (state_of self.old) result (state_of self.new) }
        ensures none { result ≡ None → self.new ≡ self.old }
        ensures stays { Stays self.old self.new }
    {
        let _config = &self.config;
        let Some((place, _)) = self.next_entry() else {
            return None;
        };
        self.pass(place);
        Some(place)
    }

    /// The least marked place, and its entry.
    fn next_entry(&self) -> Option<(Place, &HistoryEntry)>
        ensures { MatchOption result (NoneMarked (state_of self.now)) (λ it. IsLeastMarked (state_of self.now) it.0 it.1.now) }
    {
        history_by_place();
        let place = self.history.least_marked()?;
        Some((place, self.history.get(place)))
    }

    /// Counts a retransmission of the least marked place, and takes its mark away.
    fn count_repair(&mut self, place: Place)
        requires { (entry : HistoryEntry) × IsLeastMarked (state_of self.old) place entry }
        ensures repairs { (entry : HistoryEntry) → IsLeastMarked (state_of self.old) place entry → Repairs (state_of self.old) place entry (state_of self.new) }
        ensures stays { Stays self.old self.new }
    {
        history_by_place();
        self.history.count_repeat(place);
        self.repair = self.repair.wrapping_add(1);
    }

    /// Takes the mark of the least marked place away.
    fn pass(&mut self, place: Place)
        requires { (entry : HistoryEntry) × IsLeastMarked (state_of self.old) place entry }
        ensures passes { (entry : HistoryEntry) → IsLeastMarked (state_of self.old) place entry → PassesOver (state_of self.old) place entry (state_of self.new) }
        ensures stays { Stays self.old self.new }
    {
        history_by_place();
        self.history.unmark(place);
    }

    /// Its history, to see what it keeps and is to retransmit.
    pub fn history(&self) -> &H
        ensures past { H.meaning result.now ≡ self.now.past }
        ensures sending { IsSending self.now }
    {
        &self.history
    }
}
