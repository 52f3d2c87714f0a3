//! What the relay behind a network asks its far side for.
ghost use Rattle.std.specs.Prelude.{◌≡◌, ◌^◌, ◌≤◌, ◌<◌, ℕ, false, length, None, IfSome};
ghost use Rattle.relays.specs.declared.relay.Note.TheVariants as note;
ghost use Rattle.rtpwire.specs.declared.limits.TheConstants.{MAX_DATAGRAM};
ghost use Rattle.stores.specs.Asking.{has_come};
ghost use Rattle.relays.specs.Passing.{IsWithin};
ghost use Rattle.relays.specs.LatencyReports.{IsWritten, is_told_behind, reports_after};
ghost use Rattle.relays.specs.ReceiveRelay.{Asks, AsksAgain, AsksIn, AsksNot, AsksWithin, NothingAsked, NothingDue, StaysBut, report_of};

use super::ReceiveRelay;
use crate::feedback::spend;
use crate::latency_report::{LatencyReport, REPORT};
use crate::latency_reports::LatencyReports;
use crate::outside::Side;
use crate::relay::{Departure, Note, Turn};
use crate::writing::copy_of;
use rtpwire::TooShort;
use stores::{AskRule, Window, window_by_place};
use timing::{feedback_room, fewer_in};

/// How many places one ask names at most.
const MOST: usize = 256;

/// A NACK has so many octets at least.
const SHORTEST: usize = 16;

impl<W: Window> ReceiveRelay<W> {
    /// From when on something is to be asked for.
    pub(super) fn ask_moment(&self) -> Option<u64>
        ensures { (now : ℕ) → now < 2 ^ 64 → has_come result now ≡ false → NothingAsked self.now now }
    {
        if feedback_room(&self.budget) < SHORTEST {
            return None;
        }
        self.due_moment()
    }

    /// From when on a place is due.
    fn due_moment(&self) -> Option<u64>
        ensures { (now : ℕ) → now < 2 ^ 64 → has_come result now ≡ false → NothingDue self.now now }
    {
        window_by_place();
        let config = self.core().config();
        self.core().window().next_due(AskRule {
            delay: config.delay(),
            retry: config.retry(),
            asks: config.asks(),
        })
    }

    /// Asks the far side for what is due. By itself, as is what keeps it: an ask for nothing, which most are, blanks
    /// no room and moves no turn.
    #[inline(never)]
    pub(super) fn ask(&mut self, now: u64, out: &mut [u8]) -> Option<Turn>
        requires { length out.old ≡ MAX_DATAGRAM }
        ensures some { IfSome result (λ turn. Asks self.old now turn.note turn.leaves out.new self.new) }
        ensures none { result ≡ None → NothingAsked self.old now }
        ensures same { result ≡ None → self.new ≡ self.old }
        ensures within { IfSome result IsWithin }
        ensures room { length out.new ≡ MAX_DATAGRAM }
    {
        let room = feedback_room(&self.budget);
        if room < SHORTEST {
            return None;
        }
        let nack = self.ask_within(room, now, out)?;
        let len = self.report(nack, room, now, out);
        self.meter
            .ask(self.endpoint.endpoint().core(), &out[..len], now);
        self.copy = None;
        if spend(&mut self.budget, len) {
            self.keep(&out[..len]);
        }
        Some(Turn {
            note: Note::Asked,
            leaves: Some(Departure {
                side: Side::Far,
                to: self.far.at(),
                len,
            }),
        })
    }

    /// Writes the latency behind a NACK of so many octets, where it is to be told and there is room for both
    /// twice, so that it costs no NACK its copy, and answers how many octets leave.
    fn report(&mut self, nack: usize, room: usize, now: u64, out: &mut [u8]) -> usize
        requires whole { length out.old ≡ MAX_DATAGRAM }
        requires limit { room ≤ 268 }
        requires within { nack ≤ room }
        ensures written { IsWritten (is_told_behind self.old.reports nack room now) (report_of self.old) nack result out.old out.new }
        ensures rest { self.new ≡ record self.old { reports = reports_after (is_told_behind self.old.reports nack room now) now self.old.reports } }
        ensures limit { result ≤ room }
    {
        let Some(reports) = self.reports else {
            return nack;
        };
        let len = nack + REPORT;
        if 2 * len > room || !reports.is_due(now) {
            return nack;
        }
        let octets = self.latency_report().write();
        out[nack..len].copy_from_slice(&octets);
        self.reports = Some(LatencyReports::told(now));
        len
    }

    /// How long it waits for what is missing, as the far side is told.
    fn latency_report(&self) -> LatencyReport
        ensures { result ≡ report_of self.now }
    {
        let config = self.core().config();
        LatencyReport {
            ssrc: config.session().receiver_ssrc(),
            latency: config.patience().min(u64::from(u32::MAX)) as u32,
        }
    }

    /// Has a NACK leave once more.
    #[inline(never)]
    fn keep(&mut self, nack: &[u8])
        requires { length nack.now ≤ MAX_DATAGRAM }
        ensures { self.new ≡ record self.old { copy = Some (record { items = nack.now }) } }
    {
        self.copy = Some(copy_of(nack));
    }

    /// Writes a NACK of so many octets at most: of all that is due, as far as one has room for it, or else of as many
    /// places as have, a pair each.
    fn ask_within(&mut self, room: usize, now: u64, out: &mut [u8]) -> Option<usize>
        requires whole { length out.old ≡ MAX_DATAGRAM }
        requires limit { room ≤ 268 }
        ensures some { IfSome result (λ len. AsksWithin room self.old now len out.new self.new) }
        ensures stays { StaysBut self.old self.new }
        ensures config { self.new.core.config ≡ self.old.core.config }
        ensures none { result ≡ None → AsksNot room self.old now }
        ensures same { result ≡ None → self.new ≡ self.old }
        ensures room { length out.new ≡ MAX_DATAGRAM }
    {
        match self.ask_most(room, MOST, now, out) {
            Ok(len) => len,
            Err(_) => match self.ask_most(room, fewer_in(room), now, out) {
                Ok(len) => len,
                Err(_) => None,
            },
        }
    }

    /// Writes a NACK of so many places at most that are due, which has so many octets at most.
    fn ask_most(
        &mut self,
        room: usize,
        most: usize,
        now: u64,
        out: &mut [u8],
    ) -> Result<Option<usize>, TooShort>
        requires whole { length out.old ≡ MAX_DATAGRAM }
        requires limit { room ≤ 268 }
        ensures asks { AsksIn room most self.old now result out.new self.new }
        ensures config { self.new.core.config ≡ self.old.core.config }
        ensures room { length out.new ≡ MAX_DATAGRAM }
    {
        self.endpoint.ask_most_into(&mut out[..room], now, most)
    }

    /// Sends the last NACK once more, so that the loss of one of both costs no time.
    pub(super) fn ask_again(&mut self, out: &mut [u8]) -> Option<Turn>
        requires { length out.old ≡ MAX_DATAGRAM }
        ensures some { IfSome result (λ turn. (turn.note ≡ note.AskedAgain) × AsksAgain self.old turn.leaves out.new self.new) }
        ensures none { result ≡ None → self.old.copy ≡ None }
        ensures same { result ≡ None → self.new ≡ self.old }
        ensures within { IfSome result IsWithin }
        ensures room { length out.new ≡ MAX_DATAGRAM }
    {
        // Where there is none, as is usual, nothing is moved.
        let Some(copy) = &self.copy else {
            return None;
        };
        let len = copy.len();
        out[..len].copy_from_slice(copy.as_slice());
        self.copy = None;
        Some(Turn {
            note: Note::AskedAgain,
            leaves: Some(Departure {
                side: Side::Far,
                to: self.far.at(),
                len,
            }),
        })
    }
}
