//! The receiving end for C, and what it measures of the path.
ghost use Rattle.std.specs.Prelude.{◌≡◌, ◌↔◌, ◌^◌, ℕ, ◌<◌, ◌≤◌, nat_lt, false, length, Some, None, IsSome, Ok};
ghost use Rattle.std.specs.Option.{option_map};
ghost use Rattle.arrayvec.specs.ArrayVec.{ArrayVec};
ghost use Rattle.endpoint.specs.Measuring.{meter_heard};
ghost use Rattle.endpoint.specs.ReceiveCounts.{passed_by};
ghost use Rattle.receiver.specs.Receiver.{state_of};
ghost use Rattle.receiver.specs.Peeking.{is_ready};
ghost use Rattle.receiver.specs.Waking.{IsQuiet};
ghost use Rattle.stores.specs.Asking.{has_come};
ghost use Rattle.stores.specs.Lent.{slot_of};
ghost use Rattle.stores.specs.Span.{front_of};
ghost use Rattle.gozdrit.specs.Following.{AsksAgain, AsksAs, AsksEarned, AsksNext, HearsAs, HearsOwn, PassesAs, core_of, leaves_twice, left_behind, next_play, patience_of, timed_where};
ghost use Rattle.timing.specs.NackRoom.{budget_with, room_in};

use crate::again::{Again, MAX_NACK, copy_of, write_copy};
use crate::budget::{MIN_NACK, is_earned};
use endpoint::{AskingEndpoint, Heard, Passed, PathMeter, Standing};
use receiver::ReceiveFault;
use rtpwire::TooShort;
use stores::{RingWindow, SlotRef, Window};
use timing::{FeedbackBudget, earn_feedback, feedback_room, fewer_in, spend_feedback};

/// A receiver, what it measured of the path, and whether the times of its asks follow that, and a place is given up by when its packet
/// was sent. Where no times follow, nothing is measured. A NACK of it may leave twice.
#[derive(Drop)]
pub struct MeteredReceiver {
    pub(crate) endpoint: AskingEndpoint<RingWindow>,
    pub(crate) meter: PathMeter,
    pub(crate) follows: bool,
    pub(crate) by_sent: bool,
    /// How often each NACK leaves: once, twice, or twice while the times follow and the far side answers one of both (0).
    pub(crate) copies: u8,
    pub(crate) again: Option<Again>,
    /// What may leave as NACKs, where that is earned by what comes.
    pub(crate) budget: Option<FeedbackBudget>,
}

impl MeteredReceiver {
    /// `AskingEndpoint::on_datagram`. Where that measured something, the times follow.
    pub(crate) fn on_datagram(&mut self, octets: &[u8], now: u64) -> Result<Heard, ReceiveFault>
        ensures { HearsAs self.old octets.now now result self.new }
    {
        if !self.follows {
            return self.hear(octets, now);
        }
        let standing = Standing::before(self.endpoint.endpoint().core(), octets);
        let answer = self.hear(octets, now);
        self.measure(&answer, &standing, now);
        answer
    }

    /// What the endpoint's own call does. What came earns what is asked for.
    fn hear(&mut self, octets: &[u8], now: u64) -> Result<Heard, ReceiveFault>
        ensures own { HearsOwn self.old octets.now now result self.new }
        ensures meter { self.new.meter ≡ self.old.meter }
        ensures follows { self.new.follows ≡ self.old.follows }
        ensures by_sent { self.new.by_sent ≡ self.old.by_sent }
        ensures copies { self.new.copies ≡ self.old.copies }
        ensures again { self.new.again ≡ self.old.again }
        ensures budget { self.new.budget ≡ budget_with (length octets.now) self.old.budget }
    {
        earn_feedback(&mut self.budget, octets.len());
        self.endpoint.on_datagram(octets, now).0
    }

    /// Measures the path by what was heard, and has the times follow.
    fn measure(&mut self, answer: &Result<Heard, ReceiveFault>, standing: &Standing, now: u64)
        ensures { self.new ≡ timed_where (meter_heard answer.now standing.now now self.old.meter).is_new (meter_heard answer.now standing.now now self.old.meter) now self.old }
    {
        self.meter.hear(answer, standing, now);
        if self.meter.is_new() {
            let patience = self.endpoint.endpoint().core().config().patience();
            self.meter.follow(&mut self.endpoint, patience, now);
        }
    }

    /// Writes the NACK that is to leave once more, and else what `AskingEndpoint::ask_most_into` does, as far as that was earned.
    pub(crate) fn ask_most_into(
        &mut self,
        out: &mut [u8],
        now: u64,
        most: usize,
    ) -> Result<Option<usize>, TooShort>
        ensures { AsksNext self.old.again self.old now most out.old result out.new self.new }
    {
        if self.again.is_some() {
            return self.ask_again(out);
        }
        let asked = self.ask_earned(out, now, most);
        if let Ok(Some(len)) = asked {
            self.leave(&out[..len]);
        }
        asked
    }

    /// A NACK leaves, and once more where it leaves twice and that was earned too. By itself, as most asks are for nothing.
    #[inline(never)]
    fn leave(&mut self, nack: &[u8])
        requires { length nack.now ≤ MAX_NACK }
        ensures { self.new ≡ left_behind nack.now self.old }
    {
        spend_feedback(&mut self.budget, nack.len());
        if self.leaves_twice() && is_earned(&self.budget, nack.len()) {
            spend_feedback(&mut self.budget, nack.len());
            self.keep(nack);
        }
    }

    /// Writes the NACK that is to leave once more. By itself, as is what keeps it, so that an ask for nothing blanks no room for one.
    #[inline(never)]
    fn ask_again(&mut self, out: &mut [u8]) -> Result<Option<usize>, TooShort>
        requires { IsSome self.old.again }
        ensures { (copy : ArrayVec ℕ) → self.old.again ≡ Some copy → AsksAgain copy.items self.old out.old result out.new self.new }
    {
        let len = write_copy(self.again.as_ref().unwrap().as_slice(), out)?;
        self.again = None;
        Ok(Some(len))
    }

    /// Has a NACK leave once more.
    #[inline(never)]
    fn keep(&mut self, octets: &[u8])
        requires { length octets.now ≤ MAX_NACK }
        ensures { self.new ≡ record self.old { again = Some (record { items = octets.now }) } }
    {
        self.again = Some(copy_of(octets));
    }

    /// What is due is asked for, as far as that was earned: of no more places than have room with a pair each. One call for both cases, so that an
    /// ask for nothing, which most are, stays short.
    fn ask_earned(
        &mut self,
        out: &mut [u8],
        now: u64,
        most: usize,
    ) -> Result<Option<usize>, TooShort>
        ensures asks { AsksEarned self.old.budget self.old now most out.old result out.new self.new }
        ensures within { (len : ℕ) → result ≡ Ok (Some len) → len ≤ MAX_NACK }
    {
        let mut space = out.len();
        let mut most = most;
        if self.budget.is_some() {
            let room = feedback_room(&self.budget);
            if room < MIN_NACK {
                return Ok(None);
            }
            space = space.min(room);
            most = most.min(fewer_in(room));
        }
        self.ask_due(&mut out[..space], now, most)
    }

    /// `AskingEndpoint::ask_most_into`, which is measured.
    fn ask_due(&mut self, out: &mut [u8], now: u64, most: usize) -> Result<Option<usize>, TooShort>
        ensures asks { AsksAs self.old now most out.old result out.new self.new }
        ensures within { (len : ℕ) → result ≡ Ok (Some len) → len ≤ MAX_NACK }
    {
        let asked = self.endpoint.ask_most_into(out, now, most);
        if let (true, Ok(Some(len))) = (self.follows, asked) {
            self.meter
                .ask(self.endpoint.endpoint().core(), &out[..len], now);
        }
        asked
    }

    /// Whether each NACK leaves twice.
    fn leaves_twice(&self) -> bool
        ensures { result ≡ leaves_twice self.now }
    {
        self.copies == 2 || (self.copies == 0 && self.follows && !self.meter.answers_both())
    }

    /// From when on there is something to do: at any moment, where a NACK is to leave once more. Where none was earned there is nothing to ask.
    pub(crate) fn next_moment(&self) -> Option<u64>
        ensures again { IsSome self.now.again → result ≡ Some 0 }
        ensures unearned { self.now.again ≡ None → room_in self.now.budget < 16 → (m : ℕ) → m < 2 ^ 64
            → is_ready (patience_of self.now) m (front_of (core_of self.now).span) ≡ has_come result m }
        ensures quiet { self.now.again ≡ None → 16 ≤ room_in self.now.budget → (m : ℕ) → m < 2 ^ 64
            → IsQuiet (record (core_of self.now).config { patience = patience_of self.now }) (state_of (core_of self.now)) m ↔ (has_come result m ≡ false) }
    {
        if self.again.is_some() {
            return Some(0);
        }
        let core = self.endpoint.endpoint().core();
        if feedback_room(&self.budget) < MIN_NACK {
            return ready_from(core.window().front(), self.patience_left());
        }
        core.next_moment_within(self.patience_left())
    }

    /// How long the next place to play is waited for since it was noticed to be missing.
    pub(crate) fn patience_left(&self) -> u64
        ensures { result ≡ patience_of self.now }
    {
        let core = self.endpoint.endpoint().core();
        if self.by_sent {
            self.meter.patience_left(core)
        } else {
            core.config().patience()
        }
    }

    /// `AskingEndpoint::pass_known`, with the patience that is left for the next place.
    pub(crate) fn pass(&mut self, passed: Passed, patience: u64, now: u64)
        requires patience { patience ≡ patience_of self.old }
        requires passed { passed ≡ passed_by (next_play self.old now) }
        ensures { PassesAs self.old now self.new }
    {
        match &passed {
            Passed::Packet(place) => self.meter.pass(*place),
            Passed::Gap(place) => self.meter.give_up(*place, now),
            Passed::Nothing => {}
        }
        self.endpoint.pass_known(passed, patience, now);
    }
}

/// From when on the next place is to be played or given up.
fn ready_from(front: Option<SlotRef<'_>>, patience: u64) -> Option<u64>
    ensures { (now : ℕ) → now < 2 ^ 64 → is_ready patience now (option_map slot_of front.entry) ≡ has_come result now }
{
    match front {
        None => None,
        Some(SlotRef::Held(_)) => Some(0),
        Some(SlotRef::Missing { noticed, .. }) => noticed.checked_add(patience),
    }
}
