ghost use Rattle.std.specs.Prelude.{◌≡◌, ◌↔◌, ◌<◌, ◌≤◌, [], length, take, None, IfOk, IsSome, IsSomeAnd, IsTrue, OnOk, OnErr, if◌then◌else◌};
ghost use Rattle.std.specs.Option.{option_map};
ghost use Rattle.stores.specs.Lent.{slot_of};
ghost use Rattle.stores.specs.Span.{Span, IsSpan, empty_span, begun_span, highest_of, front_of, without_front};
ghost use Rattle.stores.specs.Put.{put_answer, after_put};
ghost use Rattle.stores.specs.ByPlace.{slot_at};
ghost use Rattle.stores.specs.Asking.{longest_ask, due_places, missing_places, IsNextDue, CanBeAsked, CanEachBeAsked, asked, asked_each};

use crate::ask_rule::AskRule;
use crate::memory::OutOfMemory;
use crate::slot::{PutFault, Slot, SlotRef};
use arrayvec::ArrayVec;
use places::Place;
use rtpwire::{Carried, Content};
use std::alloc::Global;

/// How many places one ask names at most: what 64 pairs of feedback can name, 17 each.
pub const LONGEST_ASK: usize = 1088;

/// A receiver's window: the places from the next one to play up to the highest one that was taken, each
/// of them held or missing.
///
/// It takes memory in `new` alone, for all that it will ever keep, so no other call can meet a want of it.
/// Every call leaves its capacity as it is. Any of them may be called at any time, but four: `new` wants a capacity
/// that it can keep, `take_front` and `drop_front` a slot at the front, and `count_ask` a place that may be asked for once more.
///
/// The contracts speak of a cursor and a list of slots; [`window_by_place`](crate::window_by_place) says
/// what they mean for the slot of each place.
pub trait Window: Drop {
    /// The window as its callers see it, however it is kept.
    ghost meaning: { Self → Span };

    /// A window that was not started. It will have at most `capacity` places, from 1 to 8192 of them.
    ///
    /// `OutOfMemory`: the allocator refused the memory.
    fn new(alloc: Global, capacity: usize) -> Result<Self, OutOfMemory>
        requires nonzero { 0 < capacity }
        requires limit { capacity ≤ 8192 }
        ensures { IfOk result (λ window. meaning window ≡ empty_span capacity) };

    /// Starts a window that was not started at this place, before any put, and answers whether it did: the next place to
    /// play is this one, and the highest so far the one before it. So a put above it makes the places from this one on
    /// missing. It does not begin at place 0, which has none before it.
    fn begin(&mut self, first: Place) -> bool
        ensures answer { IsTrue result ↔ (((meaning self.old).cursor ≡ None) × (0 < first)) }
        ensures begins { meaning self.new ≡ (if result then begun_span first (meaning self.old).capacity else meaning self.old) };

    /// Makes it a window that was not started, with the same memory.
    fn clear(&mut self)
        ensures { meaning self.new ≡ empty_span (meaning self.old).capacity };

    /// The next place to play, as a number up to 2^48: past the last place there is no further one. None
    /// where the window was not started, by a `put` or by `begin`, since it was made or cleared.
    fn cursor(&self) -> Option<u64>
        ensures { result ≡ (meaning self.now).cursor };

    /// The highest place that was put, even where all was played since; after `begin`, until one was put, the place before
    /// the first. None where the window was not started since it was made or cleared.
    fn highest(&self) -> Option<Place>
        ensures { result ≡ highest_of (meaning self.now) };

    /// Puts what is carried at its place, at the moment `now`, in milliseconds. Moments need not rise. Nothing of it
    /// is copied before the place is taken.
    ///
    /// The first place starts a window there that was not started. A place above the highest makes those between missing,
    /// noticed at `now`. If the window has no room for it, the lowest places are dropped for good until it
    /// has. The answer is how many places that were neither played nor given up it passed in doing so.
    ///
    /// `Late` (35): the place lies below the cursor. `Duplicate` (36): the place is held already. After
    /// either the window is as it was.
    fn put_from(&mut self, place: Place, carried: &Carried<'_>, now: u64) -> Result<u64, PutFault>
        ensures answer { result ≡ put_answer (meaning self.old) place }
        ensures ok { OnOk result (meaning self.new ≡ after_put (meaning self.old) place carried.now now) }
        ensures err { OnErr result (meaning self.new ≡ meaning self.old) };

    /// The same with a content of the caller's own.
    fn put(&mut self, place: Place, content: Content, now: u64) -> Result<u64, PutFault>
        ensures answer { result ≡ put_answer (meaning self.old) place }
        ensures ok { OnOk result (meaning self.new ≡ after_put (meaning self.old) place content now) }
        ensures err { OnErr result (meaning self.new ≡ meaning self.old) }
    {
        self.put_from(place, &Carried::of_content(&content), now)
    }

    /// The slot of the cursor's place. None before the first `put`, also after `begin`, and where all places up to the
    /// highest were taken out.
    fn front(&self) -> Option<SlotRef<'_>>
        ensures { option_map slot_of result ≡ front_of (meaning self.now) };

    /// Takes out the slot of the cursor's place, and moves the cursor up by one. It may be called where
    /// `front` gives a slot.
    fn take_front(&mut self) -> Slot
        requires { IsSome (front_of (meaning self.old)) }
        ensures front { front_of (meaning self.old) ≡ Some result }
        ensures rest { meaning self.new ≡ without_front (meaning self.old) };

    /// Drops the slot of the cursor's place, and moves the cursor up by one. It may be called where `front` gives a
    /// slot.
    fn drop_front(&mut self)
        requires { IsSome (front_of (meaning self.old)) }
        ensures { meaning self.new ≡ without_front (meaning self.old) };

    /// The slot of this place. None where the window has none: below the cursor and above the highest place.
    fn slot(&self, place: Place) -> Option<SlotRef<'_>>
        ensures { option_map slot_of result ≡ slot_at (meaning self.now) place };

    /// The first [`LONGEST_ASK`] places, or all, if they are fewer, that are due to be asked for at the moment
    /// `now`, in rising order.
    ///
    /// A place is due that is missing, was asked for fewer than `asks` times, and either was never asked for, whenever it
    /// was noticed, or last at least `retry` milliseconds before `now`. A rule with a delay is for `due_into`.
    fn due(&self, now: u64, retry: u64, asks: u8) -> ArrayVec<Place, LONGEST_ASK>
        ensures { result.items ≡ take longest_ask (due_places (meaning self.now) now 0 retry asks) }
    {
        let mut due = ArrayVec::new();
        let rule = AskRule {
            delay: 0,
            retry,
            asks,
        };
        self.due_into(&mut due, now, rule);
        due
    }

    /// The same places by a rule, which may have a delay before the first ask, in a vector that the caller lends, in the
    /// place of what it held.
    fn due_into(&self, due: &mut ArrayVec<Place, LONGEST_ASK>, now: u64, rule: AskRule)
        ensures { due.new.items ≡ take longest_ask (due_places (meaning self.now) now rule.delay rule.retry rule.asks) };

    /// The least moment from which on a place is due by the rule, where nothing changes until then: at every moment from
    /// it on some place is due, and at none before it. None where there is no such moment.
    fn next_due(&self, rule: AskRule) -> Option<u64>
        ensures { IsNextDue (meaning self.now) rule.delay rule.retry rule.asks result };

    /// The same places as [`due_into`](Window::due_into), as many as a slice has room for, at its front; it answers how many. It is for a
    /// caller that asks by one rule again and again: a window may keep what it finds, so that later calls need not look for it.
    fn find_due(&mut self, due: &mut [Place], now: u64, rule: AskRule) -> usize
        ensures due { take result due.new ≡ take (length due.old) (take longest_ask (due_places (meaning self.old) now rule.delay rule.retry rule.asks)) }
        ensures within { result ≤ length due.old }
        ensures len { length due.new ≡ length due.old }
        ensures same { meaning self.new ≡ meaning self.old }
    {
        let mut all = ArrayVec::new();
        self.due_into(&mut all, now, rule);
        all.truncate(due.len());
        let count = all.len();
        due[..count].copy_from_slice(all.as_slice());
        count
    }

    /// Whether it is plain that no place is due at the moment `now` by the rule, by what a window kept; false tells nothing. A caller that
    /// asks by one rule again and again asks this before it calls [`find_due`](Window::find_due).
    fn has_none_due(&self, now: u64, rule: AskRule) -> bool
        ensures { IsTrue result → due_places (meaning self.now) now rule.delay rule.retry rule.asks ≡ [] }
    {
        false
    }

    /// Counts one more ask for this place, made at the moment `now`. The place must be missing, and asked for
    /// fewer than 255 times so far.
    fn count_ask(&mut self, place: Place, now: u64)
        requires { IsSomeAnd (slot_at (meaning self.old) place) CanBeAsked }
        ensures { meaning self.new ≡ asked (meaning self.old) place now };

    /// Counts one more ask for each of these places, one after the other, as [`count_ask`](Window::count_ask) does.
    fn count_asks(&mut self, places: &[Place], now: u64)
        requires { CanEachBeAsked (meaning self.old) places.now now }
        ensures { meaning self.new ≡ asked_each (meaning self.old) places.now now }
    {
        for place in places {
            self.count_ask(*place, now);
        }
    }

    /// How many places are missing.
    fn missing(&self) -> usize
        ensures { result ≡ length (missing_places (meaning self.now)) };

    /// What is true of every window.
    ghost is_span: { (window : Self) → IsSpan (meaning window) };
}
