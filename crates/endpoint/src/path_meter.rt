//! How a path is measured by what a receiving endpoint hears of it, and asks there.
ghost use Rattle.std.specs.Prelude.{◌≡◌, ◌||◌, false, true};
ghost use Rattle.stores.specs.ByPlace.{slot_at};
ghost use Rattle.endpoint.specs.Measuring.{again_by, asks_of, left_at, measured_by, meter_asked, meter_given_up, meter_heard, meter_passed, meter_restarted, new_meter, refused_by, seen_by, times_set, trip_after, trip_probed};
ghost use Rattle.timing.specs.Path.{times_over};

use crate::asked_places::asked_at;
use crate::asking_endpoint::AskingEndpoint;
use crate::heard::Heard;
use crate::standing::{Awaited, Standing};
use places::Place;
use receiver::{ReceiveFault, Receiver};
use rtpwire::u16_at;
use stores::{SlotRef, Window};
use timing::{Arrivals, Path, RoundTrip};

/// Where the number of the first place of a NACK ends (RFC 4585, section 6.2.1), in octets.
const FIRST_END: usize = 14;

/// What a receiving endpoint measured of the path to its far side: how long a retransmission takes, how far packets come behind later
/// ones, how they came, and how many were lost. By it the times of asks follow the path, so that as many fit into the patience as can be answered in time
/// ([`timing::AskTimes`]), and a place is given up by when its packet was sent.
///
/// It is handed what its endpoint answers: each datagram, with where the receiver stood before it ([`Standing::before`]), each NACK,
/// and each place that is played or given up. Moments and spans are in milliseconds.
#[derive(Clone, Copy, Debug, PartialEq, Eq)]
pub struct PathMeter {
    path: Path,
    /// Whether something was measured since the times were set.
    is_new: bool,
}

impl PathMeter {
    /// Nothing was measured so far.
    pub fn new() -> PathMeter
        ensures { result ≡ new_meter }
    {
        PathMeter {
            path: Path::new(),
            is_new: false,
        }
    }

    /// The endpoint answered so to a datagram, before which its receiver stood so.
    pub fn hear(&mut self, answer: &Result<Heard, ReceiveFault>, standing: &Standing, now: u64)
        ensures { self.new ≡ meter_heard answer.now standing.now now self.old }
    {
        let is_more = measure(&mut self.path, answer, standing, now);
        self.learn(is_more);
    }

    /// The endpoint made this NACK, and its receiver stands so since. The round-trip time is measured by the first place that the NACK
    /// names, if that is asked for for the first time and no other one is measured. One that is asked for again is in doubt.
    pub fn ask<W: Window>(&mut self, core: &Receiver<W>, nack: &[u8], now: u64)
        ensures { self.new ≡ meter_asked core.now.span nack.now now self.old }
    {
        if let Some(highest) = core.window().highest() {
            watch(&mut self.path.trip, core, highest, nack, now);
        }
    }

    /// A place was played.
    pub fn pass(&mut self, place: Place)
        ensures { self.new ≡ meter_passed place self.old }
    {
        self.path.trip.pass(place);
    }

    /// A place was given up: so an answer takes longer than that was waited for, where none came to two others before.
    pub fn give_up(&mut self, place: Place, now: u64)
        ensures { self.new ≡ meter_given_up place now self.old }
    {
        let is_more = self.path.trip.give_up(place, now);
        self.learn(is_more);
    }

    /// What was measured is more than was known, where it says so.
    fn learn(&mut self, is_more: bool)
        ensures { self.new ≡ record self.old { is_new = self.old.is_new || is_more } }
    {
        self.is_new = self.is_new || is_more;
    }

    /// The endpoint was made one that took nothing: what was measured of the path stays, and what was of the stream goes.
    pub fn restart(&mut self)
        ensures { self.new ≡ meter_restarted self.old }
    {
        self.path.trip.forget();
        self.path.arrivals = Arrivals::new();
    }

    /// The endpoint was told other times, which are to follow what was measured anew.
    pub fn renew(&mut self)
        ensures { self.new ≡ record self.old { is_new = true } }
    {
        self.is_new = true;
    }

    /// Whether something was measured since [`follow`](PathMeter::follow) had the times follow it.
    pub fn is_new(&self) -> bool
        ensures { result ≡ self.now.is_new }
    {
        self.is_new
    }

    /// Has the times of asks of an endpoint follow what was measured at the moment `now`, so that as many as can be fit into the span
    /// `within`: the patience, or what is left of it for asks. They stay until a round trip was measured.
    pub fn follow<W: Window>(&mut self, endpoint: &mut AskingEndpoint<W>, within: u64, now: u64)
        ensures meter { self.new ≡ record self.old { is_new = false } }
        ensures core { endpoint.new.endpoint.core ≡ times_set (times_over self.old.path within now) endpoint.old.endpoint.core.config.patience endpoint.old.endpoint.core }
        ensures spare { endpoint.new.endpoint.spare ≡ times_set (times_over self.old.path within now) endpoint.old.endpoint.core.config.patience endpoint.old.endpoint.spare }
        ensures rest { endpoint.new ≡ record endpoint.old { endpoint = record endpoint.old.endpoint { core = endpoint.new.endpoint.core; spare = endpoint.new.endpoint.spare } } }
    {
        self.is_new = false;
        let patience = endpoint.endpoint().core().config().patience();
        if let Some(times) = self.path.times(within, now) {
            let _ = endpoint.set_times(patience, times.delay, times.retry);
        }
    }

    /// How long the next place to play is waited for since it was noticed to be missing: the patience, but for how long before that its
    /// packet was sent, as far as a silence tells it.
    pub fn patience_left<W: Window>(&self, core: &Receiver<W>) -> u64
        ensures { result ≡ left_at self.now.path.arrivals core.now.config.patience core.now.span.cursor }
    {
        let patience = core.config().patience();
        match core.window().cursor() {
            Some(place) => patience.saturating_sub(self.path.arrivals.lead(place)),
            None => patience,
        }
    }

    /// Whether the far side answers both of two copies of a NACK.
    pub fn answers_both(&self) -> bool
        ensures { result ≡ self.now.path.trip.both }
    {
        self.path.trip.answers_both()
    }

    /// What was measured.
    pub fn path(&self) -> Path
        ensures { result ≡ self.now.path }
    {
        self.path
    }
}

/// Measures the path by what was heard, and answers whether that is more than was known.
fn measure(
    path: &mut Path,
    answer: &Result<Heard, ReceiveFault>,
    standing: &Standing,
    now: u64,
) -> bool
    ensures { (result, path.new) ≡ measured_by answer.now standing.now path.old now }
{
    match answer {
        Ok(Heard::Repair(taken)) => path.repair(taken.place, now),
        Ok(Heard::Media(taken)) => {
            path.arrivals.come(
                standing.highest,
                standing.cursor,
                standing.least,
                taken.place,
                now,
            );
            see(path, &standing.awaited, taken.place, now)
        }
        Ok(Heard::Restarted(_)) => {
            path.arrivals.restart(now);
            false
        }
        Err(ReceiveFault::Put(_)) => hear_again(path, standing, now),
        _ => false,
    }
}

/// A retransmission, or media, was refused at its place, as its packet came before.
fn hear_again(path: &mut Path, standing: &Standing, now: u64) -> bool
    ensures { (result, path.new) ≡ again_by standing.now.original standing.now.place path.old now }
{
    match standing.original {
        Some(original) => path.trip.hear_again(original, now),
        None => refuse(path, standing.place, now),
    }
}

/// Media was refused at this place, as its packet came before.
fn refuse(path: &mut Path, place: Option<Place>, now: u64) -> bool
    ensures { (result, path.new) ≡ refused_by place path.old now }
{
    match place {
        Some(place) => path.refuse(place, now),
        None => false,
    }
}

/// A media packet was taken: how late it was is seen, where it was waited for.
fn see(path: &mut Path, awaited: &Option<Awaited>, place: Place, now: u64) -> bool
    ensures { (result, path.new) ≡ seen_by awaited.now path.old place now }
{
    match awaited {
        Some(awaited) if awaited.place == place => {
            path.see(now.saturating_sub(awaited.noticed), now)
        }
        _ => {
            path.take(now);
            false
        }
    }
}

/// A NACK was made, with this place as the highest: what is measured already is watched, or else its first place is measured.
fn watch<W: Window>(trip: &mut RoundTrip, core: &Receiver<W>, highest: Place, nack: &[u8], now: u64)
    ensures { trip.new ≡ trip_after trip.old.probe core.now.span highest nack.now now trip.old }
{
    if let Some(place) = trip.place() {
        if let Some(asks) = asks_for(core, place) {
            if asks > 1 {
                trip.doubt(now);
            }
            return;
        }
        // It has left the window, and no retransmission of it is taken any more.
        trip.pass(place);
    }
    probe(trip, core, highest, nack, now);
}

/// The first place that a NACK names is measured, if it is asked for for the first time.
fn probe<W: Window>(trip: &mut RoundTrip, core: &Receiver<W>, highest: Place, nack: &[u8], now: u64)
    ensures { trip.new ≡ trip_probed core.now.span highest nack.now now trip.old }
{
    if nack.len() < FIRST_END {
        return;
    }
    let place = asked_at(highest, u16_at(nack, FIRST_END - 2));
    if asks_for(core, place) == Some(1) {
        trip.ask(place, now);
    }
}

/// How often a place was asked for, if it is missing.
pub(crate) fn asks_for<W: Window>(core: &Receiver<W>, place: Place) -> Option<u8>
    ensures { result ≡ asks_of (slot_at core.now.span place) }
{
    match core.window().slot(place) {
        Some(SlotRef::Missing { asks, .. }) => Some(asks),
        _ => None,
    }
}
