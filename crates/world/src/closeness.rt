//! Whether a log is close and nothing was injected, kept as the log grows.
ghost use Rattle.std.specs.Prelude.{◌≡◌, ◌↔◌, [], ◌∷◌, List, IsTrue};
ghost use Rattle.world.specs.declared.event.Entry.{Entry as Logged};
ghost use Rattle.world.specs.Labels.{place_of};
ghost use Rattle.world.specs.Reach.{greater};
ghost use Rattle.world.specs.Close.{IsCloseTo, TellsCloseness};

use crate::event::{Answer, Entry, Label};
use places::Place;

/// A packet is close to the greatest place taken where it lies less than this away. From here on, which is
/// 65536 - 16383, its sequence number is that of a place near the greatest one.
const CLOSE_DISTANCE: u64 = 49153;

/// What a world keeps of its log to tell whether it is close and nothing was injected, however long it is.
#[derive(Clone, Copy)]
pub(crate) struct Closeness {
    /// The greatest of the sender's places of which a packet was taken.
    highest: Option<Place>,
    /// Whether the log is close and nothing was injected.
    holds: bool,
}

impl Closeness {
    /// That of a log with no entry.
    pub(crate) fn new() -> Closeness
        ensures { TellsCloseness result.highest result.holds [] }
    {
        Closeness {
            highest: None,
            holds: true,
        }
    }

    /// That of the log with one more entry.
    pub(crate) fn after(self, entry: &Entry) -> Closeness
        ensures { (past : List Logged) → TellsCloseness self.highest self.holds past → TellsCloseness result.highest result.holds (entry.now ∷ past) }
    {
        match entry {
            Entry::Delivered { label, answer, .. } => match answer {
                Answer::Taken(_) => Closeness {
                    highest: higher(self.highest, label.place()),
                    holds: self.stays(label),
                },
                Answer::Refused(_) | Answer::Marked(_) | Answer::FeedbackRefused(_) => Closeness {
                    highest: self.highest,
                    holds: self.stays(label),
                },
            },
            Entry::Injected { .. } => Closeness {
                holds: false,
                ..self
            },
            Entry::Sent { .. } => self,
            Entry::SendRefused(_) => self,
            Entry::Repaired { .. } => self,
            Entry::NoRepair => self,
            Entry::Asked { .. } => self,
            Entry::NoAsk { .. } => self,
            Entry::Nothing => self,
            Entry::Played { .. } => self,
        }
    }

    /// Whether the log is close and nothing was injected.
    pub(crate) fn holds(&self) -> bool
        ensures { result ≡ self.now.holds }
    {
        self.holds
    }

    /// The greatest of the sender's places of which a packet was taken.
    pub(crate) fn highest(&self) -> Option<Place>
        ensures { result ≡ self.now.highest }
    {
        self.highest
    }

    /// Whether the log still is after a delivery of this label.
    fn stays(&self, label: &Label) -> bool
        ensures { IsTrue result ↔ (IsTrue self.now.holds × IsCloseTo self.now.highest (place_of label.now)) }
    {
        self.holds && is_close_to(self.highest, label.place())
    }
}

fn is_close_to(highest: Option<Place>, place: Option<Place>) -> bool
    ensures { IsTrue result ↔ IsCloseTo highest place }
{
    let Some(highest) = highest else {
        return true;
    };
    let Some(place) = place else {
        return true;
    };
    place.value() < highest.value() + CLOSE_DISTANCE
        && highest.value() < place.value() + CLOSE_DISTANCE
}

/// The higher one of both, as far as there are any.
fn higher(highest: Option<Place>, place: Option<Place>) -> Option<Place>
    ensures { result ≡ greater highest place }
{
    let Some(place) = place else {
        return highest;
    };
    let Some(highest) = highest else {
        return Some(place);
    };
    Some(highest.max(place))
}
