//! Where a datagram of a packed wire lies, and what it is.
ghost use Rattle.std.specs.Prelude.{◌≡◌};
ghost use Rattle.world.specs.declared.event.Label.{Label as Marking};
ghost use Rattle.world.specs.Pairs.{SpellsPairs};
ghost use Rattle.world.specs.Kinds.{kind_of};

use crate::event::Label;
use crate::pairs::pairs_in;
use places::Place;

/// What a label tells of a datagram beside the pairs of an ask, which are in the datagram itself.
#[derive(Clone, Copy)]
pub(crate) enum Kind {
    /// The media packet of this place of the sender's.
    Media(Place),
    /// A retransmission of this place of the sender's.
    Repair(Place),
    /// An ask.
    Feedback,
}

impl Kind {
    /// That of a label.
    pub(crate) fn of(label: &Label) -> Kind
        ensures { result ≡ kind_of label.now }
    {
        match label {
            Label::Media(place) => Kind::Media(*place),
            Label::Repair(place) => Kind::Repair(*place),
            Label::Feedback(_) => Kind::Feedback,
        }
    }

    /// The label of this kind for these octets.
    pub(crate) fn label(self, octets: &[u8]) -> Label
        ensures { (label : Marking) → self ≡ kind_of label → SpellsPairs label octets.now → result ≡ label }
    {
        match self {
            Kind::Media(place) => Label::Media(place),
            Kind::Repair(place) => Label::Repair(place),
            Kind::Feedback => Label::Feedback(pairs_in(octets)),
        }
    }
}

/// Where a datagram lies among the octets of its wire, and what it is.
#[derive(Clone, Copy)]
pub(crate) struct Slot {
    pub(crate) start: usize,
    pub(crate) len: usize,
    pub(crate) kind: Kind,
}
