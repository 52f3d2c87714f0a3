//! What happens in a world, and what its log tells of it.
ghost use Rattle.std.specs.Prelude.{◌≡◌};
ghost use Rattle.world.specs.Labels.{end_of, place_of};

use arrayvec::ArrayVec;
use fbwire::{FeedbackFault, Pair};
use places::Place;
use receiver::{Played, ReceiveFault, Taken};
use rtpwire::{Content, Datagram};
use sender::{Marked, SendFault};

/// How many pairs an ask has at most.
pub(crate) const MAX_PAIRS: usize = 64;

/// Which end.
#[derive(Clone, Copy, Debug, PartialEq, Eq)]
pub enum End {
    /// The sending end.
    Sender,
    /// The receiving end.
    Receiver,
}

/// What happens. Moments are in milliseconds, and need not rise.
#[derive(Debug, Drop, PartialEq, Eq)]
pub enum Event {
    /// The sender sends a content with so many octets of padding.
    Send(Content, u8),
    /// The sender retransmits the least of the places that are marked.
    Repair,
    /// The receiver asks for missing places at a moment.
    Ask(u64),
    /// The wire's datagram at an index, counted from 0, reaches its end at a moment.
    Deliver(u64, u64),
    /// The receiver plays at a moment.
    Play(u64),
    /// A datagram that nobody sent reaches an end at a moment.
    Inject(End, Datagram, u64),
}

/// What a datagram on the wire is.
#[derive(Debug, Drop, PartialEq, Eq)]
pub enum Label {
    /// The media packet of this place of the sender's.
    Media(Place),
    /// A retransmission of this place of the sender's.
    Repair(Place),
    /// An ask with these pairs.
    Feedback(ArrayVec<Pair, MAX_PAIRS>),
}

impl Label {
    /// The same label once more. It takes no memory.
    pub fn copy(&self) -> Label
        ensures { result ≡ self.now }
    {
        match self {
            Label::Media(place) => Label::Media(*place),
            Label::Repair(place) => Label::Repair(*place),
            Label::Feedback(pairs) => Label::Feedback(copy_of_pairs(pairs)),
        }
    }

    /// The end that the datagram under it is for.
    pub(crate) fn end(&self) -> End
        ensures { result ≡ end_of self.now }
    {
        match self {
            Label::Media(_) | Label::Repair(_) => End::Receiver,
            Label::Feedback(_) => End::Sender,
        }
    }

    /// The sender's place of the packet under it, if it is a packet's.
    pub(crate) fn place(&self) -> Option<Place>
        ensures { result ≡ place_of self.now }
    {
        match self {
            Label::Media(place) | Label::Repair(place) => Some(*place),
            Label::Feedback(_) => None,
        }
    }
}

/// What an end answers to a datagram.
#[derive(Clone, Copy, Debug, PartialEq, Eq)]
pub enum Answer {
    /// The receiver took it, at a place of its own.
    Taken(Taken),
    /// The receiver refused it.
    Refused(ReceiveFault),
    /// The sender marked places to be retransmitted.
    Marked(Marked),
    /// The sender refused it.
    FeedbackRefused(FeedbackFault),
}

/// What the log tells of an event.
#[derive(Debug, Drop, PartialEq, Eq)]
pub enum Entry {
    /// A content was sent at this place of the sender's, as the wire's datagram at `index`.
    Sent {
        place: Place,
        index: u64,
        content: Content,
    },
    /// A send was refused.
    SendRefused(SendFault),
    /// This place of the sender's was retransmitted, as the wire's datagram at `index`.
    Repaired {
        place: Place,
        index: u64,
    },
    /// There was nothing to retransmit.
    NoRepair,
    /// Missing places were asked for, in the wire's datagram at `index`.
    Asked {
        index: u64,
        now: u64,
    },
    /// There was nothing to ask for.
    NoAsk {
        now: u64,
    },
    /// Nothing is on the wire at the index.
    Nothing,
    /// The wire's datagram at `index`, which has this label, reached its end.
    Delivered {
        index: u64,
        label: Label,
        now: u64,
        answer: Answer,
    },
    /// A datagram that nobody sent reached an end.
    Injected {
        end: End,
        now: u64,
        answer: Answer,
    },
    /// The receiver played.
    Played {
        now: u64,
        played: Played,
    },
}

impl Entry {
    /// The same entry once more. It takes no memory.
    pub fn copy(&self) -> Entry
        ensures { result ≡ self.now }
    {
        match self {
            Entry::Sent {
                place,
                index,
                content,
            } => Entry::Sent {
                place: *place,
                index: *index,
                content: content.copy(),
            },
            Entry::SendRefused(fault) => Entry::SendRefused(*fault),
            Entry::Repaired { place, index } => Entry::Repaired {
                place: *place,
                index: *index,
            },
            Entry::NoRepair => Entry::NoRepair,
            Entry::Asked { index, now } => Entry::Asked {
                index: *index,
                now: *now,
            },
            Entry::NoAsk { now } => Entry::NoAsk { now: *now },
            Entry::Nothing => Entry::Nothing,
            Entry::Delivered {
                index,
                label,
                now,
                answer,
            } => Entry::Delivered {
                index: *index,
                label: label.copy(),
                now: *now,
                answer: *answer,
            },
            Entry::Injected { end, now, answer } => Entry::Injected {
                end: *end,
                now: *now,
                answer: *answer,
            },
            Entry::Played { now, played } => Entry::Played {
                now: *now,
                played: copy_of_played(played),
            },
        }
    }
}

fn copy_of_pairs(pairs: &ArrayVec<Pair, MAX_PAIRS>) -> ArrayVec<Pair, MAX_PAIRS>
    ensures { result ≡ pairs.now }
{
    let mut copy = ArrayVec::new();
    copy.try_extend_from_slice(pairs.as_slice()).unwrap();
    copy
}

fn copy_of_played(played: &Played) -> Played
    ensures { result ≡ played.now }
{
    match played {
        Played::Packet(place, content) => Played::Packet(*place, content.copy()),
        Played::Gap(place) => Played::Gap(*place),
        Played::Wait => Played::Wait,
    }
}
