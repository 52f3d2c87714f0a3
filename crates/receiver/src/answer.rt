use places::Place;
use rtpwire::Content;

/// What taking a packet did: [`Receiver::on_media`](crate::Receiver::on_media) answers it.
#[derive(Clone, Copy, Debug, PartialEq, Eq)]
pub struct Taken {
    /// The place that the packet has.
    pub place: Place,
    /// How many places the window dropped for good to make room for it: neither played nor given up,
    /// whether they were held, missing or never noticed. Mostly 0.
    pub overrun: u64,
}

/// What a play gave: [`Receiver::play`](crate::Receiver::play) answers it.
#[derive(Debug, Drop, PartialEq, Eq)]
pub enum Played {
    /// The content of the next place, which is played.
    Packet(Place, Content),
    /// The next place, which was missing and is given up.
    Gap(Place),
    /// Nothing so far: the next place is missing and its patience has not passed, or nothing is kept.
    Wait,
}

/// What a play would give now, lent: [`Receiver::peek`](crate::Receiver::peek) answers it.
#[derive(Clone, Copy)]
pub enum Peeked<'a> {
    /// The next place, and its content where the window keeps it.
    Packet(Place, &'a Content),
    /// The next place, which is missing and to be given up.
    Gap(Place),
    /// Nothing so far.
    Wait,
}
