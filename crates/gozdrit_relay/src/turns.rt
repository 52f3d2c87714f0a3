//! Which of both sockets is read next.
ghost use Rattle.std.specs.Prelude.{◌≡◌};
ghost use Rattle.gozdrit_relay.specs.Turns.{drained, is_ready, next_of, taken, woken};

use relays::Side;

/// So many datagrams of one socket are taken in a row before the other one is looked at first.
const ROW: u8 = 16;

/// Whose turn it is: what came to a socket is taken until it has no more, but after sixteen datagrams in a row the other one is looked at.
/// The system tells once that a socket has something, and again only after that was read to its end: so what it told is kept until then. It is
/// asked only where neither has anything: so after sixteen in a row the other one may have something, whatever it told.
#[derive(Clone, Copy, Debug, PartialEq, Eq)]
pub struct Turns {
    /// Whether the socket of each side may have more.
    near: bool,
    far: bool,
    /// Which one is read where both may.
    is_near_first: bool,
    /// How many datagrams were taken from that one in a row.
    row: u8,
}

impl Turns {
    /// Both may have something.
    pub const BOTH: Turns = Turns {
        near: true,
        far: true,
        is_near_first: true,
        row: 0,
    };

    /// Whether the socket of a side may have more.
    fn is_ready(&self, side: Side) -> bool
        ensures { result ≡ is_ready self.now side }
    {
        match side {
            Side::Near => self.near,
            Side::Far => self.far,
        }
    }

    /// The side whose socket is read next. None: neither has anything.
    pub fn next(&self) -> Option<Side>
        ensures { result ≡ next_of self.now }
    {
        let (first, second) = if self.is_near_first {
            (Side::Near, Side::Far)
        } else {
            (Side::Far, Side::Near)
        };
        if self.is_ready(first) {
            Some(first)
        } else if self.is_ready(second) {
            Some(second)
        } else {
            None
        }
    }

    /// A datagram was taken from the socket of a side.
    pub fn take(&mut self, side: Side)
        ensures { self.new ≡ taken self.old side }
    {
        let is_near = matches!(side, Side::Near);
        let row = self.row.saturating_add(1);
        if is_near != self.is_near_first {
            self.is_near_first = is_near;
            self.row = 1;
        } else if row < ROW {
            self.row = row;
        } else {
            self.near = true;
            self.far = true;
            self.is_near_first = !is_near;
            self.row = 0;
        }
    }

    /// The socket of a side has no more.
    pub fn drain(&mut self, side: Side)
        ensures { self.new ≡ drained self.old side }
    {
        match side {
            Side::Near => self.near = false,
            Side::Far => self.far = false,
        }
    }

    /// The system tells that the socket of a side has something.
    pub fn wake(&mut self, side: Side)
        ensures { self.new ≡ woken self.old side }
    {
        match side {
            Side::Near => self.near = true,
            Side::Far => self.far = true,
        }
    }
}
