ghost use Rattle.std.specs.Prelude.{◌≡◌, ◌+◌, ◌^◌, ◌<◌, SomeIff};
ghost use Rattle.places.specs.Place.{number};

use std::marker::Model;

/// A place in a stream: a whole number below 2^48, which rises by one with each packet.
///
/// Its lowest 16 bits are the sequence number that the packet carries. Contracts see a place as that number.
#[derive(Clone, Copy, Debug, Default, PartialEq, Eq, PartialOrd, Ord, Hash)]
pub struct Place {
    value: u64,
}

impl Model for Place {
    ghost use Rattle.std.specs.Prelude.{ℕ, ◌^◌, ◌<◌};

    ghost Value = { ℕ };

    ghost view = { λ place. place.value };

    ghost invariant = { λ place. place.value < 2 ^ 48 };

    ghost inverse = { λ value. record { value = value } };
}

impl Place {
    /// The place with this value, if it is below 2^48.
    pub fn new(value: u64) -> Option<Place>
        ensures { SomeIff result (value < 2 ^ 48) value }
    {
        if value < 1 << 48 {
            Some(Place { value })
        } else {
            None
        }
    }

    /// The place at which a stream begins whose first packet has this sequence number: one cycle of
    /// 65536 above it, so that packets from before the first one have places too.
    pub fn first(seq: u16) -> Place
        ensures { result ≡ 65536 + seq }
    {
        Place {
            value: 65536 + u64::from(seq),
        }
    }

    /// The place as a number.
    pub fn value(&self) -> u64
        ensures value { result ≡ self.now }
        ensures is_place { self.now < 2 ^ 48 }
    {
        self.value
    }

    /// The sequence number of its packet.
    pub fn number(&self) -> u16
        ensures { result ≡ number self.now }
    {
        (self.value % 65536) as u16
    }

    /// The place after it, or none after the last one, 2^48 - 1.
    pub fn next(&self) -> Option<Place>
        ensures { SomeIff result (self.now + 1 < 2 ^ 48) (self.now + 1) }
    {
        Place::new(self.value + 1)
    }
}
