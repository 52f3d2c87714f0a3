//! What calls tell C. Each of these structs is C's own, and a call writes its fields.
ghost use Rattle.std.specs.Prelude.{◌≡◌};
ghost use Rattle.gozdrit.specs.Told.{TellsSequence, TellsSsrc, TellsTimeout, TellsTimes};

use crate::header::Header;
use places::Place;
use receiver::ReceiverConfig;
use timing::Smoothed;

/// A packet that was written to a buffer: its extended sequence number, and how many octets it has.
#[repr(C)]
#[derive(Drop)]
pub struct SentPacket {
    /// How many octets C's struct has.
    pub size: usize,
    pub sequence: u64,
    pub length: usize,
}

/// What a play gave: nothing (kind 0), a packet (1) or a gap (2).
#[repr(C)]
#[derive(Drop)]
pub struct PlayedPacket {
    /// How many octets C's struct has.
    pub size: usize,
    pub sequence: u64,
    /// How many octets the payload has.
    pub length: usize,
    pub header: Header,
    pub kind: u8,
}

/// An extended sequence number, or none where `known` is 0.
#[repr(C)]
#[derive(Drop)]
pub struct KnownSequence {
    pub sequence: u64,
    pub known: u8,
}

/// An SSRC, or none where `known` is 0.
#[repr(C)]
#[derive(Drop)]
pub struct KnownSsrc {
    pub ssrc: u32,
    pub known: u8,
}

/// A moment in milliseconds, or none where `known` is 0.
#[repr(C)]
#[derive(Drop)]
pub struct KnownTimeout {
    pub time: u64,
    pub known: u8,
}

/// The times of asks in force, and the round trip that they follow, or none where `known` is 0. All are in milliseconds.
#[repr(C)]
#[derive(Drop)]
pub struct KnownTimes {
    /// How many octets C's struct has.
    pub size: usize,
    pub reorder_delay: u64,
    pub nack_interval: u64,
    pub round_trip: u64,
    pub variation: u64,
    pub known: u8,
}

impl KnownSequence {
    pub(crate) fn tell(&mut self, sequence: Option<u64>)
        ensures { TellsSequence sequence self.old self.new }
    {
        match sequence {
            Some(sequence) => {
                self.sequence = sequence;
                self.known = 1;
            }
            None => self.known = 0,
        }
    }
}

impl KnownSsrc {
    pub(crate) fn tell(&mut self, ssrc: Option<u32>)
        ensures { TellsSsrc ssrc self.old self.new }
    {
        match ssrc {
            Some(ssrc) => {
                self.ssrc = ssrc;
                self.known = 1;
            }
            None => self.known = 0,
        }
    }
}

impl KnownTimeout {
    pub(crate) fn tell(&mut self, moment: Option<u64>)
        ensures { TellsTimeout moment self.old self.new }
    {
        match moment {
            Some(moment) => {
                self.time = moment;
                self.known = 1;
            }
            None => self.known = 0,
        }
    }
}

impl KnownTimes {
    pub(crate) fn tell(&mut self, config: &ReceiverConfig, smoothed: Option<Smoothed>)
        ensures { TellsTimes config.now smoothed self.old self.new }
    {
        self.reorder_delay = config.delay();
        self.nack_interval = config.retry();
        match smoothed {
            Some(smoothed) => {
                self.round_trip = smoothed.time / 8;
                self.variation = smoothed.variation / 4;
                self.known = 1;
            }
            None => self.known = 0,
        }
    }
}

impl SentPacket {
    /// Tells a packet that was written to the front of a buffer.
    pub(crate) fn tell(&mut self, place: Place, length: usize)
        ensures { self.new ≡ record { size = self.old.size; sequence = place; length = length } }
    {
        self.sequence = place.value();
        self.length = length;
    }
}
