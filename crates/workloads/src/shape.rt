//! What kind of session a job has.
ghost use Rattle.std.specs.Prelude.{◌≡◌, ◌<◌, ◌≤◌, ℕ};

use crate::path::Weather;
use crate::payloads::Lengths;
use endpoint::{AskingEndpoint, Probation, ResendRule, TimelyEndpoint};
use receiver::ReceiverConfig;
use rtpwire::{ConfigFault, Session};
use sender::SenderConfig;
use std::alloc::Global;
use stores::{OutOfMemory, RingHistory, RingWindow};

/// The network, the media and the buffers of a session.
#[derive(Clone, Copy)]
pub struct Shape {
    /// How many places window and history keep.
    pub capacity: usize,
    /// The milliseconds of a turn.
    pub turn: u64,
    /// How many packets are sent in a turn, and in one of how many turns.
    pub packets: u64,
    pub every: u64,
    /// How many packets have one timestamp, at most.
    pub frame: u64,
    pub lengths: Lengths,
    /// Whether it is a call of a browser's: each packet has an extension, some have sources or padding, and asks wait for their moment.
    pub is_called: bool,
    pub there: Weather,
    pub back: Weather,
    pub patience: u64,
    pub retry: u64,
    /// The sequence number of the first packet, and what its payload is the payload of.
    pub first: u16,
    pub content: u64,
}

impl Shape {
    /// The session's streams: RTP's of one SSRC, and its retransmissions.
    pub fn session() -> Result<Session, ConfigFault> {
        Session::new(0x1111_1111, 96, 0x2222_2222, 97, 0x3333_3333)
    }

    /// The receiving end. A packet that is only late has a quarter of the time between asks to come.
    pub fn receiver(&self) -> Result<ReceiverConfig, ConfigFault> {
        let config = ReceiverConfig::new(Shape::session()?, self.patience, self.retry, 20)?;
        Ok(config.with_delay(self.retry / 4))
    }

    /// The sending end.
    pub fn sender(&self) -> Result<SenderConfig, ConfigFault> {
        SenderConfig::new(Shape::session()?, self.first, 1, 20)
    }

    /// The same session with other packets, which are those of this number.
    pub fn with_packets(&self, number: usize) -> Shape {
        Shape {
            first: (number.wrapping_mul(7919) % 60_000) as u16,
            content: (number as u64).wrapping_mul(1_000_003),
            ..*self
        }
    }

    /// The number of the first packet that is sent in this turn or later.
    pub fn first_of(&self, turn: u64) -> u64 {
        let before = turn.saturating_add(self.every.saturating_sub(1)) / self.every.max(1);
        before.saturating_mul(self.packets)
    }

    /// How many packets are sent in this turn.
    pub fn packets_of(&self, turn: u64) -> u64 {
        if turn % self.every.max(1) == 0 {
            self.packets
        } else {
            0
        }
    }

    /// What the payload of the packet of this number is the payload of.
    pub fn content_of(&self, number: u64) -> u64 {
        self.content.wrapping_add(number)
    }

    /// The timestamp of the packet of this number, and whether it is the last one of its frame.
    pub fn timestamp_of(&self, number: u64) -> (u32, bool) {
        let frame = self.content.wrapping_add(number / self.frame.max(1));
        let is_last = number.saturating_add(1) % self.frame.max(1) == 0;
        ((frame.wrapping_mul(3000) % (1 << 32)) as u32, is_last)
    }

    /// It retransmits what can still be in time, and nothing twice in half a time between asks.
    pub fn rule(&self) -> ResendRule {
        ResendRule {
            min_resend: self.retry / 2,
            deadline: Some(self.patience),
        }
    }

    /// A gap that a window bridges is no restart. The other limits are those of today, and stay so, for digests to stay comparable.
    pub fn probation(&self) -> Result<Probation, ConfigFault> {
        let ahead = self.capacity.clamp(3000, 8192) as u16;
        Ok(Probation::new(ahead, 100, 2, 256)?.with_silence(200))
    }

    /// A sending end that did nothing so far.
    pub fn sending_end(&self, alloc: Global) -> Result<TimelyEndpoint<RingHistory>, OutOfMemory> {
        let Ok(config) = self.sender() else {
            return Err(OutOfMemory);
        };
        TimelyEndpoint::new(alloc, config, self.rule(), self.capacity.clamp(1, 8192))
    }

    /// A receiving end that did nothing so far.
    pub fn receiving_end(&self, alloc: Global) -> Result<AskingEndpoint<RingWindow>, OutOfMemory> {
        let (Ok(config), Ok(probation)) = (self.receiver(), self.probation()) else {
            return Err(OutOfMemory);
        };
        AskingEndpoint::new(alloc, config, probation, self.capacity.clamp(1, 8192))
    }
}

/// A clear path.
pub const CLEAR: Weather = Weather {
    delay: 25,
    losses: 0,
    burst: 1,
    late: 0,
    jitter: 1,
    twice: 0,
    period: 1,
    outage: 0,
};
