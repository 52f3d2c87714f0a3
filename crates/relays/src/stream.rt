//! Which stream of an application is sent on.
ghost use Rattle.std.specs.Prelude.{◌≡◌, false, true};
ghost use Rattle.relays.specs.Following.{ComesFrom, Follows, followed_by, is_silent, keeps_out, new_stream};

use std::net::SocketAddr;

/// How long a stream has to be silent before another one takes its place, in milliseconds.
const SILENCE: u64 = 1000;

/// A stream by its SSRC and where it comes from. An application that was started anew has another port, and mostly another SSRC: its
/// stream is followed once the old one was silent for a second. Beside a stream that is not silent nobody else's packets are sent.
#[derive(Clone, Copy, Debug, PartialEq, Eq)]
pub struct Stream {
    ssrc: u32,
    /// Whether no stream of another SSRC takes its place.
    is_bound: bool,
    /// Where its last packet came from.
    from: Option<SocketAddr>,
    /// The moment at which its last packet came.
    last: Option<u64>,
}

impl Stream {
    /// The stream of this SSRC, of which nothing came so far.
    pub fn new(ssrc: u32) -> Stream
        ensures { result ≡ new_stream ssrc false }
    {
        Stream {
            ssrc,
            is_bound: false,
            from: None,
            last: None,
        }
    }

    /// The same, of which no stream of another SSRC takes the place.
    pub fn bound(ssrc: u32) -> Stream
        ensures { result ≡ new_stream ssrc true }
    {
        Stream {
            is_bound: true,
            ..Stream::new(ssrc)
        }
    }

    /// Whether a packet from an address under this SSRC, at the moment `now`, is one of the stream or of one that takes its place.
    pub fn follows(&self, from: SocketAddr, ssrc: u32, now: u64) -> bool
        ensures { Follows self.now from ssrc now result }
    {
        let is_from = self.comes_from(from);
        let silent = self.is_silent(now);
        (is_from || silent) && (ssrc == self.ssrc || !self.is_bound && silent)
    }

    /// Whether its last packet came from this address, or none came.
    fn comes_from(&self, from: SocketAddr) -> bool
        ensures { ComesFrom self.now.from from result }
    {
        match self.from {
            None => true,
            Some(own) => from == own,
        }
    }

    /// Whether nothing of it came for a second.
    fn is_silent(&self, now: u64) -> bool
        ensures { result ≡ is_silent self.now.last now }
    {
        match self.last {
            None => true,
            Some(last) => now.saturating_sub(last) >= SILENCE,
        }
    }

    /// Whether no packet of this SSRC ever takes its place.
    pub fn keeps_out(&self, ssrc: u32) -> bool
        ensures { result ≡ keeps_out self.now ssrc }
    {
        self.is_bound && ssrc != self.ssrc
    }

    /// A packet from an address under this SSRC was sent on at the moment `now`.
    pub fn follow(&mut self, from: SocketAddr, ssrc: u32, now: u64)
        ensures { self.new ≡ followed_by self.old from ssrc now }
    {
        self.ssrc = ssrc;
        self.from = Some(from);
        self.last = Some(now);
    }

    /// The moment of its last packet.
    pub fn last(&self) -> Option<u64>
        ensures { result ≡ self.now.last }
    {
        self.last
    }
}
