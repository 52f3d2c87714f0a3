//! Where the far side is, and what shows it at another address, as where a NAT on its way binds it anew.
ghost use Rattle.std.specs.Prelude.{◌≡◌};
ghost use Rattle.relays.specs.FarSide.{IsShownAt, Shows, counted, gap_after, has_moved, heard_at, is_quiet, left, new_far_side, quiet_for, showing};

use crate::claims::is_next_number;
use std::net::SocketAddr;

/// How many packets in sequence show the far side at another address.
const SHOWN: u64 = 4;

/// Over how long gaps are averaged, in milliseconds.
const SECOND: u64 = 1000;

/// The longest gap that counts as what it is, in milliseconds: behind four of these, a second of silence, any other sender begins a session.
const LONGEST: u64 = 250;

/// No mean gap is longer, in microseconds.
const SLOWEST: u64 = 1000 * LONGEST;

/// For how long nothing may have come from the far side at least before it is heard at another address, in milliseconds.
const QUIET: u64 = 100;

/// Where the far side is, how often it sends, and what shows it at another address.
#[derive(Clone, Copy, Debug, PartialEq, Eq)]
pub struct FarSide {
    at: SocketAddr,
    /// The moment at which its last datagram came.
    came: Option<u64>,
    /// The mean time between two of its datagrams, in microseconds: of the last second, and of each moment in it the gap in which that
    /// lies, so that packets that come at once make it no shorter.
    gap: u64,
    /// What shows it at another address, since its last datagram.
    shown: Option<Showing>,
}

/// Packets in sequence that came from another address, and go on with the session.
#[derive(Clone, Copy, Debug, PartialEq, Eq)]
pub struct Showing {
    from: SocketAddr,
    /// The last one's sequence number,
    number: u16,
    /// and when it came.
    last: u64,
    packets: u64,
}

impl FarSide {
    /// The far side at an address, of which nothing came so far: its gaps may be the longest.
    pub(crate) fn new(at: SocketAddr) -> FarSide
        ensures { result ≡ new_far_side at }
    {
        FarSide {
            at,
            came: None,
            gap: SLOWEST,
            shown: None,
        }
    }

    /// Its address.
    pub(crate) fn at(&self) -> SocketAddr
        ensures { result ≡ self.now.at }
    {
        self.at
    }

    /// A datagram of it came from this address at the moment `now`.
    pub(crate) fn hear(&mut self, from: SocketAddr, now: u64)
        ensures { self.new ≡ heard_at from now self.old }
    {
        self.gap = self.gap_after(now);
        self.at = from;
        self.came = Some(now);
        self.shown = None;
    }

    /// Its mean gap, where a datagram comes at the moment `now`.
    fn gap_after(&self, now: u64) -> u64
        ensures { result ≡ gap_after self.now.came now self.now.gap }
    {
        let Some(came) = self.came else {
            return self.gap;
        };
        let gap = now.saturating_sub(came).min(LONGEST);
        // Most datagrams come within the millisecond of the one before.
        if gap == 0 && self.gap <= SLOWEST {
            return self.gap;
        }
        let rest = self.gap.saturating_mul(SECOND - gap) / SECOND;
        rest.saturating_add(gap.saturating_mul(gap))
    }

    /// For how long nothing may have come from it before it is heard at another address, in milliseconds: four of its gaps.
    fn quiet_for(&self) -> u64
        ensures { result ≡ quiet_for self.now }
    {
        (self.gap / 250).max(QUIET)
    }

    /// Whether nothing came from it for so long, where something came before.
    pub(crate) fn is_quiet(&self, now: u64) -> bool
        ensures { result ≡ is_quiet self.now now }
    {
        match self.came {
            Some(came) => now.saturating_sub(came) >= self.quiet_for(),
            None => false,
        }
    }

    /// A packet of the session, with one of the next numbers, came from another address. It answers whether the far side is there now: nothing
    /// came from the old address for long enough, and this is the fourth packet in sequence from the new one.
    pub(crate) fn show(&mut self, from: SocketAddr, number: u16, now: u64) -> bool
        ensures { Shows self.old from number now result self.new }
    {
        let is_there = self.is_shown_at(from);
        self.shown = Some(self.showing(is_there, from, number, now));
        is_there && self.has_moved(now)
    }

    /// Whether what came from another address came from this one.
    fn is_shown_at(&self, from: SocketAddr) -> bool
        ensures { IsShownAt self.now.shown from result }
    {
        match &self.shown {
            Some(shown) => from == shown.from,
            None => false,
        }
    }

    /// What shows it at another address, with this packet. What others show counts until it was not gone on with for as long as the far
    /// side has to be quiet.
    fn showing(&self, is_there: bool, from: SocketAddr, number: u16, now: u64) -> Showing
        ensures { result ≡ showing self.now is_there from number now }
    {
        let begun = Showing {
            from,
            number,
            last: now,
            packets: 1,
        };
        let Some(shown) = self.shown else {
            return begun;
        };
        if is_there && is_next_number(shown.number, number) {
            shown.counted(number, now)
        } else if now.saturating_sub(shown.last) >= self.quiet_for() {
            begun
        } else {
            shown
        }
    }

    /// Whether it is quiet, and enough packets show it at another address.
    fn has_moved(&self, now: u64) -> bool
        ensures { result ≡ has_moved self.now now }
    {
        let is_shown = match &self.shown {
            Some(shown) => shown.packets >= SHOWN,
            None => false,
        };
        self.is_quiet(now) && is_shown
    }

    /// It left its address: the time until it is heard at another one is no gap of its own.
    pub(crate) fn leave(&mut self)
        ensures { self.new ≡ left self.old }
    {
        self.came = None;
    }
}

impl Showing {
    /// The same with one more packet.
    fn counted(&self, number: u16, now: u64) -> Showing
        ensures { result ≡ counted self.now number now }
    {
        Showing {
            number,
            last: now,
            packets: self.packets.saturating_add(1),
            ..*self
        }
    }
}
