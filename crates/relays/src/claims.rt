//! Who may take a session that another sender has.
ghost use Rattle.std.specs.Prelude.{◌≡◌};
ghost use Rattle.relays.specs.ClaimTables.{claim_of};
ghost use Rattle.relays.specs.Claims.{HearsClaim, Keeps, answer, begun, begun_anew, claimant_of, counted, falls_to, goes_on, is_next_number, is_stale, is_weak, no_claims, step, taken_once, tables_of, unclaimed};

use crate::claim_tables::{Claim, ClaimTables, Claimant};
use std::alloc::Global;
use std::net::SocketAddr;

/// For how long a claim waits for its next packet in sequence before any other one may begin it anew, in milliseconds.
const STALE: u64 = 1000;

/// How old its last packet in sequence may be for the next one to go on with it, in milliseconds.
const OLD: u64 = 2000;

/// By how much less a number may lie ahead of the one before that goes on with it.
const REACH: u16 = 3000;

/// A packet of a sender that does not have the session: from where it came, its SSRC, and its sequence number.
#[derive(Clone, Copy, Debug, PartialEq, Eq)]
pub struct Stranger {
    pub from: SocketAddr,
    pub ssrc: u32,
    pub number: u16,
}

/// What comes of a packet of a stranger.
#[derive(Clone, Copy, Debug, PartialEq, Eq)]
pub enum Step {
    /// Nothing: it goes on with no claim of it, and begins none.
    Passes,
    /// It claims this.
    Claims(Claim),
    /// The session falls to it.
    Falls,
}

/// The strangers that claim a session. It falls to one that sends a stream while the session's own sender sends less than some two packets a
/// second, and as soon as it has sent one if that never did. So whoever comes first and sends a packet now and then does not keep out the
/// sender of a stream, nor does anybody by how many others it sends as; and however fast a stranger sends, it takes no session whose own
/// sender sends two packets in every second.
#[derive(Drop)]
pub struct Claims {
    alloc: Global,
    /// How many packets in sequence are a stream.
    stream: u64,
    /// How many packets this session and those before it took,
    held: u64,
    /// and how many those before it.
    start: u64,
    /// What is claimed. None: nothing so far.
    tables: Option<ClaimTables>,
}

impl Claims {
    /// Nobody claims the session so far. So many packets in sequence are a stream.
    pub fn new(alloc: Global, stream: u64) -> Claims
        ensures { result ≡ no_claims alloc stream }
    {
        Claims {
            alloc,
            stream,
            held: 0,
            start: 0,
            tables: None,
        }
    }

    /// A session begins where there was none, or where the one before was quiet. Who claimed that goes on with it: else whoever begins one
    /// each second keeps out who sends a slow stream.
    pub fn begin(&mut self)
        ensures { self.new ≡ begun_anew self.old }
    {
        self.start = self.held;
    }

    /// A session begins that fell to who claimed the one before. Nobody else claims it so far.
    fn fall(&mut self)
        ensures { self.new ≡ unclaimed self.old }
    {
        self.begin();
        self.tables = None;
    }

    /// The session took a packet.
    pub fn take(&mut self)
        ensures { self.new ≡ taken_once self.old }
    {
        self.held = self.held.saturating_add(1);
    }

    /// A packet of a stranger came at the moment `now`, in milliseconds. It answers whether the session falls to it, as another one
    /// that begins. Without memory for what it claims nothing changes.
    pub fn hear(&mut self, stranger: &Stranger, now: u64) -> bool
        ensures { HearsClaim self.old stranger.now now result self.new }
    {
        let claimant = stranger.claimant();
        let claim = self.claim_of(&claimant);
        match self.answer(claim, stranger.number, now) {
            Step::Passes => false,
            Step::Claims(claim) => {
                self.keep(claimant, claim);
                false
            }
            Step::Falls => {
                self.fall();
                true
            }
        }
    }

    /// What somebody claims.
    fn claim_of(&self, claimant: &Claimant) -> Option<Claim>
        ensures { result ≡ claim_of claimant.now (tables_of self.now) }
    {
        match &self.tables {
            Some(tables) => tables.claim_of(claimant),
            None => None,
        }
    }

    /// What comes of a packet with this number of somebody who claims this.
    fn answer(&self, claim: Option<Claim>, number: u16, now: u64) -> Step
        ensures { result ≡ answer self.now claim number now }
    {
        let Some(claim) = claim else {
            return Step::Claims(self.begun(number, now));
        };
        if claim.goes_on(number, now) {
            self.step(&claim, number, now)
        } else if claim.is_stale(now) {
            Step::Claims(self.begun(number, now))
        } else {
            Step::Passes
        }
    }

    /// What comes of a packet that goes on with a claim. Where the session took a stream beside it, it begins anew.
    fn step(&self, claim: &Claim, number: u16, now: u64) -> Step
        ensures { result ≡ step self.now claim.now number now }
    {
        let taken = self.held.saturating_sub(claim.held);
        if taken >= self.stream {
            return Step::Claims(self.begun(number, now));
        }
        let claim = claim.counted(number, now);
        if self.falls_to(&claim, taken, now) {
            Step::Falls
        } else {
            Step::Claims(claim)
        }
    }

    /// Whether the session falls to a claim, beside which it took so many packets.
    fn falls_to(&self, claim: &Claim, taken: u64, now: u64) -> bool
        ensures { result ≡ falls_to self.now claim.now taken now }
    {
        let never_had_one = self.held.saturating_sub(self.start) < self.stream;
        let span = now.saturating_sub(claim.since);
        claim.packets >= self.stream && (never_had_one || is_weak(taken, span))
    }

    /// A claim that begins with a packet of this number.
    fn begun(&self, number: u16, now: u64) -> Claim
        ensures { result ≡ begun self.now number now }
    {
        Claim {
            number,
            since: now,
            last: now,
            packets: 1,
            held: self.held,
        }
    }

    /// Keeps what somebody claims, if there is memory for it.
    fn keep(&mut self, claimant: Claimant, claim: Claim)
        ensures { Keeps self.old claimant claim self.new }
    {
        if let Some(tables) = &mut self.tables {
            tables.keep(claimant, claim);
            return;
        }
        if let Ok(mut tables) = ClaimTables::new(self.alloc) {
            tables.keep(claimant, claim);
            self.tables = Some(tables);
        }
    }
}

impl Stranger {
    fn claimant(&self) -> Claimant
        ensures { result ≡ claimant_of self.now }
    {
        Claimant {
            from: self.from,
            ssrc: self.ssrc,
        }
    }
}

impl Claim {
    /// Whether a packet goes on with it: its number is one of the next ones, and the one before is not old.
    fn goes_on(&self, number: u16, now: u64) -> bool
        ensures { result ≡ goes_on self.now number now }
    {
        is_next_number(self.number, number) && now.saturating_sub(self.last) <= OLD
    }

    /// Whether it waits for its next packet for so long that any other one may begin it anew.
    fn is_stale(&self, now: u64) -> bool
        ensures { result ≡ is_stale self.now now }
    {
        now.saturating_sub(self.last) >= STALE
    }

    /// It with one more packet.
    fn counted(&self, number: u16, now: u64) -> Claim
        ensures { result ≡ counted self.now number now }
    {
        Claim {
            number,
            last: now,
            packets: self.packets.saturating_add(1),
            ..*self
        }
    }
}

/// Whether a session that took so many packets in so many milliseconds took less than 1.8 a second, and less by two: those may be late.
fn is_weak(taken: u64, span: u64) -> bool
    ensures { result ≡ is_weak taken span }
{
    9 * u128::from(span) > 5000 * (u128::from(taken) + 2)
}

/// Whether a number is one of the next ones behind another.
pub(crate) fn is_next_number(before: u16, number: u16) -> bool
    ensures { result ≡ is_next_number before number }
{
    let ahead = number.wrapping_sub(before);
    0 < ahead && ahead < REACH
}
