//! A relay that learns its session from what comes.
ghost use Rattle.std.specs.Prelude.{◌≡◌, ℕ, List, Option, length, IfOk, OnErr, IfSome};
ghost use Rattle.rtpwire.specs.declared.limits.TheConstants.{MAX_DATAGRAM};
ghost use Rattle.relays.specs.Passing.{IsWithin};
ghost use Rattle.relays.specs.Running.{RestsUntil};
ghost use Rattle.gozdrit_relay.specs.Machine.{Begins, FallsTo, Leads, Learns, goes_on, is_quiet, is_taken, is_turned_away, new_machine, unlearnt};

use endpoint::Heard;
use relays::{Claims, Note, Peers, Relay, Side, Stranger, Turn};
use rtpwire::{MAX_DATAGRAM, Session};
use std::alloc::Global;
use std::net::SocketAddr;
use stores::OutOfMemory;

/// The session that a packet may begin, and that packet's own SSRC and sequence number.
#[derive(Clone, Copy, Debug, PartialEq, Eq)]
pub struct Beginning {
    pub session: Session,
    pub ssrc: u32,
    pub number: u16,
}

/// A relay for a session that was learnt, and what there is to note of it.
#[derive(Drop)]
pub struct Learnt<R> {
    pub relay: R,
    pub note: Note,
}

/// Makes a relay of the first datagram of a session.
pub trait Learner<R: Relay + Drop> {
    ghost use Rattle.std.specs.declared.net.socket_addr.SocketAddr.{SocketAddr};
    ghost use Rattle.relays.specs.declared.outside.Side.{Side};
    ghost use Rattle.relays.specs.declared.relay.Note.{Note};
    ghost use Rattle.gozdrit_relay.specs.declared.machine.Beginning.{Beginning};

    /// The side that a session's stream comes to.
    ghost listens: { Self → Side };

    /// Which session a datagram may begin that came to a side from an address at a moment, beside that of the relay there is.
    ghost begins: { Self → Side → SocketAddr → List ℕ → Option R → ℕ → Option Beginning → Type 0 };

    /// The relay of a session that begins with a packet from an address, after the relay there was, and what there is to note of it.
    ghost makes: { Self → Beginning → SocketAddr → Option R → R → Note → Self → Type 0 };

    /// A relay whose far side is at another address.
    ghost leads: { R → SocketAddr → R → Type 0 };

    /// The side that a session's stream comes to.
    fn side(&self) -> Side
        ensures { result ≡ listens self.now };

    /// Which session octets may begin that came to a side from an address at the moment `now`. None: they are no beginning, or of the
    /// session of the relay there is.
    fn beginning(
        &self,
        side: Side,
        from: SocketAddr,
        octets: &[u8],
        before: &Option<R>,
        now: u64,
    ) -> Option<Beginning>
        ensures { begins self.now side from octets.now before.now now result };

    /// The relay of a session that begins, which takes the place of the one before.
    ///
    /// `OutOfMemory`: the allocator refused the memory.
    fn make(
        &mut self,
        beginning: &Beginning,
        from: SocketAddr,
        before: &Option<R>,
    ) -> Result<Learnt<R>, OutOfMemory>
        ensures makes { IfOk result (λ learnt. makes self.old beginning.now from before.now learnt.relay learnt.note self.new) }
        ensures err { OnErr result (self.new ≡ self.old) };

    /// From now on a relay's far side is at this address.
    fn lead(relay: &mut R, far: SocketAddr)
        ensures { leads relay.old far relay.new };
}

/// How long nothing is taken before another session may begin, in milliseconds.
const QUIET: u64 = 1000;

/// The relay of the session that was learnt last, and nothing before.
#[derive(Drop)]
pub struct Machine<L, R> {
    learner: L,
    relay: Option<R>,
    /// What there is to note of the session that was learnt.
    note: Option<Note>,
    /// The moment at which the session took a packet last.
    last: u64,
    /// Who else may take it.
    claims: Claims,
    /// Who may send a stream.
    peers: Peers,
    /// The moment at which it ends, if that is bounded.
    until: Option<u64>,
    is_out_of_memory: bool,
}

impl<R: Relay + Drop, L: Learner<R>> Machine<L, R> {
    /// It learnt nothing so far. It hears streams of these peers, or of anybody where there are none, and takes so many packets in
    /// sequence for one.
    pub fn new(
        alloc: Global,
        learner: L,
        peers: Peers,
        stream: u64,
        until: Option<u64>,
    ) -> Machine<L, R>
        ensures { result ≡ new_machine alloc learner peers stream until }
    {
        Machine {
            learner,
            relay: None,
            note: None,
            last: 0,
            claims: Claims::new(alloc, stream),
            peers,
            until,
            is_out_of_memory: false,
        }
    }

    /// From now on it hears streams of these peers, or of anybody where there are none.
    pub fn admit(&mut self, peers: Peers)
        ensures { self.new ≡ record self.old { peers = peers } }
    {
        self.peers = peers;
    }

    /// From now on the far side is at this address, if a peer may be there and there is a session; and whether that is so.
    pub fn lead(&mut self, far: SocketAddr) -> bool
        ensures { Leads L.Learner.leads self.old far result self.new }
    {
        let Some(relay) = &mut self.relay else {
            return false;
        };
        if !self.peers.admit(&far) {
            return false;
        }
        L::lead(relay, far);
        true
    }

    /// Lets the next packet of another session begin that, as behind a second of silence.
    pub fn free(&mut self)
        ensures { self.new ≡ record self.old { last = 0 } }
    {
        self.last = 0;
    }

    /// Whether what comes to a side from an address is turned away: a stream comes there, and not from there.
    fn is_turned_away(&self, side: Side, from: SocketAddr) -> bool
        ensures { result ≡ is_turned_away (L.Learner.listens self.now.learner) side from self.now.peers }
    {
        match (self.learner.side(), side) {
            (Side::Near, Side::Near) | (Side::Far, Side::Far) => !self.peers.admit(&from),
            _ => false,
        }
    }

    /// Has another relay take the place of the one before, where a datagram begins a session and that falls to its sender.
    fn begin(&mut self, side: Side, from: SocketAddr, octets: &[u8], now: u64)
        ensures { Learns L.Learner.begins L.Learner.makes self.old side from octets.now now self.new }
    {
        let Some(beginning) = self.learner.beginning(side, from, octets, &self.relay, now) else {
            return;
        };
        if !self.falls_to(&beginning, from, now) {
            return;
        }
        self.replace(&beginning, from, now);
    }

    /// Has the relay of a session that begins take the place of the one before. It stands by itself since most datagrams begin none, and the
    /// room for a relay would be made ready for each of them.
    #[inline(never)]
    fn replace(&mut self, beginning: &Beginning, from: SocketAddr, now: u64)
        ensures { Begins L.Learner.makes self.old beginning.now from now self.new }
    {
        match self.learner.make(beginning, from, &self.relay) {
            Ok(learnt) => {
                self.note = Some(learnt.note);
                self.relay = Some(learnt.relay);
                self.last = now;
            }
            Err(_) => self.is_out_of_memory = true,
        }
    }

    /// Whether a session that a packet from an address may begin takes the place of the one there is.
    fn falls_to(&mut self, beginning: &Beginning, from: SocketAddr, now: u64) -> bool
        ensures { FallsTo self.old beginning.now from now result self.new }
    {
        if self.relay.is_none() || is_quiet(self.last, now) {
            self.claims.begin();
            return true;
        }
        let stranger = Stranger {
            from,
            ssrc: beginning.ssrc,
            number: beginning.number,
        };
        self.claims.hear(&stranger, now)
    }

    /// Whether it ended since there was no memory for a session.
    pub fn is_out_of_memory(&self) -> bool
        ensures { result ≡ self.now.is_out_of_memory }
    {
        self.is_out_of_memory
    }
}

impl<R: Relay + Drop, L: Learner<R>> Relay for Machine<L, R> {
    ghost use Rattle.gozdrit_relay.specs.Machine.{Hears, Speaks, is_done};

    ghost hears = { λ old side from octets now turn out new. Hears R.Relay.hears (L.Learner.listens old.learner) L.Learner.begins L.Learner.makes old side from octets now turn out new };

    ghost speaks = { λ old now turn out new. Speaks R.Relay.speaks old now turn out new };

    ghost done = { λ machine now. is_done R.Relay.done machine now };

    fn hear(
        &mut self,
        side: Side,
        from: SocketAddr,
        octets: &[u8],
        now: u64,
        out: &mut [u8],
    ) -> Turn {
        if self.is_turned_away(side, from) {
            return Turn {
                note: Note::Stray,
                leaves: None,
            };
        }
        let listens = self.learner.side();
        self.begin(side, from, octets, now);
        let Some(relay) = &mut self.relay else {
            return Turn {
                note: unlearnt(listens, side),
                leaves: None,
            };
        };
        let turn = relay.hear(side, from, octets, now, out);
        if is_taken(&turn.note) {
            self.last = now;
            self.claims.take();
        }
        turn
    }

    fn speak(&mut self, now: u64, out: &mut [u8]) -> Option<Turn> {
        if let Some(note) = self.note {
            self.note = None;
            return Some(Turn { note, leaves: None });
        }
        match &mut self.relay {
            Some(relay) => relay.speak(now, out),
            None => None,
        }
    }

    fn next_moment(&self) -> Option<u64> {
        if self.is_out_of_memory {
            return Some(0);
        }
        if let Some(_) = &self.note {
            return Some(0);
        }
        match &self.relay {
            Some(relay) => relay.next_moment(),
            None => self.until,
        }
    }

    fn is_done(&self, now: u64) -> bool {
        if self.is_out_of_memory {
            return true;
        }
        match &self.relay {
            Some(relay) => relay.is_done(now),
            None => match self.until {
                Some(until) => now >= until,
                None => false,
            },
        }
    }
}

/// Whether a session took nothing for so long that another one may take its place.
fn is_quiet(last: u64, now: u64) -> bool
    ensures { result ≡ is_quiet last now }
{
    now.saturating_sub(last) >= QUIET
}

/// What there is to note of octets that came to a side before a session was learnt, whose stream comes to this side.
fn unlearnt(listens: Side, side: Side) -> Note
    ensures { result ≡ unlearnt listens side }
{
    match (listens, side) {
        (Side::Near, Side::Near) => Note::Unsent,
        _ => Note::Stray,
    }
}

/// Whether a note says that the session took a packet, which goes on with its numbers.
fn is_taken(note: &Note) -> bool
    ensures { result ≡ is_taken note.now }
{
    match note {
        Note::Sent(_) => true,
        Note::Heard(Ok(heard), _) | Note::Moved(_, Ok(heard), _) => goes_on(heard),
        _ => false,
    }
}

fn goes_on(heard: &Heard) -> bool
    ensures { result ≡ goes_on heard.now }
{
    match heard {
        Heard::Media(_) | Heard::Repair(_) | Heard::Restarted(_) => true,
        _ => false,
    }
}
