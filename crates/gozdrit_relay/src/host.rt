//! The sockets of the machine, its clock, and what is told of a run.
mod guarding;
mod leaving;
mod taking;
mod telling;
mod typing;

use crate::answers::State;
use crate::clients::{Clients, Doors};
use crate::counts::Counts;
use crate::draws::Draws;
use crate::dropped::dropped;
use crate::guard::{Guard, SEALED};
use crate::journal::Journal;
use crate::load::{Load, Store};
use crate::newest::Newest;
use crate::seats::{is_over, sooner};
use crate::seldom::Seldom;
use crate::sockets::Kept;
use crate::standing::Standing;
use crate::stream_form::StreamForm;
use crate::transport_stream::Payloader;
use crate::turns::Turns;
use crate::unmet::UnmetTold;
use crate::waiting::Waiting;
use crate::way::Way;
use liveness::{PendingPackets, Source};
use mio::net::UdpSocket;
use mio::{Events, Interest, Poll, Token};
use payload_types::PayloadTypes;
use relays::{Meeting, Note, Octets, Outside, OutsideFault, Peers, Side, Turn};
use rtpwire::Session;
use std::alloc::Global;
use std::io;
use std::io::ErrorKind;
use std::net::SocketAddr;
use std::time::{Duration, Instant};

/// One octet more than a datagram has at most, as it is protected where it is.
const ROOM: usize = SEALED + 1;

/// What tells events of the near socket from those of the far one.
const NEAR: Token = Token(0);

const FAR: Token = Token(1);

/// How many events the system tells at once.
const EVENTS: usize = 8;

/// How often the counts are looked at for the log, in milliseconds, and how long the log is without them at most.
const SECOND: u64 = 1000;

const MINUTE: u64 = 60_000;

/// How long who asks how the relay does waits at most while datagrams come without a pause, in milliseconds.
const UNHEARD: u64 = 100;

/// The sockets of a relay: one a side, what the system keeps for either, where it tells, where what leaves goes, and where its clients come to.
#[derive(Drop)]
pub struct Sockets {
    pub near: UdpSocket,
    pub far: UdpSocket,
    pub kept: Option<Kept>,
    pub way: Way,
    pub doors: Doors,
}

/// Both sockets, the clock, and who is told.
#[derive(Drop)]
pub struct Host<'a> {
    pub rt: &'a HostRuntime,
    poll: Poll,
    events: Events<Global>,
    near: UdpSocket,
    far: UdpSocket,
    kept: Option<Kept>,
    /// Where what leaves by the socket that does not listen goes.
    way: Way,
    /// What found no room at either socket, where the system told, and the moment from which on it is asked again.
    dropped: Option<u64>,
    asks_from: u64,
    start: Instant,
    turns: Turns,
    /// Room for what comes. It is blanked once.
    octets: [u8; ROOM],
    /// What makes RTP of MPEG-TS that comes without it, where that is wanted, what is left there of a datagram, and from where it came.
    payloader: Option<Payloader>,
    rest: (usize, usize),
    rest_from: Option<SocketAddr>,
    /// Whether a player takes payloads alone.
    sends_payloads: bool,
    /// The payload types, where there are several.
    types: Option<PayloadTypes>,
    /// What stands before the network where there is a key, and what it refused and could not protect.
    guard: Option<Guard>,
    denied: Seldom,
    unanswered: Seldom,
    withheld: Seldom,
    /// The session that there is, where its far side is, and the newest packet of its media: under a key.
    session: Option<Session>,
    far_at: Option<SocketAddr>,
    newest: Option<Newest>,
    /// What is to change before anything more is heard, and how much of the room is a datagram that is heard then.
    change: Option<Change>,
    again: Option<(usize, SocketAddr)>,
    /// What waits until its sender answers, and who did.
    pending: PendingPackets,
    answered: Option<Source>,
    draws: Draws,
    /// How many datagrams left for the network.
    left: u64,
    /// Whether the last one was dropped for a trial.
    is_lost: bool,
    pub counts: Counts,
    /// What was told of retransmissions that were asked for in vain, and whether there may be more of them.
    unmet: UnmetTold,
    is_unmet: bool,
    pub journal: Option<Journal<'a>>,
    /// From where the last datagram came, and what of such came from elsewhere.
    from: Option<SocketAddr>,
    strays: Seldom,
    /// Where the last packet came from that was sent on.
    application: Option<SocketAddr>,
    /// Packets whose payload is too long.
    too_long: Seldom,
    /// What came that is no RTP.
    foreign: Seldom,
    /// Those that wait for room at the system, and datagrams that it did not take.
    waiting: Vec<Waiting>,
    failed: Seldom,
    /// The moment of the last wait's end.
    moment: u64,
    /// A line of counts each so many milliseconds, and the moment of the next one.
    stats: Option<(u64, u64)>,
    /// The moment at which the counts are looked at for the log, where it has lines of them, and what it was told of them last, and when.
    logs_at: Option<u64>,
    logged: Counts,
    logged_at: u64,
    /// The sooner one of both moments.
    tells_at: Option<u64>,
    /// How many lines could not be written without waiting since one was.
    unsaid: u64,
    is_sender: bool,
    latency: Option<u64>,
    /// The moment at which the session began, where there is one.
    began: Option<u64>,
    load: Load,
    /// Whether the SSRC of the retransmissions is known from the beginning.
    shows_repair: bool,
    line: Vec<u8>,
    /// Who asks how the relay does, where anybody may, and the moment from which on they are heard whatever comes.
    clients: Option<Clients>,
    heard_from: u64,
    /// Whether one of them has the run end.
    is_stopped: bool,
}

/// What changes of the relay that runs.
#[derive(Debug, Drop)]
pub enum Change {
    /// These may send a stream, as a client says.
    Peers(Peers),
    /// Another sender lives, whose stream may begin at once.
    Lives,
    /// The far side is at this address, as the tag of its newest packet tells.
    Far(SocketAddr),
}

impl<'a> Host<'a> {
    /// A host over these sockets.
    pub fn new(
        rt: &'a HostRuntime,
        sockets: Sockets,
        draws: Draws,
        journal: Option<Journal<'a>>,
        stats: Option<u64>,
        store: Store,
        stream: StreamForm,
        shows_repair: bool,
        guard: Option<Guard>,
    ) -> io::Result<Host<'a>> {
        let start = Instant::now(rt)?;
        let poll = Poll::new(rt)?;
        let Sockets {
            mut near,
            mut far,
            kept,
            way,
            doors,
        } = sockets;
        poll.registry()
            .register(&mut near, NEAR, Interest::READABLE)?;
        poll.registry().register(&mut far, FAR, Interest::READABLE)?;
        let stats = stats.map(|seconds| {
            let apart = seconds.saturating_mul(1000);
            (apart, apart)
        });
        let logs_at = match &journal {
            Some(journal) if journal.has_counts() => Some(SECOND),
            _ => None,
        };
        let clients = if doors.control.is_some() || doors.metrics.is_some() {
            Some(Clients::new(rt.alloc(), poll.registry(), doors)?)
        } else {
            None
        };
        Ok(Host {
            rt,
            poll,
            events: Events::with_capacity(rt.alloc(), EVENTS)?,
            near,
            far,
            kept,
            way,
            dropped: None,
            asks_from: 0,
            start,
            turns: Turns::BOTH,
            octets: [0; ROOM],
            payloader: stream.payloader,
            rest: (0, 0),
            rest_from: None,
            sends_payloads: stream.sends_payloads,
            types: stream.types,
            guard,
            denied: Seldom::NONE,
            unanswered: Seldom::NONE,
            withheld: Seldom::NONE,
            session: None,
            far_at: None,
            newest: None,
            change: None,
            again: None,
            pending: PendingPackets::new(rt.alloc()),
            answered: None,
            draws,
            left: 0,
            is_lost: false,
            counts: Counts::NONE,
            unmet: UnmetTold::NOTHING,
            is_unmet: false,
            journal,
            from: None,
            strays: Seldom::NONE,
            application: None,
            too_long: Seldom::NONE,
            foreign: Seldom::NONE,
            waiting: Vec::new(rt.alloc()),
            failed: Seldom::NONE,
            moment: 0,
            stats,
            logs_at,
            logged: Counts::NONE,
            logged_at: 0,
            tells_at: sooner(stats.map(|stats| stats.1), logs_at),
            unsaid: 0,
            is_sender: store.is_history(),
            latency: store.latency(),
            began: None,
            load: Load::new(store),
            shows_repair,
            line: Vec::new(rt.alloc()),
            clients,
            heard_from: 0,
            is_stopped: false,
        })
    }

    /// The moment, in milliseconds since the start.
    fn now(&self) -> Result<u64, OutsideFault> {
        match self.start.elapsed(self.rt) {
            Ok(time) => Ok(
                time.as_secs()
                    .saturating_mul(1000)
                    .saturating_add(u64::from(time.subsec_millis())),
            ),
            Err(_) => Err(OutsideFault),
        }
    }

    /// Sleeps until something comes to a socket, no longer than until a moment, and keeps which one it was.
    fn sleep(&mut self, until: Option<u64>) -> Result<(), OutsideFault> {
        let timeout = match self.next_of(until) {
            Some(next) => Some(Duration::from_millis(next.saturating_sub(self.now()?))),
            None => None,
        };
        self.ask_system(timeout)
    }

    /// Asks the system which sockets have something, and keeps that.
    fn ask_system(&mut self, timeout: Option<Duration>) -> Result<(), OutsideFault> {
        match self.poll.poll(&mut self.events, timeout) {
            Ok(()) => {}
            Err(e) if e.kind() == ErrorKind::Interrupted => {}
            Err(_) => return Err(OutsideFault),
        }
        for event in self.events.iter() {
            let token = event.token();
            if token == NEAR {
                self.turns.wake(Side::Near);
            } else if token == FAR {
                self.turns.wake(Side::Far);
            } else if let Some(clients) = &mut self.clients {
                clients.wake(token);
            }
        }
        self.serve()
    }

    /// Answers clients. Where one has the run end, or others send a stream, what is outside can't be waited at any longer.
    fn serve(&mut self) -> Result<(), OutsideFault> {
        if self.clients.is_none() {
            return Ok(());
        }
        let now = self.now()?;
        self.heard_from = now.saturating_add(UNHEARD);
        let Some(clients) = &mut self.clients else {
            return Ok(());
        };
        if now >= self.asks_from && clients.are_waiting(now) {
            // The system may pass a socket over while others come and go: what it told before stands then.
            if let Some(count) = dropped(self.rt, &self.near, &self.far) {
                self.dropped = Some(count);
            }
            self.asks_from = now.saturating_add(SECOND);
        }
        let state = State {
            counts: &self.counts,
            is_sender: self.is_sender,
            has_log: self.journal.is_some(),
            standing: Standing {
                now,
                began: self.began,
                latency: self.latency,
                kept: self.kept,
                dropped: self.dropped,
            },
            way: self.way,
        };
        let wishes = clients.serve(self.poll.registry(), now, state);
        if wishes.reopens {
            self.reopen_log(now);
        }
        if let Some(to) = wishes.to {
            self.way.lead(to);
            self.tell_way(to);
        }
        self.change = wishes.peers.map(Change::Peers);
        self.is_stopped = wishes.ends;
        if self.is_stopped || self.change.is_some() {
            return Err(OutsideFault);
        }
        Ok(())
    }

    /// Where a datagram came from, as the relay knows it: mostly both are the same.
    fn as_known(&self, side: Side, from: SocketAddr) -> SocketAddr {
        if self.way.is_elsewhere() {
            self.there(side, from)
        } else {
            from
        }
    }

    /// An address of a side: as the relay knows it where it is one of the system's, and the other way round.
    #[inline(never)]
    fn there(&self, side: Side, at: SocketAddr) -> SocketAddr {
        match (side, self.is_sender) {
            (Side::Far, true) | (Side::Near, false) => self.way.there(at),
            _ => at,
        }
    }

    /// A session began.
    fn begin(&mut self, session: Session, first: u16, far: SocketAddr, now: u64) {
        self.began = Some(now);
        self.session = Some(session);
        self.far_at = Some(far);
        self.newest = Some(Newest {
            ssrc: session.media_ssrc(),
            number: first,
        });
    }

    /// Whether clients were not heard for long, since datagrams come without a pause.
    fn are_unheard(&self) -> bool {
        self.clients.is_some() && self.moment >= self.heard_from
    }

    /// Whether a client had the run end.
    pub fn is_stopped(&self) -> bool {
        self.is_stopped
    }

    /// What is to change of the relay, where the run goes on with that.
    pub fn take_change(&mut self) -> Option<Change> {
        if self.is_stopped {
            return None;
        }
        self.change.take()
    }

    /// The moment until which is slept: no later than that of the next line of counts, nor than clients have it; and for a millisecond while
    /// something waits for room.
    fn next_of(&self, until: Option<u64>) -> Option<u64> {
        let mut next = sooner(until, self.tells_at);
        if !self.waiting.is_empty() {
            next = sooner(next, Some(self.moment.saturating_add(1)));
        }
        match &self.clients {
            Some(clients) => sooner(next, clients.next_moment()),
            None => next,
        }
    }
}

impl Outside for Host<'_> {
    ghost use Rattle.std.specs.Prelude.{None};

    ghost traffic = { λ host. None };

    fn wait(&mut self, until: Option<u64>, room: &mut Octets) -> Result<Meeting, OutsideFault> {
        if self.are_unheard() {
            self.ask_system(Some(Duration::ZERO))?;
        }
        if !self.waiting.is_empty() {
            self.send_waiting(self.now()?);
        }
        self.from = None;
        let mut side = self.take(room)?;
        if side.is_none() && self.turns.next().is_none() {
            self.sleep(until)?;
            side = self.take(room)?;
        }
        if self.types.is_some() && side.is_some() {
            self.enter_session(room)?;
        }
        let now = self.now()?;
        self.moment = now;
        if is_over(self.tells_at, now) {
            self.tell_counts(now);
        }
        if self.is_unmet {
            self.tell_unmet(now);
        }
        let came = match (side, self.from) {
            (Some(side), Some(from)) => Some((side, self.as_known(side, from))),
            _ => None,
        };
        Ok(Meeting { now, came })
    }

    fn send(&mut self, side: Side, to: SocketAddr, octets: &[u8]) {
        if self.types.is_some() {
            self.leave_session(side, to, octets);
        } else {
            self.send_as_it_is(side, to, octets);
        }
    }

    fn tell(&mut self, turn: &Turn, octets: &[u8], now: u64) {
        self.counts.count(&turn.note);
        self.log(turn, octets, now);
        self.is_lost = false;
        self.tell_far(&turn.note);
        self.tell_strays(&turn.note, now);
        self.tell_too_long(&turn.note, octets, now);
        match turn.note {
            Note::Unsent => self.tell_foreign(octets, now),
            Note::Began(session, first, far) => self.begin(session, first, far, now),
            Note::Moved(far, ..) => self.far_at = Some(far),
            Note::Told(_) | Note::PassedOver(_) | Note::Crowded(_) => self.is_unmet = true,
            _ => {}
        }
        self.tell_shortage(&turn.note, now);
    }
}
