//! Who asks a relay how it does, or has it stop, while it runs.
use crate::answers::State;
use crate::asking::Asked;
use crate::changes::Change;
use crate::client::{Client, Stage, Stream};
use crate::seats::{end_of, first_end, is_over, seat_for};
use mio::net::{TcpListener, UnixListener};
use mio::{Interest, Registry, Token};
use relays::Peers;
use std::alloc::{AllocError, Global};
use std::io;
use std::io::ErrorKind;
use std::net::SocketAddr;

/// How many clients there are at a time, of both sockets together. One more takes the place of the one that has been
/// there longest.
const SEATS: usize = 64;

/// How many clients are let in in one go.
const AT_ONCE: usize = 16;

/// What tells events of both listening sockets, and of the first client, from others.
const CONTROL: Token = Token(2);

const METRICS: Token = Token(3);

const FIRST: usize = 4;

/// What clients ask for that is done elsewhere.
#[derive(Debug, Drop)]
pub struct Wishes {
    /// That the run ends.
    pub ends: bool,
    /// That the log is opened anew.
    pub reopens: bool,
    /// That what leaves goes there.
    pub to: Option<SocketAddr>,
    /// That these may send a stream.
    pub peers: Option<Peers>,
}

impl Wishes {
    /// There is nothing to be done.
    fn none() -> Wishes {
        Wishes {
            ends: false,
            reopens: false,
            to: None,
            peers: None,
        }
    }

    /// One more request.
    fn add(&mut self, asked: Option<Asked>, change: Option<Change>) {
        match asked {
            Some(Asked::Stop) => self.ends = true,
            Some(Asked::Reopen) => self.reopens = true,
            _ => {}
        }
        match change {
            Some(Change::To(to)) => self.to = Some(to),
            Some(Change::Peers(peers)) => self.peers = Some(peers),
            None => {}
        }
    }
}

/// The sockets where clients come to.
#[derive(Drop)]
pub struct Doors {
    pub control: Option<UnixListener>,
    pub metrics: Option<TcpListener>,
}

/// The clients, and where they come to.
#[derive(Drop)]
pub struct Clients {
    alloc: Global,
    doors: Doors,
    /// Whether somebody may wait at the control socket, and at that of the metrics.
    at_control: bool,
    at_metrics: bool,
    /// Until when each place is taken, and by whom.
    until: Vec<Option<u64>>,
    clients: Vec<Option<Client>>,
    /// Whether something may have come of whom, or may be written.
    woken: Vec<bool>,
    /// Whether there is anything of all that to be looked at, and the moment at which the first place ends.
    is_woken: bool,
    next: Option<u64>,
}

impl Clients {
    /// Nobody came so far.
    pub fn new(alloc: Global, registry: &Registry, mut doors: Doors) -> io::Result<Clients> {
        if let Some(control) = &mut doors.control {
            registry.register(control, CONTROL, Interest::READABLE)?;
        }
        if let Some(metrics) = &mut doors.metrics {
            registry.register(metrics, METRICS, Interest::READABLE)?;
        }
        let mut clients = Clients {
            alloc,
            doors,
            at_control: true,
            at_metrics: true,
            until: Vec::new(alloc),
            clients: Vec::new(alloc),
            woken: Vec::new(alloc),
            is_woken: true,
            next: None,
        };
        clients.make_room()?;
        Ok(clients)
    }

    fn make_room(&mut self) -> Result<(), AllocError> {
        for _seat in 0..SEATS {
            self.until.push(None)?;
            self.clients.push(None)?;
            self.woken.push(false)?;
        }
        Ok(())
    }

    /// The moment at which something is to be done of its own.
    pub fn next_moment(&self) -> Option<u64> {
        if self.is_woken { Some(0) } else { self.next }
    }

    /// Whether there is something to do at the moment `now`.
    pub fn are_waiting(&self, now: u64) -> bool {
        self.is_woken || is_over(self.next, now)
    }

    /// The system tells that a socket has something, or takes something.
    pub fn wake(&mut self, token: Token) {
        self.is_woken = true;
        if token == CONTROL {
            self.at_control = true;
        } else if token == METRICS {
            self.at_metrics = true;
        } else if let Some(woken) = self.woken.get_mut(token.0.saturating_sub(FIRST)) {
            *woken = true;
        }
    }

    /// Does what there is to do at the moment `now`, and tells what of it the relay has to.
    pub fn serve(&mut self, registry: &Registry, now: u64, state: State<'_>) -> Wishes {
        let mut wishes = Wishes::none();
        if !self.are_waiting(now) {
            return wishes;
        }
        self.let_in(registry, now);
        for at in 0..SEATS {
            if self.is_over(at, now) {
                self.leave(at);
            } else {
                self.attend(at, state, &mut wishes);
            }
        }
        self.is_woken = self.at_control || self.at_metrics;
        self.next = first_end(&self.until);
        wishes
    }

    fn is_over(&self, at: usize, now: u64) -> bool {
        match self.until.get(at) {
            Some(until) => is_over(*until, now),
            None => false,
        }
    }

    /// The place of a client is free again, and its connection ends.
    fn leave(&mut self, at: usize) {
        self.put(at, None, None);
    }

    /// Gives a place to a client, or to nobody.
    fn put(&mut self, at: usize, until: Option<u64>, client: Option<Client>) {
        if let (Some(place), Some(end), Some(woken)) = (
            self.clients.get_mut(at),
            self.until.get_mut(at),
            self.woken.get_mut(at),
        ) {
            *place = client;
            *end = until;
            *woken = until.is_some();
        }
    }

    /// Goes on with a client of whom something may have come, and adds what it asks for, where that is whole since.
    fn attend(&mut self, at: usize, state: State<'_>, wishes: &mut Wishes) {
        let (Some(woken), Some(Some(client))) = (self.woken.get_mut(at), self.clients.get_mut(at))
        else {
            return;
        };
        if !*woken {
            return;
        }
        *woken = false;
        let before = client.asked();
        let stage = client.go_on(state);
        let asked = client.asked();
        if before.is_none() {
            wishes.add(asked, client.take_change());
        }
        // Who has the run end is told by that, whatever became of the connection.
        if stage == Stage::Over && asked != Some(Asked::Stop) {
            self.leave(at);
        }
    }

    /// Lets those in who wait at the doors.
    fn let_in(&mut self, registry: &Registry, now: u64) {
        for _one in 0..AT_ONCE {
            let Some(stream) = self.next_stream() else {
                return;
            };
            let Some(at) = seat_for(&self.until) else {
                return;
            };
            let token = Token(FIRST.saturating_add(at));
            if let Ok(client) = Client::new(self.alloc, registry, token, stream) {
                self.put(at, Some(end_of(now)), Some(client));
            }
        }
    }

    /// The next one who waits. Where none can be had, for want of descriptors as it may be, the next one to come has it
    /// tried again.
    fn next_stream(&mut self) -> Option<Stream> {
        if self.at_control {
            match self.doors.next_line() {
                Ok(stream) => return Some(stream),
                Err(error) => self.at_control = is_passing(error),
            }
        }
        if self.at_metrics {
            match self.doors.next_page() {
                Ok(stream) => return Some(stream),
                Err(error) => self.at_metrics = is_passing(error),
            }
        }
        None
    }
}

impl Doors {
    /// The next one who waits at the control socket.
    fn next_line(&self) -> Result<Stream, ErrorKind> {
        let Some(control) = &self.control else {
            return Err(ErrorKind::WouldBlock);
        };
        match control.accept() {
            Ok((stream, _)) => Ok(Stream::Line(stream)),
            Err(error) => Err(error.kind()),
        }
    }

    /// The next one who waits at the socket of the metrics.
    fn next_page(&self) -> Result<Stream, ErrorKind> {
        let Some(metrics) = &self.metrics else {
            return Err(ErrorKind::WouldBlock);
        };
        match metrics.accept() {
            Ok((stream, _)) => Ok(Stream::Page(stream)),
            Err(error) => Err(error.kind()),
        }
    }
}

/// Whether an error is of one who waited alone, behind whom others may.
fn is_passing(kind: ErrorKind) -> bool {
    matches!(kind, ErrorKind::Interrupted | ErrorKind::ConnectionAborted)
}
