//! One client of a relay: what came of it, and what it is still to be told.
ghost use Rattle.std.specs.Prelude.{◌≡◌};
ghost use Rattle.gozdrit_relay.specs.Client.{stage_after};

use crate::answers::{State, answer_of};
use crate::asking::{Asked, Come, LONGEST, asked_where, hear_head, hear_line};
use crate::changes::{Change, change_of};
use mio::net::{TcpStream, UnixStream};
use mio::{Interest, Registry, Token};
use std::alloc::Global;
use std::io;
use std::io::{ErrorKind, Read, Write};
use std::net::Shutdown;

/// How many octets are read at once.
const PIECE: usize = 1024;

/// How often what comes behind an answered request is read and passed over, in one go.
const PASSES: usize = 16;

/// How a client is connected, and with that what it speaks.
#[derive(Drop)]
pub enum Stream {
    /// To the control socket, line by line.
    Line(UnixStream),
    /// To the metrics, by HTTP.
    Page(TcpStream),
}

impl Stream {
    /// Has the system tell when something comes or can leave.
    fn register(&mut self, registry: &Registry, token: Token) -> io::Result<()> {
        let both = Interest::READABLE | Interest::WRITABLE;
        match self {
            Stream::Line(stream) => registry.register(stream, token, both),
            Stream::Page(stream) => registry.register(stream, token, both),
        }
    }

    fn read(&mut self, room: &mut [u8]) -> io::Result<usize> {
        match self {
            Stream::Line(stream) => stream.read(room),
            Stream::Page(stream) => stream.read(room),
        }
    }

    fn write(&mut self, octets: &[u8]) -> io::Result<usize> {
        match self {
            Stream::Line(stream) => stream.write(octets),
            Stream::Page(stream) => stream.write(octets),
        }
    }

    /// Nothing more is written.
    fn end(&self) {
        let _ = match self {
            Stream::Line(stream) => stream.shutdown(Shutdown::Write),
            Stream::Page(stream) => stream.shutdown(Shutdown::Write),
        };
    }
}

/// What a read or a write came to.
#[derive(Clone, Copy, Debug, PartialEq, Eq)]
enum Moved {
    /// So many octets, which are some.
    Octets(usize),
    /// The other end is closed.
    End,
    /// Nothing for now.
    Later,
    /// Nothing, since a signal came between.
    Again,
    /// The connection is broken.
    Failed,
}

/// What the system says of a read or a write.
fn outcome_of(count: io::Result<usize>) -> Moved {
    match count {
        Ok(0) => Moved::End,
        Ok(count) => Moved::Octets(count),
        Err(error) => match error.kind() {
            ErrorKind::WouldBlock => Moved::Later,
            ErrorKind::Interrupted => Moved::Again,
            _ => Moved::Failed,
        },
    }
}

/// How far a client is.
#[derive(Clone, Copy, Debug, PartialEq, Eq)]
pub enum Stage {
    /// Its request comes.
    Asks,
    /// It is told what it asked for.
    Hears(Asked),
    /// It was told all, and what else comes of it is passed over until it is gone: if that were left unread, the answer
    /// might be lost.
    Lingers,
    /// It was told that the run ends, and its connection ends with that.
    Waits,
    /// Its connection ends.
    Over,
}

/// The stage of a client that asked for this, where so many octets of the answer are still to be written.
fn stage_after(asked: Asked, left: usize) -> Stage
    ensures { result ≡ stage_after asked left }
{
    if left > 0 {
        return Stage::Hears(asked);
    }
    match asked {
        Asked::Stop => Stage::Waits,
        _ => Stage::Lingers,
    }
}

/// A client.
#[derive(Drop)]
pub struct Client {
    alloc: Global,
    stream: Stream,
    stage: Stage,
    /// What it asked for, once that was whole.
    asked: Option<Asked>,
    /// The change that it asked for, until it is taken.
    change: Option<Change>,
    /// What came of its request.
    octets: Vec<u8>,
    answer: Vec<u8>,
    /// How many octets of the answer were written.
    told: usize,
}

impl Client {
    /// A client that is connected so, under this token.
    pub fn new(
        alloc: Global,
        registry: &Registry,
        token: Token,
        mut stream: Stream,
    ) -> io::Result<Client> {
        stream.register(registry, token)?;
        Ok(Client {
            alloc,
            stream,
            stage: Stage::Asks,
            asked: None,
            change: None,
            octets: Vec::new(alloc),
            answer: Vec::new(alloc),
            told: 0,
        })
    }

    /// Does what can be done without waiting, and answers how far the client is then.
    pub fn go_on(&mut self, state: State<'_>) -> Stage {
        if let Stage::Asks = self.stage {
            self.stage = self.hear(state);
        }
        if let Stage::Hears(asked) = self.stage {
            self.stage = self.tell(asked);
        }
        if let Stage::Lingers = self.stage {
            self.stage = self.linger();
        }
        self.stage
    }

    /// What it asked for, once that was whole. It holds whether or not it is told.
    pub fn asked(&self) -> Option<Asked> {
        self.asked
    }

    /// Takes the change that it asked for, where it asked for one.
    pub fn take_change(&mut self) -> Option<Change> {
        self.change.take()
    }

    /// Reads its request, and has the answer ready once that is whole.
    fn hear(&mut self, state: State<'_>) -> Stage {
        match self.read_on() {
            Come::More => Stage::Asks,
            Come::Gone => Stage::Over,
            Come::Asks(asked) => {
                self.change = change_of(self.alloc, asked, &self.octets, &state.way);
                let asked = asked_where(state.has_log, self.change.is_some(), asked);
                self.asked = Some(asked);
                if let Ok(answer) = answer_of(self.alloc, asked, &self.octets, state) {
                    self.answer = answer;
                }
                Stage::Hears(asked)
            }
        }
    }

    /// Reads what came of its request.
    fn read_on(&mut self) -> Come {
        let mut room = [0; PIECE];
        for _read in 0..LONGEST {
            let most = LONGEST.saturating_sub(self.octets.len()).min(PIECE);
            let come = match outcome_of(self.stream.read(&mut room[..most])) {
                Moved::Octets(count) => self.take(room.get(..count).unwrap_or(&[])),
                Moved::End => self.come(true),
                Moved::Later => return Come::More,
                Moved::Again => Come::More,
                Moved::Failed => Come::Gone,
            };
            if come != Come::More {
                return come;
            }
        }
        Come::Gone
    }

    /// More of its request came.
    fn take(&mut self, octets: &[u8]) -> Come {
        match self.octets.extend_from_slice(octets) {
            Ok(()) => self.come(false),
            Err(_) => Come::Gone,
        }
    }

    /// What its request is so far.
    fn come(&self, is_gone: bool) -> Come {
        match &self.stream {
            Stream::Line(_) => hear_line(&self.octets, is_gone),
            Stream::Page(_) => hear_head(&self.octets, is_gone),
        }
    }

    /// Writes of the answer what the system takes.
    fn tell(&mut self, asked: Asked) -> Stage {
        for _write in 0..=self.answer.len() {
            let left = self.answer.get(self.told..).unwrap_or(&[]);
            let stage = stage_after(asked, left.len());
            if left.is_empty() {
                if stage == Stage::Lingers {
                    self.stream.end();
                }
                return stage;
            }
            match outcome_of(self.stream.write(left)) {
                Moved::Octets(count) => self.told = self.told.saturating_add(count),
                Moved::Later => return stage,
                Moved::Again => {}
                Moved::End | Moved::Failed => return Stage::Over,
            }
        }
        Stage::Over
    }

    /// Passes over what comes behind its request.
    fn linger(&mut self) -> Stage {
        let mut room = [0; PIECE];
        for _read in 0..PASSES {
            match outcome_of(self.stream.read(&mut room)) {
                Moved::Octets(_) | Moved::Again => {}
                Moved::Later => return Stage::Lingers,
                Moved::End | Moved::Failed => return Stage::Over,
            }
        }
        Stage::Over
    }
}
