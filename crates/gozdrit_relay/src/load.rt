//! Whether what a relay keeps is enough for its stream: a window for what comes while a place is waited for, a history for what is
//! asked for.
use endpoint::{Heard, Told};
use lines::{Word, push_line};
use receiver::ReceiveFault;
use relays::Note;
use stores::OutOfMemory;

/// How many packets a store keeps at most.
pub const MOST_KEPT: u64 = 8192;

/// Over how long places are counted, in milliseconds.
const SECOND: u64 = 1000;

/// How long nothing is told after something was, in milliseconds.
const APART: u64 = 10_000;

/// What a relay keeps.
#[derive(Clone, Copy, Debug, PartialEq, Eq)]
pub enum Store {
    /// So many packets that were sent.
    History(u64),
    /// So many places, of which a missing one is waited for for `latency` milliseconds.
    Window { places: u64, latency: u64 },
}

impl Store {
    /// Whether it is that of a relay before the network.
    pub fn is_history(&self) -> bool {
        matches!(self, Store::History(_))
    }

    /// How long a missing place is waited for, behind the network.
    pub fn latency(&self) -> Option<u64> {
        match self {
            Store::History(_) => None,
            Store::Window { latency, .. } => Some(*latency),
        }
    }
}

/// What a store is too short for.
#[derive(Clone, Copy, Debug, PartialEq, Eq)]
pub enum Shortage {
    /// Feedback names so many packets that a history of `kept` has no longer.
    History {
        kept: u64,
        gone: u64,
    },
    /// So many packets come each second, which a window of `places` cannot wait for for `latency` milliseconds.
    Window {
        places: u64,
        latency: u64,
        rate: u64,
    },
}

/// What came and left, beside what is kept.
#[derive(Clone, Copy, Debug, PartialEq, Eq)]
pub struct Load {
    store: Store,
    /// How many packets were sent in this session.
    sent: u64,
    /// The moment at which the second began that is counted. The first one begins with the session.
    since: u64,
    /// The highest place of the session so far.
    highest: Option<u64>,
    /// By how many places that rose in this second so far, and in the one before.
    places: u64,
    before: u64,
    /// How many places were told to be needed in this session, and from when on more are told.
    told: u64,
    next: u64,
}

impl Load {
    /// Nothing came or left so far.
    pub fn new(store: Store) -> Load {
        Load {
            store,
            sent: 0,
            since: 0,
            highest: None,
            places: 0,
            before: 0,
            told: 0,
            next: 0,
        }
    }

    /// Counts what a relay did at the moment `now`, and answers what is too short: once in each session, and again where more is needed
    /// than was told.
    pub fn follow(&mut self, now: u64, note: &Note) -> Option<Shortage> {
        // It is noted behind the packet that it began with, and in a sending relay before any feedback.
        if let Note::Began(..) = note {
            self.begin(now);
            return None;
        }
        let found = match note {
            Note::Sent(_) => {
                self.sent = self.sent.saturating_add(1);
                None
            }
            Note::Told(Ok(Told::Feedback(shared))) => self.asked(u64::from(shared.unknown)),
            Note::Heard(answer, _) | Note::Moved(_, answer, _) => self.hear(answer, now),
            _ => None,
        }?;
        let needed = found.needed();
        if needed <= self.told || now < self.next {
            return None;
        }
        self.told = needed;
        self.next = now.saturating_add(APART);
        Some(found)
    }

    /// A session began, with one packet.
    fn begin(&mut self, now: u64) {
        let sent = self.sent;
        *self = Load::new(self.store);
        self.sent = sent;
        self.since = now;
        self.places = 1;
    }

    /// Feedback names so many packets that are not kept. As long as no more was sent than is kept, these were never sent.
    fn asked(&self, unknown: u64) -> Option<Shortage> {
        match self.store {
            Store::History(kept) if unknown > 0 && self.sent > kept => Some(Shortage::History {
                kept,
                gone: unknown,
            }),
            _ => None,
        }
    }

    /// Counts the places by which the media of an answer rose. What is repaired is left out: after an outage it comes beside the media,
    /// at twice the rate.
    fn hear(&mut self, answer: &Result<Heard, ReceiveFault>, now: u64) -> Option<Shortage> {
        match answer {
            Ok(Heard::Media(taken)) => {
                let place = taken.place.value();
                let risen = risen(self.highest, place);
                self.highest = Some(self.highest.unwrap_or(0).max(place));
                self.take(risen, now)
            }
            Ok(Heard::Restarted(restart)) => {
                self.highest = Some(restart.taken.place.value());
                self.take(u64::from(restart.held), now)
            }
            _ => None,
        }
    }

    /// The media rose by so many places. Where a second has passed, what came in it is looked at.
    fn take(&mut self, places: u64, now: u64) -> Option<Shortage> {
        let passed = now.saturating_sub(self.since);
        let mut found = None;
        if passed >= SECOND {
            found = self.shortage();
            let is_next = passed < 2 * SECOND;
            self.before = if is_next { self.places } else { 0 };
            self.places = 0;
            self.since = if is_next {
                self.since.saturating_add(SECOND)
            } else {
                now
            };
        }
        self.places = self.places.saturating_add(places);
        found
    }

    /// Whether a window is too short for the last two seconds. The lesser of both is taken for the rate: what a network held back or
    /// lost in a row comes at once, and in one second alone.
    fn shortage(&self) -> Option<Shortage> {
        let Store::Window { places, latency } = self.store else {
            return None;
        };
        let rate = self.places.min(self.before);
        if wanted(rate, latency) <= places {
            return None;
        }
        Some(Shortage::Window {
            places,
            latency,
            rate,
        })
    }
}

/// By how many places a packet rises above the highest one, those that are missing below it included: they are waited for too. One from
/// farther away is of another session, and is one.
fn risen(highest: Option<u64>, place: u64) -> u64 {
    match highest {
        Some(highest) if place <= highest => 0,
        Some(highest) if place - highest <= MOST_KEPT => place - highest,
        _ => 1,
    }
}

/// How many places a window has to have where so many packets come each second and one is waited for for `latency` milliseconds.
fn wanted(rate: u64, latency: u64) -> u64 {
    rate.saturating_mul(latency).saturating_add(SECOND - 1) / SECOND
}

impl Shortage {
    /// How many places are needed. Of a history that is not known, and it is told once.
    fn needed(&self) -> u64 {
        match self {
            Shortage::History { .. } => 1,
            Shortage::Window { latency, rate, .. } => wanted(*rate, *latency),
        }
    }

    /// Pushes the line that tells it, with what to do.
    pub fn push(&self, line: &mut Vec<u8>) -> Result<(), OutOfMemory> {
        match self {
            Shortage::History { kept, gone } => push_history(line, *kept, *gone),
            Shortage::Window {
                places,
                latency,
                rate,
            } => push_window(line, *places, *latency, *rate),
        }
    }
}

fn push_history(line: &mut Vec<u8>, kept: u64, gone: u64) -> Result<(), OutOfMemory> {
    let remedy = if kept < MOST_KEPT {
        "asked for are gone: give a greater --history, or the other relay less --latency"
    } else {
        "asked for are gone: give the other relay less --latency"
    };
    push_line(
        line,
        &[
            Word::Text(b"the history of"),
            Word::Decimal(kept),
            Word::Text(b"packets is too short, and"),
            Word::Decimal(gone),
            Word::Text(remedy.as_bytes()),
        ],
    )
}

fn push_window(
    line: &mut Vec<u8>,
    places: u64,
    latency: u64,
    rate: u64,
) -> Result<(), OutOfMemory> {
    let wanted = wanted(rate, latency);
    if wanted <= MOST_KEPT {
        push_line(line, &short_words(places, latency, rate, wanted))
    } else {
        push_line(line, &long_words(places, latency, rate, wanted))
    }
}

/// The words of a window that can be longer.
fn short_words<'x>(places: u64, latency: u64, rate: u64, wanted: u64) -> [Word<'x>; 9] {
    [
        Word::Text(b"the window of"),
        Word::Decimal(places),
        Word::Text(b"packets is too short for"),
        Word::Decimal(rate),
        Word::Text(b"packets a second and a latency of"),
        Word::Decimal(latency),
        Word::Text(b"ms: give --window"),
        Word::Decimal(wanted),
        Word::Text(b"or more"),
    ]
}

/// The words of a latency for which no window is long enough.
fn long_words<'x>(places: u64, latency: u64, rate: u64, wanted: u64) -> [Word<'x>; 11] {
    let longest = MOST_KEPT * SECOND / rate.max(1);
    [
        Word::Text(b"the window of"),
        Word::Decimal(places),
        Word::Text(b"packets is too short for"),
        Word::Decimal(rate),
        Word::Text(b"packets a second and a latency of"),
        Word::Decimal(latency),
        Word::Text(b"ms, which want"),
        Word::Decimal(wanted),
        Word::Text(b"where 8192 are the most: give --window 8192 and --latency"),
        Word::Decimal(longest),
        Word::Text(b"or less"),
    ]
}
