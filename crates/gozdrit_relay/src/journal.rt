//! The log of a relay: a line for each event, in the words of the simulator's log behind the moment at which it happened.
ghost use Rattle.std.specs.Prelude.{◌≤◌};

use crate::counts::Counts;
use crate::unwaited::takes_a_line;
use endpoint::{Heard, Kind, Restart, Told};
use lines::{Word, push_line};
use receiver::ReceiveFault;
use relays::Note;
use rtpwire::{RtpView, Session};
use std::alloc::Global;
use std::fs::{File, OpenOptions};
use std::io;
use std::io::Write;

/// What a log has lines of.
#[derive(Clone, Copy, Debug, PartialEq, Eq)]
pub enum Form {
    /// Of sessions and of what is lost for good, and of the counts.
    Events,
    /// Of each packet, with its octets.
    Packets,
}

/// A log in a file, behind what that has already. Each line is written whole, by one call, and only where that does not wait. One that can't be is
/// lost, and the next one begins anew.
#[derive(Drop)]
pub struct Journal<'a> {
    path: &'a str,
    form: Form,
    file: File,
    line: Vec<u8>,
    /// Whether the SSRC of the retransmissions is known from the beginning.
    shows_repair: bool,
    /// How many lines could not be written.
    lost: u64,
    /// Whether the last one could not, of which the file may have a part.
    is_torn: bool,
    /// Places that were given up one behind the other, and not told so far: the first of them, and how many.
    gaps: Option<(u64, u64)>,
}

impl<'a> Journal<'a> {
    /// A log at a path, at the moment 0. `shows_repair` is whether a session's retransmissions are told by SSRC.
    pub fn open(
        rt: &HostRuntime,
        path: &'a str,
        form: Form,
        shows_repair: bool,
    ) -> io::Result<Journal<'a>> {
        let mut journal = Journal {
            path,
            form,
            file: opened(rt, path)?,
            line: Vec::new(rt.alloc()),
            shows_repair,
            lost: 0,
            is_torn: false,
            gaps: None,
        };
        journal.begin_file(0);
        Ok(journal)
    }

    /// Goes on in the file that has its path now, as behind a rotation. Where there can be none it stays in the one that it has.
    pub fn reopen(&mut self, rt: &HostRuntime, now: u64) -> io::Result<()> {
        let file = opened(rt, self.path)?;
        self.tell_gaps(now);
        self.file = file;
        self.is_torn = false;
        self.begin_file(now);
        Ok(())
    }

    /// The first line of a log of events, by which what reads one of packets knows that it is none.
    fn begin_file(&mut self, now: u64) {
        if self.form == Form::Events {
            self.write(&[Word::Decimal(now), Word::Text(b"events")]);
        }
    }

    /// Whether it has lines of the counts.
    pub fn has_counts(&self) -> bool {
        self.form == Form::Events
    }

    /// How many lines could not be written.
    pub fn lost(&self) -> u64 {
        self.lost
    }

    /// Writes what a relay did at a moment, with the octets that left or came, and the number of the datagram that left.
    pub fn note(&mut self, now: u64, note: &Note, octets: &[u8], index: u64) {
        match self.form {
            Form::Events => self.note_event(now, note),
            Form::Packets => self.note_packet(now, note, octets, index),
        }
    }

    /// Writes what is an event. Places that are given up one behind the other are one, which is told once another one comes, or the counts do: who
    /// sends a packet far ahead has thousands given up. What is passed over is none, since whoever asks has as much of that as he likes.
    fn note_event(&mut self, now: u64, note: &Note) {
        match note {
            Note::Began(session, first, _) => {
                self.tell_gaps(now);
                self.begin(now, session, *first);
            }
            Note::Moved(_, answer, _) => {
                self.move_far(now);
                self.hear_event(now, answer);
            }
            Note::Heard(answer, _) => self.hear_event(now, answer),
            Note::Gap(place) => self.give_up(now, place.value()),
            _ => {}
        }
    }

    /// Writes what an answer lost, and a restart.
    fn hear_event(&mut self, now: u64, answer: &Result<Heard, ReceiveFault>) {
        match answer {
            Ok(Heard::Media(taken) | Heard::Repair(taken)) => {
                if taken.overrun > 0 {
                    self.tell_gaps(now);
                    self.count(now, b"overrun", taken.overrun);
                }
            }
            Ok(Heard::Restarted(restart)) => {
                self.tell_gaps(now);
                self.restart(now, restart);
            }
            _ => {}
        }
    }

    /// A place was given up: behind those before, or by itself.
    fn give_up(&mut self, now: u64, place: u64) {
        self.gaps = match self.gaps {
            Some((first, count)) if first.saturating_add(count) == place => {
                Some((first, count.saturating_add(1)))
            }
            _ => {
                self.tell_gaps(now);
                Some((place, 1))
            }
        };
    }

    /// Writes the places that were given up, where there are any.
    fn tell_gaps(&mut self, now: u64) {
        if let Some((first, count)) = self.gaps {
            self.gaps = None;
            self.write(&[
                Word::Decimal(now),
                Word::Text(b"gap"),
                Word::Decimal(first),
                Word::Decimal(count),
            ]);
        }
    }

    /// Writes the counts.
    pub fn write_counts(&mut self, alloc: Global, now: u64, counts: &Counts, is_sender: bool) {
        self.tell_gaps(now);
        let mut figures = Vec::new(alloc);
        if counts.push(alloc, &mut figures, is_sender).is_err() {
            return;
        }
        let Some((_, text)) = figures.split_last() else {
            return;
        };
        self.write(&[Word::Decimal(now), Word::Text(b"counts"), Word::Text(text)]);
    }

    /// Writes all that it did.
    fn note_packet(&mut self, now: u64, note: &Note, octets: &[u8], index: u64) {
        match note {
            Note::Sent(place) => self.write(&[
                Word::Decimal(now),
                Word::Text(b"sent"),
                Word::Decimal(place.value()),
                Word::Decimal(index),
                Word::Octets(octets),
            ]),
            Note::Retransmitted(place) => self.write(&[
                Word::Decimal(now),
                Word::Text(b"repair"),
                Word::Decimal(place.value()),
                Word::Decimal(index),
                Word::Octets(octets),
            ]),
            Note::PassedOver(_) => self.write(&[Word::Decimal(now), Word::Text(b"passed")]),
            Note::Asked | Note::AskedAgain => self.write(&[
                Word::Decimal(now),
                Word::Text(b"ask"),
                Word::Decimal(index),
                Word::Octets(octets),
            ]),
            Note::Unsent => self.write(&[Word::Decimal(now), Word::Text(b"unsent")]),
            Note::Stray => self.write(&[Word::Decimal(now), Word::Text(b"stray")]),
            Note::Told(Ok(Told::Feedback(shared))) => {
                self.count(now, b"marked", u64::from(shared.places))
            }
            Note::Told(Ok(_)) => {}
            Note::Told(Err(fault)) => self.count(now, b"refused", u64::from(fault.number())),
            Note::Crowded(packets) => self.count(now, b"crowded", *packets),
            Note::Marked(marked) => self.count(now, b"tail", u64::from(marked.places)),
            Note::Heard(answer, kind) => self.hear(now, answer, *kind),
            Note::Moved(_, answer, kind) => {
                self.move_far(now);
                self.hear(now, answer, *kind);
            }
            Note::Timed(time) => self.count(now, b"rtt", time.unwrap_or(0)),
            Note::Began(session, first, _) => self.begin(now, session, *first),
            Note::Played(place) => self.play(now, place.value(), octets),
            Note::Gap(place) => self.count(now, b"gap", place.value()),
        }
    }

    /// The far side is at another address.
    pub fn move_far(&mut self, now: u64) {
        self.tell_gaps(now);
        self.write(&[Word::Decimal(now), Word::Text(b"moved")]);
    }

    /// The datagram of the line before was dropped for a trial.
    pub fn lose(&mut self, now: u64, index: u64) {
        if self.form == Form::Packets {
            self.count(now, b"lost", index);
        }
    }

    fn hear(&mut self, now: u64, answer: &Result<Heard, ReceiveFault>, kind: Kind) {
        match answer {
            Ok(Heard::Media(taken) | Heard::Repair(taken)) => {
                let place = Word::Decimal(taken.place.value());
                self.write(&[
                    Word::Decimal(now),
                    Word::Text(b"taken"),
                    place,
                    Word::Decimal(taken.overrun),
                ]);
                self.leave_behind(now, b"overrun", taken.overrun);
            }
            Ok(Heard::HeldBack(_)) => self.write(&[Word::Decimal(now), Word::Text(b"held")]),
            Ok(Heard::Restarted(restart)) => self.restart(now, restart),
            Ok(Heard::Control) => {}
            Err(fault) => self.count(now, refused_as(kind), u64::from(fault.number())),
        }
    }

    /// The stream was restarted, and what that left behind.
    fn restart(&mut self, now: u64, restart: &Restart) {
        self.count(now, b"restarted", restart.taken.place.value());
        self.leave_behind(now, b"overrun", restart.taken.overrun);
        self.leave_behind(now, b"abandoned", restart.abandoned);
        self.leave_behind(now, b"skipped", u64::from(restart.skipped));
    }

    /// So many places were left behind or passed over by the packet of the line before, if any were.
    fn leave_behind<'x>(&mut self, now: u64, how: &'x [u8], places: u64) {
        if places > 0 {
            self.count(now, how, places);
        }
    }

    fn begin(&mut self, now: u64, session: &Session, first: u16) {
        let media = session.media_ssrc().to_be_bytes();
        let repair = session.repair_ssrc().to_be_bytes();
        let shown = shown(self.shows_repair);
        let words = session_words(now, &media, &repair[..shown], session, first);
        self.write(&words);
    }

    /// The line of a packet that was played, which left as these octets.
    fn play(&mut self, now: u64, place: u64, octets: &[u8]) {
        let Ok(view) = RtpView::read(octets) else {
            return;
        };
        let sources = octets.get(12..12 + 4 * view.source_count()).unwrap_or(&[]);
        let extension = extension_of(&view);
        self.write(&[
            Word::Decimal(now),
            Word::Text(b"play"),
            Word::Decimal(place),
            Word::Decimal(u64::from(view.timestamp())),
            Word::Marker(view.marker()),
            Word::Octets(view.payload()),
            Word::Octets(sources),
            extension,
        ]);
    }

    fn count<'x>(&mut self, now: u64, kind: &'x [u8], number: u64) {
        self.write(&[Word::Decimal(now), Word::Text(kind), Word::Decimal(number)]);
    }

    fn write(&mut self, words: &[Word<'_>]) {
        self.line.clear();
        let is_apart = !self.is_torn || self.line.push(b'\n').is_ok();
        let is_whole = is_apart && push_line(&mut self.line, words).is_ok();
        if is_whole && takes_a_line(&self.file) {
            self.is_torn = self.file.write_all(&self.line).is_err();
            if !self.is_torn {
                return;
            }
        }
        self.lost = self.lost.saturating_add(1);
    }
}

/// A file to which lines are added. It is opened for reading, too, since a FIFO would else be waited for until somebody reads it.
fn opened(rt: &HostRuntime, path: &str) -> io::Result<File> {
    OpenOptions::new()
        .read(true)
        .append(true)
        .create(true)
        .open(rt, path)
}

/// How many octets of an SSRC are shown: none where it is not known.
pub fn shown(is_known: bool) -> usize
    ensures { result ≤ 4 }
{
    if is_known { 4 } else { 0 }
}

/// A header extension, or a dash for none.
fn extension_of<'a>(view: &RtpView<'a>) -> Word<'a> {
    match view.extension() {
        Some((profile, words)) => Word::Extension(profile, words),
        None => Word::Octets(&[]),
    }
}

/// The words of a session that was learnt, with both SSRCs as they are shown.
fn session_words<'x>(
    now: u64,
    media: &'x [u8],
    repair: &'x [u8],
    session: &Session,
    first: u16,
) -> [Word<'x>; 7] {
    [
        Word::Decimal(now),
        Word::Text(b"session"),
        Word::Octets(media),
        Word::Decimal(u64::from(session.media_type())),
        Word::Octets(repair),
        Word::Decimal(u64::from(session.repair_type())),
        Word::Decimal(u64::from(first)),
    ]
}

/// The word of a datagram that was refused: what nobody asked for has its own.
fn refused_as(kind: Kind) -> &'static [u8] {
    match kind {
        Kind::Padding => b"padding",
        Kind::Unasked => b"unasked",
        Kind::Usual => b"refused",
    }
}
