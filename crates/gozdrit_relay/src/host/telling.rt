//! What is told of a run: its counts, its sessions, and what goes wrong, line by line.
use super::{Host, MINUTE, SECOND};
use crate::foreign::{Foreign, told_apart};
use crate::greeting::{
    push_failed, push_foreign, push_full, push_moved, push_session, push_strays, push_too_long,
    push_unopened, push_unsaid, push_way,
};
use crate::hindrance::hindered_by;
use crate::seats::{is_over, sooner};
use crate::stream_form::longest;
use crate::too_long::is_too_long;
use crate::unwaited::takes_a_line;
use relays::{Note, Turn};
use std::io;
use std::io::Write;
use std::net::SocketAddr;

impl<'a> Host<'a> {
    /// Writes the line that was made to standard error, where that does not wait. How many were not is told behind the next one that is.
    pub(super) fn say(&mut self) {
        let mut to = self.rt.stderr();
        if !takes_a_line(&to) {
            self.unsaid = self.unsaid.saturating_add(1);
            return;
        }
        if self.unsaid > 0 && push_unsaid(&mut self.line, self.unsaid).is_ok() {
            self.unsaid = 0;
        }
        let _ = to.write_all(&self.line);
    }

    /// Writes the lines of counts whose moment has come: that of standard error, and that of the log.
    #[inline(never)]
    pub(super) fn tell_counts(&mut self, now: u64) {
        if let Some((apart, next)) = self.stats {
            if now >= next {
                self.stats = Some((apart, now.saturating_add(apart)));
                self.write_counts();
            }
        }
        if is_over(self.logs_at, now) {
            self.logs_at = Some(now.saturating_add(SECOND));
            let is_minute = now.saturating_sub(self.logged_at) >= MINUTE;
            if is_minute || self.counts.tell_more_than_flow(&self.logged) {
                self.log_counts(now);
            }
        }
        self.tells_at = sooner(self.stats.map(|stats| stats.1), self.logs_at);
    }

    /// Writes the line of counts.
    fn write_counts(&mut self) {
        self.line.clear();
        let pushed = self
            .counts
            .push(self.rt.alloc(), &mut self.line, self.is_sender);
        if pushed.is_ok() {
            self.say();
        }
    }

    /// Writes the counts to the log.
    fn log_counts(&mut self, now: u64) {
        self.logged = self.counts;
        self.logged_at = now;
        if let Some(journal) = &mut self.journal {
            journal.write_counts(self.rt.alloc(), now, &self.counts, self.is_sender);
        }
    }

    /// Writes the last counts of a run.
    pub fn end(&mut self) {
        self.send_waiting(u64::MAX);
        if self.logs_at.is_some() {
            self.log_counts(self.moment);
        }
        self.write_counts();
    }

    /// Has the log go on in the file that has its name now. Where that can't be it stays in the one that it has, and that is told.
    pub(super) fn reopen_log(&mut self, now: u64) {
        let Some(journal) = &mut self.journal else {
            return;
        };
        if let Err(error) = journal.reopen(self.rt, now) {
            self.line.clear();
            if push_unopened(self.rt, &mut self.line, &error).is_ok() {
                self.say();
            }
        }
    }

    /// Writes the line of what was not retransmitted, at most each ten seconds. By itself, as it is looked at only behind what may be more of it.
    #[inline(never)]
    pub(super) fn tell_unmet(&mut self, now: u64) {
        let unmet = self.counts.unmet();
        if let Some(more) = self.unmet.look(&unmet, now) {
            self.line.clear();
            if more.push(&mut self.line).is_ok() {
                self.say();
            }
        }
        self.is_unmet = !self.unmet.has_told(&unmet);
    }

    /// Writes the line of a session that was learnt, or that of a far side at another address.
    pub(super) fn tell_far(&mut self, note: &Note) {
        self.line.clear();
        let pushed = match note {
            Note::Began(session, first, far) => push_session(
                self.rt,
                &mut self.line,
                session,
                *first,
                *far,
                self.shows_repair,
            ),
            Note::Moved(far, ..) => return self.tell_moved(*far),
            _ => return,
        };
        if pushed.is_ok() {
            self.say();
        }
    }

    /// Writes the line of a far side at another address.
    #[inline(never)]
    pub(super) fn tell_moved(&mut self, far: SocketAddr) {
        self.line.clear();
        if push_moved(self.rt, &mut self.line, far).is_ok() {
            self.say();
        }
    }

    /// Writes the line of another address that what leaves goes to.
    #[inline(never)]
    pub(super) fn tell_way(&mut self, to: SocketAddr) {
        self.line.clear();
        if push_way(self.rt, &mut self.line, to).is_ok() {
            self.say();
        }
    }

    /// Logs what a relay did, and tells once where that can't be written.
    pub(super) fn log(&mut self, turn: &Turn, octets: &[u8], now: u64) {
        let Some(journal) = &mut self.journal else {
            return;
        };
        let lost = journal.lost();
        let index = self.left.saturating_sub(1);
        journal.note(now, &turn.note, octets, index);
        if self.is_lost {
            journal.lose(now, index);
        }
        if lost == 0 && journal.lost() > 0 {
            self.line.clear();
            if push_full(&mut self.line).is_ok() {
                self.say();
            }
        }
    }

    /// Writes the line of datagrams that came from elsewhere, at most each ten seconds.
    pub(super) fn tell_strays(&mut self, note: &Note, now: u64) {
        let Some(from) = self.from else {
            return;
        };
        if !self.is_stray(note, from) {
            return;
        }
        let Some(count) = self.strays.come(now) else {
            return;
        };
        self.line.clear();
        if push_strays(self.rt, &mut self.line, count, from).is_ok() {
            self.say();
        }
    }

    /// Whether a datagram came from elsewhere than what the relay has a session with: a stray, or a packet of another application than the
    /// one whose stream is sent on.
    fn is_stray(&mut self, note: &Note, from: SocketAddr) -> bool {
        match note {
            Note::Stray => true,
            Note::Sent(_) => {
                self.application = Some(from);
                false
            }
            Note::Unsent => {
                let is_stranger = self.is_stranger(from);
                if is_stranger {
                    self.counts.turn_away();
                }
                is_stranger
            }
            _ => false,
        }
    }

    /// Whether an address is another one than that of the application whose stream is sent on.
    fn is_stranger(&self, from: SocketAddr) -> bool {
        match self.application {
            Some(application) => from != application,
            None => false,
        }
    }

    /// Writes the line of packets that are longer than this program carries, at most each ten seconds.
    pub(super) fn tell_too_long(&mut self, note: &Note, octets: &[u8], now: u64) {
        if !is_too_long(note, octets) {
            return;
        }
        let Some(count) = self.too_long.come(now) else {
            return;
        };
        self.line.clear();
        if push_too_long(&mut self.line, count, longest(self.types.is_some())).is_ok() {
            self.say();
        }
    }

    /// Writes the line of what is no RTP, and known all the same, at most each ten seconds. By itself, as only what is not sent is looked at.
    #[inline(never)]
    pub(super) fn tell_foreign(&mut self, octets: &[u8], now: u64) {
        let what = match &self.payloader {
            Some(_) => Foreign::NoTransportStream,
            None => match told_apart(octets) {
                Some(what) => what,
                None => return,
            },
        };
        let Some(count) = self.foreign.come(now) else {
            return;
        };
        self.line.clear();
        if push_foreign(&mut self.line, count, what).is_ok() {
            self.say();
        }
    }

    /// Counts a datagram that the system did not take, and writes the line of such, at most each ten seconds.
    pub(super) fn fail(&mut self, error: &io::Error, to: SocketAddr) {
        self.counts.fail(hindered_by(error.raw_os_error()));
        let Some(count) = self.failed.come(self.moment) else {
            return;
        };
        self.line.clear();
        if push_failed(self.rt, &mut self.line, count, to, error).is_ok() {
            self.say();
        }
    }

    /// Writes the line of a store that is too short, once in each session.
    pub(super) fn tell_shortage(&mut self, note: &Note, now: u64) {
        let Some(shortage) = self.load.follow(now, note) else {
            return;
        };
        self.line.clear();
        if shortage.push(&mut self.line).is_ok() {
            self.say();
        }
    }
}
