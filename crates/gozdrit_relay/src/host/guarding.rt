//! What comes from the network, and leaves for it, where there is a key.
use super::taking::fill;
use super::{Change, Host};
use crate::greeting::{push_denied, push_unanswered, push_withheld};
use crate::guard::{Judgement, SEALED};
use contexts::ContextFault;
use liveness::{Answer, Pending, ReferenceTime, Source};
use relays::{Note, Octets, OutsideFault, Side};
use rtpwire::MAX_DATAGRAM;
use std::net::SocketAddr;

impl Host<'_> {
    /// How many octets of those that came from the network are a datagram for the relay. None: it is kept from it.
    pub(super) fn opened(&mut self, len: usize, from: SocketAddr) -> Option<usize> {
        let Some(guard) = &mut self.guard else {
            return Some(len);
        };
        let Some(datagram) = self.octets.get_mut(..len) else {
            return None;
        };
        match guard.open(datagram, self.moment) {
            Ok(len) => self.judged(len, from),
            Err(fault) => {
                self.deny(from, &fault);
                None
            }
        }
    }

    /// The same of a datagram that has a right tag: it may be no stream's that is heard, or a question, or an answer.
    fn judged(&mut self, len: usize, from: SocketAddr) -> Option<usize> {
        // The moment of the last wait's end may be long ago.
        let now = self.now().unwrap_or(self.moment);
        let Some(guard) = &mut self.guard else {
            return None;
        };
        let Some(octets) = self.octets.get(..len) else {
            return None;
        };
        let index = guard.index_of(octets);
        match guard.judge(octets, index, now) {
            Judgement::Heard => return self.heard(len, from),
            Judgement::Repairs(media) if self.has_media(media) => return Some(len),
            Judgement::Repairs(_) => self.counts.count(&Note::Stray),
            Judgement::Lives(None) => {}
            Judgement::Lives(Some(source)) => self.release(source),
            Judgement::Asked(time) => self.answer(&time, from),
            Judgement::Unanswered(ssrc, asks) => {
                if asks {
                    self.ask(from);
                }
                self.wait_for_answer(len, from, ssrc, index, now);
            }
            Judgement::Past => self.drop_unanswered(from),
        }
        None
    }

    /// Whether the session's media are under this SSRC.
    fn has_media(&self, ssrc: u32) -> bool {
        self.session
            .is_some_and(|session| session.media_ssrc() == ssrc)
    }

    /// What waited for the answer of an SSRC, and is not of its past, is heard from now on: what may begin a session at
    /// once, or what repairs that of the relay.
    fn release(&mut self, source: Source) {
        let is_media = source.media == source.ssrc;
        if (is_media || self.has_media(source.media)) && self.pending.has(&source) {
            self.answered = Some(source);
            if is_media {
                self.change = Some(Change::Lives);
            }
        }
    }

    /// The same of what is heard. It waits until the relay knows the far side there, where it is the newest packet of a
    /// receiver's session.
    fn heard(&mut self, len: usize, from: SocketAddr) -> Option<usize> {
        let Some(newest) = &mut self.newest else {
            return Some(len);
        };
        let Some(octets) = self.octets.get(..len) else {
            return None;
        };
        if self.is_sender || !newest.goes_ahead(octets) || self.far_at == Some(from) {
            return Some(len);
        }
        self.change = Some(Change::Far(from));
        self.again = Some((len, from));
        None
    }

    /// A packet of so many octets waits until its sender answers.
    #[inline(never)]
    fn wait_for_answer(&mut self, len: usize, from: SocketAddr, ssrc: u32, index: u64, now: u64) {
        let Some(octets) = self.octets.get(..len) else {
            return;
        };
        let dropped = match octets.to_vec(self.rt.alloc()) {
            Ok(octets) => self.pending.keep(Pending {
                ssrc,
                index,
                from,
                octets,
                moment: now,
            }),
            Err(_) => 1,
        };
        for _packet in 0..dropped {
            self.drop_unanswered(from);
        }
    }

    /// Counts a packet whose sender did not answer in time, or that is of its past, and writes the line of such, at
    /// most each ten seconds.
    fn drop_unanswered(&mut self, from: SocketAddr) {
        self.counts.deny();
        let Some(count) = self.unanswered.come(self.moment) else {
            return;
        };
        self.line.clear();
        if push_unanswered(self.rt, &mut self.line, count, from).is_ok() {
            self.say();
        }
    }

    /// Takes the next packet that waited for the answer of who gave it last. None: no more of them wait.
    #[inline(never)]
    pub(super) fn take_answered(
        &mut self,
        room: &mut Octets,
    ) -> Result<Option<Side>, OutsideFault> {
        let Some(source) = self.answered else {
            return Ok(None);
        };
        let Some(one) = self.pending.take(&source) else {
            self.answered = None;
            return Ok(None);
        };
        fill(room, &one.octets)?;
        self.from = Some(one.from);
        Ok(Some(Side::Far))
    }

    /// Asks who sends from an address whether he lives.
    fn ask(&mut self, to: SocketAddr) {
        let Some(guard) = &self.guard else {
            return;
        };
        let Some(living) = &guard.living else {
            return;
        };
        let question = living.question().write();
        self.send_sealed(to, &question);
    }

    /// Answers a receiver's question under each SSRC of the session, at once, where it came from the far side's
    /// address, as its feedback does.
    #[inline(never)]
    fn answer(&mut self, time: &ReferenceTime, from: SocketAddr) {
        let Some(session) = self.session else {
            return;
        };
        let to = self.as_known(Side::Far, from);
        if !self.is_sender || self.far_at != Some(to) {
            return;
        }
        let media = session.media_ssrc();
        for ssrc in [media, session.repair_ssrc()] {
            let answer = Answer {
                ssrc,
                media,
                receiver: time.ssrc,
                last: time.middle(),
                delay: 0,
                first: self.first(ssrc),
            };
            self.send_sealed(to, &answer.write());
        }
    }

    /// The first index of an SSRC that is not of the past.
    fn first(&self, ssrc: u32) -> u64 {
        match &self.guard {
            Some(guard) => guard.sent.first(ssrc),
            None => 0,
        }
    }

    /// The relay knows its far side at another address.
    pub fn move_far(&mut self, far: SocketAddr) {
        self.far_at = Some(far);
        self.counts.move_far();
        if let Some(journal) = &mut self.journal {
            journal.move_far(self.moment);
        }
        self.tell_moved(far);
    }

    /// Counts a datagram that SRTP refuses, and writes the line of such, at most each ten seconds.
    #[inline(never)]
    fn deny(&mut self, from: SocketAddr, fault: &ContextFault) {
        self.counts.deny();
        let Some(count) = self.denied.come(self.moment) else {
            return;
        };
        self.line.clear();
        if push_denied(self.rt, &mut self.line, count, from, fault).is_ok() {
            self.say();
        }
    }

    /// Sends a datagram to the network as it is protected.
    #[inline(never)]
    pub(super) fn send_sealed(&mut self, to: SocketAddr, octets: &[u8]) {
        let Some(guard) = &mut self.guard else {
            return;
        };
        if octets.len() > MAX_DATAGRAM {
            return;
        }
        let mut out = [0; SEALED];
        match guard.seal(octets, &mut out) {
            Ok(len) => {
                guard.keep_left(octets, self.moment);
                if let Some(sealed) = out.get(..len) {
                    self.leave(Side::Far, to, sealed);
                }
            }
            Err(fault) => self.withhold(&fault),
        }
    }

    /// Counts a datagram that SRTP could not protect, and writes the line of such, at most each ten seconds.
    #[inline(never)]
    fn withhold(&mut self, fault: &ContextFault) {
        self.counts.withhold();
        let Some(count) = self.withheld.come(self.moment) else {
            return;
        };
        self.line.clear();
        if push_withheld(self.rt, &mut self.line, count, fault).is_ok() {
            self.say();
        }
    }
}
