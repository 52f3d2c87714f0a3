//! What leaves: at once, or as soon as the system has room for it.
use super::Host;
use crate::hindrance::{Hindrance, hindered_by};
use crate::transport_stream::payload_of;
use crate::waiting::{Waiting, is_kept, waits_until};
use relays::Side;
use std::net::SocketAddr;
use std::{io, mem};

impl Host<'_> {
    /// Sends a datagram to a side, as it is protected where it goes to the network under a key.
    pub(super) fn send_as_it_is(&mut self, side: Side, to: SocketAddr, octets: &[u8]) {
        if side == Side::Far {
            self.left = self.left.saturating_add(1);
            self.is_lost = self.draws.drops();
            if self.is_lost {
                self.counts.lose();
                return;
            }
            if self.guard.is_some() {
                self.send_sealed(to, octets);
                return;
            }
        }
        if self.sends_payloads || self.way.is_elsewhere() || !self.waiting.is_empty() {
            self.leave(side, to, octets);
            return;
        }
        let sent = match side {
            Side::Near => self.near.send_to(octets, to),
            Side::Far => self.far.send_to(octets, to),
        };
        // What can't be sent is lost, as in a network, and told.
        if let Err(error) = sent {
            self.lack_room(side, to, octets, &error);
        }
    }

    /// Sends a datagram in the form and to the address that are wanted, behind those of its side that wait. A payload of nothing is no datagram.
    #[inline(never)]
    pub(super) fn leave(&mut self, side: Side, to: SocketAddr, octets: &[u8]) {
        let to = self.there(side, to);
        let octets = if self.sends_payloads && side == Side::Near {
            payload_of(octets)
        } else {
            octets
        };
        if octets.is_empty() || self.do_wait(side) && self.keep(side, to, octets) {
            return;
        }
        if let Err(error) = self.put(side, to, octets) {
            self.lack_room(side, to, octets, &error);
        }
    }

    /// The system did not take a datagram: it waits where there was no room for it, and is counted else.
    #[inline(never)]
    pub(super) fn lack_room(
        &mut self,
        side: Side,
        to: SocketAddr,
        octets: &[u8],
        error: &io::Error,
    ) {
        let hindrance = hindered_by(error.raw_os_error());
        if !is_kept(hindrance, self.waiting.len()) || !self.keep(side, to, octets) {
            self.fail(error, to);
        }
    }

    /// Hands a datagram to the system.
    fn put(&self, side: Side, to: SocketAddr, octets: &[u8]) -> io::Result<usize> {
        match side {
            Side::Near => self.near.send_to(octets, to),
            Side::Far => self.far.send_to(octets, to),
        }
    }

    /// Whether some wait to leave by a side.
    fn do_wait(&self, side: Side) -> bool {
        self.waiting.iter().any(|one| one.side == side)
    }

    /// Has a datagram wait, and answers whether it does.
    fn keep(&mut self, side: Side, to: SocketAddr, octets: &[u8]) -> bool {
        if !is_kept(Hindrance::Full, self.waiting.len()) {
            return false;
        }
        let Ok(octets) = octets.to_vec(self.rt.alloc()) else {
            return false;
        };
        let until = waits_until(self.moment);
        let one = Waiting {
            side,
            to,
            octets,
            until,
        };
        self.waiting.push(one).is_ok()
    }

    /// Sends what waits, in its order, as far as the system has room. What can't be sent any longer is counted.
    #[inline(never)]
    pub(super) fn send_waiting(&mut self, now: u64) {
        let none = Vec::new(self.rt.alloc());
        for one in mem::replace(&mut self.waiting, none) {
            if let Some(error) = self.send_again(one, now) {
                self.fail(&error.0, error.1);
            }
        }
    }

    /// Sends one that waits, or has it wait on; or tells why it can't be sent, and where to.
    fn send_again(&mut self, one: Waiting, now: u64) -> Option<(io::Error, SocketAddr)> {
        let to = one.to;
        if now < one.until && self.do_wait(one.side) {
            self.wait_on(one);
            return None;
        }
        match self.put(one.side, to, &one.octets) {
            Ok(_) => None,
            Err(error) if now < one.until && is_kept(hindered_by(error.raw_os_error()), 0) => {
                self.wait_on(one);
                None
            }
            Err(error) => Some((error, to)),
        }
    }

    /// Has one wait on. Without memory for that it counts as what found no room.
    fn wait_on(&mut self, one: Waiting) {
        if self.waiting.push(one).is_err() {
            self.counts.fail(Hindrance::Full);
        }
    }
}
