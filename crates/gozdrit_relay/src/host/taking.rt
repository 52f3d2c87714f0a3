//! What comes: datagrams of both sockets, and RTP that is made of MPEG-TS without it.
use super::Host;
use relays::{Octets, OutsideFault, Side};
use rtpwire::MAX_DATAGRAM;
use std::io::ErrorKind;
use std::net::SocketAddr;

/// The ticks of a second of MPEG-TS in RTP (RFC 3551, table 5).
const TICKS: u64 = 90_000;

impl Host<'_> {
    /// Takes a datagram that has come, if there is one: its side, and in `from` where it came from.
    pub(super) fn take(&mut self, room: &mut Octets) -> Result<Option<Side>, OutsideFault> {
        if self.rest.1 > 0 {
            return self.take_more(room);
        }
        if let Some((len, from)) = self.again {
            return self.take_again(room, len, from);
        }
        if self.answered.is_some() {
            if let Some(side) = self.take_answered(room)? {
                return Ok(Some(side));
            }
        }
        for _socket in 0..2 {
            let Some(side) = self.turns.next() else {
                return Ok(None);
            };
            if self.receive(side, room)? {
                self.turns.take(side);
                return Ok(Some(side));
            }
            if self.change.is_some() {
                return Err(OutsideFault);
            }
        }
        Ok(None)
    }

    /// Takes a datagram that has come to a socket, and answers whether there was one.
    fn receive(&mut self, side: Side, room: &mut Octets) -> Result<bool, OutsideFault> {
        let came = match side {
            Side::Near if self.payloader.is_some() => return self.receive_ts(room),
            Side::Near => self.near.recv_from(&mut self.octets),
            Side::Far => self.far.recv_from(&mut self.octets),
        };
        match came {
            Ok((len, from)) => {
                let Some(octets) = self.passed(side, len, from) else {
                    return Ok(false);
                };
                fill(room, octets)?;
                self.from = Some(from);
                Ok(true)
            }
            Err(e) => self.lack(side, e.kind()),
        }
    }

    /// Takes the datagram that waited for a change.
    #[inline(never)]
    fn take_again(
        &mut self,
        room: &mut Octets,
        len: usize,
        from: SocketAddr,
    ) -> Result<Option<Side>, OutsideFault> {
        self.again = None;
        let Some(octets) = self.octets.get(..len) else {
            return Ok(None);
        };
        fill(room, octets)?;
        self.from = Some(from);
        Ok(Some(Side::Far))
    }

    /// What came to a side, so many octets of it, as the relay may have it. None: it is kept from it.
    fn passed(&mut self, side: Side, len: usize, from: SocketAddr) -> Option<&[u8]> {
        let len = match side {
            Side::Near => len,
            Side::Far => self.opened(len, from)?,
        };
        self.octets.get(..len.min(MAX_DATAGRAM + 1))
    }

    /// Nothing was taken from a socket. Behind an error that passes there may be more.
    fn lack(&mut self, side: Side, kind: ErrorKind) -> Result<bool, OutsideFault> {
        if kind == ErrorKind::WouldBlock {
            self.turns.drain(side);
        } else if !is_passing(kind) {
            return Err(OutsideFault);
        }
        Ok(false)
    }

    /// The same of a socket where MPEG-TS comes without RTP.
    #[inline(never)]
    fn receive_ts(&mut self, room: &mut Octets) -> Result<bool, OutsideFault> {
        match self.near.recv_from(&mut self.octets) {
            Ok((len, from)) => {
                self.rest = (0, len);
                self.take_rest(room, from)
            }
            Err(e) => self.lack(Side::Near, e.kind()),
        }
    }

    /// Takes the next packet of a datagram of MPEG-TS of which something is left.
    #[inline(never)]
    fn take_more(&mut self, room: &mut Octets) -> Result<Option<Side>, OutsideFault> {
        let Some(from) = self.rest_from else {
            return Ok(None);
        };
        let did_come = self.take_rest(room, from)?;
        Ok(did_come.then_some(Side::Near))
    }

    /// The next packet of what is left of a datagram of MPEG-TS. What is none comes as a datagram without an octet.
    #[inline(never)]
    fn take_rest(&mut self, room: &mut Octets, from: SocketAddr) -> Result<bool, OutsideFault> {
        let ticks = self.ticks()?;
        let Some(mut payloader) = self.payloader else {
            return Ok(false);
        };
        self.from = Some(from);
        let (start, end) = self.rest;
        let mut out = [0; MAX_DATAGRAM];
        let packed = match self.octets.get(start..end) {
            Some(octets) => payloader.pack(octets, ticks, &mut out),
            None => None,
        };
        self.payloader = Some(payloader);
        self.rest = (0, 0);
        self.rest_from = None;
        let Some(packed) = packed else {
            room.clear();
            return Ok(true);
        };
        match out.get(..packed.len) {
            Some(written) => fill(room, written)?,
            None => room.clear(),
        }
        let left = start.saturating_add(packed.taken);
        if left < end {
            self.rest = (left, end);
            self.rest_from = Some(from);
        }
        Ok(true)
    }

    /// The moment by the clock of MPEG-TS.
    fn ticks(&self) -> Result<u32, OutsideFault> {
        match self.start.elapsed(self.rt) {
            Ok(time) => {
                let parts = u64::from(time.subsec_nanos()) * TICKS / 1_000_000_000;
                let ticks = time.as_secs().wrapping_mul(TICKS).wrapping_add(parts);
                Ok((ticks % 4_294_967_296) as u32)
            }
            Err(_) => Err(OutsideFault),
        }
    }
}

/// Puts what came where the relay takes it. What is as long as what came before takes its place, and nothing is blanked.
pub(super) fn fill(room: &mut Octets, octets: &[u8]) -> Result<(), OutsideFault> {
    if room.len() == octets.len() {
        room.as_mut_slice().copy_from_slice(octets);
        return Ok(());
    }
    room.clear();
    match room.try_extend_from_slice(octets) {
        Ok(()) => Ok(()),
        Err(_) => Err(OutsideFault),
    }
}

/// Whether an error says that nothing has come, or that something that left could not be delivered.
fn is_passing(kind: ErrorKind) -> bool {
    matches!(
        kind,
        ErrorKind::WouldBlock
            | ErrorKind::Interrupted
            | ErrorKind::ConnectionRefused
            | ErrorKind::HostUnreachable
            | ErrorKind::NetworkUnreachable
    )
}
