//! An outside whose datagrams come by a script, and which writes down what leaves.
use crate::packets::Packet;
use arrayvec::ArrayVec;
use relays::{Meeting, Octets, Outside, OutsideFault, Side, Turn};
use rtpwire::Datagram;
use std::alloc::Global;
use std::net::{Ipv4Addr, SocketAddr};
use std::test::Fail;

/// A datagram that comes or that left: at which moment, to or by which side, from or for which port of this machine, and which.
pub(crate) type Passing = (u64, Side, u16, Packet);

/// A datagram that comes.
#[derive(Drop)]
pub(crate) struct Coming {
    pub at: u64,
    pub side: Side,
    pub port: u16,
    pub octets: Octets,
}

/// A datagram that left.
#[derive(Debug, Drop, PartialEq, Eq)]
pub(crate) struct Gone {
    pub at: u64,
    pub side: Side,
    pub port: u16,
    pub octets: Datagram,
}

/// What comes, in its order; how much of it has come; what left; and the moment.
#[derive(Drop)]
pub(crate) struct Script {
    pub comes: Vec<Coming>,
    pub come: usize,
    pub gone: Vec<Gone>,
    pub now: u64,
}

/// An address of this machine.
pub(crate) fn local(port: u16) -> SocketAddr {
    SocketAddr::from((Ipv4Addr::LOCALHOST, port))
}

impl Gone {
    /// Whether it is this one.
    pub(crate) fn is(&self, (at, side, port, packet): &Passing) -> bool {
        self.at == *at
            && self.side == *side
            && self.port == *port
            && self.octets.as_slice() == packet.octets().as_slice()
    }
}

impl Script {
    /// These datagrams come.
    pub(crate) fn new(alloc: Global, passings: &[Passing]) -> Result<Script, Fail> {
        let mut script = Script {
            comes: Vec::new(alloc),
            come: 0,
            gone: Vec::new(alloc),
            now: 0,
        };
        for passing in passings {
            script.comes(passing)?;
        }
        Ok(script)
    }

    /// This one comes behind them.
    pub(crate) fn comes(&mut self, (at, side, port, packet): &Passing) -> Result<(), Fail> {
        self.comes.push(Coming {
            at: *at,
            side: *side,
            port: *port,
            octets: packet.octets(),
        })?;
        Ok(())
    }

    /// Whether what left has each of these under the number beside it.
    pub(crate) fn has(&self, wanted: &[(usize, Passing)]) -> bool {
        for (number, passing) in wanted {
            match self.gone.get(*number) {
                Some(gone) if gone.is(passing) => {}
                _ => return false,
            }
        }
        true
    }
}

impl Outside for Script {
    ghost use Rattle.std.specs.Prelude.{None};

    ghost traffic = { λ script. None };

    fn wait(&mut self, until: Option<u64>, room: &mut Octets) -> Result<Meeting, OutsideFault> {
        let next = self.comes.get(self.come);
        let is_next = match (next, until) {
            (Some(it), Some(moment)) => it.at <= moment,
            (Some(_), None) => true,
            (None, _) => false,
        };
        if !is_next {
            self.now = until.ok_or(OutsideFault)?;
            return Ok(Meeting {
                now: self.now,
                came: None,
            });
        }
        let Some(it) = next else {
            return Err(OutsideFault);
        };
        room.clear();
        if room.try_extend_from_slice(it.octets.as_slice()).is_err() {
            return Err(OutsideFault);
        }
        self.now = it.at;
        self.come += 1;
        Ok(Meeting {
            now: it.at,
            came: Some((it.side, local(it.port))),
        })
    }

    fn send(&mut self, side: Side, to: SocketAddr, octets: &[u8]) {
        let mut datagram: Datagram = ArrayVec::new();
        if datagram.try_extend_from_slice(octets).is_err() {
            return;
        }
        let _ = self.gone.push(Gone {
            at: self.now,
            side,
            port: to.port(),
            octets: datagram,
        });
    }

    fn tell(&mut self, _turn: &Turn, _octets: &[u8], _now: u64) {}
}
