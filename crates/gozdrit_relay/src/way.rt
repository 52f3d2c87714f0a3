//! Where what leaves a relay goes. The relay itself knows the address that its options have; `ctl .. to` has another one stand for that.
ghost use Rattle.gozdrit_relay.specs.Way.{IsThere};

use crate::addresses::is_loop;
use std::net::SocketAddr;

/// Where what leaves goes.
#[derive(Clone, Copy, Debug, PartialEq, Eq)]
pub struct Way {
    /// Where the relay listens, where the system tells it.
    listening: Option<SocketAddr>,
    /// Where the options have it go.
    asked: SocketAddr,
    /// Where it goes in that one's place.
    instead: Option<SocketAddr>,
}

impl Way {
    /// It goes where the options say.
    pub fn new(listening: Option<SocketAddr>, asked: SocketAddr) -> Way {
        Way {
            listening,
            asked,
            instead: None,
        }
    }

    /// Where that goes which the relay sends to an address, and as whom it knows one who sends from an address: one that goes in another's place
    /// stands for that, and that for it.
    pub fn there(&self, at: SocketAddr) -> SocketAddr
        ensures { IsThere self.now.asked self.now.instead at result }
    {
        let Some(instead) = self.instead else {
            return at;
        };
        if at == self.asked {
            instead
        } else if at == instead {
            self.asked
        } else {
            at
        }
    }

    /// Whether it can go to an address: one of the family that it has, with a port, and not where the relay listens.
    pub fn can_lead(&self, to: SocketAddr) -> bool {
        let is_own = match self.listening {
            Some(listening) => is_loop(listening, to),
            None => false,
        };
        to.is_ipv4() == self.asked.is_ipv4() && to.port() > 0 && !is_own
    }

    /// Whether another address goes in the place of the options'.
    pub fn is_elsewhere(&self) -> bool {
        self.instead.is_some()
    }

    /// From now on it goes there.
    pub fn lead(&mut self, to: SocketAddr) {
        self.instead = Some(to);
    }
}
