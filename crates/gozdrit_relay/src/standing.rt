//! How a run stands, beside what it counted.
use crate::figures::{Amount, Figure};
use crate::sockets::Kept;
use std::alloc::AllocError;

/// What is told of a run beside its counts, to who asks.
#[derive(Clone, Copy)]
pub struct Standing {
    /// The moment, in milliseconds since the start, and that at which the session began, where there is one.
    pub now: u64,
    pub began: Option<u64>,
    /// How long a missing packet is waited for, behind the network, in milliseconds.
    pub latency: Option<u64>,
    /// How many octets the system keeps for a socket, and how many datagrams found no room there, where it tells.
    pub kept: Option<Kept>,
    pub dropped: Option<u64>,
}

impl Standing {
    /// Pushes its figures. What the system does not tell is left out.
    pub fn push<'x>(&self, figures: &mut Vec<Figure<'x>>) -> Result<(), AllocError> {
        figures.push(time_of("running", "Since the relay began.", Some(self.now)))?;
        let session = self.began.map(|began| self.now.saturating_sub(began));
        figures.push(time_of("session", "Since the session began.", session))?;
        if self.latency.is_some() {
            let what = "How long a missing packet is waited for.";
            figures.push(time_of("latency", what, self.latency))?;
        }
        if let Some(kept) = self.kept {
            let what = "What the system keeps of what comes to a socket.";
            figures.push(size_of("buffer_in", what, kept.come))?;
            let what = "What the system keeps of what leaves a socket.";
            figures.push(size_of("buffer_out", what, kept.leave))?;
        }
        if let Some(count) = self.dropped {
            figures.push(Figure {
                name: "dropped",
                what: "Datagrams that found no room as they came.",
                amount: Amount::Count(count),
            })?;
        }
        Ok(())
    }
}

fn time_of<'x>(name: &'x str, what: &'x str, time: Option<u64>) -> Figure<'x> {
    Figure {
        name,
        what,
        amount: Amount::Time(time),
    }
}

fn size_of<'x>(name: &'x str, what: &'x str, octets: u64) -> Figure<'x> {
    Figure {
        name,
        what,
        amount: Amount::Size(octets),
    }
}
