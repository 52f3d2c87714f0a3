//! The figures of each kind of relay, by its counts.
use crate::counts::Counts;
use crate::figures::{Amount, Figure, push_figures};
use std::alloc::Global;
use stores::OutOfMemory;

/// How often something happened.
fn counted<'x>(name: &'x str, what: &'x str, count: u64) -> Figure<'x> {
    Figure {
        name,
        what,
        amount: Amount::Count(count),
    }
}

impl Counts {
    /// The line of a relay before the network, or of one behind it.
    pub fn push(
        &self,
        alloc: Global,
        line: &mut Vec<u8>,
        is_sender: bool,
    ) -> Result<(), OutOfMemory> {
        push_figures(alloc, line, &self.figures(alloc, is_sender)?)
    }

    /// The figures of a relay before the network, or of one behind it.
    pub fn figures<'x>(
        &self,
        alloc: Global,
        is_sender: bool,
    ) -> Result<Vec<Figure<'x>>, OutOfMemory> {
        let figures = if is_sender {
            self.sender_figures().to_vec(alloc)?
        } else {
            self.receiver_figures().to_vec(alloc)?
        };
        Ok(figures)
    }

    /// The figures of a relay before the network.
    fn sender_figures<'x>(&self) -> [Figure<'x>; 21] {
        [
            counted(
                "sent",
                "Packets of the application that were sent on.",
                self.sent,
            ),
            counted(
                "unsent",
                "Datagrams of the application that were not sent on.",
                self.unsent,
            ),
            counted(
                "marked",
                "Packets that feedback asked for, as often as it did.",
                self.marked,
            ),
            counted(
                "retransmitted",
                "Retransmissions that were sent.",
                self.retransmitted,
            ),
            counted(
                "early",
                "Asked for again too soon after a retransmission.",
                self.early,
            ),
            counted("expired", "Asked for past the deadline.", self.expired),
            counted(
                "refused",
                "Datagrams of the far side that were refused.",
                self.refused,
            ),
            counted(
                "stray",
                "Datagrams from elsewhere than the far side.",
                self.stray,
            ),
            counted(
                "lost",
                "Datagrams that were dropped for a trial.",
                self.lost,
            ),
            counted(
                "others",
                "NACKs for other media or of other reporters.",
                self.others,
            ),
            counted(
                "unknown",
                "Asked for, and not in the history.",
                self.unknown,
            ),
            counted(
                "exhausted",
                "Asked for, and sent as often as may be.",
                self.exhausted,
            ),
            counted(
                "crowded",
                "Asked for, of more than may leave soon.",
                self.crowded,
            ),
            counted(
                "strangers",
                "Packets of another application.",
                self.strangers,
            ),
            counted("full", "Not sent: there was no room.", self.full),
            counted(
                "unreachable",
                "Not sent: there was no way.",
                self.unreachable,
            ),
            counted("oversize", "Not sent: too long for the way.", self.oversize),
            counted("rejected", "Not sent: nobody listens there.", self.rejected),
            counted("failed", "Not sent for another reason.", self.failed),
            counted(
                "unauthenticated",
                "Datagrams of the network without a right SRTP tag.",
                self.unauthenticated,
            ),
            counted(
                "unprotected",
                "Not sent: SRTP could not protect it.",
                self.unprotected,
            ),
        ]
    }

    /// The figures of a relay behind the network. A session that was learnt behind the first one is a restart, too.
    fn receiver_figures<'x>(&self) -> [Figure<'x>; 23] {
        let learnt = self.sessions.saturating_sub(1);
        let restarts = self.restarts.saturating_add(learnt);
        [
            counted(
                "taken",
                "Packets and retransmissions that were taken.",
                self.taken,
            ),
            counted(
                "repaired",
                "Retransmissions that were taken.",
                self.repaired,
            ),
            counted("played", "Packets that were played.", self.played),
            counted("gaps", "Packets that were given up.", self.gaps),
            counted(
                "overrun",
                "Packets that the window dropped to make room.",
                self.overrun,
            ),
            counted(
                "abandoned",
                "Packets that a restart of the stream left behind.",
                self.abandoned,
            ),
            counted(
                "skipped",
                "Packets that a jump of the stream passed over.",
                self.skipped,
            ),
            counted("asked", "NACKs that were sent.", self.asked),
            counted(
                "refused",
                "Datagrams of the far side that were refused.",
                self.refused,
            ),
            counted(
                "padding",
                "Padding in the stream of the retransmissions.",
                self.padding,
            ),
            counted(
                "unasked",
                "Retransmissions that no NACK asked for.",
                self.unasked,
            ),
            counted("restarts", "Restarts of the stream.", restarts),
            counted(
                "moved",
                "Moves of the far side to another address.",
                self.moved,
            ),
            counted(
                "stray",
                "Datagrams from elsewhere than the far side.",
                self.stray,
            ),
            counted(
                "lost",
                "Datagrams that were dropped for a trial.",
                self.lost,
            ),
            Figure {
                name: "rtt",
                what: "The round-trip time, smoothed.",
                amount: Amount::Time(self.time),
            },
            counted("full", "Not sent: there was no room.", self.full),
            counted(
                "unreachable",
                "Not sent: there was no way.",
                self.unreachable,
            ),
            counted("oversize", "Not sent: too long for the way.", self.oversize),
            counted("rejected", "Not sent: nobody listens there.", self.rejected),
            counted("failed", "Not sent for another reason.", self.failed),
            counted(
                "unauthenticated",
                "Datagrams of the network without a right SRTP tag.",
                self.unauthenticated,
            ),
            counted(
                "unprotected",
                "Not sent: SRTP could not protect it.",
                self.unprotected,
            ),
        ]
    }
}
