//! What a receiving endpoint counts.
ghost use Rattle.std.specs.Prelude.{◌≡◌};
ghost use Rattle.endpoint.specs.Counts.{more};
ghost use Rattle.endpoint.specs.ReceiveCounts.{count_heard, count_passed, count_ask};

use crate::heard::Heard;
use crate::passed::Passed;
use places::PlaceFault;
use receiver::ReceiveFault;
use stores::PutFault;

/// How often a receiving endpoint answered what, since it was made. A restart of the stream starts no count anew. Each count
/// stays at 2^64 - 1 once it is there.
///
/// Each datagram is in one of the first nine counts.
#[derive(Clone, Copy, Debug, Default, PartialEq, Eq)]
pub struct ReceiveCounts {
    /// Media packets that were taken as they came.
    pub media: u64,
    /// Retransmissions that were taken.
    pub retransmissions: u64,
    /// Media packets that were held back. A restart that follows takes those of its run.
    pub held_back: u64,
    /// Restarts of the stream, each with the packet that brought it.
    pub restarts: u64,
    /// RTCP datagrams, which were passed over.
    pub control: u64,
    /// Packets of a place that was held already (36).
    pub duplicate: u64,
    /// Packets of a place below the next one to play (35).
    pub late: u64,
    /// Packets whose sequence number is too far from the highest one (34).
    pub far: u64,
    /// Datagrams that were refused for another reason.
    pub refused: u64,
    /// Places that the window dropped for good to make room, but for packets that were held back.
    pub overrun: u64,
    /// Places that a restart left behind, neither played nor given up.
    pub abandoned: u64,
    /// Packets that restarts of the stream passed over: they lie between what was heard before a jump ahead and what was behind it.
    pub skipped: u64,
    /// Places that were played.
    pub played: u64,
    /// Places that were given up.
    pub gaps: u64,
    /// NACKs that were made.
    pub asks: u64,
    /// Places that they asked for, each as often as it was.
    pub places_asked: u64,
}

impl ReceiveCounts {
    /// Nothing was counted.
    pub(crate) const NONE: ReceiveCounts = ReceiveCounts {
        media: 0,
        retransmissions: 0,
        held_back: 0,
        restarts: 0,
        control: 0,
        duplicate: 0,
        late: 0,
        far: 0,
        refused: 0,
        overrun: 0,
        abandoned: 0,
        skipped: 0,
        played: 0,
        gaps: 0,
        asks: 0,
        places_asked: 0,
    };

    /// Counts the answer to a datagram.
    pub(crate) fn hear(&mut self, answer: &Result<Heard, ReceiveFault>)
        ensures { self.new ≡ count_heard answer.now self.old }
    {
        match answer {
            Ok(heard) => self.take(*heard),
            Err(fault) => self.refuse(*fault),
        }
    }

    /// Counts a datagram that was not refused.
    fn take(&mut self, heard: Heard)
        ensures { self.new ≡ count_heard (Ok heard) self.old }
    {
        match heard {
            Heard::Control => add(&mut self.control, 1),
            Heard::Media(taken) => {
                add(&mut self.media, 1);
                add(&mut self.overrun, taken.overrun);
            }
            Heard::Repair(taken) => {
                add(&mut self.retransmissions, 1);
                add(&mut self.overrun, taken.overrun);
            }
            Heard::HeldBack(_) => add(&mut self.held_back, 1),
            Heard::Restarted(restart) => {
                add(&mut self.restarts, 1);
                add(&mut self.overrun, restart.taken.overrun);
                add(&mut self.abandoned, restart.abandoned);
                add(&mut self.skipped, u64::from(restart.skipped));
            }
        }
    }

    /// Counts a datagram that was refused.
    fn refuse(&mut self, fault: ReceiveFault)
        ensures { self.new ≡ count_heard (Err fault) self.old }
    {
        match fault {
            ReceiveFault::Put(PutFault::Duplicate) => add(&mut self.duplicate, 1),
            ReceiveFault::Put(PutFault::Late) => add(&mut self.late, 1),
            ReceiveFault::Place(PlaceFault::Far) => add(&mut self.far, 1),
            _ => add(&mut self.refused, 1),
        }
    }

    /// Counts what a play passed.
    pub(crate) fn pass(&mut self, passed: Passed)
        ensures { self.new ≡ count_passed passed self.old }
    {
        match passed {
            Passed::Packet(_) => add(&mut self.played, 1),
            Passed::Gap(_) => add(&mut self.gaps, 1),
            Passed::Nothing => {}
        }
    }

    /// Counts an ask for so many places.
    pub(crate) fn ask(&mut self, places: u64)
        ensures { self.new ≡ count_ask places self.old }
    {
        add(&mut self.asks, 1);
        add(&mut self.places_asked, places);
    }
}

/// So many more.
pub(crate) fn add(count: &mut u64, many: u64)
    ensures { count.new ≡ more count.old many }
{
    *count = count.saturating_add(many);
}
