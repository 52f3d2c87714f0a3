//! What an endpoint counts of the kinds of what came.
ghost use Rattle.std.specs.Prelude.{◌≡◌};
ghost use Rattle.endpoint.specs.Kinds.{count_kind, count_usual};

use crate::heard::Heard;
use crate::kind::Kind;
use crate::receive_counts::add;
use places::PlaceFault;
use receiver::ReceiveFault;
use stores::PutFault;

/// How many datagrams were of which kind, since the endpoint was made. Each count stays at 2^64 - 1 once it is there.
///
/// The last three are those of [`ReceiveCounts`](crate::ReceiveCounts) without what the first two have: so a rise of `late` says
/// that media, or answers to asks, came after their place was passed.
#[derive(Clone, Copy, Debug, Default, PartialEq, Eq)]
pub struct KindCounts {
    /// Padding in the stream of the retransmissions.
    pub padding: u64,
    /// Retransmissions that were refused, of places that were not asked for.
    pub unasked: u64,
    /// Other packets of a place below the next one to play (35).
    pub late: u64,
    /// Other packets of a place that was held already (36).
    pub duplicate: u64,
    /// Other datagrams that were refused, and not for being far (34).
    pub refused: u64,
}

impl KindCounts {
    /// Nothing was counted.
    pub(crate) const NONE: KindCounts = KindCounts {
        padding: 0,
        unasked: 0,
        late: 0,
        duplicate: 0,
        refused: 0,
    };

    /// Counts a datagram of this kind, to which this was answered.
    pub(crate) fn count(&mut self, kind: Kind, answer: &Result<Heard, ReceiveFault>)
        ensures { self.new ≡ count_kind kind answer.now self.old }
    {
        match kind {
            Kind::Padding => add(&mut self.padding, 1),
            Kind::Unasked => add(&mut self.unasked, 1),
            Kind::Usual => self.count_usual(answer),
        }
    }

    /// Counts a usual one.
    fn count_usual(&mut self, answer: &Result<Heard, ReceiveFault>)
        ensures { self.new ≡ count_usual answer.now self.old }
    {
        match answer {
            Ok(_) => {}
            Err(ReceiveFault::Put(PutFault::Late)) => add(&mut self.late, 1),
            Err(ReceiveFault::Put(PutFault::Duplicate)) => add(&mut self.duplicate, 1),
            Err(ReceiveFault::Place(PlaceFault::Far)) => {}
            Err(_) => add(&mut self.refused, 1),
        }
    }
}
