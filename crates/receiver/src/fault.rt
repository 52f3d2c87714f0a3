ghost use Rattle.std.specs.Prelude.{◌≡◌};
ghost use Rattle.receiver.specs.declared.fault.ReceiveFault.TheVariants as refused;

use places::PlaceFault;
use rtpwire::{ContentFault, RtpFault};
use stores::PutFault;

/// Why a receiver refuses a datagram: the first check that it fails, in this order (6 comes behind 32). The
/// receiver is then as it was.
#[derive(Clone, Copy, Debug, PartialEq, Eq, Hash)]
pub enum ReceiveFault {
    /// The octets are no RTP packet (1 to 5), or a retransmission has no original sequence number (6).
    Rtp(RtpFault),
    /// 31: the SSRC is neither that of the media nor that of the retransmissions.
    UnknownSource,
    /// 32: the payload type is not that of the SSRC's stream.
    UnknownType,
    /// 37: no content holds what the packet carries: its payload or its extension is too long.
    Content(ContentFault),
    /// 33: the packet is a retransmission, and the receiver took no media packet and did not begin.
    NotStarted,
    /// 34 or 39: the sequence number stands for no place near the highest one.
    Place(PlaceFault),
    /// 38: the SSRC of the retransmissions is still to be learnt, and the place is not one that was asked for.
    Unasked,
    /// 35 or 36: the window does not take the place: it was passed, or is held already.
    Put(PutFault),
}

impl ReceiveFault {
    ghost use Rattle.receiver.specs.Fault.{receive_number};

    /// Its refusal number: 1 to 6, or 31 to 39.
    pub fn number(&self) -> u8
        ensures { result ≡ receive_number self.now }
    {
        match self {
            ReceiveFault::Rtp(fault) => fault.number(),
            ReceiveFault::UnknownSource => 31,
            ReceiveFault::UnknownType => 32,
            ReceiveFault::Content(fault) => fault.number(),
            ReceiveFault::NotStarted => 33,
            ReceiveFault::Place(fault) => fault.number(),
            ReceiveFault::Unasked => 38,
            ReceiveFault::Put(fault) => fault.number(),
        }
    }
}

impl From<RtpFault> for ReceiveFault {
    ghost from_gives = { λ fault refusal. refusal ≡ refused.Rtp fault };

    fn from(fault: RtpFault) -> ReceiveFault {
        ReceiveFault::Rtp(fault)
    }
}

impl From<ContentFault> for ReceiveFault {
    ghost from_gives = { λ fault refusal. refusal ≡ refused.Content fault };

    fn from(fault: ContentFault) -> ReceiveFault {
        ReceiveFault::Content(fault)
    }
}

impl From<PlaceFault> for ReceiveFault {
    ghost from_gives = { λ fault refusal. refusal ≡ refused.Place fault };

    fn from(fault: PlaceFault) -> ReceiveFault {
        ReceiveFault::Place(fault)
    }
}

impl From<PutFault> for ReceiveFault {
    ghost from_gives = { λ fault refusal. refusal ≡ refused.Put fault };

    fn from(fault: PutFault) -> ReceiveFault {
        ReceiveFault::Put(fault)
    }
}

/// Why a receiver does not begin: refusal 40, it has started already.
#[derive(Clone, Copy, Debug, PartialEq, Eq, Hash)]
pub struct HasStarted;

impl HasStarted {
    /// Its refusal number.
    pub fn number(&self) -> u8
        ensures { result ≡ 40 }
    {
        40
    }
}
