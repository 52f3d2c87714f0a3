ghost use Rattle.std.specs.Prelude.{◌≡◌};

use crate::replay::ReplayFault;

/// Why a packet is not protected, or is not taken: the first check that it fails, in this order (RFC 3711, sections 3.3 and 3.4).
#[derive(Clone, Copy, Debug, PartialEq, Eq, Hash)]
pub enum SrtpFault {
    /// Fewer octets than the headers and what stands behind them have.
    Short,
    /// The version is not 2.
    Version,
    /// The sources or the header extension do not fit the octets.
    Header,
    /// It is of another source than this one. Each SSRC has a stream of its own.
    WrongSource,
    /// The key has come to its end: it has no index for the packet. It must be replaced.
    KeyEnd,
    /// The E bit of an SRTCP packet is not as the profile has it.
    WrongFlag,
    /// Its index lies further back than the replay list reaches, or before the first one.
    TooOld,
    /// A packet with its index was taken before.
    TakenBefore,
    /// The tag is not that of the packet.
    WrongTag,
}

impl SrtpFault {
    ghost use Rattle.srtp.specs.Fault.{srtp_fault_number};

    /// Its refusal number.
    pub fn number(&self) -> u8
        ensures { result ≡ srtp_fault_number self.now }
    {
        match self {
            SrtpFault::Short => 91,
            SrtpFault::Version => 92,
            SrtpFault::Header => 93,
            SrtpFault::WrongSource => 94,
            SrtpFault::KeyEnd => 95,
            SrtpFault::WrongFlag => 96,
            SrtpFault::TooOld => 97,
            SrtpFault::TakenBefore => 98,
            SrtpFault::WrongTag => 99,
        }
    }
}

ghost use Rattle.srtp.specs.Fault.{of_replay};

/// The refusal of a replay list as one of a packet.
pub(crate) fn of_replay(fault: ReplayFault) -> SrtpFault
    ensures { result ≡ of_replay fault }
{
    match fault {
        ReplayFault::TooOld => SrtpFault::TooOld,
        ReplayFault::TakenBefore => SrtpFault::TakenBefore,
    }
}
