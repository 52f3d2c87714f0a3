//! What a datagram was to a receiving endpoint.
use receiver::Taken;

/// What a datagram was: [`ReceivingEndpoint::on_datagram`](crate::ReceivingEndpoint::on_datagram) answers it.
#[derive(Clone, Copy, Debug, PartialEq, Eq)]
pub enum Heard {
    /// RTCP, which a receiving endpoint has no use for.
    Control,
    /// A media packet that was taken.
    Media(Taken),
    /// A retransmission that was taken.
    Repair(Taken),
    /// A media packet whose sequence number jumped: it is the last of so many that are held back.
    HeldBack(u32),
    /// The last media packet that was wanted: the stream has restarted.
    Restarted(Restart),
}

/// A restart of the stream (RFC 3550, appendix A.1).
#[derive(Clone, Copy, Debug, PartialEq, Eq)]
pub struct Restart {
    /// What the last packet was taken as. In sequence, the others that were held back lie right below it.
    pub taken: Taken,
    /// How many packets the stream restarted with, this one included.
    pub held: u32,
    /// How many sequence numbers of the stream lie between the highest place before and the first one that is kept now: the packets that
    /// the jump passed over. 0: none does, or that one lies half a cycle or more ahead, which is behind, and the numbers are others. (It is
    /// no option, and stands beside `held`, since each answer to a datagram is as long as this.)
    pub skipped: u32,
    /// How many places of the stream before were left that were neither played nor given up. They are gone.
    pub abandoned: u64,
}
