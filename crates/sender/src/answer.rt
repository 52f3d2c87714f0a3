/// What feedback did: [`Sender::on_feedback`](crate::Sender::on_feedback) answers it.
#[derive(Clone, Copy, Debug, PartialEq, Eq)]
pub struct Marked {
    /// How many packets are to be retransmitted that were not before.
    pub places: u32,
}

/// What feedback did that other senders may share: [`Sender::on_shared_feedback`](crate::Sender::on_shared_feedback)
/// answers it. Each count is exact, and stays at 2^32 - 1 where it would be more, which takes a datagram of a gigabyte.
#[derive(Clone, Copy, Debug, PartialEq, Eq)]
pub struct Shared {
    /// How many packets are to be retransmitted that were not before.
    pub places: u32,
    /// How many NACKs are of this session.
    pub nacks: u32,
    /// How many NACKs are of other media, or from other reporters, and were passed over.
    pub others: u32,
    /// How many sequence numbers this session's NACKs name, each counted as often as it is named.
    pub numbers: u32,
    /// How many of these numbers no entry of the history has: the packet is too old, or was never sent.
    pub unknown: u32,
    /// How many of these numbers name a packet that was retransmitted as often as it may be.
    pub exhausted: u32,
}
