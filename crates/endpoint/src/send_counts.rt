//! What a sending endpoint counts.
ghost use Rattle.std.specs.Prelude.{◌≡◌, Ok};
ghost use Rattle.endpoint.specs.declared.told.Told.TheVariants as told;
ghost use Rattle.endpoint.specs.SendCounts.{count_sent, count_repaired, count_told};

use crate::receive_counts::add;
use crate::told::Told;
use fbwire::FeedbackFault;
use sender::Shared;

/// How often a sending endpoint did what, since it was made. Each count stays at 2^64 - 1 once it is there.
#[derive(Clone, Copy, Debug, Default, PartialEq, Eq)]
pub struct SendCounts {
    /// Media packets that were sent: the sender's packet count of a report (RFC 3550, section 6.4.1).
    pub sent: u64,
    /// The octets of their payloads, without headers and padding: the sender's octet count of a report.
    pub octets: u64,
    /// Retransmissions that were sent.
    pub retransmissions: u64,
    /// NACKs of this session.
    pub nacks: u64,
    /// NACKs for other media, or from other reporters, beside those of this session.
    pub others: u64,
    /// Sequence numbers that the NACKs of this session named, each as often as it was.
    pub numbers: u64,
    /// Of these, the numbers that no entry of the history had: their packets were too old, or never sent.
    pub unknown: u64,
    /// Of these, the numbers of packets that were retransmitted as often as they may be.
    pub exhausted: u64,
    /// RTP datagrams of the far side, which were passed over.
    pub media: u64,
    /// RTCP datagrams without a generic NACK, which were passed over.
    pub reports: u64,
    /// RTCP datagrams that were refused.
    pub refused: u64,
}

impl SendCounts {
    /// Nothing was counted.
    pub(crate) const NONE: SendCounts = SendCounts {
        sent: 0,
        octets: 0,
        retransmissions: 0,
        nacks: 0,
        others: 0,
        numbers: 0,
        unknown: 0,
        exhausted: 0,
        media: 0,
        reports: 0,
        refused: 0,
    };

    /// Counts a media packet with so many octets of payload.
    pub(crate) fn send(&mut self, octets: u64)
        ensures { self.new ≡ count_sent octets self.old }
    {
        add(&mut self.sent, 1);
        add(&mut self.octets, octets);
    }

    /// Counts a retransmission.
    pub(crate) fn repair(&mut self)
        ensures { self.new ≡ count_repaired self.old }
    {
        add(&mut self.retransmissions, 1);
    }

    /// Counts the answer to a datagram.
    pub(crate) fn hear(&mut self, answer: Result<Told, FeedbackFault>)
        ensures { self.new ≡ count_told answer self.old }
    {
        match answer {
            Ok(Told::Media) => add(&mut self.media, 1),
            Ok(Told::Reports) => add(&mut self.reports, 1),
            Ok(Told::Feedback(shared)) => self.mark(shared),
            Err(_) => add(&mut self.refused, 1),
        }
    }

    /// Counts feedback of this session.
    fn mark(&mut self, shared: Shared)
        ensures { self.new ≡ count_told (Ok (told.Feedback shared)) self.old }
    {
        add(&mut self.nacks, u64::from(shared.nacks));
        add(&mut self.others, u64::from(shared.others));
        add(&mut self.numbers, u64::from(shared.numbers));
        add(&mut self.unknown, u64::from(shared.unknown));
        add(&mut self.exhausted, u64::from(shared.exhausted));
    }
}
