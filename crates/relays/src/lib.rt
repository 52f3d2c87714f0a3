//! What a relay does between an application and a network that loses, over whatever it waits at and sends to.
#![tactic(auto)]

mod backlog;
mod bounds;
mod claim_tables;
mod claims;
mod driving;
mod dropout;
mod far_latency;
mod far_side;
mod feedback;
mod holding;
mod latency_report;
mod latency_reports;
mod laws;
mod media_rate;
mod moving;
mod numbering;
mod outside;
mod pace;
mod peers;
mod receiving;
mod relay;
mod sending;
mod stream;
mod writing;

pub use bounds::Bounds;
pub use claim_tables::{Claim, ClaimTables, Claimant};
pub use claims::{Claims, Step, Stranger};
pub use driving::run;
pub use far_latency::FarLatency;
pub use latency_report::{LatencyReport, REPORT, latency_in};
pub use latency_reports::LatencyReports;
pub use laws::{
    bursts_leave_at_once, four_gaps_are_waited_for, pace_is_kept, two_in_each_second_are_enough,
    what_is_told_is_read,
};
pub use media_rate::MediaRate;
pub use numbering::Numbering;
pub use outside::{Meeting, Octets, Outside, OutsideFault, Passage, Side};
pub use pace::{Pace, Rate};
pub use peers::{Peer, Peers, number_of};
pub use receiving::ReceiveRelay;
pub use relay::{Departure, Note, Relay, Turn};
pub use sending::SendRelay;
pub use stream::Stream;
