//! The ends as networks want them: a receiving end that believes a jump of the sequence number only after a probation and
//! restarts then, that takes whatever datagram comes from the far side, and that counts.
#![tactic(auto)]

mod answering;
mod asked_places;
mod asking;
mod asking_endpoint;
mod asking_laws;
mod config_laws;
mod demultiplex;
mod heard;
mod holding;
mod judging;
mod kind;
mod kind_counts;
mod laws;
mod moments;
mod padding;
mod passed;
mod path_meter;
mod probation;
mod receive_counts;
mod receiving;
mod resend_counts;
mod resend_meter;
mod resend_rule;
mod rivals;
mod seen_packets;
mod send_counts;
mod sending;
mod standing;
mod timely;
mod timely_laws;
mod told;

pub use asked_places::AskedPlaces;
pub use asking_endpoint::AskingEndpoint;
pub use asking_laws::{
    a_source_falls_to_one_that_repairs, kinds_are_told, what_was_asked_is_remembered,
};
pub use config_laws::new_receivers_are_as_configured;
pub use demultiplex::is_control;
pub use heard::{Heard, Restart};
pub use judging::media_number;
pub use kind::Kind;
pub use kind_counts::KindCounts;
pub use laws::{
    awaited_media_is_believed, core_has_what_is_believed, counts_are_exact, counts_are_in_full,
    repeats_begin_nothing, restarts_are_founded, sending_counts_are_exact,
};
pub use moments::Moments;
pub use padding::without_padding;
pub use passed::Passed;
pub use path_meter::PathMeter;
pub use probation::Probation;
pub use receive_counts::ReceiveCounts;
pub use receiving::ReceivingEndpoint;
pub use resend_counts::ResendCounts;
pub use resend_meter::ResendMeter;
pub use resend_rule::{ResendRule, Times, Verdict};
pub use seen_packets::{SeenPacket, SeenPackets};
pub use send_counts::SendCounts;
pub use sending::SendingEndpoint;
pub use standing::{Awaited, Standing};
pub use timely::TimelyEndpoint;
pub use timely_laws::retransmissions_are_in_time;
pub use told::Told;
