//! The sending end of a session: it numbers what is sent, keeps the latest of it, and retransmits what feedback asks for.
#![tactic(auto)]

mod answer;
mod config;
mod config_laws;
mod counting;
mod fault;
mod laws;
mod marking;
mod sender;

pub use answer::{Marked, Shared};
pub use config::SenderConfig;
pub use config_laws::{configurations_keep_their_fields, new_senders_are_as_configured};
pub use fault::SendFault;
pub use laws::{
    any_reporter_is_heard, feedback_is_determined, feedback_is_in_order,
    marking_the_last_is_feedback, passing_is_determined, repairing_is_determined,
    sending_is_determined, sending_is_in_order, shared_feedback_is_determined,
    shared_feedback_is_in_order,
};
pub use sender::Sender;
