//! The receiving end of a session: it takes packets by their places and plays them in order.
#![tactic(auto)]

mod answer;
mod asks;
mod config;
mod config_laws;
mod fault;
mod laws;
mod receiver;
mod stream;
mod waking;

pub use answer::{Peeked, Played, Taken};
pub use config::ReceiverConfig;
pub use config_laws::{
    configurations_keep_their_fields, receivers_keep_the_rest, set_times_are_followed,
};
pub use fault::{HasStarted, ReceiveFault};
pub use laws::{
    asking_is_determined, asking_most_is_asking, beginning_is_a_start, hearing_is_determined,
    hearing_is_in_order, no_delay_is_none, playing_is_determined,
};
pub use receiver::Receiver;
pub use stream::Stream;
