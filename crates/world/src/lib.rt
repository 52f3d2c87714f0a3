//! The two ends of a session, the wire between them, and the log of what happened.
#![tactic(auto)]

mod closeness;
mod config;
mod config_laws;
mod counts;
mod ends;
mod event;
mod last_entry;
mod laws;
mod log;
mod marks;
mod packed_wire;
mod pairs;
mod scheduling;
mod session;
mod settling;
mod slot;
mod traces;
mod wire;
mod world;

pub use config::Config;
pub use config_laws::configurations_keep_their_fields;
pub use counts::Counts;
pub use event::{Answer, End, Entry, Event, Label};
pub use last_entry::LastEntry;
pub use laws::{
    answers_are_determined, keeping_makes_no_difference, logs_are_good, logs_are_in_order,
    plays_are_determined, repeats_are_limited, rounds_mend, runs_are_determined,
    stores_make_no_difference, wires_are_faithful,
};
pub use log::Log;
pub use packed_wire::PackedWire;
pub use scheduling::{numbered_content, schedule};
pub use session::{MEDIA_SSRC, MEDIA_TYPE, RECEIVER_SSRC, REPAIR_SSRC, REPAIR_TYPE, trial_session};
pub use wire::Wire;
pub use world::{LeanWorld, World, run};
