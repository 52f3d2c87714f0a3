//! Whole runs of a session: packets of which a random generator loses some, and packets over a link that may fail.
#![tactic(auto)]

mod driving;
mod exchange;
mod fault;
mod laws;
mod link;
mod playing;
mod session;
mod soaking;
mod stepping;
mod tally;

pub use driving::drive;
pub use fault::{DriveFault, LinkFault};
pub use laws::runs_are_logged;
pub use link::{Link, Transfer};
pub use session::{run_config, soak_config};
pub use soaking::{soak, soak_seed, soak_world};
pub use tally::Tally;
