//! What the commands of the program do, over readers, writers and links: the log of a script, the lines of a trace, the
//! feedback for places, a run over a link.
#![tactic(auto)]

mod drops;
mod fault;
mod laws;
mod link_run;
mod output;
mod pack;
mod pending;
mod show;
mod sim;
mod tally_text;
mod udp_link;

pub use drops::{ListFault, drop_list};
pub use fault::SimFault;
pub use laws::scripts_are_read;
pub use link_run::loopback;
pub use output::{Stream, WriteFailed};
pub use pack::{PackFault, pack_text};
pub use show::{ShowFault, show_trace};
pub use sim::sim_text;
pub use tally_text::push_tally;
pub use udp_link::UdpLink;
