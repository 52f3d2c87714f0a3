//! Contexts of SRTP by SSRC (RFC 3711, section 3.2.3): all that comes, or all that leaves, under one master key.
#![tactic(auto)]

mod controls;
mod fault;
mod inbound;
mod kept;
mod laws;
mod opening;
mod outbound;
mod sealed_controls;
mod search;

pub use fault::ContextFault;
pub use inbound::Inbound;
pub use laws::what_is_heard_was_sealed;
pub use outbound::Outbound;
