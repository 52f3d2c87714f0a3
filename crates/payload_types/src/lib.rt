//! Several payload types under one SSRC, for a session that has one pair of them (RFC 3550, section 5.1; RFC 4588, section
//! 8.6). A packet of the session keeps its own type as one octet more behind its payload.
#![tactic(auto)]

mod fault;
mod folding;
mod laws;
mod types;

pub use fault::TypesFault;
pub use folding::Fitted;
pub use laws::{no_type_is_lost, types_are_those_of_a_session};
pub use types::{MAX_TYPES, PayloadTypes, TypePair};
