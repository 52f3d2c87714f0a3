//! Places: the extended sequence numbers of a stream, which never wrap, found again from the 16 bits
//! that a packet carries (RFC 3550, appendix A.1).
#![tactic(auto)]

mod nearness;
mod place;

pub use nearness::{PlaceFault, near, near_is_determined};
pub use place::Place;
