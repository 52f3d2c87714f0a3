//! Feedback packets as octets (RFC 4585, section 6): generic NACKs read without a copy, written, and made
//! of places that are missing. No call takes memory.
#![tactic(auto)]

mod compound;
mod fault;
mod header;
mod nack;
mod numbers;
mod packets;
mod packing;

pub use compound::{Compound, Nacks, compound_is_determined};
pub use fault::FeedbackFault;
pub use nack::{NackView, Pair, nack_is_determined, write_nack, write_nack_into};
pub use numbers::{Numbers, Pairs};
pub use packing::{can_pack, pack, pack_into, packing_is_determined};
