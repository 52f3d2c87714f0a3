//! SRTP (RFC 3711) as pure readers and writers: packets and keys in the caller's octets. No call takes memory.
#![tactic(auto)]

mod aes;
mod counter;
mod fault;
mod field;
mod header;
mod hmac;
mod index;
mod keys;
mod lanes;
mod laws;
mod octets;
mod replay;
mod rounds;
mod rtcp;
mod seal;
mod stream;
mod tower;

pub use aes::Aes128;
pub use counter::SALT;
pub use fault::SrtpFault;
pub use hmac::HmacSha1;
pub use index::{guess_index, guesses_are_places};
pub use keys::{MasterKey, Profile, SessionKeys};
pub use laws::{inverses_are, packets_are_opened, replays_are_refused};
pub use replay::{Replay, ReplayFault};
pub use rtcp::{RTCP_GROWTH, RtcpReceiver, RtcpSender, has_rtcp_tag, rtcp_source_of};
pub use seal::TAG;
pub use stream::{Stream, has_tag, source_of};
