//! Whether who sends under a key lives, and where its streams stand: extended reports of RTCP (RFC 3611) by which a
//! receiver asks with a number that it drew, and a sender answers. What waits for an answer is kept here.
#![tactic(auto)]

mod answer;
mod laws;
mod living;
mod pending;
mod reference;
mod sent;

pub use answer::{ANSWER, Answer};
pub use laws::the_living_answered;
pub use living::{Living, Source};
pub use pending::{Pending, PendingPackets};
pub use reference::{REFERENCE, ReferenceTime};
pub use sent::Sent;
