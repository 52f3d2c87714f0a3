//! Test vectors of what crosses the wire: places, packets, trace frames and feedback, and of what is measured of a path and of a
//! stream, through the public calls of each crate. There is no code in it.
#![tactic(auto)]

#[cfg(test)]
mod clocks;
#[cfg(test)]
mod contents;
#[cfg(test)]
mod earned;
#[cfg(test)]
mod feedback;
#[cfg(test)]
mod framing;
#[cfg(test)]
mod nearness;
#[cfg(test)]
mod queues;
#[cfg(test)]
mod resends;
#[cfg(test)]
mod retransmission;
#[cfg(test)]
mod rtp;
#[cfg(test)]
mod silences;
#[cfg(test)]
mod times;
