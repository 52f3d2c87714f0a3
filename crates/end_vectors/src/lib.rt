//! Test vectors of both ends and of their stores, through the public calls of each crate. There is no code in it. What a
//! script can say of an end is in rows/receiver.rows and rows/sender.rows, which the built program runs.
#![tactic(auto)]

#[cfg(test)]
mod both_ends;
#[cfg(test)]
mod both_histories;
#[cfg(test)]
mod both_windows;
#[cfg(test)]
mod receivers;
#[cfg(test)]
mod senders;
#[cfg(test)]
mod session;
#[cfg(test)]
mod slices;
#[cfg(test)]
mod windows;
