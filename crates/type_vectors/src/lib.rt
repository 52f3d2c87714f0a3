//! Test vectors of sessions with several payload types. There is no code in it.
#![tactic(auto)]

#[cfg(test)]
mod packets;
#[cfg(test)]
mod pairs;
