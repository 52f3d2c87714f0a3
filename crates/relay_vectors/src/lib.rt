//! Test vectors of relays: what leaves, to whom and when, for what comes. There is no code in it.
#![tactic(auto)]

#[cfg(test)]
mod backlog;
mod claims;
#[cfg(test)]
mod earned;
#[cfg(test)]
mod held;
#[cfg(test)]
mod latencies;
#[cfg(test)]
mod lossy;
#[cfg(test)]
mod moving;
#[cfg(test)]
mod pacing;
#[cfg(test)]
mod packets;
#[cfg(test)]
mod receiving;
#[cfg(test)]
mod script;
#[cfg(test)]
mod sending;
#[cfg(test)]
mod silences;
#[cfg(test)]
mod streams;
