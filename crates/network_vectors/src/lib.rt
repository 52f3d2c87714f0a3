//! Test vectors of what networks do to a session, at both ends and at the endpoints above them: packets that are reordered, lost
//! at the head, at the tail and in outages, senders that start again, feedback that streams share, and a loop that sleeps.
//! There is no code in it.
#![tactic(auto)]

#[cfg(test)]
mod as_receiver;
#[cfg(test)]
mod counting;
#[cfg(test)]
mod delays;
#[cfg(test)]
mod endpoints;
#[cfg(test)]
mod ends;
#[cfg(test)]
mod jumps;
#[cfg(test)]
mod measured;
#[cfg(test)]
mod no_delay;
#[cfg(test)]
mod outages;
#[cfg(test)]
mod resending;
#[cfg(test)]
mod restarts;
#[cfg(test)]
mod rivals;
#[cfg(test)]
mod sharing;
#[cfg(test)]
mod silences;
#[cfg(test)]
mod tails;
#[cfg(test)]
mod times;
#[cfg(test)]
mod unasked;
#[cfg(test)]
mod waking;
