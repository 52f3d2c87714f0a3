//! Test vectors of SRTP and of what it stands on, through the public calls of `srtp`, of
//! `contexts` above it, and of `liveness` beside it. There is no code in it.
#![tactic(auto)]

#[cfg(test)]
mod aes;
#[cfg(test)]
mod by_source;
#[cfg(test)]
mod derivation;
#[cfg(test)]
mod hmac;
#[cfg(test)]
mod indices;
#[cfg(test)]
mod living;
#[cfg(test)]
mod octets;
#[cfg(test)]
mod packets;
#[cfg(test)]
mod replay;
