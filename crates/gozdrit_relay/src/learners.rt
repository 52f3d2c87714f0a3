//! What makes the relay of a session that is learnt.
ghost use Rattle.std.specs.Prelude.{◌≤◌, ◌<◌};

use crate::known::Known;
use endpoint::ResendRule;
use relays::{Bounds, Rate};
use std::alloc::Global;
use std::net::SocketAddr;

/// Of a relay before a network.
#[derive(Drop)]
pub struct SendLearner {
    pub alloc: Global,
    pub known: Known,
    pub first: Option<u16>,
    pub rtx_first: u16,
    pub rate: Rate,
    pub rule: ResendRule,
    /// Whether its relays follow the path.
    pub follows: bool,
    pub history: usize,
    pub far: SocketAddr,
    /// Whether each session has another SSRC than those before.
    pub renews: bool,
    pub bounds: Bounds,
    /// How many packets the sessions before sent.
    pub passed: u64,
    ghost kept: { (0 < history) × (history ≤ 8192) },
}

/// Of a relay behind a network.
#[derive(Drop)]
pub struct ReceiveLearner {
    pub alloc: Global,
    pub known: Known,
    pub first: Option<u16>,
    pub latency: u64,
    pub window: usize,
    pub hold: Option<u32>,
    pub player: SocketAddr,
    pub bounds: Bounds,
    /// How many packets the sessions before played or gave up.
    pub passed: u64,
    ghost held: { (0 < window) × (window ≤ 8192) },
}
