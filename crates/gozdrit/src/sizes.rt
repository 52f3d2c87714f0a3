//! How many octets each struct of C's has that may grow, as version 2.0 of the header has it. A later version adds fields behind these.
use crate::answers::{KnownTimes, PlayedPacket, SentPacket};
use crate::config::{ReceiverFields, SenderFields};
use crate::counts::{ProbeCounts, ReceiverCounts, SenderCounts};
use crate::heard::{OutcomeFields, ReceivedFields};
use std::mem::size_of;

pub(crate) const SENDER_CONFIG: usize = 56;

pub(crate) const RECEIVER_CONFIG: usize = 80;

pub(crate) const SENT: usize = 24;

pub(crate) const RECEIVED: usize = 40;

pub(crate) const OUTCOME: usize = 40;

pub(crate) const PLAYED: usize = 168;

pub(crate) const TIMES: usize = 48;

pub(crate) const RECEIVE_COUNTS: usize = 128;

pub(crate) const PROBE_COUNTS: usize = 48;

pub(crate) const SEND_COUNTS: usize = 112;

const _: () = prove!(SENDER_CONFIG == size_of::<SenderFields>());

const _: () = prove!(RECEIVER_CONFIG == size_of::<ReceiverFields>());

const _: () = prove!(SENT == size_of::<SentPacket>());

const _: () = prove!(RECEIVED == size_of::<ReceivedFields>());

const _: () = prove!(OUTCOME == size_of::<OutcomeFields>());

const _: () = prove!(PLAYED == size_of::<PlayedPacket>());

const _: () = prove!(TIMES == size_of::<KnownTimes>());

const _: () = prove!(RECEIVE_COUNTS == size_of::<ReceiverCounts>());

const _: () = prove!(PROBE_COUNTS == size_of::<ProbeCounts>());

const _: () = prove!(SEND_COUNTS == size_of::<SenderCounts>());
