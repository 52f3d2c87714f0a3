//! Both ends of a session for C: one export for each call.
#![tactic(auto)]

mod again;
mod answers;
mod blocks;
mod budget;
mod code;
mod config;
mod counts;
mod default_exports;
mod defaults;
mod following;
mod handle;
mod header;
mod heard;
mod laws;
mod lent;
mod packet_exports;
mod packets;
mod playing;
mod protecting;
mod reading;
mod reading_exports;
mod receiver_exports;
mod receiving;
mod rest;
mod sender_exports;
mod sending;
mod sized;
mod sizes;
mod srtp_exports;
mod srtp_key;
mod type_exports;
mod typing;
mod unboxed;
mod unprotecting;
mod version;

pub use laws::{
    fields_say_configurations, longer_configurations_say_no_more, nacks_are_earned,
    nacks_leave_twice, new_ends_are_as_configured,
};
