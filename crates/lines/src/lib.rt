//! What a line says, and what is written as a line: words, decimals, octets and contents as text, the lines of
//! scripts and logs, of traces and packings. Nothing here reads a stream; a line is pushed to a [`Sink`], which takes no
//! memory but what the sink itself takes.
#![tactic(auto)]

mod config_line;
mod content_text;
mod decimal;
mod event_line;
mod laws;
mod line;
mod log_text;
mod nack_text;
mod numbers;
mod octets;
mod pack_text;
mod show_text;
mod sink;
mod word;
mod words;

pub use config_line::parse_config;
pub use event_line::parse_event;
pub use laws::{packings_are_determined, traces_are_determined};
pub use line::push_line;
pub use log_text::{push_entry, push_entry_octets};
pub use numbers::parse_between;
pub use pack_text::push_packing;
pub use show_text::push_datagram;
pub use sink::Sink;
pub use word::Word;
pub use words::{LONGEST_LINE, find_byte};
