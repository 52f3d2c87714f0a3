//! Stores of a retransmission session: what a receiver holds and misses, behind the trait [`Window`], and
//! what a sender keeps to repeat, behind the trait [`History`].
#![tactic(auto)]

mod ask_rule;
mod bits;
mod block;
mod by_place;
mod cell;
mod due;
mod entries;
mod entry;
mod history;
mod laws;
mod list_history;
mod list_window;
mod memory;
mod ones;
mod pool;
mod ring;
mod ring_history;
mod ring_window;
mod slot;
mod slots;
mod spot;
mod window;

pub use ask_rule::{AskRule, sooner};
pub use by_place::{history_by_place, window_by_place};
pub use entry::HistoryEntry;
pub use history::History;
pub use laws::answers_are_determined;
pub use list_history::ListHistory;
pub use list_window::ListWindow;
pub use memory::OutOfMemory;
pub use ring_history::RingHistory;
pub use ring_window::RingWindow;
pub use slot::{PutFault, Slot, SlotRef};
pub use window::{LONGEST_ASK, Window};
