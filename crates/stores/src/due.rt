//! How a ring window finds which missing places are due to be asked for, and from when on one is.
//!
//! Two ways serve. [`plain`] looks at each missing place, for a caller with any rule. [`by_blocks`] is for the rule that a window follows: for
//! each word of the bits that tell which places are missing, a block, it has a [`bound`], the moment from which on one of them may be due, and
//! looks at no block whose moment has not come. [`blocks`] says how the bounds go on being true as places become missing, [`counting`] as they
//! are asked for. What an ask finds where nothing is due, the moment from which on something is, is [`foreseen`] and kept, and [`keeping`]
//! carries it on from packet to packet, so that until then no place is looked at.
pub mod blocks;
pub mod bound;
pub mod by_blocks;
pub mod counting;
pub mod foreseen;
pub mod keeping;
pub mod plain;
