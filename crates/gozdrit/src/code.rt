//! What a call answers beside the numbers of the ends' own refusals.

pub(crate) const OK: i32 = 0;

/// A payload or a header extension is above its largest.
pub(crate) const TOO_LONG: i32 = 37;

/// Padding is wanted, and the payload is empty.
pub(crate) const PADDED_EMPTY: i32 = 44;

/// A payload type is out of its bounds.
pub(crate) const BAD_TYPE: i32 = 51;

/// None of the types of the media stands behind a payload.
pub(crate) const NO_TYPE: i32 = 57;

/// The handle holds no end.
pub(crate) const NO_END: i32 = 71;

/// The handle holds an end already.
pub(crate) const HELD: i32 = 72;

/// The allocator refused the memory.
pub(crate) const OUT_OF_MEMORY: i32 = 73;

/// A length or a count is above its largest.
pub(crate) const TOO_LARGE: i32 = 74;

/// A buffer has less room than this datagram or payload needs.
pub(crate) const NO_ROOM: i32 = 75;

/// A pointer is null where something has to lie.
pub(crate) const NULL: i32 = 76;

/// A struct is shorter than it is known here, or says what is not known here.
pub(crate) const BAD_SIZE: i32 = 77;

/// A profile of SRTP is not known, or a master key and its salt have not 30 octets.
pub(crate) const BAD_KEY: i32 = 102;
