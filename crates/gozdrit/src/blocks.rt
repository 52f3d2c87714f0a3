//! What C sees of the handles, in its own memory: an address that it never follows, and whether there is an end. That is the
//! layout of a `Handle`. (An export can't name the type itself, since the toolchain exports nothing that points to memory which
//! is shared.)

/// What C sees of a handle of a receiver.
#[repr(C)]
pub struct ReceiverBlock {
    at: *mut u8,
    held: bool,
}

/// What C sees of a handle of a sender.
#[repr(C)]
pub struct SenderBlock {
    at: *mut u8,
    held: bool,
}

/// What C sees of a handle of what protects datagrams.
#[repr(C)]
pub struct SrtpSenderBlock {
    at: *mut u8,
    held: bool,
}

/// What C sees of a handle of what takes the protection off datagrams.
#[repr(C)]
pub struct SrtpReceiverBlock {
    at: *mut u8,
    held: bool,
}
