//! What C calls of SRTP.
//!
//! Each export hands its pointers to a function that tests them for null, and then makes the call. What it answers is
//! defined in `specs/Lent.antt`, and said for C in `include/gozdrit.h`, with its refusals.
ghost use Rattle.std.specs.Prelude.{◌≡◌, ℕ, List, Option};
ghost use Rattle.std.specs.Borrow.{sem, u8, usize};
ghost use Rattle.contexts.specs.declared.inbound.Inbound.{Inbound};
ghost use Rattle.contexts.specs.declared.outbound.Outbound.{Outbound};
ghost use Rattle.gozdrit.specs.Lying.{slice_lies_at, value_lies_at};
ghost use Rattle.gozdrit.specs.Ends.{SrtpReceiverRow, SrtpSenderRow};
ghost use Rattle.gozdrit.specs.declared.handle.Handle.{Handle};
ghost use Rattle.gozdrit.specs.Lent.{ProtectFor, SrtpReceiverFreeFor, SrtpReceiverNewFor, SrtpSenderFreeFor, SrtpSenderNewFor, UnprotectFor};

use crate::blocks::{SrtpReceiverBlock, SrtpSenderBlock};
use crate::code::NULL;
use crate::lent::{Lent, LentSlice};
use crate::protecting::{SrtpSenderHandle, protect, srtp_sender_free, srtp_sender_new};
use crate::unprotecting::{SrtpReceiverHandle, srtp_receiver_free, srtp_receiver_new, unprotect};
use std::alloc::Global;

/// Makes what protects datagrams under a key, in a handle that holds none.
#[unsafe(no_mangle)]
pub unsafe extern "C" fn gozdrit_srtp_sender_new(
    alloc: Global,
    profile: u16,
    key: *mut u8,
    length: usize,
    sender: *mut SrtpSenderBlock,
) -> i32
    ghost before: { Option (List ℕ) × Option (Handle Outbound) }
    requires* { sem 𝓛 (slice_lies_at u8 key length before.0)
        ∗ sem 𝓛 (value_lies_at SrtpSenderRow sender before.1) }
    ensures* { ∃ₛ (λ (after : Option (List ℕ) × Option (Handle Outbound)).
        sem 𝓛 (slice_lies_at u8 key length after.0)
        ∗ sem 𝓛 (value_lies_at SrtpSenderRow sender after.1)
        ∗ ⌜ SrtpSenderNewFor profile before.0 before.1 result after.0 after.1 ⌝) }
{
    srtp_sender_new_lent(
        alloc,
        profile,
        LentSlice {
            at: key,
            len: length,
        },
        Lent {
            at: sender as *mut SrtpSenderHandle,
        },
    )
    .0
}

fn srtp_sender_new_lent(
    alloc: Global,
    profile: u16,
    mut key: LentSlice<u8>,
    mut sender: Lent<SrtpSenderHandle>,
) -> (i32, LentSlice<u8>, Lent<SrtpSenderHandle>)
    ensures { ((result.1.at ≡ key.at) × (result.1.len ≡ key.len) × (result.2.at ≡ sender.at))
        × SrtpSenderNewFor profile key.items sender.value result.0 result.1.items result.2.value }
{
    if key.is_missing() || sender.is_null() {
        return (NULL, key, sender);
    }
    let code = srtp_sender_new(alloc, profile, key.get(), sender.get());
    (code, key, sender)
}

/// Gives its memory back. The handle then holds nothing.
#[unsafe(no_mangle)]
pub unsafe extern "C" fn gozdrit_srtp_sender_free(
    alloc: Global,
    sender: *mut SrtpSenderBlock,
) -> i32
    ghost before: { Option (Handle Outbound) }
    requires* { sem 𝓛 (value_lies_at SrtpSenderRow sender before) }
    ensures* { ∃ₛ (λ (after : Option (Handle Outbound)).
        sem 𝓛 (value_lies_at SrtpSenderRow sender after)
        ∗ ⌜ SrtpSenderFreeFor before result after ⌝) }
{
    srtp_sender_free_lent(
        alloc,
        Lent {
            at: sender as *mut SrtpSenderHandle,
        },
    )
    .0
}

fn srtp_sender_free_lent(
    alloc: Global,
    mut sender: Lent<SrtpSenderHandle>,
) -> (i32, Lent<SrtpSenderHandle>)
    ensures { (result.1.at ≡ sender.at)
        × SrtpSenderFreeFor sender.value result.0 result.1.value }
{
    if sender.is_null() {
        return (NULL, sender);
    }
    let code = srtp_sender_free(alloc, sender.get());
    (code, sender)
}

/// `Outbound::seal_rtp` or `seal_rtcp` of a datagram that is the first `length` octets. `protected_length` is told how many it has then.
#[unsafe(no_mangle)]
pub unsafe extern "C" fn gozdrit_srtp_protect(
    sender: *mut SrtpSenderBlock,
    octets: *mut u8,
    room: usize,
    length: usize,
    protected_length: *mut usize,
) -> i32
    ghost before: { Option (Handle Outbound) × Option (List ℕ) × Option ℕ }
    requires* { sem 𝓛 (value_lies_at SrtpSenderRow sender before.0)
        ∗ sem 𝓛 (slice_lies_at u8 octets room before.1)
        ∗ sem 𝓛 (value_lies_at usize protected_length before.2) }
    ensures* { ∃ₛ (λ (after : Option (Handle Outbound) × Option (List ℕ) × Option ℕ).
        sem 𝓛 (value_lies_at SrtpSenderRow sender after.0)
        ∗ sem 𝓛 (slice_lies_at u8 octets room after.1)
        ∗ sem 𝓛 (value_lies_at usize protected_length after.2)
        ∗ ⌜ ProtectFor length before.0 before.1 before.2 result after.0 after.1 after.2 ⌝) }
{
    protect_lent(
        Lent {
            at: sender as *mut SrtpSenderHandle,
        },
        LentSlice {
            at: octets,
            len: room,
        },
        length,
        Lent {
            at: protected_length,
        },
    )
    .0
}

fn protect_lent(
    mut sender: Lent<SrtpSenderHandle>,
    mut octets: LentSlice<u8>,
    length: usize,
    mut protected_length: Lent<usize>,
) -> (i32, Lent<SrtpSenderHandle>, LentSlice<u8>, Lent<usize>)
    ensures { ((result.1.at ≡ sender.at) × (result.2.at ≡ octets.at) × (result.2.len ≡ octets.len) × (result.3.at ≡ protected_length.at))
        × ProtectFor length sender.value octets.items protected_length.value result.0 result.1.value result.2.items result.3.value }
{
    if sender.is_null() || octets.is_missing() || protected_length.is_null() {
        return (NULL, sender, octets, protected_length);
    }
    let code = protect(sender.get(), octets.get(), length, protected_length.get());
    (code, sender, octets, protected_length)
}

/// Makes what takes the protection off datagrams under a key, in a handle that holds none.
#[unsafe(no_mangle)]
pub unsafe extern "C" fn gozdrit_srtp_receiver_new(
    alloc: Global,
    profile: u16,
    key: *mut u8,
    length: usize,
    receiver: *mut SrtpReceiverBlock,
) -> i32
    ghost before: { Option (List ℕ) × Option (Handle Inbound) }
    requires* { sem 𝓛 (slice_lies_at u8 key length before.0)
        ∗ sem 𝓛 (value_lies_at SrtpReceiverRow receiver before.1) }
    ensures* { ∃ₛ (λ (after : Option (List ℕ) × Option (Handle Inbound)).
        sem 𝓛 (slice_lies_at u8 key length after.0)
        ∗ sem 𝓛 (value_lies_at SrtpReceiverRow receiver after.1)
        ∗ ⌜ SrtpReceiverNewFor profile before.0 before.1 result after.0 after.1 ⌝) }
{
    srtp_receiver_new_lent(
        alloc,
        profile,
        LentSlice {
            at: key,
            len: length,
        },
        Lent {
            at: receiver as *mut SrtpReceiverHandle,
        },
    )
    .0
}

fn srtp_receiver_new_lent(
    alloc: Global,
    profile: u16,
    mut key: LentSlice<u8>,
    mut receiver: Lent<SrtpReceiverHandle>,
) -> (i32, LentSlice<u8>, Lent<SrtpReceiverHandle>)
    ensures { ((result.1.at ≡ key.at) × (result.1.len ≡ key.len) × (result.2.at ≡ receiver.at))
        × SrtpReceiverNewFor profile key.items receiver.value result.0 result.1.items result.2.value }
{
    if key.is_missing() || receiver.is_null() {
        return (NULL, key, receiver);
    }
    let code = srtp_receiver_new(alloc, profile, key.get(), receiver.get());
    (code, key, receiver)
}

/// Gives its memory back. The handle then holds nothing.
#[unsafe(no_mangle)]
pub unsafe extern "C" fn gozdrit_srtp_receiver_free(
    alloc: Global,
    receiver: *mut SrtpReceiverBlock,
) -> i32
    ghost before: { Option (Handle Inbound) }
    requires* { sem 𝓛 (value_lies_at SrtpReceiverRow receiver before) }
    ensures* { ∃ₛ (λ (after : Option (Handle Inbound)).
        sem 𝓛 (value_lies_at SrtpReceiverRow receiver after)
        ∗ ⌜ SrtpReceiverFreeFor before result after ⌝) }
{
    srtp_receiver_free_lent(
        alloc,
        Lent {
            at: receiver as *mut SrtpReceiverHandle,
        },
    )
    .0
}

fn srtp_receiver_free_lent(
    alloc: Global,
    mut receiver: Lent<SrtpReceiverHandle>,
) -> (i32, Lent<SrtpReceiverHandle>)
    ensures { (result.1.at ≡ receiver.at)
        × SrtpReceiverFreeFor receiver.value result.0 result.1.value }
{
    if receiver.is_null() {
        return (NULL, receiver);
    }
    let code = srtp_receiver_free(alloc, receiver.get());
    (code, receiver)
}

/// `Inbound::open_rtp` or `open_rtcp` of a datagram. `plain_length` is told how many octets it has then.
#[unsafe(no_mangle)]
pub unsafe extern "C" fn gozdrit_srtp_unprotect(
    receiver: *mut SrtpReceiverBlock,
    octets: *mut u8,
    length: usize,
    now: u64,
    plain_length: *mut usize,
) -> i32
    ghost before: { Option (Handle Inbound) × Option (List ℕ) × Option ℕ }
    requires* { sem 𝓛 (value_lies_at SrtpReceiverRow receiver before.0)
        ∗ sem 𝓛 (slice_lies_at u8 octets length before.1)
        ∗ sem 𝓛 (value_lies_at usize plain_length before.2) }
    ensures* { ∃ₛ (λ (after : Option (Handle Inbound) × Option (List ℕ) × Option ℕ).
        sem 𝓛 (value_lies_at SrtpReceiverRow receiver after.0)
        ∗ sem 𝓛 (slice_lies_at u8 octets length after.1)
        ∗ sem 𝓛 (value_lies_at usize plain_length after.2)
        ∗ ⌜ UnprotectFor before.0 before.1 before.2 result after.0 after.1 after.2 ⌝) }
{
    unprotect_lent(
        Lent {
            at: receiver as *mut SrtpReceiverHandle,
        },
        LentSlice {
            at: octets,
            len: length,
        },
        now,
        Lent { at: plain_length },
    )
    .0
}

fn unprotect_lent(
    mut receiver: Lent<SrtpReceiverHandle>,
    mut octets: LentSlice<u8>,
    now: u64,
    mut plain_length: Lent<usize>,
) -> (i32, Lent<SrtpReceiverHandle>, LentSlice<u8>, Lent<usize>)
    ensures { ((result.1.at ≡ receiver.at) × (result.2.at ≡ octets.at) × (result.2.len ≡ octets.len) × (result.3.at ≡ plain_length.at))
        × UnprotectFor receiver.value octets.items plain_length.value result.0 result.1.value result.2.items result.3.value }
{
    if receiver.is_null() || octets.is_missing() || plain_length.is_null() {
        return (NULL, receiver, octets, plain_length);
    }
    let code = unprotect(receiver.get(), octets.get(), now, plain_length.get());
    (code, receiver, octets, plain_length)
}
