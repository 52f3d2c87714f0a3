//! What C calls of a receiver.
//!
//! Each export hands its pointers to a function that tests them for null, and then makes the call. What it answers is
//! defined in `specs/Lent.antt`, and said for C in `include/gozdrit.h`, with its refusals.
ghost use Rattle.std.specs.Prelude.{◌≡◌, ℕ, List, Option};
ghost use Rattle.std.specs.Borrow.{sem, u8, usize};
ghost use Rattle.gozdrit.specs.Lying.{sized_lies_at, slice_lies_at, value_lies_at};
ghost use Rattle.gozdrit.specs.Sizes.{HasRest};
ghost use Rattle.gozdrit.specs.declared.sizes.TheConstants.{RECEIVER_CONFIG};
ghost use Rattle.gozdrit.specs.Ends.{Receiver, ReceiverRow};
ghost use Rattle.gozdrit.specs.declared.handle.Handle.{Handle};
ghost use Rattle.gozdrit.specs.contracts.heard.ReceivedFields.{the_row as heard_row};
ghost use Rattle.gozdrit.specs.declared.heard.ReceivedFields.{ReceivedFields};
ghost use Rattle.gozdrit.specs.contracts.answers.PlayedPacket.{the_row as played_row};
ghost use Rattle.gozdrit.specs.declared.answers.PlayedPacket.{PlayedPacket};
ghost use Rattle.gozdrit.specs.contracts.config.ReceiverFields.{the_row as receiver_config_row};
ghost use Rattle.gozdrit.specs.declared.config.ReceiverFields.{ReceiverFields};
ghost use Rattle.gozdrit.specs.Lent.{ReceiverNewFor, ReceiverFreeFor, ReceiveFor, PlayFor, NackFor, BeginFor, RestartFor, TimesFor, FollowFor, CopiesFor, BudgetFor};

use crate::answers::PlayedPacket;
use crate::blocks::ReceiverBlock;
use crate::code::NULL;
use crate::config::ReceiverFields;
use crate::heard::ReceivedFields;
use crate::lent::{Lent, LentSlice};
use crate::receiving::{
    ReceiverHandle, begin, follow, nack, play, receive, receiver_free, receiver_new, restart,
    set_budget, set_copies, set_times,
};
use crate::rest::says_known;
use crate::sized::LentSized;
use crate::sizes::RECEIVER_CONFIG;
use std::alloc::Global;

/// Makes a receiver that took nothing, in a handle that holds no end: an endpoint over ring windows, as `config` says.
#[unsafe(no_mangle)]
pub unsafe extern "C" fn gozdrit_receiver_new(
    alloc: Global,
    config: *mut ReceiverFields,
    receiver: *mut ReceiverBlock,
) -> i32
    ghost before: { Option ReceiverFields × List ℕ × Option (Handle Receiver) }
    requires rest { HasRest (λ fields. fields.size) RECEIVER_CONFIG before.0 before.1 }
    requires* lies { sem 𝓛 (sized_lies_at receiver_config_row config before.0 before.1)
        ∗ sem 𝓛 (value_lies_at ReceiverRow receiver before.2) }
    ensures* { ∃ₛ (λ (after : Option ReceiverFields × List ℕ × Option (Handle Receiver)).
        sem 𝓛 (sized_lies_at receiver_config_row config after.0 after.1)
        ∗ sem 𝓛 (value_lies_at ReceiverRow receiver after.2)
        ∗ ⌜ ReceiverNewFor before.0 before.1 before.2 result after.0 after.1 after.2 ⌝) }
{
    receiver_new_lent(
        alloc,
        LentSized { at: config },
        Lent {
            at: receiver as *mut ReceiverHandle,
        },
    )
    .0
}

fn receiver_new_lent(
    alloc: Global,
    mut config: LentSized<ReceiverFields>,
    mut receiver: Lent<ReceiverHandle>,
) -> (i32, LentSized<ReceiverFields>, Lent<ReceiverHandle>)
    requires { HasRest (λ fields. fields.size) RECEIVER_CONFIG config.value config.rest }
    ensures { ((result.1.at ≡ config.at) × (result.2.at ≡ receiver.at))
        × ReceiverNewFor config.value config.rest receiver.value result.0 result.1.value result.1.rest result.2.value }
{
    if config.is_null() || receiver.is_null() {
        return (NULL, config, receiver);
    }
    let size = config.get().size;
    let is_known = says_known(&mut config, size, RECEIVER_CONFIG);
    let code = receiver_new(alloc, config.get(), is_known, receiver.get());
    (code, config, receiver)
}

/// Gives a receiver's memory back. The handle then holds no end.
#[unsafe(no_mangle)]
pub unsafe extern "C" fn gozdrit_receiver_free(alloc: Global, receiver: *mut ReceiverBlock) -> i32
    ghost before: { Option (Handle Receiver) }
    requires* { sem 𝓛 (value_lies_at ReceiverRow receiver before) }
    ensures* { ∃ₛ (λ (after : Option (Handle Receiver)).
        sem 𝓛 (value_lies_at ReceiverRow receiver after)
        ∗ ⌜ ReceiverFreeFor before result after ⌝) }
{
    receiver_free_lent(
        alloc,
        Lent {
            at: receiver as *mut ReceiverHandle,
        },
    )
    .0
}

fn receiver_free_lent(
    alloc: Global,
    mut receiver: Lent<ReceiverHandle>,
) -> (i32, Lent<ReceiverHandle>)
    ensures { (result.1.at ≡ receiver.at)
        × ReceiverFreeFor receiver.value result.0 result.1.value }
{
    if receiver.is_null() {
        return (NULL, receiver);
    }
    let code = receiver_free(alloc, receiver.get());
    (code, receiver)
}

/// `AskingEndpoint::on_datagram`, which may measure the path, at the moment `now`, in milliseconds. `received` is told what the datagram was.
#[unsafe(no_mangle)]
pub unsafe extern "C" fn gozdrit_receive(
    receiver: *mut ReceiverBlock,
    octets: *mut u8,
    length: usize,
    now: u64,
    received: *mut ReceivedFields,
) -> i32
    ghost before: { Option (Handle Receiver) × Option (List ℕ) × Option ReceivedFields }
    requires* { sem 𝓛 (value_lies_at ReceiverRow receiver before.0)
        ∗ sem 𝓛 (slice_lies_at u8 octets length before.1)
        ∗ sem 𝓛 (value_lies_at heard_row received before.2) }
    ensures* { ∃ₛ (λ (after : Option (Handle Receiver) × Option (List ℕ) × Option ReceivedFields).
        sem 𝓛 (value_lies_at ReceiverRow receiver after.0)
        ∗ sem 𝓛 (slice_lies_at u8 octets length after.1)
        ∗ sem 𝓛 (value_lies_at heard_row received after.2)
        ∗ ⌜ ReceiveFor now before.0 before.1 before.2 result after.0 after.1 after.2 ⌝) }
{
    receive_lent(
        Lent {
            at: receiver as *mut ReceiverHandle,
        },
        LentSlice {
            at: octets,
            len: length,
        },
        now,
        Lent { at: received },
    )
    .0
}

fn receive_lent(
    mut receiver: Lent<ReceiverHandle>,
    mut octets: LentSlice<u8>,
    now: u64,
    mut received: Lent<ReceivedFields>,
) -> (
    i32,
    Lent<ReceiverHandle>,
    LentSlice<u8>,
    Lent<ReceivedFields>,
)
    ensures { ((result.1.at ≡ receiver.at) × (result.2.at ≡ octets.at) × (result.2.len ≡ octets.len) × (result.3.at ≡ received.at))
        × ReceiveFor now receiver.value octets.items received.value result.0 result.1.value result.2.items result.3.value }
{
    if receiver.is_null() || octets.is_missing() || received.is_null() {
        return (NULL, receiver, octets, received);
    }
    let code = receive(receiver.get(), octets.get(), now, received.get());
    (code, receiver, octets, received)
}

/// A play at the moment `now`, in milliseconds: what `Receiver::peek` lends, and then `AskingEndpoint::pass`. `played` is told
/// what came, and a payload stands at the front of `payload`.
#[unsafe(no_mangle)]
pub unsafe extern "C" fn gozdrit_play(
    receiver: *mut ReceiverBlock,
    now: u64,
    played: *mut PlayedPacket,
    payload: *mut u8,
    room: usize,
) -> i32
    ghost before: { Option (Handle Receiver) × Option PlayedPacket × Option (List ℕ) }
    requires* { sem 𝓛 (value_lies_at ReceiverRow receiver before.0)
        ∗ sem 𝓛 (value_lies_at played_row played before.1)
        ∗ sem 𝓛 (slice_lies_at u8 payload room before.2) }
    ensures* { ∃ₛ (λ (after : Option (Handle Receiver) × Option PlayedPacket × Option (List ℕ)).
        sem 𝓛 (value_lies_at ReceiverRow receiver after.0)
        ∗ sem 𝓛 (value_lies_at played_row played after.1)
        ∗ sem 𝓛 (slice_lies_at u8 payload room after.2)
        ∗ ⌜ PlayFor now before.0 before.1 before.2 result after.0 after.1 after.2 ⌝) }
{
    play_lent(
        Lent {
            at: receiver as *mut ReceiverHandle,
        },
        now,
        Lent { at: played },
        LentSlice {
            at: payload,
            len: room,
        },
    )
    .0
}

fn play_lent(
    mut receiver: Lent<ReceiverHandle>,
    now: u64,
    mut played: Lent<PlayedPacket>,
    mut payload: LentSlice<u8>,
) -> (i32, Lent<ReceiverHandle>, Lent<PlayedPacket>, LentSlice<u8>)
    ensures { ((result.1.at ≡ receiver.at) × (result.2.at ≡ played.at) × (result.3.at ≡ payload.at) × (result.3.len ≡ payload.len))
        × PlayFor now receiver.value played.value payload.items result.0 result.1.value result.2.value result.3.items }
{
    if receiver.is_null() || played.is_null() || payload.is_missing() {
        return (NULL, receiver, played, payload);
    }
    let code = play(receiver.get(), now, played.get(), payload.get());
    (code, receiver, played, payload)
}

/// `AskingEndpoint::ask_most_into` at the moment `now`, in milliseconds. `length` is told how many octets the datagram has, or 0 where there
/// is none, and the datagram stands at the front of `out`.
#[unsafe(no_mangle)]
pub unsafe extern "C" fn gozdrit_nack(
    receiver: *mut ReceiverBlock,
    now: u64,
    most: usize,
    length: *mut usize,
    out: *mut u8,
    room: usize,
) -> i32
    ghost before: { Option (Handle Receiver) × Option ℕ × Option (List ℕ) }
    requires* { sem 𝓛 (value_lies_at ReceiverRow receiver before.0)
        ∗ sem 𝓛 (value_lies_at usize length before.1)
        ∗ sem 𝓛 (slice_lies_at u8 out room before.2) }
    ensures* { ∃ₛ (λ (after : Option (Handle Receiver) × Option ℕ × Option (List ℕ)).
        sem 𝓛 (value_lies_at ReceiverRow receiver after.0)
        ∗ sem 𝓛 (value_lies_at usize length after.1)
        ∗ sem 𝓛 (slice_lies_at u8 out room after.2)
        ∗ ⌜ NackFor now most before.0 before.1 before.2 result after.0 after.1 after.2 ⌝) }
{
    nack_lent(
        Lent {
            at: receiver as *mut ReceiverHandle,
        },
        now,
        most,
        Lent { at: length },
        LentSlice { at: out, len: room },
    )
    .0
}

fn nack_lent(
    mut receiver: Lent<ReceiverHandle>,
    now: u64,
    most: usize,
    mut length: Lent<usize>,
    mut out: LentSlice<u8>,
) -> (i32, Lent<ReceiverHandle>, Lent<usize>, LentSlice<u8>)
    ensures { ((result.1.at ≡ receiver.at) × (result.2.at ≡ length.at) × (result.3.at ≡ out.at) × (result.3.len ≡ out.len))
        × NackFor now most receiver.value length.value out.items result.0 result.1.value result.2.value result.3.items }
{
    if receiver.is_null() || length.is_null() || out.is_missing() {
        return (NULL, receiver, length, out);
    }
    let code = nack(receiver.get(), now, most, length.get(), out.get());
    (code, receiver, length, out)
}

/// `AskingEndpoint::begin`.
#[unsafe(no_mangle)]
pub unsafe extern "C" fn gozdrit_begin(receiver: *mut ReceiverBlock, first: u16) -> i32
    ghost before: { Option (Handle Receiver) }
    requires* { sem 𝓛 (value_lies_at ReceiverRow receiver before) }
    ensures* { ∃ₛ (λ (after : Option (Handle Receiver)).
        sem 𝓛 (value_lies_at ReceiverRow receiver after)
        ∗ ⌜ BeginFor first before result after ⌝) }
{
    begin_lent(
        Lent {
            at: receiver as *mut ReceiverHandle,
        },
        first,
    )
    .0
}

fn begin_lent(mut receiver: Lent<ReceiverHandle>, first: u16) -> (i32, Lent<ReceiverHandle>)
    ensures { (result.1.at ≡ receiver.at)
        × BeginFor first receiver.value result.0 result.1.value }
{
    if receiver.is_null() {
        return (NULL, receiver);
    }
    let code = begin(receiver.get(), first);
    (code, receiver)
}

/// `AskingEndpoint::restart`.
#[unsafe(no_mangle)]
pub unsafe extern "C" fn gozdrit_reset(receiver: *mut ReceiverBlock) -> i32
    ghost before: { Option (Handle Receiver) }
    requires* { sem 𝓛 (value_lies_at ReceiverRow receiver before) }
    ensures* { ∃ₛ (λ (after : Option (Handle Receiver)).
        sem 𝓛 (value_lies_at ReceiverRow receiver after)
        ∗ ⌜ RestartFor before result after ⌝) }
{
    restart_lent(Lent {
        at: receiver as *mut ReceiverHandle,
    })
    .0
}

fn restart_lent(mut receiver: Lent<ReceiverHandle>) -> (i32, Lent<ReceiverHandle>)
    ensures { (result.1.at ≡ receiver.at)
        × RestartFor receiver.value result.0 result.1.value }
{
    if receiver.is_null() {
        return (NULL, receiver);
    }
    let code = restart(receiver.get());
    (code, receiver)
}

/// `AskingEndpoint::set_times`, in milliseconds.
#[unsafe(no_mangle)]
pub unsafe extern "C" fn gozdrit_set_times(
    receiver: *mut ReceiverBlock,
    latency: u64,
    reorder_delay: u64,
    nack_interval: u64,
) -> i32
    ghost before: { Option (Handle Receiver) }
    requires* { sem 𝓛 (value_lies_at ReceiverRow receiver before) }
    ensures* { ∃ₛ (λ (after : Option (Handle Receiver)).
        sem 𝓛 (value_lies_at ReceiverRow receiver after)
        ∗ ⌜ TimesFor latency reorder_delay nack_interval before result after ⌝) }
{
    set_times_lent(
        Lent {
            at: receiver as *mut ReceiverHandle,
        },
        latency,
        reorder_delay,
        nack_interval,
    )
    .0
}

fn set_times_lent(
    mut receiver: Lent<ReceiverHandle>,
    latency: u64,
    reorder_delay: u64,
    nack_interval: u64,
) -> (i32, Lent<ReceiverHandle>)
    ensures { (result.1.at ≡ receiver.at)
        × TimesFor latency reorder_delay nack_interval receiver.value result.0 result.1.value }
{
    if receiver.is_null() {
        return (NULL, receiver);
    }
    let code = set_times(receiver.get(), latency, reorder_delay, nack_interval);
    (code, receiver)
}

/// Whether the times of asks follow what is measured of the path.
#[unsafe(no_mangle)]
pub unsafe extern "C" fn gozdrit_set_adaptive(receiver: *mut ReceiverBlock, adaptive: u8) -> i32
    ghost before: { Option (Handle Receiver) }
    requires* { sem 𝓛 (value_lies_at ReceiverRow receiver before) }
    ensures* { ∃ₛ (λ (after : Option (Handle Receiver)).
        sem 𝓛 (value_lies_at ReceiverRow receiver after)
        ∗ ⌜ FollowFor adaptive before result after ⌝) }
{
    follow_lent(
        Lent {
            at: receiver as *mut ReceiverHandle,
        },
        adaptive,
    )
    .0
}

fn follow_lent(mut receiver: Lent<ReceiverHandle>, adaptive: u8) -> (i32, Lent<ReceiverHandle>)
    ensures { (result.1.at ≡ receiver.at)
        × FollowFor adaptive receiver.value result.0 result.1.value }
{
    if receiver.is_null() {
        return (NULL, receiver);
    }
    let code = follow(receiver.get(), adaptive);
    (code, receiver)
}

/// How often each NACK leaves.
#[unsafe(no_mangle)]
pub unsafe extern "C" fn gozdrit_set_nack_copies(receiver: *mut ReceiverBlock, copies: u8) -> i32
    ghost before: { Option (Handle Receiver) }
    requires* { sem 𝓛 (value_lies_at ReceiverRow receiver before) }
    ensures* { ∃ₛ (λ (after : Option (Handle Receiver)).
        sem 𝓛 (value_lies_at ReceiverRow receiver after)
        ∗ ⌜ CopiesFor copies before result after ⌝) }
{
    copies_lent(
        Lent {
            at: receiver as *mut ReceiverHandle,
        },
        copies,
    )
    .0
}

fn copies_lent(mut receiver: Lent<ReceiverHandle>, copies: u8) -> (i32, Lent<ReceiverHandle>)
    ensures { (result.1.at ≡ receiver.at)
        × CopiesFor copies receiver.value result.0 result.1.value }
{
    if receiver.is_null() {
        return (NULL, receiver);
    }
    let code = set_copies(receiver.get(), copies);
    (code, receiver)
}

/// Whether what leaves as NACKs is earned by what comes.
#[unsafe(no_mangle)]
pub unsafe extern "C" fn gozdrit_set_nack_budget(receiver: *mut ReceiverBlock, earned: u8) -> i32
    ghost before: { Option (Handle Receiver) }
    requires* { sem 𝓛 (value_lies_at ReceiverRow receiver before) }
    ensures* { ∃ₛ (λ (after : Option (Handle Receiver)).
        sem 𝓛 (value_lies_at ReceiverRow receiver after)
        ∗ ⌜ BudgetFor earned before result after ⌝) }
{
    budget_lent(
        Lent {
            at: receiver as *mut ReceiverHandle,
        },
        earned,
    )
    .0
}

fn budget_lent(mut receiver: Lent<ReceiverHandle>, earned: u8) -> (i32, Lent<ReceiverHandle>)
    ensures { (result.1.at ≡ receiver.at)
        × BudgetFor earned receiver.value result.0 result.1.value }
{
    if receiver.is_null() {
        return (NULL, receiver);
    }
    let code = set_budget(receiver.get(), earned);
    (code, receiver)
}
