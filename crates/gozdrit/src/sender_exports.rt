//! What C calls of a sender.
//!
//! Each export hands its pointers to a function that tests them for null, and then makes the call. What it answers is
//! defined in `specs/Lent.antt`, and said for C in `include/gozdrit.h`, with its refusals.
ghost use Rattle.std.specs.Prelude.{◌≡◌, ℕ, List, Option};
ghost use Rattle.std.specs.Borrow.{sem, u8, u32};
ghost use Rattle.gozdrit.specs.Lying.{sized_lies_at, slice_lies_at, value_lies_at};
ghost use Rattle.gozdrit.specs.Sizes.{HasRest};
ghost use Rattle.gozdrit.specs.declared.sizes.TheConstants.{SENDER_CONFIG};
ghost use Rattle.gozdrit.specs.Ends.{Sender, SenderRow};
ghost use Rattle.gozdrit.specs.declared.handle.Handle.{Handle};
ghost use Rattle.gozdrit.specs.contracts.header.Header.{the_row as header_row};
ghost use Rattle.gozdrit.specs.declared.header.Header.{Header};
ghost use Rattle.gozdrit.specs.contracts.config.SenderFields.{the_row as sender_config_row};
ghost use Rattle.gozdrit.specs.declared.config.SenderFields.{SenderFields};
ghost use Rattle.gozdrit.specs.contracts.answers.SentPacket.{the_row as sent_row};
ghost use Rattle.gozdrit.specs.declared.answers.SentPacket.{SentPacket};
ghost use Rattle.gozdrit.specs.contracts.heard.OutcomeFields.{the_row as told_row};
ghost use Rattle.gozdrit.specs.declared.heard.OutcomeFields.{OutcomeFields};
ghost use Rattle.gozdrit.specs.Lent.{SenderNewFor, SenderFreeFor, SendFor, FeedbackFor, RetransmitFor, MarkLastFor, SenderTimeFor, AdaptFor};

use crate::answers::SentPacket;
use crate::blocks::SenderBlock;
use crate::code::NULL;
use crate::config::SenderFields;
use crate::header::Header;
use crate::heard::OutcomeFields;
use crate::lent::{Lent, LentSlice};
use crate::rest::says_known;
use crate::sending::{
    SenderHandle, adapt, feedback, mark_last, retransmit, send, sender_free, sender_new, tell_time,
};
use crate::sized::LentSized;
use crate::sizes::SENDER_CONFIG;
use std::alloc::Global;

/// Makes a sender that sent nothing, in a handle that holds no end: an endpoint over a ring history, as `config` says.
#[unsafe(no_mangle)]
pub unsafe extern "C" fn gozdrit_sender_new(
    alloc: Global,
    config: *mut SenderFields,
    sender: *mut SenderBlock,
) -> i32
    ghost before: { Option SenderFields × List ℕ × Option (Handle Sender) }
    requires rest { HasRest (λ fields. fields.size) SENDER_CONFIG before.0 before.1 }
    requires* lies { sem 𝓛 (sized_lies_at sender_config_row config before.0 before.1)
        ∗ sem 𝓛 (value_lies_at SenderRow sender before.2) }
    ensures* { ∃ₛ (λ (after : Option SenderFields × List ℕ × Option (Handle Sender)).
        sem 𝓛 (sized_lies_at sender_config_row config after.0 after.1)
        ∗ sem 𝓛 (value_lies_at SenderRow sender after.2)
        ∗ ⌜ SenderNewFor before.0 before.1 before.2 result after.0 after.1 after.2 ⌝) }
{
    sender_new_lent(
        alloc,
        LentSized { at: config },
        Lent {
            at: sender as *mut SenderHandle,
        },
    )
    .0
}

fn sender_new_lent(
    alloc: Global,
    mut config: LentSized<SenderFields>,
    mut sender: Lent<SenderHandle>,
) -> (i32, LentSized<SenderFields>, Lent<SenderHandle>)
    requires { HasRest (λ fields. fields.size) SENDER_CONFIG config.value config.rest }
    ensures { ((result.1.at ≡ config.at) × (result.2.at ≡ sender.at))
        × SenderNewFor config.value config.rest sender.value result.0 result.1.value result.1.rest result.2.value }
{
    if config.is_null() || sender.is_null() {
        return (NULL, config, sender);
    }
    let size = config.get().size;
    let is_known = says_known(&mut config, size, SENDER_CONFIG);
    let code = sender_new(alloc, config.get(), is_known, sender.get());
    (code, config, sender)
}

/// Gives a sender's memory back. The handle then holds no end.
#[unsafe(no_mangle)]
pub unsafe extern "C" fn gozdrit_sender_free(alloc: Global, sender: *mut SenderBlock) -> i32
    ghost before: { Option (Handle Sender) }
    requires* { sem 𝓛 (value_lies_at SenderRow sender before) }
    ensures* { ∃ₛ (λ (after : Option (Handle Sender)).
        sem 𝓛 (value_lies_at SenderRow sender after)
        ∗ ⌜ SenderFreeFor before result after ⌝) }
{
    sender_free_lent(
        alloc,
        Lent {
            at: sender as *mut SenderHandle,
        },
    )
    .0
}

fn sender_free_lent(alloc: Global, mut sender: Lent<SenderHandle>) -> (i32, Lent<SenderHandle>)
    ensures { (result.1.at ≡ sender.at)
        × SenderFreeFor sender.value result.0 result.1.value }
{
    if sender.is_null() {
        return (NULL, sender);
    }
    let code = sender_free(alloc, sender.get());
    (code, sender)
}

/// `TimelyEndpoint::send_into`, at the moment that was told last, of the content that header and payload say. `sent` is told its number
/// and the datagram's length, and the datagram stands at the front of `out`.
#[unsafe(no_mangle)]
pub unsafe extern "C" fn gozdrit_send(
    sender: *mut SenderBlock,
    header: *mut Header,
    payload: *mut u8,
    length: usize,
    padding: u8,
    sent: *mut SentPacket,
    out: *mut u8,
    room: usize,
) -> i32
    ghost before: { Option (Handle Sender) × Option Header × Option (List ℕ) × Option SentPacket × Option (List ℕ) }
    requires* { sem 𝓛 (value_lies_at SenderRow sender before.0)
        ∗ sem 𝓛 (value_lies_at header_row header before.1)
        ∗ sem 𝓛 (slice_lies_at u8 payload length before.2)
        ∗ sem 𝓛 (value_lies_at sent_row sent before.3)
        ∗ sem 𝓛 (slice_lies_at u8 out room before.4) }
    ensures* { ∃ₛ (λ (after : Option (Handle Sender) × Option Header × Option (List ℕ) × Option SentPacket × Option (List ℕ)).
        sem 𝓛 (value_lies_at SenderRow sender after.0)
        ∗ sem 𝓛 (value_lies_at header_row header after.1)
        ∗ sem 𝓛 (slice_lies_at u8 payload length after.2)
        ∗ sem 𝓛 (value_lies_at sent_row sent after.3)
        ∗ sem 𝓛 (slice_lies_at u8 out room after.4)
        ∗ ⌜ SendFor padding before.0 before.1 before.2 before.3 before.4 result after.0 after.1 after.2 after.3 after.4 ⌝) }
{
    send_lent(
        Lent {
            at: sender as *mut SenderHandle,
        },
        Lent { at: header },
        LentSlice {
            at: payload,
            len: length,
        },
        padding,
        Lent { at: sent },
        LentSlice { at: out, len: room },
    )
    .0
}

fn send_lent(
    mut sender: Lent<SenderHandle>,
    mut header: Lent<Header>,
    mut payload: LentSlice<u8>,
    padding: u8,
    mut sent: Lent<SentPacket>,
    mut out: LentSlice<u8>,
) -> (
    i32,
    Lent<SenderHandle>,
    Lent<Header>,
    LentSlice<u8>,
    Lent<SentPacket>,
    LentSlice<u8>,
)
    ensures { ((result.1.at ≡ sender.at) × (result.2.at ≡ header.at) × (result.3.at ≡ payload.at) × (result.3.len ≡ payload.len) × (result.4.at ≡ sent.at) × (result.5.at ≡ out.at) × (result.5.len ≡ out.len))
        × SendFor padding sender.value header.value payload.items sent.value out.items result.0 result.1.value result.2.value result.3.items result.4.value result.5.items }
{
    if sender.is_null()
        || header.is_null()
        || payload.is_missing()
        || sent.is_null()
        || out.is_missing()
    {
        return (NULL, sender, header, payload, sent, out);
    }
    let code = send(
        sender.get(),
        header.get(),
        payload.get(),
        padding,
        sent.get(),
        out.get(),
    );
    (code, sender, header, payload, sent, out)
}

/// `TimelyEndpoint::on_datagram`. `outcome` is told what the datagram was.
#[unsafe(no_mangle)]
pub unsafe extern "C" fn gozdrit_feedback(
    sender: *mut SenderBlock,
    octets: *mut u8,
    length: usize,
    outcome: *mut OutcomeFields,
) -> i32
    ghost before: { Option (Handle Sender) × Option (List ℕ) × Option OutcomeFields }
    requires* { sem 𝓛 (value_lies_at SenderRow sender before.0)
        ∗ sem 𝓛 (slice_lies_at u8 octets length before.1)
        ∗ sem 𝓛 (value_lies_at told_row outcome before.2) }
    ensures* { ∃ₛ (λ (after : Option (Handle Sender) × Option (List ℕ) × Option OutcomeFields).
        sem 𝓛 (value_lies_at SenderRow sender after.0)
        ∗ sem 𝓛 (slice_lies_at u8 octets length after.1)
        ∗ sem 𝓛 (value_lies_at told_row outcome after.2)
        ∗ ⌜ FeedbackFor before.0 before.1 before.2 result after.0 after.1 after.2 ⌝) }
{
    feedback_lent(
        Lent {
            at: sender as *mut SenderHandle,
        },
        LentSlice {
            at: octets,
            len: length,
        },
        Lent { at: outcome },
    )
    .0
}

fn feedback_lent(
    mut sender: Lent<SenderHandle>,
    mut octets: LentSlice<u8>,
    mut outcome: Lent<OutcomeFields>,
) -> (i32, Lent<SenderHandle>, LentSlice<u8>, Lent<OutcomeFields>)
    ensures { ((result.1.at ≡ sender.at) × (result.2.at ≡ octets.at) × (result.2.len ≡ octets.len) × (result.3.at ≡ outcome.at))
        × FeedbackFor sender.value octets.items outcome.value result.0 result.1.value result.2.items result.3.value }
{
    if sender.is_null() || octets.is_missing() || outcome.is_null() {
        return (NULL, sender, octets, outcome);
    }
    let code = feedback(sender.get(), octets.get(), outcome.get());
    (code, sender, octets, outcome)
}

/// `TimelyEndpoint::retransmit_into`, at the moment that was told last, told as a send; where there is none, the length is 0.
#[unsafe(no_mangle)]
pub unsafe extern "C" fn gozdrit_retransmit(
    sender: *mut SenderBlock,
    sent: *mut SentPacket,
    out: *mut u8,
    room: usize,
) -> i32
    ghost before: { Option (Handle Sender) × Option SentPacket × Option (List ℕ) }
    requires* { sem 𝓛 (value_lies_at SenderRow sender before.0)
        ∗ sem 𝓛 (value_lies_at sent_row sent before.1)
        ∗ sem 𝓛 (slice_lies_at u8 out room before.2) }
    ensures* { ∃ₛ (λ (after : Option (Handle Sender) × Option SentPacket × Option (List ℕ)).
        sem 𝓛 (value_lies_at SenderRow sender after.0)
        ∗ sem 𝓛 (value_lies_at sent_row sent after.1)
        ∗ sem 𝓛 (slice_lies_at u8 out room after.2)
        ∗ ⌜ RetransmitFor before.0 before.1 before.2 result after.0 after.1 after.2 ⌝) }
{
    retransmit_lent(
        Lent {
            at: sender as *mut SenderHandle,
        },
        Lent { at: sent },
        LentSlice { at: out, len: room },
    )
    .0
}

fn retransmit_lent(
    mut sender: Lent<SenderHandle>,
    mut sent: Lent<SentPacket>,
    mut out: LentSlice<u8>,
) -> (i32, Lent<SenderHandle>, Lent<SentPacket>, LentSlice<u8>)
    ensures { ((result.1.at ≡ sender.at) × (result.2.at ≡ sent.at) × (result.3.at ≡ out.at) × (result.3.len ≡ out.len))
        × RetransmitFor sender.value sent.value out.items result.0 result.1.value result.2.value result.3.items }
{
    if sender.is_null() || sent.is_null() || out.is_missing() {
        return (NULL, sender, sent, out);
    }
    let code = retransmit(sender.get(), sent.get(), out.get());
    (code, sender, sent, out)
}

/// `TimelyEndpoint::mark_last`. `queued` is told how many packets are to be retransmitted that were not before.
#[unsafe(no_mangle)]
pub unsafe extern "C" fn gozdrit_tail_loss_probe(sender: *mut SenderBlock, queued: *mut u32) -> i32
    ghost before: { Option (Handle Sender) × Option ℕ }
    requires* { sem 𝓛 (value_lies_at SenderRow sender before.0)
        ∗ sem 𝓛 (value_lies_at u32 queued before.1) }
    ensures* { ∃ₛ (λ (after : Option (Handle Sender) × Option ℕ).
        sem 𝓛 (value_lies_at SenderRow sender after.0)
        ∗ sem 𝓛 (value_lies_at u32 queued after.1)
        ∗ ⌜ MarkLastFor before.0 before.1 result after.0 after.1 ⌝) }
{
    mark_last_lent(
        Lent {
            at: sender as *mut SenderHandle,
        },
        Lent { at: queued },
    )
    .0
}

fn mark_last_lent(
    mut sender: Lent<SenderHandle>,
    mut queued: Lent<u32>,
) -> (i32, Lent<SenderHandle>, Lent<u32>)
    ensures { ((result.1.at ≡ sender.at) × (result.2.at ≡ queued.at))
        × MarkLastFor sender.value queued.value result.0 result.1.value result.2.value }
{
    if sender.is_null() || queued.is_null() {
        return (NULL, sender, queued);
    }
    let code = mark_last(sender.get(), queued.get());
    (code, sender, queued)
}

/// Tells the moment of what follows, in milliseconds.
#[unsafe(no_mangle)]
pub unsafe extern "C" fn gozdrit_sender_set_time(sender: *mut SenderBlock, now: u64) -> i32
    ghost before: { Option (Handle Sender) }
    requires* { sem 𝓛 (value_lies_at SenderRow sender before) }
    ensures* { ∃ₛ (λ (after : Option (Handle Sender)).
        sem 𝓛 (value_lies_at SenderRow sender after)
        ∗ ⌜ SenderTimeFor now before result after ⌝) }
{
    sender_time_lent(
        Lent {
            at: sender as *mut SenderHandle,
        },
        now,
    )
    .0
}

fn sender_time_lent(mut sender: Lent<SenderHandle>, now: u64) -> (i32, Lent<SenderHandle>)
    ensures { (result.1.at ≡ sender.at)
        × SenderTimeFor now sender.value result.0 result.1.value }
{
    if sender.is_null() {
        return (NULL, sender);
    }
    let code = tell_time(sender.get(), now);
    (code, sender)
}

/// Whether the rule of what is retransmitted again follows what is measured of the path.
#[unsafe(no_mangle)]
pub unsafe extern "C" fn gozdrit_sender_set_adaptive(sender: *mut SenderBlock, adaptive: u8) -> i32
    ghost before: { Option (Handle Sender) }
    requires* { sem 𝓛 (value_lies_at SenderRow sender before) }
    ensures* { ∃ₛ (λ (after : Option (Handle Sender)).
        sem 𝓛 (value_lies_at SenderRow sender after)
        ∗ ⌜ AdaptFor adaptive before result after ⌝) }
{
    adapt_lent(
        Lent {
            at: sender as *mut SenderHandle,
        },
        adaptive,
    )
    .0
}

fn adapt_lent(mut sender: Lent<SenderHandle>, adaptive: u8) -> (i32, Lent<SenderHandle>)
    ensures { (result.1.at ≡ sender.at)
        × AdaptFor adaptive sender.value result.0 result.1.value }
{
    if sender.is_null() {
        return (NULL, sender);
    }
    let code = adapt(sender.get(), adaptive);
    (code, sender)
}
