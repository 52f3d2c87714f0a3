//! What C asks of an end, which stays as it is.
//!
//! Each export hands its pointers to a function that tests them for null, and then makes the call. What it answers is
//! defined in `specs/Lent.antt`, and said for C in `include/gozdrit.h`, with its refusals.
ghost use Rattle.std.specs.Prelude.{◌≡◌, ℕ, List, Option};
ghost use Rattle.std.specs.Borrow.{sem, usize};
ghost use Rattle.gozdrit.specs.Lying.{sized_lies_at, value_lies_at};
ghost use Rattle.gozdrit.specs.Sizes.{HasRest};
ghost use Rattle.gozdrit.specs.declared.sizes.TheConstants.{RECEIVE_COUNTS};
ghost use Rattle.gozdrit.specs.Ends.{Receiver, ReceiverRow, Sender, SenderRow};
ghost use Rattle.gozdrit.specs.declared.handle.Handle.{Handle};
ghost use Rattle.gozdrit.specs.contracts.answers.KnownTimeout.{the_row as moment_row};
ghost use Rattle.gozdrit.specs.declared.answers.KnownTimeout.{KnownTimeout};
ghost use Rattle.gozdrit.specs.contracts.answers.KnownSequence.{the_row as sequence_row};
ghost use Rattle.gozdrit.specs.declared.answers.KnownSequence.{KnownSequence};
ghost use Rattle.gozdrit.specs.contracts.answers.KnownSsrc.{the_row as source_row};
ghost use Rattle.gozdrit.specs.declared.answers.KnownSsrc.{KnownSsrc};
ghost use Rattle.gozdrit.specs.contracts.answers.KnownTimes.{the_row as known_times_row};
ghost use Rattle.gozdrit.specs.declared.answers.KnownTimes.{KnownTimes};
ghost use Rattle.gozdrit.specs.contracts.counts.ReceiverCounts.{the_row as receiver_counts_row};
ghost use Rattle.gozdrit.specs.declared.counts.ReceiverCounts.{ReceiverCounts};
ghost use Rattle.gozdrit.specs.contracts.counts.ProbeCounts.{the_row as receiver_kinds_row};
ghost use Rattle.gozdrit.specs.declared.counts.ProbeCounts.{ProbeCounts};
ghost use Rattle.gozdrit.specs.contracts.counts.SenderCounts.{the_row as sender_counts_row};
ghost use Rattle.gozdrit.specs.declared.counts.SenderCounts.{SenderCounts};
ghost use Rattle.gozdrit.specs.Lent.{MissingFor, SsrcFor, NextFor, HighestFor, TimeoutFor, ReceiverTimesFor, ReceiverCountsFor, ProbeCountsFor, SenderCountsFor};

use crate::answers::{KnownSequence, KnownSsrc, KnownTimeout, KnownTimes};
use crate::blocks::{ReceiverBlock, SenderBlock};
use crate::code::{NULL, OK};
use crate::counts::{ProbeCounts, ReceiverCounts, SenderCounts};
use crate::lent::Lent;
use crate::reading::{
    highest_sequence, missing, next_moment, next_sequence, probe_counts, receiver_counts,
    receiver_times, rtx_source, sender_counts, skipped,
};
use crate::receiving::ReceiverHandle;
use crate::rest::tell_behind;
use crate::sending::SenderHandle;
use crate::sized::LentSized;
use crate::sizes::RECEIVE_COUNTS;

/// `Receiver::missing`: how many places are missing.
#[unsafe(no_mangle)]
pub unsafe extern "C" fn gozdrit_missing(receiver: *mut ReceiverBlock, count: *mut usize) -> i32
    ghost before: { Option (Handle Receiver) × Option ℕ }
    requires* { sem 𝓛 (value_lies_at ReceiverRow receiver before.0)
        ∗ sem 𝓛 (value_lies_at usize count before.1) }
    ensures* { ∃ₛ (λ (after : Option (Handle Receiver) × Option ℕ).
        sem 𝓛 (value_lies_at ReceiverRow receiver after.0)
        ∗ sem 𝓛 (value_lies_at usize count after.1)
        ∗ ⌜ MissingFor before.0 before.1 result after.0 after.1 ⌝) }
{
    missing_lent(
        Lent {
            at: receiver as *mut ReceiverHandle,
        },
        Lent { at: count },
    )
    .0
}

fn missing_lent(
    mut receiver: Lent<ReceiverHandle>,
    mut count: Lent<usize>,
) -> (i32, Lent<ReceiverHandle>, Lent<usize>)
    ensures { ((result.1.at ≡ receiver.at) × (result.2.at ≡ count.at))
        × MissingFor receiver.value count.value result.0 result.1.value result.2.value }
{
    if receiver.is_null() || count.is_null() {
        return (NULL, receiver, count);
    }
    let code = missing(receiver.get(), count.get());
    (code, receiver, count)
}

/// `Receiver::repair_source`: the SSRC of the retransmissions, where it is known.
#[unsafe(no_mangle)]
pub unsafe extern "C" fn gozdrit_rtx_ssrc(receiver: *mut ReceiverBlock, ssrc: *mut KnownSsrc) -> i32
    ghost before: { Option (Handle Receiver) × Option KnownSsrc }
    requires* { sem 𝓛 (value_lies_at ReceiverRow receiver before.0)
        ∗ sem 𝓛 (value_lies_at source_row ssrc before.1) }
    ensures* { ∃ₛ (λ (after : Option (Handle Receiver) × Option KnownSsrc).
        sem 𝓛 (value_lies_at ReceiverRow receiver after.0)
        ∗ sem 𝓛 (value_lies_at source_row ssrc after.1)
        ∗ ⌜ SsrcFor before.0 before.1 result after.0 after.1 ⌝) }
{
    rtx_source_lent(
        Lent {
            at: receiver as *mut ReceiverHandle,
        },
        Lent { at: ssrc },
    )
    .0
}

fn rtx_source_lent(
    mut receiver: Lent<ReceiverHandle>,
    mut ssrc: Lent<KnownSsrc>,
) -> (i32, Lent<ReceiverHandle>, Lent<KnownSsrc>)
    ensures { ((result.1.at ≡ receiver.at) × (result.2.at ≡ ssrc.at))
        × SsrcFor receiver.value ssrc.value result.0 result.1.value result.2.value }
{
    if receiver.is_null() || ssrc.is_null() {
        return (NULL, receiver, ssrc);
    }
    let code = rtx_source(receiver.get(), ssrc.get());
    (code, receiver, ssrc)
}

/// `Window::cursor` of the receiver: the next place to play, once there is one.
#[unsafe(no_mangle)]
pub unsafe extern "C" fn gozdrit_next_sequence(
    receiver: *mut ReceiverBlock,
    sequence: *mut KnownSequence,
) -> i32
    ghost before: { Option (Handle Receiver) × Option KnownSequence }
    requires* { sem 𝓛 (value_lies_at ReceiverRow receiver before.0)
        ∗ sem 𝓛 (value_lies_at sequence_row sequence before.1) }
    ensures* { ∃ₛ (λ (after : Option (Handle Receiver) × Option KnownSequence).
        sem 𝓛 (value_lies_at ReceiverRow receiver after.0)
        ∗ sem 𝓛 (value_lies_at sequence_row sequence after.1)
        ∗ ⌜ NextFor before.0 before.1 result after.0 after.1 ⌝) }
{
    next_sequence_lent(
        Lent {
            at: receiver as *mut ReceiverHandle,
        },
        Lent { at: sequence },
    )
    .0
}

fn next_sequence_lent(
    mut receiver: Lent<ReceiverHandle>,
    mut sequence: Lent<KnownSequence>,
) -> (i32, Lent<ReceiverHandle>, Lent<KnownSequence>)
    ensures { ((result.1.at ≡ receiver.at) × (result.2.at ≡ sequence.at))
        × NextFor receiver.value sequence.value result.0 result.1.value result.2.value }
{
    if receiver.is_null() || sequence.is_null() {
        return (NULL, receiver, sequence);
    }
    let code = next_sequence(receiver.get(), sequence.get());
    (code, receiver, sequence)
}

/// `Window::highest` of the receiver: the highest place that was taken, or the one before the first where it began and took none so
/// far, once there is one.
#[unsafe(no_mangle)]
pub unsafe extern "C" fn gozdrit_highest_sequence(
    receiver: *mut ReceiverBlock,
    sequence: *mut KnownSequence,
) -> i32
    ghost before: { Option (Handle Receiver) × Option KnownSequence }
    requires* { sem 𝓛 (value_lies_at ReceiverRow receiver before.0)
        ∗ sem 𝓛 (value_lies_at sequence_row sequence before.1) }
    ensures* { ∃ₛ (λ (after : Option (Handle Receiver) × Option KnownSequence).
        sem 𝓛 (value_lies_at ReceiverRow receiver after.0)
        ∗ sem 𝓛 (value_lies_at sequence_row sequence after.1)
        ∗ ⌜ HighestFor before.0 before.1 result after.0 after.1 ⌝) }
{
    highest_sequence_lent(
        Lent {
            at: receiver as *mut ReceiverHandle,
        },
        Lent { at: sequence },
    )
    .0
}

fn highest_sequence_lent(
    mut receiver: Lent<ReceiverHandle>,
    mut sequence: Lent<KnownSequence>,
) -> (i32, Lent<ReceiverHandle>, Lent<KnownSequence>)
    ensures { ((result.1.at ≡ receiver.at) × (result.2.at ≡ sequence.at))
        × HighestFor receiver.value sequence.value result.0 result.1.value result.2.value }
{
    if receiver.is_null() || sequence.is_null() {
        return (NULL, receiver, sequence);
    }
    let code = highest_sequence(receiver.get(), sequence.get());
    (code, receiver, sequence)
}

/// `Receiver::next_moment`: when to call again.
#[unsafe(no_mangle)]
pub unsafe extern "C" fn gozdrit_next_timeout(
    receiver: *mut ReceiverBlock,
    timeout: *mut KnownTimeout,
) -> i32
    ghost before: { Option (Handle Receiver) × Option KnownTimeout }
    requires* { sem 𝓛 (value_lies_at ReceiverRow receiver before.0)
        ∗ sem 𝓛 (value_lies_at moment_row timeout before.1) }
    ensures* { ∃ₛ (λ (after : Option (Handle Receiver) × Option KnownTimeout).
        sem 𝓛 (value_lies_at ReceiverRow receiver after.0)
        ∗ sem 𝓛 (value_lies_at moment_row timeout after.1)
        ∗ ⌜ TimeoutFor before.0 before.1 result after.0 after.1 ⌝) }
{
    next_moment_lent(
        Lent {
            at: receiver as *mut ReceiverHandle,
        },
        Lent { at: timeout },
    )
    .0
}

fn next_moment_lent(
    mut receiver: Lent<ReceiverHandle>,
    mut timeout: Lent<KnownTimeout>,
) -> (i32, Lent<ReceiverHandle>, Lent<KnownTimeout>)
    ensures { ((result.1.at ≡ receiver.at) × (result.2.at ≡ timeout.at))
        × TimeoutFor receiver.value timeout.value result.0 result.1.value result.2.value }
{
    if receiver.is_null() || timeout.is_null() {
        return (NULL, receiver, timeout);
    }
    let code = next_moment(receiver.get(), timeout.get());
    (code, receiver, timeout)
}

/// `ReceivingEndpoint::counts`. What version 2.0 did not have stands behind the fields that it had.
#[unsafe(no_mangle)]
pub unsafe extern "C" fn gozdrit_receiver_counts(
    receiver: *mut ReceiverBlock,
    counts: *mut ReceiverCounts,
) -> i32
    ghost before: { Option (Handle Receiver) × Option ReceiverCounts × List ℕ }
    requires rest { HasRest (λ told. told.size) RECEIVE_COUNTS before.1 before.2 }
    requires* lies { sem 𝓛 (value_lies_at ReceiverRow receiver before.0)
        ∗ sem 𝓛 (sized_lies_at receiver_counts_row counts before.1 before.2) }
    ensures* { ∃ₛ (λ (after : Option (Handle Receiver) × Option ReceiverCounts × List ℕ).
        sem 𝓛 (value_lies_at ReceiverRow receiver after.0)
        ∗ sem 𝓛 (sized_lies_at receiver_counts_row counts after.1 after.2)
        ∗ ⌜ ReceiverCountsFor before.0 before.1 before.2 result after.0 after.1 after.2 ⌝) }
{
    receiver_counts_lent(
        Lent {
            at: receiver as *mut ReceiverHandle,
        },
        LentSized { at: counts },
    )
    .0
}

fn receiver_counts_lent(
    mut receiver: Lent<ReceiverHandle>,
    mut counts: LentSized<ReceiverCounts>,
) -> (i32, Lent<ReceiverHandle>, LentSized<ReceiverCounts>)
    requires { HasRest (λ told. told.size) RECEIVE_COUNTS counts.value counts.rest }
    ensures { ((result.1.at ≡ receiver.at) × (result.2.at ≡ counts.at))
        × ReceiverCountsFor receiver.value counts.value counts.rest result.0 result.1.value result.2.value result.2.rest }
{
    if receiver.is_null() || counts.is_null() {
        return (NULL, receiver, counts);
    }
    let size = counts.get().size;
    let code = receiver_counts(receiver.get(), counts.get());
    if code == OK {
        let skipped = skipped(receiver.get());
        tell_behind(&mut counts, size, RECEIVE_COUNTS, skipped);
    }
    (code, receiver, counts)
}

/// The times of asks in force, and the round trip, where it was measured.
#[unsafe(no_mangle)]
pub unsafe extern "C" fn gozdrit_receiver_times(
    receiver: *mut ReceiverBlock,
    times: *mut KnownTimes,
) -> i32
    ghost before: { Option (Handle Receiver) × Option KnownTimes }
    requires* { sem 𝓛 (value_lies_at ReceiverRow receiver before.0)
        ∗ sem 𝓛 (value_lies_at known_times_row times before.1) }
    ensures* { ∃ₛ (λ (after : Option (Handle Receiver) × Option KnownTimes).
        sem 𝓛 (value_lies_at ReceiverRow receiver after.0)
        ∗ sem 𝓛 (value_lies_at known_times_row times after.1)
        ∗ ⌜ ReceiverTimesFor before.0 before.1 result after.0 after.1 ⌝) }
{
    receiver_times_lent(
        Lent {
            at: receiver as *mut ReceiverHandle,
        },
        Lent { at: times },
    )
    .0
}

fn receiver_times_lent(
    mut receiver: Lent<ReceiverHandle>,
    mut times: Lent<KnownTimes>,
) -> (i32, Lent<ReceiverHandle>, Lent<KnownTimes>)
    ensures { ((result.1.at ≡ receiver.at) × (result.2.at ≡ times.at))
        × ReceiverTimesFor receiver.value times.value result.0 result.1.value result.2.value }
{
    if receiver.is_null() || times.is_null() {
        return (NULL, receiver, times);
    }
    let code = receiver_times(receiver.get(), times.get());
    (code, receiver, times)
}

/// `AskingEndpoint::kinds`.
#[unsafe(no_mangle)]
pub unsafe extern "C" fn gozdrit_receiver_probe_counts(
    receiver: *mut ReceiverBlock,
    counts: *mut ProbeCounts,
) -> i32
    ghost before: { Option (Handle Receiver) × Option ProbeCounts }
    requires* { sem 𝓛 (value_lies_at ReceiverRow receiver before.0)
        ∗ sem 𝓛 (value_lies_at receiver_kinds_row counts before.1) }
    ensures* { ∃ₛ (λ (after : Option (Handle Receiver) × Option ProbeCounts).
        sem 𝓛 (value_lies_at ReceiverRow receiver after.0)
        ∗ sem 𝓛 (value_lies_at receiver_kinds_row counts after.1)
        ∗ ⌜ ProbeCountsFor before.0 before.1 result after.0 after.1 ⌝) }
{
    probe_counts_lent(
        Lent {
            at: receiver as *mut ReceiverHandle,
        },
        Lent { at: counts },
    )
    .0
}

fn probe_counts_lent(
    mut receiver: Lent<ReceiverHandle>,
    mut counts: Lent<ProbeCounts>,
) -> (i32, Lent<ReceiverHandle>, Lent<ProbeCounts>)
    ensures { ((result.1.at ≡ receiver.at) × (result.2.at ≡ counts.at))
        × ProbeCountsFor receiver.value counts.value result.0 result.1.value result.2.value }
{
    if receiver.is_null() || counts.is_null() {
        return (NULL, receiver, counts);
    }
    let code = probe_counts(receiver.get(), counts.get());
    (code, receiver, counts)
}

/// `SendingEndpoint::counts` and `TimelyEndpoint::passed`.
#[unsafe(no_mangle)]
pub unsafe extern "C" fn gozdrit_sender_counts(
    sender: *mut SenderBlock,
    counts: *mut SenderCounts,
) -> i32
    ghost before: { Option (Handle Sender) × Option SenderCounts }
    requires* { sem 𝓛 (value_lies_at SenderRow sender before.0)
        ∗ sem 𝓛 (value_lies_at sender_counts_row counts before.1) }
    ensures* { ∃ₛ (λ (after : Option (Handle Sender) × Option SenderCounts).
        sem 𝓛 (value_lies_at SenderRow sender after.0)
        ∗ sem 𝓛 (value_lies_at sender_counts_row counts after.1)
        ∗ ⌜ SenderCountsFor before.0 before.1 result after.0 after.1 ⌝) }
{
    sender_counts_lent(
        Lent {
            at: sender as *mut SenderHandle,
        },
        Lent { at: counts },
    )
    .0
}

fn sender_counts_lent(
    mut sender: Lent<SenderHandle>,
    mut counts: Lent<SenderCounts>,
) -> (i32, Lent<SenderHandle>, Lent<SenderCounts>)
    ensures { ((result.1.at ≡ sender.at) × (result.2.at ≡ counts.at))
        × SenderCountsFor sender.value counts.value result.0 result.1.value result.2.value }
{
    if sender.is_null() || counts.is_null() {
        return (NULL, sender, counts);
    }
    let code = sender_counts(sender.get(), counts.get());
    (code, sender, counts)
}
