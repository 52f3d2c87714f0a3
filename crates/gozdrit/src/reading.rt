//! What C may ask of an end, which stays as it is.
ghost use Rattle.std.specs.Prelude.{◌≡◌, Some};
ghost use Rattle.gozdrit.specs.Ends.{Receiver};
ghost use Rattle.gozdrit.specs.Reading.{AnswersMissing, AnswersSsrc, AnswersNext, AnswersHighest, AnswersTimeout, AnswersReceiverTimes, AnswersReceiverCounts, AnswersProbeCounts, AnswersSenderCounts};

use crate::answers::{KnownSequence, KnownSsrc, KnownTimeout, KnownTimes};
use crate::code::{BAD_SIZE, NO_END, OK};
use crate::counts::{ProbeCounts, ReceiverCounts, SenderCounts};
use crate::receiving::ReceiverHandle;
use crate::sending::SenderHandle;
use crate::sizes::{PROBE_COUNTS, RECEIVE_COUNTS, SEND_COUNTS, TIMES};
use stores::Window;

pub(crate) fn missing(receiver: &mut ReceiverHandle, count: &mut usize) -> i32
    ensures answers { AnswersMissing receiver.old.inside count.old result receiver.new.inside count.new }
    ensures same { receiver.new ≡ receiver.old }
{
    if !receiver.is_held() {
        return NO_END;
    }
    *count = receiver.lend().endpoint.endpoint().core().missing();
    OK
}

pub(crate) fn rtx_source(receiver: &mut ReceiverHandle, source: &mut KnownSsrc) -> i32
    ensures answers { AnswersSsrc receiver.old.inside source.old result receiver.new.inside source.new }
    ensures same { receiver.new ≡ receiver.old }
{
    if !receiver.is_held() {
        return NO_END;
    }
    source.tell(receiver.lend().endpoint.endpoint().core().repair_source());
    OK
}

pub(crate) fn next_sequence(receiver: &mut ReceiverHandle, sequence: &mut KnownSequence) -> i32
    ensures answers { AnswersNext receiver.old.inside sequence.old result receiver.new.inside sequence.new }
    ensures same { receiver.new ≡ receiver.old }
{
    if !receiver.is_held() {
        return NO_END;
    }
    sequence.tell(receiver.lend().endpoint.endpoint().core().window().cursor());
    OK
}

pub(crate) fn highest_sequence(receiver: &mut ReceiverHandle, sequence: &mut KnownSequence) -> i32
    ensures answers { AnswersHighest receiver.old.inside sequence.old result receiver.new.inside sequence.new }
    ensures same { receiver.new ≡ receiver.old }
{
    if !receiver.is_held() {
        return NO_END;
    }
    let highest = receiver
        .lend()
        .endpoint
        .endpoint()
        .core()
        .window()
        .highest();
    sequence.tell(highest.map(|highest| highest.value()));
    OK
}

pub(crate) fn next_moment(receiver: &mut ReceiverHandle, moment: &mut KnownTimeout) -> i32
    ensures answers { AnswersTimeout receiver.old.inside moment.old result receiver.new.inside moment.new }
    ensures same { receiver.new ≡ receiver.old }
{
    if !receiver.is_held() {
        return NO_END;
    }
    moment.tell(receiver.lend().next_moment());
    OK
}

pub(crate) fn receiver_times(receiver: &mut ReceiverHandle, times: &mut KnownTimes) -> i32
    ensures answers { AnswersReceiverTimes receiver.old.inside times.old result receiver.new.inside times.new }
    ensures same { receiver.new ≡ receiver.old }
{
    if !receiver.is_held() {
        return NO_END;
    }
    if times.size < TIMES {
        return BAD_SIZE;
    }
    let inside = receiver.lend();
    let config = inside.endpoint.endpoint().core().config();
    times.tell(&config, inside.meter.path().trip.smoothed());
    OK
}

pub(crate) fn receiver_counts(receiver: &mut ReceiverHandle, counts: &mut ReceiverCounts) -> i32
    ensures answers { AnswersReceiverCounts receiver.old.inside counts.old result receiver.new.inside counts.new }
    ensures same { receiver.new ≡ receiver.old }
{
    if !receiver.is_held() {
        return NO_END;
    }
    if counts.size < RECEIVE_COUNTS {
        return BAD_SIZE;
    }
    *counts = ReceiverCounts::of(counts.size, receiver.lend().endpoint.endpoint().counts());
    OK
}

/// How many packets jumps passed over, of a receiver.
pub(crate) fn skipped(receiver: &mut ReceiverHandle) -> u64
    ensures told { (r : Receiver) → receiver.old.inside ≡ Some r → result ≡ r.endpoint.endpoint.counts.skipped }
    ensures same { receiver.new ≡ receiver.old }
{
    if !receiver.is_held() {
        return 0;
    }
    receiver.lend().endpoint.endpoint().counts().skipped
}

pub(crate) fn probe_counts(receiver: &mut ReceiverHandle, counts: &mut ProbeCounts) -> i32
    ensures answers { AnswersProbeCounts receiver.old.inside counts.old result receiver.new.inside counts.new }
    ensures same { receiver.new ≡ receiver.old }
{
    if !receiver.is_held() {
        return NO_END;
    }
    if counts.size < PROBE_COUNTS {
        return BAD_SIZE;
    }
    *counts = ProbeCounts::of(counts.size, receiver.lend().endpoint.kinds());
    OK
}

pub(crate) fn sender_counts(sender: &mut SenderHandle, counts: &mut SenderCounts) -> i32
    ensures answers { AnswersSenderCounts sender.old.inside counts.old result sender.new.inside counts.new }
    ensures same { sender.new ≡ sender.old }
{
    if !sender.is_held() {
        return NO_END;
    }
    if counts.size < SEND_COUNTS {
        return BAD_SIZE;
    }
    let endpoint = &sender.lend().endpoint;
    *counts = SenderCounts::of(counts.size, endpoint.endpoint().counts(), endpoint.passed());
    OK
}
