//! How what ends answer is told to a digest: each field of it.
use crate::digest::Digest;
use endpoint::{Heard, Kind, KindCounts, ReceiveCounts, ResendCounts, SendCounts, Told};
use fbwire::FeedbackFault;
use receiver::{ReceiveFault, Taken};
use rtpwire::Content;
use sender::Shared;

/// Adds what a datagram was to a receiving endpoint.
pub fn add_heard(digest: &mut Digest, answer: &Result<Heard, ReceiveFault>, kind: Kind) {
    match answer {
        Ok(Heard::Control) => digest.add(1),
        Ok(Heard::Media(taken)) => add_taken(digest, 2, taken),
        Ok(Heard::Repair(taken)) => add_taken(digest, 3, taken),
        Ok(Heard::HeldBack(held)) => {
            digest.add(4);
            digest.add(u64::from(*held));
        }
        Ok(Heard::Restarted(restart)) => {
            add_taken(digest, 5, &restart.taken);
            digest.add(u64::from(restart.held));
            digest.add(restart.abandoned);
        }
        Err(fault) => digest.add(1000 + u64::from(fault.number())),
    }
    digest.add(match kind {
        Kind::Padding => 1,
        Kind::Unasked => 2,
        Kind::Usual => 3,
    });
}

/// Adds what taking a packet did, and as what it was taken.
pub fn add_taken(digest: &mut Digest, what: u64, taken: &Taken) {
    digest.add(what);
    digest.add(taken.place.value());
    digest.add(taken.overrun);
}

/// Adds what a packet carries.
pub fn add_content(digest: &mut Digest, content: &Content) {
    digest.add(u64::from(content.timestamp) << 1 | u64::from(content.marker));
    digest.add(content.sources.len() as u64);
    for source in content.sources.as_slice() {
        digest.add(u64::from(*source));
    }
    match &content.extension {
        Some(extension) => {
            digest.add(u64::from(extension.profile) << 16 | extension.words.len() as u64);
            for word in extension.words.as_slice() {
                digest.add(u64::from(*word));
            }
        }
        None => digest.add(u64::MAX),
    }
    digest.add_octets(content.payload.as_slice());
}

/// Adds what a datagram was to a sending endpoint.
pub fn add_told(digest: &mut Digest, answer: &Result<Told, FeedbackFault>) {
    match answer {
        Ok(Told::Media) => digest.add(1),
        Ok(Told::Reports) => digest.add(2),
        Ok(Told::Feedback(shared)) => add_shared(digest, shared),
        Err(fault) => digest.add(1000 + u64::from(fault.number())),
    }
}

/// Adds what feedback did.
fn add_shared(digest: &mut Digest, shared: &Shared) {
    digest.add(3);
    digest.add(u64::from(shared.places));
    digest.add(u64::from(shared.nacks));
    digest.add(u64::from(shared.others));
    digest.add(u64::from(shared.numbers));
    digest.add(u64::from(shared.unknown));
    digest.add(u64::from(shared.exhausted));
}

/// Adds what a receiving endpoint counted.
pub fn add_received(digest: &mut Digest, counts: &ReceiveCounts, kinds: &KindCounts) {
    for count in [
        counts.media,
        counts.retransmissions,
        counts.held_back,
        counts.restarts,
        counts.control,
        counts.duplicate,
        counts.late,
        counts.far,
        counts.refused,
        counts.overrun,
        counts.abandoned,
        counts.played,
        counts.gaps,
        counts.asks,
        counts.places_asked,
        kinds.padding,
        kinds.unasked,
        kinds.late,
        kinds.duplicate,
        kinds.refused,
    ] {
        digest.add(count);
    }
}

/// Adds what a sending endpoint counted, and what it passed over.
pub fn add_sent(digest: &mut Digest, counts: &SendCounts, passed: &ResendCounts) {
    for count in [
        counts.sent,
        counts.octets,
        counts.retransmissions,
        counts.nacks,
        counts.others,
        counts.numbers,
        counts.unknown,
        counts.exhausted,
        counts.media,
        counts.reports,
        counts.refused,
    ] {
        digest.add(count);
    }
    add_passed(digest, passed);
}

/// Adds what was passed over.
pub fn add_passed(digest: &mut Digest, passed: &ResendCounts) {
    digest.add(passed.early);
    digest.add(passed.expired);
}
