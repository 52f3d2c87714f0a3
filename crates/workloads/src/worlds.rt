//! How what happened in a world is told to a digest.
use crate::digest::Digest;
use crate::telling::{add_content, add_taken};
use receiver::Played;
use rtpwire::Datagram;
use world::{Answer, End, Entry, Label};

/// Adds what a log tells.
pub fn add_log(digest: &mut Digest, log: &[Entry]) {
    for entry in log {
        add_entry(digest, entry);
    }
}

/// Adds what lies on a wire.
pub fn add_wire(digest: &mut Digest, wire: &[(Label, Datagram)]) {
    for (label, datagram) in wire {
        add_label(digest, label);
        digest.add_octets(datagram.as_slice());
    }
}

/// Adds what a datagram is. The pairs of feedback are in its octets.
fn add_label(digest: &mut Digest, label: &Label) {
    match label {
        Label::Media(place) => add_words(digest, [1, 0, place.value()]),
        Label::Repair(place) => add_words(digest, [2, 0, place.value()]),
        Label::Feedback(pairs) => add_words(digest, [3, 0, pairs.len() as u64]),
    }
}

/// Adds what a log tells of an event.
fn add_entry(digest: &mut Digest, entry: &Entry) {
    match entry {
        Entry::Sent {
            place,
            index,
            content,
        } => {
            add_words(digest, [1, place.value(), *index]);
            add_content(digest, content);
        }
        Entry::SendRefused(fault) => add_words(digest, [2, 0, u64::from(fault.number())]),
        Entry::Repaired { place, index } => add_words(digest, [3, place.value(), *index]),
        Entry::NoRepair => digest.add(4),
        Entry::Asked { index, now } => add_words(digest, [5, *index, *now]),
        Entry::NoAsk { now } => add_words(digest, [6, 0, *now]),
        Entry::Nothing => digest.add(7),
        Entry::Delivered {
            index,
            label,
            now,
            answer,
        } => {
            add_words(digest, [8, *index, *now]);
            add_label(digest, label);
            add_answer(digest, answer);
        }
        Entry::Injected { end, now, answer } => {
            add_words(digest, [9, u64::from(*end == End::Sender), *now]);
            add_answer(digest, answer);
        }
        Entry::Played { now, played } => {
            add_words(digest, [10, 0, *now]);
            add_played(digest, played);
        }
    }
}

/// Adds what an end answered to a datagram.
fn add_answer(digest: &mut Digest, answer: &Answer) {
    match answer {
        Answer::Taken(taken) => add_taken(digest, 1, taken),
        Answer::Refused(fault) => add_words(digest, [2, 0, u64::from(fault.number())]),
        Answer::Marked(marked) => add_words(digest, [3, 0, u64::from(marked.places)]),
        Answer::FeedbackRefused(fault) => add_words(digest, [4, 0, u64::from(fault.number())]),
    }
}

/// Adds what a play gave.
fn add_played(digest: &mut Digest, played: &Played) {
    match played {
        Played::Packet(place, content) => {
            add_words(digest, [1, 0, place.value()]);
            add_content(digest, content);
        }
        Played::Gap(place) => add_words(digest, [2, 0, place.value()]),
        Played::Wait => digest.add(3),
    }
}

/// Adds three numbers.
fn add_words(digest: &mut Digest, words: [u64; 3]) {
    for word in words {
        digest.add(word);
    }
}
