//! How what a relay did is told to a digest.
use crate::digest::Digest;
use crate::telling::{add_heard, add_passed, add_told};
use relays::{Note, Side, Turn};
use rtpwire::Session;
use std::net::{IpAddr, SocketAddr};

/// Adds what a relay did at a moment, and what leaves because of it, short of its octets.
pub fn add_turn(digest: &mut Digest, turn: &Turn, now: u64) {
    digest.add(now);
    add_note(digest, &turn.note);
    match turn.leaves {
        Some(departure) => {
            add_address(digest, departure.side, departure.to);
            digest.add(departure.len as u64);
        }
        None => digest.add(u64::MAX),
    }
}

/// Adds what a relay tells of a turn.
fn add_note(digest: &mut Digest, note: &Note) {
    match note {
        Note::Sent(place) => add_pair(digest, 1, place.value()),
        Note::Unsent => digest.add(2),
        Note::Told(told) => {
            digest.add(3);
            add_told(digest, told);
        }
        Note::Stray => digest.add(4),
        Note::Retransmitted(place) => add_pair(digest, 5, place.value()),
        Note::PassedOver(passed) => {
            digest.add(6);
            add_passed(digest, passed);
        }
        Note::Marked(marked) => add_pair(digest, 7, u64::from(marked.places)),
        Note::Heard(answer, kind) => {
            digest.add(8);
            add_heard(digest, answer, *kind);
        }
        Note::Moved(from, answer, kind) => {
            add_address(digest, Side::Far, *from);
            add_heard(digest, answer, *kind);
        }
        Note::Timed(trip) => {
            digest.add(9);
            digest.add_some(*trip);
        }
        Note::Began(session, first, far) => {
            add_session(digest, session);
            digest.add(u64::from(*first));
            add_address(digest, Side::Far, *far);
        }
        Note::Played(place) => add_pair(digest, 10, place.value()),
        Note::Gap(place) => add_pair(digest, 11, place.value()),
        Note::Asked => digest.add(12),
        // The same NACK left a second time; or what the relays of the start could not note yet, over which this is laid.
        _ => digest.add(13),
    }
}

/// Adds what it was, and a number of it.
fn add_pair(digest: &mut Digest, what: u64, number: u64) {
    digest.add(what);
    digest.add(number);
}

/// Adds a side, and an address there.
pub fn add_address(digest: &mut Digest, side: Side, address: SocketAddr) {
    let side: u64 = match side {
        Side::Near => 1,
        Side::Far => 2,
    };
    digest.add(side << 16 | u64::from(address.port()));
    match address.ip() {
        IpAddr::V4(ip) => digest.add_octets(&ip.octets()),
        IpAddr::V6(ip) => digest.add_octets(&ip.octets()),
    }
}

/// Adds the streams of a session.
fn add_session(digest: &mut Digest, session: &Session) {
    digest.add(u64::from(session.media_ssrc()) << 8 | u64::from(session.media_type()));
    digest.add(u64::from(session.repair_ssrc()) << 8 | u64::from(session.repair_type()));
    digest.add(u64::from(session.receiver_ssrc()));
}
