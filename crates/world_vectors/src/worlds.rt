//! What a world has of a packet, the laws, and the limits of a configuration.

use crate::sessions::config;
use arrayvec::ArrayVec;
use places::Place;
use receiver::{Played, Taken};
use rtpwire::{Content, Datagram, Session};
use sender::SendFault;
use std::alloc::Global;
use std::test::Fail;
use stores::{ListHistory, ListWindow};
use world::*;

fn content() -> Content {
    let mut payload = ArrayVec::new();
    let _ = payload.try_push(0xaa);
    Content {
        payload,
        timestamp: 100,
        marker: true,
        sources: ArrayVec::new(),
        extension: None,
    }
}

/// The world in which a content is sent, delivered and played.
fn ran(alloc: Global, config: &Config) -> Option<World<ListHistory, ListWindow>> {
    let events = [
        Event::Send(content(), 0),
        Event::Deliver(0, 0),
        Event::Play(0),
    ];
    run(alloc, config, &events).ok()
}

/// Its log.
fn logged(place: Place) -> [Entry; 3] {
    [
        Entry::Sent {
            place,
            index: 0,
            content: content(),
        },
        Entry::Delivered {
            index: 0,
            label: Label::Media(place),
            now: 0,
            answer: Answer::Taken(Taken { place, overrun: 0 }),
        },
        Entry::Played {
            now: 0,
            played: Played::Packet(place, content()),
        },
    ]
}

/// Whether a wire has this media packet alone.
fn carries(wire: &[(Label, Datagram)], place: Place, octets: &[u8]) -> bool {
    match wire {
        [(label, datagram)] => *label == Label::Media(place) && datagram.as_slice() == octets,
        _ => false,
    }
}

#[test]
fn the_first_path(rt: HostRuntime) -> Result<(), Fail> {
    let config = config("config 1 5 8 8 100 20 3 2")?;
    let world = ran(rt.alloc(), &config).ok_or("memory is ample")?;
    let place = Place::new(65537).ok_or("a place")?;
    assert!(rt; world.log() == logged(place).as_slice());
    let octets = b"\x80\xe0\x00\x01\x00\x00\x00\x64\x11\x11\x11\x11\xaa";
    assert!(rt; carries(world.wire(), place, octets));
    Ok(())
}

/// The laws, which run nothing.
#[test]
fn the_laws_of_worlds() {
    answers_are_determined();
    logs_are_good();
    logs_are_in_order();
    plays_are_determined();
    runs_are_determined();
    wires_are_faithful();
}

/// The number of the refusal that no session shows.
#[test]
fn an_exhausted_sender(rt: HostRuntime) {
    assert_eq!(rt; SendFault::Exhausted.number(), 45);
}

#[test]
fn limits(rt: HostRuntime) -> Result<(), Fail> {
    let session = Session::new(1, 96, 2, 97, 3)?;
    for (history, window, retry, asks, repeats) in [
        (0, 8, 20, 3, 2),
        (8193, 8, 20, 3, 2),
        (8, 0, 20, 3, 2),
        (8, 8193, 20, 3, 2),
        (8, 8, 0, 3, 2),
        (8, 8, 20, 0, 2),
        (8, 8, 20, 3, 0),
    ] {
        let refused = Config::new(session, 0, 0, history, window, 0, retry, asks, repeats);
        assert_eq!(rt; refused.map_err(|fault| fault.number()).err(), Some(53));
    }
    assert!(rt; Config::new(session, 0, 0, 8192, 1, 0, 1, 1, 1).is_ok());
    Ok(())
}
