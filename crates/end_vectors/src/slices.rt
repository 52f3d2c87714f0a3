//! Packets that both ends write to the front of slices: one that is an octet too short is refused, and what lies behind a
//! packet stays.
use crate::session::session;
use receiver::{Receiver, ReceiverConfig};
use rtpwire::{Carried, TooShort, Words};
use sender::{Sender, SenderConfig};
use std::alloc::Global;
use std::test::Fail;
use stores::{History, RingHistory, RingWindow, Window};

/// A content of the one octet aa, with a marker.
fn content() -> Result<Carried<'static>, Fail> {
    match Carried::of_fields(b"\xaa", 7, true, Words::Numbers(&[]), None) {
        Ok(content) => Ok(content),
        Err(_) => Err(Fail::from("a content that is held")),
    }
}

/// A sender that sent nothing, of the first numbers 1 and 5.
fn sender(alloc: Global) -> Result<Sender<RingHistory>, Fail> {
    let (Ok(config), Ok(history)) = (
        SenderConfig::new(session()?, 1, 5, 3),
        RingHistory::new(alloc, 1),
    ) else {
        return Err(Fail::from("a sender"));
    };
    Ok(Sender::new(config, history))
}

/// A packet of 13 octets.
#[test]
fn packets_in_slices(rt: HostRuntime) -> Result<(), Fail> {
    let mut sender = sender(rt.alloc())?;
    let content = content()?;
    let mut out = [0xee; 14];
    assert!(rt;
        matches!(
            sender.send_into(&mut out[..12], &content, 0),
            Err(TooShort { needed: 13 })
        )
    );
    assert!(rt;
        matches!(
            sender.send_into(&mut out[..12], &content, 2),
            Err(TooShort { needed: 15 })
        )
    );
    assert!(rt; matches!(sender.next_repair_into(&mut out[..0]), Ok(None)));
    assert_eq!(rt; out, [0xee; 14]);
    match sender.send_into(&mut out, &content, 0) {
        Ok(Ok((place, len))) => assert_eq!(rt; (place.value(), len), (65537, 13)),
        _ => return Err(Fail::from("a packet")),
    }
    assert_eq!(rt;
        &out,
        b"\x80\xe0\x00\x01\x00\x00\x00\x07\x11\x11\x11\x11\xaa\xee"
    );
    Ok(())
}

/// Its retransmission, which has 15.
#[test]
fn retransmissions_in_slices(rt: HostRuntime) -> Result<(), Fail> {
    let mut sender = sender(rt.alloc())?;
    let mut out = [0xee; 16];
    assert!(rt; matches!(sender.send_into(&mut out[..13], &content()?, 0), Ok(Ok(_))));
    let nack = b"\x81\xcd\x00\x03\x33\x33\x33\x33\x11\x11\x11\x11\x00\x01\x00\x00";
    assert!(rt; sender.on_feedback(nack).is_ok());
    let mut out = [0xee; 16];
    assert!(rt;
        matches!(
            sender.next_repair_into(&mut out[..14]),
            Err(TooShort { needed: 15 })
        )
    );
    match sender.next_repair_into(&mut out) {
        Ok(Some((place, len))) => assert_eq!(rt; (place.value(), len), (65537, 15)),
        _ => return Err(Fail::from("a retransmission")),
    }
    assert_eq!(rt;
        &out,
        b"\x80\xe1\x00\x05\x00\x00\x00\x07\x22\x22\x22\x22\x00\x01\xaa\xee"
    );
    assert!(rt; matches!(sender.next_repair_into(&mut out), Ok(None)));
    Ok(())
}

/// A receiver of four places, each of which is asked for once.
fn receiver(alloc: Global) -> Result<Receiver<RingWindow>, Fail> {
    let (Ok(config), Ok(window)) = (
        ReceiverConfig::new(session()?, 100, 20, 1),
        RingWindow::new(alloc, 4),
    ) else {
        return Err(Fail::from("a receiver"));
    };
    Ok(Receiver::new(config, window))
}

/// What an ask at a moment writes to the front of a slice of this length, or what it would need, and the octets of a room of 17 that
/// begins with the slice.
type Asked = (Result<Option<usize>, usize>, [u8; 17]);

fn asked<W: Window>(receiver: &mut Receiver<W>, length: usize, now: u64) -> Asked {
    let mut out = [0xee; 17];
    let length = length.min(17);
    let told = match receiver.ask_into(&mut out[..length], now) {
        Ok(len) => Ok(len),
        Err(TooShort { needed }) => Err(needed),
    };
    (told, out)
}

/// What a receiver asks before anything came; and at three moments once two packets came that have one between them.
fn asks(alloc: Global) -> Result<(Asked, [Asked; 3]), Fail> {
    let mut receiver = receiver(alloc)?;
    let before = asked(&mut receiver, 0, 0);
    for octets in [
        b"\x80\x60\x00\x01\x00\x00\x00\x00\x11\x11\x11\x11",
        b"\x80\x60\x00\x03\x00\x00\x00\x00\x11\x11\x11\x11",
    ] {
        if receiver.on_media(octets, 0).is_err() {
            return Err(Fail::from("the packet is taken"));
        }
    }
    let behind = [
        asked(&mut receiver, 15, 0),
        asked(&mut receiver, 17, 0),
        asked(&mut receiver, 17, 1000),
    ];
    Ok((before, behind))
}

/// A NACK of one pair has 16 octets. What is refused was not asked for.
#[test]
fn asks_in_slices(rt: HostRuntime) -> Result<(), Fail> {
    const UNTOUCHED: [u8; 17] = [0xee; 17];
    const NACK: [u8; 17] = *b"\x81\xcd\x00\x03\x33\x33\x33\x33\x11\x11\x11\x11\x00\x02\x00\x00\xee";
    let (before, behind) = asks(rt.alloc())?;
    assert!(rt; before == (Ok(None), UNTOUCHED));
    assert!(rt;
        behind
            == [
                (Err(16), UNTOUCHED),
                (Ok(Some(16)), NACK),
                (Ok(None), UNTOUCHED)
            ]
    );
    Ok(())
}
