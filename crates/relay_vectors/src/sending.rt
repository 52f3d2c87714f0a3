//! A relay before a network.
use crate::packets::Packet::{self, These};
use crate::script::{Passing, Script, local};
use endpoint::ResendRule;
use relays::Side::{Far, Near};
use relays::{Bounds, Pace, Rate, SendRelay, Stream, run};
use rtpwire::Session;
use sender::SenderConfig;
use std::alloc::Global;
use std::test::Fail;
use stores::RingHistory;

pub(crate) const APPLICATION: u16 = 4000;

pub(crate) const FAR: u16 = 6004;

const STRANGER: u16 = 6666;

/// Another application.
const OTHERS: u16 = 4001;

/// A relay of a session whose first number is 65535, for an application's stream, until so many packets were sent, by a rule of what is
/// retransmitted.
pub(crate) fn relay(
    alloc: Global,
    packets: u64,
    pace: Pace,
    rule: ResendRule,
) -> Result<SendRelay<RingHistory>, Fail> {
    let Ok(session) = Session::with_any_media_type(0x11111111, 33, 0x22222222, 127, 0x33333333)
    else {
        return Err(Fail::from("a good session"));
    };
    let Ok(config) = SenderConfig::new(session, 65535, 7, 3) else {
        return Err(Fail::from("good limits"));
    };
    let bounds = Bounds {
        packets: Some(packets),
        until: None,
    };
    let made = SendRelay::new(
        alloc,
        config,
        rule,
        64,
        local(FAR),
        Stream::new(0x0a0b0c0d),
        pace,
        bounds,
    );
    made.map_err(|_| Fail::from("memory is ample"))
}

/// What became of a relay. It is small, since whatever a test holds costs its proof.
#[derive(Clone, Copy)]
pub(crate) struct Told {
    /// Whether what left has what is wanted, each under the number beside it.
    pub has_left: bool,
    /// How many datagrams left.
    pub gone: usize,
    /// The moment of the end.
    now: u64,
    sent: u64,
    early: u64,
    pub expired: u64,
}

/// What becomes of a relay that runs by a script, from which these are wanted to leave.
fn runs(
    script: &mut Script,
    mut relay: SendRelay<RingHistory>,
    leaves: &[(usize, Passing)],
) -> Result<Told, Fail> {
    if run(script, &mut relay).is_err() {
        return Err(Fail::from("it ends by its bounds"));
    }
    let passed = relay.passed();
    Ok(Told {
        has_left: script.has(leaves),
        gone: script.gone.len(),
        now: script.now,
        sent: relay.counts().sent,
        early: passed.early,
        expired: passed.expired,
    })
}

/// What becomes of a relay for so many packets, by a rule of what is retransmitted, where these datagrams come.
pub(crate) fn done_by(
    alloc: Global,
    packets: u64,
    rate: Rate,
    rule: ResendRule,
    comes: &[Passing],
    leaves: &[(usize, Passing)],
) -> Result<Told, Fail> {
    let mut script = Script::new(alloc, comes)?;
    let relay = relay(alloc, packets, Pace::new(rate), rule)?;
    runs(&mut script, relay, leaves)
}

/// The same for ten packets, of one that follows the path.
fn following(
    alloc: Global,
    rule: ResendRule,
    comes: &[Passing],
    leaves: &[(usize, Passing)],
) -> Result<Told, Fail> {
    let mut script = Script::new(alloc, comes)?;
    let mut relay = relay(alloc, 10, Pace::new(Rate::Free), rule)?;
    relay.follow();
    runs(&mut script, relay, leaves)
}

/// The same for two packets, where whatever is asked for is retransmitted.
fn done(
    alloc: Global,
    rate: Rate,
    comes: &[Passing],
    leaves: &[(usize, Passing)],
) -> Result<Told, Fail> {
    done_by(alloc, 2, rate, ResendRule::ALWAYS, comes, leaves)
}

/// A packet of the application: MPEG-2 transport stream, its number 1 and up, its marker set.
pub(crate) const FIRST: Packet = These(b"\x80\xa1\x00\x01\x00\x00\x00\x64\x0a\x0b\x0c\x0d\xaa");

pub(crate) const SECOND: Packet = These(b"\x80\x21\x00\x02\x00\x00\x00\xc8\x0a\x0b\x0c\x0d\xbb");
/// One of another stream.
const OTHER: Packet = These(b"\x80\x21\x00\x02\x00\x00\x00\xc8\x0e\x0b\x0c\x0d\xbb");
/// Both as the session's media.
pub(crate) const SENT_FIRST: Packet = These(
    b"\x80\xa1\xff\xff\x00\x00\x00\x64\x11\x11\x11\x11\xaa",
);

pub(crate) const SENT_SECOND: Packet = These(
    b"\x80\x21\x00\x00\x00\x00\x00\xc8\x11\x11\x11\x11\xbb",
);
/// Both as retransmissions: the original number stands before the payload (RFC 4588, section 4).
pub(crate) const REPAIRED_FIRST: Packet = These(
    b"\x80\xff\x00\x07\x00\x00\x00\x64\x22\x22\x22\x22\xff\xff\xaa",
);

const REPAIRED_SECOND: Packet = These(
    b"\x80\x7f\x00\x08\x00\x00\x00\xc8\x22\x22\x22\x22\x00\x00\xbb",
);

/// The first as its second retransmission, and the second as one more packet.
pub(crate) const REPAIRED_AGAIN: Packet = These(
    b"\x80\xff\x00\x08\x00\x00\x00\x64\x22\x22\x22\x22\xff\xff\xaa",
);

const SENT_AGAIN: Packet = These(b"\x80\x21\x00\x01\x00\x00\x00\xc8\x11\x11\x11\x11\xbb");

/// A generic NACK of the session for number 65535.
pub(crate) const NACK: Packet = Packet::Nack(65535);

#[test]
fn a_stream_is_sent_and_a_lost_packet_again(rt: HostRuntime) -> Result<(), Fail> {
    const COMES: &[Passing] = &[
        (5, Near, APPLICATION, FIRST),
        (6, Near, APPLICATION, OTHER),
        (8, Near, APPLICATION, SECOND),
        (20, Far, STRANGER, NACK),
        (48, Far, FAR, NACK),
    ];
    const LEAVES: &[(usize, Passing)] = &[
        (0, (5, Far, FAR, SENT_FIRST)),
        (1, (8, Far, FAR, SENT_SECOND)),
        (2, (48, Far, FAR, REPAIRED_FIRST)),
        // The stream was silent for a tenth of a second.
        (3, (108, Far, FAR, REPAIRED_SECOND)),
    ];
    let done = done(rt.alloc(), Rate::Free, COMES, LEAVES)?;
    // Two seconds after the last packet it is done.
    assert!(rt; done.has_left && done.gone == 4 && done.now == 2008);
    Ok(())
}

#[test]
fn retransmissions_keep_their_pace(rt: HostRuntime) -> Result<(), Fail> {
    // Two packets that are marked at once, at one kilobit a second: the first has 15 octets, which take 120 milliseconds.
    const BOTH: &[u8] = b"\x81\xcd\x00\x03\x33\x33\x33\x33\x11\x11\x11\x11\xff\xff\x00\x01";
    const COMES: &[Passing] = &[
        (5, Near, APPLICATION, FIRST),
        (8, Near, APPLICATION, SECOND),
        (20, Far, FAR, These(BOTH)),
    ];
    const LEAVES: &[(usize, Passing)] = &[
        (2, (20, Far, FAR, REPAIRED_FIRST)),
        (3, (140, Far, FAR, REPAIRED_SECOND)),
    ];
    let done = done(rt.alloc(), Rate::Kilobits(1), COMES, LEAVES)?;
    assert!(rt; done.has_left);
    Ok(())
}

#[test]
fn a_stream_that_takes_the_place_of_another(rt: HostRuntime) -> Result<(), Fail> {
    const COMES: &[Passing] = &[
        (5, Near, APPLICATION, FIRST),
        (1004, Near, APPLICATION, OTHER),
        (1005, Near, APPLICATION, OTHER),
    ];
    // A second of silence was between them.
    const LEAVES: &[(usize, Passing)] = &[(2, (1005, Far, FAR, SENT_SECOND))];
    let done = done(rt.alloc(), Rate::Free, COMES, LEAVES)?;
    assert!(rt; done.has_left && done.sent == 2);
    Ok(())
}

/// From the port of another one, packets of a stream's SSRC are sent once the stream was silent for a second, as another SSRC's are; and
/// then no more from the first one's.
#[test]
fn a_stream_that_comes_from_elsewhere(rt: HostRuntime) -> Result<(), Fail> {
    const COMES: &[Passing] = &[
        (5, Near, APPLICATION, FIRST),
        (1004, Near, OTHERS, SECOND),
        (1005, Near, OTHERS, SECOND),
        (1006, Near, APPLICATION, FIRST),
    ];
    const LEAVES: &[(usize, Passing)] = &[
        (0, (5, Far, FAR, SENT_FIRST)),
        // Silent for a tenth of a second.
        (1, (105, Far, FAR, REPAIRED_FIRST)),
        (2, (1005, Far, FAR, SENT_SECOND)),
        (3, (1105, Far, FAR, REPAIRED_SECOND)),
    ];
    let done = done(rt.alloc(), Rate::Free, COMES, LEAVES)?;
    assert!(rt; done.has_left && done.sent == 2 && done.gone == 4);
    Ok(())
}

/// A NACK for eighty packets.
pub(crate) const ALL: &[u8] =
    b"\x81\xcd\x00\x07\x33\x33\x33\x33\x11\x11\x11\x11\xff\xff\xff\xff\x00\x10\xff\xff\x00\x21\xff\xff\x00\x32\xff\xff\x00\x43\x07\xff";

/// Eighty packets of the application at moment 5, of 1200 octets each, and a NACK for all of them at each of these moments.
pub(crate) fn eighty(alloc: Global, asked: &[u64]) -> Result<Script, Fail> {
    let mut script = Script::new(alloc, &[])?;
    for number in 0..80 {
        script.comes(&(5, Near, APPLICATION, Packet::Long(number)))?;
    }
    for moment in asked {
        script.comes(&(*moment, Far, FAR, These(ALL)))?;
    }
    Ok(script)
}

/// The moments at which so many datagrams left from one number on, or 0 where none did.
fn moments<const N: usize>(script: &Script, first: usize) -> [u64; N] {
    let mut moments = [0; N];
    for (moment, gone) in moments.iter_mut().zip(script.gone.iter().skip(first)) {
        *moment = gone.at;
    }
    moments
}

/// The moments at which the first 55 of the retransmissions leave, and the next six, and how much leaves.
fn retransmitted(alloc: Global) -> Result<([u64; 55], [u64; 6], usize), Fail> {
    let mut script = eighty(alloc, &[20])?;
    let pace = Pace::new(Rate::Percent(200));
    let relay = relay(alloc, 80, pace, ResendRule::ALWAYS)?;
    let _ = runs(&mut script, relay, &[])?;
    Ok((
        moments(&script, 80),
        moments(&script, 135),
        script.gone.len(),
    ))
}

/// Twice the media's rate, by a NACK for eighty packets: 55 of their retransmissions leave at once, of 1202 octets each, since 54 have 519,264 bits, no
/// more than 524,288. Eighty packets of 9600 bits at once are 768,000 bits a second, so 6144 run out each millisecond: 522,736 are left at 21, then of one
/// more 526,208 and 520,064, of the next 523,536, of the next 527,008 and 520,864, then 524,336 and 518,192, and 521,664.
#[test]
fn few_leave_at_once_and_many_fast(rt: HostRuntime) -> Result<(), Fail> {
    let (at_once, behind, gone) = retransmitted(rt.alloc())?;
    assert!(rt; at_once == [20; 55] && behind == [21, 23, 24, 26, 28, 29] && gone >= 141);
    Ok(())
}

/// The moments at which what is behind the eighty leaves, and how much leaves, where all of them are asked for when the stream is silent for a second, and
/// again, and a last packet comes.
fn stopped(alloc: Global) -> Result<([u64; 29], usize), Fail> {
    let mut script = eighty(alloc, &[1005, 1300, 1500])?;
    script.comes(&(1600, Near, APPLICATION, Packet::Long(80)))?;
    let pace = Pace::new(Rate::Percent(200));
    let relay = relay(alloc, 81, pace, ResendRule::ALWAYS)?;
    let _ = runs(&mut script, relay, &[])?;
    Ok((moments(&script, 80), script.gone.len()))
}

/// The stream falls silent, and its last packet leaves again. A second after the stream 262,144 bits are left of what it earned: 26 retransmissions of 9616
/// leave 12,128 of them, and no other leaves, since the longest datagram has 12,800. A packet of media earns 9600, so another one leaves. It leaves 12,112, too
/// few for the last packet's own.
#[test]
fn a_stream_that_stopped_leaves_little(rt: HostRuntime) -> Result<(), Fail> {
    let (behind, gone) = stopped(rt.alloc())?;
    let mut wanted = [1005; 29];
    wanted[0] = 105;
    wanted[27..].copy_from_slice(&[1600, 1600]);
    assert!(rt; behind == wanted && gone == 109);
    Ok(())
}

/// A NACK that leaves twice is answered once, and so is one nine milliseconds after it; 100 milliseconds after the packet was sent one is,
/// and none after that.
#[test]
fn what_does_not_fit_the_time_is_passed_over(rt: HostRuntime) -> Result<(), Fail> {
    const COMES: &[Passing] = &[
        (5, Near, APPLICATION, FIRST),
        (8, Near, APPLICATION, SECOND),
        (48, Far, FAR, NACK),
        (48, Far, FAR, NACK),
        (57, Far, FAR, NACK),
        (105, Far, FAR, NACK),
        (106, Far, FAR, NACK),
        (107, Near, APPLICATION, SECOND),
    ];
    // At the end the stream is silent for 100 milliseconds, and its last packet leaves again.
    const LEAVES: &[(usize, Passing)] = &[
        (0, (5, Far, FAR, SENT_FIRST)),
        (1, (8, Far, FAR, SENT_SECOND)),
        (2, (48, Far, FAR, REPAIRED_FIRST)),
        (3, (105, Far, FAR, REPAIRED_AGAIN)),
        (4, (107, Far, FAR, SENT_AGAIN)),
    ];
    let rule = ResendRule {
        min_resend: 10,
        deadline: Some(100),
    };
    let done = done_by(rt.alloc(), 3, Rate::Free, rule, COMES, LEAVES)?;
    assert!(rt; done.has_left && done.gone == 6 && done.early == 2 && done.expired == 1);
    Ok(())
}

/// Packets leave five apart, so a path with room for the media alone takes as long for a retransmission, and forty for eight; and an answer came
/// 15 behind the last of them. A NACK that names the first again 27 after its retransmission comes too soon, as that would be taken for 13 more, and 28
/// after it it does not; by the rule alone, which has 10, the first is answered.
#[test]
fn an_answer_on_its_way_is_waited_for(rt: HostRuntime) -> Result<(), Fail> {
    const EIGHT: &[u8] = b"\x81\xcd\x00\x03\x33\x33\x33\x33\x11\x11\x11\x11\xff\xff\x00\x7f";
    const NINTH: Packet = These(b"\x80\xff\x00\x0f\x00\x00\x00\x64\x22\x22\x22\x22\xff\xff\xaa");
    const TENTH: Packet = These(b"\x80\x21\x00\x08\x00\x00\x00\xc8\x11\x11\x11\x11\xbb");
    const COMES: &[Passing] = &[
        (5, Near, APPLICATION, FIRST),
        (10, Near, APPLICATION, SECOND),
        (15, Near, APPLICATION, SECOND),
        (20, Near, APPLICATION, SECOND),
        (25, Near, APPLICATION, SECOND),
        (30, Near, APPLICATION, SECOND),
        (35, Near, APPLICATION, SECOND),
        (40, Near, APPLICATION, SECOND),
        (45, Near, APPLICATION, SECOND),
        (60, Far, FAR, These(EIGHT)),
        (87, Far, FAR, NACK),
        (88, Far, FAR, NACK),
        (90, Near, APPLICATION, SECOND),
    ];
    const LEAVES: &[(usize, Passing)] = &[
        (9, (60, Far, FAR, REPAIRED_FIRST)),
        (17, (88, Far, FAR, NINTH)),
        (18, (90, Far, FAR, TENTH)),
    ];
    const LEAVES_BY_RULE: &[(usize, Passing)] = &[
        (9, (60, Far, FAR, REPAIRED_FIRST)),
        (17, (87, Far, FAR, NINTH)),
        (18, (90, Far, FAR, TENTH)),
    ];
    let rule = ResendRule {
        min_resend: 10,
        deadline: None,
    };
    let followed = following(rt.alloc(), rule, COMES, LEAVES)?;
    assert!(rt; followed.has_left && followed.gone == 20 && followed.early == 1);
    let ruled = done_by(rt.alloc(), 10, Rate::Free, rule, COMES, LEAVES_BY_RULE)?;
    assert!(rt; ruled.has_left && ruled.gone == 20 && ruled.early == 1);
    Ok(())
}
