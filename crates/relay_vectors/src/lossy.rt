//! Both relays over a path that loses datagrams both ways, in time that is counted and not waited for: 200 packets a second, a round
//! trip of 50 milliseconds, and a patience of 200.
use crate::script::local;
use endpoint::ResendRule;
use receiver::ReceiverConfig;
use relays::{Bounds, Numbering, Pace, Rate, ReceiveRelay, Relay, SendRelay, Side, Stream, Turn};
use rtpwire::{Datagram, MAX_DATAGRAM, Session};
use sender::SenderConfig;
use std::alloc::Global;
use std::collections::VecDeque;
use std::test::Fail;
use stores::{RingHistory, RingWindow};

const RECEIVER: u16 = 6004;

const SENDER: u16 = 6005;

/// How long a datagram is on its way, in milliseconds.
const DELAY: u64 = 25;

const PACKETS: u64 = 10000;

const NO_BOUNDS: Bounds = Bounds {
    packets: None,
    until: None,
};

/// One direction of the path.
#[derive(Drop)]
struct Way {
    /// So many of 1000 datagrams are lost.
    permille: u64,
    draw: u64,
    /// When each comes, and its octets.
    on_way: VecDeque<(u64, Datagram)>,
    /// There was no memory for one.
    is_short: bool,
}

impl Way {
    fn new(alloc: Global, permille: u64, seed: u64) -> Way {
        Way {
            permille,
            draw: seed,
            on_way: VecDeque::new(alloc),
            is_short: false,
        }
    }

    /// What leaves for the network because of a turn is on its way, or lost.
    fn takes(&mut self, turn: &Turn, out: &[u8], now: u64) {
        let Some(departure) = turn.leaves else {
            return;
        };
        if departure.side != Side::Far || departure.len > out.len() {
            return;
        }
        // The generator of Knuth's MMIX.
        self.draw = self
            .draw
            .wrapping_mul(6364136223846793005)
            .wrapping_add(1442695040888963407);
        if (self.draw >> 33) % 1000 < self.permille {
            return;
        }
        let mut octets = Datagram::new();
        let _ = octets.try_extend_from_slice(&out[..departure.len]);
        let pushed = self.on_way.push_back((now.saturating_add(DELAY), octets));
        self.is_short = self.is_short || pushed.is_err();
    }

    /// What comes at this moment, if anything does.
    fn comes(&mut self, now: u64) -> Option<Datagram> {
        let (at, _) = self.on_way.front()?;
        if *at > now {
            return None;
        }
        let (_, octets) = self.on_way.pop_front()?;
        Some(octets)
    }
}

/// A relay hears what comes at this moment, and does what it has to do.
fn turns<R: Relay>(relay: &mut R, from: u16, comes: &mut Way, leaves: &mut Way, now: u64) {
    for _ in 0..100u8 {
        let mut out = [0; MAX_DATAGRAM];
        let Some(octets) = comes.comes(now) else {
            break;
        };
        let turn = relay.hear(Side::Far, local(from), octets.as_slice(), now, &mut out);
        leaves.takes(&turn, &out, now);
    }
    for _ in 0..100u8 {
        let mut out = [0; MAX_DATAGRAM];
        let Some(turn) = relay.speak(now, &mut out) else {
            break;
        };
        leaves.takes(&turn, &out, now);
    }
}

fn session() -> Result<Session, Fail> {
    Session::with_any_media_type(0x11111111, 33, 0x22222222, 127, 0x33333333).map_err(
        |_| Fail::from("a good session"),
    )
}

fn sender(alloc: Global) -> Result<SendRelay<RingHistory>, Fail> {
    let Ok(config) = SenderConfig::new(session()?, 0, 0, 32) else {
        return Err(Fail::from("good limits"));
    };
    let rule = ResendRule {
        min_resend: 10,
        deadline: None,
    };
    let made = SendRelay::new(
        alloc,
        config,
        rule,
        1024,
        local(RECEIVER),
        Stream::new(0x0a0b0c0d),
        Pace::new(Rate::Percent(200)),
        NO_BOUNDS,
    );
    made.map_err(|_| Fail::from("memory is ample"))
}

fn receiver(alloc: Global) -> Result<ReceiveRelay<RingWindow>, Fail> {
    let Ok(config) = ReceiverConfig::new(session()?, 200, 100, 32) else {
        return Err(Fail::from("good limits"));
    };
    let made = ReceiveRelay::new(
        alloc,
        config.with_delay(20),
        512,
        local(SENDER),
        local(5006),
        Numbering::new(0x11111111),
        None,
        NO_BOUNDS,
    );
    made.map_err(|_| Fail::from("memory is ample"))
}

/// What a run comes to: how many packets were played and given up, how often one was retransmitted, and how many of these came for
/// nothing.
#[derive(Clone, Copy, Debug, Drop, PartialEq, Eq)]
struct Tally {
    played: u64,
    gaps: u64,
    retransmitted: u64,
    useless: u64,
}

/// A run over a path that loses so many of 1000 datagrams, both ways.
fn run_over(alloc: Global, permille: u64, seed: u64) -> Result<Tally, Fail> {
    let mut sender = sender(alloc)?;
    let mut receiver = receiver(alloc)?;
    let mut forth = Way::new(alloc, permille, seed);
    let mut back = Way::new(alloc, permille, seed ^ 0x5555);
    for now in 0..PACKETS * 5 + 1000 {
        if now % 5 == 0 && now < PACKETS * 5 {
            let mut out = [0; MAX_DATAGRAM];
            let turn = sender.hear(Side::Near, local(4000), &packet(now / 5), now, &mut out);
            forth.takes(&turn, &out, now);
        }
        turns(&mut sender, RECEIVER, &mut back, &mut forth, now);
        turns(&mut receiver, SENDER, &mut forth, &mut back, now);
    }
    if forth.is_short || back.is_short {
        return Err(Fail::from("memory is ample"));
    }
    let counts = receiver.counts();
    Ok(Tally {
        played: counts.played,
        gaps: counts.gaps,
        retransmitted: sender.counts().retransmissions,
        useless: counts.late.saturating_add(counts.duplicate),
    })
}

/// A packet of the application.
fn packet(number: u64) -> [u8; 13] {
    let [.., high, low] = number.to_be_bytes();
    [
        0x80, 0x21, high, low, 0, 0, 0, 0, 0x0a, 0x0b, 0x0c, 0x0d, low,
    ]
}

/// Whether all but the last few packets were played or given up, and no more than so many were given up.
fn is_well(tally: &Tally, most: u64) -> bool {
    tally.played.saturating_add(tally.gaps) >= PACKETS - 20 && tally.gaps <= most
}

#[test]
fn two_in_ten_are_lost_both_ways(rt: HostRuntime) -> Result<(), Fail> {
    let tally = run_over(rt.alloc(), 200, 1)?;
    // By three asks, each of which fails where both NACKs are lost or the retransmission is: 0.2 times 0.232 three times, 25 of 10,000.
    if is_well(&tally, 30) && tally.useless <= 20 {
        Ok(())
    } else {
        Err(Fail::from("what is given up of two in ten"))
    }
}

#[test]
fn three_in_ten_are_lost_both_ways(rt: HostRuntime) -> Result<(), Fail> {
    let tally = run_over(rt.alloc(), 300, 2)?;
    // The same of 0.3 times 0.363 three times: 143 of 10,000.
    if is_well(&tally, 200) && tally.useless <= 30 {
        Ok(())
    } else {
        Err(Fail::from("what is given up of three in ten"))
    }
}
