//! Who may send to a relay, and to whom a session falls.
use relays::{Claims, Peer, Peers, Stranger, number_of};
use std::net::{IpAddr, Ipv4Addr, Ipv6Addr, SocketAddr};
use std::test::Fail;

/// A packet of the stranger at this port, with this number, at this moment, and whether the session falls to it. At port 0 it is one of
/// the session's own.
type Row = (u16, u16, u64, bool);

fn address(last: u8, port: u16) -> SocketAddr {
    SocketAddr::new(IpAddr::V4(Ipv4Addr::new(192, 0, 2, last)), port)
}

/// A packet of the stranger at this port.
fn strange(port: u16, ssrc: u32, number: u16) -> Stranger {
    Stranger {
        from: address(1, port),
        ssrc,
        number,
    }
}

fn told(holds: bool, what: &'static str) -> Result<(), Fail> {
    if holds { Ok(()) } else { Err(Fail::from(what)) }
}

/// Whether all rows hold of a session that began, where three packets in sequence are a stream.
fn holds(rt: &HostRuntime, rows: &[Row]) -> Result<(), Fail> {
    let mut claims = Claims::new(rt.alloc(), 3);
    let mut all = true;
    for row in rows {
        if row.0 == 0 {
            claims.take();
        } else {
            all &= claims.hear(&strange(row.0, 7, row.1), row.2) == row.3;
        }
    }
    told(all, "to whom the session falls")
}

/// A packet of the session's own.
const OWN: Row = (0, 0, 0, false);

#[test]
fn who_never_had_a_stream_loses_the_session_to_one(rt: HostRuntime) -> Result<(), Fail> {
    holds(
        &rt,
        &[
            OWN,
            (1, 100, 10, false),
            (1, 101, 20, false),
            OWN,
            (1, 102, 30, true),
            // And the next one claims another session.
            (1, 103, 40, false),
            (1, 104, 50, false),
            (1, 105, 60, true),
        ],
    )
}

#[test]
fn who_had_one_loses_it_by_silence(rt: HostRuntime) -> Result<(), Fail> {
    holds(
        &rt,
        &[
            OWN,
            OWN,
            OWN,
            (1, 100, 0, false),
            (1, 101, 10, false),
            (1, 102, 20, false),
            // 9 * 1111 = 9999, and 9 * 1112 = 10008: more than 5000 * 2.
            (1, 103, 1111, false),
            (1, 104, 1112, true),
        ],
    )
}

#[test]
fn each_packet_of_its_own_is_555_milliseconds(rt: HostRuntime) -> Result<(), Fail> {
    holds(
        &rt,
        &[
            OWN,
            OWN,
            OWN,
            (1, 100, 0, false),
            (1, 101, 1, false),
            OWN,
            (1, 102, 1112, false),
            (1, 103, 1666, false),
            (1, 104, 1667, true),
        ],
    )?;
    holds(
        &rt,
        &[
            OWN,
            OWN,
            OWN,
            (1, 100, 0, false),
            (1, 101, 1, false),
            OWN,
            OWN,
            (1, 102, 1667, false),
            (1, 103, 2222, false),
            (1, 104, 2223, true),
        ],
    )
}

#[test]
fn beside_a_stream_a_claim_begins_anew(rt: HostRuntime) -> Result<(), Fail> {
    holds(
        &rt,
        &[
            OWN,
            OWN,
            OWN,
            (1, 100, 0, false),
            (1, 101, 1, false),
            (1, 102, 2, false),
            OWN,
            OWN,
            OWN,
            // It is of one packet now.
            (1, 103, 1500, false),
            (1, 104, 2000, false),
            (1, 105, 2611, false),
            (1, 106, 2612, true),
        ],
    )
}

#[test]
fn a_stream_is_of_one_sender_and_goes_on(rt: HostRuntime) -> Result<(), Fail> {
    holds(
        &rt,
        &[
            OWN,
            (1, 65534, 0, false),
            (1, 65534, 1, false),
            (1, 65533, 2, false),
            (1, 2998, 3, false),
            (2, 65535, 4, false),
            (1, 1, 5, false),
            (1, 3000, 6, true),
        ],
    )
}

#[test]
fn strangers_claim_beside_each_other(rt: HostRuntime) -> Result<(), Fail> {
    holds(
        &rt,
        &[
            OWN,
            (1, 100, 0, false),
            (2, 500, 1, false),
            (1, 101, 2, false),
            (2, 501, 3, false),
            (2, 501, 4, false),
            (1, 101, 5, false),
            (2, 502, 6, true),
        ],
    )
}

#[test]
fn a_jump_begins_a_claim_that_waited_for_a_second(rt: HostRuntime) -> Result<(), Fail> {
    holds(
        &rt,
        &[
            OWN,
            (1, 100, 0, false),
            (1, 5000, 999, false),
            (1, 5001, 1000, false),
            (1, 5002, 1001, false),
            (1, 5003, 1002, true),
        ],
    )
}

#[test]
fn what_went_on_two_seconds_ago_may_go_on(rt: HostRuntime) -> Result<(), Fail> {
    holds(
        &rt,
        &[
            OWN,
            (1, 100, 0, false),
            (1, 101, 2000, false),
            (1, 102, 4000, true),
        ],
    )?;
    holds(
        &rt,
        &[
            OWN,
            (1, 100, 0, false),
            (1, 101, 1, false),
            (1, 102, 2002, false),
            (1, 103, 2003, false),
            (1, 104, 2004, true),
        ],
    )
}

#[test]
fn moments_that_go_back_take_no_time(rt: HostRuntime) -> Result<(), Fail> {
    holds(
        &rt,
        &[
            OWN,
            OWN,
            OWN,
            (1, 100, 5000, false),
            (1, 101, 10, false),
            (1, 102, 0, false),
            (1, 103, 2000, false),
            (1, 104, 4000, false),
            (1, 105, 6000, false),
            (1, 106, 6112, true),
        ],
    )
}

#[test]
fn who_claims_a_session_claims_the_next_one(rt: HostRuntime) -> Result<(), Fail> {
    let mut claims = Claims::new(rt.alloc(), 3);
    let mut falls = false;
    // Two sessions of a stranger each, that never had a stream; and before them one that had.
    for _ in 0..5 {
        claims.take();
    }
    claims.begin();
    claims.take();
    falls |= claims.hear(&strange(1, 7, 1), 0);
    falls |= claims.hear(&strange(1, 7, 2), 400);
    claims.begin();
    claims.take();
    told(
        !falls && claims.hear(&strange(1, 7, 3), 800),
        "a claim of three packets",
    )
}

/// The SSRC of who claims the session in the midst of others.
const CLAIMS: u32 = 0xffff_ffff;

/// So many others send a packet each, with this number, and nothing falls to them.
fn flood(claims: &mut Claims, others: u32, number: u16, now: u64) -> bool {
    let mut falls = false;
    for ssrc in 0..others {
        falls |= claims.hear(&strange(1, ssrc, number), now);
    }
    !falls
}

/// Whether a session falls with the third packet to who sends at 0, 500 and 1000 milliseconds, where so many others send one each before
/// the second one, and as many as that before the third.
fn is_claimed(rt: &HostRuntime, first: u32, second: u32) -> bool {
    let mut claims = Claims::new(rt.alloc(), 3);
    claims.take();
    let none = !claims.hear(&strange(1, CLAIMS, 1), 0)
        && flood(&mut claims, first, 7, 250)
        && !claims.hear(&strange(1, CLAIMS, 2), 500)
        && flood(&mut claims, second, 3500, 750);
    none && claims.hear(&strange(1, CLAIMS, 3), 1000)
}

#[test]
fn a_flood_of_others_keeps_nobody_out(rt: HostRuntime) -> Result<(), Fail> {
    // 2500 are 5000 a second. What has two packets in sequence stays whatever comes.
    told(is_claimed(&rt, 2500, 20000), "a flood")?;
    told(is_claimed(&rt, 3071, 3072), "as many as there is room for")?;
    told(!is_claimed(&rt, 3072, 0), "the first of more")
}

#[test]
fn who_sent_last_in_sequence_stays(rt: HostRuntime) -> Result<(), Fail> {
    let mut claims = Claims::new(rt.alloc(), 3);
    claims.take();
    let mut none = !claims.hear(&strange(2, CLAIMS, 1), 0)
        && !claims.hear(&strange(1, CLAIMS, 1), 0);
    none &= !claims.hear(&strange(2, CLAIMS, 2), 1);
    none &= !claims.hear(&strange(1, CLAIMS, 2), 2);
    // Of 1024 with two packets the one that sent its second first goes.
    none &= flood(&mut claims, 1023, 7, 3) && flood(&mut claims, 1023, 8, 4);
    none &= !claims.hear(&strange(2, CLAIMS, 3), 5);
    told(
        none && claims.hear(&strange(1, CLAIMS, 3), 6),
        "a flood of pairs",
    )
}

/// At which packet of a stranger, of so many at so many milliseconds apart, a session falls that has had a stream, where each so many
/// milliseconds it takes so many at once.
fn falls_at(rt: &HostRuntime, packets: u16, apart: u64, lumps: u64, lump: u8) -> Option<u16> {
    let mut claims = Claims::new(rt.alloc(), 10);
    for _ in 0..20 {
        claims.take();
    }
    let mut now = 0u64;
    let mut due = lumps;
    for i in 0..packets {
        if now >= due {
            due = due.saturating_add(lumps);
            for _ in 0..lump {
                claims.take();
            }
        }
        if claims.hear(&strange(1, 7, i), now) {
            return Some(i);
        }
        now = now.saturating_add(apart);
    }
    None
}

#[test]
fn a_packet_now_and_then_keeps_no_stream_out(rt: HostRuntime) -> Result<(), Fail> {
    // A stream of two a second has its tenth packet at 4500, beside five of the session: 40500 is more than 5000 * 7.
    told(
        falls_at(&rt, 100, 500, 900, 1) == Some(9),
        "each 900 milliseconds",
    )?;
    // One of a hundred a second falls at 1670 beside one: 15030 is more than 5000 * 3.
    told(falls_at(&rt, 1000, 10, 1000, 1) == Some(167), "each second")?;
    // And at 2780 beside three, of one each 700 milliseconds: 25020 is more than 5000 * 5.
    told(
        falls_at(&rt, 1000, 10, 700, 1) == Some(278),
        "each 700 milliseconds",
    )
}

#[test]
fn two_in_each_second_keep_the_session(rt: HostRuntime) -> Result<(), Fail> {
    told(falls_at(&rt, 60000, 10, 1000, 2) == None, "both at once")?;
    told(
        falls_at(&rt, 60000, 10, 500, 1) == None,
        "each half a second",
    )?;
    // Of one each 600 milliseconds ten come in six seconds, which are a stream.
    told(
        falls_at(&rt, 60000, 10, 600, 1) == None,
        "each 600 milliseconds",
    )
}

/// A stream has the session with its third packet or, where memory for one of its claims was refused, with a later one.
#[test]
fn refused_growth_of_claims(rt: HostRuntime) -> Result<(), Fail> {
    let mut claims = Claims::new(rt.alloc(), 3);
    claims.take();
    let mut falls = 0u64;
    for number in 0..6u16 {
        falls = falls.saturating_add(u64::from(claims.hear(&strange(1, 7, number), 0)));
    }
    told(falls == 1 || falls == 2, "a stream")
}

/// One host at one port, and all of 198.51.100.0/24.
const HOST: u128 = 0xffff_c000_0201;

const NET: u128 = 0xffff_c633_6400;

#[test]
fn peers_are_told_by_address_and_port(rt: HostRuntime) -> Result<(), Fail> {
    let mut list = Vec::new(rt.alloc());
    let nobody = Peers::new(Vec::new(rt.alloc()));
    let one = Peer {
        least: HOST,
        most: HOST,
        port: Some(5004),
    };
    let net = Peer {
        least: NET,
        most: NET + 255,
        port: None,
    };
    if list.push(one).is_err() || list.push(net).is_err() {
        return Err(Fail::from("memory"));
    }
    let peers = Peers::new(list);
    let at = |a, b, c, d, port| SocketAddr::new(IpAddr::V4(Ipv4Addr::new(a, b, c, d)), port);
    let mapped = Ipv6Addr::new(0, 0, 0, 0, 0, 0xffff, 0xc633, 0x6407);
    let admitted = peers.admit(&address(1, 5004))
        && peers.admit(&at(198, 51, 100, 0, 1))
        && peers.admit(&at(198, 51, 100, 255, 65535))
        && peers.admit(&SocketAddr::new(IpAddr::V6(mapped), 9));
    let refused = !peers.admit(&address(1, 5005))
        && !peers.admit(&address(2, 5004))
        && !peers.admit(&at(198, 51, 101, 0, 1))
        && !peers.admit(&SocketAddr::new(IpAddr::V6(Ipv6Addr::LOCALHOST), 5004));
    let anybody = nobody.admit(&address(77, 1)) && number_of(IpAddr::V6(mapped)) == NET + 7;
    if admitted && refused && anybody {
        Ok(())
    } else {
        Err(Fail::from("who may send"))
    }
}
