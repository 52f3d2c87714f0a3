//! How fast media is measured, and how fast retransmissions leave.
use relays::{MediaRate, Pace, Rate};
use std::test::Fail;

#[test]
fn a_rate_that_is_measured(_rt: HostRuntime) -> Result<(), Fail> {
    // Packets of 10,000 bits: when each leaves, and how many bits a second are measured then.
    let rows = [
        // the first packet
        (1000, 10_000),
        // ten thousandths less
        (1010, 9_900 + 10_000),
        (1010, 29_900),
        // half
        (1510, 14_950 + 10_000),
        // a thousandth, 24.95, without its fraction
        (2509, 24 + 10_000),
        // a second later: nothing
        (3509, 10_000),
    ];
    let mut rate = MediaRate::new();
    let mut are_right = rate.bits() == 0 && rate.bits_at(5) == 0;
    for (now, bits) in rows {
        rate.measure(1250, now);
        are_right = are_right && rate.bits() == bits;
    }
    // What is left of the last one: all, half, a thousandth, nothing.
    for (now, bits) in [(3509, 10_000), (4009, 5_000), (4508, 10), (4509, 0)] {
        are_right = are_right && rate.bits_at(now) == bits;
    }
    if are_right {
        Ok(())
    } else {
        Err(Fail::from("the rates"))
    }
}

/// After ten seconds of 8 megabits a second it is 8 megabits, but for fractions.
#[test]
fn a_rate_that_stays(_rt: HostRuntime) -> Result<(), Fail> {
    let mut rate = MediaRate::new();
    for now in 0..10_000u64 {
        rate.measure(1000, now);
    }
    if rate.bits() > 7_998_000 && rate.bits() <= 8_000_000 {
        Ok(())
    } else {
        Err(Fail::from("8 megabits"))
    }
}

/// How many packets of so many octets leave until one may not, or sixty did.
fn leave(pace: &mut Pace, octets: usize, now: u64) -> u64 {
    let mut many = 0u64;
    for _ in 0..60u8 {
        if pace.is_open(now) {
            pace.spend(octets, now);
            many = many.saturating_add(1);
        }
    }
    many
}

/// How many packets of 9600 bits leave behind media of two megabits, by a share of 200 per cent, as many as may each millisecond up to this one.
fn left_until(end: u64) -> u64 {
    let mut pace = Pace::new(Rate::Percent(200));
    pace.measure(250_000, 0);
    let mut many = 0u64;
    for now in 0..end.saturating_add(1) {
        many = many.saturating_add(leave(&mut pace, 1200, now));
    }
    many
}

/// One leaves as long as no more than 524,288 bits left at once before, which run out by 16,000 a millisecond; and as long as 12,800 are saved up of
/// 262,144 and what two megabits earned.
#[test]
fn a_burst_leaves_fast(_rt: HostRuntime) -> Result<(), Fail> {
    let rows = [
        // 54 are 518,400 bits, and 55 are more than 524,288.
        (0, 55),
        // 524,288 and 16,000
        (1, 57),
        // 524,288 and 1,600,000
        (100, 222),
        // 234 leave 15,744 of 2,262,144, and 235 leave 6,144: in all no more than the media, and 32 KiB
        (999, 235),
    ];
    for (end, many) in rows {
        if left_until(end) != many {
            return Err(Fail::from("the packets of a burst"));
        }
    }
    Ok(())
}

/// Whether behind so many octets one more may leave, and behind one octet more none, whatever the time: that many are saved up, and 1600, which are
/// 12,800 bits, the longest datagram.
fn has(pace: &Pace, octets: usize) -> bool {
    let (mut enough, mut short) = (*pace, *pace);
    enough.spend(octets, 1_000_000);
    short.spend(octets.saturating_add(1), 1_000_000);
    enough.is_open(9_000_000) && !short.is_open(9_000_000) && short.opens() == None
}

/// At first 262,144 bits are saved up, and each packet of 9600 earns as many: by 200 per cent as many as it has.
#[test]
fn the_first_packets(_rt: HostRuntime) -> Result<(), Fail> {
    let mut pace = Pace::new(Rate::Percent(200));
    // 249,344 bits and the longest
    let mut are_right = has(&pace, 31_168);
    pace.measure(1200, 50);
    are_right = are_right && has(&pace, 32_368);
    for _ in 0..9u8 {
        pace.measure(1200, 50);
    }
    // 345,344 and the longest: 36 packets of 9600 bits, since 35 leave 22,144, and 36 leave 12,544
    are_right = are_right && has(&pace, 43_168) && leave(&mut pace, 1200, 60) == 36;
    if are_right && !pace.is_open(9_000_000) && pace.opens() == None {
        Ok(())
    } else {
        Err(Fail::from("what the first packets earn"))
    }
}

/// A stream of 20 megabits a second stops. Where feedback is heard, what was saved up falls with the rate, to 262,144 bits after a second.
#[test]
fn a_stream_that_stopped(_rt: HostRuntime) -> Result<(), Fail> {
    let mut pace = Pace::new(Rate::Percent(200));
    pace.measure(2_500_000, 100);
    let rows = [
        // 20,262,144 bits, of which 12,800 are the longest
        (100, 2_531_168),
        // half a second: ten megabits
        (600, 1_281_168),
        // a thousandth of a second is left: 20,000
        (1099, 33_668),
        (1100, 31_168),
        (2000, 31_168),
    ];
    for (now, octets) in rows {
        pace.fall(now);
        if !has(&pace, octets) {
            return Err(Fail::from("what is saved up"));
        }
    }
    // 25 leave 22,144 of them, and 26 leave 12,544: no more, however often feedback is heard
    let many = leave(&mut pace, 1200, 2000);
    pace.fall(2010);
    pace.fall(9000);
    if many == 26 && !pace.is_open(9000) && pace.opens() == None {
        Ok(())
    } else {
        Err(Fail::from("what leaves behind it"))
    }
}

/// No more is saved up than the media of the last second earns, and 262,144 bits.
#[test]
fn a_stream_that_slows_down(_rt: HostRuntime) -> Result<(), Fail> {
    let mut pace = Pace::new(Rate::Percent(200));
    pace.measure(2_500_000, 100);
    // Packets of 8000 bits: 10,008,000 half a second later, of 20 megabits; a second later that alone
    let rows = [(600, 1_282_168), (1600, 32_168), (1600, 33_168)];
    for (now, octets) in rows {
        pace.measure(1000, now);
        if !has(&pace, octets) {
            return Err(Fail::from("what is saved up"));
        }
    }
    Ok(())
}

/// A packet of 8000 bits each 1.1 seconds, a hundred of them, and feedback for all there is behind each. Behind the first 270,064 bits are saved up,
/// of which 33 packets leave 6,064; behind each other one 14,064, for one packet.
#[test]
fn a_packet_now_and_then(_rt: HostRuntime) -> Result<(), Fail> {
    let mut pace = Pace::new(Rate::Percent(200));
    let mut many = 0u64;
    for number in 0..100u64 {
        let now = number.saturating_mul(1100);
        pace.measure(1000, now);
        let later = now.saturating_add(10);
        pace.fall(later);
        many = many.saturating_add(leave(&mut pace, 1000, later));
    }
    if many == 132 {
        Ok(())
    } else {
        Err(Fail::from("the packets"))
    }
}

/// The rate follows the media's, and retransmissions are no media.
#[test]
fn a_pace_follows_the_media(_rt: HostRuntime) -> Result<(), Fail> {
    let mut pace = Pace::new(Rate::Percent(50));
    // 4,000,000 bits. A quarter is the rate, 1000 bits a millisecond, and what they earn, beside 262,144; it leaves by 8000 a millisecond.
    pace.measure(500_000, 7);
    // 1,200,000 bits, of which 675,712 are too many at once: 84.5 milliseconds
    pace.spend(150_000, 10);
    let half = pace.opens() == Some(95) && !pace.is_open(94) && pace.is_open(95);
    // At 30 there were 20 milliseconds: 1,040,000 are left. Media of 4,092,000 bits (with 3,908,000, which 23 milliseconds left of four megabits, it is 8
    // megabits): it leaves by 16,000. 515,712 too many at once take 32.2.
    pace.measure(511_500, 30);
    let more = pace.opens() == Some(63) && !pace.is_open(62) && pace.is_open(63);
    // 62,144 were left of what was saved up, and 1,023,000 are earned. 1,072,344 of both are 134,043 octets.
    if half && more && has(&pace, 134_043) {
        Ok(())
    } else {
        Err(Fail::from("the moments"))
    }
}

/// 1,200,000 bits at once are 675,712 too many. They run out eight times as fast as the rate, up to 64 megabits a second, or twice the rate.
#[test]
fn a_burst_of_fast_media(_rt: HostRuntime) -> Result<(), Fail> {
    let rows = [
        // octets of media
        (250_000, 53),
        (500_000, 32),
        (1_000_000, 21),
        (1_500_000, 21),
        (4_000_000, 21),
        (5_000_000, 19),
    ];
    for (octets, moment) in rows {
        let mut pace = Pace::new(Rate::Percent(200));
        pace.measure(octets, 10);
        pace.spend(150_000, 10);
        if pace.opens() != Some(moment) {
            return Err(Fail::from("the moments"));
        }
    }
    Ok(())
}

/// What may leave soon: what is saved up, and what the rate has for a tenth of a second; by kilobits a second for a fifth, whatever left before.
#[test]
fn what_may_leave_soon(_rt: HostRuntime) -> Result<(), Fail> {
    let mut kilobits = Pace::new(Rate::Kilobits(400));
    kilobits.spend(1000, 5);
    let mut pace = Pace::new(Rate::Percent(200));
    // a kilobit a second at least
    let at_first = pace.room() == 262_244;
    // two megabits, and 200,000 of the next ones
    pace.measure(250_000, 0);
    let then = pace.room() == 2_462_144;
    pace.spend(1200, 0);
    let spent = pace.room() == 2_452_544;
    let others = Pace::new(Rate::Free).room() == u64::MAX && kilobits.room() == 80_000;
    if at_first && then && spent && others {
        Ok(())
    } else {
        Err(Fail::from("the bits"))
    }
}

/// Little is less than an eighth of the most: of 2,262,144 bits it is 282,760, and 282,768 are not. Half a second later the most is 1,262,144.
#[test]
fn what_is_little(_rt: HostRuntime) -> Result<(), Fail> {
    let mut pace = Pace::new(Rate::Percent(200));
    pace.measure(250_000, 0);
    pace.spend(247_422, 0);
    let enough = !pace.is_scarce(0);
    pace.spend(1, 0);
    let little = pace.is_scarce(0) && !pace.is_scarce(500);
    // 157,768 and 157,760
    pace.spend(15_624, 0);
    let later = !pace.is_scarce(500);
    pace.spend(1, 0);
    let mut kilobits = Pace::new(Rate::Kilobits(400));
    kilobits.spend(1_000_000, 5);
    if enough && little && later && pace.is_scarce(500) && !kilobits.is_scarce(5) {
        Ok(())
    } else {
        Err(Fail::from("what is little"))
    }
}

/// In kilobits a second each one closes it until it had its time, and 0 per cent are 32 KiB in all.
#[test]
fn other_paces(_rt: HostRuntime) -> Result<(), Fail> {
    let mut free = Pace::new(Rate::Free);
    free.spend(1_000_000, 5);
    let mut kilobits = Pace::new(Rate::Kilobits(400));
    let at_first = kilobits.is_open(0);
    kilobits.measure(1_000_000, 4);
    // 8000 bits take 20 milliseconds.
    kilobits.spend(1000, 5);
    kilobits.fall(6);
    let then = kilobits.opens() == Some(25) && !kilobits.is_open(24) && kilobits.is_open(25);
    let mut slow = Pace::new(Rate::Percent(0));
    slow.measure(1_000_000, 4);
    if free.is_open(5) && free.opens() == Some(0) && at_first && then && has(&slow, 31_168) {
        Ok(())
    } else {
        Err(Fail::from("the moments"))
    }
}
