//! How soon a packet is retransmitted again: rows of moments, worked by hand.
use std::test::Fail;
use timing::ResendInterval;

/// So many packets, this far apart.
fn sent_each(gap: u64, packets: u64) -> ResendInterval {
    let mut interval = ResendInterval::new();
    for step in 0..packets {
        interval.send(step.saturating_mul(gap));
    }
    interval
}

/// So many leave at one moment.
fn resend_many(interval: &mut ResendInterval, many: u8, now: u64) {
    for _ in 0..many {
        interval.resend(now);
    }
}

#[test]
fn answers_that_took_longer(_rt: HostRuntime) -> Result<(), Fail> {
    // How long an answer took, and the interval then, where it is ten at least. 40, and then an eighth longer and one each time: 46, 52, 59, 67,
    // 76, 86, 97, 110 and 124, of which what is above twice 40 counts; and what is shorter at once.
    let rows = [
        (40, 10),
        (300, 10),
        (300, 10),
        (300, 10),
        (300, 10),
        (300, 10),
        (300, 10),
        (300, 17),
        (300, 30),
        (300, 44),
        (100, 20),
        (45, 10),
        // From 30 on twice that is 60: 34, 39, 44, 50, 57 and 65.
        (30, 10),
        (300, 10),
        (300, 10),
        (300, 10),
        (300, 10),
        (300, 10),
        (300, 10),
        // 74
        (300, 14),
    ];
    let mut interval = sent_each(5, 199);
    let mut are_right = interval.at(10, 990) == 10;
    for (took, told) in rows {
        interval.hear(took, 990);
        are_right = are_right && interval.at(10, 990) == told;
    }
    // The least is forgotten after thirty seconds.
    are_right = are_right && interval.at(10, 19989) == 14 && interval.at(10, 30990) == 10;
    if are_right {
        Ok(())
    } else {
        Err(Fail::from("the intervals"))
    }
}

#[test]
fn what_left_together(_rt: HostRuntime) -> Result<(), Fail> {
    let mut interval = sent_each(5, 199);
    interval.hear(40, 1000);
    // Ten at once take ten gaps, behind which an answer comes forty later, while more than twenty of it are left; and the next two are behind
    // them.
    resend_many(&mut interval, 10, 1000);
    let ten = interval.at(10, 1000) == 90
        && interval.at(10, 1029) == 61
        && interval.at(10, 1030) == 10;
    resend_many(&mut interval, 2, 1020);
    let twelve = interval.at(10, 1020) == 80
        && interval.at(10, 1039) == 61
        && interval.at(10, 1040) == 10;
    // Later nothing is behind them any more, and four take no more than half of an answer.
    resend_many(&mut interval, 4, 2000);
    let four = interval.at(10, 2000) == 10 && interval.at(60, 2000) == 60;
    resend_many(&mut interval, 2, 2000);
    let later = four && interval.at(10, 2000) == 70;
    if ten && twelve && later {
        Ok(())
    } else {
        Err(Fail::from("the intervals"))
    }
}

/// A pause of five seconds is a gap of 100 milliseconds, which counts for a sixty-fourth: 1.97 and 1.56 are 3.53. Before an answer was heard
/// nothing is waited for.
#[test]
fn a_pause_is_no_gap(_rt: HostRuntime) -> Result<(), Fail> {
    let mut interval = sent_each(2, 496);
    interval.send(5990);
    interval.resend(6000);
    let before = interval.at(1, 6000) == 1;
    interval.hear(5, 6000);
    let one = interval.at(1, 6000) == 8;
    resend_many(&mut interval, 9, 6000);
    let ten = interval.at(1, 6000) == 40;
    if before && one && ten {
        Ok(())
    } else {
        Err(Fail::from("the intervals"))
    }
}

/// Sound comes each twenty milliseconds, and a path takes five for one of its packets at most: four are half of an answer of forty, and five
/// are more.
#[test]
fn a_slow_stream_is_no_slow_path(_rt: HostRuntime) -> Result<(), Fail> {
    let mut interval = sent_each(20, 50);
    interval.hear(40, 1000);
    resend_many(&mut interval, 4, 1000);
    let four = interval.at(10, 1000) == 10;
    resend_many(&mut interval, 1, 1000);
    let five = interval.at(10, 1000) == 65;
    if four && five {
        Ok(())
    } else {
        Err(Fail::from("the intervals"))
    }
}
