//! What is measured of a path, and the times of asks that follow.
use places::Place;
use std::test::Fail;
use timing::{AskTimes, Lately, Path, RoundTrip, Smoothed};

/// How long an answer takes mostly, where that was measured.
fn answer(trip: &RoundTrip) -> Option<u64> {
    Some(trip.smoothed()?.answer())
}

#[test]
fn a_round_trip_time(_rt: HostRuntime) -> Result<(), Fail> {
    let mut trip = RoundTrip::new();
    let nothing = answer(&trip).is_none();
    let place = Place::first(7);
    trip.ask(place, 20);
    // Another one meanwhile is not measured, nor is what was not asked for.
    trip.ask(Place::first(8), 30);
    let other = trip.hear(Place::first(8), 40);
    let first = trip.hear(place, 60);
    // RFC 6298, section 2.2: 40, and a variation of 20; and five.
    let after_one = answer(&trip) == Some(40 + 20 + 5);
    trip.ask(place, 100);
    let second = trip.hear(place, 140);
    // Section 2.3: 40 again, and three of four parts of the variation.
    let after_two = answer(&trip) == Some(40 + 15 + 5);
    // What was played is measured no longer.
    trip.ask(place, 200);
    trip.pass(place);
    let third = trip.hear(place, 900);
    if nothing && !other && first && after_one && second && after_two && !third {
        Ok(())
    } else {
        Err(Fail::from("the times"))
    }
}

#[test]
fn times_in_doubt_are_passed_over_but_each_ninth(_rt: HostRuntime) -> Result<(), Fail> {
    let mut trip = RoundTrip::new();
    let place = Place::first(7);
    let mut doubtful = [true; 9];
    for answer in &mut doubtful {
        trip.ask(place, 0);
        trip.doubt(100);
        *answer = trip.hear(place, 300);
    }
    let late = trip.time() == Some(300);
    // The count begins anew: the next one in doubt is passed over again, and one without doubt counts.
    trip.ask(place, 0);
    trip.doubt(100);
    let tenth = trip.hear(place, 900);
    trip.ask(place, 0);
    let sure = trip.hear(place, 60) && trip.time() == Some(270);
    let wanted = [false, false, false, false, false, false, false, false, true];
    if doubtful == wanted && late && !tenth && sure {
        Ok(())
    } else {
        Err(Fail::from("the times in doubt"))
    }
}

/// A place that is asked for at 1000 and at 1090, and whose answers come at 1200 and at this moment: what is known then of a round trip, that was
/// known to take so long before.
fn answered_twice(known: Option<u64>, second: u64) -> (bool, Option<u64>) {
    let mut trip = RoundTrip::new();
    let place = Place::first(7);
    if let Some(known) = known {
        trip.ask(place, 0);
        let _ = trip.hear(place, known);
    }
    trip.ask(place, 1000);
    trip.doubt(1090);
    trip.doubt(1180);
    let first = trip.hear(place, 1200);
    let other = trip.hear_again(Place::first(8), second);
    let again = trip.hear_again(place, second);
    // A third answer tells nothing more.
    let third = trip.hear_again(place, second);
    (again && !first && !other && !third, trip.time())
}

#[test]
fn answers_that_come_twice(_rt: HostRuntime) -> Result<(), Fail> {
    let rows = [
        // Half of the 90 behind the first one: it was the first ask's, and took 200. It counts at once, where it is longer.
        (None, 1245, (true, Some(200))),
        (Some(56), 1245, (true, Some(200))),
        (Some(240), 1290, (true, Some(235))),
        // A copy of the same answer tells nothing.
        (Some(56), 1244, (false, Some(56))),
        (None, 1200, (false, None)),
    ];
    for (known, second, told) in rows {
        if answered_twice(known, second) != told {
            return Err(Fail::from("what comes twice"));
        }
    }
    Ok(())
}

/// The times over a path of this round-trip time, with a variation of one millisecond, for a patience of 200.
fn times(round_trip: u64, reordering: u64) -> (u64, u64) {
    let smoothed = Smoothed {
        time: round_trip.saturating_mul(8),
        variation: 4,
    };
    fitting(smoothed.answer(), reordering, 1)
}

/// The times where an answer takes so long, and so many asks go before what may be late, for a patience of 200.
fn fitting(answer: u64, reordering: u64, asks: u64) -> (u64, u64) {
    let times = AskTimes::fitting(answer, 200, reordering, asks);
    (times.delay, times.retry)
}

#[test]
fn as_many_asks_as_fit(_rt: HostRuntime) -> Result<(), Fail> {
    // An answer takes 56. Three asks fit, at 0, 72 and 144: the last answer comes at 200.
    let three = times(50, 0) == (0, 72);
    // Behind 32 of reordering they just do, at 32, 88 and 144; and behind 33 two, at 33 and 144.
    let two = times(50, 32) == (32, 56) && times(50, 33) == (33, 111);
    // An answer takes 26: seven fit, at 0, 29, .. 174.
    let seven = times(20, 0) == (0, 29);
    // An answer takes 156: one fits, and no later than at 44.
    let one = times(150, 0) == (0, 200) && times(150, 70) == (44, 200);
    // No answer comes in time: it is asked for at once, and not again.
    let none = times(250, 70) == (0, 256);
    if three && two && seven && one && none {
        Ok(())
    } else {
        Err(Fail::from("the times of asks"))
    }
}

#[test]
fn reordering_is_forgotten(_rt: HostRuntime) -> Result<(), Fail> {
    let mut seen = Lately::new();
    let nothing = seen.greatest(5) == 0;
    seen.see(5, 1000);
    seen.see(3, 2000);
    let first = seen.greatest(2000) == 5 && seen.greatest(19999) == 5 && seen.greatest(20000) == 0;
    seen.see(2, 12000);
    let second = seen.greatest(12000) == 5 && seen.greatest(21999) == 5;
    let third = seen.greatest(22000) == 2 && seen.greatest(31999) == 2 && seen.greatest(32000) == 0;
    if nothing && first && second && third {
        Ok(())
    } else {
        Err(Fail::from("what is remembered"))
    }
}

#[test]
fn so_many_asks_go_first(_rt: HostRuntime) -> Result<(), Fail> {
    // An answer takes 56: two have theirs in time from 88 on, three from 32 on, and four do not fit, so the first is made at once.
    let rows = [
        (56, 100, 1, (100, 200)),
        (56, 100, 2, (88, 56)),
        (56, 100, 3, (32, 56)),
        (56, 20, 3, (20, 62)),
        (56, 100, 4, (0, 72)),
        // None goes first: what is late is waited for, and nothing is asked for again.
        (56, 190, 0, (190, 200)),
        (56, 210, 0, (200, 200)),
        // What takes no time takes a millisecond.
        (0, 0, 1, (0, 1)),
    ];
    for (answer, reordering, asks, wanted) in rows {
        if fitting(answer, reordering, asks) != wanted {
            return Err(Fail::from("the asks that go first"));
        }
    }
    Ok(())
}

/// Media is taken so often, and none of it was missing.
fn take(path: &mut Path, count: u64) {
    for _ in 0..count {
        path.take(100);
    }
}

/// The times that a path has at this moment, for this patience; nothing, where it has none.
fn over(path: &Path, patience: u64, now: u64) -> (u64, u64) {
    match path.times(patience, now) {
        Some(times) => (times.delay, times.retry),
        None => (0, 0),
    }
}

#[test]
fn reordering_is_waited_for_up_to_half_a_round_trip(_rt: HostRuntime) -> Result<(), Fail> {
    let mut path = Path::new();
    let nothing = path.times(200, 30).is_none();
    let more = path.see(10, 30);
    // Ten and a quarter more are waited for, before a round trip is known, and asks lie 40 apart.
    let unknown = over(&path, 200, 30) == (13, 40) && over(&path, 20, 30) == (10, 40);
    take(&mut path, 15);
    let place = Place::first(7);
    path.trip.ask(place, 20);
    // 40, with a variation of 20: an answer takes 65. One in sixteen came late.
    let measured = path.trip.hear(place, 60);
    let as_seen = over(&path, 200, 60) == (13, 122);
    let most = path.see(35, 70) && !path.see(35, 70);
    take(&mut path, 30);
    // 44 would be waited for. Three of 48 came late.
    let half = over(&path, 200, 70) == (20, 115);
    if nothing && more && unknown && measured && as_seen && most && half {
        Ok(())
    } else {
        Err(Fail::from("the times over a path"))
    }
}

/// A path whose round trip takes 40, with a variation of 20; of a thousand packets so many came late, by so much, and so many were lost.
fn lossy(late: u64, behind: u64, lost: u64) -> Path {
    let mut path = Path::new();
    let place = Place::first(7);
    path.trip.ask(place, 20);
    let _ = path.trip.hear(place, 60);
    for _ in 0..late {
        let _ = path.see(behind, 100);
    }
    for _ in 0..lost {
        let _ = path.repair(Place::first(9), 100);
    }
    take(
        &mut path,
        1000_u64.saturating_sub(late).saturating_sub(lost),
    );
    path
}

#[test]
fn losses_say_how_many_asks_go_first(_rt: HostRuntime) -> Result<(), Fail> {
    // 125 would be waited for, of which half of a round trip is 20, and an answer takes 65; for patiences of 140 and of 200.
    let rows = [
        // No more than one in sixteen came late: half of a round trip is waited for.
        (62, 0, (20, 140), (20, 115)),
        (62, 125, (20, 140), (20, 115)),
        // And where more than one in eight was lost, an answer takes 45, and the last one 65.
        (62, 126, (20, 55), (20, 57)),
        (62, 500, (20, 55), (20, 57)),
        // More did, and one in a thousand was lost: what is late is waited for, where an ask still has its answer in time.
        (63, 0, (20, 140), (125, 200)),
        (63, 1, (20, 140), (125, 200)),
        // One in 500, up to one in 32: one ask goes first.
        (63, 2, (20, 140), (20, 115)),
        (500, 31, (20, 140), (20, 115)),
        // Up to one in eight, two.
        (500, 32, (10, 65), (20, 115)),
        (500, 125, (10, 65), (20, 115)),
        // And more, three, where they fit.
        (500, 126, (10, 65), (5, 65)),
        (500, 500, (10, 65), (5, 65)),
    ];
    for (late, lost, short, long) in rows {
        let path = lossy(late, 100, lost);
        if over(&path, 140, 100) != short || over(&path, 200, 100) != long {
            return Err(Fail::from("the asks by what is lost"));
        }
    }
    Ok(())
}

#[test]
fn what_is_late_is_waited_for(_rt: HostRuntime) -> Result<(), Fail> {
    // 135 and an answer of 65 are 200; 137 are too many.
    let fits = over(&lossy(63, 108, 0), 200, 100) == (135, 200);
    let is_too_long = over(&lossy(63, 109, 0), 200, 100) == (20, 115);
    if fits && is_too_long {
        Ok(())
    } else {
        Err(Fail::from("what is waited for"))
    }
}

#[test]
fn losses_are_forgotten(_rt: HostRuntime) -> Result<(), Fail> {
    // Counted from 0 on: for ten seconds. What comes late is waited for by what it was for longer.
    let path = lossy(500, 100, 126);
    let known = over(&path, 200, 4999) == (5, 65) && over(&path, 200, 9999) == (5, 65);
    let forgotten = over(&path, 200, 10000) == (20, 115);
    // What is counted at 5000 begins a span.
    let mut later = lossy(500, 100, 126);
    later.take(5000);
    let goes_on = over(&later, 200, 9999) == (5, 65) && over(&later, 200, 10000) == (20, 115);
    if known && forgotten && goes_on {
        Ok(())
    } else {
        Err(Fail::from("what was counted"))
    }
}

/// A place is asked for, and repaired; and then it comes itself, where it was only late. It answers whether that is later than was known.
fn repair(path: &mut Path, seq: u16, is_late: bool) -> bool {
    let place = Place::first(seq);
    path.trip.ask(place, 50);
    let _ = path.repair(place, 90);
    is_late && path.refuse(place, 100)
}

#[test]
fn what_is_late_is_not_lost(_rt: HostRuntime) -> Result<(), Fail> {
    let mut path = lossy(400, 100, 96);
    let lost = over(&path, 140, 100) == (10, 65);
    // Three of four that are measured were late alone, by no more than others: of a hundred retransmissions 25 were needed.
    let known = repair(&mut path, 10, true)
        || repair(&mut path, 11, true)
        || repair(&mut path, 12, true);
    let one_needed = repair(&mut path, 13, false);
    // An answer takes 40, 6 and five by now: two would have theirs in time from 13 on.
    let few = over(&path, 115, 100) == (20, 115);
    // One comes twice, another one was not measured last, and one is later than was known: by what is waited for.
    let again = path.refuse(Place::first(12), 300) || path.refuse(Place::first(9), 300);
    let much = path.refuse(Place::first(13), 350) && path.reordering.greatest(350) == 300;
    if lost && !known && !one_needed && few && !again && much {
        Ok(())
    } else {
        Err(Fail::from("what was late"))
    }
}

#[test]
fn queues_are_told_from_the_way(_rt: HostRuntime) -> Result<(), Fail> {
    let mut path = Path::new();
    for (seq, asked, came) in [(1, 0, 40), (2, 1000, 1600)] {
        path.trip.ask(Place::first(seq), asked);
        let _ = path.trip.hear(Place::first(seq), came);
    }
    // 110 on the mean, with a variation of 155, and 40 at least. An answer takes 270, which asks lie apart at least where two have so much time.
    let told = path.trip.time() == Some(110) && path.trip.least(1600) == 40;
    let whole = over(&path, 2000, 1600) == (0, 288) && over(&path, 200, 1600) == (0, 100);
    // Where packets come late, 30 of the patience lie in a queue, and asks lie 45 apart.
    let _ = path.see(0, 1600);
    let queued = path.trip.queued(1600) == 30 && over(&path, 200, 1600) == (0, 62);
    // Where they come 20 late, for which 25 are waited, asks lie 70 apart.
    let _ = path.see(20, 1600);
    let overtaken = over(&path, 200, 1600) == (25, 75);
    // The least is forgotten like what is the greatest. What is in doubt is none.
    let forgotten = path.trip.least(40000) == 60000 && path.trip.queued(40000) == 0;
    path.trip.ask(Place::first(3), 40000);
    path.trip.doubt(40010);
    let doubtful = path.trip.hear(Place::first(3), 40020) || path.trip.least(40020) != 60000;
    if told && whole && queued && overtaken && forgotten && !doubtful {
        Ok(())
    } else {
        Err(Fail::from("the queue"))
    }
}

/// A place is asked for, once or twice, and so often answered.
fn answer_often(trip: &mut RoundTrip, is_again: bool, answers: u32) {
    let place = Place::first(7);
    trip.ask(place, 0);
    if is_again {
        trip.doubt(50);
    }
    let _ = trip.hear(place, 60);
    for _ in 1..answers {
        let _ = trip.hear_again(Place::first(8), 60) || trip.hear_again(place, 60);
    }
}

/// So many places are answered once, and then so many twice, each asked for once; and whether both copies are answered then.
fn both_of(single: u32, double: u32) -> (RoundTrip, bool) {
    let mut trip = RoundTrip::new();
    for _ in 0..single {
        answer_often(&mut trip, false, 1);
    }
    for _ in 0..double {
        answer_often(&mut trip, false, 2);
    }
    (trip, trip.answers_both())
}

#[test]
fn both_copies_are_answered(_rt: HostRuntime) -> Result<(), Fail> {
    let rows = [
        // Half of all, and eight
        (0, 0, false),
        (0, 16, false),
        (0, 17, true),
        (1, 17, false),
        (1, 18, true),
        (100, 116, false),
        (100, 117, true),
    ];
    for (single, double, wanted) in rows {
        if both_of(single, double).1 != wanted {
            return Err(Fail::from("the copies"));
        }
    }
    Ok(())
}

#[test]
fn other_answers_are_no_copies(_rt: HostRuntime) -> Result<(), Fail> {
    let mut trip = RoundTrip::new();
    for _ in 0..16 {
        // What comes a third time counts no more, nor does what was asked for twice.
        answer_often(&mut trip, false, 9);
        answer_often(&mut trip, true, 2);
    }
    let none = !trip.answers_both();
    // It stays so, whatever comes then.
    let (mut both, is_both) = both_of(0, 17);
    for _ in 0..50 {
        answer_often(&mut both, false, 1);
    }
    both.forget();
    answer_often(&mut both, false, 2);
    if none && is_both && both.answers_both() {
        Ok(())
    } else {
        Err(Fail::from("other answers"))
    }
}
