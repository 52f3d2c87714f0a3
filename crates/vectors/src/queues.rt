//! Asks over a path on which a queue fills: that two have their answers in time where they may, and what no answer at all says.
use places::Place;
use std::test::Fail;
use timing::{Path, RoundTrip};

/// The times of asks for this patience, at this moment.
fn over(path: &Path, patience: u64, now: u64) -> (u64, u64) {
    match path.times(patience, now) {
        Some(times) => (times.delay, times.retry),
        None => (0, 0),
    }
}

#[test]
fn places_are_asked_for_twice(_rt: HostRuntime) -> Result<(), Fail> {
    let mut path = Path::new();
    path.trip.ask(Place::first(1), 0);
    let _ = path.trip.hear(Place::first(1), 150);
    // 150, with a variation of 75: an answer takes 230, and 155 with no queue on the way.
    let rows = [
        // Two such answers have no time.
        (200, (0, 200)),
        (309, (0, 309)),
        // They do just, and so on: the second ask is made when half of the patience is over.
        (310, (0, 155)),
        (400, (0, 200)),
        (459, (0, 230)),
        // Two have it as they are, and three.
        (460, (0, 230)),
        (480, (0, 250)),
        (690, (0, 230)),
    ];
    for (patience, wanted) in rows {
        if over(&path, patience, 150) != wanted {
            return Err(Fail::from("the second ask"));
        }
    }
    // Half a minute later it is not known any more what one takes with no queue on the way.
    let forgotten = over(&path, 200, 40000) == (0, 100) && over(&path, 480, 40000) == (0, 250);
    if forgotten {
        Ok(())
    } else {
        Err(Fail::from("the second ask over an unknown path"))
    }
}

/// A path of an answer of 100, with a variation of 50, over which so many packets came, and so many retransmissions beside that one.
fn lossy(taken: u64, repaired: u64) -> Path {
    let mut path = Path::new();
    for _ in 0..taken {
        path.take(100);
    }
    path.trip.ask(Place::first(1), 0);
    let _ = path.repair(Place::first(1), 100);
    for _ in 0..repaired {
        let _ = path.repair(Place::first(2), 100);
    }
    path
}

#[test]
fn many_losses_are_asked_for_sooner(_rt: HostRuntime) -> Result<(), Fail> {
    // Of 32 four are lost, which is few: an answer takes 155, and two more asks have theirs in time.
    let few = over(&lossy(28, 3), 600, 100) == (0, 222);
    // Of 31 they are many: it takes 105, and four have, the last one also if it takes 155.
    let many = over(&lossy(27, 3), 600, 100) == (0, 111);
    // Three are none.
    let still_few = over(&lossy(9, 2), 600, 100) == (0, 222);
    // What was lost long ago is none.
    let forgotten = over(&lossy(27, 3), 600, 20000) == (0, 222);
    if few && many && still_few && forgotten {
        Ok(())
    } else {
        Err(Fail::from("asks where many are lost"))
    }
}

#[test]
fn a_second_answer_tells_of_the_path_without_a_queue(_rt: HostRuntime) -> Result<(), Fail> {
    let mut path = Path::new();
    let place = Place::first(1);
    path.trip.ask(place, 1000);
    path.trip.doubt(1100);
    let first = path.trip.hear(place, 1150);
    let unknown = path.trip.least(1150) == 60000;
    let second = path.trip.hear_again(place, 1250);
    // 150 from the first ask on, without doubt.
    let known = path.trip.least(1250) == 150 && over(&path, 200, 1250) == (0, 200);
    if !first && unknown && second && known {
        Ok(())
    } else {
        Err(Fail::from("the least of what comes twice"))
    }
}

/// A place is asked for at a moment, and given up so long after it. Whether that was a measurement.
fn give_up(trip: &mut RoundTrip, asked: u64, waited: u64) -> bool {
    let place = Place::first(7);
    trip.ask(place, asked);
    let now = asked.saturating_add(waited);
    let other = trip.give_up(Place::first(8), now);
    trip.give_up(place, now) || other
}

/// A place is asked for twice, and a retransmission comes, so which ask that answers is not known. Whether that was a measurement.
fn hear_in_doubt(trip: &mut RoundTrip, asked: u64) -> bool {
    let place = Place::first(9);
    trip.ask(place, asked);
    trip.doubt(asked.saturating_add(50));
    trip.hear(place, asked.saturating_add(90))
}

#[test]
fn the_third_without_an_answer_counts(_rt: HostRuntime) -> Result<(), Fail> {
    let mut trip = RoundTrip::new();
    let nothing = give_up(&mut trip, 0, 900)
        || give_up(&mut trip, 1000, 900)
        || trip.time().is_some();
    // It was waited for 250, so an answer takes that, and half of it more, and five.
    let third = give_up(&mut trip, 2000, 250) && trip.smoothed().map(|s| s.answer()) == Some(380);
    // The count begins anew.
    let fourth = give_up(&mut trip, 3000, 900) || give_up(&mut trip, 4000, 900);
    // It begins anew by an answer too, though that is in doubt.
    let answered = hear_in_doubt(&mut trip, 5000) || trip.time() != Some(250);
    let after = give_up(&mut trip, 6000, 900) || give_up(&mut trip, 7000, 900);
    // The third one says nothing where it was waited for no longer than that.
    let short = give_up(&mut trip, 8000, 250) || trip.time() != Some(250);
    let again = give_up(&mut trip, 9000, 900) || give_up(&mut trip, 10000, 900);
    let long = give_up(&mut trip, 11000, 251) && trip.time() == Some(251);
    if !nothing && third && !fourth && !answered && !after && !short && !again && long {
        Ok(())
    } else {
        Err(Fail::from("what has no answer"))
    }
}

#[test]
fn nothing_is_said_where_answers_come(_rt: HostRuntime) -> Result<(), Fail> {
    let mut trip = RoundTrip::new();
    let mut told = give_up(&mut trip, 0, 900) || give_up(&mut trip, 1000, 900);
    // One came without doubt: it took 90, and none that is lost says more.
    trip.ask(Place::first(9), 2000);
    let known = trip.hear(Place::first(9), 2090);
    for turn in 3..20 {
        told = told || give_up(&mut trip, turn * 1000, 900);
    }
    let kept = trip.time() == Some(90) && trip.place().is_none();
    // That is remembered until the moment 20000, and nothing was counted before.
    let after = give_up(&mut trip, 20000, 900) || give_up(&mut trip, 21000, 900);
    let third = give_up(&mut trip, 22000, 400) && trip.time() == Some(400);
    if !told && known && kept && !after && third {
        Ok(())
    } else {
        Err(Fail::from("what has no answer where others have"))
    }
}

#[test]
fn what_is_played_says_nothing(_rt: HostRuntime) -> Result<(), Fail> {
    let mut trip = RoundTrip::new();
    let place = Place::first(7);
    let mut told = give_up(&mut trip, 0, 100) || give_up(&mut trip, 200, 100);
    // A place that is played has its packet, and no place is given up twice.
    trip.ask(place, 400);
    trip.pass(place);
    told = told || trip.give_up(place, 500);
    // All places are others behind a restart, and what was counted stays; a minute is the longest.
    trip.ask(place, 600);
    trip.forget();
    told = told || trip.give_up(place, 700);
    let third = give_up(&mut trip, 1000, 70000) && trip.time() == Some(60000);
    if !told && third {
        Ok(())
    } else {
        Err(Fail::from("what was not given up"))
    }
}
