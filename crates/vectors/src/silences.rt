//! Silences in which packets were lost: when each of them was sent.
use places::Place;
use std::test::Fail;
use timing::{Arrivals, Silence};

/// The place of this value.
fn place(value: u64) -> Result<Place, Fail> {
    match Place::new(value) {
        Some(place) => Ok(place),
        None => Err(Fail::from("a place")),
    }
}

fn silence(peak: u64) -> Result<Silence, Fail> {
    Ok(Silence {
        below: place(70100)?,
        above: place(70200)?,
        length: 10000,
        peak,
    })
}

#[test]
fn losses_lie_evenly_or_right_before_the_end(_rt: HostRuntime) -> Result<(), Fail> {
    // One each 100 milliseconds, as many as came before.
    let evenly = silence(10)?;
    let all = evenly.lead(70150) == 5000 && evenly.lead(70199) == 100 && evenly.lead(70101) == 9900;
    // The stream was ten times as fast: it paused, and these are its latest.
    let late = silence(100)?;
    let paused = late.lead(70150) == 500 && late.lead(70101) == 990;
    // It was slower: they lie over all of it.
    let slow = silence(1)?.lead(70101) == 9900;
    let others = evenly.lead(70100) == 0 && evenly.lead(70200) == 0 && silence(0)?.lead(70150) == 0;
    if all && paused && slow && others {
        Ok(())
    } else {
        Err(Fail::from("when they were sent"))
    }
}

/// What came behind fifty packets a second for four seconds, of places 70000 to 70199: the highest place before it, the next one to play,
/// its place and its moment.
const LATER: [(u64, u64, u64, u64); 5] = [
    // Five seconds, in which 249 were lost.
    (70199, 70200, 70449, 8980),
    // A tenth of a second and more, in which five were lost, while places of that silence are waited for.
    (70449, 70440, 70455, 9100),
    // A packet that comes late.
    (70455, 70440, 70445, 9110),
    // One behind 90 milliseconds, when all of those were passed: four could have come, and none was late.
    (70455, 70456, 70457, 9190),
    // It paused for five seconds.
    (70457, 70458, 70460, 14120),
];

/// From how long on something is late in a silence, in milliseconds.
const LEAST: u64 = 100;

/// They come, up to so many of these.
fn come(arrivals: &mut Arrivals, later: usize) -> Result<(), Fail> {
    let mut highest = None;
    for i in 0..200_u64 {
        let next = place(70000_u64.saturating_add(i))?;
        arrivals.come(
            highest,
            Some(next.value()),
            LEAST,
            next,
            i.saturating_mul(20),
        );
        highest = Some(next);
    }
    for (index, (highest, cursor, value, now)) in LATER.iter().enumerate() {
        if index < later {
            arrivals.come(
                Some(place(*highest)?),
                Some(*cursor),
                LEAST,
                place(*value)?,
                *now,
            );
        }
    }
    Ok(())
}

/// How long before its notice the packet of a place was sent, after so many of these.
fn lead(later: usize, place: u64) -> Result<u64, Fail> {
    let mut arrivals = Arrivals::new();
    come(&mut arrivals, later)?;
    Ok(arrivals.lead(place))
}

/// The same after all of these and a restart.
fn lead_anew(place: u64) -> Result<u64, Fail> {
    let mut arrivals = Arrivals::new();
    come(&mut arrivals, 5)?;
    arrivals.restart(14130);
    Ok(arrivals.lead(place))
}

#[test]
fn the_longest_silence_is_told(_rt: HostRuntime) -> Result<(), Fail> {
    let nothing = lead(0, 70199)? == 0;
    let told = lead(1, 70439)? == 200 && lead(1, 70200)? == 4980;
    let still = lead(2, 70439)? == 200 && lead(2, 70454)? == 0;
    let late = lead(3, 70439)? == 200;
    let short = lead(4, 70456)? == 0;
    let paused = lead(5, 70458)? == 40 && lead(5, 70459)? == 20;
    if nothing && told && still && late && short && paused && lead_anew(70458)? == 0 {
        Ok(())
    } else {
        Err(Fail::from("what a silence tells"))
    }
}

/// How long before its notice the last packet was sent that was lost before this one, of a stream of thirty packets a second.
fn lead_of_frames(lost: u64) -> Result<u64, Fail> {
    let mut arrivals = Arrivals::new();
    let mut highest = None;
    for i in 0..60_u64 {
        let next = place(70000_u64.saturating_add(i))?;
        arrivals.come(highest, Some(next.value()), 50, next, i.saturating_mul(33));
        highest = Some(next);
    }
    let next = place(70060_u64.saturating_add(lost))?;
    let now = 60_u64.saturating_add(lost).saturating_mul(33);
    arrivals.come(highest, Some(70060), 50, next, now);
    Ok(arrivals.lead(next.value().saturating_sub(1)))
}

/// Where pictures come one a packet, one that is lost is no silence, nor are two in a row. Behind three the next one lies four gaps later.
#[test]
fn a_lost_picture_is_no_silence(_rt: HostRuntime) -> Result<(), Fail> {
    let few = lead_of_frames(1)? == 0 && lead_of_frames(2)? == 0;
    if few && lead_of_frames(3)? == 32 {
        Ok(())
    } else {
        Err(Fail::from("what a silence tells"))
    }
}
