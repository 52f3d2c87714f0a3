//! A session as one text, which costs a proof little, however long it is: a config line, and then lines of two parts. `EVENT
//! => LINE` is an event of a script and the log's line that answers it. The others are no script's:
//!
//! - `times 7 EVENT` is the event seven times, whatever the log tells of it;
//! - `settle 5` is the round at the moment 5, and a line `=> LINE` behind it is each of its entries in turn;
//! - `missing 1` says how many places are missing;
//! - `close` says that `World::close` answers true, `open` that it answers false; `settled` and `unsettled` say so of
//!   `World::is_settled`.
//!
//! Whatever meets a want of memory is done once more.

use lines::{parse_between, parse_config, parse_event, push_entry};
use rtpwire::Datagram;
use std::alloc::Global;
use std::test::Fail;
use stores::{History, ListHistory, ListWindow, RingHistory, RingWindow, Window};
use world::{Config, Entry, Event, Label, World};

/// The configuration of a text's first line.
pub(crate) fn config(line: &str) -> Result<Config, Fail> {
    Ok(parse_config(line.as_bytes()).ok_or("a config line")?)
}

/// The event of a further line.
pub(crate) fn event(line: &str) -> Result<Event, Fail> {
    Ok(parse_event(line.as_bytes()).ok_or("an event line")?)
}

/// Does an event, and tells whether there was memory for it.
pub(crate) fn does<H: History, W: Window>(world: &mut World<H, W>, event: &Event) -> bool {
    world.step(event).is_ok()
}

/// How long the log and the wire are.
fn lengths<H: History, W: Window>(world: &World<H, W>) -> (usize, usize) {
    (world.log().len(), world.wire().len())
}

/// Does an event. A step whose growth is refused leaves the log and the wire as they were, and is done again.
fn does_again<H: History, W: Window>(world: &mut World<H, W>, line: &str) -> bool {
    let Some(event) = parse_event(line.as_bytes()) else {
        return false;
    };
    let before = lengths(world);
    does(world, &event) || lengths(world) == before && does(world, &event)
}

/// The number that a word writes.
fn number(word: &str) -> Option<u64> {
    parse_between(word.as_bytes(), 0, 1_000_000)
}

/// Does an event so many times.
pub(crate) fn repeats<H: History, W: Window>(
    world: &mut World<H, W>,
    times: u64,
    line: &str,
) -> bool {
    for _ in 0..times {
        if !does_again(world, line) {
            return false;
        }
    }
    true
}

/// Does what stands behind `times `.
fn repeats_words<H: History, W: Window>(world: &mut World<H, W>, words: &str) -> bool {
    match words.split_once(' ') {
        Some((times, line)) => match number(times) {
            Some(times) => repeats(world, times, line),
            None => false,
        },
        None => false,
    }
}

/// Does a round at a moment, and tells whether it answers how many entries it has.
fn settles<H: History, W: Window>(world: &mut World<H, W>, moment: &str) -> bool {
    let before = world.log().len() as u64;
    match number(moment) {
        Some(now) => match world.settle(now) {
            Ok(count) => world.log().len() as u64 == before.wrapping_add(count),
            Err(_) => false,
        },
        None => false,
    }
}

/// Whether so many places are missing.
fn misses<H: History, W: Window>(world: &World<H, W>, count: &str) -> bool {
    number(count) == Some(world.window().missing() as u64)
}

/// Does what stands before `=> `, and tells whether it is so.
fn obeys<H: History, W: Window>(world: &mut World<H, W>, told: &mut usize, command: &str) -> bool {
    if let Some(words) = command.strip_prefix("times ") {
        let done = repeats_words(world, words);
        *told = world.log().len();
        done
    } else if let Some(moment) = command.strip_prefix("settle ") {
        settles(world, moment)
    } else if let Some(count) = command.strip_prefix("missing ") {
        misses(world, count)
    } else if command == "close" || command == "open" {
        world.close() == (command == "close")
    } else if command == "settled" || command == "unsettled" {
        world.is_settled() == (command == "settled")
    } else {
        does_again(world, command)
    }
}

/// Whether an entry's line is this.
fn is_line(alloc: Global, entry: &Entry, wire: &[(Label, Datagram)], want: &str) -> bool {
    let mut text = Vec::new(alloc);
    push_entry(&mut text, entry, wire).is_ok() && text.strip_suffix(b"\n") == Some(want.as_bytes())
}

/// Whether the line of the log's entry with this number is this.
pub(crate) fn tells<H: History, W: Window>(
    alloc: Global,
    world: &World<H, W>,
    number: usize,
    want: &str,
) -> bool {
    match world.log().get(number) {
        Some(entry) => {
            is_line(alloc, entry, world.wire(), want) || is_line(alloc, entry, world.wire(), want)
        }
        None => false,
    }
}

/// Whether a line is so. All entries that were told before are to be all that there are when something is done.
fn goes_on<H: History, W: Window>(
    alloc: Global,
    world: &mut World<H, W>,
    told: &mut usize,
    line: &str,
) -> bool {
    let (command, want) = match line.split_once("=> ") {
        Some((command, want)) => (command.trim_end(), Some(want)),
        None => (line, None),
    };
    if !command.is_empty() && (*told != world.log().len() || !obeys(world, told, command)) {
        return false;
    }
    match want {
        Some(want) => {
            let number = *told;
            *told = number.saturating_add(1);
            tells(alloc, world, number, want)
        }
        None => true,
    }
}

/// Does further lines in a world. What its log has so far need not be told.
pub(crate) fn goes_through<H: History, W: Window>(
    alloc: Global,
    world: &mut World<H, W>,
    lines: &'static str,
) -> Result<(), Fail> {
    let mut told = world.log().len();
    for line in lines.lines() {
        if !goes_on(alloc, world, &mut told, line) {
            return Err(Fail::from(line));
        }
    }
    if told == world.log().len() {
        Ok(())
    } else {
        Err(Fail::from("an entry that no line tells"))
    }
}

/// A new world, if there was memory for it.
fn made<H: History, W: Window>(alloc: Global, config: &Config) -> Option<World<H, W>> {
    World::new(alloc, config).ok()
}

/// A new world. One whose growth is refused is made again.
pub(crate) fn world_of<H: History, W: Window>(
    alloc: Global,
    config: &Config,
) -> Result<World<H, W>, Fail> {
    match made(alloc, config) {
        Some(world) => Ok(world),
        None => Ok(made(alloc, config).ok_or("memory is ample")?),
    }
}

/// A new world of a config line.
pub(crate) fn new_world<H: History, W: Window>(
    alloc: Global,
    line: &str,
) -> Result<World<H, W>, Fail> {
    world_of(alloc, &config(line)?)
}

/// Does a session, in a new world over these stores.
pub(crate) fn goes_in<H: History, W: Window>(
    alloc: Global,
    text: &'static str,
) -> Result<World<H, W>, Fail> {
    let (first, rest) = text.split_once('\n').ok_or("more than one line")?;
    let mut world = new_world::<H, W>(alloc, first)?;
    goes_through(alloc, &mut world, rest)?;
    Ok(world)
}

/// Does a session in two new worlds, over plain lists and over rings.
pub(crate) fn goes(alloc: Global, text: &'static str) -> Result<(), Fail> {
    goes_in::<ListHistory, ListWindow>(alloc, text)?;
    goes_in::<RingHistory, RingWindow>(alloc, text)?;
    Ok(())
}
