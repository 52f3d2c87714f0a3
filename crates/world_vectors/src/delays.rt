//! Worlds whose receiver waits a delay before it asks for a missing place for the first time.

use crate::both_stores::LOSS_ACROSS_THE_WRAP;
use crate::long_runs::draw;
use crate::sessions::{config, does, goes_through, world_of};
use std::alloc::Global;
use std::test::Fail;
use stores::{History, ListHistory, ListWindow, RingHistory, RingWindow, Window};
use world::{Config, Event, World, numbered_content};

/// Does a session in a new world with this delay.
fn goes_in<H: History, W: Window>(
    alloc: Global,
    delay: u64,
    text: &'static str,
) -> Result<(), Fail> {
    let (first, rest) = text.split_once('\n').ok_or("more than one line")?;
    let mut world = world_of::<H, W>(alloc, &config(first)?.with_delay(delay))?;
    goes_through(alloc, &mut world, rest)
}

/// Does a session in two new worlds with this delay, over plain lists and over rings.
fn goes(alloc: Global, delay: u64, text: &'static str) -> Result<(), Fail> {
    goes_in::<ListHistory, ListWindow>(alloc, delay, text)?;
    goes_in::<RingHistory, RingWindow>(alloc, delay, text)
}

/// The second of three packets is missing from moment 10 on, and comes at 39. The same session asks for it at 10 where there
/// is no delay.
#[test]
fn a_packet_that_comes_within_the_delay(rt: HostRuntime) -> Result<(), Fail> {
    goes(
        rt.alloc(),
        30,
        "config 65535 5 16 8 100 20 3 2\n\
         times 3 S 0 0 0 aa - -\n\
         D 0 0 => taken 131071 0\n\
         D 2 10 => taken 131073 0\n\
         A 10 => ask none\n\
         settle 39\n\
         => ask none\n\
         => repair none\n\
         D 1 39 => taken 131072 0\n\
         A 40 => ask none\n\
         P 40 => play 131071 0 0 aa - -\n\
         P 40 => play 131072 0 0 aa - -\n\
         P 40 => play 131073 0 0 aa - -\n\
         P 40 => wait\n\
         close",
    )?;
    goes(
        rt.alloc(),
        0,
        "config 65535 5 16 8 100 20 3 2\n\
         times 3 S 0 0 0 aa - -\n\
         D 0 0 => taken 131071 0\n\
         D 2 10 => taken 131073 0\n\
         A 10 => ask 3 81cd0003333333331111111100000000",
    )
}

/// Place 131072 is missing from moment 10 on and only late; 131074 is lost, and missing from 20 on. A round at 49 asks for
/// nothing, and one at 50 mends it. What was asked for once waits for the retry, and not for the delay once more.
#[test]
fn a_round_behind_the_delay(rt: HostRuntime) -> Result<(), Fail> {
    goes(
        rt.alloc(),
        30,
        "config 65535 5 16 8 100 7 3 2\n\
         times 5 S 0 0 0 aa - -\n\
         D 0 0 => taken 131071 0\n\
         D 2 10 => taken 131073 0\n\
         D 4 20 => taken 131075 0\n\
         D 1 25 => taken 131072 0\n\
         settle 49\n\
         => ask none\n\
         => repair none\n\
         A 50 => ask 5 81cd0003333333331111111100020000\n\
         A 56 => ask none\n\
         settle 57\n\
         => ask 6 81cd0003333333331111111100020000\n\
         => marked 1\n\
         => ask none\n\
         => repair 131074 7 8061000500000000222222220002aa\n\
         => taken 131074 0\n\
         => repair none\n\
         close\n\
         P 57 => play 131071 0 0 aa - -\n\
         P 57 => play 131072 0 0 aa - -\n\
         P 57 => play 131073 0 0 aa - -\n\
         P 57 => play 131074 0 0 aa - -\n\
         P 57 => play 131075 0 0 aa - -\n\
         P 57 => wait",
    )
}

/// A delay above the patience: the place is given up, and never asked for.
#[test]
fn a_delay_above_the_patience(rt: HostRuntime) -> Result<(), Fail> {
    goes(
        rt.alloc(),
        101,
        "config 1 5 8 8 100 20 3 2\n\
         times 3 S 0 0 0 aa - -\n\
         D 0 0 => taken 65537 0\n\
         D 2 5 => taken 65539 0\n\
         P 5 => play 65537 0 0 aa - -\n\
         A 105 => ask none\n\
         P 105 => gap 65538\n\
         A 106 => ask none\n\
         P 106 => play 65539 0 0 aa - -\n\
         close",
    )
}

/// A configuration that says nothing of a delay has none.
#[test]
fn a_session_without_a_delay(rt: HostRuntime) -> Result<(), Fail> {
    goes(rt.alloc(), 0, LOSS_ACROSS_THE_WRAP)
}

/// A world in which 600 drawn events happened. A delivery is one of the latest twelve datagrams of its wire.
fn drawn(alloc: Global, config: &Config) -> Result<World<RingHistory, RingWindow>, Fail> {
    let mut world = world_of(alloc, config)?;
    let mut state = 3;
    for now in 0..600u64 {
        let event = match draw(&mut state, 10) {
            0..=2 => Event::Send(numbered_content(now), 0),
            3..=5 => {
                let behind = draw(&mut state, 12).wrapping_add(1);
                Event::Deliver((world.wire().len() as u64).saturating_sub(behind), now)
            }
            6 => Event::Ask(now),
            7 => Event::Repair,
            _ => Event::Play(now),
        };
        if !does(&mut world, &event) {
            return Err(Fail::from("memory is ample"));
        }
    }
    Ok(world)
}

/// The same log with no delay as with none said; another one with a delay of five milliseconds.
#[test]
fn drawn_events_without_a_delay(rt: HostRuntime) -> Result<(), Fail> {
    let config = config("config 65500 5 64 64 60 8 3 2")?;
    let today = drawn(rt.alloc(), &config)?;
    for none in [config.with_delay(0), config.with_delay(9).with_delay(0)] {
        let same = drawn(rt.alloc(), &none)?;
        assert!(rt; same.log() == today.log());
    }
    let other = drawn(rt.alloc(), &config.with_delay(5))?;
    assert!(rt; other.log() != today.log());
    Ok(())
}
