//! Growths that are refused: `rt try --test --fail-alloc N` refuses the Nth allocation of each test. With memory back, what
//! met a want of it gives what it would have given.

use crate::sessions::{config, event, goes_in, goes_through, tells};
use std::alloc::Global;
use std::test::Fail;
use stores::{History, ListHistory, ListWindow, RingHistory, RingWindow, Window};
use world::{Config, Event, World, run};

/// A list grows for its items 0, 1, 2, 4, 8 and 16. The log does so for a send, for deliveries of media and of an ask,
/// for a play, for an injection at the sender and for an ask.
const FIRST: &str = "\
     config 1 5 8 8 100 20 3 2\n\
     S 0 0 0 aa - - => sent 65537 0 806000010000000011111111aa\n\
     D 0 0 => taken 65537 0\n\
     P 0 => play 65537 0 0 aa - -\n\
     S 0 0 0 aa - - => sent 65538 1 806000020000000011111111aa\n\
     I s - 0 => refused 11\n\
     S 0 0 0 aa - - => sent 65539 2 806000030000000011111111aa\n\
     D 2 0 => taken 65539 0\n\
     P 0 => wait\n\
     A 0 => ask 3 81cd0003333333331111111100020000\n\
     I r - 0 => refused 1\n\
     R => repair none\n\
     P 0 => wait\n\
     D 9 0 => nothing\n\
     A 1 => ask none\n\
     I r - 0 => refused 1\n\
     P 1 => wait\n\
     D 3 1 => marked 1\n\
     R => repair 65538 4 8061000500000000222222220002aa\n\
     D 4 1 => taken 65538 0\n\
     P 1 => play 65538 0 0 aa - -";

/// The log grows for an injection at the receiver, for sends, for a repair and for its delivery.
const SECOND: &str = "\
     config 1 5 8 8 100 20 3 2\n\
     I r - 0 => refused 1\n\
     S 0 0 0 aa - - => sent 65537 0 806000010000000011111111aa\n\
     S 0 0 0 aa - - => sent 65538 1 806000020000000011111111aa\n\
     I s 81cd0003333333331111111100020000 0 => marked 1\n\
     R => repair 65538 2 8061000500000000222222220002aa\n\
     S 0 0 0 aa - - => sent 65539 3 806000030000000011111111aa\n\
     D 0 0 => taken 65537 0\n\
     D 3 0 => taken 65539 0\n\
     D 2 0 => taken 65538 0\n\
     P 0 => play 65537 0 0 aa - -";

#[test]
fn a_refused_growth(rt: HostRuntime) -> Result<(), Fail> {
    goes_in::<ListHistory, ListWindow>(rt.alloc(), FIRST)?;
    Ok(())
}

#[test]
fn a_refused_growth_over_rings(rt: HostRuntime) -> Result<(), Fail> {
    goes_in::<RingHistory, RingWindow>(rt.alloc(), FIRST)?;
    Ok(())
}

#[test]
fn a_refused_growth_for_a_repair(rt: HostRuntime) -> Result<(), Fail> {
    goes_in::<ListHistory, ListWindow>(rt.alloc(), SECOND)?;
    Ok(())
}

/// How many entries the log has from one on, where these are the first of these lines.
fn told<H: History, W: Window>(
    alloc: Global,
    world: &World<H, W>,
    from: usize,
    lines: &str,
) -> Option<usize> {
    let mut count = 0usize;
    for line in lines.lines() {
        let number = from.saturating_add(count);
        if number < world.log().len() {
            if !tells(alloc, world, number, line) {
                return None;
            }
            count = count.saturating_add(1);
        }
    }
    (from.saturating_add(count) == world.log().len()).then_some(count)
}

/// The world after some events, if there was memory for it.
fn ran(alloc: Global, config: &Config, events: &[Event]) -> Option<World<ListHistory, ListWindow>> {
    run(alloc, config, events).ok()
}

/// A run that met a want of memory is the same run with memory back.
#[test]
fn a_run_with_a_refused_growth(rt: HostRuntime) -> Result<(), Fail> {
    let config = config("config 1 5 8 8 100 20 3 2")?;
    let events = [
        event("S 0 0 0 aa - -")?,
        Event::Deliver(0, 0),
        Event::Ask(0),
        Event::Repair,
        Event::Play(0),
    ];
    let world = match ran(rt.alloc(), &config, &events) {
        Some(world) => world,
        None => ran(rt.alloc(), &config, &events).ok_or("memory is back")?,
    };
    let lines = "sent 65537 0 806000010000000011111111aa\n\
        taken 65537 0\n\
        ask none\n\
        repair none\n\
        play 65537 0 0 aa - -";
    assert_eq!(rt; told(rt.alloc(), &world, 0, lines), Some(5));
    Ok(())
}

/// Does a round at a moment, and tells whether there was memory for it.
fn settled<H: History, W: Window>(world: &mut World<H, W>, now: u64) -> bool {
    world.settle(now).is_ok()
}

/// The second of three packets is missing.
const MISSING: &str = "\
     config 1 5 8 8 100 20 3 2\n\
     S 0 0 0 aa - - => sent 65537 0 806000010000000011111111aa\n\
     S 0 0 0 aa - - => sent 65538 1 806000020000000011111111aa\n\
     S 0 0 0 aa - - => sent 65539 2 806000030000000011111111aa\n\
     D 0 0 => taken 65537 0\n\
     D 2 0 => taken 65539 0";

/// The round that mends it.
const ROUND: &str = "\
     ask 3 81cd0003333333331111111100020000\n\
     marked 1\n\
     ask none\n\
     repair 65538 4 8061000500000000222222220002aa\n\
     taken 65538 0\n\
     repair none";

/// A round that met a want of memory did a beginning of its events. With memory back, a later one mends.
#[test]
fn a_round_with_a_refused_growth(rt: HostRuntime) -> Result<(), Fail> {
    let mut world = goes_in::<ListHistory, ListWindow>(rt.alloc(), MISSING)?;
    let is_done = settled(&mut world, 0);
    let count = told(rt.alloc(), &world, 5, ROUND).ok_or("no beginning of the round")?;
    assert_eq!(rt; is_done, count == 6);
    assert!(rt; settled(&mut world, 20));
    goes_through(
        rt.alloc(),
        &mut world,
        "P 20 => play 65537 0 0 aa - -\n\
         P 20 => play 65538 0 0 aa - -\n\
         P 20 => play 65539 0 0 aa - -\n\
         P 20 => wait",
    )
}
