//! What is measured of a path beside an endpoint, and the times of asks that follow: a round trip from the first ask for a place to
//! its answer, one place at a time and none in doubt (RFC 6298, sections 2 and 3), and how far packets come behind later ones.
use crate::ends::{Does, config, media, repair, wrong};
use endpoint::*;
use std::alloc::Global;
use std::test::Fail;
use stores::RingWindow;

/// An endpoint, and what is measured beside it.
#[derive(Drop)]
struct Measured {
    endpoint: AskingEndpoint<RingWindow>,
    meter: PathMeter,
}

/// A window of 16; a patience of 200, a first ask after 20, and then one each 40, nine times.
fn start(alloc: Global) -> Result<Measured, Fail> {
    match AskingEndpoint::new(alloc, config(200, 20, 40, 9)?, Probation::usual(), 16) {
        Ok(endpoint) => Ok(Measured {
            endpoint,
            meter: PathMeter::new(),
        }),
        Err(_) => Err(Fail::from("memory is ample")),
    }
}

/// What is done, or wanted.
#[derive(Clone, Copy)]
enum Step {
    /// Media with this number comes.
    Media(u16),
    /// A retransmission of it comes.
    Repair(u16),
    /// Something is asked for.
    Asks,
    /// A place is played or given up.
    Passes,
    /// A play of this place is told.
    Tells(u16),
    /// It is told that this place was given up.
    GivesUp(u16),
    /// Both restart.
    Restarts,
    /// These times are set, and followed anew.
    Sets(u64, u64, u64),
    /// The times of asks follow, for as many as fit into this span.
    Follows(u64),
    /// The round trip, or 0, and whether it is new.
    Knows(u64, bool),
    /// Patience, delay and retry.
    Times(u64, u64, u64),
}

use Step::*;

impl Measured {
    fn hears(&mut self, octets: &[u8], now: u64) {
        let standing = Standing::before(self.endpoint.endpoint().core(), octets);
        let (answer, _) = self.endpoint.on_datagram(octets, now);
        self.meter.hear(&answer, &standing, now);
    }

    /// Whether something is asked for.
    fn asks(&mut self, now: u64) -> bool {
        match self.endpoint.ask_most(now, 100) {
            Some(nack) => {
                self.meter
                    .ask(self.endpoint.endpoint().core(), nack.as_slice(), now);
                true
            }
            None => false,
        }
    }

    /// Whether these times are set.
    fn sets(&mut self, patience: u64, delay: u64, retry: u64) -> bool {
        let is_set = self.endpoint.set_times(patience, delay, retry).is_ok();
        self.meter.renew();
        is_set
    }

    fn restarts(&mut self) {
        self.endpoint.restart();
        self.meter.restart();
    }

    fn knows(&self, trip: u64, is_new: bool) -> bool {
        self.meter.path().trip.time().unwrap_or(0) == trip && self.meter.is_new() == is_new
    }

    fn has_times(&self, patience: u64, delay: u64, retry: u64) -> bool {
        let config = self.endpoint.endpoint().core().config();
        config.patience() == patience && config.delay() == delay && config.retry() == retry
    }
}

impl Does<(u64, Step)> for Measured {
    fn does(&mut self, (now, step): &(u64, Step)) -> bool {
        let now = *now;
        match *step {
            Media(seq) => self.hears(media(seq, 0).as_slice(), now),
            Repair(seq) => self.hears(repair(seq, 0).as_slice(), now),
            Passes => self.endpoint.pass(now),
            Tells(seq) => self.meter.pass(places::Place::first(seq)),
            GivesUp(seq) => self.meter.give_up(places::Place::first(seq), now),
            Restarts => self.restarts(),
            Follows(within) => self.meter.follow(&mut self.endpoint, within, now),
            Asks => return self.asks(now),
            Sets(patience, delay, retry) => return self.sets(patience, delay, retry),
            Knows(trip, is_new) => return self.knows(trip, is_new),
            Times(patience, delay, retry) => return self.has_times(patience, delay, retry),
        }
        true
    }
}

/// The first step that goes wrong, if one does. It has what is large, as whatever a test holds costs its proof.
fn wrong_step(alloc: Global, steps: &[(u64, Step)]) -> Result<Option<usize>, Fail> {
    let mut measured = start(alloc)?;
    Ok(wrong(&mut measured, steps))
}

#[test]
fn a_first_ask(rt: HostRuntime) -> Result<(), Fail> {
    const STEPS: &[(u64, Step)] = &[
        (0, Media(1)),
        (5, Media(3)),
        (25, Asks),
        (25, Knows(0, false)),
        (65, Repair(2)),
        (65, Knows(40, true)),
        (65, Times(200, 20, 40)),
        // An answer takes 40 + 20 + 5, and asks lie no closer: two more fit into the 135 that are left.
        (65, Follows(200)),
        (65, Knows(40, false)),
        (65, Times(200, 0, 67)),
        // One fits into the 85 of 150.
        (65, Follows(150)),
        (65, Times(200, 0, 85)),
    ];
    assert_eq!(rt; wrong_step(rt.alloc(), STEPS)?, None);
    Ok(())
}

#[test]
fn a_second_ask(rt: HostRuntime) -> Result<(), Fail> {
    const STEPS: &[(u64, Step)] = &[
        (0, Media(1)),
        (5, Media(3)),
        (25, Asks),
        (65, Asks),
        // Which of both it answers is not known.
        (70, Repair(2)),
        (70, Knows(0, false)),
        (100, Media(5)),
        (120, Asks),
        (150, Repair(4)),
        (150, Knows(30, true)),
    ];
    assert_eq!(rt; wrong_step(rt.alloc(), STEPS)?, None);
    Ok(())
}

/// Both asks are answered: the first answer was the first ask's, and came too late for the second one.
#[test]
fn a_second_answer(rt: HostRuntime) -> Result<(), Fail> {
    const STEPS: &[(u64, Step)] = &[
        (0, Media(1)),
        (5, Media(3)),
        (25, Asks),
        (65, Asks),
        (90, Repair(2)),
        // What comes again within half of the 40 between both asks is a copy.
        (109, Repair(2)),
        (109, Knows(0, false)),
        (110, Repair(2)),
        (110, Knows(65, true)),
        // It takes 65 + 32 + 5, and 65 + 5 with no queue on the way: each of two asks has half of the 200.
        (110, Follows(200)),
        (110, Times(200, 0, 100)),
    ];
    assert_eq!(rt; wrong_step(rt.alloc(), STEPS)?, None);
    Ok(())
}

/// What is answered again behind a restart was asked for before it.
#[test]
fn a_second_answer_behind_a_restart(rt: HostRuntime) -> Result<(), Fail> {
    const STEPS: &[(u64, Step)] = &[
        (0, Media(1)),
        (5, Media(3)),
        (25, Asks),
        (65, Asks),
        (90, Repair(2)),
        (100, Restarts),
        (100, Media(1)),
        (100, Media(3)),
        (110, Repair(2)),
        (150, Repair(2)),
        (150, Knows(0, false)),
    ];
    assert_eq!(rt; wrong_step(rt.alloc(), STEPS)?, None);
    Ok(())
}

#[test]
fn the_first_of_a_nack_is_measured(rt: HostRuntime) -> Result<(), Fail> {
    const STEPS: &[(u64, Step)] = &[
        (0, Media(1)),
        (0, Media(4)),
        (20, Asks),
        (30, Repair(3)),
        (30, Knows(0, false)),
        (50, Repair(2)),
        (50, Knows(30, true)),
        // Its answer measures it no second time.
        (90, Repair(2)),
        (90, Knows(30, true)),
    ];
    assert_eq!(rt; wrong_step(rt.alloc(), STEPS)?, None);
    Ok(())
}

#[test]
fn a_place_that_is_gone(rt: HostRuntime) -> Result<(), Fail> {
    const STEPS: &[(u64, Step)] = &[
        (0, Media(1)),
        (5, Media(3)),
        (25, Asks),
        // Number 1 is played, and 2 given up. The next one that is asked for is measured.
        (205, Passes),
        (205, Passes),
        (300, Media(5)),
        (320, Asks),
        (345, Repair(4)),
        (345, Knows(25, true)),
    ];
    assert_eq!(rt; wrong_step(rt.alloc(), STEPS)?, None);
    Ok(())
}

#[test]
fn a_place_that_was_passed(rt: HostRuntime) -> Result<(), Fail> {
    const STEPS: &[(u64, Step)] = &[
        (0, Media(1)),
        (5, Media(3)),
        (25, Asks),
        // A play of it was told, so its answer is no measurement.
        (25, Tells(2)),
        (65, Repair(2)),
        (65, Knows(0, false)),
    ];
    assert_eq!(rt; wrong_step(rt.alloc(), STEPS)?, None);
    Ok(())
}

#[test]
fn places_that_are_given_up(rt: HostRuntime) -> Result<(), Fail> {
    const STEPS: &[(u64, Step)] = &[
        (0, Media(1)),
        (5, Media(3)),
        (25, Asks),
        // Another place than the one that is measured; and what comes behind that is no answer to it.
        (205, GivesUp(1)),
        (205, GivesUp(2)),
        (205, Repair(2)),
        (205, Knows(0, false)),
        (210, Media(5)),
        (230, Asks),
        (410, GivesUp(4)),
        (410, Repair(4)),
        (410, Knows(0, false)),
        (410, Media(7)),
        (430, Asks),
        // It was waited for 180, and so were two before: an answer takes 180 + 90 + 5. Two asks have half of 200 each.
        (610, GivesUp(6)),
        (610, Knows(180, true)),
        (610, Follows(200)),
        (610, Times(200, 0, 100)),
        // Nothing is new of the next one.
        (610, Media(9)),
        (630, Asks),
        (830, GivesUp(8)),
        (830, Knows(180, false)),
    ];
    assert_eq!(rt; wrong_step(rt.alloc(), STEPS)?, None);
    Ok(())
}

#[test]
fn packets_that_come_late(rt: HostRuntime) -> Result<(), Fail> {
    const STEPS: &[(u64, Step)] = &[
        (0, Media(1)),
        (5, Media(3)),
        (25, Asks),
        (65, Repair(2)),
        (65, Follows(200)),
        (72, Media(5)),
        (80, Media(4)),
        (80, Knows(40, true)),
        (80, Follows(200)),
        // Of five packets one was lost and one late: three asks go first, and an answer takes 40, 10 and 5.
        (80, Times(200, 10, 67)),
        // One that comes as late again is nothing new, and one that is on its way twice is none that was waited for.
        (90, Media(7)),
        (98, Media(6)),
        (120, Media(6)),
        (120, Knows(40, false)),
        // Of nine packets one was lost, of which one in eight is: two asks go first, behind half of a round trip.
        (130, Media(9)),
        (160, Media(8)),
        (160, Follows(200)),
        (160, Times(200, 20, 115)),
    ];
    assert_eq!(rt; wrong_step(rt.alloc(), STEPS)?, None);
    Ok(())
}

/// Before a round trip is known, what comes late is waited for.
#[test]
fn packets_that_come_late_before_anything_is_lost(rt: HostRuntime) -> Result<(), Fail> {
    const STEPS: &[(u64, Step)] = &[
        (0, Media(1)),
        (5, Media(3)),
        (15, Media(2)),
        (15, Knows(0, true)),
        (15, Follows(200)),
        (15, Times(200, 13, 40)),
        // No longer than half of what a place is waited for.
        (15, Follows(12)),
        (15, Times(200, 6, 40)),
    ];
    assert_eq!(rt; wrong_step(rt.alloc(), STEPS)?, None);
    Ok(())
}

/// A packet comes behind its retransmission: it was late, by no less than it is since the ask.
#[test]
fn packets_that_were_not_lost(rt: HostRuntime) -> Result<(), Fail> {
    const STEPS: &[(u64, Step)] = &[
        (0, Media(1)),
        (5, Media(3)),
        (25, Asks),
        (65, Repair(2)),
        (65, Follows(200)),
        // Its retransmission once more is none, nor is a packet that was never asked for.
        (70, Repair(2)),
        (75, Media(1)),
        (75, Knows(40, false)),
        (85, Media(2)),
        (85, Knows(40, true)),
        // 60 and a quarter are more than half of a round trip; an answer takes 65.
        (85, Follows(200)),
        (85, Times(200, 20, 115)),
        // Once more it tells nothing.
        (99, Media(2)),
        (99, Knows(40, false)),
    ];
    assert_eq!(rt; wrong_step(rt.alloc(), STEPS)?, None);
    Ok(())
}

#[test]
fn a_restart_by_call(rt: HostRuntime) -> Result<(), Fail> {
    const STEPS: &[(u64, Step)] = &[
        (0, Media(1)),
        (5, Media(3)),
        (25, Asks),
        (65, Repair(2)),
        (65, Follows(200)),
        (70, Media(5)),
        (70, Asks),
        (70, Restarts),
        (75, Media(3)),
        (76, Repair(4)),
        (76, Knows(40, false)),
        // Other times follow the round trip anew, which was measured before.
        (76, Sets(400, 7, 9)),
        (76, Knows(40, true)),
        (80, Follows(400)),
        (80, Times(400, 0, 67)),
    ];
    assert_eq!(rt; wrong_step(rt.alloc(), STEPS)?, None);
    Ok(())
}
