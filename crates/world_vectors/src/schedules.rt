//! Schedules, over a generator that tells how many words were drawn.
ghost use Rattle.std.specs.Prelude.{ℕ, ◌+◌, ◌%◌, ◌^◌};
ghost use Rattle.rand_core.specs.Steps.{stream_of, steps_u32};

use rand_core::Rng;
use rand_core::utils::{self, NextWord};
use std::marker::Model;
use std::test::Fail;
use world::{Event, schedule};

/// A generator whose words count on, so that its next word tells how many were drawn.
#[derive(Drop)]
struct Counter(u32);

impl Model for Counter {
    ghost Value = { ℕ };

    ghost view = { λ counter. counter.0 };
}

impl NextWord<u32> for Counter {
    ghost step = { λ word. (word, (word + 1) % 2 ^ 32) };

    fn next_word(&mut self) -> u32 {
        let word = self.0;
        self.0 = word.wrapping_add(1);
        word
    }
}

impl Rng for Counter {
    ghost stream = { stream_of (steps_u32 (λ word. (word, (word + 1) % 2 ^ 32))) };

    fn next_u32(&mut self) -> u32 {
        self.next_word()
    }

    fn next_u64(&mut self) -> u64 {
        utils::next_u64_via_u32(self)
    }

    fn fill_bytes(&mut self, dst: &mut [u8]) {
        utils::fill_bytes_via_u32(self, dst)
    }
}

/// What a test compares of an event: the timestamp and the four octets of a plain content that is sent without
/// padding, or the index and the moment of a delivery.
#[derive(Clone, Copy, Debug, PartialEq, Eq)]
enum Row {
    Send(u32, [u8; 4]),
    Deliver(u64, u64),
    Other,
}

fn row_of(event: &Event) -> Row {
    match event {
        Event::Deliver(index, now) => Row::Deliver(*index, *now),
        Event::Send(content, 0) => {
            if content.marker || !content.sources.is_empty() || content.extension.is_some() {
                return Row::Other;
            }
            match content.payload.as_slice() {
                [a, b, c, d] => Row::Send(content.timestamp, [*a, *b, *c, *d]),
                _ => Row::Other,
            }
        }
        _ => Row::Other,
    }
}

/// Whether the events are those of the rows.
fn are(events: &[Event], rows: &[Row]) -> bool {
    events.len() == rows.len()
        && events
            .iter()
            .zip(rows)
            .all(|(event, row)| row_of(event) == *row)
}

/// Of the words 998 to 1001 only 999 delivers its packet at a loss of 999. The events are appended, and a content tells
/// its moment modulo 2^32.
#[test]
fn a_word_decides_on_each_packet(rt: HostRuntime) -> Result<(), Fail> {
    let mut counter = Counter(998);
    let mut events = Vec::new(rt.alloc());
    events.push(Event::Play(7))?;
    schedule(&mut counter, 40, 0x1_0000_00fe, 4, 999, &mut events).map_err(|_| "memory is ample")?;
    let wanted = [
        Row::Other,
        Row::Send(0xfe, [0, 0, 0, 0xfe]),
        Row::Send(0xff, [0, 0, 0, 0xff]),
        Row::Deliver(41, 0x1_0000_00ff),
        Row::Send(0x100, [0, 0, 1, 0]),
        Row::Send(0x101, [0, 0, 1, 1]),
    ];
    assert!(rt; are(&events, &wanted));
    assert_eq!(rt; counter.next_u32(), 1002);
    Ok(())
}

/// At a loss of 0 every packet is delivered, at a loss of 1000 none is. The last index and the last moment there are
/// may be a packet's.
#[test]
fn no_loss_and_nothing_but_loss(rt: HostRuntime) -> Result<(), Fail> {
    let mut counter = Counter(u32::MAX);
    let mut events = Vec::new(rt.alloc());
    schedule(&mut counter, u64::MAX, u64::MAX, 1, 0, &mut events).map_err(|_| "memory is ample")?;
    schedule(&mut counter, 0, 0, 1, 1000, &mut events).map_err(|_| "memory is ample")?;
    let wanted = [
        Row::Send(u32::MAX, [0xff, 0xff, 0xff, 0xff]),
        Row::Deliver(u64::MAX, u64::MAX),
        Row::Send(0, [0, 0, 0, 0]),
    ];
    assert!(rt; are(&events, &wanted));
    assert_eq!(rt; counter.next_u32(), 1);
    Ok(())
}

/// A schedule that met a want of memory appended nothing and drew no word: it is the same one with memory back.
#[test]
fn a_refused_growth_of_a_schedule(rt: HostRuntime) -> Result<(), Fail> {
    let mut counter = Counter(0);
    let mut events = Vec::new(rt.alloc());
    if schedule(&mut counter, 3, 5, 2, 1, &mut events).is_err() {
        assert!(rt; events.is_empty());
        schedule(&mut counter, 3, 5, 2, 1, &mut events).map_err(|_| "memory is back")?;
    }
    let wanted = [
        Row::Send(5, [0, 0, 0, 5]),
        Row::Send(6, [0, 0, 0, 6]),
        Row::Deliver(4, 6),
    ];
    assert!(rt; are(&events, &wanted));
    assert_eq!(rt; counter.next_u32(), 2);
    Ok(())
}
