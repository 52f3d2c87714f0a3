//! The window as a list and as a ring, side by side: the same calls give the same answers.
use crate::windows::{asked, content, place, taken};
use std::test::Fail;
use stores::*;

/// Puts a content at this place into both, and tells whether they answer the same.
fn both_put<A: Window, B: Window>(a: &mut A, b: &mut B, at: u64, now: u64) -> Result<bool, Fail> {
    let octet = (at % 251) as u8;
    let answer = a.put(place(at)?, content(octet), now);
    Ok(answer == b.put(place(at)?, content(octet), now))
}

/// Counts an ask for this place on both, if they take one, and tells whether they agree in that.
fn both_ask<A: Window, B: Window>(a: &mut A, b: &mut B, at: u64, now: u64) -> Result<bool, Fail> {
    let answer = asked(a, place(at)?, now);
    Ok(answer == asked(b, place(at)?, now) && a.slot(place(at)?) == b.slot(place(at)?))
}

/// Drops the front of the window, if there is one.
fn drop_front<W: Window>(window: &mut W) {
    if window.front().is_some() {
        window.drop_front();
    }
}

/// Takes so many fronts out of both, as far as there are, and drops one behind each; tells whether they are the same.
fn both_take<A: Window, B: Window>(a: &mut A, b: &mut B, count: u64) -> bool {
    for _ in 0..count {
        if taken(a) != taken(b) || a.front() != b.front() {
            return false;
        }
        drop_front(a);
        drop_front(b);
    }
    true
}

/// Whether both look the same through each call that changes nothing.
fn look_the_same<A: Window, B: Window>(a: &A, b: &B, now: u64) -> bool {
    let mut same = a.cursor() == b.cursor()
        && a.highest() == b.highest()
        && a.front() == b.front()
        && a.missing() == b.missing();
    for (retry, asks) in [(0, 0), (1, 1), (1, 2), (3, 255)] {
        same = same && a.due(now, retry, asks).as_slice() == b.due(now, retry, asks).as_slice();
    }
    same
}

/// One round: all places but the last are missing; some are taken at the front, in the middle and at the end,
/// and asked for; fronts are taken out; then places come in order, with none missing between them.
fn both_round<A: Window, B: Window>(
    a: &mut A,
    b: &mut B,
    capacity: u64,
    now: u64,
) -> Result<bool, Fail> {
    let high = a.highest().map_or(65536, |high| high.value());
    let last = high.saturating_add(capacity);
    let mut same = both_put(a, b, last, now)? && look_the_same(a, b, now);
    let front = a.cursor().unwrap_or(0);
    for at in [
        front,
        front.saturating_add(capacity / 2),
        last.saturating_sub(1),
        last,
    ] {
        same = same && both_put(a, b, at, now)? && look_the_same(a, b, now);
        for ask in [at.saturating_add(1), at.saturating_add(2)] {
            same = same && both_ask(a, b, ask, now)? && look_the_same(a, b, now.saturating_add(2));
        }
    }
    same = same && both_take(a, b, capacity.min(70)) && look_the_same(a, b, now);
    for ahead in 1..40 {
        same = same && both_put(a, b, last.saturating_add(ahead), now)?;
    }
    Ok(same && both_put(a, b, front.saturating_sub(1), now)? && look_the_same(a, b, now))
}

/// Rounds on windows of this capacity, then a drop of more places than they have.
fn both_windows<A: Window, B: Window>(a: &mut A, b: &mut B, capacity: u64) -> Result<bool, Fail> {
    let mut same = look_the_same(a, b, 0) && both_put(a, b, 65536, 0)?;
    for round in 0..5 {
        same = same && both_round(a, b, capacity, round)?;
    }
    let high = a.highest().map_or(0, |high| high.value());
    same = same
        && both_put(
            a,
            b,
            high.saturating_add(capacity.saturating_mul(3))
                .saturating_add(100),
            9,
        )?;
    Ok(same && look_the_same(a, b, 9) && both_take(a, b, 3) && look_the_same(a, b, 9))
}

#[test]
fn list_and_ring_answer_the_same(rt: HostRuntime) -> Result<(), Fail> {
    for capacity in [1, 2, 63, 64, 65, 128, 8192] {
        let mut list = ListWindow::new(rt.alloc(), capacity).map_err(|_| "memory is ample")?;
        let mut ring = RingWindow::new(rt.alloc(), capacity).map_err(|_| "memory is ample")?;
        assert!(rt; both_windows(&mut list, &mut ring, capacity as u64)?);
    }
    answers_are_determined();
    Ok(())
}

/// With memory, `new` answers a window. Without a piece of it, it answers `OutOfMemory`, and
/// a window once there is memory again: `rt try --test --fail-alloc N` runs these sides.
#[test]
fn a_refused_growth_of_a_ring(rt: HostRuntime) -> Result<(), Fail> {
    let window = match RingWindow::new(rt.alloc(), 8192) {
        Ok(window) => window,
        Err(refused) => {
            assert_eq!(rt; refused, OutOfMemory);
            RingWindow::new(rt.alloc(), 8192).map_err(|_| "memory is back")?
        }
    };
    assert_eq!(rt; window.cursor(), None);
    assert_eq!(rt; window.missing(), 0);
    Ok(())
}
