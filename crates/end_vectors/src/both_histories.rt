//! The history as a list and as a ring, side by side: the same calls give the same answers.
ghost use Rattle.std.specs.Prelude.{◌≡◌, ◌<◌, ◌≤◌, true, IsSome};
ghost use Rattle.std.specs.Option.{ForSome};
ghost use Rattle.stores.specs.Past.{next_of, entry_at};

use crate::windows::{content, place};
use places::Place;
use std::alloc::Global;
use std::test::Fail;
use stores::*;

/// A history and the place that comes next, as a sender keeps them.
#[derive(Drop)]
struct Sending<H: History> {
    history: H,
    next: u64,
    ghost follows: { ForSome (next_of (H.meaning history)) (λ place. next ≡ place) },
}

/// A history of this capacity, whose first place will be `first`.
fn start<H: History>(alloc: Global, capacity: usize, first: u64) -> Result<Sending<H>, OutOfMemory>
    requires nonzero { 0 < capacity }
    requires limit { capacity ≤ 8192 }
{
    let history = H::new(alloc, capacity)?;
    Ok(Sending {
        history,
        next: first,
    })
}

/// Pushes a content with this octet at the next place.
fn push<H: History>(sending: &mut Sending<H>, octet: u8) -> Result<(), Fail> {
    history_by_place();
    let place = Place::new(sending.next).ok_or("a place is below 2^48")?;
    sending.history.push(place, content(octet));
    sending.next = place.value() + 1;
    Ok(())
}

/// Whether this place has an entry: whether `find` answers the place for its number.
fn has<H: History>(history: &H, place: Place) -> bool
    ensures { result ≡ true → IsSome (entry_at (H.meaning history.now) place) }
{
    history_by_place();
    match history.find(place.number()) {
        Some(found) => found == place,
        None => false,
    }
}

/// The octet, the repeats and the mark of the entry of this place, if there is one.
fn entry<H: History>(history: &H, at: u64) -> Result<Option<(u8, u8, bool)>, Fail> {
    let place = place(at)?;
    if !has(history, place) {
        return Ok(None);
    }
    let entry = history.get(place);
    let octet = entry.content.payload.first().map_or(0, |octet| *octet);
    Ok(Some((octet, entry.repeats, entry.marked)))
}

/// Marks the entry of this place, if there is one.
fn mark<H: History>(sending: &mut Sending<H>, at: u64) -> Result<(), Fail> {
    history_by_place();
    let place = place(at)?;
    if has(&sending.history, place) {
        sending.history.mark(place);
    }
    Ok(())
}

/// Counts a retransmission of the entry of this place, if there is one and it takes one more.
fn repeat<H: History>(sending: &mut Sending<H>, at: u64) -> Result<(), Fail> {
    history_by_place();
    let place = place(at)?;
    if has(&sending.history, place) && sending.history.get(place).repeats < 255 {
        sending.history.count_repeat(place);
    }
    Ok(())
}

/// Whether both have the same marks, and the same entry at each of these places.
fn look_the_same<A: History, B: History>(
    a: &A,
    b: &B,
    from: u64,
    count: u64,
) -> Result<bool, Fail> {
    let mut same = a.least_marked() == b.least_marked();
    for ahead in 0..count {
        let at = from.saturating_add(ahead);
        let number = place(at)?.number();
        same = same && entry(a, at)? == entry(b, at)? && a.find(number) == b.find(number);
    }
    Ok(same)
}

/// Pushes, marks and repeats at both, past the capacity and round the ring.
fn both_histories<A: History, B: History>(
    a: &mut Sending<A>,
    b: &mut Sending<B>,
    capacity: u64,
) -> Result<bool, Fail> {
    let from = a.next.saturating_sub(2);
    let mut same = look_the_same(&a.history, &b.history, from, 4)?;
    for round in 0..4u8 {
        for _ in 0..capacity.min(100) {
            push(a, round)?;
            push(b, round)?;
        }
        let last = a.next.saturating_sub(1);
        let first = last.saturating_sub(capacity.min(99));
        for at in [
            last,
            first,
            first.saturating_add(1),
            last.saturating_sub(capacity / 2),
        ] {
            mark(a, at)?;
            mark(b, at)?;
            same = same && look_the_same(&a.history, &b.history, first.saturating_sub(2), 6)?;
        }
        repeat(a, first)?;
        repeat(b, first)?;
        same = same
            && look_the_same(
                &a.history,
                &b.history,
                first.saturating_sub(2),
                capacity.min(120),
            )?;
    }
    Ok(same)
}

#[test]
fn list_and_ring_answer_the_same(rt: HostRuntime) -> Result<(), Fail> {
    for capacity in [1, 2, 63, 64, 65, 128, 8192] {
        let mut list: Sending<ListHistory> = start(rt.alloc(), capacity, 131000).map_err(
            |_| "memory is ample",
        )?;
        let mut ring: Sending<RingHistory> = start(rt.alloc(), capacity, 131000).map_err(
            |_| "memory is ample",
        )?;
        assert!(rt; both_histories(&mut list, &mut ring, capacity as u64)?);
    }
    history_by_place();
    Ok(())
}

/// A call of a history, or what it is to answer.
#[derive(Clone, Copy)]
enum Step {
    Push(u8),
    Mark(u64),
    Repeat(u64),
    /// The place that has this number.
    Has(u16, Option<u64>),
    /// The least place that is marked.
    Marked(Option<u64>),
    /// The octet, the repeats and the mark of the entry of a place.
    Entry(u64, Option<(u8, u8, bool)>),
}

use Step::*;

/// The value of a place, if there is one.
fn value_of(place: Option<Place>) -> Option<u64> {
    Some(place?.value())
}

/// Makes a call, or says whether the answer is so.
fn does<H: History>(sending: &mut Sending<H>, step: Step) -> Result<bool, Fail> {
    match step {
        Push(octet) => push(sending, octet)?,
        Mark(at) => mark(sending, at)?,
        Repeat(at) => repeat(sending, at)?,
        Has(number, at) => return Ok(value_of(sending.history.find(number)) == at),
        Marked(at) => return Ok(value_of(sending.history.least_marked()) == at),
        Entry(at, wanted) => return Ok(entry(&sending.history, at)? == wanted),
    }
    Ok(true)
}

/// The first step that a ring of two entries does not meet, whose first place is 65535.
fn first_wrong(alloc: Global, steps: &[Step]) -> Result<Option<usize>, Fail> {
    let mut sending: Sending<RingHistory> = start(alloc, 2, 65535).map_err(|_| "memory is ample")?;
    for (index, step) in steps.iter().enumerate() {
        if !does(&mut sending, *step)? {
            return Ok(Some(index));
        }
    }
    Ok(None)
}

#[test]
fn a_history_from_start_to_end(rt: HostRuntime) -> Result<(), Fail> {
    const STEPS: &[Step] = &[
        Has(65535, None),
        Push(1),
        Push(2),
        Has(0, Some(65536)),
        Mark(65536),
        Mark(65535),
        Marked(Some(65535)),
        // The third push drops the first entry, with its mark.
        Push(3),
        Has(65535, None),
        Marked(Some(65536)),
        Repeat(65536),
        Marked(None),
        Entry(65536, Some((2, 1, false))),
        Entry(65537, Some((3, 0, false))),
        Entry(65535, None),
    ];
    assert_eq!(rt; first_wrong(rt.alloc(), STEPS)?, None);
    Ok(())
}

/// From which numbers on 17 have no entry, or one has, in a history of this capacity to which so many were pushed from this place on.
#[derive(Drop)]
struct Edges {
    capacity: usize,
    first: u64,
    pushes: u8,
    free: &'static [u16],
    taken: &'static [u16],
}

/// Whether a history of this kind has them so.
fn has_edges<H: History>(alloc: Global, edges: &Edges) -> Result<bool, Fail>
    requires nonzero { 0 < edges.now.capacity }
    requires limit { edges.now.capacity ≤ 8192 }
{
    let mut sending: Sending<H> = start(alloc, edges.capacity, edges.first).map_err(
        |_| "memory is ample",
    )?;
    for _ in 0..edges.pushes {
        push(&mut sending, 0)?;
    }
    let mut is_so = true;
    for first in edges.free {
        is_so = is_so && sending.history.has_none_of_17(*first);
    }
    for first in edges.taken {
        is_so = is_so && !sending.history.has_none_of_17(*first);
    }
    Ok(is_so)
}

/// The same of both kinds.
fn have_edges(alloc: Global, edges: Edges) -> Result<bool, Fail>
    requires nonzero { 0 < edges.capacity }
    requires limit { edges.capacity ≤ 8192 }
{
    Ok(has_edges::<ListHistory>(alloc, &edges)? && has_edges::<RingHistory>(alloc, &edges)?)
}

#[test]
fn seventeen_numbers_of_an_empty_history(rt: HostRuntime) -> Result<(), Fail> {
    let edges = Edges {
        capacity: 3,
        first: 0,
        pushes: 0,
        free: &[0, 1, 32768, 65519, 65520, 65535],
        taken: &[],
    };
    assert!(rt; have_edges(rt.alloc(), edges)?);
    Ok(())
}

/// Of 100 to 104 the last four are kept.
#[test]
fn seventeen_numbers_about_four(rt: HostRuntime) -> Result<(), Fail> {
    let edges = Edges {
        capacity: 4,
        first: 100,
        pushes: 5,
        free: &[0, 84, 105, 32872, 65535],
        taken: &[85, 88, 100, 101, 104],
    };
    assert!(rt; have_edges(rt.alloc(), edges)?);
    Ok(())
}

/// 65534, 65535, 0 and 1, one cycle up.
#[test]
fn seventeen_numbers_about_a_wrap(rt: HostRuntime) -> Result<(), Fail> {
    let edges = Edges {
        capacity: 4,
        first: 131070,
        pushes: 4,
        free: &[2, 32768, 65517],
        taken: &[65518, 65534, 65535, 0, 1],
    };
    assert!(rt; have_edges(rt.alloc(), edges)?);
    Ok(())
}

/// 3 and 4, which begin a cycle: what lies before them ends the one before.
#[test]
fn seventeen_numbers_before_the_first(rt: HostRuntime) -> Result<(), Fail> {
    let edges = Edges {
        capacity: 64,
        first: 3,
        pushes: 2,
        free: &[5, 65519, 65522],
        taken: &[65523, 65535, 0, 3, 4],
    };
    assert!(rt; have_edges(rt.alloc(), edges)?);
    Ok(())
}

/// 200 to 239, of which 17 lie between both edges.
#[test]
fn seventeen_numbers_within_forty(rt: HostRuntime) -> Result<(), Fail> {
    let edges = Edges {
        capacity: 40,
        first: 200,
        pushes: 40,
        free: &[183, 240],
        taken: &[184, 200, 210, 223, 239],
    };
    assert!(rt; have_edges(rt.alloc(), edges)?);
    Ok(())
}

/// A history of 8192, at the second try where memory is refused at the first.
fn tried_twice<H: History>(alloc: Global) -> Result<H, Fail> {
    if let Ok(history) = H::new(alloc, 8192) {
        return Ok(history);
    }
    match H::new(alloc, 8192) {
        Ok(history) => Ok(history),
        Err(_) => Err(Fail::from("memory is back")),
    }
}

/// With memory, `new` answers a history. Without any piece of it, it answers `OutOfMemory`, and a history once there
/// is memory again: `rt try --test --fail-alloc N` runs these sides.
#[test]
fn a_refused_growth_of_a_history(rt: HostRuntime) -> Result<(), Fail> {
    let list: ListHistory = tried_twice(rt.alloc())?;
    let ring: RingHistory = tried_twice(rt.alloc())?;
    assert_eq!(rt; list.find(0), ring.find(0));
    Ok(())
}
