//! Rows of calls of a window and what each answers, over both windows.
ghost use Rattle.std.specs.Prelude.{◌<◌, ◌≤◌};

use arrayvec::ArrayVec;
use places::Place;
use rtpwire::Content;
use std::alloc::{AllocError, AllocFailed, Global};
use std::test::Fail;
use stores::*;

/// The place of this value.
pub fn place(value: u64) -> Result<Place, Fail> {
    match Place::new(value) {
        Some(place) => Ok(place),
        None => Err(Fail::from("a place is below 2^48")),
    }
}

/// A content with a payload of this octet alone.
pub fn content(octet: u8) -> Content {
    let mut payload = ArrayVec::new();
    payload.push(octet);
    Content {
        payload,
        timestamp: 100,
        marker: false,
        sources: ArrayVec::new(),
        extension: None,
    }
}

fn held(octet: u8) -> Option<Slot> {
    Some(Slot::Held(content(octet)))
}

fn missing(noticed: u64) -> Option<Slot> {
    Some(Slot::Missing {
        noticed,
        asks: 0,
        last: 0,
    })
}

/// The front of the window, taken out.
pub fn taken<W: Window>(window: &mut W) -> Option<Slot> {
    if window.front().is_some() {
        Some(window.take_front())
    } else {
        None
    }
}

/// The values of the due places.
fn due<W: Window>(window: &W, now: u64, retry: u64, asks: u8) -> ArrayVec<u64, 8> {
    let mut values = ArrayVec::new();
    for place in &window.due(now, retry, asks) {
        let _ = values.try_push(place.value());
    }
    values
}

/// Counts an ask for the place, if the window takes one.
pub fn asked<W: Window>(window: &mut W, place: Place, now: u64) -> bool {
    let takes = match window.slot(place) {
        Some(SlotRef::Missing { asks, .. }) => asks < 255,
        _ => false,
    };
    if takes {
        window.count_ask(place, now);
    }
    takes
}

/// One call of a window, and what it answers.
#[derive(Clone, Copy)]
enum Row {
    /// A content of this octet is put at a place and a moment: the overrun, or the refusal.
    Put(u64, u8, u64, Result<u64, PutFault>),
    /// The front is taken out, and holds the content of this octet.
    Held(u8),
    /// The front is taken out, and is missing since this moment.
    Missing(u64),
    /// There is no front.
    Empty,
    /// The next place to play, and the highest place.
    Ends(Option<u64>, Option<u64>),
    /// How many places are missing.
    Count(usize),
    /// The places that are due at a moment, for this time between asks and limit of asks.
    Due(u64, u64, u8, &'static [u64]),
    /// An ask for this place at a moment is counted.
    Ask(u64, u64),
    /// This place is missing, and was noticed, asked for so often, and last asked for, then.
    Asked(u64, u64, u8, u64),
    /// The window has no slot for this place.
    Outside(u64),
}

/// Whether the slot of this place is missing so.
fn is_asked<W: Window>(window: &W, place: Place, noticed: u64, asks: u8, last: u64) -> bool {
    let wanted = SlotRef::Missing {
        noticed,
        asks,
        last,
    };
    window.slot(place) == Some(wanted)
}

/// Whether the window answers the call so.
fn meets<W: Window>(window: &mut W, row: Row) -> Result<bool, Fail> {
    match row {
        Row::Put(at, octet, now, answer) => {
            Ok(window.put(place(at)?, content(octet), now) == answer)
        }
        Row::Held(octet) => Ok(taken(window) == held(octet)),
        Row::Missing(noticed) => Ok(taken(window) == missing(noticed)),
        Row::Empty => Ok(window.front().is_none()),
        Row::Ends(cursor, highest) => {
            let found = window.highest().map(|highest| highest.value());
            Ok(window.cursor() == cursor && found == highest)
        }
        Row::Count(count) => Ok(window.missing() == count),
        Row::Due(now, retry, asks, places) => {
            Ok(due(window, now, retry, asks).as_slice() == places)
        }
        Row::Ask(at, now) => Ok(asked(window, place(at)?, now)),
        Row::Asked(at, noticed, asks, last) => {
            Ok(is_asked(window, place(at)?, noticed, asks, last))
        }
        Row::Outside(at) => Ok(window.slot(place(at)?).is_none()),
    }
}

/// The index of the first row that the window does not meet.
fn miss<W: Window>(mut window: W, rows: &[Row]) -> Result<Option<usize>, Fail> {
    for (index, row) in rows.iter().enumerate() {
        if !meets(&mut window, *row)? {
            return Ok(Some(index));
        }
    }
    Ok(None)
}

/// The first row that a new list, or a new ring, with so much room does not meet.
fn first_miss(alloc: Global, room: usize, rows: &[Row]) -> Result<Option<usize>, Fail>
    requires nonzero { 0 < room }
    requires limit { room ≤ 8192 }
{
    let (Ok(list), Ok(ring)) = (ListWindow::new(alloc, room), RingWindow::new(alloc, room)) else {
        return Err(Fail::from("memory is ample"));
    };
    Ok(miss(list, rows)?.or(miss(ring, rows)?))
}

#[test]
fn a_window_from_start_to_end(rt: HostRuntime) -> Result<(), Fail> {
    let rows = [
        Row::Ends(None, None),
        Row::Empty,
        Row::Put(65537, 1, 0, Ok(0)),
        Row::Put(65539, 3, 5, Ok(0)),
        Row::Ends(Some(65537), Some(65539)),
        Row::Held(1),
        Row::Missing(5),
        Row::Held(3),
        // All was played: the highest place is still known.
        Row::Empty,
        Row::Ends(Some(65540), Some(65539)),
    ];
    assert_eq!(rt; first_miss(rt.alloc(), 8, &rows)?, None);
    Ok(())
}

#[test]
fn a_missing_place_that_comes(rt: HostRuntime) -> Result<(), Fail> {
    let rows = [
        Row::Put(7, 7, 0, Ok(0)),
        Row::Put(10, 10, 20, Ok(0)),
        Row::Put(9, 9, 30, Ok(0)),
        Row::Held(7),
        Row::Missing(20),
        Row::Held(9),
        Row::Held(10),
        Row::Empty,
    ];
    assert_eq!(rt; first_miss(rt.alloc(), 8, &rows)?, None);
    Ok(())
}

#[test]
fn asks_for_two_missing_places(rt: HostRuntime) -> Result<(), Fail> {
    let rows = [
        Row::Count(0),
        Row::Due(0, 1, 255, &[]),
        Row::Outside(7),
        Row::Put(7, 7, 0, Ok(0)),
        Row::Put(10, 10, 20, Ok(0)),
        Row::Count(2),
        Row::Due(20, 5, 2, &[8, 9]),
        Row::Due(20, 5, 0, &[]),
        // An ask for the place 8. It is due again after five milliseconds, and not before it was asked for.
        Row::Ask(8, 20),
        Row::Asked(8, 20, 1, 20),
        Row::Outside(6),
        Row::Outside(11),
        Row::Due(24, 5, 2, &[9]),
        Row::Due(25, 5, 2, &[8, 9]),
        Row::Due(19, 0, 2, &[9]),
        Row::Due(25, 5, 1, &[9]),
        Row::Put(9, 9, 30, Ok(0)),
        Row::Count(1),
        Row::Due(30, 5, 2, &[8]),
    ];
    assert_eq!(rt; first_miss(rt.alloc(), 8, &rows)?, None);
    Ok(())
}

/// The value of a place, if there is one.
fn value_of(place: Option<&Place>) -> Option<u64> {
    Some(place?.value())
}

/// How many places are due of a list that misses those between 0 and 1200, the first and the last of them, and how many are missing.
fn many_due(alloc: Global) -> Result<(usize, [Option<u64>; 2], usize), Fail> {
    let (first, last) = (place(0)?, place(1200)?);
    let Ok(mut window) = ListWindow::new(alloc, 2000) else {
        return Err(Fail::from("memory is ample"));
    };
    let puts = [
        window.put(first, content(0), 0),
        window.put(last, content(1), 0),
    ];
    if puts != [Ok(0), Ok(0)] {
        return Err(Fail::from("both are put"));
    }
    let due = window.due(0, 1, 1);
    Ok((
        due.len(),
        [value_of(due.first()), value_of(due.last())],
        window.missing(),
    ))
}

#[test]
fn no_more_than_1088_places_are_due(rt: HostRuntime) -> Result<(), Fail> {
    let told = many_due(rt.alloc())?;
    assert_eq!(rt; told, (1088, [Some(1), Some(1088)], 1199));
    Ok(())
}

#[test]
fn an_overrun(rt: HostRuntime) -> Result<(), Fail> {
    let rows = [
        Row::Put(65537, 1, 0, Ok(0)),
        Row::Put(65538, 2, 0, Ok(0)),
        Row::Put(65540, 4, 0, Ok(2)),
        Row::Ends(Some(65539), Some(65540)),
        Row::Missing(0),
        Row::Held(4),
        Row::Empty,
        // Far above, the places between were never noticed: they count, and only one is missing.
        Row::Put(65550, 9, 40, Ok(8)),
        Row::Ends(Some(65549), Some(65550)),
        Row::Missing(40),
        Row::Held(9),
    ];
    assert_eq!(rt; first_miss(rt.alloc(), 2, &rows)?, None);
    Ok(())
}

#[test]
fn refusals(rt: HostRuntime) -> Result<(), Fail> {
    let rows = [
        Row::Put(65538, 2, 0, Ok(0)),
        Row::Put(65537, 9, 1, Err(PutFault::Late)),
        Row::Ends(Some(65538), Some(65538)),
        Row::Put(65538, 9, 1, Err(PutFault::Duplicate)),
        Row::Ends(Some(65538), Some(65538)),
        Row::Held(2),
    ];
    assert_eq!(rt; first_miss(rt.alloc(), 2, &rows)?, None);
    let numbers = (PutFault::Late.number(), PutFault::Duplicate.number());
    assert_eq!(rt; numbers, (35, 36));
    Ok(())
}

#[test]
fn the_last_place(rt: HostRuntime) -> Result<(), Fail> {
    let last = (1 << 48) - 1;
    let mut rows = [Row::Missing(0); 22];
    rows[0] = Row::Put(0, 0, 0, Ok(0));
    rows[1] = Row::Held(0);
    rows[2] = Row::Ends(Some(1), Some(0));
    rows[3] = Row::Put(last, 1, 0, Ok(last - 16));
    // Fifteen missing places stand between.
    rows[19] = Row::Held(1);
    rows[20] = Row::Ends(Some(1 << 48), Some(last));
    rows[21] = Row::Put(last, 1, 0, Err(PutFault::Late));
    assert_eq!(rt; first_miss(rt.alloc(), 16, &rows)?, None);
    Ok(())
}

/// The law, which runs nothing.
#[test]
fn the_law_of_windows() {
    window_by_place();
}

/// With memory, `new` answers a window. Without, it answers `OutOfMemory`, and a window once there is
/// memory again: `rt try --test --fail-alloc 1` runs that side.
#[test]
fn a_refused_growth(rt: HostRuntime) -> Result<(), Fail> {
    let window = match ListWindow::new(rt.alloc(), 8192) {
        Ok(window) => window,
        Err(refused) => {
            assert_eq!(rt; refused, OutOfMemory);
            ListWindow::new(rt.alloc(), 8192).map_err(|_| "memory is back")?
        }
    };
    assert_eq!(rt; window.cursor(), None);
    assert_eq!(rt; OutOfMemory::from(AllocError), OutOfMemory);
    assert_eq!(rt; OutOfMemory::from(AllocFailed { value: 7u8 }), OutOfMemory);
    Ok(())
}
