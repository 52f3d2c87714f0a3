//! Where a put place lies to a started window: the arithmetic that both windows share.
ghost use Rattle.std.specs.Prelude.{◌+◌, ◌^◌, ◌<◌, ◌≤◌};
ghost use Rattle.stores.specs.Put.{IsSpot};

/// Where a place lies to the slots of a window that was started.
pub enum Spot {
    /// Below the cursor.
    Below,
    /// In the slot at this index.
    Within(usize),
    /// Above all slots.
    Above {
        /// How many places from the cursor on have to go, so that there is room for it.
        overrun: u64,
        /// How many places between those that stay and this one have no slot so far.
        unseen: u64,
    },
}

/// Where the place lies to a window of `capacity` slots at most that has `len` of them from `cursor` on.
pub fn spot_of(cursor: u64, len: usize, capacity: usize, place: u64) -> Spot
    requires slots { cursor + len ≤ 2 ^ 48 }
    requires place { place < 2 ^ 48 }
    requires nonzero { 0 < capacity }
    ensures { IsSpot cursor len capacity place result }
{
    if place < cursor {
        return Spot::Below;
    }
    let end = cursor + len as u64;
    if place < end {
        return Spot::Within((place - cursor) as usize);
    }
    let overrun = (place + 1)
        .saturating_sub(capacity as u64)
        .saturating_sub(cursor);
    // What stays ends where all did, unless all of it goes: then it ends at the new cursor.
    let unseen = place - end.max(cursor + overrun);
    Spot::Above { overrun, unseen }
}
