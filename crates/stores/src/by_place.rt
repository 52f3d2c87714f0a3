ghost use Rattle.std.specs.Prelude.{◌≡◌, ◌↔◌, ℕ, ◌+◌, ◌-◌, ◌%◌, ◌^◌, ◌<◌, ◌≤◌, true, Some, None, IsSome, IsSomeAnd, OnOk, OnErr, Option, Result};
ghost use Rattle.std.specs.List.{range_with_len};
ghost use Rattle.std.specs.Option.{ForSome};
ghost use Rattle.places.specs.Place.{number};
ghost use Rattle.rtpwire.specs.declared.content.Content.{Content};
ghost use Rattle.stores.specs.declared.slot.Slot.{Slot};
ghost use Rattle.stores.specs.declared.slot.PutFault.{PutFault};
ghost use Rattle.stores.specs.Span.{Span, IsSpan, highest_of, front_of, without_front};
ghost use Rattle.stores.specs.Put.{put_answer, after_put};
ghost use Rattle.stores.specs.ByPlace.{slot_at, IsInside, PutStep, LosesFront};
ghost use Rattle.stores.specs.PlaceLists.{Lists};
ghost use Rattle.stores.specs.Asking.{is_due, is_missing, places_of, due_places, missing_places, CanBeAsked, asked, CountsAsk};
ghost use Rattle.stores.specs.declared.entry.HistoryEntry.{HistoryEntry};
ghost use Rattle.stores.specs.Past.{Past, IsPast, first_of, next_of, entry_at, numbered, has_none_of_17, pushed, marked, marked_at, unmarked, unmarked_at, repeated, repeated_at};
ghost use Rattle.stores.specs.PastByPlace.{IsKept, Pushes, Changes, Finds, FindsLeast};

/// What the calls of a window mean place by place. It computes nothing: its contract is a law on the
/// definitions, for callers of [`Window`](crate::Window).
pub fn window_by_place()
    // The places with a slot are those from the cursor to the highest place.
    ensures inside { (s : Span) (q : ℕ) → IsSpan s → IsSome (slot_at s q) ↔ IsInside s q }

    // The highest place is below 2^48, at or above the place before the cursor, and has room.
    ensures ends { (s : Span) (k h : ℕ) → IsSpan s → s.cursor ≡ Some k → highest_of s ≡ Some h →
        (k ≤ h + 1) × (h < k + s.capacity) × (h < 2 ^ 48) }

    // The cursor, the capacity and the slot of each place are all that there is of a window.
    ensures same { (s t : Span) → IsSpan s → IsSpan t → t.cursor ≡ s.cursor →
        t.capacity ≡ s.capacity → ((q : ℕ) → slot_at t q ≡ slot_at s q) → t ≡ s }

    // What `front` gives is the slot of the cursor.
    ensures front { (s : Span) (k : ℕ) → s.cursor ≡ Some k → front_of s ≡ slot_at s k }

    // What `put` answers and leaves, and what `take_front` gives and leaves.
    ensures put { (old new : Span) (place now : ℕ) (content : Content) (result : Result ℕ PutFault) →
        IsSpan old → result ≡ put_answer old place →
        OnOk result (new ≡ after_put old place content now) → OnErr result (new ≡ old) →
        PutStep place content now old result new }
    ensures take_front { (old new : Span) (slot : Slot) → IsSpan old → front_of old ≡ Some slot →
        new ≡ without_front old → IsSomeAnd old.cursor (LosesFront old slot new) }

    // The places of a window, and which of them are due and missing.
    ensures places { (s : Span) (k h : ℕ) → IsSpan s → s.cursor ≡ Some k → highest_of s ≡ Some h →
        places_of s ≡ range_with_len k (h + 1 - k) }
    ensures due { (s : Span) (now delay retry asks : ℕ) →
        Lists (due_places s now delay retry asks) (λ q. is_due now delay retry asks (slot_at s q)) }
    ensures missing { (s : Span) → Lists (missing_places s) (λ q. is_missing (slot_at s q)) }

    // A due place may be asked for, and what `count_ask` leaves.
    ensures askable { (now delay retry asks : ℕ) (o : Option Slot) → asks < 2 ^ 8 → is_due now delay retry asks o ≡ true →
        IsSomeAnd o CanBeAsked }
    ensures count_ask { (old new : Span) (place now : ℕ) → IsSomeAnd (slot_at old place) CanBeAsked →
        new ≡ asked old place now → CountsAsk old new place now }
{}

/// What the calls of a history mean place by place. It computes nothing: its contract is a law on the
/// definitions, for callers of [`History`](crate::History).
pub fn history_by_place()
    // The places with an entry are those from the oldest entry's up to before the next one.
    ensures inside { (h : Past) (q : ℕ) → IsPast h → IsSome (entry_at h q) ↔ IsKept h q }
    ensures ends { (h : Past) (k next : ℕ) → IsPast h → first_of h ≡ Some k → next_of h ≡ Some next →
        (k < next) × (next ≤ k + h.capacity) × (next ≤ 2 ^ 48) }

    // An entry has its own place, and was repeated at most 255 times.
    ensures entry { (h : Past) (q : ℕ) (entry : HistoryEntry) → IsPast h → entry_at h q ≡ Some entry →
        (entry.place ≡ q) × (entry.repeats ≤ 255) }

    // The capacity and the entry of each place are all that there is of a history.
    ensures same { (s t : Past) → IsPast s → IsPast t → t.capacity ≡ s.capacity →
        ((q : ℕ) → entry_at t q ≡ entry_at s q) → t ≡ s }

    // What `push`, `mark`, `unmark` and `count_repeat` leave.
    ensures push { (old new : Past) (place : ℕ) (content : Content) → IsPast old →
        ForSome (next_of old) (λ next. place ≡ next) → new ≡ pushed old place content → Pushes old new place content }
    ensures mark { (old new : Past) (place : ℕ) → new ≡ marked_at old place → Changes marked old new place }
    ensures unmark { (old new : Past) (place : ℕ) → new ≡ unmarked_at old place → Changes unmarked old new place }
    ensures count_repeat { (old new : Past) (place : ℕ) → new ≡ repeated_at old place → Changes repeated old new place }

    // What `find` and `least_marked` answer. At most one place with an entry has a sequence number.
    ensures find { (h : Past) (n : ℕ) → IsPast h → Finds h n }
    ensures one { (h : Past) (p q : ℕ) → IsPast h → IsSome (entry_at h p) → IsSome (entry_at h q) →
        number p ≡ number q → p ≡ q }
    ensures least_marked { (h : Past) → IsPast h → FindsLeast h }

    // What `has_none_of_17` answers: whether `find` answers no place for each of the 17 numbers.
    ensures none { (h : Past) (first : ℕ) → first < 65536 →
        (has_none_of_17 h first ≡ true) ↔ ((i : ℕ) → i ≤ 16 → numbered h ((first + i) % 65536) ≡ None) }
{}
