//! What C calls of several payload types.
//!
//! Each export hands its pointers to a function that tests them for null, and then makes the call. What it answers is
//! defined in `specs/Lent.antt`, and said for C in `include/gozdrit.h`, with its refusals.
ghost use Rattle.std.specs.Prelude.{◌≡◌, ℕ, List, Option};
ghost use Rattle.std.specs.Borrow.{sem, u8, usize};
ghost use Rattle.gozdrit.specs.Lying.{slice_lies_at, value_lies_at};
ghost use Rattle.gozdrit.specs.Lent.{TypesEnterFor, TypesLeaveFor};

use crate::code::NULL;
use crate::lent::{Lent, LentSlice};
use crate::typing::{types_enter, types_leave};

/// `PayloadTypes::into_session` of a datagram that is the first `length` octets. `entered_length` is told how many it has then.
#[unsafe(no_mangle)]
pub unsafe extern "C" fn gozdrit_types_enter(
    types: *mut u8,
    types_length: usize,
    octets: *mut u8,
    room: usize,
    length: usize,
    entered_length: *mut usize,
) -> i32
    ghost before: { Option (List ℕ) × Option (List ℕ) × Option ℕ }
    requires* { sem 𝓛 (slice_lies_at u8 types types_length before.0)
        ∗ sem 𝓛 (slice_lies_at u8 octets room before.1)
        ∗ sem 𝓛 (value_lies_at usize entered_length before.2) }
    ensures* { ∃ₛ (λ (after : Option (List ℕ) × Option (List ℕ) × Option ℕ).
        sem 𝓛 (slice_lies_at u8 types types_length after.0)
        ∗ sem 𝓛 (slice_lies_at u8 octets room after.1)
        ∗ sem 𝓛 (value_lies_at usize entered_length after.2)
        ∗ ⌜ TypesEnterFor length before.0 before.1 before.2 result after.0 after.1 after.2 ⌝) }
{
    types_enter_lent(
        LentSlice {
            at: types,
            len: types_length,
        },
        LentSlice {
            at: octets,
            len: room,
        },
        length,
        Lent { at: entered_length },
    )
    .0
}

fn types_enter_lent(
    mut types: LentSlice<u8>,
    mut octets: LentSlice<u8>,
    length: usize,
    mut entered_length: Lent<usize>,
) -> (i32, LentSlice<u8>, LentSlice<u8>, Lent<usize>)
    ensures { ((result.1.at ≡ types.at) × (result.1.len ≡ types.len) × (result.2.at ≡ octets.at) × (result.2.len ≡ octets.len) × (result.3.at ≡ entered_length.at))
        × TypesEnterFor length types.items octets.items entered_length.value result.0 result.1.items result.2.items result.3.value }
{
    if types.is_missing() || octets.is_missing() || entered_length.is_null() {
        return (NULL, types, octets, entered_length);
    }
    let code = types_enter(types.get(), octets.get(), length, entered_length.get());
    (code, types, octets, entered_length)
}

/// `PayloadTypes::out_of_session` of a datagram that is the first `length` octets. `left_length` is told how many it has then.
#[unsafe(no_mangle)]
pub unsafe extern "C" fn gozdrit_types_leave(
    types: *mut u8,
    types_length: usize,
    octets: *mut u8,
    room: usize,
    length: usize,
    left_length: *mut usize,
) -> i32
    ghost before: { Option (List ℕ) × Option (List ℕ) × Option ℕ }
    requires* { sem 𝓛 (slice_lies_at u8 types types_length before.0)
        ∗ sem 𝓛 (slice_lies_at u8 octets room before.1)
        ∗ sem 𝓛 (value_lies_at usize left_length before.2) }
    ensures* { ∃ₛ (λ (after : Option (List ℕ) × Option (List ℕ) × Option ℕ).
        sem 𝓛 (slice_lies_at u8 types types_length after.0)
        ∗ sem 𝓛 (slice_lies_at u8 octets room after.1)
        ∗ sem 𝓛 (value_lies_at usize left_length after.2)
        ∗ ⌜ TypesLeaveFor length before.0 before.1 before.2 result after.0 after.1 after.2 ⌝) }
{
    types_leave_lent(
        LentSlice {
            at: types,
            len: types_length,
        },
        LentSlice {
            at: octets,
            len: room,
        },
        length,
        Lent { at: left_length },
    )
    .0
}

fn types_leave_lent(
    mut types: LentSlice<u8>,
    mut octets: LentSlice<u8>,
    length: usize,
    mut left_length: Lent<usize>,
) -> (i32, LentSlice<u8>, LentSlice<u8>, Lent<usize>)
    ensures { ((result.1.at ≡ types.at) × (result.1.len ≡ types.len) × (result.2.at ≡ octets.at) × (result.2.len ≡ octets.len) × (result.3.at ≡ left_length.at))
        × TypesLeaveFor length types.items octets.items left_length.value result.0 result.1.items result.2.items result.3.value }
{
    if types.is_missing() || octets.is_missing() || left_length.is_null() {
        return (NULL, types, octets, left_length);
    }
    let code = types_leave(types.get(), octets.get(), length, left_length.get());
    (code, types, octets, left_length)
}
