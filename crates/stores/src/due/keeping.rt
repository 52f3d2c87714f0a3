//! How the answer that a window keeps goes on being true when its slots change, so that it need not be found anew. It is given up
//! where the slot that it names goes or is asked for, or is filled and no other one is found beside it.
ghost use Rattle.std.specs.Prelude.{◌≡◌, ◌≢◌, ℕ, ◌+◌, ◌<◌, ◌++◌, List, [], ◌∷◌, length, drop, replicate, slice_get};
ghost use Rattle.std.specs.Option.{ForSome};
ghost use Rattle.rtpwire.specs.declared.content.Content.{Content};
ghost use Rattle.stores.specs.declared.slot.Slot.{Slot};
ghost use Rattle.stores.specs.declared.slot.Slot.TheVariants.{Held};
ghost use Rattle.stores.specs.Bits.{bits_of};
ghost use Rattle.stores.specs.Foreseen.{Tells};
ghost use Rattle.stores.specs.Put.{noticed_at};

use crate::bits::Bits;
use crate::due::foreseen::{Foreseen, Soonest};
use crate::slot::SlotRef;
use crate::slots::Slots;

/// The answer once so many of the first slots are gone.
pub fn without_front(kept: Option<Foreseen>, count: u64) -> Option<Foreseen>
    ensures { (slots : List Slot) → ForSome kept (λ answer. Tells answer slots) → ForSome result (λ answer. Tells answer (drop count slots)) }
{
    let answer = kept?;
    let Some(soonest) = answer.soonest else {
        return kept;
    };
    let index = soonest.index.checked_sub(count as usize)?;
    Some(Foreseen {
        rule: answer.rule,
        soonest: Some(Soonest {
            moment: soonest.moment,
            index,
        }),
    })
}

/// The answer once so many places more are missing, noticed now, behind so many slots.
fn with_missing(kept: Option<Foreseen>, len: usize, count: u64, now: u64) -> Option<Foreseen>
    ensures { (slots : List Slot) → length slots ≡ len → ForSome kept (λ answer. Tells answer slots) → ForSome result (λ answer. Tells answer (slots ++ replicate count (noticed_at now))) }
{
    if count == 0 {
        return kept;
    }
    let answer = kept?;
    let missing = SlotRef::Missing {
        noticed: now,
        asks: 0,
        last: 0,
    };
    Some(Foreseen {
        rule: answer.rule,
        soonest: Soonest::or(answer.soonest, missing.due_from(answer.rule), len),
    })
}

/// The answer once a place above all slots, of which there are so many, was put: the first ones go, those between are missing, noticed
/// now, and a held one comes last.
pub fn with_jump(
    kept: Option<Foreseen>,
    len: usize,
    overrun: u64,
    unseen: u64,
    now: u64,
) -> Option<Foreseen>
    ensures { (slots : List Slot) (content : Content) → length slots ≡ len → ForSome kept (λ answer. Tells answer slots)
        → ForSome result (λ answer. Tells answer ((drop overrun slots ++ replicate unseen (noticed_at now)) ++ Held content ∷ [])) }
{
    let left = len.saturating_sub(overrun as usize);
    with_missing(without_front(kept, overrun), left, unseen, now)
}

/// The same answer, which names the next missing slot where it named the one at this index: places are asked for together, and come one
/// after the other. It looks at one word of bits. None: no slot was found there that is due from the same moment on.
pub fn beside(
    kept: Option<Foreseen>,
    slots: &Slots,
    missing: &Bits,
    index: usize,
) -> Option<Foreseen>
    requires within { index + 1 < bits_of missing.now.words.items }
    requires told { ForSome kept (λ answer. Tells answer slots.now.items) }
    ensures { ForSome result (λ answer. Tells answer slots.now.items) }
{
    let answer = kept?;
    let Some(soonest) = answer.soonest else {
        return kept;
    };
    if soonest.index != index {
        return kept;
    }
    let next = missing.first_in_run(index + 1);
    let moment = slots.get(next)?.due_from(answer.rule)?;
    if moment != soonest.moment {
        return None;
    }
    Some(Foreseen {
        rule: answer.rule,
        soonest: Some(Soonest {
            moment,
            index: next,
        }),
    })
}

/// The answer once the slot at this index became another one.
pub fn with_change(kept: Option<Foreseen>, slots: &Slots, index: usize) -> Option<Foreseen>
    ensures { (old : List Slot) → length old ≡ length slots.now.items → ((p : ℕ) → p ≢ index → slice_get slots.now.items p ≡ slice_get old p)
        → ForSome kept (λ answer. Tells answer old) → ForSome result (λ answer. Tells answer slots.now.items) }
{
    let answer = kept?;
    if let Some(soonest) = answer.soonest {
        if soonest.index == index {
            return None;
        }
    }
    let moment = slots.get(index)?.due_from(answer.rule);
    Some(Foreseen {
        rule: answer.rule,
        soonest: Soonest::or(answer.soonest, moment, index),
    })
}
