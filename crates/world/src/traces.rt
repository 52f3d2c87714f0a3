//! What was logged and what was sent, as clauses alone read it. A trace takes no memory, and its functions do nothing when they run.
ghost use Rattle.std.specs.Prelude.{◌≡◌, [], ◌∷◌, ◌++◌, List};
ghost use Rattle.std.specs.Borrow.{ftrue};
ghost use Rattle.world.specs.declared.event.Entry.{Entry as Logged};
ghost use Rattle.world.specs.Answers.{Item};

use crate::event::{Entry, Label};
use std::marker::Model;

/// The entries of a log.
#[derive(Drop)]
pub(crate) struct EntryTrace {
    pub(crate) ghost items: { List Logged },
}

impl Model for EntryTrace {
    ghost also_owns = { λ _. ftrue };
}

impl EntryTrace {
    /// No entry.
    pub(crate) fn new() -> EntryTrace
        ensures { result.items ≡ [] }
    {
        EntryTrace {}
    }

    /// These entries, and then one more.
    pub(crate) fn with(_before: &EntryTrace, _entry: &Entry) -> EntryTrace
        ensures { result.items ≡ _before.now.items ++ _entry.now ∷ [] }
    {
        EntryTrace {}
    }
}

/// The datagrams of a wire, under their labels.
#[derive(Drop)]
pub(crate) struct WireTrace {
    pub(crate) ghost items: { List Item },
}

impl Model for WireTrace {
    ghost also_owns = { λ _. ftrue };
}

impl WireTrace {
    /// No datagram.
    pub(crate) fn new() -> WireTrace
        ensures { result.items ≡ [] }
    {
        WireTrace {}
    }

    /// These datagrams, and then one more.
    pub(crate) fn with(_before: &WireTrace, _label: &Label, _octets: &[u8]) -> WireTrace
        ensures { result.items ≡ _before.now.items ++ (_label.now, record { items = _octets.now }) ∷ [] }
    {
        WireTrace {}
    }
}
