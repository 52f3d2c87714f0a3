//! What the datagrams that were sent lie in.
ghost use Rattle.std.specs.Prelude.{◌≡◌, ◌<◌, ◌≤◌, ◌^◌, [], ◌∷◌, ◌++◌, List, length, slice_get, Some, OnOk, MatchOption, vec_len};
ghost use Rattle.std.specs.Vec.{vec_capacity};
ghost use Rattle.rtpwire.specs.declared.limits.TheConstants.{MAX_DATAGRAM};
ghost use Rattle.world.specs.Answers.{Item};
ghost use Rattle.world.specs.Pairs.{SpellsPairs};

use crate::event::Label;
use rtpwire::Datagram;
use std::alloc::Global;
use stores::OutOfMemory;

/// The wire of a world: each datagram that was put on it, under its label. It only grows.
pub trait Wire: Drop {
    /// The datagrams under their labels, the first one first.
    ghost items: { Self → List Item };

    /// There is room for one more datagram.
    ghost has_room: { Self → Type 0 };

    /// A wire that nothing was put on. It takes no memory.
    fn empty(alloc: Global) -> Self
        ensures { items result ≡ [] };

    /// How many datagrams were put on it. No memory holds 2^63 of them.
    fn count(&self) -> u64
        ensures count { result ≡ length (items self.now) }
        ensures few { result < 2 ^ 63 };

    /// Makes room for one more datagram.
    ///
    /// `OutOfMemory`: the allocator refused the growth.
    fn make_room(&mut self) -> Result<(), OutOfMemory>
        ensures items { items self.new ≡ items self.old }
        ensures room { OnOk result (has_room self.new) };

    /// Puts octets on it, under a label. There is room, and the pairs of a label of feedback are those that the octets spell.
    fn put(&mut self, label: Label, octets: &[u8])
        requires room { has_room self.old }
        requires fits { length octets.now ≤ MAX_DATAGRAM }
        requires pairs { SpellsPairs label octets.now }
        ensures { items self.new ≡ items self.old ++ (label, record { items = octets.now }) ∷ [] };

    /// The label and the octets of the datagram at an index, counted from 0, if there is one.
    fn get(&self, index: u64) -> Option<(Label, &[u8])>
        ensures { MatchOption result (length (items self.now) ≤ index)
            (λ found. slice_get (items self.now) index ≡ Some (found.0, record { items = found.1.now })) };
}

/// A wire that keeps each datagram as it is, in a list that can be lent.
impl Wire for Vec<(Label, Datagram)> {
    ghost items = { λ wire. wire.items };

    ghost has_room = { λ wire. vec_len wire < vec_capacity wire };

    fn empty(alloc: Global) -> Vec<(Label, Datagram)> {
        Vec::new(alloc)
    }

    fn count(&self) -> u64 {
        self.len() as u64
    }

    fn make_room(&mut self) -> Result<(), OutOfMemory> {
        self.reserve(1)?;
        Ok(())
    }

    fn put(&mut self, label: Label, octets: &[u8]) {
        let mut datagram = Datagram::new();
        datagram.try_extend_from_slice(octets).unwrap();
        self.push_reserved((label, datagram));
    }

    fn get(&self, index: u64) -> Option<(Label, &[u8])> {
        let wire = self.as_slice();
        match wire.get(index as usize) {
            Some((label, datagram)) => Some((label.copy(), datagram.as_slice())),
            None => None,
        }
    }
}
