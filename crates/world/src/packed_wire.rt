//! A wire that takes no more memory than its datagrams are long.
ghost use Rattle.std.specs.Prelude.{◌≡◌};

use crate::event::Label;
use crate::slot::{Kind, Slot};
use crate::traces::WireTrace;
use crate::wire::Wire;
use rtpwire::MAX_DATAGRAM;
use std::alloc::Global;
use std::marker::Model;
use stores::OutOfMemory;

/// A wire whose datagrams lie one behind the other. The pairs of an ask are read again from its octets.
#[derive(Drop)]
pub struct PackedWire {
    octets: Vec<u8>,
    slots: Vec<Slot>,
    trace: WireTrace,
}

impl Model for PackedWire {
    ghost use Rattle.std.specs.Prelude.{◌-◌, vec_len};
    ghost use Rattle.std.specs.Vec.{vec_capacity};
    ghost use Rattle.world.specs.Packed.{Packing, AllLie};

    ghost Value = { Packing };

    ghost view = { λ w. record {
      items = w.trace.items;
      octets_room = vec_capacity w.octets - vec_len w.octets;
      slots_room = vec_capacity w.slots - vec_len w.slots;
    } };

    ghost invariant = { λ w. AllLie w.octets.items w.slots.items w.trace.items };
}

impl Wire for PackedWire {
    ghost use Rattle.std.specs.Prelude.{◌<◌, ◌≤◌};
    ghost use Rattle.rtpwire.specs.declared.limits.TheConstants.{MAX_DATAGRAM};

    ghost items = { λ wire. wire.items };

    ghost has_room = { λ wire. (MAX_DATAGRAM ≤ wire.octets_room) × (0 < wire.slots_room) };

    fn empty(alloc: Global) -> PackedWire {
        PackedWire {
            octets: Vec::new(alloc),
            slots: Vec::new(alloc),
            trace: WireTrace::new(),
        }
    }

    fn count(&self) -> u64 {
        self.slots.len() as u64
    }

    fn make_room(&mut self) -> Result<(), OutOfMemory> {
        self.octets.reserve(MAX_DATAGRAM)?;
        self.slots.reserve(1)?;
        Ok(())
    }

    fn put(&mut self, label: Label, octets: &[u8]) {
        let slot = Slot {
            start: self.octets.len(),
            len: octets.len(),
            kind: Kind::of(&label),
        };
        self.octets.extend_from_slice(octets).unwrap();
        self.slots.push_reserved(slot);
        self.trace = WireTrace::with(&self.trace, &label, octets);
    }

    fn get(&self, index: u64) -> Option<(Label, &[u8])> {
        match self.slots.as_slice().get(index as usize) {
            Some(slot) => {
                let octets = &self.octets[slot.start..slot.start + slot.len];
                Some((slot.kind.label(octets), octets))
            }
            None => None,
        }
    }
}
