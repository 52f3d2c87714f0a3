//! Which places were asked for.
ghost use Rattle.std.specs.Prelude.{◌≡◌, ◌%◌, ◌<◌, ◌≤◌, ℕ, map, length, IfOk};
ghost use Rattle.fbwire.specs.Nack.{Nack, NackSpells};
ghost use Rattle.endpoint.specs.Asked.{asked_at, none_asked, places_named, remembers, with_place, with_places};

use fbwire::{NackView, Numbers};
use places::Place;
use std::alloc::Global;
use std::marker::Model;
use stores::OutOfMemory;

/// The places that were asked for last, in a ring with a cell for each place modulo the number of cells. It takes memory in
/// `new` alone. Contracts see it as the list of its cells.
///
/// A place is remembered from when a NACK names it until a later NACK names another one with the same cell, or all are forgotten.
#[derive(Debug, Drop)]
pub struct AskedPlaces {
    cells: Vec<Option<Place>>,
}

impl Model for AskedPlaces {
    ghost use Rattle.std.specs.Prelude.{◌<◌, ℕ, List, Option, length};

    ghost Value = { List (Option ℕ) };

    ghost view = { λ a. a.cells.items };

    ghost invariant = { λ a. 0 < length a.cells.items };
}

impl AskedPlaces {
    /// A ring of so many cells that remembers nothing.
    ///
    /// `OutOfMemory`: the allocator refused the memory.
    pub(crate) fn new(alloc: Global, count: usize) -> Result<AskedPlaces, OutOfMemory>
        requires { 0 < count }
        ensures { IfOk result (λ made. made ≡ none_asked count) }
    {
        let mut cells = Vec::with_capacity(alloc, count)?;
        'blank: for _ in 0..count {
            cells.push_reserved(None);
        }
        Ok(AskedPlaces { cells })
    }

    /// Whether this place is remembered.
    pub fn remembers(&self, place: Place) -> bool
        ensures { result ≡ remembers self.now place }
    {
        self.cells[self.index_of(place)] == Some(place)
    }

    /// Remembers the places that a NACK names, which was made when this place was the highest.
    pub(crate) fn hear_nack(&mut self, highest: Place, octets: &[u8])
        ensures { (nack : Nack) → NackSpells nack octets.now → self.new ≡ with_places self.old (places_named highest nack) }
    {
        if let Ok(nack) = NackView::read(octets) {
            self.remember_all(highest, nack.numbers());
        }
    }

    /// Remembers the places that these numbers name.
    fn remember_all(&mut self, highest: Place, numbers: Numbers<'_>)
        ensures { self.new ≡ with_places self.old (map (asked_at highest) numbers.entry) }
    {
        for number in numbers {
            self.remember(asked_at(highest, number));
        }
    }

    /// Remembers this place.
    fn remember(&mut self, place: Place)
        ensures { self.new ≡ with_place self.old place }
    {
        let index = self.index_of(place);
        self.cells[index] = Some(place);
    }

    /// Forgets all places.
    pub(crate) fn forget(&mut self)
        ensures { self.new ≡ none_asked (length self.old) }
    {
        let count = self.cells.len();
        self.cells.clear();
        'blank: for _ in 0..count {
            self.cells.push_reserved(None);
        }
    }

    /// The index of the cell of this place.
    fn index_of(&self, place: Place) -> usize
        ensures index { result ≡ place % length self.now }
        ensures within { result < length self.now }
    {
        (place.value() % self.cells.len() as u64) as usize
    }
}

/// The place that an ask names by this number.
pub(crate) fn asked_at(highest: Place, seq: u16) -> Place
    ensures { result ≡ asked_at highest seq }
{
    let behind = highest.number().wrapping_sub(seq);
    Place::new(highest.value().saturating_sub(u64::from(behind))).unwrap()
}
