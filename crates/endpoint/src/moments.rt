//! When the latest packets were sent and last retransmitted.
ghost use Rattle.std.specs.Prelude.{◌≡◌, ◌%◌, ◌<◌, IfOk, length};
ghost use Rattle.endpoint.specs.Moments.{times_at, told};

use crate::resend_rule::Times;
use places::Place;
use std::alloc::Global;
use std::marker::Model;
use stores::OutOfMemory;

/// The moments of the latest packets, in a ring with a cell for each place modulo the number of cells. It takes memory in
/// `new` alone. Contracts see it as the list of its cells.
///
/// A place's cell has its moments from when it is told until a later place with the same cell is.
#[derive(Debug, Drop)]
pub struct Moments {
    cells: Vec<Times>,
}

impl Model for Moments {
    ghost use Rattle.std.specs.Prelude.{◌<◌, List, length};
    ghost use Rattle.endpoint.specs.declared.resend_rule.Times.{Times};

    ghost Value = { List Times };

    ghost view = { λ m. m.cells.items };

    ghost invariant = { λ m. 0 < length m.cells.items };
}

impl Moments {
    /// A ring of so many cells, of which none was told.
    ///
    /// `OutOfMemory`: the allocator refused the memory.
    pub(crate) fn new(alloc: Global, count: usize) -> Result<Moments, OutOfMemory>
        requires { 0 < count }
        ensures { IfOk result (λ made. length made ≡ count) }
    {
        let mut cells = Vec::with_capacity(alloc, count)?;
        'blank: for _ in 0..count {
            cells.push_reserved(Times {
                sent: 0,
                resent: None,
            });
        }
        Ok(Moments { cells })
    }

    /// The moments in the cell of this place.
    pub(crate) fn times(&self, place: Place) -> Times
        ensures { result ≡ times_at self.now place }
    {
        self.cells[self.index_of(place)]
    }

    /// Tells the moments of this place.
    pub(crate) fn tell(&mut self, place: Place, times: Times)
        ensures { self.new ≡ told self.old place times }
    {
        let index = self.index_of(place);
        self.cells[index] = times;
    }

    /// The index of the cell of this place.
    fn index_of(&self, place: Place) -> usize
        ensures index { result ≡ place % length self.now }
        ensures within { result < length self.now }
    {
        (place.value() % self.cells.len() as u64) as usize
    }
}
