// The zones of a cell and of all cells, read in one pass.
ghost use Rattle.std.specs.Prelude.{◌≡◌, IfOk};
ghost use Rattle.lrp_store.specs.Reading.{entries_of};
ghost use Rattle.lrp_store.specs.Stores.{IsStore, zones_at};

use crate::store::Store;
use crate::zones::{Entries, Zones};
use lrp_model::{Cell, List, Memory};
use lrp_zone::Zone;
use std::alloc::Global;

impl Store {
    /// The zones of a cell, in order. The cell is looked up once.
    pub fn zones_of(&self, cell: &Cell) -> Zones<'_>
        ensures { result ≡ zones_at self.now cell.now }
    {
        let residues = cell.residues;
        Zones {
            period: self.period,
            times: usize::from(self.shape.times),
            residues,
            left: self.slots.iter(cell),
        }
    }

    /// The cells that are held, ascending by texts and then by residues, each with its zones in order.
    pub fn entries(&self) -> Entries<'_>
        ensures value { result ≡ entries_of self.now }
        ensures valid { IsStore self.now }
    {
        Entries {
            period: self.period,
            times: usize::from(self.shape.times),
            left: self.slots.lists(),
        }
    }

    /// The zones of a cell, in order, as a list.
    pub fn zones_in(&self, alloc: Global, cell: &Cell) -> Result<List<Zone>, Memory>
        ensures { IfOk result (λ made. made ≡ zones_at self.now cell.now) }
    {
        let times = usize::from(self.shape.times);
        let mut made = List::new(alloc);
        for bounds in self.slots.iter(cell) {
            let zone = bounds.zone(self.period, &cell.residues[..times]);
            made.push(zone)?;
        }
        Ok(made)
    }
}
