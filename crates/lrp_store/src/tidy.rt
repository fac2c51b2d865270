// Zones that lie within another zone of their cell are dropped.
ghost use Rattle.std.specs.Prelude.{◌≡◌, ◌≢◌, ◌+◌, ◌<◌, ◌↔◌, IsTrue, length};
ghost use Rattle.std.specs.FinMap as finite;
ghost use Rattle.lrp_model.specs.declared.tuples.Cell.{Cell as CellValue};
ghost use Rattle.lrp_store.specs.Stores.{ChangesTablesAlone, tables_at};
ghost use Rattle.lrp_store.specs.Tidied.{IsCovered, IsTidied};

use crate::store::Store;
use lrp_model::Cell;

impl Store {
    /// Drops the zones of a cell that lie within another one of its list. Of equal ones the last stays, and the order does.
    ///
    /// For callers that fill a cell by `add` and want no zone of it twice; the evaluator settles whole tables instead.
    pub fn tidy(&mut self, cell: &Cell)
        ensures tidied { IsTidied self.old cell.now (tables_at self.old cell.now)
            (tables_at self.new cell.now) }
        ensures others { (other : CellValue) → other ≢ cell.now
            → finite.get self.new.tables other ≡ finite.get self.old.tables other }
        ensures rest { ChangesTablesAlone self.old self.new }
        ensures spare { self.new.spare + length (tables_at self.new cell.now)
            ≡ self.old.spare + length (tables_at self.old cell.now) }
    {
        let mut i = 0;
        while i < self.count(cell) {
            if self.is_covered(cell, i) {
                self.remove(cell, i);
            } else {
                i += 1;
            }
        }
    }

    // Whether a zone lies within another one of its cell.
    fn is_covered(&self, cell: &Cell, i: usize) -> bool
        requires { i < length (tables_at self.now cell.now) }
        ensures { IsTrue result ↔ IsCovered self.now cell.now i }
    {
        let times = usize::from(self.shape.times);
        let Some(zone) = self.zone(cell, i) else {
            return false;
        };
        let mut rest = self.slots.iter(cell);
        for j in 0..self.count(cell) {
            let Some(bounds) = rest.next() else {
                unreachable!()
            };
            if j == i {
                continue;
            }
            let other = bounds.zone(self.period, &cell.residues[..times]);
            if zone.within(&other) {
                return true;
            }
        }
        false
    }
}
