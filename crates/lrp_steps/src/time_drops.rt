// One time column fewer: some integer completes what is left.
ghost use Rattle.std.specs.Prelude.{◌≡◌, ◌<◌, ◌^◌, IfOk, length};
ghost use Rattle.lrp_store.specs.Stores.{IsStore, HasReach};
ghost use Rattle.lrp_steps.specs.Tuples.{IsCellWithoutTime, IsStoreWithoutTime};
ghost use Rattle.lrp_steps.specs.Tables.{IsTimeDropped};

use crate::places::without_residue;
use lrp_model::{Cell, Copies, Memory, Name, Shape};
use lrp_store::Store;
use lrp_systems::add_zone;
use lrp_tables::{RememberedCells, Table, Vars, place_of, without};
use std::alloc::Global;

/// The assignments that some integer for the time variable completes to one of the table, over its other columns.
///
/// Where no column has the name, these are the assignments of the table.
pub fn drop_time(alloc: Global, table: &Table, name: &Name) -> Result<Table, Memory>
    requires reach { HasReach table.now.store (2 ^ 61) }
    ensures dropped { IfOk result (λ made. IsTimeDropped name.now table.now made) }
    ensures valid { IfOk result (λ made. IsStore made.store) }
{
    let vars = Vars {
        times: without(alloc, &table.vars.times, name)?,
        texts: table.vars.texts.copy(alloc)?,
    };
    let store = match place_of(&table.vars.times, name) {
        Some(place) => without_time(alloc, &table.store, place)?,
        None => table.store.copy(alloc)?,
    };
    Ok(Table { vars, store })
}

// The tuples without the time at a place.
//
// Where all tuples of a cell are held already, its zones are not looked at.
fn without_time(alloc: Global, store: &Store, place: usize) -> Result<Store, Memory>
    requires place { place < store.now.shape.times }
    requires reach { HasReach store.now (2 ^ 61) }
    ensures made { IfOk result (λ made. IsStoreWithoutTime place store.now made) }
    ensures valid { IsStore store.now }
{
    let shape = store.shape();
    let shape = Shape {
        times: shape.times - 1,
        texts: shape.texts,
    };
    let mut out = Store::new(alloc, shape, store.period());
    let mut wholes = RememberedCells::new(alloc, store.len() as usize);
    for (cell, zones) in store.entries() {
        let rest = cell_without_time(&cell, place);
        if wholes.has(&rest) {
            continue;
        }
        for zone in zones {
            let shorter = zone.drop_column(place + 1);
            add_zone(&rest, &shorter, &mut wholes, &mut out)?;
        }
    }
    Ok(out)
}

// The cell without the time at a place.
fn cell_without_time(cell: &Cell, place: usize) -> Cell
    requires size { length cell.now.residues ≡ 8 }
    requires place { place < 8 }
    ensures { IsCellWithoutTime place cell.now result }
{
    Cell {
        texts: cell.texts,
        residues: without_residue(&cell.residues, place),
    }
}
