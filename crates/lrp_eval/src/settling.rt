// Stores whose cells are settled.
ghost use Rattle.std.specs.Prelude.{◌≡◌, ◌<◌, IfOk, OnOk, IsTrue, Contains, length, take, pos};
ghost use Rattle.lrp_zone.specs.Zones.{ZoneView};
ghost use Rattle.lrp_store.specs.Stores.{IsPadded, IsStore, zones_at};
ghost use Rattle.lrp_cutting.specs.Settling.{AddsZones, IsLike, SettlesCell};
ghost use Rattle.lrp_eval.specs.Settling.{CanSettle, HasSingleZones, IsSettledStore};

use lrp_cutting::{is_settled, settle, settle_line};
use lrp_model::{Cell, Memory};
use lrp_store::Store;
use lrp_zone::Zone;
use std::alloc::Global;

/// The same tuples, in zones that are settled cell by cell. A store whose cells are settled is given back as it is.
pub(crate) fn settled(alloc: Global, store: Store) -> Result<Store, Memory>
    requires valid { IsStore store }
    requires room { CanSettle store }
    ensures { IfOk result (λ made. IsSettledStore store made) }
{
    if has_single_zones(&store) {
        return Ok(store);
    }
    if has_settled_cells(&store) {
        return Ok(store);
    }
    settled_cells(alloc, &store)
}

// Whether each cell has one zone.
fn has_single_zones(store: &Store) -> bool
    requires { IsStore store.now }
    ensures { IsTrue result → HasSingleZones store.now }
{
    store.zones() == store.len() as usize
}

// Whether the zones have one column, and those of each cell are settled as they stand.
fn has_settled_cells(store: &Store) -> bool
    requires room { CanSettle store.now }
    ensures { IsTrue result → IsSettledStore store.now store.now }
{
    if store.shape().times != 1 {
        return false;
    }
    for cell in store.cells() {
        if !is_settled(store, &cell) {
            return false;
        }
    }
    true
}

// The same tuples in a new store, in which each cell is settled.
fn settled_cells(alloc: Global, store: &Store) -> Result<Store, Memory>
    requires room { CanSettle store.now }
    ensures { IfOk result (λ made. IsSettledStore store.now made) }
{
    let mut made = Store::new(alloc, store.shape(), store.period());
    for cell in store.cells() {
        settle_cell(alloc, store, &cell, &mut made)?;
    }
    prove_eq!(made.shape().times, store.shape().times);
    Ok(made)
}

// Appends the zones that a cell is settled to. Only with two columns or more are they listed before.
fn settle_cell(alloc: Global, store: &Store, cell: &Cell, made: &mut Store) -> Result<(), Memory>
    requires room { CanSettle store.now }
    requires some { 0 < length (zones_at store.now cell.now) }
    requires like { IsLike store.now made.old }
    ensures { OnOk result (SettlesCell cell.now store.now made.old made.new) }
{
    if store.shape().times == 1 {
        return settle_line(alloc, store, cell, made);
    }
    let zones = store.zones_in(alloc, cell)?;
    let zones = settle(alloc, &zones)?;
    add_all(made, cell, zones.as_slice())
}

// Appends zones to a cell's list.
fn add_all(store: &mut Store, cell: &Cell, zones: &[Zone]) -> Result<(), Memory>
    requires texts { IsPadded 0 store.old.shape.texts cell.now.texts }
    requires times { IsPadded (pos 0) store.old.shape.times cell.now.residues }
    requires periods { (z : ZoneView) → Contains zones.now z → z.period ≡ store.old.period }
    requires residues { (z : ZoneView) → Contains zones.now z
        → z.residues ≡ take store.old.shape.times cell.now.residues }
    ensures { OnOk result (AddsZones cell.now zones.now store.old store.new) }
{
    for zone in zones {
        store.put(cell, zone)?;
    }
    Ok(())
}
