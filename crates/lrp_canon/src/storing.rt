// The maximal rows of all groups, as zones of a store.
ghost use Rattle.std.specs.Prelude.{◌≡◌, ◌<◌, ◌≤◌, ◌^◌, AllPairs, Contains, IfOk, OnOk};
ghost use Rattle.std.specs.FinMap as finite;
ghost use Rattle.lrp_theory.specs.Entries.{AtMost};
ghost use Rattle.lrp_store.specs.Stores.{IsStore};
ghost use Rattle.lrp_canon.specs.Counting.{AreRepeatingGroups};
ghost use Rattle.lrp_canon.specs.Making.{AddsRow, AddsRows, AreGroupCells, HoldsGroups, IsRow, IsZoneOf, LieApart, TakesRows, high_of, low_of, row_cell};
ghost use Rattle.lrp_canon.specs.declared.rows.MaximalRow.{MaximalRow as RowValue};

use crate::edges::Periods;
use crate::rows::{MaximalRow, maximal_rows};
use lrp_model::{Bound, Cell, Memory, Shape};
use lrp_slots::Slots;
use lrp_spans::{Span, spans_at};
use lrp_store::Store;
use lrp_zone::Zone;
use std::alloc::Global;

/// The maximal rows of all groups, in a new store of the least period.
pub fn rows_in_store(
    alloc: Global,
    groups: &Slots<Span>,
    periods: Periods,
    shape: Shape,
) -> Result<Store, Memory>
    requires low { 0 < periods.least }
    requires high { periods.least ≤ 2 ^ 62 }
    requires repeating { AreRepeatingGroups periods groups.now.lists }
    requires groups { AreGroupCells shape groups.now.lists }
    ensures shape { IfOk result (λ made. made.shape ≡ shape) }
    ensures period { IfOk result (λ made. made.period ≡ periods.least) }
    ensures valid { IfOk result (λ made. IsStore made) }
    ensures holds { IfOk result (λ made. HoldsGroups periods groups.now.lists
        (finite.keys groups.now.lists) made) }
{
    let mut store = Store::new(alloc, shape, periods.least as i64);
    for group in groups.cells() {
        let spans = spans_at(alloc, groups, &group)?;
        let rows = maximal_rows(alloc, &spans, periods)?;
        add_rows(&rows, &group, periods.least, &mut store)?;
    }
    Ok(store)
}

// Adds the rows to the cells of a group.
fn add_rows(rows: &[MaximalRow], group: &Cell, period: u64, out: &mut Store) -> Result<(), Memory>
    requires high { period ≤ 2 ^ 62 }
    requires period { out.old.period ≡ period }
    requires takes { TakesRows group.now out.old }
    requires rows { (row : RowValue) → Contains rows.now row → IsRow period row }
    requires apart { AllPairs (LieApart period) rows.now }
    ensures { OnOk result (AddsRows group.now rows.now out.old out.new) }
{
    for row in rows {
        add_row(row, group, period, out)?;
    }
    Ok(())
}

// Adds a row to the cell of its residue.
fn add_row(row: &MaximalRow, group: &Cell, period: u64, out: &mut Store) -> Result<(), Memory>
    requires high { period ≤ 2 ^ 62 }
    requires period { out.old.period ≡ period }
    requires takes { TakesRows group.now out.old }
    requires row { IsRow period row.now }
    ensures { OnOk result (AddsRow group.now row.now out.old out.new) }
{
    let zone = zone_of(row, period);
    let cell = cell_of(group, row.residue);
    out.put(&cell, &zone)?;
    Ok(())
}

// The cell of a residue with the texts of the group.
fn cell_of(group: &Cell, residue: u64) -> Cell
    requires { residue < 2 ^ 62 }
    ensures { result ≡ row_cell group.now residue }
{
    Cell {
        texts: group.texts,
        residues: [residue as i64, 0, 0, 0, 0, 0, 0, 0],
    }
}

// The zone of a row.
fn zone_of(row: &MaximalRow, period: u64) -> Zone
    requires high { period ≤ 2 ^ 62 }
    requires row { IsRow period row.now }
    ensures { IsZoneOf period row.now result }
{
    let bounds = [low_bound(row.least), high_bound(row.most)];
    match Zone::of(period as i64, &[row.residue as i64], &bounds) {
        Some(zone) => zone,
        None => unreachable!(),
    }
}

// The bound that a least number is. Without one it is a bound that all numbers meet.
fn low_bound(least: Option<i64>) -> Bound
    requires { AtMost (2 ^ 62) least }
    ensures { result ≡ low_of least }
{
    match least {
        Some(least) => Bound {
            left: 0,
            right: 1,
            most: -least,
        },
        None => Bound {
            left: 0,
            right: 0,
            most: 0,
        },
    }
}

// The bound that a greatest number is. Without one it is a bound that all numbers meet.
fn high_bound(most: Option<i64>) -> Bound
    ensures { result ≡ high_of most }
{
    match most {
        Some(most) => Bound {
            left: 1,
            right: 0,
            most,
        },
        None => Bound {
            left: 0,
            right: 0,
            most: 0,
        },
    }
}
