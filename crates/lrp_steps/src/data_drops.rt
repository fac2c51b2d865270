// One data column fewer: some text of the domain completes what is left.
ghost use Rattle.std.specs.Prelude.{◌≡◌, ◌+◌, ◌-◌, ◌<◌, ◌≤◌, ◌^◌, OnOk, IfOk};
ghost use Rattle.lrp_zone.specs.Zones.{IsZone, reach_of};
ghost use Rattle.lrp_store.specs.Growing.{IsAdded};
ghost use Rattle.lrp_store.specs.Stores.{IsStore};
ghost use Rattle.lrp_tables.specs.Pieces.{FitsCell, InPiece};
ghost use Rattle.lrp_tables.specs.Passes.{IsMadeFrom};
ghost use Rattle.lrp_steps.specs.Tuples.{IsWithoutText, IsStoreWithoutName, IsStoreWithoutText};
ghost use Rattle.lrp_steps.specs.Tables.{IsTextDropped};

use crate::places::without_number;
use lrp_model::{Cell, Domain, Memory, Name, Shape};
use lrp_store::Store;
use lrp_tables::{Piece, Pieces, Table, Vars, place_of, without};
use std::alloc::Global;

/// The assignments that some text of the domain for the data variable completes to one of the table, over its other columns.
///
/// Where no column has the name, these are the assignments of the table, or none where the domain has no text.
pub fn drop_data(
    alloc: Global,
    table: &Table,
    name: &Name,
    domain: &Domain,
) -> Result<Table, Memory>
    ensures dropped { IfOk result (λ made. IsTextDropped domain.now name.now table.now made) }
    ensures valid { IfOk result (λ made. IsStore made.store) }
{
    let vars = Vars {
        times: table.vars.times.copy(alloc)?,
        texts: without(alloc, &table.vars.texts, name)?,
    };
    let store = without_name(alloc, table, name, domain)?;
    Ok(Table { vars, store })
}

// The tuples without the text of a name, where a column has it.
fn without_name(alloc: Global, table: &Table, name: &Name, domain: &Domain) -> Result<Store, Memory>
    ensures made { IfOk result (IsStoreWithoutName domain.now name.now table.now) }
    ensures valid { IsStore table.now.store }
{
    let shape = table.store.shape();
    let size = domain.len();
    match place_of(&table.vars.texts, name) {
        Some(place) => without_text(alloc, &table.store, place, size),
        None if size == 0 => Ok(Store::new(alloc, shape, table.store.period())),
        None => table.store.copy(alloc),
    }
}

// The tuples without the text at a place, where its number is below the size of the domain.
fn without_text(alloc: Global, store: &Store, place: usize, size: u32) -> Result<Store, Memory>
    requires place { place < store.now.shape.texts }
    ensures { IfOk result (λ made. IsStoreWithoutText place size store.now made) }
{
    let shape = store.shape();
    let shape = Shape {
        times: shape.times,
        texts: shape.texts - 1,
    };
    let mut out = Store::new(alloc, shape, store.period());
    for piece in Pieces::of(store) {
        add_without_text(&piece, place, size, &mut out)?;
    }
    Ok(out)
}

// Adds the tuples of a zone without the text at a place, where its number is below the size of the domain.
fn add_without_text(piece: &Piece, place: usize, size: u32, out: &mut Store) -> Result<(), Memory>
    requires valid { IsStore out.old }
    requires zone { IsZone piece.now.zone }
    requires place { place ≤ out.old.shape.texts }
    requires wide { out.old.shape.texts < 8 }
    requires fits { FitsCell (record {
      times = out.old.shape.times;
      texts = out.old.shape.texts + 1;
    })
        out.old.period piece.now }
    ensures ok { OnOk result (IsAdded (IsMadeFrom (IsWithoutText place size)
        (InPiece (out.old.shape.texts + 1) piece.now)) (2 ^ 32 - 1)
        (reach_of piece.now.zone) out.old out.new) }
{
    if piece.cell.texts[place] >= size {
        return Ok(());
    }
    let cell = Cell {
        texts: without_number(&piece.cell.texts, place),
        residues: piece.cell.residues,
    };
    out.put_new(&cell, &piece.zone)
}
