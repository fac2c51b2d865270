// Cells that a store holds whole.
ghost use Rattle.std.specs.Prelude.{◌≡◌, ◌-◌, ◌^◌, pos, take, length, true, OnOk, OnErr};
ghost use Rattle.lrp_zone.specs.Zones.{greatest_of};
ghost use Rattle.lrp_store.specs.Growing.{IsAdded, IsTupleOf};
ghost use Rattle.lrp_store.specs.Stores.{IsPadded};
ghost use Rattle.lrp_systems.specs.Wholes.{AreMarkedWhole, AreWhole};

use crate::marks::Marks;
use lrp_model::{Cell, Memory};
use lrp_store::Store;
use lrp_tables::{RememberedCells, is_free};
use lrp_zone::Zone;

/// Adds a zone to its cell, which is remembered where all its tuples are held then.
pub fn add_zone(
    cell: &Cell,
    zone: &Zone,
    wholes: &mut RememberedCells,
    out: &mut Store,
) -> Result<(), Memory>
    requires period { zone.now.period ≡ out.old.period }
    requires residues { zone.now.residues ≡ take out.old.shape.times cell.now.residues }
    requires texts { IsPadded 0 out.old.shape.texts cell.now.texts }
    requires times { IsPadded (pos 0) out.old.shape.times cell.now.residues }
    requires wholes { AreWhole wholes.old out.old }
    ensures ok { OnOk result (IsAdded (IsTupleOf zone.now (take out.old.shape.texts cell.now.texts))
        (2 ^ 32 - 1) (greatest_of zone.now.bounds) out.old out.new) }
    ensures wholes { OnOk result (AreWhole wholes.new out.new) }
    ensures kept { OnErr result ((wholes.new ≡ wholes.old)
        × (out.new ≡ record out.old { spare = out.new.spare })) }
{
    match out.put_new(cell, zone) {
        Ok(()) => {}
        Err(memory) => return Err(memory),
    }
    if is_free(zone) {
        wholes.put(cell);
    }
    Ok(())
}

/// Marks the residue of a cell that is remembered, where cells have one column and no texts.
pub(crate) fn mark_whole(cell: &Cell, wholes: &RememberedCells, out: &Store, marks: &mut Marks)
    requires size { length cell.now.residues ≡ 8 }
    requires wholes { AreWhole wholes.now out.now }
    requires marks { AreMarkedWhole marks.old out.now }
    ensures { AreMarkedWhole marks.new out.now }
{
    if is_line(out) && wholes.has(cell) {
        marks.put(cell);
    }
}

/// Whether the tuples of a store have one time and no texts.
pub(crate) fn is_line(store: &Store) -> bool
    ensures { result ≡ true → (store.now.shape.times ≡ 1) × (store.now.shape.texts ≡ 0) }
{
    let shape = store.shape();
    shape.times == 1 && shape.texts == 0
}
