// Complements of one time column: the residues of the period are gone through once, and those that no part covers are left.
ghost use Rattle.std.specs.Prelude.{◌≡◌, ◌<◌, ◌≤◌, ◌≤ℤ◌, ◌^◌, ◌-ℤ◌, ℤ, [], ◌∷◌, pos, false, length, Contains, IfOk, IsTrue, OnOk};
ghost use Rattle.lrp_theory.specs.Divides.{Divides};
ghost use Rattle.lrp_theory.specs.Entries.{node};
ghost use Rattle.lrp_store.specs.Growing.{IsAdded};
ghost use Rattle.lrp_tables.specs.declared.table.Table.{Table as TableOf};
ghost use Rattle.lrp_periods.specs.Operations.{AreOperand};
ghost use Rattle.lrp_periods.specs.declared.sieves.Cover.{Cover as CoverOf};
ghost use Rattle.lrp_periods.specs.Sieves.{AreCoversOf, CanBeSifted, CanSift, HasWholeCells, IsCoveredNumber, IsCoverOf, IsLeftOpen, IsLineStore, IsOpen, IsShut, IsSifted, line_cell};

use crate::bounding::is_line;
use crate::parts::PartsFault;
use lrp_model::{Cell, Copies, List, Memory};
use lrp_steps::store_over;
use lrp_store::{Store, StoreFault};
use lrp_tables::{Setting, Table};
use std::alloc::Global;

/// For each residue of a part's period whether the part has its numbers.
#[derive(Drop)]
pub(crate) struct Cover {
    pub(crate) residues: List<bool>,
}

/// Whether the parts have one time column and no other, and all numbers of each cell.
pub fn can_be_sifted(parts: &[Table]) -> bool
    ensures { IsTrue result → CanBeSifted parts.now }
{
    is_line(parts) && are_whole(parts)
}

// Whether each cell of the parts has all its numbers.
fn are_whole(parts: &[Table]) -> bool
    ensures { IsTrue result → (part : TableOf) → Contains parts.now part → HasWholeCells part.store }
{
    for part in parts {
        if !is_whole(&part.store) {
            return false;
        }
    }
    true
}

// Whether each cell of the store does.
fn is_whole(store: &Store) -> bool
    ensures { IsTrue result → HasWholeCells store.now }
{
    for cell in store.cells() {
        if !store.is_whole(&cell) {
            return false;
        }
    }
    true
}

/// What none of the parts has, in cells of the period without bounds, where the parts can be sifted.
pub fn sifted(setting: &Setting<'_>, parts: &[Table], period: i64) -> Result<Table, PartsFault>
    requires operand { AreOperand setting.now.domain.now period parts.now }
    requires line { CanBeSifted parts.now }
    ensures { IfOk result (IsSifted setting.now.domain.now period parts.now) }
{
    setting.domain.len();
    let covers = covers_of(setting.alloc, parts)?;
    if leaves_many(covers.as_slice(), period as u64, setting.cap) {
        return Err(PartsFault::GivenUp);
    }
    let vars = parts[0].vars.copy(setting.alloc)?;
    let mut store = store_over(setting.alloc, &vars, period);
    match fill(covers.as_slice(), period as u64, setting.cap, &mut store) {
        Ok(()) => Ok(Table { vars, store }),
        Err(StoreFault::TooManyCells) => Err(PartsFault::GivenUp),
        Err(StoreFault::Memory) => Err(PartsFault::Memory),
    }
}

// Whether the covers leave too many residues open, or there are too many to count them.
fn leaves_many(covers: &[Cover], own: u64, cap: u32) -> bool
    requires { (cover : CoverOf) → Contains covers.now cover → 0 < length cover.residues }
{
    own > u64::from(cap) && (own / 2 > u64::from(cap) || left_open(covers, own) > cap)
}

// How many residues no cover has, at most the greatest number.
fn left_open(covers: &[Cover], own: u64) -> u32
    requires { (cover : CoverOf) → Contains covers.now cover → 0 < length cover.residues }
{
    let mut left: u32 = 0;
    for residue in 0..own {
        if !is_covered(covers, residue) {
            left = left.saturating_add(1);
        }
    }
    left
}

// Adds the cells of the residues below the period that no cover has.
fn fill(covers: &[Cover], own: u64, cap: u32, out: &mut Store) -> Result<(), StoreFault>
    requires sift { CanSift covers.now own out.old }
    requires high { own ≤ 2 ^ 62 }
    ensures { OnOk result (IsAdded (IsLeftOpen covers.now) cap 0 out.old out.new) }
{
    for residue in 0..own {
        if is_covered(covers, residue) {
            continue;
        }
        match out.add_whole(&cell_at(residue), cap) {
            Ok(()) => {}
            Err(fault) => return Err(fault),
        }
    }
    Ok(())
}

/// A cover for each part.
pub(crate) fn covers_of(alloc: Global, parts: &[Table]) -> Result<List<Cover>, Memory>
    requires lines { (part : TableOf) → Contains parts.now part → IsLineStore part.store }
    requires whole { (part : TableOf) → Contains parts.now part → HasWholeCells part.store }
    ensures { IfOk result (AreCoversOf parts.now) }
{
    let mut covers = List::new(alloc);
    for part in parts {
        covers.push(cover_of(alloc, &part.store)?)?;
    }
    Ok(covers)
}

// The residues of whose numbers the store has all.
fn cover_of(alloc: Global, store: &Store) -> Result<Cover, Memory>
    requires line { IsLineStore store.now }
    requires whole { HasWholeCells store.now }
    ensures { IfOk result (IsCoverOf store.now) }
{
    let mut marks = vec![in alloc; false; store.period() as usize]?;
    for cell in store.cells() {
        let place = first_residue(&cell);
        marks[place] = true;
    }
    Ok(Cover {
        residues: List::from_vec(marks),
    })
}

// The first residue of a cell.
fn first_residue(cell: &Cell) -> usize
    requires size { length cell.now.residues ≡ 8 }
    requires low { pos 0 ≤ℤ node cell.now.residues 1 }
    ensures { pos result ≡ node cell.now.residues 1 }
{
    cell.residues[0] as usize
}

/// Whether a cover has the numbers of a residue.
pub(crate) fn is_covered(covers: &[Cover], residue: u64) -> bool
    requires { (cover : CoverOf) → Contains covers.now cover → 0 < length cover.residues }
    ensures shut { IsTrue result → IsShut covers.now (pos residue) }
    ensures none { result ≡ false → IsOpen covers.now (pos residue) }
{
    for cover in covers {
        if is_marked(cover, residue) {
            return true;
        }
    }
    false
}

// Whether this one has.
fn is_marked(cover: &Cover, residue: u64) -> bool
    requires { 0 < length cover.now.residues }
    ensures shut { IsTrue result → IsCoveredNumber cover.now (pos residue) }
    ensures none { result ≡ false → IsCoveredNumber cover.now (pos residue) → ⊥ }
{
    let marks = cover.residues.as_slice();
    marks[(residue % marks.len() as u64) as usize]
}

/// The cell of a residue of one time column.
pub(crate) fn cell_at(residue: u64) -> Cell
    requires { residue ≤ 2 ^ 62 }
    ensures { result ≡ line_cell residue }
{
    let mut residues = [0; 8];
    residues[0] = residue as i64;
    Cell {
        texts: [0; 8],
        residues,
    }
}
