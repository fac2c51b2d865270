// Zones in as few bytes as they need.
ghost use Rattle.std.specs.Prelude.{◌≡◌, ◌<◌, ◌≤◌, IfOk, IfSome};
ghost use Rattle.std.specs.List.{AllByRecursion};
ghost use Rattle.lrp_packed.specs.Entries.{ArePacked, IsEntryAt, IsEntryPut, IsFullSize, IsProper, IsPutInCell, cell_of_entries, residue_in, table_of_entries, text_in};
ghost use Rattle.lrp_packed.specs.Packed.{CanBeUnpacked, unpacked};

use lrp_model::{Cell, Memory, Shape};
use lrp_tables::Piece;
use lrp_zone::{BoundTable, Zone};
use smallvec::SmallVec;
use std::alloc::Global;
use std::default::MadeWith;
use std::marker::Model;

/// What stands at a place of a zone: a text at the places from 0, a residue from 8, and a stored bound from 16 on, in the
/// order of the table.
#[derive(Clone, Copy, Default)]
pub(crate) struct PackedEntry {
    pub(crate) place: u8,
    pub(crate) text: u32,
    pub(crate) time: i64,
}

/// A zone and its cell, of which no text and no residue is listed that is 0. Contracts see the cell and the table of the
/// stored bounds.
#[derive(Drop)]
pub(crate) struct PackedZone {
    entries: SmallVec<PackedEntry, 1>,
}

impl Model for PackedZone {
    ghost use Rattle.std.specs.List.{AllByRecursion};
    ghost use Rattle.lrp_packed.specs.Entries.{CellZone, IsProper, cell_of_entries, table_of_entries};

    ghost Value = { CellZone };

    ghost view = { λ z. (cell_of_entries z.entries.items, table_of_entries z.entries.items) };

    ghost invariant = { λ z. AllByRecursion IsProper z.entries.items };
}

// An array of packed zones is made with these.
impl MadeWith<Global> for PackedZone {
    fn made_with(alloc: Global) -> PackedZone {
        PackedZone {
            entries: SmallVec::new(alloc),
        }
    }
}

impl PackedZone {
    /// A zone with its cell.
    pub(crate) fn of(alloc: Global, cell: &Cell, bounds: &BoundTable) -> Result<PackedZone, Memory>
        requires { IsFullSize cell.now bounds.now }
        ensures { IfOk result (λ made. made ≡ (cell.now, bounds.now)) }
    {
        let entries = entries_of(alloc, cell, bounds)?;
        Ok(PackedZone { entries })
    }

    /// The cell alone.
    pub(crate) fn cell(&self) -> Cell
        ensures { result ≡ self.now.0 }
    {
        cell_of(self.entries.as_slice())
    }

    /// The zone and its cell, of this shape and period.
    pub(crate) fn piece(&self, shape: Shape, period: u64) -> Piece
        requires { CanBeUnpacked shape period self.now }
        ensures { result ≡ unpacked shape period self.now }
    {
        let (cell, bounds) = written(self.entries.as_slice());
        let residues = &cell.residues[..usize::from(shape.times)];
        let zone = Zone::of_table(period, residues, &bounds);
        Piece { cell, zone }
    }
}

// The entries of a zone, in as many places of a vector.
fn entries_of(
    alloc: Global,
    cell: &Cell,
    bounds: &BoundTable,
) -> Result<SmallVec<PackedEntry, 1>, Memory>
    requires { IsFullSize cell.now bounds.now }
    ensures { IfOk result (λ made. ArePacked cell.now bounds.now made.items) }
{
    let mut entries = SmallVec::new(alloc);
    for place in 0..97 {
        if let Some(entry) = entry_at(cell, bounds, place) {
            entries.push(entry)?;
        }
    }
    entries.shrink_to_fit();
    Ok(entries)
}

// The entry for a place of a zone, if there is one.
fn entry_at(cell: &Cell, bounds: &BoundTable, place: u8) -> Option<PackedEntry>
    requires place { place < 97 }
    requires size { IsFullSize cell.now bounds.now }
    ensures is { IsEntryAt cell.now bounds.now place result }
    ensures proper { IfSome result IsProper }
{
    if place < 8 {
        text_entry(place, cell.texts[usize::from(place)])
    } else if place < 16 {
        residue_entry(place, cell.residues[usize::from(place) - 8])
    } else {
        bound_entry(cell, bounds, place)
    }
}

fn text_entry(place: u8, text: u32) -> Option<PackedEntry>
    requires { place < 8 }
    ensures place { IfSome result (λ e. e.place ≡ place) }
    ensures text { text_in result ≡ text }
{
    if text == 0 {
        return None;
    }
    Some(PackedEntry {
        place,
        text,
        time: 0,
    })
}

fn residue_entry(place: u8, residue: i64) -> Option<PackedEntry>
    requires { place < 16 }
    ensures place { IfSome result (λ e. e.place ≡ place) }
    ensures residue { residue_in result ≡ residue }
{
    if residue == 0 {
        return None;
    }
    Some(PackedEntry {
        place,
        text: 0,
        time: residue,
    })
}

fn bound_entry(cell: &Cell, bounds: &BoundTable, place: u8) -> Option<PackedEntry>
    requires low { 16 ≤ place }
    requires high { place < 97 }
    ensures is { IsEntryAt cell.now bounds.now place result }
    ensures proper { IfSome result IsProper }
{
    let time = bounds.get(usize::from(place) - 16)?;
    Some(PackedEntry {
        place,
        text: 0,
        time,
    })
}

// The cell that entries stand for.
fn cell_of(entries: &[PackedEntry]) -> Cell
    requires { AllByRecursion IsProper entries.now }
    ensures { result ≡ cell_of_entries entries.now }
{
    let mut cell = Cell {
        texts: [0; 8],
        residues: [0; 8],
    };
    for turn in 0..entries.len() {
        put_in_cell(entries[entries.len() - 1 - turn], &mut cell);
    }
    cell
}

// The cell and the table that entries stand for. The first one for a place is the last that is put there.
fn written(entries: &[PackedEntry]) -> (Cell, BoundTable)
    requires { AllByRecursion IsProper entries.now }
    ensures cell { result.0 ≡ cell_of_entries entries.now }
    ensures table { result.1 ≡ table_of_entries entries.now }
{
    let mut cell = Cell {
        texts: [0; 8],
        residues: [0; 8],
    };
    let mut bounds = BoundTable::free();
    for turn in 0..entries.len() {
        put(entries[entries.len() - 1 - turn], &mut cell, &mut bounds);
    }
    (cell, bounds)
}

fn put(entry: PackedEntry, cell: &mut Cell, bounds: &mut BoundTable)
    requires { IsProper entry }
    ensures { IsEntryPut entry cell.old cell.new bounds.old bounds.new }
{
    let place = usize::from(entry.place);
    if place < 16 {
        put_in_cell(entry, cell);
    } else {
        bounds.set(place - 16, Some(entry.time));
    }
}

// A bound changes no cell.
fn put_in_cell(entry: PackedEntry, cell: &mut Cell)
    requires { IsProper entry }
    ensures { IsPutInCell entry cell.old cell.new }
{
    let place = usize::from(entry.place);
    if place < 8 {
        cell.texts[place] = entry.text;
    } else if place < 16 {
        cell.residues[place - 8] = entry.time;
    }
}
