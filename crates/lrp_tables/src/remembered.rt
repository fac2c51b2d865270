// A few cells that are remembered.
ghost use Rattle.std.specs.Prelude.{◌≡◌, ◌<◌, ◌⊎◌, Some, Contains, true};
ghost use Rattle.lrp_model.specs.declared.tuples.Cell.{Cell as CellValue};
ghost use Rattle.lrp_tables.specs.Cells.{RemembersNone};

use lrp_model::Cell;
use std::alloc::Global;
use std::marker::Model;

// The most places that there are.
const MOST: usize = 16384;

/// Cells at places that their numbers give, seen as the list of the places. A cell takes over the place of another one.
///
/// The places are made with the first cell. Where memory is refused for them, no cell is remembered.
#[derive(Drop)]
pub struct RememberedCells {
    alloc: Global,
    most: usize,
    places: Vec<Option<Cell>>,
}

impl Model for RememberedCells {
    ghost use Rattle.std.specs.Prelude.{List, Option};
    ghost use Rattle.lrp_model.specs.declared.tuples.Cell.{Cell};

    ghost Value = { List (Option Cell) };

    ghost view = { λ a. a.places.items };
}

impl RememberedCells {
    /// No cell is remembered. There are to be places for this many, but 16,384 at most.
    pub fn new(alloc: Global, cells: usize) -> RememberedCells
        ensures { RemembersNone result }
    {
        RememberedCells {
            alloc,
            most: cells.clamp(1, MOST),
            places: Vec::new(alloc),
        }
    }

    /// Whether a cell is remembered.
    pub fn has(&self, cell: &Cell) -> bool
        ensures { result ≡ true → Contains self.now (Some cell.now) }
    {
        let places = self.places.len();
        if places == 0 {
            return false;
        }
        match &self.places[place_of(cell, places)] {
            Some(held) => held == cell,
            None => false,
        }
    }

    /// Remembers a cell.
    pub fn put(&mut self, cell: &Cell)
        ensures { (other : CellValue) → Contains self.new (Some other) → (other ≡ cell.now)
            ⊎ Contains self.old (Some other) }
    {
        self.make_places();
        let places = self.places.len();
        if places > 0 {
            self.places[place_of(cell, places)] = Some(*cell);
        }
    }

    // Makes the places, if there are none.
    fn make_places(&mut self)
        ensures { (other : CellValue) → Contains self.new (Some other)
            → Contains self.old (Some other) }
    {
        if self.places.len() > 0 {
            return;
        }
        match vec![in self.alloc; None; self.most] {
            Ok(places) => self.places = places,
            Err(_) => {}
        }
    }
}

// The place of a cell. Cells of one column with another residue have another place, where there are enough.
fn place_of(cell: &Cell, places: usize) -> usize
    requires { 0 < places }
    ensures { result < places }
{
    let mut mixed: u64 = 0;
    for i in 0..8 {
        let number = cell.residues[7 - i].cast_unsigned();
        mixed = mixed
            .wrapping_mul(0x9E37_79B9_7F4A_7C15)
            .wrapping_add(number)
            .wrapping_add(u64::from(cell.texts[7 - i]));
    }
    (mixed % places as u64) as usize
}
