// Residues that are marked.
ghost use Rattle.std.specs.Prelude.{◌≡◌, ◌⊎◌, ℤ, pos, length, IfOk, IfSome, true};
ghost use Rattle.lrp_systems.specs.Marks.{IsMarked, MarksNone, first_residue};

use lrp_model::{Cell, Memory};
use std::alloc::Global;
use std::marker::Model;

/// A mark for each number below some number, seen as the list of the marks.
#[derive(Drop)]
pub(crate) struct Marks {
    marks: Vec<bool>,
}

impl Model for Marks {
    ghost use Rattle.std.specs.Prelude.{Bool, List};

    ghost Value = { List Bool };

    ghost view = { λ a. a.marks.items };
}

impl Marks {
    /// No number is marked, of those below `room`.
    pub(crate) fn new(alloc: Global, room: usize) -> Result<Marks, Memory>
        ensures { IfOk result MarksNone }
    {
        let marks = vec![in alloc; false; room]?;
        Ok(Marks { marks })
    }

    /// Whether the first residue of a cell is marked.
    pub(crate) fn has(&self, cell: &Cell) -> bool
        requires size { length cell.now.residues ≡ 8 }
        ensures { result ≡ true → IsMarked self.now (first_residue cell.now) }
    {
        match place_of(cell) {
            Some(place) if place < self.marks.len() => self.marks[place],
            _ => false,
        }
    }

    /// Marks the first residue of a cell, where there is room.
    pub(crate) fn put(&mut self, cell: &Cell)
        requires size { length cell.now.residues ≡ 8 }
        ensures { (other : ℤ) → IsMarked self.new other → (other ≡ first_residue cell.now)
            ⊎ IsMarked self.old other }
    {
        match place_of(cell) {
            Some(place) if place < self.marks.len() => self.marks[place] = true,
            _ => {}
        }
    }
}

// The place of the first residue of a cell.
fn place_of(cell: &Cell) -> Option<usize>
    requires size { length cell.now.residues ≡ 8 }
    ensures { IfSome result (λ place. pos place ≡ first_residue cell.now) }
{
    let residue = cell.residues[0];
    if residue < 0 {
        return None;
    }
    Some(residue as usize)
}
