// Cells of at most six texts and four residues, as keys of half their size.
ghost use Rattle.std.specs.Prelude.{◌≡◌, ◌≢◌, IfNone, IfSome};
ghost use Rattle.lrp_slots.specs.Narrow.{wide};
ghost use Rattle.lrp_slots.specs.Medium.{medium_cell};
ghost use Rattle.lrp_slots.specs.KeyOrders.{same_medium_order};

use crate::key::{Key, joined, parted};
use crate::narrow::Narrow;
use lrp_model::Cell;

/// The first six texts, as three numbers, and the first four residues of a cell whose others are 0.
#[derive(Clone, Copy, Drop, PartialEq, Eq, PartialOrd, Ord)]
pub(crate) struct Medium {
    first_texts: u64,
    next_texts: u64,
    last_texts: u64,
    first_residue: i64,
    second_residue: i64,
    third_residue: i64,
    fourth_residue: i64,
}

impl Key for Medium {
    ghost cell_of = { medium_cell };

    ghost ordered = { same_medium_order };

    fn of(cell: &Cell) -> Option<Medium> {
        let medium = Medium {
            first_texts: joined(cell.texts[0], cell.texts[1]),
            next_texts: joined(cell.texts[2], cell.texts[3]),
            last_texts: joined(cell.texts[4], cell.texts[5]),
            first_residue: cell.residues[0],
            second_residue: cell.residues[1],
            third_residue: cell.residues[2],
            fourth_residue: cell.residues[3],
        };
        if medium.cell() == *cell {
            Some(medium)
        } else {
            None
        }
    }

    fn cell(&self) -> Cell {
        let (first, second) = parted(self.first_texts);
        let (third, fourth) = parted(self.next_texts);
        let (fifth, sixth) = parted(self.last_texts);
        Cell {
            texts: [first, second, third, fourth, fifth, sixth, 0, 0],
            residues: [
                self.first_residue,
                self.second_residue,
                self.third_residue,
                self.fourth_residue,
                0,
                0,
                0,
                0,
            ],
        }
    }
}

impl Medium {
    /// The key of the cell of a shorter one.
    pub(crate) fn of_narrow(narrow: &Narrow) -> Medium
        ensures { medium_cell result ≡ wide narrow.now }
    {
        Medium {
            first_texts: narrow.texts,
            next_texts: 0,
            last_texts: 0,
            first_residue: narrow.first_residue,
            second_residue: narrow.second_residue,
            third_residue: narrow.third_residue,
            fourth_residue: 0,
        }
    }
}
