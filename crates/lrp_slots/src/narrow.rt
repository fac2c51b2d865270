// Cells of at most two texts and three residues, as short keys.
ghost use Rattle.std.specs.Prelude.{◌≡◌, ◌≢◌, IfNone, IfSome};
ghost use Rattle.lrp_slots.specs.Narrow.{wide};
ghost use Rattle.lrp_slots.specs.KeyOrders.{same_order};

use crate::key::{Key, joined, parted};
use lrp_model::Cell;

/// The first two texts, as one number, and the first three residues of a cell whose others are 0.
#[derive(Clone, Copy, Debug, Drop, PartialEq, Eq, PartialOrd, Ord)]
pub(crate) struct Narrow {
    pub(crate) texts: u64,
    pub(crate) first_residue: i64,
    pub(crate) second_residue: i64,
    pub(crate) third_residue: i64,
}

// An odd number near 2^64 over the golden ratio.
const MULTIPLIER: u64 = 0x9E37_79B9_7F4A_7C15;

impl Key for Narrow {
    ghost cell_of = { wide };

    ghost ordered = { same_order };

    fn of(cell: &Cell) -> Option<Narrow> {
        let narrow = Narrow {
            texts: joined(cell.texts[0], cell.texts[1]),
            first_residue: cell.residues[0],
            second_residue: cell.residues[1],
            third_residue: cell.residues[2],
        };
        if narrow.cell() == *cell {
            Some(narrow)
        } else {
            None
        }
    }

    fn cell(&self) -> Cell {
        let (first, second) = parted(self.texts);
        Cell {
            texts: [first, second, 0, 0, 0, 0, 0, 0],
            residues: [
                self.first_residue,
                self.second_residue,
                self.third_residue,
                0,
                0,
                0,
                0,
                0,
            ],
        }
    }
}

impl Narrow {
    /// A number that differs by as much as the first residues of keys that are equal otherwise.
    pub(crate) fn mixed(&self) -> u64 {
        let mixed = self.third_residue.cast_unsigned();
        let mixed = mixed.wrapping_mul(MULTIPLIER).wrapping_add(self.texts);
        let mixed = mixed
            .wrapping_mul(MULTIPLIER)
            .wrapping_add(self.second_residue.cast_unsigned());
        mixed
            .wrapping_mul(MULTIPLIER)
            .wrapping_add(self.first_residue.cast_unsigned())
    }
}
