// Short keys of cells.
ghost use Rattle.std.specs.Prelude.{◌≡◌, ◌≢◌, ◌+◌, ◌*◌, ◌/◌, ◌%◌, ◌^◌, IfNone, IfSome};
ghost use Rattle.lrp_slots.specs.Lists.{cell_cmp};
ghost use Rattle.lrp_model.specs.declared.tuples.Cell.{Cell as CellValue};

use lrp_model::Cell;

/// What stands for a cell of few texts and residues. Keys are in the order of their cells.
pub(crate) trait Key: Ord + Copy + Drop {
    /// The cell of a key.
    ghost cell_of: { Self → CellValue };

    /// The key of a cell, if it has one.
    fn of(cell: &Cell) -> Option<Self>
        ensures some { IfSome result (λ key. cell_of key ≡ cell.now) }
        ensures none { IfNone result ((key : Self) → cell_of key ≢ cell.now) };

    /// The cell of a key.
    fn cell(&self) -> Cell
        ensures { result ≡ cell_of self.now };

    ghost ordered: { (a b : Self) → Self.Ord.cmp a b ≡ cell_cmp (cell_of a) (cell_of b) };
}

// How many numbers there are for a text.
const NUMBERS: u64 = 1 << 32;

/// Two numbers of texts as one number.
pub(crate) fn joined(upper: u32, lower: u32) -> u64
    ensures { result ≡ upper * 2 ^ 32 + lower }
{
    u64::from(upper) * NUMBERS + u64::from(lower)
}

/// The two numbers of texts that a number stands for.
pub(crate) fn parted(texts: u64) -> (u32, u32)
    ensures { result ≡ (texts / 2 ^ 32, texts % 2 ^ 32) }
{
    ((texts / NUMBERS) as u32, (texts % NUMBERS) as u32)
}
