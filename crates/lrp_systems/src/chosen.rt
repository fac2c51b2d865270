// Cells and their texts with another number in a column.
ghost use Rattle.std.specs.Prelude.{◌≡◌, ◌<◌, ◌≤◌, ◌^◌, length, slice_set};
ghost use Rattle.lrp_systems.specs.Systems.{IsPut};

use lrp_model::Cell;

/// The cell with a residue for a column.
pub fn put(cell: &Cell, column: usize, residue: u64) -> Cell
    requires size { length cell.now.residues ≡ 8 }
    requires low { 0 < column }
    requires high { column ≤ 8 }
    requires small { residue < 2 ^ 62 }
    ensures { IsPut cell.now column residue result }
{
    let mut next = *cell;
    next.residues[column - 1] = residue as i64;
    next
}

/// The numbers of texts with another one in a column.
pub fn with_text(texts: &[u32; 8], column: usize, number: u32) -> [u32; 8]
    requires size { length texts.now ≡ 8 }
    requires column { column < 8 }
    ensures { result ≡ slice_set texts.now column number }
{
    let mut next = *texts;
    next[column] = number;
    next
}
