// Cells with one column fewer.
ghost use Rattle.std.specs.Prelude.{◌≡◌, ◌+◌, ◌<◌, ◌≤◌, ℕ, pos, length, slice_index_or};
ghost use Rattle.lrp_steps.specs.Columns.{IsCut};

/// The residues without that at a place; those after it move up, and a zero is last.
pub fn without_residue(residues: &[i64; 8], place: usize) -> [i64; 8]
    requires size { length residues.now ≡ 8 }
    requires place { place < 8 }
    ensures { IsCut (pos 0) place residues.now result }
{
    let mut out = *residues;
    for i in place..7 {
        out[i] = residues[i + 1];
    }
    out[7] = 0;
    out
}

/// The numbers without that at a place; those after it move up, and a zero is last.
pub fn without_number(numbers: &[u32; 8], place: usize) -> [u32; 8]
    requires size { length numbers.now ≡ 8 }
    requires place { place < 8 }
    ensures { IsCut 0 place numbers.now result }
{
    let mut out = *numbers;
    for i in place..7 {
        out[i] = numbers[i + 1];
    }
    out[7] = 0;
    out
}
