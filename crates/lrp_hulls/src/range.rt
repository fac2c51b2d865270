// Where the values of a column are asked for: between ends, and modulo a step.
ghost use Rattle.std.specs.Prelude.{◌≡◌, ◌<◌, ◌≤◌, ◌-◌, ℤ, List, IfSome, None, length, pos, ◌-ℤ◌};
ghost use Rattle.lrp_matrix.specs.Ranges.{Above};
ghost use Rattle.lrp_theory.specs.Bounds.{Within};
ghost use Rattle.lrp_theory.specs.Entries.{node};
ghost use Rattle.lrp_systems.specs.Joint.{MeetsApart};
ghost use Rattle.lrp_systems.specs.Windows.{window_at};
ghost use Rattle.lrp_hulls.specs.Ranges.{hull_range_at as range_at};

use lrp_matrix::Matrix;
use lrp_systems::{ResidueWindow, Windows};

/// Numbers from the low end to the high end, where there are such ends, that are in a window.
#[derive(Clone, Copy)]
pub struct ColumnRange {
    pub low: Option<i64>,
    pub high: Option<i64>,
    pub window: ResidueWindow,
}

impl ColumnRange {
    /// The range of all numbers.
    pub fn any() -> ColumnRange
        ensures { result ≡ record {
          low = None;
          high = None;
          window = record { start = 0; width = 0; step = 1 };
        } }
    {
        ColumnRange {
            low: None,
            high: None,
            window: ResidueWindow {
                start: 0,
                width: 0,
                step: 1,
            },
        }
    }

    /// Where the values of a column lie, by closed bounds and the windows of the columns.
    pub fn of(least: &Matrix, windows: &Windows, column: usize) -> ColumnRange
        requires low { 0 < column }
        requires high { column ≤ least.now.columns }
        requires few { least.now.columns ≤ 8 }
        requires eight { length windows.now ≡ 8 }
        ensures low { (xs : List ℤ) → MeetsApart least.now xs → Above (node xs column) result.low }
        ensures high { (xs : List ℤ) → MeetsApart least.now xs
            → Within (node xs column) result.high }
        ensures window { result.window ≡ window_at windows.now (column - 1) }
    {
        ColumnRange {
            low: low_end(least.get(0, column)),
            high: high_end(least.get(column, 0)),
            window: windows[column - 1],
        }
    }
}

/// The range of the column after i.
pub(crate) fn range_of_column(ranges: &[ColumnRange; 8], i: usize) -> ColumnRange
    ensures { result ≡ range_at ranges.now i }
{
    match ranges.get(i) {
        Some(range) => *range,
        None => ColumnRange::any(),
    }
}

/// The low end that a bound of zero minus a number gives it, where there is one of the word's size.
pub(crate) fn low_end(bound: Option<i128>) -> Option<i64>
    ensures { (x : ℤ) → Within (pos 0 -ℤ x) bound → Above x result }
{
    let above = word(bound?)?;
    if above == i64::MIN {
        return None;
    }
    Some(-above)
}

/// The same of a stored bound.
pub(crate) fn stored_low_end(bound: Option<i64>) -> Option<i64>
    ensures { (x : ℤ) → Within (pos 0 -ℤ x) bound → Above x result }
{
    let above = bound?;
    if above == i64::MIN {
        return None;
    }
    Some(-above)
}

/// The high end that a bound of a number minus zero gives it, where there is one of the word's size.
pub(crate) fn high_end(bound: Option<i128>) -> Option<i64>
    ensures { (x : ℤ) → Within (x -ℤ pos 0) bound → Within x result }
{
    word(bound?)
}

// The number as a word, where it is one.
fn word(a: i128) -> Option<i64>
    ensures { IfSome result (λ x. x ≡ a) }
{
    if a < i128::from(i64::MIN) || a > i128::from(i64::MAX) {
        return None;
    }
    Some(a as i64)
}
