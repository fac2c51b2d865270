// The zones of comparisons and of points.
ghost use Rattle.std.specs.Prelude.{◌≡◌, ◌+◌, ◌<◌, ◌≤◌, ◌^◌, ◌↔◌, ◌+ℤ◌, ◌-ℤ◌, ◌≤ℤ◌, ◌<ℤ◌, ◌⊎◌, ◌≢◌, true, false, ℕ, ℤ, List, pos, nat_abs, neg_ℤ, length, IfSome, IfNone};
ghost use Rattle.lrp_theory.specs.Divides.{Divides, IsPointMember};
ghost use Rattle.lrp_theory.specs.Entries.{node};
ghost use Rattle.lrp_model.specs.Satisfaction.{Compares};
ghost use Rattle.lrp_zone.specs.Zones.{IsResidue};
ghost use Rattle.lrp_steps.specs.Comparisons.{AreBounds, IsCompared, HasNoCompared, IsOverOwn};

use lrp_model::{Bound, Op};
use lrp_zone::Zone;

/// The value of a time column, counted from 1, and an offset; column 0 is the number zero.
#[derive(Clone, Copy, PartialEq, Eq)]
pub struct ShiftedColumn {
    pub column: usize,
    pub plus: i64,
}

/// The sides of a comparison over the columns that they have alone, how many these are, and where they stand.
#[derive(Clone, Copy)]
pub struct OwnSides {
    pub left: ShiftedColumn,
    pub right: ShiftedColumn,
    pub columns: usize,
    pub places: [usize; 8],
}

/// The sides over their own columns, so that a comparison over many columns is a zone of two at most.
pub fn own_sides(left: &ShiftedColumn, right: &ShiftedColumn) -> OwnSides
    ensures { (times : ℕ) → left.now.column ≤ times → right.now.column ≤ times
        → IsOverOwn times left.now right.now result }
{
    if left.column == 0 {
        right_alone(left, right)
    } else if adds_column(left, right) {
        both_columns(left, right)
    } else {
        left_alone(left, right)
    }
}

// Whether the right side has a column, and another one than the left side.
fn adds_column(left: &ShiftedColumn, right: &ShiftedColumn) -> bool
    ensures apart { result ≡ true → right.now.column ≢ left.now.column }
    ensures positive { result ≡ true → 0 < right.now.column }
    ensures same { result ≡ false → (right.now.column ≡ 0)
        ⊎ (right.now.column ≡ left.now.column) }
{
    if right.column == 0 {
        return false;
    }
    right.column != left.column
}

// The sides of two columns.
fn both_columns(left: &ShiftedColumn, right: &ShiftedColumn) -> OwnSides
    requires left { 0 < left.now.column }
    requires right { 0 < right.now.column }
    requires apart { right.now.column ≢ left.now.column }
    ensures { (times : ℕ) → left.now.column ≤ times → right.now.column ≤ times
        → IsOverOwn times left.now right.now result }
{
    OwnSides {
        left: moved_to(1, left),
        right: moved_to(2, right),
        columns: 2,
        places: [left.column, right.column, 0, 0, 0, 0, 0, 0],
    }
}

// The sides where the left one is a number.
fn right_alone(left: &ShiftedColumn, right: &ShiftedColumn) -> OwnSides
    requires { left.now.column ≡ 0 }
    ensures { (times : ℕ) → right.now.column ≤ times
        → IsOverOwn times left.now right.now result }
{
    let columns = own_column(right.column);
    OwnSides {
        left: moved_to(0, left),
        right: moved_to(columns, right),
        columns,
        places: [right.column, 0, 0, 0, 0, 0, 0, 0],
    }
}

// The sides where the right one is a number, or has the column of the left one.
fn left_alone(left: &ShiftedColumn, right: &ShiftedColumn) -> OwnSides
    requires left { 0 < left.now.column }
    requires right { (right.now.column ≡ 0) ⊎ (right.now.column ≡ left.now.column) }
    ensures { (times : ℕ) → left.now.column ≤ times → IsOverOwn times left.now right.now result }
{
    let column = own_column(right.column);
    OwnSides {
        left: moved_to(1, left),
        right: moved_to(column, right),
        columns: 1,
        places: [left.column, 0, 0, 0, 0, 0, 0, 0],
    }
}

// The only column, where the side has one, and else zero.
fn own_column(column: usize) -> usize
    ensures { ((column ≡ 0) × (result ≡ 0)) ⊎ ((0 < column) × (result ≡ 1)) }
{
    if column == 0 { 0 } else { 1 }
}

// The side with another column in the place of its own.
fn moved_to(column: usize, side: &ShiftedColumn) -> ShiftedColumn
    ensures { result ≡ record { column = column; plus = side.now.plus } }
{
    ShiftedColumn {
        column,
        plus: side.plus,
    }
}

/// The tuples of so many times whose sides compare, or `None` where there are none.
pub fn compared(left: &ShiftedColumn, op: Op, right: &ShiftedColumn, columns: usize) -> Option<Zone>
    requires few { columns ≤ 8 }
    requires left { left.now.column ≤ columns }
    requires right { right.now.column ≤ columns }
    requires reach { 1 + nat_abs (left.now.plus -ℤ right.now.plus) ≤ 2 ^ 62 }
    ensures none { IfNone result (HasNoCompared left.now op right.now columns) }
    ensures some { IfSome result (IsCompared left.now op right.now columns) }
{
    let most = right.plus - left.plus;
    let bounds = bounds_of(op, left.column as u8, right.column as u8, most);
    let residues = [0; 8];
    Zone::of(1, &residues[..columns], &bounds)
}

// The bounds of a comparison of two columns, where the left one may be so much greater.
fn bounds_of(op: Op, left: u8, right: u8, most: i64) -> [Bound; 2]
    requires low { neg_ℤ (pos (2 ^ 62)) <ℤ most }
    requires high { most <ℤ pos (2 ^ 62) }
    ensures { AreBounds op left right most result }
{
    let below = Bound { left, right, most };
    match op {
        Op::Le => [below, below],
        Op::Lt => {
            let bound = Bound {
                left,
                right,
                most: most - 1,
            };
            [bound, bound]
        }
        Op::Ge => {
            let bound = turned(left, right, -most);
            [bound, bound]
        }
        Op::Gt => {
            let bound = turned(left, right, -most - 1);
            [bound, bound]
        }
        Op::Eq => [below, turned(left, right, -most)],
    }
}

// The bound of the right column from the left one.
fn turned(left: u8, right: u8, most: i64) -> Bound
    ensures { result ≡ record { left = right; right = left; most = most } }
{
    Bound {
        left: right,
        right: left,
        most,
    }
}

/// The residue modulo `period` of the numbers that are members of the point `offset + period n` with `plus` added.
pub fn shifted(offset: i64, plus: i64, period: i64) -> i64
    requires low { pos 1 ≤ℤ period }
    requires high { period ≤ℤ pos (2 ^ 62) }
    ensures residue { IsResidue (nat_abs period) result }
    ensures to { (x : ℤ) → IsPointMember result period x → IsPointMember offset period (x +ℤ plus) }
    ensures from { (x : ℤ) → IsPointMember offset period (x +ℤ plus)
        → IsPointMember result period x }
{
    let from = offset.rem_euclid(period);
    let less = plus.rem_euclid(period);
    if from < less {
        from - less + period
    } else {
        from - less
    }
}
