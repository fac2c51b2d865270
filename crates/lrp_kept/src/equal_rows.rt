// Rows that are equal.
ghost use Rattle.std.specs.Prelude.{◌≡◌, ◌↔◌, IsTrue};
ghost use Rattle.std.specs.List.{AllZip};
ghost use Rattle.lrp_theory.specs.Divides.{IsPointMember};
ghost use Rattle.lrp_kept.specs.EqualRows.{AreEqualPoints, AreEqualRows, AreEqualValues};

use lrp_model::{Bound, Row, RowPoint, Value};

/// Whether the rows have equal texts, equal points with offsets taken modulo their periods, and equal lists of bounds.
///
/// Bounds come first, since instants have no other number.
pub fn are_equal(left: &Row, right: &Row) -> bool
    ensures { IsTrue result ↔ AreEqualRows left.now right.now }
{
    are_equal_bounds(left.bounds.as_slice(), right.bounds.as_slice())
        && are_equal_values(left.values.as_slice(), right.values.as_slice())
}

// Whether they are equal, one by one.
fn are_equal_values(left: &[Value], right: &[Value]) -> bool
    ensures { IsTrue result ↔ AllZip AreEqualValues left.now right.now }
{
    if left.len() != right.len() {
        return false;
    }
    for i in 0..left.len() {
        if !is_equal(&left[i], &right[i]) {
            return false;
        }
    }
    true
}

fn is_equal(left: &Value, right: &Value) -> bool
    ensures { IsTrue result ↔ AreEqualValues left.now right.now }
{
    match left {
        Value::Point { at } => match right {
            Value::Point { at: other } => are_equal_points(*at, *other),
            Value::Const { .. } => false,
        },
        Value::Const { text } => match right {
            Value::Point { .. } => false,
            Value::Const { text: other } => text == other,
        },
    }
}

// Whether the periods are equal, and the offsets modulo the period.
fn are_equal_points(left: RowPoint, right: RowPoint) -> bool
    ensures { IsTrue result ↔ AreEqualPoints left right }
{
    left.period == right.period && is_in_step(left.offset, right.offset, left.period)
}

// Whether the period divides the difference; a period of 0 divides 0 alone.
fn is_in_step(left: i64, right: i64, period: i64) -> bool
    ensures { IsTrue result ↔ IsPointMember left period right }
{
    let step = period.unsigned_abs();
    if step == 0 {
        left == right
    } else {
        left.abs_diff(right) % step == 0
    }
}

// Whether they are equal, one by one.
fn are_equal_bounds(left: &[Bound], right: &[Bound]) -> bool
    ensures { IsTrue result ↔ (left.now ≡ right.now) }
{
    if left.len() != right.len() {
        return false;
    }
    for i in 0..left.len() {
        if !is_equal_bound(left[i], right[i]) {
            return false;
        }
    }
    true
}

fn is_equal_bound(left: Bound, right: Bound) -> bool
    ensures { IsTrue result ↔ (left ≡ right) }
{
    left.left == right.left && left.right == right.right && left.most == right.most
}
