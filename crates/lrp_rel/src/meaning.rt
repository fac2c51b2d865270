// What written rows and columns mean.
ghost use Rattle.std.specs.Prelude.{◌≡◌, ◌∷◌, ◌++◌, ◌≤◌, ◌≤ℤ◌, ◌+◌, [], ℕ, pos, neg_ℤ, List as ListOf, map, length, IfOk, OnOk};
ghost use Rattle.std.specs.List.{flat_map, AllByRecursion};
ghost use Rattle.indexmap.specs.IndexSet.{keys};
ghost use Rattle.lrp_model.specs.Limits.{greatest_number};
ghost use Rattle.lrp_model.specs.Databases.{FitsValue, FitsSide, FitsBound};
ghost use Rattle.lrp_model.specs.DatabaseMeaning.{signed, value_of, kept, value_bounds, instant_bounds, side_bounds, kept_bounds, row_of, column_of};
ghost use Rattle.lrp_model.specs.declared.raw.RawColumn.{RawColumn as ColumnOf};
ghost use Rattle.lrp_model.specs.declared.relations.Bound.{Bound as BoundOf};
ghost use Rattle.lrp_rel.specs.Times.{AreTimePlaces, HasRowMeaning, place_from, point_count, points_in};

use indexmap::IndexSet;
use lrp_model::{
    Bound, BoundOp, Column, List, Located, Memory, Name, RawBound, RawColumn, RawRow, Row,
    RowPoint, Side, Value, WrittenValue,
};
use std::alloc::Global;

// A number, or with the flag its negative.
fn signed_number(negative: bool, size: u64) -> i64
    requires { size ≤ greatest_number }
    ensures value { result ≡ signed negative size }
    ensures low { neg_ℤ (pos greatest_number) ≤ℤ result }
    ensures high { result ≤ℤ pos greatest_number }
{
    let size = size as i64;
    if negative { -size } else { size }
}

// What a value is in a row: a text, a point, or for an instant the point of all integers.
fn meant_value(value: WrittenValue) -> Value
    requires { FitsValue value }
    ensures { result ≡ value_of value }
{
    match value {
        WrittenValue::Constant { text } => Value::Const { text },
        WrittenValue::Instant { .. } => Value::Point {
            at: RowPoint {
                offset: 0,
                period: 1,
            },
        },
        WrittenValue::Point { at, period } => Value::Point {
            at: RowPoint {
                offset: signed_number(at.negative, at.size),
                period: period as i64,
            },
        },
    }
}

// The values of a row, in order.
fn meant_values(alloc: Global, values: List<Located<WrittenValue>>) -> Result<List<Value>, Memory>
    requires { AllByRecursion (λ v. FitsValue v.item) values }
    ensures { IfOk result (λ made. made ≡ map (λ v. value_of v.item) values) }
{
    let mut made = Vec::with_capacity(alloc, values.len())?;
    for value in values.into_vec() {
        made.push(meant_value(value.item))?;
    }
    Ok(List::from_vec(made))
}

// The bounds that a comparison of two columns means, after the others.
fn keep_bound(
    bounds: &mut List<Bound>,
    op: BoundOp,
    left: u8,
    right: u8,
    most: i64,
) -> Result<(), Memory>
    requires low { neg_ℤ (pos greatest_number) ≤ℤ most }
    ensures { OnOk result (bounds.new ≡ bounds.old ++ kept op left right most) }
{
    let upper = Bound { left, right, most };
    let lower = Bound {
        left: right,
        right: left,
        most: -most,
    };
    match op {
        BoundOp::AtMost => bounds.push(upper),
        BoundOp::AtLeast => bounds.push(lower),
        BoundOp::Equal => {
            bounds.push(upper)?;
            bounds.push(lower)
        }
    }
}

// The bounds of an instant, by how many time columns are before it, and how many there are with the value.
fn keep_value(bounds: &mut List<Bound>, before: u8, value: &WrittenValue) -> Result<u8, Memory>
    requires few { before + point_count value.now ≤ 8 }
    requires fits { FitsValue value.now }
    ensures bounds { IfOk result (λ after. (further : ℕ → ListOf BoundOf)
        → bounds.old ++ value_bounds value.now before further ≡ bounds.new ++ further after) }
    ensures count { IfOk result (λ after. after ≡ before + point_count value.now) }
{
    match value {
        WrittenValue::Constant { .. } => Ok(before),
        WrittenValue::Instant { at } => {
            let most = signed_number(at.negative, at.size);
            keep_bound(bounds, BoundOp::Equal, before + 1, 0, most)?;
            Ok(before + 1)
        }
        WrittenValue::Point { .. } => Ok(before + 1),
    }
}

// The bounds of the instants of a row.
fn keep_values(bounds: &mut List<Bound>, values: &[Located<WrittenValue>]) -> Result<(), Memory>
    requires few { points_in values.now ≤ 8 }
    requires fits { AllByRecursion (λ v. FitsValue v.item) values.now }
    ensures { OnOk result (bounds.new ≡ bounds.old ++ instant_bounds values.now 0) }
{
    let mut before = 0;
    for value in values {
        before = keep_value(bounds, before, &value.item)?;
    }
    Ok(())
}

// The number of the time column of this name, from 1 on; 0 where there is none.
fn number_of(times: &IndexSet<Name>, name: &Name) -> u8
    requires { length (keys times.now) ≤ 8 }
    ensures { result ≡ place_from 0 (keys times.now) name.now }
{
    match times.get_index_of(name) {
        Some(i) => (i + 1) as u8,
        None => 0,
    }
}

// The bounds of a comparison with the right side of a bound.
fn keep_side(
    bounds: &mut List<Bound>,
    times: &IndexSet<Name>,
    op: BoundOp,
    left: u8,
    side: &Side,
) -> Result<(), Memory>
    requires times { length (keys times.now) ≤ 8 }
    requires fits { FitsSide side.now }
    ensures { OnOk result ((columns : ListOf ColumnOf) → AreTimePlaces columns (keys times.now)
        → bounds.new ≡ bounds.old ++ side_bounds columns op left side.now) }
{
    match side {
        Side::Alone { value } => {
            let most = signed_number(value.negative, value.size);
            keep_bound(bounds, op, left, 0, most)
        }
        Side::Column { name } => keep_bound(bounds, op, left, number_of(times, &name.item), 0),
        Side::Shifted { name, down, by } => {
            let most = signed_number(*down, *by);
            keep_bound(bounds, op, left, number_of(times, &name.item), most)
        }
    }
}

// The bounds that written ones mean, after the others.
fn keep_bounds(
    bounds: &mut List<Bound>,
    times: &IndexSet<Name>,
    written: &[RawBound],
) -> Result<(), Memory>
    requires times { length (keys times.now) ≤ 8 }
    requires fits { AllByRecursion FitsBound written.now }
    ensures { OnOk result ((columns : ListOf ColumnOf) → AreTimePlaces columns (keys times.now)
        → bounds.new ≡ bounds.old ++ flat_map (kept_bounds columns) written.now) }
{
    for bound in written {
        let left = number_of(times, &bound.left.item);
        keep_side(bounds, times, bound.op, left, &bound.side)?;
    }
    Ok(())
}

// The same bounds, in no more memory than they need.
fn with_exact_room(bounds: List<Bound>) -> List<Bound>
    ensures { result ≡ bounds }
{
    let mut items = bounds.into_vec();
    items.shrink_to_fit();
    List::from_vec(items)
}

/// The row that a written one means, by the names of the time columns of its relation.
pub fn meant_row(alloc: Global, times: &IndexSet<Name>, row: RawRow) -> Result<Row, Memory>
    requires times { length (keys times.now) ≤ 8 }
    requires lawful { HasRowMeaning row }
    ensures { IfOk result (λ made. (columns : ListOf ColumnOf)
        → AreTimePlaces columns (keys times.now) → made ≡ row_of columns row) }
{
    let mut bounds = List::new(alloc);
    keep_values(&mut bounds, row.values.as_slice())?;
    keep_bounds(&mut bounds, times, row.bounds.as_slice())?;
    Ok(Row {
        values: meant_values(alloc, row.values)?,
        bounds: with_exact_room(bounds),
    })
}

// The columns, without their places.
pub fn meant_columns(alloc: Global, columns: List<RawColumn>) -> Result<List<Column>, Memory>
    ensures { IfOk result (λ made. made ≡ map column_of columns) }
{
    let mut made = List::new(alloc);
    for column in columns.into_vec() {
        made.push(Column {
            name: column.name,
            sort: column.sort,
        })?;
    }
    Ok(made)
}
