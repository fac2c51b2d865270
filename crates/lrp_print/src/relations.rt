// Relations as they are written out.
ghost use Rattle.std.specs.Prelude.{⊤, ◌≡◌, ◌≤ℤ◌, ◌++◌, ◌∷◌, [], pos, codes, neg_ℤ};
ghost use Rattle.std.specs.List.{AllByRecursion};
ghost use Rattle.std.specs.Fmt.{signed_decimal};
ghost use Rattle.lrp_io.specs.Causes.{HasCause};
ghost use Rattle.lrp_io.specs.Pieces.{IsWritten};
ghost use Rattle.lrp_model.specs.Printed.{column_bytes, value_bytes, time_name, offset_bytes, bound_bytes, bounds_bytes, row_line, relation_bytes, database_bytes, joined_by};
ghost use Rattle.lrp_model.specs.Limits.{greatest_number};
ghost use Rattle.lrp_model.specs.Kept.{HasLowPeriod, IsKept, IsWritable};
ghost use Rattle.lrp_print.specs.ReadBack.{ReadsBack};

use crate::notation::{Notation, write_after_where, write_each, write_joined};
use crate::pieces::{
    write_bytes, write_integer, write_offset, write_point, write_quoted, write_sort,
};
use itoa::Buffer;
use lrp_io::{Failed, Sink, put_all};
use lrp_model::{Bound, Column, Relation, Row, Value};

// Columns, as `name: sort`.
#[derive(Clone, Copy)]
struct Columns;

impl Notation for Columns {
    type Item = Column;

    ghost spells = { λ _ _. ⊤ };

    ghost bytes = { λ _ column. column_bytes column };

    fn write<S: Sink>(&self, out: &mut S, column: &Column) -> Result<(), Failed> {
        write_bytes(out, column.name.as_bytes())?;
        write_bytes(out, b": ")?;
        write_sort(out, &column.sort)
    }
}

// Points, and constants in quotes.
#[derive(Clone, Copy)]
struct Values;

impl Notation for Values {
    type Item = Value;

    ghost spells = { λ _ value. HasLowPeriod value };

    ghost bytes = { λ _ value. value_bytes value };

    fn write<S: Sink>(&self, out: &mut S, value: &Value) -> Result<(), Failed> {
        match value {
            Value::Point { at } => write_point(out, at),
            Value::Const { text } => write_quoted(out, text.as_bytes()),
        }
    }
}

// The name of a time column by its number, from 1 on; no bytes where there is none.
fn name_of_time(columns: &[Column], number: u8) -> &[u8]
    ensures { result.now ≡ time_name columns.now number }
{
    let mut left = number;
    for column in columns {
        if column.sort.is_time() {
            if left == 1 {
                return column.name.as_bytes();
            }
            left = left.saturating_sub(1);
        }
    }
    &[]
}

// The number of a bound with the other sign.
fn write_negated<S: Sink>(out: &mut S, bound: &Bound) -> Result<(), Failed>
    requires { neg_ℤ (pos greatest_number) ≤ℤ bound.now.most }
    ensures text { IsWritten (S.written out.old) (S.written out.new)
        (signed_decimal (neg_ℤ bound.now.most)) result }
    ensures cause { HasCause (S.faults out.old) (S.faults out.new) result }
{
    put_all(out, Buffer::new().format(-bound.most).as_bytes())
}

// `X >= b`.
fn write_lower<S: Sink>(out: &mut S, columns: &[Column], bound: &Bound) -> Result<(), Failed>
    requires { neg_ℤ (pos greatest_number) ≤ℤ bound.now.most }
    ensures text { IsWritten (S.written out.old) (S.written out.new)
        (time_name columns.now bound.now.right
        ++ (codes " >= " ++ signed_decimal (neg_ℤ bound.now.most))) result }
    ensures cause { HasCause (S.faults out.old) (S.faults out.new) result }
{
    write_bytes(out, name_of_time(columns, bound.right))?;
    write_bytes(out, b" >= ")?;
    write_negated(out, bound)
}

// `X <= a`.
fn write_upper<S: Sink>(out: &mut S, columns: &[Column], bound: &Bound) -> Result<(), Failed>
    ensures text { IsWritten (S.written out.old) (S.written out.new)
        (time_name columns.now bound.now.left ++ (codes " <= " ++ signed_decimal bound.now.most))
        result }
    ensures cause { HasCause (S.faults out.old) (S.faults out.new) result }
{
    write_bytes(out, name_of_time(columns, bound.left))?;
    write_bytes(out, b" <= ")?;
    write_integer(out, &bound.most)
}

// `X <= Y`, with an offset.
fn write_between<S: Sink>(out: &mut S, columns: &[Column], bound: &Bound) -> Result<(), Failed>
    requires { neg_ℤ (pos greatest_number) ≤ℤ bound.now.most }
    ensures text { IsWritten (S.written out.old) (S.written out.new)
        (time_name columns.now bound.now.left
        ++ (codes " <= " ++ (time_name columns.now bound.now.right ++ offset_bytes bound.now.most)))
        result }
    ensures cause { HasCause (S.faults out.old) (S.faults out.new) result }
{
    write_bytes(out, name_of_time(columns, bound.left))?;
    write_bytes(out, b" <= ")?;
    write_bytes(out, name_of_time(columns, bound.right))?;
    write_offset(out, &bound.most)
}

// Bounds of the times of these columns.
#[derive(Clone, Copy)]
struct Bounds<'a> {
    columns: &'a [Column],
}

impl Notation for Bounds<'_> {
    type Item = Bound;

    ghost spells = { λ _ bound. neg_ℤ (pos greatest_number) ≤ℤ bound.most };

    ghost bytes = { λ s bound. bound_bytes s.columns.now bound };

    fn write<S: Sink>(&self, out: &mut S, bound: &Bound) -> Result<(), Failed> {
        if bound.left == 0 {
            write_lower(out, self.columns, bound)
        } else if bound.right == 0 {
            write_upper(out, self.columns, bound)
        } else {
            write_between(out, self.columns, bound)
        }
    }
}

/// Columns, with commas between. After a failure a front of them was written.
pub fn write_columns<S: Sink>(out: &mut S, columns: &[Column]) -> Result<(), Failed>
    ensures text { IsWritten (S.written out.old) (S.written out.new)
        (joined_by (codes ", ") column_bytes columns.now) result }
    ensures cause { HasCause (S.faults out.old) (S.faults out.new) result }
{
    write_joined(out, &Columns, b", ", columns)
}

/// ` where ` and the bounds, if there are any. After a failure a front of them was written.
pub fn write_conditions<S: Sink>(
    out: &mut S,
    columns: &[Column],
    bounds: &[Bound],
) -> Result<(), Failed>
    requires { AllByRecursion (λ b. neg_ℤ (pos greatest_number) ≤ℤ b.most) bounds.now }
    ensures text { IsWritten (S.written out.old) (S.written out.new)
        (bounds_bytes columns.now bounds.now) result }
    ensures cause { HasCause (S.faults out.old) (S.faults out.new) result }
{
    write_after_where(out, &Bounds { columns }, bounds)
}

// The lines of rows with these columns.
#[derive(Clone, Copy)]
struct Rows<'a> {
    columns: &'a [Column],
}

impl Notation for Rows<'_> {
    type Item = Row;

    ghost spells = { λ _ row. IsWritable row };

    ghost bytes = { λ s row. row_line s.columns.now row };

    fn write<S: Sink>(&self, out: &mut S, row: &Row) -> Result<(), Failed> {
        write_bytes(out, b"  (")?;
        write_joined(out, &Values, b", ", row.values.as_slice())?;
        write_bytes(out, b")")?;
        write_conditions(out, self.columns, row.bounds.as_slice())?;
        write_bytes(out, b";\n")
    }
}

/// Writes a relation: a line with its name and its columns, a line for each row, and a line with `}`. After a failure a front
/// of the text was written.
pub fn write_relation<S: Sink>(out: &mut S, relation: &Relation) -> Result<(), Failed>
    requires { IsKept relation.now }
    ensures text { IsWritten (S.written out.old) (S.written out.new)
        (relation_bytes relation.now) result }
    ensures cause { HasCause (S.faults out.old) (S.faults out.new) result }

    // The whole text is that of a database with one relation, which holds the same.
    ensures reads_back { ReadsBack (relation.now ∷ []) }
{
    write_bytes(out, b"relation ")?;
    write_bytes(out, relation.name.as_bytes())?;
    write_bytes(out, b"(")?;
    let columns = relation.columns.as_slice();
    write_columns(out, columns)?;
    write_bytes(out, b") {\n")?;
    write_each(out, &Rows { columns }, relation.rows.as_slice())?;
    write_bytes(out, b"}\n")
}

// Relations that are kept.
#[derive(Clone, Copy)]
struct Relations;

impl Notation for Relations {
    type Item = Relation;

    ghost spells = { λ _ relation. IsKept relation };

    ghost bytes = { λ _ relation. relation_bytes relation };

    fn write<S: Sink>(&self, out: &mut S, relation: &Relation) -> Result<(), Failed> {
        write_relation(out, relation)
    }
}

/// Writes relations, one after the other. After a failure a front of their text was written.
pub fn write_relations<S: Sink>(out: &mut S, relations: &[Relation]) -> Result<(), Failed>
    requires { AllByRecursion IsKept relations.now }
    ensures text { IsWritten (S.written out.old) (S.written out.new)
        (database_bytes relations.now) result }
    ensures cause { HasCause (S.faults out.old) (S.faults out.new) result }
{
    write_each(out, &Relations, relations)
}
