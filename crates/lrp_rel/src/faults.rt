// The first faults of written columns and rows that the grammar allows.
ghost use Rattle.std.specs.Prelude.{◌≡◌, ◌∷◌, ◌++◌, ◌<◌, ◌+◌, ◌^◌, [], Some, List as ListOf, not, map, fold, IfOk, OnOk};
ghost use Rattle.std.specs.List.{flat_map};
ghost use Rattle.std.specs.Str.{bytes_eq};
ghost use Rattle.indexmap.specs.IndexSet.{keys, insert_key};
ghost use Rattle.lrp_model.specs.Faults.{earliest, fault_if, repeated, ninth, is_named_in};
ghost use Rattle.lrp_model.specs.DatabaseFaults.{database_standing, database_fault, suits, wrong_sorts, unknown, side_faults, row_faults, named_at};
ghost use Rattle.lrp_model.specs.declared.raw.RawColumn.{RawColumn as ColumnOf};
ghost use Rattle.lrp_database.specs.Once.{put_once};
ghost use Rattle.lrp_model.specs.Sooner.{sooner};
ghost use Rattle.lrp_rel.specs.Times.{time_names, AreTimesOf};

use indexmap::IndexSet;
use lrp_model::{
    DbFault, DbKind, Located, Memory, Name, Place, RawBound, RawColumn, RawRow, Side, WrittenValue,
};
use std::alloc::Global;
use std::cmp::Ordering;

// What faults are ordered by.
fn standing(fault: &DbFault) -> [u32; 3]
    ensures { result ≡ database_standing fault.now }
{
    [
        fault.place.line,
        fault.place.column,
        u32::from(fault.kind.number()),
    ]
}

// The earlier of two faults; of two that stand alike, the first. No fault is skipped by its place, since a tree alone
// doesn't say that its places ascend.
fn earlier_of(left: DbFault, right: DbFault) -> DbFault
    ensures { Some result ≡ sooner database_standing (Some left) (Some right) }
{
    match standing(&right)[..].cmp(&standing(&left)[..]) {
        Ordering::Less => right,
        _ => left,
    }
}

/// The earlier of two faults, or the one that there is; of two that stand alike, the first.
pub fn sooner_of(left: Option<DbFault>, right: Option<DbFault>) -> Option<DbFault>
    ensures { result ≡ sooner database_standing left right }
{
    match (left, right) {
        (Some(left), Some(right)) => Some(earlier_of(left, right)),
        (None, right) => right,
        (left, None) => left,
    }
}

// A fault where the test is true.
fn fault_where(bad: bool, kind: DbKind, place: Place) -> Option<DbFault>
    ensures { result ≡ earliest database_standing (fault_if bad (database_fault kind place)) }
{
    if bad {
        Some(DbFault { kind, place })
    } else {
        None
    }
}

// The fault of a name that is among those before it. It is then among them.
pub fn repeated_name(
    alloc: Global,
    names: &mut IndexSet<Name>,
    name: &Name,
    place: Place,
) -> Result<Option<DbFault>, Memory>
    ensures found { IfOk result (λ f. f ≡ earliest database_standing
        (fault_if (is_named_in (keys names.old) name.now) (database_fault DbKind.Name place))) }
    ensures names { OnOk result (keys names.new ≡ insert_key bytes_eq (keys names.old) name.now) }
{
    if names.contains(name) {
        return Ok(fault_where(true, DbKind::Name, place));
    }
    names.insert(name.copy(alloc)?)?;
    Ok(None)
}

// The first column that has the name of an earlier one.
pub fn repeated_column(alloc: Global, columns: &[RawColumn]) -> Result<Option<DbFault>, Memory>
    ensures { IfOk result (λ f. f ≡ earliest database_standing
        (repeated (database_fault DbKind.Name) [] (map named_at columns.now))) }
{
    let mut names = IndexSet::new(alloc);
    let mut best = None;
    for column in columns {
        let found = repeated_name(alloc, &mut names, &column.name, column.place)?;
        best = sooner_of(best, found);
    }
    Ok(best)
}

// How many time columns there are, and how many of data sorts.
#[derive(Clone, Copy)]
struct Counts {
    times: usize,
    texts: usize,
}

// The fault of a column after those counted, and the counts with it.
fn counted(counts: Counts, column: &RawColumn) -> (Option<DbFault>, Counts)
    requires { counts.times + counts.texts < 2 ^ 63 }
    ensures found { (rest : ListOf ColumnOf) → earliest database_standing
        (ninth (database_fault DbKind.Wide) counts.times counts.texts (column.now ∷ rest))
        ≡ sooner database_standing result.0
        (earliest database_standing (ninth
        (database_fault DbKind.Wide) result.1.times result.1.texts rest)) }
    ensures size { result.1.times + result.1.texts ≡ counts.times + counts.texts + 1 }
{
    if column.sort.is_time() {
        let found = fault_where(counts.times == 8, DbKind::Wide, column.place);
        (
            found,
            Counts {
                times: counts.times + 1,
                texts: counts.texts,
            },
        )
    } else {
        let found = fault_where(counts.texts == 8, DbKind::Wide, column.place);
        (
            found,
            Counts {
                times: counts.times,
                texts: counts.texts + 1,
            },
        )
    }
}

// A ninth time column, or a ninth among those of all data sorts.
pub fn ninth_column(columns: &[RawColumn]) -> Option<DbFault>
    ensures { result ≡ earliest database_standing
        (ninth (database_fault DbKind.Wide) 0 0 columns.now) }
{
    let mut counts = Counts { times: 0, texts: 0 };
    let mut best = None;
    for column in columns {
        let (found, more) = counted(counts, column);
        best = sooner_of(best, found);
        counts = more;
    }
    best
}

// Whether a value may stand in a column.
fn suits_column(value: &WrittenValue, column: &RawColumn) -> bool
    ensures { result ≡ suits value.now column.now }
{
    match value {
        WrittenValue::Constant { .. } => !column.sort.is_time(),
        WrittenValue::Instant { .. } | WrittenValue::Point { .. } => column.sort.is_time(),
    }
}

// The fault of a value that may not stand in its column.
fn sort_fault(column: &RawColumn, value: &Located<WrittenValue>) -> Option<DbFault>
    ensures { result ≡ earliest database_standing
        (fault_if (not (suits value.now.item column.now))
        (database_fault DbKind.Sort value.now.place)) }
{
    let bad = !suits_column(&value.item, column);
    fault_where(bad, DbKind::Sort, value.place)
}

// The first value that may not stand in its column.
fn wrong_sort(columns: &[RawColumn], values: &[Located<WrittenValue>]) -> Option<DbFault>
    ensures { result ≡ earliest database_standing (wrong_sorts columns.now values.now) }
{
    let mut best = None;
    for i in 0..columns.len().min(values.len()) {
        best = sooner_of(best, sort_fault(&columns[i], &values[i]));
    }
    best
}

// One name more, where the column is a time column.
fn see_time(alloc: Global, times: &mut IndexSet<Name>, column: &RawColumn) -> Result<(), Memory>
    ensures { OnOk result (keys times.new ≡ fold put_once (keys times.old)
        (time_names (column.now ∷ []))) }
{
    if column.sort.is_time() {
        times.insert(column.name.copy(alloc)?)?;
    }
    Ok(())
}

// The names of the time columns, in order.
pub fn times_of(alloc: Global, columns: &[RawColumn]) -> Result<IndexSet<Name>, Memory>
    ensures { IfOk result (λ made. AreTimesOf columns.now (keys made)) }
{
    let mut times = IndexSet::new(alloc);
    for column in columns {
        see_time(alloc, &mut times, column)?;
    }
    Ok(times)
}

// The fault of a name that is no time column.
fn unknown_name(times: &IndexSet<Name>, name: &Located<Name>) -> Option<DbFault>
    ensures { (columns : ListOf ColumnOf) → AreTimesOf columns (keys times.now)
        → result ≡ earliest database_standing (unknown columns name.now) }
{
    fault_where(!times.contains(&name.item), DbKind::Column, name.place)
}

// The fault of a bound's right side.
fn side_fault(times: &IndexSet<Name>, side: &Side) -> Option<DbFault>
    ensures { (columns : ListOf ColumnOf) → AreTimesOf columns (keys times.now)
        → result ≡ earliest database_standing (side_faults columns side.now) }
{
    match side {
        Side::Alone { .. } => None,
        Side::Column { name } | Side::Shifted { name, .. } => unknown_name(times, name),
    }
}

// The first fault of the bounds of a row.
fn bounds_fault(times: &IndexSet<Name>, bounds: &[RawBound]) -> Option<DbFault>
    ensures { (columns : ListOf ColumnOf) → AreTimesOf columns (keys times.now)
        → result ≡ earliest database_standing
        (flat_map (λ b. unknown columns b.left ++ side_faults columns b.side) bounds.now) }
{
    let mut best = None;
    for bound in bounds {
        best = sooner_of(best, unknown_name(times, &bound.left));
        best = sooner_of(best, side_fault(times, &bound.side));
    }
    best
}

// The first fault of a row.
pub fn row_fault(
    columns: &[RawColumn],
    times: &IndexSet<Name>,
    row: &Located<RawRow>,
) -> Option<DbFault>
    requires { AreTimesOf columns.now (keys times.now) }
    ensures { result ≡ earliest database_standing (row_faults columns.now row.now) }
{
    let few = row.item.values.len() != columns.len();
    let arity = fault_where(few, DbKind::Arity, row.place);
    let sorts = wrong_sort(columns, row.item.values.as_slice());
    let bounds = bounds_fault(times, row.item.bounds.as_slice());
    sooner_of(sooner_of(arity, sorts), bounds)
}
