// Scans in parts: the rows of each period by themselves.
ghost use Rattle.std.specs.Prelude.{◌≡◌, ◌≤ℤ◌, ℤ, pos, IfOk, IsTrue, Contains};
ghost use Rattle.std.specs.List.{AllByRecursion};
ghost use Rattle.lrp_model.specs.declared.relations.Row.{Row as RowOf};
ghost use Rattle.lrp_tables.specs.Columns.{scan_times, scan_texts};
ghost use Rattle.lrp_tables.specs.Tables.{IsScanned};
ghost use Rattle.lrp_steps.specs.Rows.{DividesPeriod};
ghost use Rattle.lrp_periods.specs.Operations.{CanScanInParts};
ghost use Rattle.lrp_periods.specs.Parts.{ArePartsOf, IsPartOfSet, IsSmallPeriod};
ghost use Rattle.lrp_periods.specs.Periods.{RowHasPeriods, IsOwnPeriod, IsRowPeriod, IsValuePeriod};
ghost use Rattle.lrp_periods.specs.Scanning.{CanScanRows, CanScanSource, IsScannedIn, IsSplitBy};

use crate::parts::{PartsFault, add_part, small, some};
use crate::periods::{common_period, is_same};
use lrp_algebra::scan;
use lrp_model::{Copies, List, Memory, Relation, Row, Term, Value};
use lrp_tables::{Setting, Table};

// More groups of rows than a table has parts.
const GROUPS: usize = 17;

/// Rows of a period, and the others.
#[derive(Drop)]
pub(crate) struct SplitRows {
    pub(crate) same: List<Row>,
    pub(crate) others: List<Row>,
}

/// A relation, the terms of an atom, and the period of the step.
#[derive(Clone, Copy)]
pub(crate) struct Source<'a> {
    pub(crate) relation: &'a Relation,
    pub(crate) terms: &'a List<Term>,
    pub(crate) period: i64,
}

/// The assignments for which some row of the relation has the values of the terms as a member: a part for each period of rows.
pub fn scan_in_parts(
    setting: &Setting<'_>,
    relation: &Relation,
    terms: &List<Term>,
    period: i64,
) -> Result<List<Table>, PartsFault>
    requires { CanScanInParts setting.now.domain.now period relation.now terms.now }
    ensures { IfOk result (ArePartsOf setting.now.domain.now (scan_times terms.now)
        (scan_texts terms.now) period
        (IsScanned setting.now.domain.now relation.now terms.now)) }
{
    let rows = relation.rows.as_slice();
    let own = first_period(rows, period);
    if have_period(rows, own, period) {
        let mut parts = List::new(setting.alloc);
        let made = scan(setting, relation, terms, own)?;
        let part = small(made)?;
        parts.push(part)?;
        return Ok(parts);
    }
    let source = Source {
        relation,
        terms,
        period,
    };
    scan_groups(setting, &source)
}

// A part for each period of rows.
fn scan_groups(setting: &Setting<'_>, source: &Source<'_>) -> Result<List<Table>, PartsFault>
    requires { CanScanSource setting.now.domain.now source.now }
    ensures { IfOk result (ArePartsOf setting.now.domain.now (scan_times source.now.terms.now)
        (scan_texts source.now.terms.now) source.now.period
        (IsScanned setting.now.domain.now source.now.relation.now source.now.terms.now)) }
{
    let mut parts = List::new(setting.alloc);
    let mut left = source.relation.rows.copy(setting.alloc)?;
    for turn in 0..GROUPS {
        if left.len() == 0 {
            return some(parts);
        }
        let own = row_period(left.at(0), source.period);
        let groups = split(setting, left.as_slice(), own, source.period)?;
        let SplitRows { same, others } = groups;
        let made = scan_rows(setting, source, same, own)?;
        let more = add_part(setting, parts, made)?;
        parts = more;
        left = others;
    }
    Err(PartsFault::GivenUp)
}

// The part of some rows, in a multiple of their periods.
fn scan_rows(
    setting: &Setting<'_>,
    source: &Source<'_>,
    rows: List<Row>,
    own: i64,
) -> Result<Table, PartsFault>
    requires { CanScanRows setting.now.domain.now source.now rows own }
    ensures { IfOk result (IsPartOfSet setting.now.domain.now (scan_times source.now.terms.now)
        (scan_texts source.now.terms.now) source.now.period
        (IsScannedIn setting.now.domain.now source.now rows)) }
{
    let relation = with_rows(setting, source.relation, rows)?;
    let made = scan(setting, &relation, source.terms, own)?;
    small(made)
}

// The relation with these rows.
fn with_rows(
    setting: &Setting<'_>,
    relation: &Relation,
    rows: List<Row>,
) -> Result<Relation, Memory>
    ensures columns { IfOk result (λ made. made.columns ≡ relation.now.columns) }
    ensures rows { IfOk result (λ made. made.rows ≡ rows) }
{
    Ok(Relation {
        name: relation.name.copy(setting.alloc)?,
        columns: relation.columns.copy(setting.alloc)?,
        rows,
    })
}

// The rows of a period, and the others.
fn split(setting: &Setting<'_>, rows: &[Row], own: i64, whole: i64) -> Result<SplitRows, Memory>
    requires whole { IsSmallPeriod whole }
    requires rows { (row : RowOf) → Contains rows.now row → RowHasPeriods whole row }
    ensures { IfOk result (IsSplitBy whole own rows.now) }
{
    let mut same = List::new(setting.alloc);
    let mut others = List::new(setting.alloc);
    for row in rows {
        let copy = row.copy(setting.alloc)?;
        let period = row_period(row, whole);
        if is_same(period, own) {
            same.push(copy)?;
            continue;
        }
        others.push(copy)?;
    }
    Ok(SplitRows { same, others })
}

// The period of the first row, and 1 where there is none.
fn first_period(rows: &[Row], whole: i64) -> i64
    requires whole { IsSmallPeriod whole }
    requires rows { (row : RowOf) → Contains rows.now row → RowHasPeriods whole row }
    ensures { IsOwnPeriod whole result }
{
    match rows {
        [row, ..] => row_period(row, whole),
        [] => 1,
    }
}

// Whether all rows have the period.
fn have_period(rows: &[Row], own: i64, whole: i64) -> bool
    requires whole { IsSmallPeriod whole }
    requires rows { (row : RowOf) → Contains rows.now row → RowHasPeriods whole row }
    ensures { IsTrue result → (row : RowOf) → Contains rows.now row → IsRowPeriod whole row own }
{
    for row in rows {
        let period = row_period(row, whole);
        if !is_same(period, own) {
            return false;
        }
    }
    true
}

// The least common multiple of the periods of a row's points.
fn row_period(row: &Row, whole: i64) -> i64
    requires whole { IsSmallPeriod whole }
    requires row { RowHasPeriods whole row.now }
    ensures { IsRowPeriod whole row.now result }
{
    let mut own = 1;
    for value in row.values.as_slice() {
        own = with_value(own, value, whole);
    }
    own
}

// The least common multiple of a period and that of a value.
fn with_value(own: i64, value: &Value, whole: i64) -> i64
    requires whole { IsSmallPeriod whole }
    requires own { IsOwnPeriod whole own }
    requires value { DividesPeriod whole value.now }
    ensures { IsValuePeriod whole own value.now result }
{
    match value {
        Value::Point { at } => common_period(own, at.period, whole),
        Value::Const { .. } => own,
    }
}
