// What is wrong with the rows of a database.
ghost use Rattle.std.specs.Prelude.{◌≡◌, ◌≤◌, ◌++◌, ◌∷◌, [], IfOk, OnOk, Contains, IsTrue, ◌↔◌};
ghost use Rattle.lrp_model.specs.Kept.{IsKept, IsRowOf};
ghost use Rattle.lrp_model.specs.Sorts.{time_count};
ghost use Rattle.lrp_lint.specs.Contents.{IsContentFlaw};
ghost use Rattle.lrp_lint.specs.Flaws.{HasUntied};
ghost use Rattle.lrp_lint.specs.Listed.{IsListOfAll, FindsMore, IsFindingAt, IsFindingIn, IsRowFinding, content_findings, flaw_at, row_order, untied_findings};

use crate::contents::content_flaw;
use crate::fault::LintFault;
use crate::flaws::{RowFinding, RowFlaw};
use crate::listed::rows_in_order;
use crate::ties::has_untied;
use lrp_database::Database;
use lrp_model::{Column, List, Memory, Relation, Row};
use std::alloc::Global;

// The number of a relation, and that of a row in it, from 0.
#[derive(Clone, Copy)]
struct RowNumber {
    relation: usize,
    row: usize,
}

/// What is wrong with the rows, in the order of the text.
pub fn row_findings(alloc: Global, database: &Database) -> Result<List<RowFinding>, LintFault>
    ensures { IfOk result (IsListOfAll row_order (IsRowFinding database.now)) }
{
    let mut found = Vec::new(alloc);
    for i in 0..database.relations() {
        add_relation(alloc, &mut found, i, database.at(i))?;
    }
    Ok(rows_in_order(found))
}

// What is wrong with the rows of the relation of this number.
fn add_relation(
    alloc: Global,
    found: &mut Vec<RowFinding>,
    relation: usize,
    held: &Relation,
) -> Result<(), LintFault>
    requires { IsKept held.now }
    ensures { OnOk result (FindsMore (IsFindingIn relation held.now) found.old.items
        found.new.items) }
{
    let columns = held.columns.as_slice();
    let rows = held.rows.as_slice();
    for (row, content) in rows.iter().enumerate() {
        add_row(alloc, found, RowNumber { relation, row }, columns, content)?;
    }
    Ok(())
}

// What is wrong with the row of this number.
fn add_row(
    alloc: Global,
    found: &mut Vec<RowFinding>,
    at: RowNumber,
    columns: &[Column],
    row: &Row,
) -> Result<(), LintFault>
    requires few { time_count columns.now ≤ 8 }
    requires row { IsRowOf columns.now row.now }
    ensures { OnOk result (FindsMore (IsFindingAt at.relation at.row columns.now row.now)
        found.old.items found.new.items) }
{
    let times = times_of(columns);
    let content = content_flaw(alloc, times, columns, row)?;
    let untied = has_untied(times, row.bounds.as_slice());
    add_flaws(found, at, content, untied)
}

// The flaws of one row: one of its content, and whether its times are untied.
fn add_flaws(
    found: &mut Vec<RowFinding>,
    at: RowNumber,
    content: Option<RowFlaw>,
    untied: bool,
) -> Result<(), LintFault>
    ensures { OnOk result (found.new.items
        ≡ found.old.items ++ (content_findings at.relation at.row content
        ++ untied_findings at.relation at.row untied)) }
{
    if let Some(flaw) = content {
        add_flaw(found, at, flaw)?;
    }
    if untied {
        add_flaw(found, at, RowFlaw::UntiedTimes)?;
    }
    Ok(())
}

// One flaw of a row.
fn add_flaw(found: &mut Vec<RowFinding>, at: RowNumber, flaw: RowFlaw) -> Result<(), Memory>
    ensures { OnOk result (found.new.items
        ≡ found.old.items ++ flaw_at at.relation at.row flaw ∷ []) }
{
    let RowNumber { relation, row } = at;
    found.push(RowFinding {
        relation,
        row,
        flaw,
    })?;
    Ok(())
}

// How many time columns there are.
fn times_of(columns: &[Column]) -> u8
    requires { time_count columns.now ≤ 8 }
    ensures { result ≡ time_count columns.now }
{
    columns
        .iter()
        .filter(|column| column.sort.is_time())
        .count() as u8
}
