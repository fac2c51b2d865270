// Which steps are worth running in parts.
ghost use Rattle.std.specs.Prelude.{◌<◌, ◌≤◌};

use crate::freeing::operands_of;
use lrp_database::Database;
use lrp_model::{Plan, Relation, Row, Step, StepKind, Value};
use lrp_tables::Table;
use std::alloc::Global;

// Rows are worth parts of their own where they have at least 24 times as many cells of the step's period.
const RATIO: u64 = 24;

// The most periods that rows may have.
const PERIODS: usize = 16;

// The most steps that are weighed up to the plan's end, since each of them is weighed anew after each table.
const STEPS: usize = 16;

// A step in parts may have 2,048 cells, and eight times those that the scans have in cells of their steps' periods.
const FREE: u64 = 2048;

const TIMES: u64 = 8;

// How many rows scans have, and how many cells of their steps' periods these have at least.
#[derive(Clone, Copy)]
struct Scanned {
    rows: u64,
    cells: u64,
}

// What the steps up to the plan's end are made of, and how many cells they copy as they are made in parts.
#[derive(Clone, Copy)]
struct Weighed {
    scanned: Scanned,
    copied: u64,
}

/// How many cells each of the next steps may have as it is made in parts, where they begin with a scan and are worth it.
///
/// Each relation that they scan has far fewer cells in periods of its own than in the step's, and they read no table from
/// before them whose period is long.
pub(crate) fn most_in_parts(
    alloc: Global,
    database: &Database,
    plan: &Plan,
    tables: &[Table],
    cap: u32,
) -> Option<u32> {
    let steps = plan.steps.as_slice();
    let at = tables.len();
    if !begins(steps, at) || !are_apart(steps, tables) {
        return None;
    }
    let mut scanned = Scanned { rows: 0, cells: 0 };
    for place in at..steps.len() {
        let step = &steps[place];
        if is_complement(step) {
            return most_before(step, scanned, cap);
        }
        scanned = with_scan(alloc, database, step, scanned)?;
    }
    most_cells(scanned, cap)
}

/// How many cells each of the steps up to the plan's end may have as it is made in parts, where that is worth it.
///
/// The first of them is a scan or a union, no complement or difference is among them, and what they scan and unite has far
/// fewer cells in periods of its own than in the steps' periods.
pub(crate) fn most_to_end(
    alloc: Global,
    database: &Database,
    plan: &Plan,
    tables: &[Table],
    cap: u32,
) -> Option<u32> {
    let steps = plan.steps.as_slice();
    let at = tables.len();
    if at >= steps.len() || steps.len() - at < 2 || !begins_parts(&steps[at]) {
        return None;
    }
    if !is_short_end(&steps[at..]) {
        return None;
    }
    let mut weighed = Weighed {
        scanned: Scanned { rows: 0, cells: 0 },
        copied: 0,
    };
    for place in at..steps.len() - 1 {
        weighed = with_step(alloc, database, tables, &steps[place], weighed)?;
    }
    if weighed.scanned.cells / RATIO < weighed.copied {
        return None;
    }
    most_cells(weighed.scanned, cap)
}

// Whether these steps up to the plan's end are few, and the last one's period is long enough for parts.
fn is_short_end(steps: &[Step]) -> bool {
    match steps.last() {
        Some(last) => steps.len() <= STEPS && last.period.unsigned_abs() >= RATIO,
        None => false,
    }
}

// Whether the step puts rows or tables side by side.
fn begins_parts(step: &Step) -> bool {
    matches!(&step.kind, StepKind::Scan { .. } | StepKind::Union { .. })
}

// With what the step scans, or unites of these tables. `None` where it can't be worth it.
fn with_step(
    alloc: Global,
    database: &Database,
    tables: &[Table],
    step: &Step,
    weighed: Weighed,
) -> Option<Weighed> {
    let period = step.period.unsigned_abs();
    let (first, second) = operands_of(&step.kind);
    let scanned = match &step.kind {
        StepKind::Scan { relation, .. } => {
            with_rows(alloc, database.relation(relation)?, period, weighed.scanned)?
        }
        StepKind::Union { .. } => {
            let left = with_table(tables, first, period, weighed.scanned);
            with_table(tables, second, period, left)
        }
        StepKind::Minus { .. } | StepKind::Complement { .. } | StepKind::Extend { .. } => {
            return None;
        }
        _ => weighed.scanned,
    };
    let read = cells_at(tables, first).saturating_add(cells_at(tables, second));
    Some(Weighed {
        scanned,
        copied: weighed
            .copied
            .saturating_add(scanned.rows)
            .saturating_add(read),
    })
}

// How many cells the table of a number has, if it is one of these.
fn cells_at(tables: &[Table], number: u32) -> u64 {
    let place = number as usize;
    if place == 0 || place > tables.len() {
        return 0;
    }
    u64::from(tables[place - 1].store.len())
}

// With the cells of the table of a number, if it is one of these.
fn with_table(tables: &[Table], number: u32, period: u64, scanned: Scanned) -> Scanned {
    let place = number as usize;
    if place == 0 || place > tables.len() {
        return scanned;
    }
    let store = &tables[place - 1].store;
    let cells = u64::from(store.len());
    let times = period / store.period().unsigned_abs().max(1);
    Scanned {
        rows: scanned.rows.saturating_add(cells),
        cells: scanned.cells.saturating_add(cells.saturating_mul(times)),
    }
}

// Whether a scan is at this place, and more than one step comes after it.
fn begins(steps: &[Step], at: usize) -> bool {
    if at >= steps.len() || steps.len() - at < 3 {
        return false;
    }
    matches!(&steps[at].kind, StepKind::Scan { .. })
}

// Whether the steps after these tables, up to a complement, read none of them but those whose periods are short.
fn are_apart(steps: &[Step], tables: &[Table]) -> bool {
    for place in tables.len()..steps.len() {
        if !is_apart(&steps[place], tables) {
            return false;
        }
        if is_complement(&steps[place]) {
            return true;
        }
    }
    true
}

/// Whether the step is a complement.
pub(crate) fn is_complement(step: &Step) -> bool {
    matches!(&step.kind, StepKind::Complement { .. })
}

// Whether the step reads none of these tables, or those whose periods are short.
fn is_apart(step: &Step, tables: &[Table]) -> bool {
    let (first, second) = operands_of(&step.kind);
    let long = step.period.unsigned_abs() / RATIO;
    is_short(tables, first, long) && is_short(tables, second, long)
}

// Whether there is no table of this number, or one of a shorter period.
fn is_short(tables: &[Table], number: u32, long: u64) -> bool {
    let place = number as usize;
    if place == 0 || place > tables.len() {
        return true;
    }
    tables[place - 1].store.period().unsigned_abs() <= long
}

// With the rows and cells of the step, if it's a scan. `None` where parts of its rows are not worth it.
fn with_scan(alloc: Global, database: &Database, step: &Step, scanned: Scanned) -> Option<Scanned> {
    let StepKind::Scan { relation, .. } = &step.kind else {
        return Some(scanned);
    };
    let relation = database.relation(relation)?;
    let period = step.period.unsigned_abs();
    if cells_of(relation, period) / RATIO < relation.rows.len() as u64 {
        return None;
    }
    with_rows(alloc, relation, period, scanned)
}

// With the rows and cells of a relation. `None` where its rows have many periods.
fn with_rows(alloc: Global, relation: &Relation, period: u64, scanned: Scanned) -> Option<Scanned> {
    if !has_few_periods(alloc, relation) {
        return None;
    }
    Some(Scanned {
        rows: scanned.rows.saturating_add(relation.rows.len() as u64),
        cells: scanned.cells.saturating_add(cells_of(relation, period)),
    })
}

// How many cells of a period the rows have at least, counted row by row.
fn cells_of(relation: &Relation, period: u64) -> u64 {
    let mut cells: u64 = 0;
    for row in relation.rows.as_slice() {
        cells = cells.saturating_add(cells_of_row(row, period));
    }
    if relation.columns.len() == 1 {
        cells.min(period)
    } else {
        cells
    }
}

// How many cells of a period a row has at least.
fn cells_of_row(row: &Row, period: u64) -> u64 {
    for bound in row.bounds.as_slice() {
        if bound.left == 0 || bound.right == 0 {
            return 1;
        }
    }
    period / longest_period(row)
}

// The longest period of a row's points.
fn longest_period(row: &Row) -> u64
    ensures { 0 < result }
{
    let mut longest = 1;
    for value in row.values.as_slice() {
        longest = longer(longest, value);
    }
    longest
}

// A period, or that of a value where it is longer.
fn longer(period: u64, value: &Value) -> u64
    ensures { period ≤ result }
{
    match value {
        Value::Point { at } if at.period.unsigned_abs() > period => at.period.unsigned_abs(),
        _ => period,
    }
}

// Whether the rows have few different periods.
fn has_few_periods(alloc: Global, relation: &Relation) -> bool {
    let mut seen = Vec::new(alloc);
    for row in relation.rows.as_slice() {
        let longest = longest_period(row);
        if is_among(&seen, longest) {
            continue;
        }
        if seen.len() >= PERIODS || seen.push(longest).is_err() {
            return false;
        }
    }
    true
}

// Whether the period is one of these.
fn is_among(periods: &[u64], period: u64) -> bool {
    for other in periods {
        if *other == period {
            return true;
        }
    }
    false
}

// How many cells each step before a complement may have, unless that leaves more than the cap in any case.
fn most_before(complement: &Step, scanned: Scanned, cap: u32) -> Option<u32> {
    if complement.period.unsigned_abs() / 2 > u64::from(cap) {
        return None;
    }
    most_cells(scanned, cap)
}

// How many cells each step may have: eight times those of the scans and some, but fewer than would be more than the cap if each
// stood for as many cells of the step's period as the scans' do.
fn most_cells(scanned: Scanned, cap: u32) -> Option<u32> {
    let Scanned { rows, cells } = scanned;
    let cap = u64::from(cap);
    if cells == 0 || cells > cap {
        return None;
    }
    let within = u128::from(cap) * u128::from(rows) / u128::from(cells);
    let most = u128::from(FREE + TIMES * cells).min(u128::from(FREE) + within);
    Some(most.min(u128::from(cap)) as u32)
}
