// Groups of steps whose tables are held in parts, each part of a period of its own.
ghost use Rattle.std.specs.Prelude.{◌≡◌, ◌+◌, ◌<◌, ◌≤◌, ◌∷◌, [], IfOk, IfSome, IsTrue, length, pos};
ghost use Rattle.lrp_tables.specs.declared.table.Table.{Table as TableOf};
ghost use Rattle.lrp_eval.specs.Grouped.{AreStepsGrouped, AreHeld, ArePartsAt, CanBeWhole, CanRunGroup, HaveFew, IsPartAlone, IsGroupRun, IsGroupHeld, IsNextStep, IsOnePart, IsSmallStep, IsWholeTable, next_step_number};
ghost use Rattle.lrp_eval.specs.Running.{AreRunBySome};
ghost use Rattle.lrp_eval.specs.Together.{AreInside, ArePassed};

use crate::following::{Together, are_passed, narrowing_at};
use crate::running::operand;
use crate::sorting::sort_step;
use crate::worth::{is_complement, most_in_parts};
use lrp_algebra::leaf;
use lrp_database::Database;
use lrp_model::{List, Plan, Step, StepKind};
use lrp_periods::{
    PartsFault, can_be_sifted, cells_at_most, cells_of_table, complement_in_parts,
    drop_data_in_parts, drop_time_in_parts, join_in_parts, minus_in_parts, scan_in_parts,
    select_in_parts, sifted, union_in_parts, whole,
};
use lrp_tables::{Setting, StepFault, Table};

// The greatest reach of tables that are held as parts, and the greatest period of their steps.
const SMALL: u64 = 1 << 59;

const SMALL_PERIOD: i64 = 1 << 56;

/// What a group of steps is run over: a plan with its relations, the tables of the steps before the group, and how many cells
/// a step may have as it is made in parts.
#[derive(Clone, Copy)]
pub(crate) struct Group<'a> {
    pub(crate) database: &'a Database,
    pub(crate) plan: &'a Plan,
    pub(crate) readers: &'a [usize],
    pub(crate) tables: &'a [Table],
    pub(crate) most: u32,
}

/// Runs some of the steps after these tables in parts, where that is worth it.
pub(crate) fn run_in_parts(
    setting: &Setting<'_>,
    database: &Database,
    plan: &Plan,
    readers: &[usize],
    tables: &[Table],
) -> Result<Together, PartsFault>
    requires domain { setting.now.domain.now ≡ plan.now.domain }
    requires plan { AreRunBySome database.now plan.now setting.now.cap tables.now }
    ensures table { IfOk result (AreStepsGrouped database.now plan.now setting.now.cap readers.now
        tables.now) }
    ensures inside { IfOk result (AreInside plan.now tables.now) }
{
    let Some(most) = most_in_parts(setting.alloc, database, plan, tables, setting.cap) else {
        return Err(PartsFault::GivenUp);
    };
    let group = Group {
        database,
        plan,
        readers,
        tables,
        most,
    };
    if !has_end(&group) {
        return Err(PartsFault::GivenUp);
    }
    match run_group(setting, &group) {
        Ok(together) => Ok(together),
        Err(fault) => Err(fault),
    }
}

// Whether the group can end with the first complement that it comes to, and no steps before that narrow a difference.
fn has_end(group: &Group<'_>) -> bool {
    let at = group.tables.len();
    let steps = group.plan.steps.as_slice();
    for place in at..steps.len() {
        if narrowing_at(steps, group.readers, place).is_some() {
            return false;
        }
        if is_complement(&steps[place]) {
            return is_end(group, place.saturating_sub(at));
        }
    }
    true
}

// The steps of the group, one after another, up to one that is worth a table of its own.
fn run_group(setting: &Setting<'_>, group: &Group<'_>) -> Result<Together, PartsFault>
    requires { CanRunGroup setting.now.cap setting.now.domain.now group.now }
    ensures { IfOk result (IsGroupRun setting.now.cap group.now) }
{
    let mut made = List::new(setting.alloc);
    let count = group.plan.steps.len();
    for place in group.tables.len()..count {
        let step = small_step(group, place)?;
        let can_end = is_end(group, made.len());
        if can_end && is_complement(step) {
            if let Some(together) = ended_by_sieve(setting, group, &made, step)? {
                return Ok(together);
            }
        }
        let parts = step_in_parts(setting, group, &made, step)?;
        if can_end && (count - place <= 2 || is_complement(step)) {
            return ended(setting, group, &made, parts, step);
        }
        let Some(bound) = bound_of(setting, parts.as_slice(), step) else {
            return Err(PartsFault::GivenUp);
        };
        if can_end && is_cheap(parts.as_slice(), bound) {
            return ended(setting, group, &made, parts, step);
        }
        made.push(parts)?;
    }
    Err(PartsFault::GivenUp)
}

/// The step at a place, where its period is small.
pub(crate) fn small_step<'a>(group: &Group<'a>, place: usize) -> Result<&'a Step, PartsFault>
    requires { place < length group.now.plan.now.steps }
    ensures { IfOk result (λ step. IsSmallStep group.now place step.now) }
{
    let step = group.plan.steps.at(place);
    if step.period < 1 || step.period > SMALL_PERIOD {
        return Err(PartsFault::GivenUp);
    }
    Ok(step)
}

// Whether no step after the next one reads one of the group's first steps, by their number.
fn is_end(group: &Group<'_>, count: usize) -> bool
    ensures { IsTrue result → ArePassed group.now.readers.now (length group.now.tables.now) count }
{
    let at = group.tables.len();
    if at > group.readers.len() || count > group.readers.len() - at {
        return false;
    }
    are_passed(group.readers, at, count)
}

// Whether the whole table, which has no more cells than the bound, has few more than its parts.
fn is_cheap(parts: &[Table], bound: u32) -> bool {
    u64::from(bound) / 2 <= cells_of(parts)
}

// How many cells the parts have.
fn cells_of(parts: &[Table]) -> u64 {
    let mut cells: u64 = 0;
    for part in parts {
        cells = cells.saturating_add(u64::from(part.store.len()));
    }
    cells
}

/// A number of cells of the step's period than which the parts have no more, where it is not above the cap.
pub(crate) fn bound_of(setting: &Setting<'_>, parts: &[Table], step: &Step) -> Option<u32>
    requires { CanBeWhole setting.now.domain.now step.now.period parts.now }
    ensures { IfSome result (λ _. HaveFew setting.now.cap setting.now.domain.now step.now.period
        parts.now) }
{
    cells_at_most(parts, step.period as u64, setting.cap)
}

// The table of the group's last step, after these parts of the steps before it.
fn ended(
    setting: &Setting<'_>,
    group: &Group<'_>,
    made: &List<List<Table>>,
    parts: List<Table>,
    step: &Step,
) -> Result<Together, PartsFault>
    requires group { CanRunGroup setting.now.cap setting.now.domain.now group.now }
    requires made { AreHeld setting.now.cap group.now made.now }
    requires step { IsNextStep group.now made.now step.now }
    requires parts { IsGroupHeld setting.now.cap group.now (next_step_number group.now made.now) parts }
    requires passed { ArePassed group.now.readers.now (length group.now.tables.now)
        (length made.now) }
    ensures { IfOk result (IsGroupRun setting.now.cap group.now) }
{
    let table = whole_of(setting, parts, step)?;
    if !table.store.has_reach(step.reach.unsigned_abs()) {
        return Err(PartsFault::GivenUp);
    }
    Ok(Together {
        between: made.len(),
        table,
    })
}

// The table of a complement that ends the group, where a sieve finds it: it has no bounds. `None` says nothing.
fn ended_by_sieve(
    setting: &Setting<'_>,
    group: &Group<'_>,
    made: &List<List<Table>>,
    step: &Step,
) -> Result<Option<Together>, PartsFault>
    requires group { CanRunGroup setting.now.cap setting.now.domain.now group.now }
    requires made { AreHeld setting.now.cap group.now made.now }
    requires step { IsNextStep group.now made.now step.now }
    requires passed { ArePassed group.now.readers.now (length group.now.tables.now)
        (length made.now) }
    ensures { IfOk result (λ found. IfSome found (IsGroupRun setting.now.cap group.now)) }
{
    let StepKind::Complement { of } = &step.kind else {
        return Ok(None);
    };
    let parts = parts_of(group, made, *of)?;
    if !can_be_sifted(parts) {
        return Ok(None);
    }
    let table = sifted(setting, parts, step.period)?;
    match cells_of_table(&table, step.period as u64, setting.cap) {
        Some(_) => Ok(Some(Together {
            between: made.len(),
            table,
        })),
        None => Err(PartsFault::GivenUp),
    }
}

// The parts as one table of the step's period.
fn whole_of(setting: &Setting<'_>, parts: List<Table>, step: &Step) -> Result<Table, PartsFault>
    requires { CanBeWhole setting.now.domain.now step.now.period parts }
    ensures { IfOk result (IsWholeTable setting.now.cap setting.now.domain.now step.now.period
        parts) }
{
    if is_one(parts.as_slice(), step) {
        return match bound_of(setting, parts.as_slice(), step) {
            Some(_) => Ok(only(parts)),
            None => Err(PartsFault::GivenUp),
        };
    }
    match whole(setting, parts.as_slice(), step.period) {
        Ok(table) => Ok(table),
        Err(fault) => Err(PartsFault::from(fault)),
    }
}

// Whether there is one part, of the step's period.
fn is_one(parts: &[Table], step: &Step) -> bool
    ensures { IsTrue result → (table : TableOf) × (parts.now ≡ table ∷ [])
        × (pos table.store.period ≡ step.now.period) }
{
    match parts {
        [table] => table.store.period() == step.period,
        _ => false,
    }
}

// The one part.
fn only(parts: List<Table>) -> Table
    requires { length parts ≡ 1 }
    ensures { parts ≡ result ∷ [] }
{
    match parts.into_vec().pop() {
        Some(table) => table,
        None => unreachable!(),
    }
}

// A table as its one part, where its bounds are small.
fn one_part(setting: &Setting<'_>, table: Table) -> Result<List<Table>, PartsFault>
    ensures { IfOk result (IsOnePart table) }
{
    if !table.store.has_reach(SMALL) {
        return Err(PartsFault::GivenUp);
    }
    table.store.shape();
    let mut parts = List::new(setting.alloc);
    parts.push(table)?;
    Ok(parts)
}

// The table that a call made as its one part, where its bounds are small.
fn alone(setting: &Setting<'_>, made: Result<Table, StepFault>) -> Result<List<Table>, PartsFault>
    ensures { IfOk result (IsPartAlone made) }
{
    match made {
        Ok(table) => one_part(setting, table),
        Err(fault) => Err(PartsFault::from(fault)),
    }
}

/// The parts of a step by its number from 1: those that the group made, or a table from before it.
pub(crate) fn parts_of<'a>(
    group: &Group<'a>,
    made: &'a List<List<Table>>,
    number: u32,
) -> Result<&'a [Table], PartsFault>
    requires low { 0 < number }
    requires high { number ≤ length group.now.tables.now + length made.now }
    ensures { IfOk result (λ parts. ArePartsAt group.now made.now number parts.now) }
{
    let place = number as usize - 1;
    let before = group.tables.len();
    if place >= before {
        return Ok(made.at(place - before).as_slice());
    }
    if !operand(group.tables, number).store.has_reach(SMALL) {
        return Err(PartsFault::GivenUp);
    }
    Ok(&group.tables[place..place + 1])
}

/// The parts of the next step of the group, by those of the steps that it reads.
pub(crate) fn step_in_parts(
    setting: &Setting<'_>,
    group: &Group<'_>,
    made: &List<List<Table>>,
    step: &Step,
) -> Result<List<Table>, PartsFault>
    requires group { CanRunGroup setting.now.cap setting.now.domain.now group.now }
    requires made { AreHeld setting.now.cap group.now made.now }
    requires step { IsNextStep group.now made.now step.now }
    ensures { IfOk result (IsGroupHeld setting.now.cap group.now (next_step_number group.now made.now)) }
{
    let period = step.period;
    let few = Setting {
        alloc: setting.alloc,
        domain: setting.domain,
        cap: group.most,
    };
    match &step.kind {
        StepKind::Scan { relation, terms } => match group.database.relation(relation) {
            Some(relation) => scan_in_parts(&few, relation, terms, period),
            None => Err(PartsFault::GivenUp),
        },
        StepKind::Leaf { test } => alone(setting, leaf(setting, test)),
        StepKind::Sort { name, texts, .. } => alone(setting, sort_step(setting, name, texts)),
        StepKind::Join { left, right, tests } => {
            let (left, right) = (
                parts_of(group, made, *left)?,
                parts_of(group, made, *right)?,
            );
            join_in_parts(&few, left, right, tests, period)
        }
        StepKind::Select { of, test } => {
            select_in_parts(&few, parts_of(group, made, *of)?, test, period)
        }
        StepKind::Union { left, right } => {
            let (left, right) = (
                parts_of(group, made, *left)?,
                parts_of(group, made, *right)?,
            );
            union_in_parts(&few, left, right, period)
        }
        StepKind::Minus { left, right } => {
            let (left, right) = (
                parts_of(group, made, *left)?,
                parts_of(group, made, *right)?,
            );
            minus_in_parts(&few, left, right, period)
        }
        StepKind::Complement { of } => {
            complement_in_parts(setting, parts_of(group, made, *of)?, period)
        }
        StepKind::DropTime { of, name } => {
            drop_time_in_parts(&few, parts_of(group, made, *of)?, name, period)
        }
        StepKind::DropData { of, name } => {
            drop_data_in_parts(&few, parts_of(group, made, *of)?, name, period)
        }
        StepKind::Extend { .. } => Err(PartsFault::GivenUp),
    }
}
