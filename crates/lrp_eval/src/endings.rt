// The last steps of a plan in parts: these are the answer, and no cells of the query's period are made.
ghost use Rattle.std.specs.Prelude.{◌≡◌, ◌≢◌, ◌+◌, IfErr, IfOk, IsTrue, Contains, length};
ghost use Rattle.lrp_model.specs.Formulas.{Question};
ghost use Rattle.lrp_model.specs.Steps.{Steps};
ghost use Rattle.lrp_store.specs.Stores.{HasReach, IsStore};
ghost use Rattle.lrp_tables.specs.declared.table.Table.{Table as TableOf};
ghost use Rattle.lrp_tables.specs.Columns.{head_times, head_texts};
ghost use Rattle.lrp_periods.specs.Parts.{part_times, part_texts};
ghost use Rattle.lrp_eval.specs.Ending.{AreLastHeld, AreOverHead, CanEndEarly, CanStandOver, IsEndedEarly, IsEndedNearest, IsEnding, IsNearestHeld, IsWanted};
ghost use Rattle.lrp_eval.specs.Grouped.{AreHeld, CanRunGroup, HaveFew, IsGroupHeld, IsLastDropped, IsNextFew, IsNextStep, next_step_number};
ghost use Rattle.lrp_eval.specs.Planned.{HasAnswers, IsEvalCause, IsPlanOf, IsSomePlan};

use crate::evaluation::{EvalFault, last_of, run_next};
use crate::freeing::last_readers;
use crate::groups::{Group, bound_of, parts_of, small_step, step_in_parts};
use crate::heading::{has_columns, is_headed};
use crate::worth::{is_complement, most_in_parts, most_to_end};
use lrp_database::Database;
use lrp_model::{Head, List, Plan, Step, StepKind};
use lrp_periods::{PartsFault, can_be_sifted, extend_in_parts, nearest_left};
use lrp_tables::{Setting, Table};
use std::alloc::Global;

/// What is known of the last step of a plan: its table, its parts, or a part with its first answer.
#[derive(Drop)]
pub(crate) enum Ending {
    Whole(Table),
    Parts(List<Table>),
    Nearest(Table),
}

/// What is asked for of the last step: its table, all answers, or the first one.
#[derive(Clone, Copy)]
pub(crate) enum Wanted {
    Table,
    Answers,
    First,
}

/// A plan with its relations and the last readers of its steps, and what is asked for.
#[derive(Clone, Copy)]
pub(crate) struct Asked<'a> {
    pub(crate) database: &'a Database,
    pub(crate) plan: &'a Plan,
    pub(crate) readers: &'a [usize],
    pub(crate) wanted: Wanted,
}

/// The table of the last step of a plan, which has just the answers of each settled query that has the plan.
///
/// The steps are run one after another, and a table is kept until the last step that reads it is done. `TooManyCells`
/// comes at the first step whose formula is inhabited in more than `cap` cells of its period.
pub fn run_steps(
    alloc: Global,
    plan: &Plan,
    database: &Database,
    cap: u32,
) -> Result<Table, EvalFault>
    requires plan { IsSomePlan database.now plan.now }
    ensures table { IfOk result (λ made. (planned : Steps) (q : Question)
        → IsPlanOf planned database.now q plan.now
        → HasAnswers planned database.now q cap made) }
    ensures valid { IfOk result (λ made. IsStore made.store) }
    ensures fault { IfErr result (λ fault. IsEvalCause database.now plan.now cap fault) }
{
    match run_ending(alloc, plan, database, cap, Wanted::Table) {
        Ok(Ending::Whole(table)) => Ok(table),
        Ok(Ending::Parts(_)) => unreachable!(),
        Ok(Ending::Nearest(_)) => unreachable!(),
        Err(fault) => Err(fault),
    }
}

/// The answers of each settled query that has the plan, in parts where it is worth it to run the last steps so.
///
/// `TooManyCells` comes at the first step whose formula is inhabited in more than `cap` cells of its period.
pub(crate) fn run_ending(
    alloc: Global,
    plan: &Plan,
    database: &Database,
    cap: u32,
    wanted: Wanted,
) -> Result<Ending, EvalFault>
    requires plan { IsSomePlan database.now plan.now }
    ensures ending { IfOk result (λ made. (planned : Steps) (q : Question)
        → IsPlanOf planned database.now q plan.now
        → IsEnding planned database.now q cap made) }
    ensures wanted { IfOk result (IsWanted wanted) }
    ensures fault { IfErr result (λ fault. IsEvalCause database.now plan.now cap fault) }
{
    let setting = Setting {
        alloc,
        domain: &plan.domain,
        cap,
    };
    let readers = last_readers(alloc, plan.steps.as_slice())?;
    let asked = Asked {
        database,
        plan,
        readers: &readers,
        wanted,
    };
    let mut tables = List::new(alloc);
    for number in 0..plan.steps.len() {
        if number < tables.len() {
            continue;
        }
        match run_early(&setting, &asked, tables.as_slice()) {
            Ok(ending) => return Ok(ending),
            Err(PartsFault::GivenUp) => {}
            Err(PartsFault::Memory) => return Err(EvalFault::Memory),
        }
        if is_headed(tables.as_slice(), &plan.head, plan.steps.at(number)) {
            return Ok(Ending::Whole(last_of(tables)));
        }
        match run_next(&setting, database, plan, &readers, tables) {
            Ok(more) => tables = more,
            Err(fault) => return Err(fault),
        }
    }
    Ok(Ending::Whole(last_of(tables)))
}

// What the steps after these tables end with, where it is worth it to run them in parts.
fn run_early(
    setting: &Setting<'_>,
    asked: &Asked<'_>,
    tables: &[Table],
) -> Result<Ending, PartsFault>
    requires { CanEndEarly setting.now.cap setting.now.domain.now asked.now tables.now }
    ensures ending { IfOk result (IsEndedEarly asked.now.database.now asked.now.plan.now
        setting.now.cap tables.now) }
    ensures wanted { IfOk result (IsWanted asked.now.wanted) }
{
    match asked.wanted {
        Wanted::Table => Err(PartsFault::GivenUp),
        Wanted::Answers => run_to_end(setting, asked, tables),
        Wanted::First => match run_to_nearest(setting, asked, tables) {
            Ok(table) => Ok(Ending::Nearest(table)),
            Err(PartsFault::GivenUp) => run_to_end(setting, asked, tables),
            Err(PartsFault::Memory) => Err(PartsFault::Memory),
        },
    }
}

// The parts of the last steps after these tables, where it is worth it to run them in parts.
fn run_to_end(
    setting: &Setting<'_>,
    asked: &Asked<'_>,
    tables: &[Table],
) -> Result<Ending, PartsFault>
    requires can { CanEndEarly setting.now.cap setting.now.domain.now asked.now tables.now }
    requires wanted { asked.now.wanted ≢ Wanted.Table }
    ensures ending { IfOk result (IsEndedEarly asked.now.database.now asked.now.plan.now
        setting.now.cap tables.now) }
    ensures wanted { IfOk result (IsWanted asked.now.wanted) }
{
    let (database, plan) = (asked.database, asked.plan);
    let Some(most) = most_to_end(setting.alloc, database, plan, tables, setting.cap) else {
        return Err(PartsFault::GivenUp);
    };
    let group = Group {
        database: asked.database,
        plan: asked.plan,
        readers: asked.readers,
        tables,
        most,
    };
    match run_last(setting, &group) {
        Ok(parts) => Ok(Ending::Parts(parts)),
        Err(fault) => Err(fault),
    }
}

// The first answer of the last steps after these tables, where they are worth it to be run in parts and end with a complement
// of which few residues are asked for.
fn run_to_nearest(
    setting: &Setting<'_>,
    asked: &Asked<'_>,
    tables: &[Table],
) -> Result<Table, PartsFault>
    requires { CanEndEarly setting.now.cap setting.now.domain.now asked.now tables.now }
    ensures { IfOk result (IsEndedNearest asked.now.database.now asked.now.plan.now
        setting.now.cap tables.now) }
{
    let (database, plan) = (asked.database, asked.plan);
    if !ends_with_complement(plan) {
        return Err(PartsFault::GivenUp);
    }
    let Some(most) = most_in_parts(setting.alloc, database, plan, tables, setting.cap) else {
        return Err(PartsFault::GivenUp);
    };
    let group = Group {
        database: asked.database,
        plan: asked.plan,
        readers: asked.readers,
        tables,
        most,
    };
    match run_nearest(setting, &group) {
        Ok(table) => Ok(table),
        Err(fault) => Err(fault),
    }
}

// Whether the step before `head` is the plan's only complement, and the head has one time column and no other.
fn ends_with_complement(plan: &Plan) -> bool {
    let steps = plan.steps.as_slice();
    let columns = plan.head.columns.as_slice();
    if steps.len() < 2 || columns.len() != 1 || !columns[0].sort.is_time() {
        return false;
    }
    let before = steps.len() - 2;
    for place in 0..before {
        if is_complement(&steps[place]) {
            return false;
        }
    }
    is_complement(&steps[before])
}

// The parts of the step before `head`, where they stand for those of `head`.
fn run_last(setting: &Setting<'_>, group: &Group<'_>) -> Result<List<Table>, PartsFault>
    requires { CanRunGroup setting.now.cap setting.now.domain.now group.now }
    ensures { IfOk result (AreLastHeld setting.now.cap group.now) }
{
    let made = run_before(setting, group)?;
    let step = small_step(group, group.tables.len() + made.len())?;
    let parts = step_in_parts(setting, group, &made, step)?;
    let Some(_) = bound_of(setting, parts.as_slice(), step) else {
        return Err(PartsFault::GivenUp);
    };
    headed(setting, group, &made, parts, step)
}

// Of the complement before `head` a part with its first number.
fn run_nearest(setting: &Setting<'_>, group: &Group<'_>) -> Result<Table, PartsFault>
    requires { CanRunGroup setting.now.cap setting.now.domain.now group.now }
    ensures { IfOk result (IsNearestHeld setting.now.cap group.now) }
{
    let made = run_before(setting, group)?;
    let step = small_step(group, group.tables.len() + made.len())?;
    nearest_of_complement(setting, group, &made, step)
}

// The parts of the steps up to the last two, one after another.
fn run_before(setting: &Setting<'_>, group: &Group<'_>) -> Result<List<List<Table>>, PartsFault>
    requires { CanRunGroup setting.now.cap setting.now.domain.now group.now }
    ensures held { IfOk result (AreHeld setting.now.cap group.now) }
    ensures place { IfOk result (λ made.
        next_step_number group.now made + 1 ≡ length group.now.plan.now.steps) }
{
    let mut made = List::new(setting.alloc);
    let count = group.plan.steps.len();
    for place in group.tables.len()..count {
        if count - place == 2 {
            return Ok(made);
        }
        let step = small_step(group, place)?;
        let parts = step_in_parts(setting, group, &made, step)?;
        if !has_few(setting, group, &made, parts.as_slice(), step) {
            return Err(PartsFault::GivenUp);
        }
        made.push(parts)?;
    }
    Err(PartsFault::GivenUp)
}

// Whether the next step, which has these parts, has no more cells of its period than the cap.
//
// One that drops a time of the step before it has no more cells than that one.
fn has_few(
    setting: &Setting<'_>,
    group: &Group<'_>,
    made: &List<List<Table>>,
    parts: &[Table],
    step: &Step,
) -> bool
    requires group { CanRunGroup setting.now.cap setting.now.domain.now group.now }
    requires made { AreHeld setting.now.cap group.now made.now }
    requires step { IsNextStep group.now made.now step.now }
    requires parts { IsGroupHeld setting.now.cap group.now (next_step_number group.now made.now) parts.now }
    ensures { IsTrue result → IsNextFew setting.now.cap group.now made.now }
{
    if drops_last(group, made, step) {
        return true;
    }
    bound_of(setting, parts, step).is_some()
}

// Whether the step drops a time of the last one of these.
fn drops_last(group: &Group<'_>, made: &List<List<Table>>, step: &Step) -> bool
    ensures { IsTrue result → IsLastDropped group.now made.now step.now }
{
    let StepKind::DropTime { of, .. } = &step.kind else {
        return false;
    };
    let number = *of as usize;
    let before = group.tables.len();
    if number <= before {
        return false;
    }
    if number - before != made.len() {
        return false;
    }
    true
}

// A part with the first number of a complement over the head's one time column, whose period has no more residues than `cap`.
fn nearest_of_complement(
    setting: &Setting<'_>,
    group: &Group<'_>,
    made: &List<List<Table>>,
    step: &Step,
) -> Result<Table, PartsFault>
    requires group { CanRunGroup setting.now.cap setting.now.domain.now group.now }
    requires made { AreHeld setting.now.cap group.now made.now }
    requires step { IsNextStep group.now made.now step.now }
    requires place { next_step_number group.now made.now + 1 ≡ length group.now.plan.now.steps }
    ensures { IfOk result (IsNearestHeld setting.now.cap group.now) }
{
    let StepKind::Complement { of } = &step.kind else {
        return Err(PartsFault::GivenUp);
    };
    let parts = parts_of(group, made, *of)?;
    if !can_be_sifted(parts) {
        return Err(PartsFault::GivenUp);
    }
    if !have_columns(parts, &group.plan.head) {
        return Err(PartsFault::GivenUp);
    }
    if step.period as u64 > u64::from(setting.cap) {
        return Err(PartsFault::GivenUp);
    }
    nearest_left(setting, parts, step.period)
}

// The parts of the step before the last one over the head's columns, where no bound is above the last reach.
fn headed(
    setting: &Setting<'_>,
    group: &Group<'_>,
    made: &List<List<Table>>,
    parts: List<Table>,
    step: &Step,
) -> Result<List<Table>, PartsFault>
    requires group { CanRunGroup setting.now.cap setting.now.domain.now group.now }
    requires made { AreHeld setting.now.cap group.now made.now }
    requires step { IsNextStep group.now made.now step.now }
    requires parts { IsGroupHeld setting.now.cap group.now (next_step_number group.now made.now) parts }
    requires few { HaveFew setting.now.cap setting.now.domain.now step.now.period parts }
    requires place { next_step_number group.now made.now + 1 ≡ length group.now.plan.now.steps }
    ensures { IfOk result (AreLastHeld setting.now.cap group.now) }
{
    let last_parts = over_head(setting, group, parts, step)?;
    let steps = &group.plan.steps;
    let last = steps.at(steps.len() - 1);
    if !have_reach(last_parts.as_slice(), last.reach.unsigned_abs()) {
        return Err(PartsFault::GivenUp);
    }
    Ok(last_parts)
}

// The parts of a step over the head's columns, in its order.
fn over_head(
    setting: &Setting<'_>,
    group: &Group<'_>,
    parts: List<Table>,
    step: &Step,
) -> Result<List<Table>, PartsFault>
    requires can { CanStandOver setting.now.domain.now step.now.period
        group.now.plan.now.head.columns parts }
    requires few { HaveFew setting.now.cap setting.now.domain.now step.now.period parts }
    ensures { IfOk result (AreOverHead setting.now.cap setting.now.domain.now step.now.period
        group.now.plan.now.head.columns parts) }
{
    let head = &group.plan.head;
    if have_columns(parts.as_slice(), head) {
        return Ok(parts);
    }
    let few = Setting {
        alloc: setting.alloc,
        domain: setting.domain,
        cap: group.most,
    };
    let extended = extend_in_parts(&few, parts.as_slice(), head, step.period)?;
    let Some(_) = bound_of(setting, extended.as_slice(), step) else {
        return Err(PartsFault::GivenUp);
    };
    Ok(extended)
}

// Whether the parts have the head's columns in order.
fn have_columns(parts: &[Table], head: &Head) -> bool
    ensures times { IsTrue result → part_times parts.now ≡ head_times head.now.columns }
    ensures texts { IsTrue result → part_texts parts.now ≡ head_texts head.now.columns }
{
    match parts {
        [part, ..] => has_columns(
            head.columns.as_slice(),
            part.vars.times.as_slice(),
            part.vars.texts.as_slice(),
        ),
        [] => false,
    }
}

// Whether no bound of the parts is above the reach.
fn have_reach(parts: &[Table], reach: u64) -> bool
    ensures { IsTrue result → (part : TableOf) → Contains parts.now part → HasReach part.store reach }
{
    for part in parts {
        if !part.store.has_reach(reach) {
            return false;
        }
    }
    true
}
