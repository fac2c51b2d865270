// Which of the next steps can be run together.
ghost use Rattle.std.specs.Prelude.{◌≡◌, ◌<◌, ◌≤◌, ◌+◌, ◌^◌, IfOk, IfSome, IsTrue, length};
ghost use Rattle.lrp_model.specs.declared.plans.StepKind.TheVariants.{DropTime, Minus};
ghost use Rattle.lrp_eval.specs.Together.{AreDroppedFrom, AreInside, ArePassed, AreTogether, IsNarrowing, IsProjection, IsSomeRun};

use crate::projecting::{Projection, projected};
use crate::together::{Narrowing, narrowed};
use lrp_model::{Copies, List, Memory, Name, Plan, Step, StepKind};
use lrp_periods::PartsFault;
use lrp_tables::{Setting, Table};
use std::alloc::Global;

// The greatest reach of steps that are run together: what is made on the way has bounds that can be stored.
const SMALL: i64 = 1 << 59;

/// How many of the next steps have no table of their own, and the table of the one after them.
#[derive(Drop)]
pub(crate) struct Together {
    pub(crate) between: usize,
    pub(crate) table: Table,
}

/// Runs some of the steps after these tables together, where that is worth it.
pub(crate) fn run_together(
    setting: &Setting<'_>,
    plan: &Plan,
    readers: &[usize],
    tables: &[Table],
) -> Result<Together, PartsFault>
    requires domain { setting.now.domain.now ≡ plan.now.domain }
    requires plan { IsSomeRun plan.now setting.now.cap tables.now }
    ensures table { IfOk result (AreTogether plan.now setting.now.cap readers.now tables.now) }
    ensures inside { IfOk result (AreInside plan.now tables.now) }
{
    match run_narrowing(setting, plan, readers, tables) {
        Ok(together) => Ok(together),
        Err(PartsFault::GivenUp) => run_projection(setting, plan, readers, tables),
        Err(PartsFault::Memory) => Err(PartsFault::Memory),
    }
}

// Three steps that narrow a difference.
fn run_narrowing(
    setting: &Setting<'_>,
    plan: &Plan,
    readers: &[usize],
    tables: &[Table],
) -> Result<Together, PartsFault>
    requires domain { setting.now.domain.now ≡ plan.now.domain }
    requires plan { IsSomeRun plan.now setting.now.cap tables.now }
    ensures table { IfOk result (AreTogether plan.now setting.now.cap readers.now tables.now) }
    ensures inside { IfOk result (AreInside plan.now tables.now) }
{
    let Some(narrowing) = narrowing_at(plan.steps.as_slice(), readers, tables.len()) else {
        return Err(PartsFault::GivenUp);
    };
    let table = narrowed(setting, tables, &narrowing)?;
    Ok(Together { between: 2, table })
}

// A join and the steps that drop time variables of it.
fn run_projection(
    setting: &Setting<'_>,
    plan: &Plan,
    readers: &[usize],
    tables: &[Table],
) -> Result<Together, PartsFault>
    requires domain { setting.now.domain.now ≡ plan.now.domain }
    requires plan { IsSomeRun plan.now setting.now.cap tables.now }
    ensures table { IfOk result (AreTogether plan.now setting.now.cap readers.now tables.now) }
    ensures inside { IfOk result (AreInside plan.now tables.now) }
{
    let at = tables.len();
    let projection = match projection_at(setting.alloc, plan.steps.as_slice(), readers, at) {
        Ok(Some(projection)) => projection,
        Ok(None) => return Err(PartsFault::GivenUp),
        Err(memory) => return Err(memory.into()),
    };
    let between = projection.names.len();
    let table = projected(setting, tables, &projection)?;
    Ok(Together { between, table })
}

/// The three steps from this place on, where they narrow a difference and nothing else reads the first two.
pub(crate) fn narrowing_at<'a>(
    steps: &'a [Step],
    readers: &[usize],
    at: usize,
) -> Option<Narrowing<'a>>
    ensures { IfSome result (λ n. IsNarrowing steps.now readers.now at n) }
{
    if steps.len() < 3 || steps.len() - 3 < at || !are_passed(readers, at, 2) {
        return None;
    }
    let (first, last) = (&steps[at], &steps[at + 2]);
    let StepKind::Minus { left, right } = &first.kind else {
        return None;
    };
    let name = dropped_from(&steps[at + 1], at + 1)?;
    let from = taken_from(last, at + 2)?;
    if from as usize > at || first.period != last.period || last.reach < 0 || last.reach > SMALL {
        return None;
    }
    Some(Narrowing {
        from,
        left: *left,
        right: *right,
        name,
        period: last.period,
        reach: last.reach as u64,
    })
}

// The join at this place and the steps after it that drop time variables one after another, where nothing else reads them.
fn projection_at<'a>(
    alloc: Global,
    steps: &'a [Step],
    readers: &[usize],
    at: usize,
) -> Result<Option<Projection<'a>>, Memory>
    ensures { IfOk result (λ found. IfSome found (λ p. IsProjection steps.now readers.now at p)) }
{
    if at >= steps.len() {
        return Ok(None);
    }
    let StepKind::Join { left, right, tests } = &steps[at].kind else {
        return Ok(None);
    };
    let names = names_dropped(alloc, steps, at + 1)?;
    if names.len() == 0 || !are_passed(readers, at, names.len()) {
        return Ok(None);
    }
    Ok(Some(Projection {
        left: *left,
        right: *right,
        tests,
        names,
        period: steps[at].period,
    }))
}

// The time variables that the steps from this place on drop one after another.
fn names_dropped(alloc: Global, steps: &[Step], at: usize) -> Result<List<Name>, Memory>
    requires { at ≤ length steps.now }
    ensures names { IfOk result (λ names. AreDroppedFrom steps.now at names) }
    ensures room { IfOk result (λ names. at + length names ≤ length steps.now) }
{
    let mut names = List::new(alloc);
    for place in at..steps.len() {
        match dropped_from(&steps[place], place) {
            Some(name) => names.push(name.copy(alloc)?)?,
            None => return Ok(names),
        }
    }
    Ok(names)
}

// The variable that the step drops from this other one.
fn dropped_from(step: &Step, of: usize) -> Option<&Name>
    ensures { IfSome result (λ name. step.now.kind ≡ DropTime of name.now) }
{
    match &step.kind {
        StepKind::DropTime { of: read, name } if *read as usize == of => Some(name),
        _ => None,
    }
}

// The step that this other one is taken from.
fn taken_from(step: &Step, right: usize) -> Option<u32>
    ensures { IfSome result (λ from. (step.now.kind ≡ Minus from right) × (0 < from)) }
{
    match &step.kind {
        StepKind::Minus { left, right: taken } if *taken as usize == right && 0 < *left => Some(
            *left,
        ),
        _ => None,
    }
}

/// Whether no step of a number of them from this place on is read after the one that follows them.
pub(crate) fn are_passed(readers: &[usize], at: usize, count: usize) -> bool
    requires { at + count < 2 ^ 63 }
    ensures { IsTrue result → ArePassed readers.now at count }
{
    for place in at..at + count {
        if place >= readers.len() || readers[place] > at + count + 1 {
            return false;
        }
    }
    true
}
