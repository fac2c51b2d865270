// The plan of a query over a database by a way of planning, or why it has none.
ghost use Rattle.std.specs.Prelude.{◌≡◌, ◌≤ℤ◌, pos, List, IfOk, IfErr};
ghost use Rattle.std.specs.List.{AllByRecursion};
ghost use Rattle.lrp_model.specs.Formulas.{form_of, question_of};
ghost use Rattle.lrp_model.specs.Core.{HasElements};
ghost use Rattle.lrp_model.specs.Plans.{IsPlan, IsWithinLimits};
ghost use Rattle.lrp_model.specs.TestPoints.{points};
ghost use Rattle.lrp_plan_laws.specs.GuardedPlans.{guarded_plan, plan_by as steps_by};
ghost use Rattle.lrp_plan_laws.specs.Settled.{IsSettled, IsSoundPlan};
ghost use Rattle.lrp_print.specs.Writable.{StepHasPeriods};
ghost use Rattle.lrp_core.specs.Cores.{core_of};
ghost use Rattle.lrp_model.specs.declared.relations.Relation.{Relation as RelationOf};
ghost use Rattle.lrp_plan.specs.Planning.{IsPastLimits, AreGathered, IsOutcome};
ghost use Rattle.lrp_guarded.specs.Building.{IsGuardedDraft};

use crate::builder::{Within, build};
use crate::making::Making;
use lrp_core::{Core, core_form, variable_tree};
use lrp_database::Database;
use lrp_limits::periods::Period;
use lrp_limits::scaling::scaled;
use lrp_model::{LIMIT, Memory, Plan, Planning, Query};
use lrp_plan::drafts::Draft;
use lrp_plan::planning::{finish, gather, whole_period};
use lrp_plan::sorts::has_named_sort;
use lrp_plan::sources::Sources;
use lrp_plan::{PlanFault, plan};
use std::alloc::Global;

/// The plan of a query by a way of planning. As it is written it is that of [`plan`]; under guards each table is made within
/// what stands beside it, and the answers are the same.
pub fn plan_by(
    alloc: Global,
    query: &Query,
    database: &Database,
    planning: Planning,
) -> Result<Plan, PlanFault>
    requires elements { HasElements (form_of query.now.body) }
    requires points { AllByRecursion (λ at. pos 1 ≤ℤ at.period) (points (form_of query.now.body)) }
    ensures ok { IfOk result (λ p. IsPlan p
        (steps_by planning database.now (question_of query.now))
        database.now (question_of query.now)) }
    ensures limits { IfOk result (λ _. IsWithinLimits
        (steps_by planning database.now (question_of query.now))
        database.now (question_of query.now)) }
    ensures writable { IfOk result (λ p. AllByRecursion StepHasPeriods p.steps) }
    ensures sound { IfOk result (λ _. IsSettled database.now (question_of query.now)
        → IsSoundPlan (steps_by planning database.now (question_of query.now))
        database.now (question_of query.now)) }
    ensures fault { IfErr result (λ e. IsPastLimits e
        (steps_by planning database.now (question_of query.now))
        database.now (question_of query.now)) }
{
    match planning {
        Planning::Written => plan(alloc, query, database),
        Planning::Guarded => plan_guarded(alloc, query, database),
    }
}

// The plan of a query under guards.
fn plan_guarded(alloc: Global, query: &Query, database: &Database) -> Result<Plan, PlanFault>
    requires elements { HasElements (form_of query.now.body) }
    requires points { AllByRecursion (λ at. pos 1 ≤ℤ at.period) (points (form_of query.now.body)) }
    ensures ok { IfOk result (λ p. IsPlan p (guarded_plan database.now (question_of query.now))
        database.now (question_of query.now)) }
    ensures limits { IfOk result (λ _. IsWithinLimits
        (guarded_plan database.now (question_of query.now))
        database.now (question_of query.now)) }
    ensures writable { IfOk result (λ p. AllByRecursion StepHasPeriods p.steps) }
    ensures sound { IfOk result (λ _. IsSettled database.now (question_of query.now)
        → IsSoundPlan (guarded_plan database.now (question_of query.now))
        database.now (question_of query.now)) }
    ensures fault { IfErr result (λ e. IsPastLimits e
        (guarded_plan database.now (question_of query.now))
        database.now (question_of query.now)) }
{
    let core = core_form(alloc, query, has_named_sort(database))?;
    let sources = gather(alloc, query, database)?;
    plan_gathered(alloc, query, &sources, &core)
}

// The plan of a query's core form under guards, over what was read.
fn plan_gathered(
    alloc: Global,
    query: &Query,
    sources: &Sources<'_>,
    core: &Core<'_>,
) -> Result<Plan, PlanFault>
    ensures { (db : List RelationOf) → AreGathered db (question_of query.now) sources.now
        (core_of core.now) → sources.now.database.now ≡ db
        → IsOutcome (guarded_plan db (question_of query.now)) db (question_of query.now) result }
{
    let period = match whole_period(sources, core) {
        Some(period) => period,
        None => return Err(PlanFault::PeriodLimit),
    };
    let draft = whole_draft(alloc, sources, core, period)?;
    if scaled(draft.last.reach, query.head.columns.as_slice()) > LIMIT as u64 {
        return Err(PlanFault::BoundLimit);
    }
    let plan = finish(alloc, query, sources, draft)?;
    Ok(plan)
}

// The steps of a core form under guards, and the step `head` of this period.
fn whole_draft(
    alloc: Global,
    sources: &Sources<'_>,
    core: &Core<'_>,
    period: Period,
) -> Result<Draft, Memory>
    ensures { IfOk result (λ made. IsGuardedDraft sources.now (core_of core.now)
        period.number made) }
{
    let tree = variable_tree(alloc, core)?;
    let mut making = Making::new(sources);
    build(&mut making, core, &tree.inner, Within::new(alloc, None))?;
    let mut draft = making.into_draft();
    draft.extend(period)?;
    Ok(draft)
}
