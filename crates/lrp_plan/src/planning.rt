// The plan of a query over a database, or why it has none.
ghost use Rattle.std.specs.Prelude.{◌≡◌, ◌≤◌, ◌≤ℤ◌, pos, List, ◌++◌, IfOk, IfErr, OnOk};
ghost use Rattle.std.specs.List.{AllByRecursion};
ghost use Rattle.std.specs.Option.{option_map};
ghost use Rattle.lrp_core.specs.Cores.{core_of};
ghost use Rattle.lrp_model.specs.Formulas.{form_of, question_of};
ghost use Rattle.lrp_model.specs.Core.{HasElements};
ghost use Rattle.lrp_model.specs.Domains.{all_texts, database_texts};
ghost use Rattle.lrp_model.specs.Periods.{periods};
ghost use Rattle.lrp_model.specs.Plans.{plan as plan_of_query, IsPlan, IsWithinLimits};
ghost use Rattle.lrp_model.specs.Satisfaction.{Structure, structure};
ghost use Rattle.lrp_model.specs.Texts.{in_order};
ghost use Rattle.lrp_model.specs.declared.relations.Relation.{Relation as RelationOf};
ghost use Rattle.lrp_model.specs.TestPoints.{points};
ghost use Rattle.lrp_plan_laws.specs.Rising.{database_periods};
ghost use Rattle.lrp_plan_laws.specs.Settled.{IsSettled, IsSoundPlan};
ghost use Rattle.lrp_print.specs.Writable.{StepHasPeriods};
ghost use Rattle.lrp_limits.specs.Multiples.{IsPeriodOf};
ghost use Rattle.lrp_plan.specs.Planning.{IsPastLimits, IsWholeDraft, AreGathered, IsOutcome};
ghost use Rattle.lrp_plan.specs.Sources.{AreSources};
ghost use Rattle.lrp_database.specs.Once.{texts_among};

use crate::domains::domains_of;
use crate::drafts::Draft;
use crate::naming::facts_by_name;
use crate::planner::plan_core;
use crate::sorts::has_named_sort;
use crate::sources::Sources;
use crate::wholes::with_core;
use lrp_core::{Core, core_form, query_texts, variable_tree};
use lrp_database::Database;
use lrp_limits::periods::{Period, one};
use lrp_limits::scaling::scaled;
use lrp_model::{Copies, DataText, Domain, LIMIT, List, Memory, Plan, Query, Sort, numbered};
use std::alloc::Global;
use thiserror::Error;

/// Why there is no plan. [`PlanFault::Memory`] says nothing of the query.
#[derive(Clone, Copy, Debug, PartialEq, Eq, Error)]
pub enum PlanFault {
    /// The query's period is above 2^62.
    #[error("period above {LIMIT}")]
    PeriodLimit,
    /// The period is not, but the query's reach is, doubled once and once more for each time column of the head.
    #[error("bound above {LIMIT}")]
    BoundLimit,
    /// There was no memory.
    #[error("memory")]
    Memory,
}

impl From<Memory> for PlanFault {
    ghost use Rattle.std.specs.Prelude.{◌≡◌};
    ghost use Rattle.lrp_plan.specs.declared.planning.PlanFault.TheVariants.{Memory as memory};

    ghost from_gives = { λ _ fault. fault ≡ memory };

    fn from(_: Memory) -> PlanFault {
        PlanFault::Memory
    }
}

/// The plan of a query: the steps of its core form and the step `head`, the head's columns, and all constants in order of
/// bytes. Each query that is read has what is asked for. Each well-sorted one is settled, by the law
/// [`sorted_queries_are_settled`], and the last step of its plan then has exactly the answers.
pub fn plan(alloc: Global, query: &Query, database: &Database) -> Result<Plan, PlanFault>
    requires elements { HasElements (form_of query.now.body) }
    requires points { AllByRecursion (λ at. pos 1 ≤ℤ at.period) (points (form_of query.now.body)) }
    ensures ok { IfOk result (λ p. IsPlan p (plan_of_query database.now (question_of query.now))
        database.now (question_of query.now)) }
    ensures limits { IfOk result (λ p. IsWithinLimits
        (plan_of_query database.now (question_of query.now))
        database.now (question_of query.now)) }
    ensures writable { IfOk result (λ p. AllByRecursion StepHasPeriods p.steps) }
    ensures sound { IfOk result (λ _. IsSettled database.now (question_of query.now)
        → IsSoundPlan (plan_of_query database.now (question_of query.now))
        database.now (question_of query.now)) }
    ensures fault { IfErr result (λ e. IsPastLimits e
        (plan_of_query database.now (question_of query.now))
        database.now (question_of query.now)) }
{
    let core = core_form(alloc, query, has_named_sort(database))?;
    let sources = gather(alloc, query, database)?;
    plan_gathered(alloc, query, &sources, &core)
}

// The plan of a query's core form, over what was read.
fn plan_gathered(
    alloc: Global,
    query: &Query,
    sources: &Sources<'_>,
    core: &Core<'_>,
) -> Result<Plan, PlanFault>
    ensures { (db : List RelationOf) → AreGathered db (question_of query.now) sources.now
        (core_of core.now)
        → IsOutcome (plan_of_query db (question_of query.now)) db (question_of query.now) result }
{
    let period = match whole_period(sources, core) {
        Some(period) => period,
        None => return Err(PlanFault::PeriodLimit),
    };
    let draft = whole_draft(alloc, sources, core, period)?;

    // No step has a greater reach than the last one, so none is refused while steps are made.
    if scaled(draft.last.reach, query.head.columns.as_slice()) > LIMIT as u64 {
        return Err(PlanFault::BoundLimit);
    }
    let plan = finish(alloc, query, sources, draft)?;
    Ok(plan)
}

/// The plan of these steps.
pub fn finish(
    alloc: Global,
    query: &Query,
    sources: &Sources<'_>,
    draft: Draft,
) -> Result<Plan, Memory>
    ensures steps { IfOk result (λ p. p.steps ≡ draft.steps) }
    ensures head { IfOk result (λ p. p.head.columns ≡ query.now.head.columns) }
    ensures domain { IfOk result (λ p. p.domain ≡ in_order
        (texts_among (database_texts sources.now.database.now ++ sources.now.texts.items))) }
{
    let head = query.head.copy(alloc)?;
    let domain = domain_of(alloc, sources)?;
    Ok(Plan {
        steps: draft.into_steps(),
        head,
        domain,
    })
}

/// What is read of the database and the query.
pub fn gather<'a>(
    alloc: Global,
    query: &Query,
    database: &'a Database,
) -> Result<Sources<'a>, Memory>
    ensures sources { IfOk result (λ made. AreSources
        (structure database.now (question_of query.now)) made) }
    ensures database { IfOk result (λ made. made.database.now ≡ database.now) }
    ensures periods { IfOk result (λ _. AllByRecursion (λ k. 1 ≤ k)
        (database_periods database.now)) }
    ensures texts { IfOk result (λ made. database_texts made.database.now ++ made.texts.items
        ≡ all_texts database.now (question_of query.now)) }
{
    let facts = facts_by_name(alloc, database)?;
    let texts = query_texts(alloc, query, database)?;
    let domains = domains_of(alloc, database, &texts)?;
    Ok(Sources {
        alloc,
        database,
        facts,
        texts,
        domains,
    })
}

/// The period of a core form, or `None` where it is above 2^62.
pub fn whole_period(sources: &Sources<'_>, core: &Core<'_>) -> Option<Period>
    ensures { (M : Structure) → AreSources M sources.now
        → IsPeriodOf (periods (core_of core.now) M.relations) (option_map (λ p. p.number) result) }
{
    with_core(sources, core, Some(one()))
}

// The steps of a core form, and the step `head` of this period.
fn whole_draft(
    alloc: Global,
    sources: &Sources<'_>,
    core: &Core<'_>,
    period: Period,
) -> Result<Draft, Memory>
    ensures { IfOk result (λ made. IsWholeDraft sources.now (core_of core.now) period.number made) }
{
    let mut draft = Draft::new(alloc);
    let tree = variable_tree(alloc, core)?;
    plan_core(sources, &mut draft, core, &tree.inner)?;
    draft.extend(period)?;
    Ok(draft)
}

// All constants in order of bytes; memory is refused at 2^32 of them.
fn domain_of(alloc: Global, sources: &Sources<'_>) -> Result<Domain, Memory>
    ensures { IfOk result (λ made. made ≡ in_order
        (texts_among (database_texts sources.now.database.now ++ sources.now.texts.items))) }
{
    let mut texts = sources.database.constants().copy(alloc)?.into_vec();
    add_all(alloc, &mut texts, &sources.texts)?;
    numbered(texts.len())?;
    Domain::new(List::from_vec(texts))
}

// All texts, whatever their sorts.
fn add_all(alloc: Global, all: &mut Vec<DataText>, texts: &[(Sort, DataText)]) -> Result<(), Memory>
    ensures { OnOk result (all.new.items ≡ all.old.items ++ texts_among texts.now) }
{
    for entry in texts {
        all.push(entry.1.copy(alloc)?)?;
    }
    Ok(())
}
