// Questions: a database, a well-sorted query over it and its plan, or the first refusal.
ghost use Rattle.std.specs.Prelude.{◌≡◌, [], ◌∷◌, ◌↔◌, ◌≤ℤ◌, Err, IfNone, IfOk, IfSome, IsTrue, pos};
ghost use Rattle.lrp_io.specs.Starts.{StartsOnly};
ghost use Rattle.lrp_outputs.specs.declared.refusal.Refusal.TheVariants.{Head};
ghost use Rattle.std.specs.List.{AllByRecursion};
ghost use Rattle.lrp_model.specs.Formulas.{form_of, question_of as queried};
ghost use Rattle.lrp_model.specs.TestPoints.{points};
ghost use Rattle.lrp_plan_laws.specs.GuardedPlans.{plan_by as steps_by};
ghost use Rattle.lrp_plan_laws.specs.Settled.{IsSettled, IsSoundPlan};
ghost use Rattle.lrp_print.specs.Writable.{StepHasPeriods};
ghost use Rattle.lrp_top.specs.Due.{IsPlanned, IsPlannedAs};
ghost use Rattle.lrp_top.specs.Heads.{IsHeadFit, IsHeadFor, IsMetBy};
ghost use Rattle.lrp_top.specs.Lengths.{TellsLength};
ghost use Rattle.lrp_top.specs.Questions.{IsAsked, IsMadeOf, IsReady};

use crate::files::{DatabaseFile, QueryFile, database_asked, query_asked};
use crate::resuming::times_of;
use crate::seeing::Watched;
use lrp_database::Database;
use lrp_guarded::plan_by;
use lrp_io::Shelf;
use lrp_model::{Column, Plan, Planning, Query};
use lrp_outputs::{HeadNeed, Refusal};
use lrp_plan::PlanFault;
use lrp_words::QuestionFiles;
use std::alloc::Global;

/// A database, a query that is well-sorted over it, and its plan by a way of planning.
#[derive(Drop)]
pub struct Question {
    pub database: DatabaseFile,
    pub query: QueryFile,
    pub planning: Planning,
    pub plan: Plan,
}

impl Question {
    /// Its plan, and the query that it is of.
    pub fn into_plan(self) -> (Plan, Query)
        ensures plan { result.0 ≡ self.plan }
        ensures query { result.1 ≡ self.query.query }
    {
        let Question { plan, query, .. } = self;
        (plan, query.into_query())
    }

    /// Its database alone.
    pub fn into_database(self) -> DatabaseFile
        ensures { result ≡ self.database }
    {
        let Question { database, .. } = self;
        database
    }

    /// Its database and its query.
    pub fn into_files(self) -> (DatabaseFile, QueryFile)
        ensures database { result.0 ≡ self.database }
        ensures query { result.1 ≡ self.query }
    {
        let Question {
            database,
            query,
            ..
        } = self;
        (database, query)
    }
}

/// The question of a database's file and a query's file, or the first refusal of either, of a head without what is needed, or
/// of the plan.
pub fn question_of<F: Shelf>(
    alloc: Global,
    files: &QuestionFiles<'_>,
    need: Option<HeadNeed>,
    shelf: &mut F,
) -> Result<Question, Refusal>
    ensures question { IsAsked files.now need (⟦<F as Watched>⟧.seen shelf.old shelf.new) IsMadeOf
        result }
    ensures planning { IfOk result (λ question. question.planning ≡ files.now.planning) }
    ensures long { TellsLength (⟦<F as Watched>⟧.seen shelf.old shelf.new) result }
    ensures ready { IfOk result (λ question. IsReady question) }
    ensures head { IfOk result (λ question. IsHeadFor need question.query.query.head.columns) }
    ensures starts { StartsOnly (F.starts shelf.old) (F.starts shelf.new)
        (files.now.database.now ∷ files.now.query.now ∷ []) }
{
    let database = database_asked(alloc, files, shelf)?;
    let query = query_asked(alloc, &database.relations, files, shelf)?;
    let plan = fit_plan(
        alloc,
        &database.relations,
        &query.query,
        files.planning,
        need,
    )?;
    Ok(Question {
        database,
        query,
        planning: files.planning,
        plan,
    })
}

/// The plan of a query over a database, whose head has what is needed.
pub fn fit_plan(
    alloc: Global,
    database: &Database,
    query: &Query,
    planning: Planning,
    need: Option<HeadNeed>,
) -> Result<Plan, Refusal>
    requires settled { IsSettled database.now (queried query.now) }
    requires points { AllByRecursion (λ at. pos 1 ≤ℤ at.period) (points (form_of query.now.body)) }
    ensures planned { IsPlannedAs planning need database.now (queried query.now) result }
    ensures sound { IfOk result (λ _. IsSoundPlan
        (steps_by planning database.now (queried query.now)) database.now (queried query.now)) }
    ensures writable { IfOk result (λ p. AllByRecursion StepHasPeriods p.steps) }
    ensures head { IfOk result (λ _. IsHeadFor need query.now.head.columns) }
{
    match unmet_by(query, need) {
        None => plan_of(alloc, database, query, planning),
        Some(unmet) => Err(Refusal::Head(unmet)),
    }
}

/// What is needed, where the head of a query hasn't got it.
fn unmet_by(query: &Query, need: Option<HeadNeed>) -> Option<HeadNeed>
    ensures fit { IfNone result (IsHeadFor need query.now.head.columns) }
    ensures unfit { IfSome result (λ unmet. IsHeadFit need (queried query.now) (Err (Head unmet))) }
{
    let need = need?;
    if is_met(need, query.head.columns.as_slice()) {
        None
    } else {
        Some(need)
    }
}

/// Whether a head has the columns that are needed.
fn is_met(need: HeadNeed, head: &[Column]) -> bool
    ensures { IsTrue result ↔ IsMetBy need head.now }
{
    let times = times_of(head);
    match need {
        HeadNeed::Canon => times == 1,
        HeadNeed::Count => times <= 1,
        HeadNeed::Ranges => times == 1 && head.len() == 1,
    }
}

/// The plan of a query over a database by this way of planning, or the limit that it passes.
pub fn plan_of(
    alloc: Global,
    database: &Database,
    query: &Query,
    planning: Planning,
) -> Result<Plan, Refusal>
    requires settled { IsSettled database.now (queried query.now) }
    requires points { AllByRecursion (λ at. pos 1 ≤ℤ at.period) (points (form_of query.now.body)) }
    ensures planned { IsPlanned planning database.now (queried query.now) result }
    ensures sound { IfOk result (λ _. IsSoundPlan
        (steps_by planning database.now (queried query.now)) database.now (queried query.now)) }
    ensures writable { IfOk result (λ p. AllByRecursion StepHasPeriods p.steps) }
{
    match plan_by(alloc, query, database, planning) {
        Ok(plan) => Ok(plan),
        Err(PlanFault::PeriodLimit) => Err(Refusal::PeriodLimit),
        Err(PlanFault::BoundLimit) => Err(Refusal::BoundLimit),
        Err(PlanFault::Memory) => Err(Refusal::Memory),
    }
}
