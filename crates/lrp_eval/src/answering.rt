// The answer of a plan, whole or in parts.
ghost use Rattle.std.specs.Prelude.{ℕ, List as ListOf, IfOk, IfErr};
ghost use Rattle.std.specs.List.{AllByRecursion, AllZip};
ghost use Rattle.lrp_model.specs.DataTexts.{IsDomain};
ghost use Rattle.lrp_model.specs.Formulas.{Question};
ghost use Rattle.lrp_model.specs.Steps.{Steps};
ghost use Rattle.lrp_model.specs.declared.relations.Relation.{Relation};
ghost use Rattle.lrp_store.specs.Stores.{IsStore};
ghost use Rattle.lrp_eval.specs.Answered.{AreAnswersInParts, HaveFirstAnswer, IsAnswerOf};
ghost use Rattle.lrp_eval.specs.Ending.{CanStandUnder, HasAnswersOfSome, IsAnswerUnder, IsEnding, IsEndingOfSome, IsOneUnder, IsWanted};
ghost use Rattle.lrp_eval.specs.Planned.{HasAnswers, IsEvalCause, IsPlanOf, IsSomePlan};

use crate::endings::{Ending, Wanted, run_ending, run_steps};
use crate::evaluation::EvalFault;
use crate::settling::settled;
use lrp_answers::Answer;
use lrp_database::Database;
use lrp_model::{Copies, List, Memory, Plan};
use lrp_store::Store;
use lrp_tables::Table;
use std::alloc::Global;

/// The answers of each settled query that has the plan, with the zones of each cell settled.
///
/// `TooManyCells` names the first step whose formula is inhabited in more than `cap` cells of its period.
pub fn answer(
    alloc: Global,
    plan: &Plan,
    database: &Database,
    cap: u32,
) -> Result<Answer, EvalFault>
    requires plan { IsSomePlan database.now plan.now }
    ensures answer { IfOk result (λ made. (planned : Steps) (q : Question)
        → IsPlanOf planned database.now q plan.now
        → IsAnswerOf planned database.now q cap made) }
    ensures valid { IfOk result (λ made. IsStore made.store) }
    ensures domain { IfOk result (λ made. IsDomain made.domain) }
    ensures fault { IfErr result (λ fault. IsEvalCause database.now plan.now cap fault) }
{
    let table = run_steps(alloc, plan, database, cap)?;
    Ok(settled_answer(alloc, plan, table)?)
}

/// The answers of each settled query that has the plan, as the union of parts that each have a period of their own.
///
/// Cells of the query's period are made only where the parts don't show that each step's are within `cap`, or where parts are
/// not worth it: then there is one part, whose cells are settled. `TooManyCells` is that of `answer`.
pub fn answer_in_parts(
    alloc: Global,
    plan: &Plan,
    database: &Database,
    cap: u32,
) -> Result<List<Answer>, EvalFault>
    requires plan { IsSomePlan database.now plan.now }
    ensures answers { IfOk result (λ parts. (planned : Steps) (q : Question)
        → IsPlanOf planned database.now q plan.now
        → AreAnswersInParts planned database.now q cap parts) }
    ensures valid { IfOk result (AllByRecursion (λ part. IsStore part.store)) }
    ensures domain { IfOk result (AllByRecursion (λ part. IsDomain part.domain)) }
    ensures fault { IfErr result (λ fault. IsEvalCause database.now plan.now cap fault) }
{
    let ending = run_ending(alloc, plan, database, cap, Wanted::Answers)?;
    Ok(ending_answers(alloc, plan, ending)?)
}

/// Some answers of each settled query that has the plan, of which one is the first of all, where there is one.
///
/// They stand in parts as those of `answer_in_parts` do, and are refused as they are.
pub fn nearest_in_parts(
    alloc: Global,
    plan: &Plan,
    database: &Database,
    cap: u32,
) -> Result<List<Answer>, EvalFault>
    requires plan { IsSomePlan database.now plan.now }
    ensures answers { IfOk result (λ parts. (planned : Steps) (q : Question)
        → IsPlanOf planned database.now q plan.now
        → HaveFirstAnswer planned database.now q cap parts) }
    ensures valid { IfOk result (AllByRecursion (λ part. IsStore part.store)) }
    ensures domain { IfOk result (AllByRecursion (λ part. IsDomain part.domain)) }
    ensures fault { IfErr result (λ fault. IsEvalCause database.now plan.now cap fault) }
{
    let ending = run_ending(alloc, plan, database, cap, Wanted::First)?;
    Ok(ending_answers(alloc, plan, ending)?)
}

// The answers of what the last step has.
fn ending_answers(alloc: Global, plan: &Plan, ending: Ending) -> Result<List<Answer>, Memory>
    requires { IsEndingOfSome plan.now ending }
    ensures answers { IfOk result (λ parts. (planned : Steps) (db : ListOf Relation) (q : Question) (cap : ℕ)
        → IsPlanOf planned db q plan.now
        → IsEnding planned db q cap ending
        → IsWanted Wanted.Answers ending
        → AreAnswersInParts planned db q cap parts) }
    ensures first { IfOk result (λ parts. (planned : Steps) (db : ListOf Relation) (q : Question) (cap : ℕ)
        → IsPlanOf planned db q plan.now
        → IsEnding planned db q cap ending
        → HaveFirstAnswer planned db q cap parts) }
    ensures valid { IfOk result (AllByRecursion (λ part. IsStore part.store)) }
    ensures domain { IfOk result (AllByRecursion (λ part. IsDomain part.domain)) }
{
    match ending {
        Ending::Whole(table) => one_answer(alloc, plan, table),
        Ending::Parts(parts) => part_answers(alloc, plan, parts),
        Ending::Nearest(table) => nearest_answer(alloc, plan, table),
    }
}

/// The answers of the last table, with the zones of each cell settled.
pub(crate) fn settled_answer(alloc: Global, plan: &Plan, table: Table) -> Result<Answer, Memory>
    requires valid { IsStore table.store }
    requires table { HasAnswersOfSome plan.now table }
    ensures answer { IfOk result (λ made. (planned : Steps) (db : ListOf Relation) (q : Question) (cap : ℕ)
        → IsPlanOf planned db q plan.now
        → HasAnswers planned db q cap table
        → IsAnswerOf planned db q cap made) }
    ensures valid { IfOk result (λ made. IsStore made.store) }
    ensures domain { IfOk result (λ made. IsDomain made.domain) }
{
    let store = settled(alloc, table.store)?;
    answer_with(alloc, plan, store)
}

// The same as the one part.
fn one_answer(alloc: Global, plan: &Plan, table: Table) -> Result<List<Answer>, Memory>
    requires valid { IsStore table.store }
    requires table { HasAnswersOfSome plan.now table }
    ensures answers { IfOk result (λ parts. (planned : Steps) (db : ListOf Relation) (q : Question) (cap : ℕ)
        → IsPlanOf planned db q plan.now
        → HasAnswers planned db q cap table
        → AreAnswersInParts planned db q cap parts) }
    ensures valid { IfOk result (AllByRecursion (λ part. IsStore part.store)) }
    ensures domain { IfOk result (AllByRecursion (λ part. IsDomain part.domain)) }
{
    let answer = settled_answer(alloc, plan, table)?;
    let mut parts = List::new(alloc);
    parts.push(answer)?;
    Ok(parts)
}

// The part with the first answer as the one part.
fn nearest_answer(alloc: Global, plan: &Plan, table: Table) -> Result<List<Answer>, Memory>
    requires { CanStandUnder plan.now table.store }
    ensures { IfOk result (IsOneUnder plan.now table.store) }
{
    let answer = answer_with(alloc, plan, table.store)?;
    let mut parts = List::new(alloc);
    parts.push(answer)?;
    Ok(parts)
}

// An answer for each of the last parts.
fn part_answers(alloc: Global, plan: &Plan, tables: List<Table>) -> Result<List<Answer>, Memory>
    requires { AllByRecursion (λ table. CanStandUnder plan.now table.store) tables }
    ensures { IfOk result (AllZip (λ table. IsAnswerUnder plan.now table.store) tables) }
{
    let mut parts = List::new(alloc);
    for table in tables.into_vec() {
        let answer = answer_with(alloc, plan, table.store)?;
        parts.push(answer)?;
    }
    Ok(parts)
}

// The tuples of a store as answers, under the plan's head.
fn answer_with(alloc: Global, plan: &Plan, store: Store) -> Result<Answer, Memory>
    requires { CanStandUnder plan.now store }
    ensures { IfOk result (IsAnswerUnder plan.now store) }
{
    let head = plan.head.copy(alloc)?;
    let domain = plan.domain.copy(alloc)?;
    prove_eq!(domain.len(), plan.domain.len());
    let period = store.period();
    Ok(Answer {
        head,
        period,
        domain,
        store,
    })
}
