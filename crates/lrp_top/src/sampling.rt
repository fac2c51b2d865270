// The sample: a database and a query that are made, read, planned and answered, and what is told of them.
ghost use Rattle.std.specs.Prelude.{◌≤◌, IfOk, ℕ};
ghost use Rattle.lrp_eval.specs.Answered.{IsAnswerOf};
ghost use Rattle.lrp_sample.specs.Trees.{sample_question, sample_relations};
ghost use Rattle.lrp_sample.specs.Plans.{IsSampleSize, sample_steps};
ghost use Rattle.lrp_store.specs.Least.{HasRoom};
ghost use Rattle.lrp_top.specs.Due.{IsOutput};
ghost use Rattle.lrp_outputs.specs.Outputs.{sample_text, told};
ghost use Rattle.lrp_top.specs.Sampled.{TellsSample};
ghost use Rattle.lrp_top.specs.Samples.{IsSampleOrMemory};

use crate::language::QueryLanguage;
use crate::listing::{PageStart, gather};
use crate::question::{Question, plan_of};
use crate::reading::{database_in, query_in};
use crate::serving::{answers, least_of};
use lrp_answers::Answer;
use lrp_eval::whole_pages_count_answers;
use lrp_model::{Memory, Planning};
use lrp_outputs::{Output, Refusal, Report};
use lrp_sample::{
    Texts, sample_has_few_answers, sample_has_few_cells, sample_is_within_limits,
    sample_query_is_well_sorted, sample_texts, sample_texts_are_read,
};
use lrp_words::Paging;
use std::alloc::Global;
use std::marker::Brand;
use std::sync::ledger::Blank;

/// The most cells of a step, as where no cap is given.
const CAP: u32 = 1_000_000;

/// What is told of the sample that a seed and a size give. It is refused for want of memory alone.
pub fn sample(alloc: Global, seed: u32, size: u32) -> Result<Output, Refusal>
    requires seed { seed ≤ 1000000 }
    requires size { IsSampleSize size }
    ensures { IsOutput (TellsSample seed size) (told result) }
{
    let question = question_of(alloc, seed, size)?;
    sample_has_few_cells();
    let answer = answers(alloc, &question, CAP)?;
    let report = report_of(alloc, answer, size)?;
    Ok(Output::Sample(report))
}

/// The database and the query of the sample's texts, and the plan.
fn question_of(alloc: Global, seed: u32, size: u32) -> Result<Question, Refusal>
    requires seed { seed ≤ 1000000 }
    requires size { IsSampleSize size }
    ensures { IsSampleOrMemory seed size result }
{
    let Texts { database, query } = sample_texts(alloc, seed, size)?;
    sample_texts_are_read();
    sample_query_is_well_sorted();
    sample_is_within_limits();
    let database = database_in(alloc, database, None)?;
    let query = query_in(alloc, &database.relations, query, QueryLanguage::FirstOrder)?;
    let planning = Planning::Written;
    let plan = plan_of(alloc, &database.relations, &query.query, planning)?;
    Ok(Question {
        database,
        query,
        planning,
        plan,
    })
}

/// What is told of the sample's answers.
fn report_of(alloc: Global, answer: Answer, size: u32) -> Result<Report, Memory>
    requires size { IsSampleSize size }
    requires room { HasRoom answer.store }
    ensures { IfOk result (λ report. (seed cap : ℕ)
        → IsAnswerOf (sample_steps seed size) (sample_relations seed size) sample_question
        cap answer
        → TellsSample seed size (sample_text report)) }
{
    sample_texts_are_read();
    sample_query_is_well_sorted();
    sample_has_few_answers();
    whole_pages_count_answers();
    let day = Paging {
        from: 0,
        to: 1439,
        limit: 1_000_000,
        after: None,
        json: false,
        cap: CAP,
        civil: false,
    };
    let start = PageStart {
        after: None,
        paused: None,
    };
    let found = gather::<Brand>(alloc, &answer, &day, start, Blank::new(1))?;
    let cells = answer.store.len();
    Ok(Report {
        rows: size,
        cells,
        first: least_of(answer, false),
        window: found.spots.len() as u64,
    })
}
