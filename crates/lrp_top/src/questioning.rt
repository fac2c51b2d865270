// Questions over a database that is kept: it is lent to each, and given back.
ghost use Rattle.std.specs.Prelude.{◌≡◌, ◌≤◌, Err, IfErr, IfOk, Ok, length};
ghost use Rattle.lrp_model.specs.Formulas.{question_of};
ghost use Rattle.lrp_top.specs.Due.{IsPlannedAs};
ghost use Rattle.lrp_model.specs.Limits.{most_bytes};
ghost use Rattle.lrp_outputs.specs.Outputs.{told};
ghost use Rattle.lrp_top.specs.Heads.{IsHeadFor};
ghost use Rattle.lrp_top.specs.Keeping.{IsDueOver, IsFileRead, IsQuerySaid, IsWholePurpose, civil_asked, language_asked, unasked_as};
ghost use Rattle.lrp_top.specs.Questions.{IsProperPurpose, IsAsked, IsMadeOf, IsReady, IsServed, database_source, need_of, query_source};
ghost use Rattle.lrp_top.specs.Seen.{AreBytesOf, ShelfSeen};

use crate::counting::{number, range_lines};
use crate::files::DatabaseFile;
use crate::language::language_of;
use crate::needing::head_need;
use crate::question::{Question, fit_plan};
use crate::reading::query_in;
use crate::serving::{named_answer, witness};
use lrp_model::List;
use lrp_outputs::{HeadNeed, Output, Refusal};
use lrp_words::{Asked, Purpose, QuestionFiles};
use std::alloc::Global;

/// Why a question was refused, and the database that it was over.
#[derive(Drop)]
pub struct Unasked {
    pub refusal: Refusal,
    pub file: DatabaseFile,
}

/// What a question came to, and the database that it was over.
#[derive(Drop)]
pub struct Served {
    pub outcome: Result<Output, Refusal>,
    pub file: DatabaseFile,
}

/// What the question of a query's bytes over a database comes to.
pub fn answer_over(alloc: Global, asked: &Asked<'_>, query: List<u8>, file: DatabaseFile) -> Served
    requires proper { IsProperPurpose asked.now.purpose }
    requires whole { IsWholePurpose asked.now.purpose }
    requires read { IsFileRead (civil_asked asked.now.files) file }
    requires short { length query ≤ most_bytes }
    ensures due { IsDueOver asked.now file.bytes query (told result.outcome) }
    ensures file { result.file ≡ file }
{
    let need = head_need(&asked.purpose);
    match question_over(alloc, &asked.files, need, query, file) {
        Ok(question) => serve_lent(alloc, question, &asked.purpose),
        Err(unasked) => refused(unasked),
    }
}

/// The refusal of a question as what it came to.
fn refused(unasked: Unasked) -> Served
    ensures outcome { told result.outcome ≡ Err unasked.refusal }
    ensures file { result.file ≡ unasked.file }
{
    let Unasked { refusal, file } = unasked;
    Served {
        outcome: Err(refusal),
        file,
    }
}

/// The question of a query's bytes over a database, or the first refusal of the query, its head or its plan.
pub fn question_over(
    alloc: Global,
    files: &QuestionFiles<'_>,
    need: Option<HeadNeed>,
    query: List<u8>,
    file: DatabaseFile,
) -> Result<Question, Unasked>
    requires read { IsFileRead (civil_asked files.now) file }
    requires short { length query ≤ most_bytes }
    ensures question { (seen : ShelfSeen) → AreBytesOf seen files.now.database.now file.bytes
        → AreBytesOf seen files.now.query.now query
        → IsAsked files.now need seen IsMadeOf (unasked_as result) }
    ensures database { IfOk result (λ question. question.database ≡ file) }
    ensures bytes { IfOk result (λ question. question.query.bytes ≡ query) }
    ensures said { IfOk result (λ question.
        IsQuerySaid (language_asked files.now) file.relations question.query) }
    ensures planning { IfOk result (λ question. question.planning ≡ files.now.planning) }
    ensures planned { IfOk result (λ question. IsPlannedAs question.planning need
        file.relations (question_of question.query.query) (Ok question.plan)) }
    ensures ready { IfOk result (λ question. IsReady question) }
    ensures head { IfOk result (λ question. IsHeadFor need question.query.query.head.columns) }
    ensures file { IfErr result (λ unasked. unasked.file ≡ file) }
{
    match query_in(alloc, &file.relations, query, language_of(files)) {
        Ok(said) => match fit_plan(alloc, &file.relations, &said.query, files.planning, need) {
            Ok(plan) => Ok(Question {
                database: file,
                query: said,
                planning: files.planning,
                plan,
            }),
            Err(refusal) => Err(Unasked { refusal, file }),
        },
        Err(refusal) => Err(Unasked { refusal, file }),
    }
}

/// What is told of a question for a purpose, and its database.
fn serve_lent(alloc: Global, question: Question, purpose: &Purpose<'_>) -> Served
    requires ready { IsReady question }
    requires proper { IsProperPurpose purpose.now }
    requires whole { IsWholePurpose purpose.now }
    requires head { IsHeadFor (need_of purpose.now) question.query.query.head.columns }
    ensures served { IsServed question.planning purpose.now (database_source question.database)
        (query_source question.query) question.plan (told result.outcome) }
    ensures file { result.file ≡ question.database }
{
    let outcome = told_whole(alloc, &question, purpose);
    Served {
        outcome,
        file: question.into_database(),
    }
}

/// What is told of all answers of a question.
fn told_whole(alloc: Global, question: &Question, purpose: &Purpose<'_>) -> Result<Output, Refusal>
    requires ready { IsReady question.now }
    requires proper { IsProperPurpose purpose.now }
    requires whole { IsWholePurpose purpose.now }
    requires head { IsHeadFor (need_of purpose.now) question.now.query.query.head.columns }
    ensures served { IsServed question.now.planning purpose.now
        (database_source question.now.database) (query_source question.now.query)
        question.now.plan (told result) }
{
    match purpose {
        Purpose::Answer { cap, canon, name } => named_answer(alloc, question, *cap, *canon, name),
        Purpose::Witness { cap, dates } => witness(alloc, question, *cap, *dates),
        Purpose::Count { counting } => number(alloc, question, counting),
        Purpose::Ranges { ranging } => range_lines(alloc, question, ranging),
        Purpose::Plan | Purpose::Page { .. } => unreachable!(),
    }
}
