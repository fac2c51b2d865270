// What a question is asked for: its plan, its answers, its least answer or a page.
ghost use Rattle.std.specs.Prelude.{◌≡◌, false, true, IfOk, List, ℕ};
ghost use Rattle.std.specs.List.{AllByRecursion};
ghost use Rattle.lrp_answers.specs.Parts.{AreAlike};
ghost use Rattle.lrp_eval.specs.Answered.{AreAnswersInParts, HaveFirstAnswer, IsAnswerOf};
ghost use Rattle.lrp_model.specs.DataTexts.{IsDomain};
ghost use Rattle.lrp_model.specs.Formulas.{Question as Queried, question_of};
ghost use Rattle.lrp_model.specs.Names.{IsName};
ghost use Rattle.lrp_model.specs.Sorts.{time_count};
ghost use Rattle.lrp_model.specs.Steps.{Steps};
ghost use Rattle.lrp_model.specs.declared.relations.Relation.{Relation};
ghost use Rattle.lrp_store.specs.Least.{HasRoom};
ghost use Rattle.lrp_store.specs.Stores.{IsStore};
ghost use Rattle.lrp_top.specs.Canonical.{IsCanonicalText};
ghost use Rattle.lrp_top.specs.Heads.{IsHeadFor, canon_need};
ghost use Rattle.lrp_top.specs.Due.{AreRowsCounted, IsAnswered, IsCounted, IsDecided, IsOutput};
ghost use Rattle.lrp_outputs.specs.Outputs.{least_of as least_tuple, told, witness_text};
ghost use Rattle.lrp_top.specs.Questions.{IsProperPurpose, IsReady, IsServed, database_source, done_as, need_of, query_source, question_steps};
ghost use Rattle.lrp_outputs.specs.First.{IsFirst};
ghost use Rattle.lrp_top.specs.Steps.{Then};
ghost use Rattle.lrp_top.specs.Telling.{TellsWitness};

use crate::counting::{number, range_lines};
use crate::listing::page;
use crate::question::Question;
use lrp_answer_text::answers_are_texts;
use lrp_answers::Answer;
use lrp_canon::canonical_within;
use lrp_eval::{EvalFault, answer, answer_in_parts, nearest_in_parts};
use lrp_model::{List, Memory, Name};
use lrp_outputs::{
    Output, Refusal, WholeAnswer, Witness, WritablePlan, least_of_parts, small_answers_have_room,
    spots_stand_for_tuples,
};
use lrp_theory::floors_keep_bounds;
use lrp_words::Purpose;
use std::alloc::Global;

/// What is told of a question for a purpose, or the first refusal after its plan.
pub fn serve(alloc: Global, question: Question, purpose: &Purpose<'_>) -> Result<Output, Refusal>
    requires ready { IsReady question }
    requires proper { IsProperPurpose purpose.now }
    requires head { IsHeadFor (need_of purpose.now) question.query.query.head.columns }
    ensures served { IsServed question.planning purpose.now (database_source question.database)
        (query_source question.query) question.plan (told result) }
{
    match purpose {
        Purpose::Plan => {
            let (plan, query) = question.into_plan();
            Ok(Output::Plan(WritablePlan { plan, query }))
        }
        Purpose::Answer { cap, canon, name } => {
            named_answer(alloc, &question, *cap, *canon, name)
        }
        Purpose::Witness { cap, dates } => witness(alloc, &question, *cap, *dates),
        Purpose::Page { paging } => page(alloc, question, paging),
        Purpose::Count { counting } => number(alloc, &question, counting),
        Purpose::Ranges { ranging } => range_lines(alloc, &question, ranging),
    }
}

/// The answers of a question. It is refused at the first step whose formula is inhabited in more than `cap` cells.
pub fn answers(alloc: Global, question: &Question, cap: u32) -> Result<Answer, Refusal>
    requires ready { IsReady question.now }
    ensures counted { IsCounted question.now.planning question.now.database.relations
        (question_of question.now.query.query) cap (done_as result) }
    ensures answers { IfOk result (λ made. IsAnswerOf (question_steps question.now)
        question.now.database.relations (question_of question.now.query.query) cap made) }
    ensures room { IfOk result (λ made. HasRoom made.store) }
    ensures valid { IfOk result (λ made. IsStore made.store) }
    ensures domain { IfOk result (λ made. IsDomain made.domain) }
{
    match answer(alloc, &question.plan, &question.database.relations, cap) {
        Ok(answer) => {
            small_answers_have_room();
            Ok(answer)
        }
        Err(EvalFault::TooManyCells { step }) => Err(Refusal::Cells { cap, step }),
        Err(EvalFault::Memory) => Err(Refusal::Memory),
    }
}

/// The same answers in parts, each of which may have a period of its own. They are refused at the same step.
pub fn answers_in_parts(
    alloc: Global,
    question: &Question,
    cap: u32,
) -> Result<List<Answer>, Refusal>
    requires ready { IsReady question.now }
    ensures counted { IsCounted question.now.planning question.now.database.relations
        (question_of question.now.query.query) cap (done_as result) }
    ensures answers { IfOk result (AreAnswersInParts (question_steps question.now)
        question.now.database.relations (question_of question.now.query.query) cap) }
    ensures alike { IfOk result AreAlike }
    ensures room { IfOk result (AllByRecursion (λ part. HasRoom part.store)) }
    ensures domains { IfOk result (AllByRecursion (λ part. IsDomain part.domain)) }
{
    match answer_in_parts(alloc, &question.plan, &question.database.relations, cap) {
        Ok(parts) => {
            small_answers_have_room();
            Ok(parts)
        }
        Err(EvalFault::TooManyCells { step }) => Err(Refusal::Cells { cap, step }),
        Err(EvalFault::Memory) => Err(Refusal::Memory),
    }
}

/// Some answers in parts, of which one is the first of all, where there is one. They are refused at the same step.
fn first_answers(alloc: Global, question: &Question, cap: u32) -> Result<List<Answer>, Refusal>
    requires ready { IsReady question.now }
    ensures counted { IsCounted question.now.planning question.now.database.relations
        (question_of question.now.query.query) cap (done_as result) }
    ensures answers { IfOk result (HaveFirstAnswer (question_steps question.now)
        question.now.database.relations (question_of question.now.query.query) cap) }
    ensures alike { IfOk result AreAlike }
    ensures room { IfOk result (AllByRecursion (λ part. HasRoom part.store)) }
    ensures domains { IfOk result (AllByRecursion (λ part. IsDomain part.domain)) }
{
    match nearest_in_parts(alloc, &question.plan, &question.database.relations, cap) {
        Ok(parts) => {
            small_answers_have_room();
            Ok(parts)
        }
        Err(EvalFault::TooManyCells { step }) => Err(Refusal::Cells { cap, step }),
        Err(EvalFault::Memory) => Err(Refusal::Memory),
    }
}

/// All answers of a question as a relation of this name, as they come or in canonical form, or the first refusal.
pub fn named_answer(
    alloc: Global,
    question: &Question,
    cap: u32,
    canon: bool,
    name: &str,
) -> Result<Output, Refusal>
    requires ready { IsReady question.now }
    requires name { IsName name.now }
    requires head { IsHeadFor (canon_need canon) question.now.query.query.head.columns }
    ensures due { IsAnswered question.now.planning canon name.now cap
        (database_source question.now.database) (query_source question.now.query)
        question.now.plan (told result) }
{
    match Name::new(alloc, name) {
        Ok(name) => whole_answer(alloc, question, cap, canon, name),
        Err(Memory { .. }) => Err(Refusal::Memory),
    }
}

/// The same, of a name in memory of its own.
fn whole_answer(
    alloc: Global,
    question: &Question,
    cap: u32,
    canon: bool,
    name: Name,
) -> Result<Output, Refusal>
    requires ready { IsReady question.now }
    requires name { IsName name }
    requires head { IsHeadFor (canon_need canon) question.now.query.query.head.columns }
    ensures due { IsAnswered question.now.planning canon name cap
        (database_source question.now.database) (query_source question.now.query) question.now.plan (told result) }
{
    if canon {
        canonical_answer(alloc, question, cap, name)
    } else {
        all_answers(alloc, question, cap, name)
    }
}

/// All answers of a question, or the first step with too many cells.
fn all_answers(alloc: Global, question: &Question, cap: u32, name: Name) -> Result<Output, Refusal>
    requires ready { IsReady question.now }
    requires name { IsName name }
    ensures due { IsAnswered question.now.planning false name cap
        (database_source question.now.database) (query_source question.now.query) question.now.plan (told result) }
{
    match answers(alloc, question, cap) {
        Ok(answer) => {
            answers_are_texts();
            Ok(Output::Answer(WholeAnswer::new(answer, name)))
        }
        Err(refusal) => Err(refusal),
    }
}

/// The canonical answer of a question, or the first step with too many cells, or that it has too many rows.
fn canonical_answer(
    alloc: Global,
    question: &Question,
    cap: u32,
    name: Name,
) -> Result<Output, Refusal>
    requires ready { IsReady question.now }
    requires name { IsName name }
    requires head { time_count question.now.query.query.head.columns ≡ 1 }
    ensures due { IsAnswered question.now.planning true name cap
        (database_source question.now.database) (query_source question.now.query) question.now.plan (told result) }
{
    match answers(alloc, question, cap) {
        Ok(answer) => canonical_text(alloc, question, answer, cap, name),
        Err(refusal) => Err(refusal),
    }
}

/// The canonical answer of these answers as it is written, or that it has more than `cap` rows.
fn canonical_text(
    alloc: Global,
    question: &Question,
    answer: Answer,
    cap: u32,
    name: Name,
) -> Result<Output, Refusal>
    requires ready { IsReady question.now }
    requires name { IsName name }
    requires head { time_count question.now.query.query.head.columns ≡ 1 }
    requires answers { IsAnswerOf (question_steps question.now)
        question.now.database.relations (question_of question.now.query.query) cap answer }
    requires valid { IsStore answer.store }
    requires domain { IsDomain answer.domain }
    ensures due { Then (AreRowsCounted question.now.database.relations
        (question_of question.now.query.query) cap)
        (λ counted. IsOutput (IsCanonicalText name question.now.database.relations
        (question_of question.now.query.query))) (told result) }
{
    floors_keep_bounds();
    answers_are_texts();
    match canonical_within(alloc, answer, cap) {
        Ok(Some(answer)) => Ok(Output::Answer(WholeAnswer::new(answer, name))),
        Ok(None) => Err(Refusal::CanonRows { cap }),
        Err(Memory { .. }) => Err(Refusal::Memory),
    }
}

/// The least answer of a question, or the first step with too many cells.
pub fn witness(alloc: Global, question: &Question, cap: u32, dates: bool) -> Result<Output, Refusal>
    requires ready { IsReady question.now }
    ensures due { IsDecided question.now.planning dates cap (database_source question.now.database)
        (query_source question.now.query) question.now.plan (told result) }
{
    match first_answers(alloc, question, cap) {
        Ok(parts) => Ok(Output::Witness(least_of_parts(parts, dates))),
        Err(refusal) => Err(refusal),
    }
}

/// The least of these answers, whose times are shown as dates where the flag is set.
pub fn least_of(answer: Answer, dates: bool) -> Witness
    requires room { HasRoom answer.store }
    ensures least { (planned : Steps) (db : List Relation) (q : Queried) (cap : ℕ)
        → IsAnswerOf planned db q cap answer
        → TellsWitness dates db q (witness_text result) }
    ensures first { (planned : Steps) (db : List Relation) (q : Queried) (cap : ℕ)
        → IsAnswerOf planned db q cap answer
        → IsFirst db q (least_tuple result) }
{
    spots_stand_for_tuples();
    let least = answer.least();
    Witness {
        answer,
        least,
        dates,
    }
}
