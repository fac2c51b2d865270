// The number of answers in a window, and the answers in a window as ranges.
ghost use Rattle.std.specs.Prelude.{◌≡◌, IfOk};
ghost use Rattle.std.specs.List.{AllByRecursion};
ghost use Rattle.lrp_count.specs.Ranges.{AreRanges, IsAnswerTime};
ghost use Rattle.lrp_model.specs.Formulas.{question_of};
ghost use Rattle.lrp_outputs.specs.Outputs.{told};
ghost use Rattle.lrp_outputs.specs.RangeLines.{HasEndsAs};
ghost use Rattle.lrp_outputs.specs.declared.head.HeadNeed.TheVariants as needs;
ghost use Rattle.lrp_store.specs.Tables.{InAnswer};
ghost use Rattle.lrp_top.specs.Due.{IsNumberTold, IsRanged};
ghost use Rattle.lrp_top.specs.Heads.{IsMetBy};
ghost use Rattle.lrp_top.specs.Questions.{IsReady, database_source, query_source};
ghost use Rattle.lrp_words.specs.Ranges.{IsEnd};

use crate::question::Question;
use crate::serving::answers;
use lrp_answers::Answer;
use lrp_count::{count, first_ranges};
use lrp_model::Memory;
use lrp_outputs::{Output, RangeLines, Refusal};
use lrp_words::{Counting, Ranging};
use std::alloc::Global;

/// The number of answers of a question in a window, or the first step with too many cells.
pub fn number(alloc: Global, question: &Question, counting: &Counting) -> Result<Output, Refusal>
    requires ready { IsReady question.now }
    requires head { IsMetBy needs.Count question.now.query.query.head.columns }
    requires from { IsEnd counting.now.civil counting.now.from }
    requires to { IsEnd counting.now.civil counting.now.to }
    ensures due { IsNumberTold question.now.planning counting.now.from counting.now.to
        counting.now.cap (database_source question.now.database) (query_source question.now.query)
        question.now.plan (told result) }
{
    match answers(alloc, question, counting.cap) {
        Ok(answer) => match count(alloc, &answer, counting.from, counting.to) {
            Ok(number) => Ok(Output::Count(number)),
            Err(Memory { .. }) => Err(Refusal::Memory),
        },
        Err(refusal) => Err(refusal),
    }
}

/// The answers of a question in a window as ranges, or the first step with too many cells.
pub fn range_lines(alloc: Global, question: &Question, ranging: &Ranging) -> Result<Output, Refusal>
    requires ready { IsReady question.now }
    requires head { IsMetBy needs.Ranges question.now.query.query.head.columns }
    requires from { IsEnd ranging.now.civil ranging.now.from }
    requires to { IsEnd ranging.now.civil ranging.now.to }
    ensures due { IsRanged question.now.planning ranging.now.civil ranging.now.from ranging.now.to
        ranging.now.limit ranging.now.json ranging.now.cap (database_source question.now.database)
        (query_source question.now.query) question.now.plan (told result) }
{
    match answers(alloc, question, ranging.cap) {
        Ok(answer) => match lines_of(alloc, &answer, ranging) {
            Ok(lines) => Ok(Output::Ranges(lines)),
            Err(Memory { .. }) => Err(Refusal::Memory),
        },
        Err(refusal) => Err(refusal),
    }
}

/// The ranges of a window of these answers.
fn lines_of(alloc: Global, answer: &Answer, ranging: &Ranging) -> Result<RangeLines, Memory>
    requires column { answer.now.store.shape.times ≡ 1 }
    requires texts { answer.now.store.shape.texts ≡ 0 }
    requires from { IsEnd ranging.now.civil ranging.now.from }
    requires to { IsEnd ranging.now.civil ranging.now.to }
    ensures ranges { IfOk result (λ lines. AreRanges (IsAnswerTime
        (InAnswer answer.now.head.columns answer.now.domain answer.now.store))
        ranging.now.from ranging.now.to ranging.now.limit lines.found.ranges lines.found.more) }
    ensures civil { IfOk result (λ lines. lines.civil ≡ ranging.now.civil) }
    ensures json { IfOk result (λ lines. lines.json ≡ ranging.now.json) }
{
    let found = first_ranges(alloc, answer, ranging.from, ranging.to, ranging.limit)?;
    Ok(RangeLines {
        found,
        json: ranging.json,
        civil: ranging.civil,
    })
}
