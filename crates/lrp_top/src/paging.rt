// Questions of a database that is kept: the words that ask one, and pages whose answers are kept for the next one.
ghost use Rattle.std.specs.Prelude.{◌≡◌, ◌≤◌, Err, IfErr, IfOk, IfSome, None as Nothing, Ok, length, option_map};
ghost use Rattle.lrp_answers.specs.Listing.{HasShapeOf, listed_tuple};
ghost use Rattle.lrp_model.specs.Formulas.{question_of};
ghost use Rattle.lrp_model.specs.Limits.{most_bytes};
ghost use Rattle.lrp_outputs.specs.Outputs.{page_text};
ghost use Rattle.lrp_token.specs.Files.{files_digest};
ghost use Rattle.lrp_top.specs.Due.{IsCounted, IsOutput, IsPlannedAs};
ghost use Rattle.lrp_top.specs.Ends.{Ends};
ghost use Rattle.lrp_top.specs.Keeping.{IsAnswerKept, IsAnswering, IsPageBegun, IsEndedBy, IsFileRead, IsDatabaseKept, IsKeptOf, IsPageDue, IsPageListed, IsPageTold, IsQuerySaid, IsReadFor, IsToldOf, IsWholePurpose, MeansDue, civil_asked, language_asked};
ghost use Rattle.lrp_top.specs.Questions.{IsProperPurpose, IsReady, database_source, query_source};
ghost use Rattle.lrp_top.specs.Resuming.{shape_of};
ghost use Rattle.lrp_top.specs.Telling.{TellsPage};
ghost use Rattle.lrp_words.specs.declared.purpose.Purpose.TheVariants as purpose;

use crate::files::DatabaseFile;
use crate::keeping::{KeptAnswer, KeptDatabase, KeptQuery, kept_for};
use crate::language::{civil_of, language_of};
use crate::listing::{PageStart, Paged, page_of};
use crate::question::Question;
use crate::questioning::{Served, Unasked, answer_over, question_over};
use crate::resuming::resumed;
use crate::running::tell;
use crate::seeing::Filled;
use crate::serving::answers;
use lrp_civil::CivilText;
use lrp_io::{Failed, Sink, write_buffered};
use lrp_model::{List, Memory, Tuple};
use lrp_outputs::{Page, Refusal, Status};
use lrp_token::digest;
use lrp_words::{Asked, Command, Paging, Purpose, QuestionFiles, read_words};
use std::alloc::Global;

/// A status, and what is kept after it.
#[derive(Drop)]
pub struct Told {
    pub status: Status,
    pub kept: KeptDatabase,
}

/// A page that is asked for of files.
#[derive(Clone, Copy)]
pub struct PageAsked<'a> {
    pub files: QuestionFiles<'a>,
    pub paging: Paging<'a>,
}

/// A database, and the answers that a page of it is of.
#[derive(Drop)]
pub struct Begun {
    pub file: DatabaseFile,
    pub kept: KeptAnswer,
}

/// The question that words ask for answers, where they ask one.
pub fn question_in(words: &[String]) -> Option<Asked<'_>>
    ensures proper { IfSome result (λ asked. IsProperPurpose asked.purpose) }
    ensures answers { IfSome result (λ asked. IsAnswering asked.purpose) }
    ensures due { IfSome result (MeansDue words.now) }
{
    match read_words(words) {
        Ok(Command::Question { asked }) => for_answers(asked),
        _ => None,
    }
}

/// The question, where it is asked for answers.
fn for_answers(asked: Asked<'_>) -> Option<Asked<'_>>
    ensures same { IfSome result (λ found. found ≡ asked.entry) }
    ensures answers { IfSome result (λ found. IsAnswering found.purpose) }
{
    match asked.purpose {
        Purpose::Plan => None,
        _ => Some(asked),
    }
}

/// Writes what a question over a database that is kept comes to, and keeps the answers of a page.
pub fn ask<S: Sink>(
    alloc: Global,
    asked: &Asked<'_>,
    query: List<u8>,
    kept: KeptDatabase,
    out: &mut S,
) -> Told
    requires proper { IsProperPurpose asked.now.purpose }
    requires answers { IsAnswering asked.now.purpose }
    requires kept { IsDatabaseKept kept }
    requires reads { IsReadFor asked.now kept }
    requires short { length query ≤ most_bytes }
    ensures told { IsToldOf asked.now kept.file.bytes query
        (⟦<S as Filled>⟧.taken out.old out.new) result.status }
    ensures kept { IsDatabaseKept result.kept }
    ensures bytes { result.kept.file.bytes ≡ kept.file.bytes }
{
    match &asked.purpose {
        Purpose::Page { paging } => {
            let page = PageAsked {
                files: asked.files,
                paging: *paging,
            };
            ask_page(alloc, &page, query, kept, out)
        }
        _ => ask_whole(alloc, asked, query, kept, out),
    }
}

/// Writes what a question for all answers over a database that is kept comes to.
fn ask_whole<S: Sink>(
    alloc: Global,
    asked: &Asked<'_>,
    query: List<u8>,
    kept: KeptDatabase,
    out: &mut S,
) -> Told
    requires proper { IsProperPurpose asked.now.purpose }
    requires whole { IsWholePurpose asked.now.purpose }
    requires kept { IsKeptOf (civil_asked asked.now.files) kept.file.bytes kept }
    requires short { length query ≤ most_bytes }
    ensures told { IsToldOf asked.now kept.file.bytes query
        (⟦<S as Filled>⟧.taken out.old out.new) result.status }
    ensures kept { IsKeptOf (civil_asked asked.now.files) kept.file.bytes result.kept }
{
    let KeptDatabase { civil, file, last } = kept;
    let Served { outcome, file } = answer_over(alloc, asked, query, file);
    let status = tell(out, &outcome);
    let kept = KeptDatabase { civil, file, last };
    Told { status, kept }
}

/// Writes a page of a query over a database that is kept: of the answers that are kept, where they are its own.
fn ask_page<S: Sink>(
    alloc: Global,
    page: &PageAsked<'_>,
    query: List<u8>,
    kept: KeptDatabase,
    out: &mut S,
) -> Told
    requires proper { IsProperPurpose (purpose.Page page.now.paging) }
    requires kept { IsKeptOf (civil_asked page.now.files) kept.file.bytes kept }
    requires short { length query ≤ most_bytes }
    ensures told { IsPageTold page.now kept.file.bytes query
        (⟦<S as Filled>⟧.taken out.old out.new) result.status }
    ensures kept { IsKeptOf (civil_asked page.now.files) kept.file.bytes result.kept }
{
    let KeptDatabase {
        civil: _civil,
        file,
        last,
    } = kept;
    match kept_for(last, &page.files, page.paging.cap, query.as_slice()) {
        Some(kept) => next_page(alloc, page, Begun { file, kept }, out),
        None => first_page(alloc, page, query, file, out),
    }
}

/// Writes a page of a query that is new, and keeps its answers.
fn first_page<S: Sink>(
    alloc: Global,
    page: &PageAsked<'_>,
    query: List<u8>,
    file: DatabaseFile,
    out: &mut S,
) -> Told
    requires proper { IsProperPurpose (purpose.Page page.now.paging) }
    requires read { IsFileRead (civil_asked page.now.files) file }
    requires short { length query ≤ most_bytes }
    ensures told { IsPageTold page.now file.bytes query
        (⟦<S as Filled>⟧.taken out.old out.new) result.status }
    ensures kept { IsKeptOf (civil_asked page.now.files) file.bytes result.kept }
{
    match begin(alloc, page, query, file) {
        Ok(begun) => next_page(alloc, page, begun, out),
        Err(unasked) => refuse(unasked, civil_of(&page.files), out),
    }
}

/// Writes why a question was refused, and keeps its database.
fn refuse<S: Sink>(unasked: Unasked, civil: Option<CivilText>, out: &mut S) -> Told
    requires read { IsFileRead civil unasked.file }
    ensures ends { Ends (Err unasked.refusal) (⟦<S as Filled>⟧.taken out.old out.new)
        result.status }
    ensures kept { IsKeptOf civil unasked.file.bytes result.kept }
{
    let Unasked { refusal, file } = unasked;
    let status = tell(out, &Err(refusal));
    Told {
        status,
        kept: KeptDatabase {
            civil,
            file,
            last: None,
        },
    }
}

/// The answers of a query that is new, or the first refusal of it, its plan, the page's token or its cells.
fn begin(
    alloc: Global,
    page: &PageAsked<'_>,
    query: List<u8>,
    file: DatabaseFile,
) -> Result<Begun, Unasked>
    requires read { IsFileRead (civil_asked page.now.files) file }
    requires short { length query ≤ most_bytes }
    ensures begun { IfOk result (IsPageBegun page.now file query) }
    ensures refused { IfErr result (λ unasked.
        IsPageDue page.now file.bytes query (Err unasked.refusal)) }
    ensures file { IfErr result (λ unasked. unasked.file ≡ file) }
{
    match question_over(alloc, &page.files, None, query, file) {
        Ok(question) => answers_for(alloc, page, question),
        Err(unasked) => Err(unasked),
    }
}

/// The answers of a question for a page, or why its token is refused, or the first step with too many cells.
fn answers_for(alloc: Global, page: &PageAsked<'_>, question: Question) -> Result<Begun, Unasked>
    requires ready { IsReady question }
    requires said { IsQuerySaid (language_asked page.now.files) question.database.relations question.query }
    requires planning { question.planning ≡ page.now.files.planning }
    requires planned { IsPlannedAs question.planning Nothing question.database.relations
        (question_of question.query.query) (Ok question.plan) }
    ensures begun { IfOk result (IsPageBegun page.now question.database question.query.bytes) }
    ensures refused { IfErr result (λ unasked. IsPageListed question.planning page.now
        (database_source question.database) (query_source question.query)
        (Err unasked.refusal)) }
    ensures file { IfErr result (λ unasked. unasked.file ≡ question.database) }
{
    let files = digest(
        question.database.bytes.as_slice(),
        question.query.bytes.as_slice(),
    );
    let head = question.query.query.head.columns.as_slice();
    match resumed(alloc, page.paging.after, &files, head) {
        Ok(after) => {
            drop(after);
            answered(alloc, page, question, files)
        }
        Err(refusal) => Err(unasked_of(refusal, question)),
    }
}

/// The answers of a question, or the first step with too many cells.
fn answered(
    alloc: Global,
    page: &PageAsked<'_>,
    question: Question,
    files: [u8; 32],
) -> Result<Begun, Unasked>
    requires ready { IsReady question }
    requires said { IsQuerySaid (language_asked page.now.files) question.database.relations question.query }
    requires planning { question.planning ≡ page.now.files.planning }
    requires planned { IsPlannedAs question.planning Nothing question.database.relations
        (question_of question.query.query) (Ok question.plan) }
    requires digest { files ≡ files_digest question.database.bytes question.query.bytes }
    ensures begun { IfOk result (IsPageBegun page.now question.database question.query.bytes) }
    ensures refused { IfErr result (λ unasked. IsCounted question.planning
        question.database.relations (question_of question.query.query) page.now.paging.cap
        (Err unasked.refusal)) }
    ensures file { IfErr result (λ unasked. unasked.file ≡ question.database) }
{
    match answers(alloc, &question, page.paging.cap) {
        Ok(answer) => {
            let planning = question.planning;
            let (file, query) = question.into_files();
            let query = KeptQuery {
                file: query,
                language: language_of(&page.files),
                planning,
                cap: page.paging.cap,
                files,
            };
            let kept = KeptAnswer {
                query,
                answer,
                paused: None,
            };
            Ok(Begun { file, kept })
        }
        Err(refusal) => Err(unasked_of(refusal, question)),
    }
}

/// A refusal, and the database of the question that it is of.
fn unasked_of(refusal: Refusal, question: Question) -> Unasked
    ensures { result ≡ record { refusal = refusal; file = question.database } }
{
    Unasked {
        refusal,
        file: question.into_database(),
    }
}

/// Writes a page of the answers that are kept, or why its token is refused.
fn next_page<S: Sink>(alloc: Global, page: &PageAsked<'_>, begun: Begun, out: &mut S) -> Told
    requires proper { IsProperPurpose (purpose.Page page.now.paging) }
    requires read { IsFileRead (civil_asked page.now.files) begun.file }
    requires begun { IsPageBegun page.now begun.file begun.kept.query.file.bytes begun }
    ensures told { IsPageTold page.now begun.file.bytes begun.kept.query.file.bytes
        (⟦<S as Filled>⟧.taken out.old out.new) result.status }
    ensures kept { IsKeptOf (civil_asked page.now.files) begun.file.bytes result.kept }
{
    let head = begun.kept.query.file.query.head.columns.as_slice();
    match resumed(alloc, page.paging.after, &begun.kept.query.files, head) {
        Ok(after) => page_from(alloc, page, begun, after.as_ref(), out),
        Err(refusal) => {
            let Begun { file, kept } = begun;
            let status = tell(out, &Err(refusal));
            let last = Some(kept);
            let civil = civil_of(&page.files);
            let kept = KeptDatabase { civil, file, last };
            Told { status, kept }
        }
    }
}

/// Writes the page of the answers that are kept after a tuple, where there is one.
fn page_from<S: Sink>(
    alloc: Global,
    page: &PageAsked<'_>,
    begun: Begun,
    after: Option<&Tuple>,
    out: &mut S,
) -> Told
    requires proper { IsProperPurpose (purpose.Page page.now.paging) }
    requires read { IsFileRead (civil_asked page.now.files) begun.file }
    requires kept { IsAnswerKept begun.file begun.kept }
    requires after { IfSome after (λ t. HasShapeOf
        (shape_of begun.kept.query.file.query.head.columns) t.now) }
    ensures told { IsEndedBy (λ outcome. IsOutput (TellsPage begun.file.relations
        (question_of begun.kept.query.file.query) page.now.paging.from page.now.paging.to
        (option_map (λ t. listed_tuple begun.kept.query.file.query.head.columns t.now)
        after.entry) page.now.paging.limit page.now.paging.civil page.now.paging.json
        begun.kept.query.files) outcome) (⟦<S as Filled>⟧.taken out.old out.new)
        result.status }
    ensures kept { IsKeptOf (civil_asked page.now.files) begun.file.bytes result.kept }
{
    let Begun { file, kept } = begun;
    let KeptAnswer {
        query,
        answer,
        paused,
    } = kept;
    let civil = civil_of(&page.files);
    let start = PageStart { after, paused };
    match page_of(alloc, answer, &page.paging, start, query.files) {
        Ok(made) => {
            let Paged {
                page: listed,
                paused,
            } = made;
            let status = tell_page(out, &listed);
            let Page { answer, .. } = listed;
            let last = Some(KeptAnswer {
                query,
                answer,
                paused,
            });
            let kept = KeptDatabase { civil, file, last };
            Told { status, kept }
        }
        Err(Memory { .. }) => {
            let status = tell(out, &Err(Refusal::Memory));
            let last = None;
            let kept = KeptDatabase { civil, file, last };
            Told { status, kept }
        }
    }
}

/// Writes a page, and gives the status that it ends with.
fn tell_page<S: Sink>(out: &mut S, page: &Page) -> Status
    ensures { Ends (Ok (page_text page.now)) (⟦<S as Filled>⟧.taken out.old out.new) result }
{
    match write_buffered(out, page) {
        Ok(()) => Status::Done,
        Err(Failed) => Status::Write,
    }
}
