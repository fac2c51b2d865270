// What the bytes of files say: a database, a well-sorted query over it, and edits of it.
ghost use Rattle.std.specs.Prelude.{◌≡◌, ◌≤◌, false, true, IfErr, IfOk, List as ListOf, ℕ, length};
ghost use Rattle.std.specs.List.{AllByRecursion};
ghost use Rattle.lrp_edits.specs.EditMeaning.{IsEditOf};
ghost use Rattle.lrp_model.specs.DatabaseReading.{IsDatabase};
ghost use Rattle.lrp_model.specs.Checked.{plain_question};
ghost use Rattle.lrp_model.specs.RawQueries.{HasNoOperator, RawQuestion, raw_form_of, raw_question_of};
ghost use Rattle.lrp_model.specs.Sorting.{IsWellSorted};
ghost use Rattle.lrp_model.specs.declared.relations.Relation.{Relation as RelationOf};
ghost use Rattle.lrp_model.specs.Outcomes.{IsQueryOrMemory};
ghost use Rattle.lrp_rel.specs.Reading.{IsReadOrMemory, IsRefusedBy};
ghost use Rattle.lrp_tense.specs.Lawful.{IsLawfulExpansion};
ghost use Rattle.lrp_top.specs.Due.{IsDatabaseReadOf, IsQueryReadOf};
ghost use Rattle.lrp_top.specs.Languages.{usual_language};
ghost use Rattle.lrp_top.specs.Questions.{IsDatabaseOrMemory, IsFit, IsQueriedOrMemory, IsRawOrMemory, IsSaidBy, IsSaidIn, IsUnreadAs, IsUnreadIn, asked_as, read_as, refused_as, unread_refusal};
ghost use Rattle.lrp_top.specs.Seen.{ShelfSeen};
ghost use Rattle.lrp_top.specs.Watched.{AreEditsReadOf};
ghost use Rattle.lrp_top.specs.Written.{IsWideSaid, plain_by};
ghost use Rattle.lrp_top.specs.declared.language.QueryLanguage.TheVariants.{Wide};
ghost use Rattle.lrp_model.specs.Limits.{most_bytes};

use crate::files::{DatabaseFile, QueryFile};
use crate::language::QueryLanguage;
use lrp_answer_text::heads_are_columns;
use lrp_civil::{CivilText, plain_text_of};
use lrp_database::Database;
use lrp_edits::{Edit, read_edits};
use lrp_model::{List, Memory, QueryRead, RawQuery};
use lrp_outputs::{Refusal, WatchRefusal};
use lrp_plan::kept_queries_have_periods;
use lrp_plan_laws::sorted_queries_are_settled;
use lrp_query::{read_file, read_query};
use lrp_rel::{ReadFault, read_database};
use lrp_sorts::check;
use lrp_tense::{expand, read_tense};
use lrp_wide::{
    WideRead, expand_file, expanded_files_are_lawful, expansion_keeps_answers,
    files_can_be_expanded,
};
use std::alloc::Global;

/// The database of a file's bytes.
pub fn database_in(
    alloc: Global,
    bytes: List<u8>,
    civil: Option<CivilText>,
) -> Result<DatabaseFile, Refusal>
    requires { length bytes ≤ most_bytes }
    ensures read { (seen : ShelfSeen) (name : ListOf ℕ)
        → IsDatabaseReadOf civil seen name bytes (read_as result) }
    ensures every { (db : ListOf RelationOf) → IsDatabase (plain_by civil bytes) db
        → IsDatabaseOrMemory db result }
{
    match relations_of(alloc, bytes.as_slice(), civil) {
        Ok(relations) => Ok(DatabaseFile { bytes, relations }),
        Err(ReadFault::Fault { fault }) => Err(Refusal::Database(fault)),
        Err(ReadFault::Memory) => Err(Refusal::Memory),
    }
}

/// The relations of a text, or of its plain text where times are civil ones.
pub fn relations_of(
    alloc: Global,
    bytes: &[u8],
    civil: Option<CivilText>,
) -> Result<Database, ReadFault>
    requires { length bytes.now ≤ most_bytes }
    ensures read { IfOk result (IsDatabase (plain_by civil bytes.now)) }
    ensures refused { IfErr result (IsRefusedBy (plain_by civil bytes.now)) }
    ensures every { (db : ListOf RelationOf) → IsDatabase (plain_by civil bytes.now) db
        → IsReadOrMemory db result }
{
    let Some(civil) = civil else {
        return read_database(alloc, bytes);
    };
    match plain_text_of(alloc, bytes, civil) {
        Ok(plain) => read_database(alloc, plain.as_slice()),
        Err(Memory { .. }) => Err(ReadFault::Memory),
    }
}

/// The well-sorted query of a file's bytes, over a database.
pub fn query_in(
    alloc: Global,
    database: &Database,
    bytes: List<u8>,
    language: QueryLanguage,
) -> Result<QueryFile, Refusal>
    requires { length bytes ≤ most_bytes }
    ensures asked { (seen : ShelfSeen) (name : ListOf ℕ)
        → IsQueryReadOf language database.now seen name bytes (asked_as result) }
    ensures fit { IfOk result (λ file. IsFit database.now file) }
    ensures every { (raw : RawQuestion) → IsSaidIn language database.now bytes raw
        → IsWellSorted database.now raw → IsQueriedOrMemory (plain_question raw) result }
{
    let raw = raw_in(alloc, database, bytes.as_slice(), language)?;
    let query = check(alloc, raw, database)?;
    database.relations();
    heads_are_columns();
    kept_queries_have_periods();
    sorted_queries_are_settled();
    expansion_keeps_answers();
    Ok(QueryFile { bytes, query })
}

/// The query of a text in a language with its places, in which all that first-order logic hasn't is written out.
fn raw_in(
    alloc: Global,
    database: &Database,
    bytes: &[u8],
    language: QueryLanguage,
) -> Result<RawQuery, Refusal>
    requires { length bytes.now ≤ most_bytes }
    ensures said { IfOk result (λ raw. IsSaidIn language database.now bytes.now
        (raw_question_of raw)) }
    ensures lawful { IfOk result (λ raw. IsWellSorted database.now (raw_question_of raw)
        → IsLawfulExpansion (raw_question_of raw)) }
    ensures plain { IfOk result (λ raw. HasNoOperator (raw_form_of raw.body)) }
    ensures refused { IfErr result (IsUnreadIn language database.now bytes.now) }
    ensures every { (raw : RawQuestion) → IsSaidIn language database.now bytes.now raw
        → IsRawOrMemory raw result }
{
    match language {
        QueryLanguage::FirstOrder => usual_query(alloc, bytes, false),
        QueryLanguage::Temporal => usual_query(alloc, bytes, true),
        QueryLanguage::Wide { civil: false } => wide_query(alloc, database, bytes),
        QueryLanguage::Wide { civil: true } => civil_query(alloc, database, bytes),
    }
}

/// The query of a text of first-order logic, or with temporal operators.
fn usual_query(alloc: Global, bytes: &[u8], tense: bool) -> Result<RawQuery, Refusal>
    requires { length bytes.now ≤ most_bytes }
    ensures said { IfOk result (λ raw. IsSaidBy tense bytes.now (raw_question_of raw)) }
    ensures lawful { IfOk result (λ raw. IsLawfulExpansion (raw_question_of raw)) }
    ensures plain { IfOk result (λ raw. HasNoOperator (raw_form_of raw.body)) }
    ensures refused { (db : ListOf RelationOf)
        → IfErr result (IsUnreadIn (usual_language tense) db bytes.now) }
    ensures every { (raw : RawQuestion) → IsSaidBy tense bytes.now raw
        → IsRawOrMemory raw result }
{
    match raw_of(alloc, bytes, tense) {
        Ok(raw) => Ok(raw),
        Err(read) => Err(unread(read)),
    }
}

/// Why a text is refused.
fn unread(read: QueryRead) -> Refusal
    ensures { result ≡ unread_refusal read }
{
    match read {
        QueryRead::Fault { fault } => Refusal::Query(fault),
        QueryRead::Memory => Refusal::Memory,
    }
}

/// The query of a text in the wide language with civil values, which its plain text says.
fn civil_query(alloc: Global, database: &Database, bytes: &[u8]) -> Result<RawQuery, Refusal>
    requires { length bytes.now ≤ most_bytes }
    ensures said { IfOk result (λ raw. IsWideSaid true database.now bytes.now
        (raw_question_of raw)) }
    ensures lawful { IfOk result (λ raw. IsWellSorted database.now (raw_question_of raw)
        → IsLawfulExpansion (raw_question_of raw)) }
    ensures plain { IfOk result (λ raw. HasNoOperator (raw_form_of raw.body)) }
    ensures refused { IfErr result (IsUnreadIn (Wide true) database.now bytes.now) }
    ensures every { (raw : RawQuestion) → IsWideSaid true database.now bytes.now raw
        → IsRawOrMemory raw result }
{
    let plain = match plain_text_of(alloc, bytes, CivilText::WideQuery) {
        Ok(plain) => plain,
        Err(Memory { .. }) => return Err(Refusal::Memory),
    };
    match wide_query(alloc, database, plain.as_slice()) {
        Ok(raw) => Ok(raw),
        Err(refusal) => Err(refusal),
    }
}

/// The same of a text in the wide language, without civil values.
fn wide_query(alloc: Global, database: &Database, bytes: &[u8]) -> Result<RawQuery, Refusal>
    requires { length bytes.now ≤ most_bytes }
    ensures said { IfOk result (λ raw. IsWideSaid false database.now bytes.now
        (raw_question_of raw)) }
    ensures lawful { IfOk result (λ raw. IsWellSorted database.now (raw_question_of raw)
        → IsLawfulExpansion (raw_question_of raw)) }
    ensures plain { IfOk result (λ raw. HasNoOperator (raw_form_of raw.body)) }
    ensures refused { IfErr result (IsUnreadIn (Wide false) database.now bytes.now) }
    ensures every { (raw : RawQuestion) → IsWideSaid false database.now bytes.now raw
        → IsRawOrMemory raw result }
{
    let file = read_file(alloc, bytes)?;
    database.relations();
    files_can_be_expanded();
    expanded_files_are_lawful();
    match expand_file(alloc, file, database) {
        Ok(raw) => Ok(raw),
        Err(read) => Err(refusal(read)),
    }
}

/// Why a file of the wide language is refused.
fn refusal(read: WideRead) -> Refusal
    ensures { result ≡ refused_as read }
{
    match read {
        WideRead::Fault { fault } => Refusal::Query(fault),
        WideRead::Formulas => Refusal::Formulas,
        WideRead::Depth => Refusal::Depth,
        WideRead::Memory => Refusal::Memory,
    }
}

/// The query of a text with its places, in which temporal operators are written out.
pub fn raw_of(alloc: Global, bytes: &[u8], tense: bool) -> Result<RawQuery, QueryRead>
    requires { length bytes.now ≤ most_bytes }
    ensures said { IfOk result (λ raw. IsSaidBy tense bytes.now (raw_question_of raw)) }
    ensures lawful { IfOk result (λ raw. IsLawfulExpansion (raw_question_of raw)) }
    ensures plain { IfOk result (λ raw. HasNoOperator (raw_form_of raw.body)) }
    ensures refused { IfErr result (IsUnreadAs tense bytes.now) }
    ensures every { (raw : RawQuestion) → IsSaidBy tense bytes.now raw
        → IsQueryOrMemory raw_question_of raw result }
{
    if !tense {
        return read_query(alloc, bytes);
    }
    let written = read_tense(alloc, bytes)?;
    let expanded = expand(alloc, &written);
    drop(written);
    match expanded {
        Ok(raw) => Ok(raw),
        Err(Memory { .. }) => Err(QueryRead::Memory),
    }
}

/// The edits of a file's bytes, over a database.
pub fn edits_in(alloc: Global, database: &Database, bytes: &[u8]) -> Result<List<Edit>, Refusal>
    requires { length bytes.now ≤ most_bytes }
    ensures read { (seen : ShelfSeen) (name : ListOf ℕ)
        → AreEditsReadOf database.now seen name bytes.now result }
    ensures lawful { IfOk result (AllByRecursion (IsEditOf database.now)) }
{
    match read_edits(alloc, bytes, database) {
        Ok(edits) => Ok(edits),
        Err(ReadFault::Fault { fault }) => Err(Refusal::Watch(WatchRefusal::Edits(fault))),
        Err(ReadFault::Memory) => Err(Refusal::Memory),
    }
}
