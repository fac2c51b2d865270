// The query that stands for a file within its limits, whose own texts are well-sorted.
ghost use Rattle.std.specs.Prelude.{◌≡◌, ◌≤◌, [], map, IfErr, IfOk, IsTrue, OnOk};
ghost use Rattle.std.specs.List.{AllByRecursion};
ghost use Rattle.lrp_model.specs.Faults.{earliest};
ghost use Rattle.lrp_model.specs.RawQueries.{HasNoOperator, RawFileView, raw_definition_of, raw_file_of, raw_form_of, raw_question_of};
ghost use Rattle.lrp_model.specs.Sorting.{query_faults, query_standing};
ghost use Rattle.lrp_wide.specs.Inlining.{expanded_file, plain_file};
ghost use Rattle.lrp_wide.specs.Inside.{HasPlainBody};
ghost use Rattle.lrp_wide.specs.Limits.{IsSmallFile, most_depth, most_formulas};
ghost use Rattle.lrp_wide.specs.Outcomes.{IsAboveLimit, IsExpandableFile, IsFileRefused, IsRefusedOrMemory, IsWrittenOrMemory};
ghost use Rattle.lrp_wide.specs.Counts.{AreRowless};
ghost use Rattle.lrp_wide.specs.WideSorting.{name_faults, own_faults, defined_relation, starred_plain, text_faults};
ghost use Rattle.lrp_wide.specs.declared.checking.WideRead.{WideRead as WideReadOf};

use crate::chains::chains_of;
use crate::inlining::{Written, expand, starred};
use crate::measures::Size;
use crate::narrow::is_narrow;
use crate::plain::plain;
use crate::surveying::survey_file;
use lrp_database::Database;
use lrp_model::{
    List, Memory, QueryFault, QueryKind, RawColumn, RawDefinition, RawFile, RawFormula, RawQuery,
};
use lrp_sorts::{Catalog, Definitions, fault_where, sooner_of, sort_fault};
use lrp_tense::expansion_leaves_plain_queries;
use std::alloc::Global;
use thiserror::Error;

/// The most formulas that an expanded query may have.
const MOST_FORMULAS: u64 = 1_000_000;

/// How deep its formulas may be.
const MOST_DEPTH: u64 = 400;

/// Why a file gives no query.
#[derive(Clone, Copy, Debug, PartialEq, Eq, Error)]
pub enum WideRead {
    #[error("{fault}")]
    Fault { fault: QueryFault },
    #[error("more than 1000000 formulas")]
    Formulas,
    #[error("deeper than 400 formulas")]
    Depth,
    #[error("memory")]
    Memory,
}

impl From<Memory> for WideRead {
    ghost use Rattle.std.specs.Prelude.{◌≡◌};
    ghost use Rattle.lrp_wide.specs.declared.checking.WideRead.TheVariants.{Memory as memory};

    ghost from_gives = { λ _ e. e ≡ memory };

    fn from(_: Memory) -> Self {
        WideRead::Memory
    }
}

/// The query that stands for a file, if it is within the limits and its own texts are well-sorted. Then the sorts of that query
/// can have but one fault, that a formula is too wide.
///
/// # Errors
///
/// A limit, else the earliest sort fault of its own texts, or want of memory.
pub fn expand_file(alloc: Global, file: RawFile, db: &Database) -> Result<RawQuery, WideRead>
    requires { IsExpandableFile (raw_file_of file) }
    // An answer is the expanded query, and the file is within the limits and has no fault of its own.
    ensures query { IfOk result (λ made. raw_question_of made
        ≡ expanded_file db.now (raw_file_of file)) }
    ensures small { OnOk result (IsSmallFile db.now (raw_file_of file)) }
    ensures sorted { OnOk result (own_faults db.now (raw_file_of file) ≡ []) }
    ensures plain { IfOk result (λ made. HasNoOperator (raw_form_of made.body)) }
    // A refusal is a limit, or the fault.
    ensures refused { IfErr result (IsFileRefused db.now (raw_file_of file)) }
    // Each file is answered, or refused for its one reason.
    ensures every_file { IsSmallFile db.now (raw_file_of file) → own_faults db.now (raw_file_of file) ≡ []
        → IsWrittenOrMemory (expanded_file db.now (raw_file_of file)) result }
    ensures every_refusal { (read : WideReadOf) → IsFileRefused db.now (raw_file_of file) read
        → IsRefusedOrMemory read result }
{
    answer(alloc, file, db)
}

// The same, and why.
fn answer(alloc: Global, file: RawFile, db: &Database) -> Result<RawQuery, WideRead>
    requires { IsExpandableFile (raw_file_of file) }
    ensures query { IfOk result (λ made. raw_question_of made
        ≡ expanded_file db.now (raw_file_of file)) }
    ensures small { OnOk result (IsSmallFile db.now (raw_file_of file)) }
    ensures sorted { OnOk result (own_faults db.now (raw_file_of file) ≡ []) }
    ensures refused { IfErr result (IsFileRefused db.now (raw_file_of file)) }
{
    let (definitions, defined) = definitions_of(alloc, db, file.definitions.as_slice())?;
    let found = survey_file(alloc, &definitions, &file)?;
    limited(found.size)?;
    let (plain, own) = plain_checked(alloc, &definitions, file, found.is_plain, found.fault)?;
    if let Some(fault) = sooner_of(defined, own) {
        return Err(WideRead::Fault { fault });
    }
    let (texts, query) = plain.into_parts();
    let bodies = texts.as_slice();
    let chains = chains_of(alloc, &definitions, bodies)?;
    let written = Written {
        definitions: &definitions,
        plain: bodies,
        numbers: found.numbers.as_slice(),
        chains: chains.as_slice(),
    };
    Ok(expand(alloc, written, query)?)
}

// The file without operators, and the first sort fault of its own texts, which is known of one that has none.
fn plain_checked(
    alloc: Global,
    definitions: &Definitions<'_>,
    file: RawFile,
    is_plain: bool,
    known: Option<QueryFault>,
) -> Result<(RawFile, Option<QueryFault>), Memory>
    requires expandable { IsExpandableFile (raw_file_of file) }
    requires rowless { AreRowless definitions.now (raw_file_of file) }
    requires query { IsTrue is_plain → HasNoOperator (raw_form_of file.query.body) }
    requires operators { IsTrue is_plain → AllByRecursion HasPlainBody file.definitions.items }
    requires known { IsTrue is_plain → (written : RawFileView)
        → raw_file_of file ≡ plain_file written
        → known ≡ earliest query_standing (text_faults definitions.now.relations written) }
    ensures tree { IfOk result (λ made. raw_file_of made.0 ≡ plain_file (raw_file_of file)) }
    ensures query { IfOk result (λ made. HasNoOperator (raw_form_of made.0.query.body)) }
    ensures definitions { IfOk result (λ made. AllByRecursion HasPlainBody
        made.0.definitions.items) }
    ensures fault { IfOk result (λ made. made.1
        ≡ earliest query_standing (text_faults definitions.now.relations (raw_file_of file))) }
{
    if is_plain {
        expansion_leaves_plain_queries();
        return Ok((file, known));
    }
    let plain = plain(alloc, file)?;
    let own = own_fault(alloc, definitions, &plain)?;
    Ok((plain, own))
}

// A size that is above a limit is refused.
fn limited(size: Size) -> Result<(), WideRead>
    ensures small { OnOk result ((size.formulas ≤ most_formulas) × (size.depth ≤ most_depth)) }
    ensures large { IfErr result (IsAboveLimit size) }
{
    if size.formulas > MOST_FORMULAS {
        return Err(WideRead::Formulas);
    }
    if size.depth > MOST_DEPTH {
        return Err(WideRead::Depth);
    }
    Ok(())
}

// Definitions beside a database, and the first one whose name isn't new.
fn definitions_of<'a>(
    alloc: Global,
    db: &'a Database,
    written: &[RawDefinition],
) -> Result<(Definitions<'a>, Option<QueryFault>), Memory>
    ensures definitions { IfOk result (λ made. made.0 ≡ record {
      relations = db.now;
      definitions = map defined_relation (map raw_definition_of written.now);
    }) }
    ensures fault { IfOk result (λ made. made.1
        ≡ earliest query_standing (name_faults db.now (map raw_definition_of written.now))) }
{
    let mut definitions = Definitions::with_room(alloc, db, written.len())?;
    let mut fault = None;
    for definition in written {
        let columns = definition.columns.as_slice();
        let (more, is_new) = definitions.with(alloc, &definition.name, columns)?;
        definitions = more;
        let own = fault_where(!is_new, QueryKind::Defined, definition.place);
        fault = sooner_of(fault, own);
    }
    Ok((definitions, fault))
}

// The first sort fault of a file's own texts: of each definition beside those before it, and of the query beside all.
fn own_fault(
    alloc: Global,
    definitions: &Definitions<'_>,
    file: &RawFile,
) -> Result<Option<QueryFault>, Memory>
    requires rowless { AreRowless definitions.now (raw_file_of file.now) }
    requires query { HasNoOperator (raw_form_of file.now.query.body) }
    requires operators { AllByRecursion HasPlainBody file.now.definitions.items }
    ensures { IfOk result (λ fault. (written : RawFileView)
        → raw_file_of file.now ≡ plain_file written
        → fault ≡ earliest query_standing (text_faults definitions.now.relations written)) }
{
    let mut catalog = Catalog::new(alloc, definitions.database())?;
    let mut fault = None;
    let texts = file.definitions.as_slice();
    for i in 0..texts.len() {
        let text = &texts[i];
        let own = text_fault(alloc, &catalog, &text.columns, &text.body)?;
        fault = sooner_of(fault, own);
        catalog = catalog.with(&*definitions, i + 1)?;
    }
    let own = text_fault(alloc, &catalog, &file.query.head, &file.query.body)?;
    Ok(sooner_of(fault, own))
}

/// The first sort fault of one text, in which each `*` is written out and uses of definitions stay atoms.
pub fn text_fault(
    alloc: Global,
    catalog: &Catalog<'_>,
    head: &List<RawColumn>,
    body: &RawFormula,
) -> Result<Option<QueryFault>, Memory>
    requires { HasNoOperator (raw_form_of body.now) }
    ensures { IfOk result (λ fault. fault ≡ earliest query_standing (query_faults catalog.now
        (starred_plain catalog.now (record { head = head.now; body = raw_form_of body.now })))) }
{
    if is_narrow(body) {
        return sort_fault(alloc, catalog, head.as_slice(), body);
    }
    let starred = starred(alloc, catalog, head, body)?;
    sort_fault(alloc, catalog, starred.head.as_slice(), &starred.body)
}
