// What the texts of a file show, each gone through once: the size of what it becomes, the numbers of its atoms, and its first fault.
ghost use Rattle.std.specs.Prelude.{◌≡◌, ◌&&◌, IfOk, IsTrue};
ghost use Rattle.std.specs.List.{AllByRecursion};
ghost use Rattle.lrp_model.specs.Faults.{earliest};
ghost use Rattle.lrp_model.specs.RawQueries.{HasNoOperator, RawFileView, raw_file_of, raw_form_of};
ghost use Rattle.lrp_model.specs.Sorting.{query_faults, query_standing};
ghost use Rattle.lrp_wide.specs.Counts.{AreRowless, file_numbers};
ghost use Rattle.lrp_wide.specs.Inlining.{expanded_file, plain_file};
ghost use Rattle.lrp_wide.specs.Inside.{HasPlainBody};
ghost use Rattle.lrp_wide.specs.Sizes.{IsSizeOf};
ghost use Rattle.lrp_wide.specs.Stars.{NamesNoStar};
ghost use Rattle.lrp_wide.specs.WideSorting.{starred_plain, text_faults};

use crate::checking::text_fault;
use crate::measures::{Size, size_of};
use crate::narrow::is_plain;
use crate::numbering::{Numbers, number_text};
use lrp_model::{List, Memory, QueryFault, RawColumn, RawFile, RawFormula};
use lrp_sorts::{Catalog, Definitions, sooner_of};
use std::alloc::Global;

/// The size of the expanded query, the numbers of the definitions and last of the query as they are written, and the first sort
/// fault of their own texts, where they are without operators; and whether they are known to be.
#[derive(Drop)]
pub struct Survey {
    pub size: Size,
    pub numbers: Vec<Numbers>,
    pub fault: Option<QueryFault>,
    pub is_plain: bool,
}

/// What the texts of a file show. Each is gone through for all of this while it is at hand.
pub fn survey_file(
    alloc: Global,
    definitions: &Definitions<'_>,
    file: &RawFile,
) -> Result<Survey, Memory>
    requires rowless { AreRowless definitions.now (raw_file_of file.now) }
    requires stars { NamesNoStar (raw_file_of file.now) }
    ensures size { IfOk result (λ made. IsSizeOf made.size
        (expanded_file definitions.now.relations (raw_file_of file.now)).body) }
    ensures numbers { IfOk result (λ made. made.numbers.items
        ≡ file_numbers definitions.now.relations (raw_file_of file.now)) }
    ensures query { IfOk result (λ made. IsTrue made.is_plain
        → HasNoOperator (raw_form_of file.now.query.body)) }
    ensures operators { IfOk result (λ made. IsTrue made.is_plain
        → AllByRecursion HasPlainBody file.now.definitions.items) }
    ensures fault { IfOk result (λ made. IsTrue made.is_plain → (written : RawFileView)
        → raw_file_of file.now ≡ plain_file written
        → made.fault ≡ earliest query_standing (text_faults definitions.now.relations written)) }
{
    let mut catalog = Catalog::new(alloc, definitions.database())?;
    let texts = file.definitions.as_slice();
    let mut sizes = Vec::with_capacity(alloc, texts.len())?;
    let mut numbers = Vec::with_capacity(alloc, texts.len().saturating_add(1))?;
    let mut fault = None;
    let mut are_plain = true;
    for i in 0..texts.len() {
        let text = &texts[i];
        let is_plain_text = is_plain(&text.body);
        let size = size_of(definitions, sizes.as_slice(), &text.body);
        let counted = number_text(alloc, definitions, numbers.as_slice(), &text.body)?;
        let own = plain_fault(alloc, &catalog, is_plain_text, &text.columns, &text.body)?;
        fault = sooner_of(fault, own);
        are_plain = all_plain(are_plain, is_plain_text);
        sizes.push(size)?;
        numbers.push(counted)?;
        catalog = catalog.with(&*definitions, i + 1)?;
    }
    let query = &file.query;
    let is_plain_query = is_plain(&query.body);
    let size = size_of(definitions, sizes.as_slice(), &query.body);
    let counted = number_text(alloc, definitions, numbers.as_slice(), &query.body)?;
    let own = plain_fault(alloc, &catalog, is_plain_query, &query.head, &query.body)?;
    let fault = sooner_of(fault, own);
    numbers.push(counted)?;
    Ok(Survey {
        size,
        numbers,
        fault,
        is_plain: all_plain(are_plain, is_plain_query),
    })
}

// Whether texts are without operators, and one more.
fn all_plain(are_plain: bool, is_plain: bool) -> bool
    ensures { result ≡ (are_plain && is_plain) }
{
    are_plain && is_plain
}

// The first sort fault of one text, if it is without operators.
fn plain_fault(
    alloc: Global,
    catalog: &Catalog<'_>,
    is_plain: bool,
    head: &List<RawColumn>,
    body: &RawFormula,
) -> Result<Option<QueryFault>, Memory>
    requires { IsTrue is_plain → HasNoOperator (raw_form_of body.now) }
    ensures { IfOk result (λ fault. IsTrue is_plain → fault
        ≡ earliest query_standing (query_faults catalog.now (starred_plain catalog.now
        (record { head = head.now; body = raw_form_of body.now })))) }
{
    if !is_plain {
        return Ok(None);
    }
    text_fault(alloc, catalog, head, body)
}
