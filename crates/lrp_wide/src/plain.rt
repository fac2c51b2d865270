// Files without operators: those of each text are written out by themselves.
ghost use Rattle.std.specs.Prelude.{◌≡◌, IfOk, IsTrue};
ghost use Rattle.std.specs.List.{AllByRecursion};
ghost use Rattle.lrp_model.specs.RawQueries.{HasNoOperator, raw_definition_of, raw_file_of, raw_form_of, raw_question_of};
ghost use Rattle.lrp_tense.specs.Expanding.{IsExpandable, expanded_question};
ghost use Rattle.lrp_wide.specs.Inlining.{plain_definition, plain_file};
ghost use Rattle.lrp_wide.specs.Outcomes.{IsExpandableDefinition, IsExpandableFile};
ghost use Rattle.lrp_wide.specs.Inside.{HasPlainBody};

use crate::narrow::is_plain;
use lrp_model::{Memory, RawDefinition, RawFile, RawQuery};
use lrp_tense::{expand, expansion_leaves_plain_queries};
use std::alloc::Global;

// The definition without operators.
fn without_operators(alloc: Global, definition: RawDefinition) -> Result<RawDefinition, Memory>
    requires { IsExpandableDefinition (raw_definition_of definition) }
    ensures tree { IfOk result (λ made. raw_definition_of made
        ≡ plain_definition (raw_definition_of definition)) }
    ensures operators { IfOk result (λ made. HasPlainBody made) }
{
    if is_plain(&definition.body) {
        expansion_leaves_plain_queries();
        return Ok(definition);
    }
    let (name, place, query) = definition.into_query();
    let plain = expand(alloc, &query)?;
    let (columns, body) = plain.into_parts();
    Ok(RawDefinition {
        name,
        place,
        columns,
        body,
    })
}

// The query without operators.
fn query_without_operators(alloc: Global, query: RawQuery) -> Result<RawQuery, Memory>
    requires { IsExpandable (raw_question_of query) }
    ensures tree { IfOk result (λ made. raw_question_of made
        ≡ expanded_question (raw_question_of query)) }
    ensures operators { IfOk result (λ made. HasNoOperator (raw_form_of made.body)) }
{
    if is_plain(&query.body) {
        expansion_leaves_plain_queries();
        return Ok(query);
    }
    expand(alloc, &query)
}

/// The file without operators.
pub fn plain(alloc: Global, file: RawFile) -> Result<RawFile, Memory>
    requires { IsExpandableFile (raw_file_of file) }
    ensures tree { IfOk result (λ made. raw_file_of made ≡ plain_file (raw_file_of file)) }
    ensures query { IfOk result (λ made. HasNoOperator (raw_form_of made.query.body)) }
    ensures definitions { IfOk result (λ made. AllByRecursion HasPlainBody
        made.definitions.items) }
{
    let (written, query) = file.into_parts();
    let mut definitions = Vec::with_capacity(alloc, written.len())?;
    for definition in written {
        definitions.push(without_operators(alloc, definition)?)?;
    }
    let query = query_without_operators(alloc, query)?;
    Ok(RawFile { definitions, query })
}
