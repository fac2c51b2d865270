// The constants of a database, a query and edits.
ghost use Rattle.std.specs.Prelude.{◌≡◌, ◌++◌, IfOk, OnOk, flat_map, map};
ghost use Rattle.lrp_model.specs.Formulas.{question_of};
ghost use Rattle.lrp_watch.specs.Watching.{row_texts_of, watched_constants, texts_of_value};

use lrp_core::query_texts;
use lrp_database::Database;
use lrp_edits::Edit;
use lrp_model::{Copies, DataText, Domain, List, Memory, Query, Sort, Value, numbered};
use std::alloc::Global;

/// The constants of a database, a query and edits; memory is refused at 2^32 of them.
pub fn constants_of(
    alloc: Global,
    database: &Database,
    query: &Query,
    edits: &[Edit],
) -> Result<Domain, Memory>
    ensures { IfOk result (λ made. made ≡ watched_constants database.now
        (question_of query.now) edits.now) }
{
    let mut texts = database.constants().copy(alloc)?.into_vec();
    let of_query = query_texts(alloc, query, database)?;
    add_sorted(alloc, &mut texts, &of_query)?;
    add_edits(alloc, &mut texts, edits)?;
    numbered(texts.len())?;
    Domain::new(List::from_vec(texts))
}

// Texts with their sorts, whatever these are.
fn add_sorted(
    alloc: Global,
    all: &mut Vec<DataText>,
    texts: &[(Sort, DataText)],
) -> Result<(), Memory>
    ensures { OnOk result (all.new.items ≡ all.old.items ++ map (λ entry. entry.1) texts.now) }
{
    for entry in texts {
        all.push(entry.1.copy(alloc)?)?;
    }
    Ok(())
}

// Those in the rows of edits.
fn add_edits(alloc: Global, all: &mut Vec<DataText>, edits: &[Edit]) -> Result<(), Memory>
    ensures { OnOk result (all.new.items ≡ all.old.items ++ flat_map row_texts_of edits.now) }
{
    for edit in edits {
        add_values(alloc, all, edit.row.values.as_slice())?;
    }
    Ok(())
}

// Those among values.
fn add_values(alloc: Global, all: &mut Vec<DataText>, values: &[Value]) -> Result<(), Memory>
    ensures { OnOk result (all.new.items ≡ all.old.items ++ flat_map texts_of_value values.now) }
{
    for value in values {
        add_value(alloc, all, value)?;
    }
    Ok(())
}

fn add_value(alloc: Global, all: &mut Vec<DataText>, value: &Value) -> Result<(), Memory>
    ensures { OnOk result (all.new.items ≡ all.old.items ++ texts_of_value value.now) }
{
    match value {
        Value::Point { .. } => Ok(()),
        Value::Const { text } => {
            all.push(text.copy(alloc)?)?;
            Ok(())
        }
    }
}
