// The headings of a database's relations, as readers of rows want them.
ghost use Rattle.std.specs.Prelude.{◌≡◌, IfOk};
ghost use Rattle.std.specs.List.{AllByRecursion};
ghost use Rattle.std.specs.Option.{option_copied};
ghost use Rattle.lrp_model.specs.Rows.{relation_named};
ghost use Rattle.lrp_model.specs.Kept.{IsKept};
ghost use Rattle.lrp_edits.specs.EditMeaning.{written_column, written_columns};
ghost use Rattle.lrp_edits.specs.EditGathered.{IsHeadingOf, AreHeadings, IsHeadingIn};

use lrp_database::Database;
use lrp_model::{Column, Copies, List, Memory, Name, Place, RawColumn, Relation};
use lrp_rel::Heading;
use std::alloc::Global;

// A column as a text may write it.
fn raw_column(alloc: Global, column: &Column) -> Result<RawColumn, Memory>
    ensures { IfOk result (λ made. made ≡ written_column column.now) }
{
    let place = Place { line: 1, column: 1 };
    Ok(RawColumn {
        name: column.name.copy(alloc)?,
        place,
        sort: column.sort.copy(alloc)?,
        sort_place: place,
    })
}

// Columns as a text may write them.
fn raw_columns(alloc: Global, columns: &[Column]) -> Result<List<RawColumn>, Memory>
    ensures { IfOk result (λ made. made ≡ written_columns columns.now) }
{
    let mut made = List::new(alloc);
    for column in columns {
        let raw = raw_column(alloc, column)?;
        made.push(raw)?;
    }
    Ok(made)
}

// The heading of a relation.
fn heading_of(alloc: Global, relation: &Relation) -> Result<Heading, Memory>
    requires { IsKept relation.now }
    ensures { IfOk result (IsHeadingOf relation.now) }
{
    let columns = raw_columns(alloc, relation.columns.as_slice())?;
    Heading::of(alloc, columns)
}

// The headings of relations, in order.
pub fn headings_of(alloc: Global, relations: &[Relation]) -> Result<List<Heading>, Memory>
    requires { AllByRecursion IsKept relations.now }
    ensures { IfOk result (AreHeadings relations.now) }
{
    let mut made = List::new(alloc);
    for relation in relations {
        let heading = heading_of(alloc, relation)?;
        made.push(heading)?;
    }
    Ok(made)
}

// The heading of the relation of this name, if there is one.
pub fn heading_named<'a>(
    database: &Database,
    headings: &'a List<Heading>,
    name: &Name,
) -> Option<&'a Heading>
    requires { AreHeadings database.now headings.now }
    ensures { IsHeadingIn (relation_named database.now name.now) (option_copied result) }
{
    match database.index_of(name) {
        Some(i) => Some(headings.at(i)),
        None => None,
    }
}
