// Databases after edits.
ghost use Rattle.std.specs.Prelude.{◌≡◌, ◌∷◌, ◌++◌, ◌<◌, [], IfNone, IfOk, IfSome, OnOk, length};
ghost use Rattle.lrp_edits.specs.EditMeaning.{IsEditOf};
ghost use Rattle.lrp_keep.specs.Keeps.{HasNoEqual};
ghost use Rattle.lrp_keep.specs.Replaced.{replaced, with_rows};
ghost use Rattle.lrp_model.specs.Kept.{AreKept};
ghost use Rattle.lrp_watch.specs.Changes.{IsFirstEqualAt, IsWithoutPlace};
ghost use Rattle.lrp_watch.specs.Edited.{IsEdited};

use lrp_database::Database;
use lrp_edits::Edit;
use lrp_kept::are_equal;
use lrp_model::{Copies, List, Memory, Name, Relation, Row};
use std::alloc::Global;

/// The database that an edit makes of another one.
pub(crate) fn edited(alloc: Global, database: &Database, edit: &Edit) -> Result<Database, Memory>
    requires { IsEditOf database.now edit.now }
    ensures { IfOk result (IsEdited edit.now database.now) }
{
    database.relations();
    let rows = match database.relation(&edit.relation) {
        Some(relation) => relation.rows.as_slice(),
        None => unreachable!(),
    };
    if edit.add {
        let rows = with_row(alloc, rows, &edit.row)?;
        return changed(alloc, database, &edit.relation, rows.as_slice());
    }
    match place_of(rows, &edit.row) {
        Some(place) => {
            let rows = without(alloc, rows, place)?;
            changed(alloc, database, &edit.relation, rows.as_slice())
        }
        None => database.copy(alloc),
    }
}

// The rows, and one more after them.
fn with_row(alloc: Global, rows: &[Row], row: &Row) -> Result<Vec<Row>, Memory>
    ensures { IfOk result (λ made. made.items ≡ rows.now ++ row.now ∷ []) }
{
    let mut all = Vec::new(alloc);
    add_rows(alloc, &mut all, rows)?;
    all.push(row.copy(alloc)?)?;
    Ok(all)
}

// Puts the same rows after others.
fn add_rows(alloc: Global, all: &mut Vec<Row>, rows: &[Row]) -> Result<(), Memory>
    ensures { OnOk result (all.new.items ≡ all.old.items ++ rows.now) }
{
    for row in rows {
        all.push(row.copy(alloc)?)?;
    }
    Ok(())
}

// The place of the first row that is equal to this one, if there is one.
fn place_of(rows: &[Row], row: &Row) -> Option<usize>
    ensures none { IfNone result (HasNoEqual row.now rows.now) }
    ensures some { IfSome result (IsFirstEqualAt row.now rows.now) }
{
    for i in 0..rows.len() {
        if are_equal(&rows[i], row) {
            return Some(i);
        }
    }
    None
}

// The rows without the one at a place.
fn without(alloc: Global, rows: &[Row], place: usize) -> Result<Vec<Row>, Memory>
    requires { place < length rows.now }
    ensures { IfOk result (λ made. IsWithoutPlace place rows.now made.items) }
{
    let mut left = Vec::new(alloc);
    add_rows(alloc, &mut left, &rows[..place])?;
    add_rows(alloc, &mut left, &rows[place + 1..])?;
    Ok(left)
}

// The database in which the relation of this name has these rows.
fn changed(
    alloc: Global,
    database: &Database,
    name: &Name,
    rows: &[Row],
) -> Result<Database, Memory>
    requires kept { AreKept (replaced database.now name.now rows.now) }
    ensures { IfOk result (λ made. made ≡ replaced database.now name.now rows.now) }
{
    let relations = all_with_rows(alloc, database.as_slice(), name, rows)?;
    Database::of(alloc, List::from_vec(relations))
}

fn all_with_rows(
    alloc: Global,
    relations: &[Relation],
    name: &Name,
    rows: &[Row],
) -> Result<Vec<Relation>, Memory>
    ensures { IfOk result (λ made. made.items ≡ replaced relations.now name.now rows.now) }
{
    let mut all = Vec::new(alloc);
    for relation in relations {
        all.push(relation_with_rows(alloc, relation, name, rows)?)?;
    }
    Ok(all)
}

// The relation, with these rows where it has this name.
fn relation_with_rows(
    alloc: Global,
    relation: &Relation,
    name: &Name,
    rows: &[Row],
) -> Result<Relation, Memory>
    ensures { IfOk result (λ made. made ≡ with_rows rows.now name.now relation.now) }
{
    if relation.name != *name {
        return relation.copy(alloc);
    }
    Ok(Relation {
        name: relation.name.copy(alloc)?,
        columns: relation.columns.copy(alloc)?,
        rows: copied(alloc, rows)?,
    })
}

fn copied(alloc: Global, rows: &[Row]) -> Result<List<Row>, Memory>
    ensures { IfOk result (λ made. made ≡ rows.now) }
{
    let mut all = Vec::new(alloc);
    add_rows(alloc, &mut all, rows)?;
    Ok(List::from_vec(all))
}
