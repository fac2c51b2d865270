// Edits of a database, and what a reader keeps of them: what they mean and the first of their faults.
ghost use Rattle.std.specs.Prelude.{◌≡◌, ◌∷◌, [], None, List as ListOf, IfOk, OnOk};
ghost use Rattle.lrp_model.specs.DatabaseFaults.{database_fault, row_faults};
ghost use Rattle.lrp_model.specs.declared.relations.Relation.{Relation as RelationOf};
ghost use Rattle.lrp_rel.specs.Gathered.{IsHeading};
ghost use Rattle.lrp_edits.specs.declared.edits.Edit.{Edit as EditOf};
ghost use Rattle.lrp_edits.specs.EditTexts.{FitsEdit};
ghost use Rattle.lrp_edits.specs.EditMeaning.{edit_with, edit_of, edit_faults};
ghost use Rattle.lrp_edits.specs.EditGathered.{AreEditsOf, AreHeadings, TakesEdit};

use crate::headings::heading_named;
use lrp_database::Database;
use lrp_model::{Copies, DbFault, DbKind, List, Located, Memory, Name, Place, RawRow, Row};
use lrp_rel::{Heading, meant_row, row_fault, sooner_of};
use std::alloc::Global;

/// A change of a relation: a row that is added, or one that is taken out.
#[derive(Drop)]
pub struct Edit {
    pub add: bool,
    pub relation: Name,
    pub row: Row,
}

impl Copies for Edit {
    fn copy(&self, alloc: Global) -> Result<Self, Memory> {
        Ok(Edit {
            add: self.add,
            relation: self.relation.copy(alloc)?,
            row: self.row.copy(alloc)?,
        })
    }
}

/// An edit as it is written; the place of its row is that of the parenthesis.
#[derive(Drop)]
pub struct RawEdit {
    pub add: bool,
    pub relation: Located<Name>,
    pub row: Located<RawRow>,
}

// The edits that are meant, and the first fault of the written ones.
#[derive(Drop)]
pub struct Edits {
    pub list: List<Edit>,
    pub fault: Option<DbFault>,
}

// What an edit of a relation with this heading means.
fn meant_edit(alloc: Global, heading: &Heading, edit: RawEdit) -> Result<Edit, Memory>
    requires heading { IsHeading heading.now }
    requires sound { heading.now.fault ≡ None }
    requires fits { FitsEdit edit }
    requires right { row_faults heading.now.columns edit.row ≡ [] }
    ensures { IfOk result (λ made. made ≡ edit_with heading.now.columns edit) }
{
    let row = meant_row(alloc, &heading.times, edit.row.item)?;
    Ok(Edit {
        add: edit.add,
        relation: edit.relation.item,
        row,
    })
}

impl Edits {
    // No edits.
    pub fn new(alloc: Global) -> Edits
        ensures { (db : ListOf RelationOf) → AreEditsOf db [] result }
    {
        Edits {
            list: List::new(alloc),
            fault: None,
        }
    }

    // One edit more, of a relation with this heading. What it means is kept as long as there is no fault.
    fn keep_known(&mut self, alloc: Global, heading: &Heading, edit: RawEdit) -> Result<(), Memory>
        requires heading { IsHeading heading.now }
        requires sound { heading.now.fault ≡ None }
        requires fits { FitsEdit edit }
        ensures { OnOk result (TakesEdit (row_faults heading.now.columns edit.row)
            (edit_with heading.now.columns edit) self.old self.new) }
    {
        let found = row_fault(heading.columns.as_slice(), &heading.times, &edit.row);
        self.fault = sooner_of(self.fault, found);
        match self.fault {
            Some(_) => Ok(()),
            None => {
                let meant = meant_edit(alloc, heading, edit)?;
                self.list.push(meant)?;
                Ok(())
            }
        }
    }

    // One edit more, of no relation, whose name stands here.
    fn keep_unknown(&mut self, place: Place)
        ensures { (meaning : EditOf) → TakesEdit
            (database_fault DbKind.UnknownRelation place ∷ []) meaning self.old self.new }
    {
        let kind = DbKind::UnknownRelation;
        self.fault = sooner_of(self.fault, Some(DbFault { kind, place }));
    }

    // One edit of the database more.
    pub fn keep(
        &mut self,
        alloc: Global,
        database: &Database,
        headings: &List<Heading>,
        edit: RawEdit,
    ) -> Result<(), Memory>
        requires headings { AreHeadings database.now headings.now }
        requires fits { FitsEdit edit }
        ensures { OnOk result (TakesEdit (edit_faults database.now edit)
            (edit_of database.now edit) self.old self.new) }
    {
        match heading_named(database, headings, &edit.relation.item) {
            Some(heading) => self.keep_known(alloc, heading, edit),
            None => {
                self.keep_unknown(edit.relation.place);
                Ok(())
            }
        }
    }
}
