// What a reader keeps of the relations that it reads: what they mean and their first faults, so that no written row outlives its line.
ghost use Rattle.std.specs.Prelude.{◌≡◌, ◌∷◌, ◌++◌, [], List as ListOf, IfOk, OnOk};
ghost use Rattle.lrp_model.specs.Databases.{FitsRow};
ghost use Rattle.lrp_model.specs.Faults.{earliest};
ghost use Rattle.lrp_model.specs.DatabaseFaults.{database_standing, database_faults};
ghost use Rattle.lrp_model.specs.declared.written.Located.{Located as LocatedOf};
ghost use Rattle.lrp_model.specs.declared.written.RawRow.{RawRow as RawRowOf};
ghost use Rattle.lrp_model.specs.declared.written.RawRelation.{RawRelation as Tree};
ghost use Rattle.lrp_rel.specs.Gathered.{IsHeading, IsBodyOf, IsMeaningOf, AreRelationsGathered};

use crate::faults::{ninth_column, repeated_column, repeated_name, row_fault, sooner_of, times_of};
use crate::meaning::{meant_columns, meant_row};
use indexmap::IndexSet;
use lrp_model::{DbFault, List, Located, Memory, Name, Place, RawColumn, RawRow, Relation, Row};
use std::alloc::Global;

/// The columns of a relation, the names of its time columns, and the first fault of the columns.
#[derive(Drop)]
pub struct Heading {
    pub columns: List<RawColumn>,
    pub times: IndexSet<Name>,
    pub fault: Option<DbFault>,
}

// The rows that are meant, and the first fault of the written ones.
#[derive(Drop)]
pub struct Body {
    pub rows: List<Row>,
    pub fault: Option<DbFault>,
}

// The relation that is meant, the place of its name, and the first fault of the written one.
#[derive(Drop)]
pub struct Meaning {
    pub place: Place,
    pub relation: Relation,
    pub fault: Option<DbFault>,
}

// The relations that are meant, and their names; the first name that stands twice, and the first fault within a relation.
#[derive(Drop)]
pub struct Gathered {
    pub relations: List<Relation>,
    pub names: IndexSet<Name>,
    pub repeated: Option<DbFault>,
    pub within: Option<DbFault>,
}

impl Heading {
    /// The heading that columns are.
    pub fn of(alloc: Global, columns: List<RawColumn>) -> Result<Heading, Memory>
        ensures heading { IfOk result IsHeading }
        ensures columns { IfOk result (λ made. made.columns ≡ columns) }
    {
        let written = columns.as_slice();
        let times = times_of(alloc, written)?;
        let names = repeated_column(alloc, written)?;
        let fault = sooner_of(names, ninth_column(written));
        Ok(Heading {
            columns,
            times,
            fault,
        })
    }
}

impl Body {
    // No rows.
    pub fn new(alloc: Global) -> Body
        ensures { (heading : Heading) → IsBodyOf heading [] result }
    {
        Body {
            rows: List::new(alloc),
            fault: None,
        }
    }

    // One row more. What it means is kept as long as there is no fault.
    pub fn keep(
        &mut self,
        alloc: Global,
        heading: &Heading,
        row: Located<RawRow>,
    ) -> Result<(), Memory>
        requires heading { IsHeading heading.now }
        requires fits { FitsRow row.item }
        ensures { OnOk result ((rows : ListOf (LocatedOf RawRowOf))
            → IsBodyOf heading.now rows self.old
            → IsBodyOf heading.now (rows ++ row ∷ []) self.new) }
    {
        let found = row_fault(heading.columns.as_slice(), &heading.times, &row);
        self.fault = sooner_of(self.fault, found);
        match sooner_of(heading.fault, self.fault) {
            Some(_) => Ok(()),
            None => {
                self.rows.push(meant_row(alloc, &heading.times, row.item)?)?;
                Ok(())
            }
        }
    }
}

impl Meaning {
    // The relation of this name, heading and body.
    pub fn of(
        alloc: Global,
        name: Located<Name>,
        heading: Heading,
        body: Body,
    ) -> Result<Meaning, Memory>
        requires { IsHeading heading }
        ensures { IfOk result (λ made. (rows : ListOf (LocatedOf RawRowOf))
            → IsBodyOf heading rows body → IsMeaningOf
            (record { name = name; columns = heading.columns; rows = rows }) made) }
    {
        let fault = sooner_of(heading.fault, body.fault);
        let columns = meant_columns(alloc, heading.columns)?;
        Ok(Meaning {
            place: name.place,
            relation: Relation {
                name: name.item,
                columns,
                rows: body.rows,
            },
            fault,
        })
    }
}

impl Gathered {
    // No relations.
    pub fn new(alloc: Global) -> Gathered
        ensures { AreRelationsGathered [] result }
    {
        Gathered {
            relations: List::new(alloc),
            names: IndexSet::new(alloc),
            repeated: None,
            within: None,
        }
    }

    // One relation more.
    pub fn keep(&mut self, alloc: Global, meaning: Meaning) -> Result<(), Memory>
        ensures { OnOk result ((tree : ListOf Tree) (raw : Tree) → IsMeaningOf raw meaning
            → AreRelationsGathered tree self.old
            → AreRelationsGathered (tree ++ raw ∷ []) self.new) }
    {
        let name = &meaning.relation.name;
        let found = repeated_name(alloc, &mut self.names, name, meaning.place)?;
        self.repeated = sooner_of(self.repeated, found);
        self.within = sooner_of(self.within, meaning.fault);
        self.relations.push(meaning.relation)?;
        Ok(())
    }

    // The first fault of all.
    pub fn fault(&self) -> Option<DbFault>
        ensures { (tree : ListOf Tree) → AreRelationsGathered tree self.now
            → result ≡ earliest database_standing (database_faults tree) }
    {
        sooner_of(self.repeated, self.within)
    }
}
