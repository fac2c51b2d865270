// The relations, the definitions and the named sorts of a database, looked up by their names.
ghost use Rattle.std.specs.Prelude.{◌≡◌, ◌<◌, ◌≤◌, ◌-◌, ◌||◌, ◌++◌, IfOk, OnOk, length, option_map, take};
ghost use Rattle.std.specs.List.{list_any};
ghost use Rattle.lrp_model.specs.Sorts.{same_sort};
ghost use Rattle.lrp_model.specs.Faults.{earliest};
ghost use Rattle.lrp_model.specs.Rows.{relation_named};
ghost use Rattle.lrp_model.specs.Sorting.{query_standing, has_sort, sort_faults};
ghost use Rattle.lrp_model.specs.declared.relations.Sort.TheVariants.{Named};
ghost use Rattle.lrp_model.specs.Texts.{Identifier};
ghost use Rattle.lrp_sorts.specs.Scopes.{holds};

use crate::definitions::Definitions;
use crate::earliest::fault_where;
use lrp_database::Database;
use lrp_model::{Column, Memory, Name, Place, QueryFault, QueryKind, Relation, Sort};
use std::alloc::Global;
use std::collections::HashSet;
use std::marker::Model;

/// The relations of a database with the names of their named sorts, and beside them the first definitions of some.
pub struct Catalog<'a> {
    db: &'a Database,
    beside: Option<First<'a>>,
    sorts: HashSet<&'a [u8]>,
}

// This many of the first definitions.
#[derive(Clone, Copy)]
struct First<'a> {
    definitions: &'a Definitions<'a>,
    count: usize,
}

// It is let go by one call, which is proved once.
impl<'a> Drop for Catalog<'a> {
    fn drop(self) {
        let Catalog {
            db: _db,
            beside: _beside,
            sorts: _sorts,
        } = self;
    }
}

impl<'a> Model for Catalog<'a> {
    ghost use Rattle.std.specs.Prelude.{◌++◌, List};
    ghost use Rattle.lrp_model.specs.declared.relations.Relation.{Relation};
    ghost use Rattle.lrp_sorts.specs.Catalogs.{IsCatalog, first_definitions};

    ghost Value = { List Relation };

    ghost view = { λ a. a.db.now ++ first_definitions a.beside };

    ghost invariant = { λ a. IsCatalog a.db.now a.beside a.sorts };
}

impl<'a> Catalog<'a> {
    /// The catalog of a database.
    pub fn new(alloc: Global, db: &'a Database) -> Result<Self, Memory>
        ensures { IfOk result (λ made. made ≡ db.now) }
    {
        let sorts = named_sorts(alloc, db)?;
        Ok(Catalog {
            db,
            beside: None,
            sorts,
        })
    }

    /// The catalog of a database and this many of the first definitions, from that without the last of these. They are looked up
    /// where they stand.
    pub fn with(self, definitions: &'a Definitions<'a>, count: usize) -> Result<Self, Memory>
        requires some { 0 < count }
        requires there { count ≤ length definitions.now.definitions }
        requires before { self
            ≡ definitions.now.relations ++ take (count - 1) definitions.now.definitions }
        ensures { IfOk result (λ made. made
            ≡ definitions.now.relations ++ take count definitions.now.definitions) }
    {
        let Catalog {
            db: _db,
            beside: _beside,
            sorts,
        } = self;
        let mut sorts = sorts;
        add_sorts(&mut sorts, definitions.at(count - 1).columns.as_slice())?;
        let first = First { definitions, count };
        Ok(Catalog {
            db: definitions.database(),
            beside: Some(first),
            sorts,
        })
    }

    /// The relation of a name.
    pub fn relation(&self, name: &Name) -> Option<&Relation>
        ensures { option_map (λ r. r.now) result ≡ relation_named self.now name.now }
    {
        if let Some(first) = self.beside {
            if let Some(number) = first.definitions.number(name, first.count) {
                return Some(first.definitions.at(number));
            }
        }
        self.db.relation(name)
    }

    /// The fault of a named sort that no column has.
    pub fn sort_fault(&self, sort: &Sort, place: Place) -> Option<QueryFault>
        ensures { result ≡ earliest query_standing (sort_faults self.now sort.now place) }
    {
        match sort {
            Sort::Time | Sort::Data => None,
            Sort::Named { name } => {
                let known = self.sorts.contains(name.as_bytes());
                fault_where(!known, QueryKind::UnknownSort, place)
            }
        }
    }
}

// The names of the named sorts that columns of the database have.
fn named_sorts<'a>(alloc: Global, db: &'a Database) -> Result<HashSet<&'a [u8]>, Memory>
    ensures { IfOk result (λ made. (n : Identifier) → holds made n ≡ has_sort db.now (Named n)) }
{
    let mut sorts = HashSet::new(alloc);
    for i in 0..db.relations() {
        add_sorts(&mut sorts, db.at(i).columns.as_slice())?;
    }
    Ok(sorts)
}

fn add_sorts<'a>(sorts: &mut HashSet<&'a [u8]>, columns: &'a [Column]) -> Result<(), Memory>
    ensures { OnOk result ((n : Identifier)
        → holds sorts.new n ≡ (holds sorts.old n || list_any
        (λ c. same_sort c.sort (Named n)) columns.now)) }
{
    for column in columns {
        add_sort(sorts, &column.sort)?;
    }
    Ok(())
}

fn add_sort<'a>(sorts: &mut HashSet<&'a [u8]>, sort: &'a Sort) -> Result<(), Memory>
    ensures { OnOk result ((n : Identifier)
        → holds sorts.new n ≡ (holds sorts.old n || same_sort sort.now (Named n))) }
{
    if let Sort::Named { name } = sort {
        sorts.insert(name.as_bytes())?;
    }
    Ok(())
}
