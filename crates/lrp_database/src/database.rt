// Databases: relations by their names, and the texts of their rows by their sorts.
ghost use Rattle.std.specs.Prelude.{◌≡◌, ◌<◌, [], Some, length, map, position, slice_get, IfOk, IfSome, true};
ghost use Rattle.std.specs.Option.{option_copied, is_some};
ghost use Rattle.std.specs.List.{list_any};
ghost use Rattle.std.specs.Str.{bytes_eq};
ghost use Rattle.indexmap.specs.IndexSet.{keys};
ghost use Rattle.lrp_model.specs.Rows.{relation_named};
ghost use Rattle.lrp_model.specs.Domains.{database_texts};
ghost use Rattle.lrp_model.specs.Sorts.{is_time};
ghost use Rattle.lrp_model.specs.Kept.{AreKept, IsKept};
ghost use Rattle.lrp_database.specs.Once.{once, texts_among, texts_with};
ghost use Rattle.lrp_model.specs.Texts.{AreDistinct};

use crate::texts::TextLists;
use indexmap::IndexSet;
use lrp_model::{Copies, DataText, List, Memory, Name, Relation, Sort};
use std::alloc::Global;
use std::marker::Model;

/// The relations of a database, in order. Each is what the text of a database can say: names are names, those of relations
/// differ and so do those of the columns of each, a row has a value for each column, periods are from 1 to 2^62, and bounds
/// have a magnitude of at most 2^62.
#[derive(Drop)]
pub struct Database {
    relations: List<Relation>,
    names: IndexSet<Name>,
    texts: TextLists,
}

impl Model for Database {
    ghost use Rattle.std.specs.Prelude.{List, ◌≡◌, []};
    ghost use Rattle.indexmap.specs.IndexSet.{keys};
    ghost use Rattle.lrp_model.specs.declared.relations.Relation.{Relation as RelationOf};
    ghost use Rattle.lrp_database.specs.Stored.{IsDatabaseStored};

    ghost Value = { List RelationOf };

    ghost view = { λ d. d.relations };

    ghost invariant = { λ d. IsDatabaseStored d.relations (keys d.names) d.texts };
}

// The names of relations, in order.
fn names_of(alloc: Global, relations: &[Relation]) -> Result<IndexSet<Name>, Memory>
    requires { AreDistinct (map (λ r. r.name) relations.now) }
    ensures { IfOk result (λ made. keys made ≡ map (λ r. r.name) relations.now) }
{
    let mut names = IndexSet::new(alloc);
    for relation in relations {
        names.insert(relation.name.copy(alloc)?)?;
    }
    Ok(names)
}

impl Database {
    /// The database of kept relations.
    pub fn of(alloc: Global, relations: List<Relation>) -> Result<Database, Memory>
        requires kept { AreKept relations }
        ensures { IfOk result (λ made. made ≡ relations) }
    {
        let names = names_of(alloc, relations.as_slice())?;
        let texts = TextLists::of(alloc, relations.as_slice())?;
        Ok(Database {
            relations,
            names,
            texts,
        })
    }

    /// The relations, in order of the text.
    pub fn as_slice(&self) -> &[Relation]
        ensures same { result.now ≡ self.now }
        ensures kept { AreKept result.now }
    {
        self.relations.as_slice()
    }

    /// An equal database.
    pub fn copy(&self, alloc: Global) -> Result<Database, Memory>
        ensures { IfOk result (λ made. made ≡ self.now) }
    {
        Database::of(alloc, self.relations.copy(alloc)?)
    }

    /// The index of the relation of this name, from 0, in order of the text, if there is one.
    pub fn index_of(&self, name: &Name) -> Option<usize>
        ensures index { result ≡ position (bytes_eq name.now) (map (λ r. r.name) self.now) }
        ensures found { is_some result ≡ list_any (bytes_eq name.now) (map (λ r. r.name) self.now) }
    {
        self.names.get_index_of(name)
    }

    /// The relation of this name, if there is one.
    pub fn relation(&self, name: &Name) -> Option<&Relation>
        ensures named { option_copied result ≡ relation_named self.now name.now }
        ensures kept { IfSome result (λ found. IsKept found.now) }
    {
        match self.names.get_index_of(name) {
            Some(i) => Some(self.relations.at(i)),
            None => None,
        }
    }

    /// How many relations there are. Names of relations differ, and each relation is what the text of a database can say.
    pub fn relations(&self) -> usize
        ensures len { result ≡ length self.now }
        ensures kept { AreKept self.now }
    {
        self.relations.len()
    }

    /// The relation at an index, from 0, in order of the text.
    pub fn at(&self, i: usize) -> &Relation
        requires { i < length self.now }
        ensures value { slice_get self.now i ≡ Some result.now }
        ensures kept { IsKept result.now }
    {
        self.relations.at(i)
    }

    /// The texts in the rows of all relations, each once, in order of first sight.
    pub fn constants(&self) -> &List<DataText>
        ensures { result.now ≡ once (texts_among (database_texts self.now)) }
    {
        &self.texts.all
    }

    /// The texts in columns of this data sort, each once, in order of first sight. There are none of `time`, and of a sort of
    /// which there is no column.
    pub fn texts_of(&self, sort: &Sort) -> &List<DataText>
        ensures texts { result.now ≡ once (texts_with sort.now (database_texts self.now)) }
        ensures time { is_time sort.now ≡ true → result.now ≡ [] }
    {
        match sort {
            Sort::Time => &self.texts.none,
            Sort::Data => &self.texts.unnamed,
            Sort::Named { name } => self.texts.of_name(name),
        }
    }
}
