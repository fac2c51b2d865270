// What the planner reads of a database and a query: facts of relations, and the texts of sorts.
ghost use Rattle.std.specs.Prelude.{◌≡◌, length, IfOk};
ghost use Rattle.lrp_model.specs.Rows.{rows_of};
ghost use Rattle.lrp_model.specs.Satisfaction.{Structure};
ghost use Rattle.lrp_limits.specs.Facts.{AreFacts};
ghost use Rattle.lrp_plan.specs.Sources.{AreSources};

use crate::domains::{Domains, list_of, ordered};
use lrp_database::Database;
use lrp_limits::facts::{Facts, facts_of};
use lrp_model::{DataText, List, Memory, Name, Sort};
use std::alloc::Global;
use std::collections::HashMap;

/// Where memory comes from, the database, facts of its relations by their names, the texts of the query, each with its sort,
/// and the texts of both by their sorts.
pub struct Sources<'a> {
    pub alloc: Global,
    pub database: &'a Database,
    pub facts: HashMap<Name, Facts>,
    pub texts: Vec<(Sort, DataText)>,
    pub domains: Domains,
}

// They are let go by one call, which is proved once.
impl<'a> Drop for Sources<'a> {
    fn drop(self) {
        let Sources {
            alloc: _alloc,
            database: _database,
            facts: _facts,
            texts: _texts,
            domains: _domains,
        } = self;
    }
}

impl Sources<'_> {
    /// The facts of the relation of a name; no rows where there is none.
    pub fn facts(&self, name: &Name) -> Facts
        ensures { (M : Structure) → AreSources M self.now
            → AreFacts (rows_of M.relations name.now) result }
    {
        match self.facts.get(name) {
            Some(facts) => *facts,
            None => facts_of(&[]),
        }
    }

    /// The texts of a sort, each once, in order of bytes.
    pub fn texts(&self, sort: &Sort) -> Result<List<DataText>, Memory>
        ensures { IfOk result (λ made. (M : Structure) → AreSources M self.now
            → made ≡ M.domain sort.now) }
    {
        match self.domains.of(sort) {
            Some(texts) => list_of(self.alloc, texts),
            None => ordered(self.alloc, self.database.texts_of(sort)),
        }
    }

    /// How many texts a sort has.
    pub fn count(&self, sort: &Sort) -> u64
        ensures { (M : Structure) → AreSources M self.now → result ≡ length (M.domain sort.now) }
    {
        match self.domains.of(sort) {
            Some(texts) => texts.len() as u64,
            None => self.database.texts_of(sort).len() as u64,
        }
    }
}
