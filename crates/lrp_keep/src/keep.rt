// Kept answers.
ghost use Rattle.std.specs.Prelude.{◌≡◌, IfOk, IfErr, OnErr, OnOk, false, true};
ghost use Rattle.lrp_model.specs.Formulas.{question_of};
ghost use Rattle.lrp_model.specs.Rows.{rows_of};
ghost use Rattle.lrp_keep.specs.Keeps.{CanBeAdded, CanBeKept, HasNoEqual, IsKeptAnswer, IsKeptLeast, IsWithout, opened, with_added, IsPastLimit, StaysWithinLimits};

use crate::faults::KeepFault;
use crate::kept_query::KeptQuery;
use crate::states::State;
use lrp_answers::Answer;
use lrp_database::Database;
use lrp_kept::HeldRows;
use lrp_model::{Domain, Memory, Name, Query, Row, Spot};
use std::alloc::Global;
use std::marker::Model;

/// The answers of a query, kept while rows are added to its database and removed from it.
///
/// What is derived from some rows, one for each atom of a disjunct, is held for these rows, and is let go with the first of
/// them that is removed. An added row is put at each atom that reads its relation, beside the parts that earlier rows made
/// of the atoms before, so that an edit costs what it changes (Charles Forgy, "Rete: a fast algorithm for the many
/// pattern/many object pattern match problem", Artificial Intelligence 19, 1982). Where the period grows, all is derived
/// again.
pub struct Keep<'a> {
    of: KeptQuery<'a>,
    state: State,
}

// A derived drop would be proved anew, type by type, in each crate that lets one go.
impl<'a> Drop for Keep<'a> {
    fn drop(self) {
        let Keep {
            of: _of,
            state: _state,
        } = self;
    }
}

impl<'a> Model for Keep<'a> {
    ghost use Rattle.lrp_keep.specs.Keeps.{KeepView};

    ghost Value = { KeepView };

    ghost use Rattle.lrp_model.specs.contracts.raw.RawFormula as formulas;
    ghost use Rattle.std.specs.Coded.{codes};

    ghost coded = { Prim.hlevel (codes, formulas.the_row.coded) };

    ghost use Rattle.lrp_keep.specs.States.{IsKeeper, keeper_view};

    ghost view = { λ k. keeper_view k.of k.state };

    ghost invariant = { λ k. IsKeeper k.of k.state };
}

impl<'a> Keep<'a> {
    /// Keeps the answers of a query in kept form over a database.
    ///
    /// # Errors
    ///
    /// The first limit that is passed: of the least common multiple of the periods, of the kept reach, and of the cells that
    /// some rows of the first atoms of a disjunct inhabit together.
    pub fn open(
        alloc: Global,
        query: &'a Query,
        database: &Database,
        domain: &Domain,
        cap: u32,
    ) -> Result<Keep<'a>, KeepFault>
        requires { CanBeKept (question_of query.now) database.now domain.now }
        ensures view { IfOk result (λ made. made ≡ opened query.now database.now domain.now cap) }
        ensures limits { OnOk result (StaysWithinLimits
            (opened query.now database.now domain.now cap)) }
        ensures fault { IfErr result (IsPastLimit (opened query.now database.now domain.now cap)) }
    {
        domain.len();
        let rows = HeldRows::of(alloc, database)?;
        let of = KeptQuery::of(alloc, query, domain, cap, &rows)?;
        let state = State::of(&of, database, rows)?;
        Ok(Keep { of, state })
    }

    /// Adds a row to a relation.
    ///
    /// # Errors
    ///
    /// As [`Keep::open`], with the row; then nothing is changed.
    pub fn add(&mut self, relation: &Name, row: &Row) -> Result<(), KeepFault>
        requires { CanBeAdded self.old relation.now row.now }
        ensures view { OnOk result (self.new ≡ with_added self.old relation.now row.now) }
        ensures limits { OnOk result (StaysWithinLimits
            (with_added self.old relation.now row.now)) }
        ensures fault { IfErr result (IsPastLimit (with_added self.old relation.now row.now)) }
        ensures same { OnErr result (self.new ≡ self.old) }
    {
        match self.state.rows.relation(relation) {
            Some(relation) => self.state.add(&self.of, relation, row),
            None => unreachable!(),
        }
    }

    /// Removes the first row of a relation that is equal to this one. Whether there is one.
    pub fn remove(&mut self, relation: &Name, row: &Row) -> bool
        ensures taken { result ≡ true → IsWithout relation.now row.now self.old self.new }
        ensures none { result ≡ false → HasNoEqual row.now
            (rows_of self.old.relations relation.now) }
        ensures same { result ≡ false → self.new ≡ self.old }
    {
        match self.state.rows.relation(relation) {
            Some(relation) => self.state.remove(relation, row),
            None => false,
        }
    }

    /// The least answer of the query over the rows that are now held, if there is one: one look, however many there are.
    pub fn least(&self) -> Option<Spot>
        ensures { IsKeptLeast self.now result }
    {
        self.state.first()
    }

    /// The answers of the query over the rows that are now held.
    pub fn answer(&self) -> Result<Answer, Memory>
        ensures { IfOk result (IsKeptAnswer self.now) }
    {
        self.state.answer(&self.of)
    }
}
