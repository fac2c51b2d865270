// Formulas in core form, over the names and the terms of a query.
ghost use Rattle.std.specs.Prelude.{◌≡◌, IfOk, OnOk};
ghost use Rattle.lrp_model.specs.Formulas.{joined};
ghost use Rattle.lrp_model.specs.Core.{conjuncts, disjuncts};
ghost use Rattle.lrp_core.specs.Cores.{core_of, cores_of, test_of};

use lrp_model::{List, Memory, Name, Op, RawTerm, RowPoint, Sort, Test};
use std::alloc::Global;

/// A test over the terms of a query.
#[derive(Clone, Copy)]
pub enum TermTest<'a> {
    Compare {
        left: &'a RawTerm,
        op: Op,
        right: &'a RawTerm,
    },
    Member {
        term: &'a RawTerm,
        point: RowPoint,
    },
    Equal {
        left: &'a RawTerm,
        right: &'a RawTerm,
    },
}

impl<'a> TermTest<'a> {
    /// The test with terms of its own.
    pub fn owned(&self, alloc: Global) -> Result<Test, Memory>
        ensures { IfOk result (λ made. made ≡ test_of self.now) }
    {
        match self {
            TermTest::Compare { left, op, right } => Ok(Test::Compare {
                left: left.time(alloc)?,
                op: *op,
                right: right.time(alloc)?,
            }),
            TermTest::Member { term, point } => Ok(Test::Member {
                term: term.time(alloc)?,
                point: *point,
            }),
            TermTest::Equal { left, right } => Ok(Test::Equal {
                left: left.data(alloc)?,
                right: right.data(alloc)?,
            }),
        }
    }
}

/// A formula in core form: no implication, no `forall`, and a `Not` before an atom, an `in`, an equality, an `And` or
/// an `Exists` alone. `Sorted` says that the variable's text is a text of the sort.
pub enum Core<'a> {
    Atom {
        relation: &'a Name,
        terms: &'a List<RawTerm>,
    },
    Check {
        test: TermTest<'a>,
    },
    Sorted {
        sort: &'a Sort,
        name: &'a Name,
    },
    Not {
        of: Box<Core<'a>>,
    },
    And {
        of: Vec<Core<'a>>,
    },
    Or {
        of: Vec<Core<'a>>,
    },
    Exists {
        name: &'a Name,
        sort: &'a Sort,
        of: Box<Core<'a>>,
    },
}

impl<'a> Core<'a> {
    // It as a further element of an `and`.
    pub(crate) fn push_conjunct(self, all: &mut Vec<Core<'a>>) -> Result<(), Memory>
        ensures { OnOk result (cores_of all.new.items
            ≡ joined (cores_of all.old.items) (conjuncts (core_of self.entry))) }
    {
        match self {
            Core::And { mut of } => all.append(&mut of)?,
            f => all.push(f)?,
        }
        Ok(())
    }

    // It as a further element of an `or`.
    pub(crate) fn push_disjunct(self, all: &mut Vec<Core<'a>>) -> Result<(), Memory>
        ensures { OnOk result (cores_of all.new.items
            ≡ joined (cores_of all.old.items) (disjuncts (core_of self.entry))) }
    {
        match self {
            Core::Or { mut of } => all.append(&mut of)?,
            f => all.push(f)?,
        }
        Ok(())
    }
}

// It is let go by one call: a derived drop would be proved anew, case by case, wherever a form goes.
impl<'a> Drop for Core<'a> {
    fn drop(self) {
        match self {
            Core::Atom {
                relation: _relation,
                terms: _terms,
            } => {}
            Core::Check { test: _test } => {}
            Core::Sorted {
                sort: _sort,
                name: _name,
            } => {}
            Core::Not { of: _of } => {}
            Core::And { of: _of } => {}
            Core::Or { of: _of } => {}
            Core::Exists {
                name: _name,
                sort: _sort,
                of: _of,
            } => {}
        }
    }
}
