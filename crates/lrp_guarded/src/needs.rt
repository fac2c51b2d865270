// What an `and` needs no more, and the tests that bring a variable.
ghost use Rattle.std.specs.Prelude.{◌≡◌, ℕ, ◌&&◌, List as ListOf, filter, not, map, flat_map, IfOk, OnOk};
ghost use Rattle.std.specs.Str.{bytes_eq};
ghost use Rattle.lrp_core.specs.FreeVariables.{variable_of, with_variables};
ghost use Rattle.lrp_core.specs.declared.core_forms.Core.{Core as CoreForm};
ghost use Rattle.lrp_model.specs.RawTerms.{said_term};
ghost use Rattle.lrp_model.specs.Rows.{columns_in, relation_named};
ghost use Rattle.lrp_model.specs.Sorts.{same_sort};
ghost use Rattle.lrp_plan_laws.specs.Projections.{PlanGround as Ground};
ghost use Rattle.lrp_plan_laws.specs.GuardedConjunctions.{Standing as StandingOf, stands_alone as alone, any_value as passing_all, variables_left};
ghost use Rattle.lrp_plan.specs.Taking.{HaveSame};
ghost use Rattle.lrp_guarded.specs.Needs.{sort_element, is_alone_at, is_named_term};
ghost use Rattle.lrp_guarded.specs.Choices.{part_variables};
ghost use Rattle.lrp_guarded.specs.Standing.{AreElementsLeft as AreLeft};

use crate::elements::{Elements, Part, RankedAtom, RankedSort};
use crate::lists::add_tests;
use lrp_core::{Variable, add_variables};
use lrp_model::{Column, Copies, DataTerm, List, Memory, Op, RawTerm, RawTermKind, Test, TimeTerm};
use lrp_plan::sources::Sources;
use std::alloc::Global;

/// The sort elements but for those that an atom makes needless, since its texts are texts of the sort.
pub(crate) fn still_needed<'a>(
    sources: &Sources<'_>,
    atom: RankedAtom<'_>,
    sorts: Vec<RankedSort<'a>>,
) -> Result<Vec<RankedSort<'a>>, Memory>
    ensures { IfOk result (λ made. made.items ≡ filter (λ e. not (alone (sort_element e)
        (columns_in (relation_named sources.now.database.now atom.entry.relation.now)) (map said_term atom.entry.terms.now)))
        sorts.entry.items) }
{
    match sources.database.relation(atom.relation) {
        Some(relation) => needed(
            sources.alloc,
            relation.columns.as_slice(),
            atom.terms.as_slice(),
            sorts,
        ),
        None => Ok(sorts),
    }
}

// Those whose variable stands alone in no column of their sort.
fn needed<'a>(
    alloc: Global,
    columns: &[Column],
    terms: &[RawTerm],
    sorts: Vec<RankedSort<'a>>,
) -> Result<Vec<RankedSort<'a>>, Memory>
    ensures { IfOk result (λ made. made.items
        ≡ filter (λ e. not (alone (sort_element e) columns.now (map said_term terms.now))) sorts.entry.items) }
{
    let mut left = Vec::new(alloc);
    for sort in sorts {
        if !stands_alone(sort, columns, terms) {
            left.push(sort)?;
        }
    }
    Ok(left)
}

// Whether the variable of a sort element stands alone in a column of its sort.
fn stands_alone(element: RankedSort<'_>, columns: &[Column], terms: &[RawTerm]) -> bool
    ensures { result ≡ alone (sort_element element.entry) columns.now (map said_term terms.now) }
{
    for i in 0..terms.len() {
        if i >= columns.len() {
            return false;
        }
        if is_alone(element, &columns[i], &terms[i]) {
            return true;
        }
    }
    false
}

// Whether the term is the variable of a sort element, and the column has its sort.
fn is_alone(element: RankedSort<'_>, column: &Column, term: &RawTerm) -> bool
    ensures { result ≡ is_alone_at (sort_element element.entry) column.now (said_term term.now) }
{
    match &term.kind {
        RawTermKind::Var { name } => name == element.name && column.sort.is_same(element.sort),
        _ => false,
    }
}

/// `v = v`, which each value of the variable passes.
pub(crate) fn any_value(alloc: Global, variable: &Variable) -> Result<Test, Memory>
    ensures { IfOk result (λ made. made ≡ passing_all (variable_of variable.now)) }
{
    match variable {
        Variable::Time { name } => Ok(Test::Compare {
            left: TimeTerm::Var {
                name: name.copy(alloc)?,
                plus: 0,
            },
            op: Op::Eq,
            right: TimeTerm::Var {
                name: name.copy(alloc)?,
                plus: 0,
            },
        }),
        Variable::Data { name } => Ok(Test::Equal {
            left: DataTerm::Var {
                name: name.copy(alloc)?,
            },
            right: DataTerm::Var {
                name: name.copy(alloc)?,
            },
        }),
    }
}

impl<'a> Elements<'a> {
    /// The variables of all elements.
    pub(crate) fn variables(&self, alloc: Global) -> Result<List<Variable>, Memory>
        ensures { IfOk result (λ made. (over : Ground) (K : ℕ) (fs : ListOf CoreForm)
            (at : StandingOf) → AreLeft over K fs self.now at
            → HaveSame (map variable_of made) (variables_left at)) }
    {
        let mut all = List::new(alloc);
        add_atoms(alloc, &mut all, self.atoms.as_slice())?;
        add_sorts(alloc, &mut all, self.sorts.as_slice())?;
        add_parts(alloc, &mut all, self.others.as_slice())?;
        add_tests(alloc, &mut all, self.tests.as_slice())?;
        add_parts(alloc, &mut all, self.negations.as_slice())?;
        Ok(all)
    }
}

fn add_atoms(
    alloc: Global,
    all: &mut List<Variable>,
    atoms: &[RankedAtom<'_>],
) -> Result<(), Memory>
    ensures { OnOk result (map variable_of all.new ≡ with_variables (map variable_of all.old)
        (flat_map (λ a. map variable_of a.variables.now) atoms.now)) }
{
    for atom in atoms {
        add_variables(alloc, all, atom.variables.as_slice())?;
    }
    Ok(())
}

fn add_sorts(
    alloc: Global,
    all: &mut List<Variable>,
    sorts: &[RankedSort<'_>],
) -> Result<(), Memory>
    ensures { OnOk result (map variable_of all.new ≡ with_variables (map variable_of all.old)
        (flat_map (λ e. map variable_of e.variables.now) sorts.now)) }
{
    for sort in sorts {
        add_variables(alloc, all, sort.variables.as_slice())?;
    }
    Ok(())
}

fn add_parts(alloc: Global, all: &mut List<Variable>, parts: &[Part<'_>]) -> Result<(), Memory>
    ensures { OnOk result (map variable_of all.new ≡ with_variables (map variable_of all.old)
        (flat_map part_variables parts.now)) }
{
    for part in parts {
        add_variables(alloc, all, part.tree.variables.as_slice())?;
    }
    Ok(())
}
