// The disjuncts of a query in kept form, as they are derived.
ghost use Rattle.std.specs.Prelude.{◌≡◌, ◌∷◌, Contains, IfOk, OnOk, Some, [], filter, map, slice_get};
ghost use Rattle.std.specs.List.{AllByRecursion, list_all, list_any};
ghost use Rattle.std.specs.Str.{bytes_eq};
ghost use Rattle.lrp_core.specs.Cores.{core_of, cores_of};
ghost use Rattle.lrp_model.specs.Formulas.{form, no_forms, question_of};
ghost use Rattle.lrp_tables.specs.Columns.{joint, names_of_data, names_of_time, scan_texts, scan_times};
ghost use Rattle.lrp_kept.specs.Choices.{as_list, listed_disjuncts};
ghost use Rattle.lrp_kept.specs.Disjuncts.{AreDisjunctsOf, is_test_covered as is_covered_by};
ghost use Rattle.lrp_kept.specs.Drafts.{AreAdded, AreAllJoined, AreDisjuncts, AreOfRelations, CanBeJoinedUp, IsDisjunctAdded, DraftsDisjunct, IsJoinedAtom, MakesDisjunct, IsOneMore, atom_in};
ghost use Rattle.lrp_kept.specs.Held.{names_of};
ghost use Rattle.lrp_kept.specs.Sizes.{is_reader};

use crate::rows::HeldRows;
use lrp_core::{Core, copy_terms, core_form};
use lrp_model::{Column, Copies, DataTerm, List, Memory, Name, Query, Term, Test, TimeTerm};
use lrp_steps::scan_vars;
use lrp_tables::{Vars, joint, place_of};
use std::alloc::Global;

/// An atom of a disjunct, with the number of its relation.
///
/// The variables are those of the atom and of the atoms before it, in order of their first occurrences, and the tests are
/// all that have no others.
#[derive(Drop)]
pub struct JoinedAtom {
    pub relation: usize,
    pub terms: List<Term>,
    pub vars: Vars,
    pub tests: List<Test>,
}

/// A disjunct: its number from 0 on, its atoms in order, its tests, and the columns of the variables that its quantifiers
/// bind, the innermost first.
pub struct Disjunct {
    pub number: usize,
    pub atoms: Vec<JoinedAtom>,
    pub tests: List<Test>,
    pub bound: List<Column>,
}

// A derived drop would be proved anew, type by type, in each crate that lets one go.
impl Drop for Disjunct {
    fn drop(self) {
        let Disjunct {
            number: _number,
            atoms: _atoms,
            tests: _tests,
            bound: _bound,
        } = self;
    }
}

// The relation that an atom names, and its terms.
#[derive(Drop)]
struct NamedTerms {
    name: Name,
    terms: List<Term>,
}

// What a disjunct is made of.
#[derive(Drop)]
struct DisjunctDraft {
    atoms: Vec<NamedTerms>,
    tests: List<Test>,
    bound: List<Column>,
}

/// The disjuncts of a query in kept form over relations.
pub fn disjuncts_of(alloc: Global, query: &Query, rows: &HeldRows) -> Result<Vec<Disjunct>, Memory>
    requires { AllByRecursion (CanBeJoinedUp (names_of rows.now))
        (listed_disjuncts (question_of query.now)) }
    ensures { IfOk result (λ made. AreDisjunctsOf (names_of rows.now)
        (question_of query.now) made.items) }
{
    let core = core_form(alloc, query, false)?;
    match &core {
        Core::Or { of } => each_disjunct(alloc, of, rows),
        f => one_disjunct(alloc, f, rows),
    }
}

// The disjuncts of formulas.
fn each_disjunct(
    alloc: Global,
    cores: &[Core<'_>],
    rows: &HeldRows,
) -> Result<Vec<Disjunct>, Memory>
    requires { AllByRecursion (CanBeJoinedUp (names_of rows.now)) (as_list (cores_of cores.now)) }
    ensures { IfOk result (λ made. AreDisjuncts (names_of rows.now)
        (as_list (cores_of cores.now)) made.items) }
{
    let mut all = Vec::new(alloc);
    for core in cores {
        push_one(alloc, core, rows, &mut all)?;
    }
    Ok(all)
}

// The one disjunct that a formula is.
fn one_disjunct(alloc: Global, core: &Core<'_>, rows: &HeldRows) -> Result<Vec<Disjunct>, Memory>
    requires { CanBeJoinedUp (names_of rows.now) (core_of core.now) }
    ensures { IfOk result (λ made. AreDisjuncts (names_of rows.now)
        (core_of core.now ∷ []) made.items) }
{
    let mut all = Vec::new(alloc);
    push_one(alloc, core, rows, &mut all)?;
    Ok(all)
}

// Adds the disjunct that a formula is.
fn push_one(
    alloc: Global,
    core: &Core<'_>,
    rows: &HeldRows,
    all: &mut Vec<Disjunct>,
) -> Result<(), Memory>
    requires { CanBeJoinedUp (names_of rows.now) (core_of core.now) }
    ensures { OnOk result (IsOneMore (names_of rows.now)
        (core_of core.now) all.old.items all.new.items) }
{
    let draft = draft_of(alloc, core)?;
    let disjunct = disjunct_of(alloc, draft, all.len(), rows)?;
    all.push(disjunct)?;
    Ok(())
}

// The disjunct of this number.
fn disjunct_of(
    alloc: Global,
    draft: DisjunctDraft,
    number: usize,
    rows: &HeldRows,
) -> Result<Disjunct, Memory>
    requires { AreOfRelations (names_of rows.now) (map atom_in draft.atoms.items) }
    ensures number { IfOk result (λ made. made.number ≡ number) }
    ensures made { IfOk result (MakesDisjunct (names_of rows.now) draft) }
{
    let DisjunctDraft {
        atoms,
        tests,
        bound,
    } = draft;
    let atoms = joined_atoms(alloc, &atoms, &tests, rows)?;
    Ok(Disjunct {
        number,
        atoms,
        tests,
        bound,
    })
}

fn joined_atoms(
    alloc: Global,
    named: &Vec<NamedTerms>,
    tests: &List<Test>,
    rows: &HeldRows,
) -> Result<Vec<JoinedAtom>, Memory>
    requires { AreOfRelations (names_of rows.now) (map atom_in named.now.items) }
    ensures { IfOk result (λ made. AreAllJoined (names_of rows.now)
        (map atom_in named.now.items) tests.now made.items) }
{
    let mut vars = Vars {
        times: List::new(alloc),
        texts: List::new(alloc),
    };
    let mut atoms = Vec::new(alloc);
    for atom in named {
        vars = with_terms(alloc, &vars, &atom.terms)?;
        let joined = joined_atom(alloc, atom, &vars, tests, rows)?;
        atoms.push(joined)?;
    }
    Ok(atoms)
}

// The atom after which there are these variables.
fn joined_atom(
    alloc: Global,
    atom: &NamedTerms,
    vars: &Vars,
    tests: &List<Test>,
    rows: &HeldRows,
) -> Result<JoinedAtom, Memory>
    requires { Contains (names_of rows.now) atom.now.name }
    ensures { IfOk result (IsJoinedAtom (names_of rows.now) (atom_in atom.now) tests.now vars.now) }
{
    let relation = number_of(&atom.name, rows);
    let terms = equal_terms(alloc, atom.terms.as_slice())?;
    let tests = covered(alloc, tests, vars)?;
    let vars = vars.copy(alloc)?;
    Ok(JoinedAtom {
        relation,
        terms,
        vars,
        tests,
    })
}

// An equal list of terms, with no more room than it needs.
fn equal_terms(alloc: Global, terms: &[Term]) -> Result<List<Term>, Memory>
    ensures { IfOk result (λ made. made ≡ terms.now) }
{
    let mut made = Vec::with_capacity(alloc, terms.len())?;
    for term in terms {
        made.push(term.copy(alloc)?)?;
    }
    Ok(List::from_vec(made))
}

// The variables, and those of terms that are further ones.
fn with_terms(alloc: Global, vars: &Vars, terms: &List<Term>) -> Result<Vars, Memory>
    ensures times { IfOk result (λ made. made.times ≡ joint vars.now.times (scan_times terms.now)) }
    ensures texts { IfOk result (λ made. made.texts ≡ joint vars.now.texts (scan_texts terms.now)) }
{
    let own = scan_vars(alloc, terms)?;
    Ok(Vars {
        times: joint(alloc, &vars.times, &own.times)?,
        texts: joint(alloc, &vars.texts, &own.texts)?,
    })
}

// The number of the relation with this name.
fn number_of(name: &Name, rows: &HeldRows) -> usize
    requires { Contains (names_of rows.now) name.now }
    ensures { slice_get (names_of rows.now) result ≡ Some name.now }
{
    match rows.relation(name) {
        Some(number) => number,
        None => unreachable!(),
    }
}

// The atoms, the tests and the bound variables of a disjunct.
fn draft_of(alloc: Global, core: &Core<'_>) -> Result<DisjunctDraft, Memory>
    ensures { IfOk result (DraftsDisjunct (core_of core.now)) }
{
    let mut draft = DisjunctDraft {
        atoms: Vec::new(alloc),
        tests: List::new(alloc),
        bound: List::new(alloc),
    };
    add_core(alloc, core, &mut draft)?;
    Ok(draft)
}

fn add_core(alloc: Global, core: &Core<'_>, draft: &mut DisjunctDraft) -> Result<(), Memory>
    ensures { OnOk result (IsDisjunctAdded (core_of core.now) draft.old draft.new) }
{
    match core {
        Core::Exists { name, sort, of } => {
            add_core(alloc, of, draft)?;
            let name = name.copy(alloc)?;
            let sort = sort.copy(alloc)?;
            draft.bound.push(Column { name, sort })?;
            Ok(())
        }
        Core::And { of } => add_each(alloc, of, draft),
        Core::Atom { .. } => add_element(alloc, core, draft),
        Core::Check { .. } => add_element(alloc, core, draft),
        Core::Sorted { .. } => add_element(alloc, core, draft),
        Core::Not { .. } => add_element(alloc, core, draft),
        Core::Or { .. } => add_element(alloc, core, draft),
    }
}

fn add_each(alloc: Global, cores: &[Core<'_>], draft: &mut DisjunctDraft) -> Result<(), Memory>
    ensures { OnOk result (AreAdded (cores_of cores.now) draft.old draft.new) }
{
    for core in cores {
        add_element(alloc, core, draft)?;
    }
    Ok(())
}

// Adds an atom or a test; nothing else is kept.
fn add_element(alloc: Global, element: &Core<'_>, draft: &mut DisjunctDraft) -> Result<(), Memory>
    ensures { OnOk result (AreAdded (form (core_of element.now) no_forms) draft.old draft.new) }
{
    match element {
        Core::Atom { relation, terms } => {
            let name = relation.copy(alloc)?;
            let terms = copy_terms(alloc, terms.as_slice())?;
            draft.atoms.push(NamedTerms { name, terms })?;
            Ok(())
        }
        Core::Check { test } => {
            let test = test.owned(alloc)?;
            draft.tests.push(test)?;
            Ok(())
        }
        Core::Sorted { .. } => Ok(()),
        Core::Not { .. } => Ok(()),
        Core::And { .. } => Ok(()),
        Core::Or { .. } => Ok(()),
        Core::Exists { .. } => Ok(()),
    }
}

// The tests that have no other variables than these.
fn covered(alloc: Global, tests: &List<Test>, vars: &Vars) -> Result<List<Test>, Memory>
    ensures { IfOk result (λ made. made ≡ filter
        (is_covered_by vars.now.times vars.now.texts) tests.now) }
{
    let mut all = List::new(alloc);
    for test in tests.as_slice() {
        if is_covered(test, vars) {
            all.push(test.copy(alloc)?)?;
        }
    }
    Ok(all)
}

fn is_covered(test: &Test, vars: &Vars) -> bool
    ensures { result ≡ is_covered_by vars.now.times vars.now.texts test.now }
{
    match test {
        Test::Compare { left, right, .. } => has_time(vars, left) && has_time(vars, right),
        Test::Member { term, .. } => has_time(vars, term),
        Test::Equal { left, right } => has_text(vars, left) && has_text(vars, right),
    }
}

fn has_time(vars: &Vars, term: &TimeTerm) -> bool
    ensures { result ≡ list_all (λ v. list_any (bytes_eq v) vars.now.times)
        (names_of_time term.now) }
{
    match term {
        TimeTerm::Var { name, .. } => is_among(&vars.times, name),
        TimeTerm::Int { .. } => true,
    }
}

fn has_text(vars: &Vars, term: &DataTerm) -> bool
    ensures { result ≡ list_all (λ v. list_any (bytes_eq v) vars.now.texts)
        (names_of_data term.now) }
{
    match term {
        DataTerm::Var { name } => is_among(&vars.texts, name),
        DataTerm::Const { .. } => true,
    }
}

fn is_among(names: &List<Name>, name: &Name) -> bool
    ensures { result ≡ list_any (bytes_eq name.now) names.now }
{
    place_of(names, name).is_some()
}

impl Disjunct {
    /// Whether some atom reads the relation.
    pub fn reads(&self, relation: usize) -> bool
        ensures { result ≡ is_reader relation self.now }
    {
        for atom in &self.atoms {
            if atom.relation == relation {
                return true;
            }
        }
        false
    }
}
