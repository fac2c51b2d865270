// Which element of an `and` is taken next.
ghost use Rattle.std.specs.Prelude.{◌≡◌, ℕ, Bool, ◌||◌, ◌&&◌, not, true, List as ListOf, map, position, option_map, Some, None, ◌==◌, if◌then◌else◌};
ghost use Rattle.std.specs.List.{list_any};
ghost use Rattle.lrp_core.specs.FreeVariables.{variable_of};
ghost use Rattle.lrp_core.specs.declared.core_forms.Core.{Core as CoreForm};
ghost use Rattle.lrp_model.specs.Variables.{is_among, are_among as are_members, meet as share, same_variable, time_variable, data_variable, variables_of_time, variables_of_data, variables_of_test};
ghost use Rattle.lrp_plan_laws.specs.Projections.{PlanGround as Ground};
ghost use Rattle.lrp_plan_laws.specs.GuardedConjunctions.{Standing as StandingOf, compares as compared, next_choice as chosen_next, near_atom as chosen_atom, near_sort as chosen_sort, near_part as chosen_part, near_test as chosen_test, any_positive as chosen_positive, next_denied as chosen_negation};
ghost use Rattle.lrp_guarded.specs.Choices.{choice_of, links, part_variables};
ghost use Rattle.lrp_guarded.specs.Standing.{IsStandingOf as IsStanding};

use crate::elements::{Part, RankedAtom, RankedSort};
use crate::standing::Standing;
use lrp_core::{Variable, are_among, meet};
use lrp_model::{DataTerm, Name, Test, TimeTerm};

/// An element that is left, by its place among those of its kind.
#[derive(Clone, Copy)]
pub(crate) enum Choice {
    Atom { index: usize },
    Sort { index: usize },
    Part { index: usize },
    Test { index: usize },
    Negation { index: usize },
}

/// The element that is taken next, where one is left.
pub(crate) fn next_choice(standing: &Standing<'_>) -> Option<Choice>
    ensures { (over : Ground) (K : ℕ) (fs : ListOf CoreForm) (at : StandingOf)
        → IsStanding over K fs standing.now at → option_map choice_of result ≡ chosen_next at }
{
    if let Some(choice) = near_atom(standing) {
        return Some(choice);
    }
    if let Some(choice) = near_sort(standing) {
        return Some(choice);
    }
    if let Some(choice) = near_part(standing) {
        return Some(choice);
    }
    if let Some(choice) = near_test(standing) {
        return Some(choice);
    }
    if let Some(choice) = any_positive(standing) {
        return Some(choice);
    }
    if let Some(index) = first_place(standing.left.tests.len()) {
        return Some(Choice::Test { index });
    }
    next_negation(standing)
}

// The first atom that shares a variable with what was taken, or else is linked, or else where nothing was taken the first.
fn near_atom(standing: &Standing<'_>) -> Option<Choice>
    ensures { (over : Ground) (K : ℕ) (fs : ListOf CoreForm) (at : StandingOf)
        → IsStanding over K fs standing.now at → option_map choice_of result ≡ chosen_atom at }
{
    let taken = standing.variables.as_slice();
    let atoms = standing.left.atoms.as_slice();
    if let Some(index) = near_place(atoms, taken) {
        return Some(Choice::Atom { index });
    }
    if let Some(index) = linked_place(atoms, standing.left.tests.as_slice(), taken) {
        return Some(Choice::Atom { index });
    }
    if standing.some {
        return None;
    }
    match first_place(atoms.len()) {
        Some(index) => Some(Choice::Atom { index }),
        None => None,
    }
}

// Where no atom is left, the first sort element that shares its variable with what was taken, or any where nothing was.
fn near_sort(standing: &Standing<'_>) -> Option<Choice>
    ensures { (over : Ground) (K : ℕ) (fs : ListOf CoreForm) (at : StandingOf)
        → IsStanding over K fs standing.now at → option_map choice_of result ≡ chosen_sort at }
{
    if standing.left.atoms.as_slice().len() > 0 {
        return None;
    }
    let taken = standing.variables.as_slice();
    match near_sort_place(standing.left.sorts.as_slice(), taken, standing.some) {
        Some(index) => Some(Choice::Sort { index }),
        None => None,
    }
}

// The first other positive that shares a variable with what was taken, or else where nothing was the first.
fn near_part(standing: &Standing<'_>) -> Option<Choice>
    ensures { (over : Ground) (K : ℕ) (fs : ListOf CoreForm) (at : StandingOf)
        → IsStanding over K fs standing.now at → option_map choice_of result ≡ chosen_part at }
{
    let others = standing.left.others.as_slice();
    if let Some(index) = near_part_place(others, standing.variables.as_slice()) {
        return Some(Choice::Part { index });
    }
    if standing.some {
        return None;
    }
    match first_place(others.len()) {
        Some(index) => Some(Choice::Part { index }),
        None => None,
    }
}

// The first test one of whose variables was taken.
fn near_test(standing: &Standing<'_>) -> Option<Choice>
    ensures { (over : Ground) (K : ℕ) (fs : ListOf CoreForm) (at : StandingOf)
        → IsStanding over K fs standing.now at → option_map choice_of result ≡ chosen_test at }
{
    let tests = standing.left.tests.as_slice();
    match near_test_place(tests, standing.variables.as_slice()) {
        Some(index) => Some(Choice::Test { index }),
        None => None,
    }
}

// The first positive that is left.
fn any_positive(standing: &Standing<'_>) -> Option<Choice>
    ensures { (over : Ground) (K : ℕ) (fs : ListOf CoreForm) (at : StandingOf)
        → IsStanding over K fs standing.now at → option_map choice_of result ≡ chosen_positive at }
{
    if let Some(index) = first_place(standing.left.atoms.as_slice().len()) {
        return Some(Choice::Atom { index });
    }
    if let Some(index) = first_place(standing.left.sorts.as_slice().len()) {
        return Some(Choice::Sort { index });
    }
    match first_place(standing.left.others.as_slice().len()) {
        Some(index) => Some(Choice::Part { index }),
        None => None,
    }
}

// The first negation that is covered, or else the first.
fn next_negation(standing: &Standing<'_>) -> Option<Choice>
    ensures { (over : Ground) (K : ℕ) (fs : ListOf CoreForm) (at : StandingOf)
        → IsStanding over K fs standing.now at → option_map choice_of result ≡ chosen_negation at }
{
    let negations = standing.left.negations.as_slice();
    let taken = standing.variables.as_slice();
    if let Some(index) = covered_place(negations, taken, standing.some) {
        return Some(Choice::Negation { index });
    }
    match first_place(negations.len()) {
        Some(index) => Some(Choice::Negation { index }),
        None => None,
    }
}

// ---- places

// The first place, where there is one.
fn first_place(count: usize) -> Option<usize>
    ensures { result ≡ (if count == 0 then None else Some 0) }
{
    if count == 0 { None } else { Some(0) }
}

fn near_place(atoms: &[RankedAtom<'_>], taken: &[Variable]) -> Option<usize>
    ensures { result ≡ position (λ a. share (map variable_of a.variables.now)
        (map variable_of taken.now)) atoms.now }
{
    atoms
        .iter()
        .position(|atom| meet(atom.variables.as_slice(), taken))
}

fn linked_place(atoms: &[RankedAtom<'_>], tests: &[Test], taken: &[Variable]) -> Option<usize>
    ensures { result ≡ position (λ a. links (map variable_of taken.now) tests.now
        (map variable_of a.variables.now)) atoms.now }
{
    atoms
        .iter()
        .position(|atom| is_linked(tests, taken, atom.variables.as_slice()))
}

fn near_sort_place(sorts: &[RankedSort<'_>], taken: &[Variable], some: bool) -> Option<usize>
    ensures { result ≡ position (λ e. share (map variable_of e.variables.now)
        (map variable_of taken.now) || not some) sorts.now }
{
    sorts
        .iter()
        .position(|sort| meet(sort.variables.as_slice(), taken) || !some)
}

fn near_part_place(others: &[Part<'_>], taken: &[Variable]) -> Option<usize>
    ensures { result ≡ position (λ p. share (part_variables p) (map variable_of taken.now))
        others.now }
{
    others
        .iter()
        .position(|part| meet(part.tree.variables.as_slice(), taken))
}

fn near_test_place(tests: &[Test], taken: &[Variable]) -> Option<usize>
    ensures { result ≡ position (λ t. share (variables_of_test t) (map variable_of taken.now))
        tests.now }
{
    tests.iter().position(|test| has_some(taken, test))
}

fn covered_place(negations: &[Part<'_>], taken: &[Variable], some: bool) -> Option<usize>
    ensures { result ≡ position (λ p. some
        && are_members (part_variables p) (map variable_of taken.now)) negations.now }
{
    negations.iter().position(|part| some && are_among(part.tree.variables.as_slice(), taken))
}

// ---- what is near

// Whether a comparison has a taken variable on one side, and one of these on the other.
fn is_linked(tests: &[Test], taken: &[Variable], variables: &[Variable]) -> bool
    ensures { result ≡ links (map variable_of taken.now) tests.now (map variable_of variables.now) }
{
    some_links(tests, taken, variables)
}

fn some_links(tests: &[Test], taken: &[Variable], variables: &[Variable]) -> bool
    ensures { result ≡ list_any (λ t.
        compared (map variable_of taken.now) (map variable_of variables.now) t
        || compared (map variable_of variables.now) (map variable_of taken.now) t) tests.now }
{
    tests.iter().any(|test| compares(test, taken, variables) || compares(test, variables, taken))
}

// Whether it is a comparison with a variable of the first list on the left, and one of the second on the right.
fn compares(test: &Test, on_left: &[Variable], on_right: &[Variable]) -> bool
    ensures { result ≡ compared (map variable_of on_left.now) (map variable_of on_right.now)
        test.now }
{
    match test {
        Test::Compare { left, right, .. } => has_time(on_left, left) && has_time(on_right, right),
        Test::Member { .. } => false,
        Test::Equal { .. } => false,
    }
}

// Whether some variable of the test is one of these.
fn has_some(all: &[Variable], test: &Test) -> bool
    ensures { result ≡ share (variables_of_test test.now) (map variable_of all.now) }
{
    match test {
        Test::Compare { left, right, .. } => has_time(all, left) || has_time(all, right),
        Test::Member { term, .. } => has_time(all, term),
        Test::Equal { left, right } => has_data(all, left) || has_data(all, right),
    }
}

// Whether the term has a variable, and it is one of these.
fn has_time(all: &[Variable], term: &TimeTerm) -> bool
    ensures { result ≡ share (variables_of_time term.now) (map variable_of all.now) }
{
    match term {
        TimeTerm::Var { name, .. } => has_time_name(all, name),
        TimeTerm::Int { .. } => false,
    }
}

fn has_data(all: &[Variable], term: &DataTerm) -> bool
    ensures { result ≡ share (variables_of_data term.now) (map variable_of all.now) }
{
    match term {
        DataTerm::Var { name } => has_data_name(all, name),
        DataTerm::Const { .. } => false,
    }
}

fn has_time_name(all: &[Variable], name: &Name) -> bool
    ensures { result ≡ is_among (map variable_of all.now) (time_variable name.now) }
{
    any_time(all, name)
}

fn any_time(all: &[Variable], name: &Name) -> bool
    ensures { result ≡ list_any (λ v. same_variable (time_variable name.now) (variable_of v))
        all.now }
{
    all.iter().any(|variable| is_time(variable, name))
}

fn has_data_name(all: &[Variable], name: &Name) -> bool
    ensures { result ≡ is_among (map variable_of all.now) (data_variable name.now) }
{
    any_data(all, name)
}

fn any_data(all: &[Variable], name: &Name) -> bool
    ensures { result ≡ list_any (λ v. same_variable (data_variable name.now) (variable_of v))
        all.now }
{
    all.iter().any(|variable| is_data(variable, name))
}

fn is_time(variable: &Variable, name: &Name) -> bool
    ensures { result ≡ same_variable (time_variable name.now) (variable_of variable.now) }
{
    match variable {
        Variable::Time { name: own } => name == own,
        Variable::Data { .. } => false,
    }
}

fn is_data(variable: &Variable, name: &Name) -> bool
    ensures { result ≡ same_variable (data_variable name.now) (variable_of variable.now) }
{
    match variable {
        Variable::Time { .. } => false,
        Variable::Data { name: own } => name == own,
    }
}
