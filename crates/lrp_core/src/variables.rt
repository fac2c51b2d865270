// The variables that occur free in a core form.
//
// A formula has at most eight of each kind, so a list of them is searched faster than a hash table.
ghost use Rattle.std.specs.Prelude.{◌≡◌, [], ◌∷◌, IfOk, OnOk, map, true};
ghost use Rattle.std.specs.List.{flat_map};
ghost use Rattle.lrp_model.specs.Variables.{Variable as VariableOf, bound_by, same_variable, is_among as is_member, variables_of_time, variables_of_data, variables_of_term, variables_of_test, free, free_each};
ghost use Rattle.lrp_model.specs.RawTerms.{time_of, data_of, said_term};
ghost use Rattle.lrp_core.specs.Cores.{core_of, cores_of, test_of};
ghost use Rattle.lrp_core.specs.FreeVariables.{variable_of, with_variable, with_variables, others, each_once};

use crate::{Core, TermTest};
use lrp_model::{Copies, DataTerm, List, Memory, Name, RawTerm, RawTermKind, Sort, Test, TimeTerm};
use std::alloc::Global;

/// A variable for integers, or one for data texts. Two variables are one where their kinds and their names are.
#[derive(PartialEq, Eq, Hash, Drop)]
pub enum Variable {
    Time { name: Name },
    Data { name: Name },
}

impl Copies for Variable {
    fn copy(&self, alloc: Global) -> Result<Self, Memory> {
        match self {
            Variable::Time { name } => Ok(Variable::Time {
                name: name.copy(alloc)?,
            }),
            Variable::Data { name } => Ok(Variable::Data {
                name: name.copy(alloc)?,
            }),
        }
    }
}

/// The variables that occur free in a core form, each once, in order of their first occurrences.
pub fn free_variables(alloc: Global, core: &Core<'_>) -> Result<List<Variable>, Memory>
    ensures value { IfOk result (λ made. map variable_of made
        ≡ each_once (free (core_of core.now))) }
    ensures members { IfOk result (λ made. (v : VariableOf)
        → is_member (map variable_of made) v ≡ is_member (free (core_of core.now)) v) }
{
    let mut all = few(alloc)?;
    add_free(alloc, &mut all, core)?;
    Ok(all)
}

/// The variables of a test, each once, in order of their first occurrences.
pub fn test_variables(alloc: Global, test: &Test) -> Result<List<Variable>, Memory>
    ensures { IfOk result (λ made. map variable_of made ≡ each_once (variables_of_test test.now)) }
{
    let mut all = few(alloc)?;
    match test {
        Test::Compare { left, right, .. } => {
            add_time_of(alloc, &mut all, left)?;
            add_time_of(alloc, &mut all, right)?;
        }
        Test::Member { term, .. } => add_time_of(alloc, &mut all, term)?,
        Test::Equal { left, right } => {
            add_data_of(alloc, &mut all, left)?;
            add_data_of(alloc, &mut all, right)?;
        }
    }
    Ok(all)
}

fn add_time_of(alloc: Global, all: &mut List<Variable>, term: &TimeTerm) -> Result<(), Memory>
    ensures { OnOk result (map variable_of all.new
        ≡ with_variables (map variable_of all.old) (variables_of_time term.now)) }
{
    match term {
        TimeTerm::Var { name, .. } => add_time(alloc, all, name),
        TimeTerm::Int { .. } => Ok(()),
    }
}

fn add_data_of(alloc: Global, all: &mut List<Variable>, term: &DataTerm) -> Result<(), Memory>
    ensures { OnOk result (map variable_of all.new
        ≡ with_variables (map variable_of all.old) (variables_of_data term.now)) }
{
    match term {
        DataTerm::Var { name } => add_data(alloc, all, name),
        DataTerm::Const { .. } => Ok(()),
    }
}

// An empty list with room for two: few formulas have more variables, and of those that stand in long ones each takes its room.
pub(crate) fn few(alloc: Global) -> Result<List<Variable>, Memory>
    ensures { IfOk result (λ made. made ≡ []) }
{
    Ok(List::from_vec(Vec::with_capacity(alloc, 2)?))
}

impl Variable {
    // Whether it is the variable that a binder of this sort and name binds.
    fn is_bound_by(&self, sort: &Sort, name: &Name) -> bool
        ensures { result ≡ same_variable (bound_by sort.now name.now) (variable_of self.now) }
    {
        match self {
            Variable::Time { name: own } => sort.is_time() && name == own,
            Variable::Data { name: own } => !sort.is_time() && name == own,
        }
    }

    /// Whether it is the same variable.
    pub(crate) fn is_same(&self, other: &Variable) -> bool
        ensures { result ≡ true → self.now ≡ other.now }
    {
        match (self, other) {
            (Variable::Time { name }, Variable::Time { name: other }) => name == other,
            (Variable::Data { name }, Variable::Data { name: other }) => name == other,
            _ => false,
        }
    }

    /// Whether it is one of them.
    pub fn is_among(&self, all: &[Variable]) -> bool
        ensures { result ≡ is_member (map variable_of all.now) (variable_of self.now) }
    {
        match self {
            Variable::Time { name } => contains(all, &Sort::Time, name),
            Variable::Data { name } => contains(all, &Sort::Data, name),
        }
    }
}

// Whether the variable that a binder of this sort and name binds is one of them.
pub(crate) fn contains(all: &[Variable], sort: &Sort, name: &Name) -> bool
    ensures { result ≡ is_member (map variable_of all.now) (bound_by sort.now name.now) }
{
    for variable in all {
        if variable.is_bound_by(sort, name) {
            return true;
        }
    }
    false
}

/// Copies of the variables, each after the others where it is none of them yet.
pub fn add_variables(
    alloc: Global,
    all: &mut List<Variable>,
    more: &[Variable],
) -> Result<(), Memory>
    ensures { OnOk result (map variable_of all.new
        ≡ with_variables (map variable_of all.old) (map variable_of more.now)) }
{
    for variable in more {
        add_copy(alloc, all, variable)?;
    }
    Ok(())
}

// A copy of the variable, where it is none of them yet.
fn add_copy(alloc: Global, all: &mut List<Variable>, variable: &Variable) -> Result<(), Memory>
    ensures { OnOk result (map variable_of all.new
        ≡ with_variable (map variable_of all.old) (variable_of variable.now)) }
{
    if !variable.is_among(all.as_slice()) {
        all.push(variable.copy(alloc)?)?;
    }
    Ok(())
}

// A further variable, where it is none of them yet.
fn add(all: &mut List<Variable>, variable: Variable) -> Result<(), Memory>
    ensures { OnOk result (map variable_of all.new
        ≡ with_variable (map variable_of all.old) (variable_of variable)) }
{
    if !variable.is_among(all.as_slice()) {
        all.push(variable)?;
    }
    Ok(())
}

fn add_time(alloc: Global, all: &mut List<Variable>, name: &Name) -> Result<(), Memory>
    ensures { OnOk result (map variable_of all.new
        ≡ with_variable (map variable_of all.old) (VariableOf.time_variable name.now)) }
{
    if !contains(all.as_slice(), &Sort::Time, name) {
        let name = name.copy(alloc)?;
        all.push(Variable::Time { name })?;
    }
    Ok(())
}

fn add_data(alloc: Global, all: &mut List<Variable>, name: &Name) -> Result<(), Memory>
    ensures { OnOk result (map variable_of all.new
        ≡ with_variable (map variable_of all.old) (VariableOf.data_variable name.now)) }
{
    if !contains(all.as_slice(), &Sort::Data, name) {
        let name = name.copy(alloc)?;
        all.push(Variable::Data { name })?;
    }
    Ok(())
}

fn add_time_term(alloc: Global, all: &mut List<Variable>, term: &RawTerm) -> Result<(), Memory>
    ensures { OnOk result (map variable_of all.new
        ≡ with_variables (map variable_of all.old) (variables_of_time (time_of term.now.kind))) }
{
    match &term.kind {
        RawTermKind::Var { name } => add_time(alloc, all, name),
        RawTermKind::Shifted { name, .. } => add_time(alloc, all, name),
        RawTermKind::Int { .. } => Ok(()),
        RawTermKind::Text { .. } => Ok(()),
    }
}

fn add_data_term(alloc: Global, all: &mut List<Variable>, term: &RawTerm) -> Result<(), Memory>
    ensures { OnOk result (map variable_of all.new
        ≡ with_variables (map variable_of all.old) (variables_of_data (data_of term.now.kind))) }
{
    match &term.kind {
        RawTermKind::Var { name } => add_data(alloc, all, name),
        RawTermKind::Text { .. } => Ok(()),
        RawTermKind::Int { .. } => Ok(()),
        RawTermKind::Shifted { .. } => Ok(()),
    }
}

fn add_term(alloc: Global, all: &mut List<Variable>, term: &RawTerm) -> Result<(), Memory>
    ensures { OnOk result (map variable_of all.new
        ≡ with_variables (map variable_of all.old) (variables_of_term (said_term term.now))) }
{
    match &term.kind {
        RawTermKind::Shifted { name, .. } => add_time(alloc, all, name),
        RawTermKind::Var { name } => add_data(alloc, all, name),
        RawTermKind::Int { .. } => Ok(()),
        RawTermKind::Text { .. } => Ok(()),
    }
}

fn add_terms(alloc: Global, all: &mut List<Variable>, terms: &[RawTerm]) -> Result<(), Memory>
    ensures { OnOk result (map variable_of all.new
        ≡ with_variables (map variable_of all.old)
        (flat_map variables_of_term (map said_term terms.now))) }
{
    for term in terms {
        add_term(alloc, all, term)?;
    }
    Ok(())
}

fn add_test(alloc: Global, all: &mut List<Variable>, test: &TermTest<'_>) -> Result<(), Memory>
    ensures { OnOk result (map variable_of all.new
        ≡ with_variables (map variable_of all.old) (variables_of_test (test_of test.now))) }
{
    match test {
        TermTest::Compare { left, right, .. } => {
            add_time_term(alloc, all, left)?;
            add_time_term(alloc, all, right)
        }
        TermTest::Member { term, .. } => add_time_term(alloc, all, term),
        TermTest::Equal { left, right } => {
            add_data_term(alloc, all, left)?;
            add_data_term(alloc, all, right)
        }
    }
}

// Those of a quantifier's formula but for the one that it binds.
pub(crate) fn add_others(
    all: &mut List<Variable>,
    inner: List<Variable>,
    sort: &Sort,
    name: &Name,
) -> Result<(), Memory>
    ensures { OnOk result (map variable_of all.new
        ≡ with_variables (map variable_of all.old)
        (others (bound_by sort.now name.now) (map variable_of inner))) }
{
    for variable in inner.into_vec() {
        add_other(all, variable, sort, name)?;
    }
    Ok(())
}

// A variable that the quantifier does not bind.
fn add_other(
    all: &mut List<Variable>,
    variable: Variable,
    sort: &Sort,
    name: &Name,
) -> Result<(), Memory>
    ensures { OnOk result (map variable_of all.new
        ≡ with_variables (map variable_of all.old)
        (others (bound_by sort.now name.now) (variable_of variable ∷ []))) }
{
    if !variable.is_bound_by(sort, name) {
        add(all, variable)?;
    }
    Ok(())
}

#[cycle(variables)]
fn add_free(alloc: Global, all: &mut List<Variable>, core: &Core<'_>) -> Result<(), Memory>
    ensures { OnOk result (map variable_of all.new
        ≡ with_variables (map variable_of all.old) (free (core_of core.now))) }
{
    match core {
        Core::Atom { terms, .. } => add_terms(alloc, all, terms.as_slice()),
        Core::Check { test } => add_test(alloc, all, test),
        Core::Sorted { name, .. } => add_data(alloc, all, name),
        Core::Not { of } => add_free(alloc, all, of),
        Core::And { of } => add_each(alloc, all, of),
        Core::Or { of } => add_each(alloc, all, of),
        Core::Exists { name, sort, of } => {
            let mut inner = List::new(alloc);
            add_free(alloc, &mut inner, of)?;
            add_others(all, inner, sort, name)
        }
    }
}

#[cycle(variables)]
fn add_each(alloc: Global, all: &mut List<Variable>, cores: &[Core<'_>]) -> Result<(), Memory>
    ensures { OnOk result (map variable_of all.new
        ≡ with_variables (map variable_of all.old) (free_each (cores_of cores.now))) }
{
    for core in cores {
        add_free(alloc, all, core)?;
    }
    Ok(())
}
