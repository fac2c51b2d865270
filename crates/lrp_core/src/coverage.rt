// Whether variables are among others.
ghost use Rattle.std.specs.Prelude.{◌≡◌, map, true};
ghost use Rattle.lrp_model.specs.Variables.{is_among as is_member, are_among as are_members, meet as share, variables_of_time, variables_of_data, variables_of_test};
ghost use Rattle.lrp_core.specs.FreeVariables.{variable_of};

use crate::Variable;
use crate::variables::contains;
use lrp_model::{DataTerm, Sort, Test, TimeTerm};

/// Whether each of the variables is one of `all`.
pub fn are_among(variables: &[Variable], all: &[Variable]) -> bool
    ensures { result ≡ are_members (map variable_of variables.now) (map variable_of all.now) }
{
    for variable in variables {
        if !variable.is_among(all) {
            return false;
        }
    }
    true
}

/// Whether some of the variables is one of `all`.
pub fn meet(variables: &[Variable], all: &[Variable]) -> bool
    ensures { result ≡ share (map variable_of variables.now) (map variable_of all.now) }
{
    for variable in variables {
        if variable.is_among(all) {
            return true;
        }
    }
    false
}

/// Whether they are the same variables, in the same order.
pub fn are_same(left: &[Variable], right: &[Variable]) -> bool
    ensures { result ≡ true → left.now ≡ right.now }
{
    if left.len() != right.len() {
        return false;
    }
    for i in 0..left.len() {
        if !left[i].is_same(&right[i]) {
            return false;
        }
    }
    true
}

/// Whether each variable of the test is one of `all`.
pub fn covers(all: &[Variable], test: &Test) -> bool
    ensures { result ≡ are_members (variables_of_test test.now) (map variable_of all.now) }
{
    match test {
        Test::Compare { left, right, .. } => covers_time(all, left) && covers_time(all, right),
        Test::Member { term, .. } => covers_time(all, term),
        Test::Equal { left, right } => covers_data(all, left) && covers_data(all, right),
    }
}

fn covers_time(all: &[Variable], term: &TimeTerm) -> bool
    ensures { result ≡ are_members (variables_of_time term.now) (map variable_of all.now) }
{
    match term {
        TimeTerm::Var { name, .. } => contains(all, &Sort::Time, name),
        TimeTerm::Int { .. } => true,
    }
}

fn covers_data(all: &[Variable], term: &DataTerm) -> bool
    ensures { result ≡ are_members (variables_of_data term.now) (map variable_of all.now) }
{
    match term {
        DataTerm::Var { name } => contains(all, &Sort::Data, name),
        DataTerm::Const { .. } => true,
    }
}
