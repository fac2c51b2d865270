// Lists of variables, each of which stands in them once.
ghost use Rattle.std.specs.Prelude.{◌≡◌, ◌++◌, ◌∷◌, [], cond, not, filter, map, flat_map, IfOk, OnOk};
ghost use Rattle.lrp_core.specs.FreeVariables.{variable_of, with_variables, each_once};
ghost use Rattle.lrp_model.specs.Variables.{bound_by, is_among, variables_of_test};

use lrp_core::{Variable, add_variables, test_variables};
use lrp_model::{Copies, List, Memory, Name, Sort, Test};
use std::alloc::Global;

/// The variable that a binder of this sort and name binds.
pub(crate) fn bound_variable(alloc: Global, sort: &Sort, name: &Name) -> Result<Variable, Memory>
    ensures { IfOk result (λ made. variable_of made ≡ bound_by sort.now name.now) }
{
    let name = name.copy(alloc)?;
    if sort.is_time() {
        Ok(Variable::Time { name })
    } else {
        Ok(Variable::Data { name })
    }
}

/// Those that are among others, in order.
pub(crate) fn shared(
    alloc: Global,
    all: &[Variable],
    others: &[Variable],
) -> Result<List<Variable>, Memory>
    ensures { IfOk result (λ made. map variable_of made
        ≡ filter (is_among (map variable_of others.now)) (map variable_of all.now)) }
{
    let mut found = List::new(alloc);
    for variable in all {
        keep_if(alloc, &mut found, variable, variable.is_among(others))?;
    }
    Ok(found)
}

/// Those that are not among others, in order.
pub(crate) fn without(
    alloc: Global,
    all: &[Variable],
    others: &[Variable],
) -> Result<List<Variable>, Memory>
    ensures { IfOk result (λ made. map variable_of made
        ≡ filter (λ v. not (is_among (map variable_of others.now) v)) (map variable_of all.now)) }
{
    let mut found = List::new(alloc);
    for variable in all {
        keep_if(alloc, &mut found, variable, !variable.is_among(others))?;
    }
    Ok(found)
}

// A copy of the variable, where it is kept.
fn keep_if(
    alloc: Global,
    found: &mut List<Variable>,
    variable: &Variable,
    keep: bool,
) -> Result<(), Memory>
    ensures { OnOk result (map variable_of found.new
        ≡ map variable_of found.old ++ cond keep (variable_of variable.now ∷ []) []) }
{
    if keep {
        found.push(variable.copy(alloc)?)?;
    }
    Ok(())
}

/// The variables of tests, each after the others where it is none of them yet.
pub(crate) fn add_tests(
    alloc: Global,
    all: &mut List<Variable>,
    tests: &[Test],
) -> Result<(), Memory>
    ensures { OnOk result (map variable_of all.new
        ≡ with_variables (map variable_of all.old) (flat_map variables_of_test tests.now)) }
{
    for test in tests {
        add_test(alloc, all, test)?;
    }
    Ok(())
}

/// The variables of a test, each after the others where it is none of them yet.
pub(crate) fn add_test(alloc: Global, all: &mut List<Variable>, test: &Test) -> Result<(), Memory>
    ensures { OnOk result (map variable_of all.new
        ≡ with_variables (map variable_of all.old) (variables_of_test test.now)) }
{
    let variables = test_variables(alloc, test)?;
    add_variables(alloc, all, variables.as_slice())
}
