// Which variables a core form binds: one that binds all of its own needs no guard.
ghost use Rattle.std.specs.Prelude.{◌≡◌, List as ListOf, Some, map, not, filter, IfOk};
ghost use Rattle.lrp_core.specs.Cores.{core_of, cores_of};
ghost use Rattle.lrp_core.specs.FreeVariables.{variable_of};
ghost use Rattle.lrp_model.specs.Variables.{Variable as VariableOf, bound_by, free, is_among, same_variable};
ghost use Rattle.lrp_plan_laws.specs.Binding.{binds as bound_in, binds_some as bound_in_some, binds_each as bound_in_each, is_guarded_by as is_guarded};
ghost use Rattle.lrp_plan.specs.Taking.{HaveSame};

use crate::lists::{bound_variable, shared, without};
use lrp_core::{Core, Variable, add_variables, are_among, free_variables, meet};
use lrp_model::{List, Memory, Name, Sort};
use std::alloc::Global;

/// Whether a step with these columns guards a core form, whose free variables are given: they share one, and the form does
/// not bind all of its own.
pub(crate) fn is_guarded_by(
    alloc: Global,
    columns: &[Variable],
    core: &Core<'_>,
    variables: &[Variable],
) -> Result<bool, Memory>
    ensures { IfOk result (λ is. (vs : ListOf VariableOf)
        → HaveSame (map variable_of columns.now) vs
        → HaveSame (map variable_of variables.now) (free (core_of core.now))
        → is ≡ is_guarded vs (core_of core.now)) }
{
    if !meet(variables, columns) {
        return Ok(false);
    }
    let bound = binds(alloc, core)?;
    Ok(!are_among(variables, bound.as_slice()))
}

#[cycle(binding)]
fn binds(alloc: Global, core: &Core<'_>) -> Result<List<Variable>, Memory>
    ensures { IfOk result (λ made. HaveSame (map variable_of made) (bound_in (core_of core.now))) }
{
    match core {
        Core::Atom { .. } => free_variables(alloc, core),
        Core::Check { .. } => Ok(List::new(alloc)),
        Core::Sorted { .. } => free_variables(alloc, core),
        Core::Not { .. } => Ok(List::new(alloc)),
        Core::And { of } => binds_some(alloc, of),
        Core::Or { of } => binds_each(alloc, of),
        Core::Exists { name, sort, of } => {
            let inner = binds(alloc, of)?;
            outside(alloc, inner.as_slice(), sort, name)
        }
    }
}

// What some of them binds.
#[cycle(binding)]
fn binds_some(alloc: Global, of: &[Core<'_>]) -> Result<List<Variable>, Memory>
    ensures { IfOk result (λ made. HaveSame (map variable_of made)
        (bound_in_some (cores_of of.now))) }
{
    let mut all = List::new(alloc);
    for core in of {
        let part = binds(alloc, core)?;
        add_variables(alloc, &mut all, part.as_slice())?;
    }
    Ok(all)
}

// What each of them binds.
#[cycle(binding)]
fn binds_each(alloc: Global, of: &[Core<'_>]) -> Result<List<Variable>, Memory>
    ensures { IfOk result (λ made. HaveSame (map variable_of made)
        (bound_in_each (cores_of of.now))) }
{
    let mut all: Option<List<Variable>> = None;
    for core in of {
        let part = binds(alloc, core)?;
        all = Some(both(alloc, all, part)?);
    }
    Ok(all.unwrap_or(List::new(alloc)))
}

// What is in both lists, where there is the first.
fn both(
    alloc: Global,
    all: Option<List<Variable>>,
    part: List<Variable>,
) -> Result<List<Variable>, Memory>
    ensures none { all ≡ None → IfOk result (λ made. made ≡ part) }
    ensures some { (vs : List Variable) → all ≡ Some vs → IfOk result (λ made.
        map variable_of made ≡ filter (is_among (map variable_of part)) (map variable_of vs)) }
{
    match all {
        None => Ok(part),
        Some(all) => shared(alloc, all.as_slice(), part.as_slice()),
    }
}

// Those that a quantifier of this sort and name does not bind.
fn outside(
    alloc: Global,
    inner: &[Variable],
    sort: &Sort,
    name: &Name,
) -> Result<List<Variable>, Memory>
    ensures { IfOk result (λ made. map variable_of made ≡ filter
        (λ w. not (same_variable (bound_by sort.now name.now) w)) (map variable_of inner.now)) }
{
    let mut bound = List::new(alloc);
    bound.push(bound_variable(alloc, sort, name)?)?;
    without(alloc, inner, bound.as_slice())
}
