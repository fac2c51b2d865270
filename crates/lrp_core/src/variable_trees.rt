// The variables of a formula and of the elements in it, found in one walk from below.
ghost use Rattle.std.specs.Prelude.{◌≡◌, ◌∷◌, [], IfOk, OnOk, List as ListOf, map};
ghost use Rattle.lrp_model.specs.Variables.{Variable as VariableOf, bound_by, free};
ghost use Rattle.lrp_core.specs.Cores.{core_of, cores_of};
ghost use Rattle.lrp_model.specs.Formulas.{conjunction, exists};
ghost use Rattle.lrp_core.specs.FreeVariables.{variable_of, others, each_once};
ghost use Rattle.lrp_core.specs.VariableTrees.{Trees, tree, no_trees, tree_of, free_tree};

use crate::variables::{add_others, add_variables, few};
use crate::{Core, Variable, free_variables};
use lrp_model::{List, Memory, Name, Sort};
use std::alloc::Global;

/// The variables that occur free in a formula, each once; and, in order, the trees of the elements of the `and` or the `or`
/// that it is, or that stands in it after `not`s and quantifiers alone.
pub struct VariableTree {
    pub variables: List<Variable>,
    pub inner: Vec<VariableTree>,
}

// It is let go by one call, which is proved once.
impl Drop for VariableTree {
    fn drop(self) {
        let VariableTree {
            variables: _variables,
            inner: _inner,
        } = self;
    }
}

/// The tree of a core form. Each part of it is looked at once.
#[cycle(trees)]
pub fn variable_tree(alloc: Global, core: &Core<'_>) -> Result<VariableTree, Memory>
    ensures { IfOk result (λ made. tree_of made ≡ free_tree (core_of core.now)) }
{
    match core {
        Core::Atom { .. } => leaf(alloc, core),
        Core::Check { .. } => leaf(alloc, core),
        Core::Sorted { .. } => leaf(alloc, core),
        Core::Not { of } => variable_tree(alloc, of),
        Core::And { of } => tree_of_all(alloc, of),
        Core::Or { of } => tree_of_all(alloc, of),
        Core::Exists { name, sort, of } => tree_under(alloc, sort, name, of),
    }
}

// The tree of an element under a quantifier of this sort and name.
#[cycle(trees)]
fn tree_under(
    alloc: Global,
    sort: &Sort,
    name: &Name,
    core: &Core<'_>,
) -> Result<VariableTree, Memory>
    ensures { IfOk result (λ made. tree_of made
        ≡ free_tree (exists name.now sort.now (core_of core.now))) }
{
    let inner = variable_tree(alloc, core)?;
    inner.without(alloc, sort, name)
}

// The tree of these elements.
#[cycle(trees)]
fn tree_of_all(alloc: Global, of: &[Core<'_>]) -> Result<VariableTree, Memory>
    ensures { IfOk result (λ made. tree_of made ≡ free_tree (conjunction (cores_of of.now))) }
{
    let mut variables = few(alloc)?;
    let mut inner = Vec::with_capacity(alloc, of.len())?;
    for core in of {
        let part = variable_tree(alloc, core)?;
        add_variables(alloc, &mut variables, part.variables.as_slice())?;
        inner.push(part)?;
    }
    Ok(VariableTree { variables, inner })
}

// The tree of a formula with no elements in it.
fn leaf(alloc: Global, core: &Core<'_>) -> Result<VariableTree, Memory>
    ensures { IfOk result (λ made. tree_of made
        ≡ tree (each_once (free (core_of core.now))) no_trees) }
{
    let variables = free_variables(alloc, core)?;
    Ok(VariableTree {
        variables,
        inner: Vec::new(alloc),
    })
}

impl VariableTree {
    // The tree of a formula under a quantifier of this sort and name.
    fn without(self, alloc: Global, sort: &Sort, name: &Name) -> Result<VariableTree, Memory>
        ensures { IfOk result (λ made. (vs : ListOf VariableOf) (inner : Trees)
            → tree_of self ≡ tree vs inner
            → tree_of made ≡ tree (each_once (others (bound_by sort.now name.now) vs)) inner) }
    {
        let VariableTree {
            variables: all,
            inner,
        } = self;
        let mut variables = List::from_vec(Vec::with_capacity(alloc, all.len())?);
        add_others(&mut variables, all, sort, name)?;
        Ok(VariableTree { variables, inner })
    }
}
