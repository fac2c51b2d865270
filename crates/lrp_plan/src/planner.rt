// The steps of core forms, each after those that it reads.
ghost use Rattle.std.specs.Prelude.{◌≡◌, ℕ, [], length, map, slice_get, Some, IfOk, OnOk};
ghost use Rattle.lrp_core.specs.Cores.{core_of, cores_of};
ghost use Rattle.lrp_core.specs.declared.core_forms.Core.{Core as CoreForm};
ghost use Rattle.lrp_core.specs.declared.variable_trees.VariableTree.{VariableTree as TreeOf};
ghost use Rattle.lrp_core.specs.VariableTrees.{tree_of, free_tree};
ghost use Rattle.lrp_model.specs.Formulas.{Form, conjunction, disjunction};
ghost use Rattle.lrp_model.specs.Satisfaction.{Structure};
ghost use Rattle.lrp_model.specs.Plans.{plan_of};
ghost use Rattle.lrp_plan.specs.Drafts.{Extends, Unites};
ghost use Rattle.lrp_plan.specs.Elements.{AreInner, CanPlan, TakesEach, TakesNext, element_of};
ghost use Rattle.lrp_plan.specs.Sources.{AreSources};

use crate::drafts::{Draft, PlannedOperand};
use crate::elements::{Element, Kind, Split};
use crate::leaves::{plan_atom, plan_drop, plan_sorted, plan_test};
use crate::sources::Sources;
use crate::splits::split;
use crate::taking::{Taking, take_tests};
use crate::waiting::Waiting;
use lrp_core::{Core, VariableTree};
use lrp_model::{List, Memory};
use std::alloc::Global;
use std::collections::VecDeque;

// Turns of elements of a kind, each of which is planned in its turn.
#[derive(Clone, Copy)]
struct Turns<'a, 'b> {
    sources: &'a Sources<'b>,
    kind: Kind,
}

/// The steps of a core form after those that were made. The trees are of the elements in it.
#[cycle(planning)]
pub(crate) fn plan_core(
    sources: &Sources<'_>,
    draft: &mut Draft,
    core: &Core<'_>,
    inner: &[VariableTree],
) -> Result<(), Memory>
    ensures { OnOk result ((M : Structure) (K : ℕ) → AreSources M sources.now
        → AreInner inner.now (core_of core.now) → CanPlan M K (core_of core.now)
        → Extends M K (plan_of (core_of core.now)) draft.old draft.new) }
{
    match core {
        Core::Atom { relation, terms } => { plan_atom(sources, draft, relation, terms.as_slice()) }
        Core::Check { test } => plan_test(sources.alloc, draft, test),
        Core::Sorted { sort, name } => plan_sorted(sources, draft, sort, name),
        Core::Not { of } => {
            plan_core(sources, draft, of, inner)?;
            draft.complement()
        }
        Core::And { of } => plan_all(sources, draft, of, inner),
        Core::Or { of } => plan_some(sources, draft, of, inner),
        Core::Exists { name, sort, of } => {
            plan_core(sources, draft, of, inner)?;
            plan_drop(sources.alloc, draft, name, sort)
        }
    }
}

// The first, and then each further one with a `union`.
#[cycle(planning)]
fn plan_some(
    sources: &Sources<'_>,
    draft: &mut Draft,
    of: &[Core<'_>],
    inner: &[VariableTree],
) -> Result<(), Memory>
    ensures { OnOk result ((M : Structure) (K : ℕ) → AreSources M sources.now
        → AreInner inner.now (disjunction (cores_of of.now))
        → CanPlan M K (disjunction (cores_of of.now))
        → Extends M K (plan_of (disjunction (cores_of of.now))) draft.old draft.new) }
{
    let mut left: Option<PlannedOperand> = None;
    for (index, core) in of.iter().enumerate() {
        plan_with(sources, draft, core, inner, index)?;
        unite(draft, left)?;
        left = Some(draft.last);
    }
    Ok(())
}

// The steps of a core form, whose tree is the one at this place.
#[cycle(planning)]
fn plan_with(
    sources: &Sources<'_>,
    draft: &mut Draft,
    core: &Core<'_>,
    trees: &[VariableTree],
    index: usize,
) -> Result<(), Memory>
    ensures { OnOk result ((M : Structure) (K : ℕ) (tree : TreeOf) → AreSources M sources.now
        → slice_get trees.now index ≡ Some tree → tree_of tree ≡ free_tree (core_of core.now)
        → CanPlan M K (core_of core.now)
        → Extends M K (plan_of (core_of core.now)) draft.old draft.new) }
{
    if index < trees.len() {
        plan_core(sources, draft, core, &trees[index].inner)?;
    }
    Ok(())
}

// The positives by rank, then the tests that remain, then the negations.
#[cycle(planning)]
fn plan_all(
    sources: &Sources<'_>,
    draft: &mut Draft,
    of: &[Core<'_>],
    inner: &[VariableTree],
) -> Result<(), Memory>
    ensures { OnOk result ((M : Structure) (K : ℕ) → AreSources M sources.now
        → AreInner inner.now (conjunction (cores_of of.now))
        → CanPlan M K (conjunction (cores_of of.now))
        → Extends M K (plan_of (conjunction (cores_of of.now))) draft.old draft.new) }
{
    let parts = split(sources, of, inner)?;
    let Split {
        positives,
        tests,
        negations,
    } = parts;
    let mut taking = Taking {
        result: None,
        variables: List::new(sources.alloc),
        tests,
        settled: false,
    };
    let turns = Turns {
        sources,
        kind: Kind::Positive,
    };
    plan_each(turns, draft, of, positives, &mut taking)?;
    take_tests(sources.alloc, draft, &mut taking)?;
    let turns = Turns {
        sources,
        kind: Kind::Negation,
    };
    plan_each(turns, draft, of, negations, &mut taking)
}

// Each element in turn: of positives the next that shares a variable with what was taken in, of negations the next that
// is covered; or else the first.
#[cycle(planning)]
fn plan_each(
    turns: Turns<'_, '_>,
    draft: &mut Draft,
    of: &[Core<'_>],
    elements: VecDeque<Element<'_>>,
    taking: &mut Taking,
) -> Result<(), Memory>
    ensures { OnOk result ((M : Structure) → AreSources M turns.entry.sources.now
        → TakesEach turns.entry.kind M (length elements.entry.items) of.now elements.entry.items
        draft.old draft.new taking.old taking.new) }
{
    let count = elements.len();
    let mut left = Waiting::new(turns.sources.alloc, elements);
    for _turn in 0..count {
        plan_next(turns, draft, of, &mut left, taking)?;
    }
    Ok(())
}

// The next element, if there is one.
#[cycle(planning)]
fn plan_next(
    turns: Turns<'_, '_>,
    draft: &mut Draft,
    of: &[Core<'_>],
    left: &mut Waiting<'_>,
    taking: &mut Taking,
) -> Result<(), Memory>
    ensures { OnOk result ((M : Structure) → AreSources M turns.entry.sources.now
        → TakesNext turns.entry.kind M of.now left.old left.new draft.old draft.new taking.old
        taking.new) }
{
    let turn = taking.turn(turns.kind);
    match left.take_next(turns.sources.alloc, turn, &taking.variables)? {
        None => Ok(()),
        Some(element) => {
            plan_at(turns, draft, of, element.index, &element.tree.inner)?;
            let variables = element.tree.variables.as_slice();
            taking.take(turns.sources.alloc, draft, turns.kind, variables)
        }
    }
}

// The steps of the core form at a place of the list, or of what the negation there denies.
#[cycle(planning)]
fn plan_at(
    turns: Turns<'_, '_>,
    draft: &mut Draft,
    of: &[Core<'_>],
    index: usize,
    inner: &[VariableTree],
) -> Result<(), Memory>
    ensures { OnOk result ((M : Structure) (K : ℕ) (core : CoreForm) (f : Form)
        → AreSources M turns.entry.sources.now → slice_get of.now index ≡ Some core
        → core_of core ≡ element_of turns.entry.kind f → AreInner inner.now f → CanPlan M K f
        → Extends M K (plan_of f) draft.old draft.new) }
{
    if index < of.len() {
        plan_element(turns, draft, &of[index], inner)?;
    }
    Ok(())
}

// The steps of a core form, or of what a negation denies.
#[cycle(planning)]
fn plan_element(
    turns: Turns<'_, '_>,
    draft: &mut Draft,
    core: &Core<'_>,
    inner: &[VariableTree],
) -> Result<(), Memory>
    ensures { OnOk result ((M : Structure) (K : ℕ) (f : Form) → AreSources M turns.entry.sources.now
        → core_of core.now ≡ element_of turns.entry.kind f → AreInner inner.now f → CanPlan M K f
        → Extends M K (plan_of f) draft.old draft.new) }
{
    match (turns.kind, core) {
        (Kind::Positive, core) => plan_core(turns.sources, draft, core, inner),
        (Kind::Negation, Core::Not { of }) => { plan_core(turns.sources, draft, of, inner) }
        (Kind::Negation, _) => Ok(()),
    }
}

// The last step united with an earlier one, where there is one.
fn unite(draft: &mut Draft, left: Option<PlannedOperand>) -> Result<(), Memory>
    ensures { OnOk result (Unites left draft.old draft.new) }
{
    match left {
        Some(left) => draft.union(left),
        None => Ok(()),
    }
}
