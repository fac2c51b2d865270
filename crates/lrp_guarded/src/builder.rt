// The steps of core forms under guards.
ghost use Rattle.std.specs.Prelude.{◌≡◌, ◌==◌, ℕ, Bool, false, true, [], ◌∷◌, ◌++◌, List as ListOf, Option as OptionOf, None, Some, map, slice_get, IfOk, OnOk};
ghost use Rattle.std.specs.Option.{is_some};
ghost use Rattle.lrp_core.specs.Cores.{core_of, cores_of, test_of};
ghost use Rattle.lrp_core.specs.FreeVariables.{variable_of, each_once};
ghost use Rattle.lrp_core.specs.VariableTrees.{tree_of, free_tree};
ghost use Rattle.lrp_core.specs.declared.core_forms.Core.{Core as CoreForm};
ghost use Rattle.lrp_model.specs.Formulas.{Form, negation, conjunction, disjunction, test as test_form};
ghost use Rattle.lrp_model.specs.Conjunctions.{is_test as is_compared};
ghost use Rattle.lrp_model.specs.Variables.{bound_by, free};
ghost use Rattle.lrp_plan_laws.specs.Binding.{is_leaf as has_no_part};
ghost use Rattle.lrp_plan_laws.specs.Projections.{PlanGround as Ground};
ghost use Rattle.lrp_plan_laws.specs.GuardedConjunctions.{Standing as StandingOf, take as taken_by, take_other as other_taken, take_one_negation as negation_taken, next_choice as next_choice_of};
ghost use Rattle.lrp_plan.specs.Elements.{AreInner, CanPlan, EachCanPlan};
ghost use Rattle.lrp_plan.specs.Taking.{HaveSame};
ghost use Rattle.lrp_plan.specs.Drafts.{IsPlannedOperand};
ghost use Rattle.lrp_model.specs.Steps.{Steps, formula_at};
ghost use Rattle.lrp_core.specs.declared.variable_trees.VariableTree.{VariableTree as TreeOf};
ghost use Rattle.lrp_guarded.specs.Making.{IsMaking};
ghost use Rattle.lrp_guarded.specs.Choices.{choice_of};
ghost use Rattle.lrp_guarded.specs.Standing.{Builds, FollowsRule as Follows, turned, turned_so_often};
ghost use Rattle.lrp_guarded.specs.Building.{BuildsMember, BuildsElement, FollowsIn, Projects, OwnGuard, Guards, JoinsGuard, UnitesMembers as Unites, prepared, is_positive, is_this, selected_test};

use crate::binding::is_guarded_by;
use crate::choices::{Choice, next_choice};
use crate::elements::Elements;
use crate::lists::bound_variable;
use crate::making::Making;
use crate::standing::Standing;
use lrp_core::{Core, TermTest, Variable, VariableTree, covers, variable_tree};
use lrp_model::{List, Memory, Name, Sort, Test};
use lrp_plan::drafts::PlannedOperand;
use std::alloc::Global;

/// What the steps of a formula are made within: the variables of the block around it, the outermost first, and its guard.
pub(crate) struct Within {
    pub(crate) block: List<Variable>,
    pub(crate) guard: Option<PlannedOperand>,
}

// It is let go by one call, which is proved once.
impl Drop for Within {
    fn drop(self) {
        let Within {
            block: _block,
            guard: _guard,
        } = self;
    }
}

impl Within {
    /// No block, and this guard.
    pub(crate) fn new(alloc: Global, guard: Option<PlannedOperand>) -> Within
        ensures block { result.block ≡ [] }
        ensures guard { result.guard ≡ guard }
    {
        Within {
            block: List::new(alloc),
            guard,
        }
    }

    // Its block and its guard.
    fn into_parts(self) -> (List<Variable>, Option<PlannedOperand>)
        ensures block { result.0 ≡ self.block }
        ensures guard { result.1 ≡ self.guard }
    {
        let Within { block, guard } = self;
        (block, guard)
    }

    // A further variable of the block.
    fn bind(&mut self, alloc: Global, sort: &Sort, name: &Name) -> Result<(), Memory>
        ensures block { OnOk result (map variable_of self.new.block
            ≡ map variable_of self.old.block ++ bound_by sort.now name.now ∷ []) }
        ensures guard { OnOk result (self.new.guard ≡ self.old.guard) }
    {
        self.block.push(bound_variable(alloc, sort, name)?)?;
        Ok(())
    }
}

// What is done with an element whose steps were made: it is taken in, or taken off the result so far.
#[derive(Clone, Copy)]
enum Role {
    Positive,
    Negation,
}

/// The steps of a core form. The trees are of the elements in it.
#[cycle(building)]
pub(crate) fn build(
    making: &mut Making<'_, '_>,
    core: &Core<'_>,
    inner: &[VariableTree],
    mut within: Within,
) -> Result<(), Memory>
    ensures { OnOk result (AreInner inner.now (core_of core.now) → Builds (core_of core.now)
        (map variable_of within.block) within.guard making.old making.new) }
{
    match core {
        Core::And { of } => build_all(making, of, inner, within),
        Core::Exists { name, sort, of } => {
            within.bind(making.sources.alloc, sort, name)?;
            build(making, of, inner, within)
        }
        Core::Or { of } => build_some(making, of, inner, within),
        Core::Not { of } => build_denial(making, of, within),
        Core::Atom { .. } => build_leaf(making, core, within),
        Core::Check { .. } => build_leaf(making, core, within),
        Core::Sorted { .. } => build_leaf(making, core, within),
    }
}

// A negation that is no element of an `and`: an `and` of it alone, whose block is dropped at the end.
#[cycle(building)]
fn build_denial(making: &mut Making<'_, '_>, of: &Core<'_>, within: Within) -> Result<(), Memory>
    ensures { OnOk result (Builds (negation (core_of of.now)) (map variable_of within.block)
        within.guard making.old making.new) }
{
    let (block, guard) = within.into_parts();
    build_alone(making, of, guard)?;
    making.drop_block(making.draft.last, block)
}

// An `and` of this negation alone.
#[cycle(building)]
fn build_alone(
    making: &mut Making<'_, '_>,
    of: &Core<'_>,
    guard: Option<PlannedOperand>,
) -> Result<(), Memory>
    ensures { OnOk result (Builds (negation (core_of of.now)) [] guard making.old making.new) }
{
    let alloc = making.sources.alloc;
    let tree = variable_tree(alloc, of)?;
    let mut standing = Standing::new(making, Elements::none(alloc), List::new(alloc), guard)?;
    build_element(making, of, &tree, Role::Negation, &mut standing)
}

// The members of an `or`, and then the block is dropped.
#[cycle(building)]
fn build_some(
    making: &mut Making<'_, '_>,
    of: &[Core<'_>],
    inner: &[VariableTree],
    within: Within,
) -> Result<(), Memory>
    ensures { OnOk result (AreInner inner.now (disjunction (cores_of of.now))
        → Builds (disjunction (cores_of of.now)) (map variable_of within.block) within.guard
        making.old making.new) }
{
    let (block, guard) = within.into_parts();
    build_members(making, of, inner, guard)?;
    making.drop_block(making.draft.last, block)
}

// The members of an `or`, each further one united with the result so far.
#[cycle(building)]
fn build_members(
    making: &mut Making<'_, '_>,
    of: &[Core<'_>],
    inner: &[VariableTree],
    guard: Option<PlannedOperand>,
) -> Result<(), Memory>
    ensures { OnOk result (AreInner inner.now (disjunction (cores_of of.now))
        → Builds (disjunction (cores_of of.now)) [] guard making.old making.new) }
{
    let mut left: Option<PlannedOperand> = None;
    for (index, core) in of.iter().enumerate() {
        build_member_at(making, core, inner, index, guard)?;
        unite(making, left)?;
        left = Some(making.draft.last);
    }
    Ok(())
}

// The member whose tree is the one at this place.
#[cycle(building)]
fn build_member_at(
    making: &mut Making<'_, '_>,
    core: &Core<'_>,
    trees: &[VariableTree],
    index: usize,
    guard: Option<PlannedOperand>,
) -> Result<(), Memory>
    ensures { OnOk result ((own : TreeOf) → slice_get trees.now index ≡ Some own
        → tree_of own ≡ free_tree (core_of core.now)
        → BuildsMember (core_of core.now) guard making.old making.new) }
{
    if index < trees.len() {
        build_member(making, core, &trees[index], guard)?;
    }
    Ok(())
}

// A member of an `or`, under the projection of the guard; where that is not the guard itself, it is joined with the guard.
#[cycle(building)]
fn build_member(
    making: &mut Making<'_, '_>,
    core: &Core<'_>,
    tree: &VariableTree,
    guard: Option<PlannedOperand>,
) -> Result<(), Memory>
    ensures { OnOk result (tree_of tree.now ≡ free_tree (core_of core.now)
        → BuildsMember (core_of core.now) guard making.old making.new) }
{
    let own = own_guard(making, core, tree.variables.as_slice(), guard)?;
    let within = Within::new(making.sources.alloc, own);
    build(making, core, &tree.inner, within)?;
    join_guard(making, guard, own)
}

// The projection of the guard, where there is one, for a member.
fn own_guard(
    making: &mut Making<'_, '_>,
    core: &Core<'_>,
    variables: &[Variable],
    guard: Option<PlannedOperand>,
) -> Result<Option<PlannedOperand>, Memory>
    ensures { IfOk result (λ own. HaveSame (map variable_of variables.now) (free (core_of core.now))
        → OwnGuard (core_of core.now) guard making.old making.new own) }
{
    match guard {
        Some(guard) => projected(making, core, variables, guard),
        None => Ok(None),
    }
}

// The elements of an `and`, one after the other.
#[cycle(building)]
fn build_all(
    making: &mut Making<'_, '_>,
    of: &[Core<'_>],
    inner: &[VariableTree],
    within: Within,
) -> Result<(), Memory>
    ensures { OnOk result (AreInner inner.now (conjunction (cores_of of.now))
        → Builds (conjunction (cores_of of.now)) (map variable_of within.block) within.guard
        making.old making.new) }
{
    let (block, guard) = within.into_parts();
    let left = Elements::of(making.sources, &*of, &*inner)?;
    let mut standing = Standing::new(making, left, block, guard)?;
    standing.begin(making)?;
    let count = standing.left.count()?;
    take_each(making, of, &mut standing, count)?;
    let (result, block) = standing.into_end();
    making.drop_block(result, block)
}

// A number of elements, one after the other.
#[cycle(building)]
fn take_each(
    making: &mut Making<'_, '_>,
    of: &[Core<'_>],
    standing: &mut Standing<'_>,
    count: usize,
) -> Result<(), Memory>
    ensures { OnOk result (FollowsIn of.now (λ over at. turned_so_often over count at)
        making.old making.new standing.old standing.new) }
{
    for _turn in 0..count {
        take_next(making, of, standing)?;
    }
    Ok(())
}

// The next element, where one is left.
#[cycle(building)]
fn take_next(
    making: &mut Making<'_, '_>,
    of: &[Core<'_>],
    standing: &mut Standing<'_>,
) -> Result<(), Memory>
    ensures { OnOk result (FollowsIn of.now (λ over at. turned over (next_choice_of at) at)
        making.old making.new standing.old standing.new) }
{
    match next_choice(standing) {
        None => Ok(()),
        Some(choice) => {
            take(making, of, standing, choice)?;
            standing.drop_spent(making)
        }
    }
}

// The element that was chosen.
#[cycle(building)]
fn take(
    making: &mut Making<'_, '_>,
    of: &[Core<'_>],
    standing: &mut Standing<'_>,
    choice: Choice,
) -> Result<(), Memory>
    ensures { OnOk result (FollowsIn of.now (λ over at. taken_by over (choice_of choice) at)
        making.old making.new standing.old standing.new) }
{
    match choice {
        Choice::Atom { index } => standing.take_atom(making, index),
        Choice::Sort { index } => standing.take_sort(making, index),
        Choice::Test { index } => standing.take_test(making, index),
        Choice::Part { index } => take_part(making, of, index, standing),
        Choice::Negation { index } => take_negation(making, of, index, standing),
    }
}

// The other positive at this place.
#[cycle(building)]
fn take_part(
    making: &mut Making<'_, '_>,
    of: &[Core<'_>],
    index: usize,
    standing: &mut Standing<'_>,
) -> Result<(), Memory>
    ensures { OnOk result (FollowsIn of.now (λ over at. other_taken over index
        (slice_get at.others index) at) making.old making.new standing.old standing.new) }
{
    if index < standing.left.others.len() {
        let part = standing.left.others.remove(index);
        if part.index < of.len() {
            build_element(making, &of[part.index], part.tree, Role::Positive, standing)?;
        }
    }
    Ok(())
}

// The negation at this place.
#[cycle(building)]
fn take_negation(
    making: &mut Making<'_, '_>,
    of: &[Core<'_>],
    index: usize,
    standing: &mut Standing<'_>,
) -> Result<(), Memory>
    ensures { OnOk result (FollowsIn of.now (λ over at. negation_taken over index
        (slice_get at.negations index) at) making.old making.new standing.old standing.new) }
{
    if index < standing.left.negations.len() {
        let part = standing.left.negations.remove(index);
        if part.index < of.len() {
            build_denied(making, &of[part.index], part.tree, standing)?;
        }
    }
    Ok(())
}

// What a negation denies.
#[cycle(building)]
fn build_denied(
    making: &mut Making<'_, '_>,
    core: &Core<'_>,
    tree: &VariableTree,
    standing: &mut Standing<'_>,
) -> Result<(), Memory>
    ensures { OnOk result ((f : Form) → core_of core.now ≡ negation f
        → tree_of tree.now ≡ free_tree f
        → BuildsElement false f making.old making.new standing.old standing.new) }
{
    match core {
        Core::Not { of } => build_element(making, of, tree, Role::Negation, standing),
        _ => Ok(()),
    }
}

// The steps of an element, or of what a negation denies, under the projection of the result so far.
#[cycle(building)]
fn build_element(
    making: &mut Making<'_, '_>,
    core: &Core<'_>,
    tree: &VariableTree,
    role: Role,
    standing: &mut Standing<'_>,
) -> Result<(), Memory>
    ensures { OnOk result (tree_of tree.now ≡ free_tree (core_of core.now)
        → BuildsElement (is_positive role) (core_of core.now) making.old making.new
        standing.old standing.new) }
{
    let variables = tree.variables.as_slice();
    prepare(making, variables, role, standing)?;
    let before = standing.result;
    let guard = guard_of(making, core, variables, standing)?;
    let within = Within::new(making.sources.alloc, guard);
    build(making, core, &tree.inner, within)?;
    match role {
        Role::Positive => standing.take_up(making, variables, !is_step(guard, before)),
        Role::Negation => standing.take_off(making, variables),
    }
}

// What a negation wants is brought.
fn prepare(
    making: &mut Making<'_, '_>,
    variables: &[Variable],
    role: Role,
    standing: &mut Standing<'_>,
) -> Result<(), Memory>
    ensures { OnOk result ((f : Form) → map variable_of variables.now ≡ each_once (free f)
        → Follows (prepared (is_positive role) f) making.old making.new
        standing.old standing.new) }
{
    match role {
        Role::Positive => Ok(()),
        Role::Negation => standing.bring(making, variables),
    }
}

// The projection of the result so far for a core form, where it guards it: a leaf has none.
fn guard_of(
    making: &mut Making<'_, '_>,
    core: &Core<'_>,
    variables: &[Variable],
    standing: &Standing<'_>,
) -> Result<Option<PlannedOperand>, Memory>
    ensures { IfOk result (λ guard.
        HaveSame (map variable_of variables.now) (free (core_of core.now))
        → Guards (standing.now.some) (standing.now.result) (core_of core.now)
        making.old making.new guard) }
{
    if !standing.some || is_leaf(core) {
        return Ok(None);
    }
    projected(making, core, variables, standing.result)
}

// The projection of a step for a core form, where it guards it.
fn projected(
    making: &mut Making<'_, '_>,
    core: &Core<'_>,
    variables: &[Variable],
    of: PlannedOperand,
) -> Result<Option<PlannedOperand>, Memory>
    ensures { IfOk result (λ guard.
        HaveSame (map variable_of variables.now) (free (core_of core.now))
        → Projects of (core_of core.now) making.old making.new guard) }
{
    let columns = making.columns_of(of);
    if is_guarded_by(making.sources.alloc, columns, core, variables)? {
        let guard = making.project(of, variables)?;
        return Ok(Some(guard));
    }
    Ok(None)
}

// Whether there is a guard, and it is this step.
fn is_step(guard: Option<PlannedOperand>, step: PlannedOperand) -> bool
    ensures { result ≡ is_this guard step }
{
    match guard {
        Some(guard) => guard.number == step.number,
        None => false,
    }
}

fn is_leaf(core: &Core<'_>) -> bool
    ensures { result ≡ has_no_part (core_of core.now) }
{
    match core {
        Core::Atom { .. } => true,
        Core::Check { .. } => true,
        Core::Sorted { .. } => true,
        Core::Not { .. } => false,
        Core::And { .. } => false,
        Core::Or { .. } => false,
        Core::Exists { .. } => false,
    }
}

// A core form without parts, and then the block is dropped.
fn build_leaf(making: &mut Making<'_, '_>, core: &Core<'_>, within: Within) -> Result<(), Memory>
    ensures { OnOk result (has_no_part (core_of core.now) ≡ true → Builds (core_of core.now)
        (map variable_of within.block) within.guard making.old making.new) }
{
    let (block, guard) = within.into_parts();
    build_plain(making, core, guard)?;
    making.drop_block(making.draft.last, block)
}

// A core form without parts: a `select` of the guard, or a step of its own that is joined with the guard.
fn build_plain(
    making: &mut Making<'_, '_>,
    core: &Core<'_>,
    guard: Option<PlannedOperand>,
) -> Result<(), Memory>
    ensures { OnOk result (has_no_part (core_of core.now) ≡ true
        → Builds (core_of core.now) [] guard making.old making.new) }
{
    match guard {
        None => making.leaf(core),
        Some(guard) => build_under(making, core, guard),
    }
}

// The same under a guard.
fn build_under(
    making: &mut Making<'_, '_>,
    core: &Core<'_>,
    guard: PlannedOperand,
) -> Result<(), Memory>
    ensures { OnOk result (has_no_part (core_of core.now) ≡ true
        → Builds (core_of core.now) [] (Some guard) making.old making.new) }
{
    match covered_test(making, core, guard)? {
        Some(test) => making.select(guard, test),
        None => {
            making.leaf(core)?;
            making.join(guard, List::new(making.sources.alloc))
        }
    }
}

// The comparison or the equality that a core form is, where a step has all of its variables.
fn covered_test(
    making: &Making<'_, '_>,
    core: &Core<'_>,
    guard: PlannedOperand,
) -> Result<Option<Test>, Memory>
    ensures { IfOk result (λ found. (over : Ground) (K : ℕ) (steps : Steps) (i : ℕ)
        → IsMaking over K making.now steps
        → IsPlannedOperand over.structure.relations K steps i guard
        → found ≡ selected_test (free (formula_at steps i)) (core_of core.now)) }
{
    match core {
        Core::Check { test } => covered(making, test, guard),
        Core::Atom { .. } => Ok(None),
        Core::Sorted { .. } => Ok(None),
        Core::Not { .. } => Ok(None),
        Core::And { .. } => Ok(None),
        Core::Or { .. } => Ok(None),
        Core::Exists { .. } => Ok(None),
    }
}

// The test, where it is no `in` and a step has all of its variables.
fn covered(
    making: &Making<'_, '_>,
    test: &TermTest<'_>,
    guard: PlannedOperand,
) -> Result<Option<Test>, Memory>
    ensures { IfOk result (λ found. (over : Ground) (K : ℕ) (steps : Steps) (i : ℕ)
        → IsMaking over K making.now steps
        → IsPlannedOperand over.structure.relations K steps i guard
        → found ≡ selected_test (free (formula_at steps i)) (test_form (test_of test.now))) }
{
    let own = test.owned(making.sources.alloc)?;
    if is_test(test) && covers(making.columns_of(guard), &own) {
        return Ok(Some(own));
    }
    Ok(None)
}

// Whether it is a comparison or an equality.
fn is_test(test: &TermTest<'_>) -> bool
    ensures { result ≡ is_compared (test_of test.now) }
{
    !matches!(test, TermTest::Member { .. })
}

// The guard, where there is one that is not this step, joined with the last step.
fn join_guard(
    making: &mut Making<'_, '_>,
    guard: Option<PlannedOperand>,
    own: Option<PlannedOperand>,
) -> Result<(), Memory>
    ensures { OnOk result (JoinsGuard guard own making.old making.new) }
{
    match guard {
        None => Ok(()),
        Some(guard) => {
            if is_step(own, guard) {
                return Ok(());
            }
            making.join(guard, List::new(making.sources.alloc))
        }
    }
}

// The last step united with an earlier one, where there is one.
fn unite(making: &mut Making<'_, '_>, left: Option<PlannedOperand>) -> Result<(), Memory>
    ensures { OnOk result (Unites left making.old making.new) }
{
    match left {
        Some(left) => making.union(left),
        None => Ok(()),
    }
}
