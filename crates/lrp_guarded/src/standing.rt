// Where the making of an `and` stands.
ghost use Rattle.std.specs.Prelude.{◌≡◌, ℕ, Bool, false, true, List as ListOf, Option as OptionOf, filter, not, map, slice_get, IfOk, OnOk};
ghost use Rattle.lrp_core.specs.FreeVariables.{variable_of, each_once};
ghost use Rattle.lrp_core.specs.declared.core_forms.Core.{Core as CoreForm};
ghost use Rattle.lrp_model.specs.Formulas.{Form};
ghost use Rattle.lrp_model.specs.Steps.{Steps};
ghost use Rattle.lrp_model.specs.Variables.{Variable as VariableOf, free};
ghost use Rattle.lrp_plan_laws.specs.Projections.{PlanGround as Ground};
ghost use Rattle.lrp_plan_laws.specs.GuardedConjunctions.{Standing as StandingOf, Elements as ElementsOf, standing_first, begun, take_atom as atom_taken, take_sort as sort_taken, take_one_test as test_taken, drop_spent as spent_dropped, bring_each as brought_each, last_brought};
ghost use Rattle.lrp_plan.specs.Taking.{HaveSame};
ghost use Rattle.lrp_guarded.specs.Making.{IsMaking, MakesTo};
ghost use Rattle.lrp_guarded.specs.Standing.{IsStandingOf as IsStanding, IsGuard, AreElements, FollowsRule as Follows, taking_up, subtracting as taking_off, bringing};

use crate::elements::{Elements, RankedAtom, RankedSort};
use crate::lists::{shared, without};
use crate::making::Making;
use crate::needs::{any_value, still_needed};
use lrp_core::{Core, Variable, add_variables, test_variables};
use lrp_model::{List, Memory};
use lrp_plan::drafts::{PlannedOperand, no_step};
use lrp_plan::taking::split_covered;
use std::alloc::Global;
use std::mem;

/// Whether something was taken in, the result so far, and its variables; the elements that are left; and the variables of
/// the block that are not dropped, the outermost first.
pub(crate) struct Standing<'a> {
    pub(crate) some: bool,
    pub(crate) result: PlannedOperand,
    pub(crate) variables: List<Variable>,
    pub(crate) left: Elements<'a>,
    pub(crate) block: List<Variable>,
}

// It is let go by one call, which is proved once.
impl<'a> Drop for Standing<'a> {
    fn drop(self) {
        let Standing {
            some: _some,
            result: _result,
            variables: _variables,
            left: _left,
            block: _block,
        } = self;
    }
}

impl<'a> Standing<'a> {
    /// Nothing but a guard was taken in, if there is one.
    pub(crate) fn new(
        making: &Making<'_, '_>,
        left: Elements<'a>,
        block: List<Variable>,
        guard: Option<PlannedOperand>,
    ) -> Result<Standing<'a>, Memory>
        ensures { IfOk result (λ made. (over : Ground) (K : ℕ) (fs : ListOf CoreForm)
            (es : ElementsOf) (steps : Steps) (g : OptionOf ℕ) → IsMaking over K making.now steps
            → IsGuard over K steps guard g → AreElements over K fs left.entry es
            → IsStanding over K fs made
            (standing_first over es (map variable_of block) g steps)) }
    {
        let alloc = making.sources.alloc;
        let mut variables = List::new(alloc);
        let result = match guard {
            Some(guard) => {
                add_variables(alloc, &mut variables, making.columns_of(guard))?;
                guard
            }
            None => no_step(),
        };
        Ok(Standing {
            some: guard.is_some(),
            result,
            variables,
            left,
            block,
        })
    }

    /// The result so far, and the variables of the block that are not dropped.
    pub(crate) fn into_end(self) -> (PlannedOperand, List<Variable>)
        ensures result { result.0 ≡ self.entry.result }
        ensures block { result.1 ≡ self.entry.block }
    {
        let Standing {
            some: _some,
            result,
            variables: _variables,
            left: _left,
            block,
        } = self;
        (result, block)
    }

    /// The tests that the guard covers follow by `select`.
    pub(crate) fn begin(&mut self, making: &mut Making<'_, '_>) -> Result<(), Memory>
        ensures { OnOk result (Follows begun making.old making.new self.old self.new) }
    {
        if self.some {
            let alloc = making.sources.alloc;
            let tests = mem::replace(&mut self.left.tests, List::new(alloc));
            let (carried, left) = split_covered(alloc, tests, self.variables.as_slice())?;
            self.left.tests = left;
            self.result = making.select_each(self.result, carried)?;
        }
        Ok(())
    }

    /// The atom at this place is made and taken in. The sort elements that it makes needless are left out.
    pub(crate) fn take_atom(
        &mut self,
        making: &mut Making<'_, '_>,
        index: usize,
    ) -> Result<(), Memory>
        ensures { OnOk result (Follows (λ over at. atom_taken over index
            (slice_get at.atoms index) at) making.old making.new self.old self.new) }
    {
        if index < self.left.atoms.len() {
            let atom = self.left.atoms.remove(index);
            let sorts = mem::replace(&mut self.left.sorts, Vec::new(making.sources.alloc));
            self.left.sorts = still_needed(making.sources, atom, sorts)?;
            let RankedAtom {
                relation,
                terms,
                variables,
                rows: _rows,
            } = atom;
            making.leaf(&Core::Atom { relation, terms })?;
            self.take_up(making, variables.as_slice(), true)?;
        }
        Ok(())
    }

    /// The sort element at this place is made and taken in.
    pub(crate) fn take_sort(
        &mut self,
        making: &mut Making<'_, '_>,
        index: usize,
    ) -> Result<(), Memory>
        ensures { OnOk result (Follows (λ over at. sort_taken over index
            (slice_get at.sorts index) at) making.old making.new self.old self.new) }
    {
        if index < self.left.sorts.len() {
            let RankedSort {
                sort,
                name,
                variables,
                texts: _texts,
            } = self.left.sorts.remove(index);
            making.leaf(&Core::Sorted { sort, name })?;
            self.take_up(making, variables.as_slice(), true)?;
        }
        Ok(())
    }

    /// The test at this place is made and taken in.
    pub(crate) fn take_test(
        &mut self,
        making: &mut Making<'_, '_>,
        index: usize,
    ) -> Result<(), Memory>
        ensures { OnOk result (Follows (λ over at. test_taken over index
            (slice_get at.tests index) at) making.old making.new self.old self.new) }
    {
        if index < self.left.tests.len() {
            let alloc = making.sources.alloc;
            let mut tests = mem::replace(&mut self.left.tests, List::new(alloc)).into_vec();
            let test = tests.remove(index);
            self.left.tests = List::from_vec(tests);
            let variables = test_variables(alloc, &test)?;
            making.test(test)?;
            self.take_up(making, variables.as_slice(), true)?;
        }
        Ok(())
    }

    /// The formula whose steps were just made is taken in, with these variables. Where it is joined and something was taken
    /// in before, a `join` carries the tests that are then covered; else they follow by `select`.
    pub(crate) fn take_up(
        &mut self,
        making: &mut Making<'_, '_>,
        variables: &[Variable],
        is_joined: bool,
    ) -> Result<(), Memory>
        ensures { OnOk result ((vs : ListOf VariableOf)
            → HaveSame (map variable_of variables.now) vs
            → Follows (taking_up is_joined vs) making.old making.new self.old self.new) }
    {
        let alloc = making.sources.alloc;
        add_variables(alloc, &mut self.variables, variables)?;
        let tests = mem::replace(&mut self.left.tests, List::new(alloc));
        let (carried, left) = split_covered(alloc, tests, self.variables.as_slice())?;
        self.left.tests = left;
        if self.some && is_joined {
            making.join(self.result, carried)?;
        } else {
            making.select_each(making.draft.last, carried)?;
        }
        self.some = true;
        self.result = making.draft.last;
        Ok(())
    }

    /// The variables of a formula that were not taken are brought, each by a step that all of its values pass.
    pub(crate) fn bring(
        &mut self,
        making: &mut Making<'_, '_>,
        variables: &[Variable],
    ) -> Result<(), Memory>
        ensures { OnOk result ((f : Form) → map variable_of variables.now ≡ each_once (free f)
            → Follows (bringing f) making.old making.new self.old self.new) }
    {
        if self.some {
            let alloc = making.sources.alloc;
            let missing = without(alloc, variables, self.variables.as_slice())?;
            self.result = bring_each(alloc, making, self.result, missing.as_slice())?;
            add_variables(alloc, &mut self.variables, missing.as_slice())?;
        }
        Ok(())
    }

    /// The formula whose steps were just made is taken off the result so far, or its complement is the result.
    pub(crate) fn take_off(
        &mut self,
        making: &mut Making<'_, '_>,
        variables: &[Variable],
    ) -> Result<(), Memory>
        ensures { OnOk result ((vs : ListOf VariableOf)
            → HaveSame (map variable_of variables.now) vs
            → Follows (taking_off vs) making.old making.new self.old self.new) }
    {
        add_variables(making.sources.alloc, &mut self.variables, variables)?;
        if self.some {
            making.minus(self.result)?;
        } else {
            making.complement()?;
        }
        self.some = true;
        self.result = making.draft.last;
        Ok(())
    }

    /// The variables of the block that nothing has that is left are dropped, the outermost first.
    pub(crate) fn drop_spent(&mut self, making: &mut Making<'_, '_>) -> Result<(), Memory>
        ensures { OnOk result (Follows spent_dropped making.old making.new self.old self.new) }
    {
        if self.block.len() > 0 {
            let alloc = making.sources.alloc;
            let left = self.left.variables(alloc)?;
            let spent = without(alloc, self.block.as_slice(), left.as_slice())?;
            making.drop_each(self.result, spent.as_slice())?;
            self.block = shared(alloc, self.block.as_slice(), left.as_slice())?;
        }
        self.result = making.draft.last;
        Ok(())
    }
}

// Each variable is brought by a step that all of its values pass, which is joined; the last of these joins, or the step.
fn bring_each(
    alloc: Global,
    making: &mut Making<'_, '_>,
    of: PlannedOperand,
    variables: &[Variable],
) -> Result<PlannedOperand, Memory>
    ensures { IfOk result (λ last.
        MakesTo of (λ over i. brought_each over.structure (map variable_of variables.now) i)
        (λ over i steps. last_brought (map variable_of variables.now) i
        (brought_each over.structure (map variable_of variables.now) i steps))
        making.old making.new last) }
{
    let mut last = of;
    for variable in variables {
        making.test(any_value(alloc, variable)?)?;
        making.join(last, List::new(alloc))?;
        last = making.draft.last;
    }
    Ok(last)
}
