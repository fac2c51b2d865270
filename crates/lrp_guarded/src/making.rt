// The steps made so far, with the variables of each.
ghost use Rattle.std.specs.Prelude.{◌≡◌, ℕ, [], ◌∷◌, map, reverse, length, not, filter, true, IfOk, OnOk, List as ListOf};
ghost use Rattle.lrp_core.specs.Cores.{core_of};
ghost use Rattle.lrp_core.specs.FreeVariables.{variable_of, with_variables, each_once, others};
ghost use Rattle.lrp_theory.specs.Divides.{IsCommon};
ghost use Rattle.lrp_model.specs.Periods.{test_periods};
ghost use Rattle.lrp_model.specs.Plans.{plan_of};
ghost use Rattle.lrp_model.specs.Satisfaction.{Structure};
ghost use Rattle.lrp_model.specs.Steps.{Steps, formula_at, join as joined, union as united, minus as taken_off, complement as complemented, leaf as tested};
ghost use Rattle.lrp_model.specs.Variables.{Variable as VariableOf, free, is_among};
ghost use Rattle.lrp_plan_laws.specs.Binding.{is_leaf};
ghost use Rattle.lrp_plan_laws.specs.Projections.{PlanGround as Ground, drop_variable as dropped_one, drop_each as dropped, last_drop, project as projection, projected};
ghost use Rattle.lrp_plan_laws.specs.GuardedConjunctions.{select_from, select_each_from, last_selected};
ghost use Rattle.lrp_limits.specs.Multiples.{IsPeriod};
ghost use Rattle.lrp_plan.specs.Drafts.{AreTests, IsPlannedOperand};
ghost use Rattle.lrp_plan.specs.Elements.{CanPlan, MakesSteps};
ghost use Rattle.lrp_plan.specs.Sources.{AreSources};
ghost use Rattle.lrp_plan.specs.Taking.{HaveSame};
ghost use Rattle.lrp_guarded.specs.Making.{IsMaking, AreDataSorts, Makes, MakesFrom, MakesTo, DropsFrom};

use crate::lists::{add_test, add_tests, without};
use lrp_core::{Core, Variable, add_variables, free_variables, test_variables};
use lrp_model::{Copies, List, Memory, Test};
use lrp_plan::drafts::{Draft, PlannedOperand};
use lrp_plan::leaves::{plan_atom, plan_sorted, plan_test};
use lrp_plan::sources::Sources;
use std::alloc::Global;

/// What is read of a database and a query, the steps made so far, and the variables of each step, in the order of its
/// columns.
pub(crate) struct Making<'a, 'b> {
    pub(crate) sources: &'a Sources<'b>,
    pub(crate) draft: Draft,
    pub(crate) columns: Vec<List<Variable>>,
}

// It is let go by one call, which is proved once.
impl<'a, 'b> Drop for Making<'a, 'b> {
    fn drop(self) {
        let Making {
            sources: _sources,
            draft: _draft,
            columns: _columns,
        } = self;
    }
}

impl<'a, 'b> Making<'a, 'b> {
    /// No steps yet.
    pub(crate) fn new(sources: &'a Sources<'b>) -> Making<'a, 'b>
        ensures { (over : Ground) (K : ℕ) → IsPeriod K → AreSources over.structure sources.now
            → sources.now.database.now ≡ over.structure.relations
            → AreDataSorts over.sorts → IsMaking over K result [] }
    {
        Making {
            sources,
            draft: Draft::new(sources.alloc),
            columns: Vec::new(sources.alloc),
        }
    }

    /// The steps alone.
    pub(crate) fn into_draft(self) -> Draft
        ensures { result ≡ self.entry.draft }
    {
        let Making {
            sources: _sources,
            draft,
            columns: _columns,
        } = self;
        draft
    }

    /// The variables of a step, in the order of its columns.
    pub(crate) fn columns_of(&self, of: PlannedOperand) -> &[Variable]
        ensures { (over : Ground) (K : ℕ) (steps : Steps) (i : ℕ) → IsMaking over K self.now steps
            → IsPlannedOperand over.structure.relations K steps i of
            → map variable_of result.now ≡ each_once (free (formula_at steps i)) }
    {
        let number = of.number as usize;
        if number == 0 || number > self.columns.len() {
            return &[];
        }
        self.columns[number - 1].as_slice()
    }

    /// A core form without parts.
    pub(crate) fn leaf(&mut self, core: &Core<'_>) -> Result<(), Memory>
        ensures { OnOk result ((over : Ground) (K : ℕ) (steps : Steps)
            → is_leaf (core_of core.now) ≡ true → CanPlan over.structure K (core_of core.now)
            → IsMaking over K self.old steps
            → IsMaking over K self.new (plan_of (core_of core.now) over.structure steps)) }
    {
        let columns = free_variables(self.sources.alloc, core)?;
        plan_leaf(self.sources, &mut self.draft, core)?;
        self.columns.push(columns)?;
        Ok(())
    }

    /// A test as a step of its own.
    pub(crate) fn test(&mut self, test: Test) -> Result<(), Memory>
        ensures { OnOk result ((over : Ground) (K : ℕ) (steps : Steps)
            → IsCommon (test_periods test) K → IsMaking over K self.old steps
            → IsMaking over K self.new (tested test over.structure steps)) }
    {
        let columns = test_variables(self.sources.alloc, &test)?;
        self.draft.leaf(test)?;
        self.columns.push(columns)?;
        Ok(())
    }

    /// An earlier step joined with the last one.
    pub(crate) fn join(&mut self, left: PlannedOperand, tests: List<Test>) -> Result<(), Memory>
        ensures { OnOk result (AreTests tests
            → MakesFrom left (λ over i. joined i tests over.structure) self.old self.new) }
    {
        let mut columns = self.both(left)?;
        add_tests(self.sources.alloc, &mut columns, tests.as_slice())?;
        self.draft.join(left, tests)?;
        self.columns.push(columns)?;
        Ok(())
    }

    /// An earlier step and the last one.
    pub(crate) fn union(&mut self, left: PlannedOperand) -> Result<(), Memory>
        ensures { OnOk result (MakesFrom left (λ over i. united i over.structure)
            self.old self.new) }
    {
        let columns = self.both(left)?;
        self.draft.union(left)?;
        self.columns.push(columns)?;
        Ok(())
    }

    /// An earlier step without what the last one has.
    pub(crate) fn minus(&mut self, left: PlannedOperand) -> Result<(), Memory>
        ensures { OnOk result (MakesFrom left (λ over i. taken_off i over.structure)
            self.old self.new) }
    {
        let columns = self.both(left)?;
        self.draft.minus(left)?;
        self.columns.push(columns)?;
        Ok(())
    }

    /// What the last step does not have.
    pub(crate) fn complement(&mut self) -> Result<(), Memory>
        ensures { OnOk result (Makes (λ over. complemented over.structure) self.old self.new) }
    {
        let columns = self.copied(self.draft.last)?;
        self.draft.complement()?;
        self.columns.push(columns)?;
        Ok(())
    }

    /// What of a step passes each of the tests, in order; the last of these steps, or the step itself.
    pub(crate) fn select_each(
        &mut self,
        of: PlannedOperand,
        tests: List<Test>,
    ) -> Result<PlannedOperand, Memory>
        ensures { IfOk result (λ last. AreTests tests
            → MakesTo of (λ over i. select_each_from i tests over.structure)
            (λ over i steps. last_selected tests i
            (select_each_from i tests over.structure steps)) self.old self.new last) }
    {
        let mut last = of;
        for test in tests.into_vec() {
            self.select(last, test)?;
            last = self.draft.last;
        }
        Ok(last)
    }

    /// What of a step passes a test.
    pub(crate) fn select(&mut self, of: PlannedOperand, test: Test) -> Result<(), Memory>
        ensures { OnOk result (AreTests (test ∷ [])
            → MakesFrom of (λ over i. select_from i test over.structure) self.old self.new) }
    {
        let mut columns = self.copied(of)?;
        add_test(self.sources.alloc, &mut columns, &test)?;
        self.draft.select_from(of, test)?;
        self.columns.push(columns)?;
        Ok(())
    }

    /// A step without each of the variables, in order; the last of these steps, or the step itself.
    pub(crate) fn drop_each(
        &mut self,
        of: PlannedOperand,
        variables: &[Variable],
    ) -> Result<PlannedOperand, Memory>
        ensures { IfOk result (λ last.
            MakesTo of (λ over i. dropped over (map variable_of variables.now) i)
            (λ over i steps. last_drop (map variable_of variables.now) i
            (dropped over (map variable_of variables.now) i steps)) self.old self.new last) }
    {
        let mut last = of;
        for variable in variables {
            self.drop_variable(last, variable)?;
            last = self.draft.last;
        }
        Ok(last)
    }

    /// The projection of a step to these variables.
    pub(crate) fn project(
        &mut self,
        of: PlannedOperand,
        wanted: &[Variable],
    ) -> Result<PlannedOperand, Memory>
        ensures { IfOk result (λ last. (vs : ListOf VariableOf)
            → HaveSame (map variable_of wanted.now) vs → MakesTo of (λ over i. projection over vs i)
            (λ over i. projected over vs i) self.old self.new last) }
    {
        let dropped = without(self.sources.alloc, self.columns_of(of), wanted)?;
        self.drop_each(of, dropped.as_slice())
    }

    /// A step without the variables of a block, the innermost first.
    pub(crate) fn drop_block(
        &mut self,
        of: PlannedOperand,
        block: List<Variable>,
    ) -> Result<(), Memory>
        ensures { OnOk result (MakesFrom of
            (λ over i. dropped over (reverse (map variable_of block)) i) self.old self.new) }
    {
        let mut variables = block.into_vec();
        variables.reverse();
        self.drop_each(of, variables.as_slice())?;
        Ok(())
    }

    // A step without a variable.
    fn drop_variable(&mut self, of: PlannedOperand, variable: &Variable) -> Result<(), Memory>
        ensures { OnOk result (MakesFrom of
            (λ over i. dropped_one over (variable_of variable.now) i) self.old self.new) }
    {
        let columns = self.columns_without(of, variable)?;
        drop_from(self.sources.alloc, &mut self.draft, of, variable)?;
        self.columns.push(columns)?;
        Ok(())
    }

    // The variables of a step but for one.
    fn columns_without(
        &self,
        of: PlannedOperand,
        variable: &Variable,
    ) -> Result<List<Variable>, Memory>
        ensures { IfOk result (λ made. (over : Ground) (K : ℕ) (steps : Steps) (i : ℕ)
            → IsMaking over K self.now steps
            → IsPlannedOperand over.structure.relations K steps i of
            → map variable_of made ≡ others (variable_of variable.now)
            (each_once (free (formula_at steps i)))) }
    {
        let alloc = self.sources.alloc;
        let mut dropped = List::new(alloc);
        dropped.push(variable.copy(alloc)?)?;
        without(alloc, self.columns_of(of), dropped.as_slice())
    }

    // The variables of a step.
    fn copied(&self, of: PlannedOperand) -> Result<List<Variable>, Memory>
        ensures { IfOk result (λ made. (over : Ground) (K : ℕ) (steps : Steps) (i : ℕ)
            → IsMaking over K self.now steps
            → IsPlannedOperand over.structure.relations K steps i of
            → map variable_of made ≡ each_once (free (formula_at steps i))) }
    {
        let mut columns = List::new(self.sources.alloc);
        add_variables(self.sources.alloc, &mut columns, self.columns_of(of))?;
        Ok(columns)
    }

    // The variables of an earlier step, and those of the last one that are new.
    fn both(&self, left: PlannedOperand) -> Result<List<Variable>, Memory>
        ensures { IfOk result (λ made. (over : Ground) (K : ℕ) (steps : Steps) (i : ℕ)
            → IsMaking over K self.now steps
            → IsPlannedOperand over.structure.relations K steps i left
            → map variable_of made ≡ with_variables (each_once (free (formula_at steps i)))
            (free (formula_at steps (length steps)))) }
    {
        let mut columns = self.copied(left)?;
        let right = self.columns_of(self.draft.last);
        add_variables(self.sources.alloc, &mut columns, right)?;
        Ok(columns)
    }
}

// The step of a core form without parts.
fn plan_leaf(sources: &Sources<'_>, draft: &mut Draft, core: &Core<'_>) -> Result<(), Memory>
    ensures { OnOk result ((M : Structure) (K : ℕ) → is_leaf (core_of core.now) ≡ true
        → AreSources M sources.now → MakesSteps M K (core_of core.now) draft.old draft.new) }
{
    match core {
        Core::Atom { relation, terms } => plan_atom(sources, draft, relation, terms.as_slice()),
        Core::Check { test } => plan_test(sources.alloc, draft, test),
        Core::Sorted { sort, name } => plan_sorted(sources, draft, sort, name),
        _ => Ok(()),
    }
}

// A step without a variable.
fn drop_from(
    alloc: Global,
    draft: &mut Draft,
    of: PlannedOperand,
    variable: &Variable,
) -> Result<(), Memory>
    ensures { OnOk result (DropsFrom of (variable_of variable.now) draft.old draft.new) }
{
    match variable {
        Variable::Time { name } => {
            let name = name.copy(alloc)?;
            draft.drop_time(of, name)
        }
        Variable::Data { name } => {
            let name = name.copy(alloc)?;
            draft.drop_data(of, name)
        }
    }
}
