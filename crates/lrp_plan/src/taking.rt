// What an `and` has taken in, and the tests that it has left.
ghost use Rattle.std.specs.Prelude.{◌≡◌, ℕ, not, filter, map, length, IfOk, OnOk};
ghost use Rattle.std.specs.Option.{is_some};
ghost use Rattle.lrp_core.specs.FreeVariables.{variable_of, with_variables};
ghost use Rattle.lrp_model.specs.Satisfaction.{Structure};
ghost use Rattle.lrp_model.specs.Formulas.{test as test_form};
ghost use Rattle.lrp_model.specs.Variables.{free, are_among as are_members};
ghost use Rattle.lrp_model.specs.Conjunctions.{select_each as selected_each};
ghost use Rattle.lrp_plan.specs.Drafts.{AreTests, Extends};
ghost use Rattle.lrp_plan.specs.Elements.{TakesTests, TurnsTest};
ghost use Rattle.lrp_plan.specs.Waiting.{turn_of};
ghost use Rattle.lrp_plan.specs.Taking.{NextTest, TakesElement, TakesIn, TakesOff, TakesTest, HaveSame, Carries, Splits, Subtracts, covers as covered_by};

use crate::drafts::{Draft, PlannedOperand};
use crate::elements::Kind;
use crate::waiting::Turn;
use lrp_core::{Variable, add_variables, covers, test_variables};
use lrp_model::{List, Memory, Test};
use std::alloc::Global;
use std::mem;

/// What was taken in: the result so far, if there is one, and its variables; and the tests that remain, in list order.
/// Where they are settled, the variables cover none of them, so that they need not be looked at until there is a
/// further variable.
pub(crate) struct Taking {
    pub(crate) result: Option<PlannedOperand>,
    pub(crate) variables: List<Variable>,
    pub(crate) tests: List<Test>,
    pub(crate) settled: bool,
}

// It is let go by one call, which is proved once.
impl Drop for Taking {
    fn drop(self) {
        let Taking {
            result: _result,
            variables: _variables,
            tests: _tests,
            settled: _settled,
        } = self;
    }
}

impl Taking {
    /// The element whose steps were just made is taken in, with these variables. The tests that are then covered follow
    /// by `select` where it is the first element, and are else carried by a `join`.
    fn take_in(
        &mut self,
        alloc: Global,
        draft: &mut Draft,
        variables: &[Variable],
    ) -> Result<(), Memory>
        ensures { OnOk result (TakesIn (map variable_of variables.now) self.old self.new draft.old
            draft.new) }
    {
        let known = add_further(alloc, &mut self.variables, variables)?;
        let settled = self.settled && known;
        let tests = mem::replace(&mut self.tests, List::new(alloc));
        let (carried, left) = split_tests(alloc, settled, tests, self.variables.as_slice())?;
        self.tests = left;
        self.settled = true;
        carry(draft, self.result, carried)?;
        self.result = Some(draft.last);
        Ok(())
    }

    /// Which elements of a kind go before the others.
    pub(crate) fn turn(&self, kind: Kind) -> Turn
        ensures { result ≡ turn_of kind (is_some self.now.result) }
    {
        match kind {
            Kind::Positive => Turn::Meeting,
            Kind::Negation => Turn::Covered {
                some: self.result.is_some(),
            },
        }
    }

    /// The element of a kind whose steps were just made is taken in or taken off.
    pub(crate) fn take(
        &mut self,
        alloc: Global,
        draft: &mut Draft,
        kind: Kind,
        variables: &[Variable],
    ) -> Result<(), Memory>
        ensures { OnOk result (TakesElement kind (map variable_of variables.now) self.old self.new
            draft.old draft.new) }
    {
        match kind {
            Kind::Positive => self.take_in(alloc, draft, variables),
            Kind::Negation => self.take_off(alloc, draft, variables),
        }
    }

    /// The first remaining test, which is no longer one.
    pub(crate) fn next_test(&mut self, alloc: Global) -> Option<Test>
        ensures { NextTest self.old self.new result }
    {
        let mut tests = mem::replace(&mut self.tests, List::new(alloc)).into_vec();
        if tests.is_empty() {
            return None;
        }
        let first = tests.remove(0);
        self.tests = List::from_vec(tests);
        Some(first)
    }

    /// The first remaining test is made as a step of its own, and taken in.
    pub(crate) fn take_test(
        &mut self,
        alloc: Global,
        draft: &mut Draft,
        test: Test,
    ) -> Result<(), Memory>
        ensures { OnOk result (TakesTest test self.old self.new draft.old draft.new) }
    {
        let variables = variables_of(alloc, &test)?;
        draft.leaf(test)?;
        self.take_in(alloc, draft, variables.as_slice())
    }

    /// The formula whose steps were just made is taken off: by a `minus` where its variables are covered, and else as
    /// its complement, which is joined with the result so far.
    fn take_off(
        &mut self,
        alloc: Global,
        draft: &mut Draft,
        variables: &[Variable],
    ) -> Result<(), Memory>
        ensures { OnOk result (TakesOff (map variable_of variables.now) self.old self.new draft.old
            draft.new) }
    {
        let covered = add_further(alloc, &mut self.variables, variables)?;
        subtract(alloc, draft, self.result, covered)?;
        self.settled = false;
        self.result = Some(draft.last);
        Ok(())
    }
}

// All of the variables, each after the others where it is none of them yet; and whether all of them were there before.
fn add_further(alloc: Global, all: &mut List<Variable>, more: &[Variable]) -> Result<bool, Memory>
    ensures known { IfOk result (λ known. known
        ≡ are_members (map variable_of more.now) (map variable_of all.old)) }
    ensures all { OnOk result (map variable_of all.new
        ≡ with_variables (map variable_of all.old) (map variable_of more.now)) }
{
    let before = all.len();
    add_variables(alloc, all, more)?;
    Ok(all.len() == before)
}

/// Each test that remains is made and taken in, in order.
pub(crate) fn take_tests(
    alloc: Global,
    draft: &mut Draft,
    taking: &mut Taking,
) -> Result<(), Memory>
    ensures { OnOk result (TakesTests (length taking.old.tests) draft.old draft.new taking.old
        taking.new) }
{
    for _turn in 0..taking.tests.len() {
        take_next(alloc, draft, taking)?;
    }
    Ok(())
}

// The next test, if there is one.
fn take_next(alloc: Global, draft: &mut Draft, taking: &mut Taking) -> Result<(), Memory>
    ensures { OnOk result (TurnsTest draft.old draft.new taking.old taking.new) }
{
    match taking.next_test(alloc) {
        None => Ok(()),
        Some(test) => taking.take_test(alloc, draft, test),
    }
}

// The variables of a test.
#[tactic(auto, using(crate::proofs::Sorting::same_as_once))]
fn variables_of(alloc: Global, test: &Test) -> Result<List<Variable>, Memory>
    ensures { IfOk result (λ made. HaveSame (map variable_of made) (free (test_form test.now))) }
{
    test_variables(alloc, test)
}

// The last step joined with the result so far, or the tests selected of it where there is no result.
fn carry(draft: &mut Draft, left: Option<PlannedOperand>, tests: List<Test>) -> Result<(), Memory>
    ensures { OnOk result (Carries left tests draft.old draft.new) }
{
    match left {
        Some(left) => draft.join(left, tests),
        None => select_each(draft, tests),
    }
}

// The last step taken off the result so far where it is covered; else its complement, joined with the result where
// there is one.
fn subtract(
    alloc: Global,
    draft: &mut Draft,
    left: Option<PlannedOperand>,
    covered: bool,
) -> Result<(), Memory>
    ensures { OnOk result (Subtracts left covered draft.old draft.new) }
{
    match left {
        Some(left) if covered => draft.minus(left),
        Some(left) => {
            draft.complement()?;
            draft.join(left, List::new(alloc))
        }
        None => draft.complement(),
    }
}

// One `select` for each test, in order.
fn select_each(draft: &mut Draft, tests: List<Test>) -> Result<(), Memory>
    ensures { OnOk result ((M : Structure) (K : ℕ) → AreTests tests
        → Extends M K (selected_each tests) draft.old draft.new) }
{
    for test in tests.into_vec() {
        draft.select(test)?;
    }
    Ok(())
}

// The tests that these variables cover, and the others, each in order. Settled tests are all others.
fn split_tests(
    alloc: Global,
    settled: bool,
    tests: List<Test>,
    variables: &[Variable],
) -> Result<(List<Test>, List<Test>), Memory>
    ensures { IfOk result (λ made. Splits settled
        (map variable_of variables.now) tests made.0 made.1) }
{
    if settled {
        return Ok((List::new(alloc), tests));
    }
    split_covered(alloc, tests, variables)
}

/// The tests whose variables are all among these, and the others, each in order.
pub fn split_covered(
    alloc: Global,
    tests: List<Test>,
    variables: &[Variable],
) -> Result<(List<Test>, List<Test>), Memory>
    ensures covered { IfOk result (λ made. made.0
        ≡ filter (covered_by (map variable_of variables.now)) tests) }
    ensures others { IfOk result (λ made. made.1
        ≡ filter (λ t. not (covered_by (map variable_of variables.now) t)) tests) }
{
    let mut covered = List::new(alloc);
    let mut others = List::new(alloc);
    for test in tests.into_vec() {
        if covers(variables, &test) {
            covered.push(test)?;
        } else {
            others.push(test)?;
        }
    }
    Ok((covered, others))
}
