// The steps made so far, and the rules that make one more.
ghost use Rattle.std.specs.Prelude.{◌≡◌, ℕ, ◌*◌, [], ◌∷◌, OnOk};
ghost use Rattle.lrp_model.specs.Formulas.{Form, atom, test as test_form};
ghost use Rattle.lrp_model.specs.Rows.{rows_of};
ghost use Rattle.lrp_theory.specs.Divides.{IsCommon};
ghost use Rattle.lrp_model.specs.Periods.{periods, test_periods};
ghost use Rattle.lrp_model.specs.Satisfaction.{Structure};
ghost use Rattle.lrp_model.specs.Steps.{scan_of as scanned, leaf as tested, sort_texts, join as joined, select as selected, union as united, minus as taken_off, complement as complemented, drop_of};
ghost use Rattle.lrp_plan_laws.specs.GuardedConjunctions.{select_from as selected_from};
ghost use Rattle.lrp_limits.specs.Capped.{capped as capped_at};
ghost use Rattle.lrp_plan.specs.Drafts.{AddsStep, Extends, ExtendsBoth, AreTests, with_head_step};
ghost use Rattle.lrp_limits.specs.Facts.{AreFacts};
ghost use Rattle.lrp_limits.specs.Multiples.{IsPeriod, IsLeastWithinLimit};

use lrp_limits::facts::Facts;
use lrp_limits::periods::{Period, common_period, one};
use lrp_limits::reaches::{
    capped, doubled, greatest_offset, scan_reach, test_reach, tests_reach, with_period,
    with_two_periods,
};
use lrp_model::{DataText, List, Memory, Name, Sort, Step, StepKind, Term, Test, numbered};
use std::alloc::Global;

/// What later steps read of a step: its number, its period, and its reach up to 2^62 + 1.
#[derive(Clone, Copy)]
pub struct PlannedOperand {
    pub number: u32,
    pub period: Period,
    pub reach: u64,
}

/// What is read of no step at all.
pub fn no_step() -> PlannedOperand
    ensures number { result.number ≡ 0 }
    ensures period { result.period.number ≡ 1 }
    ensures reach { result.reach ≡ 0 }
{
    PlannedOperand {
        number: 0,
        period: one(),
        reach: 0,
    }
}

/// The steps made so far, with reaches up to 2^62 + 1, and what is read of the last of them.
pub struct Draft {
    pub steps: List<Step>,
    pub last: PlannedOperand,
}

// It is let go by one call, which is proved once.
impl Drop for Draft {
    fn drop(self) {
        let Draft {
            steps: _steps,
            last: _last,
        } = self;
    }
}

impl Draft {
    /// Its steps alone.
    pub fn into_steps(self) -> List<Step>
        ensures { result ≡ self.steps }
    {
        let Draft { steps, last: _last } = self;
        steps
    }

    /// No steps yet.
    pub fn new(alloc: Global) -> Draft
        ensures steps { result.steps ≡ [] }
        ensures number { result.last.number ≡ 0 }
        ensures period { result.last.period.number ≡ 1 }
        ensures reach { result.last.reach ≡ 0 }
    {
        Draft {
            steps: List::new(alloc),
            last: no_step(),
        }
    }

    // One step more. Memory is refused where its number is above 32 bits.
    fn add(&mut self, kind: StepKind, period: Period, reach: u128) -> Result<(), Memory>
        ensures { OnOk result (AddsStep kind period.number (capped_at reach) self.old self.new) }
    {
        let number = numbered(self.last.number as usize + 1)?;
        let reach = capped(reach);
        self.steps.push(Step {
            kind,
            period: period.number as i64,
            reach: reach as i64,
        })?;
        self.last = PlannedOperand {
            number,
            period,
            reach,
        };
        Ok(())
    }

    /// An atom, over the facts of its relation's rows.
    pub fn scan(&mut self, facts: Facts, relation: Name, terms: List<Term>) -> Result<(), Memory>
        ensures { OnOk result ((M : Structure) (K : ℕ)
            → AreFacts (rows_of M.relations relation) facts
            → IsCommon (periods (atom relation terms) M.relations) K
            → Extends M K (scanned relation terms) self.old self.new) }
    {
        let period = facts.period.unwrap_or(one());
        let reach = scan_reach(facts.bound, greatest_offset(terms.as_slice()), period);
        self.add(StepKind::Scan { relation, terms }, period, reach)
    }

    /// A test as a step of its own.
    pub fn leaf(&mut self, test: Test) -> Result<(), Memory>
        ensures { OnOk result ((M : Structure) (K : ℕ)
            → IsCommon (periods (test_form test) M.relations) K
            → Extends M K (tested test) self.old self.new) }
    {
        let period = period_of(&test);
        let reach = u128::from(test_reach(&test));
        self.add(StepKind::Leaf { test }, period, reach)
    }

    /// A sort element, with the texts of the sort.
    pub fn sort(&mut self, name: Name, sort: Sort, texts: List<DataText>) -> Result<(), Memory>
        ensures { OnOk result ((M : Structure) (K : ℕ) → texts ≡ M.domain sort
            → Extends M K (sort_texts sort name) self.old self.new) }
    {
        self.add(StepKind::Sort { name, sort, texts }, one(), 1)
    }

    /// An earlier step joined with the last one; the tests name no period.
    pub fn join(&mut self, left: PlannedOperand, tests: List<Test>) -> Result<(), Memory>
        ensures { OnOk result ((M : Structure) (K : ℕ) → AreTests tests
            → ExtendsBoth M K left (λ number. joined number tests) self.old self.new) }
    {
        let right = self.last;
        let period = common_period(left.period, right.period);
        let operands = left.reach.max(right.reach);
        let reach = with_period(operands.max(tests_reach(tests.as_slice())), period);
        self.add(
            StepKind::Join {
                left: left.number,
                right: right.number,
                tests,
            },
            period,
            reach,
        )
    }

    /// What of the last step passes a test that names no period.
    pub fn select(&mut self, test: Test) -> Result<(), Memory>
        ensures { OnOk result ((M : Structure) (K : ℕ) → AreTests (test ∷ [])
            → Extends M K (selected test) self.old self.new) }
    {
        let of = self.last;
        self.select_from(of, test)
    }

    /// What of an earlier step passes a test that names no period.
    pub fn select_from(&mut self, of: PlannedOperand, test: Test) -> Result<(), Memory>
        ensures { OnOk result ((M : Structure) (K : ℕ) → AreTests (test ∷ [])
            → ExtendsBoth M K of (λ number. selected_from number test) self.old self.new) }
    {
        let reach = with_period(of.reach.max(test_reach(&test)), of.period);
        self.add(
            StepKind::Select {
                of: of.number,
                test,
            },
            of.period,
            reach,
        )
    }

    /// An earlier step and the last one.
    pub fn union(&mut self, left: PlannedOperand) -> Result<(), Memory>
        ensures { OnOk result ((M : Structure) (K : ℕ)
            → ExtendsBoth M K left united self.old self.new) }
    {
        let right = self.last;
        let period = common_period(left.period, right.period);
        let reach = with_period(left.reach.max(right.reach), period);
        self.add(
            StepKind::Union {
                left: left.number,
                right: right.number,
            },
            period,
            reach,
        )
    }

    /// An earlier step without what the last one has.
    pub fn minus(&mut self, left: PlannedOperand) -> Result<(), Memory>
        ensures { OnOk result ((M : Structure) (K : ℕ)
            → ExtendsBoth M K left taken_off self.old self.new) }
    {
        let right = self.last;
        let period = common_period(left.period, right.period);
        let reach = with_two_periods(left.reach.max(right.reach), period);
        self.add(
            StepKind::Minus {
                left: left.number,
                right: right.number,
            },
            period,
            reach,
        )
    }

    /// What the last step does not have.
    pub fn complement(&mut self) -> Result<(), Memory>
        ensures { OnOk result ((M : Structure) (K : ℕ)
            → Extends M K complemented self.old self.new) }
    {
        let of = self.last;
        let reach = with_two_periods(of.reach, of.period);
        self.add(StepKind::Complement { of: of.number }, of.period, reach)
    }

    /// The last step without a variable.
    pub fn drop_variable(&mut self, name: Name, sort: &Sort) -> Result<(), Memory>
        ensures { OnOk result ((M : Structure) (K : ℕ)
            → Extends M K (drop_of name sort.now) self.old self.new) }
    {
        let of = self.last;
        if sort.is_time() {
            self.drop_time(of, name)
        } else {
            self.drop_data(of, name)
        }
    }

    /// A step without a time variable.
    pub fn drop_time(&mut self, of: PlannedOperand, name: Name) -> Result<(), Memory>
        ensures { OnOk result (AddsStep (StepKind.DropTime of.number name) of.period.number
            (capped_at (2 * of.reach)) self.old self.new) }
    {
        let reach = doubled(of.reach);
        self.add(
            StepKind::DropTime {
                of: of.number,
                name,
            },
            of.period,
            reach,
        )
    }

    /// A step without a data variable.
    pub fn drop_data(&mut self, of: PlannedOperand, name: Name) -> Result<(), Memory>
        ensures { OnOk result (AddsStep (StepKind.DropData of.number name) of.period.number
            (capped_at of.reach) self.old self.new) }
    {
        let reach = u128::from(of.reach);
        self.add(
            StepKind::DropData {
                of: of.number,
                name,
            },
            of.period,
            reach,
        )
    }

    /// The last step with the head's further variables; the period is that of the query's body.
    pub fn extend(&mut self, period: Period) -> Result<(), Memory>
        ensures { OnOk result ((M : Structure) (K : ℕ) (f : Form)
            → IsLeastWithinLimit (periods f M.relations) period.number
            → IsCommon (periods f M.relations) K
            → Extends M K (with_head_step f) self.old self.new) }
    {
        let of = self.last;
        let reach = u128::from(of.reach);
        self.add(StepKind::Extend { of: of.number }, period, reach)
    }
}

// The period of a test.
fn period_of(test: &Test) -> Period
    ensures { (K : ℕ) → IsCommon (test_periods test.now) K → IsPeriod K
        → IsLeastWithinLimit (test_periods test.now) result.number }
{
    match test {
        Test::Member { point, .. } => one().with(point.period.unsigned_abs()).unwrap_or(one()),
        Test::Compare { .. } | Test::Equal { .. } => one(),
    }
}
