// Tests as conditions of a pattern.
ghost use Rattle.std.specs.Prelude.{◌≡◌, ◌≤◌, ◌^◌, ◌≤ℤ◌, pos, length, IfOk, MatchOption};
ghost use Rattle.std.specs.List.{AllByRecursion};
ghost use Rattle.lrp_model.specs.Reach.{test_reach};
ghost use Rattle.lrp_tables.specs.Calls.{test_period, tests_reach};
ghost use Rattle.lrp_tables.specs.Columns.{times_of_test, texts_of_test};
ghost use Rattle.lrp_tables.specs.Tables.{AreNamesAmong};
ghost use Rattle.lrp_steps.specs.Conditions.{CanBeAsked, IsWithTest, HasNoTest, IsWithTests, HasNoTests};

use crate::conditions::{with_comparison, with_member};
use crate::equalities::with_equal;
use crate::pattern::Pattern;
use lrp_model::{Domain, List, Memory, Test};
use lrp_tables::Vars;
use std::alloc::Global;

/// The pattern and a test of these variables, or `None` where nothing that the pattern asks for passes.
pub fn with_test(
    pattern: Pattern,
    test: &Test,
    vars: &Vars,
    domain: &Domain,
) -> Result<Option<Pattern>, Memory>
    requires few_times { length vars.now.times ≤ 8 }
    requires few_texts { length vars.now.texts ≤ 8 }
    requires known { length pattern.texts ≡ 8 }
    requires times { AreNamesAmong (times_of_test test.now) vars.now.times }
    requires texts { AreNamesAmong (texts_of_test test.now) vars.now.texts }
    requires low { pos 1 ≤ℤ test_period test.now }
    requires reach { test_reach test.now ≤ 2 ^ 62 }
    ensures { IfOk result (λ found. MatchOption found
        (HasNoTest domain.now vars.now.times vars.now.texts test.now pattern)
        (IsWithTest domain.now vars.now.times vars.now.texts test.now pattern)) }
{
    match test {
        Test::Compare { left, op, right } => {
            with_comparison(pattern, left, *op, right, &vars.times)
        }
        Test::Member { term, point } => with_member(pattern, term, *point, &vars.times),
        Test::Equal { left, right } => { with_equal(pattern, left, right, &vars.texts, domain) }
    }
}

/// The pattern of all of these tests, or `None` where nothing passes them.
pub fn with_tests(
    alloc: Global,
    tests: &List<Test>,
    vars: &Vars,
    domain: &Domain,
) -> Result<Option<Pattern>, Memory>
    requires few_times { length vars.now.times ≤ 8 }
    requires few_texts { length vars.now.texts ≤ 8 }
    requires tests { AllByRecursion (CanBeAsked vars.now.times vars.now.texts) tests.now }
    requires reach { tests_reach tests.now ≤ 2 ^ 62 }
    ensures { IfOk result (λ found. MatchOption found
        (HasNoTests domain.now vars.now.times vars.now.texts tests.now)
        (IsWithTests domain.now vars.now.times vars.now.texts tests.now)) }
{
    let mut pattern = Pattern::new(alloc);
    for test in tests.as_slice() {
        match with_test(pattern, test, vars, domain)? {
            Some(next) => pattern = next,
            None => return Ok(None),
        }
    }
    Ok(Some(pattern))
}
