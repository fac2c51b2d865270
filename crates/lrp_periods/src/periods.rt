// Periods of parts: common multiples that divide the period of the whole.
ghost use Rattle.std.specs.Prelude.{◌≡◌, IsTrue};
ghost use Rattle.std.specs.List.{AllByRecursion};
ghost use Rattle.lrp_theory.specs.Divides.{Divides};
ghost use Rattle.lrp_tables.specs.Calls.{test_period};
ghost use Rattle.lrp_periods.specs.Parts.{IsSmallPeriod};
ghost use Rattle.lrp_periods.specs.Periods.{HasTestPeriod, IsCommonPeriod, IsOwnPeriod};

use lrp_model::{List, Test};
use lrp_point::common;

/// The least common multiple of two periods that divide the whole one.
pub(crate) fn common_period(left: i64, right: i64, whole: i64) -> i64
    requires whole { IsSmallPeriod whole }
    requires left { IsOwnPeriod whole left }
    requires right { IsOwnPeriod whole right }
    ensures { IsCommonPeriod left right whole result }
{
    match common(left, right) {
        Ok(least) => least,
        Err(_) => whole,
    }
}

/// The least common multiple of a period and that of a test.
pub(crate) fn with_test(own: i64, test: &Test, whole: i64) -> i64
    requires whole { IsSmallPeriod whole }
    requires own { IsOwnPeriod whole own }
    requires test { HasTestPeriod whole test.now }
    ensures { IsCommonPeriod own (test_period test.now) whole result }
{
    match test {
        Test::Member { point, .. } => common_period(own, point.period, whole),
        Test::Compare { .. } => own,
        Test::Equal { .. } => own,
    }
}

/// The least common multiple of the periods of tests.
pub(crate) fn period_of_tests(tests: &List<Test>, whole: i64) -> i64
    requires whole { IsSmallPeriod whole }
    requires tests { AllByRecursion (HasTestPeriod whole) tests.now }
    ensures own { IsOwnPeriod whole result }
    ensures tests { AllByRecursion (λ test. Divides (test_period test) result) tests.now }
{
    let mut own = 1;
    for test in tests.as_slice() {
        own = with_test(own, test, whole);
    }
    own
}

/// Whether two periods are the same.
pub(crate) fn is_same(left: i64, right: i64) -> bool
    ensures { IsTrue result → left ≡ right }
{
    left == right
}
