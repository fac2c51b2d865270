// Reaches of steps, counted up to 2^62 + 1.
ghost use Rattle.std.specs.Prelude.{◌≡◌, ◌+◌, ◌*◌, ◌-ℤ◌, nat_abs, map, flat_map};
ghost use Rattle.lrp_model.specs.Reach.{test_reach as reach_of_test, term_offset as offset_of, greatest, term_magnitudes};
ghost use Rattle.lrp_limits.specs.Capped.{capped as capped_at};

use crate::periods::Period;
use lrp_model::{LIMIT, Term, Test, TimeTerm};

// A reach above the limit is kept as this number.
const CAP: u128 = LIMIT as u128 + 1;

/// A reach, or 2^62 + 1 where it is above 2^62.
pub fn capped(reach: u128) -> u64
    ensures { result ≡ capped_at reach }
{
    reach.min(CAP) as u64
}

/// The offset of a term; an integer is one.
pub fn offset(term: &TimeTerm) -> i64
    ensures { result ≡ offset_of term.now }
{
    match term {
        TimeTerm::Var { plus, .. } => *plus,
        TimeTerm::Int { value } => *value,
    }
}

fn distance(left: &TimeTerm, right: &TimeTerm) -> u64
    ensures { result ≡ nat_abs (offset_of left.now -ℤ offset_of right.now) }
{
    offset(left).abs_diff(offset(right))
}

/// The reach of an atom, by the greatest bound of its rows, the greatest offset of its terms, and its period.
pub fn scan_reach(bound: u64, offset: u64, period: Period) -> u128
    ensures { result ≡ bound + 2 * offset + period.number }
{
    u128::from(bound) + 2 * u128::from(offset) + u128::from(period.number)
}

/// A reach with a period.
pub fn with_period(reach: u64, period: Period) -> u128
    ensures { result ≡ reach + period.number }
{
    u128::from(reach) + u128::from(period.number)
}

/// A reach with twice a period.
pub fn with_two_periods(reach: u64, period: Period) -> u128
    ensures { result ≡ reach + 2 * period.number }
{
    u128::from(reach) + 2 * u128::from(period.number)
}

/// Twice a reach.
pub fn doubled(reach: u64) -> u128
    ensures { result ≡ 2 * reach }
{
    2 * u128::from(reach)
}

/// The reach of a test as a step of its own.
pub fn test_reach(test: &Test) -> u64
    ensures { result ≡ capped_at (reach_of_test test.now) }
{
    match test {
        Test::Compare { left, right, .. } => capped(1 + u128::from(distance(left, right))),
        Test::Member { point, .. } => capped(u128::from(point.period.unsigned_abs())),
        Test::Equal { .. } => 1,
    }
}

/// The greatest reach of the tests as steps of their own; 0 where there is none.
pub fn tests_reach(tests: &[Test]) -> u64
    ensures { result ≡ capped_at (greatest (map reach_of_test tests.now)) }
{
    let mut reach = 0;
    for test in tests {
        reach = test_reach(test).max(reach);
    }
    reach
}

/// The greatest magnitude among the offsets and integers of an atom's terms; 0 where there is none.
pub fn greatest_offset(terms: &[Term]) -> u64
    ensures { result ≡ greatest (flat_map term_magnitudes terms.now) }
{
    let mut most = 0;
    for term in terms {
        most = magnitude(term).max(most);
    }
    most
}

// The magnitude of a time term's offset; 0 for a data term.
fn magnitude(term: &Term) -> u64
    ensures { result ≡ greatest (term_magnitudes term.now) }
{
    match term {
        Term::Time { term } => offset(term).unsigned_abs(),
        Term::Data { .. } => 0,
    }
}
