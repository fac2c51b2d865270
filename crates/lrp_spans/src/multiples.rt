// Least common multiples of periods that divide one.
ghost use Rattle.std.specs.Prelude.{◌<◌, ◌≤◌, ◌^◌, ℕ, pos};
ghost use Rattle.lrp_theory.specs.Divides.{Divides, IsLcm};

use lrp_point::common;

/// The least common multiple of two numbers that divide the period.
pub fn multiple(one: u64, other: u64, period: u64) -> u64
    requires low { 0 < period }
    requires high { period ≤ 2 ^ 62 }
    requires one_low { 0 < one }
    requires other_low { 0 < other }
    requires one { Divides (pos one) (pos period) }
    requires other { Divides (pos other) (pos period) }
    ensures multiple { IsLcm one other result }
    ensures divides { Divides (pos result) (pos period) }
{
    check_below(one, period);
    check_below(other, period);
    match common(one as i64, other as i64) {
        Ok(least) => least as u64,
        Err(_) => unreachable!(),
    }
}

// A divisor is at most the period; nothing is done.
fn check_below(one: u64, period: u64)
    requires low { 0 < period }
    requires divides { Divides (pos one) (pos period) }
    ensures { one ≤ period }
{}
