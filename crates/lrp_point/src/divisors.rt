// Common divisors, common multiples and common members: Euclid's algorithm and the theorem on two congruences.

ghost use Rattle.std.specs.Prelude.{◌≡◌, ◌<◌, ◌≤◌, ◌^◌, ◌%◌, ◌↔◌, pos, nat_abs, IfNone, IfSome, IfOk, IsErr, ◌≤ℤ◌, ◌-ℤ◌, ◌*ℤ◌};
ghost use Rattle.lrp_theory.specs.Divides.{Divides, IsLcm};
ghost use Rattle.lrp_point.specs.Points.{AreApart, IsCommonPoint, IsLcmAbove, point};

use crate::point::PeriodLimit;
use lrp_model::LIMIT;

/// A common divisor g of a and b, and a number s such that b divides g - s a. This is Euclid's extended algorithm with
/// the factor of a kept from 0 to b - 1 (Knuth, "The Art of Computer Programming", volume 2, 1969, section 4.5.2).
pub(crate) fn bezout(a: u128, b: u128) -> (u128, u128)
    requires a_low { 0 < a }
    requires b_low { 0 < b }
    requires a_high { a ≤ 2 ^ 62 }
    requires b_high { b ≤ 2 ^ 62 }
    ensures positive { 0 < result.0 }
    ensures left { a % result.0 ≡ 0 }
    ensures right { b % result.0 ≡ 0 }
    ensures factor { Divides (pos b) (pos result.0 -ℤ (pos result.1 *ℤ pos a)) }
    ensures low { result.1 < b }
{
    let mut r = a;
    let mut s = 1 % b;
    let mut t = b;
    let mut u = 0;
    while t != 0 {
        let q = r / t;
        let rest = r % t;
        let v = (s + q * (b - u)) % b;
        r = t;
        s = u;
        t = rest;
        u = v;
    }
    (r, s)
}

/// The offset and the period of the common members of `c1 + k1 n` and `c2 + k2 n`, or `None` where there is no common member.
pub(crate) fn crossing(c1: u128, k1: u128, c2: u128, k2: u128) -> Option<(u128, u128)>
    requires first { c1 < k1 }
    requires second { c2 < k2 }
    requires first_high { k1 ≤ 2 ^ 62 }
    requires second_high { k2 ≤ 2 ^ 62 }
    ensures none { IfNone result (AreApart (point c1 k1) (point c2 k2)) }
    ensures some { IfSome result (λ r. IsCommonPoint (point c1 k1) (point c2 k2) (point r.0 r.1)) }
{
    let (g, s) = bezout(k1, k2);
    let apart = (c2 + (k2 - c1 % k2)) % k2;
    if apart % g != 0 {
        return None;
    }
    let turns = (apart / g * s) % (k2 / g);
    Some((c1 + k1 * turns, k1 / g * k2))
}

/// The least common multiple.
fn multiple(a: u128, b: u128) -> u128
    requires a_low { 0 < a }
    requires b_low { 0 < b }
    requires a_high { a ≤ 2 ^ 62 }
    requires b_high { b ≤ 2 ^ 62 }
    ensures low { 0 < result }
    ensures least { IsLcm a b result }
{
    let (g, _) = bezout(a, b);
    a / g * b
}

/// The least common multiple of two periods, or [`PeriodLimit`] where it is above 2^62.
pub fn common(k1: i64, k2: i64) -> Result<i64, PeriodLimit>
    requires first { (pos 1 ≤ℤ k1) × (k1 ≤ℤ pos (2 ^ 62)) }
    requires second { (pos 1 ≤ℤ k2) × (k2 ≤ℤ pos (2 ^ 62)) }
    ensures ok { IfOk result (λ k. (pos 1 ≤ℤ k) × IsLcm (nat_abs k1) (nat_abs k2) (nat_abs k)) }
    ensures limit { IsErr result ↔ IsLcmAbove (nat_abs k1) (nat_abs k2) (2 ^ 62) }
{
    let k = multiple(k1 as u128, k2 as u128);
    if k > LIMIT as u128 {
        return Err(PeriodLimit);
    }
    Ok(k as i64)
}
