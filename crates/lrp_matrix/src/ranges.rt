// The ends that the bounds to earlier columns give a column.

ghost use Rattle.std.specs.Prelude.{◌≡◌, ◌<◌, ◌≤◌, ◌^◌, ◌*◌, ◌+◌, length, Some};
ghost use Rattle.lrp_theory.specs.Entries.{AtMost, IsSmallClosure, node};
ghost use Rattle.lrp_matrix.specs.Ranges.{AreEndsOf, AreSmall, negation};

use crate::cells::{at, lesser, sum};

/// The integer of column p, where column 0 is zero.
fn value(prefix: &[i64], p: usize) -> Option<i128>
    requires { p ≤ length prefix.now }
    ensures { result ≡ Some (node prefix.now p) }
{
    if p == 0 {
        return Some(0);
    }
    Some(i128::from(prefix[p - 1]))
}

/// The number with the other sign.
fn negated(a: Option<i128>) -> Option<i128>
    requires { AtMost (2 ^ 100) a }
    ensures { result ≡ negation a }
{
    match a {
        Some(x) => Some(-x),
        None => None,
    }
}

/// The low and the high end of column i after the integers of the columns before it: the greatest `x_p` less the bound
/// of p minus i, and the least `x_p` plus the bound of i minus p.
pub fn ends(cells: &[Option<i128>; 81], i: usize, prefix: &[i64]) -> (Option<i128>, Option<i128>)
    requires column { i < 9 }
    requires count { length prefix.now + 1 ≡ i }
    requires closed { IsSmallClosure (i + 1) (8 * 2 ^ 62) cells.now }
    requires small { AreSmall (2 ^ 62) prefix.now }
    ensures ends { AreEndsOf cells.now i prefix.now result.0 result.1 }
    ensures low_small { AtMost (9 * 2 ^ 62) result.0 }
    ensures high_small { AtMost (9 * 2 ^ 62) result.1 }
{
    let mut low = None;
    let mut high = None;
    for p in 0..i {
        let x = value(prefix, p);
        low = lesser(low, sum(at(cells, p, i), negated(x)));
        high = lesser(high, sum(at(cells, i, p), x));
    }
    (negated(low), high)
}
