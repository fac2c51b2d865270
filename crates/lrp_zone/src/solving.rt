// Whether some integers meet the bounds of a table.

ghost use Rattle.std.specs.Prelude.{◌≡◌, ◌<◌, ◌≤◌, ◌^◌, ◌↔◌, ℤ, IsTrue, ◌-ℤ◌, ◌≤ℤ◌, pos, slice_index_or};
ghost use Rattle.lrp_theory.specs.Bounds.{Meets, Within};
ghost use Rattle.lrp_theory.specs.Entries.{entry, AllSmall, HasSolution};

use crate::bounds::{BoundTable, at, widened};
use lrp_matrix::cells::close;

/// Whether one number minus another one is at most a bound.
fn keeps(left: i64, right: i64, bound: Option<i64>) -> bool
    ensures { IsTrue result ↔ Within (left -ℤ right) bound }
{
    match bound {
        Some(a) => i128::from(left) - i128::from(right) <= i128::from(a),
        None => true,
    }
}

/// Whether the numbers of the nodes meet the bounds.
fn meets(bounds: &BoundTable, numbers: &[i64; 9], nodes: usize) -> bool
    requires nodes { nodes ≤ 9 }
    ensures { IsTrue result ↔ Meets nodes (entry bounds.now)
        (λ i. slice_index_or numbers.now i (pos 0)) }
{
    for i in 0..nodes {
        for j in 0..nodes {
            if !keeps(numbers[i], numbers[j], at(bounds, i, j)) {
                return false;
            }
        }
    }
    true
}

/// A number, or the most that the bound on its difference to another one leaves it, if that is less.
fn lowered(number: i64, other: i64, bound: Option<i64>) -> i64
    ensures { result ≤ℤ number }
{
    let Some(a) = bound else {
        return number;
    };
    let most = other.saturating_add(a);
    if most < number { most } else { number }
}

/// Lowers each number to what the bounds on its differences to the others leave it, one after another.
fn lower(bounds: &BoundTable, numbers: &mut [i64; 9], nodes: usize)
    requires nodes { nodes ≤ 9 }
{
    for i in 0..nodes {
        for j in 0..nodes {
            numbers[i] = lowered(numbers[i], numbers[j], at(bounds, i, j));
        }
    }
}

/// Whether zeros meet the bounds once they were lowered a few times (Richard Bellman, "On a routing problem", 1958).
///
/// Few bounds are met after a turn or two, so most tables need no closing.
fn is_soon_met(bounds: &BoundTable, nodes: usize) -> bool
    requires nodes { nodes ≤ 9 }
    ensures { IsTrue result → HasSolution nodes (entry bounds.now) }
{
    let mut numbers = [0; 9];
    for _turn in 0..4 {
        if meets(bounds, &numbers, nodes) {
            return true;
        }
        lower(bounds, &mut numbers, nodes);
    }
    false
}

/// Whether no difference is at most one bound while its reverse is at most the other one.
fn excludes(there: Option<i64>, back: Option<i64>) -> bool
    ensures { IsTrue result → (d : ℤ) → Within d there → Within (pos 0 -ℤ d) back → ⊥ }
{
    match (there, back) {
        (Some(a), Some(b)) => i128::from(a) + i128::from(b) < 0,
        _ => false,
    }
}

/// Whether the two bounds between some nodes exclude one another.
fn has_excluded(bounds: &BoundTable, nodes: usize) -> bool
    requires nodes { nodes ≤ 9 }
    ensures { IsTrue result → HasSolution nodes (entry bounds.now) → ⊥ }
{
    for i in 0..nodes {
        for j in 0..nodes {
            if excludes(at(bounds, i, j), at(bounds, j, i)) {
                return true;
            }
        }
    }
    false
}

/// Whether the bounds can be closed.
fn can_close(bounds: &BoundTable, nodes: usize) -> bool
    requires nodes { nodes ≤ 9 }
    requires small { AllSmall nodes (2 ^ 62) bounds.now }
    ensures { IsTrue result ↔ HasSolution nodes (entry bounds.now) }
{
    let mut cells = widened(bounds);
    close(&mut cells, nodes)
}

/// Whether some integers meet the bounds.
pub fn has_solution(bounds: &BoundTable, nodes: usize) -> bool
    requires nodes { nodes ≤ 9 }
    requires small { AllSmall nodes (2 ^ 62) bounds.now }
    ensures { IsTrue result ↔ HasSolution nodes (entry bounds.now) }
{
    if is_soon_met(bounds, nodes) {
        return true;
    }
    if has_excluded(bounds, nodes) {
        return false;
    }
    can_close(bounds, nodes)
}
