// Bounds that are tightened to the residues of their nodes.

ghost use Rattle.std.specs.Prelude.{◌≡◌, ◌<◌, ◌≤◌, ◌^◌, ◌+◌, ◌-◌, ℕ, ℤ, Some, length, pos, ◌-ℤ◌};
ghost use Rattle.lrp_theory.specs.Entries.{entry, node, AtMost};
ghost use Rattle.lrp_zone.specs.Zones.{IsResidue};
ghost use Rattle.lrp_zone.specs.Tight.{CanTighten, IsTightened, IsStored, AreStored};
ghost use Rattle.lrp_zone.specs.Numbers.{FitsNumber};
ghost use Rattle.lrp_zone.specs.Pieces.{broken_by};

use crate::bounds::{BoundTable, at, free, narrow, put, wide};
use crate::tuples::value;
use lrp_matrix::Matrix;
use lrp_point::numbers::tighten;

/// The greatest bound of the right residue that is at most a bound.
pub fn tightest(
    bound: Option<i128>,
    residues: &[i64],
    i: usize,
    j: usize,
    period: u64,
) -> Option<i128>
    requires row { i ≤ length residues.now }
    requires column { j ≤ length residues.now }
    requires low { 0 < period }
    requires high { period ≤ 2 ^ 62 }
    requires left { IsResidue period (node residues.now i) }
    requires right { IsResidue period (node residues.now j) }
    requires small { AtMost (2 ^ 63) bound }
    ensures value { IsTightened (pos period) (node residues.now i -ℤ node residues.now j) bound
        result }
    ensures small { AtMost (2 ^ 64) result }
{
    let a = bound?;
    Some(tighten(a, value(residues, i), value(residues, j), period as i64))
}

/// The same for a bound that is stored.
pub fn tightened(
    bound: Option<i64>,
    residues: &[i64],
    i: usize,
    j: usize,
    period: u64,
) -> Option<i64>
    requires row { i ≤ length residues.now }
    requires column { j ≤ length residues.now }
    requires low { 0 < period }
    requires high { period ≤ 2 ^ 62 }
    requires left { IsResidue period (node residues.now i) }
    requires right { IsResidue period (node residues.now j) }
    requires fits { (a : ℤ) → bound ≡ Some a → CanTighten (pos period)
        (node residues.now i -ℤ node residues.now j) a }
    ensures { IsStored (pos period) (node residues.now i -ℤ node residues.now j) bound result }
{
    narrow(tightest(wide(bound), residues, i, j, period))
}

/// The bounds of the nodes, tightened.
pub fn all_tightened(bounds: &BoundTable, residues: &[i64], period: u64) -> BoundTable
    requires columns { length residues.now ≤ 8 }
    requires low { 0 < period }
    requires high { period ≤ 2 ^ 62 }
    requires residues { (i : ℕ) → i ≤ length residues.now → IsResidue period (node residues.now i) }
    requires fits { (i j : ℕ) (a : ℤ) → i ≤ length residues.now → j ≤ length residues.now
        → entry bounds.now i j ≡ Some a
        → CanTighten (pos period) (node residues.now i -ℤ node residues.now j) a }
    ensures { AreStored (pos period) residues.now bounds.now (length residues.now + 1) result }
{
    let mut out = free();
    let nodes = residues.len() + 1;
    for i in 0..nodes {
        for j in 0..nodes {
            put(
                &mut out,
                i,
                j,
                tightened(at(bounds, i, j), residues, i, j, period),
            );
        }
    }
    out
}

/// The bounds of a matrix, tightened.
pub fn all_tightest(bounds: &Matrix, residues: &[i64], period: u64) -> BoundTable
    requires columns { length residues.now ≤ 8 }
    requires count { bounds.now.columns ≡ length residues.now }
    requires low { 0 < period }
    requires high { period ≤ 2 ^ 62 }
    requires residues { (i : ℕ) → i ≤ length residues.now → IsResidue period (node residues.now i) }
    requires fits { (i j : ℕ) (a : ℤ) → i ≤ length residues.now → j ≤ length residues.now
        → entry bounds.now.cells i j ≡ Some a
        → CanTighten (pos period) (node residues.now i -ℤ node residues.now j) a }
    ensures { AreStored (pos period) residues.now bounds.now.cells
        (length residues.now + 1) result }
{
    let mut out = free();
    let nodes = residues.len() + 1;
    for i in 0..nodes {
        for j in 0..nodes {
            put(
                &mut out,
                i,
                j,
                tightened(narrow(bounds.get(i, j)), residues, i, j, period),
            );
        }
    }
    out
}

/// The bound that holds of the reverse difference where a bound is broken.
pub fn broken(bound: Option<i64>, period: u64) -> Option<i64>
    requires low { 0 < period }
    requires high { period ≤ 2 ^ 62 }
    requires small { AtMost (2 ^ 62 - period) bound }
    ensures value { result ≡ broken_by period bound }
    ensures stands { FitsNumber result }
{
    match bound {
        Some(a) => Some(-a - period as i64),
        None => None,
    }
}
