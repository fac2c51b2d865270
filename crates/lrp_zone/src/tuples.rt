// Tuples of integers, and which of them a zone holds.

ghost use Rattle.std.specs.Prelude.{◌≡◌, ◌<◌, ◌≤◌, ◌^◌, ◌+◌, ℕ, IsTrue, ◌↔◌, List, length, replicate, ◌++◌, ◌-◌, pos, ◌-ℤ◌};
ghost use Rattle.lrp_theory.specs.Divides.{Divides};
ghost use Rattle.lrp_theory.specs.Bounds.{Within};
ghost use Rattle.lrp_theory.specs.Entries.{node};
ghost use Rattle.lrp_zone.specs.Zones.{IsMember};

use crate::bounds::{BoundTable, at};
use lrp_point::numbers::remainder;

/// The value of a node: the number zero, or the value of a column.
pub fn value(xs: &[i64], i: usize) -> i64
    requires node { i ≤ length xs.now }
    ensures { result ≡ node xs.now i }
{
    if i == 0 { 0 } else { xs[i - 1] }
}

/// Whether node i has the residue of node i of another tuple.
fn agrees(xs: &[i64], residues: &[i64], i: usize, period: u64) -> bool
    requires node { i ≤ length xs.now }
    requires residue { i ≤ length residues.now }
    requires low { 0 < period }
    requires high { period ≤ 2 ^ 62 }
    ensures { IsTrue result ↔ Divides (pos period) (node xs.now i -ℤ node residues.now i) }
{
    remainder(value(xs, i), period) == remainder(value(residues, i), period)
}

/// Whether node i minus node j is at most a bound.
fn keeps(xs: &[i64], i: usize, j: usize, bound: Option<i64>) -> bool
    requires row { i ≤ length xs.now }
    requires column { j ≤ length xs.now }
    ensures { IsTrue result ↔ Within (node xs.now i -ℤ node xs.now j) bound }
{
    match bound {
        Some(a) => i128::from(value(xs, i)) - i128::from(value(xs, j)) <= i128::from(a),
        None => true,
    }
}

/// Whether a tuple has the residues and keeps the bounds.
pub fn holds(xs: &[i64], residues: &[i64], bounds: &BoundTable, period: u64) -> bool
    requires columns { length residues.now ≤ 8 }
    requires count { length xs.now ≡ length residues.now }
    requires low { 0 < period }
    requires high { period ≤ 2 ^ 62 }
    ensures { IsTrue result ↔ IsMember (record {
      period = period;
      residues = residues.now;
      bounds =
          bounds.now;
    }) xs.now }
{
    let nodes = xs.len() + 1;
    for i in 0..nodes {
        if !agrees(xs, residues, i, period) {
            return false;
        }
        for j in 0..nodes {
            if !keeps(xs, i, j, at(bounds, i, j)) {
                return false;
            }
        }
    }
    true
}

/// The values and zeros after them.
pub fn padded(values: &[i64]) -> [i64; 8]
    requires { length values.now ≤ 8 }
    ensures { result ≡ values.now ++ replicate (8 - length values.now) (pos 0) }
{
    let mut out = [0; 8];
    out[..values.len()].copy_from_slice(values);
    out
}
