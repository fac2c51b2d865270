// The stored bounds of a list of given bounds.

ghost use Rattle.std.specs.Prelude.{◌≡◌, ◌<◌, ◌≤◌, ◌^◌, ℕ, IsTrue, ◌↔◌, length, pos};
ghost use Rattle.lrp_theory.specs.Entries.{node};
ghost use Rattle.lrp_zone.specs.Numbers.{FitsNumber};
ghost use Rattle.lrp_zone.specs.Zones.{IsResidue};
ghost use Rattle.lrp_zone.specs.Given.{HasNegative, IsGiven, IsStoredFor, IsWith, AreGiven, IsGathered};

use crate::bounds::{BoundTable, at, free, lesser, put};
use crate::tightening::tightened;
use lrp_model::Bound;

/// Whether some given bound of a column from itself is negative.
pub fn has_negative(bounds: &[Bound]) -> bool
    ensures { IsTrue result ↔ HasNegative bounds.now }
{
    for bound in bounds {
        if bound.left == bound.right && bound.most < 0 {
            return true;
        }
    }
    false
}

/// The tightened bound, or `None` for a bound of a column from itself.
fn kept(bound: &Bound, residues: &[i64], period: u64) -> Option<i64>
    requires low { 0 < period }
    requires high { period ≤ 2 ^ 62 }
    requires given { IsGiven (pos period) residues.now bound.now }
    requires left { IsResidue period (node residues.now bound.now.left) }
    requires right { IsResidue period (node residues.now bound.now.right) }
    ensures value { IsStoredFor (pos period) residues.now bound.now result }
    ensures stands { FitsNumber result }
{
    let (i, j) = (usize::from(bound.left), usize::from(bound.right));
    if i == j {
        return None;
    }
    tightened(Some(bound.most), residues, i, j, period)
}

/// Keeps the lesser of the bound at a place and of what is stored for a given bound.
fn gather(out: &mut BoundTable, bound: &Bound, residues: &[i64], period: u64)
    requires columns { length residues.now ≤ 8 }
    requires low { 0 < period }
    requires high { period ≤ 2 ^ 62 }
    requires given { IsGiven (pos period) residues.now bound.now }
    requires left { IsResidue period (node residues.now bound.now.left) }
    requires right { IsResidue period (node residues.now bound.now.right) }
    ensures { IsWith (pos period) residues.now bound.now out.old out.new }
{
    let (i, j) = (usize::from(bound.left), usize::from(bound.right));
    let least = lesser(at(out, i, j), kept(bound, residues, period));
    put(out, i, j, least);
}

/// The least of the tightened bounds at each place.
pub fn gathered(bounds: &[Bound], residues: &[i64], period: u64) -> BoundTable
    requires columns { length residues.now ≤ 8 }
    requires low { 0 < period }
    requires high { period ≤ 2 ^ 62 }
    requires residues { (i : ℕ) → i ≤ length residues.now → IsResidue period (node residues.now i) }
    requires given { AreGiven (pos period) residues.now bounds.now }
    ensures { IsGathered (pos period) residues.now bounds.now (length bounds.now) result }
{
    let mut out = free();
    for bound in bounds {
        gather(&mut out, bound, residues, period);
    }
    out
}
