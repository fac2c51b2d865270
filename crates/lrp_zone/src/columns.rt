// Tables and residues with one column fewer, and tables whose columns move.

ghost use Rattle.std.specs.Prelude.{◌≡◌, ◌<◌, ◌≤◌, ◌^◌, ◌+◌, ℕ, List, length};
ghost use Rattle.lrp_theory.specs.Entries.{entry, node, AtMost, AllSmall};
ghost use Rattle.lrp_zone.specs.Columns.{past_node, IsPath, IsWithoutNode};
ghost use Rattle.lrp_zone.specs.Numbers.{FitsNumber};
ghost use Rattle.lrp_zone.specs.Spread.{target, ArePlaces, IsSpreadTo};

use crate::bounds::{BoundTable, at, free, lesser, put, sum};

/// The node whose number is p once node k is left out.
fn skip(k: usize, p: usize) -> usize
    requires small { p < 9 }
    ensures { result ≡ past_node k p }
{
    if p < k { p } else { p + 1 }
}

/// The bound at a place once node k is left out: the lesser of the old one and of the path through k.
fn path(bounds: &BoundTable, k: usize, p: usize, q: usize) -> Option<i64>
    requires node { k < 9 }
    requires row { p < 8 }
    requires column { q < 8 }
    requires left { AtMost (2 ^ 61) (entry bounds.now (past_node k p) k) }
    requires right { AtMost (2 ^ 61) (entry bounds.now k (past_node k q)) }
    ensures value { IsPath bounds.now k p q result }
    ensures stands { FitsNumber result }
{
    if p == q {
        return None;
    }
    let (left, right) = (skip(k, p), skip(k, q));
    let through = sum(at(bounds, left, k), at(bounds, k, right));
    lesser(at(bounds, left, right), through)
}

/// The bounds of the nodes but k, after the paths through it.
pub fn without(bounds: &BoundTable, k: usize, n: usize) -> BoundTable
    requires nodes { n < 9 }
    requires node { k ≤ n }
    requires small { AllSmall (n + 1) (2 ^ 61) bounds.now }
    ensures { IsWithoutNode bounds.now k n result }
{
    let mut out = free();
    for p in 0..n {
        for q in 0..n {
            put(&mut out, p, q, path(bounds, k, p, q));
        }
    }
    out
}

/// The residues without that of column k, and zeros after them.
pub fn residues_without(residues: &[i64], k: usize) -> [i64; 8]
    requires low { 0 < k }
    requires node { k ≤ length residues.now }
    requires columns { length residues.now ≤ 8 }
    ensures size { length result ≡ 8 }
    ensures values { (p : ℕ) → p < length residues.now
        → node result p ≡ node residues.now (past_node k p) }
{
    let mut out = [0; 8];
    for p in 1..residues.len() {
        out[p - 1] = residues[skip(k, p) - 1];
    }
    out
}

/// The new place of a node.
fn place(places: &[usize], i: usize) -> usize
    requires node { i ≤ length places.now }
    ensures { result ≡ target places.now i }
{
    if i == 0 { 0 } else { places[i - 1] }
}

/// The bounds at the new places of their nodes.
pub fn moved(bounds: &BoundTable, places: &[usize]) -> BoundTable
    requires count { length places.now ≤ 8 }
    requires places { ArePlaces places.now 8 }
    ensures { IsSpreadTo places.now bounds.now (length places.now + 1)
        (length places.now + 1) 0 result }
{
    let mut out = free();
    let nodes = places.len() + 1;
    for i in 0..nodes {
        for j in 0..nodes {
            put(
                &mut out,
                place(places, i),
                place(places, j),
                at(bounds, i, j),
            );
        }
    }
    out
}
