// The least zone of a cell that holds zones.
ghost use Rattle.std.specs.Prelude.{◌≡◌, ◌*◌, ◌<◌, ◌≤◌, ◌^◌, Contains, IfOk, OnOk, length};
ghost use Rattle.lrp_theory.specs.Entries.{AtMost, entry};
ghost use Rattle.lrp_matrix.specs.Matrices.{MatrixView};
ghost use Rattle.lrp_zone.specs.Zones.{ZoneView, IsZone, columns_of};
ghost use Rattle.lrp_cutting.specs.Differences.{AreOfCell, greatest_reach};
ghost use Rattle.lrp_cutting.specs.Hulls.{AppendsWidest, AreClosures, AreWidest, HasPlace, IsHull, IsWider, IsWidest};
ghost use Rattle.lrp_cutting.specs.Settling.{IsSmallZone};
ghost use Rattle.lrp_cutting.specs.declared.pairs.NodePair.{NodePair as PairValue};

use crate::bounded::bounded;
use crate::pairs::{NodePair, pairs};
use lrp_matrix::Matrix;
use lrp_model::{Bound, Memory};
use lrp_zone::Zone;
use std::alloc::Global;

/// The least zone of a cell that holds all of some zones: at each place it has the greatest of their closed bounds, and no
/// bound where one of them has none.
pub(crate) fn hull(alloc: Global, cell: &Zone, zones: &[Zone]) -> Result<Zone, Memory>
    requires some { 0 < length zones.now }
    requires cell { AreOfCell cell.now zones.now }
    requires reach { columns_of cell.now * greatest_reach zones.now ≤ 2 ^ 62 }
    ensures hull { IfOk result (λ h. IsHull cell.now zones.now h) }
    ensures small { IfOk result (λ h. IsSmallZone h
        (columns_of cell.now * greatest_reach zones.now)) }
    ensures valid { IfOk result (λ _. (z : ZoneView) → Contains zones.now z → IsZone z) }
{
    let matrices = closures(alloc, zones)?;
    let pairs = pairs(alloc, cell.columns() as u8 + 1)?;
    let bounds = hull_bounds(alloc, &matrices, &pairs)?;
    match bounded(cell, &bounds) {
        Some(zone) => Ok(zone),
        None => unreachable!(),
    }
}

// The closed bounds of each zone.
fn closures(alloc: Global, zones: &[Zone]) -> Result<Vec<Matrix>, Memory>
    ensures { IfOk result (λ made. AreClosures zones.now made.items) }
{
    let mut made = Vec::new(alloc);
    for zone in zones {
        prove!(zone.columns() <= 8);
        made.push(zone.closed())?;
    }
    Ok(made)
}

// The bounds of the hull, both ways for each pair of columns.
fn hull_bounds(alloc: Global, matrices: &[Matrix], pairs: &[NodePair]) -> Result<Vec<Bound>, Memory>
    requires some { 0 < length matrices.now }
    requires places { (p : PairValue) → Contains pairs.now p → HasPlace matrices.now p.left p.right
        × HasPlace matrices.now p.right p.left }
    ensures { IfOk result (λ made. AreWidest matrices.now pairs.now made.items) }
{
    let mut made = Vec::new(alloc);
    for pair in pairs {
        push_widest(matrices, pair.left, pair.right, &mut made)?;
        push_widest(matrices, pair.right, pair.left, &mut made)?;
    }
    Ok(made)
}

// Appends the widest bound of two columns, if there is one.
fn push_widest(
    matrices: &[Matrix],
    left: u8,
    right: u8,
    bounds: &mut Vec<Bound>,
) -> Result<(), Memory>
    requires some { 0 < length matrices.now }
    requires place { HasPlace matrices.now left right }
    ensures { OnOk result (AppendsWidest matrices.now left right bounds.old.items
        bounds.new.items) }
{
    if let Some(most) = widest(matrices, usize::from(left), usize::from(right)) {
        bounds.push(Bound { left, right, most })?;
    }
    Ok(())
}

// The greatest of the matrices' bounds at a place, or `None` where some matrix has none there.
fn widest(matrices: &[Matrix], i: usize, j: usize) -> Option<i64>
    requires some { 0 < length matrices.now }
    requires place { HasPlace matrices.now i j }
    ensures { IsWidest matrices.now i j result }
{
    let (first, rest) = matrices.split_first()?;
    let mut widest = bound_of(first, i, j);
    for matrix in rest {
        widest = wider(widest, bound_of(matrix, i, j));
    }
    widest
}

/// The matrix's bound at a place.
pub(crate) fn bound_of(matrix: &Matrix, i: usize, j: usize) -> Option<i64>
    requires row { i ≤ matrix.now.columns }
    requires column { j ≤ matrix.now.columns }
    requires small { AtMost (2 ^ 62) (entry matrix.now.cells i j) }
    ensures { result ≡ entry matrix.now.cells i j }
{
    let most = matrix.get(i, j)?;
    Some(most as i64)
}

/// The greater of two bounds, or `None` where one of them is.
pub(crate) fn wider(one: Option<i64>, other: Option<i64>) -> Option<i64>
    ensures { IsWider one other result }
{
    match (one, other) {
        (Some(one), Some(other)) => Some(one.max(other)),
        _ => None,
    }
}
