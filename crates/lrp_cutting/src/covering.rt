// Zones of one cell that lie within others of it.
ghost use Rattle.std.specs.Prelude.{◌≡◌, ◌+◌, ◌<◌, ◌≤◌, ◌^◌, ◌↔◌, Contains, IfOk, IsTrue, length};
ghost use Rattle.lrp_theory.specs.Entries.{AreBelow, IsBelow, IsSmallClosure};
ghost use Rattle.lrp_zone.specs.Zones.{ZoneView, columns_of};
ghost use Rattle.lrp_cutting.specs.Axes.{AreAlongOneAxis, AreAxesFor, AreAxesOf};
ghost use Rattle.lrp_cutting.specs.declared.pairs.NodePair.{NodePair as PairValue};
ghost use Rattle.lrp_cutting.specs.Cutting.{IsPairOf};
ghost use Rattle.lrp_cutting.specs.Covering.{AreInOneCell, AreLeftOut, IsBelowAt, IsBelowInRow, IsClosureAt, IsCoveredBySome, IsCoveredBy, IsLeftOut};
ghost use Rattle.lrp_cutting.specs.Settling.{IsThinned};

use crate::axes::{Axis, closed_window};
use crate::hull::bound_of;
use crate::pairs::{NodePair, pairs};
use crate::windows::CutterWindow;
use lrp_matrix::Matrix;
use lrp_model::{List, Memory};
use lrp_zone::Zone;
use std::alloc::Global;

// Fewer zones than these are searched on one axis alone.
const FEW: usize = 16;

/// The zones that lie within no other one. Of equal ones the last stays.
pub(crate) fn thinned(alloc: Global, zones: &[Zone]) -> Result<List<Zone>, Memory>
    requires { AreInOneCell zones.now }
    ensures { IfOk result (λ made. IsThinned zones.now made) }
{
    let axes = axes_of(alloc, zones)?;
    let out = left_out(alloc, zones, &axes)?;
    staying(alloc, zones, &out)
}

// For each zone whether it is left out, since it lies within another one that is not left out before it.
fn left_out(alloc: Global, zones: &[Zone], axes: &[Axis]) -> Result<Vec<bool>, Memory>
    requires zones { AreInOneCell zones.now }
    requires axes { AreAxesOf zones.now axes.now }
    ensures { IfOk result (λ out. AreLeftOut zones.now (length zones.now) out.items) }
{
    let mut out = Vec::new(alloc);
    for place in 0..zones.len() {
        let covered = is_covered(zones, axes, &out, place);
        out.push(covered)?;
    }
    Ok(out)
}

// The zones that are not left out.
fn staying(alloc: Global, zones: &[Zone], out: &[bool]) -> Result<List<Zone>, Memory>
    requires zones { AreInOneCell zones.now }
    requires out { AreLeftOut zones.now (length zones.now) out.now }
    ensures { IfOk result (λ made. IsThinned zones.now made) }
{
    let mut kept = List::new(alloc);
    for place in 0..zones.len() {
        if !is_out(out, place) {
            kept.push(zones[place])?;
        }
    }
    Ok(kept)
}

// Whether the zone at a place is left out.
fn is_out(out: &[bool], place: usize) -> bool
    ensures { IsTrue result ↔ IsLeftOut out.now place }
{
    place < out.len() && out[place]
}

// The axes of the zones, of which there is one at least.
fn axes_of(alloc: Global, zones: &[Zone]) -> Result<Vec<Axis>, Memory>
    requires { AreInOneCell zones.now }
    ensures { IfOk result (λ axes. AreAxesOf zones.now axes.items) }
{
    let pairs = pairs(alloc, zones[0].columns() as u8 + 1)?;
    axes_along(alloc, zones, &pairs)
}

// The axes of the zones in the differences of pairs of columns, where there are few of the first pair alone.
fn axes_along(alloc: Global, zones: &[Zone], pairs: &[NodePair]) -> Result<Vec<Axis>, Memory>
    requires some { 0 < length pairs.now }
    requires pairs { (p : PairValue) (z : ZoneView) → Contains pairs.now p → Contains zones.now z
        → IsPairOf z p }
    ensures { IfOk result (λ axes. AreAxesOf zones.now axes.items) }
{
    let mut axes = Vec::new(alloc);
    for pair in pairs {
        let axis = Axis::of(alloc, zones, *pair)?;
        axes.push(axis)?;
        if zones.len() < FEW {
            return Ok(axes);
        }
    }
    Ok(axes)
}

// Whether the zone at a place lies within another one that stays.
fn is_covered(zones: &[Zone], axes: &[Axis], out: &[bool], place: usize) -> bool
    requires zones { AreInOneCell zones.now }
    requires axes { AreAxesOf zones.now axes.now }
    requires place { place < length zones.now }
    ensures { IsTrue result ↔ IsCoveredBySome zones.now out.now place }
{
    let closed = zones[place].closed();
    let axis = narrowest(axes, &closed);
    let window = closed_window(&closed, axis.pair, place);
    for other in axis.holding(&window) {
        if is_covered_by(zones, out, &closed, &window, other) {
            return true;
        }
    }
    false
}

// Whether it lies within the zone of another window, which stays.
fn is_covered_by(
    zones: &[Zone],
    out: &[bool],
    closed: &Matrix,
    window: &CutterWindow,
    other: &CutterWindow,
) -> bool
    requires zones { AreInOneCell zones.now }
    requires closed { IsClosureAt zones.now window.now.place closed.now }
    requires windows { AreAlongOneAxis zones.now closed.now window.now other.now }
    ensures { IsTrue result ↔ IsCoveredBy zones.now out.now window.now.place other.now.place }
{
    if other.place == window.place || is_out(out, other.place) {
        return false;
    }
    ends_by(window.most, other.most) && lies_within(closed, &zones[other.place])
}

// The axis on which the fewest windows hold that of a zone.
fn narrowest<'a>(axes: &'a [Axis], closed: &Matrix) -> &'a Axis
    requires some { 0 < length axes.now }
    requires axes { AreAxesFor closed.now axes.now }
    ensures { Contains axes.now result.now }
{
    let mut narrowest = &axes[0];
    let mut fewest = usize::MAX;
    for axis in axes {
        let count = axis.holding(&closed_window(closed, axis.pair, 0)).len();
        if count < fewest {
            fewest = count;
            narrowest = axis;
        }
    }
    narrowest
}

// Whether a zone whose closed bounds these are lies within another one.
fn lies_within(closed: &Matrix, other: &Zone) -> bool
    requires columns { closed.now.columns ≡ columns_of other.now }
    requires small { IsSmallClosure (closed.now.columns + 1) (2 ^ 62) closed.now.cells }
    ensures { IsTrue result ↔ AreBelow (columns_of other.now + 1) closed.now.cells other.now.bounds }
{
    for left in 0..other.columns() + 1 {
        if !row_lies_within(closed, other, left) {
            return false;
        }
    }
    true
}

// Whether it meets the bounds of the other one on one column minus each.
fn row_lies_within(closed: &Matrix, other: &Zone, left: usize) -> bool
    requires columns { closed.now.columns ≡ columns_of other.now }
    requires small { IsSmallClosure (closed.now.columns + 1) (2 ^ 62) closed.now.cells }
    requires left { left ≤ columns_of other.now }
    ensures { IsTrue result ↔ IsBelowInRow (columns_of other.now + 1) closed.now.cells other.now.bounds left }
{
    for right in 0..other.columns() + 1 {
        if !meets_bound(closed, other, left, right) {
            return false;
        }
    }
    true
}

// Whether it meets the bound of the other one on one column minus another.
fn meets_bound(closed: &Matrix, other: &Zone, left: usize, right: usize) -> bool
    requires columns { closed.now.columns ≡ columns_of other.now }
    requires small { IsSmallClosure (closed.now.columns + 1) (2 ^ 62) closed.now.cells }
    requires left { left ≤ columns_of other.now }
    requires right { right ≤ columns_of other.now }
    ensures { IsTrue result ↔ IsBelowAt closed.now.cells other.now.bounds left right }
{
    if left == right {
        return true;
    }
    ends_by(bound_of(closed, left, right), other.bound(left, right))
}

// Whether an end is no later than another one.
fn ends_by(end: Option<i64>, other: Option<i64>) -> bool
    ensures { IsTrue result ↔ IsBelow end other }
{
    match (end, other) {
        (Some(end), Some(other)) => end <= other,
        (_, None) => true,
        (None, Some(_)) => false,
    }
}
