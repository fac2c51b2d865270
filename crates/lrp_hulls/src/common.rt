// The bounds that zones have in common.
ghost use Rattle.std.specs.Prelude.{◌≤◌, IfOk, IfSome, OnOk};
ghost use Rattle.lrp_zone.specs.Zones.{columns_of};
ghost use Rattle.lrp_hulls.specs.Common.{AreCommonBounds, HaveColumns, IsCommonBound, IsZoneInCommon, IsSmallBound};

use lrp_model::{Bound, Memory};
use lrp_packed::PackedList;
use lrp_zone::Zone;
use std::alloc::Global;

// A bound of a greater magnitude tells little, and may not be brought to a large period.
const MOST: i64 = 1 << 60;

/// The tuples within the bounds that all zones of so many columns have, each bound as that of the loosest zone; `None`
/// where no integers are within them.
pub fn common_zone(
    alloc: Global,
    pieces: &PackedList,
    columns: usize,
) -> Result<Option<Zone>, Memory>
    requires few { columns ≤ 8 }
    requires columns { HaveColumns columns pieces.now }
    ensures { IfOk result (λ found. IfSome found (IsZoneInCommon columns pieces.now)) }
{
    let bounds = common_bounds(alloc, pieces, columns)?;
    let residues = [0; 8];
    Ok(Zone::of(1, &residues[..columns], bounds.as_slice()))
}

// These bounds.
fn common_bounds(alloc: Global, pieces: &PackedList, columns: usize) -> Result<Vec<Bound>, Memory>
    requires few { columns ≤ 8 }
    requires columns { HaveColumns columns pieces.now }
    ensures { IfOk result (λ bounds. AreCommonBounds columns pieces.now bounds.items) }
{
    let mut bounds = Vec::new(alloc);
    for i in 0..columns + 1 {
        add_bounds_of(pieces, columns, i, &mut bounds)?;
    }
    Ok(bounds)
}

// Adds those of column i minus each column, where column 0 is the number zero.
fn add_bounds_of(
    pieces: &PackedList,
    columns: usize,
    i: usize,
    bounds: &mut Vec<Bound>,
) -> Result<(), Memory>
    requires few { columns ≤ 8 }
    requires columns { HaveColumns columns pieces.now }
    requires column { i ≤ columns }
    requires old { AreCommonBounds columns pieces.now bounds.old.items }
    ensures { OnOk result (AreCommonBounds columns pieces.now bounds.new.items) }
{
    for j in 0..columns + 1 {
        if let Some(bound) = common_bound(pieces, columns, i, j) {
            bounds.push(bound)?;
        }
    }
    Ok(())
}

// That of column i minus column j, where all zones have one that isn't large.
fn common_bound(pieces: &PackedList, columns: usize, i: usize, j: usize) -> Option<Bound>
    requires few { columns ≤ 8 }
    requires columns { HaveColumns columns pieces.now }
    requires left { i ≤ columns }
    requires right { j ≤ columns }
    ensures { IfSome result (IsCommonBound columns pieces.now) }
{
    let mut most = -MOST;
    for number in 0..pieces.len() {
        let piece = pieces.piece(number);
        let bound = small_bound(&piece.zone, i, j)?;
        if most < bound {
            most = bound;
        }
    }
    Some(Bound {
        left: i as u8,
        right: j as u8,
        most,
    })
}

// The bound of column i minus column j, where there is one that isn't large.
fn small_bound(zone: &Zone, i: usize, j: usize) -> Option<i64>
    requires left { i ≤ columns_of zone.now }
    requires right { j ≤ columns_of zone.now }
    ensures { IfSome result (IsSmallBound zone.now i j) }
{
    let most = zone.bound(i, j)?;
    if -MOST <= most && most <= MOST {
        Some(most)
    } else {
        None
    }
}
