// The zones of one cell, settled: the same set in other zones, in one way where it can be.
ghost use Rattle.std.specs.Prelude.{◌≡◌, ◌+◌, ◌*◌, ◌<◌, ◌≤◌, ◌^◌, ◌↔◌, ◌∷◌, [], ℤ, Contains, IfOk, IsTrue, List as ListOf, length};
ghost use Rattle.lrp_zone.specs.Zones.{ZoneView, IsZone, columns_of, reach_of};
ghost use Rattle.lrp_cutting.specs.Differences.{AreOfCell};
ghost use Rattle.lrp_cutting.specs.Settling.{IsSettlement};

use crate::covering::thinned;
use crate::hull::hull;
use crate::intervals::maximal;
use crate::leaving::has_gap;
use crate::turns::are_apart;
use lrp_model::{List, Memory};
use lrp_zone::Zone;
use std::alloc::Global;

/// The same set of tuples in settled zones of the cell: one zone where there is no column, the maximal intervals where there
/// is one, and else zones of which none lies within another one: one zone exactly where the set is that of one zone of the
/// cell.
///
/// With two columns or more that zone can only be the hull, the least one that holds the set. Where a piece of the hull is
/// in none of the zones, they are given as they came, without those that lie within another one. Of equal ones the last
/// stays. Zones that come one after another by their values, with one of the first column between two of them, are such as
/// they stand.
pub fn settle(alloc: Global, zones: &List<Zone>) -> Result<List<Zone>, Memory>
    requires some { 0 < length zones.now }
    requires cell { (z : ZoneView) → Contains zones.now z → AreOfCell z zones.now }
    requires reach { (z : ZoneView) → Contains zones.now z
        → columns_of z * reach_of z + z.period ≤ 2 ^ 62 }
    ensures { IfOk result (λ made. (z : ZoneView) → Contains zones.now z
        → IsSettlement z zones.now made) }
{
    let first = zones.at(0);
    match first.columns() {
        0 => one(alloc, *first),
        1 => maximal(alloc, first, zones.as_slice()),
        _ => fewest(alloc, first, zones),
    }
}

// Zones with two columns or more in fewest zones: as they stand where they are apart, and else by their hull.
fn fewest(alloc: Global, cell: &Zone, zones: &List<Zone>) -> Result<List<Zone>, Memory>
    requires columns { 1 < columns_of cell.now }
    requires listed { Contains zones.now cell.now }
    requires zone { IsZone cell.now }
    requires cell { AreOfCell cell.now zones.now }
    requires reach { (z : ZoneView) → Contains zones.now z
        → columns_of z * reach_of z + z.period ≤ 2 ^ 62 }
    ensures { IfOk result (λ made. IsSettlement cell.now zones.now made) }
{
    let all = zones.as_slice();
    if all.len() == 1 {
        return one(alloc, *cell);
    }
    let apart = are_apart(alloc, all)?;
    if apart {
        return listed(alloc, all);
    }
    by_hull(alloc, cell, zones)
}

// The hull of the zones, where it is their set, and else the zones.
fn by_hull(alloc: Global, cell: &Zone, zones: &List<Zone>) -> Result<List<Zone>, Memory>
    requires columns { 1 < columns_of cell.now }
    requires listed { Contains zones.now cell.now }
    requires cell { AreOfCell cell.now zones.now }
    requires reach { (z : ZoneView) → Contains zones.now z
        → columns_of z * reach_of z + z.period ≤ 2 ^ 62 }
    ensures { IfOk result (λ made. IsSettlement cell.now zones.now made) }
{
    let all = zones.as_slice();
    let hull = hull(alloc, cell, all)?;
    if has_gap(alloc, &hull, all)? {
        thinned(alloc, all)
    } else {
        one(alloc, hull)
    }
}

// The list of one zone.
fn one(alloc: Global, zone: Zone) -> Result<List<Zone>, Memory>
    ensures { IfOk result (λ made. made ≡ zone ∷ []) }
{
    let mut made = List::new(alloc);
    made.push(zone)?;
    Ok(made)
}

// The list of the zones.
fn listed(alloc: Global, zones: &[Zone]) -> Result<List<Zone>, Memory>
    ensures { IfOk result (λ made. made ≡ zones.now) }
{
    let all = zones.to_vec(alloc)?;
    Ok(List::from_vec(all))
}
