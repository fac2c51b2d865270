// What of a zone is left where cutters are taken away, cutter after cutter.
ghost use Rattle.std.specs.Prelude.{◌≡◌, ◌+◌, ◌<◌, ◌≤◌, ◌^◌, ◌∷◌, ◌↔◌, [], ℕ, Contains, IfOk, OnOk, IsTrue, length, max};
ghost use Rattle.lrp_zone.specs.Pairs.{IsOfCell};
ghost use Rattle.lrp_zone.specs.Zones.{IsZone, reach_of};
ghost use Rattle.lrp_cutting.specs.Cutting.{side_reach};
ghost use Rattle.lrp_cutting.specs.Differences.{AreOfCell, IsDifference, greatest_reach};
ghost use Rattle.lrp_cutting.specs.Leaving.{AppendsLeft, AreLeftOf, AreMeeting, AreOutsideOne, HasGap};
ghost use Rattle.lrp_cutting.specs.Thresholds.{most_pieces};

use crate::gaps::gaps;
use crate::half::{half, turned};
use crate::standing::have_common;
use crate::stored::stored;
use lrp_model::{List, Memory};
use lrp_zone::Zone;
use std::alloc::Global;

/// The tuples of a zone outside a cutter: for each stored bound of the cutter those that break it and meet the ones before.
fn outside(alloc: Global, zone: &Zone, cutter: &Zone) -> Result<List<Zone>, Memory>
    requires zone { IsZone zone.now }
    requires cell { IsOfCell zone.now cutter.now }
    requires reach { reach_of cutter.now + zone.now.period ≤ 2 ^ 62 }
    ensures { IfOk result (λ sides. AreLeftOf zone.now (zone.now ∷ []) (cutter.now ∷ [])
        (max (reach_of zone.now) (reach_of cutter.now + zone.now.period)) sides) }
{
    let bounds = stored(alloc, cutter)?;
    let mut sides = List::new(alloc);
    let mut rest = *zone;
    for bound in &bounds {
        let Some(side) = half(&rest, turned(zone, *bound)) else {
            continue;
        };
        sides.push(side)?;
        match half(&rest, *bound) {
            Some(inner) => rest = inner,
            None => return Ok(sides),
        }
    }
    Ok(sides)
}

// A cutter from the middle of the list.
fn middle(cutters: &[Zone]) -> &Zone
    requires { 0 < length cutters.now }
    ensures { Contains cutters.now result.now }
{
    &cutters[cutters.len() / 2]
}

// The tuples of a part outside one of the cutters.
fn outside_one(alloc: Global, part: &Zone, cutters: &[Zone]) -> Result<List<Zone>, Memory>
    requires some { 0 < length cutters.now }
    requires zone { IsZone part.now }
    requires cell { AreOfCell part.now cutters.now }
    requires reach { side_reach part.now.period cutters.now ≤ 2 ^ 62 }
    ensures { IfOk result (λ sides. AreOutsideOne part.now cutters.now sides) }
{
    outside(alloc, part, middle(cutters))
}

// The cutters that have a tuple in common with a zone of their cell.
fn meeting(alloc: Global, zone: &Zone, cutters: &[Zone]) -> Result<List<Zone>, Memory>
    requires cell { AreOfCell zone.now cutters.now }
    ensures { IfOk result (λ met. AreMeeting zone.now cutters.now met) }
{
    let mut met = List::new(alloc);
    for cutter in cutters {
        if have_common(zone, cutter) {
            met.push(*cutter)?;
        }
    }
    Ok(met)
}

/// Whether some tuple of a part is in no cutter.
///
/// The search takes away a cutter from the middle of the list and goes on with each side that is left, among the cutters that
/// the side meets. It ends at the first part that meets none.
pub(crate) fn has_gap(alloc: Global, part: &Zone, cutters: &[Zone]) -> Result<bool, Memory>
    requires zone { IsZone part.now }
    requires cell { AreOfCell part.now cutters.now }
    requires reach { side_reach part.now.period cutters.now ≤ 2 ^ 62 }
    ensures { IfOk result (λ gap. IsTrue gap ↔ HasGap part.now cutters.now) }
{
    if cutters.is_empty() {
        return Ok(true);
    }
    let sides = outside_one(alloc, part, cutters)?;
    for side in sides.as_slice() {
        let met = meeting(alloc, side, cutters)?;
        if has_gap(alloc, side, met.as_slice())? {
            return Ok(true);
        }
    }
    Ok(false)
}

/// Disjoint zones that hold the tuples of the zone that are in no cutter.
///
/// A cutter from the middle of the list is taken away, bound after bound, and then from each side that is left those cutters
/// that the side meets. A zone with one column is swept along its cutters in order.
pub fn pieces(alloc: Global, zone: &Zone, cutters: &List<Zone>) -> Result<List<Zone>, Memory>
    requires cell { AreOfCell zone.now cutters.now }
    requires reach { greatest_reach (zone.now ∷ cutters.now) + zone.now.period ≤ 2 ^ 62 }
    ensures difference { IfOk result (λ made. IsDifference zone.now cutters.now made) }
    ensures reach { IfOk result (λ made. greatest_reach made
        ≤ greatest_reach (zone.now ∷ cutters.now) + zone.now.period) }
    ensures count { IfOk result (λ made. length made ≤ most_pieces zone.now cutters.now) }
{
    left_over(alloc, zone, cutters)
}

/// The same, as what is left of a part.
pub(crate) fn left_over(
    alloc: Global,
    zone: &Zone,
    cutters: &List<Zone>,
) -> Result<List<Zone>, Memory>
    requires cell { AreOfCell zone.now cutters.now }
    requires reach { greatest_reach (zone.now ∷ cutters.now) + zone.now.period ≤ 2 ^ 62 }
    ensures { IfOk result (λ made. AreLeftOf zone.now (zone.now ∷ []) cutters.now
        (greatest_reach (zone.now ∷ cutters.now) + zone.now.period) made) }
{
    if zone.columns() == 1 {
        return gaps(alloc, zone, cutters.as_slice());
    }
    let mut made = List::new(alloc);
    add_left(alloc, zone, cutters.as_slice(), &mut made)?;
    Ok(made)
}

// Appends what of a part is left.
fn add_left(
    alloc: Global,
    part: &Zone,
    cutters: &[Zone],
    made: &mut List<Zone>,
) -> Result<(), Memory>
    requires zone { IsZone part.now }
    requires cell { AreOfCell part.now cutters.now }
    requires reach { side_reach part.now.period cutters.now ≤ 2 ^ 62 }
    ensures { OnOk result ((high : ℕ) → reach_of part.now ≤ high
        → side_reach part.now.period cutters.now ≤ high
        → AppendsLeft part.now (part.now ∷ []) cutters.now high made.old made.new) }
{
    if cutters.is_empty() {
        return made.push(*part);
    }
    let sides = outside_one(alloc, part, cutters)?;
    for side in sides.as_slice() {
        let met = meeting(alloc, side, cutters)?;
        add_left(alloc, side, met.as_slice(), made)?;
    }
    Ok(())
}
