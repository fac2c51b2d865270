// The points and the bounds of a row as parts of a system.
ghost use Rattle.std.specs.Prelude.{◌≡◌, ◌<◌, ◌≤◌, ◌^◌, ◌≤ℤ◌, ◌-ℤ◌, pos, nat_abs, length, All, IfNone, IfOk, IfSome, MatchOption};
ghost use Rattle.std.specs.List.{AllByRecursion};
ghost use Rattle.lrp_theory.specs.Divides.{Divides};
ghost use Rattle.lrp_zone.specs.Zones.{IsResidue};
ghost use Rattle.lrp_lint.specs.Contents.{ArePointParts, HasNoneBounded, HasPointPeriod, IsBoundZone, IsPointPart, IsReadable, IsSystemOf, row_points};
ghost use Rattle.lrp_lint.specs.Flaws.{IsEmpty};
ghost use Rattle.lrp_lint.specs.Ties.{AreBetween};

use lrp_model::{Bound, List, Memory, Row, RowPoint, Value};
use lrp_systems::PlacedZone;
use lrp_zone::Zone;
use std::alloc::Global;

/// The parts of a row: those of its points, and that of its bounds. There are none where no times meet the bounds.
pub fn row_parts(alloc: Global, times: u8, row: &Row) -> Result<Option<Vec<PlacedZone>>, Memory>
    requires { IsReadable times row.now }
    ensures { IfOk result (λ found. MatchOption found (IsEmpty row.now)
        (λ parts. IsSystemOf row.now times parts.items)) }
{
    let mut parts = points_of(alloc, &row.values)?;
    match bounds_zone(row.bounds.as_slice(), usize::from(times)) {
        Some(zone) => {
            parts.push(PlacedZone::in_order(&zone))?;
            Ok(Some(parts))
        }
        None => Ok(None),
    }
}

// The points among the values as parts at the places 1, 2 and so on.
fn points_of(alloc: Global, values: &List<Value>) -> Result<Vec<PlacedZone>, Memory>
    requires few { length (row_points values.now) ≤ 8 }
    requires periods { AllByRecursion HasPointPeriod values.now }
    ensures { IfOk result (λ made. ArePointParts 1 (row_points values.now) made.items) }
{
    let mut parts = Vec::new(alloc);
    for value in values.as_slice() {
        if let Value::Point { at } = value {
            let place = parts.len() + 1;
            parts.push(point_part(at, place))?;
        }
    }
    Ok(parts)
}

// The members of a point, at a place.
fn point_part(at: &RowPoint, place: usize) -> PlacedZone
    requires low { pos 1 ≤ℤ at.now.period }
    requires high { at.now.period ≤ℤ pos (2 ^ 62) }
    ensures { IsPointPart at.now place result }
{
    match Zone::of(at.period, &[residue_of(at)], &[]) {
        Some(zone) => PlacedZone::of(&zone, &[place, 0, 0, 0, 0, 0, 0, 0]),
        None => unreachable!(),
    }
}

// The residue of a point's members.
fn residue_of(at: &RowPoint) -> i64
    requires low { pos 1 ≤ℤ at.now.period }
    ensures residue { IsResidue (nat_abs at.now.period) result }
    ensures equal { Divides at.now.period (result -ℤ at.now.offset) }
{
    at.offset.rem_euclid(at.period)
}

// The tuples of this many times that meet the bounds, or `None` where there are none.
fn bounds_zone(bounds: &[Bound], times: usize) -> Option<Zone>
    requires few { times ≤ 8 }
    requires between { AllByRecursion (AreBetween times) bounds.now }
    requires small { All (λ b. nat_abs b.most ≤ 2 ^ 62) bounds.now }
    ensures none { IfNone result (HasNoneBounded bounds.now times) }
    ensures some { IfSome result (IsBoundZone bounds.now times) }
{
    let residues = [0; 8];
    Zone::of(1, &residues[..times], bounds)
}
