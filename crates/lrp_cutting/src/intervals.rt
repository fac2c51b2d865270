// Zones of one column: the maximal intervals of their numbers.
ghost use Rattle.std.specs.Prelude.{◌≡◌, ◌+◌, ◌<◌, ◌≤◌, ◌^◌, ◌↔◌, ◌∷◌, ℕ, All, AllPairs, Contains, IfOk, IfSome, IsTrue, length, map, nat_abs, pos};
ghost use Rattle.lrp_zone.specs.Zones.{ZoneView, IsZone, columns_of, reach_of};
ghost use Rattle.lrp_cutting.specs.Differences.{AreOfCell};
ghost use Rattle.lrp_cutting.specs.Intervals.{AreMerged, BeginsBy, LiesApart, IsInterval, IsJoinedInterval, IsIntervalZone, IsStoredInterval, ends_of, span_of};
ghost use Rattle.lrp_cutting.specs.Settling.{IsSettlement};

use crate::bounded::bounded;
use crate::hull::wider;
use lrp_model::{Bound, List, Memory};
use lrp_zone::Zone;
use std::alloc::Global;

/// The numbers of a cell from one end to another, both included. `None` is no end.
///
/// Intervals are in order of their least numbers, those without a least one first.
#[derive(Clone, Copy, PartialEq, Eq, PartialOrd, Ord)]
pub struct Interval {
    pub(crate) least: Option<i64>,
    pub(crate) most: Option<i64>,
}

/// The maximal intervals of the numbers of zones with one column, ascending.
pub(crate) fn maximal(alloc: Global, cell: &Zone, zones: &[Zone]) -> Result<List<Zone>, Memory>
    requires zone { IsZone cell.now }
    requires column { columns_of cell.now ≡ 1 }
    requires some { 0 < length zones.now }
    requires cell { AreOfCell cell.now zones.now }
    requires reach { (z : ZoneView) → Contains zones.now z → reach_of z + z.period ≤ 2 ^ 62 }
    ensures { IfOk result (λ made. IsSettlement cell.now zones.now made) }
{
    let mut intervals = intervals_of(alloc, cell, zones)?;
    intervals.sort_unstable();
    let Some((first, rest)) = intervals.split_first() else {
        unreachable!()
    };
    merged(alloc, cell, *first, rest)
}

/// The intervals of zones with one column.
pub(crate) fn intervals_of(
    alloc: Global,
    cell: &Zone,
    zones: &[Zone],
) -> Result<Vec<Interval>, Memory>
    requires column { columns_of cell.now ≡ 1 }
    requires cell { AreOfCell cell.now zones.now }
    ensures intervals { IfOk result (λ made. made.items ≡ map span_of zones.now) }
    ensures valid { IfOk result (λ _. All IsZone zones.now) }
{
    let mut made = Vec::new(alloc);
    for zone in zones {
        made.push(interval_of(zone))?;
    }
    Ok(made)
}

/// The interval of a zone with one column. Its stored bounds are reached.
pub(crate) fn interval_of(zone: &Zone) -> Interval
    requires { columns_of zone.now ≡ 1 }
    ensures interval { result ≡ span_of zone.now }
    ensures valid { IsZone zone.now }
{
    prove_eq!(zone.columns(), 1);
    let most = zone.bound(1, 0);
    match zone.bound(0, 1) {
        Some(below) => Interval {
            least: Some(-below),
            most,
        },
        None => Interval { least: None, most },
    }
}

// The zones of intervals that are in order, where those that overlap or are neighbours become one.
fn merged(
    alloc: Global,
    cell: &Zone,
    first: Interval,
    rest: &[Interval],
) -> Result<List<Zone>, Memory>
    requires zone { IsZone cell.now }
    requires column { columns_of cell.now ≡ 1 }
    requires intervals { All (IsInterval cell.now) (first ∷ rest.now) }
    requires order { AllPairs BeginsBy (first ∷ rest.now) }
    ensures { IfOk result (λ made. AreMerged cell.now (first ∷ rest.now) made) }
{
    let mut made = List::new(alloc);
    let mut last = first;
    for next in rest {
        if is_apart(last, *next, cell.period()) {
            made.push(zone_of(alloc, cell, last)?)?;
            last = *next;
        } else {
            last = joined(last, *next);
        }
    }
    made.push(zone_of(alloc, cell, last)?)?;
    Ok(made)
}

/// Whether some number of the cell lies between an interval and the next one.
pub(crate) fn is_apart(last: Interval, next: Interval, period: i64) -> bool
    requires { IfSome last.most (λ most. nat_abs most + nat_abs period ≤ 2 ^ 62) }
    ensures { (k : ℕ) → period ≡ pos k → IsTrue result ↔ LiesApart k last next }
{
    match (last.most, next.least) {
        (Some(most), Some(least)) => most + period < least,
        _ => false,
    }
}

/// An interval and one that begins no sooner, with no number of the cell between them.
pub(crate) fn joined(last: Interval, next: Interval) -> Interval
    ensures { (z : ZoneView) → 0 < z.period → IsInterval z last → IsInterval z next
        → BeginsBy last next → (LiesApart z.period last next → ⊥)
        → IsJoinedInterval z last next result }
{
    Interval {
        least: last.least,
        most: wider(last.most, next.most),
    }
}

/// The zone of an interval of the cell.
pub(crate) fn zone_of(alloc: Global, cell: &Zone, interval: Interval) -> Result<Zone, Memory>
    requires column { columns_of cell.now ≡ 1 }
    requires interval { IsStoredInterval cell.now interval }
    ensures { IfOk result (λ w. IsIntervalZone cell.now interval w) }
{
    let bounds = bounds_of(alloc, interval)?;
    match bounded(cell, &bounds) {
        Some(zone) => Ok(zone),
        None => unreachable!(),
    }
}

// The bounds that the ends are.
fn bounds_of(alloc: Global, interval: Interval) -> Result<Vec<Bound>, Memory>
    requires { IfSome interval.least (λ least. nat_abs least ≤ 2 ^ 62) }
    ensures { IfOk result (λ made. made.items ≡ ends_of interval) }
{
    let mut made = Vec::new(alloc);
    if let Some(least) = interval.least {
        made.push(Bound {
            left: 0,
            right: 1,
            most: -least,
        })?;
    }
    if let Some(most) = interval.most {
        made.push(Bound {
            left: 1,
            right: 0,
            most,
        })?;
    }
    Ok(made)
}
