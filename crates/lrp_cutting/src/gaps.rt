// Zones of one column: what of one is in none of others.
ghost use Rattle.std.specs.Prelude.{◌≡◌, ◌+◌, ◌<◌, ◌≤◌, ◌^◌, ◌∷◌, [], All, AllPairs, IfNone, IfOk, IfSome, OnOk, nat_abs, pos};
ghost use Rattle.lrp_zone.specs.Zones.{ZoneView, IsZone, columns_of};
ghost use Rattle.lrp_cutting.specs.Differences.{AreOfCell, greatest_reach};
ghost use Rattle.lrp_cutting.specs.Gaps.{AppendsSpan, AreGaps, IsPartAbove, IsPartBelow, IsGreaterOf, IsReversed, IsLesserOf};
ghost use Rattle.lrp_cutting.specs.Intervals.{BeginsBy, IsInterval, IsStoredInterval};
ghost use Rattle.lrp_cutting.specs.Leaving.{AreLeftOf};

use crate::intervals::{Interval, interval_of, intervals_of, zone_of};
use lrp_model::{List, Memory};
use lrp_zone::Zone;
use std::alloc::Global;

/// Zones that hold the numbers of a zone with one column that are in no cutter, ascending.
///
/// The cutters are put in order once, and the zone is swept from its least number on.
pub(crate) fn gaps(alloc: Global, zone: &Zone, cutters: &[Zone]) -> Result<List<Zone>, Memory>
    requires column { columns_of zone.now ≡ 1 }
    requires cell { AreOfCell zone.now cutters.now }
    requires reach { greatest_reach (zone.now ∷ cutters.now) + zone.now.period ≤ 2 ^ 62 }
    ensures { IfOk result (AreLeftOf zone.now (zone.now ∷ []) cutters.now
        (greatest_reach (zone.now ∷ cutters.now) + zone.now.period)) }
{
    let mut cuts = intervals_of(alloc, zone, cutters)?;
    cuts.sort_unstable();
    swept(alloc, zone, interval_of(zone), &cuts)
}

// The zones of what of an interval is in none of others, which are in order.
fn swept(
    alloc: Global,
    cell: &Zone,
    whole: Interval,
    cuts: &[Interval],
) -> Result<List<Zone>, Memory>
    requires zone { IsZone cell.now }
    requires column { columns_of cell.now ≡ 1 }
    requires whole { IsStoredInterval cell.now whole }
    requires cuts { All (IsInterval cell.now) cuts.now }
    requires order { AllPairs BeginsBy cuts.now }
    ensures { IfOk result (AreGaps cell.now whole cuts.now) }
{
    let mut made = List::new(alloc);
    let mut rest = whole;
    for cut in cuts {
        push_span(alloc, cell, below(rest, *cut, cell.period()), &mut made)?;
        match above(rest, *cut, cell.period()) {
            Some(left) => rest = left,
            None => return Ok(made),
        }
    }
    made.push(zone_of(alloc, cell, rest)?)?;
    Ok(made)
}

// Appends the zone of an interval, if there is one.
fn push_span(
    alloc: Global,
    cell: &Zone,
    part: Option<Interval>,
    made: &mut List<Zone>,
) -> Result<(), Memory>
    requires column { columns_of cell.now ≡ 1 }
    requires part { IfSome part (IsStoredInterval cell.now) }
    ensures { OnOk result (AppendsSpan cell.now part made.old made.new) }
{
    match part {
        Some(interval) => made.push(zone_of(alloc, cell, interval)?),
        None => Ok(()),
    }
}

// The numbers of an interval below another one, if there are such.
fn below(whole: Interval, cut: Interval, period: i64) -> Option<Interval>
    requires { IfSome cut.least (λ least. nat_abs least + nat_abs period ≤ 2 ^ 62) }
    ensures { (z : ZoneView) → period ≡ pos z.period → 0 < z.period → IsStoredInterval z whole
        → IsInterval z cut → IsPartBelow z whole cut result }
{
    let Some(least) = cut.least else {
        return None;
    };
    ordered(Interval {
        least: whole.least,
        most: Some(sooner(whole.most, least - period)),
    })
}

// The numbers of an interval above another one, if there are such.
fn above(whole: Interval, cut: Interval, period: i64) -> Option<Interval>
    requires { IfSome cut.most (λ most. nat_abs most + nat_abs period ≤ 2 ^ 62) }
    ensures { (z : ZoneView) → period ≡ pos z.period → 0 < z.period → IsStoredInterval z whole
        → IsInterval z cut → IsPartAbove z whole cut result }
{
    let Some(most) = cut.most else {
        return None;
    };
    ordered(Interval {
        least: Some(later(whole.least, most + period)),
        most: whole.most,
    })
}

// The lesser of an end and a number.
fn sooner(end: Option<i64>, number: i64) -> i64
    ensures { IsLesserOf end number result }
{
    match end {
        Some(end) => end.min(number),
        None => number,
    }
}

// The greater of an end and a number.
fn later(end: Option<i64>, number: i64) -> i64
    ensures { IsGreaterOf end number result }
{
    match end {
        Some(end) => end.max(number),
        None => number,
    }
}

// The interval, but for one whose end is below its start.
fn ordered(interval: Interval) -> Option<Interval>
    ensures none { IfNone result (IsReversed interval) }
    ensures some { IfSome result (λ v. (v ≡ interval) × (IsReversed interval → ⊥)) }
{
    match (interval.least, interval.most) {
        (Some(least), Some(most)) if most < least => None,
        _ => Some(interval),
    }
}
