// Cells of one column, settled from one store to another without a list of their zones.
ghost use Rattle.std.specs.Prelude.{◌≡◌, ◌+◌, ◌<◌, ◌≤◌, ◌^◌, ◌∷◌, All, AllPairs, Contains, IfOk, IfSome, IsTrue, OnOk, nat_abs, pos};
ghost use Rattle.lrp_zone.specs.Zones.{ZoneView, columns_of, reach_of};
ghost use Rattle.lrp_store.specs.Stores.{zones_at};
ghost use Rattle.lrp_cutting.specs.Intervals.{BeginsBy, IsInterval, IsJoinedInterval, IsStoredInterval};
ghost use Rattle.lrp_cutting.specs.Lines.{AddsMerged, AddsSpan, AreOnLine, HaveNumbers};
ghost use Rattle.lrp_cutting.specs.Settling.{IsLike, IsPlaceOf, SettlesCell};

use crate::intervals::{Interval, interval_of, is_apart, joined, zone_of};
use lrp_model::{Cell, Memory};
use lrp_store::{Store, Zones};
use lrp_zone::Zone;
use std::alloc::Global;

/// Appends to another store the maximal intervals of the numbers of a cell with one column, ascending.
///
/// An interval that comes after its neighbour is joined to it as it comes, so zones that touch in turn take no memory.
pub fn settle_line(
    alloc: Global,
    store: &Store,
    cell: &Cell,
    made: &mut Store,
) -> Result<(), Memory>
    requires column { store.now.shape.times ≡ 1 }
    requires reach { (z : ZoneView) → Contains (zones_at store.now cell.now) z
        → reach_of z + z.period ≤ 2 ^ 62 }
    requires like { IsLike store.now made.old }
    ensures { OnOk result (SettlesCell cell.now store.now made.old made.new) }
{
    prove_eq!(store.shape().times, 1);
    let mut zones = store.zones_of(cell);
    let Some(first) = zones.next() else {
        return Ok(());
    };
    let mut intervals = intervals_in_turn(alloc, &first, zones)?;
    intervals.sort_unstable();
    add_merged(alloc, &first, &intervals, cell, made)
}

// Intervals with the numbers of the zones. One that the next one can be joined to grows by it.
fn intervals_in_turn(alloc: Global, first: &Zone, rest: Zones<'_>) -> Result<Vec<Interval>, Memory>
    requires { AreOnLine first.now (first.now ∷ rest) }
    ensures { IfOk result (λ made. HaveNumbers first.now (first.now ∷ rest.entry) made.items) }
{
    let period = first.period();
    let mut made = Vec::new(alloc);
    let mut last = interval_of(first);
    for zone in rest {
        let next = interval_of(&zone);
        match grown(last, next, period) {
            Some(both) => last = both,
            None => {
                made.push(last)?;
                last = next;
            }
        }
    }
    made.push(last)?;
    Ok(made)
}

// The interval of both, where the next one begins no sooner and no number of the cell lies between them.
fn grown(last: Interval, next: Interval, period: i64) -> Option<Interval>
    requires { IfSome last.most (λ most. nat_abs most + nat_abs period ≤ 2 ^ 62) }
    ensures { IfSome result (λ both. (z : ZoneView) → period ≡ pos z.period → 0 < z.period
        → IsInterval z last → IsInterval z next → IsJoinedInterval z last next both) }
{
    if !begins_by(last, next) {
        return None;
    }
    if is_apart(last, next, period) {
        return None;
    }
    Some(joined(last, next))
}

// Whether the next interval begins no sooner.
fn begins_by(last: Interval, next: Interval) -> bool
    ensures { IsTrue result → BeginsBy last next }
{
    match (last.least, next.least) {
        (None, _) => true,
        (Some(last), Some(next)) => last <= next,
        (Some(_), None) => false,
    }
}

// Appends the zones of intervals that are in order, where those that overlap or are neighbours become one.
fn add_merged(
    alloc: Global,
    zone: &Zone,
    intervals: &[Interval],
    cell: &Cell,
    made: &mut Store,
) -> Result<(), Memory>
    requires column { columns_of zone.now ≡ 1 }
    requires intervals { All (IsInterval zone.now) intervals.now }
    requires order { AllPairs BeginsBy intervals.now }
    requires place { IsPlaceOf made.old cell.now zone.now }
    ensures { OnOk result (AddsMerged cell.now zone.now intervals.now made.old made.new) }
{
    let Some((first, rest)) = intervals.split_first() else {
        return Ok(());
    };
    let mut last = *first;
    for next in rest {
        if is_apart(last, *next, zone.period()) {
            add_span(alloc, zone, last, cell, made)?;
            last = *next;
        } else {
            last = joined(last, *next);
        }
    }
    add_span(alloc, zone, last, cell, made)
}

// Appends the zone of an interval.
fn add_span(
    alloc: Global,
    zone: &Zone,
    interval: Interval,
    cell: &Cell,
    made: &mut Store,
) -> Result<(), Memory>
    requires column { columns_of zone.now ≡ 1 }
    requires interval { IsStoredInterval zone.now interval }
    requires place { IsPlaceOf made.old cell.now zone.now }
    ensures { OnOk result (AddsSpan cell.now zone.now interval made.old made.new) }
{
    let span = zone_of(alloc, zone, interval)?;
    made.put(cell, &span)?;
    Ok(())
}
