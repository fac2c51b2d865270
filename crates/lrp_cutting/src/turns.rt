// Zones of one cell that come one after another.
ghost use Rattle.std.specs.Prelude.{◌<◌, Contains, IfOk, IsTrue, length};
ghost use Rattle.lrp_zone.specs.Pairs.{IsOfCell};
ghost use Rattle.lrp_zone.specs.Zones.{ZoneView, columns_of};
ghost use Rattle.lrp_cutting.specs.Turns.{AreZonesApart, AreAtPlaces, LiesBefore, HaveOneValue, HaveValueBetween, StandApart};
ghost use Rattle.lrp_cutting.specs.declared.windows.CutterWindow.{CutterWindow as WindowValue};

use crate::windows::{CutterWindow, is_before, window_of, windows_of};
use lrp_model::Memory;
use lrp_zone::Zone;
use std::alloc::Global;

/// Whether the zones, in the order of their windows in the first column, come one after another, and some value of that column
/// lies between two of them.
pub(crate) fn are_apart(alloc: Global, zones: &[Zone]) -> Result<bool, Memory>
    requires columns { (z : ZoneView) → Contains zones.now z → 0 < columns_of z }
    requires cell { (v w : ZoneView) → Contains zones.now v → Contains zones.now w → IsOfCell v w }
    ensures { IfOk result (λ apart. IsTrue apart → AreZonesApart zones.now) }
{
    let mut windows = windows_of(alloc, zones, 1)?;
    windows.sort_unstable();
    let ordered = ordered(alloc, zones, &windows)?;
    Ok(stand_apart(&ordered))
}

// The zones at the places of windows.
fn ordered(alloc: Global, zones: &[Zone], windows: &[CutterWindow]) -> Result<Vec<Zone>, Memory>
    requires { (w : WindowValue) → Contains windows.now w → w.place < length zones.now }
    ensures { IfOk result (λ made. AreAtPlaces zones.now windows.now made.items) }
{
    let mut made = Vec::new(alloc);
    for window in windows {
        made.push(zones[window.place])?;
    }
    Ok(made)
}

// Whether the windows show that each of the zones comes before the next one, and that some value of the first column lies
// between two of them.
fn stand_apart(zones: &[Zone]) -> bool
    requires columns { (z : ZoneView) → Contains zones.now z → 0 < columns_of z }
    requires cell { (v w : ZoneView) → Contains zones.now v → Contains zones.now w → IsOfCell v w }
    ensures { IsTrue result → StandApart zones.now }
{
    let mut are_parted = false;
    for place in 1..zones.len() {
        let (zone, next) = (&zones[place - 1], &zones[place]);
        if !comes_before(zone, next) {
            return false;
        }
        if have_value_between(zone, next) {
            are_parted = true;
        }
    }
    are_parted
}

// Whether the windows show that each tuple of the next zone comes after each of a zone.
fn comes_before(zone: &Zone, next: &Zone) -> bool
    requires cell { IsOfCell zone.now next.now }
    ensures { IsTrue result → LiesBefore zone.now next.now }
{
    let columns = zone.columns();
    prove_eq!(next.columns(), columns);
    for i in 0..columns {
        let (window, other) = (window_of(zone, i + 1, 0), window_of(next, i + 1, 0));
        if is_before(window.most, other.least) {
            return true;
        }
        if !have_one_value(&window, &other) {
            return false;
        }
    }
    false
}

// Whether two windows have one value alone, the same.
fn have_one_value(window: &CutterWindow, other: &CutterWindow) -> bool
    ensures { IsTrue result → HaveOneValue window.now other.now }
{
    match (window.least, window.most) {
        (Some(least), Some(most)) => {
            least == most && other.least == Some(least) && other.most == Some(least)
        }
        _ => false,
    }
}

// Whether some value of the first column lies between two zones by its stored bounds.
fn have_value_between(zone: &Zone, next: &Zone) -> bool
    requires columns { 0 < columns_of zone.now }
    requires cell { IsOfCell zone.now next.now }
    ensures { IsTrue result → HaveValueBetween zone.now next.now }
{
    let columns = zone.columns();
    prove_eq!(next.columns(), columns);
    match (zone.bound(1, 0), next.bound(0, 1)) {
        (Some(most), Some(below)) => most < -below - zone.period(),
        _ => false,
    }
}
