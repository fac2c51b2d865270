// The zones of a store as cutters of a longer cell.
ghost use Rattle.std.specs.Prelude.{◌≡◌, ◌+◌, ◌-◌, ◌≤◌, ◌^◌, ◌≤ℤ◌, ◌-ℤ◌, ℕ, pos, nat_abs, length, IfNone, IfOk, IfSome};
ghost use Rattle.lrp_theory.specs.Divides.{Divides};
ghost use Rattle.lrp_theory.specs.Entries.{node};
ghost use Rattle.lrp_zone.specs.Spread.{ArePlaces, target};
ghost use Rattle.lrp_zone.specs.Zones.{IsResidue, IsZone, columns_of, reach_of};
ghost use Rattle.lrp_store.specs.Stores.{HasReach, IsCellOf, IsStore, zones_at};
ghost use Rattle.lrp_minus.specs.Beneath.{AgreesAt};
ghost use Rattle.lrp_minus.specs.Cutters.{AreCutOf, AreCutters, CanCut, HasNoCutter, IsCutter};

use crate::beneath::{cell_beneath, residues_at};
use lrp_cutting::Cutters;
use lrp_model::{Cell, List, Memory};
use lrp_store::Store;
use lrp_tables::Places;
use lrp_zone::Zone;

/// Zones that hold the tuples of a cell of the left store's shape and period that have one of the right store at the places,
/// to be taken away from so many zones.
pub(crate) fn cutters_of(
    left: &Store,
    cell: &Cell,
    right: &Store,
    places: &Places,
    turns: usize,
) -> Result<Cutters, Memory>
    requires cell { IsCellOf left.now.shape left.now.period cell.now }
    requires cut { CanCut places.now left.now right.now }
    ensures { IfOk result (AreCutters places.now left.now cell.now right.now) }
{
    let times = usize::from(left.shape().times);
    let beneath = cell_beneath(cell, places, right);
    let zones = cut_all(
        right,
        &beneath,
        left.period(),
        places.times.as_slice(),
        &cell.residues[..times],
    )?;
    Cutters::of(left.alloc(), zones, turns)
}

// The zones of a cell, each as the tuples with these residues that have one of its own at the places.
fn cut_all(
    store: &Store,
    cell: &Cell,
    period: i64,
    places: &[usize],
    residues: &[i64],
) -> Result<List<Zone>, Memory>
    requires store { IsStore store.now }
    requires low { pos 1 ≤ℤ period }
    requires multiple { Divides (pos store.now.period) period }
    requires columns { length residues.now ≤ 8 }
    requires residues { (p : ℕ) → p ≤ length residues.now
        → IsResidue (nat_abs period) (node residues.now p) }
    requires count { length places.now ≡ store.now.shape.times }
    requires places { ArePlaces places.now (length residues.now) }
    requires agree { AgreesAt store.now places.now residues.now cell.now }
    requires reach { HasReach store.now (2 ^ 62 - nat_abs period) }
    requires high { nat_abs period ≤ 2 ^ 62 }
    ensures { IfOk result (AreCutOf (zones_at store.now cell.now) places.now
        (nat_abs period) residues.now) }
{
    let mut cutters = List::new(store.alloc());
    for zone in store.zones_of(cell) {
        if let Some(cutter) = cutter_of(&zone, period, places, residues) {
            cutters.push(cutter)?;
        }
    }
    Ok(cutters)
}

// The tuples with these residues that have one of the zone at the places, or `None` where there are none.
fn cutter_of(zone: &Zone, period: i64, places: &[usize], residues: &[i64]) -> Option<Zone>
    requires zone { IsZone zone.now }
    requires low { pos 1 ≤ℤ period }
    requires multiple { Divides (pos zone.now.period) period }
    requires columns { length residues.now ≤ 8 }
    requires residues { (p : ℕ) → p ≤ length residues.now
        → IsResidue (nat_abs period) (node residues.now p) }
    requires count { length places.now ≡ columns_of zone.now }
    requires places { ArePlaces places.now (length residues.now) }
    requires agree { (p : ℕ) → p ≤ columns_of zone.now
        → Divides (pos zone.now.period)
        (node residues.now (target places.now p) -ℤ node zone.now.residues p) }
    requires reach { reach_of zone.now + nat_abs period ≤ 2 ^ 62 }
    ensures none { IfNone result (HasNoCutter zone.now places.now period residues.now) }
    ensures some { IfSome result (IsCutter zone.now places.now period residues.now) }
{
    let own = residues_at(places, residues);
    let piece = zone.refine(period, &own[..places.len()])?;
    prove_eq!(piece.columns(), zone.columns());
    Some(piece.spread(places, residues))
}
