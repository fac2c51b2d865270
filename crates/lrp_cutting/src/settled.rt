// Cells of one column that are settled as they stand.
ghost use Rattle.std.specs.Prelude.{◌≡◌, ◌+◌, ◌≤◌, ◌^◌, ◌∷◌, Contains, IsTrue, pos};
ghost use Rattle.lrp_zone.specs.Zones.{ZoneView, columns_of, reach_of};
ghost use Rattle.lrp_store.specs.Stores.{zones_at};
ghost use Rattle.lrp_cutting.specs.Intervals.{AreFarInTurn, IsOnLine};
ghost use Rattle.lrp_cutting.specs.Settling.{IsSettlement};

use crate::intervals::{interval_of, is_apart};
use lrp_model::Cell;
use lrp_store::{Store, Zones};
use lrp_zone::Zone;

/// Whether the zones of a cell with one column are the maximal intervals of their numbers as they stand, ascending.
pub fn is_settled(store: &Store, cell: &Cell) -> bool
    requires column { store.now.shape.times ≡ 1 }
    requires reach { (z : ZoneView) → Contains (zones_at store.now cell.now) z
        → reach_of z + z.period ≤ 2 ^ 62 }
    ensures { IsTrue result → (z : ZoneView) → Contains (zones_at store.now cell.now) z
        → IsSettlement z (zones_at store.now cell.now) (zones_at store.now cell.now) }
{
    prove_eq!(store.shape().times, 1);
    let mut zones = store.zones_of(cell);
    match zones.next() {
        Some(first) => are_apart(&first, zones, store.period()),
        None => true,
    }
}

// Whether a number of the cell lies between each zone and the one before it, and those of the zone are the greater ones.
fn are_apart(first: &Zone, rest: Zones<'_>, period: i64) -> bool
    requires { (z : ZoneView) → Contains (first.now ∷ rest) z → IsOnLine period z }
    ensures { IsTrue result → AreFarInTurn first.now rest.entry }
{
    let mut last = interval_of(first);
    for zone in rest {
        let next = interval_of(&zone);
        if !is_apart(last, next, period) {
            return false;
        }
        last = next;
    }
    true
}
