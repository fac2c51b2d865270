// What is left of zones, added to stores.
ghost use Rattle.std.specs.Prelude.{◌≡◌, ◌+◌, ◌≤◌, ◌^◌, ◌∷◌, take, Err, OnOk};
ghost use Rattle.lrp_store.specs.Growing.{GrowsByAtMost, IsAdded, IsRefused};
ghost use Rattle.lrp_store.specs.Stores.{IsStore};
ghost use Rattle.lrp_cutting.specs.Differences.{AreOfCell, greatest_reach};
ghost use Rattle.lrp_cutting.specs.Settling.{IsPlaceOf};
ghost use Rattle.lrp_cutting.specs.Thresholds.{most_pieces};
ghost use Rattle.lrp_minus.specs.Filling.{IsUncut};

use lrp_cutting::Cutters;
use lrp_model::Cell;
use lrp_store::{Store, StoreFault};
use lrp_zone::Zone;

/// Adds to a cell of the store what of a zone is in no cutter.
///
/// Without cutters the zone is added as it is. Where the cell is one too many, nothing was added to it.
pub(crate) fn add_left(
    zone: &Zone,
    cutters: &Cutters,
    cell: &Cell,
    cap: u32,
    store: &mut Store,
) -> Result<(), StoreFault>
    requires store { IsStore store.old }
    requires place { IsPlaceOf store.old cell.now zone.now }
    requires cutters { AreOfCell zone.now cutters.now }
    requires reach { greatest_reach (zone.now ∷ cutters.now) + zone.now.period ≤ 2 ^ 62 }
    ensures ok { OnOk result (IsAdded (IsUncut zone.now cutters.now
        (take store.old.shape.texts cell.now.texts)) cap
        (greatest_reach (zone.now ∷ cutters.now) + zone.now.period) store.old store.new) }
    ensures refused { result ≡ Err StoreFault.TooManyCells
        → IsRefused (IsUncut zone.now cutters.now (take store.old.shape.texts cell.now.texts)) cap
        (greatest_reach (zone.now ∷ cutters.now) + zone.now.period) store.old store.new }
    ensures few { OnOk result (GrowsByAtMost (most_pieces zone.now cutters.now) cell.now store.old
        store.new) }
{
    if cutters.len() == 0 {
        return store.add_new(cell, zone, cap);
    }
    let left = cutters.pieces(store.alloc(), zone)?;
    for piece in left.as_slice() {
        store.add_new(cell, piece, cap)?;
    }
    Ok(())
}
