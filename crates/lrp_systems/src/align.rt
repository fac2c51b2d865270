// Stores over a larger period.
ghost use Rattle.std.specs.Prelude.{◌≡◌, ◌+◌, ◌-◌, ◌≤◌, ◌^◌, ◌≤ℤ◌, pos, nat_abs, OnOk, IfOk, Err};
ghost use Rattle.lrp_theory.specs.Divides.{Divides};
ghost use Rattle.lrp_zone.specs.Zones.{reach_of};
ghost use Rattle.lrp_store.specs.Growing.{IsAdded, IsRefused, InhabitsMany};
ghost use Rattle.lrp_store.specs.Stores.{InStore, HasReach};
ghost use Rattle.lrp_tables.specs.Pieces.{InPiece};
ghost use Rattle.lrp_systems.specs.Aligned.{CanBeBrought, IsAligned};

use crate::part::Part;
use crate::system::add_system;
use lrp_store::{Store, StoreFault};
use lrp_tables::{Piece, Pieces};

/// What can be brought to a larger period: a store.
pub trait Align {
    ghost use Rattle.lrp_store.specs.Stores.{StoreView};

    /// The store that it is.
    ghost store: { Self → StoreView };

    /// The same tuples in cells of a multiple of the period.
    ///
    /// A column whose difference to an earlier one is bounded takes only the residues within the bounds.
    fn align(&self, period: i64, cap: u32) -> Result<Store, StoreFault>
        requires low { pos 1 ≤ℤ period }
        requires high { period ≤ℤ pos (2 ^ 62) }
        requires multiple { Divides (pos (store self.now).period) period }
        requires reach { HasReach (store self.now) (2 ^ 62 - nat_abs period) }
        ensures ok { IfOk result (IsAligned (store self.now) (nat_abs period)) }

        // It is refused exactly where the tuples inhabit more than cap cells.
        ensures too_many { result ≡ Err StoreFault.TooManyCells
            → InhabitsMany (store self.now).shape (nat_abs period) (InStore (store self.now)) cap }
        ensures few { OnOk result (InhabitsMany (store self.now).shape (nat_abs period)
            (InStore (store self.now)) cap → ⊥) };
}

impl Align for Store {
    ghost store = { λ s. s };

    fn align(&self, period: i64, cap: u32) -> Result<Store, StoreFault> {
        let shape = self.shape();
        let mut out = Store::new(self.alloc(), shape, period);
        for piece in Pieces::of(self) {
            match add_piece(&piece, &mut out, cap) {
                Ok(()) => {}
                Err(fault) => return Err(fault),
            }
        }
        Ok(out)
    }
}

// Adds the tuples of one zone, as a system of one part.
fn add_piece(piece: &Piece, out: &mut Store, cap: u32) -> Result<(), StoreFault>
    requires { CanBeBrought piece.now out.old }
    ensures ok { OnOk result (IsAdded (InPiece out.old.shape.texts piece.now) cap
        (reach_of piece.now.zone + (out.old.period - 1)) out.old out.new) }
    ensures too_many { result ≡ Err StoreFault.TooManyCells
        → IsRefused (InPiece out.old.shape.texts piece.now) cap
        (reach_of piece.now.zone + (out.old.period - 1)) out.old out.new }
{
    let parts = [Part::in_order(&piece.zone)];
    add_system(&parts, &piece.cell.texts, out, cap)
}
