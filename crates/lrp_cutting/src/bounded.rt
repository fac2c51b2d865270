// The tuples of a cell that meet bounds.
ghost use Rattle.std.specs.Prelude.{◌≡◌, IfSome, IfNone, ℤ, List, length, take};
ghost use Rattle.lrp_zone.specs.Zones.{columns_of};
ghost use Rattle.lrp_cutting.specs.Bounded.{AllCanBeStored, IsBounded, MeetsAll};

use lrp_model::Bound;
use lrp_zone::Zone;

/// The tuples of the zone's cell that meet the bounds, each of which is tight, or `None` where there are none.
pub(crate) fn bounded(cell: &Zone, bounds: &[Bound]) -> Option<Zone>
    requires { AllCanBeStored cell.now bounds.now }
    ensures none { IfNone result ((xs : List ℤ) → MeetsAll cell.now bounds.now xs → ⊥) }
    ensures some { IfSome result (λ w. IsBounded cell.now bounds.now w) }
{
    let columns = cell.columns();
    let residues = residues_of(cell);
    let zone = Zone::of(cell.period(), &residues[..columns], bounds)?;
    prove_eq!(zone.columns(), columns);
    Some(zone)
}

// The residues of a zone's columns, and zeros after them.
fn residues_of(zone: &Zone) -> [i64; 8]
    ensures size { length result ≡ 8 }
    ensures value { take (columns_of zone.now) result ≡ zone.now.residues }
{
    let mut residues = [0; 8];
    for i in 0..zone.columns() {
        residues[i] = zone.residue(i + 1);
    }
    residues
}
