// Zones without bounds.
ghost use Rattle.std.specs.Prelude.{◌≡◌, ◌≤◌, ℕ, ℤ, List, None, true};
ghost use Rattle.lrp_theory.specs.Entries.{entry};
ghost use Rattle.lrp_zone.specs.Zones.{IsInCell, IsMember, columns_of};

use lrp_zone::Zone;

/// Whether a zone has no bound, so that it has all tuples of its cell.
pub fn is_free(zone: &Zone) -> bool
    ensures { result ≡ true → (xs : List ℤ) → IsInCell zone.now xs → IsMember zone.now xs }
{
    let columns = zone.columns();
    for column in 0..columns + 1 {
        if !is_unbounded(zone, column) {
            return false;
        }
    }
    true
}

// Whether a column, or the number zero, has no bound over another one.
fn is_unbounded(zone: &Zone, column: usize) -> bool
    requires { column ≤ columns_of zone.now }
    ensures { result ≡ true → (other : ℕ) → other ≤ columns_of zone.now
        → entry zone.now.bounds column other ≡ None }
{
    let columns = zone.columns();
    for other in 0..columns + 1 {
        if zone.bound(column, other).is_some() {
            return false;
        }
    }
    true
}
