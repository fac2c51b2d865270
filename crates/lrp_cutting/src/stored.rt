// The stored bounds of a zone, one after another.
ghost use Rattle.std.specs.Prelude.{◌+◌, ◌≤◌, IfOk, OnOk};
ghost use Rattle.lrp_zone.specs.Zones.{IsZone, columns_of};
ghost use Rattle.lrp_cutting.specs.Leaving.{AreBoundsOf, AreFromRow};

use lrp_model::{Bound, Memory};
use lrp_zone::Zone;
use std::alloc::Global;

/// The stored bounds of a zone.
pub(crate) fn stored(alloc: Global, zone: &Zone) -> Result<Vec<Bound>, Memory>
    ensures bounds { IfOk result (λ made. AreBoundsOf zone.now made.items) }
    ensures valid { IfOk result (λ _. IsZone zone.now) }
{
    let mut made = Vec::new(alloc);
    let nodes = zone.columns() as u8 + 1;
    for left in 0..nodes {
        push_row(zone, left, nodes, &mut made)?;
    }
    Ok(made)
}

// Appends those on one column minus another.
fn push_row(zone: &Zone, left: u8, nodes: u8, made: &mut Vec<Bound>) -> Result<(), Memory>
    requires zone { IsZone zone.now }
    requires row { left ≤ columns_of zone.now }
    requires nodes { nodes ≤ columns_of zone.now + 1 }
    ensures { OnOk result (AreFromRow zone.now left nodes made.old.items made.new.items) }
{
    for right in 0..nodes {
        if let Some(most) = zone.bound(usize::from(left), usize::from(right)) {
            made.push(Bound { left, right, most })?;
        }
    }
    Ok(())
}
