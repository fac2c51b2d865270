// What two zones of one cell have in common.
ghost use Rattle.std.specs.Prelude.{◌↔◌, IfNone, IfSome, IsTrue};
ghost use Rattle.lrp_zone.specs.Pairs.{HaveNoCommon, IsOfCell};
ghost use Rattle.lrp_cutting.specs.Cutting.{HaveCommon, IsCommonZone};

use crate::windows::are_beside;
use lrp_zone::Zone;

/// Whether two zones of one cell have a tuple in common.
pub(crate) fn have_common(zone: &Zone, other: &Zone) -> bool
    requires { IsOfCell zone.now other.now }
    ensures { IsTrue result ↔ HaveCommon zone.now other.now }
{
    if are_beside(zone, other) {
        return false;
    }
    common(zone, other).is_some()
}

/// The zone of the tuples that two zones of one cell have in common, or `None` where there are none.
pub(crate) fn common(zone: &Zone, other: &Zone) -> Option<Zone>
    requires { IsOfCell zone.now other.now }
    ensures none { IfNone result (HaveNoCommon zone.now other.now) }
    ensures some { IfSome result (λ w. IsCommonZone zone.now other.now w) }
{
    let common = zone.meet(other)?;
    prove_eq!(common.columns(), zone.columns());
    Some(common)
}
