// The part of a zone that meets one more bound.
ghost use Rattle.std.specs.Prelude.{◌≡◌, ◌≤◌, ◌^◌, IfSome, IfNone, nat_abs};
ghost use Rattle.lrp_zone.specs.Zones.{IsZone};
ghost use Rattle.lrp_cutting.specs.Halves.{CanBeStored, HasNoHalf, IsHalf, other_side};

use crate::bounded::bounded;
use crate::standing::common;
use lrp_model::Bound;
use lrp_zone::Zone;

/// The tuples of the zone that meet the bound, or `None` where none does.
pub(crate) fn half(zone: &Zone, bound: Bound) -> Option<Zone>
    requires { CanBeStored zone.now bound }
    ensures none { IfNone result (HasNoHalf zone.now bound) }
    ensures some { IfSome result (λ w. IsHalf zone.now bound w) }
{
    let side = bounded(zone, &[bound])?;
    let half = common(zone, &side)?;
    Some(half)
}

/// The bound that the tuples of the zone's cell meet exactly where they break this one, which is tight.
pub(crate) fn turned(zone: &Zone, bound: Bound) -> Bound
    requires zone { IsZone zone.now }
    requires small { nat_abs bound.most ≤ 2 ^ 62 }
    ensures { result ≡ other_side zone.now.period bound }
{
    Bound {
        left: bound.right,
        right: bound.left,
        most: -bound.most - zone.period(),
    }
}
