// The calls of a zone on worked values, and at the limit.

ghost use Rattle.std.specs.Prelude.{◌<◌, ◌≤ℤ◌, ◌^◌, ℕ, pos};
ghost use Rattle.lrp_zone.specs.Order.{at};

use crate::parts::{bound, zone_of};
use lrp_model::{Bound, LIMIT};

/// The second time is 1 or 2 after the first.
const NEXT: [Bound; 2] = [
    Bound {
        left: 1,
        right: 2,
        most: -1,
    },
    Bound {
        left: 2,
        right: 1,
        most: 2,
    },
];

#[test]
fn drops_a_column(rt: HostRuntime) {
    let pairs = zone_of(&rt, 4, &[0, 1], &NEXT).expect(&rt, "1 apart");
    assert!(rt; pairs.columns() == 2);
    let rest = pairs.drop_column(1);
    assert!(rt; rest.columns() == 1 && rest.period() == 4);
    assert!(rt; rest.residue(1) == 1);
    assert!(rt; rest.bound(0, 1).is_none() && rest.bound(1, 0).is_none());
}

#[test]
fn is_empty(rt: HostRuntime) {
    assert!(rt; zone_of(&rt, 4, &[0, 3], &NEXT).is_none());
}

#[test]
fn negates_a_bound(rt: HostRuntime) {
    let late = zone_of(&rt, 60, &[5], &[bound(0, 1, -360)]).expect(&rt, "from 365 on");
    assert!(rt; late.columns() == 1);
    let closed = late.closed();
    assert!(rt; closed.columns() == 1);
    assert!(rt; closed.get(0, 1) == Some(-365));
    let early = late.negated_piece(0, 1).expect(&rt, "up to 305");
    let closed = early.closed();
    assert!(rt; closed.columns() == 1);
    assert!(rt; closed.get(1, 0) == Some(305));
}

/// The greatest number in each place.
fn greatest() -> [i64; 8]
    ensures { (i : ℕ) → i < 8 → at result i ≤ℤ pos (2 ^ 62) }
{
    [LIMIT; 8]
}

#[test]
fn nothing_follows_the_greatest(rt: HostRuntime) {
    let all = zone_of(&rt, 1, &[0], &[]).expect(&rt, "all integers");
    assert!(rt; all.next_in(-LIMIT, LIMIT, &greatest()).is_none());
}
