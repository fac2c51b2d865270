// Points and bounds at the limits, and a point that is split.

ghost use Rattle.std.specs.Prelude.{◌≡◌};

use lrp_model::LIMIT;
use lrp_point::{PeriodLimit, Point, Splits, common, tighten};

#[test]
fn periods_at_the_limit(rt: HostRuntime) {
    assert!(rt; common(LIMIT, LIMIT) == Ok(LIMIT));
    assert!(rt; common(LIMIT, 3) == Err(PeriodLimit));
}

#[test]
fn points_at_the_limit(rt: HostRuntime) {
    let far = Point::new(-1, LIMIT).expect(&rt, "a period");
    let third = Point::new(1, 3).expect(&rt, "a period");
    assert!(rt; far.meet(&far) == Ok(Some(far)));
    assert!(rt; far.meet(&third) == Err(PeriodLimit));
    assert!(rt; Point::new(0, LIMIT + 1).is_err());
}

#[test]
fn bounds_at_the_limit_are_tightened(rt: HostRuntime) {
    const FAR: i128 = 1_208_925_819_614_629_174_706_176;
    assert!(rt; tighten(FAR, 1, 0, 60) == 1_208_925_819_614_629_174_706_161);
    assert!(rt; tighten(-FAR, 0, LIMIT - 1, LIMIT) == -1_208_930_431_300_647_602_094_079);
}

// The points of period 6 that a point of period 2 has.
fn sixths_of(point: &Point) -> Splits
    requires { point.now.period ≡ 2 }
{
    point.splits(6)
}

#[test]
fn odd_numbers_are_three_points_of_period_six(rt: HostRuntime) {
    let odd = Point::new(-1, 2).expect(&rt, "a period");
    let mut points = sixths_of(&odd);
    assert!(rt; points.next() == Some(Point::new(1, 6).expect(&rt, "a period")));
    assert!(rt; points.next() == Some(Point::new(3, 6).expect(&rt, "a period")));
    assert!(rt; points.next() == Some(Point::new(5, 6).expect(&rt, "a period")));
    assert!(rt; points.next().is_none());
}
