//! The points of one period that have together the members of a point.

ghost use Rattle.std.specs.Iterator.{YieldsFirst, item_count};

use super::Point;
use std::marker::Model;

/// The points that are left, each of the new period. It ends, and gives nothing after its end.
#[derive(Drop)]
pub struct Splits {
    pub(super) next: u64,
    pub(super) step: u64,
    pub(super) period: u64,
    pub(super) left: u64,
}

impl Model for Splits {
    ghost use Rattle.std.specs.Prelude.{List};
    ghost use Rattle.lrp_point.specs.Points.{PointView};
    ghost use Rattle.lrp_point.specs.Splits.{split_points, StaysBelow};

    ghost Value = { List PointView };

    ghost view = { λ s. split_points s.left s.next s.step s.period };

    ghost invariant = { λ s. StaysBelow s.left s.next s.step s.period };
}

impl Iterator for Splits {
    type Item = Point;

    ghost next_gives = { YieldsFirst (λ s. s) };

    ghost remaining = { item_count (λ s. s) };

    fn next(&mut self) -> Option<Point> {
        if self.left == 0 {
            return None;
        }
        let point = Point {
            offset: self.next,
            period: self.period,
        };
        self.left -= 1;
        self.next += self.step;
        Some(point)
    }
}
