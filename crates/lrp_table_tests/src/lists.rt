// A lister on two equal zones of one cell.
ghost use Rattle.std.specs.Prelude.{◌≡◌, ◌<◌};

use crate::parts::answer;
use lrp_answers::{Lister, Steps};
use lrp_model::{LIMIT, Spot};
use std::marker::Brand;
use std::sync::ledger::{Blank, Ledger};

// The next three answers of a lister.
fn next_three<L: Ledger>(
    lister: &mut Lister<'_>,
    blank: Blank,
) -> (Option<Spot>, Option<Spot>, Option<Spot>)
    requires name { blank.name ≡ L.name }
    requires parts { blank.parts ≡ L.parts }
    requires some { 0 < blank.parts }
{
    let mut steps = Steps::<L>::new(blank);
    let first = lister.next(&mut steps);
    let second = lister.next(&mut steps);
    let third = lister.next(&mut steps);
    (first, second, third)
}

/// The next three answers, with steps that nobody counts.
pub fn three_of(lister: &mut Lister<'_>) -> (Option<Spot>, Option<Spot>, Option<Spot>) {
    next_three::<Brand>(lister, Blank::new(1))
}

/// Whether this is the time.
pub fn is_at(spot: Option<Spot>, time: i64) -> bool {
    match spot {
        Some(spot) => spot.times[0] == time,
        None => false,
    }
}

#[test]
fn equal_zones_give_each_time_once(rt: HostRuntime) {
    let alloc = rt.alloc();
    let answer = answer(&rt, alloc);
    let mut lister = Lister::new(alloc, &answer, 0, 6, None).expect(&rt, "memory");
    let (first, second, third) = three_of(&mut lister);
    assert!(rt; is_at(first, 0) && is_at(second, 6) && third.is_none());
}

#[test]
fn a_window_as_wide_as_can_be_begins_at_once(rt: HostRuntime) {
    // The first multiples of 6 from -2^62 on.
    let alloc = rt.alloc();
    let answer = answer(&rt, alloc);
    let mut lister = Lister::new(alloc, &answer, -LIMIT, LIMIT, None).expect(&rt, "memory");
    let (first, second, _) = three_of(&mut lister);
    assert!(rt; is_at(first, -4_611_686_018_427_387_900));
    assert!(rt; is_at(second, -4_611_686_018_427_387_894));
}
