// What instants leave of all integers, and how that is settled.
ghost use Rattle.std.specs.Prelude.{◌+◌, ◌^◌};
ghost use Rattle.lrp_table_tests.specs.Integers.{AreOfIntegers, IsOfIntegers};

use crate::parts::{bound, zone_of};
use lrp_cutting::{pieces, settle};
use lrp_model::{Bound, List};
use lrp_zone::Zone;
use std::alloc::Global;
use std::process::Abort;

// The integers that meet these bounds.
#[tactic(auto, using(crate::proofs::IntegerLemmas::found))]
fn integers(rt: &impl Abort, bounds: &[Bound]) -> Zone
    ensures { IsOfIntegers (2 ^ 55) result }
{
    zone_of(rt, 1, &[0], bounds).expect(rt, "integers")
}

// Adds an instant, from 0 on.
#[tactic(auto, using(crate::proofs::IntegerLemmas::with_one))]
fn add_instant(rt: &impl Abort, instants: &mut List<Zone>, at: i64)
    requires { AreOfIntegers (2 ^ 55) instants.old }
    ensures { AreOfIntegers (2 ^ 55) instants.new }
{
    assert!(rt; 0 <= at);
    let instant = integers(rt, &[bound(1, 0, at), bound(0, 1, -at)]);
    instants.push(instant).expect(rt, "memory");
}

// An instant, and others each two after the one before it.
#[tactic(auto, using(crate::proofs::IntegerLemmas::none_of))]
fn instants(rt: &impl Abort, alloc: Global, first: u16, count: u16) -> List<Zone>
    ensures { AreOfIntegers (2 ^ 55) result }
{
    let mut instants = List::new(alloc);
    for turn in 0..count {
        add_instant(rt, &mut instants, i64::from(first) + 2 * i64::from(turn));
    }
    instants
}

// What instants leave of all integers.
fn left_by(rt: &impl Abort, alloc: Global, instants: &List<Zone>) -> List<Zone>
    requires { AreOfIntegers (2 ^ 55) instants.now }
    ensures { AreOfIntegers (2 ^ 55 + 2) result }
{
    let all = integers(rt, &[]);
    pieces(alloc, &all, instants).expect(rt, "memory")
}

// The same integers in settled zones.
#[tactic(auto, using(crate::proofs::IntegerLemmas::of_cells, crate::proofs::IntegerLemmas::settle_rooms))]
fn settled(rt: &impl Abort, alloc: Global, zones: &List<Zone>) -> List<Zone>
    requires { AreOfIntegers (2 ^ 55 + 2) zones.now }
{
    assert!(rt; zones.len() > 0);
    settle(alloc, zones).expect(rt, "memory")
}

// Stops the test unless a zone has these bounds: how great its numbers are at most, and their negatives.
fn check_bounds(rt: &impl Abort, zone: &Zone, most: Option<i64>, negative: Option<i64>) {
    assert!(rt; zone.columns() == 1);
    assert!(rt; zone.bound(1, 0) == most && zone.bound(0, 1) == negative);
}

#[test]
fn an_instant_leaves_what_is_before_and_after_it(rt: HostRuntime) {
    let alloc = rt.alloc();
    let left = left_by(&rt, alloc, &instants(&rt, alloc, 480, 1));
    assert!(rt; left.len() == 2);
    check_bounds(&rt, left.at(0), Some(479), None);
    check_bounds(&rt, left.at(1), None, Some(-481));
}

#[test]
fn twenty_instants_leave_one_zone_more(rt: HostRuntime) {
    let alloc = rt.alloc();
    let left = left_by(&rt, alloc, &instants(&rt, alloc, 0, 20));
    assert!(rt; left.len() <= 41);
    assert!(rt; settled(&rt, alloc, &left).len() == 21);
}
