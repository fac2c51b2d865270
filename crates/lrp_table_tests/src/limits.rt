// Zones of integers whose numbers are as great as can be.
ghost use Rattle.std.specs.Prelude.{◌≡◌, ◌+◌, ◌≤◌, ◌^◌, ◌<◌, ◌≤ℤ◌, ℕ, [], ◌∷◌, nat_abs, pos};
ghost use Rattle.lrp_zone.specs.Order.{at};
ghost use Rattle.lrp_zone.specs.Zones.{columns_of, reach_of};
ghost use Rattle.lrp_table_tests.specs.Integers.{AreOfIntegers, IsOfIntegers};

use crate::parts::bound;
use lrp_cutting::settle;
use lrp_model::{LIMIT, List};
use lrp_zone::Zone;
use std::alloc::Global;
use std::process::Abort;

/// The limit, as a size.
const FAR: u64 = 4_611_686_018_427_387_904;

// Stops the test unless a number is at most the limit, and its negative too.
fn check_size(rt: &impl Abort, number: i64)
    ensures { nat_abs number ≤ 2 ^ 62 }
{
    assert!(rt; number.unsigned_abs() <= FAR);
}

/// The integers from one to another.
pub fn between(rt: &impl Abort, from: i64, to: i64) -> Zone
    ensures all { IsOfIntegers (2 ^ 62 + 1) result }
    ensures inner { nat_abs from < 2 ^ 62 → nat_abs to < 2 ^ 62 → IsOfIntegers (2 ^ 62) result }
{
    check_size(rt, from);
    check_size(rt, to);
    let bounds = [bound(1, 0, to), bound(0, 1, -from)];
    Zone::of(1, &[0], &bounds).expect(rt, "integers")
}

// Stops the test unless a zone has these bounds: how great its numbers are at most, and their negatives.
fn check_bounds(rt: &impl Abort, zone: &Zone, most: Option<i64>, negative: Option<i64>) {
    assert!(rt; zone.columns() == 1);
    assert!(rt; zone.bound(1, 0) == most && zone.bound(0, 1) == negative);
}

// Eight times the same number.
fn eight(number: i64) -> [i64; 8]
    requires { number ≤ℤ pos (2 ^ 62) }
    ensures { (i : ℕ) → i < 8 → at result i ≤ℤ pos (2 ^ 62) }
{
    [number; 8]
}

#[test]
fn the_first_and_the_last_number_are_found(rt: HostRuntime) {
    let all = between(&rt, -LIMIT, LIMIT);
    let first = all
        .first_from(-LIMIT, LIMIT, &eight(-LIMIT))
        .expect(&rt, "a number");
    assert!(rt; first[0] == -LIMIT);
    let last = all
        .next_in(-LIMIT, LIMIT, &eight(LIMIT - 1))
        .expect(&rt, "a number");
    assert!(rt; last[0] == LIMIT);
    assert!(rt; all.next_in(-LIMIT, LIMIT, &eight(LIMIT)).is_none());
}

// Whether all integers of one zone are in another one.
#[tactic(auto, using(crate::proofs::LimitLemmas::one_cell))]
fn lies_within(one: &Zone, other: &Zone) -> bool
    requires one { IsOfIntegers (2 ^ 62 + 1) one.now }
    requires other { IsOfIntegers (2 ^ 62 + 1) other.now }
{
    one.within(other)
}

// The integers that two zones have in common.
#[tactic(auto, using(crate::proofs::LimitLemmas::one_cell))]
fn common(one: &Zone, other: &Zone) -> Option<Zone>
    requires one { IsOfIntegers (2 ^ 62 + 1) one.now }
    requires other { IsOfIntegers (2 ^ 62 + 1) other.now }
{
    one.meet(other)
}

#[test]
fn numbers_up_to_zero_lie_within_all(rt: HostRuntime) {
    let all = between(&rt, -LIMIT, LIMIT);
    let low = between(&rt, -LIMIT, 0);
    assert!(rt; lies_within(&low, &all) && !lies_within(&all, &low));
    let zero = common(&low, &between(&rt, 0, LIMIT)).expect(&rt, "zero");
    check_bounds(&rt, &zero, Some(0), Some(0));
    assert!(rt; common(&low, &between(&rt, 1, LIMIT)).is_none());
}

// The same numbers as the last of eight columns.
fn as_eighth(zone: &Zone) -> Zone
    requires { IsOfIntegers (2 ^ 62 + 1) zone.now }
    ensures { columns_of result ≡ 8 }
{
    zone.spread(&[8], &[0; 8])
}

#[test]
fn numbers_at_the_limits_are_spread(rt: HostRuntime) {
    let wide = as_eighth(&between(&rt, -LIMIT, LIMIT));
    assert!(rt; wide.bound(8, 0) == Some(LIMIT) && wide.bound(0, 8) == Some(LIMIT));
    assert!(rt; wide.bound(1, 0).is_none() && wide.bound(0, 7).is_none());
    assert!(rt; wide.contains(&[0, 0, 0, 0, 0, 0, 0, -LIMIT]));
}

// What breaks the upper bound of numbers that are below the limit.
fn above(rt: &impl Abort, zone: &Zone) -> Zone
    requires { IsOfIntegers (2 ^ 62) zone.now }
{
    zone.negated_piece(1, 0).expect(rt, "a bound")
}

#[test]
fn the_limit_is_all_that_is_left(rt: HostRuntime) {
    let rest = above(&rt, &between(&rt, -LIMIT + 1, LIMIT - 1));
    check_bounds(&rt, &rest, None, Some(-LIMIT));
}

// Adds a zone to others.
#[tactic(auto, using(crate::proofs::IntegerLemmas::with_one))]
fn add(rt: &impl Abort, zones: &mut List<Zone>, zone: Zone)
    requires before { AreOfIntegers (2 ^ 62) zones.old }
    requires one { IsOfIntegers (2 ^ 62) zone }
    ensures { AreOfIntegers (2 ^ 62) zones.new }
{
    zones.push(zone).expect(rt, "memory");
}

// The same integers in settled zones.
#[tactic(auto, using(crate::proofs::IntegerLemmas::of_cells, crate::proofs::IntegerLemmas::settle_rooms))]
fn settled(rt: &impl Abort, alloc: Global, zones: &List<Zone>) -> List<Zone>
    requires { AreOfIntegers (2 ^ 62) zones.now }
{
    assert!(rt; zones.len() > 0);
    settle(alloc, zones).expect(rt, "memory")
}

// No zone yet.
#[tactic(auto, using(crate::proofs::IntegerLemmas::none_of))]
fn no_zones(alloc: Global) -> List<Zone>
    ensures { AreOfIntegers (2 ^ 62) result }
{
    List::new(alloc)
}

#[test]
fn numbers_below_the_limit_are_settled(rt: HostRuntime) {
    let alloc = rt.alloc();
    let mut zones = no_zones(alloc);
    add(&rt, &mut zones, between(&rt, LIMIT - 2, LIMIT - 1));
    add(&rt, &mut zones, between(&rt, -LIMIT + 1, -LIMIT + 2));
    add(&rt, &mut zones, between(&rt, LIMIT - 3, LIMIT - 2));
    let settled = settled(&rt, alloc, &zones);
    assert!(rt; settled.len() == 2);
    check_bounds(&rt, settled.at(0), Some(-LIMIT + 2), Some(LIMIT - 1));
    check_bounds(&rt, settled.at(1), Some(LIMIT - 1), Some(-LIMIT + 3));
}
