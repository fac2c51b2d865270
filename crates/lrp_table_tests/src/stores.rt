// Stores: caps, slots, and a larger period.
ghost use Rattle.std.specs.Prelude.{◌≡◌, ◌^◌};
ghost use Rattle.lrp_store.specs.Stores.{HasReach};
ghost use Rattle.lrp_table_tests.specs.Residues.{HoldsResidues};

use crate::parts::{add_residue, bound, cell, no_residues, sixths, zone_of};
use lrp_model::{LIMIT, Shape};
use lrp_store::{Store, StoreFault};
use lrp_systems::Align;
use lrp_zone::Zone;
use std::alloc::Global;
use std::process::Abort;

// A store of a text and a time of period 10.
fn tens(alloc: Global) -> Store {
    Store::new(alloc, Shape { times: 1, texts: 1 }, 10)
}

// Adds a zone of one column to the cell of its residue and this text.
fn put(
    rt: &impl Abort,
    store: &mut Store,
    text: u32,
    zone: &Zone,
    cap: u32,
) -> Result<(), StoreFault> {
    let shape = store.shape();
    assert!(rt; shape.times == 1 && shape.texts == 1);
    assert!(rt; zone.columns() == 1 && zone.period() == store.period());
    let cell = cell(text, zone.residue(1));
    store.add(&cell, zone, cap)
}

// Adds the times that are 3 modulo 10 and at most this number, with a text.
fn add(
    rt: &impl Abort,
    store: &mut Store,
    text: u32,
    most: i64,
    cap: u32,
) -> Result<(), StoreFault> {
    let zone = zone_of(rt, 10, &[3], &[bound(1, 0, most)]).expect(rt, "a zone");
    put(rt, store, text, &zone, cap)
}

#[test]
fn a_second_cell_is_one_too_many(rt: HostRuntime) {
    let mut store = tens(rt.alloc());
    assert!(rt; add(&rt, &mut store, 0, 3, 1).is_ok());
    assert!(rt; add(&rt, &mut store, 1, 3, 1) == Err(StoreFault::TooManyCells));
    assert!(rt; store.len() == 1 && store.zones() == 1);
}

// Stops the test unless the zone at a place of a text's list ends there.
fn check_end(rt: &impl Abort, store: &Store, text: u32, place: usize, most: i64) {
    let zone = store.zone(&cell(text, 3), place).expect(rt, "a zone");
    assert!(rt; zone.columns() == 1);
    assert!(rt; zone.bound(1, 0) == Some(most));
}

// Adds zones with these ends to the cell of a text.
fn add_each(rt: &impl Abort, store: &mut Store, text: u32, ends: &[i64]) {
    for end in ends {
        assert!(rt; add(rt, store, text, *end, 2).is_ok());
    }
}

#[test]
fn a_slot_serves_every_cell(rt: HostRuntime) {
    let mut store = tens(rt.alloc());
    add_each(&rt, &mut store, 0, &[3]);
    add_each(&rt, &mut store, 1, &[3]);
    assert!(rt; store.reserve(3).is_ok());
    add_each(&rt, &mut store, 0, &[13, 23, 33]);
    assert!(rt; store.remove(&cell(0, 3), 2).is_some());
    let spare = store.spare();
    add_each(&rt, &mut store, 1, &[43]);
    assert!(rt; spare.checked_sub(1) == Some(store.spare()));
    assert!(rt; store.count(&cell(0, 3)) == 3 && store.count(&cell(1, 3)) == 2);
    check_end(&rt, &store, 0, 1, 13);
    check_end(&rt, &store, 0, 2, 33);
    check_end(&rt, &store, 1, 1, 43);
}

#[test]
fn a_zone_within_another_one_is_dropped(rt: HostRuntime) {
    let mut store = tens(rt.alloc());
    add_each(&rt, &mut store, 0, &[13, 33, 23, 33]);
    add_each(&rt, &mut store, 1, &[13]);
    store.tidy(&cell(0, 3));
    assert!(rt; store.count(&cell(0, 3)) == 1 && store.count(&cell(1, 3)) == 1);
    check_end(&rt, &store, 0, 0, 33);
}

// The multiples of 6 as cells of period 18.
fn aligned(sixths: &Store, cap: u32) -> Result<Store, StoreFault>
    requires period { sixths.now.period ≡ 6 }
    requires reach { HasReach sixths.now (2 ^ 55) }
{
    sixths.align(18, cap)
}

#[test]
fn a_store_is_aligned_residue_by_residue(rt: HostRuntime) {
    // The multiples of 6 are 0, 6 and 12 modulo 18.
    let store = sixths(&rt, rt.alloc());
    let made = aligned(&store, 3).expect(&rt, "three cells");
    assert!(rt; made.len() == 3);
    assert!(rt; aligned(&store, 2).err() == Some(StoreFault::TooManyCells));
}

// The multiples of half the limit.
fn halves(rt: &impl Abort, alloc: Global) -> Store
    ensures { HoldsResidues (2 ^ 61) result }
{
    let mut store = no_residues(alloc, LIMIT / 2);
    add_residue(rt, &mut store, 0);
    store
}

// The same in cells of the greatest period.
fn widened(halves: &Store, cap: u32) -> Result<Store, StoreFault>
    requires { HoldsResidues (2 ^ 61) halves.now }
{
    halves.align(LIMIT, cap)
}

#[test]
fn a_store_is_aligned_to_the_limit(rt: HostRuntime) {
    let store = halves(&rt, rt.alloc());
    let made = widened(&store, 2).expect(&rt, "two cells");
    assert!(rt; made.len() == 2);
    assert!(rt; made.is_whole(&cell(0, 0)) && made.is_whole(&cell(0, LIMIT / 2)));
    assert!(rt; widened(&store, 1).err() == Some(StoreFault::TooManyCells));
}
