// Answers at the limits of time: the least one, and a listing.
ghost use Rattle.std.specs.Prelude.{◌≡◌, ◌+◌, ◌∷◌, ◌^◌, []};
ghost use Rattle.lrp_store.specs.Least.{HasRoom};
ghost use Rattle.lrp_table_tests.specs.Integers.{HoldsIntegers, IsOfIntegers};

use crate::limits::between;
use crate::lists::{is_at, three_of};
use crate::parts::{cell, head, list};
use lrp_answers::{Answer, Lister};
use lrp_model::{Domain, LIMIT, List, Shape, Tuple};
use lrp_store::Store;
use lrp_zone::Zone;
use std::alloc::Global;
use std::process::Abort;

// No integers yet.
#[tactic(auto, using(crate::proofs::EndLemmas::none_held))]
fn no_integers(alloc: Global) -> Store
    ensures { HoldsIntegers result }
{
    Store::new(alloc, Shape { times: 1, texts: 0 }, 1)
}

// Adds integers to those of a store.
fn add(rt: &impl Abort, store: &mut Store, zone: &Zone)
    requires zone { IsOfIntegers (2 ^ 62 + 1) zone.now }
    requires store { HoldsIntegers store.old }
    ensures { HoldsIntegers store.new }
{
    match store.add_new(&cell(0, 0), zone, 1) {
        Ok(()) => {}
        Err(_) => panic!(rt; "memory"),
    }
}

// Two instants as an answer.
fn instants(rt: &impl Abort, alloc: Global, first: i64, second: i64) -> Answer
    ensures times { result.store.shape.times ≡ 1 }
    ensures texts { result.store.shape.texts ≡ 0 }
    ensures room { HasRoom result.store }
{
    let head = head(rt, alloc);
    let domain = Domain::new(List::new(alloc)).expect(rt, "memory");
    let mut store = no_integers(alloc);
    add(rt, &mut store, &between(rt, first, first));
    add(rt, &mut store, &between(rt, second, second));
    store.shape();
    Answer {
        head,
        period: 1,
        domain,
        store,
    }
}

#[test]
fn the_least_of_the_limits_is_the_one_above_zero(rt: HostRuntime) {
    let alloc = rt.alloc();
    assert!(rt; is_at(instants(&rt, alloc, -LIMIT, LIMIT).least(), LIMIT));
    assert!(rt; is_at(instants(&rt, alloc, -LIMIT, -LIMIT).least(), -LIMIT));
    assert!(rt; is_at(instants(&rt, alloc, LIMIT, 1 - LIMIT).least(), 1 - LIMIT));
}

#[test]
fn a_listing_has_both_limits(rt: HostRuntime) {
    let alloc = rt.alloc();
    let answer = instants(&rt, alloc, -LIMIT, LIMIT);
    let mut lister = Lister::new(alloc, &answer, -LIMIT, LIMIT, None).expect(&rt, "memory");
    assert!(rt; lister.more());
    let (first, second, third) = three_of(&mut lister);
    assert!(rt; is_at(first, -LIMIT) && is_at(second, LIMIT) && third.is_none());
    assert!(rt; !lister.more());
}

// The tuple of this time alone.
fn tuple_at(rt: &impl Abort, alloc: Global, time: i64) -> Tuple
    ensures { result ≡ record { times = time ∷ []; texts = [] } }
{
    Tuple {
        times: list(rt, alloc, time),
        texts: List::new(alloc),
    }
}

#[test]
fn a_listing_goes_on_after_a_limit(rt: HostRuntime) {
    let alloc = rt.alloc();
    let answer = instants(&rt, alloc, -LIMIT, LIMIT);
    let first = tuple_at(&rt, alloc, -LIMIT);
    let mut lister = Lister::new(alloc, &answer, -LIMIT, LIMIT, Some(&first)).expect(&rt, "memory");
    let (second, third, _) = three_of(&mut lister);
    assert!(rt; is_at(second, LIMIT) && third.is_none());
    let last = tuple_at(&rt, alloc, LIMIT);
    let lister = Lister::new(alloc, &answer, -LIMIT, LIMIT, Some(&last)).expect(&rt, "memory");
    assert!(rt; !lister.more());
}
