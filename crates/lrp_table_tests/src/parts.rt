// What the tests are made of: zones whose numbers are small, cells, and stores. A test stops where memory is refused,
// since each way out of a function is proved.

ghost use Rattle.std.specs.Prelude.{◌≡◌, ◌+◌, ◌≤◌, ◌^◌, ℕ, [], ◌∷◌, length, take, pos, nat_abs, ◌≤ℤ◌, IfSome};
ghost use Rattle.lrp_theory.specs.Entries.{node};
ghost use Rattle.lrp_zone.specs.Zones.{IsResidue, reach_of};
ghost use Rattle.lrp_model.specs.Sorts.{time_count};
ghost use Rattle.lrp_store.specs.Stores.{IsPadded, HasReach};
ghost use Rattle.lrp_table_tests.specs.Residues.{HoldsResidues};

use lrp_answers::Answer;
use lrp_model::{Bound, Cell, Column, Domain, Head, List, Name, Shape, Sort};
use lrp_store::Store;
use lrp_systems::{Part, add_system};
use lrp_zone::Zone;
use std::alloc::Global;
use std::process::Abort;

/// A number that leaves room for a period of the same size, many times over.
const SMALL: u64 = 9_007_199_254_740_992;

/// Column `left` minus column `right` is at most `most`.
pub const fn bound(left: u8, right: u8, most: i64) -> Bound
    ensures { result ≡ record { left = left; right = right; most = most } }
{
    Bound { left, right, most }
}

// Stops the test unless these are residues modulo the period, which is small.
fn check_residues(rt: &impl Abort, period: i64, residues: &[i64])
    ensures high { nat_abs period ≤ 2 ^ 53 }
    ensures low { pos 1 ≤ℤ period }
    ensures count { length residues.now ≤ 8 }
    ensures residues { (p : ℕ) → p ≤ length residues.now
        → IsResidue (nat_abs period) (node residues.now p) }
{
    assert!(rt; 1 <= period && period.unsigned_abs() <= SMALL && residues.len() <= 8);
    for residue in residues {
        assert!(rt; 0 <= *residue && *residue < period);
    }
}

/// The zone of these parts, whose period and bounds are small.
pub fn zone_of(rt: &impl Abort, period: i64, residues: &[i64], bounds: &[Bound]) -> Option<Zone>
    ensures reach { IfSome result (λ z. reach_of z + z.period ≤ 2 ^ 55) }
    ensures period { IfSome result (λ z. pos z.period ≡ period) }
    ensures residues { IfSome result (λ z. z.residues ≡ residues.now) }
{
    check_residues(rt, period, residues);
    for bound in bounds {
        assert!(rt; usize::from(bound.left) <= residues.len());
        assert!(rt; usize::from(bound.right) <= residues.len());
        assert!(rt; bound.most.unsigned_abs() <= SMALL);
    }
    Zone::of(period, residues, bounds)
}

// Adds the multiples of 6 to a store of period 6.
fn add_sixths(rt: &impl Abort, store: &mut Store)
    requires times { store.old.shape.times ≡ 1 }
    requires texts { store.old.shape.texts ≡ 0 }
    requires period { store.old.period ≡ 6 }
    requires reach { HasReach store.old (2 ^ 55) }
    ensures shape { store.new.shape ≡ store.old.shape }
    ensures period { store.new.period ≡ store.old.period }
    ensures reach { HasReach store.new (2 ^ 55) }
{
    let Some(zone) = zone_of(rt, 6, &[0], &[]) else {
        panic!(rt; "no zone");
    };
    assert!(rt; zone.columns() == 1);
    assert!(rt; store.shape().times == 1);
    let parts = [Part::in_order(&zone)];
    match add_system(&parts, &cell(0, 0).texts, store, 1) {
        Ok(()) => {}
        Err(_) => panic!(rt; "memory"),
    }
}

/// The store of the multiples of 6, which are added twice.
pub fn sixths(rt: &impl Abort, alloc: Global) -> Store
    ensures times { result.shape.times ≡ 1 }
    ensures texts { result.shape.texts ≡ 0 }
    ensures period { result.period ≡ 6 }
    ensures reach { HasReach result (2 ^ 55) }
{
    let mut store = Store::new(alloc, Shape { times: 1, texts: 0 }, 6);
    add_sixths(rt, &mut store);
    add_sixths(rt, &mut store);
    store
}

/// No residue yet.
#[tactic(auto, using(crate::proofs::ResidueLemmas::none_held))]
pub fn no_residues(alloc: Global, period: i64) -> Store
    requires low { pos 1 ≤ℤ period }
    requires high { period ≤ℤ pos (2 ^ 62) }
    ensures { HoldsResidues (nat_abs period) result }
{
    Store::new(alloc, Shape { times: 1, texts: 0 }, period)
}

/// Adds all times of a residue.
pub fn add_residue(rt: &impl Abort, store: &mut Store, residue: i64)
    requires store { HoldsResidues store.old.period store.old }
    requires residue { IsResidue store.old.period residue }
    ensures { HoldsResidues store.old.period store.new }
{
    match store.add_whole(&cell(0, residue), 2) {
        Ok(()) => {}
        Err(_) => panic!(rt; "memory"),
    }
}

/// A name.
pub fn name(rt: &impl Abort, alloc: Global) -> Name {
    Name::new(alloc, "t").expect(rt, "memory")
}

/// A list of one value.
pub fn list<T: Drop>(rt: &impl Abort, alloc: Global, x: T) -> List<T>
    ensures { result ≡ x ∷ [] }
{
    let mut xs = List::new(alloc);
    xs.push(x).expect(rt, "memory");
    xs
}

/// A head of one time.
pub fn head(rt: &impl Abort, alloc: Global) -> Head
    ensures times { time_count result.columns ≡ 1 }
    ensures all { length result.columns ≡ 1 }
{
    let column = Column {
        name: name(rt, alloc),
        sort: Sort::Time,
    };
    let columns = list(rt, alloc, column);
    Head { columns }
}

/// The multiples of 6 as an answer.
pub fn answer(rt: &impl Abort, alloc: Global) -> Answer {
    let head = head(rt, alloc);
    let domain = Domain::new(List::new(alloc)).expect(rt, "memory");
    let store = sixths(rt, alloc);
    Answer {
        head,
        period: 6,
        domain,
        store,
    }
}

/// The cell of one text and one time.
pub fn cell(text: u32, residue: i64) -> Cell
    ensures texts { IsPadded 0 1 result.texts }
    ensures no_text { text ≡ 0 → IsPadded 0 0 result.texts }
    ensures times { IsPadded (pos 0) 1 result.residues }
    ensures residue { take 1 result.residues ≡ residue ∷ [] }
{
    Cell {
        texts: [text, 0, 0, 0, 0, 0, 0, 0],
        residues: [residue, 0, 0, 0, 0, 0, 0, 0],
    }
}
