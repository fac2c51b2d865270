// The numbers by which edits are refused: the kept period, the greatest bounds and the kept reach.
ghost use Rattle.std.specs.Prelude.{◌≡◌, ◌+◌, ◌*◌, ◌∷◌, max, map, flat_map, slice_index_or};
ghost use Rattle.std.specs.List.{list_any};
ghost use Rattle.lrp_model.specs.Periods.{test_periods, row_periods};
ghost use Rattle.lrp_model.specs.Reach.{greatest};
ghost use Rattle.lrp_model.specs.Sorts.{time_count};
ghost use Rattle.lrp_limits.specs.Capped.{capped as capped_at};
ghost use Rattle.lrp_limits.specs.Facts.{KeepsMultiples};
ghost use Rattle.lrp_limits.specs.Multiples.{IsPeriodOf};
ghost use Rattle.lrp_kept.specs.Held.{greatest_bounds};
ghost use Rattle.lrp_kept.specs.Limits.{row_bound};
ghost use Rattle.lrp_kept.specs.Sizes.{AreSizes, is_reader, joined_reach, period_number, reach_in, scaled_over, tested_periods};

use crate::disjuncts::{Disjunct, JoinedAtom};
use crate::rows::HeldRelation;
use lrp_limits::facts::{bound_of, with_point, with_row};
use lrp_limits::periods::{Period, one};
use lrp_limits::reaches::{capped, greatest_offset, scan_reach, tests_reach};
use lrp_limits::scaling::{doubled_times, scaled};
use lrp_model::{Column, Row, Test};

/// Whether some atom reads the relation.
pub fn is_read(disjuncts: &[Disjunct], relation: usize) -> bool
    ensures { result ≡ list_any (is_reader relation) disjuncts.now }
{
    for disjunct in disjuncts {
        if disjunct.reads(relation) {
            return true;
        }
    }
    false
}

/// The least common multiple of the periods of the `in` points; `None` where it is above 2^62.
pub fn tested_period(disjuncts: &[Disjunct]) -> Option<Period>
    ensures { IsPeriodOf (flat_map tested_periods disjuncts.now) (period_number result) }
{
    let mut period = Some(one());
    for disjunct in disjuncts {
        period = with_tests(period, disjunct.tests.as_slice());
    }
    period
}

fn with_tests(period: Option<Period>, tests: &[Test]) -> Option<Period>
    ensures { KeepsMultiples (flat_map test_periods tests.now) (period_number period)
        (period_number result) }
{
    let mut all = period;
    for test in tests {
        all = with_test(all, test);
    }
    all
}

// The period with that of a test's point.
fn with_test(period: Option<Period>, test: &Test) -> Option<Period>
    ensures { KeepsMultiples (test_periods test.now) (period_number period) (period_number result) }
{
    match test {
        Test::Member { point, .. } => with_point(period, point),
        Test::Compare { .. } => period,
        Test::Equal { .. } => period,
    }
}

/// The least common multiple of a period and those of a row's points; `None` where it is above 2^62.
pub fn with_periods(period: Period, row: &Row) -> Option<Period>
    ensures { IsPeriodOf (period.number ∷ row_periods row.now) (period_number result) }
{
    with_row(Some(period), row)
}

/// The greatest of a number and the magnitudes of a row's bounds.
pub fn with_bounds(most: u64, row: &Row) -> u64
    ensures { result ≡ max (row_bound row.now) most }
{
    bound_of(row).max(most)
}

/// 2^(m + 1) times the kept reach, m being the head's time columns; 2^62 + 1 where that is above 2^62.
pub fn scaled_reach(
    disjuncts: &[Disjunct],
    relations: &[HeldRelation],
    head: &[Column],
    period: Period,
) -> u64
    ensures { result ≡ capped_at (scaled_over
        (greatest_bounds relations.now) period.number head.now disjuncts.now) }
{
    let most = sizes_of(disjuncts, relations, period);
    scaled(doubled_times(stepped(most, period), most.times), head)
}

// The greatest numbers of atoms, tests and bound times that a disjunct has, and the greatest reach of one of its atoms and
// tests as a step of its own.
#[derive(Clone, Copy)]
struct Sizes {
    reach: u64,
    atoms: usize,
    tests: usize,
    times: u64,
}

// The greatest reach, and the period once more for each atom and test.
fn stepped(most: Sizes, period: Period) -> u64
    ensures { result ≡ capped_at (most.reach + (most.atoms + most.tests) * period.number) }
{
    let steps = most.atoms as u128 + most.tests as u128;
    capped(u128::from(most.reach) + steps * u128::from(period.number))
}

fn sizes_of(disjuncts: &[Disjunct], relations: &[HeldRelation], period: Period) -> Sizes
    ensures { AreSizes (greatest_bounds relations.now) period.number disjuncts.now result }
{
    let mut most = Sizes {
        reach: 0,
        atoms: 0,
        tests: 0,
        times: 0,
    };
    for disjunct in disjuncts {
        most = Sizes {
            reach: disjunct_reach(disjunct, relations, period).max(most.reach),
            atoms: disjunct.atoms.len().max(most.atoms),
            tests: disjunct.tests.len().max(most.tests),
            times: times_of(disjunct.bound.as_slice()).max(most.times),
        };
    }
    most
}

// How many of the columns are of times.
fn times_of(columns: &[Column]) -> u64
    ensures { result ≡ time_count columns.now }
{
    let mut count = 0;
    for column in columns {
        if column.sort.is_time() {
            count += 1;
        }
    }
    count
}

fn disjunct_reach(disjunct: &Disjunct, relations: &[HeldRelation], period: Period) -> u64
    ensures { result ≡ capped_at (reach_in (greatest_bounds relations.now) period.number
        disjunct.now) }
{
    atoms_reach(&disjunct.atoms, relations, period).max(tests_reach(disjunct.tests.as_slice()))
}

fn atoms_reach(atoms: &Vec<JoinedAtom>, relations: &[HeldRelation], period: Period) -> u64
    ensures { result ≡ capped_at (greatest (map
        (joined_reach (greatest_bounds relations.now) period.number) atoms.now.items)) }
{
    let mut reach = 0;
    for atom in atoms {
        reach = atom_reach(atom, relations, period).max(reach);
    }
    reach
}

// The reach of an atom as a step of its own.
fn atom_reach(atom: &JoinedAtom, relations: &[HeldRelation], period: Period) -> u64
    ensures { result ≡ capped_at (joined_reach
        (greatest_bounds relations.now) period.number atom.now) }
{
    let most = bound_at(relations, atom.relation);
    capped(scan_reach(most, greatest_offset(atom.terms.as_slice()), period))
}

// The greatest bound that a relation ever had.
fn bound_at(relations: &[HeldRelation], number: usize) -> u64
    ensures { result ≡ slice_index_or (greatest_bounds relations.now) number 0 }
{
    if number < relations.len() {
        relations[number].most
    } else {
        0
    }
}
