// The bounds of a row, as bounds of the columns of a longer tuple.
ghost use Rattle.std.specs.Prelude.{◌≡◌, ◌+◌, ◌<◌, ◌≤◌, ◌^◌, ◌-ℤ◌, ◌≤ℤ◌, nat_abs, length, map, flat_map, All, IfOk, IfSome, IfNone, MatchOption};
ghost use Rattle.lrp_model.specs.Reach.{greatest, term_magnitudes};
ghost use Rattle.lrp_theory.specs.Entries.{node};
ghost use Rattle.lrp_model.specs.Satisfaction.{Assignment};
ghost use Rattle.lrp_tables.specs.Columns.{times_of_term};
ghost use Rattle.lrp_tables.specs.Tables.{AreNamesAmong};
ghost use Rattle.lrp_steps.specs.Comparisons.{side_value};
ghost use Rattle.lrp_steps.specs.Rows.{term_times, offsets_reach, bounds_reach, IsShifted, IsZoneOfBounds, HasNoBounded, IsWithBounds, HasNoBounds};

use crate::comparisons::ShiftedColumn;
use crate::conditions::counted;
use crate::pattern::Pattern;
use crate::sides::side_of;
use lrp_model::{Bound, List, Memory, Name, Term};
use lrp_zone::Zone;
use std::alloc::Global;

/// The pattern and these bounds on the times of the terms, or `None` where no times meet them.
///
/// The bounds make one zone, so that times at a fixed difference are seen as such.
pub fn with_bounds(
    alloc: Global,
    pattern: Pattern,
    bounds: &List<Bound>,
    terms: &List<Term>,
    times: &List<Name>,
) -> Result<Option<Pattern>, Memory>
    requires few { length times.now ≤ 8 }
    requires known { length pattern.texts ≡ 8 }
    requires names { AreNamesAmong (flat_map times_of_term terms.now) times.now }
    requires room { bounds_reach bounds.now terms.now < 2 ^ 62 }
    ensures { IfOk result (λ found. MatchOption found (HasNoBounds times.now terms.now bounds.now)
        (IsWithBounds times.now terms.now bounds.now pattern)) }
{
    if bounds.len() == 0 {
        return Ok(Some(pattern));
    }
    let mut shifted = Vec::new(alloc);
    for bound in bounds.as_slice() {
        shifted.push(shifted_bound(bound, terms, times))?;
    }
    let columns = times.len();
    match bounded(&shifted, columns) {
        Some(zone) => {
            let places = counted();
            Ok(Some(pattern.with_zone(&zone, &places[..columns])?))
        }
        None => Ok(None),
    }
}

// The tuples of so many times that meet the bounds, or `None` where there are none.
fn bounded(bounds: &[Bound], columns: usize) -> Option<Zone>
    requires few { columns ≤ 8 }
    requires between { All (λ b. (b.left ≤ columns) × (b.right ≤ columns)) bounds.now }
    requires small { All (λ b. nat_abs b.most ≤ 2 ^ 62) bounds.now }
    ensures none { IfNone result (HasNoBounded bounds.now columns) }
    ensures some { IfSome result (IsZoneOfBounds bounds.now columns) }
{
    let residues = [0; 8];
    Zone::of(1, &residues[..columns], bounds)
}

// A bound of two time columns of the terms, as a bound of the columns of their variables.
fn shifted_bound(bound: &Bound, terms: &List<Term>, times: &List<Name>) -> Bound
    requires few { length times.now ≤ 8 }
    requires names { AreNamesAmong (flat_map times_of_term terms.now) times.now }
    requires room { nat_abs bound.now.most + offsets_reach terms.now < 2 ^ 62 }
    ensures { IsShifted times.now terms.now bound.now result }
{
    let left = side_at(terms, bound.left, times);
    let right = side_at(terms, bound.right, times);
    Bound {
        left: left.column as u8,
        right: right.column as u8,
        most: bound.most - left.plus + right.plus,
    }
}

// The value of the time column with this number among the terms, counted from 1; zero is the number zero.
fn side_at(terms: &List<Term>, place: u8, times: &List<Name>) -> ShiftedColumn
    requires few { length times.now ≤ 8 }
    requires names { AreNamesAmong (flat_map times_of_term terms.now) times.now }
    ensures value { (env : Assignment) → side_value result (map env.times times.now)
        ≡ node (term_times env terms.now) place }
    ensures column { result.column ≤ length times.now }
    ensures small { nat_abs result.plus ≤ greatest (flat_map term_magnitudes terms.now) }
{
    let mut left = place;
    for term in terms.as_slice() {
        if let Term::Time { term } = term {
            if left == 1 {
                return side_of(term, times);
            }
            left = left.saturating_sub(1);
        }
    }
    ShiftedColumn { column: 0, plus: 0 }
}
