// Tests as conditions of a pattern.
ghost use Rattle.std.specs.Prelude.{◌≡◌, ◌+◌, ◌<◌, ◌≤◌, ◌^◌, ◌++◌, ◌-ℤ◌, ◌≤ℤ◌, ℕ, List as ListOf, pos, nat_abs, length, slice_index, IfOk, MatchOption};
ghost use Rattle.lrp_model.specs.Reach.{term_offset, test_reach};
ghost use Rattle.lrp_model.specs.Texts.{Text, Identifier};
ghost use Rattle.lrp_model.specs.declared.formulas.Test.TheVariants.{Compare, Member};
ghost use Rattle.lrp_tables.specs.Columns.{names_of_time};
ghost use Rattle.lrp_tables.specs.Tables.{AreNamesAmong};
ghost use Rattle.lrp_steps.specs.Conditions.{IsWithTest, HasNoTest};

use crate::comparisons::{compared, own_sides, shifted};
use crate::pattern::Pattern;
use crate::sides::side_of;
use lrp_model::{List, Memory, Name, Op, RowPoint, TimeTerm};
use lrp_zone::Zone;

/// The pattern and a comparison of times of these variables, or `None` where nothing that the pattern asks for passes.
pub fn with_comparison(
    pattern: Pattern,
    left: &TimeTerm,
    op: Op,
    right: &TimeTerm,
    times: &List<Name>,
) -> Result<Option<Pattern>, Memory>
    requires few { length times.now ≤ 8 }
    requires known { length pattern.texts ≡ 8 }
    requires left { AreNamesAmong (names_of_time left.now) times.now }
    requires right { AreNamesAmong (names_of_time right.now) times.now }
    requires reach { 1 + nat_abs (term_offset left.now -ℤ term_offset right.now) ≤ 2 ^ 62 }
    ensures { IfOk result (λ found. (domain : ListOf Text) (texts : ListOf Identifier)
        → MatchOption found (HasNoTest domain times.now texts
        (Compare left.now op right.now) pattern)
        (IsWithTest domain times.now texts (Compare left.now op right.now) pattern)) }
{
    let first = side_of(left, times);
    let second = side_of(right, times);
    let own = own_sides(&first, &second);
    match compared(&own.left, op, &own.right, own.columns) {
        Some(zone) => Ok(Some(pattern.with_zone(&zone, &own.places[..own.columns])?)),
        None => Ok(None),
    }
}

/// The pattern and a point for a time of these variables, or `None` where nothing that the pattern asks for passes.
pub fn with_member(
    pattern: Pattern,
    term: &TimeTerm,
    point: RowPoint,
    times: &List<Name>,
) -> Result<Option<Pattern>, Memory>
    requires few { length times.now ≤ 8 }
    requires known { length pattern.texts ≡ 8 }
    requires names { AreNamesAmong (names_of_time term.now) times.now }
    requires low { pos 1 ≤ℤ point.period }
    requires high { point.period ≤ℤ pos (2 ^ 62) }
    ensures { IfOk result (λ found. (domain : ListOf Text) (texts : ListOf Identifier)
        → MatchOption found (HasNoTest domain times.now texts (Member term.now point) pattern)
        (IsWithTest domain times.now texts (Member term.now point) pattern)) }
{
    if point.period == 1 {
        return Ok(Some(pattern));
    }
    let side = side_of(term, times);
    let residue = shifted(point.offset, side.plus, point.period);
    if side.column == 0 {
        return if residue == 0 {
            Ok(Some(pattern))
        } else {
            Ok(None)
        };
    }
    match Zone::of(point.period, &[residue], &[]) {
        Some(zone) => Ok(Some(pattern.with_zone(&zone, &[side.column])?)),
        None => Ok(None),
    }
}

/// The places of columns in order, from 1.
pub fn counted() -> [usize; 8]
    ensures size { length result ≡ 8 }
    ensures each { (i : ℕ) → i < 8 → slice_index result i ≡ i + 1 }
{
    [1, 2, 3, 4, 5, 6, 7, 8]
}
