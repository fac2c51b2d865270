// Whether a row holds anything.
ghost use Rattle.std.specs.Prelude.{◌≡◌, ◌+◌, ◌<◌, ◌≤◌, ◌↔◌, ◌^◌, ◌≤ℤ◌, All, IsTrue, IfOk, MatchOption, nat_abs, option_map, pos};
ghost use Rattle.lrp_limits.specs.Multiples.{IsPeriodOf};
ghost use Rattle.lrp_model.specs.Periods.{row_periods};
ghost use Rattle.lrp_model.specs.Kept.{IsRowOf};
ghost use Rattle.lrp_model.specs.Sorts.{time_count};
ghost use Rattle.lrp_systems.specs.Parts.{Fits};
ghost use Rattle.lrp_lint.specs.Contents.{HasNoCommonTimes, HasPeriodRoom, IsContentFlaw, IsReadable};
ghost use Rattle.lrp_lint.specs.Flaws.{IsEmpty, IsRowWithinLimits};

use crate::fault::LintFault;
use crate::flaws::RowFlaw;
use crate::parts::row_parts;
use lrp_limits::facts::{bound_of, with_row};
use lrp_limits::periods::{Period, one};
use lrp_model::{Column, LIMIT, Row, Shape};
use lrp_store::{Store, StoreFault};
use lrp_systems::{Part, add_system, parts_of};
use std::alloc::Global;

/// Whether the row holds nothing, or passes the limits so that this isn't told; else none.
pub fn content_flaw(
    alloc: Global,
    times: u8,
    columns: &[Column],
    row: &Row,
) -> Result<Option<RowFlaw>, LintFault>
    requires times { times ≡ time_count columns.now }
    requires few { times ≤ 8 }
    requires row { IsRowOf columns.now row.now }
    ensures { IfOk result (IsContentFlaw row.now) }
{
    let Some(period) = room_of(row) else {
        return Ok(Some(RowFlaw::RowLimit));
    };
    if is_empty(alloc, times, row, period)? {
        Ok(Some(RowFlaw::EmptyRow))
    } else {
        Ok(None)
    }
}

// The least common multiple of the row's periods, where it is within the limit with the greatest of the row's bounds.
fn room_of(row: &Row) -> Option<i64>
    ensures { MatchOption result (IsRowWithinLimits row.now → ⊥) (HasPeriodRoom row.now) }
{
    match period_of(row) {
        Some(period) => fit(period, bound_of(row)),
        None => None,
    }
}

// The least common multiple of the row's periods, where it is at most 2^62.
fn period_of(row: &Row) -> Option<Period>
    ensures { IsPeriodOf (row_periods row.now) (option_map (λ p. p.number) result) }
{
    with_row(Some(one()), row)
}

// The period, where it is at most 2^62 with the greatest bound.
fn fit(period: Period, bound: u64) -> Option<i64>
    ensures { MatchOption result (2 ^ 62 < bound + period.number)
        (λ k. (k ≡ pos period.number) × (bound + period.number ≤ 2 ^ 62)) }
{
    if bound <= LIMIT as u64 - period.number {
        Some(period.number as i64)
    } else {
        None
    }
}

// Whether no tuple is in the row.
fn is_empty(alloc: Global, times: u8, row: &Row, period: i64) -> Result<bool, LintFault>
    requires readable { IsReadable times row.now }
    requires room { HasPeriodRoom row.now period }
    ensures { IfOk result (λ empty. IsTrue empty ↔ IsEmpty row.now) }
{
    match row_parts(alloc, times, row)? {
        Some(placed) => {
            let parts = parts_of(alloc, &placed)?;
            has_none(alloc, times, period, &parts)
        }
        None => Ok(true),
    }
}

// Whether no times lie in each part. The first that are found end the search.
fn has_none(alloc: Global, times: u8, period: i64, parts: &[Part]) -> Result<bool, LintFault>
    requires times { times ≤ 8 }
    requires low { pos 1 ≤ℤ period }
    requires high { period ≤ℤ pos (2 ^ 62) }
    requires fits { All (Fits times (nat_abs period)) parts.now }
    ensures { IfOk result (λ none. IsTrue none ↔ HasNoCommonTimes times parts.now) }
{
    let mut found = Store::new(alloc, Shape { times, texts: 0 }, period);
    match add_system(parts, &[0; 8], &mut found, 0) {
        Ok(()) => Ok(found.is_empty()),
        Err(StoreFault::TooManyCells) => Ok(false),
        Err(StoreFault::Memory) => Err(LintFault::Memory),
    }
}
