// How many maximal rows the groups have.
ghost use Rattle.std.specs.Prelude.{◌≡◌, ◌≤◌, ◌+◌, ◌^◌, IfOk, Some, length, slice_get, take, Contains, ℕ, ◌<◌, AllPairs, sum_by};
ghost use Rattle.std.specs.FinMap as finite;
ghost use Rattle.lrp_spans.specs.Spans.{IsSpan};
ghost use Rattle.lrp_spans.specs.declared.spans.Span.{Span as SpanValue};
ghost use Rattle.lrp_canon.specs.Counting.{AreRepeatingGroups, IsCount, IsCountOf, capped_count, turns_of};
ghost use Rattle.lrp_canon.specs.Edges.{AreRepeating, HasEnds};

use crate::edges::{Periods, starts_of};
use lrp_model::Memory;
use lrp_slots::Slots;
use lrp_spans::{Span, open_below, spans_at};
use std::alloc::Global;

/// The number of the maximal rows of all groups, or the greatest word where there are as many or more.
pub fn rows_of(alloc: Global, groups: &Slots<Span>, periods: Periods) -> Result<u64, Memory>
    requires low { 0 < periods.least }
    requires groups { AreRepeatingGroups periods groups.now.lists }
    ensures { IfOk result (λ made. IsCountOf periods groups.now.lists
        (finite.keys groups.now.lists) made) }
{
    let mut rows = 0_u64;
    for group in groups.cells() {
        let spans = spans_at(alloc, groups, &group)?;
        rows = rows.saturating_add(rows_at(alloc, &spans, periods)?);
    }
    Ok(rows)
}

// The number of the maximal rows of one group: each begins at a number that has none before it, or goes on downwards.
fn rows_at(alloc: Global, spans: &[Span], periods: Periods) -> Result<u64, Memory>
    requires { AreRepeating periods spans.now }
    ensures { IfOk result (λ made. IsCount periods spans.now made) }
{
    let starts = starts_of(alloc, spans, periods)?;
    let open = open_below(alloc, spans)?;
    let endless = count_below(&open, periods.least);
    Ok(numbers_of(&starts).saturating_add(endless as u64))
}

// How many numbers the spans have together, or the greatest word where there are as many or more.
fn numbers_of(spans: &[Span]) -> u64
    requires valid { (s : SpanValue) → Contains spans.now s → IsSpan (2 ^ 62 + 2) s }
    requires ends { (s : SpanValue) → Contains spans.now s → HasEnds s }
    ensures { result ≡ capped_count (sum_by turns_of spans.now) }
{
    let mut count = 0_u64;
    for span in spans {
        count = count.saturating_add(count_of(span));
    }
    count
}

// How many numbers a span has that has both ends.
fn count_of(span: &Span) -> u64
    requires valid { IsSpan (2 ^ 62 + 2) span.now }
    requires ends { HasEnds span.now }
    ensures { result ≡ turns_of span.now }
{
    match (span.first, span.last) {
        (Some(first), Some(last)) => (last + 1).abs_diff(first),
        _ => unreachable!(),
    }
}

// How many of the residues, which ascend, are below a number.
fn count_below(residues: &[u64], end: u64) -> usize
    ensures place { result ≤ length residues.now }
    ensures below { (r : ℕ) → Contains (take result residues.now) r → r < end }
    ensures stop { (r : ℕ) → slice_get residues.now result ≡ Some r → end ≤ r }
{
    let mut next = 0;
    while next < residues.len() && residues[next] < end {
        next += 1;
    }
    next
}
