// The least period of all groups.
ghost use Rattle.std.specs.Prelude.{◌<◌, ◌≤◌, ◌^◌, AllPairs, Contains, IfOk, pos};
ghost use Rattle.lrp_theory.specs.Divides.{Divides};
ghost use Rattle.lrp_spans.specs.Periods.{AreSpanLists, IsEndPeriod, IsWithEnds};
ghost use Rattle.lrp_spans.specs.Spans.{HaveResiduesBelow, AreOrdered};

use crate::ends::{open_above, open_below};
use crate::groups::spans_at;
use crate::multiples::multiple;
use crate::residues::least_period;
use crate::spans::Span;
use lrp_model::Memory;
use lrp_slots::Slots;
use std::alloc::Global;

/// The least period with which finitely many rows give the numbers of each group.
///
/// It is the least common multiple of the steps with which they repeat at each end.
pub fn period_of(alloc: Global, groups: &Slots<Span>, period: u64) -> Result<u64, Memory>
    requires low { 0 < period }
    requires high { period ≤ 2 ^ 62 }
    requires spans { AreSpanLists period groups.now.lists }
    ensures { IfOk result (λ made. IsEndPeriod period groups.now.lists made) }
{
    let mut least = 1;
    for group in groups.cells() {
        let spans = spans_at(alloc, groups, &group)?;
        least = with_ends(alloc, &spans, period, least)?;
    }
    Ok(least)
}

// The least common multiple of a number and the steps with which the spans repeat at their ends.
fn with_ends(alloc: Global, spans: &[Span], period: u64, least: u64) -> Result<u64, Memory>
    requires spans { AreOrdered (2 ^ 62) spans.now }
    requires below { HaveResiduesBelow period spans.now }
    requires period_low { 0 < period }
    requires period_high { period ≤ 2 ^ 62 }
    requires low { 0 < least }
    requires divides { Divides (pos least) (pos period) }
    ensures { IfOk result (λ made. IsWithEnds period spans.now least made) }
{
    let above = open_above(alloc, spans)?;
    let below = open_below(alloc, spans)?;
    let least = multiple(least, least_period(&above, period), period);
    Ok(multiple(least, least_period(&below, period), period))
}
