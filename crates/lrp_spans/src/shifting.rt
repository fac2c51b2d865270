// Spans of zones, and spans moved by a step.
ghost use Rattle.std.specs.Prelude.{◌≡◌, ◌+◌, ◌≤◌, ◌<◌, ◌^◌, ◌≤ℤ◌, ◌<ℤ◌, ◌-ℤ◌, ◌+ℤ◌, ◌*ℤ◌, ℕ, pos, Some, Contains, IfOk, OnOk, length, map, slice_get, take, ◌++◌};
ghost use Rattle.lrp_theory.specs.Divides.{Divides};
ghost use Rattle.lrp_theory.specs.Entries.{AtMost, entry};
ghost use Rattle.lrp_matrix.specs.Ranges.{negation};
ghost use Rattle.lrp_zone.specs.Zones.{IsTight, IsZone, columns_of};
ghost use Rattle.lrp_spans.specs.Spans.{HaveResiduesBelow, AreOrdered, AreShifted, IsSpan, IsSpanOf, IsTurnOf, moved_past, moved_within, next_turn};
ghost use Rattle.lrp_spans.specs.declared.spans.Span.{Span as SpanValue};

use crate::spans::Span;
use lrp_model::Memory;
use lrp_zone::Zone;
use std::alloc::Global;

/// The numbers that are a step greater than those of the spans, in order. The step is at most the period.
pub fn shifted(alloc: Global, spans: &[Span], step: u64, period: u64) -> Result<Vec<Span>, Memory>
    requires spans { AreOrdered (2 ^ 62) spans.now }
    requires below { HaveResiduesBelow period spans.now }
    requires step { step ≤ period }
    requires period { period ≤ 2 ^ 62 }
    ensures { IfOk result (λ made. AreShifted (2 ^ 62) period step spans.now made.items) }
{
    let place = count_below(spans, period - step);
    let mut made = Vec::new(alloc);
    push_past(&spans[place..], step, period, &mut made)?;
    push_within(&spans[..place], step, &mut made)?;
    Ok(made)
}

// The place of the first span whose residue is not below the end.
fn count_below(spans: &[Span], end: u64) -> usize
    ensures place { result ≤ length spans.now }
    ensures below { HaveResiduesBelow end (take result spans.now) }
    ensures stop { (s : SpanValue) → slice_get spans.now result ≡ Some s → end ≤ s.residue }
{
    let mut next = 0;
    while next < spans.len() && spans[next].residue < end {
        next += 1;
    }
    next
}

// Appends spans a step further on, which leads them into the next turn.
fn push_past(spans: &[Span], step: u64, period: u64, made: &mut Vec<Span>) -> Result<(), Memory>
    requires spans { (s : SpanValue) → Contains spans.now s → IsSpan (2 ^ 62) s }
    requires below { HaveResiduesBelow period spans.now }
    requires past { (s : SpanValue) → Contains spans.now s → period ≤ s.residue + step }
    requires step { step ≤ period }
    requires period { period ≤ 2 ^ 62 }
    ensures { OnOk result (made.new.items ≡ made.old.items
        ++ map (moved_past period step) spans.now) }
{
    for span in spans {
        made.push(past(span, step, period))?;
    }
    Ok(())
}

// A span a step further on, in the next turn.
fn past(span: &Span, step: u64, period: u64) -> Span
    requires span { IsSpan (2 ^ 62) span.now }
    requires below { span.now.residue < period }
    requires past { period ≤ span.now.residue + step }
    requires step { step ≤ period }
    requires period { period ≤ 2 ^ 62 }
    ensures { result ≡ moved_past period step span.now }
{
    Span {
        residue: span.residue + step - period,
        first: after(span.first),
        last: after(span.last),
    }
}

// Appends spans a step further on, within the turn.
fn push_within(spans: &[Span], step: u64, made: &mut Vec<Span>) -> Result<(), Memory>
    requires { (s : SpanValue) → Contains spans.now s → s.residue + step < 2 ^ 62 }
    ensures { OnOk result (made.new.items ≡ made.old.items ++ map (moved_within step) spans.now) }
{
    for span in spans {
        made.push(Span {
            residue: span.residue + step,
            ..*span
        })?;
    }
    Ok(())
}

// One turn later.
fn after(turn: Option<i64>) -> Option<i64>
    requires { AtMost (2 ^ 62) turn }
    ensures { result ≡ next_turn turn }
{
    match turn {
        Some(turn) => Some(turn + 1),
        None => None,
    }
}

/// The span of a zone with one column.
pub fn span_of(zone: &Zone) -> Span
    requires valid { IsZone zone.now }
    requires column { columns_of zone.now ≡ 1 }
    ensures { IsSpanOf zone.now result }
{
    let (residue, period) = (zone.residue(1), zone.period());
    Span {
        residue: residue as u64,
        first: turn_of(least_of(zone), residue, period),
        last: turn_of(zone.bound(1, 0), residue, period),
    }
}

// The least number of a zone with one column.
fn least_of(zone: &Zone) -> Option<i64>
    requires column { columns_of zone.now ≡ 1 }
    requires small { AtMost (2 ^ 62) (entry zone.now.bounds 0 1) }
    ensures { result ≡ negation (entry zone.now.bounds 0 1) }
{
    let below = zone.bound(0, 1)?;
    Some(-below)
}

// The turn in which a bound is the number of the residue.
fn turn_of(bound: Option<i64>, residue: i64, period: i64) -> Option<i64>
    requires period_low { pos 0 <ℤ period }
    requires period_high { period ≤ℤ pos (2 ^ 62) }
    requires residue_low { pos 0 ≤ℤ residue }
    requires residue_high { residue <ℤ period }
    requires bound { IsTight period residue bound }
    ensures turn { IsTurnOf period residue bound result }
    ensures small { AtMost (2 ^ 62) result }
{
    let number = bound?;
    Some((number - residue).div_euclid(period))
}
