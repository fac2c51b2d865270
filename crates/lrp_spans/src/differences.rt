// What some spans have and others have not.
ghost use Rattle.std.specs.Prelude.{◌≡◌, ◌+◌, ◌≤◌, ◌^◌, Contains, IfOk, OnOk, Some, length, slice_get, take};
ghost use Rattle.lrp_spans.specs.Spans.{AppendsFronts, AppendsLeftSpans, AreBefore, AreOrdered, SpanComesBefore, IsSpanDifference, IsSpan};
ghost use Rattle.lrp_spans.specs.declared.spans.Span.{Span as SpanValue};

use crate::spans::Span;
use lrp_model::Memory;
use std::alloc::Global;

/// The spans of the turns that none of the holes has, in order.
pub fn difference(alloc: Global, spans: &[Span], holes: &[Span]) -> Result<Vec<Span>, Memory>
    requires spans { AreOrdered (2 ^ 62 + 1) spans.now }
    requires holes { AreOrdered (2 ^ 62 + 1) holes.now }
    ensures { IfOk result (λ made. IsSpanDifference (2 ^ 62 + 1) spans.now holes.now made.items) }
{
    let mut made = Vec::new(alloc);
    let mut next = 0;
    for span in spans {
        next = passed(holes, next, span);
        push_left(span, &holes[next..], &mut made)?;
    }
    Ok(made)
}

// The place of the first hole, from one on, that does not come before the span.
fn passed(holes: &[Span], from: usize, span: &Span) -> usize
    requires from { from ≤ length holes.now }
    requires before { AreBefore (take from holes.now) span.now }
    ensures place { result ≤ length holes.now }
    ensures before { AreBefore (take result holes.now) span.now }
    ensures stop { (hole : SpanValue) → slice_get holes.now result ≡ Some hole
        → SpanComesBefore hole span.now → ⊥ }
{
    let mut next = from;
    while next < holes.len() && holes[next].is_before(span) {
        next += 1;
    }
    next
}

// Appends the turns of the span that none of the holes has. No hole comes before the span.
fn push_left(span: &Span, holes: &[Span], made: &mut Vec<Span>) -> Result<(), Memory>
    requires span { IsSpan (2 ^ 62 + 1) span.now }
    requires holes { AreOrdered (2 ^ 62 + 1) holes.now }
    requires after { (hole : SpanValue) → Contains holes.now hole → SpanComesBefore hole span.now
        → ⊥ }
    ensures { OnOk result (AppendsLeftSpans (2 ^ 62 + 1) span.now holes.now made.old.items
        made.new.items) }
{
    let mut left = *span;
    for hole in holes {
        if left.is_before(hole) {
            break;
        }
        push_front(&left, hole, made)?;
        match left.rest(hole) {
            Some(rest) => left = rest,
            None => return Ok(()),
        }
    }
    made.push(left)?;
    Ok(())
}

// Appends the turns of the span that are below those of the hole.
fn push_front(span: &Span, hole: &Span, made: &mut Vec<Span>) -> Result<(), Memory>
    requires span { IsSpan (2 ^ 62 + 2) span.now }
    requires hole { IsSpan (2 ^ 62 + 1) hole.now }
    requires meets { SpanComesBefore span.now hole.now → ⊥ }
    requires after { SpanComesBefore hole.now span.now → ⊥ }
    ensures { OnOk result (AppendsFronts (2 ^ 62 + 1) span.now hole.now made.old.items
        made.new.items) }
{
    if let Some(front) = span.front(hole) {
        made.push(front)?;
    }
    Ok(())
}
