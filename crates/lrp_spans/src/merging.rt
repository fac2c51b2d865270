// Spans in order, of which no two overlap.
ghost use Rattle.std.specs.Prelude.{AllPairs, IfOk, IsTrue};
ghost use Rattle.lrp_spans.specs.Spans.{AreMergedSpans, HasLessResidue};

use crate::spans::Span;
use lrp_model::Memory;
use std::alloc::Global;

/// The spans in order, where those that overlap become one. Spans whose residues ascend are given back as they are.
pub fn merged(alloc: Global, spans: Vec<Span>) -> Result<Vec<Span>, Memory>
    ensures { IfOk result (λ made. AreMergedSpans spans.items made.items) }
{
    if residues_ascend(&spans) {
        return Ok(spans);
    }
    sorted_and_merged(alloc, spans)
}

// Whether each residue is greater than that of the span before it.
fn residues_ascend(spans: &[Span]) -> bool
    ensures { IsTrue result → AllPairs HasLessResidue spans.now }
{
    for i in 1..spans.len() {
        if spans[i - 1].residue >= spans[i].residue {
            return false;
        }
    }
    true
}

// The spans in order, where those that overlap become one.
fn sorted_and_merged(alloc: Global, spans: Vec<Span>) -> Result<Vec<Span>, Memory>
    ensures { IfOk result (λ made. AreMergedSpans spans.items made.items) }
{
    let mut spans = spans;
    spans.sort_unstable();
    let mut made = Vec::new(alloc);
    let Some((first, rest)) = spans.split_first() else {
        return Ok(made);
    };
    let mut last = *first;
    for next in rest {
        if last.is_before(next) {
            made.push(last)?;
            last = *next;
        } else {
            last = last.joined(next);
        }
    }
    made.push(last)?;
    Ok(made)
}
