// The residues with which spans go on for ever.
ghost use Rattle.std.specs.Prelude.{AllPairs, IfOk};
ghost use Rattle.lrp_spans.specs.Spans.{AreOpenAbove, AreOpenBelow, SpanComesBefore};

use crate::spans::Span;
use lrp_model::Memory;
use std::alloc::Global;

/// The residues of the spans without a last number, ascending.
pub fn open_above(alloc: Global, spans: &[Span]) -> Result<Vec<u64>, Memory>
    requires { AllPairs SpanComesBefore spans.now }
    ensures { IfOk result (λ made. AreOpenAbove spans.now made.items) }
{
    let mut made = Vec::new(alloc);
    for span in spans {
        if span.last.is_none() {
            made.push(span.residue)?;
        }
    }
    Ok(made)
}

/// The residues of the spans without a first number, ascending.
pub fn open_below(alloc: Global, spans: &[Span]) -> Result<Vec<u64>, Memory>
    requires { AllPairs SpanComesBefore spans.now }
    ensures { IfOk result (λ made. AreOpenBelow spans.now made.items) }
{
    let mut made = Vec::new(alloc);
    for span in spans {
        if span.first.is_none() {
            made.push(span.residue)?;
        }
    }
    Ok(made)
}
