// Where the maximal rows begin, and where they stop.
ghost use Rattle.std.specs.Prelude.{◌≡◌, ◌≤◌, ◌<◌, ◌^◌, ◌↔◌, ◌∷◌, [], Some, IsTrue, IfOk, OnOk, pos, ◌+ℤ◌, ◌*ℤ◌};
ghost use Rattle.lrp_theory.specs.Entries.{AtMost};
ghost use Rattle.lrp_spans.specs.Spans.{SpansHaveNumber};
ghost use Rattle.lrp_canon.specs.Edges.{AddsNumbers, AddsOpen, AreBeginnings, AreEdgeNumbers, AreInOrder, AreRepeating, AreStarts, AreStopSpans, AreStops, HasEnds, IsEarlierEdge};

use lrp_model::Memory;
use lrp_spans::{Span, difference, open_below, shifted};
use std::alloc::Global;

/// The period of spans, and a divisor of it by which their numbers repeat at both ends.
#[derive(Clone, Copy)]
pub struct Periods {
    pub whole: u64,
    pub least: u64,
}

/// A number and its residue modulo the least period. `None` comes before all numbers.
#[derive(Clone, Copy, PartialEq, Eq, PartialOrd, Ord)]
pub struct Edge {
    pub residue: u64,
    pub number: Option<i64>,
}

impl Edge {
    /// Whether the edge comes before the other one.
    pub fn is_before(&self, other: &Edge) -> bool
        ensures { IsTrue result ↔ IsEarlierEdge self.now other.now }
    {
        if self.residue != other.residue {
            return self.residue < other.residue;
        }
        match (self.number, other.number) {
            (Some(number), Some(next)) => number < next,
            (None, Some(_)) => true,
            _ => false,
        }
    }
}

/// The spans of the numbers where maximal rows begin: those a period before are not in the set.
pub fn starts_of(alloc: Global, spans: &[Span], periods: Periods) -> Result<Vec<Span>, Memory>
    requires { AreRepeating periods spans.now }
    ensures { IfOk result (λ made. AreStarts periods spans.now made.items) }
{
    let before = shifted(alloc, spans, periods.least, periods.whole)?;
    difference(alloc, spans, &before)
}

/// The spans of the first numbers after maximal rows: they are not in the set, and those a period before are.
pub fn stops_of(alloc: Global, spans: &[Span], periods: Periods) -> Result<Vec<Span>, Memory>
    requires { AreRepeating periods spans.now }
    ensures { IfOk result (λ made. AreStopSpans periods spans.now made.items) }
{
    let before = shifted(alloc, spans, periods.least, periods.whole)?;
    difference(alloc, &before, spans)
}

/// The edges where maximal rows begin, in order: at a number, or at none where a row goes on downwards.
pub fn beginnings(alloc: Global, spans: &[Span], periods: Periods) -> Result<Vec<Edge>, Memory>
    requires { AreRepeating periods spans.now }
    ensures { IfOk result (λ made. AreBeginnings
        (SpansHaveNumber periods.whole spans.now) periods.least made.items) }
{
    let mut edges = Vec::new(alloc);
    let open = open_below(alloc, spans)?;
    push_open(&open, periods.least, &mut edges)?;
    let starts = starts_of(alloc, spans, periods)?;
    push_numbers(&starts, periods, &mut edges)?;
    put_in_order(&mut edges);
    Ok(edges)
}

/// The edges of the first numbers after maximal rows, in order.
pub fn stops(alloc: Global, spans: &[Span], periods: Periods) -> Result<Vec<Edge>, Memory>
    requires { AreRepeating periods spans.now }
    ensures { IfOk result (λ made. AreStops
        (SpansHaveNumber periods.whole spans.now) periods.least made.items) }
{
    let mut edges = Vec::new(alloc);
    let stops = stops_of(alloc, spans, periods)?;
    push_numbers(&stops, periods, &mut edges)?;
    put_in_order(&mut edges);
    Ok(edges)
}

// Puts edges in order, each once.
fn put_in_order(edges: &mut Vec<Edge>)
    ensures { AreInOrder edges.old.items edges.new.items }
{
    edges.sort_unstable();
    edges.dedup();
}

// Appends the edges of the numbers of spans.
fn push_numbers(spans: &[Span], periods: Periods, edges: &mut Vec<Edge>) -> Result<(), Memory>
    requires { AreEdgeNumbers periods spans.now }
    ensures { OnOk result (AddsNumbers periods spans.now edges.old.items edges.new.items) }
{
    for span in spans {
        push_span(span, periods, edges)?;
    }
    Ok(())
}

// Appends the edges of the numbers of a span.
fn push_span(span: &Span, periods: Periods, edges: &mut Vec<Edge>) -> Result<(), Memory>
    requires numbers { AreEdgeNumbers periods (span.now ∷ []) }
    requires ends { HasEnds span.now }
    ensures { OnOk result (AddsNumbers periods (span.now ∷ []) edges.old.items edges.new.items) }
{
    let (Some(first), Some(last)) = (span.first, span.last) else {
        unreachable!()
    };
    let residue = span.residue % periods.least;
    for turn in first..last + 1 {
        let number = number_in(span.residue, turn, periods.whole);
        edges.push(Edge {
            residue,
            number: Some(number),
        })?;
    }
    Ok(())
}

// The number of a residue in a turn of the period.
fn number_in(residue: u64, turn: i64, period: u64) -> i64
    requires residue { residue < period }
    requires period { period ≤ 2 ^ 62 }
    requires number { AtMost (2 ^ 62) (Some (pos residue +ℤ (pos period *ℤ turn))) }
    ensures { result ≡ pos residue +ℤ (pos period *ℤ turn) }
{
    residue as i64 + period as i64 * turn
}

// Appends the edges of the residues below the period, where rows go on downwards.
fn push_open(residues: &[u64], period: u64, edges: &mut Vec<Edge>) -> Result<(), Memory>
    ensures { OnOk result (AddsOpen period residues.now edges.old.items edges.new.items) }
{
    for residue in residues {
        if *residue < period {
            edges.push(Edge {
                residue: *residue,
                number: None,
            })?;
        }
    }
    Ok(())
}
