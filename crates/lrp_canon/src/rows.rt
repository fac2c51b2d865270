// The maximal rows of the numbers of spans.
ghost use Rattle.std.specs.Prelude.{◌≡◌, ◌≤◌, AllPairs, Contains, IfOk, length, take, slice_get, Some};
ghost use Rattle.lrp_spans.specs.Spans.{SpansHaveNumber};
ghost use Rattle.lrp_canon.specs.Edges.{AreRepeating, IsEarlierEdge};
ghost use Rattle.lrp_canon.specs.Making.{AreRowsOf, EndsAt};
ghost use Rattle.lrp_canon.specs.Pairing.{AreRowsFrom, AreStopEdges};
ghost use Rattle.lrp_canon.specs.declared.edges.Edge.{Edge as EdgeValue};

use crate::edges::{Edge, Periods, beginnings, stops};
use lrp_model::Memory;
use lrp_spans::Span;
use std::alloc::Global;

/// The numbers of a residue from one end to another, both included. `None` is no end.
#[derive(Clone, Copy)]
pub struct MaximalRow {
    pub residue: u64,
    pub least: Option<i64>,
    pub most: Option<i64>,
}

/// The maximal rows of the numbers of spans, by residues and ascending.
pub fn maximal_rows(
    alloc: Global,
    spans: &[Span],
    periods: Periods,
) -> Result<Vec<MaximalRow>, Memory>
    requires { AreRepeating periods spans.now }
    ensures { IfOk result (λ made. AreRowsOf
        (SpansHaveNumber periods.whole spans.now) periods.least made.items) }
{
    let starts = beginnings(alloc, spans, periods)?;
    let stops = stops(alloc, spans, periods)?;
    paired(alloc, &starts, &stops, periods.least)
}

// The rows from each start to the first stop of its residue that does not come before it.
fn paired(
    alloc: Global,
    starts: &[Edge],
    stops: &[Edge],
    period: u64,
) -> Result<Vec<MaximalRow>, Memory>
    requires starts { AllPairs IsEarlierEdge starts.now }
    requires stops { AreStopEdges period stops.now }
    ensures { IfOk result (λ made. AreRowsFrom period stops.now starts.now made.items) }
{
    let mut made = Vec::new(alloc);
    let mut next = 0;
    for start in starts {
        next = passed(stops, next, start);
        made.push(MaximalRow {
            residue: start.residue,
            least: start.number,
            most: end_at(stops, next, start, period),
        })?;
    }
    Ok(made)
}

// The place of the first stop, from one on, that does not come before the start.
fn passed(stops: &[Edge], from: usize, start: &Edge) -> usize
    requires from { from ≤ length stops.now }
    requires before { (e : EdgeValue) → Contains (take from stops.now) e
        → IsEarlierEdge e start.now }
    ensures place { result ≤ length stops.now }
    ensures before { (e : EdgeValue) → Contains (take result stops.now) e
        → IsEarlierEdge e start.now }
    ensures stop { (e : EdgeValue) → slice_get stops.now result ≡ Some e → IsEarlierEdge e start.now
        → ⊥ }
{
    let mut next = from;
    while next < stops.len() && stops[next].is_before(start) {
        next += 1;
    }
    next
}

// The last number of the row that begins there: a period before the stop, where this has the residue of the start.
fn end_at(stops: &[Edge], place: usize, start: &Edge, period: u64) -> Option<i64>
    requires stops { AreStopEdges period stops.now }
    requires place { place ≤ length stops.now }
    requires before { (e : EdgeValue) → Contains (take place stops.now) e
        → IsEarlierEdge e start.now }
    requires stop { (e : EdgeValue) → slice_get stops.now place ≡ Some e → IsEarlierEdge e start.now
        → ⊥ }
    ensures { EndsAt period stops.now start.now result }
{
    if place == stops.len() || stops[place].residue != start.residue {
        return None;
    }
    let number = stops[place].number?;
    Some(number - period as i64)
}
