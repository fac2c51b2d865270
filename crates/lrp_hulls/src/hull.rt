// What zones of a store have in common: where the values of their columns lie, and their texts.
ghost use Rattle.std.specs.Prelude.{◌≡◌, ◌<◌, ◌≤◌, ℤ, List, length};
ghost use Rattle.lrp_matrix.specs.Ranges.{Above};
ghost use Rattle.lrp_matrix.specs.Matrices.{HaveSameIntegers};
ghost use Rattle.lrp_store.specs.Least.{matrix_of};
ghost use Rattle.lrp_theory.specs.Bounds.{Within};
ghost use Rattle.lrp_theory.specs.Entries.{node};
ghost use Rattle.lrp_zone.specs.Zones.{IsMember, columns_of};
ghost use Rattle.lrp_hulls.specs.Hulls.{AreSpansOf, AreTextSpansOf, AreWider, AreWiderTexts, IsHullOf, IsWiderHull};
ghost use Rattle.lrp_hulls.specs.Spans.{IsFromLowEnd, IsInHullSpan as IsInSpan, IsInTextSpan, IsToHighEnd, IsWiderText, span_at, text_span_at, whole_span};

use crate::range::{high_end, low_end, stored_low_end};
use crate::span::ColumnSpan;
use lrp_matrix::Matrix;
use lrp_tables::Piece;
use lrp_zone::Zone;

/// Numbers of texts from the first to the last one.
#[derive(Clone, Copy)]
pub struct TextSpan {
    pub first: u32,
    pub last: u32,
}

/// Where the values of each column of zones lie, and the numbers of their texts.
#[derive(Clone, Copy)]
pub struct Hull {
    pub times: [ColumnSpan; 8],
    pub texts: [TextSpan; 8],
}

impl Hull {
    /// The hull of one zone.
    pub(crate) fn of(piece: &Piece) -> Hull
        requires { length piece.now.cell.texts ≡ 8 }
        ensures { IsHullOf piece.now result }
    {
        Hull {
            times: spans_of(&piece.zone),
            texts: text_spans_of(&piece.cell.texts),
        }
    }

    /// A hull of no text but the first one.
    pub(crate) fn empty() -> Hull {
        Hull {
            times: [whole(); 8],
            texts: [TextSpan { first: 0, last: 0 }; 8],
        }
    }

    /// The least hull that has what both have.
    pub(crate) fn joined(&self, other: &Hull) -> Hull
        ensures left { IsWiderHull self.now result }
        ensures right { IsWiderHull other.now result }
    {
        Hull {
            times: joined_spans(&self.times, &other.times),
            texts: joined_texts(&self.texts, &other.texts),
        }
    }
}

// All numbers of one residue modulo 1.
fn whole() -> ColumnSpan
    ensures { result ≡ whole_span }
{
    ColumnSpan {
        low: i64::MIN,
        high: i64::MAX,
        first: 0,
        last: 0,
    }
}

/// The span of the column after i.
pub(crate) fn span_of_column(spans: &[ColumnSpan; 8], i: usize) -> ColumnSpan
    ensures { result ≡ span_at spans.now i }
{
    match spans.get(i) {
        Some(span) => *span,
        None => whole(),
    }
}

/// The span of the texts in the column after i.
pub(crate) fn text_span_of_column(spans: &[TextSpan; 8], i: usize) -> TextSpan
    ensures { result ≡ text_span_at spans.now i }
{
    match spans.get(i) {
        Some(span) => *span,
        None => TextSpan { first: 0, last: 0 },
    }
}

// Where the values of the columns of a zone lie.
fn spans_of(zone: &Zone) -> [ColumnSpan; 8]
    ensures { AreSpansOf zone.now result }
{
    if zone.columns() == 1 {
        lone_spans(zone)
    } else {
        closed_spans(zone)
    }
}

// Where the values of a zone's only column lie. The bounds that the zone stores are the closed ones.
fn lone_spans(zone: &Zone) -> [ColumnSpan; 8]
    requires { columns_of zone.now ≡ 1 }
    ensures { AreSpansOf zone.now result }
{
    let residue = zone.residue(1);
    let mut spans = [whole(); 8];
    spans[0] = ColumnSpan {
        low: low_number(stored_low_end(zone.bound(0, 1))),
        high: high_number(zone.bound(1, 0)),
        first: residue,
        last: residue,
    };
    spans
}

// Where the values of the columns lie by the closed bounds of the zone.
fn closed_spans(zone: &Zone) -> [ColumnSpan; 8]
    ensures { AreSpansOf zone.now result }
{
    let least = zone.closed();
    let mut spans = [whole(); 8];
    for i in 0..zone.columns() {
        spans[i] = span_in(zone, &least, i + 1);
    }
    spans
}

// Where the values of a column of a zone lie.
fn span_in(zone: &Zone, least: &Matrix, column: usize) -> ColumnSpan
    requires low { 0 < column }
    requires high { column ≤ columns_of zone.now }
    requires integers { HaveSameIntegers (matrix_of zone.now) least.now }
    ensures { (xs : List ℤ) → IsMember zone.now xs
        → IsInSpan zone.now.period result (node xs column) }
{
    let residue = zone.residue(column);
    ColumnSpan {
        low: low_number(low_end(least.get(0, column))),
        high: high_number(high_end(least.get(column, 0))),
        first: residue,
        last: residue,
    }
}

// The number that a low end is, and the least one of its type for none.
fn low_number(end: Option<i64>) -> i64
    ensures { (x : ℤ) → Above x end → IsFromLowEnd result x }
{
    match end {
        Some(low) => low,
        None => i64::MIN,
    }
}

// The number that a high end is, and the greatest one of its type for none.
fn high_number(end: Option<i64>) -> i64
    ensures { (x : ℤ) → Within x end → IsToHighEnd result x }
{
    match end {
        Some(high) => high,
        None => i64::MAX,
    }
}

// The spans of the numbers alone.
fn text_spans_of(numbers: &[u32; 8]) -> [TextSpan; 8]
    requires { length numbers.now ≡ 8 }
    ensures { AreTextSpansOf numbers.now result }
{
    let mut spans = [TextSpan { first: 0, last: 0 }; 8];
    for i in 0..8 {
        spans[i] = TextSpan {
            first: numbers[i],
            last: numbers[i],
        };
    }
    spans
}

// The least spans that have what both have, column by column.
fn joined_spans(left: &[ColumnSpan; 8], right: &[ColumnSpan; 8]) -> [ColumnSpan; 8]
    ensures left { AreWider left.now result }
    ensures right { AreWider right.now result }
{
    let mut spans = [whole(); 8];
    for i in 0..8 {
        let ours = span_of_column(left, i);
        let theirs = span_of_column(right, i);
        spans[i] = ours.joined(&theirs);
    }
    spans
}

// The same for texts.
fn joined_texts(left: &[TextSpan; 8], right: &[TextSpan; 8]) -> [TextSpan; 8]
    ensures left { AreWiderTexts left.now result }
    ensures right { AreWiderTexts right.now result }
{
    let mut spans = [TextSpan { first: 0, last: 0 }; 8];
    for i in 0..8 {
        let ours = text_span_of_column(left, i);
        let theirs = text_span_of_column(right, i);
        spans[i] = joined_text(ours, theirs);
    }
    spans
}

// The least span of texts that has the numbers of both.
fn joined_text(left: TextSpan, right: TextSpan) -> TextSpan
    ensures left { IsWiderText left result }
    ensures right { IsWiderText right result }
{
    let first = if left.first < right.first {
        left.first
    } else {
        right.first
    };
    let last = if left.last < right.last {
        right.last
    } else {
        left.last
    };
    TextSpan { first, last }
}
