// Where the values of zones lie, column by column: what of their hulls is looked at one by one, in less room.
ghost use Rattle.std.specs.Prelude.{◌≡◌, ◌<◌, ◌≤◌, List, IfOk, IfSome, false, map};
ghost use Rattle.lrp_tables.specs.declared.pieces.Piece.{Piece};
ghost use Rattle.lrp_hulls.specs.Columns.{AreTextColumns, AreTimeColumns, HaveColumnSpans, StandsAt};
ghost use Rattle.lrp_hulls.specs.Hulls.{AreHullsOf};
ghost use Rattle.lrp_hulls.specs.Queries.{IsHullQuery as IsQuery, IsNear};
ghost use Rattle.lrp_hulls.specs.Spans.{span_at, text_span_at};

use crate::hull::{Hull, TextSpan, span_of_column, text_span_of_column};
use crate::query::{HullQuery, known_text, may_have};
use crate::range::range_of_column;
use crate::span::ColumnSpan;
use lrp_model::{Memory, Shape};
use std::alloc::Global;

/// The spans of zones in each column, and those of their texts, by the numbers of the zones.
pub(crate) struct SpanColumns {
    pub times: Vec<Vec<ColumnSpan>>,
    pub texts: Vec<Vec<TextSpan>>,
}

impl Drop for SpanColumns {
    fn drop(self) {
        let SpanColumns {
            times: _times,
            texts: _texts,
        } = self;
    }
}

impl SpanColumns {
    /// Those of hulls, in the columns of a shape.
    pub(crate) fn of(alloc: Global, hulls: &[Hull], shape: Shape) -> Result<SpanColumns, Memory>
        requires times { shape.times ≤ 8 }
        requires texts { shape.texts ≤ 8 }
        ensures { IfOk result (λ made. (pieces : List Piece) → AreHullsOf pieces hulls.now
            → HaveColumnSpans pieces made) }
    {
        let times = time_columns(alloc, hulls, usize::from(shape.times))?;
        let texts = text_columns(alloc, hulls, usize::from(shape.texts))?;
        Ok(SpanColumns { times, texts })
    }

    /// Whether the zone with a number may have a tuple that is asked for.
    pub(crate) fn may_meet(&self, query: &HullQuery, number: usize) -> bool
        requires { IsQuery query.now }
        ensures { result ≡ false → (pieces : List Piece) → HaveColumnSpans pieces self.now
            → IsNear pieces query.now number → ⊥ }
    {
        for i in 0..query.columns {
            if !self.may_have_time(query, i, number) {
                return false;
            }
        }
        for i in 0..query.names {
            if !self.may_have_text(query, i, number) {
                return false;
            }
        }
        true
    }

    // Whether the column after i may have a value that is asked for.
    fn may_have_time(&self, query: &HullQuery, i: usize, number: usize) -> bool
        requires query { IsQuery query.now }
        requires column { i < query.now.columns }
        ensures { result ≡ false → (pieces : List Piece) → HaveColumnSpans pieces self.now
            → IsNear pieces query.now number → ⊥ }
    {
        match time_span(self.times.as_slice(), i, number) {
            Some(span) => span.may_meet(&range_of_column(&query.times, i)),
            None => true,
        }
    }

    // Whether the data column after i may have the text that is asked for.
    fn may_have_text(&self, query: &HullQuery, i: usize, number: usize) -> bool
        requires { i < query.now.names }
        ensures { result ≡ false → (pieces : List Piece) → HaveColumnSpans pieces self.now
            → IsNear pieces query.now number → ⊥ }
    {
        match text_span(self.texts.as_slice(), i, number) {
            Some(span) => may_have(known_text(&query.texts, i), span),
            None => true,
        }
    }
}

// The spans of the first so many time columns.
fn time_columns(
    alloc: Global,
    hulls: &[Hull],
    columns: usize,
) -> Result<Vec<Vec<ColumnSpan>>, Memory>
    ensures { IfOk result (λ made. AreTimeColumns hulls.now columns made.items) }
{
    let mut made = Vec::with_capacity(alloc, columns)?;
    for i in 0..columns {
        let column = time_column(alloc, hulls, i)?;
        made.push(column)?;
    }
    Ok(made)
}

// Those of the time column after i.
fn time_column(alloc: Global, hulls: &[Hull], i: usize) -> Result<Vec<ColumnSpan>, Memory>
    ensures { IfOk result (λ made. made.items ≡ map (λ hull. span_at hull.times i) hulls.now) }
{
    let mut made = Vec::with_capacity(alloc, hulls.len())?;
    for hull in hulls {
        made.push(span_of_column(&hull.times, i))?;
    }
    Ok(made)
}

// The spans of the first so many data columns.
fn text_columns(alloc: Global, hulls: &[Hull], columns: usize) -> Result<Vec<Vec<TextSpan>>, Memory>
    ensures { IfOk result (λ made. AreTextColumns hulls.now columns made.items) }
{
    let mut made = Vec::with_capacity(alloc, columns)?;
    for i in 0..columns {
        let column = text_column(alloc, hulls, i)?;
        made.push(column)?;
    }
    Ok(made)
}

// Those of the data column after i.
fn text_column(alloc: Global, hulls: &[Hull], i: usize) -> Result<Vec<TextSpan>, Memory>
    ensures { IfOk result (λ made. made.items
        ≡ map (λ hull. text_span_at hull.texts i) hulls.now) }
{
    let mut made = Vec::with_capacity(alloc, hulls.len())?;
    for hull in hulls {
        made.push(text_span_of_column(&hull.texts, i))?;
    }
    Ok(made)
}

// What stands in the time column after i at a number.
fn time_span(columns: &[Vec<ColumnSpan>], i: usize, number: usize) -> Option<ColumnSpan>
    ensures { IfSome result (StandsAt columns.now i number) }
{
    let column = columns.get(i)?;
    let span = column.get(number)?;
    Some(*span)
}

// What stands in the data column after i at a number.
fn text_span(columns: &[Vec<TextSpan>], i: usize, number: usize) -> Option<TextSpan>
    ensures { IfSome result (StandsAt columns.now i number) }
{
    let column = columns.get(i)?;
    let span = column.get(number)?;
    Some(*span)
}
