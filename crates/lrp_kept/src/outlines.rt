// What a row leaves to each variable of an atom, looked at alone: by this most rows that cannot meet are told apart.
ghost use Rattle.std.specs.Prelude.{◌≡◌, ◌<◌, ◌≤◌, ◌^◌, ◌≤ℤ◌, ◌-ℤ◌, ℤ, ℕ, List, length, flat_map, true, pos, IfOk};
ghost use Rattle.lrp_theory.specs.Entries.{node};
ghost use Rattle.lrp_tables.specs.Columns.{times_of_term, texts_of_term};
ghost use Rattle.lrp_tables.specs.Tables.{AreNamesAmong};
ghost use Rattle.lrp_steps.specs.Rows.{CanBeRead};
ghost use Rattle.lrp_zone.specs.Zones.{columns_of, IsMember, IsZone};
ghost use Rattle.lrp_kept.specs.Outlines.{AreFirstKnown, AreNarrowed, IsFull, IsInOutline, IsOutlineFor, IsOutlineOf};
ghost use Rattle.lrp_kept.specs.Spans.{IsAtLeast, IsAtMost, IsInSpan, IsOfPoint};

use crate::spans::{ColumnSpan, OPEN, are_apart_somewhere, differ_somewhere, lowered, raised};
use lrp_model::{Domain, List, Memory, Row, Term};
use lrp_point::Point;
use lrp_steps::{Known, Pattern, Placed, row_pattern};
use lrp_tables::Vars;
use lrp_zone::Zone;
use std::alloc::Global;

/// The texts that are known, by number, and the spans of times, each by the place of its variable.
#[derive(Clone, Copy)]
pub struct Outline {
    pub(crate) texts: [Option<u32>; 8],
    pub(crate) times: [ColumnSpan; 8],
}

impl Outline {
    /// What a row leaves to the variables, the values of which an atom's terms have.
    pub fn of_row(
        alloc: Global,
        row: &Row,
        terms: &List<Term>,
        vars: &Vars,
        domain: &Domain,
    ) -> Result<Outline, Memory>
        requires few_times { length vars.now.times ≤ 8 }
        requires few_texts { length vars.now.texts ≤ 8 }
        requires times { AreNamesAmong (flat_map times_of_term terms.now) vars.now.times }
        requires texts { AreNamesAmong (flat_map texts_of_term terms.now) vars.now.texts }
        requires row { CanBeRead terms.now row.now }
        ensures { IfOk result (IsOutlineFor domain.now vars.now terms.now row.now) }
    {
        match row_pattern(alloc, row, terms, vars, domain)? {
            Some(pattern) => Ok(Outline::of(&pattern, vars.times.len(), vars.texts.len())),
            None => Ok(Outline::open()),
        }
    }

    /// Nothing is known.
    pub fn open() -> Outline
        ensures full { IsFull result }
        ensures open { (xs : ℕ → ℤ) (ns : List ℕ) → IsInOutline result xs ns }
    {
        Outline {
            texts: [None; 8],
            times: [OPEN; 8],
        }
    }

    // What a pattern leaves to so many times and texts.
    fn of(pattern: &Pattern, times: usize, texts: usize) -> Outline
        requires few_times { times ≤ 8 }
        requires few_texts { texts ≤ 8 }
        requires known { length pattern.now.texts ≡ 8 }
        ensures { IsOutlineOf pattern.now times texts result }
    {
        let mut all = [OPEN; 8];
        for placed in pattern.zones.as_slice() {
            narrow(&mut all, placed, times);
        }
        Outline {
            texts: first_known(&pattern.texts, texts),
            times: all,
        }
    }

    /// Whether no tuple is in both, as far as the places of these variables tell it.
    pub fn is_apart(&self, other: &Outline, vars: &Vars) -> bool
        requires own { IsFull self.now }
        requires other { IsFull other.now }
        ensures { result ≡ true → (xs : ℕ → ℤ) (ns : List ℕ) → IsInOutline self.now xs ns
            → IsInOutline other.now xs ns → ⊥ }
    {
        differ_somewhere(&self.texts, &other.texts, places_of(vars.texts.len()))
            || are_apart_somewhere(&self.times, &other.times, places_of(vars.times.len()))
    }
}

// The places that so many variables have in an outline.
fn places_of(count: usize) -> usize
    ensures { result ≤ 8 }
{
    if count < 8 { count } else { 8 }
}

// The first so many texts that are known.
fn first_known(known: &Known, count: usize) -> Known
    requires size { length known.now ≡ 8 }
    requires few { count ≤ 8 }
    ensures { AreFirstKnown known.now count result }
{
    let mut all = [None; 8];
    for i in 0..count {
        all[i] = known[i];
    }
    all
}

// Narrows so many spans by a zone at its places.
fn narrow(times: &mut [ColumnSpan; 8], placed: &Placed, count: usize)
    requires size { length times.old ≡ 8 }
    requires few { count ≤ 8 }
    ensures { AreNarrowed times.old placed.now count times.new }
{
    for i in 0..placed.zone.columns() {
        narrow_at(times, placed, i, count);
    }
}

// Narrows the span at the place of a column of a zone.
fn narrow_at(times: &mut [ColumnSpan; 8], placed: &Placed, i: usize, count: usize)
    requires size { length times.old ≡ 8 }
    requires few { count ≤ 8 }
    requires zone { IsZone placed.now.zone }
    requires column { i < columns_of placed.now.zone }
    ensures { AreNarrowed times.old placed.now count times.new }
{
    let place = placed.places[i];
    if place == 0 || place > count {
        return;
    }
    times[place - 1] = narrowed_by(&times[place - 1], &placed.zone, i + 1);
}

// What a column of a zone leaves of a span.
fn narrowed_by(span: &ColumnSpan, zone: &Zone, i: usize) -> ColumnSpan
    requires low { 0 < i }
    requires high { i ≤ columns_of zone.now }
    ensures { (ys : List ℤ) → IsMember zone.now ys → IsInSpan span.now (node ys i)
        → IsInSpan result (node ys i) }
{
    ColumnSpan {
        least: later(span.least, zone.bound(0, i)),
        most: sooner(span.most, zone.bound(i, 0)),
        point: known(&span.point, zone, i),
    }
}

// The larger of a least integer and the one that a bound on 0 minus it leaves.
fn later(least: Option<i64>, bound: Option<i64>) -> Option<i64>
    ensures { (x : ℤ) → IsAtLeast least x → IsAtMost bound (pos 0 -ℤ x) → IsAtLeast result x }
{
    match negated(bound) {
        Some(further) => raised(least, further),
        None => least,
    }
}

// The number below 0 as a bound is above it, where there is one.
fn negated(bound: Option<i64>) -> Option<i64>
    ensures { (x : ℤ) → IsAtMost bound (pos 0 -ℤ x) → IsAtLeast result x }
{
    match bound {
        Some(most) => most.checked_neg(),
        None => None,
    }
}

// The smaller of two greatest integers.
fn sooner(most: Option<i64>, bound: Option<i64>) -> Option<i64>
    ensures { (x : ℤ) → IsAtMost most x → IsAtMost bound x → IsAtMost result x }
{
    match bound {
        Some(further) => lowered(most, further),
        None => most,
    }
}

// The point that is known, or else that of the column.
fn known(point: &Option<Point>, zone: &Zone, i: usize) -> Option<Point>
    requires low { 0 < i }
    requires high { i ≤ columns_of zone.now }
    ensures { (ys : List ℤ) → IsMember zone.now ys → IsOfPoint point.now (node ys i)
        → IsOfPoint result (node ys i) }
{
    match point {
        Some(point) => Some(*point),
        None => point_of(zone, i),
    }
}

// The point of a column; `None` where it has all integers.
fn point_of(zone: &Zone, i: usize) -> Option<Point>
    requires low { 0 < i }
    requires high { i ≤ columns_of zone.now }
    ensures { (ys : List ℤ) → IsMember zone.now ys → IsOfPoint result (node ys i) }
{
    if zone.period() == 1 {
        return None;
    }
    match Point::new(zone.residue(i), zone.period()) {
        Ok(point) => Some(point),
        Err(_) => None,
    }
}
