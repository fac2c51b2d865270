// Tests that nothing passes of which the times are in spans.
ghost use Rattle.std.specs.Prelude.{◌≡◌, true, length, IfSome, ℕ, ℤ, List as ListOf, ◌+ℤ◌, ◌≤ℤ◌, ◌<ℤ◌};
ghost use Rattle.lrp_model.specs.Satisfaction.{Assignment, Compares, Passes, time_value};
ghost use Rattle.lrp_kept.specs.Outlines.{IsFull, IsInOutline};
ghost use Rattle.lrp_kept.specs.Passing.{AreTimesIn, PassesPlaced, placed_value};
ghost use Rattle.lrp_kept.specs.Spans.{AreInSpans, IsAtLeast, IsAtMost};

use crate::outlines::Outline;
use crate::spans::{ColumnSpan, both_least, both_most, in_both};
use lrp_model::{List, Name, Op, Test, TimeTerm};
use lrp_tables::place_of;

// The sum of a least integer, if one is known, and a number.
fn least_sum(least: Option<i64>, plus: i64) -> Option<i128>
    ensures { (x : ℤ) → IsAtLeast least x → IsAtLeast result (x +ℤ plus) }
{
    match least {
        Some(least) => Some(i128::from(least) + i128::from(plus)),
        None => None,
    }
}

fn greatest_sum(most: Option<i64>, plus: i64) -> Option<i128>
    ensures { (x : ℤ) → IsAtMost most x → IsAtMost result (x +ℤ plus) }
{
    match most {
        Some(most) => Some(i128::from(most) + i128::from(plus)),
        None => None,
    }
}

fn is_greater(least: i128, most: Option<i128>) -> bool
    ensures { result ≡ true → (x y : ℤ) → least ≤ℤ x → IsAtMost most y → y <ℤ x }
{
    match most {
        Some(most) => most < least,
        None => false,
    }
}

fn is_as_great(least: i128, most: Option<i128>) -> bool
    ensures { result ≡ true → (x y : ℤ) → least ≤ℤ x → IsAtMost most y → y ≤ℤ x }
{
    match most {
        Some(most) => most <= least,
        None => false,
    }
}

impl Outline {
    /// What is in both outlines.
    pub fn with(&self, other: &Outline) -> Outline
        requires own { IsFull self.now }
        requires other { IsFull other.now }
        ensures full { IsFull result }
        ensures is { (xs : ℕ → ℤ) (ns : ListOf ℕ) → IsInOutline self.now xs ns
            → IsInOutline other.now xs ns → IsInOutline result xs ns }
    {
        Outline {
            texts: self.texts,
            times: in_both(&self.times, &other.times),
        }
    }
}

/// A term of times, by the place of its variable.
#[derive(Clone, Copy)]
pub(crate) enum PlacedTerm {
    At { place: usize, plus: i64 },
    Int { value: i64 },
}

/// A comparison of times, by the places of its variables.
#[derive(Clone, Copy)]
pub struct PlacedTest {
    pub(crate) left: PlacedTerm,
    pub(crate) op: Op,
    pub(crate) right: PlacedTerm,
}

impl PlacedTest {
    /// The comparison that a test of these times is, if it is one.
    pub fn of(test: &Test, times: &List<Name>) -> Option<PlacedTest>
        ensures { IfSome result (λ placed. (env : Assignment) (xs : ℕ → ℤ)
            → AreTimesIn env times.now xs → Passes env test.now → PassesPlaced placed xs) }
    {
        match test {
            Test::Compare { left, op, right } => compared(left, *op, right, times),
            Test::Member { .. } => None,
            Test::Equal { .. } => None,
        }
    }

    /// Whether no times that are in both outlines pass it.
    pub fn fails(&self, own: &Outline, other: &Outline) -> bool
        requires own { IsFull own.now }
        requires other { IsFull other.now }
        ensures { result ≡ true → (xs : ℕ → ℤ) → AreInSpans own.now.times xs
            → AreInSpans other.now.times xs → PassesPlaced self.now xs → ⊥ }
    {
        let spans = TwoSpans {
            own: &own.times,
            other: &other.times,
        };
        match self.op {
            Op::Le => spans.are_above(self.left, self.right),
            Op::Lt => spans.are_from(self.left, self.right),
            Op::Ge => spans.are_above(self.right, self.left),
            Op::Gt => spans.are_from(self.right, self.left),
            Op::Eq => {
                spans.are_above(self.left, self.right) || spans.are_above(self.right, self.left)
            }
        }
    }
}

// The comparison of two terms.
fn compared(left: &TimeTerm, op: Op, right: &TimeTerm, times: &List<Name>) -> Option<PlacedTest>
    ensures { IfSome result (λ placed. (env : Assignment) (xs : ℕ → ℤ)
        → AreTimesIn env times.now xs
        → Compares op (time_value env left.now) (time_value env right.now)
        → PassesPlaced placed xs) }
{
    let left = placed(left, times)?;
    let right = placed(right, times)?;
    Some(PlacedTest { left, op, right })
}

// A term whose variable, if it has one, is among the times.
fn placed(term: &TimeTerm, times: &List<Name>) -> Option<PlacedTerm>
    ensures { IfSome result (λ placed. (env : Assignment) (xs : ℕ → ℤ)
        → AreTimesIn env times.now xs → placed_value placed xs ≡ time_value env term.now) }
{
    match term {
        TimeTerm::Var { name, plus } => match place_of(times, name) {
            Some(place) => Some(PlacedTerm::At { place, plus: *plus }),
            None => None,
        },
        TimeTerm::Int { value } => Some(PlacedTerm::Int { value: *value }),
    }
}

/// Spans of which the times are in both at each place.
#[derive(Clone, Copy)]
pub(crate) struct TwoSpans<'a> {
    pub(crate) own: &'a [ColumnSpan; 8],
    pub(crate) other: &'a [ColumnSpan; 8],
}

impl<'a> TwoSpans<'a> {
    // Whether each value of a term is greater than each of another one.
    fn are_above(&self, one: PlacedTerm, other: PlacedTerm) -> bool
        requires own { length self.now.own.now ≡ 8 }
        requires other { length self.now.other.now ≡ 8 }
        ensures { result ≡ true → (xs : ℕ → ℤ) → AreInSpans self.now.own.now xs
            → AreInSpans self.now.other.now xs → placed_value other xs <ℤ placed_value one xs }
    {
        match self.least_of(one) {
            Some(least) => is_greater(least, self.greatest_of(other)),
            None => false,
        }
    }

    // Whether each value of a term is as great as each of another one, or greater.
    fn are_from(&self, one: PlacedTerm, other: PlacedTerm) -> bool
        requires own { length self.now.own.now ≡ 8 }
        requires other { length self.now.other.now ≡ 8 }
        ensures { result ≡ true → (xs : ℕ → ℤ) → AreInSpans self.now.own.now xs
            → AreInSpans self.now.other.now xs → placed_value other xs ≤ℤ placed_value one xs }
    {
        match self.least_of(one) {
            Some(least) => is_as_great(least, self.greatest_of(other)),
            None => false,
        }
    }

    /// The least value that a term can have, if one is known.
    pub(crate) fn least_of(&self, term: PlacedTerm) -> Option<i128>
        requires own { length self.now.own.now ≡ 8 }
        requires other { length self.now.other.now ≡ 8 }
        ensures { (xs : ℕ → ℤ) → AreInSpans self.now.own.now xs → AreInSpans self.now.other.now xs
            → IsAtLeast result (placed_value term xs) }
    {
        match term {
            PlacedTerm::At { place, plus } => self.least_at(place, plus),
            PlacedTerm::Int { value } => Some(i128::from(value)),
        }
    }

    fn least_at(&self, place: usize, plus: i64) -> Option<i128>
        requires own { length self.now.own.now ≡ 8 }
        requires other { length self.now.other.now ≡ 8 }
        ensures { (xs : ℕ → ℤ) → AreInSpans self.now.own.now xs → AreInSpans self.now.other.now xs
            → IsAtLeast result (xs place +ℤ plus) }
    {
        if place >= 8 {
            return None;
        }
        let least = both_least(self.own[place].least, self.other[place].least);
        least_sum(least, plus)
    }

    /// The greatest value that a term can have, if one is known.
    pub(crate) fn greatest_of(&self, term: PlacedTerm) -> Option<i128>
        requires own { length self.now.own.now ≡ 8 }
        requires other { length self.now.other.now ≡ 8 }
        ensures { (xs : ℕ → ℤ) → AreInSpans self.now.own.now xs → AreInSpans self.now.other.now xs
            → IsAtMost result (placed_value term xs) }
    {
        match term {
            PlacedTerm::At { place, plus } => self.greatest_at(place, plus),
            PlacedTerm::Int { value } => Some(i128::from(value)),
        }
    }

    fn greatest_at(&self, place: usize, plus: i64) -> Option<i128>
        requires own { length self.now.own.now ≡ 8 }
        requires other { length self.now.other.now ≡ 8 }
        ensures { (xs : ℕ → ℤ) → AreInSpans self.now.own.now xs → AreInSpans self.now.other.now xs
            → IsAtMost result (xs place +ℤ plus) }
    {
        if place >= 8 {
            return None;
        }
        let most = both_most(self.own[place].most, self.other[place].most);
        greatest_sum(most, plus)
    }
}
