// From where to where a time is, as far as an outline and a comparison tell it.
ghost use Rattle.std.specs.Prelude.{◌≡◌, ◌+ℤ◌, ◌≤ℤ◌, true, IfSome, ℕ, ℤ, List};
ghost use Rattle.lrp_kept.specs.Outlines.{IsFull, IsInOutline};
ghost use Rattle.lrp_kept.specs.Passing.{PassesPlaced, placed_value};
ghost use Rattle.lrp_kept.specs.Spans.{AreInSpans, IsAtLeast, IsAtMost};
ghost use Rattle.lrp_kept.specs.TimeWindows.{IsInTimeWindow};

use crate::outlines::Outline;
use crate::passing::{PlacedTerm, PlacedTest, TwoSpans};
use crate::spans::{both_least, both_most, is_below};
use lrp_model::Op;

/// The least and the greatest integer, as far as they are known.
#[derive(Clone, Copy)]
pub struct TimeWindow {
    pub least: Option<i64>,
    pub most: Option<i64>,
}

impl TimeWindow {
    /// What is in both windows.
    pub fn with(&self, other: &TimeWindow) -> TimeWindow
        ensures { (x : ℤ) → IsInTimeWindow self.now x → IsInTimeWindow other.now x
            → IsInTimeWindow result x }
    {
        TimeWindow {
            least: both_least(self.least, other.least),
            most: both_most(self.most, other.most),
        }
    }

    /// How many ends are known.
    pub fn ends(&self) -> usize {
        match (self.least, self.most) {
            (Some(_), Some(_)) => 2,
            (None, None) => 0,
            _ => 1,
        }
    }

    /// Whether no integer is in both windows.
    pub fn is_beside(&self, other: &TimeWindow) -> bool
        ensures { result ≡ true → (x : ℤ) → IsInTimeWindow self.now x → IsInTimeWindow other.now x
            → ⊥ }
    {
        is_below(self.most, other.least) || is_below(other.most, self.least)
    }
}

impl Outline {
    /// From where to where the time at a place is.
    pub fn window(&self, place: usize) -> TimeWindow
        requires { IsFull self.now }
        ensures { (xs : ℕ → ℤ) (ns : List ℕ) → IsInOutline self.now xs ns
            → IsInTimeWindow result (xs place) }
    {
        if place >= 8 {
            return TimeWindow {
                least: None,
                most: None,
            };
        }
        TimeWindow {
            least: self.times[place].least,
            most: self.times[place].most,
        }
    }
}

impl PlacedTest {
    /// Whether the time at a place is compared.
    pub fn is_of(&self, place: usize) -> bool {
        is_at(self.left, place) || is_at(self.right, place)
    }

    /// From where to where the comparison leaves the time at a place, where the times are in an outline.
    pub fn window(&self, all: &Outline, place: usize) -> TimeWindow
        requires { IsFull all.now }
        ensures { (xs : ℕ → ℤ) → AreInSpans all.now.times xs → PassesPlaced self.now xs
            → IsInTimeWindow result (xs place) }
    {
        match self.op {
            Op::Le | Op::Lt => window_between(all, self.left, self.right, place),
            Op::Ge | Op::Gt => window_between(all, self.right, self.left, place),
            Op::Eq => {
                let up = window_between(all, self.left, self.right, place);
                up.with(&window_between(all, self.right, self.left, place))
            }
        }
    }
}

// Whether the variable of a term stands at a place.
fn is_at(term: PlacedTerm, place: usize) -> bool {
    match term {
        PlacedTerm::At { place: own, .. } => own == place,
        PlacedTerm::Int { .. } => false,
    }
}

// From where to where the time at a place is, where one term is at most another one.
fn window_between(all: &Outline, low: PlacedTerm, high: PlacedTerm, place: usize) -> TimeWindow
    requires { IsFull all.now }
    ensures { (xs : ℕ → ℤ) → AreInSpans all.now.times xs
        → placed_value low xs ≤ℤ placed_value high xs → IsInTimeWindow result (xs place) }
{
    let spans = TwoSpans {
        own: &all.times,
        other: &all.times,
    };
    TimeWindow {
        least: least_where(high, place, spans.least_of(low)),
        most: most_where(low, place, spans.greatest_of(high)),
    }
}

// The least time at a place where a term is at least a number.
fn least_where(term: PlacedTerm, place: usize, least: Option<i128>) -> Option<i64>
    ensures { (xs : ℕ → ℤ) → IsAtLeast least (placed_value term xs)
        → IsAtLeast result (xs place) }
{
    match term {
        PlacedTerm::At { place: own, plus } if own == place => less(least?, plus),
        _ => None,
    }
}

// The greatest time at a place where a term is at most a number.
fn most_where(term: PlacedTerm, place: usize, most: Option<i128>) -> Option<i64>
    ensures { (xs : ℕ → ℤ) → IsAtMost most (placed_value term xs)
        → IsAtMost result (xs place) }
{
    match term {
        PlacedTerm::At { place: own, plus } if own == place => less(most?, plus),
        _ => None,
    }
}

// A number less another one, where it is one of 64 bits.
fn less(number: i128, plus: i64) -> Option<i64>
    ensures { IfSome result (λ less. less +ℤ plus ≡ number) }
{
    let less = number.checked_sub(i128::from(plus))?;
    match i64::try_from(less) {
        Ok(less) => Some(less),
        Err(_) => None,
    }
}
