// What is known of the integers of one variable.
ghost use Rattle.std.specs.Prelude.{◌≡◌, ◌<◌, ◌≤◌, ◌^◌, ◌≤ℤ◌, true, ℤ, ℕ, List, pos, length, IfSome};
ghost use Rattle.std.specs.Int.{int_rem_euclid};
ghost use Rattle.lrp_point.specs.Points.{AreApart, IsIn};
ghost use Rattle.lrp_steps.specs.Patterns.{AreKnown, IsKnown};
ghost use Rattle.lrp_kept.specs.Spans.{AreInSpans, IsAtLeast, IsAtMost, IsInSpan, IsOfPoint};

use lrp_point::Point;
use lrp_point::numbers::remainder;

/// The least and the greatest integer and a point of which the integers are members, as far as they are known.
#[derive(Clone, Copy)]
pub(crate) struct ColumnSpan {
    pub(crate) least: Option<i64>,
    pub(crate) most: Option<i64>,
    pub(crate) point: Option<Point>,
}

/// Nothing is known.
pub(crate) const OPEN: ColumnSpan = ColumnSpan {
    least: None,
    most: None,
    point: None,
};

impl ColumnSpan {
    /// Whether no integer is in both.
    pub(crate) fn is_apart(&self, other: &ColumnSpan) -> bool
        ensures { result ≡ true → (x : ℤ) → IsInSpan self.now x → IsInSpan other.now x → ⊥ }
    {
        is_below(self.most, other.least)
            || is_below(other.most, self.least)
            || are_apart(&self.point, &other.point)
    }

    /// What is in both spans.
    pub(crate) fn with(&self, other: &ColumnSpan) -> ColumnSpan
        ensures { (x : ℤ) → IsInSpan self.now x → IsInSpan other.now x → IsInSpan result x }
    {
        ColumnSpan {
            least: both_least(self.least, other.least),
            most: both_most(self.most, other.most),
            point: self.point,
        }
    }

    /// The one integer that is in the span, if there is known to be no other.
    pub(crate) fn one_integer(&self) -> Option<i64>
        ensures { IfSome result (λ x. (y : ℤ) → IsInSpan self.now y → y ≡ x) }
    {
        match self.least {
            Some(least) => only_from(least, self.most),
            None => None,
        }
    }

    /// The residue modulo a period of all integers in the span, if it is known.
    pub(crate) fn residue(&self, period: u64) -> Option<u64>
        requires low { 0 < period }
        requires high { period ≤ 2 ^ 62 }
        ensures { IfSome result (λ n. (x : ℤ) → IsInSpan self.now x
            → pos n ≡ int_rem_euclid x (pos period)) }
    {
        match self.one_integer() {
            Some(x) => Some(remainder(x, period)),
            None => residue_of(&self.point, period),
        }
    }

    /// The period of the point; none where there is one integer, and 1 where no point is known.
    pub(crate) fn period(&self) -> Option<u64> {
        if self.one_integer().is_some() {
            return None;
        }
        match &self.point {
            Some(point) => Some(point.period().unsigned_abs()),
            None => Some(1),
        }
    }
}

/// The larger of two least integers.
pub(crate) fn both_least(least: Option<i64>, other: Option<i64>) -> Option<i64>
    ensures { (x : ℤ) → IsAtLeast least x → IsAtLeast other x → IsAtLeast result x }
{
    match other {
        Some(further) => raised(least, further),
        None => least,
    }
}

/// The larger of a least integer, if one is known, and another one.
pub(crate) fn raised(least: Option<i64>, further: i64) -> Option<i64>
    ensures { (x : ℤ) → IsAtLeast least x → further ≤ℤ x → IsAtLeast result x }
{
    match least {
        Some(own) if own > further => Some(own),
        _ => Some(further),
    }
}

/// The smaller of two greatest integers.
pub(crate) fn both_most(most: Option<i64>, other: Option<i64>) -> Option<i64>
    ensures { (x : ℤ) → IsAtMost most x → IsAtMost other x → IsAtMost result x }
{
    match other {
        Some(further) => lowered(most, further),
        None => most,
    }
}

/// The smaller of a greatest integer, if one is known, and another one.
pub(crate) fn lowered(most: Option<i64>, further: i64) -> Option<i64>
    ensures { (x : ℤ) → IsAtMost most x → x ≤ℤ further → IsAtMost result x }
{
    match most {
        Some(own) if own < further => Some(own),
        _ => Some(further),
    }
}

// The least integer, where the greatest is no other.
fn only_from(least: i64, most: Option<i64>) -> Option<i64>
    ensures { IfSome result (λ x. (y : ℤ) → least ≤ℤ y → IsAtMost most y → y ≡ x) }
{
    match most {
        Some(most) => only_within(least, most),
        None => None,
    }
}

fn only_within(least: i64, most: i64) -> Option<i64>
    ensures { IfSome result (λ x. (y : ℤ) → least ≤ℤ y → y ≤ℤ most → y ≡ x) }
{
    if least < most { None } else { Some(least) }
}

// The residue modulo a period of the members of a point, if one is known and they have one.
fn residue_of(point: &Option<Point>, period: u64) -> Option<u64>
    requires low { 0 < period }
    requires high { period ≤ 2 ^ 62 }
    ensures { IfSome result (λ n. (x : ℤ) → IsOfPoint point.now x
        → pos n ≡ int_rem_euclid x (pos period)) }
{
    match point {
        Some(point) => residue_in(point, period),
        None => None,
    }
}

fn residue_in(point: &Point, period: u64) -> Option<u64>
    requires low { 0 < period }
    requires high { period ≤ 2 ^ 62 }
    ensures { IfSome result (λ n. (x : ℤ) → IsIn point.now x
        → pos n ≡ int_rem_euclid x (pos period)) }
{
    if point.period().unsigned_abs() % period != 0 {
        return None;
    }
    Some(remainder(point.offset(), period))
}

/// Whether a greatest integer is below a least one.
pub(crate) fn is_below(most: Option<i64>, least: Option<i64>) -> bool
    ensures { result ≡ true → (x : ℤ) → IsAtMost most x → IsAtLeast least x → ⊥ }
{
    match most {
        Some(most) => is_above(least, most),
        None => false,
    }
}

fn is_above(least: Option<i64>, most: i64) -> bool
    ensures { result ≡ true → (x : ℤ) → x ≤ℤ most → IsAtLeast least x → ⊥ }
{
    match least {
        Some(least) => most < least,
        None => false,
    }
}

// Whether two points are known that have no common member.
fn are_apart(left: &Option<Point>, right: &Option<Point>) -> bool
    ensures { result ≡ true → (x : ℤ) → IsOfPoint left.now x → IsOfPoint right.now x → ⊥ }
{
    match left {
        Some(left) => is_apart_from(left, right),
        None => false,
    }
}

fn is_apart_from(left: &Point, right: &Option<Point>) -> bool
    ensures { result ≡ true → (x : ℤ) → IsIn left.now x → IsOfPoint right.now x → ⊥ }
{
    match right {
        Some(right) => have_nothing_common(left, right),
        None => false,
    }
}

fn have_nothing_common(left: &Point, right: &Point) -> bool
    ensures { result ≡ true → AreApart left.now right.now }
{
    match left.meet(right) {
        Ok(None) => true,
        _ => false,
    }
}

/// Whether an integer at one of the first places is in no span of both.
pub(crate) fn are_apart_somewhere(
    left: &[ColumnSpan; 8],
    right: &[ColumnSpan; 8],
    places: usize,
) -> bool
    requires left { length left.now ≡ 8 }
    requires right { length right.now ≡ 8 }
    requires few { places ≤ 8 }
    ensures { result ≡ true → (xs : ℕ → ℤ) → AreInSpans left.now xs → AreInSpans right.now xs → ⊥ }
{
    for i in 0..places {
        if left[i].is_apart(&right[i]) {
            return true;
        }
    }
    false
}

/// The spans of what is in both spans at each place.
pub(crate) fn in_both(left: &[ColumnSpan; 8], right: &[ColumnSpan; 8]) -> [ColumnSpan; 8]
    requires left { length left.now ≡ 8 }
    requires right { length right.now ≡ 8 }
    ensures size { length result ≡ 8 }
    ensures is { (xs : ℕ → ℤ) → AreInSpans left.now xs → AreInSpans right.now xs
        → AreInSpans result xs }
{
    let mut all = [OPEN; 8];
    for i in 0..8 {
        all[i] = left[i].with(&right[i]);
    }
    all
}

/// Whether two texts are known for one of the first places, and are different ones.
pub(crate) fn differ_somewhere(
    left: &[Option<u32>; 8],
    right: &[Option<u32>; 8],
    places: usize,
) -> bool
    requires left { length left.now ≡ 8 }
    requires right { length right.now ≡ 8 }
    requires few { places ≤ 8 }
    ensures { result ≡ true → (ns : List ℕ) → AreKnown left.now ns → AreKnown right.now ns → ⊥ }
{
    for i in 0..places {
        if differ(left[i], right[i]) {
            return true;
        }
    }
    false
}

// Whether two texts are known and are different ones.
fn differ(left: Option<u32>, right: Option<u32>) -> bool
    ensures { result ≡ true → (n : ℕ) → IsKnown left n → IsKnown right n → ⊥ }
{
    match left {
        Some(left) => is_other(right, left),
        None => false,
    }
}

fn is_other(known: Option<u32>, text: u32) -> bool
    ensures { result ≡ true → IsKnown known text → ⊥ }
{
    match known {
        Some(known) => text != known,
        None => false,
    }
}
