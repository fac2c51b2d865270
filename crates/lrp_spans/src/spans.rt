// The numbers of a residue between two ends, counted in turns of the period.
ghost use Rattle.std.specs.Prelude.{◌≡◌, ◌+◌, ◌↔◌, ◌^◌, ◌≤ℤ◌, ◌<ℤ◌, ℕ, ℤ, Some, false, IfNone, IfSome, IsTrue};
ghost use Rattle.lrp_theory.specs.Bounds.{Within};
ghost use Rattle.lrp_theory.specs.Entries.{AtMost};
ghost use Rattle.lrp_matrix.specs.Ranges.{Above};
ghost use Rattle.lrp_spans.specs.Spans.{SpanBeginsBy, SpanComesBefore, EndsBefore, HasTurn, IsSpanFront, IsJoinedSpan, IsLater, IsRest};

/// The numbers `residue + period n` for n from `first` to `last`, both included. `None` is no end.
///
/// Spans are in order of their residues, and then of their first turns, those without one first.
#[derive(Clone, Copy, PartialEq, Eq, PartialOrd, Ord)]
pub struct Span {
    pub residue: u64,
    pub first: Option<i64>,
    pub last: Option<i64>,
}

impl Span {
    /// Whether all numbers of the span come before those of the other one, by residues and then by turns.
    pub fn is_before(&self, other: &Span) -> bool
        ensures { IsTrue result ↔ SpanComesBefore self.now other.now }
    {
        if self.residue != other.residue {
            return self.residue < other.residue;
        }
        match (self.last, other.first) {
            (Some(last), Some(first)) => last < first,
            _ => false,
        }
    }

    /// A span and one of its residue that begins no sooner, and before the first has ended.
    pub fn joined(&self, next: &Span) -> Span
        requires residue { self.now.residue ≡ next.now.residue }
        requires begins { SpanBeginsBy self.now next.now }
        requires meets { EndsBefore self.now next.now → ⊥ }
        ensures { IsJoinedSpan self.now next.now result }
    {
        Span {
            last: later(self.last, next.last),
            ..*self
        }
    }

    /// The turns that come before those of a hole, or `None` where there are none.
    pub fn front(&self, hole: &Span) -> Option<Span>
        requires small { AtMost (2 ^ 62 + 1) hole.now.first }
        requires some { (n : ℤ) × HasTurn self.now self.now.residue n }
        requires meets { EndsBefore self.now hole.now → ⊥ }
        ensures none { IfNone result ((n : ℤ) → Above n self.now.first → Above n hole.now.first) }
        ensures some { IfSome result (λ front. IsSpanFront self.now hole.now front) }
    {
        let first = hole.first?;
        if starts_from(self.first, first) {
            return None;
        }
        Some(Span {
            last: Some(first - 1),
            ..*self
        })
    }

    /// The turns that come after those of a hole, or `None` where there are none.
    pub fn rest(&self, hole: &Span) -> Option<Span>
        requires small { AtMost (2 ^ 62 + 1) hole.now.last }
        requires some { (n : ℤ) × HasTurn self.now self.now.residue n }
        requires meets { EndsBefore hole.now self.now → ⊥ }
        ensures none { IfNone result ((n : ℤ) → Within n self.now.last → Within n hole.now.last) }
        ensures some { IfSome result (λ rest. IsRest self.now hole.now rest) }
    {
        let last = hole.last?;
        if ends_by(self.last, last) {
            return None;
        }
        Some(Span {
            first: Some(last + 1),
            ..*self
        })
    }
}

// The later end of two, or `None` where one of them is.
fn later(one: Option<i64>, other: Option<i64>) -> Option<i64>
    ensures { IsLater one other result }
{
    match (one, other) {
        (Some(one), Some(other)) => Some(one.max(other)),
        _ => None,
    }
}

// Whether what begins there begins at the turn or after it.
fn starts_from(first: Option<i64>, turn: i64) -> bool
    ensures yes { IsTrue result → (n : ℤ) → Above n first → turn ≤ℤ n }
    ensures no { result ≡ false → (own : ℤ) → first ≡ Some own → own <ℤ turn }
{
    match first {
        Some(own) => own >= turn,
        None => false,
    }
}

// Whether what ends there ends at the turn or before it.
fn ends_by(last: Option<i64>, turn: i64) -> bool
    ensures yes { IsTrue result → (n : ℤ) → Within n last → n ≤ℤ turn }
    ensures no { result ≡ false → (own : ℤ) → last ≡ Some own → turn <ℤ own }
{
    match last {
        Some(own) => own <= turn,
        None => false,
    }
}
