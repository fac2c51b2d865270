// What is asked of zones.
ghost use Rattle.std.specs.Prelude.{◌≡◌, ◌<◌, ◌≤◌, ℕ, ℤ, List, None, Some, false, slice_index_or};
ghost use Rattle.lrp_hulls.specs.Ranges.{hull_range_at as range_at};
ghost use Rattle.lrp_tables.specs.declared.pieces.Piece.{Piece};
ghost use Rattle.lrp_hulls.specs.Hulls.{IsHullOf};
ghost use Rattle.lrp_hulls.specs.Queries.{CanBeAskedFor as CanBeAsked, IsAskedFor as IsAsked, IsHullQuery as IsQuery};
ghost use Rattle.lrp_hulls.specs.Spans.{IsInTextSpan};

use crate::hull::{Hull, TextSpan, span_of_column, text_span_of_column};
use crate::range::{ColumnRange, range_of_column};

/// Ranges for the values of columns, and the numbers of texts, where they are known.
#[derive(Clone, Copy)]
pub struct HullQuery {
    pub columns: usize,
    pub times: [ColumnRange; 8],
    pub names: usize,
    pub texts: [Option<u32>; 8],
}

impl HullQuery {
    /// Whether a zone that the hull has may have a tuple that is asked for.
    pub(crate) fn may_meet(&self, hull: &Hull) -> bool
        requires { IsQuery self.now }
        ensures { result ≡ false → (piece : Piece) → IsHullOf piece hull.now
            → CanBeAsked self.now piece → (xs : List ℤ) → IsAsked self.now piece xs → ⊥ }
    {
        for i in 0..self.columns {
            let span = span_of_column(&hull.times, i);
            let range = range_of_column(&self.times, i);
            if !span.may_meet(&range) {
                return false;
            }
        }
        for i in 0..self.names {
            let known = known_text(&self.texts, i);
            let span = text_span_of_column(&hull.texts, i);
            if !may_have(known, span) {
                return false;
            }
        }
        true
    }
}

/// The known number of the text in the column after i.
pub(crate) fn known_text(texts: &[Option<u32>; 8], i: usize) -> Option<u32>
    ensures { result ≡ slice_index_or texts.now i None }
{
    match texts.get(i) {
        Some(known) => *known,
        None => None,
    }
}

/// Whether the number, where one is known, is in the span.
pub(crate) fn may_have(known: Option<u32>, span: TextSpan) -> bool
    ensures { result ≡ false → (n : ℕ) → IsInTextSpan span n
        → ((number : ℕ) → known ≡ Some number → n ≡ number) → ⊥ }
{
    match known {
        Some(number) => span.first <= number && number <= span.last,
        None => true,
    }
}
