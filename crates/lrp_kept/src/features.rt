// Numbers by which rows are told apart: of the text of a variable, or of the residue of a time.
ghost use Rattle.std.specs.Prelude.{◌≡◌, ◌<◌, ◌≤◌, ◌^◌, ℕ, ℤ, List, pos, slice_index, IfSome};
ghost use Rattle.std.specs.Int.{int_rem_euclid};
ghost use Rattle.lrp_steps.specs.Patterns.{AreKnown};
ghost use Rattle.lrp_kept.specs.Features.{HasFeatureNumber};
ghost use Rattle.lrp_kept.specs.Outlines.{IsFull, IsInOutline};
ghost use Rattle.lrp_kept.specs.Spans.{AreInSpans};

use crate::outlines::Outline;
use lrp_model::LIMIT;

/// What tuples are told apart by, at the place of a variable: its text, or the residue of its time modulo a period.
#[derive(Clone, Copy)]
pub enum Feature {
    Text { place: usize },
    Time { place: usize, period: u64 },
}

impl Outline {
    /// The number that each tuple of the outline has for the feature, if it is known.
    pub fn number(&self, feature: Feature) -> Option<u64>
        requires { IsFull self.now }
        ensures { IfSome result (λ n. (xs : ℕ → ℤ) (ns : List ℕ) → IsInOutline self.now xs ns
            → HasFeatureNumber feature xs ns n) }
    {
        match feature {
            Feature::Text { place } => self.text_at(place),
            Feature::Time { place, period } => self.residue_at(place, period),
        }
    }

    // The number of the text at a place.
    fn text_at(&self, place: usize) -> Option<u64>
        requires { IsFull self.now }
        ensures { IfSome result (λ n. (ns : List ℕ) → AreKnown self.now.texts ns
            → slice_index ns place ≡ n) }
    {
        if place >= 8 {
            return None;
        }
        match self.texts[place] {
            Some(text) => Some(u64::from(text)),
            None => None,
        }
    }

    // The residue modulo a period of the time at a place.
    fn residue_at(&self, place: usize, period: u64) -> Option<u64>
        requires { IsFull self.now }
        ensures { IfSome result (λ n. (xs : ℕ → ℤ) → AreInSpans self.now.times xs
            → pos n ≡ int_rem_euclid (xs place) (pos period)) }
    {
        if place >= 8 || period == 0 || period > LIMIT as u64 {
            return None;
        }
        self.times[place].residue(period)
    }

    /// A period modulo which the time at a place has one residue: none where it is one integer, and 1 where nothing is known.
    pub fn period_at(&self, place: usize) -> Option<u64>
        requires { IsFull self.now }
    {
        if place >= 8 {
            return Some(1);
        }
        self.times[place].period()
    }
}
