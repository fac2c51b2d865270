// Formulas that are to hold, and formulas whose negations are.
ghost use Rattle.std.specs.Prelude.{◌≡◌};
ghost use Rattle.lrp_model.specs.Formulas.{form_of};
ghost use Rattle.lrp_kept.specs.Asked.{core_of};
ghost use Rattle.lrp_kept.specs.KeptForm.{matrix};
ghost use Rattle.lrp_kept.specs.Signs.{kept_signed};

use lrp_model::{RawFormula, RawKind};

/// A formula that is to hold, or one whose negation is: it stands for the core form of the one or the other.
#[derive(Clone, Copy)]
pub(crate) struct Signed<'a> {
    pub(crate) formula: &'a RawFormula,
    pub(crate) holds: bool,
}

/// What stands after the `exists` with which the core form of a formula, or that of its negation, begins.
pub(crate) fn matrix_of<'a>(formula: &'a RawFormula, holds: bool) -> Signed<'a>
    ensures { core_of result ≡ matrix (kept_signed holds (form_of formula.now)) }
{
    match &formula.kind {
        RawKind::Not { of } => matrix_of(of, !holds),
        RawKind::Group { of } => matrix_of(of, holds),
        RawKind::Ranged { of, .. } => matrix_of(of, holds),
        RawKind::Paired { right, .. } => matrix_of(right, holds),
        RawKind::Exists { of, .. } if holds => matrix_of(of, holds),
        RawKind::Forall { of, .. } if !holds => matrix_of(of, holds),
        _ => Signed { formula, holds },
    }
}
