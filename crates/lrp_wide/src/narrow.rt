// Texts that need no copy: those without operators, and those in which no `*` stands either.
ghost use Rattle.std.specs.Prelude.{◌≡◌, IsTrue, false};
ghost use Rattle.std.specs.List.{AllByRecursion};
ghost use Rattle.lrp_model.specs.RawQueries.{HasNoOperator, HaveNoOperator, raw_form_of, raw_forms_of};
ghost use Rattle.lrp_wide.specs.Narrow.{AreUnstarred, HasNoStar, IsUnstarred};

use crate::names::is_star;
use lrp_model::{RawFormula, RawKind, RawTerm};

/// Whether no operator stands in a formula, and no `*`.
#[cycle(narrow)]
pub fn is_narrow(f: &RawFormula) -> bool
    ensures { IsTrue result → IsUnstarred (raw_form_of f.now) }
{
    match &f.kind {
        RawKind::Atom { terms, .. } => has_no_star(terms.as_slice()),
        RawKind::Compare { .. } => true,
        RawKind::Member { .. } => true,
        RawKind::Not { of } => is_narrow(of),
        RawKind::Group { of } => is_narrow(of),
        RawKind::Exists { of, .. } => is_narrow(of),
        RawKind::Forall { of, .. } => is_narrow(of),
        RawKind::And { of } => are_narrow(of),
        RawKind::Or { of } => are_narrow(of),
        RawKind::Implies { left, right } => is_narrow(left) && is_narrow(right),
        RawKind::Ranged { .. } => false,
        RawKind::Paired { .. } => false,
    }
}

#[cycle(narrow)]
fn are_narrow(fs: &[RawFormula]) -> bool
    ensures { IsTrue result → AreUnstarred (raw_forms_of fs.now) }
{
    for f in fs {
        if !is_narrow(f) {
            return false;
        }
    }
    true
}

/// Whether no operator stands in a formula.
#[cycle(plain)]
pub fn is_plain(f: &RawFormula) -> bool
    ensures { IsTrue result → HasNoOperator (raw_form_of f.now) }
{
    match &f.kind {
        RawKind::Atom { .. } => true,
        RawKind::Compare { .. } => true,
        RawKind::Member { .. } => true,
        RawKind::Not { of } => is_plain(of),
        RawKind::Group { of } => is_plain(of),
        RawKind::Exists { of, .. } => is_plain(of),
        RawKind::Forall { of, .. } => is_plain(of),
        RawKind::And { of } => are_plain(of),
        RawKind::Or { of } => are_plain(of),
        RawKind::Implies { left, right } => is_plain(left) && is_plain(right),
        RawKind::Ranged { .. } => false,
        RawKind::Paired { .. } => false,
    }
}

#[cycle(plain)]
fn are_plain(fs: &[RawFormula]) -> bool
    ensures { IsTrue result → HaveNoOperator (raw_forms_of fs.now) }
{
    for f in fs {
        if !is_plain(f) {
            return false;
        }
    }
    true
}

/// Whether no term is a `*`.
pub fn has_no_star(terms: &[RawTerm]) -> bool
    ensures { IsTrue result → AllByRecursion HasNoStar terms.now }
{
    for term in terms {
        if is_star(term) {
            return false;
        }
    }
    true
}
