// Formulas without parts whose variables have their present names.
ghost use Rattle.std.specs.Prelude.{◌≡◌, map, IfOk};
ghost use Rattle.lrp_model.specs.RawQueries.{raw_kind, raw_form_of, raw_atom, raw_compare, raw_member};
ghost use Rattle.lrp_model.specs.declared.tokens.Place.{Place as PlaceOf};
ghost use Rattle.lrp_tense.specs.Expanding.{renamed as renamed_term, renamed_kind as renamed_kind_of};

use crate::scope::OperatorScope;
use crate::written_out::boxed;
use lrp_model::{
    List, Memory, Name, Op, Place, RawFormula, RawKind, RawTerm, RawTermKind, RowPoint,
};
use std::alloc::Global;

fn renamed_kind(
    alloc: Global,
    scope: &OperatorScope<'_>,
    kind: &RawTermKind,
) -> Result<RawTermKind, Memory>
    ensures { IfOk result (λ made. made ≡ renamed_kind_of scope.now.names kind.now) }
{
    match kind {
        RawTermKind::Int { value } => Ok(RawTermKind::Int { value: *value }),
        RawTermKind::Text { text } => {
            let text = text.copy(alloc)?;
            Ok(RawTermKind::Text { text })
        }
        RawTermKind::Var { name } => {
            let name = scope.present(name).copy(alloc)?;
            Ok(RawTermKind::Var { name })
        }
        RawTermKind::Shifted { name, plus } => {
            let name = scope.present(name).copy(alloc)?;
            Ok(RawTermKind::Shifted { name, plus: *plus })
        }
    }
}

fn renamed(alloc: Global, scope: &OperatorScope<'_>, term: &RawTerm) -> Result<RawTerm, Memory>
    ensures { IfOk result (λ made. made ≡ renamed_term scope.now.names term.now) }
{
    let kind = renamed_kind(alloc, scope, &term.kind)?;
    Ok(RawTerm {
        kind,
        place: term.place,
    })
}

fn renamed_each(
    alloc: Global,
    scope: &OperatorScope<'_>,
    terms: &[RawTerm],
) -> Result<List<RawTerm>, Memory>
    ensures { IfOk result (λ made. made ≡ map (renamed_term scope.now.names) terms.now) }
{
    let mut all = List::from_vec(Vec::with_capacity(alloc, terms.len())?);
    for term in terms {
        all.push(renamed(alloc, scope, term)?)?;
    }
    Ok(all)
}

/// An atom, whose relation keeps its name.
pub fn atom(
    alloc: Global,
    scope: &OperatorScope<'_>,
    place: Place,
    relation: &Name,
    terms: &[RawTerm],
) -> Result<Box<RawFormula>, Memory>
    ensures { IfOk result (λ made. raw_form_of made.value
        ≡ raw_atom place relation.now (map (renamed_term scope.now.names) terms.now)) }
{
    let relation = relation.copy(alloc)?;
    let terms = renamed_each(alloc, scope, terms)?;
    boxed(alloc, place, RawKind::Atom { relation, terms })
}

/// What a comparison is, wherever it stands.
pub fn comparison(
    alloc: Global,
    scope: &OperatorScope<'_>,
    left: &RawTerm,
    op: Op,
    right: &RawTerm,
) -> Result<RawKind, Memory>
    ensures { IfOk result (λ made. (place : PlaceOf)
        → raw_kind made place ≡ raw_compare place (renamed_term scope.now.names left.now) op
        (renamed_term scope.now.names right.now)) }
{
    let left = renamed(alloc, scope, left)?;
    let right = renamed(alloc, scope, right)?;
    Ok(RawKind::Compare { left, op, right })
}

/// An `in`.
pub fn membership(
    alloc: Global,
    scope: &OperatorScope<'_>,
    place: Place,
    term: &RawTerm,
    point: RowPoint,
) -> Result<Box<RawFormula>, Memory>
    ensures { IfOk result (λ made. raw_form_of made.value
        ≡ raw_member place (renamed_term scope.now.names term.now) point) }
{
    let term = renamed(alloc, scope, term)?;
    boxed(alloc, place, RawKind::Member { term, point })
}
