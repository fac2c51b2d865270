// Formulas, put together of their parts as they are read.
ghost use Rattle.std.specs.Prelude.{◌≡◌, ℕ, map, IfOk};
ghost use Rattle.lrp_model.specs.declared.written.Integer.{Integer};
ghost use Rattle.lrp_model.specs.RawQueries.{raw_form_of, raw_ranged, raw_paired};
ghost use Rattle.lrp_query.specs.Grammars.{meant, opened_operator, quantified_by};
ghost use Rattle.lrp_query.specs.Rules.{point_of, each_bound};

use crate::words::Opening;
use lrp_model::{
    List, Memory, Name, Op, Paired, Place, Ranged, RawColumn, RawFormula, RawKind, RawTerm,
    RowPoint,
};
use std::alloc::Global;

/// An atom.
pub fn atom(place: Place, relation: Name, terms: List<RawTerm>) -> RawFormula
    ensures { raw_form_of result ≡ meant.formulas.atom_of place relation terms }
{
    RawFormula {
        kind: RawKind::Atom { relation, terms },
        place,
    }
}

/// Two terms compared, at the place of the left one.
pub fn comparison(left: RawTerm, op: Op, right: RawTerm) -> RawFormula
    ensures { raw_form_of result ≡ meant.formulas.comparison left op right }
{
    let place = left.place;
    RawFormula {
        kind: RawKind::Compare { left, op, right },
        place,
    }
}

/// Two terms that differ: a comparison that is denied, both at the place of the left one.
pub fn difference(alloc: Global, left: RawTerm, right: RawTerm) -> Result<RawFormula, Memory>
    ensures { IfOk result (λ made. raw_form_of made ≡ meant.formulas.difference left right) }
{
    let place = left.place;
    denied(alloc, place, comparison(left, Op::Eq, right))
}

/// The same formula at another place.
pub fn moved(place: Place, of: RawFormula) -> RawFormula
    ensures { raw_form_of result ≡ meant.formulas.at_place place (raw_form_of of) }
{
    let (kind, _) = of.into_parts();
    RawFormula { kind, place }
}

/// An `in`, at the place of its term.
pub fn membership(term: RawTerm, point: RowPoint) -> RawFormula
    ensures { (i : Integer) (k : ℕ) → point ≡ point_of i k
        → raw_form_of result ≡ meant.formulas.membership term i k }
{
    let place = term.place;
    RawFormula {
        kind: RawKind::Member { term, point },
        place,
    }
}

/// What `not` denies.
pub fn denied(alloc: Global, place: Place, of: RawFormula) -> Result<RawFormula, Memory>
    ensures { IfOk result (λ made. raw_form_of made
        ≡ meant.formulas.negation place (raw_form_of of)) }
{
    let of = Box::new(alloc, of)?;
    Ok(RawFormula {
        kind: RawKind::Not { of },
        place,
    })
}

/// An implication.
pub fn implied(
    alloc: Global,
    place: Place,
    left: RawFormula,
    right: RawFormula,
) -> Result<RawFormula, Memory>
    ensures { IfOk result (λ made. raw_form_of made
        ≡ meant.formulas.implication place (raw_form_of left) (raw_form_of right)) }
{
    let left = Box::new(alloc, left)?;
    let right = Box::new(alloc, right)?;
    Ok(RawFormula {
        kind: RawKind::Implies { left, right },
        place,
    })
}

/// A formula alone in parentheses.
pub fn grouped(alloc: Global, place: Place, of: RawFormula) -> Result<RawFormula, Memory>
    ensures { IfOk result (λ made. raw_form_of made
        ≡ meant.formulas.parenthesis place (raw_form_of of)) }
{
    let of = Box::new(alloc, of)?;
    Ok(RawFormula {
        kind: RawKind::Group { of },
        place,
    })
}

/// An `exists`.
pub fn some(
    alloc: Global,
    place: Place,
    binder: RawColumn,
    of: RawFormula,
) -> Result<RawFormula, Memory>
    ensures { IfOk result (λ made. raw_form_of made
        ≡ meant.formulas.existential place binder (raw_form_of of)) }
{
    let of = Box::new(alloc, of)?;
    Ok(RawFormula {
        kind: RawKind::Exists { binder, of },
        place,
    })
}

/// A `forall`.
pub fn every(
    alloc: Global,
    place: Place,
    binder: RawColumn,
    of: RawFormula,
) -> Result<RawFormula, Memory>
    ensures { IfOk result (λ made. raw_form_of made
        ≡ meant.formulas.universal place binder (raw_form_of of)) }
{
    let of = Box::new(alloc, of)?;
    Ok(RawFormula {
        kind: RawKind::Forall { binder, of },
        place,
    })
}

/// Which quantifier.
#[derive(Clone, Copy)]
pub enum Quantifier {
    Existential,
    Universal,
}

// A formula under one quantifier.
fn bound_once(
    alloc: Global,
    place: Place,
    quantifier: Quantifier,
    binder: RawColumn,
    of: RawFormula,
) -> Result<RawFormula, Memory>
    ensures { IfOk result (λ made. raw_form_of made
        ≡ quantified_by quantifier place binder (raw_form_of of)) }
{
    match quantifier {
        Quantifier::Existential => some(alloc, place, binder, of),
        Quantifier::Universal => every(alloc, place, binder, of),
    }
}

/// A formula under quantifiers of these columns, the first outermost, all at one place.
pub fn bound(
    alloc: Global,
    place: Place,
    quantifier: Quantifier,
    binders: List<RawColumn>,
    of: RawFormula,
) -> Result<RawFormula, Memory>
    ensures { IfOk result (λ made. raw_form_of made
        ≡ each_bound (quantified_by quantifier) place binders (raw_form_of of)) }
{
    let mut left = binders.into_vec();
    let mut made = of;
    while let Some(binder) = left.pop() {
        made = bound_once(alloc, place, quantifier, binder, made)?;
    }
    Ok(made)
}

/// An `and` of these members.
pub fn conjunction(place: Place, of: Vec<RawFormula>) -> RawFormula
    ensures { raw_form_of result ≡ meant.formulas.conjunction place (map raw_form_of of.items) }
{
    RawFormula {
        kind: RawKind::And { of },
        place,
    }
}

/// An `or` of these members.
pub fn disjunction(place: Place, of: Vec<RawFormula>) -> RawFormula
    ensures { raw_form_of result ≡ meant.formulas.disjunction place (map raw_form_of of.items) }
{
    RawFormula {
        kind: RawKind::Or { of },
        place,
    }
}

/// An operator with an interval.
pub fn ranged(
    alloc: Global,
    word: Ranged,
    opening: Opening,
    ends: (i64, i64),
    of: RawFormula,
) -> Result<RawFormula, Memory>
    ensures { IfOk result (λ made. raw_form_of made
        ≡ raw_ranged word (opened_operator opening) ends.0 ends.1 (raw_form_of of)) }
{
    let of = Box::new(alloc, of)?;
    let (from, to) = ends;
    let Opening {
        place,
        name,
        name_place,
    } = opening;
    Ok(RawFormula {
        kind: RawKind::Ranged {
            word,
            name,
            name_place,
            from,
            to,
            of,
        },
        place,
    })
}

/// An operator over two formulas.
pub fn paired(
    alloc: Global,
    word: Paired,
    opening: Opening,
    left: RawFormula,
    right: RawFormula,
) -> Result<RawFormula, Memory>
    ensures { IfOk result (λ made. raw_form_of made
        ≡ raw_paired word (opened_operator opening) (raw_form_of left) (raw_form_of right)) }
{
    let left = Box::new(alloc, left)?;
    let right = Box::new(alloc, right)?;
    let Opening {
        place,
        name,
        name_place,
    } = opening;
    Ok(RawFormula {
        kind: RawKind::Paired {
            word,
            name,
            name_place,
            left,
            right,
        },
        place,
    })
}
