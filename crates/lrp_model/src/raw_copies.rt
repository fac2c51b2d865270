// Copies of raw formulas and queries: the same formula with the same places, elsewhere in memory.
ghost use Rattle.std.specs.Prelude.{◌≡◌, IfOk};
ghost use Rattle.lrp_model.specs.RawQueries.{raw_form_of, raw_forms_of, raw_question_of, raw_atom, raw_compare, raw_member, raw_and, raw_exists, raw_forall, raw_group, raw_implies, raw_not, raw_or, raw_ranged, raw_paired, operator_at};

use crate::{
    Copies, List, Memory, Name, Op, Paired, Place, Ranged, RawColumn, RawFormula, RawKind,
    RawQuery, RawTerm, RowPoint,
};
use std::alloc::Global;

impl RawQuery {
    /// The same query, elsewhere in memory.
    pub fn copy(&self, alloc: Global) -> Result<RawQuery, Memory>
        ensures { IfOk result (λ made. raw_question_of made ≡ raw_question_of self.now) }
    {
        Ok(RawQuery {
            head: self.head.copy(alloc)?,
            body: copy_raw(alloc, &self.body)?,
        })
    }
}

impl RawFormula {
    /// The same formula, elsewhere in memory.
    pub fn copy(&self, alloc: Global) -> Result<RawFormula, Memory>
        ensures { IfOk result (λ made. raw_form_of made ≡ raw_form_of self.now) }
    {
        copy_raw(alloc, self)
    }
}

// An operator with an interval, without its formula.
#[derive(Clone, Copy)]
struct Range<'a> {
    place: Place,
    word: Ranged,
    name: &'a Name,
    name_place: Place,
    from: i64,
    to: i64,
}

// An operator over two formulas, without them.
#[derive(Clone, Copy)]
struct Pair<'a> {
    place: Place,
    word: Paired,
    name: &'a Name,
    name_place: Place,
}

// A match with all kinds would have an exit, and so a drop, for each part of each kind: a kind has a function of its own.
#[cycle(raw_copying)]
fn copy_raw(alloc: Global, f: &RawFormula) -> Result<RawFormula, Memory>
    ensures { IfOk result (λ made. raw_form_of made ≡ raw_form_of f.now) }
{
    let place = f.place;
    match &f.kind {
        RawKind::Atom { relation, terms } => copy_atom(alloc, place, relation, terms),
        RawKind::Compare { left, op, right } => copy_comparison(alloc, place, left, *op, right),
        RawKind::Member { term, point } => copy_member(alloc, place, term, *point),
        RawKind::Not { of } => copy_negation(alloc, place, of),
        RawKind::And { of } => copy_conjunction(alloc, place, of),
        RawKind::Or { of } => copy_disjunction(alloc, place, of),
        RawKind::Implies { left, right } => {
            let left = copy_raw(alloc, left)?;
            copy_implication(alloc, place, right, left)
        }
        RawKind::Group { of } => copy_group(alloc, place, of),
        RawKind::Exists { binder, of } => copy_existential(alloc, place, binder, of),
        RawKind::Forall { binder, of } => copy_universal(alloc, place, binder, of),
        RawKind::Ranged {
            word,
            name,
            name_place,
            from,
            to,
            of,
        } => {
            let range = Range {
                place,
                word: *word,
                name,
                name_place: *name_place,
                from: *from,
                to: *to,
            };
            copy_ranged(alloc, range, of)
        }
        RawKind::Paired {
            word,
            name,
            name_place,
            left,
            right,
        } => {
            let pair = Pair {
                place,
                word: *word,
                name,
                name_place: *name_place,
            };
            let left = copy_raw(alloc, left)?;
            copy_paired(alloc, pair, right, left)
        }
    }
}

fn copy_atom(
    alloc: Global,
    place: Place,
    relation: &Name,
    terms: &List<RawTerm>,
) -> Result<RawFormula, Memory>
    ensures { IfOk result (λ made. raw_form_of made ≡ raw_atom place relation.now terms.now) }
{
    let relation = relation.copy(alloc)?;
    let terms = terms.copy(alloc)?;
    Ok(RawFormula {
        kind: RawKind::Atom { relation, terms },
        place,
    })
}

fn copy_comparison(
    alloc: Global,
    place: Place,
    left: &RawTerm,
    op: Op,
    right: &RawTerm,
) -> Result<RawFormula, Memory>
    ensures { IfOk result (λ made. raw_form_of made ≡ raw_compare place left.now op right.now) }
{
    let left = left.copy(alloc)?;
    let right = right.copy(alloc)?;
    Ok(RawFormula {
        kind: RawKind::Compare { left, op, right },
        place,
    })
}

fn copy_member(
    alloc: Global,
    place: Place,
    term: &RawTerm,
    point: RowPoint,
) -> Result<RawFormula, Memory>
    ensures { IfOk result (λ made. raw_form_of made ≡ raw_member place term.now point) }
{
    let term = term.copy(alloc)?;
    Ok(RawFormula {
        kind: RawKind::Member { term, point },
        place,
    })
}

#[cycle(raw_copying)]
fn copy_negation(alloc: Global, place: Place, f: &RawFormula) -> Result<RawFormula, Memory>
    ensures { IfOk result (λ made. raw_form_of made ≡ raw_not place (raw_form_of f.now)) }
{
    let f = copy_raw(alloc, f)?;
    negated(alloc, place, f)
}

#[cycle(raw_copying)]
fn copy_conjunction(alloc: Global, place: Place, fs: &[RawFormula]) -> Result<RawFormula, Memory>
    ensures { IfOk result (λ made. raw_form_of made ≡ raw_and place (raw_forms_of fs.now)) }
{
    let of = copy_each_raw(alloc, fs)?;
    Ok(RawFormula {
        kind: RawKind::And { of },
        place,
    })
}

#[cycle(raw_copying)]
fn copy_disjunction(alloc: Global, place: Place, fs: &[RawFormula]) -> Result<RawFormula, Memory>
    ensures { IfOk result (λ made. raw_form_of made ≡ raw_or place (raw_forms_of fs.now)) }
{
    let of = copy_each_raw(alloc, fs)?;
    Ok(RawFormula {
        kind: RawKind::Or { of },
        place,
    })
}

#[cycle(raw_copying)]
fn copy_implication(
    alloc: Global,
    place: Place,
    f: &RawFormula,
    left: RawFormula,
) -> Result<RawFormula, Memory>
    ensures { IfOk result (λ made. raw_form_of made
        ≡ raw_implies place (raw_form_of left) (raw_form_of f.now)) }
{
    let right = copy_raw(alloc, f)?;
    implied(alloc, place, left, right)
}

#[cycle(raw_copying)]
fn copy_group(alloc: Global, place: Place, f: &RawFormula) -> Result<RawFormula, Memory>
    ensures { IfOk result (λ made. raw_form_of made ≡ raw_group place (raw_form_of f.now)) }
{
    let f = copy_raw(alloc, f)?;
    grouped(alloc, place, f)
}

#[cycle(raw_copying)]
fn copy_existential(
    alloc: Global,
    place: Place,
    binder: &RawColumn,
    f: &RawFormula,
) -> Result<RawFormula, Memory>
    ensures { IfOk result (λ made.
        raw_form_of made ≡ raw_exists place binder.now (raw_form_of f.now)) }
{
    let f = copy_raw(alloc, f)?;
    some(alloc, place, binder, f)
}

#[cycle(raw_copying)]
fn copy_universal(
    alloc: Global,
    place: Place,
    binder: &RawColumn,
    f: &RawFormula,
) -> Result<RawFormula, Memory>
    ensures { IfOk result (λ made.
        raw_form_of made ≡ raw_forall place binder.now (raw_form_of f.now)) }
{
    let f = copy_raw(alloc, f)?;
    every(alloc, place, binder, f)
}

#[cycle(raw_copying)]
fn copy_ranged(alloc: Global, range: Range<'_>, f: &RawFormula) -> Result<RawFormula, Memory>
    ensures { IfOk result (λ made. raw_form_of made ≡ raw_ranged range.entry.word
        (operator_at range.entry.place range.entry.name.now range.entry.name_place)
        range.entry.from range.entry.to
        (raw_form_of f.now)) }
{
    let f = copy_raw(alloc, f)?;
    within(alloc, range, f)
}

#[cycle(raw_copying)]
fn copy_paired(
    alloc: Global,
    pair: Pair<'_>,
    f: &RawFormula,
    left: RawFormula,
) -> Result<RawFormula, Memory>
    ensures { IfOk result (λ made. raw_form_of made ≡ raw_paired pair.entry.word
        (operator_at pair.entry.place pair.entry.name.now pair.entry.name_place)
        (raw_form_of left) (raw_form_of f.now)) }
{
    let right = copy_raw(alloc, f)?;
    paired(alloc, pair, left, right)
}

#[cycle(raw_copying)]
fn copy_each_raw(alloc: Global, fs: &[RawFormula]) -> Result<Vec<RawFormula>, Memory>
    ensures { IfOk result (λ made. raw_forms_of made.items ≡ raw_forms_of fs.now) }
{
    let mut all = Vec::new(alloc);
    for f in fs {
        let g = copy_raw(alloc, f)?;
        all.push(g)?;
    }
    Ok(all)
}

fn negated(alloc: Global, place: Place, f: RawFormula) -> Result<RawFormula, Memory>
    ensures { IfOk result (λ g. raw_form_of g ≡ raw_not place (raw_form_of f)) }
{
    let of = Box::new(alloc, f)?;
    Ok(RawFormula {
        kind: RawKind::Not { of },
        place,
    })
}

fn implied(alloc: Global, place: Place, f: RawFormula, g: RawFormula) -> Result<RawFormula, Memory>
    ensures { IfOk result (λ h. raw_form_of h ≡ raw_implies place (raw_form_of f) (raw_form_of g)) }
{
    let left = Box::new(alloc, f)?;
    let right = Box::new(alloc, g)?;
    Ok(RawFormula {
        kind: RawKind::Implies { left, right },
        place,
    })
}

fn grouped(alloc: Global, place: Place, f: RawFormula) -> Result<RawFormula, Memory>
    ensures { IfOk result (λ g. raw_form_of g ≡ raw_group place (raw_form_of f)) }
{
    let of = Box::new(alloc, f)?;
    Ok(RawFormula {
        kind: RawKind::Group { of },
        place,
    })
}

fn some(
    alloc: Global,
    place: Place,
    binder: &RawColumn,
    f: RawFormula,
) -> Result<RawFormula, Memory>
    ensures { IfOk result (λ g. raw_form_of g ≡ raw_exists place binder.now (raw_form_of f)) }
{
    let of = Box::new(alloc, f)?;
    let binder = binder.copy(alloc)?;
    Ok(RawFormula {
        kind: RawKind::Exists { binder, of },
        place,
    })
}

fn every(
    alloc: Global,
    place: Place,
    binder: &RawColumn,
    f: RawFormula,
) -> Result<RawFormula, Memory>
    ensures { IfOk result (λ g. raw_form_of g ≡ raw_forall place binder.now (raw_form_of f)) }
{
    let of = Box::new(alloc, f)?;
    let binder = binder.copy(alloc)?;
    Ok(RawFormula {
        kind: RawKind::Forall { binder, of },
        place,
    })
}

fn within(alloc: Global, range: Range<'_>, f: RawFormula) -> Result<RawFormula, Memory>
    ensures { IfOk result (λ g. raw_form_of g ≡ raw_ranged range.entry.word
        (operator_at range.entry.place range.entry.name.now range.entry.name_place)
        range.entry.from range.entry.to
        (raw_form_of f)) }
{
    let of = Box::new(alloc, f)?;
    let name = range.name.copy(alloc)?;
    Ok(RawFormula {
        kind: RawKind::Ranged {
            word: range.word,
            name,
            name_place: range.name_place,
            from: range.from,
            to: range.to,
            of,
        },
        place: range.place,
    })
}

fn paired(alloc: Global, pair: Pair<'_>, f: RawFormula, g: RawFormula) -> Result<RawFormula, Memory>
    ensures { IfOk result (λ h. raw_form_of h ≡ raw_paired pair.entry.word
        (operator_at pair.entry.place pair.entry.name.now pair.entry.name_place) (raw_form_of f) (raw_form_of g)) }
{
    let left = Box::new(alloc, f)?;
    let right = Box::new(alloc, g)?;
    let name = pair.name.copy(alloc)?;
    Ok(RawFormula {
        kind: RawKind::Paired {
            word: pair.word,
            name,
            name_place: pair.name_place,
            left,
            right,
        },
        place: pair.place,
    })
}
