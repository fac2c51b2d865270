// Atoms of relations, comparisons and memberships, as their setting says.
ghost use Rattle.std.specs.Prelude.{◌≡◌, None, IfOk};
ghost use Rattle.lrp_model.specs.RawQueries.{raw_compare, raw_form_of, raw_kind, raw_member};
ghost use Rattle.lrp_model.specs.Rows.{columns_in, relation_named};
ghost use Rattle.lrp_model.specs.declared.tokens.Place.{Place as PlaceOf};
ghost use Rattle.lrp_wide.specs.Inlining.{inlined_atom, set_term, star_columns, star_terms};
ghost use Rattle.lrp_wide.specs.Narrow.{AreStarredBy};
ghost use Rattle.lrp_wide.specs.Settings.{setting_of};

use crate::names::{NameText, is_star};
use crate::narrow::has_no_star;
use crate::numbering::plus;
use crate::uses::{UseSetting, added, some_each, variable};
use lrp_model::{
    Column, List, Memory, Name, Op, Place, RawColumn, RawFormula, RawKind, RawTerm, RowPoint,
};
use lrp_sorts::Catalog;
use lrp_tense::boxed;
use std::alloc::Global;

/// An atom as it is met: the place of what it becomes, and the number of its use, or of its first `*`.
#[derive(Clone, Copy)]
pub struct Met<'a> {
    pub place: Place,
    pub name: &'a Name,
    pub terms: &'a [RawTerm],
    pub number: u64,
}

// The terms of an atom, and the variables of the `*` among them.
#[derive(Drop)]
struct Starred {
    terms: List<RawTerm>,
    binders: Vec<RawColumn>,
}

/// What a comparison of two terms becomes, wherever it stands.
pub fn comparison(
    alloc: Global,
    text: &mut NameText,
    setting: &UseSetting<'_>,
    op: Op,
    sides: (&RawTerm, &RawTerm),
) -> Result<RawKind, Memory>
    ensures { IfOk result (λ made. (place : PlaceOf)
        → raw_kind made place ≡ raw_compare place
        (set_term (setting_of setting.now) sides.entry.0.now) op
        (set_term (setting_of setting.now) sides.entry.1.now)) }
{
    let (left, right) = sides;
    let left = setting.term(alloc, text, left)?;
    let right = setting.term(alloc, text, right)?;
    Ok(RawKind::Compare { left, op, right })
}

/// What an `in` becomes.
pub fn membership(
    alloc: Global,
    text: &mut NameText,
    setting: &UseSetting<'_>,
    term: &RawTerm,
    point: RowPoint,
) -> Result<RawKind, Memory>
    ensures { IfOk result (λ made. (place : PlaceOf)
        → raw_kind made place
        ≡ raw_member place (set_term (setting_of setting.now) term.now) point) }
{
    let term = setting.term(alloc, text, term)?;
    Ok(RawKind::Member { term, point })
}

/// An atom of a relation, with an `exists` for each `*`.
pub fn starred_atom(
    alloc: Global,
    text: &mut NameText,
    catalog: &Catalog<'_>,
    setting: &UseSetting<'_>,
    met: Met<'_>,
) -> Result<Box<RawFormula>, Memory>
    ensures { IfOk result (λ made. raw_form_of made.value
        ≡ inlined_atom (setting_of setting.now) met.entry.place met.entry.number met.entry.name.now
        (columns_in (relation_named catalog.now met.entry.name.now)) met.entry.terms.now None) }
{
    let columns = starred_columns(catalog, met);
    let Starred { terms, binders } = starred_terms(alloc, text, setting, met, columns)?;
    let relation = met.name.copy(alloc)?;
    let atom = boxed(alloc, met.place, RawKind::Atom { relation, terms })?;
    some_each(alloc, met.place, binders, atom)
}

// The columns of an atom that has a `*`; of another one they make no difference, and it isn't looked up.
fn starred_columns<'a>(catalog: &'a Catalog<'_>, met: Met<'_>) -> &'a [Column]
    ensures { AreStarredBy met.entry.terms.now
        (columns_in (relation_named catalog.now met.entry.name.now)) result.now }
{
    if has_no_star(met.terms) {
        return &[];
    }
    match catalog.relation(met.name) {
        Some(relation) => relation.columns.as_slice(),
        None => &[],
    }
}

// Terms after the last column stay as they are.
fn starred_terms(
    alloc: Global,
    text: &mut NameText,
    setting: &UseSetting<'_>,
    met: Met<'_>,
    columns: &[Column],
) -> Result<Starred, Memory>
    ensures terms { IfOk result (λ made. made.terms
        ≡ star_terms (setting_of setting.now) met.entry.place met.entry.number columns.now
        met.entry.terms.now) }
    ensures binders { IfOk result (λ made. made.binders.items
        ≡ star_columns met.entry.place met.entry.number columns.now met.entry.terms.now) }
{
    let mut all = List::from_vec(Vec::with_capacity(alloc, met.terms.len())?);
    let mut binders = Vec::new(alloc);
    let mut next = met.number;
    for i in 0..met.terms.len() {
        let term = &met.terms[i];
        if i < columns.len() && is_star(term) {
            let name = text.star(alloc, next)?;
            next = plus(next, 1)?;
            binders.push(added(alloc, met.place, name.copy(alloc)?, &columns[i].sort)?)?;
            all.push(variable(met.place, name))?;
        } else {
            all.push(setting.term(alloc, text, term)?)?;
        }
    }
    Ok(Starred {
        terms: all,
        binders,
    })
}
