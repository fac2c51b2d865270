// What the checker finds in a formula.
ghost use Rattle.std.specs.Prelude.{◌≡◌, ◌∷◌, ◌++◌, List, [], ℕ, flat_map, IfOk, IsTrue, None, OnOk, option_map};
ghost use Rattle.lrp_model.specs.Texts.{Identifier, without};
ghost use Rattle.lrp_model.specs.Faults.{earliest, fault_if};
ghost use Rattle.lrp_model.specs.Sorting.{Binders, query_standing, query_fault, too_many, sort_faults, binder_faults, term_names, term_faults, column_faults};
ghost use Rattle.lrp_model.specs.RawQueries.{raw_atom, raw_compare, raw_member, raw_form_of};
ghost use Rattle.lrp_model.specs.declared.relations.Relation.{Relation as RelationOf};
ghost use Rattle.lrp_model.specs.declared.relations.RowPoint.{RowPoint as PointOf};
ghost use Rattle.lrp_model.specs.declared.tokens.Place.{Place as PlaceOf};
ghost use Rattle.lrp_model.specs.declared.faults.QueryKind.TheVariants.{Wide as wide, Rebound as rebound};
ghost use Rattle.lrp_model.specs.Sooner.{sooner};
ghost use Rattle.lrp_sorts.specs.Scopes.{Around, binders};
ghost use Rattle.lrp_sorts.specs.Terms.{IsSeen};
ghost use Rattle.lrp_sorts.specs.Leaves.{CountsOn, IsLeaf, IsNarrowLeaf, ShowsOn};
ghost use Rattle.lrp_sorts.specs.Widths.{IsTally, IsTallied, added};
ghost use Rattle.lrp_model.specs.Rows.{columns_in};

use crate::catalog::Catalog;
use crate::earliest::{fault_where, sooner_of};
use crate::scope::Scope;
use crate::terms::{Sorted, compare_fault, member_fault, relation_fault, term_sort};
use crate::width::{MOST, Tally};
use lrp_model::{
    Column, Memory, Name, Op, Place, QueryFault, QueryKind, RawColumn, RawFormula, RawKind,
    RawTerm, RawTermKind, Relation,
};
use std::alloc::Global;

/// The first fault in a formula, and the variables that occur free in it.
#[derive(Drop)]
pub struct Finding<'a> {
    pub fault: Option<QueryFault>,
    pub free: Tally<'a>,
}

impl<'a> Finding<'a> {
    // No fault and no variables.
    pub fn none(alloc: Global) -> Self
        ensures fault { result.fault ≡ None }
        ensures free { (bs : Binders) (quantifiers : ℕ) → IsTally bs quantifiers [] result.free }
    {
        Finding {
            fault: None,
            free: Tally::new(alloc),
        }
    }
}

// The name in a term.
fn term_name(term: &RawTerm) -> Option<&Name>
    ensures { added result ≡ term_names term.now }
{
    match &term.kind {
        RawTermKind::Int { .. } | RawTermKind::Text { .. } => None,
        RawTermKind::Var { name } | RawTermKind::Shifted { name, .. } => Some(name),
    }
}

// What two formulas show together, within this many quantifiers.
pub fn both<'a>(
    quantifiers: usize,
    left: Finding<'a>,
    right: Finding<'a>,
) -> Result<Finding<'a>, Memory>
    ensures fault { IfOk result (λ made. made.fault
        ≡ sooner query_standing left.entry.fault right.entry.fault) }
    ensures free { IfOk result (λ made. (bs : Binders) (names others : List Identifier)
        → IsTally bs quantifiers names left.entry.free
        → IsTally bs quantifiers others right.entry.free
        → IsTally bs quantifiers (names ++ others) made.free) }
{
    Ok(Finding {
        fault: sooner_of(left.fault, right.fault),
        free: left.free.and(quantifiers, right.free)?,
    })
}

// What a formula shows, its own width among it.
pub fn with_width<'a>(place: Place, inside: Finding<'a>) -> Finding<'a>
    ensures fault { (bs : Binders) (quantifiers : ℕ) (names : List Identifier)
        → IsTally bs quantifiers names inside.entry.free
        → result.fault ≡ sooner query_standing
        (earliest query_standing (fault_if (too_many bs names)
        (query_fault wide place))) inside.entry.fault }
    ensures free { result.free ≡ inside.entry.free }
{
    let own = fault_where(inside.free.is_wide(), QueryKind::Wide, place);
    Finding {
        fault: sooner_of(own, inside.fault),
        free: inside.free,
    }
}

// The first fault of a binder, whose name is bound around it or not.
pub fn binder_fault(catalog: &Catalog<'_>, bound: bool, binder: &RawColumn) -> Option<QueryFault>
    ensures { result ≡ sooner query_standing
        (earliest query_standing (fault_if bound (query_fault rebound binder.now.place)))
        (earliest query_standing (sort_faults catalog.now binder.now.sort binder.now.sort_place)) }
{
    let own = fault_where(bound, QueryKind::Rebound, binder.place);
    sooner_of(own, catalog.sort_fault(&binder.sort, binder.sort_place))
}

// The first fault of a quantifier's binder, which is the innermost one from then on.
pub fn bind<'a>(
    catalog: &Catalog<'_>,
    scope: &mut Scope<'a>,
    binder: &'a RawColumn,
) -> Result<Option<QueryFault>, Memory>
    ensures fault { IfOk result (λ own. own ≡ earliest query_standing
        (binder_faults catalog.now (binders scope.old) binder.now)) }
    ensures scope { OnOk result (scope.new ≡ record
        scope.old { quantifiers = binder.now ∷ scope.old.quantifiers }) }
{
    let outer = scope.enter(binder)?;
    Ok(binder_fault(catalog, outer.is_some(), binder))
}

// What a quantified formula shows, outside its quantifier again. Its own variable counts as free inside.
pub fn unbind<'a>(
    scope: &mut Scope<'a>,
    binder: &'a RawColumn,
    own: Option<QueryFault>,
    place: Place,
    inside: Finding<'a>,
) -> Result<Finding<'a>, Memory>
    ensures fault { (outer : Around) (names : List Identifier)
        → scope.old ≡ record outer { quantifiers = binder.now ∷ outer.quantifiers }
        → IsTallied scope.old names inside.entry.free
        → IfOk result (λ made. made.fault
        ≡ sooner query_standing own (sooner query_standing
        (earliest query_standing (fault_if (too_many (binders scope.old) (binder.now.name ∷ names))
        (query_fault wide place))) inside.entry.fault)) }
    ensures free { (outer : Around) (names : List Identifier)
        → scope.old ≡ record outer { quantifiers = binder.now ∷ outer.quantifiers }
        → IsTallied scope.old names inside.entry.free
        → IfOk result (λ made. IsTallied outer (without binder.now.name names) made.free) }
    ensures scope { OnOk result ((outer : Around)
        → scope.old ≡ record outer { quantifiers = binder.now ∷ outer.quantifiers }
        → scope.new ≡ outer) }
{
    let mut all = inside.free;
    all.add(scope.quantifiers(), &binder.name, &binder.sort)?;
    let within = with_width(
        place,
        Finding {
            fault: inside.fault,
            free: all,
        },
    );
    scope.leave();
    let mut free = within.free;
    free.leave(&binder.name);
    Ok(Finding {
        fault: sooner_of(own, within.fault),
        free,
    })
}

// The variable in a term of this sort, with those before.
fn add_variable<'a>(
    variables: &mut Tally<'a>,
    quantifiers: usize,
    term: &'a RawTerm,
    sorted: Sorted<'_>,
) -> Result<(), Memory>
    ensures { OnOk result ((bs : Binders) (names : List Identifier)
        → IsSeen bs term.now sorted.entry → IsTally bs quantifiers names variables.old
        → IsTally bs quantifiers (names ++ term_names term.now) variables.new) }
{
    let Some(name) = term_name(term) else {
        return Ok(());
    };
    let Some(sort) = sorted.bound() else {
        return Ok(());
    };
    variables.add(quantifiers, name, sort)
}

// What the terms of an atom show: the first fault of a term, and the first of a term that is not of its column's sort.
struct Shown<'a> {
    fault: Option<QueryFault>,
    misfit: Option<QueryFault>,
    free: Tally<'a>,
}

// The terms of an atom beside the columns of its relation, with the variables before. Each variable is looked up once.
fn terms_shown<'a>(
    scope: &Scope<'_>,
    before: Tally<'a>,
    terms: &'a [RawTerm],
    columns: &[Column],
) -> Result<Shown<'a>, Memory>
    ensures fault { IfOk result (λ made. made.fault
        ≡ earliest query_standing (flat_map (term_faults (binders scope.now)) terms.now)) }
    ensures misfit { IfOk result (λ made. made.misfit
        ≡ earliest query_standing (column_faults (binders scope.now) terms.now columns.now)) }
    ensures free { IfOk result (λ made. CountsOn scope.now before.entry
        (flat_map term_names terms.now) made.free) }
{
    let quantifiers = scope.quantifiers();
    let mut fault = None;
    let mut misfit = None;
    let mut free = before;
    for (i, term) in terms.iter().enumerate() {
        let sorted = term_sort(scope, term);
        fault = sooner_of(fault, sorted.fault(term.place));
        misfit = sooner_of(misfit, sorted.misfit(term.place, columns.get(i)));
        add_variable(&mut free, quantifiers, term, sorted)?;
    }
    Ok(Shown {
        fault,
        misfit,
        free,
    })
}

// The columns of a relation, if there is one.
fn columns_of(relation: Option<&Relation>) -> &[Column]
    ensures { result.now ≡ columns_in (option_map (λ r. r.now) relation.entry) }
{
    match relation {
        Some(relation) => relation.columns.as_slice(),
        None => &[],
    }
}

// A relation's name at its place, and the terms of which the relation is to hold.
#[derive(Clone, Copy)]
struct AtomicFormula<'a> {
    place: Place,
    relation: &'a Name,
    terms: &'a [RawTerm],
}

// What an atom shows, together with what was found before it.
fn atom<'a>(
    catalog: &Catalog<'_>,
    scope: &Scope<'_>,
    before: Finding<'a>,
    formula: AtomicFormula<'a>,
) -> Result<Finding<'a>, Memory>
    ensures { IfOk result (ShowsOn catalog.now scope.now before.entry
        (raw_atom formula.entry.place formula.entry.relation.now formula.entry.terms.now)) }
{
    let AtomicFormula {
        place,
        relation: name,
        terms,
    } = formula;
    let relation = catalog.relation(name);
    let Shown {
        fault,
        misfit,
        free,
    } = terms_shown(scope, before.free, terms, columns_of(relation))?;
    let own = relation_fault(place, terms.len(), relation);
    let inside = sooner_of(fault, sooner_of(own, misfit));
    Ok(Finding {
        fault: sooner_of(before.fault, inside),
        free,
    })
}

// What a comparison shows, together with what was found before it.
fn comparison<'a>(
    scope: &Scope<'_>,
    before: Finding<'a>,
    left: &'a RawTerm,
    op: Op,
    right: &'a RawTerm,
) -> Result<Finding<'a>, Memory>
    ensures { IfOk result (λ made. (db : List RelationOf) (place : PlaceOf)
        → ShowsOn db scope.now before.entry (raw_compare place left.now op right.now) made) }
{
    let one = term_sort(scope, left);
    let other = term_sort(scope, right);
    let quantifiers = scope.quantifiers();
    let mut free = before.free;
    add_variable(&mut free, quantifiers, left, one)?;
    add_variable(&mut free, quantifiers, right, other)?;
    let inside = compare_fault(left, one, op, right, other);
    Ok(Finding {
        fault: sooner_of(before.fault, inside),
        free,
    })
}

// What a term in a point shows, together with what was found before it.
fn membership<'a>(
    scope: &Scope<'_>,
    before: Finding<'a>,
    term: &'a RawTerm,
) -> Result<Finding<'a>, Memory>
    ensures { IfOk result (λ made. (db : List RelationOf) (place : PlaceOf) (point : PointOf)
        → ShowsOn db scope.now before.entry (raw_member place term.now point) made) }
{
    let sorted = term_sort(scope, term);
    let mut free = before.free;
    add_variable(&mut free, scope.quantifiers(), term, sorted)?;
    Ok(Finding {
        fault: sooner_of(before.fault, member_fault(term, sorted)),
        free,
    })
}

// Whether it is a formula without parts that has few enough names not to be too wide.
pub fn is_narrow_leaf(f: &RawFormula) -> bool
    ensures { IsTrue result → IsNarrowLeaf f.now }
{
    match &f.kind {
        RawKind::Atom { terms, .. } => terms.len() <= MOST,
        RawKind::Compare { .. } | RawKind::Member { .. } => true,
        _ => false,
    }
}

// What a formula without parts shows, together with what was found before it.
pub fn leaf<'a>(
    catalog: &Catalog<'_>,
    scope: &Scope<'_>,
    before: Finding<'a>,
    f: &'a RawFormula,
) -> Result<Finding<'a>, Memory>
    requires { IsLeaf f.now.kind }
    ensures { IfOk result (ShowsOn catalog.now scope.now before.entry (raw_form_of f.now)) }
{
    match &f.kind {
        RawKind::Atom { relation, terms } => {
            let formula = AtomicFormula {
                place: f.place,
                relation,
                terms: terms.as_slice(),
            };
            atom(catalog, scope, before, formula)
        }
        RawKind::Compare { left, op, right } => comparison(scope, before, left, *op, right),
        RawKind::Member { term, .. } => membership(scope, before, term),
        _ => unreachable!(),
    }
}
