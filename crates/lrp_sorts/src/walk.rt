// The first fault of a formula and its free names, by one walk over it.
ghost use Rattle.std.specs.Prelude.{◌≡◌, ◌∷◌, ◌++◌, [], List, IfOk, OnOk};
ghost use Rattle.lrp_model.specs.Texts.{Identifier, without};
ghost use Rattle.lrp_model.specs.Faults.{earliest};
ghost use Rattle.lrp_model.specs.RawQueries.{raw_form_of, raw_forms_of};
ghost use Rattle.lrp_model.specs.Sorting.{query_standing, widened, binder_faults, form_faults, forms_faults, free_names, free_names_each};
ghost use Rattle.lrp_model.specs.Sooner.{sooner};
ghost use Rattle.lrp_sorts.specs.Scopes.{binders};
ghost use Rattle.lrp_sorts.specs.Widths.{IsTallied};

use crate::catalog::Catalog;
use crate::finding::{Finding, bind, both, is_narrow_leaf, leaf, unbind, with_width};
use crate::scope::Scope;
use lrp_model::{Memory, RawColumn, RawFormula, RawKind};
use std::alloc::Global;

// What a formula shows within the binders of the scope, all but its own width.
//
// The variables of a formula go up to the formula around it, each once. So a formula takes time by the variables of its
// parts, of which there are few where none is too wide. A function clears its locals when it begins, so each kind of
// formula has one of its own.
#[cycle(walking)]
pub fn inspect<'a>(
    alloc: Global,
    catalog: &Catalog<'_>,
    scope: &mut Scope<'a>,
    f: &'a RawFormula,
) -> Result<Finding<'a>, Memory>
    ensures fault { IfOk result (λ made. made.fault
        ≡ earliest query_standing (form_faults (raw_form_of f.now) catalog.now
        (binders scope.old))) }
    ensures free { IfOk result (λ made. IsTallied scope.old
        (free_names (raw_form_of f.now)) made.free) }
    ensures scope { OnOk result (scope.new ≡ scope.old) }
{
    match &f.kind {
        RawKind::Atom { .. } | RawKind::Compare { .. } | RawKind::Member { .. } => {
            leaf(catalog, scope, Finding::none(alloc), f)
        }
        RawKind::Not { of } => inspect_whole(alloc, catalog, scope, of),
        RawKind::Group { of } => inspect_whole(alloc, catalog, scope, of),
        RawKind::Ranged { of, .. } => inspect_whole(alloc, catalog, scope, of),
        RawKind::Paired { right, .. } => inspect_whole(alloc, catalog, scope, right),
        RawKind::And { of } => inspect_each(alloc, catalog, scope, of),
        RawKind::Or { of } => inspect_each(alloc, catalog, scope, of),
        RawKind::Implies { left, right } => {
            let before = inspect_whole(alloc, catalog, scope, left)?;
            inspect_after(alloc, catalog, scope, before, right)
        }
        RawKind::Exists { binder, of } => inspect_bound(alloc, catalog, scope, binder, of),
        RawKind::Forall { binder, of } => inspect_bound(alloc, catalog, scope, binder, of),
    }
}

// What a formula shows, its own width among it.
#[cycle(walking)]
pub fn inspect_whole<'a>(
    alloc: Global,
    catalog: &Catalog<'_>,
    scope: &mut Scope<'a>,
    f: &'a RawFormula,
) -> Result<Finding<'a>, Memory>
    ensures fault { IfOk result (λ made. made.fault
        ≡ earliest query_standing (widened (binders scope.old) [] (raw_form_of f.now)
        (form_faults (raw_form_of f.now) catalog.now (binders scope.old)))) }
    ensures free { IfOk result (λ made. IsTallied scope.old
        (free_names (raw_form_of f.now)) made.free) }
    ensures scope { OnOk result (scope.new ≡ scope.old) }
{
    let inside = inspect(alloc, catalog, scope, f)?;
    Ok(with_width(f.place, inside))
}

// What a formula shows, its own width among it, together with what was found before it.
#[cycle(walking)]
fn inspect_after<'a>(
    alloc: Global,
    catalog: &Catalog<'_>,
    scope: &mut Scope<'a>,
    before: Finding<'a>,
    f: &'a RawFormula,
) -> Result<Finding<'a>, Memory>
    ensures fault { IfOk result (λ made. made.fault
        ≡ sooner query_standing before.entry.fault
        (earliest query_standing (widened (binders scope.old) [] (raw_form_of f.now)
        (form_faults (raw_form_of f.now) catalog.now (binders scope.old))))) }
    ensures free { IfOk result (λ made. (names : List Identifier)
        → IsTallied scope.old names before.entry.free
        → IsTallied scope.old (names ++ free_names (raw_form_of f.now)) made.free) }
    ensures scope { OnOk result (scope.new ≡ scope.old) }
{
    if is_narrow_leaf(f) {
        return leaf(catalog, scope, before, f);
    }
    let after = inspect_whole(alloc, catalog, scope, f)?;
    both(scope.quantifiers(), before, after)
}

// What a quantifier and its formula show, the width of the formula among it.
#[cycle(walking)]
fn inspect_bound<'a>(
    alloc: Global,
    catalog: &Catalog<'_>,
    scope: &mut Scope<'a>,
    binder: &'a RawColumn,
    f: &'a RawFormula,
) -> Result<Finding<'a>, Memory>
    ensures fault { IfOk result (λ made. made.fault
        ≡ sooner query_standing (earliest query_standing
        (binder_faults catalog.now (binders scope.old) binder.now))
        (earliest query_standing (widened (binder.now ∷ binders scope.old) (binder.now.name ∷ [])
        (raw_form_of f.now) (form_faults (raw_form_of f.now) catalog.now
        (binder.now ∷ binders scope.old))))) }
    ensures free { IfOk result (λ made. IsTallied scope.old
        (without binder.now.name (free_names (raw_form_of f.now))) made.free) }
    ensures scope { OnOk result (scope.new ≡ scope.old) }
{
    let own = bind(catalog, scope, binder)?;
    let inside = inspect(alloc, catalog, scope, f)?;
    unbind(scope, binder, own, f.place, inside)
}

// What the members of an `and` or an `or` show together, their widths among it.
#[cycle(walking)]
fn inspect_each<'a>(
    alloc: Global,
    catalog: &Catalog<'_>,
    scope: &mut Scope<'a>,
    fs: &'a [RawFormula],
) -> Result<Finding<'a>, Memory>
    ensures fault { IfOk result (λ made. made.fault
        ≡ earliest query_standing (forms_faults (raw_forms_of fs.now) catalog.now
        (binders scope.old))) }
    ensures free { IfOk result (λ made. IsTallied scope.old
        (free_names_each (raw_forms_of fs.now)) made.free) }
    ensures scope { OnOk result (scope.new ≡ scope.old) }
{
    let mut found = Finding::none(alloc);
    for f in fs {
        found = inspect_after(alloc, catalog, scope, found, f)?;
    }
    Ok(found)
}
