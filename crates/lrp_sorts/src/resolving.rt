// The sorts of names, resolved in place: after the check each name alone is a data variable, and each other one has an offset.
ghost use Rattle.std.specs.Prelude.{◌≡◌, ◌∷◌, map, reverse, IfOk, if◌then◌else◌, bytes_eq};
ghost use Rattle.lrp_model.specs.Sorts.{is_data};
ghost use Rattle.lrp_model.specs.Sorting.{kind_sort, is_data_term};
ghost use Rattle.lrp_model.specs.Checked.{resolved_term, resolved, resolved_each};
ghost use Rattle.lrp_model.specs.RawTerms.{resolved_by};
ghost use Rattle.lrp_model.specs.DatabaseMeaning.{column_of};
ghost use Rattle.lrp_model.specs.RawQueries.{raw_form_of, raw_forms_of};
ghost use Rattle.lrp_model.specs.declared.raw.RawTermKind.TheVariants.{Var};
ghost use Rattle.lrp_sorts.specs.Binding.{binders_of};

use lrp_model::{
    Column, Copies, List, Memory, Name, RawColumn, RawFormula, RawKind, RawTerm, RawTermKind,
};
use std::alloc::Global;
use std::mem;

/// The binders around a formula: those of the head, and the quantifiers, of which each stands inside another one.
#[derive(Clone, Copy)]
pub enum Binders<'a> {
    Head {
        columns: &'a [RawColumn],
    },
    Inside {
        binder: &'a RawColumn,
        outer: &'a Binders<'a>,
    },
}

impl<'a> Binders<'a> {
    // Whether the innermost of a name is of a data sort.
    fn is_data(&self, name: &Name) -> bool
        ensures { result ≡ is_data_term (kind_sort (binders_of self.now) (Var name.now)) }
    {
        match self {
            Binders::Head { columns } => is_data_column(columns, name),
            Binders::Inside { binder, outer } => {
                if binder.name == *name {
                    !binder.sort.is_time()
                } else {
                    outer.is_data(name)
                }
            }
        }
    }
}

// Whether the last column of a name is of a data sort.
fn is_data_column(columns: &[RawColumn], name: &Name) -> bool
    ensures { result ≡ is_data_term (kind_sort (reverse columns.now) (Var name.now)) }
{
    let mut is_data = false;
    for column in columns {
        is_data = is_data_beside(column, name, is_data);
    }
    is_data
}

// Whether a name is of a data sort, a further column being the innermost binder.
fn is_data_beside(column: &RawColumn, name: &Name, before: bool) -> bool
    ensures { result ≡ (if bytes_eq column.now.name name.now then is_data column.now.sort else before) }
{
    if column.name == *name {
        !column.sort.is_time()
    } else {
        before
    }
}

// Whether a term that is a name alone is of a data sort.
fn is_data_name(kind: &RawTermKind, around: &Binders<'_>) -> bool
    ensures { resolved_by result kind.now
        ≡ resolved_by (is_data_term (kind_sort (binders_of around.now) kind.now)) kind.now }
{
    match kind {
        RawTermKind::Var { name } => around.is_data(name),
        _ => true,
    }
}

fn resolve_term(term: &mut RawTerm, around: &Binders<'_>)
    ensures { term.new ≡ resolved_term (binders_of around.now) term.old }
{
    let is_data = is_data_name(&term.kind, around);
    if !is_data {
        let kind = mem::replace(&mut term.kind, RawTermKind::Int { value: 0 });
        term.kind = kind.resolved(is_data);
    }
}

fn resolve_terms(alloc: Global, terms: &mut List<RawTerm>, around: &Binders<'_>)
    ensures { terms.new ≡ map (resolved_term (binders_of around.now)) terms.old }
{
    let mut all = mem::replace(terms, List::new(alloc)).into_vec();
    for i in 0..all.len() {
        resolve_term(&mut all[i], around);
    }
    *terms = List::from_vec(all);
}

/// The sorts of the names in a formula, resolved by the binders around it.
#[cycle(resolving)]
pub fn resolve(alloc: Global, f: &mut RawFormula, around: &Binders<'_>)
    ensures { raw_form_of f.new ≡ resolved (raw_form_of f.old) (binders_of around.now) }
{
    match &mut f.kind {
        RawKind::Atom { terms, .. } => resolve_terms(alloc, terms, around),
        RawKind::Compare { left, right, .. } => {
            resolve_term(left, around);
            resolve_term(right, around);
        }
        RawKind::Member { term, .. } => resolve_term(term, around),
        RawKind::Not { of } => resolve(alloc, of, around),
        RawKind::Group { of } => resolve(alloc, of, around),
        RawKind::Ranged { of, .. } => resolve(alloc, of, around),
        RawKind::And { of } => resolve_each(alloc, of, around),
        RawKind::Or { of } => resolve_each(alloc, of, around),
        RawKind::Implies { left, right } => {
            resolve(alloc, left, around);
            resolve(alloc, right, around);
        }
        RawKind::Paired { left, right, .. } => {
            resolve(alloc, left, around);
            resolve(alloc, right, around);
        }
        RawKind::Exists { binder, of } => resolve_inside(alloc, binder, of, around),
        RawKind::Forall { binder, of } => resolve_inside(alloc, binder, of, around),
    }
}

// The same inside one quantifier more.
#[cycle(resolving)]
fn resolve_inside(alloc: Global, binder: &RawColumn, f: &mut RawFormula, outer: &Binders<'_>)
    ensures { raw_form_of f.new
        ≡ resolved (raw_form_of f.old) (binder.now ∷ binders_of outer.now) }
{
    let around = Binders::Inside {
        binder: &*binder,
        outer: &*outer,
    };
    resolve(alloc, f, &around);
}

#[cycle(resolving)]
fn resolve_each(alloc: Global, fs: &mut Vec<RawFormula>, around: &Binders<'_>)
    ensures { raw_forms_of fs.new.items
        ≡ resolved_each (raw_forms_of fs.old.items) (binders_of around.now) }
{
    for i in 0..fs.len() {
        resolve(alloc, &mut fs[i], around);
    }
}

fn plain_column(alloc: Global, column: &RawColumn) -> Result<Column, Memory>
    ensures { IfOk result (λ made. made ≡ column_of column.now) }
{
    Ok(Column {
        name: column.name.copy(alloc)?,
        sort: column.sort.copy(alloc)?,
    })
}

/// The columns of a head without their places.
pub fn plain_columns(alloc: Global, columns: &[RawColumn]) -> Result<List<Column>, Memory>
    ensures { IfOk result (λ made. made ≡ map column_of columns.now) }
{
    let mut made = List::from_vec(Vec::with_capacity(alloc, columns.len())?);
    for column in columns {
        made.push(plain_column(alloc, column)?)?;
    }
    Ok(made)
}
