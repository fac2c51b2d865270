// The data texts of a query, each with its sort.
ghost use Rattle.std.specs.Prelude.{◌≡◌, List, [], ◌∷◌, ◌++◌, drop, true, false, map, slice_get, IfOk, OnOk};
ghost use Rattle.lrp_model.specs.Formulas.{exists, form_of, forms_of};
ghost use Rattle.lrp_model.specs.RawTerms.{data_of, is_data_kind, said_term, said_test};
ghost use Rattle.lrp_model.specs.Rows.{relation_named, columns_in};
ghost use Rattle.lrp_model.specs.Domains.{term_texts, sort_beside, text_beside, test_texts, form_texts, forms_texts};
ghost use Rattle.lrp_model.specs.declared.formulas.DataTerm.TheVariants.{Var as data_name};
ghost use Rattle.lrp_model.specs.declared.formulas.Test.TheVariants.{Equal};
ghost use Rattle.lrp_model.specs.declared.relations.Sort.{Sort as SortOf};
ghost use Rattle.lrp_model.specs.declared.relations.Column.{Column as ColumnOf};
ghost use Rattle.lrp_core.specs.Literals.{AddsTexts, one_text, one_in};

use crate::comparisons::are_data;
use lrp_database::Database;
use lrp_model::{
    Column, Copies, DataText, List, Memory, Name, Op, Query, RawColumn, RawFormula, RawKind,
    RawTerm, RawTermKind, Sort,
};
use std::alloc::Global;

// Where memory comes from, and the database in which the columns of relations are looked up.
#[derive(Clone, Copy)]
struct Lookup<'a> {
    alloc: Global,
    database: &'a Database,
}

// A comparison's terms.
#[derive(Clone, Copy)]
struct Sides<'a> {
    left: &'a RawTerm,
    op: Op,
    right: &'a RawTerm,
}

/// The data texts of a query's body in order, each with its sort: that of its column, or of the variable that it is equal to.
pub fn query_texts(
    alloc: Global,
    query: &Query,
    database: &Database,
) -> Result<Vec<(Sort, DataText)>, Memory>
    ensures { IfOk result (λ made. made.items
        ≡ form_texts (form_of query.now.body) database.now query.now.head.columns) }
{
    let mut binders = query.head.columns.copy(alloc)?.into_vec();
    let mut all = Vec::new(alloc);
    let lookup = Lookup { alloc, database };
    add_formula(lookup, &query.body, &mut binders, &mut all)?;
    Ok(all)
}

// Those of a formula; the innermost binder is the first.
#[cycle(literals)]
fn add_formula(
    lookup: Lookup<'_>,
    f: &RawFormula,
    binders: &mut Vec<Column>,
    all: &mut Vec<(Sort, DataText)>,
) -> Result<(), Memory>
    ensures { OnOk result (AddsTexts (form_texts (form_of f.now) lookup.entry.database.now
        binders.old.items) binders.old.items binders.new.items all.old.items all.new.items) }
{
    match &f.kind {
        RawKind::Atom { relation, terms } => add_atom(lookup, relation, terms.as_slice(), all),
        RawKind::Compare { left, op, right } => {
            let sides = Sides {
                left,
                op: *op,
                right,
            };
            add_comparison(lookup.alloc, sides, binders.as_slice(), all)
        }
        RawKind::Member { .. } => Ok(()),
        RawKind::Group { of } => add_formula(lookup, of, binders, all),
        RawKind::Ranged { of, .. } => add_formula(lookup, of, binders, all),
        RawKind::Paired { right, .. } => add_formula(lookup, right, binders, all),
        RawKind::Not { of } => add_formula(lookup, of, binders, all),
        RawKind::And { of } => add_formulas(lookup, of, binders, all),
        RawKind::Or { of } => add_formulas(lookup, of, binders, all),
        RawKind::Implies { left, right } => {
            add_formula(lookup, left, binders, all)?;
            add_formula(lookup, right, binders, all)
        }
        RawKind::Exists { binder, of } => add_bound(lookup, binder, of, binders, all),
        RawKind::Forall { binder, of } => add_bound(lookup, binder, of, binders, all),
    }
}

#[cycle(literals)]
fn add_formulas(
    lookup: Lookup<'_>,
    fs: &[RawFormula],
    binders: &mut Vec<Column>,
    all: &mut Vec<(Sort, DataText)>,
) -> Result<(), Memory>
    ensures { OnOk result (AddsTexts (forms_texts (forms_of fs.now) lookup.entry.database.now
        binders.old.items) binders.old.items binders.new.items all.old.items all.new.items) }
{
    for f in fs {
        add_formula(lookup, f, binders, all)?;
    }
    Ok(())
}

// Those of a quantifier's formula.
#[cycle(literals)]
fn add_bound(
    lookup: Lookup<'_>,
    binder: &RawColumn,
    of: &RawFormula,
    binders: &mut Vec<Column>,
    all: &mut Vec<(Sort, DataText)>,
) -> Result<(), Memory>
    ensures { OnOk result (AddsTexts
        (form_texts (exists binder.now.name binder.now.sort (form_of of.now))
        lookup.entry.database.now binders.old.items)
        binders.old.items binders.new.items all.old.items all.new.items) }
{
    bind(lookup.alloc, binder, binders)?;
    add_formula(lookup, of, binders, all)?;
    remove_first(binders);
    Ok(())
}

// Puts a variable with its sort before the binders around it.
fn bind(alloc: Global, binder: &RawColumn, binders: &mut Vec<Column>) -> Result<(), Memory>
    ensures { OnOk result (binders.new.items
        ≡ record { name = binder.now.name; sort = binder.now.sort } ∷ binders.old.items) }
{
    let name = binder.name.copy(alloc)?;
    let sort = binder.sort.copy(alloc)?;
    binders.insert(0, Column { name, sort })?;
    Ok(())
}

fn add_atom(
    lookup: Lookup<'_>,
    relation: &Name,
    terms: &[RawTerm],
    all: &mut Vec<(Sort, DataText)>,
) -> Result<(), Memory>
    ensures { OnOk result (all.new.items ≡ all.old.items
        ++ term_texts (columns_in (relation_named lookup.entry.database.now relation.now))
        (map said_term terms.now)) }
{
    if !has_text(terms) {
        return Ok(());
    }
    match lookup.database.relation(relation) {
        Some(found) => add_terms(lookup.alloc, found.columns.as_slice(), terms, all),
        None => Ok(()),
    }
}

// Whether some term is a data text. Without one the relation need not be looked up.
fn has_text(terms: &[RawTerm]) -> bool
    ensures { result ≡ false → (columns : List ColumnOf) → term_texts columns (map said_term terms.now) ≡ [] }
{
    for term in terms {
        if is_text(term) {
            return true;
        }
    }
    false
}

fn is_text(term: &RawTerm) -> bool
    ensures { result ≡ false → (sort : SortOf) → one_text sort (said_term term.now) ≡ [] }
{
    matches!(&term.kind, RawTermKind::Text { .. })
}

fn add_terms(
    alloc: Global,
    columns: &[Column],
    terms: &[RawTerm],
    all: &mut Vec<(Sort, DataText)>,
) -> Result<(), Memory>
    ensures { OnOk result (all.new.items ≡ all.old.items ++ term_texts columns.now (map said_term terms.now)) }
{
    for (i, term) in terms.iter().enumerate() {
        add_at(alloc, columns, i, term, all)?;
    }
    Ok(())
}

// That of a term in the column at a place, if there is one.
fn add_at(
    alloc: Global,
    columns: &[Column],
    i: usize,
    term: &RawTerm,
    all: &mut Vec<(Sort, DataText)>,
) -> Result<(), Memory>
    ensures { OnOk result (all.new.items ≡ all.old.items
        ++ one_in (slice_get columns.now i) (said_term term.now)) }
{
    if i < columns.len() {
        return add_term(alloc, &columns[i].sort, term, all);
    }
    Ok(())
}

fn add_term(
    alloc: Global,
    sort: &Sort,
    term: &RawTerm,
    all: &mut Vec<(Sort, DataText)>,
) -> Result<(), Memory>
    ensures { OnOk result (all.new.items ≡ all.old.items ++ one_text sort.now (said_term term.now)) }
{
    match &term.kind {
        RawTermKind::Text { text } => add(alloc, sort, text, all),
        RawTermKind::Var { .. } => Ok(()),
        RawTermKind::Int { .. } => Ok(()),
        RawTermKind::Shifted { .. } => Ok(()),
    }
}

fn add_comparison(
    alloc: Global,
    sides: Sides<'_>,
    binders: &[Column],
    all: &mut Vec<(Sort, DataText)>,
) -> Result<(), Memory>
    ensures { OnOk result (all.new.items ≡ all.old.items ++ test_texts binders.now
        (said_test sides.entry.left.now sides.entry.op sides.entry.right.now)) }
{
    let Sides { left, op, right } = sides;
    if are_data(left, op, right) {
        return add_both(alloc, left, right, binders, all);
    }
    Ok(())
}

// The texts of both sides of an equality of data terms.
fn add_both(
    alloc: Global,
    left: &RawTerm,
    right: &RawTerm,
    binders: &[Column],
    all: &mut Vec<(Sort, DataText)>,
) -> Result<(), Memory>
    requires left_is_data { is_data_kind left.now.kind ≡ true }
    requires right_is_data { is_data_kind right.now.kind ≡ true }
    ensures { OnOk result (all.new.items ≡ all.old.items ++ test_texts binders.now
        (Equal (data_of left.now.kind) (data_of right.now.kind))) }
{
    add_beside(alloc, right, left, binders, all)?;
    add_beside(alloc, left, right, binders, all)
}

// The text of a side of an equality, by the other side; both are data terms.
fn add_beside(
    alloc: Global,
    other: &RawTerm,
    own: &RawTerm,
    binders: &[Column],
    all: &mut Vec<(Sort, DataText)>,
) -> Result<(), Memory>
    requires { is_data_kind own.now.kind ≡ true }
    ensures { OnOk result (all.new.items ≡ all.old.items
        ++ text_beside binders.now (data_of other.now.kind) (data_of own.now.kind)) }
{
    match &own.kind {
        RawTermKind::Text { text } => {
            let sort = sort_of(alloc, binders, other)?;
            add(alloc, &sort, text, all)
        }
        RawTermKind::Var { .. } => Ok(()),
        RawTermKind::Int { .. } => Ok(()),
        RawTermKind::Shifted { .. } => Ok(()),
    }
}

// The sort of a data term: that of its variable's innermost binder, or `data`.
fn sort_of(alloc: Global, binders: &[Column], term: &RawTerm) -> Result<Sort, Memory>
    ensures { IfOk result (λ sort. sort ≡ sort_beside binders.now (data_of term.now.kind)) }
{
    match &term.kind {
        RawTermKind::Var { name } => sort_of_name(alloc, binders, name),
        RawTermKind::Text { .. } => Ok(Sort::Data),
        RawTermKind::Int { .. } => Ok(Sort::Data),
        RawTermKind::Shifted { .. } => Ok(Sort::Data),
    }
}

fn sort_of_name(alloc: Global, binders: &[Column], name: &Name) -> Result<Sort, Memory>
    ensures { IfOk result (λ sort. sort ≡ sort_beside binders.now (data_name name.now)) }
{
    for column in binders {
        if column.name == *name {
            return column.sort.copy(alloc);
        }
    }
    Ok(Sort::Data)
}

fn remove_first(binders: &mut Vec<Column>)
    ensures { binders.new.items ≡ drop 1 binders.old.items }
{
    if !binders.is_empty() {
        binders.remove(0);
    }
}

fn add(
    alloc: Global,
    sort: &Sort,
    text: &DataText,
    all: &mut Vec<(Sort, DataText)>,
) -> Result<(), Memory>
    ensures { OnOk result (all.new.items ≡ all.old.items ++ (sort.now, text.now) ∷ []) }
{
    let sort = sort.copy(alloc)?;
    let text = text.copy(alloc)?;
    all.push((sort, text))?;
    Ok(())
}
