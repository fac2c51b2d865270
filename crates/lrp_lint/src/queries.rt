// What is wrong with the names and texts of a query, by a walk over it.
ghost use Rattle.std.specs.Prelude.{◌≡◌, ◌∷◌, ◌++◌, [], length, IfOk, OnOk, option_map};
ghost use Rattle.std.specs.List.{flat_map};
ghost use Rattle.lrp_model.specs.RawQueries.{raw_atom, raw_form_of, raw_forms_of, raw_question_of};
ghost use Rattle.lrp_model.specs.Sorting.{binder_sort};
ghost use Rattle.lrp_model.specs.Rows.{columns_in, rows_in};
ghost use Rattle.lrp_lint.specs.Known.{binders_in, column_if_any};
ghost use Rattle.lrp_lint.specs.Mentions.{compare_mentions, empty_findings, found_at, mention_findings, mention_of, mentions, mentions_each, query_findings, sort_opposite, term_mentions};

use crate::flaws::{QueryFinding, QueryFlaw};
use crate::known::TextCatalog;
use lrp_database::Database;
use lrp_model::{
    Column, Memory, Name, Op, Place, RawColumn, RawFormula, RawKind, RawQuery, RawTerm,
    RawTermKind, Relation, Sort,
};
use std::alloc::Global;

/// What is wrong with what a query names, in order of the text, and once more for each copy of a place.
pub fn findings_of(
    alloc: Global,
    database: &Database,
    query: &RawQuery,
) -> Result<Vec<QueryFinding>, Memory>
    ensures { IfOk result (λ made. made.items
        ≡ query_findings database.now (raw_question_of query.now)) }
{
    let catalog = TextCatalog::of(alloc, database)?;
    let mut binders = Vec::new(alloc);
    let head = query.head.as_slice();
    for column in head {
        binders.push(column)?;
    }
    let mut found = Vec::new(alloc);
    walk(&catalog, &mut binders, &mut found, &query.body)?;
    Ok(found)
}

// What a formula within the binders names.
//
// A function clears its locals when it begins. So what has locals has a function of its own.
#[cycle(walking)]
fn walk<'a>(
    catalog: &TextCatalog<'_>,
    binders: &mut Vec<&'a RawColumn>,
    found: &mut Vec<QueryFinding>,
    f: &'a RawFormula,
) -> Result<(), Memory>
    ensures found { OnOk result (found.new.items
        ≡ found.old.items ++ flat_map (mention_findings catalog.now)
        (mentions (raw_form_of f.now) catalog.now (binders_in binders.old.items))) }
    ensures binders { OnOk result (binders.new.items ≡ binders.old.items) }
{
    match &f.kind {
        RawKind::Atom { relation, terms } => {
            add_atom(catalog, found, f.place, relation, terms.as_slice())
        }
        RawKind::Compare { left, op, right } => {
            add_comparison(catalog, binders.as_slice(), found, left, *op, right)
        }
        RawKind::Member { .. } => Ok(()),
        RawKind::Not { of } => walk(catalog, binders, found, of),
        RawKind::Group { of } => walk(catalog, binders, found, of),
        RawKind::And { of } => walk_each(catalog, binders, found, of),
        RawKind::Or { of } => walk_each(catalog, binders, found, of),
        RawKind::Implies { left, right } => {
            walk(catalog, binders, found, left)?;
            walk(catalog, binders, found, right)
        }
        RawKind::Ranged { of, .. } => walk(catalog, binders, found, of),
        RawKind::Paired { left, right, .. } => {
            walk(catalog, binders, found, left)?;
            walk(catalog, binders, found, right)
        }
        RawKind::Exists { binder, of } => walk_within(catalog, binders, found, binder, of),
        RawKind::Forall { binder, of } => walk_within(catalog, binders, found, binder, of),
    }
}

// What a formula within one binder more names.
#[cycle(walking)]
fn walk_within<'a>(
    catalog: &TextCatalog<'_>,
    binders: &mut Vec<&'a RawColumn>,
    found: &mut Vec<QueryFinding>,
    binder: &'a RawColumn,
    f: &'a RawFormula,
) -> Result<(), Memory>
    ensures found { OnOk result (found.new.items
        ≡ found.old.items ++ flat_map (mention_findings catalog.now)
        (mentions (raw_form_of f.now) catalog.now
        (binder.now ∷ binders_in binders.old.items))) }
    ensures binders { OnOk result (binders.new.items ≡ binders.old.items) }
{
    binders.push(binder)?;
    walk(catalog, binders, found, f)?;
    binders.pop();
    Ok(())
}

// What the members of an `and` or an `or` name.
#[cycle(walking)]
fn walk_each<'a>(
    catalog: &TextCatalog<'_>,
    binders: &mut Vec<&'a RawColumn>,
    found: &mut Vec<QueryFinding>,
    fs: &'a [RawFormula],
) -> Result<(), Memory>
    ensures found { OnOk result (found.new.items
        ≡ found.old.items ++ flat_map (mention_findings catalog.now)
        (mentions_each (raw_forms_of fs.now) catalog.now (binders_in binders.old.items))) }
    ensures binders { OnOk result (binders.new.items ≡ binders.old.items) }
{
    for f in fs {
        walk(catalog, binders, found, f)?;
    }
    Ok(())
}

// What an atom names: its relation, and texts in columns of it.
fn add_atom(
    catalog: &TextCatalog<'_>,
    found: &mut Vec<QueryFinding>,
    place: Place,
    name: &Name,
    terms: &[RawTerm],
) -> Result<(), Memory>
    ensures { OnOk result (found.new.items
        ≡ found.old.items ++ flat_map (mention_findings catalog.now)
        (mentions (raw_atom place name.now terms.now) catalog.now [])) }
{
    let relation = catalog.relation(name);
    add_relation(found, place, relation)?;
    add_terms(catalog, found, columns_of(relation), terms)
}

// The name of a relation, where it has no rows.
fn add_relation(
    found: &mut Vec<QueryFinding>,
    place: Place,
    relation: Option<&Relation>,
) -> Result<(), Memory>
    ensures { OnOk result (found.new.items ≡ found.old.items
        ++ empty_findings place (rows_in (option_map (λ r. r.now) relation.entry))) }
{
    if row_count(relation) == 0 {
        add_finding(found, place, QueryFlaw::EmptyRelation)
    } else {
        Ok(())
    }
}

// How many rows a relation has, if there is one.
fn row_count(relation: Option<&Relation>) -> usize
    ensures { result ≡ length (rows_in (option_map (λ r. r.now) relation.entry)) }
{
    match relation {
        Some(relation) => relation.rows.len(),
        None => 0,
    }
}

// The columns of a relation, if there is one.
fn columns_of(relation: Option<&Relation>) -> &[Column]
    ensures { result.now ≡ columns_in (option_map (λ r. r.now) relation.entry) }
{
    match relation {
        Some(relation) => relation.columns.as_slice(),
        None => &[],
    }
}

// The texts among an atom's terms.
fn add_terms(
    catalog: &TextCatalog<'_>,
    found: &mut Vec<QueryFinding>,
    columns: &[Column],
    terms: &[RawTerm],
) -> Result<(), Memory>
    ensures { OnOk result (found.new.items
        ≡ found.old.items ++ flat_map (mention_findings catalog.now)
        (term_mentions columns.now terms.now)) }
{
    for (i, term) in terms.iter().enumerate() {
        add_term_at(catalog, found, columns, i, term)?;
    }
    Ok(())
}

// A term in the column at a place, if there is one.
fn add_term_at(
    catalog: &TextCatalog<'_>,
    found: &mut Vec<QueryFinding>,
    columns: &[Column],
    i: usize,
    term: &RawTerm,
) -> Result<(), Memory>
    ensures { OnOk result (found.new.items
        ≡ found.old.items ++ flat_map (mention_findings catalog.now)
        (term_mentions (column_if_any columns.now i) (term.now ∷ []))) }
{
    if i < columns.len() {
        return add_term(catalog, found, term, &columns[i].sort);
    }
    Ok(())
}

// The texts on both sides of a comparison.
fn add_comparison(
    catalog: &TextCatalog<'_>,
    binders: &[&RawColumn],
    found: &mut Vec<QueryFinding>,
    left: &RawTerm,
    op: Op,
    right: &RawTerm,
) -> Result<(), Memory>
    ensures { OnOk result (found.new.items
        ≡ found.old.items ++ flat_map (mention_findings catalog.now)
        (compare_mentions (binders_in binders.now) left.now op right.now)) }
{
    match op {
        Op::Eq => {
            add_beside(catalog, binders, found, left, right)?;
            add_beside(catalog, binders, found, right, left)
        }
        Op::Le | Op::Lt | Op::Ge | Op::Gt => Ok(()),
    }
}

// A term in `=`, of the sort that it has beside the other.
fn add_beside(
    catalog: &TextCatalog<'_>,
    binders: &[&RawColumn],
    found: &mut Vec<QueryFinding>,
    term: &RawTerm,
    other: &RawTerm,
) -> Result<(), Memory>
    ensures { OnOk result (found.new.items
        ≡ found.old.items ++ flat_map (mention_findings catalog.now)
        (mention_of term.now.place term.now.kind
        (sort_opposite (binders_in binders.now) other.now.kind))) }
{
    if let RawTermKind::Var { name } = &other.kind {
        if let Some(sort) = sort_of(binders, name) {
            return add_term(catalog, found, term, sort);
        }
    }
    add_term(catalog, found, term, &Sort::Data)
}

// A term at a place of this sort.
fn add_term(
    catalog: &TextCatalog<'_>,
    found: &mut Vec<QueryFinding>,
    term: &RawTerm,
    sort: &Sort,
) -> Result<(), Memory>
    ensures { OnOk result (found.new.items
        ≡ found.old.items ++ flat_map (mention_findings catalog.now)
        (mention_of term.now.place term.now.kind sort.now)) }
{
    let RawTermKind::Text { text } = &term.kind else {
        return Ok(());
    };
    if catalog.is_known(sort, text) {
        return Ok(());
    }
    add_finding(found, term.place, QueryFlaw::UnknownText)
}

// One finding more.
fn add_finding(found: &mut Vec<QueryFinding>, place: Place, flaw: QueryFlaw) -> Result<(), Memory>
    ensures { OnOk result (found.new.items ≡ found.old.items ++ found_at place flaw) }
{
    found.push(QueryFinding {
        line: place.line,
        column: place.column,
        flaw,
    })?;
    Ok(())
}

// The sort of the innermost binder of a name, where it has one.
fn sort_of<'a>(binders: &[&'a RawColumn], name: &Name) -> Option<&'a Sort>
    ensures { option_map (λ s. s.now) result ≡ binder_sort (binders_in binders.now) name.now }
{
    let [outer @ .., binder] = binders else {
        return None;
    };
    if binder.name == *name {
        Some(&binder.sort)
    } else {
        sort_of(outer, name)
    }
}
