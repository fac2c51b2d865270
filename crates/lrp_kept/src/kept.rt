// Which queries are in kept form. No core form is made: a formula is read with its sign.
ghost use Rattle.std.specs.Prelude.{◌≡◌, true};
ghost use Rattle.std.specs.List.{list_all};
ghost use Rattle.lrp_model.specs.Core.{conjuncts, disjuncts};
ghost use Rattle.lrp_model.specs.Formulas.{question_of, form_of};
ghost use Rattle.lrp_model.specs.RawTerms.{time_of, data_of, said_test};
ghost use Rattle.lrp_model.specs.Variables.{head_variables, variables_of_data, variables_of_test, variables_of_time};
ghost use Rattle.lrp_kept.specs.Asked.{conjuncts_of, tests_in_atoms};
ghost use Rattle.lrp_kept.specs.KeptForm.{all_occur, all_pass, bound_variables, is_conjunctive as is_conjunctive_form, is_disjunct as is_disjunct_form, is_kept as is_kept_query};
ghost use Rattle.lrp_kept.specs.Signs.{kept_signed};

use crate::looking::{Sought, has_element, is_comparison, occurs};
use crate::signs::{Signed, matrix_of};
use lrp_model::{Column, Op, Query, RawFormula, RawKind, RawTerm, RawTermKind, Sort};

/// Whether a query is in kept form: its core form, taken without sort elements, is an `or` of one or more conjunctions of
/// atoms, `in` points, comparisons and equalities, each after any number of `exists`; and in each of them every variable of
/// the head, of an `exists` and of a test occurs in an atom.
pub fn is_kept(query: &Query) -> bool
    ensures { result ≡ is_kept_query (question_of query.now) }
{
    are_disjuncts(query.head.columns.as_slice(), &query.body, true)
}

// Whether the core form is a disjunct or an `or` of disjuncts.
#[cycle(disjuncts)]
fn are_disjuncts(columns: &[Column], f: &RawFormula, holds: bool) -> bool
    ensures { result ≡ all_pass (is_disjunct_form columns.now)
        (disjuncts (kept_signed holds (form_of f.now))) }
{
    match &f.kind {
        RawKind::Not { of } => are_disjuncts(columns, of, !holds),
        RawKind::Group { of } => are_disjuncts(columns, of, holds),
        RawKind::Ranged { of, .. } => are_disjuncts(columns, of, holds),
        RawKind::Paired { right, .. } => are_disjuncts(columns, right, holds),
        RawKind::Or { of } if holds => each_are_disjuncts(columns, of),
        RawKind::Implies { left, right } if holds => {
            are_disjuncts(columns, left, false) && are_disjuncts(columns, right, true)
        }
        _ => is_disjunct(columns, f, holds),
    }
}

#[cycle(disjuncts)]
fn each_are_disjuncts(columns: &[Column], fs: &[RawFormula]) -> bool
    ensures { result ≡ list_all (λ f. all_pass (is_disjunct_form columns.now)
        (disjuncts (kept_signed true (form_of f)))) fs.now }
{
    for f in fs {
        if !are_disjuncts(columns, f, true) {
            return false;
        }
    }
    true
}

// Whether the core form is a disjunct of a query with this head.
fn is_disjunct(columns: &[Column], f: &RawFormula, holds: bool) -> bool
    ensures { result ≡ is_disjunct_form columns.now (kept_signed holds (form_of f.now)) }
{
    let whole = matrix_of(f, holds);
    is_conjunctive(whole) && columns_occur(columns, whole) && bound_occur(f, holds, whole)
}

// Whether the conjunction has an atom, and beside atoms only tests whose variables occur in atoms.
fn is_conjunctive(whole: Signed) -> bool
    ensures { result ≡ is_conjunctive_form (conjuncts_of whole.entry) }
{
    !has_element(whole, Sought::Neither)
        && has_element(whole, Sought::Atom)
        && tests_occur(whole.formula, whole.holds, whole)
}

// Whether the variables of the head occur in atoms.
fn columns_occur(columns: &[Column], whole: Signed) -> bool
    ensures { result ≡ all_occur (conjuncts_of whole.entry) (head_variables columns.now) }
{
    for column in columns {
        if !occurs(whole, &column.sort, &column.name) {
            return false;
        }
    }
    true
}

// Whether the variables of the `exists` with which a core form begins occur in atoms.
fn bound_occur(f: &RawFormula, holds: bool, whole: Signed) -> bool
    ensures { result ≡ all_occur (conjuncts_of whole.entry)
        (bound_variables (kept_signed holds (form_of f.now))) }
{
    match &f.kind {
        RawKind::Not { of } => bound_occur(of, !holds, whole),
        RawKind::Group { of } => bound_occur(of, holds, whole),
        RawKind::Ranged { of, .. } => bound_occur(of, holds, whole),
        RawKind::Paired { right, .. } => bound_occur(right, holds, whole),
        RawKind::Exists { binder, of } if holds => {
            occurs(whole, &binder.sort, &binder.name) && bound_occur(of, holds, whole)
        }
        RawKind::Forall { binder, of } if !holds => {
            occurs(whole, &binder.sort, &binder.name) && bound_occur(of, holds, whole)
        }
        _ => true,
    }
}

// Whether the variables of the tests among the elements of a core form occur in atoms of the whole.
#[cycle(tests)]
fn tests_occur(f: &RawFormula, holds: bool, whole: Signed) -> bool
    ensures { result ≡ tests_in_atoms whole.entry (conjuncts (kept_signed holds (form_of f.now))) }
{
    match &f.kind {
        RawKind::Not { of } => tests_occur(of, !holds, whole),
        RawKind::Group { of } => tests_occur(of, holds, whole),
        RawKind::Ranged { of, .. } => tests_occur(of, holds, whole),
        RawKind::Paired { right, .. } => tests_occur(right, holds, whole),
        RawKind::And { of } if holds => tests_of_each_occur(of, holds, whole),
        RawKind::Or { of } if !holds => tests_of_each_occur(of, holds, whole),
        RawKind::Implies { left, right } if !holds => {
            tests_occur(left, true, whole) && tests_occur(right, false, whole)
        }
        RawKind::Compare { left, op, right } if is_comparison(*op, holds) => {
            sides_occur(left, *op, right, whole)
        }
        RawKind::Member { term, .. } if holds => time_occurs(term, whole),
        _ => true,
    }
}

#[cycle(tests)]
fn tests_of_each_occur(fs: &[RawFormula], holds: bool, whole: Signed) -> bool
    ensures { result ≡ list_all (λ f. tests_in_atoms whole.entry
        (conjuncts (kept_signed holds (form_of f)))) fs.now }
{
    for f in fs {
        if !tests_occur(f, holds, whole) {
            return false;
        }
    }
    true
}

// Whether the variables of both sides of a comparison occur in atoms.
fn sides_occur(left: &RawTerm, op: Op, right: &RawTerm, whole: Signed) -> bool
    ensures { result ≡ all_occur (conjuncts_of whole.entry)
        (variables_of_test (said_test left.now op right.now)) }
{
    if op == Op::Eq && left.is_data() && right.is_data() {
        data_occurs(left, whole) && data_occurs(right, whole)
    } else {
        time_occurs(left, whole) && time_occurs(right, whole)
    }
}

fn time_occurs(term: &RawTerm, whole: Signed) -> bool
    ensures { result ≡ all_occur (conjuncts_of whole.entry)
        (variables_of_time (time_of term.now.kind)) }
{
    match &term.kind {
        RawTermKind::Var { name } | RawTermKind::Shifted { name, .. } => {
            occurs(whole, &Sort::Time, name)
        }
        RawTermKind::Int { .. } | RawTermKind::Text { .. } => true,
    }
}

fn data_occurs(term: &RawTerm, whole: Signed) -> bool
    ensures { result ≡ all_occur (conjuncts_of whole.entry)
        (variables_of_data (data_of term.now.kind)) }
{
    match &term.kind {
        RawTermKind::Var { name } => occurs(whole, &Sort::Data, name),
        RawTermKind::Int { .. } | RawTermKind::Shifted { .. } | RawTermKind::Text { .. } => true,
    }
}
