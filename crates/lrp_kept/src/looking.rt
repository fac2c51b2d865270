// Elements of the conjunction that a core form is, looked for in the formula as it stands.
ghost use Rattle.std.specs.Prelude.{◌≡◌, true, not, map};
ghost use Rattle.std.specs.List.{list_any};
ghost use Rattle.lrp_model.specs.Texts.{Identifier};
ghost use Rattle.lrp_model.specs.Formulas.{Form, form_of, atom, test as test_form};
ghost use Rattle.lrp_model.specs.RawTerms.{said_term, said_test};
ghost use Rattle.lrp_model.specs.declared.raw.RawTerm.{RawTerm as RawTermOf};
ghost use Rattle.lrp_model.specs.Variables.{bound_by, is_among, variables_of_term};
ghost use Rattle.lrp_model.specs.Core.{conjuncts};
ghost use Rattle.lrp_kept.specs.Asked.{is_sought, conjuncts_of};
ghost use Rattle.lrp_kept.specs.KeptForm.{some_passes, is_neither, is_atom_with};
ghost use Rattle.lrp_kept.specs.Signs.{kept_signed};

use crate::signs::Signed;
use lrp_model::{Name, Op, RawFormula, RawKind, RawTerm, RawTermKind, Sort};

/// What is looked for: an element that is neither an atom nor a test, an atom, or an atom in which the variable of a
/// binder of this sort and name occurs.
#[derive(Clone, Copy)]
pub(crate) enum Sought<'a> {
    Neither,
    Atom,
    AtomWith { sort: &'a Sort, name: &'a Name },
}

/// Whether some element of the conjunction is such.
pub(crate) fn has_element(whole: Signed, sought: Sought) -> bool
    ensures { result ≡ some_passes (is_sought sought.entry) (conjuncts_of whole.entry) }
{
    some_element(whole.formula, whole.holds, sought)
}

/// Whether the variable of a binder of this sort and name occurs in an atom of the conjunction.
pub(crate) fn occurs(whole: Signed, sort: &Sort, name: &Name) -> bool
    ensures { result ≡ some_passes (is_atom_with (bound_by sort.now name.now))
        (conjuncts_of whole.entry) }
{
    has_element(whole, Sought::AtomWith { sort, name })
}

#[cycle(looking)]
fn some_element(f: &RawFormula, holds: bool, sought: Sought) -> bool
    ensures { result ≡ some_passes (is_sought sought.entry)
        (conjuncts (kept_signed holds (form_of f.now))) }
{
    match &f.kind {
        RawKind::Not { of } => some_element(of, !holds, sought),
        RawKind::Group { of } => some_element(of, holds, sought),
        RawKind::Ranged { of, .. } => some_element(of, holds, sought),
        RawKind::Paired { right, .. } => some_element(right, holds, sought),
        RawKind::And { of } if holds => some_of(of, holds, sought),
        RawKind::Or { of } if !holds => some_of(of, holds, sought),
        RawKind::Implies { left, right } if !holds => {
            some_element(left, true, sought) || some_element(right, false, sought)
        }
        RawKind::Atom { terms, .. } if holds => is_atom_sought(terms.as_slice(), sought),
        RawKind::Compare { op, .. } if is_comparison(*op, holds) => false,
        RawKind::Member { .. } if holds => false,
        _ => is_neither_sought(sought),
    }
}

#[cycle(looking)]
fn some_of(fs: &[RawFormula], holds: bool, sought: Sought) -> bool
    ensures { result ≡ list_any (λ f. some_passes (is_sought sought.entry)
        (conjuncts (kept_signed holds (form_of f)))) fs.now }
{
    for f in fs {
        if some_element(f, holds, sought) {
            return true;
        }
    }
    false
}

/// Whether the core form of a comparison, or of its negation, is a test: the negation of an `=` is none.
pub(crate) fn is_comparison(op: Op, holds: bool) -> bool
    ensures { (left right : RawTermOf)
        → is_neither (kept_signed holds (test_form (said_test left op right))) ≡ not result }
{
    holds || op != Op::Eq
}

// Whether elements that are neither atoms nor tests are looked for.
fn is_neither_sought(sought: Sought) -> bool
    ensures { (f : Form) → is_neither f ≡ true → result ≡ is_sought sought.entry f }
{
    matches!(sought, Sought::Neither)
}

// Whether an atom of these terms is looked for.
fn is_atom_sought(terms: &[RawTerm], sought: Sought) -> bool
    ensures { (relation : Identifier) → result ≡ is_sought sought.entry (atom relation (map said_term terms.now)) }
{
    match sought {
        Sought::Neither => false,
        Sought::Atom => true,
        Sought::AtomWith { sort, name } => has_variable(terms, sort, name),
    }
}

// Whether the variable of a binder of this sort and name is among the terms.
fn has_variable(terms: &[RawTerm], sort: &Sort, name: &Name) -> bool
    ensures { result ≡ list_any (λ term. is_among (variables_of_term (said_term term))
        (bound_by sort.now name.now)) terms.now }
{
    for term in terms {
        if is_variable(term, sort, name) {
            return true;
        }
    }
    false
}

// Whether the term has the variable of a binder of this sort and name.
fn is_variable(term: &RawTerm, sort: &Sort, name: &Name) -> bool
    ensures { result ≡ is_among (variables_of_term (said_term term.now)) (bound_by sort.now name.now) }
{
    match &term.kind {
        RawTermKind::Shifted { name: own, .. } => sort.is_time() && name == own,
        RawTermKind::Var { name: own } => !sort.is_time() && name == own,
        RawTermKind::Int { .. } | RawTermKind::Text { .. } => false,
    }
}
