// The texts that the terms of an atom ask for.
ghost use Rattle.std.specs.Prelude.{◌≡◌, ◌≢◌, All, IfOk, IfSome, IsTrue, List as ListOf};
ghost use Rattle.lrp_model.specs.declared.formulas.DataTerm.TheVariants.{Const as data_const};
ghost use Rattle.lrp_model.specs.declared.formulas.Term.{Term as TermValue};
ghost use Rattle.lrp_model.specs.declared.formulas.Term.TheVariants.{Data as data_term};
ghost use Rattle.lrp_steps.specs.Rows.{AreNeverOf, IsAskedText, IsNeverOf};

use lrp_model::{DataTerm, DataText, List, Memory, Term, Value};
use std::alloc::Global;

/// A text, and the place of the term that is this text.
#[derive(Clone, Copy)]
pub(crate) struct AskedText<'a> {
    pub place: usize,
    pub text: &'a DataText,
}

/// The texts among the terms, in order.
pub(crate) fn asked_texts(alloc: Global, terms: &List<Term>) -> Result<Vec<AskedText<'_>>, Memory>
    ensures { IfOk result (λ asked. All (IsAskedText terms.now) asked.items) }
{
    let mut asked = Vec::new(alloc);
    for place in 0..terms.len() {
        let Some(text) = text_of(terms.at(place)) else {
            continue;
        };
        asked.push(AskedText { place, text })?;
    }
    Ok(asked)
}

// The text that a term is, if it is one.
fn text_of(term: &Term) -> Option<&DataText>
    ensures { IfSome result (λ text. term.now ≡ data_term (data_const text.now)) }
{
    match term {
        Term::Time { .. } => None,
        Term::Data { term } => match term {
            DataTerm::Var { .. } => None,
            DataTerm::Const { text } => Some(text),
        },
    }
}

/// Whether another text stands where one of these is asked for.
pub(crate) fn has_another(values: &List<Value>, asked: &[AskedText]) -> bool
    ensures { IsTrue result → (terms : ListOf TermValue) → All (IsAskedText terms) asked.now
        → AreNeverOf values.now terms }
{
    for one in asked {
        if one.place >= values.len() {
            continue;
        }
        if is_another(values.at(one.place), one.text) {
            return true;
        }
    }
    false
}

// Whether the value is another text.
fn is_another(value: &Value, text: &DataText) -> bool
    ensures { IsTrue result → IsNeverOf value.now (data_term (data_const text.now)) }
{
    match value {
        Value::Point { .. } => false,
        Value::Const { text: here } => are_different(here.as_bytes(), text.as_bytes()),
    }
}

// Whether the bytes differ. Texts of one relation often begin alike, so the last byte is looked at first.
fn are_different(left: &[u8], right: &[u8]) -> bool
    ensures { IsTrue result → left.now ≢ right.now }
{
    if left.len() != right.len() {
        return true;
    }
    if left.is_empty() {
        return false;
    }
    let last = left.len() - 1;
    left[last] != right[last] || left != right
}
