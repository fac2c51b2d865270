// The rows of a relation as patterns.
ghost use Rattle.std.specs.Prelude.{◌≡◌, ◌≤◌, length, flat_map, false, IfOk, MatchOption};
ghost use Rattle.std.specs.List.{AllByRecursion};
ghost use Rattle.lrp_tables.specs.Columns.{texts_of_term, times_of_term};
ghost use Rattle.lrp_tables.specs.Tables.{AreNamesAmong};
ghost use Rattle.lrp_steps.specs.Rows.{CanBeRead, HasSmallPeriod, IsNeverOf, AreNeverOf, IsWithValue, HasNoValue, IsWithValues, HasNoValues, IsOfRow, HasNoRow};

use crate::conditions::with_member;
use crate::equalities::with_constant;
use crate::pattern::Pattern;
use crate::row_bounds::with_bounds;
use lrp_model::{DataTerm, Domain, List, Memory, Row, Term, Value};
use lrp_tables::Vars;
use std::alloc::Global;

/// The pattern of the tuples for which the values of the terms are a member of the row, or `None` where there are none.
pub fn row_pattern(
    alloc: Global,
    row: &Row,
    terms: &List<Term>,
    vars: &Vars,
    domain: &Domain,
) -> Result<Option<Pattern>, Memory>
    requires few_times { length vars.now.times ≤ 8 }
    requires few_texts { length vars.now.texts ≤ 8 }
    requires times { AreNamesAmong (flat_map times_of_term terms.now) vars.now.times }
    requires texts { AreNamesAmong (flat_map texts_of_term terms.now) vars.now.texts }
    requires row { CanBeRead terms.now row.now }
    ensures { IfOk result (λ found. MatchOption found
        (HasNoRow domain.now vars.now.times vars.now.texts terms.now row.now)
        (IsOfRow domain.now vars.now.times vars.now.texts terms.now row.now)) }
{
    if !may_have(&row.values, terms) {
        return Ok(None);
    }
    pattern_of_row(alloc, row, terms, vars, domain)
}

// Whether the values may be what the terms stand for: no text among the terms has another one in its place.
fn may_have(values: &List<Value>, terms: &List<Term>) -> bool
    requires { length values.now ≡ length terms.now }
    ensures { result ≡ false → AreNeverOf values.now terms.now }
{
    for i in 0..terms.len() {
        if !may_be(values.at(i), terms.at(i)) {
            return false;
        }
    }
    true
}

// Whether the value may be what the term stands for: another text is not.
fn may_be(value: &Value, term: &Term) -> bool
    ensures { result ≡ false → IsNeverOf value.now term.now }
{
    match value {
        Value::Point { .. } => true,
        Value::Const { text } => match term {
            Term::Time { .. } => true,
            Term::Data { term } => match term {
                DataTerm::Var { .. } => true,
                DataTerm::Const { text: asked } => text == asked,
            },
        },
    }
}

/// The same, of any row.
pub(crate) fn pattern_of_row(
    alloc: Global,
    row: &Row,
    terms: &List<Term>,
    vars: &Vars,
    domain: &Domain,
) -> Result<Option<Pattern>, Memory>
    requires few_times { length vars.now.times ≤ 8 }
    requires few_texts { length vars.now.texts ≤ 8 }
    requires times { AreNamesAmong (flat_map times_of_term terms.now) vars.now.times }
    requires texts { AreNamesAmong (flat_map texts_of_term terms.now) vars.now.texts }
    requires row { CanBeRead terms.now row.now }
    ensures { IfOk result (λ found. MatchOption found
        (HasNoRow domain.now vars.now.times vars.now.texts terms.now row.now)
        (IsOfRow domain.now vars.now.times vars.now.texts terms.now row.now)) }
{
    match with_values(alloc, &row.values, terms, vars, domain)? {
        Some(pattern) => with_bounds(alloc, pattern, &row.bounds, terms, &vars.times),
        None => Ok(None),
    }
}

// The pattern of the tuples for which what the terms stand for is of these values, or `None` where there are none.
fn with_values(
    alloc: Global,
    values: &List<Value>,
    terms: &List<Term>,
    vars: &Vars,
    domain: &Domain,
) -> Result<Option<Pattern>, Memory>
    requires few_times { length vars.now.times ≤ 8 }
    requires few_texts { length vars.now.texts ≤ 8 }
    requires times { AreNamesAmong (flat_map times_of_term terms.now) vars.now.times }
    requires texts { AreNamesAmong (flat_map texts_of_term terms.now) vars.now.texts }
    requires count { length values.now ≡ length terms.now }
    requires periods { AllByRecursion HasSmallPeriod values.now }
    ensures { IfOk result (λ found. MatchOption found
        (HasNoValues domain.now vars.now.times vars.now.texts values.now terms.now)
        (IsWithValues domain.now vars.now.times vars.now.texts values.now terms.now)) }
{
    let mut pattern = Pattern::new(alloc);
    for i in 0..terms.len() {
        match with_value(pattern, values.at(i), terms.at(i), vars, domain)? {
            Some(next) => pattern = next,
            None => return Ok(None),
        }
    }
    Ok(Some(pattern))
}

// The pattern and that what a term stands for is of a value, or `None` where nothing that the pattern asks for is so.
fn with_value(
    pattern: Pattern,
    value: &Value,
    term: &Term,
    vars: &Vars,
    domain: &Domain,
) -> Result<Option<Pattern>, Memory>
    requires few_times { length vars.now.times ≤ 8 }
    requires few_texts { length vars.now.texts ≤ 8 }
    requires known { length pattern.texts ≡ 8 }
    requires times { AreNamesAmong (times_of_term term.now) vars.now.times }
    requires texts { AreNamesAmong (texts_of_term term.now) vars.now.texts }
    requires period { HasSmallPeriod value.now }
    ensures { IfOk result (λ found. MatchOption found
        (HasNoValue domain.now vars.now.times vars.now.texts value.now term.now pattern)
        (IsWithValue domain.now vars.now.times vars.now.texts value.now term.now pattern)) }
{
    match value {
        Value::Point { at } => match term {
            Term::Time { term } => with_member(pattern, term, *at, &vars.times),
            Term::Data { .. } => Ok(None),
        },
        Value::Const { text } => match term {
            Term::Time { .. } => Ok(None),
            Term::Data { term } => with_constant(pattern, term, text, &vars.texts, domain),
        },
    }
}
