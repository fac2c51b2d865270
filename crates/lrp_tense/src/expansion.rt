// The query without operators that stands for one with them: each operator is written out by quantifiers over time.
ghost use Rattle.std.specs.Prelude.{◌≡◌, ◌<◌, ◌^◌, [], length, IfOk, OnOk};
ghost use Rattle.lrp_model.specs.RawQueries.{HasNoOperator, raw_form_of, raw_forms_of, raw_question_of, raw_not, raw_group, raw_implies};
ghost use Rattle.lrp_tense.specs.Expanding.{IsExpandable, operators, operator_number, expanded, expanded_question};
ghost use Rattle.lrp_tense.specs.Counting.{ArePositions};
ghost use Rattle.lrp_tense.specs.Laws.{KeepsMeaning};
ghost use Rattle.lrp_tense.specs.Written.{form_inside, joined_form, quantified_form, range_of};
ghost use Rattle.lrp_tense.specs.Numbers.{met, expanded_from};
ghost use Rattle.lrp_tense.specs.Scopes.{expanded_in, each_in, past, past_one, past_each, inside_variable};
ghost use Rattle.lrp_tense.specs.BegunPair.{IsBegun, pair_begun};

use crate::counting::{is_ascending, positions_of};
use crate::renaming::{atom, comparison, membership};
use crate::scope::{Moments, OperatorScope};
use crate::written_operators::{PairOperator, RangeOperator, written};
use crate::written_out::{
    Connective, Inside, QuantifierKind, boxed, denied, grouped, implied, joined, quantified,
};
use lrp_model::{
    Copies, Memory, Name, Paired, Place, Ranged, RawColumn, RawFormula, RawKind, RawQuery,
};
use std::alloc::Global;

/// The name of an operator's moment, and its first formula inside its variable for each moment between.
#[derive(Drop)]
pub struct BegunPair {
    pub moment: Name,
    pub between: Inside,
}

// A quantifier as it is written: where it stands, which one it is, and its variable.
#[derive(Clone, Copy)]
struct Binding<'a> {
    place: Place,
    quantifier: QuantifierKind,
    binder: &'a RawColumn,
}

// A formula expanded with its operators counted as they are met, and their positions.
#[derive(Drop)]
struct Counted {
    of: Box<RawFormula>,
    positions: Vec<u64>,
}

/// The query without operators that is satisfied exactly where this one is. The variables that it has beside the written
/// ones have a `~` in their names.
pub fn expand(alloc: Global, query: &RawQuery) -> Result<RawQuery, Memory>
    requires { IsExpandable (raw_question_of query.now) }
    ensures tree { IfOk result (λ made. raw_question_of made
        ≡ expanded_question (raw_question_of query.now)) }
    ensures plain { IfOk result (λ made. HasNoOperator (raw_form_of made.body)) }
    ensures meaning { IfOk result (λ made. KeepsMeaning (raw_question_of query.now)
        (raw_question_of made)) }
{
    let made = expand_body(alloc, &query.body)?;
    let head = query.head.copy(alloc)?;
    let body = Box::into_inner(made);
    Ok(RawQuery { head, body })
}

// The formula with its operators numbered by their places.
//
// In a formula that was read they stand in the order of their places, so that counting them as they are met is enough.
fn expand_body(alloc: Global, f: &RawFormula) -> Result<Box<RawFormula>, Memory>
    ensures tree { IfOk result (λ made. raw_form_of made.value
        ≡ expanded (raw_form_of f.now) (operator_number (operators (raw_form_of f.now))) []) }
    ensures few { IfOk result (λ _. length (operators (raw_form_of f.now)) < 2 ^ 64) }
{
    let counted = expand_counting(alloc, f)?;
    let Counted { of, positions } = counted;
    if is_ascending(positions.as_slice()) {
        return Ok(of);
    }
    expand_ranking(alloc, f, positions)
}

// The formula with its operators counted as they are met.
fn expand_counting(alloc: Global, f: &RawFormula) -> Result<Counted, Memory>
    ensures tree { IfOk result (λ made. raw_form_of made.of.value
        ≡ expanded_from (raw_form_of f.now) (met []) []) }
    ensures positions { IfOk result (λ made. ArePositions made.positions.items
        (operators (raw_form_of f.now))) }
{
    let mut scope = OperatorScope::counting(alloc);
    let of = expand_formula(alloc, &mut scope, f)?;
    let places = scope.into_places();
    let positions = positions_of(alloc, places.as_slice())?;
    Ok(Counted { of, positions })
}

// The formula with its operators numbered by these positions, which are theirs.
fn expand_ranking(
    alloc: Global,
    f: &RawFormula,
    positions: Vec<u64>,
) -> Result<Box<RawFormula>, Memory>
    requires { ArePositions positions.items (operators (raw_form_of f.now)) }
    ensures { IfOk result (λ made. raw_form_of made.value
        ≡ expanded (raw_form_of f.now) (operator_number (operators (raw_form_of f.now))) []) }
{
    let mut positions = positions;
    positions.sort_unstable();
    let mut scope = OperatorScope::ranking(alloc, positions);
    expand_formula(alloc, &mut scope, f)
}

// A column whose name is given.
fn renamed_column(alloc: Global, column: &RawColumn, name: Name) -> Result<RawColumn, Memory>
    ensures { IfOk result (λ made. made ≡ record column.now { name = name }) }
{
    Ok(RawColumn {
        name,
        place: column.place,
        sort: column.sort.copy(alloc)?,
        sort_place: column.sort_place,
    })
}

// The formula inside the variables of the scope.
//
// A function clears its locals when it begins. So each kind of formula has a function of its own, and a formula pays for its
// own kind alone.
#[cycle(expanding)]
fn expand_formula<'a>(
    alloc: Global,
    scope: &mut OperatorScope<'a>,
    f: &'a RawFormula,
) -> Result<Box<RawFormula>, Memory>
    ensures tree { IfOk result (λ made. raw_form_of made.value
        ≡ expanded_in scope.old (raw_form_of f.now)) }
    ensures scope { OnOk result (scope.new ≡ past scope.old (raw_form_of f.now)) }
{
    let place = f.place;
    match &f.kind {
        RawKind::Atom { relation, terms } => {
            atom(alloc, scope, place, relation, terms.as_slice())
        }
        RawKind::Compare { left, op, right } => {
            let kind = comparison(alloc, scope, left, *op, right)?;
            boxed(alloc, place, kind)
        }
        RawKind::Member { term, point } => membership(alloc, scope, place, term, *point),
        RawKind::Not { of } => expand_negation(alloc, scope, place, of),
        RawKind::And { of } => expand_joined(alloc, scope, place, Connective::And, of),
        RawKind::Or { of } => expand_joined(alloc, scope, place, Connective::Or, of),
        RawKind::Implies { left, right } => {
            let left = expand_formula(alloc, scope, left)?;
            expand_implication(alloc, scope, place, right, left)
        }
        RawKind::Group { of } => expand_group(alloc, scope, place, of),
        RawKind::Exists { binder, of } => {
            let quantifier = QuantifierKind::Exists;
            let at = Binding {
                place,
                quantifier,
                binder,
            };
            expand_quantified(alloc, scope, at, of)
        }
        RawKind::Forall { binder, of } => {
            let quantifier = QuantifierKind::Forall;
            let at = Binding {
                place,
                quantifier,
                binder,
            };
            expand_quantified(alloc, scope, at, of)
        }
        RawKind::Ranged {
            word,
            name,
            name_place,
            from,
            to,
            of,
        } => {
            let range = RangeOperator {
                at: written(place, name, *name_place),
                word: *word,
                from: *from,
                to: *to,
            };
            expand_ranged(alloc, scope, range, of)
        }
        RawKind::Paired {
            word,
            name,
            name_place,
            left,
            right,
        } => {
            let pair = PairOperator {
                at: written(place, name, *name_place),
                word: *word,
            };
            let begun = expand_between(alloc, scope, pair, left)?;
            expand_paired(alloc, scope, pair, begun, right)
        }
    }
}

#[cycle(expanding)]
fn expand_negation<'a>(
    alloc: Global,
    scope: &mut OperatorScope<'a>,
    place: Place,
    of: &'a RawFormula,
) -> Result<Box<RawFormula>, Memory>
    ensures tree { IfOk result (λ made. raw_form_of made.value
        ≡ raw_not place (expanded_in scope.old (raw_form_of of.now))) }
    ensures scope { OnOk result (scope.new ≡ past scope.old (raw_form_of of.now)) }
{
    let of = expand_formula(alloc, scope, of)?;
    denied(alloc, place, of)
}

#[cycle(expanding)]
fn expand_group<'a>(
    alloc: Global,
    scope: &mut OperatorScope<'a>,
    place: Place,
    of: &'a RawFormula,
) -> Result<Box<RawFormula>, Memory>
    ensures tree { IfOk result (λ made. raw_form_of made.value
        ≡ raw_group place (expanded_in scope.old (raw_form_of of.now))) }
    ensures scope { OnOk result (scope.new ≡ past scope.old (raw_form_of of.now)) }
{
    let of = expand_formula(alloc, scope, of)?;
    grouped(alloc, place, of)
}

// The implication whose left side is expanded.
#[cycle(expanding)]
fn expand_implication<'a>(
    alloc: Global,
    scope: &mut OperatorScope<'a>,
    place: Place,
    right: &'a RawFormula,
    left: Box<RawFormula>,
) -> Result<Box<RawFormula>, Memory>
    ensures tree { IfOk result (λ made. raw_form_of made.value
        ≡ raw_implies place (raw_form_of left.value)
        (expanded_in scope.old (raw_form_of right.now))) }
    ensures scope { OnOk result (scope.new ≡ past scope.old (raw_form_of right.now)) }
{
    let right = expand_formula(alloc, scope, right)?;
    implied(alloc, place, left, right)
}

#[cycle(expanding)]
fn expand_joined<'a>(
    alloc: Global,
    scope: &mut OperatorScope<'a>,
    place: Place,
    connective: Connective,
    of: &'a [RawFormula],
) -> Result<Box<RawFormula>, Memory>
    ensures tree { IfOk result (λ made. raw_form_of made.value
        ≡ joined_form connective place (each_in scope.old (raw_forms_of of.now))) }
    ensures scope { OnOk result (scope.new ≡ past_each scope.old (raw_forms_of of.now)) }
{
    let of = expand_each(alloc, scope, of)?;
    joined(alloc, place, connective, of)
}

#[cycle(expanding)]
fn expand_each<'a>(
    alloc: Global,
    scope: &mut OperatorScope<'a>,
    fs: &'a [RawFormula],
) -> Result<Vec<RawFormula>, Memory>
    ensures trees { IfOk result (λ made. raw_forms_of made.items
        ≡ each_in scope.old (raw_forms_of fs.now)) }
    ensures scope { OnOk result (scope.new ≡ past_each scope.old (raw_forms_of fs.now)) }
{
    let mut all = Vec::with_capacity(alloc, fs.len())?;
    for f in fs {
        let made = expand_formula(alloc, scope, f)?;
        let g = Box::into_inner(made);
        all.push(g)?;
    }
    Ok(all)
}

#[cycle(expanding)]
fn expand_quantified<'a>(
    alloc: Global,
    scope: &mut OperatorScope<'a>,
    at: Binding<'a>,
    of: &'a RawFormula,
) -> Result<Box<RawFormula>, Memory>
    ensures tree { IfOk result (λ made. raw_form_of made.value
        ≡ quantified_form at.entry.quantifier at.entry.place at.entry.binder.now (expanded_in
        (inside_variable scope.old at.entry.binder.now.name at.entry.binder.now.name)
        (raw_form_of of.now))) }
    ensures scope { OnOk result (scope.new ≡ past scope.old (raw_form_of of.now)) }
{
    let written = &at.binder.name;
    let same = written.copy(alloc)?;
    let inside = expand_inside(alloc, scope, written, same, of)?;
    let Inside { name, of } = inside;
    let binder = renamed_column(alloc, at.binder, name)?;
    quantified(alloc, at.place, at.quantifier, binder, of)
}

// The formula inside one variable more.
#[cycle(expanding)]
fn expand_inside<'a>(
    alloc: Global,
    scope: &mut OperatorScope<'a>,
    written: &'a Name,
    present: Name,
    of: &'a RawFormula,
) -> Result<Inside, Memory>
    ensures name { IfOk result (λ made. made.name ≡ present) }
    ensures tree { IfOk result (λ made. form_inside made
        ≡ expanded_in (inside_variable scope.old written.now present) (raw_form_of of.now)) }
    ensures scope { OnOk result (scope.new ≡ past scope.old (raw_form_of of.now)) }
{
    scope.enter(written, present)?;
    let of = expand_formula(alloc, scope, of)?;
    let name = scope.leave();
    Ok(Inside { name, of })
}

// The formula of an operator with an interval stands inside its moment.
#[cycle(expanding)]
fn expand_ranged<'a>(
    alloc: Global,
    scope: &mut OperatorScope<'a>,
    range: RangeOperator<'a>,
    of: &'a RawFormula,
) -> Result<Box<RawFormula>, Memory>
    ensures tree { IfOk result (λ made. raw_form_of made.value
        ≡ expanded_in scope.old (range_of range.entry (raw_form_of of.now))) }
    ensures scope { OnOk result (scope.new
        ≡ past scope.old (range_of range.entry (raw_form_of of.now))) }
{
    let at = range.at;
    let number = scope.number(at.places.place)?;
    let moment = scope.moment(alloc, at.name, number)?;
    let inside = expand_inside(alloc, scope, at.name, moment, of)?;
    let now = scope.present(at.name);
    let ends = (range.from, range.to);
    match range.word {
        Ranged::Once => at.places.once(alloc, now, ends, inside),
        Ranged::Always => at.places.always(alloc, now, ends, inside),
    }
}

// The first formula of an operator, inside its variable for each moment between.
#[cycle(expanding)]
fn expand_between<'a>(
    alloc: Global,
    scope: &mut OperatorScope<'a>,
    pair: PairOperator<'a>,
    of: &'a RawFormula,
) -> Result<BegunPair, Memory>
    ensures begun { IfOk result (λ made. IsBegun scope.old pair.entry (raw_form_of of.now) made) }
    ensures scope { OnOk result (scope.new
        ≡ past (past_one scope.old pair.entry.at.places.place) (raw_form_of of.now)) }
{
    let number = scope.number(pair.at.places.place)?;
    let written = pair.at.name;
    let names = scope.moments(alloc, written, number)?;
    let Moments {
        own: moment,
        between,
    } = names;
    let between = expand_inside(alloc, scope, written, between, of)?;
    Ok(BegunPair { moment, between })
}

// The operator whose first formula is expanded; the second one stands inside its moment.
#[cycle(expanding)]
fn expand_paired<'a>(
    alloc: Global,
    scope: &mut OperatorScope<'a>,
    pair: PairOperator<'a>,
    begun: BegunPair,
    of: &'a RawFormula,
) -> Result<Box<RawFormula>, Memory>
    ensures tree { IfOk result (λ made. raw_form_of made.value
        ≡ pair_begun scope.old pair.entry begun (raw_form_of of.now)) }
    ensures scope { OnOk result (scope.new ≡ past scope.old (raw_form_of of.now)) }
{
    let BegunPair { moment, between } = begun;
    let inside = expand_inside(alloc, scope, pair.at.name, moment, of)?;
    let now = scope.present(pair.at.name);
    let places = &pair.at.places;
    match pair.word {
        Paired::Since => places.since(alloc, now, between, inside),
        Paired::Until => places.until(alloc, now, between, inside),
    }
}
