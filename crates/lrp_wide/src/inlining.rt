// The query of first-order logic that stands for a file: in its texts without operators each use of a definition and each `*` is written out.
//
// A function clears its locals when it begins. So each kind of formula has a function of its own, and a formula pays for its own kind alone.
ghost use Rattle.std.specs.Prelude.{◌≡◌, [], None, IfOk, OnOk};
ghost use Rattle.lrp_model.specs.RawQueries.{HasNoOperator, HaveNoOperator, RawFileView, raw_form_of, raw_forms_of, raw_group, raw_implies, raw_not, raw_question_of};
ghost use Rattle.lrp_wide.specs.Inlining.{expanded_file, inlined, own_setting, set_column};
ghost use Rattle.lrp_wide.specs.Inside.{AreBeside, IsWholeIfAny, AreOwnNumbers, AreWrittenBy, AreWrittenIn, IsAround, IsAtomWritten, IsUsedBody, IsMeant, IsNamedIn, IsPassedOn, IsUsed, IsWholeWritten, IsWrittenIn, each_inlined_here, inlined_here, met_form};
ghost use Rattle.lrp_tense.specs.Expanding.{expanded_question};
ghost use Rattle.lrp_tense.specs.Written.{joined_form, quantified_form};
ghost use Rattle.lrp_wide.specs.Settings.{passed_of, setting_of};
ghost use Rattle.lrp_wide.specs.Chains.{IsChain, as_themselves};

use crate::atoms::{Met, comparison, membership, starred_atom};
use crate::chains::Chain;
use crate::names::NameText;
use crate::narrow::has_no_star;
use crate::numbering::{Numbers, plus};
use crate::passing::{Arguments, arguments_of};
use crate::uses::{Passed, Use, UseSetting, some_each, with_comparisons};
use lrp_model::{
    Column, Copies, List, Memory, Name, Place, RawColumn, RawDefinition, RawFormula, RawKind,
    RawQuery, RawTerm, Relation,
};
use lrp_sorts::{Catalog, Definitions};
use lrp_tense::{Connective, QuantifierKind, boxed, denied, grouped, implied, joined, quantified};
use std::alloc::Global;

/// Definitions that are written out: by their names, without operators, with the numbers of their texts, and with the chains
/// that they begin.
#[derive(Clone, Copy)]
pub struct Written<'a> {
    pub definitions: &'a Definitions<'a>,
    pub plain: &'a [RawDefinition],
    pub numbers: &'a [Numbers],
    pub chains: &'a [Option<Box<Chain>>],
}

// What stands around a formula: where columns of atoms that stay are looked up, the definitions that are written out, and
// what is made of names and places.
#[derive(Clone, Copy)]
struct Scene<'a> {
    catalog: &'a Catalog<'a>,
    written: Option<Written<'a>>,
    setting: UseSetting<'a>,
}

// The definition that an atom names, by its number.
#[derive(Clone, Copy)]
struct Named<'a> {
    written: Written<'a>,
    number: usize,
}

impl<'a> Named<'a> {
    ghost use Rattle.std.specs.Prelude.{◌≡◌, ◌<◌, List, Some, IfOk, IfSome, length, slice_get};
    ghost use Rattle.lrp_wide.specs.Chains.{IsChain};
    ghost use Rattle.lrp_wide.specs.Counts.{stopped_counts};
    ghost use Rattle.lrp_wide.specs.Inlining.{Counted as CountedOf};
    ghost use Rattle.lrp_wide.specs.Inside.{IsWholeWritten};

    // The definition as a relation without rows.
    fn relation(self) -> &'a Relation
        requires written { IsWholeWritten self.written }
        requires there { self.number < length self.written.plain.now }
        ensures { slice_get self.entry.written.definitions.now.definitions self.entry.number
            ≡ Some result.now }
    {
        self.written.definitions.at(self.number)
    }

    // The definition without operators.
    fn text(self) -> &'a RawDefinition
        requires written { IsWholeWritten self.written }
        requires there { self.number < length self.written.plain.now }
        ensures { slice_get self.entry.written.plain.now self.entry.number ≡ Some result.now }
    {
        &self.written.plain[self.number]
    }

    // The chain that it begins.
    fn chain(self) -> Option<&'a Chain>
        requires written { IsWholeWritten self.written }
        requires there { self.number < length self.written.plain.now }
        ensures { IfSome result (λ c. IsChain self.entry.written.definitions.now
            self.entry.written.plain.now self.entry.number c.now) }
    {
        match &self.written.chains[self.number] {
            Some(chain) => Some(chain),
            None => None,
        }
    }

    // How the atoms of its text are numbered.
    fn numbers(self) -> Result<&'a Numbers, Memory>
        requires written { IsWholeWritten self.written }
        requires there { self.number < length self.written.plain.now }
        ensures { IfOk result (λ made. (counted : List CountedOf)
            → slice_get self.entry.written.numbers.now self.entry.number
            ≡ Some (stopped_counts counted) → made.now ≡ counted) }
    {
        self.written.numbers[self.number].whole()
    }
}

// The body of a definition in a use: the number and the place of the use, the variables that columns are, and the next number.
#[derive(Drop)]
struct UsedBody<'a> {
    named: Named<'a>,
    number: u64,
    place: Place,
    first: u64,
    passed: Vec<Passed<'a>>,
}

impl<'a> UsedBody<'a> {
    ghost use Rattle.std.specs.Prelude.{◌<◌, IfOk, length};
    ghost use Rattle.lrp_wide.specs.Inside.{IsBodySetting, IsWholeWritten};

    // What it is read by.
    fn setting(&self) -> Result<UseSetting<'_>, Memory>
        requires written { IsWholeWritten self.now.named.written }
        requires there { self.now.named.number < length self.now.named.written.plain.now }
        ensures { IfOk result (IsBodySetting self.now) }
    {
        let named = self.named;
        let numbers = named.numbers()?;
        Ok(UseSetting {
            used: Some(Use {
                number: self.number,
                place: self.place,
                passed: self.passed.as_slice(),
            }),
            before: named.number,
            first: self.first,
            numbers: Some(numbers),
        })
    }
}

// A quantifier where it stands, and its variable.
#[derive(Clone, Copy)]
struct Binding<'a> {
    place: Place,
    quantifier: QuantifierKind,
    binder: &'a RawColumn,
}

/// The query that stands for a file: for this query without operators, beside these definitions.
pub fn expand(alloc: Global, written: Written<'_>, query: RawQuery) -> Result<RawQuery, Memory>
    requires plain { HasNoOperator (raw_form_of query.body) }
    requires definitions { IsWholeWritten written }
    ensures { IfOk result (λ made. (file : RawFileView) → AreWrittenBy written.entry file
        → raw_question_of query ≡ expanded_question file.query
        → raw_question_of made ≡ expanded_file written.entry.definitions.now.relations file) }
{
    let catalog = Catalog::new(alloc, written.definitions.database())?;
    expand_beside(alloc, &catalog, written, query)
}

// The same, where the columns of relations are looked up in a catalog.
fn expand_beside(
    alloc: Global,
    catalog: &Catalog<'_>,
    written: Written<'_>,
    query: RawQuery,
) -> Result<RawQuery, Memory>
    requires plain { HasNoOperator (raw_form_of query.body) }
    requires definitions { IsWholeWritten written }
    ensures { IfOk result (λ made. (file : RawFileView)
        → AreBeside catalog.now written.entry file
        → raw_question_of query ≡ expanded_question file.query
        → raw_question_of made ≡ expanded_file written.entry.definitions.now.relations file) }
{
    let setting = UseSetting {
        used: None,
        before: written.plain.len(),
        first: 1,
        numbers: own_numbers(written)?,
    };
    let scene = Scene {
        catalog,
        written: Some(written),
        setting,
    };
    written_in_place(alloc, &scene, query)
}

// How the atoms of the query's own text are numbered.
fn own_numbers<'a>(written: Written<'a>) -> Result<Option<&'a Numbers>, Memory>
    ensures { IfOk result (AreOwnNumbers written.entry) }
{
    match written.numbers.last() {
        Some(numbers) => Ok(Some(numbers.whole()?)),
        None => Ok(None),
    }
}

/// The query in which each `*` is written out, counted in each atom by itself; atoms of definitions stay.
pub fn starred(
    alloc: Global,
    catalog: &Catalog<'_>,
    head: &List<RawColumn>,
    body: &RawFormula,
) -> Result<RawQuery, Memory>
    requires { HasNoOperator (raw_form_of body.now) }
    ensures { IfOk result (λ made. raw_question_of made ≡ record {
      head = head.now;
      body = inlined catalog.now [] (raw_form_of body.now) (own_setting (λ p. 1));
    }) }
{
    let setting = UseSetting {
        used: None,
        before: 0,
        first: 1,
        numbers: None,
    };
    let scene = Scene {
        catalog,
        written: None,
        setting,
    };
    written_out(alloc, &scene, head, body)
}

// The query of a head and a body in a scene.
fn written_out(
    alloc: Global,
    scene: &Scene<'_>,
    head: &List<RawColumn>,
    body: &RawFormula,
) -> Result<RawQuery, Memory>
    requires plain { HasNoOperator (raw_form_of body.now) }
    requires definitions { IsWholeIfAny scene.now.written }
    ensures head { IfOk result (λ made. made.head ≡ head.now) }
    ensures body { IfOk result (λ made. (file : RawFileView) → IsAround scene.now file
        → raw_form_of made.body ≡ inlined_here scene.now file (raw_form_of body.now)) }
{
    let mut text = NameText::new(alloc);
    let made = inline(alloc, &mut text, scene, body)?;
    let head = head.copy(alloc)?;
    let body = Box::into_inner(made);
    Ok(RawQuery { head, body })
}

// The formula in a scene.
#[cycle(inlining)]
fn inline(
    alloc: Global,
    text: &mut NameText,
    scene: &Scene<'_>,
    f: &RawFormula,
) -> Result<Box<RawFormula>, Memory>
    requires plain { HasNoOperator (raw_form_of f.now) }
    requires definitions { IsWholeIfAny scene.now.written }
    ensures { IfOk result (λ made. (file : RawFileView) → IsAround scene.now file
        → raw_form_of made.value ≡ inlined_here scene.now file (raw_form_of f.now)) }
{
    let setting = &scene.setting;
    let place = setting.place(f.place);
    match &f.kind {
        RawKind::Atom { relation, terms } => {
            let number = setting.number(f.place)?;
            let met = Met {
                place,
                name: relation,
                terms: terms.as_slice(),
                number,
            };
            inline_atom(alloc, text, scene, met)
        }
        RawKind::Compare { left, op, right } => {
            let kind = comparison(alloc, text, setting, *op, (left, right))?;
            boxed(alloc, place, kind)
        }
        RawKind::Member { term, point } => {
            let kind = membership(alloc, text, setting, term, *point)?;
            boxed(alloc, place, kind)
        }
        RawKind::Not { of } => inline_negation(alloc, text, scene, place, of),
        RawKind::Group { of } => inline_group(alloc, text, scene, place, of),
        RawKind::And { of } => inline_joined(alloc, text, scene, (place, Connective::And), of),
        RawKind::Or { of } => inline_joined(alloc, text, scene, (place, Connective::Or), of),
        RawKind::Implies { left, right } => {
            inline_implication(alloc, text, scene, place, (left, right))
        }
        RawKind::Exists { binder, of } => {
            let at = Binding {
                place,
                quantifier: QuantifierKind::Exists,
                binder,
            };
            inline_quantified(alloc, text, scene, at, of)
        }
        RawKind::Forall { binder, of } => {
            let at = Binding {
                place,
                quantifier: QuantifierKind::Forall,
                binder,
            };
            inline_quantified(alloc, text, scene, at, of)
        }
        // No operator is left.
        RawKind::Ranged { .. } | RawKind::Paired { .. } => unreachable!(),
    }
}

#[cycle(inlining)]
fn inline_negation(
    alloc: Global,
    text: &mut NameText,
    scene: &Scene<'_>,
    place: Place,
    of: &RawFormula,
) -> Result<Box<RawFormula>, Memory>
    requires plain { HasNoOperator (raw_form_of of.now) }
    requires definitions { IsWholeIfAny scene.now.written }
    ensures { IfOk result (λ made. (file : RawFileView) → IsAround scene.now file
        → raw_form_of made.value
        ≡ raw_not place (inlined_here scene.now file (raw_form_of of.now))) }
{
    let of = inline(alloc, text, scene, of)?;
    denied(alloc, place, of)
}

#[cycle(inlining)]
fn inline_group(
    alloc: Global,
    text: &mut NameText,
    scene: &Scene<'_>,
    place: Place,
    of: &RawFormula,
) -> Result<Box<RawFormula>, Memory>
    requires plain { HasNoOperator (raw_form_of of.now) }
    requires definitions { IsWholeIfAny scene.now.written }
    ensures { IfOk result (λ made. (file : RawFileView) → IsAround scene.now file
        → raw_form_of made.value
        ≡ raw_group place (inlined_here scene.now file (raw_form_of of.now))) }
{
    let of = inline(alloc, text, scene, of)?;
    grouped(alloc, place, of)
}

#[cycle(inlining)]
fn inline_implication(
    alloc: Global,
    text: &mut NameText,
    scene: &Scene<'_>,
    place: Place,
    sides: (&RawFormula, &RawFormula),
) -> Result<Box<RawFormula>, Memory>
    requires left { HasNoOperator (raw_form_of sides.0.now) }
    requires right { HasNoOperator (raw_form_of sides.1.now) }
    requires definitions { IsWholeIfAny scene.now.written }
    ensures { IfOk result (λ made. (file : RawFileView) → IsAround scene.now file
        → raw_form_of made.value ≡ raw_implies place
        (inlined_here scene.now file (raw_form_of sides.entry.0.now))
        (inlined_here scene.now file (raw_form_of sides.entry.1.now))) }
{
    let (left, right) = sides;
    let left = inline(alloc, text, scene, left)?;
    let right = inline(alloc, text, scene, right)?;
    implied(alloc, place, left, right)
}

#[cycle(inlining)]
fn inline_joined(
    alloc: Global,
    text: &mut NameText,
    scene: &Scene<'_>,
    at: (Place, Connective),
    of: &[RawFormula],
) -> Result<Box<RawFormula>, Memory>
    requires plain { HaveNoOperator (raw_forms_of of.now) }
    requires definitions { IsWholeIfAny scene.now.written }
    ensures { IfOk result (λ made. (file : RawFileView) → IsAround scene.now file
        → raw_form_of made.value ≡ joined_form at.1 at.0
        (each_inlined_here scene.now file (raw_forms_of of.now))) }
{
    let of = inline_each(alloc, text, scene, of)?;
    let (place, connective) = at;
    joined(alloc, place, connective, of)
}

#[cycle(inlining)]
fn inline_each(
    alloc: Global,
    text: &mut NameText,
    scene: &Scene<'_>,
    fs: &[RawFormula],
) -> Result<Vec<RawFormula>, Memory>
    requires plain { HaveNoOperator (raw_forms_of fs.now) }
    requires definitions { IsWholeIfAny scene.now.written }
    ensures { IfOk result (λ made. (file : RawFileView) → IsAround scene.now file
        → raw_forms_of made.items
        ≡ each_inlined_here scene.now file (raw_forms_of fs.now)) }
{
    let mut all = Vec::with_capacity(alloc, fs.len())?;
    for f in fs {
        let made = inline(alloc, text, scene, f)?;
        let g = Box::into_inner(made);
        all.push(g)?;
    }
    Ok(all)
}

#[cycle(inlining)]
fn inline_quantified(
    alloc: Global,
    text: &mut NameText,
    scene: &Scene<'_>,
    at: Binding<'_>,
    of: &RawFormula,
) -> Result<Box<RawFormula>, Memory>
    requires plain { HasNoOperator (raw_form_of of.now) }
    requires definitions { IsWholeIfAny scene.now.written }
    ensures { IfOk result (λ made. (file : RawFileView) → IsAround scene.now file
        → raw_form_of made.value ≡ quantified_form at.entry.quantifier at.entry.place
        (set_column (setting_of scene.now.setting) at.entry.binder.now)
        (inlined_here scene.now file (raw_form_of of.now))) }
{
    let binder = scene.setting.binder(alloc, text, at.binder)?;
    let of = inline(alloc, text, scene, of)?;
    quantified(alloc, at.place, at.quantifier, binder, of)
}

// The definition that a name means, among those that an atom of the scene may name.
fn meaning_of<'a>(scene: &Scene<'a>, name: &Name) -> Option<Named<'a>>
    requires { IsWholeIfAny scene.now.written }
    ensures { IsMeant scene.now name.now result }
{
    let written = scene.written?;
    let definitions = written.definitions;
    let number = definitions.number(name, scene.setting.before)?;
    Some(Named { written, number })
}

// An atom of a definition or of a relation.
#[cycle(inlining)]
fn inline_atom(
    alloc: Global,
    text: &mut NameText,
    scene: &Scene<'_>,
    met: Met<'_>,
) -> Result<Box<RawFormula>, Memory>
    requires { IsWholeIfAny scene.now.written }
    ensures { IfOk result (λ made. (file : RawFileView) → IsAround scene.now file
        → raw_form_of made.value ≡ met_form scene.now file met.entry) }
{
    match meaning_of(scene, met.name) {
        Some(named) => inline_use(alloc, text, scene, met, named),
        None => starred_atom(alloc, text, scene.catalog, &scene.setting, met),
    }
}

// The formula of the definition that an atom names, with the terms of the atom for its columns.
#[cycle(inlining)]
fn inline_use(
    alloc: Global,
    text: &mut NameText,
    scene: &Scene<'_>,
    met: Met<'_>,
    named: Named<'_>,
) -> Result<Box<RawFormula>, Memory>
    requires named { IsNamedIn scene.now named }
    requires definitions { IsWholeIfAny scene.now.written }
    ensures { IfOk result (λ made. (file : RawFileView) → IsAround scene.now file
        → IsUsed scene.now file met.entry named.entry.number (raw_form_of made.value)) }
{
    let columns = named.relation().columns.as_slice();
    let given = arguments_of(alloc, text, &scene.setting, met, columns)?;
    let Arguments {
        next,
        stars,
        columns,
        comparisons,
        passed,
    } = given;
    let body = UsedBody {
        named,
        number: met.number,
        place: met.place,
        first: next,
        passed,
    };
    let of = inline_body(alloc, text, scene, body)?;
    let all = with_comparisons(alloc, met.place, comparisons, of)?;
    let compared = some_each(alloc, met.place, columns, all)?;
    some_each(alloc, met.place, stars, compared)
}

// What a body becomes.
#[cycle(inlining)]
fn inline_body(
    alloc: Global,
    text: &mut NameText,
    scene: &Scene<'_>,
    body: UsedBody<'_>,
) -> Result<Box<RawFormula>, Memory>
    requires named { IsNamedIn scene.now body.named }
    requires definitions { IsWholeIfAny scene.now.written }
    ensures { IfOk result (λ made. (file : RawFileView) → IsAround scene.now file
        → IsUsedBody scene.now file body.entry (raw_form_of made.value)) }
{
    let last = last_body(alloc, text, scene, body)?;
    let around = Scene {
        catalog: scene.catalog,
        written: scene.written,
        setting: last.setting()?,
    };
    inline(alloc, text, &around, &last.named.text().body)
}

// The body at the end of the chain that a body's definition begins. So a chain of definitions that each only name the one before
// takes one step, however long it is.
fn last_body<'a>(
    alloc: Global,
    text: &mut NameText,
    scene: &Scene<'_>,
    body: UsedBody<'a>,
) -> Result<UsedBody<'a>, Memory>
    requires named { IsNamedIn scene.now body.named }
    requires definitions { IsWholeIfAny scene.now.written }
    ensures { IfOk result (IsPassedOn scene.now body.entry) }
{
    match body.named.chain() {
        Some(chain) => body_at_end(alloc, text, scene, &body, chain),
        None => Ok(body),
    }
}

// The body at the end of a chain.
fn body_at_end<'a>(
    alloc: Global,
    text: &mut NameText,
    _scene: &Scene<'_>,
    body: &UsedBody<'a>,
    chain: &Chain,
) -> Result<UsedBody<'a>, Memory>
    requires named { IsNamedIn _scene.now body.now.named }
    requires chain { IsChain body.now.named.written.definitions.now body.now.named.written.plain.now
        body.now.named.number chain.now }
    ensures { IfOk result (IsPassedOn _scene.now body.now) }
{
    let setting = body.setting()?;
    let named = Named {
        written: body.named.written,
        number: chain.end,
    };
    let columns = named.relation().columns.as_slice();
    let passed = passed_on(alloc, text, &setting, columns, chain.names.as_slice())?;
    let first = plus(body.first, chain.steps)?;
    Ok(UsedBody {
        named,
        number: first - 1,
        place: body.place,
        first,
        passed,
    })
}

// Columns that are these variables of a setting.
fn passed_on<'a>(
    alloc: Global,
    text: &mut NameText,
    setting: &UseSetting<'_>,
    columns: &'a [Column],
    variables: &[Name],
) -> Result<Vec<Passed<'a>>, Memory>
    ensures { IfOk result (λ made. passed_of
        (as_themselves (setting_of setting.now).name columns.now variables.now) made.items) }
{
    let mut all = Vec::with_capacity(alloc, columns.len())?;
    for i in 0..columns.len().min(variables.len()) {
        let name = setting.name(alloc, text, &variables[i])?;
        let column = &columns[i].name;
        all.push(Passed { column, name })?;
    }
    Ok(all)
}

// The query whose own text a scene has, written out where it stands.
fn written_in_place(alloc: Global, scene: &Scene<'_>, query: RawQuery) -> Result<RawQuery, Memory>
    requires own { scene.now.setting.used ≡ None }
    requires plain { HasNoOperator (raw_form_of query.body) }
    requires definitions { IsWholeIfAny scene.now.written }
    ensures head { IfOk result (λ made. made.head ≡ query.head) }
    ensures body { IfOk result (λ made. IsWrittenIn scene.now
        (raw_form_of query.body) (raw_form_of made.body)) }
{
    let (head, body) = query.into_parts();
    let mut body = body;
    write_out(alloc, &mut NameText::new(alloc), scene, &mut body)?;
    Ok(RawQuery { head, body })
}

// Writes out a formula of the query's own text where it stands: what is no use of a definition and has no `*` stays.
#[cycle(writing)]
fn write_out(
    alloc: Global,
    text: &mut NameText,
    scene: &Scene<'_>,
    f: &mut RawFormula,
) -> Result<(), Memory>
    requires own { scene.now.setting.used ≡ None }
    requires plain { HasNoOperator (raw_form_of f.old) }
    requires definitions { IsWholeIfAny scene.now.written }
    ensures { OnOk result (IsWrittenIn scene.now (raw_form_of f.old) (raw_form_of f.new)) }
{
    if let Some(made) = written_atom(alloc, text, scene, f)? {
        *f = Box::into_inner(made);
        return Ok(());
    }
    match &mut f.kind {
        RawKind::Atom { .. } => Ok(()),
        RawKind::Compare { .. } => Ok(()),
        RawKind::Member { .. } => Ok(()),
        RawKind::Not { of } => {
            write_out(alloc, text, scene, of)?;
            Ok(())
        }
        RawKind::Group { of } => {
            write_out(alloc, text, scene, of)?;
            Ok(())
        }
        RawKind::Exists { of, .. } => {
            write_out(alloc, text, scene, of)?;
            Ok(())
        }
        RawKind::Forall { of, .. } => {
            write_out(alloc, text, scene, of)?;
            Ok(())
        }
        RawKind::And { of } => {
            write_each_out(alloc, text, scene, of)?;
            Ok(())
        }
        RawKind::Or { of } => {
            write_each_out(alloc, text, scene, of)?;
            Ok(())
        }
        RawKind::Implies { left, right } => {
            write_out(alloc, text, scene, left)?;
            write_out(alloc, text, scene, right)
        }
        // No operator is left.
        RawKind::Ranged { .. } | RawKind::Paired { .. } => unreachable!(),
    }
}

#[cycle(writing)]
fn write_each_out(
    alloc: Global,
    text: &mut NameText,
    scene: &Scene<'_>,
    fs: &mut Vec<RawFormula>,
) -> Result<(), Memory>
    requires own { scene.now.setting.used ≡ None }
    requires plain { HaveNoOperator (raw_forms_of fs.old.items) }
    requires definitions { IsWholeIfAny scene.now.written }
    ensures { OnOk result (AreWrittenIn scene.now (raw_forms_of fs.old.items)
        (raw_forms_of fs.new.items)) }
{
    for i in 0..fs.len() {
        write_out(alloc, text, scene, &mut fs[i])?;
    }
    Ok(())
}

// What an atom of a definition, or one with a `*`, becomes; nothing else is written anew.
fn written_atom(
    alloc: Global,
    text: &mut NameText,
    scene: &Scene<'_>,
    f: &RawFormula,
) -> Result<Option<Box<RawFormula>>, Memory>
    requires own { scene.now.setting.used ≡ None }
    requires definitions { IsWholeIfAny scene.now.written }
    ensures { IfOk result (IsAtomWritten scene.now f.now) }
{
    let RawKind::Atom { relation, terms } = &f.kind else {
        return Ok(None);
    };
    let terms = terms.as_slice();
    let Some(named) = meaning_of(scene, relation) else {
        if has_no_star(terms) {
            return Ok(None);
        }
        let met = own_met(scene, f.place, relation, terms)?;
        let made = starred_atom(alloc, text, scene.catalog, &scene.setting, met)?;
        return Ok(Some(made));
    };
    let met = own_met(scene, f.place, relation, terms)?;
    let made = inline_use(alloc, text, scene, met, named)?;
    Ok(Some(made))
}

// An atom of the query's own text, as it is met.
fn own_met<'a>(
    scene: &Scene<'_>,
    place: Place,
    name: &'a Name,
    terms: &'a [RawTerm],
) -> Result<Met<'a>, Memory>
    ensures place { IfOk result (λ met. met.place ≡ place) }
    ensures name { IfOk result (λ met. met.name ≡ name.entry) }
    ensures terms { IfOk result (λ met. met.terms ≡ terms.entry) }
    ensures number { IfOk result (λ met. met.number
        ≡ (setting_of scene.now.setting).number place) }
{
    let number = scene.setting.number(place)?;
    Ok(Met {
        place,
        name,
        terms,
        number,
    })
}
