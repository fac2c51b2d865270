// The core form of a formula, of its negation, and of a query.
ghost use Rattle.std.specs.Prelude.{◌≡◌, map, IfOk, OnOk};
ghost use Rattle.lrp_model.specs.Formulas.{form_of, forms_of, question_of, atom, conjunction, exists, forall, sorted as sorted_form, joined, form, no_forms};
ghost use Rattle.lrp_model.specs.RawTerms.{said_term};
ghost use Rattle.lrp_model.specs.Core.{core_form as core_form_of, with_sort, column_elements, head_elements as elements_of, and_list};
ghost use Rattle.lrp_core.specs.Cores.{core_of, cores_of};
ghost use Rattle.lrp_core.specs.Junctions.{all_elements, elements, joined_elements, two_of};
ghost use Rattle.lrp_core.specs.Polarities.{all_formed as all_formed_of, choice as choice_of, formed as formed_of, opposite};

use crate::Core;
use crate::comparisons::membership;
use crate::junctions::Junction;
use crate::polarities::Polarity;
use lrp_model::{Column, List, Memory, Name, Query, RawColumn, RawFormula, RawKind, RawTerm, Sort};
use std::alloc::Global;

/// The core form of a query. `named` says whether some column of the database has a named sort.
pub fn core_form(alloc: Global, query: &Query, named: bool) -> Result<Core, Memory>
    ensures { IfOk result (λ core. core_of core ≡ core_form_of named (question_of query.now)) }
{
    let forming = Forming {
        named,
        polarity: Polarity::Positive,
    };
    let body = formed(alloc, forming, &query.body)?;
    if named {
        guarded(alloc, query.head.columns.as_slice(), body)
    } else {
        Ok(body)
    }
}

// The sort elements of the data columns, and then the formula.
fn guarded<'a>(alloc: Global, columns: &'a [Column], body: Core<'a>) -> Result<Core<'a>, Memory>
    ensures { IfOk result (λ core. core_of core
        ≡ and_list (joined (elements_of columns.now) (form (core_of body.entry) no_forms))) }
{
    let mut of = head_elements(alloc, columns)?;
    body.push_conjunct(&mut of)?;
    Ok(Core::And { of })
}

// The sort elements of the data columns, in order.
fn head_elements<'a>(alloc: Global, columns: &'a [Column]) -> Result<Vec<Core<'a>>, Memory>
    ensures { IfOk result (λ made. cores_of made.items ≡ elements_of columns.now) }
{
    let mut all = Vec::new(alloc);
    for column in columns {
        push_column(&mut all, column)?;
    }
    Ok(all)
}

// The sort element of a data column.
fn push_column<'a>(all: &mut Vec<Core<'a>>, column: &'a Column) -> Result<(), Memory>
    ensures { OnOk result (cores_of all.new.items
        ≡ joined (cores_of all.old.items) (column_elements column.now.sort column.now.name)) }
{
    if !column.sort.is_time() {
        all.push(sorted(&column.sort, &column.name))?;
    }
    Ok(())
}

fn sorted<'a>(sort: &'a Sort, name: &'a Name) -> Core<'a>
    ensures { core_of result ≡ sorted_form sort.now name.now }
{
    Core::Sorted { sort, name }
}

// Where sorts are named, a quantifier over a data sort takes its formula with the sort element of its variable.
fn with_sorted<'a>(
    alloc: Global,
    named: bool,
    sort: &'a Sort,
    name: &'a Name,
    f: Core<'a>,
) -> Result<Core<'a>, Memory>
    ensures { IfOk result (λ core. core_of core
        ≡ with_sort named sort.now name.now (core_of f.entry)) }
{
    if named && !sort.is_time() {
        Junction::And.two(alloc, sorted(sort, name), f)
    } else {
        Ok(f)
    }
}

fn some<'a>(
    alloc: Global,
    named: bool,
    binder: &'a RawColumn,
    f: Core<'a>,
) -> Result<Core<'a>, Memory>
    ensures { IfOk result (λ core. core_of core
        ≡ exists binder.now.name binder.now.sort
        (with_sort named binder.now.sort binder.now.name (core_of f.entry))) }
{
    let (name, sort) = (&binder.name, &binder.sort);
    let of = Box::new(alloc, with_sorted(alloc, named, sort, name, f)?)?;
    Ok(Core::Exists { name, sort, of })
}

fn holding<'a>(relation: &'a Name, terms: &'a List<RawTerm>) -> Core<'a>
    ensures { core_of result ≡ atom relation.now (map said_term terms.now) }
{
    Core::Atom { relation, terms }
}

// Which core form of a formula is made: its own, or that of its negation. The same functions make both: they call one
// another in a circle, which is proved as a whole.
#[derive(Clone, Copy)]
struct Forming {
    named: bool,
    polarity: Polarity,
}

impl Forming {
    fn under(self, polarity: Polarity) -> Forming
        ensures { result ≡ record { named = self.named; polarity = polarity } }
    {
        Forming {
            named: self.named,
            polarity,
        }
    }

    fn denied(self) -> Forming
        ensures { result ≡ record { named = self.named; polarity = opposite self.polarity } }
    {
        self.under(self.polarity.opposite())
    }
}

#[cycle(forming)]
fn formed<'a>(alloc: Global, forming: Forming, f: &'a RawFormula) -> Result<Core<'a>, Memory>
    ensures { IfOk result (λ core. core_of core
        ≡ formed_of forming.polarity (form_of f.now) forming.named) }
{
    let polarity = forming.polarity;
    match &f.kind {
        RawKind::Atom { relation, terms } => polarity.signed(alloc, holding(relation, terms)),
        RawKind::Compare { left, op, right } => polarity.comparison(alloc, left, *op, right),
        RawKind::Member { term, point } => polarity.signed(alloc, membership(term, *point)),
        RawKind::Group { of } => formed(alloc, forming, of),
        RawKind::Ranged { of, .. } => formed(alloc, forming, of),
        RawKind::Paired { right, .. } => formed(alloc, forming, right),
        RawKind::Not { of } => formed(alloc, forming.denied(), of),
        RawKind::And { of } => formed_conjunction(alloc, forming, of),
        RawKind::Or { of } => all_formed(alloc, forming, polarity.choice(), of),
        RawKind::Implies { left, right } => {
            let left = formed(alloc, forming.denied(), left)?;
            formed_implication(alloc, forming, right, left)
        }
        RawKind::Exists { binder, of } => formed_existential(alloc, forming, binder, of),
        RawKind::Forall { binder, of } => formed_universal(alloc, forming, binder, of),
    }
}

#[cycle(forming)]
fn formed_conjunction<'a>(
    alloc: Global,
    forming: Forming,
    fs: &'a [RawFormula],
) -> Result<Core<'a>, Memory>
    ensures { IfOk result (λ core. core_of core
        ≡ formed_of forming.polarity (conjunction (forms_of fs.now)) forming.named) }
{
    let all = all_formed(alloc, forming.under(Polarity::Positive), Junction::And, fs)?;
    forming.polarity.signed(alloc, all)
}

// The core form of an implication whose left side, or its negation, is this one.
#[cycle(forming)]
fn formed_implication<'a>(
    alloc: Global,
    forming: Forming,
    f: &'a RawFormula,
    left: Core<'a>,
) -> Result<Core<'a>, Memory>
    ensures { IfOk result (λ core. core_of core ≡ two_of (choice_of forming.polarity)
        (core_of left.entry) (formed_of forming.polarity (form_of f.now) forming.named)) }
{
    let right = formed(alloc, forming, f)?;
    forming.polarity.choice().two(alloc, left, right)
}

#[cycle(forming)]
fn formed_existential<'a>(
    alloc: Global,
    forming: Forming,
    binder: &'a RawColumn,
    f: &'a RawFormula,
) -> Result<Core<'a>, Memory>
    ensures { IfOk result (λ core. core_of core ≡ formed_of forming.polarity
        (exists binder.now.name binder.now.sort (form_of f.now)) forming.named) }
{
    let of = formed(alloc, forming.under(Polarity::Positive), f)?;
    let core = some(alloc, forming.named, binder, of)?;
    forming.polarity.signed(alloc, core)
}

#[cycle(forming)]
fn formed_universal<'a>(
    alloc: Global,
    forming: Forming,
    binder: &'a RawColumn,
    f: &'a RawFormula,
) -> Result<Core<'a>, Memory>
    ensures { IfOk result (λ core. core_of core ≡ formed_of forming.polarity
        (forall binder.now.name binder.now.sort (form_of f.now)) forming.named) }
{
    let of = formed(alloc, forming.under(Polarity::Negative), f)?;
    let core = some(alloc, forming.named, binder, of)?;
    forming.polarity.opposite().signed(alloc, core)
}

// All of the formulas, or of their negations, joined.
#[cycle(forming)]
fn all_formed<'a>(
    alloc: Global,
    forming: Forming,
    junction: Junction,
    fs: &'a [RawFormula],
) -> Result<Core<'a>, Memory>
    ensures { IfOk result (λ core. core_of core ≡ joined_elements junction
        (all_formed_of forming.polarity (forms_of fs.now) forming.named)) }
{
    let mut of = Vec::with_capacity(alloc, fs.len())?;
    push_all(alloc, forming, junction, fs, &mut of)?;
    Ok(junction.of(of))
}

// Their elements, after the others.
#[cycle(forming)]
fn push_all<'a>(
    alloc: Global,
    forming: Forming,
    junction: Junction,
    fs: &'a [RawFormula],
    all: &mut Vec<Core<'a>>,
) -> Result<(), Memory>
    ensures { OnOk result (cores_of all.new.items ≡ joined (cores_of all.old.items)
        (all_elements junction (all_formed_of forming.polarity (forms_of fs.now) forming.named))) }
{
    for f in fs {
        push_one(alloc, forming, junction, f, all)?;
    }
    Ok(())
}

// Those of one formula; an inner list takes no list of its own, so its elements aren't moved once for each level.
#[cycle(forming)]
fn push_one<'a>(
    alloc: Global,
    forming: Forming,
    junction: Junction,
    f: &'a RawFormula,
    all: &mut Vec<Core<'a>>,
) -> Result<(), Memory>
    ensures { OnOk result (cores_of all.new.items ≡ joined (cores_of all.old.items)
        (elements junction (formed_of forming.polarity (form_of f.now) forming.named))) }
{
    let polarity = forming.polarity;
    match &f.kind {
        RawKind::Group { of } => push_one(alloc, forming, junction, of, all),
        RawKind::Ranged { of, .. } => push_one(alloc, forming, junction, of, all),
        RawKind::Paired { right, .. } => push_one(alloc, forming, junction, right, all),
        RawKind::And { of } if polarity == Polarity::Positive && junction == Junction::And => {
            push_all(alloc, forming, junction, of, all)
        }
        RawKind::Or { of } if junction == polarity.choice() => {
            push_all(alloc, forming, junction, of, all)
        }
        RawKind::Not { of } => push_one(alloc, forming.denied(), junction, of, all),
        _ => push_formed(alloc, forming, junction, f, all),
    }
}

// The elements of its core form.
#[cycle(forming)]
fn push_formed<'a>(
    alloc: Global,
    forming: Forming,
    junction: Junction,
    f: &'a RawFormula,
    all: &mut Vec<Core<'a>>,
) -> Result<(), Memory>
    ensures { OnOk result (cores_of all.new.items ≡ joined (cores_of all.old.items)
        (elements junction (formed_of forming.polarity (form_of f.now) forming.named))) }
{
    let core = formed(alloc, forming, f)?;
    junction.push(core, all)
}
