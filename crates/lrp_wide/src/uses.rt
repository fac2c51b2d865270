// What the terms of an atom become: variables for `*`, and variables of columns that are compared with their terms.
ghost use Rattle.std.specs.Prelude.{◌≡◌, IfOk};
ghost use Rattle.lrp_model.specs.RawQueries.{raw_compare, raw_form_of};
ghost use Rattle.lrp_model.specs.declared.formulas.Op.TheVariants.{Eq};
ghost use Rattle.lrp_tense.specs.Expanding.{name_term};
ghost use Rattle.lrp_wide.specs.Inlining.{column_added, some_each as some_each_of};
ghost use Rattle.lrp_wide.specs.Settings.{and_after};

use crate::names::NameText;
use crate::numbering::{Numbers, plus};
use lrp_model::{
    Copies, Memory, Name, Op, Place, RawColumn, RawFormula, RawKind, RawTerm, RawTermKind, Sort,
};
use lrp_tense::{Connective, QuantifierKind, joined, quantified};
use std::alloc::Global;

/// A column of a definition, and the variable that stands for it in a use.
#[derive(Drop)]
pub struct Passed<'a> {
    pub column: &'a Name,
    pub name: Name,
}

/// A use of a definition: its number, where it stands, and the columns that are variables of its surroundings.
#[derive(Clone, Copy)]
pub struct Use<'a> {
    pub number: u64,
    pub place: Place,
    pub passed: &'a [Passed<'a>],
}

/// What is made of the names and places of a text: nothing in the query's own, and in a definition what its use says.
#[derive(Clone, Copy)]
pub struct UseSetting<'a> {
    pub used: Option<Use<'a>>,
    /// How many of the first definitions an atom may name.
    pub before: usize,
    /// The first number of the text, and how its atoms are numbered from there on, where they aren't each by itself.
    pub first: u64,
    pub numbers: Option<&'a Numbers>,
}

impl<'a> UseSetting<'a> {
    ghost use Rattle.std.specs.Prelude.{◌≡◌, IfOk};
    ghost use Rattle.lrp_wide.specs.Inlining.{set_column, set_term};
    ghost use Rattle.lrp_wide.specs.Settings.{setting_of};

    /// The number of the first use or `*` of the atom at a place.
    pub fn number(&self, place: Place) -> Result<u64, Memory>
        ensures { IfOk result (λ number. number ≡ (setting_of self.now).number place) }
    {
        match self.numbers {
            Some(numbers) => plus(self.first, numbers.before(place)),
            None => Ok(self.first),
        }
    }

    /// A place of the text.
    pub fn place(&self, place: Place) -> Place
        ensures { result ≡ (setting_of self.now).place place }
    {
        match &self.used {
            Some(used) => used.place,
            None => place,
        }
    }

    /// A name of the text.
    pub fn name(&self, alloc: Global, text: &mut NameText, name: &Name) -> Result<Name, Memory>
        ensures { IfOk result (λ made. made ≡ (setting_of self.now).name name.now) }
    {
        let Some(used) = &self.used else {
            return name.copy(alloc);
        };
        for passed in used.passed {
            if *passed.column == *name {
                return passed.name.copy(alloc);
            }
        }
        text.inner(alloc, name, used.number)
    }

    /// A term of the text.
    pub fn term(
        &self,
        alloc: Global,
        text: &mut NameText,
        term: &RawTerm,
    ) -> Result<RawTerm, Memory>
        ensures { IfOk result (λ made. made ≡ set_term (setting_of self.now) term.now) }
    {
        let kind = match &term.kind {
            RawTermKind::Int { value } => RawTermKind::Int { value: *value },
            RawTermKind::Text { text } => RawTermKind::Text {
                text: text.copy(alloc)?,
            },
            RawTermKind::Var { name } => RawTermKind::Var {
                name: self.name(alloc, text, name)?,
            },
            RawTermKind::Shifted { name, plus } => RawTermKind::Shifted {
                name: self.name(alloc, text, name)?,
                plus: *plus,
            },
        };
        Ok(RawTerm {
            kind,
            place: self.place(term.place),
        })
    }

    /// A binder of the text.
    pub fn binder(
        &self,
        alloc: Global,
        text: &mut NameText,
        binder: &RawColumn,
    ) -> Result<RawColumn, Memory>
        ensures { IfOk result (λ made. made ≡ set_column (setting_of self.now) binder.now) }
    {
        Ok(RawColumn {
            name: self.name(alloc, text, &binder.name)?,
            place: self.place(binder.place),
            sort: binder.sort.copy(alloc)?,
            sort_place: self.place(binder.sort_place),
        })
    }
}

/// A variable that is added at an atom.
pub fn added(alloc: Global, place: Place, name: Name, sort: &Sort) -> Result<RawColumn, Memory>
    ensures { IfOk result (λ made. made ≡ column_added place name sort.now) }
{
    Ok(RawColumn {
        name,
        place,
        sort: sort.copy(alloc)?,
        sort_place: place,
    })
}

/// A variable as a term.
pub fn variable(place: Place, name: Name) -> RawTerm
    ensures { result ≡ name_term place name }
{
    RawTerm {
        kind: RawTermKind::Var { name },
        place,
    }
}

/// An `=` of a variable and a term.
pub fn equal(place: Place, name: Name, term: RawTerm) -> RawFormula
    ensures { raw_form_of result ≡ raw_compare place (name_term place name) Eq term }
{
    RawFormula {
        kind: RawKind::Compare {
            left: variable(place, name),
            op: Op::Eq,
            right: term,
        },
        place,
    }
}

/// The formula under an `exists` for each of these, the first outermost.
pub fn some_each(
    alloc: Global,
    place: Place,
    binders: Vec<RawColumn>,
    of: Box<RawFormula>,
) -> Result<Box<RawFormula>, Memory>
    ensures { IfOk result (λ made. raw_form_of made.value
        ≡ some_each_of place binders.items (raw_form_of of.value)) }
{
    let mut left = binders;
    let mut made = of;
    while let Some(binder) = left.pop() {
        made = quantified(alloc, place, QuantifierKind::Exists, binder, made)?;
    }
    Ok(made)
}

/// The formula after these comparisons, in one `and`, where there are some.
pub fn with_comparisons(
    alloc: Global,
    place: Place,
    comparisons: Vec<RawFormula>,
    of: Box<RawFormula>,
) -> Result<Box<RawFormula>, Memory>
    ensures { IfOk result (λ made. raw_form_of made.value
        ≡ and_after place comparisons.items (raw_form_of of.value)) }
{
    if comparisons.is_empty() {
        return Ok(of);
    }
    let mut all = comparisons;
    all.push(Box::into_inner(of))?;
    joined(alloc, place, Connective::And, all)
}
