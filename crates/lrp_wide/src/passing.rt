// What the terms of a use bring for the columns of its definition.
ghost use Rattle.std.specs.Prelude.{◌≡◌, ◌<◌, ◌+◌, ◌++◌, [], ◌∷◌, suc, map, IfOk, OnOk};
ghost use Rattle.lrp_model.specs.RawQueries.{raw_compare, raw_form_of};
ghost use Rattle.lrp_wide.specs.Inlining.{plain_variable as variable_in};
ghost use Rattle.lrp_wide.specs.Inside.{AreArguments};
ghost use Rattle.lrp_wide.specs.Settings.{setting_of};

use crate::atoms::Met;
use crate::names::{NameText, is_star};
use crate::numbering::plus;
use crate::uses::{Passed, UseSetting, added, equal};
use lrp_model::{Column, Memory, Name, Place, RawColumn, RawFormula, RawTerm, RawTermKind};
use std::alloc::Global;

/// What a use brings: the variables of its `*`, the columns that are compared and their comparisons, the columns that are
/// variables themselves, and the next number.
#[derive(Drop)]
pub struct Arguments<'a> {
    pub next: u64,
    pub stars: Vec<RawColumn>,
    pub columns: Vec<RawColumn>,
    pub comparisons: Vec<RawFormula>,
    pub passed: Vec<Passed<'a>>,
}

impl<'a> Arguments<'a> {
    ghost use Rattle.std.specs.Prelude.{◌≡◌, ◌+◌, ◌++◌, [], ◌∷◌, map, OnOk};
    ghost use Rattle.lrp_model.specs.RawQueries.{raw_form_of};
    ghost use Rattle.lrp_wide.specs.Inside.{IsArgumentCompared, IsItself, IsStar};

    // None yet, where the next number is this.
    fn new(alloc: Global, next: u64) -> Self
        ensures next { result.next ≡ next }
        ensures stars { result.stars.items ≡ [] }
        ensures columns { result.columns.items ≡ [] }
        ensures comparisons { result.comparisons.items ≡ [] }
        ensures passed { result.passed.items ≡ [] }
    {
        Arguments {
            next,
            stars: Vec::new(alloc),
            columns: Vec::new(alloc),
            comparisons: Vec::new(alloc),
            passed: Vec::new(alloc),
        }
    }

    // A column whose term is a `*`.
    fn star(
        &mut self,
        alloc: Global,
        text: &mut NameText,
        place: Place,
        column: &'a Column,
    ) -> Result<(), Memory>
        ensures { OnOk result (IsStar self.old place column.now self.new) }
    {
        let name = text.star(alloc, self.next)?;
        self.next = plus(self.next, 1)?;
        let binder = added(alloc, place, name.copy(alloc)?, &column.sort)?;
        self.stars.push(binder)?;
        let column = &column.name;
        self.passed.push(Passed { column, name })?;
        Ok(())
    }

    // A column whose term is this variable.
    fn itself(&mut self, column: &'a Column, name: Name) -> Result<(), Memory>
        ensures { OnOk result (IsItself self.old column.now name self.new) }
    {
        let column = &column.name;
        self.passed.push(Passed { column, name })?;
        Ok(())
    }

    // A column that is compared with this term, by a variable of its own.
    fn compare(&mut self, alloc: Global, binder: RawColumn, term: RawTerm) -> Result<(), Memory>
        ensures { OnOk result (IsArgumentCompared self.old binder term self.new) }
    {
        let name = binder.name.copy(alloc)?;
        self.comparisons.push(equal(binder.place, name, term))?;
        self.columns.push(binder)?;
        Ok(())
    }
}

/// What the terms of an atom bring for these columns.
pub fn arguments_of<'b>(
    alloc: Global,
    text: &mut NameText,
    setting: &UseSetting<'_>,
    met: Met<'_>,
    columns: &'b [Column],
) -> Result<Arguments<'b>, Memory>
    ensures { IfOk result (λ made. AreArguments (setting_of setting.now) met.entry
        columns.now made) }
{
    let mut given = Arguments::new(alloc, plus(met.number, 1)?);
    for i in 0..columns.len().min(met.terms.len()) {
        let column = &columns[i];
        let term = &met.terms[i];
        if is_star(term) {
            given.star(alloc, text, met.place, column)?;
        } else if let RawTermKind::Var { name } = &term.kind {
            given.itself(column, setting.name(alloc, text, name)?)?;
        } else {
            let name = text.inner(alloc, &column.name, met.number)?;
            let binder = added(alloc, met.place, name, &column.sort)?;
            let term = setting.term(alloc, text, term)?;
            given.compare(alloc, binder, term)?;
        }
    }
    Ok(given)
}
