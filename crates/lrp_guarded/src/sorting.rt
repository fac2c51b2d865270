// The elements of an `and` by what they are.
ghost use Rattle.std.specs.Prelude.{◌≡◌, ℕ, [], Some, List as ListOf, slice_get, IfOk, OnOk};
ghost use Rattle.lrp_core.specs.Cores.{core_of, cores_of, test_of};
ghost use Rattle.lrp_core.specs.declared.core_forms.Core.{Core as CoreForm};
ghost use Rattle.lrp_core.specs.declared.variable_trees.VariableTree.{VariableTree as TreeOf};
ghost use Rattle.lrp_model.specs.Formulas.{conjunction};
ghost use Rattle.lrp_plan_laws.specs.Projections.{PlanGround as Ground};
ghost use Rattle.lrp_plan.specs.Elements.{AreInner, EachCanPlan};
ghost use Rattle.lrp_plan.specs.Sources.{AreSources};
ghost use Rattle.lrp_guarded.specs.Standing.{AreElements, elements_in};
ghost use Rattle.lrp_guarded.specs.Sorting.{SortsElements as SortsOut, AddsCheck, entry_count as count_of};

use crate::elements::{Elements, Part, RankedAtom, RankedSort};
use lrp_core::{Core, TermTest, VariableTree};
use lrp_model::{List, Memory, numbered};
use lrp_plan::sources::Sources;
use std::alloc::Global;

impl<'a> Elements<'a> {
    /// No elements.
    pub(crate) fn none(alloc: Global) -> Elements<'a>
        ensures atoms { result.atoms.items ≡ [] }
        ensures sorts { result.sorts.items ≡ [] }
        ensures others { result.others.items ≡ [] }
        ensures tests { result.tests ≡ [] }
        ensures negations { result.negations.items ≡ [] }
    {
        Elements {
            atoms: Vec::new(alloc),
            sorts: Vec::new(alloc),
            others: Vec::new(alloc),
            tests: List::new(alloc),
            negations: Vec::new(alloc),
        }
    }

    /// The elements of an `and`, with their trees.
    pub(crate) fn of(
        sources: &Sources<'_>,
        of: &'a [Core<'_>],
        inner: &'a [VariableTree],
    ) -> Result<Elements<'a>, Memory>
        ensures { IfOk result (λ made. (over : Ground) (K : ℕ)
            → AreSources over.structure sources.now
            → AreInner inner.now (conjunction (cores_of of.now))
            → EachCanPlan over.structure K of.now
            → AreElements over K of.now made (elements_in (cores_of of.now))) }
    {
        let mut all = Elements::none(sources.alloc);
        for (index, core) in of.iter().enumerate() {
            all.add_at(sources, index, core, inner)?;
        }
        all.atoms.sort_by_key(|atom: &RankedAtom<'_>| atom.rows)?;
        all.sorts.sort_by_key(|sort: &RankedSort<'_>| sort.texts)?;
        Ok(all)
    }

    /// How many there are; memory is refused at 2^32 of them.
    pub(crate) fn count(&self) -> Result<usize, Memory>
        ensures { IfOk result (λ count. count ≡ count_of self.now) }
    {
        let checks = self.tests.len().saturating_add(self.negations.len());
        let parts = self.others.len().saturating_add(checks);
        let elements = self.sorts.len().saturating_add(parts);
        let count = numbered(self.atoms.len().saturating_add(elements))?;
        Ok(count as usize)
    }

    // The element at this place, with the tree at this place.
    fn add_at(
        &mut self,
        sources: &Sources<'_>,
        index: usize,
        core: &'a Core<'_>,
        inner: &'a [VariableTree],
    ) -> Result<(), Memory>
        ensures { OnOk result ((over : Ground) (K : ℕ) (own : TreeOf)
            → AreSources over.structure sources.now → slice_get inner.now index ≡ Some own
            → SortsOut over K index core.now own self.old self.new) }
    {
        if index < inner.len() {
            self.add(sources, index, core, &inner[index])?;
        }
        Ok(())
    }

    // The element at this place, with its tree.
    fn add(
        &mut self,
        sources: &Sources<'_>,
        index: usize,
        core: &'a Core<'_>,
        tree: &'a VariableTree,
    ) -> Result<(), Memory>
        ensures { OnOk result ((over : Ground) (K : ℕ) → AreSources over.structure sources.now
            → SortsOut over K index core.now tree.now self.old self.new) }
    {
        match core {
            Core::Not { .. } => self.negations.push(Part { index, tree })?,
            Core::Check { test } => self.add_check(sources.alloc, test, Part { index, tree })?,
            Core::Atom { relation, terms } => self.atoms.push(RankedAtom {
                relation,
                terms,
                variables: &tree.variables,
                rows: sources.facts(relation).rows,
            })?,
            Core::Sorted { sort, name } => self.sorts.push(RankedSort {
                sort,
                name,
                variables: &tree.variables,
                texts: sources.count(sort),
            })?,
            Core::And { .. } => self.others.push(Part { index, tree })?,
            Core::Or { .. } => self.others.push(Part { index, tree })?,
            Core::Exists { .. } => self.others.push(Part { index, tree })?,
        }
        Ok(())
    }

    // A comparison or an equality is a test; an `in` is none.
    fn add_check(
        &mut self,
        alloc: Global,
        test: &TermTest<'_>,
        part: Part<'a>,
    ) -> Result<(), Memory>
        ensures { OnOk result (AddsCheck (test_of test.now) part.entry self.old self.new) }
    {
        if matches!(test, TermTest::Member { .. }) {
            self.others.push(part)?;
        } else {
            self.tests.push(test.owned(alloc)?)?;
        }
        Ok(())
    }
}
