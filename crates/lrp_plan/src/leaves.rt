// The steps of core forms that have no part, and the step of a quantifier.
ghost use Rattle.std.specs.Prelude.{ℕ, map, OnOk};
ghost use Rattle.lrp_core.specs.Cores.{test_of};
ghost use Rattle.lrp_model.specs.Formulas.{atom, test as test_form, sorted};
ghost use Rattle.lrp_model.specs.RawTerms.{said_term};
ghost use Rattle.lrp_model.specs.Satisfaction.{Structure};
ghost use Rattle.lrp_model.specs.Steps.{drop_of};
ghost use Rattle.lrp_plan.specs.Drafts.{Extends};
ghost use Rattle.lrp_plan.specs.Elements.{MakesSteps};
ghost use Rattle.lrp_plan.specs.Sources.{AreSources};

use crate::drafts::Draft;
use crate::sources::Sources;
use lrp_core::{TermTest, copy_terms};
use lrp_model::{Copies, Memory, Name, RawTerm, Sort};
use std::alloc::Global;

/// The step of an atom.
pub fn plan_atom(
    sources: &Sources<'_>,
    draft: &mut Draft,
    relation: &Name,
    terms: &[RawTerm],
) -> Result<(), Memory>
    ensures { OnOk result ((M : Structure) (K : ℕ) → AreSources M sources.now
        → MakesSteps M K (atom relation.now (map said_term terms.now)) draft.old draft.new) }
{
    let alloc = sources.alloc;
    let facts = sources.facts(relation);
    let relation = relation.copy(alloc)?;
    let terms = copy_terms(alloc, terms)?;
    draft.scan(facts, relation, terms)
}

/// The step of a test.
pub fn plan_test(alloc: Global, draft: &mut Draft, test: &TermTest<'_>) -> Result<(), Memory>
    ensures { OnOk result ((M : Structure) (K : ℕ)
        → MakesSteps M K (test_form (test_of test.now)) draft.old draft.new) }
{
    let test = test.owned(alloc)?;
    draft.leaf(test)
}

/// The step of a sort element.
pub fn plan_sorted(
    sources: &Sources<'_>,
    draft: &mut Draft,
    sort: &Sort,
    name: &Name,
) -> Result<(), Memory>
    ensures { OnOk result ((M : Structure) (K : ℕ) → AreSources M sources.now
        → MakesSteps M K (sorted sort.now name.now) draft.old draft.new) }
{
    let alloc = sources.alloc;
    let texts = sources.texts(sort)?;
    let name = name.copy(alloc)?;
    let sort = sort.copy(alloc)?;
    draft.sort(name, sort, texts)
}

/// The last step without the variable that a quantifier binds.
pub fn plan_drop(alloc: Global, draft: &mut Draft, name: &Name, sort: &Sort) -> Result<(), Memory>
    ensures { OnOk result ((M : Structure) (K : ℕ)
        → Extends M K (drop_of name.now sort.now) draft.old draft.new) }
{
    let name = name.copy(alloc)?;
    draft.drop_variable(name, sort)
}
