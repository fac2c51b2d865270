// The elements of an `and` by what they are.
ghost use Rattle.std.specs.Prelude.{◌≡◌, ◌<◌, ◌^◌, IfOk, OnOk, slice_get, Some};
ghost use Rattle.lrp_core.specs.Cores.{cores_of, test_of};
ghost use Rattle.lrp_core.specs.declared.variable_trees.VariableTree.{VariableTree as TreeOf};
ghost use Rattle.lrp_model.specs.Formulas.{conjunction};
ghost use Rattle.lrp_model.specs.Satisfaction.{Structure};
ghost use Rattle.lrp_model.specs.Conjunctions.{is_test as is_compared};
ghost use Rattle.lrp_plan.specs.Elements.{AreInner, IsSplitOf};
ghost use Rattle.lrp_plan.specs.Splits.{SortsOut, AddsPositive, AddsNegation};
ghost use Rattle.lrp_plan.specs.Sources.{AreSources};

use crate::elements::{Element, Split};
use crate::sources::Sources;
use lrp_core::{Core, TermTest, VariableTree};
use lrp_model::{List, Memory, Test};
use std::collections::VecDeque;

// The rank of an element that has no number of rows.
const NO_ROWS: u128 = 1 << 64;

/// The elements so far, each kind in list order.
#[derive(Drop)]
pub(crate) struct Parts<'a> {
    pub(crate) positives: Vec<Element<'a>>,
    pub(crate) tests: List<Test>,
    pub(crate) negations: VecDeque<Element<'a>>,
}

/// The positives in order of their ranks, and the tests and the negations, in list order. The elements' trees go with them.
pub(crate) fn split<'a>(
    sources: &Sources<'_>,
    of: &[Core<'_>],
    inner: &'a [VariableTree],
) -> Result<Split<'a>, Memory>
    ensures { IfOk result (λ made. (M : Structure) → AreSources M sources.now
        → AreInner inner.now (conjunction (cores_of of.now)) → IsSplitOf M of.now made) }
{
    let alloc = sources.alloc;
    let mut parts = Parts {
        positives: Vec::with_capacity(alloc, of.len())?,
        tests: List::new(alloc),
        negations: VecDeque::new(alloc),
    };
    for (index, core) in of.iter().enumerate() {
        sort_out_at(sources, &mut parts, index, core, inner)?;
    }
    let Parts {
        mut positives,
        tests,
        negations,
    } = parts;
    positives.sort_by_key(|element: &Element<'_>| element.rank)?;
    Ok(Split {
        positives: VecDeque::from_vec(positives),
        tests,
        negations,
    })
}

// The element at this place of the list, with the tree at this place.
fn sort_out_at<'a>(
    sources: &Sources<'_>,
    parts: &mut Parts<'a>,
    index: usize,
    core: &Core<'_>,
    inner: &'a [VariableTree],
) -> Result<(), Memory>
    ensures { OnOk result ((M : Structure) (tree : TreeOf) → AreSources M sources.now
        → slice_get inner.now index ≡ Some tree
        → SortsOut M index core.now tree parts.old parts.new) }
{
    if index < inner.len() {
        sort_out(sources, parts, index, core, &inner[index])?;
    }
    Ok(())
}

// The element at this place of the list, with its tree.
fn sort_out<'a>(
    sources: &Sources<'_>,
    parts: &mut Parts<'a>,
    index: usize,
    core: &Core<'_>,
    tree: &'a VariableTree,
) -> Result<(), Memory>
    ensures { OnOk result ((M : Structure) → AreSources M sources.now
        → SortsOut M index core.now tree.now parts.old parts.new) }
{
    match core {
        Core::Not { .. } => add_negation(parts, index, tree),
        Core::Check { test } => {
            if is_test(test) {
                let test = test.owned(sources.alloc)?;
                parts.tests.push(test)?;
                Ok(())
            } else {
                add_positive(parts, index, tree, NO_ROWS)
            }
        }
        Core::Atom { relation, .. } => {
            let rank = rank_of(sources.facts(relation).rows);
            add_positive(parts, index, tree, rank)
        }
        Core::Sorted { sort, .. } => {
            let rank = rank_of(sources.count(sort));
            add_positive(parts, index, tree, rank)
        }
        Core::And { .. } => add_positive(parts, index, tree, NO_ROWS),
        Core::Or { .. } => add_positive(parts, index, tree, NO_ROWS),
        Core::Exists { .. } => add_positive(parts, index, tree, NO_ROWS),
    }
}

fn add_positive<'a>(
    parts: &mut Parts<'a>,
    index: usize,
    tree: &'a VariableTree,
    rank: u128,
) -> Result<(), Memory>
    ensures { OnOk result (AddsPositive index tree.now rank parts.old parts.new) }
{
    parts.positives.push(Element { index, tree, rank })?;
    Ok(())
}

fn add_negation<'a>(
    parts: &mut Parts<'a>,
    index: usize,
    tree: &'a VariableTree,
) -> Result<(), Memory>
    ensures { OnOk result (AddsNegation index tree.now parts.old parts.new) }
{
    parts.negations.push_back(Element {
        index,
        tree,
        rank: NO_ROWS,
    })?;
    Ok(())
}

// The rank of an element with a number of rows.
fn rank_of(rows: u64) -> u128
    ensures same { result ≡ rows }
    ensures below { rows < 2 ^ 64 }
{
    u128::from(rows)
}

// Whether it is a comparison or an equality.
fn is_test(test: &TermTest<'_>) -> bool
    ensures { result ≡ is_compared (test_of test.now) }
{
    !matches!(test, TermTest::Member { .. })
}
