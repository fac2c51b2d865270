// Elements of an `and` that wait for their turn.
ghost use Rattle.std.specs.Prelude.{◌≡◌, ◌++◌, [], true, false, IfOk, OnOk, OnErr};
ghost use Rattle.lrp_model.specs.Conjunctions.{first_or_0};
ghost use Rattle.lrp_plan.specs.Elements.{TakesAt};
ghost use Rattle.lrp_plan.specs.declared.elements.Element.{Element as ElementOf};
ghost use Rattle.lrp_plan.specs.Waiting.{goes_first, FallAfter};

use crate::elements::Element;
use lrp_core::{Variable, are_among, are_same, meet};
use lrp_model::{List, Memory};
use std::alloc::Global;
use std::collections::VecDeque;
use std::marker::Model;
use std::mem;

/// Which elements go before the others: those that share a variable with what was taken in; or, where something was,
/// those whose variables were all taken in.
#[derive(Clone, Copy, PartialEq, Eq)]
pub(crate) enum Turn {
    Meeting,
    Covered { some: bool },
}

/// The elements that wait, in order. Those that were passed over do not go before the others where these variables were
/// taken in; the rest were not looked at since these were.
pub(crate) struct Waiting<'a> {
    turn: Turn,
    seen: List<Variable>,
    passed: VecDeque<Element<'a>>,
    rest: VecDeque<Element<'a>>,
}

// They are let go by one call, which is proved once.
impl<'a> Drop for Waiting<'a> {
    fn drop(self) {
        let Waiting {
            turn: _turn,
            seen: _seen,
            passed: _passed,
            rest: _rest,
        } = self;
    }
}

impl<'a> Model for Waiting<'a> {
    ghost use Rattle.std.specs.Prelude.{List, ◌++◌};
    ghost use Rattle.lrp_plan.specs.declared.elements.Element.{Element as ElementOf};

    ghost Value = { List ElementOf };

    ghost use Rattle.lrp_plan.specs.Waiting.{FallAfter};

    ghost view = { λ w. w.passed.items ++ w.rest.items };

    ghost use Rattle.std.specs.Coded.{codes};
    ghost use Rattle.lrp_core.specs.contracts.variable_trees.VariableTree as trees;

    ghost coded = { Prim.hlevel (codes, trees.the_row.coded) };

    ghost invariant = { λ w. FallAfter w.turn w.seen w.passed.items };
}

impl<'a> Waiting<'a> {
    /// All of the elements, none of which was looked at.
    pub(crate) fn new(alloc: Global, elements: VecDeque<Element<'a>>) -> Waiting<'a>
        ensures { result ≡ elements.entry.items }
    {
        Waiting {
            turn: Turn::Meeting,
            seen: List::new(alloc),
            passed: VecDeque::new(alloc),
            rest: elements,
        }
    }

    /// The first element that goes before the others, or else the first, is taken out. One that was passed over is not
    /// looked at again until there are other variables.
    pub(crate) fn take_next(
        &mut self,
        alloc: Global,
        turn: Turn,
        variables: &List<Variable>,
    ) -> Result<Option<Element<'a>>, Memory>
        ensures { IfOk result (λ taken. TakesAt
            (first_or_0 (goes_first turn variables.now) self.old) self.old self.new taken) }
    {
        if self.passed.is_empty() && is_first_next(&self.rest, turn, variables.as_slice()) {
            return Ok(self.rest.pop_front());
        }
        if !is_same(self.turn, turn, self.seen.as_slice(), variables.as_slice()) {
            let seen = variables.copy(alloc)?;
            look_again(&mut self.passed, &mut self.rest)?;
            self.turn = turn;
            self.seen = seen;
        }
        take_first(&mut self.passed, &mut self.rest, turn, variables.as_slice())
    }
}

// Whether the first of the elements is the next: it is alone, or none goes before the others.
fn is_first_next(elements: &VecDeque<Element<'_>>, turn: Turn, variables: &[Variable]) -> bool
    ensures { result ≡ true → first_or_0 (goes_first turn variables.now) elements.now.items ≡ 0 }
{
    if elements.len() <= 1 {
        return true;
    }
    none_goes(turn, variables)
}

// Whether no element at all goes before the others.
fn none_goes(turn: Turn, variables: &[Variable]) -> bool
    ensures { result ≡ true → (element : ElementOf)
        → goes_first turn variables.now element ≡ false }
{
    match turn {
        Turn::Meeting => variables.is_empty(),
        Turn::Covered { some } => !some,
    }
}

// Whether it is the same turn with the same variables, in the same order.
fn is_same(left: Turn, right: Turn, seen: &[Variable], variables: &[Variable]) -> bool
    ensures { result ≡ true → (left ≡ right) × (seen.now ≡ variables.now) }
{
    left == right && are_same(seen, variables)
}

// All elements are looked at again, those that were passed over ahead of the others. Where memory is refused they are
// as before.
fn look_again<'a>(
    passed: &mut VecDeque<Element<'a>>,
    rest: &mut VecDeque<Element<'a>>,
) -> Result<(), Memory>
    ensures passed { OnOk result (passed.new.items ≡ []) }
    ensures rest { OnOk result (rest.new.items ≡ passed.old.items ++ rest.old.items) }
    ensures passed_stay { OnErr result (passed.new.items ≡ passed.old.items) }
    ensures rest_stay { OnErr result (rest.new.items ≡ rest.old.items) }
{
    passed.append(rest)?;
    mem::swap(passed, rest);
    Ok(())
}

// The first of the rest that goes before the others is taken out, and those ahead of it are passed over; where there is
// none, the first of all is.
fn take_first<'a>(
    passed: &mut VecDeque<Element<'a>>,
    rest: &mut VecDeque<Element<'a>>,
    turn: Turn,
    variables: &[Variable],
) -> Result<Option<Element<'a>>, Memory>
    ensures after { FallAfter turn variables.now passed.old.items
        → FallAfter turn variables.now passed.new.items }
    ensures taken { IfOk result (λ taken. FallAfter turn variables.now passed.old.items
        → TakesAt (first_or_0 (goes_first turn variables.now) (passed.old.items ++ rest.old.items))
        (passed.old.items ++ rest.old.items) (passed.new.items ++ rest.new.items) taken) }
{
    while let Some(element) = rest.pop_front() {
        if goes_before(&element, turn, variables) {
            return Ok(Some(element));
        }
        passed.push_back(element)?;
    }
    Ok(passed.pop_front())
}

fn goes_before(element: &Element<'_>, turn: Turn, variables: &[Variable]) -> bool
    ensures { result ≡ goes_first turn variables.now element.now }
{
    match turn {
        Turn::Meeting => meet(element.tree.variables.as_slice(), variables),
        Turn::Covered { some } => some && are_among(element.tree.variables.as_slice(), variables),
    }
}
