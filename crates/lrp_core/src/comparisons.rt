// Tests in core form: a comparison is by `<=`, `<` or `=`.
ghost use Rattle.std.specs.Prelude.{◌≡◌, ◌&&◌, IfOk};
ghost use Rattle.lrp_model.specs.Formulas.{negation, test as test_form};
ghost use Rattle.lrp_model.specs.Core.{compare, compare_not, positive_test as core_of_test, negative_test as core_of_denied};
ghost use Rattle.lrp_model.specs.RawTerms.{time_of, data_of, is_data_kind, is_equality, said_test};
ghost use Rattle.lrp_model.specs.declared.formulas.Test.TheVariants.{Compare, Member, Equal};
ghost use Rattle.lrp_core.specs.Cores.{core_of};

use crate::junctions::Junction;
use crate::{Core, TermTest};
use lrp_model::{Memory, Op, RawTerm, RowPoint};
use std::alloc::Global;

/// The core form of a comparison.
pub fn positive_comparison<'a>(left: &'a RawTerm, op: Op, right: &'a RawTerm) -> Core<'a>
    ensures { core_of result ≡ core_of_test (said_test left.now op right.now) }
{
    if are_data(left, op, right) {
        equal(left, right)
    } else {
        compared(left, op, right)
    }
}

/// The core form of its negation.
pub fn negative_comparison<'a>(
    alloc: Global,
    left: &'a RawTerm,
    op: Op,
    right: &'a RawTerm,
) -> Result<Core<'a>, Memory>
    ensures { IfOk result (λ core. core_of core ≡ core_of_denied (said_test left.now op right.now)) }
{
    if are_data(left, op, right) {
        negated(alloc, equal(left, right))
    } else {
        not_compared(alloc, left, op, right)
    }
}

/// The core form of an `in`.
pub fn membership<'a>(term: &'a RawTerm, point: RowPoint) -> Core<'a>
    ensures { core_of result ≡ test_form (Member (time_of term.now.kind) point) }
{
    let test = TermTest::Member { term, point };
    Core::Check { test }
}

/// Whether a comparison is an `=` of two data terms.
pub(crate) fn are_data(left: &RawTerm, op: Op, right: &RawTerm) -> bool
    ensures { result ≡ is_equality op && is_data_kind left.now.kind && is_data_kind right.now.kind }
{
    op == Op::Eq && left.is_data() && right.is_data()
}

fn equal<'a>(left: &'a RawTerm, right: &'a RawTerm) -> Core<'a>
    ensures { core_of result
        ≡ test_form (Equal (data_of left.now.kind) (data_of right.now.kind)) }
{
    let test = TermTest::Equal { left, right };
    Core::Check { test }
}

/// The negation of a core form that may be negated.
pub fn negated<'a>(alloc: Global, f: Core<'a>) -> Result<Core<'a>, Memory>
    ensures { IfOk result (λ core. core_of core ≡ negation (core_of f.entry)) }
{
    let of = Box::new(alloc, f)?;
    Ok(Core::Not { of })
}

fn check<'a>(left: &'a RawTerm, op: Op, right: &'a RawTerm) -> Core<'a>
    ensures { core_of result ≡ test_form (Compare (time_of left.now.kind) op (time_of right.now.kind)) }
{
    let test = TermTest::Compare { left, op, right };
    Core::Check { test }
}

fn compared<'a>(left: &'a RawTerm, op: Op, right: &'a RawTerm) -> Core<'a>
    ensures { core_of result ≡ compare (time_of left.now.kind) op (time_of right.now.kind) }
{
    match op {
        Op::Le => check(left, Op::Le, right),
        Op::Lt => check(left, Op::Lt, right),
        Op::Ge => check(right, Op::Le, left),
        Op::Gt => check(right, Op::Lt, left),
        Op::Eq => check(left, Op::Eq, right),
    }
}

fn not_compared<'a>(
    alloc: Global,
    left: &'a RawTerm,
    op: Op,
    right: &'a RawTerm,
) -> Result<Core<'a>, Memory>
    ensures { IfOk result (λ core. core_of core ≡ compare_not (time_of left.now.kind) op (time_of right.now.kind)) }
{
    match op {
        Op::Le => Ok(check(right, Op::Lt, left)),
        Op::Lt => Ok(check(right, Op::Le, left)),
        Op::Ge => Ok(check(left, Op::Lt, right)),
        Op::Gt => Ok(check(left, Op::Le, right)),
        Op::Eq => differing(alloc, left, right),
    }
}

// One of the two times is before the other.
fn differing<'a>(alloc: Global, left: &'a RawTerm, right: &'a RawTerm) -> Result<Core<'a>, Memory>
    ensures { IfOk result (λ core. core_of core ≡ compare_not (time_of left.now.kind) Op.Eq (time_of right.now.kind)) }
{
    let before = check(left, Op::Lt, right);
    let after = check(right, Op::Lt, left);
    Junction::Or.two(alloc, before, after)
}
