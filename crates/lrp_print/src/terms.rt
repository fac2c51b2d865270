// Terms and tests.
ghost use Rattle.std.specs.Prelude.{⊤, ◌≡◌, ◌≤ℤ◌, ◌++◌, pos, codes};
ghost use Rattle.std.specs.List.{AllByRecursion};
ghost use Rattle.lrp_io.specs.Causes.{HasCause};
ghost use Rattle.lrp_io.specs.Pieces.{IsWritten};
ghost use Rattle.lrp_model.specs.Printed.{joined_by, point_bytes, offset_bytes};
ghost use Rattle.lrp_model.specs.PrintedPlans.{time_bytes, data_bytes, term_bytes, op_bytes, test_bytes, leaf_word as word_of_leaf, carried_bytes};
ghost use Rattle.lrp_print.specs.Writable.{TestHasPeriod};

use crate::notation::{Notation, write_after_where, write_joined};
use crate::pieces::{write_bytes, write_integer, write_offset, write_point, write_quoted};
use lrp_io::{Failed, Sink};
use lrp_model::{DataTerm, Name, Op, RowPoint, Term, Test, TimeTerm};

// A variable with its offset.
fn write_variable<S: Sink>(out: &mut S, name: &Name, plus: &i64) -> Result<(), Failed>
    ensures text { IsWritten (S.written out.old) (S.written out.new)
        (name.now ++ offset_bytes plus.now) result }
    ensures cause { HasCause (S.faults out.old) (S.faults out.new) result }
{
    write_bytes(out, name.as_bytes())?;
    write_offset(out, plus)
}

fn write_time<S: Sink>(out: &mut S, term: &TimeTerm) -> Result<(), Failed>
    ensures text { IsWritten (S.written out.old) (S.written out.new) (time_bytes term.now) result }
    ensures cause { HasCause (S.faults out.old) (S.faults out.new) result }
{
    match term {
        TimeTerm::Var { name, plus } => write_variable(out, name, plus),
        TimeTerm::Int { value } => write_integer(out, value),
    }
}

fn write_data<S: Sink>(out: &mut S, term: &DataTerm) -> Result<(), Failed>
    ensures text { IsWritten (S.written out.old) (S.written out.new) (data_bytes term.now) result }
    ensures cause { HasCause (S.faults out.old) (S.faults out.new) result }
{
    match term {
        DataTerm::Var { name } => write_bytes(out, name.as_bytes()),
        DataTerm::Const { text } => write_quoted(out, text.as_bytes()),
    }
}

fn write_term<S: Sink>(out: &mut S, term: &Term) -> Result<(), Failed>
    ensures text { IsWritten (S.written out.old) (S.written out.new) (term_bytes term.now) result }
    ensures cause { HasCause (S.faults out.old) (S.faults out.new) result }
{
    match term {
        Term::Time { term } => write_time(out, term),
        Term::Data { term } => write_data(out, term),
    }
}

fn write_op<S: Sink>(out: &mut S, op: Op) -> Result<(), Failed>
    ensures text { IsWritten (S.written out.old) (S.written out.new) (op_bytes op) result }
    ensures cause { HasCause (S.faults out.old) (S.faults out.new) result }
{
    match op {
        Op::Le => write_bytes(out, b"<="),
        Op::Lt => write_bytes(out, b"<"),
        Op::Ge => write_bytes(out, b">="),
        Op::Gt => write_bytes(out, b">"),
        Op::Eq => write_bytes(out, b"="),
    }
}

// `T OP T`.
fn write_comparison<S: Sink>(
    out: &mut S,
    left: &TimeTerm,
    op: Op,
    right: &TimeTerm,
) -> Result<(), Failed>
    ensures text { IsWritten (S.written out.old) (S.written out.new)
        (time_bytes left.now ++ (codes " " ++ (op_bytes op ++ (codes " " ++ time_bytes right.now))))
        result }
    ensures cause { HasCause (S.faults out.old) (S.faults out.new) result }
{
    write_time(out, left)?;
    write_bytes(out, b" ")?;
    write_op(out, op)?;
    write_bytes(out, b" ")?;
    write_time(out, right)
}

// `T in c+kn`.
fn write_member<S: Sink>(out: &mut S, term: &TimeTerm, point: &RowPoint) -> Result<(), Failed>
    requires { pos 1 ≤ℤ point.now.period }
    ensures text { IsWritten (S.written out.old) (S.written out.new)
        (time_bytes term.now ++ (codes " in " ++ point_bytes point.now)) result }
    ensures cause { HasCause (S.faults out.old) (S.faults out.new) result }
{
    write_time(out, term)?;
    write_bytes(out, b" in ")?;
    write_point(out, point)
}

// `T = T` of data terms.
fn write_equality<S: Sink>(out: &mut S, left: &DataTerm, right: &DataTerm) -> Result<(), Failed>
    ensures text { IsWritten (S.written out.old) (S.written out.new)
        (data_bytes left.now ++ (codes " = " ++ data_bytes right.now)) result }
    ensures cause { HasCause (S.faults out.old) (S.faults out.new) result }
{
    write_data(out, left)?;
    write_bytes(out, b" = ")?;
    write_data(out, right)
}

/// A test.
pub(crate) fn write_test<S: Sink>(out: &mut S, test: &Test) -> Result<(), Failed>
    requires { TestHasPeriod test.now }
    ensures text { IsWritten (S.written out.old) (S.written out.new) (test_bytes test.now) result }
    ensures cause { HasCause (S.faults out.old) (S.faults out.new) result }
{
    match test {
        Test::Compare { left, op, right } => write_comparison(out, left, *op, right),
        Test::Member { term, point } => write_member(out, term, point),
        Test::Equal { left, right } => write_equality(out, left, right),
    }
}

/// The word of a test that is a step of its own.
pub(crate) fn leaf_word(test: &Test) -> &'static [u8]
    ensures { result.now ≡ word_of_leaf test.now }
{
    match test {
        Test::Compare { .. } => b"compare ",
        Test::Member { .. } => b"point ",
        Test::Equal { .. } => b"equal ",
    }
}

// Terms.
#[derive(Clone, Copy)]
struct Terms;

impl Notation for Terms {
    type Item = Term;

    ghost spells = { λ _ _. ⊤ };

    ghost bytes = { λ _ term. term_bytes term };

    fn write<S: Sink>(&self, out: &mut S, term: &Term) -> Result<(), Failed> {
        write_term(out, term)
    }
}

/// Terms, with commas between.
pub(crate) fn write_terms<S: Sink>(out: &mut S, terms: &[Term]) -> Result<(), Failed>
    ensures text { IsWritten (S.written out.old) (S.written out.new)
        (joined_by (codes ", ") term_bytes terms.now) result }
    ensures cause { HasCause (S.faults out.old) (S.faults out.new) result }
{
    write_joined(out, &Terms, b", ", terms)
}

// Tests.
#[derive(Clone, Copy)]
struct Tests;

impl Notation for Tests {
    type Item = Test;

    ghost spells = { λ _ test. TestHasPeriod test };

    ghost bytes = { λ _ test. test_bytes test };

    fn write<S: Sink>(&self, out: &mut S, test: &Test) -> Result<(), Failed> {
        write_test(out, test)
    }
}

/// ` where ` and the tests, if there are any.
pub(crate) fn write_carried<S: Sink>(out: &mut S, tests: &[Test]) -> Result<(), Failed>
    requires { AllByRecursion TestHasPeriod tests.now }
    ensures text { IsWritten (S.written out.old) (S.written out.new)
        (carried_bytes tests.now) result }
    ensures cause { HasCause (S.faults out.old) (S.faults out.new) result }
{
    write_after_where(out, &Tests, tests)
}
