// The lines of a plan's steps.
ghost use Rattle.std.specs.Prelude.{◌≡◌, ◌++◌, codes};
ghost use Rattle.std.specs.List.{AllByRecursion};
ghost use Rattle.std.specs.Fmt.{decimal};
ghost use Rattle.lrp_io.specs.Causes.{HasCause};
ghost use Rattle.lrp_io.specs.Pieces.{IsWritten};
ghost use Rattle.lrp_model.specs.Printed.{joined_by, sort_bytes};
ghost use Rattle.lrp_model.specs.PrintedPlans.{term_bytes, test_bytes, leaf_word as word_of_leaf, two_steps, carried_bytes, drop_bytes, kind_bytes, step_line, step_lines, plan_bytes};
ghost use Rattle.lrp_print.specs.Writable.{TestHasPeriod, StepHasPeriods, KindHasPeriods};

use crate::pieces::{write_bytes, write_count, write_integer, write_number, write_sort};
use crate::terms::{leaf_word, write_carried, write_terms, write_test};
use lrp_io::{Failed, Sink};
use lrp_model::{Name, Plan, Sort, Step, StepKind, Term, Test};

/// Writes a plan: for each step a line with its number, its word and operands, its period and its reach. After a
/// failure a front of the text was written.
pub fn write_plan<S: Sink>(out: &mut S, plan: &Plan) -> Result<(), Failed>
    requires { AllByRecursion StepHasPeriods plan.now.steps }
    ensures text { IsWritten (S.written out.old) (S.written out.new) (plan_bytes plan.now) result }
    ensures cause { HasCause (S.faults out.old) (S.faults out.new) result }
{
    write_steps(out, plan.steps.as_slice())
}

fn write_steps<S: Sink>(out: &mut S, steps: &[Step]) -> Result<(), Failed>
    requires { AllByRecursion StepHasPeriods steps.now }
    ensures text { IsWritten (S.written out.old) (S.written out.new)
        (step_lines 1 steps.now) result }
    ensures cause { HasCause (S.faults out.old) (S.faults out.new) result }
{
    let mut number = 0;
    for step in steps {
        number += 1;
        write_step(out, number, step)?;
    }
    Ok(())
}

fn write_step<S: Sink>(out: &mut S, number: u64, step: &Step) -> Result<(), Failed>
    requires { StepHasPeriods step.now }
    ensures text { IsWritten (S.written out.old) (S.written out.new)
        (step_line number step.now) result }
    ensures cause { HasCause (S.faults out.old) (S.faults out.new) result }
{
    write_count(out, number)?;
    write_bytes(out, b" ")?;
    write_kind(out, &step.kind)?;
    write_bytes(out, b" [period ")?;
    write_integer(out, &step.period)?;
    write_bytes(out, b", reach ")?;
    write_integer(out, &step.reach)?;
    write_bytes(out, b"]\n")
}

// A step's word and operands.
fn write_kind<S: Sink>(out: &mut S, kind: &StepKind) -> Result<(), Failed>
    requires { KindHasPeriods kind.now }
    ensures text { IsWritten (S.written out.old) (S.written out.new) (kind_bytes kind.now) result }
    ensures cause { HasCause (S.faults out.old) (S.faults out.new) result }
{
    match kind {
        StepKind::Scan { relation, terms } => write_scan(out, relation, terms.as_slice()),
        StepKind::Leaf { test } => write_leaf(out, test),
        StepKind::Sort { name, sort, .. } => write_element(out, name, sort),
        StepKind::Join { left, right, tests } => write_join(out, *left, *right, tests.as_slice()),
        StepKind::Select { of, test } => write_select(out, *of, test),
        StepKind::Union { left, right } => write_operands(out, b"union ", *left, *right),
        StepKind::Minus { left, right } => write_operands(out, b"minus ", *left, *right),
        StepKind::Complement { of } => write_operand(out, b"complement ", *of),
        StepKind::DropTime { of, name } => write_drop(out, *of, name),
        StepKind::DropData { of, name } => write_drop(out, *of, name),
        StepKind::Extend { of } => write_operand(out, b"head ", *of),
    }
}

// `scan R(T1, T2)`.
fn write_scan<S: Sink>(out: &mut S, relation: &Name, terms: &[Term]) -> Result<(), Failed>
    ensures text { IsWritten (S.written out.old) (S.written out.new)
        (codes "scan " ++ (relation.now
        ++ (codes "(" ++ (joined_by (codes ", ") term_bytes terms.now ++ codes ")")))) result }
    ensures cause { HasCause (S.faults out.old) (S.faults out.new) result }
{
    write_bytes(out, b"scan ")?;
    write_bytes(out, relation.as_bytes())?;
    write_bytes(out, b"(")?;
    write_terms(out, terms)?;
    write_bytes(out, b")")
}

// A test as a step of its own.
fn write_leaf<S: Sink>(out: &mut S, test: &Test) -> Result<(), Failed>
    requires { TestHasPeriod test.now }
    ensures text { IsWritten (S.written out.old) (S.written out.new)
        (word_of_leaf test.now ++ test_bytes test.now) result }
    ensures cause { HasCause (S.faults out.old) (S.faults out.new) result }
{
    write_bytes(out, leaf_word(test))?;
    write_test(out, test)
}

// `sort S(v)`.
fn write_element<S: Sink>(out: &mut S, name: &Name, sort: &Sort) -> Result<(), Failed>
    ensures text { IsWritten (S.written out.old) (S.written out.new)
        (codes "sort " ++ (sort_bytes sort.now ++ (codes "(" ++ (name.now ++ codes ")")))) result }
    ensures cause { HasCause (S.faults out.old) (S.faults out.new) result }
{
    write_bytes(out, b"sort ")?;
    write_sort(out, sort)?;
    write_bytes(out, b"(")?;
    write_bytes(out, name.as_bytes())?;
    write_bytes(out, b")")
}

// `join I J`, with the tests that it carries.
fn write_join<S: Sink>(out: &mut S, left: u32, right: u32, tests: &[Test]) -> Result<(), Failed>
    requires { AllByRecursion TestHasPeriod tests.now }
    ensures text { IsWritten (S.written out.old) (S.written out.new)
        (two_steps (codes "join ") left right ++ carried_bytes tests.now) result }
    ensures cause { HasCause (S.faults out.old) (S.faults out.new) result }
{
    write_operands(out, b"join ", left, right)?;
    write_carried(out, tests)
}

// `select I T OP T`.
fn write_select<S: Sink>(out: &mut S, of: u32, test: &Test) -> Result<(), Failed>
    requires { TestHasPeriod test.now }
    ensures text { IsWritten (S.written out.old) (S.written out.new)
        (codes "select " ++ (decimal of ++ (codes " " ++ test_bytes test.now))) result }
    ensures cause { HasCause (S.faults out.old) (S.faults out.new) result }
{
    write_bytes(out, b"select ")?;
    write_number(out, of)?;
    write_bytes(out, b" ")?;
    write_test(out, test)
}

// A word and the number of a step.
fn write_operand<S: Sink>(out: &mut S, word: &[u8], of: u32) -> Result<(), Failed>
    ensures text { IsWritten (S.written out.old) (S.written out.new)
        (word.now ++ decimal of) result }
    ensures cause { HasCause (S.faults out.old) (S.faults out.new) result }
{
    write_bytes(out, word)?;
    write_number(out, of)
}

// A word and the numbers of two steps.
fn write_operands<S: Sink>(out: &mut S, word: &[u8], left: u32, right: u32) -> Result<(), Failed>
    ensures text { IsWritten (S.written out.old) (S.written out.new)
        (two_steps word.now left right) result }
    ensures cause { HasCause (S.faults out.old) (S.faults out.new) result }
{
    write_bytes(out, word)?;
    write_number(out, left)?;
    write_bytes(out, b" ")?;
    write_number(out, right)
}

// `drop I v`.
fn write_drop<S: Sink>(out: &mut S, of: u32, name: &Name) -> Result<(), Failed>
    ensures text { IsWritten (S.written out.old) (S.written out.new)
        (drop_bytes of name.now) result }
    ensures cause { HasCause (S.faults out.old) (S.faults out.new) result }
{
    write_bytes(out, b"drop ")?;
    write_number(out, of)?;
    write_bytes(out, b" ")?;
    write_bytes(out, name.as_bytes())
}
