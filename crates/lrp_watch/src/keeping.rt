// Tables of parts of a plan that are kept while a relation that they don't read is edited.
ghost use Rattle.std.specs.Prelude.{◌≡◌, ◌++◌, ℕ, List as ListOf, IfOk, OnOk, false, option_copied, true};
ghost use Rattle.lrp_model.specs.declared.relations.Relation.{Relation};
ghost use Rattle.lrp_eval.specs.Known.{AreKnownOver};
ghost use Rattle.lrp_watch.specs.Keeping.{AreSameSteps, AreAloneSteps, IsAloneStep, AreStillKeptWith, IsKeptAs, IsKeptFor, IsKeptBefore, IsNoScanOf, IsOtherThan};

use crate::same_steps::is_same_step;
use lrp_edits::Edit;
use lrp_eval::{PartTable, PlanPart, operands_of};
use lrp_model::{Copies, Domain, List, Memory, Name, Plan, Step, StepKind};
use std::alloc::Global;

/// A plan that was run, and tables of parts of it that don't read the relation that is then edited.
#[derive(Drop)]
pub(crate) struct Kept {
    pub(crate) plan: Plan,
    pub(crate) tables: List<PartTable>,
    pub(crate) edited: Name,
}

/// Of the tables that are kept those that a new plan has too: its steps are the same, and read no row that was edited.
pub(crate) fn still_known(
    alloc: Global,
    kept: Option<Kept>,
    plan: &Plan,
) -> Result<List<PartTable>, Memory>
    ensures { IfOk result (λ known. (db : ListOf Relation) (cap : ℕ) → IsKeptBefore cap db kept
        → AreKnownOver db plan.now cap known) }
{
    match kept {
        Some(kept) => known_of(alloc, kept, plan),
        None => Ok(List::new(alloc)),
    }
}

// Those of them that the new plan has too.
fn known_of(alloc: Global, kept: Kept, plan: &Plan) -> Result<List<PartTable>, Memory>
    ensures { IfOk result (λ known. (db : ListOf Relation) (cap : ℕ) → IsKeptAs cap db kept
        → AreKnownOver db plan.now cap known) }
{
    if !is_same_domain(&kept.plan.domain, &plan.domain) {
        return Ok(List::new(alloc));
    }
    let Kept {
        plan: old,
        tables,
        edited,
    } = kept;
    let mut known = List::new(alloc);
    for table in tables.into_vec() {
        add_still(
            old.steps.as_slice(),
            plan.steps.as_slice(),
            &edited,
            table,
            &mut known,
        )?;
    }
    Ok(known)
}

// Puts a table after others, where its part is the same in both plans, and reads no row of this relation.
fn add_still(
    old: &[Step],
    new: &[Step],
    edited: &Name,
    table: PartTable,
    known: &mut List<PartTable>,
) -> Result<(), Memory>
    ensures { OnOk result (AreStillKeptWith edited.now old.now new.now table known.old known.new) }
{
    if !is_still_part(old, new, table.part, edited) {
        return Ok(());
    }
    known.push(table)?;
    Ok(())
}

// Whether the steps of a part are the same in both plans, and read only one another and no row of this relation.
fn is_still_part(old: &[Step], new: &[Step], part: PlanPart, edited: &Name) -> bool
    ensures same { result ≡ true → AreSameSteps part old.now new.now }
    ensures alone { result ≡ true → AreAloneSteps edited.now part new.now }
{
    if part.before >= part.until || part.until >= old.len() || part.until > new.len() {
        return false;
    }
    for place in part.before..part.until {
        if !is_same_step(&old[place], &new[place]) {
            return false;
        }
        if !is_alone(&new[place].kind, part.before, edited) {
            return false;
        }
    }
    true
}

// Whether a step reads only steps after the first `before`, and no row of this relation.
fn is_alone(kind: &StepKind, before: usize, edited: &Name) -> bool
    ensures { result ≡ true → IsAloneStep edited.now before kind.now }
{
    let (first, second) = operands_of(kind);
    if is_scan_of(kind, edited) {
        return false;
    }
    is_after(first, before) && is_after(second, before)
}

// Whether a step scans this relation.
fn is_scan_of(kind: &StepKind, edited: &Name) -> bool
    ensures { result ≡ false → IsNoScanOf edited.now kind.now }
{
    match kind {
        StepKind::Scan { relation, .. } => relation == edited,
        _ => false,
    }
}

// Whether the number of a step is above this one; 0 stands for none.
fn is_after(number: u32, before: usize) -> bool
    ensures { result ≡ true → IsOtherThan number before }
{
    number == 0 || number as usize > before
}

// Whether the texts are the same, one by one.
fn is_same_domain(left: &Domain, right: &Domain) -> bool
    ensures { result ≡ true → left.now ≡ right.now }
{
    if left.len() != right.len() {
        return false;
    }
    for number in 0..left.len() {
        if left.text(number) != right.text(number) {
            return false;
        }
    }
    true
}

/// The parts of a plan whose tables are asked for: those that are worth keeping while the next edit is made.
pub(crate) fn asked_for(
    alloc: Global,
    plan: &Plan,
    known: &[PartTable],
    next: Option<&Edit>,
) -> Result<List<PlanPart>, Memory> {
    match next {
        Some(edit) => parts_to_keep(alloc, plan.steps.as_slice(), known, &edit.relation),
        None => Ok(List::new(alloc)),
    }
}

// The parts that are read by a step that reads the relation, itself or by others, and don't read it.
fn parts_to_keep(
    alloc: Global,
    steps: &[Step],
    known: &[PartTable],
    edited: &Name,
) -> Result<List<PlanPart>, Memory> {
    let touched = steps_touched(alloc, steps, edited)?;
    let mut parts = List::new(alloc);
    for step in steps {
        if reads_touched(&step.kind, &touched) {
            let (first, second) = operands_of(&step.kind);
            add_part(steps, &touched, known, first, &mut parts)?;
            add_part(steps, &touched, known, second, &mut parts)?;
        }
    }
    Ok(parts)
}

// Whether each step reads the relation, itself or by the steps that it reads.
fn steps_touched(alloc: Global, steps: &[Step], edited: &Name) -> Result<Vec<bool>, Memory> {
    let mut touched = Vec::with_capacity(alloc, steps.len())?;
    for step in steps {
        let is = is_scan_of(&step.kind, edited) || reads_touched(&step.kind, &touched);
        touched.push(is)?;
    }
    Ok(touched)
}

// Whether a step reads one that is touched.
fn reads_touched(kind: &StepKind, touched: &[bool]) -> bool {
    let (first, second) = operands_of(kind);
    is_touched(first, touched) || is_touched(second, touched)
}

// Whether the step of a number, from 1, is touched; 0 stands for none.
fn is_touched(number: u32, touched: &[bool]) -> bool {
    if number == 0 {
        return false;
    }
    match touched.get(number as usize - 1) {
        Some(is) => *is,
        None => true,
    }
}

// Puts the part that ends with the step of a number after others, where it is worth it: its table isn't known, nothing in it
// is touched, it scans a relation, and no step after it reads another one of it.
fn add_part(
    steps: &[Step],
    touched: &[bool],
    known: &[PartTable],
    number: u32,
    parts: &mut List<PlanPart>,
) -> Result<(), Memory> {
    let until = number as usize;
    if number == 0 || is_touched(number, touched) || is_known(known, until) {
        return Ok(());
    }
    let before = first_of(steps, until);
    if scans_some(steps, before, until) && !is_read_after(steps, before, until) {
        parts.push(PlanPart { before, until })?;
    }
    Ok(())
}

// Whether the table of a step is known.
fn is_known(known: &[PartTable], until: usize) -> bool {
    for table in known {
        if table.part.until == until {
            return true;
        }
    }
    false
}

// How many steps come before all that the step of a number reads, itself or by those that it reads.
fn first_of(steps: &[Step], until: usize) -> usize {
    let mut first = until;
    for turn in 0..until {
        let number = until - turn;
        if number < first {
            return number;
        }
        if let Some(step) = steps.get(number - 1) {
            first = least_read(&step.kind, first);
        }
    }
    0
}

// The least of the numbers that a step reads and of another one.
fn least_read(kind: &StepKind, number: usize) -> usize {
    let (first, second) = operands_of(kind);
    lesser(first, lesser(second, number))
}

// The lesser of two numbers of steps; 0 stands for none.
fn lesser(read: u32, number: usize) -> usize {
    let read = read as usize;
    if 0 < read && read < number {
        read
    } else {
        number
    }
}

// Whether some step of a part scans a relation.
fn scans_some(steps: &[Step], before: usize, until: usize) -> bool {
    for place in before..until {
        if let Some(step) = steps.get(place) {
            if let StepKind::Scan { .. } = &step.kind {
                return true;
            }
        }
    }
    false
}

// Whether a step after a part reads another one of it than the last.
fn is_read_after(steps: &[Step], before: usize, until: usize) -> bool {
    for place in until..steps.len() {
        let (first, second) = operands_of(&steps[place].kind);
        if is_within(first, before, until) || is_within(second, before, until) {
            return true;
        }
    }
    false
}

// Whether the number of a step is one of a part, and not its last.
fn is_within(number: u32, before: usize, until: usize) -> bool {
    let number = number as usize;
    before < number && number < until
}

/// What is kept for the plan after the next edit, if there is one: the tables that were known, and those that were made.
pub(crate) fn kept_for(
    alloc: Global,
    plan: Plan,
    known: List<PartTable>,
    made: List<PartTable>,
    next: Option<&Edit>,
) -> Result<Option<Kept>, Memory>
    ensures { IfOk result (IsKeptFor plan known made (option_copied next.entry)) }
{
    match next {
        Some(edit) => Ok(Some(Kept {
            plan,
            tables: joined(known, made)?,
            edited: edit.relation.copy(alloc)?,
        })),
        None => Ok(None),
    }
}

// The tables that were known, and those that were made.
fn joined(known: List<PartTable>, made: List<PartTable>) -> Result<List<PartTable>, Memory>
    ensures { IfOk result (λ all. all ≡ known ++ made) }
{
    let mut all = known;
    for table in made.into_vec() {
        all.push(table)?;
    }
    Ok(all)
}
