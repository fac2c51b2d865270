// Answers of a plan of which the tables of some parts are known, and those of others are asked for.
ghost use Rattle.std.specs.Prelude.{◌≡◌, ◌<◌, ◌+◌, ◌≤◌, ◌^◌, length, Contains, IfErr, IfOk, IfSome, OnOk};
ghost use Rattle.lrp_model.specs.Formulas.{Question};
ghost use Rattle.lrp_model.specs.Steps.{Steps};
ghost use Rattle.lrp_store.specs.Stores.{IsStore};
ghost use Rattle.lrp_eval.specs.Answered.{IsAnswerOf};
ghost use Rattle.lrp_eval.specs.Freeing.{AreLastReaders};
ghost use Rattle.lrp_eval.specs.Known.{AreKnownOver, AreKnownThen, AreKnownWith, IsKnownNext, IsKnownPartOver};
ghost use Rattle.lrp_eval.specs.Planned.{HasAnswers, IsEvalCause, IsPlanOf, IsSomePlan};
ghost use Rattle.lrp_eval.specs.Running.{AreRunBySome, AreRunThen, NamesFirstMany};

use crate::answering::settled_answer;
use crate::evaluation::{EvalFault, last_of, run_next, with_together};
use crate::following::{Together, are_passed};
use crate::freeing::last_readers;
use crate::heading::is_headed;
use lrp_answers::Answer;
use lrp_database::Database;
use lrp_model::{List, Memory, Plan, Step};
use lrp_tables::{Setting, Table};
use std::alloc::Global;

/// Steps of a plan that follow one another: those after the first `before`, up to the one of the number `until`.
#[derive(Clone, Copy)]
pub struct PlanPart {
    pub before: usize,
    pub until: usize,
}

/// The table of the last step of a part.
#[derive(Drop)]
pub struct PartTable {
    pub part: PlanPart,
    pub table: Table,
}

/// The tables that are known before a plan is run, and the parts of which the tables are asked for.
#[derive(Clone, Copy)]
pub struct Known<'a> {
    pub tables: &'a [PartTable],
    pub asked: &'a [PlanPart],
}

/// An answer, and tables of parts that were asked for.
#[derive(Drop)]
pub struct AnswerFrom {
    pub answer: Answer,
    pub tables: List<PartTable>,
}

// The last table, and tables of parts that were asked for.
#[derive(Drop)]
struct LastTable {
    table: Table,
    tables: List<PartTable>,
}

// A plan with its relations, the last readers of its steps, and what is known.
#[derive(Clone, Copy)]
struct Resumed<'a> {
    database: &'a Database,
    plan: &'a Plan,
    readers: &'a [usize],
    known: &'a [PartTable],
}

/// The answers of each settled query that has the plan, as `answer` gives them, with tables of parts for later runs.
///
/// Where the table of a part is known and no step after the part reads another one of it, its steps aren't run. A table
/// that is asked for is missing where its step was run together with later ones.
pub fn answer_from(
    alloc: Global,
    plan: &Plan,
    database: &Database,
    cap: u32,
    known: &Known<'_>,
) -> Result<AnswerFrom, EvalFault>
    requires plan { IsSomePlan database.now plan.now }
    requires known { AreKnownOver database.now plan.now cap known.now.tables.now }
    ensures answer { IfOk result (λ made. (planned : Steps) (q : Question)
        → IsPlanOf planned database.now q plan.now
        → IsAnswerOf planned database.now q cap made.answer) }
    ensures tables { IfOk result (λ made. AreKnownOver database.now plan.now cap made.tables) }
    ensures fault { IfErr result (λ fault. IsEvalCause database.now plan.now cap fault) }
{
    let setting = Setting {
        alloc,
        domain: &plan.domain,
        cap,
    };
    let readers = last_readers(alloc, plan.steps.as_slice())?;
    let resumed = Resumed {
        database,
        plan,
        readers: &readers,
        known: known.tables,
    };
    let LastTable { table, tables } = run_from(&setting, &resumed, known.asked)?;
    let answer = settled_answer(alloc, plan, table)?;
    Ok(AnswerFrom { answer, tables })
}

// The table of the last step, and those of parts that are asked for.
fn run_from(
    setting: &Setting<'_>,
    resumed: &Resumed<'_>,
    asked: &[PlanPart],
) -> Result<LastTable, EvalFault>
    requires domain { setting.now.domain.now ≡ resumed.now.plan.now.domain }
    requires plan { IsSomePlan resumed.now.database.now resumed.now.plan.now }
    requires readers { AreLastReaders resumed.now.plan.now.steps resumed.now.readers.now }
    requires known { AreKnownOver resumed.now.database.now resumed.now.plan.now setting.now.cap
        resumed.now.known.now }
    ensures table { IfOk result (λ made. (planned : Steps) (q : Question)
        → IsPlanOf planned resumed.now.database.now q resumed.now.plan.now
        → HasAnswers planned resumed.now.database.now q setting.now.cap made.table) }
    ensures valid { IfOk result (λ made. IsStore made.table.store) }
    ensures tables { IfOk result (λ made. AreKnownOver resumed.now.database.now resumed.now.plan.now
        setting.now.cap made.tables) }
    ensures fault { IfErr result (λ fault. IsEvalCause resumed.now.database.now
        resumed.now.plan.now setting.now.cap fault) }
{
    let plan = resumed.plan;
    let mut tables = List::new(setting.alloc);
    let mut made = List::new(setting.alloc);
    for number in 0..plan.steps.len() {
        if number < tables.len() {
            continue;
        }
        if is_headed(tables.as_slice(), &plan.head, plan.steps.at(number)) {
            return Ok(LastTable {
                table: last_of(tables),
                tables: made,
            });
        }
        match run_next_from(setting, resumed, tables) {
            Ok(more) => tables = more,
            Err(fault) => return Err(fault),
        }
        match keep_last(setting.alloc, asked, tables.as_slice(), &mut made) {
            Ok(()) => {}
            Err(memory) => return Err(EvalFault::from(memory)),
        }
    }
    Ok(LastTable {
        table: last_of(tables),
        tables: made,
    })
}

// The tables with that of the next step, of some next steps that are run together, or of a part whose table is known.
fn run_next_from(
    setting: &Setting<'_>,
    resumed: &Resumed<'_>,
    tables: List<Table>,
) -> Result<List<Table>, EvalFault>
    requires domain { setting.now.domain.now ≡ resumed.now.plan.now.domain }
    requires plan { AreRunBySome resumed.now.database.now resumed.now.plan.now setting.now.cap
        tables }
    requires readers { AreLastReaders resumed.now.plan.now.steps resumed.now.readers.now }
    requires known { AreKnownOver resumed.now.database.now resumed.now.plan.now setting.now.cap
        resumed.now.known.now }
    requires below { length tables < length resumed.now.plan.now.steps }
    ensures run { IfOk result (AreRunThen resumed.now.database.now resumed.now.plan.now
        setting.now.cap tables) }
    ensures more { IfOk result (λ new. (length tables < length new)
        × (length new ≤ length resumed.now.plan.now.steps)) }
    ensures fault { IfErr result (NamesFirstMany resumed.now.database.now resumed.now.plan.now
        setting.now.cap tables) }
{
    match known_next(setting, resumed, tables.len()) {
        Ok(Some(together)) => Ok(with_together(setting.alloc, tables, together)?),
        Ok(None) => run_next(
            setting,
            resumed.database,
            resumed.plan,
            resumed.readers,
            tables,
        ),
        Err(memory) => Err(EvalFault::from(memory)),
    }
}

// The part that comes after this number of tables, with its table, where that is known.
fn known_next(
    setting: &Setting<'_>,
    resumed: &Resumed<'_>,
    count: usize,
) -> Result<Option<Together>, Memory>
    requires { AreKnownOver resumed.now.database.now resumed.now.plan.now setting.now.cap
        resumed.now.known.now }
    ensures table { IfOk result (λ found. IfSome found (IsKnownNext resumed.now.database.now
        resumed.now.plan.now setting.now.cap resumed.now.readers.now count)) }
    ensures inside { IfOk result (λ found. IfSome found (λ made.
        count + made.between < length resumed.now.plan.now.steps)) }
{
    match known_after(resumed.known, count) {
        Some(known) => known_part(setting, resumed, known, count),
        None => Ok(None),
    }
}

// A part whose table is known, where no step after it reads another one of it.
fn known_part(
    setting: &Setting<'_>,
    resumed: &Resumed<'_>,
    known: &PartTable,
    count: usize,
) -> Result<Option<Together>, Memory>
    requires known { IsKnownPartOver resumed.now.database.now resumed.now.plan.now setting.now.cap
        known.now }
    requires before { known.now.part.before ≡ count }
    ensures table { IfOk result (λ found. IfSome found (IsKnownNext resumed.now.database.now
        resumed.now.plan.now setting.now.cap resumed.now.readers.now count)) }
    ensures inside { IfOk result (λ found. IfSome found (λ made.
        count + made.between < length resumed.now.plan.now.steps)) }
{
    let steps = resumed.plan.steps.as_slice();
    let between = match steps_between(steps, count, known.part.until) {
        Some(between) => between,
        None => return Ok(None),
    };
    if !are_passed(resumed.readers, count, between) {
        return Ok(None);
    }
    let table = known.table.copy(setting.alloc)?;
    Ok(Some(Together { between, table }))
}

// How many steps stand between the first ones and one of the plan.
fn steps_between(steps: &[Step], before: usize, until: usize) -> Option<usize>
    ensures last { IfSome result (λ between. before + between + 1 ≡ until) }
    ensures inside { IfSome result (λ between. before + between < length steps.now) }
    ensures few { IfSome result (λ between. before + between < 2 ^ 63) }
{
    if until <= before || until > steps.len() {
        return None;
    }
    Some(until - before - 1)
}

// The first of the tables whose part comes after this number of steps.
fn known_after(known: &[PartTable], count: usize) -> Option<&PartTable>
    ensures held { IfSome result (λ found. Contains known.now found.now) }
    ensures before { IfSome result (λ found. found.now.part.before ≡ count) }
{
    for place in 0..known.len() {
        if known[place].part.before == count {
            return Some(&known[place]);
        }
    }
    None
}

// Puts a copy of the last table after others, where it is that of a part that is asked for.
fn keep_last(
    alloc: Global,
    asked: &[PlanPart],
    tables: &[Table],
    made: &mut List<PartTable>,
) -> Result<(), Memory>
    ensures { OnOk result (AreKnownThen tables.now made.old made.new) }
{
    match part_until(asked, tables.len()) {
        Some(part) => keep_part(alloc, part, tables, made),
        None => Ok(()),
    }
}

// Puts a copy of the last table, which is that of a part, after others.
fn keep_part(
    alloc: Global,
    part: PlanPart,
    tables: &[Table],
    made: &mut List<PartTable>,
) -> Result<(), Memory>
    requires { part.until ≡ length tables.now }
    ensures { OnOk result (AreKnownThen tables.now made.old made.new) }
{
    let count = tables.len();
    if count == 0 {
        return Ok(());
    }
    let place = count - 1;
    keep_copy(alloc, part, &tables[place], made)?;
    Ok(())
}

// Puts a copy of the table of a part after others.
fn keep_copy(
    alloc: Global,
    part: PlanPart,
    table: &Table,
    made: &mut List<PartTable>,
) -> Result<(), Memory>
    ensures { OnOk result (AreKnownWith part table.now made.old made.new) }
{
    let table = table.copy(alloc)?;
    made.push(PartTable { part, table })?;
    Ok(())
}

// The first of the parts whose last step has this number.
fn part_until(asked: &[PlanPart], until: usize) -> Option<PlanPart>
    ensures { IfSome result (λ part. part.until ≡ until) }
{
    for place in 0..asked.len() {
        if asked[place].until == until {
            return Some(asked[place]);
        }
    }
    None
}
