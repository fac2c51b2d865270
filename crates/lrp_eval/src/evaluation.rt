// The steps of a plan, one after another.
ghost use Rattle.std.specs.Prelude.{◌≡◌, ◌<◌, ◌≤◌, ◌+◌, ◌++◌, ◌∷◌, [], ℕ, suc, length, List as ListOf, ◌^◌, IfOk, IfErr};
ghost use Rattle.lrp_store.specs.Stores.{IsStore};
ghost use Rattle.lrp_tables.specs.declared.table.Table.{Table as TableOf};
ghost use Rattle.lrp_tables.specs.declared.table.StepFault.TheVariants.{TooManyCells as too_many};
ghost use Rattle.lrp_eval.specs.Freeing.{AreLastReaders};
ghost use Rattle.lrp_eval.specs.Grouped.{AreStepsGrouped};
ghost use Rattle.lrp_eval.specs.Running.{AreRunBySome, AreRunThen, NamesFirstMany};
ghost use Rattle.lrp_eval.specs.Together.{AreInside};

use crate::following::{Together, run_together};
use crate::freeing::{give_up, nothing};
use crate::groups::run_in_parts;
use crate::growing::run_growing;
use lrp_database::Database;
use lrp_model::{List, Memory, Plan, numbered};
use lrp_periods::PartsFault;
use lrp_tables::{Setting, StepFault, Table};
use std::alloc::Global;
use thiserror::Error;

/// Why a plan has no answer: a step has too many cells, or memory was refused. Steps are numbered from 1.
#[derive(Clone, Copy, Debug, PartialEq, Eq, Error)]
pub enum EvalFault {
    #[error("more cells than the cap at step {step}")]
    TooManyCells { step: u32 },
    #[error("memory")]
    Memory,
}

impl From<Memory> for EvalFault {
    ghost use Rattle.std.specs.Prelude.{◌≡◌};
    ghost use Rattle.lrp_eval.specs.declared.evaluation.EvalFault.TheVariants.{Memory as memory};

    ghost from_gives = { λ _ fault. fault ≡ memory };

    fn from(_: Memory) -> EvalFault {
        EvalFault::Memory
    }
}

/// The tables with those of the next step, or of some next steps that are run together.
pub(crate) fn run_next(
    setting: &Setting<'_>,
    database: &Database,
    plan: &Plan,
    readers: &[usize],
    tables: List<Table>,
) -> Result<List<Table>, EvalFault>
    requires domain { setting.now.domain.now ≡ plan.now.domain }
    requires plan { AreRunBySome database.now plan.now setting.now.cap tables }
    requires readers { AreLastReaders plan.now.steps readers.now }
    requires below { length tables < length plan.now.steps }
    ensures run { IfOk result (AreRunThen database.now plan.now setting.now.cap tables) }
    ensures more { IfOk result (λ new. (length tables < length new)
        × (length new ≤ length plan.now.steps)) }
    ensures fault { IfErr result (NamesFirstMany database.now plan.now setting.now.cap tables) }
{
    match run_several(setting, database, plan, readers, tables.as_slice()) {
        Ok(together) => Ok(with_together(setting.alloc, tables, together)?),
        Err(PartsFault::GivenUp) => run_one(setting, database, plan, readers, tables),
        Err(PartsFault::Memory) => Err(EvalFault::Memory),
    }
}

// Runs some of the next steps together, or in parts, where that is worth it.
fn run_several(
    setting: &Setting<'_>,
    database: &Database,
    plan: &Plan,
    readers: &[usize],
    tables: &[Table],
) -> Result<Together, PartsFault>
    requires domain { setting.now.domain.now ≡ plan.now.domain }
    requires plan { AreRunBySome database.now plan.now setting.now.cap tables.now }
    ensures table { IfOk result (AreStepsGrouped database.now plan.now setting.now.cap readers.now
        tables.now) }
    ensures inside { IfOk result (AreInside plan.now tables.now) }
{
    match run_together(setting, plan, readers, tables) {
        Ok(together) => Ok(together),
        Err(PartsFault::GivenUp) => run_in_parts(setting, database, plan, readers, tables),
        Err(PartsFault::Memory) => Err(PartsFault::Memory),
    }
}

/// The tables with that of the last of some steps that were run together. The others' take no memory.
pub(crate) fn with_together(
    alloc: Global,
    tables: List<Table>,
    together: Together,
) -> Result<List<Table>, Memory>
    ensures { IfOk result (λ made. (more : ListOf TableOf) × (length more ≡ together.between)
        × (made ≡ (tables ++ more) ++ together.table ∷ [])) }
{
    let Together { between, table } = together;
    let mut tables = tables;
    for turn in 0..between {
        tables.push(nothing(alloc))?;
    }
    tables.push(table)?;
    Ok(tables)
}

// The tables with that of the next step.
fn run_one(
    setting: &Setting<'_>,
    database: &Database,
    plan: &Plan,
    readers: &[usize],
    mut tables: List<Table>,
) -> Result<List<Table>, EvalFault>
    requires domain { setting.now.domain.now ≡ plan.now.domain }
    requires plan { AreRunBySome database.now plan.now setting.now.cap tables }
    requires readers { AreLastReaders plan.now.steps readers.now }
    requires below { length tables < length plan.now.steps }
    ensures run { IfOk result (AreRunThen database.now plan.now setting.now.cap tables) }
    ensures more { IfOk result (λ new. length new ≡ length tables + 1) }
    ensures fault { IfErr result (NamesFirstMany database.now plan.now setting.now.cap tables) }
{
    let count = tables.len();
    match run_growing(setting, database, plan, readers, &mut tables) {
        Ok(table) => tables.push(table)?,
        Err(fault) => return Err(fault_after(count, fault)),
    }
    let kind = &plan.steps.at(count).kind;
    Ok(give_up(setting.alloc, kind, readers, tables))
}

/// The last of the tables.
pub(crate) fn last_of(tables: List<Table>) -> Table
    requires { 0 < length tables }
    ensures last { (front : ListOf TableOf) × (tables ≡ front ++ result ∷ []) }
    ensures valid { IsStore result.store }
{
    match tables.into_vec().pop() {
        Some(table) => {
            table.store.shape();
            table
        }
        None => unreachable!(),
    }
}

// The fault of the step after these tables, by their number.
fn fault_after(tables: usize, fault: StepFault) -> EvalFault
    requires { tables < 2 ^ 63 }
    ensures { (step : ℕ) → result ≡ EvalFault.TooManyCells step → (fault ≡ too_many)
        × (step ≡ suc tables) }
{
    match fault {
        StepFault::TooManyCells => match numbered(tables + 1) {
            Ok(step) => EvalFault::TooManyCells { step },
            Err(memory) => EvalFault::from(memory),
        },
        StepFault::Memory => EvalFault::Memory,
    }
}
