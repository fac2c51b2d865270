// The steps of a plan, each by its call.
ghost use Rattle.std.specs.Prelude.{◌≡◌, ◌<◌, ◌≤◌, suc, length};
ghost use Rattle.lrp_model.specs.Formulas.{Question};
ghost use Rattle.lrp_model.specs.Steps.{Steps};
ghost use Rattle.lrp_eval.specs.Running.{IsNext, IsOperand, IsRunResult};

use crate::sorting::sort_step;
use lrp_algebra::{drop_data, drop_time, extend, join, leaf, scan, select, union};
use lrp_database::Database;
use lrp_minus::{complement, minus};
use lrp_model::{Head, Step, StepKind};
use lrp_tables::{Setting, StepFault, Table};

/// The table of a step, by its number from 1.
pub(crate) fn operand(tables: &[Table], number: u32) -> &Table
    requires low { 0 < number }
    requires high { number ≤ length tables.now }
    ensures { IsOperand tables.now number result.now }
{
    let table = &tables[number as usize - 1];
    table.store.shape();
    table
}

/// The table of the step after these tables.
pub(crate) fn run_step(
    setting: &Setting<'_>,
    database: &Database,
    head: &Head,
    tables: &[Table],
    step: &Step,
) -> Result<Table, StepFault>
    requires next { (planned : Steps) × (q : Question) × (head.now.columns ≡ q.head)
        × IsNext planned database.now q setting.now.cap setting.now.domain.now tables.now step.now.kind
        step.now.period }
    ensures { (planned : Steps) (q : Question) → head.now.columns ≡ q.head
        → IsNext planned database.now q setting.now.cap setting.now.domain.now tables.now step.now.kind
        step.now.period
        → IsRunResult planned database.now q setting.now.cap (suc (length tables.now)) result }
{
    let period = step.period;
    match &step.kind {
        StepKind::Scan { relation, terms } => match database.relation(relation) {
            Some(relation) => scan(setting, relation, terms, period),
            None => unreachable!(),
        },
        StepKind::Leaf { test } => leaf(setting, test),
        StepKind::Sort { name, texts, .. } => sort_step(setting, name, texts),
        StepKind::Join { left, right, tests } => {
            let (left, right) = (operand(tables, *left), operand(tables, *right));
            join(setting, left, right, tests, period)
        }
        StepKind::Select { of, test } => select(setting, operand(tables, *of), test, period),
        StepKind::Union { left, right } => {
            let (left, right) = (operand(tables, *left), operand(tables, *right));
            union(setting, left, right, period)
        }
        StepKind::Minus { left, right } => {
            let (left, right) = (operand(tables, *left), operand(tables, *right));
            minus(setting, left, right, period)
        }
        StepKind::Complement { of } => complement(setting, operand(tables, *of)),
        StepKind::DropTime { of, name } => {
            Ok(drop_time(setting.alloc, operand(tables, *of), name)?)
        }
        StepKind::DropData { of, name } => {
            Ok(drop_data(setting.alloc, operand(tables, *of), name, setting.domain)?)
        }
        StepKind::Extend { of } => extend(setting, operand(tables, *of), head),
    }
}
