// Unions whose left table no later step reads: it takes in the right one's cells.
ghost use Rattle.std.specs.Prelude.{◌≡◌, ◌≤◌, ◌<◌, IfSome, length};
ghost use Rattle.lrp_eval.specs.Growing.{AreLeftOrTaken, IsGrowth, IsNextRun, IsReplacedAt, IsSomeUnion, IsUnionRun};
ghost use Rattle.lrp_eval.specs.Running.{AreRunBySome, IsOperand};

use crate::freeing::nothing;
use crate::running::{operand, run_step};
use lrp_database::Database;
use lrp_model::{List, Plan, Step, StepKind};
use lrp_steps::unite;
use lrp_tables::{Setting, StepFault, Table};
use std::alloc::Global;
use std::mem;

/// The steps that a union reads, by their numbers from 1. No step after it reads the left one.
#[derive(Clone, Copy)]
pub(crate) struct Growth {
    pub(crate) left: u32,
    pub(crate) right: u32,
}

/// The table of the step after these. A union takes that of its left step, if no later one reads it.
pub(crate) fn run_growing(
    setting: &Setting<'_>,
    database: &Database,
    plan: &Plan,
    readers: &[usize],
    tables: &mut List<Table>,
) -> Result<Table, StepFault>
    requires domain { setting.now.domain.now ≡ plan.now.domain }
    requires plan { AreRunBySome database.now plan.now setting.now.cap tables.old }
    requires below { length tables.old < length plan.now.steps }
    ensures run { IsNextRun database.now plan.now setting.now.cap tables.old result }
    ensures left { AreLeftOrTaken readers.now tables.old tables.new }
{
    let step = plan.steps.at(tables.len());
    match growth_of(step, readers, tables.len()) {
        Some(growth) => grow(setting, growth, step.period, tables),
        None => run_step(setting, database, &plan.head, tables.as_slice(), step),
    }
}

// The steps that the step reads after this number of others, if it is a union and no later one reads the left.
fn growth_of(step: &Step, readers: &[usize], count: usize) -> Option<Growth>
    ensures { IfSome result (IsGrowth step.now readers.now count) }
{
    let StepKind::Union { left, right } = &step.kind else {
        return None;
    };
    let growth = Growth {
        left: *left,
        right: *right,
    };
    let place = growth.left as usize;
    if growth.left == growth.right || place == 0 || place > count || place > readers.len() {
        return None;
    }
    let reader = readers[place - 1];
    if reader > 0 && reader - 1 > count {
        return None;
    }
    Some(growth)
}

// The union of the two tables, in the memory of the left one.
fn grow(
    setting: &Setting<'_>,
    growth: Growth,
    period: i64,
    tables: &mut List<Table>,
) -> Result<Table, StepFault>
    requires { IsSomeUnion setting.now.cap setting.now.domain.now tables.old growth period }
    ensures run { IsUnionRun setting.now.cap setting.now.domain.now tables.old growth period
        result }
    ensures left { IsReplacedAt growth.left tables.old tables.new }
{
    let left = taken_out(setting.alloc, growth.left, tables);
    let right = operand(tables.as_slice(), growth.right);
    unite(setting, left, right, period)
}

// The table of a step, by its number from 1. One that takes no memory stands for it.
fn taken_out(alloc: Global, number: u32, tables: &mut List<Table>) -> Table
    requires low { 0 < number }
    requires high { number ≤ length tables.old }
    ensures taken { IsOperand tables.old number result }
    ensures left { IsReplacedAt number tables.old tables.new }
{
    let mut left = mem::replace(tables, List::new(alloc)).into_vec();
    let table = mem::replace(&mut left[number as usize - 1], nothing(alloc));
    *tables = List::from_vec(left);
    table.store.shape();
    table
}
