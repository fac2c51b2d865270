// Tables that no later step reads are given up.
ghost use Rattle.std.specs.Prelude.{◌∷◌, [], ℕ, Contains, IfOk};
ghost use Rattle.lrp_plan_laws.specs.Made.{operands};
ghost use Rattle.lrp_eval.specs.Freeing.{AreLastReaders, AreLeftOrFreed, IsNoted};

use lrp_model::{List, Memory, Shape, Step, StepKind};
use lrp_store::Store;
use lrp_tables::{Table, Vars};
use std::alloc::Global;

/// The steps that a step reads, by their numbers from 1; 0 stands for none.
pub fn operands_of(kind: &StepKind) -> (u32, u32)
    ensures { (l : ℕ) → Contains (operands kind.now) l → Contains (result.0 ∷ result.1 ∷ []) l }
{
    match kind {
        StepKind::Scan { .. } => (0, 0),
        StepKind::Leaf { .. } => (0, 0),
        StepKind::Sort { .. } => (0, 0),
        StepKind::Join { left, right, .. } => (*left, *right),
        StepKind::Select { of, .. } => (*of, 0),
        StepKind::Union { left, right } => (*left, *right),
        StepKind::Minus { left, right } => (*left, *right),
        StepKind::Complement { of } => (*of, 0),
        StepKind::DropTime { of, .. } => (*of, 0),
        StepKind::DropData { of, .. } => (*of, 0),
        StepKind::Extend { of } => (*of, 0),
    }
}

/// For each step the number of the last step that reads its table, 0 where none does.
pub(crate) fn last_readers(alloc: Global, steps: &[Step]) -> Result<Vec<usize>, Memory>
    ensures { IfOk result (λ made. AreLastReaders steps.now made.items) }
{
    let mut readers = Vec::with_capacity(alloc, steps.len())?;
    for _ in steps {
        readers.push(0)?;
    }
    for i in 0..steps.len() {
        let (first, second) = operands_of(&steps[i].kind);
        note(&mut readers, first, i + 1);
        note(&mut readers, second, i + 1);
    }
    Ok(readers)
}

// Notes who reads a step.
fn note(readers: &mut Vec<usize>, of: u32, reader: usize)
    ensures { IsNoted of reader readers.old.items readers.new.items }
{
    let place = of as usize;
    if 0 < place && place <= readers.len() {
        readers[place - 1] = reader;
    }
}

/// The tables of the first steps, without those that the last of these steps read and no later step does.
pub(crate) fn give_up(
    alloc: Global,
    kind: &StepKind,
    readers: &[usize],
    tables: List<Table>,
) -> List<Table>
    ensures { AreLeftOrFreed readers.now tables result }
{
    let mut left = tables.into_vec();
    let (first, second) = operands_of(kind);
    give_up_one(alloc, first, readers, &mut left);
    give_up_one(alloc, second, readers, &mut left);
    List::from_vec(left)
}

// Gives up the table of a step, unless a later step reads it or it is the last one.
fn give_up_one(alloc: Global, of: u32, readers: &[usize], tables: &mut Vec<Table>)
    ensures { AreLeftOrFreed readers.now tables.old.items tables.new.items }
{
    let place = of as usize;
    if place == 0 || place >= tables.len() || place > readers.len() {
        return;
    }
    if readers[place - 1] <= tables.len() {
        tables[place - 1] = nothing(alloc);
    }
}

/// A table that takes no memory.
pub(crate) fn nothing(alloc: Global) -> Table {
    let shape = Shape { times: 0, texts: 0 };
    Table {
        vars: Vars {
            times: List::new(alloc),
            texts: List::new(alloc),
        },
        store: Store::new(alloc, shape, 1),
    }
}
