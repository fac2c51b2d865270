// Parts of tables, one for each period.
ghost use Rattle.std.specs.Prelude.{◌≡◌, ◌<◌, ◌^◌, ◌++◌, ◌∷◌, [], ℤ, pos, IfOk, IfSome, length};
ghost use Rattle.lrp_store.specs.Stores.{HasReach, IsStore};
ghost use Rattle.lrp_tables.specs.Tables.{HasAssignment};
ghost use Rattle.lrp_periods.specs.Combining.{CanAddPart, IsPlaceWith};
ghost use Rattle.lrp_periods.specs.Parts.{ArePartsAdded};

use crate::periods::is_same;
use lrp_algebra::union;
use lrp_model::{List, Memory};
use lrp_tables::{Setting, StepFault, Table};
use thiserror::Error;

// The most parts that a table has.
const MOST: usize = 16;

// The greatest bound of a part.
const SMALL: u64 = 1 << 59;

/// Why an operation made no parts. `GivenUp` says nothing of the table: more parts or cells than are worth it were come to, or
/// a bound was too far.
#[derive(Clone, Copy, Debug, PartialEq, Eq, Error)]
pub enum PartsFault {
    #[error("parts are given up")]
    GivenUp,
    #[error("memory")]
    Memory,
}

impl From<StepFault> for PartsFault {
    ghost use Rattle.lrp_periods.specs.Faults.{parts_fault};
    ghost use Rattle.std.specs.Prelude.{◌≡◌};

    ghost from_gives = { λ fault made. made ≡ parts_fault fault };

    fn from(fault: StepFault) -> PartsFault {
        match fault {
            StepFault::TooManyCells => PartsFault::GivenUp,
            StepFault::Memory => PartsFault::Memory,
        }
    }
}

impl From<Memory> for PartsFault {
    ghost use Rattle.lrp_periods.specs.declared.parts.PartsFault.TheVariants.{Memory as MemoryFault};
    ghost use Rattle.std.specs.Prelude.{◌≡◌};

    ghost from_gives = { λ _ made. made ≡ MemoryFault };

    fn from(_: Memory) -> PartsFault {
        PartsFault::Memory
    }
}

/// The table, where no bound of it is too far.
pub(crate) fn small(table: Table) -> Result<Table, PartsFault>
    ensures same { IfOk result (λ made. made ≡ table) }
    ensures valid { IfOk result (λ made. IsStore made.store) }
    ensures reach { IfOk result (λ made. HasReach made.store (2 ^ 59)) }
{
    table.store.shape();
    if table.store.has_reach(SMALL) {
        Ok(table)
    } else {
        Err(PartsFault::GivenUp)
    }
}

/// The parts, of which there is one at least.
pub(crate) fn some(parts: List<Table>) -> Result<List<Table>, PartsFault>
    ensures same { IfOk result (λ made. made ≡ parts) }
    ensures some { IfOk result (λ made. 0 < length made) }
{
    if parts.len() == 0 {
        return Err(PartsFault::GivenUp);
    }
    Ok(parts)
}

/// The parts and a further one, which becomes one with that of its period.
pub(crate) fn add_part(
    setting: &Setting<'_>,
    parts: List<Table>,
    made: Table,
) -> Result<List<Table>, PartsFault>
    requires { (period : ℤ) × CanAddPart setting.now.domain.now period parts made }
    ensures { IfOk result (λ new. (period : ℤ)
        → CanAddPart setting.now.domain.now period parts made
        → ArePartsAdded setting.now.domain.now made.vars.times made.vars.texts period
        (HasAssignment made setting.now.domain.now) parts new) }
{
    match place_with(parts.as_slice(), &made) {
        Some(place) => join_part(setting, parts, made, place),
        None => push_part(parts, made),
    }
}

// The place of a part that has the table's period.
fn place_with(parts: &[Table], table: &Table) -> Option<usize>
    ensures { IfSome result (IsPlaceWith parts.now (pos table.now.store.period)) }
{
    table.store.shape();
    for place in 0..parts.len() {
        let part = &parts[place];
        part.store.shape();
        if is_same(part.store.period(), table.store.period()) {
            return Some(place);
        }
    }
    None
}

// The parts and the further one.
fn push_part(parts: List<Table>, made: Table) -> Result<List<Table>, PartsFault>
    ensures few { IfOk result (λ _. length parts < 16) }
    ensures pushed { IfOk result (λ new. new ≡ parts ++ made ∷ []) }
{
    if parts.len() >= MOST {
        return Err(PartsFault::GivenUp);
    }
    let mut all = parts;
    all.push(made)?;
    Ok(all)
}

// The parts, of which the one at a place becomes one with the further one.
fn join_part(
    setting: &Setting<'_>,
    parts: List<Table>,
    made: Table,
    place: usize,
) -> Result<List<Table>, PartsFault>
    requires can { (period : ℤ) × CanAddPart setting.now.domain.now period parts made }
    requires place { IsPlaceWith parts (pos made.store.period) place }
    ensures { IfOk result (λ new. (period : ℤ)
        → CanAddPart setting.now.domain.now period parts made
        → ArePartsAdded setting.now.domain.now made.vars.times made.vars.texts period
        (HasAssignment made setting.now.domain.now) parts new) }
{
    let both = union(setting, parts.at(place), &made, made.store.period())?;
    let joined = small(both)?;
    let mut all = parts.into_vec();
    all[place] = joined;
    Ok(List::from_vec(all))
}
