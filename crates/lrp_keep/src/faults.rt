// Why answers are not kept.
ghost use Rattle.std.specs.Prelude.{◌≡◌};
ghost use Rattle.lrp_keep.specs.Faults.{kept_fault};

use lrp_model::{LIMIT, Memory};
use lrp_tables::StepFault;
use thiserror::Error;

/// Why a query's answers are not kept, or a row was not added. [`KeepFault::Memory`] says nothing of the rows.
#[derive(Clone, Copy, Debug, PartialEq, Eq, Error)]
pub enum KeepFault {
    /// The least common multiple of the periods is above 2^62.
    #[error("period above {LIMIT}")]
    PeriodLimit,
    /// The period is not, but the kept reach is, doubled once and once more for each time column of the head.
    #[error("bound above {LIMIT}")]
    BoundLimit,
    /// Some rows of the first atoms of a disjunct meet in more cells than are allowed.
    #[error("too many cells")]
    TooManyCells,
    /// There was no memory.
    #[error("memory")]
    Memory,
}

impl From<Memory> for KeepFault {
    ghost use Rattle.std.specs.Prelude.{◌≡◌};
    ghost use Rattle.lrp_keep.specs.declared.faults.KeepFault.TheVariants.{Memory as memory};

    ghost from_gives = { λ _ fault. fault ≡ memory };

    fn from(_: Memory) -> KeepFault {
        KeepFault::Memory
    }
}

/// The same fault, of a step.
pub(crate) fn of_step(fault: StepFault) -> KeepFault
    ensures { result ≡ kept_fault fault }
{
    match fault {
        StepFault::TooManyCells => KeepFault::TooManyCells,
        StepFault::Memory => KeepFault::Memory,
    }
}
