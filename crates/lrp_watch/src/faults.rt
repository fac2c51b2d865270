// Why least answers are not told.
ghost use Rattle.std.specs.Prelude.{◌≡◌};
ghost use Rattle.lrp_watch.specs.Faults.{fault_of};

use lrp_keep::KeepFault;
use lrp_model::{LIMIT, Memory};
use thiserror::Error;

/// The first limit that is passed, and the edit at which it is, from 1; the opening is edit 0. [`WatchFault::Memory`] says
/// nothing of the edits.
#[derive(Clone, Copy, Debug, PartialEq, Eq, Error)]
pub enum WatchFault {
    /// The least common multiple of the periods is above 2^62.
    #[error("period above {LIMIT} at edit {edit}")]
    PeriodLimit { edit: u64 },
    /// The kept reach is above 2^62, doubled once and once more for each time column of the head.
    #[error("bound above {LIMIT} at edit {edit}")]
    BoundLimit { edit: u64 },
    /// Some rows of the first atoms of a disjunct together inhabit more cells than are allowed.
    #[error("too many cells at edit {edit}")]
    TooManyCells { edit: u64 },
    /// There was no memory.
    #[error("memory")]
    Memory,
}

impl WatchFault {
    /// A keeper's fault at the edit of this number.
    pub(crate) fn at(edit: u64, fault: KeepFault) -> WatchFault
        ensures { result ≡ fault_of edit fault }
    {
        match fault {
            KeepFault::PeriodLimit => WatchFault::PeriodLimit { edit },
            KeepFault::BoundLimit => WatchFault::BoundLimit { edit },
            KeepFault::TooManyCells => WatchFault::TooManyCells { edit },
            KeepFault::Memory => WatchFault::Memory,
        }
    }
}

impl From<Memory> for WatchFault {
    ghost use Rattle.std.specs.Prelude.{◌≡◌};
    ghost use Rattle.lrp_watch.specs.declared.faults.WatchFault.TheVariants.{Memory as memory};

    ghost from_gives = { λ _ fault. fault ≡ memory };

    fn from(_: Memory) -> WatchFault {
        WatchFault::Memory
    }
}
