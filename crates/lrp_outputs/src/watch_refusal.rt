// Why a watch is refused after its query.
ghost use Rattle.std.specs.Prelude.{◌≡◌};
ghost use Rattle.lrp_outputs.specs.Outcomes.{watch_refused_with};

use crate::status::Status;
use lrp_model::{DbFault, LIMIT};
use thiserror::Error;

/// Why least answers are not told of a query that was read. Limits are passed at an edit, from 1; the opening is edit 0.
#[derive(Clone, Copy, Debug, PartialEq, Eq, Error)]
pub enum WatchRefusal {
    /// The query is not in kept form.
    #[error("query not kept")]
    NotKept,
    /// The file of the edits could not be read.
    #[error("read of edits")]
    Read,
    /// It has more bytes than a file may have.
    #[error("edits longer than 16777216 bytes")]
    Long,
    /// Its text has a fault.
    #[error("edits {} at {}:{}", .0.kind.word(), .0.place.line, .0.place.column)]
    Edits(DbFault),
    /// The least common multiple of the periods is above 2^62.
    #[error("period above {LIMIT} at edit {edit}")]
    PeriodLimit { edit: u64 },
    /// The kept reach is above 2^62, doubled once and once more for each time column of the head.
    #[error("bound above {LIMIT} at edit {edit}")]
    BoundLimit { edit: u64 },
    /// Some rows of the first atoms of a disjunct together inhabit more than `cap` cells.
    #[error("more than {cap} cells at edit {edit}")]
    Cells { cap: u32, edit: u64 },
}

impl WatchRefusal {
    /// The status with which the run ends.
    pub fn status(&self) -> Status
        ensures { result ≡ watch_refused_with self.now }
    {
        match self {
            WatchRefusal::NotKept => Status::Query,
            WatchRefusal::Read => Status::Read,
            WatchRefusal::Long | WatchRefusal::Edits(_) => Status::Database,
            WatchRefusal::PeriodLimit { .. }
            | WatchRefusal::BoundLimit { .. }
            | WatchRefusal::Cells { .. } => Status::Limit,
        }
    }
}
