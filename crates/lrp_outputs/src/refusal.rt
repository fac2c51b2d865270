// Why a command is refused.
ghost use Rattle.std.specs.Prelude.{◌≡◌};
ghost use Rattle.lrp_outputs.specs.Outcomes.{refused_with};
ghost use Rattle.lrp_outputs.specs.Refusals.{refused_by, token_refused};
ghost use Rattle.lrp_outputs.specs.declared.refusal.Refusal.TheVariants.{Memory as memory};

use crate::head::HeadNeed;
use crate::status::Status;
use crate::watch_refusal::WatchRefusal;
use lrp_lint::LintFault;
use lrp_model::{DbFault, LIMIT, Memory, QueryFault, QueryRead};
use lrp_token::TokenFault;
use thiserror::Error;

/// Why a command is refused. Each is shown in the words of its line.
#[derive(Clone, Copy, Debug, PartialEq, Eq, Error)]
pub enum Refusal {
    /// The words are no command.
    #[error("usage")]
    Usage,
    /// The database's file could not be read.
    #[error("read of database")]
    ReadDatabase,
    /// The database's file has more bytes than a file may have.
    #[error("database longer than 16777216 bytes")]
    LongDatabase,
    /// The database's text has a fault.
    #[error("{0}")]
    Database(DbFault),
    /// The query's file could not be read.
    #[error("read of query")]
    ReadQuery,
    /// The query's file has more bytes than a file may have.
    #[error("query longer than 16777216 bytes")]
    LongQuery,
    /// The query's text has a fault, or its sorts over the database.
    #[error("{0}")]
    Query(QueryFault),
    /// The expanded query has too many formulas.
    #[error("more than 1000000 formulas")]
    Formulas,
    /// A formula of the expanded query is too deep.
    #[error("deeper than 400 formulas")]
    Depth,
    /// The query's period is above 2^62.
    #[error("period above {LIMIT}")]
    PeriodLimit,
    /// The query's reach is above 2^62, doubled once and once more for each time column of the head.
    #[error("bound above {LIMIT}")]
    BoundLimit,
    /// The token of a page is no token.
    #[error("token form")]
    TokenForm,
    /// The token has other counts of times or texts than the head.
    #[error("token shape")]
    TokenShape,
    /// The token is of other files.
    #[error("token stale")]
    TokenStale,
    /// A step has more than `cap` inhabited cells; the first such step, from 1.
    #[error("more than {cap} cells at step {step}")]
    Cells { cap: u32, step: u32 },
    /// The head has columns with which what is asked for is not told.
    #[error("{0}")]
    Head(HeadNeed),
    /// The canonical answer has more than `cap` rows.
    #[error("more than {cap} canonical rows")]
    CanonRows { cap: u32 },
    /// Least answers are not told of the query.
    #[error("{0}")]
    Watch(WatchRefusal),
    /// Memory was refused.
    #[error("memory")]
    Memory,
}

impl Refusal {
    /// The status with which the run ends.
    pub fn status(&self) -> Status
        ensures { result ≡ refused_with self.now }
    {
        match self {
            Refusal::Usage => Status::Usage,
            Refusal::ReadDatabase | Refusal::ReadQuery => Status::Read,
            Refusal::LongDatabase | Refusal::Database(_) => Status::Database,
            Refusal::LongQuery
            | Refusal::Query(_)
            | Refusal::TokenForm
            | Refusal::TokenShape
            | Refusal::TokenStale
            | Refusal::Head(_) => Status::Query,
            Refusal::Formulas
            | Refusal::Depth
            | Refusal::PeriodLimit
            | Refusal::BoundLimit
            | Refusal::Cells { .. }
            | Refusal::CanonRows { .. } => Status::Limit,
            Refusal::Watch(refusal) => refusal.status(),
            Refusal::Memory => Status::Memory,
        }
    }
}

impl From<Memory> for Refusal {
    ghost from_gives = { λ _ e. e ≡ memory };

    fn from(_: Memory) -> Self {
        Refusal::Memory
    }
}

impl From<LintFault> for Refusal {
    ghost from_gives = { λ _ e. e ≡ memory };

    fn from(fault: LintFault) -> Self {
        match fault {
            LintFault::Memory => Refusal::Memory,
        }
    }
}

impl From<QueryRead> for Refusal {
    ghost from_gives = { λ read e. e ≡ refused_by read };

    fn from(read: QueryRead) -> Self {
        match read {
            QueryRead::Fault { fault } => Refusal::Query(fault),
            QueryRead::Memory => Refusal::Memory,
        }
    }
}

impl From<TokenFault> for Refusal {
    ghost from_gives = { λ fault e. e ≡ token_refused fault };

    fn from(fault: TokenFault) -> Self {
        match fault {
            TokenFault::Form => Refusal::TokenForm,
            TokenFault::Shape => Refusal::TokenShape,
            TokenFault::Memory => Refusal::Memory,
        }
    }
}
