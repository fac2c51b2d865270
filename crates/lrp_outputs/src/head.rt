// What needs a head with few columns.
use thiserror::Error;

/// What is told of queries whose head has few columns alone. Each is shown in the words of its refusal.
#[derive(Clone, Copy, Debug, PartialEq, Eq, Error)]
pub enum HeadNeed {
    /// The canonical answer, for a head with one time column.
    #[error("canon needs one time column")]
    Canon,
    /// The number of answers in a window, for a head with at most one time column.
    #[error("count needs at most one time column")]
    Count,
    /// The ranges of a window, for a head of one time column and no other.
    #[error("ranges needs one time column")]
    Ranges,
}
