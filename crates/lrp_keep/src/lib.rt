//! Answers of queries that are kept while rows are added to their databases and removed from them.
#![tactic(auto)]

mod faults;
mod keep;
mod kept_query;
mod states;
mod unions;

pub use faults::KeepFault;
pub use keep::Keep;
