//! The sort checker: a raw query as a query of the engine, or the first of its sort faults.
#![tactic(auto)]

mod catalog;
mod checking;
mod definitions;
mod earliest;
mod finding;
mod head;
mod resolving;
mod scope;
mod terms;
mod walk;
mod width;

pub use catalog::Catalog;
pub use checking::{check, sort_fault};
pub use definitions::Definitions;
pub use earliest::{fault_where, sooner_of};
pub use lrp_model::QueryRead;
