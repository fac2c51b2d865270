//! The plan of a query by either way of planning: as it is written, or under guards.
#![tactic(auto)]

mod binding;
mod builder;
mod choices;
mod elements;
mod lists;
mod making;
mod needs;
mod planning;
mod sorting;
mod standing;

pub use planning::plan_by;
