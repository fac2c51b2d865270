//! Joins by groups, windows and trees, and with them all operations on tables by which a query's plan is run.
#![tactic(auto)]

mod finding;
mod groups;
mod index;
mod instants;
mod joins;
mod meeting;
mod near;

pub use finding::{IndexedOperand, MeetingIndex, zones_meeting};
pub use index::Index;
pub use joins::join;
pub use lrp_steps::{drop_data, drop_time, extend, leaf, scan, select, union};
pub use lrp_tables::{StepFault, Table, Vars};
