//! Differences and complements of tables: in each cell, what zones leave where others are taken away.
#![tactic(auto)]

mod absences;
mod beneath;
mod complements;
mod cutters;
mod differences;
mod filling;
mod taking;

pub use complements::complement;
pub use differences::minus;
pub use lrp_cutting::{pieces, settle};
