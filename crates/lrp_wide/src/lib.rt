//! Files of the wide language: what they mean, and the query of first-order logic that says the same.
#![tactic(auto)]

mod atoms;
mod chains;
mod checking;
mod inlining;
mod laws;
mod measures;
mod names;
mod narrow;
mod numbering;
mod passing;
mod plain;
mod surveying;
mod uses;

pub use checking::{WideRead, expand_file};
pub use laws::{expanded_files_are_lawful, expansion_keeps_answers, files_can_be_expanded};
