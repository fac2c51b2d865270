//! Edits of a database as text: rows that are added, and rows that are taken out.
#![tactic(auto)]

mod edits;
mod headings;
mod laws;
mod read;
mod reading;

pub use edits::Edit;
pub use laws::{edits_are_one, edits_have_no_fault, edits_have_one_fault};
pub use read::read_edits;
