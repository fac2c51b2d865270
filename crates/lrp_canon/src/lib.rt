//! Canonical answers of one time column: the least period with which finitely many rows give the set, and the maximal rows.
#![tactic(auto)]

mod answers;
mod counting;
mod edges;
mod laws;
mod rows;
mod storing;

pub use answers::{canonical, canonical_rows, canonical_within};
pub use laws::{answer_texts_are_unique, answers_have_one_row_count};
