//! The sample: the texts of a database of trips and of one query, what they are read as, and laws on the query's plan.
#![tactic(auto)]

mod laws;
mod plan_laws;
mod texts;

pub use laws::{sample_query_is_well_sorted, sample_texts_are_read};
pub use plan_laws::{sample_has_few_answers, sample_has_few_cells, sample_is_within_limits};
pub use texts::{Texts, sample_texts};
