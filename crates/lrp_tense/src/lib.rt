//! Queries with temporal operators: what they mean, how they are read, and the query without operators that says the same.
#![tactic(auto)]

mod counting;
mod expansion;
mod laws;
mod queries;
mod renaming;
mod scope;
mod tree;
mod variables;
mod written_operators;
mod written_out;

pub use expansion::expand;
pub use laws::{
    expansion_keeps_answers, expansion_keeps_meaning, expansion_leaves_plain_queries,
    plain_texts_are_read_alike, texts_are_one_query,
};
pub use lrp_model::{Paired, Ranged};
pub use queries::read_tense;
pub use tree::{TenseFormula, TenseKind, TenseQuery};
pub use written_out::{
    Connective, QuantifierKind, boxed, denied, grouped, implied, joined, quantified,
};
