//! Queries as text: what is read.
#![tactic(auto)]

mod atoms;
mod binders;
mod formulas;
mod grammar;
mod laws;
mod operators;
mod queries;
mod starts;
mod terms;
mod trees;
mod words;

pub use grammar::{Grammar, Plain, Temporal, Wide};
pub use laws::query_texts_have_one_tree;
pub use lrp_model::{
    QueryFault, QueryKind, QueryRead, RawColumn, RawDefinition, RawFile, RawFormula, RawKind,
    RawQuery, RawTerm, RawTermKind,
};
pub use queries::{read_bytes, read_file, read_query};
pub use terms::STAR;
pub use words::{Leading, Opening};
