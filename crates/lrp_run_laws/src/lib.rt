//! Laws of whole runs: causes, complete runs, runs that end alike, canonical answers, and pages that follow.
//! Each law is the contract of a function that does nothing but call the laws that it rests on.
#![tactic(auto)]

mod laws;

pub use laws::{
    equal_answers_equal_bytes, lawful_runs_are_complete, pages_follow, row_counts_are_unique,
    runs_have_causes, runs_have_one_outcome,
};
