//! Databases in memory: relations by their names, and the texts of their rows by their sorts.
#![tactic(auto)]

mod database;
mod seen;
mod texts;

pub use database::Database;
